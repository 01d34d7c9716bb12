//! The law of secrecy, and what "the same but for one image" means.

ghost use Rattle.std.specs.Prelude.{ℕ, List};
ghost use Rattle.mx_exec.specs.declared.image.Image.{Image};
ghost use Rattle.mx_machine.specs.declared.events.Event.{Event};
ghost use Rattle.mx_machine.specs.World.{World, HeldProcess};
ghost use Rattle.mx_laws.specs.SecrecyLaws.{TellsNothing, TellNothing, KeepsRules, KeepRules, IsElsewhereSame, HomeImageIsHidden, HeldImageIsHidden};
ghost use Rattle.mx_laws.specs.Same.{SameBut};

/// Law: two machines that are the same but for the image of the process in slot `q` answer an
/// event alike, and stay the same but for it. The event isn't a step or a return of that process,
/// nor a return of another that takes its message or copies from it. Under the strict rules a copy
/// is no exception where the process has no window open to the caller for that range. So it is for
/// events in a row.
pub fn images_stay_secret()
    ensures event { (q : ℕ) (w v : World) (a : ℕ) (e : Event) → TellsNothing q w v a e }
    ensures events { (q : ℕ) (w v : World) (xs : List (ℕ × Event)) → TellNothing q w v xs }
{}

/// Law: two machines that are the same but for the image of the process in slot `q` have the same
/// of all else: every other process, what processors hold of others, the devices with the console,
/// the deliveries and the records.
pub fn all_else_is_same()
    ensures { (q : ℕ) (w v : World) → SameBut q w v → IsElsewhereSame q w v }
{}

/// Law: a sound machine, and the machine with another image in its place, are the same but for it.
/// At home the other image has the same limit; on a processor it may be any.
pub fn other_images_differ()
    ensures home { (w : World) (q : ℕ) (m : Image) → HomeImageIsHidden w q m }
    ensures held { (w : World) (a : ℕ) (l : HeldProcess) (m : Image) → HeldImageIsHidden w a l m }
{}

/// Law: no event changes the rules that a machine runs by, nor do events in a row.
pub fn rules_stay()
    ensures event { (w : World) (a : ℕ) (e : Event) → KeepsRules w a e }
    ensures events { (w : World) (xs : List (ℕ × Event)) → KeepRules w xs }
{}
