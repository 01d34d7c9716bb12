//! Laws of sessions.

ghost use Rattle.std.specs.Prelude.{◌≡◌, ◌<◌, ◌+◌, ◌++◌, ◌^◌, Bool, List, Option, Some, slice_get, take, ℕ};
ghost use Rattle.mx_app_step.specs.Traces.{transition_of};
ghost use Rattle.mx_machine.specs.History.{events_of_history, world_after_events};
ghost use Rattle.mx_machine.specs.World.{World};
ghost use Rattle.mx_machine.specs.declared.history.Record.{Record};
ghost use Rattle.mx_walk.specs.declared.progress.Part.{Part};
ghost use Rattle.mx_walk.specs.Walks.{Walk};
ghost use Rattle.mx_app_look.specs.Before.{step_before};
ghost use Rattle.mx_app_look.specs.Sessions.{IsBegun, IsSession, begun_text, sight_at};

use mx_walk::positions_replay;

/// Law: what a session prints is determined by the world of the boot, the records of the history and the
/// lines that are typed.
pub fn one_session()
    ensures { (boot : World) (records : List Record) (j k : Walk) (asks : Bool)
        (typed : List (Option (List ℕ))) (s t : List ℕ) (ps qs : List Part)
        → IsBegun boot records j → IsBegun boot records k
        → IsSession asks (sight_at j) typed s ps → IsSession asks (sight_at k) typed t qs
        → begun_text asks j ++ s ≡ begun_text asks k ++ t }
{}

/// Law: what `why` shows of a record is the transition that a trace shows.
pub fn why_is_traced()
    ensures { (boot : World) (records : List Record) (n : ℕ) (x : Record) → n + 1 < 2 ^ 32
        → slice_get records n ≡ Some x → step_before boot records n x
        ≡ transition_of (world_after_events boot (events_of_history (take n records))) (n + 1) x }
{
    positions_replay();
}
