//! The law of a machine at rest that nothing from outside can wake. It has no code.

ghost use Rattle.std.specs.Prelude.{ℕ, List};
ghost use Rattle.mx_machine.specs.declared.events.Event.{Event};
ghost use Rattle.mx_machine.specs.World.{World};
ghost use Rattle.mx_laws.specs.Still.{StaysStill};

/// Law: in a machine at rest, in which nobody owns a line or has an alarm, no events but kills change anything but
/// the uptime. So who waits there waits for ever.
pub fn still_machines_stay()
    ensures { (w : World) (xs : List (ℕ × Event)) → StaysStill w xs }
{}
