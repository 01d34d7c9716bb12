//! Steps that end in a fault.

ghost use Rattle.std.specs.Prelude.{◌≡◌};
ghost use Rattle.mx_machine.specs.Machine.{world_of};
ghost use Rattle.mx_machine.specs.World.{held_by};
ghost use Rattle.mx_app_gdb.specs.Halts.{fault_here};
ghost use Rattle.mx_app_gdb.specs.Marks.{fault_of, is_at_fault};

use crate::halts::Halted;
use crate::threads::Counted;
use mx_image::Stop;
use mx_machine::{Machine, Out};
use mx_proc::Slot;
use mx_walk::Walker;

/// The vector of the fault in which the last step of a process ended that counts, if it did.
pub(crate) fn fault_of(counted: Counted, slot: Slot, out: &Out) -> Option<u8>
    ensures { result ≡ fault_of counted slot out.now }
{
    match out.stop {
        Stop::Fault(vector) => if counted.counts(slot) {
            Some(vector)
        } else {
            None
        },
        Stop::Spent | Stop::Trap => None,
    }
}

/// Whether the last step of what a processor holds ended in a fault that counts.
pub(crate) fn is_at_fault(machine: &Machine, cpu: u8, counted: Counted) -> bool
    ensures { result ≡ is_at_fault counted (held_by (world_of machine.now) cpu) }
{
    match (machine.slot_on(cpu), machine.out(cpu)) {
        (Some(slot), Some(out)) => fault_of(counted, slot, out).is_some(),
        _ => false,
    }
}

/// The fault in which the step right before a position ended, if it is one that counts.
pub(crate) fn fault_here(walker: &Walker, counted: Counted) -> Option<Halted>
    ensures { result ≡ fault_here counted walker.now }
{
    let here = walker.here();
    if here.steps == 0 {
        return None;
    }
    let cpu = walker.records().get(here.records)?.actor;
    let slot = walker.machine().slot_on(cpu)?;
    let out = walker.machine().out(cpu)?;
    let vector = fault_of(counted, slot, out)?;
    Some(Halted::Fault(slot, vector))
}
