//! What gdb is told of a halt.

ghost use Rattle.std.specs.Prelude.{◌≡◌};
ghost use Rattle.mx_machine.specs.Machine.{world_of};
ghost use Rattle.mx_app_gdb.specs.Stops.{reason_of, signal_of, signal_of_fault, slot_halted, stop_at};

use crate::addresses::shown_address;
use crate::halts::Halted;
use crate::threads::Threads;
use mx_machine::Machine;
use mx_print_answers::image_in;
use mx_proc::Slot;
use mx_rsp::{Stop, StopReason};
use mx_word::Register;

/// The signal of a stop that nothing else is said of: that of a trap.
const TRAP: u8 = 5;

/// The signal that gdb has for a fault: of arithmetic, of a breakpoint, of an instruction, or of memory.
fn signal_of_fault(vector: u8) -> u8
    ensures { result ≡ signal_of_fault vector }
{
    match vector {
        0 | 4 => 8,
        6 => 4,
        12 | 13 => 11,
        _ => TRAP,
    }
}

/// The signal of a halt.
fn signal_of(halted: Halted) -> u8
    ensures { result ≡ signal_of halted }
{
    match halted {
        Halted::Fault(_, vector) => signal_of_fault(vector),
        _ => TRAP,
    }
}

/// What else is said of it.
fn reason_of(halted: Halted) -> StopReason
    ensures { result ≡ reason_of halted }
{
    match halted {
        Halted::There(_) | Halted::AtBreak(_) | Halted::Fault(..) => StopReason::Plain,
        Halted::Changed(watch) => StopReason::Watched(watch.address),
        Halted::AtBegin(_) => StopReason::AtBegin,
        Halted::AtEnd(_) => StopReason::AtEnd,
    }
}

/// At whose process it is.
pub(crate) fn slot_halted(halted: Halted) -> Slot
    ensures { result ≡ slot_halted halted }
{
    match halted {
        Halted::There(slot) => slot,
        Halted::AtBreak(slot) => slot,
        Halted::Changed(watch) => watch.slot,
        Halted::Fault(slot, _) => slot,
        Halted::AtBegin(slot) => slot,
        Halted::AtEnd(slot) => slot,
    }
}

/// What gdb is told of a halt, with the registers that it asks for first.
pub(crate) fn stop_at(machine: &Machine, threads: Threads, halted: Halted) -> Stop
    ensures { result ≡ stop_at (world_of machine.now) threads halted }
{
    let slot = slot_halted(halted);
    let (esp, ebp, eip) = match image_in(machine, slot) {
        Some(image) => (
            image.register(Register::Esp),
            image.register(Register::Ebp),
            image.eip,
        ),
        None => (0, 0, 0),
    };
    Stop {
        signal: signal_of(halted),
        reason: reason_of(halted),
        thread: threads.thread_of(slot),
        esp,
        ebp,
        eip: shown_address(eip),
    }
}
