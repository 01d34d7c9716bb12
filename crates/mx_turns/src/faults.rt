//! The lines of a fault.

ghost use Rattle.std.specs.Prelude.{◌≡◌, ◌<◌, length};
ghost use Rattle.mx_app_step.specs.Machine.{world_of};
ghost use Rattle.mx_machine.specs.World.{actors};
ghost use Rattle.mx_turns.specs.Faults.{fault_kept, fault_made, line_now};

use mx_app_step::perform_line;
use mx_boot::ScriptLine;
use mx_machine::{Machine, Refusal};
use mx_print_answers::Said;

/// A line of a fault.
#[derive(Clone, Copy, Debug, PartialEq, Eq)]
pub enum FaultLine {
    /// A line of any script.
    Plain(ScriptLine),
    /// The process that a slot has then is killed.
    KillSlot(u32),
}

/// The script's line that a fault's line is now. None if it names a slot that the machine hasn't.
#[tactic(auto, unfolding(mx_machine::specs::Machine::world_of))]
fn line_now(machine: &Machine, line: FaultLine) -> Option<ScriptLine>
    ensures { result ≡ line_now (world_of machine.now).table line }
{
    match line {
        FaultLine::Plain(line) => Some(line),
        FaultLine::KillSlot(slot) => {
            let table = machine.kernel().table();
            if slot < u32::from(table.slot_count()) {
                Some(ScriptLine::Kill(table.endpoint(slot as u8)))
            } else {
                None
            }
        }
    }
}

/// Does what a line of a fault says, and answers what is said of it. The lines that name no actor are
/// events of `other`, the first actor that is no processor. Takes no memory.
pub(crate) fn perform_fault_line(machine: &mut Machine, other: u8, line: FaultLine) -> Said
    requires { other < actors (world_of machine.old) }
    ensures made { fault_made (world_of machine.old) other line ≡ (result, world_of machine.new) }
    ensures kept { machine.new.kernel
        ≡ fault_kept machine.old.kernel (world_of machine.old) other line }
    ensures actors { actors (world_of machine.new) ≡ actors (world_of machine.old) }
    ensures cpus { length (world_of machine.new).cpus ≡ length (world_of machine.old).cpus }
{
    match line_now(machine, line) {
        Some(line) => perform_line(machine, other, line),
        None => Said::Refused(Refusal::NoProcess),
    }
}
