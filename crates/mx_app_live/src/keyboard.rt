//! The keyboard of a machine: what the outside sees of its driver, and how a byte comes to it.

ghost use Rattle.std.specs.Prelude.{◌≡◌, ◌<◌, ◌∷◌, [], Some, is_some, length};
ghost use Rattle.mx_machine.specs.Machine.{world_of};
ghost use Rattle.mx_machine.specs.World.{actors};
ghost use Rattle.mx_turns.specs.Made.{HasOffered, is_full};
ghost use Rattle.mx_turns.specs.Turns.{offered};
ghost use Rattle.mx_keyboard.specs.Keyboard.{driver_of, endpoint_in, raise_events, seen_of};

use mx_keyboard::{driver_in, endpoint_in, seen_in};
use mx_machine::{Answer, Event, Machine, Refusal};
use mx_typist::{Raise, STROBE, Seen};
use mx_word::has_bit;

/// The endpoint of the process of a machine's slot, if there is the slot.
#[tactic(auto, unfolding(mx_machine::specs::Machine::world_of))]
pub(crate) fn endpoint_at(machine: &Machine, slot: u8) -> Option<u32>
    ensures { result ≡ endpoint_in (world_of machine.now).table (Some slot) }
{
    endpoint_in(machine.kernel().table(), Some(slot))
}

/// Whether the machine's keyboard has a driver.
#[tactic(auto, unfolding(mx_machine::specs::Machine::world_of))]
pub(crate) fn is_driven(machine: &Machine) -> bool
    ensures { result ≡ is_some (driver_of (world_of machine.now).table) }
{
    driver_in(machine.kernel().table()).is_some()
}

/// What is seen of the driver, and of the process that the last byte was raised for.
#[tactic(auto, unfolding(mx_machine::specs::Machine::world_of))]
pub(crate) fn look_at(machine: &Machine, flight: Option<u32>) -> Seen
    ensures { result ≡ seen_of (world_of machine.now).table flight }
{
    seen_in(machine.kernel().table(), flight)
}

/// Whether an event was refused because the history is full.
fn is_full(answer: Result<Answer, Refusal>) -> bool
    ensures { result ≡ is_full answer }
{
    match answer {
        Ok(_) => false,
        Err(refusal) => match refusal {
            Refusal::LogFull => true,
            _ => false,
        },
    }
}

/// How many processors a machine has.
fn cpus_of(machine: &Machine) -> u8
    ensures { result ≡ length (world_of machine.now).cpus }
{
    machine.kernel().cpus()
}

/// Offers an event from outside, of the first actor that is no processor. Answers whether it was refused because the
/// history is full.
pub(crate) fn offer(machine: &mut Machine, event: Event) -> bool
    requires { length (world_of machine.old).cpus < actors (world_of machine.old) }
    ensures offered { HasOffered machine.old (offered (world_of machine.old)
        ((length (world_of machine.old).cpus, event) ∷ [])) result machine.new }
    ensures cpus { length (world_of machine.new).cpus ≡ length (world_of machine.old).cpus }
    ensures other { length (world_of machine.new).cpus < actors (world_of machine.new) }
{
    let actor = cpus_of(machine);
    let answer = machine.apply(actor, event);
    is_full(answer)
}

/// Raises the lines of a byte in a row: those of its bits that are 1, and then the strobe. Answers whether the history
/// is too full for one.
pub(crate) fn raise(machine: &mut Machine, raise: Raise) -> bool
    requires { length (world_of machine.old).cpus < actors (world_of machine.old) }
    ensures offered { HasOffered machine.old (offered (world_of machine.old)
        (raise_events (length (world_of machine.old).cpus) (Some raise))) result machine.new }
    ensures other { length (world_of machine.new).cpus < actors (world_of machine.new) }
{
    for bit in 0u32..8 {
        if has_bit(u32::from(raise.byte), bit) && offer(machine, Event::Line(8 + bit)) {
            return true;
        }
    }
    offer(machine, Event::Line(u32::from(STROBE)))
}
