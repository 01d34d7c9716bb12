//! What a turn offers, and what would come of it.

ghost use Rattle.std.specs.Prelude.{◌≡◌, slice_get};
ghost use Rattle.mx_machine.specs.Proc.TableState.{process_at};
ghost use Rattle.mx_machine.specs.Machine.{world_of};
ghost use Rattle.mx_explore.specs.Offers.{can_respawn, is_outside, open_back, open_outside, open_respawn, open_take};

use mx_machine::{Event, Machine};
use mx_proc::Slot;
use mx_respawn::is_worn;
use mx_sched::pick;

/// An open offer: what would be made.
#[derive(Clone, Copy)]
pub enum Offer {
    /// A processor takes the process of a slot.
    Take(u8, Slot),
    /// A processor makes the steps of its process up to the stop, and brings it back to its slot.
    Back(u8, Slot),
    /// The next outside event comes.
    Outside(Event),
    /// A slot gets a new process.
    Respawn(Slot),
}

impl Offer {
    /// Whether it is that of an outside event.
    pub(crate) fn is_outside(self) -> bool
        ensures { result ≡ is_outside self }
    {
        matches!(self, Offer::Outside(_))
    }
}

/// What a processor would take: it holds nothing, and somebody is ready.
pub(crate) fn open_take(machine: &Machine, cpu: u8) -> Option<Offer>
    ensures { result ≡ open_take (world_of machine.now) cpu }
{
    if machine.slot_on(cpu).is_some() {
        return None;
    }
    let slot = pick(machine.kernel().table())?;
    Some(Offer::Take(cpu, slot))
}

/// What a processor would bring back.
pub(crate) fn open_back(machine: &Machine, cpu: u8) -> Option<Offer>
    ensures { result ≡ open_back (world_of machine.now) cpu }
{
    let slot = machine.slot_on(cpu)?;
    Some(Offer::Back(cpu, slot))
}

/// What would come from outside.
pub(crate) fn open_outside(next: Option<Event>) -> Option<Offer>
    ensures { result ≡ open_outside next }
{
    Some(Offer::Outside(next?))
}

/// Whether a slot has a service and its process is down, and not worn.
#[tactic(auto, unfolding(mx_machine::specs::Machine::world_of))]
fn can_respawn(machine: &Machine, slot: Slot) -> bool
    ensures { result ≡ can_respawn (process_at (world_of machine.now).table slot)
        (slice_get (world_of machine.now).services slot) }
{
    machine.sound();
    let kernel = machine.kernel();
    let Some(service) = kernel.services().get(slot as usize) else {
        return false;
    };
    let process = kernel.table().process(slot);
    process.state.is_down() && !is_worn(process, service)
}

/// Whether a slot would get a new process.
pub(crate) fn open_respawn(machine: &Machine, slot: Slot) -> Option<Offer>
    ensures { result ≡ open_respawn (world_of machine.now) slot }
{
    if can_respawn(machine, slot) {
        Some(Offer::Respawn(slot))
    } else {
        None
    }
}
