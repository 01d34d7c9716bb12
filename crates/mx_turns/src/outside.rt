//! What comes from outside while a machine makes its turns.

ghost use Rattle.std.specs.Prelude.{◌≡◌, drop, slice_get};
ghost use Rattle.mx_app_step.specs.Machine.{world_of};
ghost use Rattle.mx_turns.specs.Made.{outside_events};
ghost use Rattle.mx_turns.specs.Turns.{endpoint_now, event_now, next_now};

use mx_machine::{Event, Machine};
use mx_proc::Slot;

/// What comes from outside in a turn.
#[derive(Clone, Copy)]
pub enum OutsideLine {
    /// An event, as in a script.
    Plain(Event),
    /// The process that a slot has then is killed.
    KillSlot(Slot),
}

/// The endpoint of the process that a slot has now. A number that is no slot's is its own: it names nobody.
#[tactic(auto, unfolding(mx_machine::specs::Machine::world_of))]
fn endpoint_now(machine: &Machine, slot: Slot) -> u32
    ensures { result ≡ endpoint_now (world_of machine.now).table slot }
{
    let table = machine.kernel().table();
    if slot < table.slot_count() {
        table.endpoint(slot)
    } else {
        u32::from(slot)
    }
}

/// The event that comes from outside, as it is now.
fn event_now(machine: &Machine, line: OutsideLine) -> Event
    ensures { result ≡ event_now (world_of machine.now).table line }
{
    match line {
        OutsideLine::Plain(event) => event,
        OutsideLine::KillSlot(slot) => Event::Kill(endpoint_now(machine, slot)),
    }
}

/// The event that comes from outside next, as it is now.
pub fn next_now(machine: &Machine, next: Option<OutsideLine>) -> Option<Event>
    ensures { result ≡ next_now (world_of machine.now).table next }
{
    match next {
        Some(line) => Some(event_now(machine, line)),
        None => None,
    }
}

/// What is to come from outside, one in each turn: the lines of the list, in order, and then the ticks.
#[derive(Clone, Copy)]
pub struct Outside<'a> {
    pub events: &'a [OutsideLine],
    pub ticks: u32,
}

impl<'a> Outside<'a> {
    /// What is to come after so many turns.
    #[tactic(auto, using(crate::proofs::OutsideLemmas::left_listed, crate::proofs::OutsideLemmas::left_ticks))]
    pub fn after(self, made: u64) -> Outside<'a>
        ensures { outside_events result ≡ drop made (outside_events self.entry) }
    {
        let listed = self.events.len() as u64;
        if made <= listed {
            return Outside {
                events: &self.events[made as usize..],
                ticks: self.ticks,
            };
        }
        let ticked = (made - listed).min(u64::from(self.ticks)) as u32;
        Outside {
            events: &[],
            ticks: self.ticks - ticked,
        }
    }

    /// What is at a place in their order, the first being at 0.
    pub fn get(self, place: u64) -> Option<OutsideLine>
        ensures { result ≡ slice_get (outside_events self.entry) place }
    {
        let listed = self.events.len() as u64;
        if place < listed {
            Some(self.events[place as usize])
        } else if place - listed < u64::from(self.ticks) {
            Some(OutsideLine::Plain(Event::Tick))
        } else {
            None
        }
    }
}
