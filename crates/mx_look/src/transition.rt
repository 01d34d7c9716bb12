//! A transition: a record of a history, with the glances before and after its event.

ghost use Rattle.std.specs.Prelude.{◌≡◌, None, Some, MatchOption};
ghost use Rattle.std.specs.Option.{option_map};
ghost use Rattle.mx_look.specs.Transition.{slot_in, cpu_in, fault_in, owner_in, slot_held, held_before, held_after, about};

use crate::{CpuGlance, FaultGlance, Glance, SlotGlance};
use mx_machine::Recorded;
use mx_proc::slot_of;

/// A record of a history, with the world in which its event is made, and the world after it.
#[derive(Clone, Copy)]
pub struct Transition {
    /// Its place in the history, counted from 1.
    pub number: u32,
    pub before: Glance,
    pub actor: u8,
    pub event: Recorded,
    pub after: Glance,
}

/// What is seen of a slot.
pub fn slot_in(glance: &Glance, slot: u32) -> Option<&SlotGlance>
    ensures { MatchOption result (slot_in glance.now slot ≡ None) (λ seen. slot_in glance.now slot
        ≡ Some seen.now) }
{
    if slot as usize >= glance.slots.len() {
        return None;
    }
    match &glance.slots[slot as usize] {
        Some(seen) => Some(seen),
        None => None,
    }
}

/// What is seen of a processor.
pub fn cpu_in(glance: &Glance, cpu: u8) -> Option<&CpuGlance>
    ensures { MatchOption result (cpu_in glance.now cpu ≡ None) (λ seen. cpu_in glance.now cpu
        ≡ Some seen.now) }
{
    if cpu as usize >= glance.cpus.len() {
        return None;
    }
    match &glance.cpus[cpu as usize] {
        Some(seen) => Some(seen),
        None => None,
    }
}

/// The fault of the process on a processor, if its last step ended with one.
pub fn fault_in(glance: &Glance, cpu: u8) -> Option<&FaultGlance>
    ensures { MatchOption result (fault_in glance.now cpu ≡ None) (λ seen. fault_in glance.now cpu
        ≡ Some seen.now) }
{
    if cpu as usize >= glance.faults.len() {
        return None;
    }
    match &glance.faults[cpu as usize] {
        Some(seen) => Some(seen),
        None => None,
    }
}

/// What the actor holds before the event.
pub fn held_before(transition: &Transition) -> Option<&CpuGlance>
    ensures { MatchOption result (held_before transition.now ≡ None) (λ seen. held_before transition.now
        ≡ Some seen.now) }
{
    cpu_in(&transition.before, transition.actor)
}

/// What the actor holds after the event.
pub fn held_after(transition: &Transition) -> Option<&CpuGlance>
    ensures { MatchOption result (held_after transition.now ≡ None) (λ seen. held_after transition.now
        ≡ Some seen.now) }
{
    cpu_in(&transition.after, transition.actor)
}

/// The slot of what a processor holds.
fn slot_held(held: Option<&CpuGlance>) -> Option<u32>
    ensures { result ≡ slot_held (option_map (λ h. h.now) held.entry) }
{
    match held {
        Some(held) => Some(u32::from(held.slot)),
        None => None,
    }
}

/// Who owns an interrupt line.
fn owner_in(glance: &Glance, line: u32) -> Option<u32>
    ensures { result ≡ owner_in glance.now line }
{
    if line >= 16 {
        return None;
    }
    match glance.owners[line as usize] {
        Some(slot) => Some(u32::from(slot)),
        None => None,
    }
}

/// The slot that a record is about: whom a processor takes or brings back, who owns the line, who is
/// killed, what is respawned. A tick is about nobody.
#[tactic(auto, unfolding(crate::specs::Transition::about))]
pub fn about(transition: &Transition) -> Option<u32>
    ensures { result ≡ about transition.now }
{
    match transition.event {
        Recorded::Take => slot_held(held_after(transition)),
        Recorded::Back(_) => slot_held(held_before(transition)),
        Recorded::Line(line) => owner_in(&transition.before, line),
        Recorded::Tick => None,
        Recorded::Kill(endpoint) => Some(slot_of(endpoint)),
        Recorded::Respawn(slot) => Some(slot),
    }
}
