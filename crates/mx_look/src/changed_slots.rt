//! What a transition has changed of a slot.

ghost use Rattle.std.specs.Prelude.{◌≡◌};
ghost use Rattle.mx_look.specs.Slots.{ticks_used, is_new_quantum, has_changed, has_rung, is_renewed};

use crate::SlotGlance;
use crate::doings::same_doing;
use crate::transition::{Transition, held_before, slot_in};
use mx_machine::Recorded;

/// Whether what a slot's process does has changed otherwise than by a take.
pub fn has_changed(transition: &Transition, slot: u32) -> bool
    ensures { result ≡ has_changed transition.now slot }
{
    if matches!(transition.event, Recorded::Take) {
        return false;
    }
    match (
        slot_in(&transition.before, slot),
        slot_in(&transition.after, slot),
    ) {
        (Some(before), Some(after)) => !same_doing(before.doing, after.doing),
        _ => false,
    }
}

/// Whether a slot's alarm rings.
pub fn has_rung(transition: &Transition, slot: u32) -> bool
    ensures { result ≡ has_rung transition.now slot }
{
    if !matches!(transition.event, Recorded::Tick) {
        return false;
    }
    match (
        slot_in(&transition.before, slot),
        slot_in(&transition.after, slot),
    ) {
        (Some(before), Some(after)) => before.alarm.is_some() && after.alarm.is_none(),
        _ => false,
    }
}

/// How many ticks a slot's process brings back as used.
fn ticks_used(transition: &Transition, slot: u32) -> u32
    ensures { result ≡ ticks_used transition.now slot }
{
    if !matches!(transition.event, Recorded::Back(_)) {
        return 0;
    }
    match held_before(transition) {
        Some(held) if u32::from(held.slot) == slot => held.count,
        _ => 0,
    }
}

/// Whether a process that had used its quantum has a new one.
#[tactic(auto, unfolding(crate::specs::Slots::is_new_quantum))]
fn is_new_quantum(before: &SlotGlance, used: u32, after: &SlotGlance) -> bool
    ensures { result ≡ is_new_quantum before.now used after.now }
{
    before.endpoint == after.endpoint && before.ticks <= used && 0 < after.ticks
}

/// Whether the quantum of a slot's process is renewed.
pub fn is_renewed(transition: &Transition, slot: u32) -> bool
    ensures { result ≡ is_renewed transition.now slot }
{
    match (
        slot_in(&transition.before, slot),
        slot_in(&transition.after, slot),
    ) {
        (Some(before), Some(after)) => is_new_quantum(before, ticks_used(transition, slot), after),
        _ => false,
    }
}
