//! The facts of traps in a transition: who goes on with a result, and whose trap is acted.

ghost use Rattle.std.specs.Prelude.{◌≡◌, None, Some, MatchOption};
ghost use Rattle.mx_look.specs.Doings.{is_out, is_waiting, is_listening, seen_is};
ghost use Rattle.mx_look.specs.Transition.{slot_in};
ghost use Rattle.mx_look.specs.Going.{is_trapped, acting, is_acted, calls_receive, gone_on, got};

use crate::doings::{is_listening, is_out, is_ready, is_waiting};
use crate::transition::{Transition, held_before, slot_in};
use crate::{CpuGlance, Glance};
use mx_image::Stop;
use mx_machine::Recorded;

/// The number of the call RECEIVE.
const RECEIVE: u32 = 2;

/// Whether a process waits for a partner.
fn waits_in(glance: &Glance, slot: u32) -> bool
    ensures { result ≡ seen_is is_waiting (slot_in glance.now slot) }
{
    match slot_in(glance, slot) {
        Some(seen) => is_waiting(seen.doing),
        None => false,
    }
}

/// Whether a process waits for a message.
pub(crate) fn listens_in(glance: &Glance, slot: u32) -> bool
    ensures { result ≡ seen_is is_listening (slot_in glance.now slot) }
{
    match slot_in(glance, slot) {
        Some(seen) => is_listening(seen.doing),
        None => false,
    }
}

/// Whether a process is on a processor, and not killed.
fn is_out_in(glance: &Glance, slot: u32) -> bool
    ensures { result ≡ seen_is is_out (slot_in glance.now slot) }
{
    match slot_in(glance, slot) {
        Some(seen) => is_out(seen.doing),
        None => false,
    }
}

/// Whether the last step was a trap.
fn is_trapped(held: &CpuGlance) -> bool
    ensures { result ≡ is_trapped held.now }
{
    matches!(held.stop, Stop::Trap)
}

/// What is brought back with a trap that is acted: its process isn't doomed.
#[tactic(auto, unfolding(crate::specs::Going::acting))]
pub fn acting(transition: &Transition) -> Option<&CpuGlance>
    ensures { MatchOption result (acting transition.now ≡ None) (λ held. acting transition.now
        ≡ Some held.now) }
{
    let Recorded::Back(_) = transition.event else {
        return None;
    };
    match held_before(transition) {
        Some(held) if is_trapped(held) && is_out_in(&transition.before, u32::from(held.slot)) => {
            Some(held)
        }
        _ => None,
    }
}

/// Whether the trap of a slot's process is acted.
pub fn is_acted(transition: &Transition, slot: u32) -> bool
    ensures { result ≡ is_acted transition.now slot }
{
    match acting(transition) {
        Some(held) => u32::from(held.slot) == slot,
        None => false,
    }
}

/// Whether a trap is acted that calls RECEIVE.
fn calls_receive(transition: &Transition) -> bool
    ensures { result ≡ calls_receive transition.now }
{
    match acting(transition) {
        Some(held) => held.image.ecx == RECEIVE,
        None => false,
    }
}

/// The result with which a slot's process has gone on: it is ready, and was waiting for a partner, or
/// its trap was acted.
#[tactic(auto, unfolding(crate::specs::Going::gone_on))]
pub fn gone_on(transition: &Transition, slot: u32) -> Option<u32>
    ensures { result ≡ gone_on transition.now slot }
{
    if !waits_in(&transition.before, slot) && !is_acted(transition, slot) {
        return None;
    }
    match slot_in(&transition.after, slot) {
        Some(seen) if is_ready(seen.doing) => Some(seen.image.eax),
        _ => None,
    }
}

/// Whether a slot's process got a message: it has gone on with 0, and was waiting for one, or called
/// RECEIVE.
#[tactic(auto, unfolding(crate::specs::Going::got))]
pub fn got(transition: &Transition, slot: u32) -> bool
    ensures { result ≡ got transition.now slot }
{
    match gone_on(transition, slot) {
        Some(0) => listens_in(&transition.before, slot)
            || is_acted(transition, slot) && calls_receive(transition),
        _ => false,
    }
}
