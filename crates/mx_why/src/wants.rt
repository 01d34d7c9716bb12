//! What a refused call wanted that its process didn't have.

ghost use Rattle.std.specs.Prelude.{◌≡◌};
ghost use Rattle.mx_look.specs.Going.{acting};
ghost use Rattle.mx_look.specs.Refusals.{asked_call};
ghost use Rattle.mx_look.specs.Transition.{slot_in};
ghost use Rattle.mx_why.specs.Wants.{answered_want, asked_want, denied_want, is_line_call, line_want, made_want, partner_want, trap_want, waited_want, want_of, went_want};

use crate::waiting::RECEIVE;
use mx_kcall::{CallName, call_row};
use mx_look::{CpuGlance, Glance, SlotGlance, Transition, acting, gone_on, kernel_call, slot_in};
use mx_print_report::{Awaited, Doing};
use mx_proc::{Errno, slot_of};
use mx_word::has_bit;

/// What a refused call wanted that its process didn't have, if it can be told.
#[derive(Clone, Copy)]
pub enum Want {
    Nothing,
    /// The bit of a trap in its mask of traps.
    Trap(u32),
    /// The bit of a slot in its mask of those to whom it may send.
    Partner(u32),
    /// The bit of the kernel call of a type in its mask of calls.
    Call(u32),
    /// The living process of the slot that an endpoint names.
    Living(u32),
    /// The number of any, in decimal.
    Any,
    /// An interrupt line, which a slot owns.
    Line(u32, u32),
}

/// The number of any, as it is if its decimal digits are read in hexadecimal.
pub(crate) const ANY_IN_HEXADECIMAL: u32 = 0x31438;

/// The bit that a trap wants which is answered ECALLDENIED.
fn denied_want(traps: u32, call: u32, party: u32) -> Want
    ensures { result ≡ denied_want traps call party }
{
    if call == 0 || call > 4 {
        return Want::Nothing;
    }
    if !has_bit(traps, call) {
        Want::Trap(call)
    } else if party < 0x8000_0000 {
        Want::Partner(slot_of(party))
    } else {
        Want::Nothing
    }
}

/// What a trap wants that is answered so.
fn made_want(held: &CpuGlance, seen: &SlotGlance, outcome: u32) -> Want
    ensures { result ≡ made_want held.now seen.now outcome }
{
    let call = held.image.ecx;
    let party = held.image.eax;
    if outcome == Errno::Denied.bits() {
        denied_want(seen.traps, call, party)
    } else if outcome == Errno::Dead.bits() {
        Want::Living(party)
    } else if outcome == Errno::BadEndpoint.bits()
        && call == RECEIVE
        && party == ANY_IN_HEXADECIMAL
    {
        Want::Any
    } else {
        Want::Nothing
    }
}

/// The partner of a process that does this.
fn partner_want(doing: Doing) -> Want
    ensures { result ≡ partner_want doing }
{
    match doing {
        Doing::Sending(endpoint) | Doing::Calling(endpoint) | Doing::Awaiting(endpoint) => {
            Want::Living(endpoint)
        }
        Doing::Receiving(Awaited::Process(endpoint)) => Want::Living(endpoint),
        _ => Want::Nothing,
    }
}

/// What a process wants that waited in this way, and is answered so.
fn waited_want(doing: Doing, outcome: u32) -> Want
    ensures { result ≡ waited_want doing outcome }
{
    if outcome == Errno::Dead.bits() {
        partner_want(doing)
    } else {
        Want::Nothing
    }
}

/// What a slot's process wants that has gone on with this result.
fn went_want(transition: &Transition, slot: u32, seen: &SlotGlance, outcome: u32) -> Want
    ensures { result ≡ went_want slot seen.now outcome (acting transition.now) }
{
    match acting(transition) {
        Some(held) if u32::from(held.slot) == slot => made_want(held, seen, outcome),
        _ => waited_want(seen.doing, outcome),
    }
}

/// What a slot's process wants whose trap is refused.
fn trap_want(transition: &Transition, slot: u32) -> Want
    ensures { result ≡ trap_want transition.now slot }
{
    match (gone_on(transition, slot), slot_in(&transition.before, slot)) {
        (Some(outcome), Some(seen)) => went_want(transition, slot, seen, outcome),
        _ => Want::Nothing,
    }
}

/// An interrupt line, if somebody owns it.
fn line_want(glance: &Glance, line: u32) -> Want
    ensures { result ≡ line_want glance.now line }
{
    if line >= 16 {
        return Want::Nothing;
    }
    match glance.owners[line as usize] {
        Some(owner) => Want::Line(line, u32::from(owner)),
        None => Want::Nothing,
    }
}

/// Whether a request is about an interrupt line.
fn is_line_call(request: &[u32; 9]) -> bool
    ensures { result ≡ is_line_call (asked_call request.now) }
{
    match call_row(request[1]) {
        Some(row) => matches!(row.call, CallName::Irqctl),
        None => false,
    }
}

/// What a kernel call wants that is answered so.
fn answered_want(transition: &Transition, request: &[u32; 9], outcome: u32) -> Want
    ensures { result ≡ answered_want transition.now request.now outcome }
{
    if outcome == Errno::Denied.bits() {
        Want::Call(request[1])
    } else if outcome == Errno::NotPermitted.bits() && is_line_call(request) {
        line_want(&transition.before, request[3])
    } else {
        Want::Nothing
    }
}

/// What a slot's process wants whose kernel call is refused.
fn asked_want(transition: &Transition, slot: u32, held: &CpuGlance) -> Want
    ensures { result ≡ asked_want transition.now held.now (slot_in transition.now.after slot) }
{
    let Some(seen) = slot_in(&transition.after, slot) else {
        return Want::Nothing;
    };
    match (&held.image.words, &seen.image.words) {
        (Some(request), Some(reply)) => answered_want(transition, request, reply[1]),
        _ => Want::Nothing,
    }
}

/// What a slot's process wants that is refused a call.
#[tactic(auto, unfolding(crate::specs::Wants::want_of))]
pub(crate) fn want_of(transition: &Transition, slot: u32) -> Want
    ensures { result ≡ want_of transition.now slot }
{
    match kernel_call(transition) {
        Some(held) if u32::from(held.slot) == slot => asked_want(transition, slot, held),
        _ => trap_want(transition, slot),
    }
}
