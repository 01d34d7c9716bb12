//! Why a trap or a kernel call is refused: which check has the error that is its result, in brackets. Where
//! several checks have one error, REFERENCE has their order.

ghost use Rattle.std.specs.Prelude.{◌≡◌, ◌++◌, OnOk, option_map};
ghost use Rattle.mx_look.specs.Transition.{slot_in};
ghost use Rattle.mx_look.specs.Refusals.{is_pseudo, partner_text, denied_text, misnamed_text, trap_reason, refusal_part, asked_call, is_copy, invalid_text, names_service, absent_text, holds_in, outside_text, request_reason};

use crate::parties::push_party;
use crate::result_names::errno_of;
use crate::{CpuGlance, Glance, SlotGlance, Transition, held_before, is_acted, slot_in};
use mx_kcall::{CallName, call_row};
use mx_print_report::push_counted;
use mx_proc::{ANY, CLOCK, Errno, HARDWARE, SYSTEM, slot_of};
use mx_word::has_bit;
use std::alloc::AllocError;

/// Whether an endpoint is a pseudo-process.
fn is_pseudo(endpoint: u32) -> bool
    ensures { result ≡ is_pseudo endpoint }
{
    endpoint == HARDWARE || endpoint == SYSTEM || endpoint == CLOCK
}

/// Appends the partner that a call can't have.
fn push_partner(out: &mut Vec<u8>, glance: &Glance, party: u32) -> Result<(), AllocError>
    ensures { OnOk result (out.new.items ≡ out.old.items ++ partner_text glance.now party) }
{
    out.extend_from_slice(b" (to ")?;
    push_party(out, glance, party)?;
    out.push(b')')?;
    Ok(())
}

/// Appends why a trap is answered ECALLDENIED, by the trap mask of its process, the call and the partner.
#[tactic(auto, unfolding(crate::specs::Refusals::denied_text))]
fn push_denied(
    out: &mut Vec<u8>,
    glance: &Glance,
    traps: u32,
    call: u32,
    party: u32,
) -> Result<(), AllocError>
    ensures { OnOk result (out.new.items ≡ out.old.items
        ++ denied_text glance.now traps call party) }
{
    if call == 0 || call > 4 {
        push_counted(out, b" (no call", call)?;
        out.push(b')')?;
        return Ok(());
    }
    if !has_bit(traps, call) {
        out.extend_from_slice(b" (trap mask)")
    } else if is_pseudo(party) {
        push_partner(out, glance, party)
    } else {
        out.extend_from_slice(b" (send mask)")
    }
}

/// Appends why a trap is answered EBADSRCDST.
#[tactic(auto, unfolding(crate::specs::Refusals::misnamed_text))]
fn push_misnamed(out: &mut Vec<u8>, glance: &Glance, party: u32) -> Result<(), AllocError>
    ensures { OnOk result (out.new.items ≡ out.old.items ++ misnamed_text glance.now party) }
{
    if party == ANY || is_pseudo(party) {
        push_partner(out, glance, party)
    } else {
        out.extend_from_slice(b" (no such slot)")
    }
}

/// Appends why a trap that was held is answered so, if an error doesn't say it alone.
#[tactic(auto, unfolding(crate::specs::Refusals::trap_reason))]
fn push_trap_reason(
    out: &mut Vec<u8>,
    glance: &Glance,
    held: &CpuGlance,
    seen: &SlotGlance,
    outcome: u32,
) -> Result<(), AllocError>
    ensures { OnOk result (out.new.items ≡ out.old.items
        ++ trap_reason glance.now held.now seen.now outcome) }
{
    match errno_of(outcome) {
        Some(Errno::Denied) => push_denied(out, glance, seen.traps, held.image.ecx, held.image.eax),
        Some(Errno::BadEndpoint) => push_misnamed(out, glance, held.image.eax),
        Some(Errno::BadAddress) => out.extend_from_slice(b" (buffer)"),
        _ => Ok(()),
    }
}

/// Appends why a slot's trap has this result, as ` (trap mask)`, if the transition acts on its trap; else nothing.
#[tactic(auto, unfolding(crate::specs::Refusals::refusal_part))]
pub fn push_refusal(
    out: &mut Vec<u8>,
    transition: &Transition,
    slot: u32,
    outcome: u32,
) -> Result<(), AllocError>
    ensures { OnOk result (out.new.items ≡ out.old.items ++ refusal_part transition.now slot outcome) }
{
    if !is_acted(transition, slot) {
        return Ok(());
    }
    match (held_before(transition), slot_in(&transition.before, slot)) {
        (Some(held), Some(seen)) => push_trap_reason(out, &transition.before, held, seen, outcome),
        _ => Ok(()),
    }
}

/// The kernel call that a request asks for, if its type has one.
fn asked_call(request: &[u32; 9]) -> Option<CallName>
    ensures { result ≡ asked_call request.now }
{
    Some(call_row(request[1])?.call)
}

/// Whether a request asks for VIRCOPY.
fn is_copy(request: &[u32; 9]) -> bool
    ensures { result ≡ is_copy (asked_call request.now) }
{
    matches!(asked_call(request), Some(CallName::Vircopy))
}

/// Which word of a request is out of its range.
#[tactic(auto, unfolding(crate::specs::Refusals::invalid_text))]
fn invalid_text(request: &[u32; 9]) -> &'static [u8]
    ensures { result.now ≡ invalid_text request.now }
{
    match asked_call(request) {
        Some(CallName::Irqctl | CallName::Devio) if request[2] > 1 => b" (p0, action)",
        Some(CallName::Irqctl) => b" (p1, line)",
        Some(CallName::Devio) => b" (p1, register)",
        Some(CallName::Vircopy) => b" (p4, count)",
        Some(CallName::Whois) => b" (p0, slot)",
        Some(CallName::Grant) if request[5] > 3 => b" (p3, access)",
        Some(CallName::Grant) => b" (p0, oneself)",
        _ => b"",
    }
}

/// Whether an endpoint names the slot of a service.
fn names_service(glance: &Glance, endpoint: u32) -> bool
    ensures { result ≡ names_service glance.now endpoint }
{
    endpoint < 0x8000_0000 && slot_in(glance, slot_of(endpoint)).is_some()
}

/// Which endpoint of a request names no service.
#[tactic(auto, unfolding(crate::specs::Refusals::absent_text))]
fn absent_text(glance: &Glance, request: &[u32; 9]) -> &'static [u8]
    ensures { result.now ≡ absent_text glance.now request.now }
{
    if is_copy(request) && names_service(glance, request[2]) {
        b" (p2, endpoint)"
    } else {
        b" (p0, endpoint)"
    }
}

/// Whether so many bytes from an address on lie inside the memory of what is seen of a slot.
fn holds_in(seen: Option<&SlotGlance>, at: u32, count: u32) -> bool
    ensures { result ≡ holds_in (option_map (λ u. u.now) seen.entry) at count }
{
    match seen {
        Some(seen) => at as usize + count as usize <= seen.image.limit,
        None => false,
    }
}

/// Which range of a request lies outside.
#[tactic(auto, unfolding(crate::specs::Refusals::outside_text))]
fn outside_text(glance: &Glance, request: &[u32; 9]) -> &'static [u8]
    ensures { result.now ≡ outside_text glance.now request.now }
{
    let source = slot_in(glance, slot_of(request[2]));
    if is_copy(request) && holds_in(source, request[3], request[6]) {
        b" (p3, address)"
    } else {
        b" (p1, address)"
    }
}

/// Why a request is answered so, by the machine that has answered it.
#[tactic(auto, unfolding(crate::specs::Refusals::request_reason))]
pub fn request_reason(glance: &Glance, request: &[u32; 9], outcome: u32) -> &'static [u8]
    ensures { result.now ≡ request_reason glance.now request.now outcome }
{
    match errno_of(outcome) {
        Some(Errno::Denied) => b" (call mask)",
        Some(Errno::Invalid) => invalid_text(request),
        Some(Errno::BadEndpoint) => absent_text(glance, request),
        Some(Errno::BadAddress) => outside_text(glance, request),
        _ => b"",
    }
}
