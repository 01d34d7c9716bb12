//! A call that was refused in a record, in words: the call, its result, and why; and where it was made.

ghost use Rattle.std.specs.Prelude.{◌≡◌, ◌++◌, OnOk, string_bytes};
ghost use Rattle.mx_look.specs.Code.{place_text_if};
ghost use Rattle.mx_look.specs.Going.{acting};
ghost use Rattle.mx_look.specs.Nearest.{nearest_symbol};
ghost use Rattle.mx_look.specs.Transition.{slot_in};
ghost use Rattle.mx_machine.specs.Machine.{world_of};
ghost use Rattle.mx_why.specs.Failing.{answered_if, answered_text, asked_by, asked_text, besides_text, call_place, failed_text, kernel_failed, kernel_text, made_text, partner_name, place_at, refused_by, refused_text, self_text, told_result, trap_failed, trap_text, trapped_text, waited_text};

use mx_insn_words::push_eight_digits;
use mx_look::{
    CpuGlance, Glance, SlotGlance, Transition, acting, asks_kernel, gone_on, has_changed, is_ready,
    kernel_call, nearest_symbol, push_call, push_party, push_place, push_refusal, push_request,
    push_result, request_name, request_reason, slot_in,
};
use mx_machine::{Machine, Service};
use mx_print_report::{Awaited, Doing, push_name};
use mx_proc::{Errno, Slot, slot_of};
use std::alloc::AllocError;

/// Appends whom an endpoint names, without its generation.
#[tactic(auto, unfolding(crate::specs::Failing::partner_name))]
fn push_partner(out: &mut Vec<u8>, glance: &Glance, endpoint: u32) -> Result<(), AllocError>
    ensures { OnOk result (out.new.items ≡ out.old.items ++ partner_name glance.now endpoint) }
{
    match slot_in(glance, slot_of(endpoint)) {
        Some(seen) if endpoint < 0x8000_0000 => push_name(out, &seen.name.bytes),
        _ => push_party(out, glance, endpoint),
    }
}

/// Appends which kernel call is asked for by these words, after some text; of a type that is none all that a trace
/// has of it.
fn push_asked_by(
    out: &mut Vec<u8>,
    glance: &Glance,
    before: &[u8],
    held: &CpuGlance,
    words: &[u32; 9],
) -> Result<(), AllocError>
    ensures { OnOk result (out.new.items ≡ out.old.items
        ++ asked_by glance.now before.now held.now words.now) }
{
    let name = request_name(glance.rules, words[1]);
    if name.is_empty() {
        return push_request(out, glance.rules, held);
    }
    out.extend_from_slice(before)?;
    out.extend_from_slice(name)
}

/// Appends which kernel call a process asks for, if its trap does and the words lie inside its memory.
#[tactic(auto, unfolding(crate::specs::Failing::asked_text))]
fn push_asked(
    out: &mut Vec<u8>,
    glance: &Glance,
    before: &[u8],
    held: &CpuGlance,
) -> Result<(), AllocError>
    ensures { OnOk result (out.new.items ≡ out.old.items
        ++ asked_text glance.now before.now held.now) }
{
    match &held.image.words {
        Some(words) if asks_kernel(held) => push_asked_by(out, glance, before, held, words),
        _ => Ok(()),
    }
}

/// Appends the call of a trap.
#[tactic(auto, unfolding(crate::specs::Failing::trapped_text))]
fn push_trapped(out: &mut Vec<u8>, glance: &Glance, held: &CpuGlance) -> Result<(), AllocError>
    ensures { OnOk result (out.new.items ≡ out.old.items ++ trapped_text glance.now held.now) }
{
    push_call(out, held.image.ecx)?;
    out.extend_from_slice(b" ")?;
    push_partner(out, glance, held.image.eax)?;
    push_asked(out, glance, b", ", held)
}

/// Appends a call, and whom it names.
#[tactic(auto, unfolding(crate::specs::Failing::made_text))]
fn push_made(
    out: &mut Vec<u8>,
    glance: &Glance,
    call: &[u8],
    endpoint: u32,
) -> Result<(), AllocError>
    ensures { OnOk result (out.new.items ≡ out.old.items
        ++ made_text glance.now call.now endpoint) }
{
    out.extend_from_slice(call)?;
    push_partner(out, glance, endpoint)
}

/// Appends the call in which a process waits that does this.
fn push_waited(out: &mut Vec<u8>, glance: &Glance, doing: Doing) -> Result<(), AllocError>
    ensures { OnOk result (out.new.items ≡ out.old.items ++ waited_text glance.now doing) }
{
    match doing {
        Doing::Sending(endpoint) => push_made(out, glance, b"SEND ", endpoint),
        Doing::Calling(endpoint) | Doing::Awaiting(endpoint) => {
            push_made(out, glance, b"SENDREC ", endpoint)
        }
        Doing::Receiving(Awaited::Process(endpoint)) => {
            push_made(out, glance, b"RECEIVE ", endpoint)
        }
        _ => Ok(()),
    }
}

/// Appends the call with whose result a slot's process has gone on: of its trap that is acted, or the one in
/// which it waited.
fn push_call_of(
    out: &mut Vec<u8>,
    transition: &Transition,
    slot: u32,
    before: &SlotGlance,
) -> Result<(), AllocError>
    ensures { OnOk result (out.new.items ≡ out.old.items
        ++ trap_text transition.now slot before.now (acting transition.now)) }
{
    match acting(transition) {
        Some(held) if u32::from(held.slot) == slot => push_trapped(out, &transition.before, held),
        _ => push_waited(out, &transition.before, before.doing),
    }
}

/// Appends the result with which a slot's process has gone on, and why, as a trace has them.
fn push_told_result(
    out: &mut Vec<u8>,
    transition: &Transition,
    slot: u32,
    outcome: u32,
) -> Result<(), AllocError>
    ensures { OnOk result (out.new.items ≡ out.old.items
        ++ told_result transition.now slot outcome) }
{
    push_result(out, outcome)?;
    push_refusal(out, transition, slot, outcome)
}

/// What is said of the result besides: of ELOCKED that one names oneself.
#[tactic(auto, unfolding(crate::specs::Failing::self_text))]
fn self_text(held: &CpuGlance, outcome: u32) -> &'static [u8]
    ensures { result.now ≡ self_text held.now outcome }
{
    if outcome == Errno::Locked.bits() && slot_of(held.image.eax) == u32::from(held.slot) {
        b" (oneself)"
    } else {
        b""
    }
}

/// What is said of the result besides: that it came while the process waited, or that one names oneself.
fn besides_text(transition: &Transition, slot: u32, outcome: u32) -> &'static [u8]
    ensures { result.now ≡ besides_text transition.now slot outcome (acting transition.now) }
{
    match acting(transition) {
        Some(held) if u32::from(held.slot) == slot => self_text(held, outcome),
        _ => b" while it waited",
    }
}

/// Appends the call of a slot's process, its result, and why.
#[tactic(auto, unfolding(crate::specs::Failing::refused_text))]
fn push_refused(
    out: &mut Vec<u8>,
    transition: &Transition,
    slot: u32,
    before: &SlotGlance,
    outcome: u32,
) -> Result<(), AllocError>
    ensures { OnOk result (out.new.items ≡ out.old.items
        ++ refused_text transition.now slot before.now outcome) }
{
    push_call_of(out, transition, slot, before)?;
    out.extend_from_slice(b": ")?;
    push_told_result(out, transition, slot, outcome)?;
    out.extend_from_slice(besides_text(transition, slot, outcome))
}

/// Appends the call of a slot's process that is answered by this error, by what is seen of it before and after.
fn push_refused_by(
    out: &mut Vec<u8>,
    transition: &Transition,
    slot: u32,
    outcome: u32,
) -> Result<(), AllocError>
    ensures { OnOk result (out.new.items ≡ out.old.items
        ++ refused_by transition.now slot outcome (slot_in transition.now.before slot)
        (slot_in transition.now.after slot)) }
{
    match (
        slot_in(&transition.before, slot),
        slot_in(&transition.after, slot),
    ) {
        (Some(before), Some(_)) => push_refused(out, transition, slot, before, outcome),
        _ => Ok(()),
    }
}

/// Appends the call of a slot's process that is answered by an error, if one is.
#[tactic(auto, unfolding(crate::specs::Failing::trap_failed))]
fn push_trap_failed(out: &mut Vec<u8>, transition: &Transition, slot: u32) -> Result<(), AllocError>
    ensures { OnOk result (out.new.items ≡ out.old.items ++ trap_failed transition.now slot) }
{
    if !has_changed(transition, slot) {
        return Ok(());
    }
    match gone_on(transition, slot) {
        Some(outcome) if outcome != 0 => push_refused_by(out, transition, slot, outcome),
        _ => Ok(()),
    }
}

/// Appends a kernel call, its answer, and why.
#[tactic(auto, unfolding(crate::specs::Failing::kernel_text))]
fn push_kernel_text(
    out: &mut Vec<u8>,
    transition: &Transition,
    held: &CpuGlance,
    request: &[u32; 9],
    reply: &[u32; 9],
) -> Result<(), AllocError>
    ensures { OnOk result (out.new.items ≡ out.old.items
        ++ kernel_text transition.now held.now request.now reply.now) }
{
    out.extend_from_slice(b"kernel call")?;
    push_asked(out, &transition.before, b" ", held)?;
    out.extend_from_slice(b": ")?;
    push_result(out, reply[1])?;
    out.extend_from_slice(request_reason(&transition.after, request, reply[1]))
}

/// Appends a kernel call that was answered by an error, if it was, by what is seen of its caller then.
#[tactic(auto, unfolding(crate::specs::Failing::answered_text))]
fn push_answered(
    out: &mut Vec<u8>,
    transition: &Transition,
    held: &CpuGlance,
    seen: &SlotGlance,
) -> Result<(), AllocError>
    ensures { OnOk result (out.new.items ≡ out.old.items
        ++ answered_text transition.now held.now seen.now) }
{
    match (&held.image.words, &seen.image.words) {
        (Some(request), Some(reply)) if is_ready(seen.doing) && reply[1] != 0 => {
            push_kernel_text(out, transition, held, request, reply)
        }
        _ => Ok(()),
    }
}

/// Appends the kernel call of a slot's process that is answered by an error, if it is.
fn push_answered_in(
    out: &mut Vec<u8>,
    transition: &Transition,
    slot: u32,
    held: &CpuGlance,
) -> Result<(), AllocError>
    ensures { OnOk result (out.new.items ≡ out.old.items
        ++ answered_if transition.now held.now (slot_in transition.now.after slot)) }
{
    match slot_in(&transition.after, slot) {
        Some(seen) => push_answered(out, transition, held, seen),
        None => Ok(()),
    }
}

/// Appends the kernel call of a slot's process that is answered by an error, if one is made.
#[tactic(auto, unfolding(crate::specs::Failing::kernel_failed))]
fn push_kernel_failed(
    out: &mut Vec<u8>,
    transition: &Transition,
    slot: u32,
) -> Result<(), AllocError>
    ensures { OnOk result (out.new.items ≡ out.old.items ++ kernel_failed transition.now slot) }
{
    match kernel_call(transition) {
        Some(held) if u32::from(held.slot) == slot => push_answered_in(out, transition, slot, held),
        _ => Ok(()),
    }
}

/// Appends what a slot's process was refused in a record: nothing, if it wasn't refused anything.
#[tactic(auto, unfolding(crate::specs::Failing::failed_text))]
pub(crate) fn push_failed_text(
    out: &mut Vec<u8>,
    transition: &Transition,
    slot: u32,
) -> Result<(), AllocError>
    ensures { OnOk result (out.new.items ≡ out.old.items ++ failed_text transition.now slot) }
{
    push_trap_failed(out, transition, slot)?;
    push_kernel_failed(out, transition, slot)
}

/// The trap's size in bytes: EIP is after it.
const TRAP_SIZE: u32 = 2;

/// Appends the symbol that an address of a program lies at or after, if there is one.
fn push_symbol(out: &mut String, service: &Service, at: u32) -> Result<(), AllocError>
    ensures { OnOk result (string_bytes out.new ≡ string_bytes out.old
        ++ place_text_if at (nearest_symbol at service.now.program.symbols)) }
{
    match nearest_symbol(service.program.symbols.as_slice(), at) {
        Some(symbol) => push_place(out, symbol, at),
        None => Ok(()),
    }
}

/// Appends an address of a program, and the symbol that it lies at or after.
#[tactic(auto, unfolding(crate::specs::Failing::place_at))]
fn push_place_at(out: &mut Vec<u8>, service: &Service, at: u32) -> Result<(), AllocError>
    ensures { OnOk result (out.new.items ≡ out.old.items ++ place_at service.now at) }
{
    // What stands before an instruction in a listing, without the space at its end.
    let mut text = String::new(*out.allocator());
    push_eight_digits(&mut text, at)?;
    text.push_str(" ")?;
    push_symbol(&mut text, service, at)?;
    let bytes = text.as_bytes();
    out.extend_from_slice(b" at ")?;
    out.extend_from_slice(&bytes[..bytes.len().saturating_sub(1)])
}

/// Appends where a slot's process made the trap with which it came back last.
#[tactic(auto, unfolding(mx_machine::specs::Machine::world_of))]
pub(crate) fn push_call_place(
    out: &mut Vec<u8>,
    machine: &Machine,
    slot: Slot,
) -> Result<(), AllocError>
    ensures { OnOk result (out.new.items ≡ out.old.items
        ++ call_place (world_of machine.now) slot) }
{
    let kernel = machine.kernel();
    kernel.facts();
    match kernel.services().get(slot as usize) {
        Some(service) => {
            let eip = kernel.table().process(slot).image.eip;
            push_place_at(out, service, eip.saturating_sub(TRAP_SIZE))
        }
        None => Ok(()),
    }
}
