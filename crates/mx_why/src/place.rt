//! What a process died of, by whom and where.

ghost use Rattle.std.specs.Prelude.{◌≡◌, ◌++◌, OnOk};
ghost use Rattle.mx_look.specs.Going.{acting};
ghost use Rattle.mx_look.specs.Transition.{fault_in, slot_in};
ghost use Rattle.mx_print_report.specs.Words.{cause_text};
ghost use Rattle.mx_why.specs.Noting.{by_caller, circumstances, died_text, fault_place, killer_by, killer_text, place_text, stack_by, stack_end, stack_text};

use mx_look::{
    Access, FaultGlance, FaultReason, Transition, acting, fault_in, push_fault_line, slot_in,
};
use mx_machine::Recorded;
use mx_print_report::{push_counted, push_name};
use mx_proc::DeathCause;
use std::alloc::AllocError;

/// The vector of a fault of the stack.
const STACK_FAULT: u8 = 12;

/// Appends a cause of death.
fn push_cause(out: &mut Vec<u8>, cause: DeathCause) -> Result<(), AllocError>
    ensures { OnOk result (out.new.items ≡ out.old.items ++ cause_text cause) }
{
    match cause {
        DeathCause::Exit => out.extend_from_slice(b"exit"),
        DeathCause::Kill => out.extend_from_slice(b"kill"),
        DeathCause::Fault(vector) => push_counted(out, b"fault", u32::from(vector)),
    }
}

/// Appends the name of a slot's service.
fn push_name_in(out: &mut Vec<u8>, transition: &Transition, slot: u32) -> Result<(), AllocError>
    ensures { OnOk result (out.new.items ≡ out.old.items
        ++ killer_by (slot_in transition.now.before slot)) }
{
    match slot_in(&transition.before, slot) {
        Some(seen) => push_name(out, &seen.name.bytes),
        None => Ok(()),
    }
}

/// Appends who killed a slot's process by a kernel call, if it was another one.
fn push_caller(out: &mut Vec<u8>, transition: &Transition, slot: u32) -> Result<(), AllocError>
    ensures { OnOk result (out.new.items ≡ out.old.items
        ++ by_caller transition.now slot (acting transition.now)) }
{
    match acting(transition) {
        Some(held) if u32::from(held.slot) != slot => {
            out.extend_from_slice(b" by ")?;
            push_name_in(out, transition, u32::from(held.slot))
        }
        _ => Ok(()),
    }
}

/// Appends who killed a slot's process: one from outside, or another one by its kernel call.
fn push_killer(out: &mut Vec<u8>, transition: &Transition, slot: u32) -> Result<(), AllocError>
    ensures { OnOk result (out.new.items ≡ out.old.items
        ++ killer_text transition.now slot transition.now.event) }
{
    match transition.event {
        Recorded::Kill(_) => out.extend_from_slice(b" from outside"),
        _ => push_caller(out, transition, slot),
    }
}

/// Which end of the stack an address outside is at, if it is at one: below 0, or past the memory's limit.
fn stack_end(at: u32, limit: usize) -> &'static [u8]
    ensures { result.now ≡ stack_end at limit }
{
    if at >= 0x8000_0000 {
        b" (the stack is used up)"
    } else if at as usize >= limit {
        b" (the stack is empty: more taken than put)"
    } else {
        b""
    }
}

/// What a fault of the stack says of it.
fn stack_text(fault: &FaultGlance) -> &'static [u8]
    ensures { result.now ≡ stack_text fault.now fault.now.reason }
{
    match fault.reason {
        FaultReason::Outside(Access { at, .. }) => stack_end(at, fault.memory_limit),
        _ => b"",
    }
}

/// How much of a fault's line stands before ` at`, if its record has the number 0: this number, and two of the three
/// spaces.
const MARGIN: usize = 3;

/// Appends where a process that comes back faulted, and why.
fn push_fault_place(out: &mut Vec<u8>, transition: &Transition) -> Result<(), AllocError>
    ensures { OnOk result (out.new.items ≡ out.old.items ++ fault_place transition.now) }
{
    // The line of a trace, without its number and its end.
    let mut line = Vec::new(*out.allocator());
    let unnumbered = Transition {
        number: 0,
        ..*transition
    };
    push_fault_line(&mut line, &unnumbered)?;
    let text = line.as_slice();
    if text.len() <= MARGIN {
        return Ok(());
    }
    out.extend_from_slice(&text[MARGIN..text.len() - 1])
}

/// Appends which end of the stack a fault was at, if it was one of the stack.
fn push_stack(out: &mut Vec<u8>, transition: &Transition, vector: u8) -> Result<(), AllocError>
    ensures { OnOk result (out.new.items ≡ out.old.items
        ++ stack_by vector (fault_in transition.now.before transition.now.actor)) }
{
    match fault_in(&transition.before, transition.actor) {
        Some(fault) if vector == STACK_FAULT => out.extend_from_slice(stack_text(fault)),
        _ => Ok(()),
    }
}

/// Appends where a process died of a fault.
#[tactic(auto, unfolding(crate::specs::Noting::place_text))]
fn push_place(out: &mut Vec<u8>, transition: &Transition, vector: u8) -> Result<(), AllocError>
    ensures { OnOk result (out.new.items ≡ out.old.items ++ place_text transition.now vector) }
{
    push_fault_place(out, transition)?;
    push_stack(out, transition, vector)
}

/// Appends by whom and where a slot's process died of a cause.
fn push_circumstances(
    out: &mut Vec<u8>,
    transition: &Transition,
    slot: u32,
    cause: DeathCause,
) -> Result<(), AllocError>
    ensures { OnOk result (out.new.items ≡ out.old.items
        ++ circumstances transition.now slot cause) }
{
    match cause {
        DeathCause::Exit => Ok(()),
        DeathCause::Kill => push_killer(out, transition, slot),
        DeathCause::Fault(vector) => push_place(out, transition, vector),
    }
}

/// Appends what a slot's process died of, by whom and where.
#[tactic(auto, unfolding(crate::specs::Noting::died_text))]
pub(crate) fn push_death(
    out: &mut Vec<u8>,
    transition: &Transition,
    slot: u32,
    cause: DeathCause,
) -> Result<(), AllocError>
    ensures { OnOk result (out.new.items ≡ out.old.items ++ died_text transition.now slot cause) }
{
    out.extend_from_slice(b"of ")?;
    push_cause(out, cause)?;
    push_circumstances(out, transition, slot, cause)
}
