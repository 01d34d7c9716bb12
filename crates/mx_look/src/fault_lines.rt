//! Where a process faulted, and why.

ghost use Rattle.std.specs.Prelude.{◌≡◌, ◌++◌, OnOk, string_bytes};
ghost use Rattle.mx_insn_words.specs.Numbers.{eight_digits};
ghost use Rattle.mx_look.specs.FaultLines.{access_text, fault_line, fault_text, faulted, limit_number, reason_text, size_text, target_text, touched_text};

use crate::record_lines::push_margin;
use crate::{Access, FaultGlance, FaultReason, Transition, fault_in, push_code};
use mx_insn_words::push_eight_digits;
use mx_machine::Recorded;
use std::alloc::AllocError;
use std::fmt::Write;

/// A limit as a number of 32 bits, as an address is one; no memory has a larger one.
fn limit_number(limit: usize) -> u32
    ensures { result ≡ limit_number limit }
{
    limit.min(u32::MAX as usize) as u32
}

/// Appends words and a limit in eight digits, as an address is printed.
fn push_limit(out: &mut String, words: &str, limit: usize) -> Result<(), AllocError>
    ensures { OnOk result (string_bytes out.new ≡ string_bytes out.old
        ++ (words.now ++ eight_digits (limit_number limit))) }
{
    out.push_str(words)?;
    push_eight_digits(out, limit_number(limit))
}

/// Appends how many bytes an access has, if it begins inside.
#[tactic(auto, unfolding(crate::specs::FaultLines::size_text))]
fn push_size(out: &mut String, at: u32, count: u32, limit: usize) -> Result<(), AllocError>
    ensures { OnOk result (string_bytes out.new ≡ string_bytes out.old
        ++ size_text at count limit) }
{
    if at as usize >= limit {
        return Ok(());
    }
    write!(out, "+{count}")
}

/// Appends the place of an access: its address, and how many bytes from there on if it begins inside.
#[tactic(auto, unfolding(crate::specs::FaultLines::touched_text))]
fn push_touched(out: &mut String, at: u32, count: u32, limit: usize) -> Result<(), AllocError>
    ensures { OnOk result (string_bytes out.new ≡ string_bytes out.old
        ++ touched_text at count limit) }
{
    out.push_str(": ")?;
    push_eight_digits(out, at)?;
    push_size(out, at, count, limit)
}

/// Appends the access that isn't inside.
#[tactic(auto, unfolding(crate::specs::FaultLines::access_text))]
fn push_access(out: &mut String, at: u32, count: u32, limit: usize) -> Result<(), AllocError>
    ensures { OnOk result (string_bytes out.new ≡ string_bytes out.old
        ++ access_text at count limit) }
{
    push_touched(out, at, count, limit)?;
    push_limit(out, " is past the limit ", limit)
}

/// Appends the target that isn't in the code.
#[tactic(auto, unfolding(crate::specs::FaultLines::target_text))]
fn push_target(out: &mut String, target: u32, limit: usize) -> Result<(), AllocError>
    ensures { OnOk result (string_bytes out.new ≡ string_bytes out.old
        ++ target_text target limit) }
{
    out.push_str(": the target ")?;
    push_eight_digits(out, target)?;
    push_limit(out, " is past the code's limit ", limit)
}

/// Appends why an instruction faulted, unless its vector says it.
#[tactic(auto, unfolding(crate::specs::FaultLines::reason_text))]
fn push_reason(out: &mut String, fault: &FaultGlance) -> Result<(), AllocError>
    ensures { OnOk result (string_bytes out.new ≡ string_bytes out.old
        ++ reason_text fault.now fault.now.reason) }
{
    match fault.reason {
        FaultReason::Outside(Access { at, size }) => {
            push_access(out, at, size.bytes(), fault.memory_limit)
        }
        FaultReason::CodeEnd => push_limit(out, ": the code ends at ", fault.code_limit),
        FaultReason::Target(target) => push_target(out, target, fault.code_limit),
        FaultReason::Forbidden => out.push_str(": no process may do this"),
        FaultReason::Other => Ok(()),
    }
}

/// Appends the code that faulted, and why.
#[tactic(auto, unfolding(crate::specs::FaultLines::fault_text))]
fn push_fault(out: &mut String, fault: &FaultGlance) -> Result<(), AllocError>
    ensures { OnOk result (string_bytes out.new ≡ string_bytes out.old ++ fault_text fault.now) }
{
    push_code(out, fault.symbol.as_ref(), fault.part, fault.at)?;
    push_reason(out, fault)
}

/// Appends the line of a fault.
#[tactic(auto, unfolding(crate::specs::FaultLines::faulted))]
fn push_faulted(
    out: &mut Vec<u8>,
    transition: &Transition,
    fault: &FaultGlance,
) -> Result<(), AllocError>
    ensures { OnOk result (out.new.items ≡ out.old.items ++ faulted transition.now fault.now) }
{
    push_margin(out, transition)?;
    let mut text = String::new(*out.allocator());
    push_fault(&mut text, fault)?;
    out.extend_from_slice(b"at ")?;
    out.extend_from_slice(text.as_bytes())?;
    out.push(b'\n')?;
    Ok(())
}

/// Appends the line of the fault with which a process comes back, if it does.
#[tactic(auto, unfolding(crate::specs::FaultLines::fault_line))]
pub fn push_fault_line(out: &mut Vec<u8>, transition: &Transition) -> Result<(), AllocError>
    ensures { OnOk result (out.new.items ≡ out.old.items ++ fault_line transition.now) }
{
    match (
        transition.event,
        fault_in(&transition.before, transition.actor),
    ) {
        (Recorded::Back(_), Some(fault)) => push_faulted(out, transition, fault),
        _ => Ok(()),
    }
}
