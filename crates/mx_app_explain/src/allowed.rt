//! What a service's masks allow.

ghost use Rattle.std.specs.Prelude.{◌≡◌, ◌<◌, ◌≤◌, ◌++◌, OnOk, length};
ghost use Rattle.mx_app_explain.specs.ServiceWords.{call_if, call_words, none_since, or_none, receiver_if, receiver_words, trap_if, trap_words};

use mx_kcall::{CALLS, is_there};
use mx_look::push_call;
use mx_machine::ServiceLine;
use mx_print_report::push_name;
use mx_proc::Rules;
use mx_text::Name;
use mx_word::has_bit;
use std::alloc::AllocError;

/// Appends a trap's name after a space, if its bit is set.
#[tactic(auto, unfolding(crate::specs::ServiceWords::trap_if))]
fn push_trap_if(out: &mut Vec<u8>, traps: u32, trap: u32) -> Result<(), AllocError>
    requires { trap < 32 }
    ensures { OnOk result (out.new.items ≡ out.old.items ++ trap_if traps trap) }
{
    if has_bit(traps, trap) {
        out.push(b' ')?;
        return push_call(out, trap);
    }
    Ok(())
}

/// Appends the traps that a mask allows. Bit 0 is no trap's.
fn push_traps(out: &mut Vec<u8>, traps: u32) -> Result<(), AllocError>
    ensures { OnOk result (out.new.items ≡ out.old.items ++ trap_words traps) }
{
    for index in 0..4u32 {
        push_trap_if(out, traps, index + 1)?;
    }
    Ok(())
}

/// Appends the name of the kernel call of a bit after a space, if the bit is set and the rules have the call.
#[tactic(auto, unfolding(crate::specs::ServiceWords::call_if))]
fn push_call_if(out: &mut Vec<u8>, rules: Rules, calls: u32, bit: u32) -> Result<(), AllocError>
    requires { bit < 32 }
    ensures { OnOk result (out.new.items ≡ out.old.items ++ call_if rules calls bit) }
{
    let Some(row) = CALLS.get(bit as usize) else {
        return Ok(());
    };
    if is_there(rules, row) && has_bit(calls, bit) {
        out.push(b' ')?;
        out.extend_from_slice(row.name())?;
    }
    Ok(())
}

/// Appends the kernel calls that a mask allows.
fn push_calls(out: &mut Vec<u8>, calls: u32, rules: Rules) -> Result<(), AllocError>
    ensures { OnOk result (out.new.items ≡ out.old.items ++ call_words rules calls) }
{
    for bit in 0..CALLS.len() as u32 {
        push_call_if(out, rules, calls, bit)?;
    }
    Ok(())
}

/// Appends the name of a slot's service after a space, if the slot's bit is set.
#[tactic(auto, unfolding(crate::specs::ServiceWords::receiver_if))]
fn push_receiver_if(out: &mut Vec<u8>, sends: u32, slot: u32, name: Name) -> Result<(), AllocError>
    requires { slot < 32 }
    ensures { OnOk result (out.new.items ≡ out.old.items ++ receiver_if sends slot name.bytes) }
{
    if has_bit(sends, slot) {
        out.push(b' ')?;
        return push_name(out, &name.bytes);
    }
    Ok(())
}

/// Appends the services that a mask allows to send to. A bit of a slot without a service is nobody's.
#[tactic(auto, using(crate::proofs::WordLemmas::receivers_more))]
fn push_receivers(out: &mut Vec<u8>, sends: u32, lines: &[ServiceLine]) -> Result<(), AllocError>
    requires { length lines.now ≤ 32 }
    ensures { OnOk result (out.new.items ≡ out.old.items ++ receiver_words sends 0 lines.now) }
{
    for (slot, line) in lines.iter().enumerate() {
        push_receiver_if(out, sends, slot as u32, line.name)?;
    }
    Ok(())
}

/// Appends `none` after a space, if nothing was appended since the text had this length.
fn push_none_since(out: &mut Vec<u8>, before: usize) -> Result<(), AllocError>
    ensures { OnOk result (out.new.items ≡ none_since before out.old.items) }
{
    if out.len() == before {
        out.extend_from_slice(b" none")?;
    }
    Ok(())
}

/// Appends the traps that a mask allows, or that it allows none.
#[tactic(auto, using(crate::proofs::WordLemmas::none_since_is))]
pub(crate) fn push_allowed_traps(out: &mut Vec<u8>, traps: u32) -> Result<(), AllocError>
    ensures { OnOk result (out.new.items ≡ out.old.items ++ or_none (trap_words traps)) }
{
    let before = out.len();
    push_traps(out, traps)?;
    push_none_since(out, before)
}

/// Appends the services that a mask allows to send to, or that it allows none.
#[tactic(auto, using(crate::proofs::WordLemmas::none_since_is))]
pub(crate) fn push_allowed_receivers(
    out: &mut Vec<u8>,
    sends: u32,
    lines: &[ServiceLine],
) -> Result<(), AllocError>
    requires { length lines.now ≤ 32 }
    ensures { OnOk result (out.new.items
        ≡ out.old.items ++ or_none (receiver_words sends 0 lines.now)) }
{
    let before = out.len();
    push_receivers(out, sends, lines)?;
    push_none_since(out, before)
}

/// Appends the kernel calls that a mask allows, or that it allows none.
#[tactic(auto, using(crate::proofs::WordLemmas::none_since_is))]
pub(crate) fn push_allowed_calls(
    out: &mut Vec<u8>,
    calls: u32,
    rules: Rules,
) -> Result<(), AllocError>
    ensures { OnOk result (out.new.items ≡ out.old.items ++ or_none (call_words rules calls)) }
{
    let before = out.len();
    push_calls(out, calls, rules)?;
    push_none_since(out, before)
}
