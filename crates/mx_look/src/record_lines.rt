//! What came of a record: answers, the console, alarms, deliveries and changes.

ghost use Rattle.std.specs.Prelude.{◌≡◌, ◌<◌, ◌++◌, OnOk};
ghost use Rattle.mx_look.specs.Transition.{slot_in};
ghost use Rattle.mx_look.specs.Numbers.{margin};
ghost use Rattle.mx_look.specs.Trace.{answered, answer_line, byte_text, console_text, console_line, alarm_line, told_words, delivered_words, delivery_line, delivery_parties, result_part, changed, change_line, quantum_line};

use crate::kernel_calls::push_answer;
use crate::parties::{push_party, push_who, push_who_of};
use crate::refusals::push_refusal;
use crate::result_names::{push_result, push_spaced, used_count};
use crate::{
    CpuGlance, SlotGlance, Transition, delivery_to, gone_on, has_changed, has_rung, is_ready,
    is_renewed, kernel_call, slot_in,
};
use mx_print_report::{kind_word, push_counted, push_decimal, push_doing, push_two_digits};
use mx_proc::Delivery;
use std::alloc::AllocError;

/// Appends a record's number, and three spaces.
#[tactic(auto, unfolding(crate::specs::Numbers::margin))]
pub(crate) fn push_margin(out: &mut Vec<u8>, transition: &Transition) -> Result<(), AllocError>
    ensures { OnOk result (out.new.items ≡ out.old.items ++ margin transition.now) }
{
    push_decimal(out, transition.number)?;
    out.extend_from_slice(b"   ")
}

/// Appends the line of an answer, if there is one: the caller of a kernel call that is made goes on.
#[tactic(auto, unfolding(crate::specs::Trace::answered))]
fn push_answered(
    out: &mut Vec<u8>,
    transition: &Transition,
    held: &CpuGlance,
    seen: &SlotGlance,
) -> Result<(), AllocError>
    ensures { OnOk result (out.new.items ≡ out.old.items ++ answered transition.now held.now seen.now) }
{
    match (&held.image.words, &seen.image.words) {
        (Some(request), Some(reply)) if is_ready(seen.doing) => {
            push_margin(out, transition)?;
            push_answer(out, &transition.after, request, reply)?;
            out.push(b'\n')?;
            Ok(())
        }
        _ => Ok(()),
    }
}

/// Appends the line of a kernel call's answer, if there is one.
#[tactic(auto, unfolding(crate::specs::Trace::answer_line))]
pub(crate) fn push_answer_line(out: &mut Vec<u8>, transition: &Transition) -> Result<(), AllocError>
    ensures { OnOk result (out.new.items ≡ out.old.items ++ answer_line transition.now) }
{
    let Some(held) = kernel_call(transition) else {
        return Ok(());
    };
    match slot_in(&transition.after, u32::from(held.slot)) {
        Some(seen) => push_answered(out, transition, held, seen),
        None => Ok(()),
    }
}

/// Appends a byte in two hexadecimal digits after `0x`.
#[tactic(auto, unfolding(crate::specs::Trace::byte_text))]
fn push_byte(out: &mut Vec<u8>, byte: u8) -> Result<(), AllocError>
    ensures { OnOk result (out.new.items ≡ out.old.items ++ byte_text byte) }
{
    out.extend_from_slice(b"0x")?;
    push_two_digits(out, byte)
}

/// Appends a byte of the console, and its character if it has one.
#[tactic(auto, unfolding(crate::specs::Trace::console_text))]
fn push_console_text(out: &mut Vec<u8>, byte: u8) -> Result<(), AllocError>
    ensures { OnOk result (out.new.items ≡ out.old.items ++ console_text byte) }
{
    out.extend_from_slice(b"console ")?;
    push_byte(out, byte)?;
    if byte > 0x20 && byte < 0x7F {
        out.extend_from_slice(b" '")?;
        out.push(byte)?;
        out.push(b'\'')?;
    }
    Ok(())
}

/// Appends the line of a byte that was written to the console, if one was.
#[tactic(auto, unfolding(crate::specs::Trace::console_line))]
pub fn push_console_line(out: &mut Vec<u8>, transition: &Transition) -> Result<(), AllocError>
    ensures { OnOk result (out.new.items ≡ out.old.items ++ console_line transition.now) }
{
    if transition.before.written == transition.after.written {
        return Ok(());
    }
    let Some(byte) = transition.after.last_byte else {
        return Ok(());
    };
    push_margin(out, transition)?;
    push_console_text(out, byte)?;
    out.push(b'\n')?;
    Ok(())
}

/// Appends the line of a slot's alarm, if it rings.
#[tactic(auto, unfolding(crate::specs::Trace::alarm_line))]
pub(crate) fn push_alarm(
    out: &mut Vec<u8>,
    transition: &Transition,
    slot: u32,
) -> Result<(), AllocError>
    ensures { OnOk result (out.new.items ≡ out.old.items ++ alarm_line transition.now slot) }
{
    if !has_rung(transition, slot) {
        return Ok(());
    }
    push_margin(out, transition)?;
    out.extend_from_slice(b"alarm ")?;
    push_who(out, &transition.after, slot)?;
    out.push(b'\n')?;
    Ok(())
}

/// Appends numbers without the zeros at the end, if any is left.
#[tactic(auto, unfolding(crate::specs::Trace::told_words))]
fn push_told_words(out: &mut Vec<u8>, numbers: &[u32]) -> Result<(), AllocError>
    ensures { OnOk result (out.new.items ≡ out.old.items ++ told_words numbers.now) }
{
    let count = used_count(numbers);
    if count == 0 {
        return Ok(());
    }
    out.extend_from_slice(b" words")?;
    push_spaced(out, &numbers[..count])
}

/// Appends the words p0 to p6 that came to a slot.
#[tactic(auto, unfolding(crate::specs::Trace::delivered_words))]
fn push_delivered_words(
    out: &mut Vec<u8>,
    transition: &Transition,
    slot: u32,
) -> Result<(), AllocError>
    ensures { OnOk result (out.new.items ≡ out.old.items
        ++ delivered_words (slot_in transition.now.after slot)) }
{
    let Some(seen) = slot_in(&transition.after, slot) else {
        return Ok(());
    };
    match &seen.image.words {
        Some(words) => push_told_words(out, &words[2..]),
        None => Ok(()),
    }
}

/// Appends what was delivered, from whom and to whom, as `send tty to fs`.
#[tactic(auto, unfolding(crate::specs::Trace::delivery_parties))]
fn push_parties(
    out: &mut Vec<u8>,
    transition: &Transition,
    delivery: Delivery,
) -> Result<(), AllocError>
    ensures { OnOk result (out.new.items ≡ out.old.items ++ delivery_parties transition.now delivery) }
{
    out.extend_from_slice(kind_word(delivery.kind).as_bytes())?;
    out.push(b' ')?;
    push_party(out, &transition.after, delivery.from)?;
    out.extend_from_slice(b" to ")?;
    push_party(out, &transition.after, delivery.to)
}

/// Appends the line of what a slot got, if it got anything.
#[tactic(auto, unfolding(crate::specs::Trace::delivery_line))]
pub fn push_delivery(
    out: &mut Vec<u8>,
    transition: &Transition,
    slot: u32,
) -> Result<(), AllocError>
    requires { slot < 32 }
    ensures { OnOk result (out.new.items ≡ out.old.items ++ delivery_line transition.now slot) }
{
    let Some(delivery) = delivery_to(transition, slot) else {
        return Ok(());
    };
    push_margin(out, transition)?;
    push_parties(out, transition, delivery)?;
    push_counted(out, b" type", delivery.message_type)?;
    push_delivered_words(out, transition, slot)?;
    out.push(b'\n')?;
    Ok(())
}

/// Appends the result with which a slot's process has gone on, if it has, and why it is an error.
#[tactic(auto, unfolding(crate::specs::Trace::result_part))]
fn push_result_part(out: &mut Vec<u8>, transition: &Transition, slot: u32) -> Result<(), AllocError>
    ensures { OnOk result (out.new.items ≡ out.old.items ++ result_part transition.now slot) }
{
    match gone_on(transition, slot) {
        Some(outcome) => {
            out.extend_from_slice(b", result ")?;
            push_result(out, outcome)?;
            push_refusal(out, transition, slot, outcome)
        }
        None => Ok(()),
    }
}

/// Appends the line of a change of what a slot's process does.
#[tactic(auto, unfolding(crate::specs::Trace::changed))]
fn push_changed(
    out: &mut Vec<u8>,
    transition: &Transition,
    slot: u32,
    before: &SlotGlance,
    after: &SlotGlance,
) -> Result<(), AllocError>
    ensures { OnOk result (out.new.items ≡ out.old.items
        ++ changed transition.now slot before.now after.now) }
{
    push_margin(out, transition)?;
    push_who_of(out, after)?;
    out.extend_from_slice(b": ")?;
    push_doing(out, before.doing)?;
    out.extend_from_slice(b" -> ")?;
    push_doing(out, after.doing)?;
    push_result_part(out, transition, slot)?;
    out.push(b'\n')?;
    Ok(())
}

/// Appends the line of a slot whose process does something else, if it does.
#[tactic(auto, unfolding(crate::specs::Trace::change_line))]
pub fn push_change(out: &mut Vec<u8>, transition: &Transition, slot: u32) -> Result<(), AllocError>
    ensures { OnOk result (out.new.items ≡ out.old.items ++ change_line transition.now slot) }
{
    if !has_changed(transition, slot) {
        return Ok(());
    }
    match (
        slot_in(&transition.before, slot),
        slot_in(&transition.after, slot),
    ) {
        (Some(before), Some(after)) => push_changed(out, transition, slot, before, after),
        _ => Ok(()),
    }
}

/// Appends the line of a slot whose process has a new quantum, if it has.
#[tactic(auto, unfolding(crate::specs::Trace::quantum_line))]
pub(crate) fn push_quantum(
    out: &mut Vec<u8>,
    transition: &Transition,
    slot: u32,
) -> Result<(), AllocError>
    ensures { OnOk result (out.new.items ≡ out.old.items ++ quantum_line transition.now slot) }
{
    if !is_renewed(transition, slot) {
        return Ok(());
    }
    let Some(seen) = slot_in(&transition.after, slot) else {
        return Ok(());
    };
    push_margin(out, transition)?;
    push_who_of(out, seen)?;
    push_counted(out, b": quantum", seen.ticks)?;
    push_counted(out, b" at level", u32::from(seen.level))?;
    out.push(b'\n')?;
    Ok(())
}
