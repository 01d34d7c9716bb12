//! Calls that were refused: those of one slot that are alike are told once.

ghost use Rattle.std.specs.Prelude.{◌≡◌, ◌<◌, ◌++◌, ◌∷◌, [], IfSome, OnOk, length, position};
ghost use Rattle.mx_machine.specs.Machine.{world_of};
ghost use Rattle.mx_why.specs.FailedCalls.{counted, counted_in, counted_of, first_call, is_alike, once_more};
ghost use Rattle.mx_why.specs.Failing.{call_place};
ghost use Rattle.mx_why.specs.Readings.{reading_of};
ghost use Rattle.mx_why.specs.Wants.{want_of};

use crate::failing::{push_call_place, push_failed_text};
use crate::notes::NoteText;
use crate::readings::{Reading, reading_of};
use crate::wants::{Want, want_of};
use mx_look::Transition;
use mx_machine::Machine;
use mx_proc::Slot;
use std::alloc::AllocError;

/// A call that was refused, and those that are like it.
#[derive(Drop)]
pub struct FailedCall {
    pub slot: u32,
    /// The record of the first.
    pub number: u32,
    /// How many they are, at most 4,294,967,295.
    pub times: u32,
    /// The call, its result, and why.
    pub text: NoteText,
    /// Where the first was made.
    pub place: NoteText,
    /// What the first wanted.
    pub want: Want,
    /// What is known of their results.
    pub reading: Reading,
}

/// Whether a call is one of a slot with this text.
fn is_alike(call: &FailedCall, slot: Slot, text: &[u8]) -> bool
    ensures { result ≡ is_alike slot text.now call.now }
{
    call.slot == u32::from(slot) && call.text.as_slice() == text
}

/// Where the call is of a slot with this text.
fn place_of(calls: &[FailedCall], slot: Slot, text: &[u8]) -> Option<usize>
    ensures place { result ≡ position (is_alike slot text.now) calls.now }
    ensures within { IfSome result (λ i. i < length calls.now) }
{
    calls.iter().position(|call| is_alike(call, slot, text))
}

/// Counts a call once more, of whose result this is known.
fn count_again(call: &mut FailedCall, last: Reading)
    ensures { call.new ≡ once_more last call.old }
{
    call.times = call.times.saturating_add(1);
    call.reading.open(last.cell);
}

/// Appends a call of a slot with this text, as the first.
fn push_first(
    calls: &mut Vec<FailedCall>,
    machine: &Machine,
    transition: &Transition,
    slot: Slot,
    text: Vec<u8>,
) -> Result<(), AllocError>
    ensures { OnOk result (calls.new.items ≡ calls.old.items
        ++ first_call transition.now.number slot text.items (call_place (world_of machine.now) slot)
        (want_of transition.now slot) (reading_of (world_of machine.now) transition.now slot) ∷ []) }
{
    let mut place = Vec::new(*calls.allocator());
    push_call_place(&mut place, machine, slot)?;
    calls.push(FailedCall {
        slot: u32::from(slot),
        number: transition.number,
        times: 1,
        text: NoteText::from_vec(text),
        place: NoteText::from_vec(place),
        want: want_of(transition, u32::from(slot)),
        reading: reading_of(machine, transition, slot),
    })?;
    Ok(())
}

/// Counts a call of a slot with this text: once more, or as the first at this place.
fn count_call(
    calls: &mut Vec<FailedCall>,
    machine: &Machine,
    transition: &Transition,
    slot: Slot,
    text: Vec<u8>,
) -> Result<(), AllocError>
    ensures { OnOk result (calls.new.items
        ≡ counted calls.old.items transition.now.number slot text.items
        (call_place (world_of machine.now) slot) (want_of transition.now slot)
        (reading_of (world_of machine.now) transition.now slot)) }
{
    match place_of(calls.as_slice(), slot, text.as_slice()) {
        Some(index) => {
            count_again(&mut calls[index], reading_of(machine, transition, slot));
            Ok(())
        }
        None => push_first(calls, machine, transition, slot, text),
    }
}

/// Counts what a slot's process was refused in a record, if it was.
#[tactic(auto, unfolding(crate::specs::FailedCalls::counted_of))]
fn count_failed(
    calls: &mut Vec<FailedCall>,
    machine: &Machine,
    transition: &Transition,
    slot: Slot,
) -> Result<(), AllocError>
    ensures { OnOk result (calls.new.items
        ≡ counted_of (world_of machine.now) transition.now calls.old.items slot) }
{
    let mut text = Vec::new(*calls.allocator());
    push_failed_text(&mut text, transition, u32::from(slot))?;
    if text.as_slice().is_empty() {
        return Ok(());
    }
    count_call(calls, machine, transition, slot, text)
}

/// Counts what was refused in a record, after which the machine is so.
pub(crate) fn count_all(
    calls: &mut Vec<FailedCall>,
    machine: &Machine,
    transition: &Transition,
) -> Result<(), AllocError>
    ensures { OnOk result (calls.new.items
        ≡ counted_in (world_of machine.now) transition.now calls.old.items) }
{
    for slot in 0..32u8 {
        count_failed(calls, machine, transition, slot)?;
    }
    Ok(())
}
