//! The lines of those that send to a process which goes on, and doesn't take their message.

ghost use Rattle.std.specs.Prelude.{◌≡◌, ◌++◌, OnOk, count_by};
ghost use Rattle.std.specs.List.{flat_map, list_any, range_with_len};
ghost use Rattle.mx_why.specs.declared.unheard.Unheard.TheVariants.{Computing, Refused, Silent};
ghost use Rattle.mx_why.specs.Unheard.{by_calls, by_pace, calls_after, is_call_after, is_missed, is_missed_after, is_received, is_received_after, is_told, is_unheard, receiver, receiver_of, unheard, unheard_at, unheard_from, unheard_in, unheard_line, unheard_line_at, unheard_lines, why_unheard, why_unheard_by};

use crate::busy::{Pace, busy_at};
use crate::ends::{Unfinished, is_listed};
use crate::lines::{MOST_LINES, push_left_out};
use crate::notes::{Deed, Note, is_call, since};
use crate::reasons::{push_since, push_slot, push_waiting};
use crate::seats::End;
use mx_print_report::{Doing, push_counted, push_long};
use std::alloc::AllocError;

/// Why a message isn't taken.
#[derive(Clone, Copy)]
pub enum Unheard {
    /// The receiver has made so many calls since it is sent, and none takes a message.
    Silent(usize),
    /// Each call of it that would take one is refused.
    Refused,
    /// It computes since this record, without a call.
    Computing(u32),
}

/// How many calls without a message are told.
const LEAST_CALLS: usize = 8;

/// To whom one sends that does this.
fn receiver_of(doing: Doing) -> Option<u32>
    ensures { result ≡ receiver_of doing }
{
    match doing {
        Doing::Sending(slot) | Doing::Calling(slot) => Some(slot),
        _ => None,
    }
}

/// To whom the process of a slot sends.
fn receiver(end: &End, slot: u32) -> Option<u32>
    ensures { result ≡ receiver end.now slot }
{
    match end.doing(slot) {
        Some(doing) => receiver_of(doing),
        None => None,
    }
}

/// Whether a note is of a slot's call, after a record.
fn is_call_after(slot: u32, since: u32, note: &Note) -> bool
    ensures { result ≡ is_call_after slot since note.now }
{
    note.slot == slot && is_call(note.deed) && since < note.number
}

/// Whether this is a call that takes a message.
fn is_received(deed: Deed) -> bool
    ensures { result ≡ is_received deed }
{
    matches!(deed, Deed::Received)
}

/// Whether this is one that is refused.
fn is_missed(deed: Deed) -> bool
    ensures { result ≡ is_missed deed }
{
    matches!(deed, Deed::Missed)
}

/// Whether a note is of a slot's call that takes a message, after a record.
fn is_received_after(slot: u32, since: u32, note: &Note) -> bool
    ensures { result ≡ is_received_after slot since note.now }
{
    note.slot == slot && is_received(note.deed) && since < note.number
}

/// Whether a note is of one that is refused.
fn is_missed_after(slot: u32, since: u32, note: &Note) -> bool
    ensures { result ≡ is_missed_after slot since note.now }
{
    note.slot == slot && is_missed(note.deed) && since < note.number
}

/// Whether the process of a slot has called for a message after a record.
fn has_received(notes: &[Note], slot: u32, since: u32) -> bool
    ensures { result ≡ list_any (is_received_after slot since) notes.now }
{
    notes
        .iter()
        .any(|note| is_received_after(slot, since, note))
}

/// Whether it was refused one.
fn has_missed(notes: &[Note], slot: u32, since: u32) -> bool
    ensures { result ≡ list_any (is_missed_after slot since) notes.now }
{
    notes.iter().any(|note| is_missed_after(slot, since, note))
}

/// How many calls the process of a slot has made after a record.
fn count_calls(notes: &[Note], slot: u32, since: u32) -> usize
    ensures { result ≡ calls_after notes.now slot since }
{
    notes
        .iter()
        .filter(|note| is_call_after(slot, since, note))
        .count()
}

/// Why a message to a slot isn't taken since a record, after so many calls.
fn by_calls(notes: &[Note], slot: u32, since: u32, calls: usize) -> Option<Unheard>
    ensures { result ≡ by_calls notes.now slot since calls }
{
    if calls < LEAST_CALLS || has_received(notes, slot, since) {
        None
    } else if has_missed(notes, slot, since) {
        Some(Unheard::Refused)
    } else {
        Some(Unheard::Silent(calls))
    }
}

/// Why a message isn't taken by one that computes without a call, if it does.
fn by_pace(pace: Option<Pace>) -> Option<Unheard>
    ensures { result ≡ by_pace pace }
{
    match pace {
        Some(pace) => Some(Unheard::Computing(pace.since)),
        None => None,
    }
}

/// Why a message to a slot isn't taken since a record, though its process is ready or on a processor.
fn unheard_from(end: &End, notes: &[Note], slot: u32, since: u32) -> Option<Unheard>
    ensures { result ≡ unheard_from end.now notes.now slot since }
{
    if !is_listed(end, Unfinished::Running, slot) {
        return None;
    }
    match by_calls(notes, slot, since, count_calls(notes, slot, since)) {
        Some(why) => Some(why),
        None => by_pace(busy_at(end, notes, slot)),
    }
}

/// Why the message of a slot isn't taken, if its receiver could take it.
#[tactic(auto, unfolding(crate::specs::Unheard::unheard_at))]
fn unheard_at(end: &End, notes: &[Note], slot: u32) -> Option<Unheard>
    ensures { result ≡ unheard_at end.now notes.now slot }
{
    match receiver(end, slot) {
        Some(other) => unheard_from(end, notes, other, since(notes, slot)),
        None => None,
    }
}

/// Who isn't heard.
pub fn unheard_of(end: &End, notes: &[Note]) -> [Option<Unheard>; 32]
    ensures { result ≡ unheard end.now notes.now }
{
    let mut found = [None; 32];
    for slot in 0..32u32 {
        found[slot as usize] = unheard_at(end, notes, slot);
    }
    found
}

/// Why a slot's message isn't taken, if it is one of those.
fn unheard_in(found: &[Option<Unheard>; 32], slot: u32) -> Option<Unheard>
    ensures { result ≡ unheard_in found.now slot }
{
    if slot as usize >= found.len() {
        return None;
    }
    found[slot as usize]
}

/// Whether a slot has a line.
fn is_unheard(found: &[Option<Unheard>; 32], slot: u32) -> bool
    ensures { result ≡ is_unheard found.now slot }
{
    unheard_in(found, slot).is_some()
}

/// How many slots below one have a line.
pub(crate) fn count_unheard(found: &[Option<Unheard>; 32], below: u32) -> usize
    ensures { result ≡ count_by (is_unheard found.now) (range_with_len 0 below) }
{
    (0..below).filter(|slot| is_unheard(found, *slot)).count()
}

/// Appends that a slot's process has made so many calls, and none that takes a message.
fn push_silent(out: &mut Vec<u8>, end: &End, slot: u32, calls: usize) -> Result<(), AllocError>
    ensures { OnOk result (out.new.items ≡ out.old.items
        ++ why_unheard end.now slot (Silent calls)) }
{
    push_slot(out, end, slot)?;
    out.extend_from_slice(b" has made ")?;
    push_long(out, calls as u64)?;
    out.extend_from_slice(b" calls since, none of them RECEIVE")
}

/// Appends that a slot's process was refused each call that would take a message.
fn push_refused(out: &mut Vec<u8>, end: &End, slot: u32) -> Result<(), AllocError>
    ensures { OnOk result (out.new.items ≡ out.old.items ++ why_unheard end.now slot Refused) }
{
    out.extend_from_slice(b"each RECEIVE of ")?;
    push_slot(out, end, slot)?;
    out.extend_from_slice(b" since is refused")
}

/// Appends since which record a slot's process computes.
fn push_computing(out: &mut Vec<u8>, end: &End, slot: u32, since: u32) -> Result<(), AllocError>
    ensures { OnOk result (out.new.items ≡ out.old.items
        ++ why_unheard end.now slot (Computing since)) }
{
    push_slot(out, end, slot)?;
    push_counted(out, b" computes since record", since)?;
    out.extend_from_slice(b", without a call")
}

/// Appends why a message to a slot isn't taken.
fn push_why(out: &mut Vec<u8>, end: &End, slot: u32, why: Unheard) -> Result<(), AllocError>
    ensures { OnOk result (out.new.items ≡ out.old.items ++ why_unheard end.now slot why) }
{
    match why {
        Unheard::Silent(calls) => push_silent(out, end, slot, calls),
        Unheard::Refused => push_refused(out, end, slot),
        Unheard::Computing(since) => push_computing(out, end, slot, since),
    }
}

/// Appends why the message of a slot isn't taken.
fn push_why_of(out: &mut Vec<u8>, end: &End, slot: u32, why: Unheard) -> Result<(), AllocError>
    ensures { OnOk result (out.new.items ≡ out.old.items
        ++ why_unheard_by end.now (receiver end.now slot) why) }
{
    match receiver(end, slot) {
        Some(other) => push_why(out, end, other, why),
        None => Ok(()),
    }
}

/// Appends the line of a slot.
#[tactic(auto, unfolding(crate::specs::Unheard::unheard_line))]
fn push_unheard_line(
    out: &mut Vec<u8>,
    end: &End,
    notes: &[Note],
    slot: u32,
    why: Unheard,
) -> Result<(), AllocError>
    ensures { OnOk result (out.new.items ≡ out.old.items
        ++ unheard_line end.now notes.now slot why) }
{
    out.extend_from_slice(b"waits: ")?;
    push_waiting(out, end, slot)?;
    push_since(out, notes, slot)?;
    out.extend_from_slice(b": ")?;
    push_why_of(out, end, slot, why)?;
    out.extend_from_slice(b"\n")
}

/// Whether a slot is one of the first that have a line.
fn is_told(found: &[Option<Unheard>; 32], slot: u32) -> bool
    ensures { result ≡ is_told found.now slot }
{
    count_unheard(found, slot) < MOST_LINES
}

/// Appends the line of a slot, if it has one and is one of the first that have.
#[tactic(auto, unfolding(crate::specs::Unheard::unheard_line_at))]
fn push_unheard_at(
    out: &mut Vec<u8>,
    end: &End,
    notes: &[Note],
    found: &[Option<Unheard>; 32],
    slot: u32,
) -> Result<(), AllocError>
    ensures { OnOk result (out.new.items ≡ out.old.items
        ++ unheard_line_at end.now notes.now found.now slot) }
{
    match unheard_in(found, slot) {
        Some(why) if is_told(found, slot) => push_unheard_line(out, end, notes, slot, why),
        _ => Ok(()),
    }
}

/// Appends the first lines.
fn push_each_unheard(
    out: &mut Vec<u8>,
    end: &End,
    notes: &[Note],
    found: &[Option<Unheard>; 32],
) -> Result<(), AllocError>
    ensures { OnOk result (out.new.items ≡ out.old.items
        ++ flat_map (unheard_line_at end.now notes.now found.now) (range_with_len 0 32)) }
{
    for slot in 0..32u32 {
        push_unheard_at(out, end, notes, found, slot)?;
    }
    Ok(())
}

/// Appends the lines of those that aren't heard, and how many are left out.
#[tactic(auto, unfolding(crate::specs::Unheard::unheard_lines))]
pub(crate) fn push_unheard(
    out: &mut Vec<u8>,
    end: &End,
    notes: &[Note],
    found: &[Option<Unheard>; 32],
) -> Result<(), AllocError>
    ensures { OnOk result (out.new.items ≡ out.old.items
        ++ unheard_lines end.now notes.now found.now) }
{
    push_each_unheard(out, end, notes, found)?;
    push_left_out(out, b"waits: ", count_unheard(found, 32))
}
