//! The lines of those that compute without a call.

ghost use Rattle.std.specs.Prelude.{◌≡◌, ◌++◌, OnOk, count_by};
ghost use Rattle.std.specs.List.{flat_map, range_with_len};
ghost use Rattle.mx_why.specs.Busy.{budgets_spent, busy, busy_at, busy_line_at, busy_lines, computes_since, is_busy, is_spent, is_spent_after, is_start, is_start_of, is_told, pace, pace_in, pace_line};

use crate::ends::{Unfinished, is_listed};
use crate::lines::{MOST_LINES, push_left_out};
use crate::notes::{Deed, Note, is_call, is_died};
use crate::reasons::push_slot;
use crate::seats::End;
use mx_print_report::{push_counted, push_long};
use std::alloc::AllocError;

/// How long a process has computed without a call.
#[derive(Clone, Copy)]
pub struct Pace {
    /// The record of its last call, or of the slot's last death or respawn: 0, if there is none.
    pub since: u32,
    /// How many budgets it has spent since then.
    pub spent: usize,
}

/// How many spent budgets are told.
const LEAST_SPENT: usize = 2;

/// Whether one computes anew from here: after a call, and after a death or a respawn.
fn is_start(deed: Deed) -> bool
    ensures { result ≡ is_start deed }
{
    is_call(deed) || matches!(deed, Deed::Respawned) || is_died(deed)
}

/// Whether the process of a slot computes anew from a note on.
fn is_start_of(slot: u32, note: &Note) -> bool
    ensures { result ≡ is_start_of slot note.now }
{
    note.slot == slot && is_start(note.deed)
}

/// The number of the record since which the process of a slot has made no call.
fn computes_since(notes: &[Note], slot: u32) -> u32
    ensures { result ≡ computes_since notes.now slot }
{
    let mut number = 0;
    for note in notes {
        if is_start_of(slot, note) {
            number = note.number;
        }
    }
    number
}

/// Whether this is that a budget is spent.
fn is_spent(deed: Deed) -> bool
    ensures { result ≡ is_spent deed }
{
    matches!(deed, Deed::Spent)
}

/// Whether a note is that the process of a slot has spent its budget, after a record.
fn is_spent_after(slot: u32, since: u32, note: &Note) -> bool
    ensures { result ≡ is_spent_after slot since note.now }
{
    note.slot == slot && is_spent(note.deed) && since < note.number
}

/// How long the process of a slot has computed without a call.
#[tactic(auto, unfolding(crate::specs::Busy::pace, crate::specs::Busy::budgets_spent))]
fn pace_of(notes: &[Note], slot: u32) -> Pace
    ensures { result ≡ pace notes.now slot }
{
    let since = computes_since(notes, slot);
    let spent = notes
        .iter()
        .filter(|note| is_spent_after(slot, since, note))
        .count();
    Pace { since, spent }
}

/// How long the process of a slot has computed without a call, if it is one that is told.
#[tactic(auto, unfolding(crate::specs::Busy::busy_at))]
pub(crate) fn busy_at(end: &End, notes: &[Note], slot: u32) -> Option<Pace>
    ensures { result ≡ busy_at end.now notes.now slot }
{
    if !is_listed(end, Unfinished::Running, slot) {
        return None;
    }
    let pace = pace_of(notes, slot);
    if LEAST_SPENT <= pace.spent {
        Some(pace)
    } else {
        None
    }
}

/// Who computes without a call.
pub fn busy_of(end: &End, notes: &[Note]) -> [Option<Pace>; 32]
    ensures { result ≡ busy end.now notes.now }
{
    let mut found = [None; 32];
    for slot in 0..32u32 {
        found[slot as usize] = busy_at(end, notes, slot);
    }
    found
}

/// How long a slot's process has computed, if it is one that is told.
fn pace_in(found: &[Option<Pace>; 32], slot: u32) -> Option<Pace>
    ensures { result ≡ pace_in found.now slot }
{
    if slot as usize >= found.len() {
        return None;
    }
    found[slot as usize]
}

/// Whether a slot has a line.
fn is_busy(found: &[Option<Pace>; 32], slot: u32) -> bool
    ensures { result ≡ is_busy found.now slot }
{
    pace_in(found, slot).is_some()
}

/// How many slots below one have a line.
pub(crate) fn count_busy(found: &[Option<Pace>; 32], below: u32) -> usize
    ensures { result ≡ count_by (is_busy found.now) (range_with_len 0 below) }
{
    (0..below).filter(|slot| is_busy(found, *slot)).count()
}

/// Appends the line of a slot.
#[tactic(auto, unfolding(crate::specs::Busy::pace_line))]
fn push_pace(out: &mut Vec<u8>, end: &End, slot: u32, pace: Pace) -> Result<(), AllocError>
    ensures { OnOk result (out.new.items ≡ out.old.items ++ pace_line end.now slot pace) }
{
    out.extend_from_slice(b"busy: ")?;
    push_slot(out, end, slot)?;
    push_counted(out, b" computes since record", pace.since)?;
    out.extend_from_slice(b": ")?;
    push_long(out, pace.spent as u64)?;
    out.extend_from_slice(b" budgets are spent without a call\n")
}

/// Whether a slot is one of the first that have a line.
fn is_told(found: &[Option<Pace>; 32], slot: u32) -> bool
    ensures { result ≡ is_told found.now slot }
{
    count_busy(found, slot) < MOST_LINES
}

/// Appends the line of a slot, if it has one and is one of the first that have.
#[tactic(auto, unfolding(crate::specs::Busy::busy_line_at))]
fn push_busy_at(
    out: &mut Vec<u8>,
    end: &End,
    found: &[Option<Pace>; 32],
    slot: u32,
) -> Result<(), AllocError>
    ensures { OnOk result (out.new.items ≡ out.old.items
        ++ busy_line_at end.now found.now slot) }
{
    match pace_in(found, slot) {
        Some(pace) if is_told(found, slot) => push_pace(out, end, slot, pace),
        _ => Ok(()),
    }
}

/// Appends the first lines.
fn push_each_busy(
    out: &mut Vec<u8>,
    end: &End,
    found: &[Option<Pace>; 32],
) -> Result<(), AllocError>
    ensures { OnOk result (out.new.items ≡ out.old.items
        ++ flat_map (busy_line_at end.now found.now) (range_with_len 0 32)) }
{
    for slot in 0..32u32 {
        push_busy_at(out, end, found, slot)?;
    }
    Ok(())
}

/// Appends the lines of those that compute without a call, and how many are left out.
#[tactic(auto, unfolding(crate::specs::Busy::busy_lines))]
pub(crate) fn push_busy(
    out: &mut Vec<u8>,
    end: &End,
    found: &[Option<Pace>; 32],
) -> Result<(), AllocError>
    ensures { OnOk result (out.new.items ≡ out.old.items ++ busy_lines end.now found.now) }
{
    push_each_busy(out, end, found)?;
    push_left_out(out, b"busy: ", count_busy(found, 32))
}
