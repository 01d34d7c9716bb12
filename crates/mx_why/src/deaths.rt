//! The deaths of a history: those of one slot that are alike are told once.

ghost use Rattle.std.specs.Prelude.{◌≡◌, ◌++◌, ◌<◌, IfOk, OnOk, count_by, filter, length};
ghost use Rattle.mx_why.specs.Deaths.{death_at, death_if_first, death_of, deaths, has_alike, is_alike, is_first, is_respawn_after, respawn_after};
ghost use Rattle.mx_why.specs.Notes.{last_number};

use crate::notes::{Note, is_died, is_respawn_of};
use std::alloc::{AllocError, Global};

/// Deaths of one slot that are alike.
#[derive(Clone, Copy)]
pub struct Death {
    /// Where the note of the first is among the notes.
    pub note: usize,
    pub times: usize,
    /// The record of the first respawn after the last of them.
    pub respawn: Option<u32>,
}

/// Whether two notes are of deaths of one slot, of one cause at one place.
fn is_alike(a: &Note, b: &Note) -> bool
    ensures { result ≡ is_alike a.now b.now }
{
    is_died(a.deed) && is_died(b.deed) && a.slot == b.slot && a.text.as_slice() == b.text.as_slice()
}

/// Whether a note before a place is of a death that is like that of this one.
#[tactic(auto, unfolding(crate::specs::Deaths::has_alike))]
fn has_alike(notes: &[Note], index: usize, note: &Note) -> bool
    requires { index < length notes.now }
    ensures { result ≡ has_alike notes.now index note.now }
{
    notes[..index].iter().any(|other| is_alike(note, other))
}

/// Whether a note, which has this place, is of the first of the deaths that are like it.
fn is_first(notes: &[Note], index: usize, note: &Note) -> bool
    requires { index < length notes.now }
    ensures { result ≡ is_first notes.now index note.now }
{
    is_died(note.deed) && !has_alike(notes, index, note)
}

/// The number of the last death that is like this one.
fn last_alike(notes: &[Note], note: &Note) -> u32
    ensures { result ≡ last_number (filter (is_alike note.now) notes.now) }
{
    let mut number = 0;
    for other in notes {
        if is_alike(note, other) {
            number = other.number;
        }
    }
    number
}

/// How many deaths are like this one.
fn count_alike(notes: &[Note], note: &Note) -> usize
    ensures { result ≡ count_by (is_alike note.now) notes.now }
{
    notes.iter().filter(|other| is_alike(note, other)).count()
}

/// Whether a note is of a slot's respawn, after a record.
fn is_respawn_after(slot: u32, last: u32, note: &Note) -> bool
    ensures { result ≡ is_respawn_after slot last note.now }
{
    is_respawn_of(slot, note) && last < note.number
}

/// The record of a slot's first respawn after a record.
fn respawn_after(notes: &[Note], slot: u32, last: u32) -> Option<u32>
    ensures { result ≡ respawn_after notes.now slot last }
{
    match notes.iter().find(|note| is_respawn_after(slot, last, note)) {
        Some(note) => Some(note.number),
        None => None,
    }
}

/// The deaths that are like the one of a note, which has this place.
#[tactic(auto, unfolding(crate::specs::Deaths::death_of))]
fn death_of(notes: &[Note], index: usize, note: &Note) -> Death
    ensures { result ≡ death_of notes.now index note.now }
{
    Death {
        note: index,
        times: count_alike(notes, note),
        respawn: respawn_after(notes, note.slot, last_alike(notes, note)),
    }
}

/// Appends the deaths that are like that of a note, which has this place, if it is the first of them.
fn push_if_first(
    deaths: &mut Vec<Death>,
    notes: &[Note],
    index: usize,
    note: &Note,
) -> Result<(), AllocError>
    requires { index < length notes.now }
    ensures { OnOk result (deaths.new.items ≡ deaths.old.items
        ++ death_if_first notes.now index note.now) }
{
    if is_first(notes, index, note) {
        deaths.push(death_of(notes, index, note))?;
    }
    Ok(())
}

/// Appends the deaths that are like that of the note at a place, if it is the first of them.
fn push_death_at(deaths: &mut Vec<Death>, notes: &[Note], index: usize) -> Result<(), AllocError>
    ensures { OnOk result (deaths.new.items ≡ deaths.old.items ++ death_at notes.now index) }
{
    match notes.get(index) {
        Some(note) => push_if_first(deaths, notes, index, note),
        None => Ok(()),
    }
}

/// The deaths, those that are alike together, by the first of them.
pub fn deaths_of(alloc: Global, notes: &[Note]) -> Result<Vec<Death>, AllocError>
    ensures { IfOk result (λ found. found.items ≡ deaths notes.now) }
{
    let mut found = Vec::new(alloc);
    for index in 0..notes.len() {
        push_death_at(&mut found, notes, index)?;
    }
    Ok(found)
}
