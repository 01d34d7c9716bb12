//! Notes of what became of the slots in a history, and what they tell.

ghost use Rattle.std.specs.Prelude.{◌≡◌};
ghost use Rattle.mx_why.specs.Notes.{has_run, is_call, is_change_of, is_changed, is_died, is_respawn_of, is_respawned, is_take_of, is_taken, since};

use std::marker::Model;

/// What a note is of.
#[derive(Clone, Copy)]
pub enum Deed {
    /// A processor takes the slot's process.
    Taken,
    /// The process does something else, and neither dies nor is new.
    Changed,
    /// It is killed.
    Killed,
    /// It dies of a fault.
    Faulted,
    /// The slot has a new process.
    Respawned,
    /// The process makes a call that takes no message: its trap is acted.
    Called,
    /// It makes one that takes a message: RECEIVE, or SENDREC to another process.
    Received,
    /// It makes such a one, and is refused.
    Missed,
    /// It comes back with its budget spent.
    Spent,
}

/// A text of a note.
#[derive(Drop)]
pub struct NoteText {
    bytes: Vec<u8>,
}

impl Model for NoteText {
    ghost use Rattle.std.specs.Prelude.{List, ℕ};

    ghost Value = { List ℕ };

    ghost view = { λ text. text.bytes.items };
}

impl NoteText {
    /// A text of these bytes. Takes no memory.
    pub fn from_vec(bytes: Vec<u8>) -> NoteText
        ensures { result ≡ bytes.items }
    {
        NoteText { bytes }
    }

    /// Its bytes.
    pub fn as_slice(&self) -> &[u8]
        ensures { result.now ≡ self.now }
    {
        self.bytes.as_slice()
    }
}

/// A note of one record, about one slot.
#[derive(Drop)]
pub struct Note {
    /// The place of its record in the history, counted from 1.
    pub number: u32,
    pub slot: u32,
    pub deed: Deed,
    /// Of a death, its cause and its place.
    pub text: NoteText,
}

/// Whether this is that a processor takes a process.
fn is_taken(deed: Deed) -> bool
    ensures { result ≡ is_taken deed }
{
    matches!(deed, Deed::Taken)
}

/// Whether this is a change of what a process does.
fn is_changed(deed: Deed) -> bool
    ensures { result ≡ is_changed deed }
{
    matches!(deed, Deed::Changed | Deed::Respawned) || is_died(deed)
}

/// Whether this is a death.
pub(crate) fn is_died(deed: Deed) -> bool
    ensures { result ≡ is_died deed }
{
    matches!(deed, Deed::Killed | Deed::Faulted)
}

/// Whether this is a call.
pub(crate) fn is_call(deed: Deed) -> bool
    ensures { result ≡ is_call deed }
{
    matches!(deed, Deed::Called | Deed::Received | Deed::Missed)
}

/// Whether a note is that a slot has a new process.
pub(crate) fn is_respawn_of(slot: u32, note: &Note) -> bool
    ensures { result ≡ is_respawn_of slot note.now }
{
    note.slot == slot && matches!(note.deed, Deed::Respawned)
}

/// Whether a note is of a change of what a slot's process does.
fn is_change_of(slot: u32, note: &Note) -> bool
    ensures { result ≡ is_change_of slot note.now }
{
    note.slot == slot && is_changed(note.deed)
}

/// Whether a note is that a processor takes a slot's process.
fn is_take_of(slot: u32, note: &Note) -> bool
    ensures { result ≡ is_take_of slot note.now }
{
    note.slot == slot && is_taken(note.deed)
}

/// The number of the record since which a slot's process does what it does: 0 if it does so since boot.
pub(crate) fn since(notes: &[Note], slot: u32) -> u32
    ensures { result ≡ since notes.now slot }
{
    let mut number = 0;
    for note in notes {
        if is_change_of(slot, note) {
            number = note.number;
        }
    }
    number
}

/// Whether a slot's process was ever taken.
pub(crate) fn has_run(notes: &[Note], slot: u32) -> bool
    ensures { result ≡ has_run notes.now slot }
{
    notes.iter().any(|note| is_take_of(slot, note))
}
