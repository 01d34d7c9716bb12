//! Texts whose lines may be empty, or have a comment.
//!
//! # Whose
//!
//! Files of outside events and of faults are for people who try things, so they take comments, as a configuration does.
//! A script and a history take none.

ghost use Rattle.std.specs.Prelude.{◌≡◌, ◌++◌, IfErr, IfOk};
ghost use Rattle.std.specs.List.{filter_map};
ghost use Rattle.mx_text.specs.Lines.{lines};
ghost use Rattle.mx_app_turns.specs.Commented.{AreSaid, TellsUnsaid};

use mx_boot::{ReadsLine, before_comment, read_lines};
use mx_text::{BootError, next_field};
use std::alloc::{AllocError, Global};

/// Reads lines that may be empty, or have a comment, which `#` begins: what is before it is read by another reader.
#[derive(Drop)]
pub(crate) struct Commented<'r, R: ReadsLine> {
    reader: &'r R,
}

impl<'r, R: ReadsLine> ReadsLine for Commented<'r, R> {
    ghost use Rattle.mx_app_turns.specs.Commented.{note_of};

    type Said = Option<R::Said>;

    ghost says = { λ c line. note_of (R.says c.reader.now) line };

    fn read(&self, line: &[u8]) -> Option<Option<R::Said>> {
        let said = before_comment(line);
        match next_field(said) {
            None => Some(None),
            Some(_) => Some(Some(self.reader.read(said)?)),
        }
    }
}

/// What the lines say that say anything.
fn all_said<T: Copy>(alloc: Global, notes: &[Option<T>]) -> Result<Vec<T>, AllocError>
    ensures { IfOk result (λ found. found.items ≡ filter_map (λ note. note) notes.now) }
{
    let mut found = Vec::new(alloc);
    for note in notes {
        if let Some(said) = *note {
            found.push(said)?;
        }
    }
    Ok(found)
}

/// What the lines of a text are read as, without those that are empty but for a comment; or `BadRecord` with the first
/// line that isn't well formed. Out of memory is reported after all lines are judged.
pub fn read_commented<R: ReadsLine>(
    alloc: Global,
    reader: &R,
    text: &[u8],
) -> Result<Vec<R::Said>, BootError>
where
    R::Said: Copy,
    ensures read { IfOk result (λ found. AreSaid (R.says reader.now) (lines text.now) found.items) }
    ensures unread { IfErr result (λ e. TellsUnsaid (R.says reader.now) (lines text.now) e) }
{
    let notes = read_lines(alloc, &Commented { reader }, text)?;
    match all_said(alloc, notes.as_slice()) {
        Ok(found) => Ok(found),
        Err(_) => Err(BootError::NoMemory),
    }
}
