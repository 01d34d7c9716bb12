//! Texts that are read line by line.
//!
//! # One loop
//!
//! Scripts, debugger's scripts and histories are read by `read_lines`, each with its own reader of
//! one line. So the number of the line at fault is counted only here.

ghost use Rattle.std.specs.Prelude.{◌≡◌, ◌++◌, ◌∷◌, [], false, ℕ, List, Option, IfOk, IfErr};
ghost use Rattle.mx_text.specs.Lines.{lines};
ghost use Rattle.mx_boot.specs.Reading.{AreLinesRead, TellsUnread};

use mx_text::{BootError, next_line};
use std::alloc::Global;

/// Reads one line.
pub trait ReadsLine {
    type Said;

    ghost says: { Self → List ℕ → Option Self.Said };

    /// What a line is read as, if it is well formed. Takes no memory.
    fn read(&self, line: &[u8]) -> Option<Self::Said>
        ensures { result ≡ says self.now line.now };
}

/// Appends what a line is read as, and answers whether it is lost because there is no memory.
fn is_lost<T: Drop>(found: &mut Vec<T>, said: T) -> bool
    ensures { result ≡ false → found.new.items ≡ found.old.items ++ said ∷ [] }
{
    found.push(said).is_err()
}

/// What the lines of a text are read as, or `BadRecord` with the first line that isn't well formed.
/// A lack of memory is reported after all lines are judged, so that a line at fault is reported
/// whatever memory there is.
#[tactic(auto, using(crate::proofs::ReadSoFar::more))]
pub fn read_lines<R: ReadsLine>(
    alloc: Global,
    reader: &R,
    text: &[u8],
) -> Result<Vec<R::Said>, BootError>
where
    R::Said: Drop,
    ensures read { IfOk result (λ found.
        AreLinesRead (R.says reader.now) (lines text.now) found.items) }
    ensures unread { IfErr result (λ e. TellsUnread (R.says reader.now) (lines text.now) e) }
{
    let mut found = Vec::new(alloc);
    let mut is_wanting = false;
    let mut rest = text;
    let mut number = 1;
    while let Some((line, below)) = next_line(rest) {
        match reader.read(line) {
            Some(said) => {
                let is_lost = is_lost(&mut found, said);
                is_wanting = is_wanting | is_lost;
            }
            None => return Err(BootError::BadRecord(number)),
        }
        rest = below;
        number += 1;
    }
    // Only now: each line is well formed.
    if is_wanting {
        return Err(BootError::NoMemory);
    }
    Ok(found)
}
