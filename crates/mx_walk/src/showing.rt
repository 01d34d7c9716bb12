//! What is shown of a walk.

ghost use Rattle.std.specs.Prelude.{◌≡◌, ◌≤◌, ◌+◌, ◌-◌, ◌++◌, length};
ghost use Rattle.mx_walk.specs.Parts.{parts_between, walk_between};

use crate::positions::Position;
use crate::progress::{Part, Progress};
use mx_machine::Record;

/// Shows the record that is passed from a position to the next one that a search comes to, if one is.
pub(crate) fn show_passed<P: Progress>(
    records: &[Record],
    at: Position,
    next: Position,
    progress: &mut P,
)
    requires later { at.records ≤ next.records }
    requires one { next.records ≤ at.records + 1 }
    ensures { P.shown progress.new ≡ P.shown progress.old ++ walk_between records.now at next }
{
    if next.records > at.records {
        progress.show(Part {
            done: next.records,
            all: records.len(),
        });
    }
}

/// Shows the parts of a work from one place to another, as those that needn't be done again.
pub(crate) fn show_parts<P: Progress>(all: usize, from: usize, to: usize, progress: &mut P)
    ensures { P.shown progress.new ≡ P.shown progress.old ++ parts_between all from to }
{
    for done in from..to {
        progress.show(Part {
            done: done + 1,
            all,
        });
    }
}

/// Shows the record that is passed from a position to the next one that a search comes to, if one is: after so many
/// parts, and one for each record from where the search began.
pub(crate) fn show_counted<P: Progress>(
    records: &[Record],
    from: Position,
    at: Position,
    next: Position,
    shown: usize,
    progress: &mut P,
)
    requires up { from.records ≤ at.records }
    requires later { at.records ≤ next.records }
    requires few { shown + (next.records - from.records) ≤ length records.now }
    ensures { P.shown progress.new ≡ P.shown progress.old ++ parts_between (length records.now)
        (shown + (at.records - from.records)) (shown + (next.records - from.records)) }
{
    let before = shown + (at.records - from.records);
    let after = shown + (next.records - from.records);
    show_parts(records.len(), before, after, progress);
}
