//! The first walk along a history, with the checkpoints that it takes.

ghost use Rattle.std.specs.Prelude.{◌≡◌, ◌<◌, ◌≤◌, ◌-◌, ◌++◌, All, length};
ghost use Rattle.mx_machine.specs.declared.history.Record.{Record as Noted};
ghost use Rattle.mx_machine.specs.World.{actors};
ghost use Rattle.mx_machine.specs.Machine.{world_of};
ghost use Rattle.mx_walk.specs.Checkpoints.{AreStored};
ghost use Rattle.mx_walk.specs.Positions.{HasHalted, IsAt, end_of, first};
ghost use Rattle.mx_walk.specs.Parts.{walk_shown};

use crate::checkpoints::Checkpoints;
use crate::walking_forward::go_on;
use crate::{FIRST, Position, Progress};
use mx_machine::{Machine, Record};

/// Goes from the first position to the end, up to the first event that is refused, and shows each record that it
/// passes. Answers the position that is reached. Takes memory only for checkpoints.
pub(crate) fn walk_first<P: Progress>(
    machine: &mut Machine,
    records: &[Record],
    checkpoints: &mut Checkpoints,
    progress: &mut P,
) -> Position
    requires actors { All (λ (x : Noted). x.actor < actors (world_of machine.old)) records.now }
    requires there { IsAt machine.old.kernel.boot records.now first machine.old }
    requires many { actors (world_of machine.old) ≡ actors machine.old.kernel.boot }
    requires stored { AreStored machine.old.kernel.boot records.now checkpoints.old.taken.items }
    requires few { length checkpoints.old.taken.items ≤ checkpoints.old.most - 1 }
    ensures there { IsAt machine.old.kernel.boot records.now result machine.new }
    ensures halted { HasHalted machine.old.kernel.boot records.now (end_of records.now) result }
    ensures shown { P.shown progress.new ≡ P.shown progress.old ++ walk_shown records.now result }
    ensures stored { AreStored machine.old.kernel.boot records.now checkpoints.new.taken.items }
    ensures few { length checkpoints.new.taken.items ≤ checkpoints.new.most - 1 }
    ensures most { checkpoints.new.most ≡ checkpoints.old.most }
{
    let mut at = FIRST;
    for earlier in 0..records.len() {
        let next = Position {
            records: earlier + 1,
            steps: 0,
        };
        at = go_on(machine, records, at, next, progress);
        if at != next {
            return at;
        }
        checkpoints.pass(machine, records, at, records[earlier]);
    }
    at
}
