//! A search that halts before a step that leaves a place, or after an event that is marked.
//!
//! A machine only goes on, so such a step has to be known before it is made. Within a record it is the first step, or
//! it comes right after a step that came to the place. So the search asks before each record, and wants a mark that
//! marks the events that come to a place too.

ghost use Rattle.std.specs.Prelude.{◌≡◌, ◌<◌, ◌≤◌, ◌+◌, ◌++◌, All, length};
ghost use Rattle.mx_machine.specs.declared.history.Record.{Record as Noted};
ghost use Rattle.mx_machine.specs.World.{actors};
ghost use Rattle.mx_machine.specs.Machine.{world_of};
ghost use Rattle.mx_walk.specs.Halting.{HaltsAt, MarksComing, is_left_next};
ghost use Rattle.mx_walk.specs.Parts.{walk_between};
ghost use Rattle.mx_walk.specs.Positions.{IsAt, IsBefore, IsPosition, IsUpTo, next_event};
ghost use Rattle.mx_walk.specs.Seeking.{IsPassed};
ghost use Rattle.mx_walk.specs.Stopping.{leaves_any};

use crate::positions::{Position, next_event};
use crate::progress::Progress;
use crate::seeking::{Mark, Sought, Way, seek};
use crate::stopping::{CodePlace, leaves_any};
use mx_machine::{Machine, Record};

/// What a search halts at.
#[derive(Clone, Copy, Debug, PartialEq, Eq)]
pub enum Halt {
    /// It is right before a step that leaves a place.
    Before,
    /// It is right after an event that is marked.
    After,
    /// None of these is on the way.
    Nowhere,
}

/// The end of the record after a position, but not after another position.
fn end_of_stretch(records: &[Record], at: Position, to: Position) -> Position
    requires to { IsPosition records.now to }
    requires earlier { IsBefore at to }
    ensures position { IsPosition records.now result }
    ensures later { IsBefore at result }
    ensures early { IsUpTo result to }
    ensures one { IsUpTo result (record { records = at.records + 1; steps = 0 }) }
{
    if at.records == to.records {
        return to;
    }
    Position {
        records: at.records + 1,
        steps: 0,
    }
}

/// Whether the event after a position is a step that leaves one of some places.
fn is_left_next(machine: &Machine, records: &[Record], at: Position, places: &[CodePlace]) -> bool
    requires { IsPosition records.now at }
    ensures { result ≡ is_left_next places.now (world_of machine.now)
        (next_event records.now at) }
{
    match next_event(records, at) {
        Some(next) => leaves_any(machine, next.actor, next.event, places),
        None => false,
    }
}

/// Goes on, up to right before the first step that leaves one of some places, or right after the first event before it
/// that is marked, but not past the end of the way. Shows each record that it passes. Takes no memory.
pub(crate) fn seek_halt<M: Mark, P: Progress>(
    machine: &mut Machine,
    records: &[Record],
    way: Way,
    places: &[CodePlace],
    mark: &mut M,
    progress: &mut P,
) -> (Position, Halt)
    requires actors { All (λ (x : Noted). x.actor < actors (world_of machine.old)) records.now }
    requires there { IsAt machine.old.kernel.boot records.now way.from machine.old }
    requires to { IsPosition records.now way.to }
    requires later { IsUpTo way.from way.to }
    requires coming { MarksComing (M.marks mark.old) places.now }
    ensures there { IsAt machine.old.kernel.boot records.now result.0 machine.new }
    ensures early { IsUpTo result.0 way.to }
    ensures halted { HaltsAt (M.marks mark.old) places.now
        machine.old.kernel.boot records.now way.from way.to result.0 result.1 }
    ensures unleft { IsPassed (leaves_any places.now)
        machine.old.kernel.boot records.now way.from result.0 }
    ensures mark { M.marks mark.new ≡ M.marks mark.old }
    ensures actors { actors (world_of machine.new) ≡ actors (world_of machine.old) }
    ensures shown { P.shown progress.new
        ≡ P.shown progress.old ++ walk_between records.now way.from result.0 }
{
    let to = way.to;
    let mut at = way.from;
    while at != to {
        if is_left_next(machine, records, at, places) {
            return (at, Halt::Before);
        }
        let end = end_of_stretch(records, at, to);
        let stretch = Way { from: at, to: end };
        match seek(machine, records, stretch, mark, progress) {
            Sought::Found(next) => return (next, Halt::After),
            Sought::Nowhere(next) => {
                if next != end {
                    return (next, Halt::Nowhere);
                }
                at = next;
            }
        }
    }
    (at, Halt::Nowhere)
}
