//! A search back: by the stretches between checkpoints, the last one first.
//!
//! A machine only goes on, so the last of the events that are looked for is known when all up to the end are made. But
//! a stretch that ends where the next one begins can be searched alone, so a search back takes the last one first, and
//! what it costs is the way from the checkpoint before the event, and not that from the boot.

ghost use Rattle.std.specs.Prelude.{◌≡◌, ◌<◌, ◌≤◌, ◌++◌, All, IfOk, length};
ghost use Rattle.mx_machine.specs.declared.history.Record.{Record as Noted};
ghost use Rattle.mx_machine.specs.Machine.{world_of};
ghost use Rattle.mx_machine.specs.World.{actors};
ghost use Rattle.mx_walk.specs.declared.positions.Position.{Position as At};
ghost use Rattle.mx_walk.specs.Checkpoints.{IsStock};
ghost use Rattle.mx_walk.specs.Parts.{parts_between, walk_shown};
ghost use Rattle.mx_walk.specs.Positions.{IsAt, IsUpTo, first};
ghost use Rattle.mx_walk.specs.Seeking.{HasSoughtBack};
ghost use Rattle.mx_walk.specs.Walks.{IsBootOf, IsLast};

use crate::resuming::{Origin, machine_again};
use crate::seeking::seek_last;
use crate::showing::show_parts;
use crate::{Mark, Position, Progress, Way, position_before};
use mx_machine::Machine;
use mx_word::NoMemory;
use std::alloc::Global;

/// A machine, where it is, and where a search back has found an event.
#[derive(Drop)]
pub(crate) struct Back {
    pub machine: Machine,
    pub at: Position,
    /// Right before the event.
    pub found: Option<Position>,
}

/// Searches the stretches before a position, the last one first, up to one with an event that is marked. Shows a part
/// for each record of these stretches, and counts them. Takes memory for a machine at each stretch.
fn search_stretches<M: Mark, P: Progress>(
    alloc: Global,
    machine: Machine,
    origin: Origin<'_>,
    here: Position,
    mark: &mut M,
    shown: &mut usize,
    progress: &mut P,
) -> Result<Back, NoMemory>
    requires booted { IsBootOf origin.config.now machine.kernel.boot }
    requires stock { IsStock machine.kernel.boot origin.records.now origin.stock.now }
    requires actors { All (λ (x : Noted). x.actor < actors machine.kernel.boot) origin.records.now }
    requires there { IsAt machine.kernel.boot origin.records.now here machine }
    requires many { actors (world_of machine) ≡ actors machine.kernel.boot }
    requires early { (last : At) × IsLast machine.kernel.boot origin.records.now last
        × IsUpTo here last }
    requires none { shown.old ≡ 0 }
    ensures there { IfOk result (λ back.
        IsAt machine.kernel.boot origin.entry.records.now back.at back.machine) }
    ensures actors { IfOk result (λ back.
        actors (world_of back.machine) ≡ actors machine.kernel.boot) }
    ensures early { IfOk result (λ back. IsUpTo back.at here) }
    ensures found { IfOk result (λ back. HasSoughtBack (M.marks mark.old)
        machine.kernel.boot origin.entry.records.now here first back.at back.found) }
    ensures few { shown.new ≤ here.records }
    ensures shown { P.shown progress.new ≡ P.shown progress.old
        ++ parts_between (length origin.entry.records.now) 0 shown.new }
{
    let records = origin.records;
    let mut machine = machine;
    let mut at = here;
    let mut end = here;
    while let Some(earlier) = position_before(records, end) {
        let (again, from) = machine_again(alloc, machine, origin, earlier)?;
        machine = again;
        at = end;
        let way = Way { from, to: end };
        let (_, found) = seek_last(&mut machine, records, way, mark, *shown, progress);
        *shown = here.records - from.records;
        if found.is_some() {
            return Ok(Back { machine, at, found });
        }
        end = from;
    }
    Ok(Back {
        machine,
        at,
        found: None,
    })
}

/// Finds right before which event a walk from the first position to here came last that is marked, and shows a part for
/// each record of that walk. Takes memory for the machines that it searches with.
pub(crate) fn search_back<M: Mark, P: Progress>(
    alloc: Global,
    machine: Machine,
    origin: Origin<'_>,
    here: Position,
    mark: &mut M,
    progress: &mut P,
) -> Result<Back, NoMemory>
    requires booted { IsBootOf origin.config.now machine.kernel.boot }
    requires stock { IsStock machine.kernel.boot origin.records.now origin.stock.now }
    requires actors { All (λ (x : Noted). x.actor < actors machine.kernel.boot) origin.records.now }
    requires there { IsAt machine.kernel.boot origin.records.now here machine }
    requires many { actors (world_of machine) ≡ actors machine.kernel.boot }
    requires early { (last : At) × IsLast machine.kernel.boot origin.records.now last
        × IsUpTo here last }
    ensures there { IfOk result (λ back.
        IsAt machine.kernel.boot origin.entry.records.now back.at back.machine) }
    ensures actors { IfOk result (λ back.
        actors (world_of back.machine) ≡ actors machine.kernel.boot) }
    ensures early { IfOk result (λ back. IsUpTo back.at here) }
    ensures found { IfOk result (λ back. HasSoughtBack (M.marks mark.old)
        machine.kernel.boot origin.entry.records.now here first back.at back.found) }
    ensures shown { P.shown progress.new
        ≡ P.shown progress.old ++ walk_shown origin.entry.records.now here }
{
    let mut shown = 0;
    let back = search_stretches(alloc, machine, origin, here, mark, &mut shown, progress);
    // What needn't be searched is done too.
    show_parts(origin.records.len(), shown, here.records, progress);
    back
}
