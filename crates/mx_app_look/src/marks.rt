//! What a search looks for: the events that change a byte that is watched, and the steps at a breakpoint.

ghost use Rattle.std.specs.Prelude.{◌≡◌, IfOk, map};
ghost use Rattle.mx_app_look.specs.Marks.{code_place};

use crate::points::Points;
use crate::range_change::RangeChange;
use crate::watches::Watch;
use mx_debug::Breakpoint;
use mx_walk::{CodePlace, Coming, Either, Leaving, Several};
use mx_word::NoMemory;
use std::alloc::{AllocError, Global};

/// What marks the changes of each watch's bytes.
fn each_change(alloc: Global, watches: &[Watch]) -> Result<Vec<RangeChange>, NoMemory>
    ensures { IfOk result (λ marks. map (λ m. m.watch) marks.items ≡ watches.now) }
{
    let mut marks = Vec::new(alloc);
    for watch in watches {
        let mark = RangeChange::new(alloc, *watch)?;
        let Ok(()) = marks.push(mark) else {
            return Err(NoMemory);
        };
    }
    Ok(marks)
}

/// What marks the steps at each breakpoint.
fn each_leaving(alloc: Global, points: &[Breakpoint]) -> Result<Vec<Leaving>, AllocError>
    ensures { IfOk result (λ marks. map (λ m. m.place) marks.items ≡ map code_place points.now) }
{
    let mut marks = Vec::new(alloc);
    for point in points {
        marks.push(Leaving::new(CodePlace {
            slot: point.slot,
            address: point.address,
        }))?;
    }
    Ok(marks)
}

/// What marks the changes of the bytes that are watched.
pub(crate) fn bytes_mark(alloc: Global, points: &Points) -> Result<Several<RangeChange>, NoMemory>
    ensures { IfOk result (λ all. map (λ m. m.watch) all.marks.items ≡ points.now.watches) }
{
    Ok(Several::new(each_change(alloc, points.watches.as_slice())?))
}

/// What marks the steps at a breakpoint.
pub(crate) fn breaks_mark(alloc: Global, points: &Points) -> Result<Several<Leaving>, AllocError>
    ensures { IfOk result (λ all. map (λ m. m.place) all.marks.items
        ≡ map code_place points.now.breakpoints) }
{
    Ok(Several::new(each_leaving(alloc, points.breakpoints.as_slice())?))
}

/// The places of the breakpoints.
pub fn break_places(alloc: Global, points: &Points) -> Result<Vec<CodePlace>, AllocError>
    ensures { IfOk result (λ places. places.items ≡ map code_place points.now.breakpoints) }
{
    let mut places = Vec::new(alloc);
    for point in points.breakpoints.as_slice() {
        places.push(CodePlace {
            slot: point.slot,
            address: point.address,
        })?;
    }
    Ok(places)
}

/// What marks the changes of the bytes that are watched, and what comes to a breakpoint.
pub fn halts_mark(
    alloc: Global,
    points: &Points,
) -> Result<Either<Several<RangeChange>, Coming>, NoMemory>
    ensures bytes { IfOk result (λ both. map (λ m. m.watch) both.one.marks.items
        ≡ points.now.watches) }
    ensures places { IfOk result (λ both. both.other.places.items
        ≡ map code_place points.now.breakpoints) }
{
    let bytes = bytes_mark(alloc, points)?;
    let coming = Coming::new(break_places(alloc, points)?);
    Ok(Either::new(bytes, coming))
}

/// What marks both.
pub fn points_mark(
    alloc: Global,
    points: &Points,
) -> Result<Either<Several<RangeChange>, Several<Leaving>>, NoMemory>
    ensures bytes { IfOk result (λ both. map (λ m. m.watch) both.one.marks.items
        ≡ points.now.watches) }
    ensures breaks { IfOk result (λ both. map (λ m. m.place) both.other.marks.items
        ≡ map code_place points.now.breakpoints) }
{
    let bytes = bytes_mark(alloc, points)?;
    let breaks = breaks_mark(alloc, points)?;
    Ok(Either::new(bytes, breaks))
}
