//! Searches: on to the next halt, and back to the last one.

ghost use Rattle.std.specs.Prelude.{◌≡◌, ◌++◌, IfErr, IfOk, List, OnOk, Some, false, string_bytes, true};
ghost use Rattle.mx_machine.specs.World.{World};
ghost use Rattle.mx_walk.specs.Positions.{IsBefore, IsPosition, IsUpTo, next_event, first, next_position};
ghost use Rattle.mx_walk.specs.declared.progress.Part.{Part as Parts};
ghost use Rattle.mx_walk.specs.Parts.{HasGrown, walk_between, walk_shown};
ghost use Rattle.mx_walk.specs.Walks.{Walk, shown_to, world_here};
ghost use Rattle.mx_walk.specs.Seeking.{IsLastMarked, IsPassed, is_marked};
ghost use Rattle.mx_app_look.specs.Marks.{changes_watched, is_looked_for};
ghost use Rattle.mx_app_look.specs.Searches.{IsHaltAfter, IsLastHalt, IsNextHalt, changes_from, not_met};
ghost use Rattle.mx_app_look.specs.Shows.{IsLastShown, IsNextShown, return_shown};

use crate::changes::{all_bytes, push_changes};
use crate::marks::{break_places, bytes_mark, halts_mark, points_mark};
use crate::points::Points;
use mx_walk::{Halt, Mark, NextEvent, Position, Progress, Walker, is_up_to, next_event};
use mx_word::NoMemory;
use std::alloc::{AllocError, Global};

/// That nothing is met.
fn not_met(alloc: Global) -> Result<String, AllocError>
    ensures { IfOk result (λ line. string_bytes line ≡ not_met) }
{
    let mut line = String::new(alloc);
    line.push_str("not met\n")?;
    Ok(line)
}

/// Halts here, as nothing is met.
fn meet_nothing(alloc: Global, walker: Walker) -> Result<(Walker, String), NoMemory>
    ensures { IfOk result (λ r. (r.0 ≡ walker) × (string_bytes r.1 ≡ not_met)) }
{
    Ok((walker, not_met(alloc)?))
}

/// Goes to a position, and answers how the watched bytes changed on the way.
fn go_and_compare<P: Progress>(
    alloc: Global,
    walker: Walker,
    points: &Points,
    to: Position,
    progress: &mut P,
) -> Result<(Walker, String), NoMemory>
    requires position { IsPosition walker.records to }
    requires early { IsUpTo to walker.last }
    ensures walker { IfOk result (λ r. r.0 ≡ record walker { here = to }) }
    ensures changes { IfOk result (λ r. string_bytes r.1
        ≡ changes_from walker points.now walker.here to) }
    ensures shown { OnOk result (P.shown progress.new
        ≡ P.shown progress.old ++ shown_to walker to) }
    ensures grown { IfErr result (λ _. HasGrown (P.shown progress.old) (P.shown progress.new)) }
{
    let seen = all_bytes(alloc, walker.machine(), points.watches.as_slice())?;
    let walker = walker.go_to(alloc, to, progress)?;
    let mut changes = String::new(alloc);
    push_changes(alloc, &mut changes, walker.machine(), seen.as_slice())?;
    Ok((walker, changes))
}

/// Makes the next event, of which the watched bytes count and no breakpoint; and goes on, until watched bytes have
/// changed or the next event is the step at a breakpoint.
fn go_on_past<P: Progress>(
    alloc: Global,
    walker: Walker,
    points: &Points,
    next: NextEvent,
    progress: &mut P,
) -> Result<(Walker, String), NoMemory>
    requires later { next_event walker.records walker.here ≡ Some (next.actor, next.event) }
    requires position { next.position ≡ next_position walker.records walker.here }
    requires early { IsBefore walker.here walker.last }
    requires here { IsPosition walker.records walker.here }
    requires last { IsPosition walker.records walker.last }
    ensures walker { IfOk result (λ r. r.0 ≡ record walker { here = r.0.here }) }
    ensures halt { IfOk result (λ r. IsHaltAfter walker points.now next.position
        (is_marked (changes_watched points.now) (world_here walker) (next.actor, next.event))
        (r.0.here, string_bytes r.1)) }
    ensures shown { IfOk result (λ r. P.shown progress.new ≡ P.shown progress.old
        ++ walk_between walker.records walker.here r.0.here) }
    ensures grown { IfErr result (λ _. HasGrown (P.shown progress.old) (P.shown progress.new)) }
{
    let mut bytes = bytes_mark(alloc, points)?;
    bytes.look(walker.machine(), next.actor, next.event);
    let seen = all_bytes(alloc, walker.machine(), points.watches.as_slice())?;
    let places = break_places(alloc, points)?;
    let mut mark = halts_mark(alloc, points)?;
    let mut walker = walker.go_to(alloc, next.position, progress)?;
    // The watched bytes stay as they were seen up to the event that changes them.
    while !bytes.is_met(walker.machine()) {
        let halt = walker.seek_halt(places.as_slice(), &mut mark, progress);
        // Where it is now is a position, and not past the last.
        let _ = walker.here();
        match halt {
            Halt::Before => return Ok((walker, String::new(alloc))),
            Halt::After => {}
            Halt::Nowhere => return meet_nothing(alloc, walker),
        }
    }
    let mut changes = String::new(alloc);
    push_changes(alloc, &mut changes, walker.machine(), seen.as_slice())?;
    Ok((walker, changes))
}

/// Goes on to right after the next event that changes watched bytes, or to the next position whose event
/// after it is the step at a breakpoint; else to the last position. Answers what is printed before the place.
pub fn go_on_to_point<P: Progress>(
    alloc: Global,
    walker: Walker,
    points: &Points,
    progress: &mut P,
) -> Result<(Walker, String), NoMemory>
    ensures walker { IfOk result (λ r. r.0 ≡ record walker { here = r.0.here }) }
    ensures halt { IfOk result (λ r. IsNextHalt walker points.now (r.0.here, string_bytes r.1)) }
    ensures shown { OnOk result ((ps : List Parts)
        × (P.shown progress.new ≡ P.shown progress.old ++ ps)
        × IsNextShown walker points.now ps) }
    ensures grown { IfErr result (λ _. HasGrown (P.shown progress.old) (P.shown progress.new)) }
{
    if is_up_to(walker.last(), walker.here()) {
        return meet_nothing(alloc, walker);
    }
    match next_event(walker.records(), walker.here()) {
        Some(next) => go_on_past(alloc, walker, points, next, progress),
        None => meet_nothing(alloc, walker),
    }
}

/// Goes back to right before the last event that is looked for; to the first position if there is none. Answers
/// whether there is one.
fn seek_back<P: Progress>(
    alloc: Global,
    walker: Walker,
    points: &Points,
    progress: &mut P,
) -> Result<(Walker, bool), NoMemory>
    ensures same { IfOk result (λ back. back.0 ≡ record walker { here = back.0.here }) }
    ensures found { IfOk result (λ back. back.1 ≡ true → IsLastMarked (is_looked_for points.now)
        walker.boot walker.records back.0.here walker.here) }
    ensures nowhere { IfOk result (λ back. back.1 ≡ false → (back.0.here ≡ first)
        × IsPassed (is_looked_for points.now) walker.boot walker.records first walker.here) }
    ensures shown { IfOk result (λ back. P.shown progress.new ≡ P.shown progress.old
        ++ (walk_shown walker.records walker.here ++ shown_to walker back.0.here)) }
    ensures grown { IfErr result (λ _. HasGrown (P.shown progress.old) (P.shown progress.new)) }
{
    let mut mark = points_mark(alloc, points)?;
    walker.seek_back(alloc, &mut mark, progress)
}

/// Goes on to a position, and back to where the walker was; answers how the watched bytes changed on the way.
fn see_changes<P: Progress>(
    alloc: Global,
    walker: Walker,
    points: &Points,
    to: Position,
    progress: &mut P,
) -> Result<(Walker, String), NoMemory>
    requires position { IsPosition walker.records to }
    requires early { IsUpTo to walker.last }
    ensures same { IfOk result (λ r. r.0 ≡ walker) }
    ensures changes { IfOk result (λ r. string_bytes r.1
        ≡ changes_from walker points.now walker.here to) }
    ensures shown { OnOk result (P.shown progress.new
        ≡ P.shown progress.old ++ return_shown walker walker.here to) }
    ensures grown { IfErr result (λ _. HasGrown (P.shown progress.old) (P.shown progress.new)) }
{
    let here = walker.here();
    let (walker, changes) = go_and_compare(alloc, walker, points, to, progress)?;
    Ok((walker.go_to(alloc, here, progress)?, changes))
}

/// Goes back to right before the last event that changes watched bytes or is the step at a breakpoint; else
/// to the first position. Answers what is printed before the place. Takes memory to boot the machine again.
pub fn go_back_to_point<P: Progress>(
    alloc: Global,
    walker: Walker,
    points: &Points,
    progress: &mut P,
) -> Result<(Walker, String), NoMemory>
    ensures walker { IfOk result (λ r. r.0 ≡ record walker { here = r.0.here }) }
    ensures halt { IfOk result (λ r. IsLastHalt walker points.now (r.0.here, string_bytes r.1)) }
    ensures shown { OnOk result ((ps : List Parts)
        × (P.shown progress.new ≡ P.shown progress.old ++ ps)
        × IsLastShown (is_looked_for points.now) walker ps) }
    ensures grown { IfErr result (λ _. HasGrown (P.shown progress.old) (P.shown progress.new)) }
{
    // Where it is now is a position, and not past the last: so is right after an event that is found.
    let _ = walker.here();
    let (walker, found) = seek_back(alloc, walker, points, progress)?;
    if !found {
        return meet_nothing(alloc, walker);
    }
    let halt = walker.here();
    match next_event(walker.records(), halt) {
        Some(next) => see_changes(alloc, walker, points, next.position, progress),
        None => unreachable!(),
    }
}
