//! Requests about what a search halts at, and the searches.

ghost use Rattle.std.specs.Prelude.{◌≡◌, ◌++◌, IfErr, IfOk, List, OnOk, string_bytes};
ghost use Rattle.mx_app_step.specs.Failure.{IsWanting};
ghost use Rattle.mx_walk.specs.declared.progress.Part.{Part as Parts};
ghost use Rattle.mx_walk.specs.Parts.{HasGrown};
ghost use Rattle.mx_app_look.specs.Places.{place_text};
ghost use Rattle.mx_app_look.specs.Seeking.{IsGoneBack, IsGoneIf, IsGoneOn, break_note, breaks_after, has_points, point_answer, point_made, point_text, points_after, watches_after};
ghost use Rattle.mx_app_look.specs.Marks.{is_looked_for};
ghost use Rattle.mx_app_look.specs.Shows.{IsLastShown, IsNextShown, IsShownIf};

use crate::asked_slot::{address_here, limit_here, slot_asked};
use crate::places::push_place;
use crate::point_request::PointRequest;
use crate::points::Points;
use crate::searches::{go_back_to_point, go_on_to_point};
use crate::sight::{Sight, say};
use crate::starts::push_break_note;
use crate::watches::Watch;
use mx_app_failure::Failure;
use mx_boot::AddressWord;
use mx_print_answers::{Refused, push_done};
use mx_walk::{Progress, Walker};
use std::alloc::{AllocError, Global};

/// Sets a breakpoint. Refuses if there is no such slot or symbol, or if it would be the 65th breakpoint, and
/// then changes nothing.
fn set_break(
    walker: &Walker,
    points: &mut Points,
    slot: u32,
    address: &AddressWord,
) -> Result<(), Refused>
    ensures breakpoints { breaks_after walker.now points.old.breakpoints slot address.now
        ≡ (result, points.new.breakpoints) }
    ensures same { points.new.watches ≡ points.old.watches }
{
    let slot = slot_asked(walker, Some(slot))?;
    let at = address_here(walker, slot, address)?;
    points.breakpoints.add(slot, at)?;
    Ok(())
}

/// Sets a watch. Refuses if there is no such slot or symbol, if its bytes are none, too many or past the
/// memory, or if it would be the ninth watch, and then changes nothing.
fn set_watch(
    walker: &Walker,
    points: &mut Points,
    slot: u32,
    address: &AddressWord,
    count: u32,
) -> Result<(), Refused>
    ensures watches { watches_after walker.now points.old.watches slot address.now count
        ≡ (result, points.new.watches) }
    ensures same { points.new.breakpoints ≡ points.old.breakpoints }
{
    let slot = slot_asked(walker, Some(slot))?;
    let address = address_here(walker, slot, address)?;
    let watch = Watch {
        slot,
        address,
        count,
    };
    points.watches.set(watch, limit_here(walker, slot))?;
    Ok(())
}

/// Sets a breakpoint or a watch, or takes all away, and answers whether it is done.
fn set_point(
    walker: &Walker,
    points: &mut Points,
    request: &PointRequest,
) -> Option<Result<(), Refused>>
    ensures { points_after walker.now points.old request.now ≡ (result, points.new) }
{
    match request {
        PointRequest::Break(slot, address) => Some(set_break(walker, points, *slot, address)),
        PointRequest::Watch(slot, address, count) => {
            Some(set_watch(walker, points, *slot, address, *count))
        }
        PointRequest::Show => None,
        PointRequest::Clear => {
            *points = Points::new();
            Some(Ok(()))
        }
    }
}

/// Appends that it is done, or why not; or what is set.
fn push_point(
    out: &mut String,
    points: &Points,
    done: Option<Result<(), Refused>>,
) -> Result<(), AllocError>
    ensures { OnOk result (string_bytes out.new ≡ string_bytes out.old
        ++ point_text points.now done) }
{
    match done {
        Some(done) => push_done(out, done),
        None => points.push_lines(out),
    }
}

/// Appends that no instruction begins at a breakpoint that is set, unless one does.
fn push_note(
    out: &mut String,
    walker: &Walker,
    request: &PointRequest,
    done: Option<Result<(), Refused>>,
) -> Result<(), AllocError>
    ensures { OnOk result (string_bytes out.new ≡ string_bytes out.old
        ++ break_note walker.now request.now done) }
{
    match (request, done) {
        (PointRequest::Break(slot, address), Some(Ok(()))) => {
            push_break_note(out, walker, *slot, address)
        }
        _ => Ok(()),
    }
}

/// Does what a request about what a search halts at asks for, and appends the answer.
pub(crate) fn perform_point(
    alloc: Global,
    sight: Sight,
    request: &PointRequest,
) -> Result<(Sight, Vec<u8>), Failure>
    ensures err { IfErr result IsWanting }
    ensures sight { IfOk result (λ r. r.0
        ≡ record sight { points = (point_made sight request.now).1 }) }
    ensures text { IfOk result (λ r. r.1.items ≡ point_answer sight request.now) }
{
    let mut sight = sight;
    let done = set_point(&sight.walker, &mut sight.points, request);
    let mut line = String::new(alloc);
    push_point(&mut line, &sight.points, done)?;
    push_note(&mut line, &sight.walker, request, done)?;
    Ok((sight, line.into_bytes()))
}

/// Answers what a search found, and the place where it halted.
fn show_halt(alloc: Global, sight: Sight, found: String) -> Result<(Sight, Vec<u8>), Failure>
    ensures err { IfErr result IsWanting }
    ensures same { IfOk result (λ r. r.0 ≡ sight) }
    ensures text { IfOk result (λ r. r.1.items ≡ string_bytes found ++ place_text sight.walker) }
{
    let mut sight = sight;
    let mut text = found.into_bytes();
    push_place(alloc, &mut text, &mut sight.walker)?;
    Ok((sight, text))
}

/// What a search is answered that has nothing to halt at.
const NO_POINTS: &str = "refused 73 BadRecord: no break, no watch\n";

/// Whether there is something to halt at.
fn has_points(points: &Points) -> bool
    ensures { result ≡ has_points points.now }
{
    !points.breakpoints.as_slice().is_empty() || !points.watches.as_slice().is_empty()
}

/// Goes on to the next halt, if there is something to halt at.
pub(crate) fn go_on<P: Progress>(
    alloc: Global,
    sight: Sight,
    progress: &mut P,
) -> Result<(Sight, Vec<u8>), Failure>
    ensures err { IfErr result IsWanting }
    ensures halted { IfOk result (λ r. IsGoneIf IsGoneOn sight r.0 r.1.items) }
    ensures shown { OnOk result ((ps : List Parts)
        × (P.shown progress.new ≡ P.shown progress.old ++ ps)
        × IsShownIf (has_points sight.points) (IsNextShown sight.walker sight.points) ps) }
    ensures grown { IfErr result (λ _. HasGrown (P.shown progress.old) (P.shown progress.new)) }
{
    if !has_points(&sight.points) {
        return say(alloc, sight, NO_POINTS);
    }
    let (walker, found) = go_on_to_point(alloc, sight.walker, &sight.points, progress)?;
    show_halt(alloc, Sight { walker, ..sight }, found)
}

/// Goes back to the last halt, if there is something to halt at.
pub(crate) fn go_back<P: Progress>(
    alloc: Global,
    sight: Sight,
    progress: &mut P,
) -> Result<(Sight, Vec<u8>), Failure>
    ensures err { IfErr result IsWanting }
    ensures halted { IfOk result (λ r. IsGoneIf IsGoneBack sight r.0 r.1.items) }
    ensures shown { OnOk result ((ps : List Parts)
        × (P.shown progress.new ≡ P.shown progress.old ++ ps)
        × IsShownIf (has_points sight.points)
        (IsLastShown (is_looked_for sight.points) sight.walker) ps) }
    ensures grown { IfErr result (λ _. HasGrown (P.shown progress.old) (P.shown progress.new)) }
{
    if !has_points(&sight.points) {
        return say(alloc, sight, NO_POINTS);
    }
    let (walker, found) = go_back_to_point(alloc, sight.walker, &sight.points, progress)?;
    show_halt(alloc, Sight { walker, ..sight }, found)
}
