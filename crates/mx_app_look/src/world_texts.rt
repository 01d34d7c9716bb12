//! What is shown of a position's world.

ghost use Rattle.std.specs.Prelude.{◌≡◌, ◌++◌, ◌+◌, ◌≤◌, IfOk, IfErr, OnOk, Some, slice_get};
ghost use Rattle.mx_app_step.specs.Failure.{IsWanting};
ghost use Rattle.mx_look.specs.Trace.{record_text};
ghost use Rattle.mx_print_answers.specs.Messages.{delivery_lines};
ghost use Rattle.mx_walk.specs.Parts.{HasGrown};
ghost use Rattle.mx_walk.specs.Positions.{IsUpTo};
ghost use Rattle.mx_walk.specs.Walks.{world_here};
ghost use Rattle.mx_app_look.specs.Before.{step_before, why_text};
ghost use Rattle.mx_app_look.specs.Answers.{line_end, processes_text};
ghost use Rattle.mx_app_look.specs.Shows.{record_shown, return_shown, steps_made, why_shown};
ghost use Rattle.mx_app_look.specs.Until.{past};

use mx_app_failure::Failure;
use mx_app_step::resting_transition;
use mx_boot::report;
use mx_look::{Transition, push_record};
use mx_machine::Record;
use mx_print_answers::push_messages;
use mx_walk::{Position, Progress, Walker, steps_in};
use mx_word::NoMemory;
use std::alloc::{AllocError, Global};

/// A record's number is one of 32 bits.
const NUMBERS: usize = 1 << 32;

/// A record of a history, and how many are before it.
#[derive(Clone, Copy)]
pub(crate) struct Placed {
    pub earlier: usize,
    pub entry: Record,
}

/// Goes to right after a record, and fills a transition with it: the machine is looked at after the record's steps,
/// and after its own event. Takes memory only to go back.
pub(crate) fn see_record<P: Progress>(
    alloc: Global,
    walker: Walker,
    placed: Placed,
    transition: &mut Transition,
    progress: &mut P,
) -> Result<Walker, NoMemory>
    requires there { placed.earlier + 1 ≤ walker.last.records }
    requires entry { slice_get walker.records placed.earlier ≡ Some placed.entry }
    ensures walker { IfOk result (λ w. w ≡ record walker { here = past placed.earlier }) }
    ensures transition { OnOk result (transition.new
        ≡ step_before walker.boot walker.records placed.earlier placed.entry) }
    ensures shown { OnOk result (P.shown progress.new
        ≡ P.shown progress.old ++ record_shown walker placed.earlier placed.entry) }
    ensures grown { IfErr result (λ _. HasGrown (P.shown progress.old) (P.shown progress.new)) }
{
    let Placed { earlier, entry } = placed;
    let begun = Position {
        records: earlier,
        steps: steps_in(entry.event),
    };
    let walker = walker.go_to(alloc, begun, progress)?;
    transition.before.look(walker.machine());
    let made = Position {
        records: earlier + 1,
        steps: 0,
    };
    let walker = walker.go_to(alloc, made, progress)?;
    transition.after.look(walker.machine());
    transition.number = ((earlier + 1) % NUMBERS) as u32;
    transition.actor = entry.actor;
    transition.event = entry.event;
    Ok(walker)
}

/// Appends what the record does whose own event is next, and is then where the walker was.
pub(crate) fn push_record_after<P: Progress>(
    alloc: Global,
    out: &mut Vec<u8>,
    walker: Walker,
    placed: Placed,
    progress: &mut P,
) -> Result<Walker, NoMemory>
    requires there { IsUpTo (past placed.earlier) walker.last }
    requires here { walker.here ≡ steps_made placed.earlier placed.entry }
    requires entry { slice_get walker.records placed.earlier ≡ Some placed.entry }
    ensures same { IfOk result (λ w. w ≡ walker) }
    ensures text { OnOk result (out.new.items ≡ out.old.items
        ++ record_text (step_before walker.boot walker.records placed.earlier placed.entry)) }
    ensures shown { OnOk result (P.shown progress.new
        ≡ P.shown progress.old ++ return_shown walker walker.here (past placed.earlier)) }
    ensures grown { IfErr result (λ _. HasGrown (P.shown progress.old) (P.shown progress.new)) }
{
    let here = walker.here();
    let mut transition = resting_transition(walker.machine());
    let walker = see_record(alloc, walker, placed, &mut transition, progress)?;
    push_record(out, &transition)?;
    walker.go_to(alloc, here, progress)
}

/// Appends what a record did, and goes back to where the walker was.
fn push_record_before<P: Progress>(
    alloc: Global,
    out: &mut Vec<u8>,
    walker: Walker,
    placed: Placed,
    progress: &mut P,
) -> Result<Walker, Failure>
    requires there { placed.earlier + 1 ≡ walker.here.records }
    requires entry { slice_get walker.records placed.earlier ≡ Some placed.entry }
    ensures err { IfErr result IsWanting }
    ensures same { IfOk result (λ w. w ≡ walker) }
    ensures text { OnOk result (out.new.items ≡ out.old.items
        ++ record_text (step_before walker.boot walker.records placed.earlier placed.entry)) }
    ensures shown { OnOk result (P.shown progress.new
        ≡ P.shown progress.old ++ record_shown walker placed.earlier placed.entry) }
    ensures grown { IfErr result (λ _. HasGrown (P.shown progress.old) (P.shown progress.new)) }
{
    let here = walker.here();
    let mut transition = resting_transition(walker.machine());
    let walker = see_record(alloc, walker, placed, &mut transition, progress)?;
    push_record(out, &transition)?;
    Ok(walker.go_to(alloc, here, progress)?)
}

/// Appends what the record before did, or that the machine booted. The walker is where it was.
pub(crate) fn push_why<P: Progress>(
    alloc: Global,
    out: &mut Vec<u8>,
    walker: Walker,
    progress: &mut P,
) -> Result<Walker, Failure>
    ensures err { IfErr result IsWanting }
    ensures same { IfOk result (λ w. w ≡ walker) }
    ensures text { OnOk result (out.new.items ≡ out.old.items ++ why_text walker) }
    ensures shown { OnOk result (P.shown progress.new ≡ P.shown progress.old ++ why_shown walker) }
    ensures grown { IfErr result (λ _. HasGrown (P.shown progress.old) (P.shown progress.new)) }
{
    let here = walker.here();
    if here.records == 0 {
        out.extend_from_slice(b"boot\n")?;
        return Ok(walker);
    }
    let earlier = here.records - 1;
    let entry = walker.records()[earlier];
    push_record_before(alloc, out, walker, Placed { earlier, entry }, progress)
}

/// The line feed that a text's last line wants.
fn line_end(text: &[u8]) -> &'static [u8]
    ensures { result.now ≡ line_end text.now }
{
    match text.last() {
        Some(byte) => if *byte == b'\n' { b"" } else { b"\n" },
        None => b"",
    }
}

/// Appends the report, whose last line ends.
pub(crate) fn push_processes(
    alloc: Global,
    out: &mut Vec<u8>,
    walker: &Walker,
) -> Result<(), Failure>
    ensures err { IfErr result IsWanting }
    ensures text { OnOk result (out.new.items ≡ out.old.items
        ++ processes_text (world_here walker.now)) }
{
    let text = report(alloc, walker.machine().kernel())?;
    out.extend_from_slice(text.as_slice())?;
    out.extend_from_slice(line_end(text.as_slice()))?;
    Ok(())
}

/// Appends the recorded deliveries.
pub(crate) fn push_deliveries(
    alloc: Global,
    out: &mut Vec<u8>,
    walker: &Walker,
) -> Result<(), AllocError>
    ensures { OnOk result (out.new.items ≡ out.old.items
        ++ delivery_lines (world_here walker.now).table.deliveries) }
{
    let mut lines = String::new(alloc);
    push_messages(&mut lines, walker.machine().kernel())?;
    out.extend_from_slice(lines.as_bytes())
}
