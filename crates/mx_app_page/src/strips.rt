//! The page of a history with the strip of a sweep: below the rows it has a line for each range of positions in a row that
//! end alike, which says whether the runs with the fault there end as without it, and how.
//!
//! The rows come first, by the machine that was started. What it was made of is booted again, for the machines of the
//! trials.

ghost use Rattle.std.specs.Prelude.{◌≡◌, ◌<◌, ◌≤◌, ◌+◌, ◌-◌, ◌^◌, ◌++◌, [], IfErr, IfOk, List, None, OnOk, length, min};
ghost use Rattle.std.specs.Io.KnownBytes.{Appends};
ghost use Rattle.mx_app_failure.specs.Failure.{IsWanting, PrintsFront};
ghost use Rattle.mx_app_step.specs.Asked.{Asked};
ghost use Rattle.mx_app_step.specs.Machine.{world_of};
ghost use Rattle.mx_app_turns.specs.Begun.{IsReady, sweep_of};
ghost use Rattle.mx_app_turns.specs.Sweeping.{IsShown, ending_of, findings_at, text_at};
ghost use Rattle.mx_app_page.specs.Pages.{run_of_files};
ghost use Rattle.mx_app_page.specs.Strips.{AreCounts, IsSweptPageDone, PrintsSweptPage, beginning_text, positions_text, strip_back_text, strip_text};
ghost use Rattle.mx_look_page.specs.Heads.{run_of};
ghost use Rattle.mx_look_page.specs.Strips.{range_text, strip_of};
ghost use Rattle.mx_machine.specs.Boot.{world_at_boot};
ghost use Rattle.mx_turns.specs.Ahead.{IsAhead, boot_of};
ghost use Rattle.mx_turns.specs.Swept.{IsSwept};
ghost use Rattle.mx_walk.specs.declared.progress.Part.{Part as Parts};

use crate::fixed::BACK;
use crate::printing::{front_text, print_refused, print_rows, push_half, rules_number};
use mx_app_start::{Reader, Started};
use mx_app_step::{Failure, print_text};
use mx_app_turns::{
    Begun, SweepNames, SweepPlan, SweepWanted, Swept, Total, begin_sweep, how_ended, jobs_of,
    range_of, told_shown,
};
use mx_look_page::{RunTerms, StripTerms, push_range, push_strip_tail};
use mx_machine::{Config, Machine, Service};
use mx_turns::{Ahead, Range, Sweep, Told};
use mx_walk::{Part, Progress, boot};
use std::alloc::{AllocError, Global};
use std::io::Write;
use std::thread::Threads;

/// Prints the line of a range, by what its first position tells; `before` is how the one above it ends. What was in
/// `text` is lost.
fn print_range<P: Progress, W: Write>(
    text: &mut Vec<u8>,
    first: u32,
    before: &[u8],
    told: &Told,
    progress: &mut P,
    out: &mut W,
) -> Result<(), Failure>
    ensures err { IfErr result IsWanting }
    ensures front { IfErr result (λ _. PrintsFront
        (λ front. Appends (W.contents out.old) (W.contents out.new) front)
        (range_text first before.now told.now.text.items told.now.findings.is_alike)) }
    ensures bytes { OnOk result (Appends (W.contents out.old) (W.contents out.new)
        (range_text first before.now told.now.text.items told.now.findings.is_alike)) }
    ensures shown { P.shown progress.new ≡ P.shown progress.old }
{
    text.clear();
    push_range(
        text,
        first,
        before,
        told.text.as_slice(),
        told.findings.is_alike,
    )?;
    progress.clear();
    print_text(text.as_slice(), out)
}

/// Prints the line of the range that begins at a position, if one does, by what this position and the one before tell.
#[tactic(auto, using(mx_app_start::proofs::Appended::appends_nothing))]
fn print_beginning<P: Progress, W: Write>(
    text: &mut Vec<u8>,
    position: usize,
    before: &Told,
    told: &Told,
    progress: &mut P,
    out: &mut W,
) -> Result<(), Failure>
    requires few { position < 2 ^ 32 }
    ensures err { IfErr result IsWanting }
    ensures front { IfErr result (λ _. PrintsFront
        (λ front. Appends (W.contents out.old) (W.contents out.new) front)
        (beginning_text position before.now.text.items before.now.findings.is_alike
        told.now.text.items told.now.findings.is_alike)) }
    ensures bytes { OnOk result (Appends (W.contents out.old) (W.contents out.new)
        (beginning_text position before.now.text.items before.now.findings.is_alike
        told.now.text.items told.now.findings.is_alike)) }
    ensures shown { P.shown progress.new ≡ P.shown progress.old }
{
    let end = before.text.as_slice();
    if end == told.text.as_slice() && before.findings.is_alike == told.findings.is_alike {
        return Ok(());
    }
    print_range(text, position as u32, end, told, progress, out)
}

/// Prints the lines of all positions of a sweep, of which the first tells this. Answers what is counted of them.
fn print_positions<T: Threads + Sync, P: Progress, W: Write>(
    rt: &T,
    alloc: Global,
    first: Told,
    ahead: Ahead,
    sweep: Sweep<'_>,
    progress: &mut P,
    out: &mut W,
) -> Result<Total, Failure>
    requires ahead { IsAhead sweep ahead }
    requires there { ahead.position ≡ sweep.range.from + 1 }
    requires some { sweep.range.from < sweep.range.end }
    requires few { sweep.range.end ≤ 2 ^ 32 }
    requires first { let s = sweep_of sweep (boot_of ahead) in
        (first.text.items ≡ text_at s sweep.range.from)
        × (first.findings ≡ findings_at s sweep.range.from) }
    ensures err { IfErr result IsWanting }
    ensures front { IfErr result (λ _. let range = sweep.entry.range in
        PrintsFront (λ front. Appends (W.contents out.old) (W.contents out.new) front)
        (positions_text (sweep_of sweep.entry (boot_of ahead)) (range.end - range.from) range.from)) }
    ensures bytes { OnOk result (let range = sweep.entry.range in
        Appends (W.contents out.old) (W.contents out.new)
        (positions_text (sweep_of sweep.entry (boot_of ahead)) (range.end - range.from) range.from)) }
    ensures counts { IfOk result (λ total. let range = sweep.entry.range in
        AreCounts (sweep_of sweep.entry (boot_of ahead)) (range.end - range.from) range.from total) }
    ensures shown { IsShown (P.shown progress.old) (P.shown progress.new)
        (sweep.entry.range.end - sweep.entry.range.from) result }
{
    let range = sweep.range;
    let all = range.end - range.from;
    let mut ahead = ahead;
    let mut text = Vec::new(alloc);
    let mut before = first;
    let mut total = Total::one(before.findings);
    progress.show(Part { done: 1, all });
    print_range(&mut text, range.from as u32, b"", &before, progress, out)?;
    for position in range.from + 1..range.end {
        let told = told_shown(rt, alloc, &mut ahead, sweep, position, progress)?;
        print_beginning(&mut text, position, &before, &told, progress, out)?;
        total = total.and(Total::one(told.findings));
        before = told;
    }
    Ok(total)
}

/// Sweeps a machine of these services, and prints the lines of the positions. Answers how the sweep ended.
fn print_strip<T: Threads + Sync, P: Progress, W: Write>(
    rt: &T,
    alloc: Global,
    services: Vec<Service>,
    plan: SweepPlan<'_>,
    progress: &mut P,
    out: &mut W,
) -> Result<Swept, Failure>
    requires swept { IsSwept plan.sweep (world_at_boot plan.sweep.config.now services.items) }
    requires from { plan.sweep.range.from ≡ plan.wanted.from }
    requires end { plan.sweep.range.end ≡ min plan.wanted.to (length plan.sweep.records.now) + 1 }
    requires few { length plan.sweep.records.now + 1 < 2 ^ 32 }
    ensures err { IfErr result IsWanting }
    ensures front { IfErr result (λ _. let range = plan.entry.sweep.range in
        let boot = world_at_boot plan.entry.sweep.config.now services.items in
        PrintsFront (λ front. Appends (W.contents out.old) (W.contents out.new) front)
        (positions_text (sweep_of plan.entry.sweep boot) (range.end - range.from) range.from)) }
    ensures bytes { OnOk result (let range = plan.entry.sweep.range in
        let boot = world_at_boot plan.entry.sweep.config.now services.items in
        Appends (W.contents out.old) (W.contents out.new)
        (positions_text (sweep_of plan.entry.sweep boot) (range.end - range.from) range.from)) }
    ensures ended { IfOk result (λ how.
        let boot = world_at_boot plan.entry.sweep.config.now services.items in
        how ≡ ending_of (sweep_of plan.entry.sweep boot) plan.entry.wanted.from plan.entry.wanted.to) }
    ensures shown { IsShown (P.shown progress.old) (P.shown progress.new)
        (plan.entry.sweep.range.end - plan.entry.sweep.range.from) result }
{
    let SweepPlan { sweep, wanted } = plan;
    if sweep.range.from >= sweep.range.end {
        return Ok(how_ended(plan, Total::none(), None));
    }
    let jobs = jobs_of(rt, wanted.jobs).min(sweep.range.end - sweep.range.from);
    let machine = boot(alloc, sweep.config, services)?;
    let mut ahead = Ahead::new(alloc, machine, sweep, jobs)?;
    let first = ahead.ask(rt, alloc, sweep)?;
    let refusal = first.findings.refusal;
    let total = print_positions(rt, alloc, first, ahead, sweep, progress, out)?;
    Ok(how_ended(plan, total, refusal))
}

/// What stands below the lines of positions.
fn strip_back(alloc: Global, rows: u32, strip: StripTerms<'_>) -> Result<Vec<u8>, AllocError>
    ensures { IfOk result (λ text. text.items ≡ strip_back_text rows (strip_of strip.entry)) }
{
    let mut text = Vec::new(alloc);
    push_strip_tail(&mut text, rows, strip)?;
    push_half(&mut text, BACK)?;
    Ok(text)
}

/// What the page says of the run, all of whose records are in rows.
fn terms_of<'a>(names: SweepNames<'a>, config: &Config) -> RunTerms<'a>
    ensures first { result.first ≡ 0 }
    ensures run { run_of result
        ≡ run_of_files names.entry.config.now names.entry.log.now 0 config.now }
{
    RunTerms {
        config: names.config.as_bytes(),
        history: names.log.as_bytes(),
        first: 0,
        cpus: u32::from(config.cpus),
        others: u32::from(config.others),
        log: config.log,
        rules: rules_number(config.rules),
    }
}

/// What the page says of a sweep.
fn strip_terms<'a>(fault: &'a str, sweep: Sweep<'_>) -> StripTerms<'a>
    requires few { sweep.range.end < 2 ^ 32 }
    requires from { sweep.range.from < 2 ^ 32 }
    ensures { let range = sweep.entry.range in strip_of result ≡ record {
      fault = fault.entry.now;
      turns = sweep.entry.bound;
      from = range.from;
      positions = range.end - range.from;
    } }
{
    let Range { from, end } = sweep.range;
    StripTerms {
        fault: fault.as_bytes(),
        turns: sweep.bound,
        from: from as u32,
        positions: end.saturating_sub(from) as u32,
    }
}

/// Prints the lines of the positions, and what stands below them. Answers how the sweep ended.
fn print_below<T: Threads + Sync, P: Progress, W: Write>(
    rt: &T,
    alloc: Global,
    services: Vec<Service>,
    fault: &str,
    plan: SweepPlan<'_>,
    progress: &mut P,
    out: &mut W,
) -> Result<Swept, Failure>
    requires swept { IsSwept plan.sweep (world_at_boot plan.sweep.config.now services.items) }
    requires from { plan.sweep.range.from ≡ plan.wanted.from }
    requires end { plan.sweep.range.end ≡ min plan.wanted.to (length plan.sweep.records.now) + 1 }
    requires few { length plan.sweep.records.now + 1 < 2 ^ 32 }
    requires first { plan.sweep.range.from < 2 ^ 32 }
    ensures err { IfErr result IsWanting }
    ensures front { IfErr result (λ _. let range = plan.entry.sweep.range in
        let boot = world_at_boot plan.entry.sweep.config.now services.items in
        PrintsFront (λ front. Appends (W.contents out.old) (W.contents out.new) front)
        (strip_text (sweep_of plan.entry.sweep boot) (length plan.entry.sweep.records.now) (record {
          fault = fault.now;
          turns = plan.entry.sweep.bound;
          from = range.from;
          positions = range.end - range.from;
        }))) }
    ensures bytes { OnOk result (let range = plan.entry.sweep.range in
        let boot = world_at_boot plan.entry.sweep.config.now services.items in
        Appends (W.contents out.old) (W.contents out.new)
        (strip_text (sweep_of plan.entry.sweep boot) (length plan.entry.sweep.records.now) (record {
          fault = fault.now;
          turns = plan.entry.sweep.bound;
          from = range.from;
          positions = range.end - range.from;
        }))) }
    ensures ended { IfOk result (λ how.
        let boot = world_at_boot plan.entry.sweep.config.now services.items in
        how ≡ ending_of (sweep_of plan.entry.sweep boot) plan.entry.wanted.from plan.entry.wanted.to) }
    ensures shown { IsShown (P.shown progress.old) (P.shown progress.new)
        (plan.entry.sweep.range.end - plan.entry.sweep.range.from) result }
{
    let how = print_strip(rt, alloc, services, plan, progress, out)?;
    let strip = strip_terms(fault, plan.sweep);
    let back = strip_back(alloc, plan.sweep.records.len() as u32, strip)?;
    progress.clear();
    print_text(back.as_slice(), out)?;
    Ok(how)
}

/// Prints the page of a history, with the strip if no record is refused. Answers how the sweep ended.
fn print_swept<T: Threads + Sync, P: Progress, W: Write>(
    rt: &T,
    alloc: Global,
    machine: Machine,
    names: SweepNames<'_>,
    plan: SweepPlan<'_>,
    progress: &mut P,
    out: &mut W,
) -> Result<Swept, Failure>
    requires ready { IsReady machine plan.sweep.config.now plan.sweep.other plan.sweep.records.now }
    requires from { plan.sweep.range.from ≡ plan.wanted.from }
    requires end { plan.sweep.range.end ≡ min plan.wanted.to (length plan.sweep.records.now) + 1 }
    requires few { length plan.sweep.records.now + 1 < 2 ^ 32 }
    requires first { plan.sweep.range.from < 2 ^ 32 }
    ensures { (ps : List Parts) × (P.shown progress.new ≡ P.shown progress.old ++ ps)
        × IsSweptPageDone
        (run_of_files names.entry.config.now names.entry.log.now 0 plan.entry.sweep.config.now)
        (sweep_of plan.entry.sweep (world_of machine)) names.entry.fault.now plan.entry.wanted.from
        plan.entry.wanted.to ps (λ text. Appends (W.contents out.old) (W.contents out.new) text)
        result }
{
    let mut machine = machine;
    let rules = machine.rules();
    let terms = terms_of(names, plan.sweep.config);
    let front = front_text(alloc, &machine, terms)?;
    print_text(front.as_slice(), out)?;
    match print_rows(alloc, &mut machine, plan.sweep.records, 0, out)? {
        None => {
            let services = machine.into_kernel().into_services();
            print_below(rt, alloc, services, names.fault, plan, progress, out)
        }
        Some((rows, refusal)) => {
            print_refused(alloc, rules, rows as u32, rows + 1, refusal, out)?;
            Ok(Swept::Refused)
        }
    }
}

/// Starts the machine of a saved history, and prints a document that shows it in a browser, with the strip of a sweep:
/// for each range of positions that are wanted and end alike, whether the runs with the fault there end as without it,
/// and how. Threads try several positions at once; what is printed and shown is the same for each number of them. After
/// each position `progress` is shown how many are done. If an event is refused, the document has the records before it,
/// and no strip. Answers how the sweep ended, as `sweep` does. Of more records than 32 bits count there is no page:
/// memory is out. What `wanted` says of a file to save isn't looked at. Before a failure a front of the document is
/// printed; nothing, if no machine is started.
pub fn swept_page<T: Threads + Sync, R: Reader, P: Progress, W: Write>(
    rt: &T,
    alloc: Global,
    reader: &mut R,
    names: SweepNames<'_>,
    wanted: SweepWanted<'_>,
    progress: &mut P,
    out: &mut W,
) -> Result<Swept, Failure>
    ensures { (qs : List Asked) × (ps : List Parts) × (R.asked reader.new ≡ R.asked reader.old ++ qs)
        × (P.shown progress.new ≡ P.shown progress.old ++ ps)
        × PrintsSweptPage names.entry.config.now names.entry.log.now names.entry.fault.now
        wanted.entry.from wanted.entry.to wanted.entry.bound qs ps
        (λ text. Appends (W.contents out.old) (W.contents out.new) text) result }
{
    let begun = begin_sweep(alloc, reader, names)?;
    let Begun { started, fault } = begun;
    let Started {
        machine,
        config,
        other,
        lines: records,
    } = started;
    if records.len() >= u32::MAX as usize {
        return Err(Failure::NoMemory);
    }
    let sweep = Sweep {
        config: &config,
        other,
        records: records.as_slice(),
        fault: fault.as_slice(),
        range: range_of(wanted, records.len()),
        bound: wanted.bound,
    };
    print_swept(
        rt,
        alloc,
        machine,
        names,
        SweepPlan { sweep, wanted },
        progress,
        out,
    )
}
