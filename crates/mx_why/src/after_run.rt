//! What is told after a run: how it ended, and the first line of `mx why` that has a mark.

ghost use Rattle.std.specs.Prelude.{◌≡◌, ◌<◌, ◌^◌, ◌++◌, ◌==◌, ◌&&◌, List, All, IfErr, IfOk, OnOk, Option, count_by, length, not, option_map, position, take, true};
ghost use Rattle.std.specs.List.{flat_map, sum_by};
ghost use Rattle.mx_app_start.specs.Machine.{world_of};
ghost use Rattle.mx_app_start.specs.Asked.{Asked};
ghost use Rattle.mx_app_start.specs.Config.{Config};
ghost use Rattle.mx_app_start.specs.Service.{Service};
ghost use Rattle.mx_machine.specs.declared.history.Record.{Record as Noted};
ghost use Rattle.mx_machine.specs.Boot.{world_at_boot};
ghost use Rattle.mx_machine.specs.World.{actors};
ghost use Rattle.mx_turns.specs.declared.outside.OutsideLine.{OutsideLine as Event};
ghost use Rattle.mx_why.specs.AfterRun.{IsToldOf, IsToldWithin, are_many, careless_line, careless_lines, command_text, events_word, fault_line, fault_lines, first_line, idle_if_at_rest, is_fault, line_after, line_if_marked, line_told, marked_if_any, marked_lines, more_text, steps_of, told_marks};
ghost use Rattle.mx_why.specs.Begun.{IsBegun, IsUntold, names_of};
ghost use Rattle.mx_why.specs.Deaths.{deaths};
ghost use Rattle.mx_why.specs.Lines.{waits_text};
ghost use Rattle.mx_why.specs.Seeing.{end_of};
ghost use Rattle.mx_why.specs.Verdicts.{verdicts};

use crate::begun::{HistoryNames, begin};
use crate::deaths::{Death, deaths_of};
use crate::ends::{ending_of, push_death, push_ending_by};
use crate::failed_calls::FailedCall;
use crate::failed_lines::push_failed;
use crate::lines::{push_idle, push_waits};
use crate::marks::{is_faulted, is_marked};
use crate::notes::Note;
use crate::outside::{LostLine, lost_lines, push_outside};
use crate::readings::is_careless;
use crate::seats::End;
use crate::seeing::end_of;
use crate::telling::{note_records, push_busy_lines, push_lacking_lines, push_unheard_lines};
use crate::verdicts::verdicts_on;
use mx_app_step::{Failure, Reader, first_records};
use mx_machine::{Config, Machine, Record, Recorded};
use mx_print_report::push_long;
use mx_turns::OutsideLine;
use std::alloc::{AllocError, Global};

/// What is told after a run.
#[derive(Drop)]
pub enum AfterRun {
    /// Nothing: its history has no mark, or one of its records is refused.
    Nothing,
    /// The line of a history with a mark.
    Line(Vec<u8>),
    /// Nothing is known: it takes long to make so many records and steps again.
    Unknown,
}

/// How many records are made again without being asked: by the proved program they take a few hundredths of a second.
const MOST_RECORDS: usize = 20_000;

/// How many steps of these.
const MOST_STEPS: u128 = 10_000_000;

/// How many steps a record brings back.
fn steps_of(event: Recorded) -> u32
    ensures { result ≡ steps_of event }
{
    match event {
        Recorded::Back(steps) => steps,
        _ => 0,
    }
}

/// How many steps records bring back.
fn steps_in(records: &[Record]) -> u128
    ensures { result ≡ sum_by (λ (x : Noted). steps_of x.event) records.now }
{
    let mut steps = 0;
    for record in records {
        steps += u128::from(steps_of(record.event));
    }
    steps
}

/// Whether it takes long to make records again.
fn are_many(records: &[Record]) -> bool
    ensures { result ≡ are_many records.now }
{
    records.len() > MOST_RECORDS || steps_in(records) > MOST_STEPS
}

/// Whether a death is by a fault.
fn is_fault(notes: &[Note], death: &Death) -> bool
    ensures { result ≡ is_fault notes.now death.now }
{
    match notes.get(death.note) {
        Some(note) => is_faulted(note.deed),
        None => false,
    }
}

/// Appends the line of deaths, if they are by a fault.
fn push_fault(out: &mut Vec<u8>, end: &End, notes: &[Note], death: Death) -> Result<(), AllocError>
    ensures { OnOk result (out.new.items ≡ out.old.items ++ fault_line end.now notes.now death) }
{
    if is_fault(notes, &death) {
        push_death(out, end, notes, death)
    } else {
        Ok(())
    }
}

/// Appends the lines of those deaths that are by a fault.
fn push_each_fault(
    out: &mut Vec<u8>,
    end: &End,
    notes: &[Note],
    deaths: &[Death],
) -> Result<(), AllocError>
    ensures { OnOk result (out.new.items ≡ out.old.items
        ++ flat_map (fault_line end.now notes.now) deaths.now) }
{
    for death in deaths {
        push_fault(out, end, notes, *death)?;
    }
    Ok(())
}

/// Appends the lines of the deaths by faults.
#[tactic(auto, unfolding(crate::specs::AfterRun::fault_lines))]
fn push_faults(
    out: &mut Vec<u8>,
    alloc: Global,
    end: &End,
    notes: &[Note],
) -> Result<(), AllocError>
    ensures { OnOk result (out.new.items ≡ out.old.items ++ fault_lines end.now notes.now) }
{
    let found = deaths_of(alloc, notes)?;
    push_each_fault(out, end, notes, found.as_slice())
}

/// Appends the line of calls whose result had to be read, if it wasn't.
fn push_careless(
    out: &mut Vec<u8>,
    config: &Config,
    end: &End,
    call: &FailedCall,
) -> Result<(), AllocError>
    ensures { OnOk result (out.new.items ≡ out.old.items
        ++ careless_line config.now end.now call.now) }
{
    if is_careless(call) {
        push_failed(out, config, end, call)
    } else {
        Ok(())
    }
}

/// Appends the lines of those calls whose result had to be read, and wasn't.
fn push_each_careless(
    out: &mut Vec<u8>,
    config: &Config,
    end: &End,
    calls: &[FailedCall],
) -> Result<(), AllocError>
    ensures { OnOk result (out.new.items ≡ out.old.items
        ++ careless_lines config.now end.now calls.now) }
{
    for call in calls {
        push_careless(out, config, end, call)?;
    }
    Ok(())
}

/// Appends the lines of those that never go on.
fn push_never(out: &mut Vec<u8>, alloc: Global, end: &End, notes: &[Note]) -> Result<(), AllocError>
    ensures { OnOk result (out.new.items ≡ out.old.items
        ++ waits_text end.now notes.now (verdicts end.now) true) }
{
    let said = verdicts_on(alloc, end)?;
    push_waits(out, end, notes, &said, true)
}

/// Appends the lines of those that never ran, at rest.
#[tactic(auto, unfolding(crate::specs::AfterRun::idle_if_at_rest))]
fn push_idle_at_rest(out: &mut Vec<u8>, end: &End, notes: &[Note]) -> Result<(), AllocError>
    ensures { OnOk result (out.new.items ≡ out.old.items ++ idle_if_at_rest end.now notes.now) }
{
    if end.at_rest {
        push_idle(out, end, notes)
    } else {
        Ok(())
    }
}

/// Appends the lines that have a mark, but for the first.
#[tactic(auto, unfolding(crate::specs::AfterRun::marked_lines))]
fn push_marked_lines(
    out: &mut Vec<u8>,
    alloc: Global,
    config: &Config,
    end: &End,
    notes: &[Note],
    calls: &[FailedCall],
    lost: &[LostLine],
) -> Result<(), AllocError>
    ensures { OnOk result (out.new.items ≡ out.old.items
        ++ marked_lines config.now end.now notes.now calls.now lost.now) }
{
    push_never(out, alloc, end, notes)?;
    push_unheard_lines(out, end, notes)?;
    push_busy_lines(out, end, notes)?;
    push_faults(out, alloc, end, notes)?;
    push_each_careless(out, config, end, calls)?;
    push_outside(out, end, lost)?;
    push_idle_at_rest(out, end, notes)?;
    push_lacking_lines(out, alloc, config, end)
}

/// The lines that have a mark, but for the first: of a machine that has done nothing none.
#[tactic(auto, unfolding(crate::specs::AfterRun::marked_if_any))]
fn marked_lines(
    alloc: Global,
    config: &Config,
    end: &End,
    notes: &[Note],
    calls: &[FailedCall],
    lost: &[LostLine],
    records: usize,
) -> Result<Vec<u8>, AllocError>
    ensures { IfOk result (λ lines. lines.items
        ≡ marked_if_any config.now end.now notes.now calls.now lost.now records) }
{
    let mut lines = Vec::new(alloc);
    if records == 0 {
        return Ok(lines);
    }
    push_marked_lines(&mut lines, alloc, config, end, notes, calls, lost)?;
    Ok(lines)
}

/// Whether a byte ends a line.
fn ends_line(byte: u8) -> bool
    ensures { result ≡ byte == 10 }
{
    byte == b'\n'
}

/// Where the first line of a text ends.
fn line_end(text: &[u8]) -> Option<usize>
    ensures { result ≡ position (λ b. b == 10) text.now }
{
    text.iter().position(|byte| ends_line(*byte))
}

/// The first line of a text, without its end.
fn first_line(text: &[u8]) -> &[u8]
    ensures { result.now ≡ first_line text.now }
{
    match line_end(text) {
        Some(end) => &text[..end],
        None => text,
    }
}

/// How many lines a text has.
fn count_lines(text: &[u8]) -> usize
    ensures { result ≡ count_by (λ b. b == 10) text.now }
{
    text.iter().filter(|byte| ends_line(**byte)).count()
}

/// Appends the words that name the file of outside events, if one is named.
fn push_events(out: &mut Vec<u8>, events: Option<&str>) -> Result<(), AllocError>
    ensures { OnOk result (out.new.items ≡ out.old.items
        ++ events_word (option_map (λ s. s.now) events.entry)) }
{
    match events {
        Some(name) => {
            out.extend_from_slice(b" --events ")?;
            out.extend_from_slice(name.as_bytes())
        }
        None => Ok(()),
    }
}

/// Appends the words that show all lines.
#[tactic(auto, unfolding(crate::specs::AfterRun::command_text))]
pub fn push_command(out: &mut Vec<u8>, names: HistoryNames<'_>) -> Result<(), AllocError>
    ensures { OnOk result (out.new.items ≡ out.old.items ++ command_text (names_of names.entry)) }
{
    out.extend_from_slice(b" more: mx why ")?;
    out.extend_from_slice(names.config.as_bytes())?;
    out.extend_from_slice(b" ")?;
    out.extend_from_slice(names.log.as_bytes())?;
    push_events(out, names.events)
}

/// Appends how many lines more there are, and how to see them.
#[tactic(auto, unfolding(crate::specs::AfterRun::more_text))]
fn push_more(out: &mut Vec<u8>, count: usize, names: HistoryNames<'_>) -> Result<(), AllocError>
    ensures { OnOk result (out.new.items ≡ out.old.items
        ++ more_text count (names_of names.entry)) }
{
    if count <= 1 {
        return Ok(());
    }
    out.extend_from_slice(b"; ")?;
    push_long(out, (count - 1) as u64)?;
    push_command(out, names)
}

/// Appends the first of some lines, and how many lines more there are.
#[tactic(auto, unfolding(crate::specs::AfterRun::told_marks))]
fn push_marks(out: &mut Vec<u8>, lines: &[u8], names: HistoryNames<'_>) -> Result<(), AllocError>
    ensures { OnOk result (out.new.items ≡ out.old.items
        ++ told_marks lines.now (names_of names.entry)) }
{
    if lines.is_empty() {
        return Ok(());
    }
    out.extend_from_slice(b"; ")?;
    out.extend_from_slice(first_line(lines))?;
    push_more(out, count_lines(lines), names)
}

/// Appends what is told of a history of so many records that has a mark: how it ended, the first line with a mark
/// but for that, and how many lines more there are.
#[tactic(auto, unfolding(crate::specs::AfterRun::line_after))]
fn push_line_after(
    out: &mut Vec<u8>,
    config: &Config,
    end: &End,
    lines: &[u8],
    records: usize,
    names: HistoryNames<'_>,
) -> Result<(), AllocError>
    ensures { OnOk result (out.new.items ≡ out.old.items
        ++ line_after config.now end.now lines.now records (names_of names.entry)) }
{
    out.extend_from_slice(b"mx: ")?;
    push_ending_by(
        out,
        end,
        records,
        config.log,
        ending_of(end, records, config.log),
    )?;
    push_marks(out, lines, names)?;
    out.extend_from_slice(b"\n")
}

/// What is told of a history of so many records, if it has a mark.
fn line_if_marked(
    alloc: Global,
    config: &Config,
    end: &End,
    notes: &[Note],
    calls: &[FailedCall],
    lost: &[LostLine],
    records: usize,
    names: HistoryNames<'_>,
) -> Result<Option<Vec<u8>>, AllocError>
    ensures { IfOk result (λ line. option_map (λ l. l.items) line
        ≡ line_if_marked config.now end.now notes.now calls.now lost.now records (names_of names.entry)) }
{
    if !is_marked(alloc, config, end, notes, calls, lost, records)? {
        return Ok(None);
    }
    let lines = marked_lines(alloc, config, end, notes, calls, lost, records)?;
    let mut line = Vec::new(alloc);
    push_line_after(&mut line, config, end, lines.as_slice(), records, names)?;
    Ok(Some(line))
}

/// What is told of a machine that has made these records, with a file of outside events whose lines say this.
fn line_told(
    alloc: Global,
    config: &Config,
    machine: &Machine,
    notes: &[Note],
    calls: &[FailedCall],
    records: &[Record],
    said: &[Option<OutsideLine>],
    names: HistoryNames<'_>,
) -> Result<Option<Vec<u8>>, AllocError>
    ensures { IfOk result (λ line. option_map (λ l. l.items) line
        ≡ line_told config.now (end_of (world_of machine.now)) notes.now calls.now records.now
        said.now (names_of names.entry)) }
{
    let end = end_of(machine);
    let lost = lost_lines(alloc, config, &end, records, said)?;
    line_if_marked(
        alloc,
        config,
        &end,
        notes,
        calls,
        lost.as_slice(),
        records.len(),
        names,
    )
}

/// Makes records, and answers what is told of them.
fn line_of(
    alloc: Global,
    config: &Config,
    machine: &mut Machine,
    records: &[Record],
    said: &[Option<OutsideLine>],
    names: HistoryNames<'_>,
) -> Result<Option<Vec<u8>>, AllocError>
    requires few { length records.now < 2 ^ 32 }
    requires actors { All (λ (x : Noted). x.actor < actors (world_of machine.old)) records.now }
    ensures { IfOk result (λ line. IsToldOf (world_of machine.old) records.now config.now said.now
        (names_of names.entry) (option_map (λ l. l.items) line)) }
{
    let mut notes = Vec::new(alloc);
    let mut calls = Vec::new(alloc);
    match note_records(machine, records, &mut notes, &mut calls)? {
        None => line_told(
            alloc,
            config,
            machine,
            notes.as_slice(),
            calls.as_slice(),
            records,
            said,
            names,
        ),
        Some(_) => Ok(None),
    }
}

/// Whether records aren't made again: they are many, and not all are to be made.
fn are_left_out(records: &[Record], all: bool) -> bool
    ensures { result ≡ (not all && are_many records.now) }
{
    !all && are_many(records)
}

/// Makes records, unless they are left out, and answers what is told of them.
fn told_within(
    alloc: Global,
    config: &Config,
    machine: &mut Machine,
    records: &[Record],
    said: &[Option<OutsideLine>],
    names: HistoryNames<'_>,
    all: bool,
) -> Result<AfterRun, AllocError>
    requires few { length records.now < 2 ^ 32 }
    requires actors { All (λ (x : Noted). x.actor < actors (world_of machine.old)) records.now }
    ensures { IfOk result (λ told. IsToldWithin all (world_of machine.old) records.now config.now
        said.now (names_of names.entry) told) }
{
    if are_left_out(records, all) {
        return Ok(AfterRun::Unknown);
    }
    match line_of(alloc, config, machine, records, said, names)? {
        Some(line) => Ok(AfterRun::Line(line)),
        None => Ok(AfterRun::Nothing),
    }
}

/// Starts the machine of a saved history, makes its records (of more than 4,294,967,295 the first; of many none, unless
/// all are to be made), and answers what is told of them after a run: a line, if they have a mark.
pub fn line_after_run<R: Reader>(
    alloc: Global,
    reader: &mut R,
    names: HistoryNames<'_>,
    all: bool,
) -> Result<AfterRun, Failure>
    ensures told { IfOk result (λ told. (qs : List Asked) × (c : Config) × (vs : List Service)
        × (records : List Noted) × (said : List (Option Event))
        × (R.asked reader.new ≡ R.asked reader.old ++ qs)
        × IsBegun (names_of names.entry) qs c vs records said
        × IsToldWithin all (world_at_boot c vs) (take 4294967295 records) c said
        (names_of names.entry) told) }
    ensures fault { IfErr result (λ f. (qs : List Asked)
        × (R.asked reader.new ≡ R.asked reader.old ++ qs)
        × IsUntold (names_of names.entry) qs f) }
{
    let mut begun = begin(alloc, reader, names)?;
    let records = first_records(begun.started.lines.as_slice(), u32::MAX);
    let told = told_within(
        alloc,
        &begun.started.config,
        &mut begun.started.machine,
        records,
        begun.said.as_slice(),
        names,
        all,
    )?;
    Ok(told)
}
