//! The outside events of a file that have no record in the history that was made with it.

ghost use Rattle.std.specs.Prelude.{◌≡◌, ◌<◌, ◌≤◌, ◌++◌, ◌||◌, IfOk, OnOk, Some, count_by, filter, length, nat_le, nat_lt, slice_get};
ghost use Rattle.mx_why.specs.Outside.{event_text, has_caller, has_lost, is_made, is_of_file, is_record_of, found_after, is_back, is_first_back, is_sought, lost_by, lost_from, lost_if, lost_lines, lost_text, more_lost_text, outside_text, records_of_file, tried_lines, turns_with_line};

use crate::reasons::push_verb;
use crate::seats::End;
use mx_machine::{Config, Event, Record, Recorded};
use mx_print_report::{push_counted, push_long};
use mx_proc::slot_of;
use mx_turns::OutsideLine;
use std::alloc::{AllocError, Global};

/// A take wants room for itself and for the process to come back.
const RECORDS_OF_TAKE: usize = 2;

/// A line of a file of outside events that has no record.
#[derive(Clone, Copy)]
pub struct LostLine {
    /// Counted from 1.
    pub number: usize,
    pub line: OutsideLine,
}

/// Whether a record may be that of a line.
fn is_sought(event: Recorded) -> bool
    ensures { result ≡ is_sought event }
{
    matches!(
        event,
        Recorded::Line(_) | Recorded::Tick | Recorded::Kill(_)
    )
}

/// Whether an actor past the first one that is no processor makes a record, as in a run with a file.
fn has_caller(cpus: u8, records: &[Record]) -> bool
    ensures { result ≡ has_caller cpus records.now }
{
    records.iter().any(|entry| cpus < entry.actor)
}

/// Whether a record is of the file's actor: one past the first, in a run with a file.
fn is_of_file(cpus: u8, called: bool, entry: &Record) -> bool
    ensures { result ≡ is_of_file cpus called entry.now }
{
    (if called {
        cpus < entry.actor
    } else {
        entry.actor == cpus
    }) && is_sought(entry.event)
}

/// The records of the file's actor that may be those of lines.
fn records_by(
    alloc: Global,
    cpus: u8,
    called: bool,
    records: &[Record],
) -> Result<Vec<Record>, AllocError>
    ensures { IfOk result (λ made. made.items ≡ filter (is_of_file cpus called) records.now) }
{
    let mut made = Vec::new(alloc);
    for entry in records {
        if is_of_file(cpus, called, entry) {
            made.push(*entry)?;
        }
    }
    Ok(made)
}

/// The records of the file's lines.
#[tactic(auto, unfolding(crate::specs::Outside::records_of_file))]
fn records_of_file(alloc: Global, cpus: u8, records: &[Record]) -> Result<Vec<Record>, AllocError>
    ensures { IfOk result (λ made. made.items ≡ records_of_file cpus records.now) }
{
    records_by(alloc, cpus, has_caller(cpus, records), records)
}

/// Whether a record is that of an event.
fn is_record_of(line: OutsideLine, event: Recorded) -> bool
    ensures { result ≡ is_record_of line event }
{
    match (line, event) {
        (OutsideLine::Plain(Event::Line(line)), Recorded::Line(made)) => line == made,
        (OutsideLine::Plain(Event::Tick), Recorded::Tick) => true,
        (OutsideLine::Plain(Event::Kill(endpoint)), Recorded::Kill(made)) => endpoint == made,
        (OutsideLine::KillSlot(slot), Recorded::Kill(made)) => slot_of(made) == u32::from(slot),
        _ => false,
    }
}

/// Whether the record at a place, if there is one, is that of an event.
fn is_made(line: OutsideLine, made: &[Record], place: usize) -> bool
    ensures { result ≡ is_made line (slice_get made.now place) }
{
    match made.get(place) {
        Some(entry) => is_record_of(line, entry.event),
        None => false,
    }
}

/// Whether this is that a processor comes back.
fn is_back(event: Recorded) -> bool
    ensures { result ≡ is_back event }
{
    matches!(event, Recorded::Back(_))
}

/// Whether processor 0 comes back in a record.
fn is_first_back(entry: &Record) -> bool
    ensures { result ≡ is_first_back entry.now }
{
    entry.actor == 0 && is_back(entry.event)
}

/// How many turns, at least, tried a line.
fn turns_with_line(config: &Config, records: &[Record]) -> usize
    ensures { result ≡ turns_with_line config.now records.now }
{
    let backs = records.iter().filter(|entry| is_first_back(entry)).count();
    let free = (config.log as usize).saturating_sub(records.len());
    backs.saturating_sub(if free >= RECORDS_OF_TAKE { 0 } else { 1 })
}

/// How many lines, at least, were tried of a file that has so many.
#[tactic(auto, unfolding(crate::specs::Outside::tried_lines))]
fn tried_lines(config: &Config, end: &End, records: &[Record], count: usize) -> usize
    ensures { result ≡ tried_lines config.now end.now records.now count }
{
    if !end.at_rest {
        0
    } else if !has_caller(config.cpus, records) {
        turns_with_line(config, records)
    } else if records.len() < config.log as usize {
        count
    } else {
        0
    }
}

/// Whether a line without a record was refused, and not only left out: if it was tried, or a later line has a record.
fn is_refused(tried: usize, made: &[Record], number: usize, found: usize) -> bool
    ensures { result ≡ (nat_le number tried || nat_lt found (length made.now)) }
{
    number <= tried || found < made.len()
}

/// Appends a line, if it was refused.
fn push_if_refused(
    lost: &mut Vec<LostLine>,
    refused: bool,
    number: usize,
    line: OutsideLine,
) -> Result<(), AllocError>
    ensures { OnOk result (lost.new.items ≡ lost.old.items ++ lost_if refused number line) }
{
    if refused {
        lost.push(LostLine { number, line })?;
    }
    Ok(())
}

/// Follows an event, whose line has a number, after so many of the records are found: appends its line, if it was
/// refused, and answers how many are found then.
fn follow_event(
    lost: &mut Vec<LostLine>,
    made: &[Record],
    tried: usize,
    number: usize,
    found: usize,
    line: OutsideLine,
) -> Result<usize, AllocError>
    requires { found < number }
    ensures lost { OnOk result (lost.new.items ≡ lost.old.items
        ++ lost_by tried made.now number found (Some line)) }
    ensures found { IfOk result (λ now. now ≡ found_after made.now found (Some line)) }
    ensures few { IfOk result (λ now. now ≤ number) }
{
    if is_made(line, made, found) {
        return Ok(found + 1);
    }
    let refused = is_refused(tried, made, number, found);
    push_if_refused(lost, refused, number, line)?;
    Ok(found)
}

/// Follows what a line says.
fn follow_line(
    lost: &mut Vec<LostLine>,
    made: &[Record],
    tried: usize,
    number: usize,
    found: usize,
    said: Option<OutsideLine>,
) -> Result<usize, AllocError>
    requires { found < number }
    ensures lost { OnOk result (lost.new.items ≡ lost.old.items
        ++ lost_by tried made.now number found said) }
    ensures found { IfOk result (λ now. now ≡ found_after made.now found said) }
    ensures few { IfOk result (λ now. now ≤ number) }
{
    match said {
        Some(line) => follow_event(lost, made, tried, number, found, line),
        None => Ok(found),
    }
}

/// The lines that have none of these records, if so many were tried.
fn lost_among(
    alloc: Global,
    made: &[Record],
    said: &[Option<OutsideLine>],
    tried: usize,
) -> Result<Vec<LostLine>, AllocError>
    ensures { IfOk result (λ lost. lost.items ≡ lost_from tried made.now 1 0 said.now) }
{
    let mut lost = Vec::new(alloc);
    let mut found = 0;
    for (index, event) in said.iter().enumerate() {
        found = follow_line(&mut lost, made, tried, index + 1, found, *event)?;
    }
    Ok(lost)
}

/// The lines of a file that have no record among these.
#[tactic(auto, unfolding(crate::specs::Outside::lost_lines))]
pub(crate) fn lost_lines(
    alloc: Global,
    config: &Config,
    end: &End,
    records: &[Record],
    said: &[Option<OutsideLine>],
) -> Result<Vec<LostLine>, AllocError>
    ensures { IfOk result (λ lost. lost.items ≡ lost_lines config.now end.now records.now said.now) }
{
    let made = records_of_file(alloc, config.cpus, records)?;
    let tried = tried_lines(config, end, records, said.len());
    lost_among(alloc, made.as_slice(), said, tried)
}

/// Whether there is such a line.
pub(crate) fn has_lost(lost: &[LostLine]) -> bool
    ensures { result ≡ has_lost lost.now }
{
    lost.len() != 0
}

/// Appends an event.
fn push_event(out: &mut Vec<u8>, end: &End, line: OutsideLine) -> Result<(), AllocError>
    ensures { OnOk result (out.new.items ≡ out.old.items ++ event_text end.now line) }
{
    match line {
        OutsideLine::Plain(Event::Line(line)) => push_counted(out, b"line", line),
        OutsideLine::Plain(Event::Kill(endpoint)) => push_counted(out, b"kill", endpoint),
        OutsideLine::KillSlot(slot) => push_verb(out, end, b"kill ", u32::from(slot)),
        _ => out.extend_from_slice(b"tick"),
    }
}

/// Appends how many lines more there are.
#[tactic(auto, unfolding(crate::specs::Outside::more_lost_text))]
fn push_more_lost(out: &mut Vec<u8>, count: usize) -> Result<(), AllocError>
    ensures { OnOk result (out.new.items ≡ out.old.items ++ more_lost_text count) }
{
    if count == 0 {
        return Ok(());
    }
    out.extend_from_slice(b"; and ")?;
    push_long(out, count as u64)?;
    out.extend_from_slice(b" lines more")
}

/// Appends the line of one that has no record, and of so many more.
#[tactic(auto, unfolding(crate::specs::Outside::lost_text))]
fn push_lost(out: &mut Vec<u8>, end: &End, lost: LostLine, more: usize) -> Result<(), AllocError>
    ensures { OnOk result (out.new.items ≡ out.old.items ++ lost_text end.now lost more) }
{
    out.extend_from_slice(b"outside: EVENTS line ")?;
    push_long(out, lost.number as u64)?;
    out.extend_from_slice(b" (")?;
    push_event(out, end, lost.line)?;
    out.extend_from_slice(b") has no record, so it was refused")?;
    push_more_lost(out, more)?;
    out.extend_from_slice(b"\n")
}

/// Appends the line of those that have no record.
pub(crate) fn push_outside(
    out: &mut Vec<u8>,
    end: &End,
    lost: &[LostLine],
) -> Result<(), AllocError>
    ensures { OnOk result (out.new.items ≡ out.old.items ++ outside_text end.now lost.now) }
{
    match lost.split_first() {
        Some((first, others)) => push_lost(out, end, *first, others.len()),
        None => Ok(()),
    }
}
