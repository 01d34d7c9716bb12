//! What became of a saved history, from files' names to the lines.

ghost use Rattle.std.specs.Prelude.{◌≡◌, ◌<◌, ◌≤◌, ◌^◌, ◌++◌, ◌⊎◌, [], List, All, IfOk, IfErr, IfSome, OnOk, Option, false, length, take, true};
ghost use Rattle.std.specs.Io.KnownBytes.{Appends};
ghost use Rattle.mx_app_start.specs.Failure.{IsWanting, PrintsFront};
ghost use Rattle.mx_app_start.specs.Machine.{world_of};
ghost use Rattle.mx_app_start.specs.Service.{Service};
ghost use Rattle.mx_app_start.specs.Config.{Config};
ghost use Rattle.mx_app_start.specs.Asked.{Asked};
ghost use Rattle.mx_machine.specs.declared.history.Record.{Record as Noted};
ghost use Rattle.mx_machine.specs.Boot.{world_at_boot};
ghost use Rattle.mx_machine.specs.World.{actors};
ghost use Rattle.mx_turns.specs.declared.outside.OutsideLine.{OutsideLine as Event};
ghost use Rattle.mx_why.specs.Begun.{IsBegun, IsUntold, names_of};
ghost use Rattle.mx_why.specs.Deaths.{deaths};
ghost use Rattle.mx_why.specs.Endings.{deaths_text};
ghost use Rattle.mx_why.specs.Busy.{busy, busy_lines};
ghost use Rattle.mx_why.specs.Lines.{idle_text, waits_text};
ghost use Rattle.mx_why.specs.Marks.{is_marked};
ghost use Rattle.mx_why.specs.Seeing.{end_of};
ghost use Rattle.mx_why.specs.Telling.{IsNoted, IsWhyBegun, IsWhyPrinted, later_lines, lines_text, told_marked, told_text};
ghost use Rattle.mx_why.specs.Unfit.{unfit};
ghost use Rattle.mx_why.specs.UnfitLines.{unfit_lines};
ghost use Rattle.mx_why.specs.Unheard.{unheard, unheard_lines};
ghost use Rattle.mx_why.specs.Verdicts.{verdicts};

use crate::begun::{HistoryNames, begin};
use crate::busy::{busy_of, push_busy};
use crate::deaths::deaths_of;
use crate::ends::{push_deaths, push_ending};
use crate::failed_calls::{FailedCall, count_all};
use crate::failed_lines::push_failed_lines;
use crate::lines::{push_idle, push_waits};
use crate::marks::is_marked;
use crate::notes::Note;
use crate::noting::push_notes;
use crate::outside::{LostLine, lost_lines, push_outside};
use crate::readings::follow;
use crate::refused_record::print_refused_record;
use crate::seats::End;
use crate::seeing::end_of;
use crate::unfit::unfit_by;
use crate::unfit_lines::push_unfit_lines;
use crate::unheard::{push_unheard, unheard_of};
use crate::verdicts::verdicts_on;
use mx_app_step::{Failure, Reader, first_records, look_record, print_text, resting_transition};
use mx_machine::{Config, Machine, Record, Refusal};
use mx_turns::OutsideLine;
use std::alloc::{AllocError, Global};
use std::io::Write;

/// What was told of a history.
#[derive(Clone, Copy, Debug, PartialEq, Eq)]
pub enum Told {
    /// Each event of it was accepted; whether a line has a mark, which no right machine has.
    Whole(bool),
    /// An event was refused.
    Refused,
}

/// Makes records, takes their notes, and counts the calls that they refuse, up to the first that is refused. Answers the number of this
/// one, the first having the number 1, and why.
pub(crate) fn note_records(
    machine: &mut Machine,
    records: &[Record],
    notes: &mut Vec<Note>,
    calls: &mut Vec<FailedCall>,
) -> Result<Option<(usize, Refusal)>, AllocError>
    requires few { length records.now < 2 ^ 32 }
    requires actors { All (λ (x : Noted). x.actor < actors (world_of machine.old)) records.now }
    requires none { notes.old.items ≡ [] }
    requires no_calls { calls.old.items ≡ [] }
    ensures noted { IfOk result (λ refused. IsNoted (world_of machine.old) (world_of machine.new)
        records.now refused notes.new.items calls.new.items) }
    ensures few { IfOk result (λ refused. IfSome refused (λ p. p.0 ≤ length records.now)) }
{
    let mut transition = resting_transition(machine);
    for (index, entry) in records.iter().enumerate() {
        let number = index as u32 + 1;
        follow(calls, machine, *entry)?;
        match look_record(machine, number, *entry, &mut transition) {
            Ok(()) => {
                push_notes(notes, &transition)?;
                count_all(calls, machine, &transition)?;
            }
            Err(refusal) => return Ok(Some((number as usize, refusal))),
        }
    }
    Ok(None)
}

/// Appends the lines of those that wait.
fn push_waiting_lines(
    out: &mut Vec<u8>,
    alloc: Global,
    end: &End,
    notes: &[Note],
) -> Result<(), AllocError>
    ensures { OnOk result (out.new.items ≡ out.old.items
        ++ (waits_text end.now notes.now (verdicts end.now) true
        ++ waits_text end.now notes.now (verdicts end.now) false)) }
{
    let said = verdicts_on(alloc, end)?;
    push_waits(out, end, notes, &said, true)?;
    push_waits(out, end, notes, &said, false)
}

/// Appends the lines of those that aren't heard.
pub(crate) fn push_unheard_lines(
    out: &mut Vec<u8>,
    end: &End,
    notes: &[Note],
) -> Result<(), AllocError>
    ensures { OnOk result (out.new.items ≡ out.old.items
        ++ unheard_lines end.now notes.now (unheard end.now notes.now)) }
{
    let found = unheard_of(end, notes);
    push_unheard(out, end, notes, &found)
}

/// Appends the lines of deaths.
fn push_death_lines(
    out: &mut Vec<u8>,
    alloc: Global,
    end: &End,
    notes: &[Note],
) -> Result<(), AllocError>
    ensures { OnOk result (out.new.items ≡ out.old.items
        ++ deaths_text end.now notes.now (deaths notes.now)) }
{
    let found = deaths_of(alloc, notes)?;
    push_deaths(out, end, notes, found.as_slice())
}

/// Appends the lines of those that compute without a call.
pub(crate) fn push_busy_lines(
    out: &mut Vec<u8>,
    end: &End,
    notes: &[Note],
) -> Result<(), AllocError>
    ensures { OnOk result (out.new.items ≡ out.old.items
        ++ busy_lines end.now (busy end.now notes.now)) }
{
    let found = busy_of(end, notes);
    push_busy(out, end, &found)
}

/// Appends the lines of what can't work by the configuration alone.
pub(crate) fn push_lacking_lines(
    out: &mut Vec<u8>,
    alloc: Global,
    config: &Config,
    end: &End,
) -> Result<(), AllocError>
    ensures { OnOk result (out.new.items ≡ out.old.items
        ++ unfit_lines config.now (unfit config.now end.now)) }
{
    let found = unfit_by(alloc, config, end)?;
    push_unfit_lines(out, config, found.as_slice())
}

/// Appends all lines but the first.
#[tactic(auto, unfolding(crate::specs::Telling::later_lines))]
fn push_later(
    out: &mut Vec<u8>,
    alloc: Global,
    config: &Config,
    end: &End,
    notes: &[Note],
    calls: &[FailedCall],
    lost: &[LostLine],
) -> Result<(), AllocError>
    ensures { OnOk result (out.new.items ≡ out.old.items
        ++ later_lines config.now end.now notes.now calls.now lost.now) }
{
    push_waiting_lines(out, alloc, end, notes)?;
    push_unheard_lines(out, end, notes)?;
    push_busy_lines(out, end, notes)?;
    push_death_lines(out, alloc, end, notes)?;
    push_failed_lines(out, config, end, calls)?;
    push_outside(out, end, lost)?;
    push_idle(out, end, notes)?;
    push_lacking_lines(out, alloc, config, end)
}

/// Appends all lines of a history of so many records.
#[tactic(auto, unfolding(crate::specs::Telling::lines_text))]
fn push_lines(
    out: &mut Vec<u8>,
    alloc: Global,
    config: &Config,
    end: &End,
    notes: &[Note],
    calls: &[FailedCall],
    lost: &[LostLine],
    records: usize,
) -> Result<(), AllocError>
    ensures { OnOk result (out.new.items ≡ out.old.items
        ++ lines_text config.now end.now notes.now calls.now lost.now records) }
{
    push_ending(out, end, records, config.log)?;
    if records == 0 {
        return Ok(());
    }
    push_later(out, alloc, config, end, notes, calls, lost)
}

/// Prints all lines of a machine that has made these records, of which these are the notes and the refused calls, with
/// a file of outside events whose lines say this. Answers whether one has a mark.
fn print_lines<W: Write>(
    alloc: Global,
    config: &Config,
    machine: &Machine,
    notes: &[Note],
    calls: &[FailedCall],
    records: &[Record],
    said: &[Option<OutsideLine>],
    out: &mut W,
) -> Result<bool, Failure>
    ensures err { IfErr result IsWanting }
    ensures front { IfErr result (λ _. PrintsFront
        (λ front. Appends (W.contents out.old) (W.contents out.new) front)
        (told_text config.now (end_of (world_of machine.now)) notes.now calls.now records.now said.now)) }
    ensures bytes { OnOk result (Appends (W.contents out.old) (W.contents out.new)
        (told_text config.now (end_of (world_of machine.now)) notes.now calls.now records.now said.now)) }
    ensures marked { IfOk result (λ marked. marked
        ≡ told_marked config.now (end_of (world_of machine.now)) notes.now calls.now records.now said.now) }
{
    let end = end_of(machine);
    let found = lost_lines(alloc, config, &end, records, said)?;
    let lost = found.as_slice();
    let count = records.len();
    let mut text = Vec::new(alloc);
    push_lines(&mut text, alloc, config, &end, notes, calls, lost, count)?;
    let marked = is_marked(alloc, config, &end, notes, calls, lost, count)?;
    print_text(text.as_slice(), out)?;
    Ok(marked)
}

/// Makes records, which a file of outside events has led to whose lines say this, and prints the lines. At an event that
/// is refused it prints which record it is of, and the refusal.
fn print_history<W: Write>(
    alloc: Global,
    config: &Config,
    machine: &mut Machine,
    records: &[Record],
    said: &[Option<OutsideLine>],
    out: &mut W,
) -> Result<Told, Failure>
    requires few { length records.now < 2 ^ 32 }
    requires actors { All (λ (x : Noted). x.actor < actors (world_of machine.old)) records.now }
    ensures err { IfErr result IsWanting }
    ensures begun { IfErr result (λ _. Appends (W.contents out.old) (W.contents out.new) []
        ⊎ IsWhyBegun (world_of machine.old) records.now config.now said.now (λ text.
        Appends (W.contents out.old) (W.contents out.new) text)) }
    ensures printed { IfOk result (λ told.
        IsWhyPrinted (world_of machine.old) records.now config.now said.now told (λ text.
        Appends (W.contents out.old) (W.contents out.new) text)) }
{
    let mut notes = Vec::new(alloc);
    let mut calls = Vec::new(alloc);
    match note_records(machine, records, &mut notes, &mut calls)? {
        None => {
            let noted = notes.as_slice();
            let counted = calls.as_slice();
            let marked = print_lines(alloc, config, machine, noted, counted, records, said, out)?;
            Ok(Told::Whole(marked))
        }
        Some((number, refusal)) => {
            print_refused_record(alloc, records, number, refusal, out)?;
            Ok(Told::Refused)
        }
    }
}

/// Starts the machine of a saved history, makes its records (of more than 4,294,967,295 the first), and
/// prints what became of it, and which lines of the file of outside events were refused, if one is named. At an event
/// that is refused it prints which record it is of, and the refusal. Before a failure a front of this is printed; nothing,
/// if no machine is started.
pub fn why<R: Reader, W: Write>(
    alloc: Global,
    reader: &mut R,
    names: HistoryNames<'_>,
    out: &mut W,
) -> Result<Told, Failure>
    ensures printed { IfOk result (λ told. (qs : List Asked) × (c : Config)
        × (vs : List Service) × (records : List Noted) × (said : List (Option Event))
        × (R.asked reader.new ≡ R.asked reader.old ++ qs)
        × IsBegun (names_of names.entry) qs c vs records said
        × IsWhyPrinted (world_at_boot c vs) (take 4294967295 records) c said told (λ text.
        Appends (W.contents out.old) (W.contents out.new) text)) }
    ensures fault { IfErr result (λ f. (qs : List Asked)
        × (R.asked reader.new ≡ R.asked reader.old ++ qs)
        × IsUntold (names_of names.entry) qs f) }
    ensures begun { IfErr result (λ _. Appends (W.contents out.old) (W.contents out.new) []
        ⊎ ((qs : List Asked) × (c : Config) × (vs : List Service) × (records : List Noted)
        × (said : List (Option Event)) × (R.asked reader.new ≡ R.asked reader.old ++ qs)
        × IsBegun (names_of names.entry) qs c vs records said
        × IsWhyBegun (world_at_boot c vs) (take 4294967295 records) c said (λ text.
        Appends (W.contents out.old) (W.contents out.new) text))) }
{
    let mut begun = begin(alloc, reader, names)?;
    let records = first_records(begun.started.lines.as_slice(), u32::MAX);
    print_history(
        alloc,
        &begun.started.config,
        &mut begun.started.machine,
        records,
        begun.said.as_slice(),
        out,
    )
}
