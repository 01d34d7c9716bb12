//! The page of a history, from files' names to its text.

ghost use Rattle.std.specs.Prelude.{◌≡◌, ◌<◌, ◌≤◌, ◌+◌, ◌-◌, ◌^◌, ◌++◌, List, All, IfOk, IfErr, IfSome, None, OnOk, length, take, drop, option_map};
ghost use Rattle.std.specs.Io.KnownBytes.{Appends};
ghost use Rattle.mx_app_step.specs.Failure.{IsWanting, PrintsFront};
ghost use Rattle.mx_app_step.specs.Machine.{world_of};
ghost use Rattle.mx_app_step.specs.Service.{Service};
ghost use Rattle.mx_app_step.specs.Config.{Config as Configured};
ghost use Rattle.mx_app_step.specs.Asked.{Asked};
ghost use Rattle.mx_app_step.specs.Course.{IsSaved, TellsSaved};
ghost use Rattle.mx_app_step.specs.Setup.{IsStart};
ghost use Rattle.mx_app_step.specs.Telling.{IsTold, PrintsBefore};
ghost use Rattle.mx_machine.specs.declared.history.Record.{Record as Noted};
ghost use Rattle.mx_machine.specs.Boot.{world_at_boot};
ghost use Rattle.mx_machine.specs.History.{events_of_history, world_after_events};
ghost use Rattle.mx_machine.specs.World.{actors};
ghost use Rattle.mx_look.specs.Glances.{glance_of};
ghost use Rattle.mx_look_page.specs.Heads.{run_of};
ghost use Rattle.mx_look_page.specs.Rows.{row_text};
ghost use Rattle.mx_app_page.specs.Pages.{shown_in, rules_number, run_of_files, refused_line, front_text, back_text, AreRowsBegun, AreRowsPrinted, IsMadeBegun, IsMadePrinted, IsPageBegun, IsPagePrinted};

use crate::fixed::{BACK, FRONT};
use mx_app_step::{
    Failure, History, HistoryPart, Reader, Replayed, first_records, lines_above, look_record,
    perform_records, print_text, refusal_line, resting_transition, start,
};
use mx_look::{Glance, Transition};
use mx_look_page::{RunTerms, Shown, push_head, push_row, push_tail};
use mx_machine::{Config, Machine, Record, Refusal};
use mx_proc::Rules;
use std::alloc::{AllocError, Global};
use std::io::Write;
use std::mem;

/// Looks at a machine, of which there is a glance.
#[tactic(auto, unfolding(mx_machine::specs::Machine::world_of))]
fn show(shown: &mut Shown, machine: &Machine, glance: &Glance) -> Result<(), AllocError>
    requires { glance.now ≡ glance_of (world_of machine.now) }
    ensures { OnOk result (shown.new ≡ shown_in (world_of machine.now)) }
{
    let kernel = machine.kernel();
    kernel.facts();
    shown.look(glance, kernel.table())
}

/// What the page shows of a machine.
fn shown_in(alloc: Global, machine: &Machine) -> Result<Shown, AllocError>
    ensures { IfOk result (λ shown. shown ≡ shown_in (world_of machine.now)) }
{
    let mut shown = Shown::nothing(alloc);
    show(&mut shown, machine, &Glance::of(machine))?;
    Ok(shown)
}

/// The number of the rules.
pub(crate) fn rules_number(rules: Rules) -> u32
    ensures { result ≡ rules_number rules }
{
    match rules {
        Rules::Lenient => 1,
        Rules::Strict => 2,
    }
}

/// Appends one half of the fixed part.
pub(crate) fn push_half(out: &mut Vec<u8>, half: &str) -> Result<(), AllocError>
    ensures { OnOk result (out.new.items ≡ out.old.items ++ half.now) }
{
    out.extend_from_slice(half.as_bytes())
}

/// What stands above the rows: the fixed part, and the line for the run, which shows the machine as it is.
#[tactic(auto, unfolding(mx_machine::specs::Machine::world_of))]
pub(crate) fn front_text(
    alloc: Global,
    machine: &Machine,
    terms: RunTerms<'_>,
) -> Result<Vec<u8>, AllocError>
    ensures { IfOk result (λ text. text.items
        ≡ front_text (run_of terms.entry) (world_of machine.now)) }
{
    let shown = shown_in(alloc, machine)?;
    let mut text = Vec::new(alloc);
    let mut scratch = Vec::new(alloc);
    let mut items = Vec::new(alloc);
    let kernel = machine.kernel();
    kernel.facts();
    push_half(&mut text, FRONT)?;
    push_head(
        &mut text,
        &mut scratch,
        &mut items,
        terms,
        kernel.services(),
        &shown,
    )?;
    Ok(text)
}

/// Prints the row of a record, between what is shown before it and after it. What was in the texts is lost.
fn print_row<W: Write>(
    text: &mut Vec<u8>,
    scratch: &mut Vec<u8>,
    transition: &Transition,
    before: &Shown,
    after: &Shown,
    out: &mut W,
) -> Result<(), Failure>
    ensures err { IfErr result IsWanting }
    ensures front { IfErr result (λ _. PrintsFront
        (λ front. Appends (W.contents out.old) (W.contents out.new) front)
        (row_text transition.now before.now after.now)) }
    ensures bytes { OnOk result (Appends (W.contents out.old) (W.contents out.new)
        (row_text transition.now before.now after.now)) }
{
    text.clear();
    push_row(text, scratch, transition, before, after)?;
    print_text(text.as_slice(), out)
}

/// Prints the rows of records, up to the first that is refused. `above` records come before them. Answers how many rows
/// stand above the refused one, and why it is refused.
pub(crate) fn print_rows<W: Write>(
    alloc: Global,
    machine: &mut Machine,
    records: &[Record],
    above: u32,
    out: &mut W,
) -> Result<Option<(usize, Refusal)>, Failure>
    requires few { above + length records.now < 2 ^ 32 }
    requires actors { All (λ (x : Noted). x.actor < actors (world_of machine.old)) records.now }
    ensures err { IfErr result IsWanting }
    ensures begun { IfErr result (λ _. AreRowsBegun (world_of machine.old) above records.now
        (λ text. Appends (W.contents out.old) (W.contents out.new) text)) }
    ensures printed { IfOk result (λ refused.
        AreRowsPrinted (world_of machine.old) above records.now refused (λ text.
        Appends (W.contents out.old) (W.contents out.new) text)) }
    ensures few { IfOk result (λ refused. IfSome refused (λ p. p.0 < length records.now)) }
    ensures world { IfOk result (λ refused. refused ≡ None → world_of machine.new
        ≡ world_after_events (world_of machine.old) (events_of_history records.now)) }
{
    let mut text = Vec::new(alloc);
    let mut scratch = Vec::new(alloc);
    let mut transition = resting_transition(machine);
    let mut before = shown_in(alloc, machine)?;
    let mut after = Shown::nothing(alloc);
    for (index, entry) in records.iter().enumerate() {
        let number = above + index as u32 + 1;
        if let Err(refusal) = look_record(machine, number, *entry, &mut transition) {
            return Ok(Some((index, refusal)));
        }
        show(&mut after, machine, &transition.after)?;
        print_row(&mut text, &mut scratch, &transition, &before, &after, out)?;
        mem::swap(&mut before, &mut after);
    }
    Ok(None)
}

/// What stands below the rows.
fn back_text(alloc: Global, rows: u32, refused: Option<&[u8]>) -> Result<Vec<u8>, AllocError>
    ensures { IfOk result (λ text. text.items
        ≡ back_text rows (option_map (λ s. s.now) refused.entry)) }
{
    let mut text = Vec::new(alloc);
    push_tail(&mut text, rows, refused)?;
    push_half(&mut text, BACK)?;
    Ok(text)
}

/// Prints what stands below the rows.
fn print_back<W: Write>(
    alloc: Global,
    rows: u32,
    refused: Option<&[u8]>,
    out: &mut W,
) -> Result<(), Failure>
    ensures err { IfErr result IsWanting }
    ensures front { IfErr result (λ _. PrintsFront
        (λ front. Appends (W.contents out.old) (W.contents out.new) front)
        (back_text rows (option_map (λ s. s.now) refused.entry))) }
    ensures bytes { OnOk result (Appends (W.contents out.old) (W.contents out.new)
        (back_text rows (option_map (λ s. s.now) refused.entry))) }
{
    let text = back_text(alloc, rows, refused)?;
    print_text(text.as_slice(), out)
}

/// The line of the record of this number, which is refused, without its end.
fn refused_line(
    alloc: Global,
    rules: Rules,
    number: usize,
    refusal: Refusal,
) -> Result<Vec<u8>, AllocError>
    requires { number < 2 ^ 32 }
    ensures { IfOk result (λ line. line.items ≡ refused_line rules number refusal) }
{
    let line = refusal_line(alloc, lines_above(rules) + number, refusal)?;
    let shown = line.len().saturating_sub(1);
    let mut text = Vec::new(alloc);
    text.extend_from_slice(&line.as_bytes()[..shown])?;
    Ok(text)
}

/// Prints what stands below the rows, and that the record of this number is refused.
pub(crate) fn print_refused<W: Write>(
    alloc: Global,
    rules: Rules,
    rows: u32,
    number: usize,
    refusal: Refusal,
    out: &mut W,
) -> Result<(), Failure>
    requires { number < 2 ^ 32 }
    ensures err { IfErr result IsWanting }
    ensures front { IfErr result (λ _. PrintsFront
        (λ front. Appends (W.contents out.old) (W.contents out.new) front)
        (back_text rows (Some (refused_line rules number refusal)))) }
    ensures bytes { OnOk result (Appends (W.contents out.old) (W.contents out.new)
        (back_text rows (Some (refused_line rules number refusal)))) }
{
    let line = refused_line(alloc, rules, number, refusal)?;
    print_back(alloc, rows, Some(line.as_slice()), out)
}

/// Prints the page of a history's part, of which `terms.first` records are made. `records` are the others, up to the
/// last row.
fn print_made<W: Write>(
    alloc: Global,
    machine: &mut Machine,
    terms: RunTerms<'_>,
    rules: Rules,
    records: &[Record],
    out: &mut W,
) -> Result<Replayed, Failure>
    requires few { terms.first + length records.now < 2 ^ 32 }
    requires actors { All (λ (x : Noted). x.actor < actors (world_of machine.old)) records.now }
    ensures err { IfErr result IsWanting }
    ensures begun { IfErr result (λ _. IsMadeBegun rules (run_of terms.entry)
        (world_of machine.old) terms.entry.first records.now (λ text.
        Appends (W.contents out.old) (W.contents out.new) text)) }
    ensures printed { IfOk result (λ replayed.
        IsMadePrinted rules (run_of terms.entry) (world_of machine.old) terms.entry.first
        records.now replayed (λ text. Appends (W.contents out.old) (W.contents out.new) text)) }
{
    let front = front_text(alloc, machine, terms)?;
    print_text(front.as_slice(), out)?;
    match print_rows(alloc, machine, records, terms.first, out)? {
        None => {
            print_back(alloc, records.len() as u32, None, out)?;
            Ok(Replayed::Whole)
        }
        Some((rows, refusal)) => {
            let number = terms.first as usize + rows + 1;
            print_refused(alloc, rules, rows as u32, number, refusal, out)?;
            Ok(Replayed::Refused)
        }
    }
}

/// The records that stand in rows, if so many are to be above the first row.
fn records_in_rows(records: &[Record], first: u32) -> &[Record]
    ensures { result.now ≡ drop (length (take first records.entry.now)) records.entry.now }
{
    let above = first_records(records, first);
    &records[above.len()..]
}

/// Prints the page of a history's part. `records` are those up to the last row, and `terms.first` of them are to be
/// above the first one. If one of those is refused, the page shows the machine as it is at boot.
fn print_page<W: Write>(
    alloc: Global,
    machine: &mut Machine,
    terms: RunTerms<'_>,
    records: &[Record],
    out: &mut W,
) -> Result<Replayed, Failure>
    requires few { length records.now < 2 ^ 32 }
    requires actors { All (λ (x : Noted). x.actor < actors (world_of machine.old)) records.now }
    ensures err { IfErr result IsWanting }
    ensures begun { IfErr result (λ _. IsPageBegun
        (λ first. record (run_of terms.entry) { first = first }) (world_of machine.old)
        records.now terms.entry.first (λ text.
        Appends (W.contents out.old) (W.contents out.new) text)) }
    ensures printed { IfOk result (λ replayed.
        IsPagePrinted (λ first. record (run_of terms.entry) { first = first })
        (world_of machine.old) records.now terms.entry.first replayed (λ text.
        Appends (W.contents out.old) (W.contents out.new) text)) }
{
    let rules = machine.rules();
    let at_boot = front_text(alloc, machine, RunTerms { first: 0, ..terms })?;
    let above = first_records(records, terms.first);
    match perform_records(machine, above) {
        Ok(()) => {
            let first = above.len() as u32;
            let rows = records_in_rows(records, terms.first);
            print_made(
                alloc,
                machine,
                RunTerms { first, ..terms },
                rules,
                rows,
                out,
            )
        }
        Err((number, refusal)) => {
            print_text(at_boot.as_slice(), out)?;
            print_refused(alloc, rules, 0, number, refusal, out)?;
            Ok(Replayed::Refused)
        }
    }
}

/// What the page says of a run, of which `first` records are to be above the first row.
fn terms_of<'a>(chosen: HistoryPart<'a>, config: &Config) -> RunTerms<'a>
    ensures first { result.first ≡ chosen.entry.from - 1 }
    ensures run { run_of result ≡ run_of_files chosen.entry.config.now chosen.entry.log.now
        (chosen.entry.from - 1) config.now }
{
    RunTerms {
        config: chosen.config.as_bytes(),
        history: chosen.log.as_bytes(),
        first: chosen.from.saturating_sub(1),
        cpus: u32::from(config.cpus),
        others: u32::from(config.others),
        log: config.log,
        rules: rules_number(config.rules),
    }
}

/// Starts the machine of a saved history, makes its records up to `to`, and prints a document that shows those from
/// record `from` on in a browser. If an event is refused, the document has the records before it, and the line and the
/// refusal. Before a failure a front of this is printed; nothing, if no machine is started.
pub fn page<R: Reader, W: Write>(
    alloc: Global,
    reader: &mut R,
    chosen: HistoryPart<'_>,
    out: &mut W,
) -> Result<Replayed, Failure>
    ensures printed { IfOk result (λ replayed. (qs : List Asked) × (c : Configured)
        × (vs : List Service) × (records : List Noted)
        × (R.asked reader.new ≡ R.asked reader.old ++ qs)
        × IsStart IsSaved chosen.entry.config.now chosen.entry.log.now qs c vs records
        × IsPagePrinted (λ first. run_of_files chosen.entry.config.now chosen.entry.log.now first c)
        (world_at_boot c vs) (take chosen.entry.to records) (chosen.entry.from - 1) replayed (λ text.
        Appends (W.contents out.old) (W.contents out.new) text)) }
    ensures fault { IfErr result (λ f. (qs : List Asked)
        × (R.asked reader.new ≡ R.asked reader.old ++ qs)
        × IsTold IsSaved TellsSaved chosen.entry.config.now chosen.entry.log.now qs f) }
    ensures begun { IfErr result (λ _. PrintsBefore IsSaved chosen.entry.config.now
        chosen.entry.log.now (R.asked reader.old) (R.asked reader.new)
        (λ text. Appends (W.contents out.old) (W.contents out.new) text)
        (λ c vs records. IsPageBegun
        (λ first. run_of_files chosen.entry.config.now chosen.entry.log.now first c)
        (world_at_boot c vs) (take chosen.entry.to records) (chosen.entry.from - 1)
        (λ text. Appends (W.contents out.old) (W.contents out.new) text))) }
{
    let mut started = start::<History, R>(alloc, reader, chosen.config, chosen.log)?;
    let terms = terms_of(chosen, &started.config);
    let records = first_records(started.lines.as_slice(), chosen.to);
    print_page(alloc, &mut started.machine, terms, records, out)
}
