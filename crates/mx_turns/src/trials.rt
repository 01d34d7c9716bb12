//! The trial of a position.

ghost use Rattle.std.specs.Prelude.{◌≡◌, ◌≤◌, ◌++◌, [], IfOk, OnOk, length, map};
ghost use Rattle.std.specs.Str.{bytes_eq};
ghost use Rattle.mx_app_step.specs.Machine.{world_of};
ghost use Rattle.mx_machine.specs.History.{replay};
ghost use Rattle.mx_print_report.specs.declared.doing.Naming.TheVariants as by;
ghost use Rattle.mx_turns.specs.Sweep.{end_text, kept_text, process_lines, run_of, said_text, seen_text, shown};
ghost use Rattle.mx_turns.specs.Findings.{is_full, is_refused, refusal_of};
ghost use Rattle.mx_turns.specs.Swept.{ArePartsOf, HasRun, IsAlong, IsComing, IsPair, IsPlace, IsSwept, IsTrial};

use crate::Ending;
use crate::coming::Coming;
use crate::faulted_run::{Course, Parts, Place, Sweep, parts_of, run_at};
use crate::pairs::{Pair, go_along};
use mx_machine::{Checkpoint, Kernel, Machine, Refusal, Service};
use mx_print_answers::Said;
use mx_print_report::{Naming, push_console, push_count, push_process};
use mx_proc::Table;
use mx_text::next_line;
use mx_word::NoMemory;
use std::alloc::{AllocError, Global};

/// What a position tells of its fault.
#[derive(Clone, Copy)]
pub struct Findings {
    /// Whether the position has the same result without the fault.
    pub is_alike: bool,
    /// Why the fault's first line was refused, if each of its lines was.
    pub refusal: Option<Refusal>,
    /// Whether the turns ended since the history was full.
    pub is_full: bool,
}

/// The trial of a position: the machine there with the one after its run, its lines, and what it tells of the fault.
#[derive(Drop)]
pub struct Trial {
    pub pair: Pair,
    pub text: Vec<u8>,
    pub findings: Findings,
}

/// Appends a line for each answer to a line of a fault.
fn push_said(alloc: Global, text: &mut Vec<u8>, said: &[Said]) -> Result<(), AllocError>
    ensures { OnOk result (text.new.items ≡ text.old.items ++ said_text said.now) }
{
    for answer in said {
        let line = format!(in alloc; "  {answer}\n")?;
        text.extend_from_slice(line.as_bytes())?;
    }
    Ok(())
}

/// Whether two texts are the same, byte for byte.
fn are_same(one: &[u8], other: &[u8]) -> bool
    ensures { result ≡ bytes_eq one.now other.now }
{
    one == other
}

/// Whether turns ended since the history was full.
fn is_full(ending: Ending) -> bool
    ensures { result ≡ is_full ending }
{
    matches!(ending, Ending::Full)
}

/// Whether an answer is a refusal.
fn is_refused(answer: Said) -> bool
    ensures { result ≡ is_refused answer }
{
    matches!(answer, Said::Refused(_))
}

/// Why the first line of a fault was refused, if each of its lines was.
fn refusal_of(said: &[Said]) -> Option<Refusal>
    ensures { result ≡ refusal_of said.now }
{
    for answer in said {
        if !is_refused(*answer) {
            return None;
        }
    }
    match said.first() {
        Some(Said::Refused(refusal)) => Some(*refusal),
        _ => None,
    }
}

/// Appends a line for each service.
#[tactic(auto, using(crate::proofs::LineLemmas::process_lines_more))]
fn push_processes(
    text: &mut Vec<u8>,
    naming: Naming,
    table: &Table,
    services: &[Service],
) -> Result<(), AllocError>
    requires { length services.now ≡ length table.now.slots }
    ensures { OnOk result (text.new.items ≡ text.old.items
        ++ process_lines naming table.now 0 services.now) }
{
    for slot in 0..table.slot_count() {
        text.extend_from_slice(b"  ")?;
        push_process(
            text,
            naming,
            table,
            slot,
            &services[slot as usize].name.bytes,
        )?;
        text.push(b'\n')?;
    }
    Ok(())
}

/// Appends states, ending, and how many bytes were written to the console.
fn push_end(
    text: &mut Vec<u8>,
    naming: Naming,
    kernel: &Kernel,
    ending: Ending,
) -> Result<(), AllocError>
    ensures { OnOk result (text.new.items ≡ text.old.items
        ++ end_text naming (replay kernel.now) ending) }
{
    kernel.facts();
    push_processes(text, naming, kernel.table(), kernel.services())?;
    text.extend_from_slice(b"  ")?;
    text.extend_from_slice(ending.word().as_bytes())?;
    text.push(b'\n')?;
    push_count(
        text,
        b"  console ",
        kernel.table().devices().console.count(),
    )
}

/// A byte of the console as it is printed.
fn printable(byte: u8) -> u8
    ensures { result ≡ shown byte }
{
    if (b' '..=b'~').contains(&byte) {
        byte
    } else {
        b'.'
    }
}

/// Appends bytes as they are printed.
fn push_shown(text: &mut Vec<u8>, bytes: &[u8]) -> Result<(), AllocError>
    ensures { OnOk result (text.new.items ≡ text.old.items ++ map shown bytes.now) }
{
    for byte in bytes {
        text.push(printable(*byte))?;
    }
    Ok(())
}

/// Appends the last bytes of the console, as lines.
pub fn push_kept(text: &mut Vec<u8>, bytes: &[u8]) -> Result<(), AllocError>
    ensures { OnOk result (text.new.items ≡ text.old.items ++ kept_text bytes.now) }
{
    let mut rest = bytes;
    while let Some((line, below)) = next_line(rest) {
        text.extend_from_slice(b"  > ")?;
        push_shown(text, line)?;
        text.push(b'\n')?;
        rest = below;
    }
    Ok(())
}

/// What is compared of a trial.
#[tactic(auto, unfolding(mx_machine::specs::Machine::world_of))]
fn compared_text(alloc: Global, machine: &Machine, ending: Ending) -> Result<Vec<u8>, AllocError>
    ensures { IfOk result (λ seen. seen.items ≡ end_text by.Slots (world_of machine.now) ending
        ++ (world_of machine.now).table.devices.console.kept) }
{
    let mut seen = Vec::new(alloc);
    push_end(&mut seen, Naming::Slots, machine.kernel(), ending)?;
    push_console(&mut seen, &machine.kernel().table().devices().console)?;
    Ok(seen)
}

/// Appends the lines of a trial.
#[tactic(auto, unfolding(mx_machine::specs::Machine::world_of))]
fn push_trial(
    alloc: Global,
    text: &mut Vec<u8>,
    machine: &Machine,
    course: &Course,
) -> Result<(), AllocError>
    ensures { OnOk result (let w = world_of machine.now in text.new.items ≡ text.old.items
        ++ said_text course.now.said.items ++ end_text by.Endpoints w course.now.ending
        ++ kept_text w.table.devices.console.kept) }
{
    let mut kept = Vec::new(alloc);
    push_console(&mut kept, &machine.kernel().table().devices().console)?;
    push_said(alloc, text, course.said.as_slice())?;
    push_end(text, Naming::Endpoints, machine.kernel(), course.ending)?;
    push_kept(text, kept.as_slice())
}

/// Makes the run of a position, as `run_at` does, and answers what is compared of its trial too.
fn compared_at(
    alloc: Global,
    place: Place<'_>,
    parts: Parts,
    sweep: Sweep<'_>,
) -> Result<(Machine, Course, Vec<u8>), NoMemory>
    requires place { IsPlace sweep.records.now place }
    requires parts { ArePartsOf place.along.now parts }
    requires swept { IsSwept sweep place.along.now.kernel.boot }
    ensures run { IfOk result (λ done. let run = run_of place.entry.along.now.kernel.boot
        sweep.entry.other sweep.entry.records.now sweep.entry.bound sweep.entry.fault.now
        place.entry.position in HasRun run done.0 done.1 × (done.2.items ≡ seen_text run)) }
    ensures boot { IfOk result (λ done.
        done.0.kernel.boot ≡ place.entry.along.now.kernel.boot) }
{
    let (machine, course) = run_at(alloc, place, parts, sweep)?;
    let seen = compared_text(alloc, &machine, course.ending)?;
    Ok((machine, course, seen))
}

/// The trial of the position that a machine has gone to: without the fault first, and then with it. Takes memory for
/// copies of the machine.
fn trial_here(
    alloc: Global,
    along: Machine,
    coming: Coming,
    parts: Parts,
    sweep: Sweep<'_>,
    position: usize,
) -> Result<Trial, NoMemory>
    requires swept { IsSwept sweep along.kernel.boot }
    requires along { IsAlong sweep.records.now position along }
    requires coming { IsComing sweep.records.now position coming }
    requires parts { ArePartsOf along parts }
    requires position { position ≤ length sweep.records.now }
    ensures { IfOk result (λ done. IsTrial sweep.entry along.kernel.boot position done) }
{
    let checkpoint = Checkpoint::new(alloc, &along)?;
    let place = Place {
        position,
        along: &along,
        checkpoint: &checkpoint,
        events: coming.left(),
    };
    let unharmed = Sweep {
        fault: &[],
        ..sweep
    };
    let (copy, _, without) = compared_at(alloc, place, parts, unharmed)?;
    let parts = parts_of(copy, along.kernel().history().len());
    let (copy, course, with) = compared_at(alloc, place, parts, sweep)?;
    let mut text = Vec::new(alloc);
    push_trial(alloc, &mut text, &copy, &course)?;
    let findings = Findings {
        is_alike: are_same(with.as_slice(), without.as_slice()),
        refusal: refusal_of(course.said.as_slice()),
        is_full: is_full(course.ending),
    };
    let pair = Pair {
        along,
        position,
        coming,
        copy,
    };
    Ok(Trial {
        pair,
        text,
        findings,
    })
}

/// The trial of a position of a history, which isn't before the pair's. Takes memory for copies of the machine at the
/// position.
pub fn trial_at(
    alloc: Global,
    pair: Pair,
    sweep: Sweep<'_>,
    position: usize,
) -> Result<Trial, NoMemory>
    requires swept { IsSwept sweep pair.along.kernel.boot }
    requires pair { IsPair sweep.records.now pair }
    requires later { pair.position ≤ position }
    requires position { position ≤ length sweep.records.now }
    ensures { IfOk result (λ done. IsTrial sweep.entry pair.along.kernel.boot position done) }
{
    let Pair {
        mut along,
        position: from,
        mut coming,
        copy,
    } = pair;
    let parts = parts_of(copy, along.kernel().history().len());
    go_along(&mut along, sweep, from, position);
    coming.pass(&sweep.records[from..position]);
    trial_here(alloc, along, coming, parts, sweep, position)
}
