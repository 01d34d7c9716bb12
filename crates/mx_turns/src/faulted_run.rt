//! A run with a fault at a position of a history.

ghost use Rattle.std.specs.Prelude.{◌≡◌, ◌<◌, IfOk, OnOk, length, take};
ghost use Rattle.mx_app_step.specs.Machine.{world_of};
ghost use Rattle.mx_machine.specs.World.{actors};
ghost use Rattle.mx_turns.specs.Faults.{faults_kept, faults_made};
ghost use Rattle.mx_turns.specs.Sweep.{run_from, run_of};
ghost use Rattle.mx_turns.specs.Swept.{ArePartsOf, HasRun, IsPlace, IsSwept};

use crate::faults::{FaultLine, perform_fault_line};
use crate::outside::OutsideLine;
use crate::{Ending, Outside, make_turns};
use mx_app_start::NoProgress;
use mx_machine::{Checkpoint, Config, Machine, Record, Service};
use mx_print_answers::Said;
use mx_word::NoMemory;
use std::alloc::{AllocError, Global};

/// Positions of a history: the first, and the one after the last.
#[derive(Clone, Copy)]
pub struct Range {
    pub from: usize,
    pub end: usize,
}

/// What is swept: the history of a machine of this configuration, with a fault at each of these positions, and
/// then at most `bound` turns.
#[derive(Clone, Copy)]
pub struct Sweep<'a> {
    pub config: &'a Config,
    /// The first actor that is no processor.
    pub other: u8,
    pub records: &'a [Record],
    pub fault: &'a [FaultLine],
    pub range: Range,
    pub bound: u32,
}

/// Does what the lines of a fault say, and answers what is said of each.
fn perform_fault(
    alloc: Global,
    machine: &mut Machine,
    other: u8,
    fault: &[FaultLine],
) -> Result<Vec<Said>, AllocError>
    requires { other < actors (world_of machine.old) }
    ensures said { IfOk result (λ said. said.items
        ≡ (faults_made (world_of machine.old) other fault.now).0) }
    ensures world { OnOk result (world_of machine.new
        ≡ (faults_made (world_of machine.old) other fault.now).1) }
    ensures kept { OnOk result (machine.new.kernel
        ≡ faults_kept machine.old.kernel (world_of machine.old) other fault.now) }
    ensures actors { actors (world_of machine.new) ≡ actors (world_of machine.old) }
    ensures cpus { length (world_of machine.new).cpus ≡ length (world_of machine.old).cpus }
{
    let mut said = Vec::new(alloc);
    for line in fault {
        let answer = perform_fault_line(machine, other, *line);
        said.push(answer)?;
    }
    Ok(said)
}

/// A run with a fault, besides its machine: what is said of the fault's lines, and how the turns after them ended.
#[derive(Drop)]
pub(crate) struct Course {
    pub said: Vec<Said>,
    pub ending: Ending,
}

/// Does what the lines of a sweep's fault say, and makes turns, with these outside events to come.
fn run_on(
    alloc: Global,
    machine: &mut Machine,
    sweep: Sweep<'_>,
    events: &[OutsideLine],
) -> Result<Course, AllocError>
    requires other { sweep.other < actors (world_of machine.old) }
    requires alone { length (world_of machine.old).cpus < actors (world_of machine.old) }
    ensures run { IfOk result (λ course. HasRun (run_from machine.old.kernel
        (world_of machine.old) sweep.entry.other events.now sweep.entry.bound sweep.entry.fault.now)
        machine.new course) }
{
    let said = perform_fault(alloc, machine, sweep.other, sweep.fault)?;
    let outside = Outside { events, ticks: 0 };
    let bound = u64::from(sweep.bound);
    let log = sweep.config.log as usize;
    // A sweep shows its positions, and not their turns.
    let ending = make_turns(machine, outside, bound, log, &mut NoProgress::new());
    Ok(Course { said, ending })
}

/// A position of a history: a machine that is there, a checkpoint of it, and the lines and the ticks of the records after
/// it. The position is named for clauses alone.
#[derive(Clone, Copy)]
pub(crate) struct Place<'a> {
    pub position: usize,
    pub along: &'a Machine,
    pub checkpoint: &'a Checkpoint,
    pub events: &'a [OutsideLine],
}

/// What a machine is made with again: its services, and the first records of its history.
#[derive(Drop)]
pub(crate) struct Parts {
    pub services: Vec<Service>,
    pub records: Vec<Record>,
}

/// The parts of a machine, with so many of its records. Takes no memory.
pub(crate) fn parts_of(machine: Machine, first: usize) -> Parts
    ensures services { result.services.items ≡ machine.kernel.boot.services }
    ensures records { result.records.items ≡ take first machine.kernel.history }
{
    let (services, mut records) = machine.into_kernel().into_parts();
    records.truncate(first);
    Parts { services, records }
}

/// Makes the machine of a place's checkpoint, does what the fault's lines say, and makes turns, with the lines and the
/// ticks of the other records to come. Answers the machine, and how it ran.
pub(crate) fn run_at(
    alloc: Global,
    place: Place<'_>,
    parts: Parts,
    sweep: Sweep<'_>,
) -> Result<(Machine, Course), NoMemory>
    requires place { IsPlace sweep.records.now place }
    requires parts { ArePartsOf place.along.now parts }
    requires swept { IsSwept sweep place.along.now.kernel.boot }
    ensures run { IfOk result (λ done. HasRun (run_of place.entry.along.now.kernel.boot
        sweep.entry.other sweep.entry.records.now sweep.entry.bound sweep.entry.fault.now
        place.entry.position) done.0 done.1) }
    ensures boot { IfOk result (λ done.
        done.0.kernel.boot ≡ place.entry.along.now.kernel.boot) }
{
    let Parts {
        services,
        mut records,
    } = parts;
    let history = place.along.kernel().history();
    let made = records.len();
    records.extend_from_slice(&history[made..])?;
    let mut machine = place.checkpoint.machine(alloc, services, records)?;
    let course = run_on(alloc, &mut machine, sweep, place.events)?;
    Ok((machine, course))
}
