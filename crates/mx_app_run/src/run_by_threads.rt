//! `mx run`: boots a machine, drives it by threads, saves its history and prints its report.

ghost use Rattle.std.specs.Prelude.{◌≡◌, ◌<◌, ◌≤◌, ◌++◌, ◌∷◌, [], List, All, IfErr, IfOk, None, is_some, length, option_map};
ghost use Rattle.std.specs.Io.KnownBytes.{Appends};
ghost use Rattle.mx_machine.specs.History.{replay};
ghost use Rattle.mx_app_step.specs.Asked.{Asked};
ghost use Rattle.mx_app_step.specs.Kept.{text_kept};
ghost use Rattle.mx_app_step.specs.Report.{report_text};
ghost use Rattle.mx_app_step.specs.Written.{Written};
ghost use Rattle.mx_cpus.specs.Outsiders.{AreDrivenWith, AreServedWith, AreWholeWith};
ghost use Rattle.mx_app_run.specs.Shows.{shows};
ghost use Rattle.mx_app_run.specs.Calls.{AreCallsGiven, IsCallsFault};
ghost use Rattle.mx_app_run.specs.Run.{ComesTo, EndsDriven, IsCalled, IsNotCalled, IsRun, ReportsRun, Runs, has_rested, is_full, run_ending};

use crate::gate::{RunGate, RunPlan, is_full_at};
use crate::outside_files::{outside_calls, ticks_of};
use mx_app_failure::{About, Failure};
use mx_app_start::{
    Channels, FileWriter, Reader, SharedProgress, setup_of, spare_programs, text_of,
};
use mx_app_step::{print_kernel_report, write_history};
use mx_cpus::{ActorSeat, Blank, Naming, Outside, OutsideCall, Shared, boot, drive_with};
use mx_machine::{Config, Kernel, Service};
use mx_walk::Progress;
use mx_word::NoMemory;
use std::alloc::Global;
use std::io::Write;
use std::marker::Brand;
use std::rt::Files;
use std::sync::Wait;
use std::thread::Threads;
use std::time::Clock;

/// How a run ended.
#[derive(Clone, Copy, Debug, PartialEq, Eq)]
pub enum RunEnding {
    /// The machine is at rest after all ticks and calls.
    Rest,
    /// The history has no room for the next event.
    Full,
    /// Neither: the gate ended the loops before.
    Stopped,
}

/// Where a machine runs: the threads and the clock, the memory, and what shows how far it is.
#[derive(Clone, Copy)]
struct RunPlace<'a, T, P> {
    rt: &'a T,
    alloc: Global,
    progress: &'a P,
    /// The file that stops the run once it is there, if one is named.
    stop: Option<&'a str>,
}

/// Runs the loops of a machine's seats by the gate of a run. The seats after that, and whether all calls were made, if
/// there was memory for all threads. The gate looks for the file that stops the run from other threads than this one,
/// so what the runtime has of files may go to another thread.
fn drive_seats<
    M: Naming + Send + Sync,
    T: Threads + Wait + Clock + Files + Sync,
    P: SharedProgress + Sync,
>(
    place: &RunPlace<'_, T, P>,
    shared: &Shared<M>,
    seats: Vec<ActorSeat>,
    log: u32,
    outside: Outside<'_>,
) -> Result<(Vec<ActorSeat>, bool), NoMemory>
where
    T::File: Send,
    T::Dir: Send,
    requires tables { All (λ s. s.table ≡ M.table) seats.items }
    requires empties { All (λ s. s.held ≡ None) seats.items }
    ensures driven { IfOk result (λ v. AreDrivenWith (length M.boot.cpus) outside.entry.ticks
        outside.entry.calls.now seats.items v.0.items) }
    ensures served { IfOk result (λ v. AreServedWith M.boot
        (shows (P.was_shown place.now.progress.now) log (is_some place.now.stop))
        (length M.boot.cpus)
        outside.entry.ticks outside.entry.calls.now seats.items v.0.items) }
    ensures whole { IfOk result (λ v. AreWholeWith M.boot
        (shows (P.was_shown place.now.progress.now) log (is_some place.now.stop))
        (length M.boot.cpus)
        outside.entry.calls.now seats.items v.0.items v.1) }
    ensures tables { IfOk result (λ v. All (λ s. s.table ≡ M.table) v.0.items) }
{
    let plan = RunPlan::new(shared.cpus(), outside, log as usize, place.stop);
    let gate = RunGate::new(place.rt, place.progress, plan);
    drive_with(place.rt, shared, seats, &gate, outside)
}

/// Drives a machine that was just booted, until it is at rest after its ticks and calls, or its history is full.
fn drive_blank<
    M: Naming + Send + Sync,
    T: Threads + Wait + Clock + Files + Sync,
    P: SharedProgress + Sync,
>(
    place: &RunPlace<'_, T, P>,
    blank: Blank,
    seats: Vec<ActorSeat>,
    log: u32,
    outside: Outside<'_>,
) -> Result<(Kernel, bool), NoMemory>
where
    T::File: Send,
    T::Dir: Send,
    requires table { blank.table ≡ M.table }
    requires boot { blank.boot ≡ M.boot }
    requires tables { All (λ s. s.table ≡ M.table) seats.items }
    requires empties { All (λ s. s.held ≡ None) seats.items }
    ensures boot { IfOk result (λ r. r.0.boot ≡ blank.boot) }
    ensures driven { IfOk result (λ r.
        EndsDriven blank.boot (shows (P.was_shown place.now.progress.now) log (is_some place.now.stop))
        (length blank.boot.cpus) outside.entry.ticks outside.entry.calls.now
        r.1 seats.items r.0.history) }
{
    let shared: Shared<M> = blank.open();
    match drive_seats(place, &shared, seats, log, outside) {
        Ok((seats, whole)) => Ok((shared.into_kernel(seats), whole)),
        Err(NoMemory) => {
            // What is shared can't be dropped: it ends as a kernel.
            let _kernel = shared.into_kernel(Vec::new(place.alloc));
            Err(NoMemory)
        }
    }
}

/// Boots the machine of a configuration and its services, and drives it.
fn run_machine<T: Threads + Wait + Clock + Files + Sync, P: SharedProgress + Sync>(
    place: &RunPlace<'_, T, P>,
    config: &Config,
    mut services: Vec<Service>,
    outside: Outside<'_>,
) -> Result<(Kernel, bool), NoMemory>
where
    T::File: Send,
    T::Dir: Send,
    requires some { 0 < length services.items }
    requires few { length services.items ≤ 32 }
    ensures { IfOk result (λ r. IsRun (P.was_shown place.now.progress.now) (is_some place.now.stop)
        config.entry.now services.items outside.entry.ticks
        outside.entry.calls.now r.1 r.0) }
{
    let (blank, seats) = boot(place.alloc, config, &mut services)?;
    let (kernel, whole) = drive_blank::<Brand, T, P>(place, blank, seats, config.log, outside)?;
    kernel.facts();
    Ok((kernel, whole))
}

/// Whether the machine is at rest, and as many ticks were made as were asked for.
fn has_rested(kernel: &Kernel, outside: Outside<'_>) -> bool
    ensures { result ≡ has_rested outside.entry.ticks outside.entry.calls.now kernel.now }
{
    let Outside { ticks, calls } = outside;
    let wanted = u128::from(ticks) + ticks_of(calls) as u128;
    kernel.at_rest() && u128::from(kernel.table().uptime()) == wanted
}

/// Whether fewer records are free than the two that a turn needs.
fn is_full(kernel: &Kernel, log: u32) -> bool
    ensures { result ≡ is_full log kernel.now }
{
    is_full_at(log as usize, kernel.history().len())
}

/// How a run ended: at rest after all ticks and calls, or with a full history, or stopped before.
fn ending_of(kernel: &Kernel, log: u32, outside: Outside<'_>, whole: bool) -> RunEnding
    ensures { result
        ≡ run_ending log outside.entry.ticks outside.entry.calls.now whole kernel.now }
{
    if whole && has_rested(kernel, outside) {
        RunEnding::Rest
    } else if is_full(kernel, log) {
        RunEnding::Full
    } else {
        RunEnding::Stopped
    }
}

/// The names of a run's files: that of its configuration, which is read, that of its history, which is
/// written, and that of outside events, which is read too, if it is named. And how many ticks it makes.
#[derive(Clone, Copy)]
pub struct RunWanted<'a> {
    pub config: &'a str,
    pub log: &'a str,
    pub events: Option<&'a str>,
    pub ticks: u32,
    /// The file that stops it once it is there, if one is named.
    pub stop: Option<&'a str>,
}

/// What a run's files say: the configuration, its services, and the outsider's calls.
#[derive(Drop)]
struct Begun {
    config: Config,
    services: Vec<Service>,
    calls: Vec<OutsideCall>,
}

/// The calls of a file of outside events, for a machine of this configuration.
fn calls_of<R: Reader>(
    alloc: Global,
    reader: &mut R,
    name: &str,
    config: &Config,
) -> Result<Vec<OutsideCall>, Failure>
    ensures calls { IfOk result (λ calls. (q : Asked)
        × (R.asked reader.new ≡ R.asked reader.old ++ q ∷ [])
        × AreCallsGiven name.now q config.now calls.items) }
    ensures fault { IfErr result (λ f. (q : Asked)
        × (R.asked reader.new ≡ R.asked reader.old ++ q ∷ []) × IsCallsFault name.now q config.now f) }
{
    let text = text_of(alloc, reader, name, About::Course)?;
    match outside_calls(alloc, text.as_str(), config) {
        Ok(calls) => Ok(calls),
        Err(error) => Err(Failure::misstated(error, About::Course, text)),
    }
}

/// Reads a configuration, the programs of its services, and the file of outside events, if one is named.
fn begin<R: Reader>(
    alloc: Global,
    reader: &mut R,
    config: &str,
    events: Option<&str>,
) -> Result<Begun, Failure>
    ensures begun { IfOk result (λ b. (qs : List Asked)
        × (R.asked reader.new ≡ R.asked reader.old ++ qs)
        × IsCalled config.entry.now (option_map (λ s. s.now) events.entry) qs
        b.config b.services.items b.calls.items) }
    ensures fault { IfErr result (λ f. (qs : List Asked)
        × (R.asked reader.new ≡ R.asked reader.old ++ qs)
        × IsNotCalled config.entry.now (option_map (λ s. s.now) events.entry) qs f) }
{
    let (config, services) = setup_of(alloc, reader, config)?;
    match events {
        None => Ok(Begun {
            config,
            services,
            calls: Vec::new(alloc),
        }),
        Some(name) => {
            let calls = calls_of(alloc, reader, name, &config)?;
            Ok(Begun {
                config,
                services,
                calls,
            })
        }
    }
}

/// Writes the history of a run to the file `log`, prints the report, and answers how the run ended. If memory runs out
/// for the report, the history is written already.
fn report_run<R: Drop, F: FileWriter + Drop, W: Write + Drop>(
    alloc: Global,
    channels: &mut Channels<R, F, W>,
    log: &str,
    kernel: &Kernel,
    ending: RunEnding,
) -> Result<RunEnding, Failure>
    ensures reader { channels.new.reader ≡ channels.old.reader }
    ensures reported { (ws : List Written)
        × (F.written channels.new.files ≡ F.written channels.old.files ++ ws)
        × ReportsRun log.now (text_kept kernel.now) (report_text (replay kernel.now).table
        (replay kernel.now).services) ws (λ text. Appends (W.contents channels.old.out)
        (W.contents channels.new.out) text) ending result }
{
    write_history(alloc, kernel, &mut channels.files, log)?;
    print_kernel_report(alloc, kernel, &mut channels.out)?;
    Ok(ending)
}

/// Boots the machine of what was read, and drives it. The kernel after that, how the run ended, and whether all calls
/// were made.
fn drive_begun<T: Threads + Wait + Clock + Files + Sync, P: SharedProgress + Sync>(
    place: &RunPlace<'_, T, P>,
    begun: Begun,
    ticks: u32,
) -> Result<(Kernel, RunEnding, bool), NoMemory>
where
    T::File: Send,
    T::Dir: Send,
    requires some { 0 < length begun.services.items }
    requires few { length begun.services.items ≤ 32 }
    ensures run { IfOk result (λ r. IsRun (P.was_shown place.now.progress.now) (is_some place.now.stop)
        begun.config begun.services.items ticks
        begun.calls.items r.2 r.0) }
    ensures ending { IfOk result (λ r. r.1
        ≡ run_ending begun.config.log ticks begun.calls.items r.2 r.0) }
{
    let Begun {
        config,
        services,
        calls,
    } = begun;
    let outside = Outside {
        ticks,
        calls: calls.as_slice(),
    };
    let (kernel, whole) = run_machine(place, &config, services, outside)?;
    let ending = ending_of(&kernel, config.log, outside, whole);
    Ok((kernel, ending, whole))
}

/// Runs the machine of what was read, writes its history, prints the report, and answers how the run ended.
fn run_begun<
    T: Threads + Wait + Clock + Files + Sync,
    R: Drop,
    F: FileWriter + Drop,
    W: Write + Drop,
    P: Progress + SharedProgress + Sync,
>(
    rt: &T,
    alloc: Global,
    channels: &mut Channels<R, F, W>,
    wanted: RunWanted<'_>,
    begun: Begun,
    progress: &mut P,
) -> Result<RunEnding, Failure>
where
    T::File: Send,
    T::Dir: Send,
    requires some { 0 < length begun.services.items }
    requires few { length begun.services.items ≤ 32 }
    ensures reader { channels.new.reader ≡ channels.old.reader }
    ensures reported { (ws : List Written)
        × (F.written channels.new.files ≡ F.written channels.old.files ++ ws)
        × ComesTo (P.was_shown progress.old) (is_some wanted.entry.stop)
        begun.config begun.services.items begun.calls.items wanted.entry.log.now
        wanted.entry.ticks ws (λ text. Appends (W.contents channels.old.out)
        (W.contents channels.new.out) text) result }
    ensures shown { P.shown progress.new ≡ P.shown progress.old }
{
    let place = RunPlace {
        rt,
        alloc,
        progress: &*progress,
        stop: wanted.stop,
    };
    let (kernel, ending, _whole) = drive_begun(&place, begun, wanted.ticks)?;
    progress.clear();
    report_run(alloc, channels, wanted.log, &kernel, ending)
}

/// Runs the machine of a configuration, each processor in a thread of its own, until it is at rest
/// after all ticks and the outside events of a file, or its history is full, or the file that stops it is there, and
/// answers which. Then writes the history
/// to a file, and prints the report. No file that is read is written over: if LOG has the name of CONFIG or
/// EVENTS, nothing is read or written. If it has that of a service's program, nothing is run or written. While it runs,
/// its threads show `progress` how many records the history has.
pub fn run<
    T: Threads + Wait + Clock + Files + Sync,
    R: Reader + Drop,
    F: FileWriter + Drop,
    W: Write + Drop,
    P: Progress + SharedProgress + Sync,
>(
    rt: &T,
    alloc: Global,
    channels: &mut Channels<R, F, W>,
    wanted: RunWanted<'_>,
    progress: &mut P,
) -> Result<RunEnding, Failure>
where
    T::File: Send,
    T::Dir: Send,
    ensures done { (qs : List Asked) × (ws : List Written)
        × (R.asked channels.new.reader ≡ R.asked channels.old.reader ++ qs)
        × (F.written channels.new.files ≡ F.written channels.old.files ++ ws)
        × Runs (P.was_shown progress.old) (is_some wanted.entry.stop)
        wanted.entry.config.now (option_map (λ s. s.now) wanted.entry.events)
        wanted.entry.log.now wanted.entry.ticks qs ws
        (λ text. Appends (W.contents channels.old.out) (W.contents channels.new.out) text) result }
    ensures shown { P.shown progress.new ≡ P.shown progress.old }
{
    let begun = begin(alloc, &mut channels.reader, wanted.config, wanted.events)?;
    // Which files have its programs is known only now.
    spare_programs(&begun.config, wanted.log)?;
    run_begun(rt, alloc, channels, wanted, begun, progress)
}
