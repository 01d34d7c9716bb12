//! A machine that one thread drives in turns.

ghost use Rattle.std.specs.Prelude.{◌≡◌, ◌<◌, ◌≤◌, ◌++◌, ◌∷◌, [], List, None, IfErr, IfOk, OnOk, false, length, option_map, ℕ};
ghost use Rattle.std.specs.Io.KnownBytes.{Appends};
ghost use Rattle.mx_machine.specs.Machine.{world_of};
ghost use Rattle.mx_machine.specs.Boot.{world_at_boot};
ghost use Rattle.mx_machine.specs.Service.{Service};
ghost use Rattle.mx_machine.specs.World.{actors};
ghost use Rattle.mx_walk.specs.declared.progress.Part.{Part as Parts};
ghost use Rattle.mx_machine.specs.declared.config.Config.{Config as Configured};
ghost use Rattle.mx_app_step.specs.Asked.{Asked};
ghost use Rattle.mx_machine.specs.History.{replay};
ghost use Rattle.mx_app_step.specs.Kept.{IsUnreported, text_kept};
ghost use Rattle.mx_app_step.specs.Report.{report_text};
ghost use Rattle.mx_app_step.specs.Written.{Written, kept};
ghost use Rattle.mx_turns.specs.Made.{HasMade, outside_events};
ghost use Rattle.mx_turns.specs.Shown.{turns_shown};
ghost use Rattle.mx_turns.specs.Turns.{turns};
ghost use Rattle.mx_app_turns.specs.Turned.{AreSome, IsBegun, IsNotBegun, IsTurnedTo, MakesTurns, coming};

use crate::event_files::OutsideEvents;
use mx_app_failure::Failure;
use mx_app_start::{Channels, FileWriter, Reader, StopSign, setup_of, spare_programs, start};
use mx_app_step::{print_kernel_report, write_history};
use mx_machine::{Config, Kernel, Machine};
use mx_turns::{Ending, Outside, OutsideLine, make_turns};
use mx_walk::{Progress, boot};
use std::alloc::Global;
use std::io::Write;

/// The names of the files: that of the configuration, which is read, that of the history, which is written,
/// and that of outside events, which is read too, if it is named.
#[derive(Clone, Copy)]
pub struct TurnsNames<'a> {
    pub config: &'a str,
    pub log: &'a str,
    pub events: Option<&'a str>,
}

/// How many ticks are to come after the events of the file, and the most turns.
#[derive(Clone, Copy)]
pub struct TurnsWanted {
    pub ticks: u32,
    pub bound: u32,
}

/// How turns ended, and whether they were stopped before.
#[derive(Clone, Copy, Debug, PartialEq, Eq)]
pub struct TurnsEnd {
    pub ending: Ending,
    pub is_stopped: bool,
}

/// How many turns are made between two looks at what stops them: a few milliseconds at most.
const BETWEEN_LOOKS: u64 = 16;

/// Makes turns, at most so many, until what stops them is up. Answers how they ended.
fn make_turns_watched<S: StopSign, P: Progress>(
    machine: &mut Machine,
    outside: Outside<'_>,
    bound: u64,
    log: usize,
    sign: &S,
    progress: &mut P,
) -> TurnsEnd
    requires { length (world_of machine.old).cpus < actors (world_of machine.old) }
    ensures { (made : ℕ) × AreSome (S.can_stop sign.now) bound result made
        × HasMade machine.old
        (turns made (world_of machine.old) (outside_events outside.entry)).made machine.new
        × (result.ending
        ≡ (turns made (world_of machine.old) (outside_events outside.entry)).ending)
        × (P.shown progress.new ≡ P.shown progress.old
        ++ turns_shown log made (world_of machine.old) (outside_events outside.entry)) }
{
    let mut made = 0;
    while bound - made > BETWEEN_LOOKS {
        let ending = make_turns(machine, outside.after(made), BETWEEN_LOOKS, log, progress);
        made += BETWEEN_LOOKS;
        let Ending::Turns = ending else {
            return TurnsEnd {
                ending,
                is_stopped: false,
            };
        };
        if sign.is_up() {
            return TurnsEnd {
                ending,
                is_stopped: true,
            };
        }
    }
    TurnsEnd {
        ending: make_turns(machine, outside.after(made), bound - made, log, progress),
        is_stopped: false,
    }
}

/// A machine at boot, the configuration that it booted by, and the outside events of a file. The
/// machine has an actor that is no processor.
#[derive(Drop)]
pub struct TurnsBegun {
    pub config: Config,
    pub machine: Machine,
    pub events: Vec<OutsideLine>,
}

/// The machine of a configuration that no file of outside events drives.
fn begin_alone<R: Reader>(alloc: Global, reader: &mut R, name: &str) -> Result<TurnsBegun, Failure>
    ensures begun { IfOk result (λ b. (qs : List Asked) × (c : Configured) × (vs : List Service)
        × (R.asked reader.new ≡ R.asked reader.old ++ qs)
        × IsBegun name.now None qs c vs b.events.items
        × (world_of b.machine ≡ world_at_boot c vs) × (b.config ≡ c)) }
    ensures kernel { IfOk result (λ b. b.machine.kernel
        ≡ record { boot = world_of b.machine; history = [] }) }
    ensures other { IfOk result (λ b. length (world_of b.machine).cpus
        < actors (world_of b.machine)) }
    ensures fault { IfErr result (λ f. (qs : List Asked)
        × (R.asked reader.new ≡ R.asked reader.old ++ qs) × IsNotBegun name.now None qs f) }
{
    let (config, services) = setup_of(alloc, reader, name)?;
    let machine = boot(alloc, &config, services)?;
    Ok(TurnsBegun {
        config,
        machine,
        events: Vec::new(alloc),
    })
}

/// Boots the machine of a configuration, after the file of outside events is read, if one is named.
pub fn begin_turns<R: Reader>(
    alloc: Global,
    reader: &mut R,
    name: &str,
    events: Option<&str>,
) -> Result<TurnsBegun, Failure>
    ensures begun { IfOk result (λ b. (qs : List Asked) × (c : Configured) × (vs : List Service)
        × (R.asked reader.new ≡ R.asked reader.old ++ qs)
        × IsBegun name.entry.now (option_map (λ s. s.now) events.entry) qs c vs b.events.items
        × (world_of b.machine ≡ world_at_boot c vs) × (b.config ≡ c)) }
    ensures kernel { IfOk result (λ b. b.machine.kernel
        ≡ record { boot = world_of b.machine; history = [] }) }
    ensures other { IfOk result (λ b. length (world_of b.machine).cpus
        < actors (world_of b.machine)) }
    ensures fault { IfErr result (λ f. (qs : List Asked)
        × (R.asked reader.new ≡ R.asked reader.old ++ qs)
        × IsNotBegun name.entry.now (option_map (λ s. s.now) events.entry) qs f) }
{
    match events {
        None => begin_alone(alloc, reader, name),
        Some(file) => {
            let started = start::<OutsideEvents, R>(alloc, reader, name, file)?;
            Ok(TurnsBegun {
                config: started.config,
                machine: started.machine,
                events: started.lines,
            })
        }
    }
}

/// Makes the turns of a machine that was begun, with its outside events and then ticks to come. Answers how they
/// ended.
fn drive<S: StopSign, P: Progress>(
    begun: &mut TurnsBegun,
    wanted: TurnsWanted,
    sign: &S,
    progress: &mut P,
) -> TurnsEnd
    requires kernel { begun.old.machine.kernel
        ≡ record { boot = world_of begun.old.machine; history = [] } }
    requires other { length (world_of begun.old.machine).cpus
        < actors (world_of begun.old.machine) }
    ensures { (vs : List Service)
        → world_of begun.old.machine ≡ world_at_boot begun.old.config vs
        → (ps : List Parts) × (P.shown progress.new ≡ P.shown progress.old ++ ps)
        × IsTurnedTo (S.can_stop sign.now) begun.old.config vs wanted.bound
        (coming begun.old.events.items wanted.ticks) begun.new.machine.kernel result ps }
{
    let outside = Outside {
        events: begun.events.as_slice(),
        ticks: wanted.ticks,
    };
    let log = begun.config.log as usize;
    let bound = u64::from(wanted.bound);
    let end = make_turns_watched(&mut begun.machine, outside, bound, log, sign, progress);
    progress.clear();
    begun.machine.kernel().facts();
    end
}

/// Writes the history of a kernel to a file, and prints the report.
fn save_and_report<R: Drop, F: FileWriter + Drop, W: Write + Drop>(
    alloc: Global,
    channels: &mut Channels<R, F, W>,
    kernel: &Kernel,
    log: &str,
) -> Result<(), Failure>
    ensures reader { channels.new.reader ≡ channels.old.reader }
    ensures saved { OnOk result ((F.written channels.new.files ≡ F.written channels.old.files
        ++ kept log.now (text_kept kernel.now) ∷ [])
        × Appends (W.contents channels.old.out) (W.contents channels.new.out)
        (report_text (replay kernel.now).table (replay kernel.now).services)) }
    ensures unsaved { IfErr result (λ f. (ws : List Written)
        × (F.written channels.new.files ≡ F.written channels.old.files ++ ws)
        × IsUnreported log.now (text_kept kernel.now) ws
        (λ text. Appends (W.contents channels.old.out) (W.contents channels.new.out) text) f) }
{
    write_history(alloc, kernel, &mut channels.files, log)?;
    print_kernel_report(alloc, kernel, &mut channels.out)
}

/// Makes turns of the machine of a configuration, with the outside events of a file and then ticks to come,
/// until it is at rest and none is to come, or all turns are made, or its history is full, or `sign` is up. Then writes
/// the history to a file, and prints the report. Answers how the turns ended. If LOG has the name of a service's
/// program, no turn is made and nothing is written. After each turn `progress` is shown how many records the history
/// has.
pub fn turns<R: Reader + Drop, F: FileWriter + Drop, W: Write + Drop, S: StopSign, P: Progress>(
    alloc: Global,
    channels: &mut Channels<R, F, W>,
    names: TurnsNames<'_>,
    wanted: TurnsWanted,
    sign: &S,
    progress: &mut P,
) -> Result<TurnsEnd, Failure>
    ensures { (qs : List Asked) × (ws : List Written) × (ps : List Parts)
        × (R.asked channels.new.reader ≡ R.asked channels.old.reader ++ qs)
        × (F.written channels.new.files ≡ F.written channels.old.files ++ ws)
        × (P.shown progress.new ≡ P.shown progress.old ++ ps)
        × MakesTurns (S.can_stop sign.now) names.entry.config.now (option_map (λ s. s.now) names.entry.events)
        names.entry.log.now wanted.ticks wanted.bound qs ws ps
        (λ text. Appends (W.contents channels.old.out) (W.contents channels.new.out) text) result }
{
    let mut begun = begin_turns(alloc, &mut channels.reader, names.config, names.events)?;
    spare_programs(&begun.config, names.log)?;
    let end = drive(&mut begun, wanted, sign, progress);
    save_and_report(alloc, channels, begun.machine.kernel(), names.log)?;
    Ok(end)
}
