//! A machine that somebody sits at, from files' names to the history that is saved.

ghost use Rattle.std.specs.Prelude.{◌≡◌, ◌<◌, ◌++◌, [], List, IfErr, IfOk, length, nat_lt};
ghost use Rattle.std.specs.Io.KnownBytes.{Appends};
ghost use Rattle.mx_machine.specs.Boot.{world_at_boot};
ghost use Rattle.mx_machine.specs.declared.config.Config.{Config as Configured};
ghost use Rattle.mx_machine.specs.Machine.{world_of};
ghost use Rattle.mx_machine.specs.Service.{Service};
ghost use Rattle.mx_machine.specs.World.{actors};
ghost use Rattle.mx_app_step.specs.Asked.{Asked};
ghost use Rattle.mx_app_step.specs.Written.{Written};
ghost use Rattle.mx_app_live.specs.declared.outside.Heard.{Heard as Heards};
ghost use Rattle.mx_app_live.specs.declared.outside.Note.{Note as Notes};
ghost use Rattle.mx_app_live.specs.Living.{IsBooted, IsNotBooted, Lives};
ghost use Rattle.mx_app_live.specs.Session.{first_seat, seat_of};

use crate::outside::{Note, Outside, Sitting};
use crate::session::{Session, SessionEnding, hold_session, records_of};
use mx_app_failure::Failure;
use mx_app_start::{Channels, FileWriter, Reader, setup_of, spare_programs};
use mx_app_step::write_history;
use mx_machine::Machine;
use mx_proc::KEPT_BYTES;
use mx_typist::{Pending, Typist};
use mx_walk::boot;
use mx_word::NoMemory;
use std::alloc::Global;
use std::io::Write;

/// The names of the files: that of the configuration, which is read, and that of the history, which is written.
#[derive(Clone, Copy)]
pub struct LiveNames<'a> {
    pub config: &'a str,
    pub log: &'a str,
}

/// A session that begins at a machine: nothing is typed, and what is written from now on is shown.
#[tactic(auto, unfolding(mx_machine::specs::Machine::world_of))]
fn first_session(alloc: Global, machine: &Machine) -> Result<Session, NoMemory>
    ensures seat { IfOk result (λ s. seat_of (world_of machine.now) s
        ≡ first_seat (world_of machine.now)) }
    ensures shown { IfOk result (λ s. s.shown
        ≡ (world_of machine.now).table.devices.console.count) }
{
    Ok(Session {
        typist: Typist::new(alloc)?,
        pending: Pending::Nothing,
        shown: machine.kernel().table().devices().console.count(),
        is_deaf: false,
        bytes: Vec::with_capacity(alloc, KEPT_BYTES)?,
    })
}

/// The machine of a configuration at boot, if the history doesn't have the name of a service's program. It has an actor
/// that is no processor.
fn begin<R: Reader>(alloc: Global, reader: &mut R, names: LiveNames<'_>) -> Result<Machine, Failure>
    ensures begun { IfOk result (λ m. (qs : List Asked) × (c : Configured) × (vs : List Service)
        × (R.asked reader.new ≡ R.asked reader.old ++ qs)
        × IsBooted names.entry.config.now names.entry.log.now qs c vs
        × (world_of m ≡ world_at_boot c vs)) }
    ensures kernel { IfOk result (λ m. m.kernel ≡ record { boot = world_of m; history = [] }) }
    ensures other { IfOk result (λ m. length (world_of m).cpus < actors (world_of m)) }
    ensures fault { IfErr result (λ f. (qs : List Asked)
        × (R.asked reader.new ≡ R.asked reader.old ++ qs)
        × IsNotBooted names.entry.config.now names.entry.log.now qs f) }
{
    let (config, services) = setup_of(alloc, reader, names.config)?;
    spare_programs(&config, names.log)?;
    Ok(boot(alloc, &config, services)?)
}

/// Lets the machine of a configuration live while somebody sits at it. Its history is written to LOG, without a record
/// before the machine begins, and whole however the session ends. If LOG has the name of a service's program, or can't
/// be written, the machine doesn't begin.
pub fn live<R: Reader + Drop, F: FileWriter + Drop, W: Write + Drop, O: Outside>(
    alloc: Global,
    channels: &mut Channels<R, F, W>,
    names: LiveNames<'_>,
    sitting: Sitting<'_>,
    outside: &mut O,
) -> Result<SessionEnding, Failure>
    ensures { (qs : List Asked) × (ws : List Written) × (hs : List Heards) × (notes : List Notes)
        × (R.asked channels.new.reader ≡ R.asked channels.old.reader ++ qs)
        × (F.written channels.new.files ≡ F.written channels.old.files ++ ws)
        × (O.heard outside.new ≡ O.heard outside.old ++ hs)
        × (O.told outside.new ≡ O.told outside.old ++ notes)
        × Lives names.entry.config.now names.entry.log.now
        (nat_lt 0 sitting.entry.hertz) qs ws hs notes
        (λ text. Appends (W.contents channels.old.out) (W.contents channels.new.out) text) result }
{
    let mut machine = begin(alloc, &mut channels.reader, names)?;
    let mut session = first_session(alloc, &machine)?;
    write_history(alloc, machine.kernel(), &mut channels.files, names.log)?;
    let held = hold_session(
        &mut machine,
        &mut session,
        sitting.hertz > 0,
        sitting,
        outside,
        &mut channels.out,
    );
    write_history(alloc, machine.kernel(), &mut channels.files, names.log)?;
    let ending = held?;
    let records = records_of(&machine);
    outside.tell(Note::Ended(ending, records, session.typist.waiting()));
    Ok(ending)
}
