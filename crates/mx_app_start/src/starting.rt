//! A machine that is started.

ghost use Rattle.std.specs.Prelude.{◌≡◌, ◌<◌, ◌≤◌, ◌++◌, [], List, length, IfOk, IfErr};
ghost use Rattle.mx_machine.specs.Machine.{world_of};
ghost use Rattle.mx_machine.specs.Service.{Service as Served};
ghost use Rattle.mx_boot.specs.Config.{Config as Configured};
ghost use Rattle.mx_machine.specs.Boot.{world_at_boot};
ghost use Rattle.mx_machine.specs.World.{actors};
ghost use Rattle.mx_app_start.specs.Asked.{Asked};
ghost use Rattle.mx_app_start.specs.Setup.{IsFirstFault, IsNotStarted, IsStart};

use crate::course::Course;
use crate::reader::Reader;
use crate::setup::{setup_of, text_of};
use mx_app_failure::{About, Failure};
use mx_machine::{Config, Machine, Service};
use mx_walk::boot;
use std::alloc::Global;

/// A machine before its first event, and what drives it.
#[derive(Drop)]
pub struct Started<L: Drop> {
    pub machine: Machine,
    /// The configuration by which it booted.
    pub config: Config,
    /// The first actor that is no processor.
    pub other: u8,
    /// What the lines of the text that drives it say.
    pub lines: Vec<L>,
}

/// Reads a configuration, the programs of its services in the order of their lines, and the text that
/// drives the machine, each checked before the next is read. Answers the configuration by which the machine
/// boots, its services, and what the text's lines say; or the first fault.
fn read_all<C: Course, R: Reader>(
    alloc: Global,
    reader: &mut R,
    config: &str,
    text: &str,
) -> Result<(Config, Vec<Service>, Vec<C::Line>), Failure>
    ensures read { IfOk result (λ r. (qs : List Asked)
        × (R.asked reader.new ≡ R.asked reader.old ++ qs)
        × IsStart C.IsSaid config.now text.now qs r.0 r.1.items r.2.items) }
    ensures some { IfOk result (λ r. 0 < length r.1.items) }
    ensures few { IfOk result (λ r. length r.1.items ≤ 32) }
    ensures fault { IfErr result (λ f. (qs : List Asked)
        × (R.asked reader.new ≡ R.asked reader.old ++ qs)
        × IsFirstFault C.Tells config.now text.now qs f) }
{
    let (mut config, services) = setup_of(alloc, reader, config)?;
    let text = text_of(alloc, reader, text, About::Course)?;
    match C::read(alloc, text.as_str(), &mut config) {
        Ok(lines) => Ok((config, services, lines)),
        Err(error) => Err(Failure::misstated(error, About::Course, text)),
    }
}

/// Reads a configuration, the programs of its services in the order of their lines, and the text that
/// drives the machine, each checked before the next is read; then boots the machine. Out of memory is
/// answered only if nothing that was read is at fault.
pub fn start<C: Course, R: Reader>(
    alloc: Global,
    reader: &mut R,
    config: &str,
    text: &str,
) -> Result<Started<C::Line>, Failure>
where
    C::Line: Drop,
    ensures started { IfOk result (λ s. (qs : List Asked) × (c : Configured) × (vs : List Served)
        × (R.asked reader.new ≡ R.asked reader.old ++ qs)
        × IsStart C.IsSaid config.now text.now qs c vs s.lines.items
        × (world_of s.machine ≡ world_at_boot c vs) × (s.other ≡ c.cpus)
        × (s.config ≡ c) × (0 < length vs) × (length vs ≤ 32)) }
    ensures kernel { IfOk result (λ s. s.machine.kernel
        ≡ record { boot = world_of s.machine; history = [] }) }
    ensures other { IfOk result (λ s. s.other < actors (world_of s.machine)) }
    ensures fault { IfErr result (λ f. (qs : List Asked)
        × (R.asked reader.new ≡ R.asked reader.old ++ qs)
        × IsNotStarted C.IsSaid C.Tells config.now text.now qs f) }
{
    let (config, services, lines) = read_all::<C, R>(alloc, reader, config, text)?;
    let machine = boot(alloc, &config, services)?;
    let other = config.cpus;
    Ok(Started {
        machine,
        config,
        other,
        lines,
    })
}
