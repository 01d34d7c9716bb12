//! A machine that goes along a history once, and another one that is made of it for each run.

ghost use Rattle.std.specs.Prelude.{◌≡◌, ◌<◌, ◌≤◌, [], IfOk, length};
ghost use Rattle.mx_app_step.specs.Machine.{world_of};
ghost use Rattle.mx_machine.specs.Boot.{world_at_boot};
ghost use Rattle.mx_turns.specs.Swept.{IsAlong, IsComing, IsSwept};

use crate::coming::Coming;
use crate::faulted_run::Sweep;
use crate::services::copy_services;
use mx_app_step::perform_records;
use mx_machine::{Config, Machine, Record, Service};
use mx_walk::boot;
use mx_word::NoMemory;
use std::alloc::Global;

/// Two machines of one boot: one goes along a history; the other made a run, and lends its services to the next copy.
#[derive(Drop)]
pub struct Pair {
    pub along: Machine,
    /// How many records the machine that goes along has made.
    pub position: usize,
    /// What comes from outside after them.
    pub coming: Coming,
    pub copy: Machine,
}

impl Pair {
    /// A pair at the boot of these services, which are copied, to go along these records. Takes memory for two
    /// machines, and for the list of what comes from outside.
    pub fn new(
        alloc: Global,
        config: &Config,
        services: &[Service],
        records: &[Record],
    ) -> Result<Pair, NoMemory>
        requires some { 0 < length services.now }
        requires few { length services.now ≤ 32 }
        ensures first { IfOk result (λ pair. pair.position ≡ 0) }
        ensures world { IfOk result (λ pair.
            world_of pair.along ≡ world_at_boot config.now services.now) }
        ensures kernel { IfOk result (λ pair.
            pair.along.kernel ≡ record { boot = world_of pair.along; history = [] }) }
        ensures boot { IfOk result (λ pair. pair.copy.kernel.boot ≡ pair.along.kernel.boot) }
        ensures coming { IfOk result (λ pair. IsComing records.now 0 pair.coming) }
    {
        let coming = Coming::new(alloc, records)?;
        let along = boot(alloc, config, copy_services(alloc, services)?)?;
        let copy = boot(alloc, config, copy_services(alloc, services)?)?;
        Ok(Pair {
            along,
            position: 0,
            coming,
            copy,
        })
    }
}

/// Goes along the history, from one position to a later one. Takes no memory.
pub(crate) fn go_along(machine: &mut Machine, sweep: Sweep<'_>, from: usize, to: usize)
    requires swept { IsSwept sweep machine.old.kernel.boot }
    requires along { IsAlong sweep.records.now from machine.old }
    requires later { from ≤ to }
    requires within { to ≤ length sweep.records.now }
    ensures along { IsAlong sweep.entry.records.now to machine.new }
    ensures boot { machine.new.kernel.boot ≡ machine.old.kernel.boot }
{
    if let Err(_) = perform_records(machine, &sweep.records[from..to]) {
        unreachable!();
    }
}
