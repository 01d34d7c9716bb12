//! Shared machines for the tests: some number of equal services on some number of processors.

ghost use Rattle.std.specs.Prelude.{◌≡◌, ◌<◌, ◌≤◌, All, IfOk, IfSome, None, length};

use mx_aout::read;
use mx_cpus::{ActorSeat, Blank, Naming, boot};
use mx_machine::{Config, FileName, Record, Recorded, ServiceLine, ServiceLines};
use mx_proc::{Masks, Rules, Terms};
use mx_respawn::Service;
use mx_text::name_of;
use std::alloc::Global;
use std::test::Fail;

/// A file in a.out's form: a header of 32 bytes, and the text `mov eax, 5`, `add eax, 0x7b`, `int 33`.
const FILE: [u8; 42] = [
    1, 3, 0x30, 0x10, 0x20, 0, 0, 0, 10, 0, 0, 0, 0, 0, 0, 0, 0, 0, 0, 0, 0, 0, 0, 0, 0, 0x10, 0,
    0, 0, 0, 0, 0, 0xB8, 5, 0, 0, 0, 0x83, 0xC0, 0x7B, 0xCD, 0x21,
];

const MASKS: Masks = Masks {
    traps: 0x1E,
    sends: 0,
    calls: 0,
};

fn terms(restarts: u32) -> Terms
    requires { restarts ≤ 1048575 }
{
    Terms {
        masks: MASKS,
        level: 7,
        best: 5,
        quantum: 5,
        restarts,
    }
}

fn service(alloc: Global, restarts: u32) -> Result<Service, Fail>
    requires { restarts ≤ 1048575 }
{
    Ok(Service {
        name: name_of(b"a").ok_or("name")?,
        program: read(alloc, &FILE).map_err(|_| "file")?,
        terms: terms(restarts),
    })
}

/// What slots are booted from.
fn services(alloc: Global, count: u8, restarts: u32) -> Result<Vec<Service>, Fail>
    requires restarts { restarts ≤ 1048575 }
    ensures { IfOk result (λ v. length v.items ≡ count) }
{
    let mut services = Vec::new(alloc);
    for slot in 0..count {
        let _slot = slot;
        services.push(service(alloc, restarts)?)?;
    }
    Ok(services)
}

fn line(alloc: Global, restarts: u32) -> Result<ServiceLine, Fail>
    requires { restarts ≤ 1048575 }
{
    Ok(ServiceLine {
        name: name_of(b"a").ok_or("name")?,
        file: FileName::from_string(String::new(alloc)),
        terms: terms(restarts),
    })
}

/// A configuration with some processors and some other actors.
fn config(alloc: Global, cpus: u8, others: u8, log: u32, restarts: u32) -> Result<Config, Fail>
    requires some { 0 < cpus }
    requires few { cpus ≤ 8 }
    requires some_others { 0 < others }
    requires few_others { others ≤ 4 }
    requires log { 0 < log }
    requires log_fits { log ≤ 1048576 }
    requires restarts { restarts ≤ 1048575 }
{
    let mut lines = Vec::new(alloc);
    lines.push(line(alloc, restarts)?)?;
    Ok(Config {
        cpus,
        others,
        log,
        rules: Rules::Strict,
        lines: ServiceLines::from_vec(lines),
    })
}

/// A machine: how many services, processors and other actors it has, how many records its history has room for,
/// and how often each service may be respawned.
#[derive(Clone, Copy)]
pub struct Wanted {
    pub services: u8,
    pub cpus: u8,
    pub others: u8,
    pub log: u32,
    pub restarts: u32,
}

/// Boots a machine of equal services.
pub fn booted(alloc: Global, wanted: Wanted) -> Result<(Blank, Vec<ActorSeat>), Fail>
    ensures tables { IfOk result (λ r. All (λ s. s.table ≡ r.0.table) r.1.items) }
    ensures empties { IfOk result (λ r. All (λ s. s.held ≡ None) r.1.items) }
{
    let Wanted {
        services: count,
        cpus,
        others,
        log,
        restarts,
    } = wanted;
    if count == 0 || count > 32 || cpus == 0 || cpus > 8 || others == 0 || others > 4 {
        return Err(Fail::new("a machine of this size"));
    }
    if log == 0 || log > 1_048_576 || restarts > 1_048_575 {
        return Err(Fail::new("a history or respawns of this size"));
    }
    let mut services = services(alloc, count, restarts)?;
    let config = config(alloc, cpus, others, log, restarts)?;
    match boot(alloc, &config, &mut services) {
        Ok(made) => Ok(made),
        Err(_) => Err(Fail::new("no memory")),
    }
}

/// The seat of the last actor.
pub fn last_seat<M: Naming>(seats: &mut Vec<ActorSeat>) -> Option<ActorSeat>
    requires { All (λ s. s.table ≡ M.table) seats.old.items }
    ensures rest { All (λ s. s.table ≡ M.table) seats.new.items }
    ensures last { IfSome result (λ s. s.table ≡ M.table) }
    ensures fewer { IfSome result (λ _. length seats.new.items < length seats.old.items) }
{
    seats.pop()
}

/// The seat of the last actor, if none holds a process.
pub fn last_idle_seat<M: Naming>(seats: &mut Vec<ActorSeat>) -> Option<ActorSeat>
    requires tables { All (λ s. s.table ≡ M.table) seats.old.items }
    requires empties { All (λ s. s.held ≡ None) seats.old.items }
    ensures tables { All (λ s. s.table ≡ M.table) seats.new.items }
    ensures empties { All (λ s. s.held ≡ None) seats.new.items }
    ensures last { IfSome result (λ s. s.table ≡ M.table) }
    ensures idle { IfSome result (λ s. s.held ≡ None) }
{
    seats.pop()
}

/// Whether a history has just these records, each by its actor and event.
pub fn is_history(history: &[Record], wanted: &[(u8, Recorded)]) -> bool {
    if history.len() != wanted.len() {
        return false;
    }
    for (record, pair) in history.iter().zip(wanted.iter()) {
        if record.actor != pair.0 || record.event != pair.1 {
            return false;
        }
    }
    true
}
