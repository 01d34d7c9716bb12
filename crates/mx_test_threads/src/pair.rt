//! Machines of a driver and a client: their files, their boot, and what every run of them leaves.

ghost use Rattle.std.specs.Prelude.{◌≡◌, All, IfOk, None};

use mx_app_run::{NamedFile, NamedFiles, Replayed, replay, report, saved_text, setup_of};
use mx_cpus::{ActorSeat, Blank, boot};
use mx_machine::Kernel;
use std::alloc::Global;
use std::test::Fail;

/// A file of the driver: it receives from anyone, answers, and begins again.
const DRIVER: [u8; 103] = [
    1, 3, 0x30, 0x10, 0x20, 0, 0, 0, 0x23, 0, 0, 0, 0x24, 0, 0, 0, 0, 0, 0, 0, 0, 0, 0, 0, 0, 0x10,
    0, 0, 0, 0, 0, 0, 0xB9, 2, 0, 0, 0, 0xB8, 0xCE, 0x7A, 0, 0, 0xBB, 0, 0, 0, 0, 0xCD, 0x21, 0x8B,
    5, 0, 0, 0, 0, 0xB9, 1, 0, 0, 0, 0xCD, 0x21, 0xE9, 0xDD, 0xFF, 0xFF, 0xFF, 0, 0, 0, 0, 0, 0, 0,
    0, 0, 0, 0, 0, 0, 0, 0, 0, 0, 0, 0, 0, 0, 0, 0, 0, 0, 0, 0, 0, 0, 0, 0, 0, 0, 0, 0, 0,
];

/// A file of the client: it asks the driver, and then the kernel to end it.
const CLIENT: [u8; 107] = [
    1, 3, 0x30, 0x10, 0x20, 0, 0, 0, 0x27, 0, 0, 0, 0x24, 0, 0, 0, 0, 0, 0, 0, 0, 0, 0, 0, 0, 0x10,
    0, 0, 0, 0, 0, 0, 0xB9, 3, 0, 0, 0, 0xB8, 0, 0, 0, 0, 0xBB, 0, 0, 0, 0, 0xCD, 0x21, 0xC7, 5, 4,
    0, 0, 0, 0, 6, 0, 0, 0xB9, 3, 0, 0, 0, 0xB8, 0xFE, 0xFF, 0xFF, 0xFF, 0xCD, 0x21, 0, 0, 0, 0, 0,
    0, 0, 0, 0, 0, 0, 0, 0, 0, 0, 0, 0, 0, 0, 0, 0, 0, 0, 0, 0, 0, 0, 0, 0, 0, 0, 0, 0, 0, 0, 0,
];

/// How many runs are made of a row.
pub(crate) const RUNS: u32 = 200;

/// What a history has in every schedule.
#[derive(Clone, Copy)]
pub(crate) enum Log {
    /// How many records it has.
    Records(usize),
    /// Its whole text.
    Text(&'static str),
}

/// A machine of both, and what every run of it leaves.
#[derive(Clone, Copy)]
pub(crate) struct Row {
    pub config: &'static str,
    pub ticks: u32,
    pub log: Log,
    pub report: &'static str,
}

const TWO_PROCESSORS: &str = "cpus 2
log 64
service drv drv.out traps 1e send 2 calls 0 level 4 best 4 quantum 20 restarts 0
service cli cli.out traps 1e send 1 calls 1 level 7 best 7 quantum 20 restarts 0
";

/// Two processors.
pub(crate) static TALK: Row = Row {
    config: TWO_PROCESSORS,
    ticks: 0,
    log: Log::Records(10),
    report: "0 drv 0 receiving any 4 8
1 cli 1 down exit 7 12
uptime 0
console 0
",
};

/// Two processors, and three ticks.
pub(crate) static TALK_AND_TICK: Row = Row {
    config: TWO_PROCESSORS,
    ticks: 3,
    log: Log::Records(13),
    report: "0 drv 0 receiving any 4 8
1 cli 1 down exit 7 12
uptime 3
console 0
",
};

/// The client is put back twice.
pub(crate) static TALK_AGAIN: Row = Row {
    config: "cpus 2
log 64
service drv drv.out traps 1e send 2 calls 0 level 4 best 4 quantum 20 restarts 0
service cli cli.out traps 1e send 1 calls 1 level 7 best 7 quantum 20 restarts 2
",
    ticks: 0,
    log: Log::Records(28),
    report: "0 drv 0 receiving any 4 12
1 cli 2049 down exit 7 12
uptime 0
console 0
",
};

/// One processor, and a history that is soon full.
pub(crate) static FULL: Row = Row {
    config: "cpus 1
log 3
service drv drv.out traps 1e send 2 calls 0 level 4 best 4 quantum 20 restarts 0
service cli cli.out traps 1e send 1 calls 1 level 7 best 7 quantum 20 restarts 0
",
    ticks: 0,
    log: Log::Text(
        "rules 2
0 take
0 back 4
",
    ),
    report: "0 drv 0 receiving any 4 16
1 cli 1 ready 7 20
uptime 0
console 0
",
};

/// The files of a row's machine.
fn files_of(row: &Row) -> [NamedFile<'static>; 3] {
    [
        NamedFile {
            name: "config",
            bytes: row.config.as_bytes(),
        },
        NamedFile {
            name: "drv.out",
            bytes: &DRIVER,
        },
        NamedFile {
            name: "cli.out",
            bytes: &CLIENT,
        },
    ]
}

/// Whether the text of a history is as wanted. Its first line names the rules.
fn is_log(text: &[u8], wanted: Log) -> bool {
    match wanted {
        Log::Records(records) => {
            let lines = text.iter().filter(|byte| **byte == b'\n').count();
            lines == records.saturating_add(1)
        }
        Log::Text(log) => text == log.as_bytes(),
    }
}

/// What a replay of a history prints.
fn replay_report(alloc: Global, row: &Row, log: &[u8]) -> Result<Vec<u8>, Fail> {
    let [config, driver, client] = files_of(row);
    let history = NamedFile {
        name: "log",
        bytes: log,
    };
    let files = [config, driver, client, history];
    let mut out = Vec::new(alloc);
    let how = replay(
        alloc,
        &mut NamedFiles::new(&files),
        "config",
        "log",
        &mut out,
    );
    match how {
        Ok(Replayed::Whole) => Ok(out),
        _ => Err(Fail::new("the history isn't replayed")),
    }
}

/// A row's machine at its boot, and the seats of its actors.
pub(crate) fn boot_row(alloc: Global, row: &Row) -> Result<(Blank, Vec<ActorSeat>), Fail>
    ensures tables { IfOk result (λ r. All (λ s. s.table ≡ r.0.table) r.1.items) }
    ensures empties { IfOk result (λ r. All (λ s. s.held ≡ None) r.1.items) }
{
    let named = files_of(row);
    let mut reader = NamedFiles::new(&named);
    let (config, mut services) = setup_of(alloc, &mut reader, "config").map_err(
        |_| "the configuration isn't read",
    )?;
    if services.is_empty() || services.len() > 32 {
        return Err(Fail::new("there are two services"));
    }
    match boot(alloc, &config, &mut services) {
        Ok(made) => Ok(made),
        Err(_) => Err(Fail::new("no memory")),
    }
}

/// Whether a machine's history and its report are what a row wants, and a replay prints that report
/// too.
pub(crate) fn is_end(alloc: Global, row: &Row, kernel: &Kernel) -> Result<bool, Fail> {
    let log = saved_text(alloc, kernel).map_err(|_| "memory")?;
    let report = report(alloc, kernel).map_err(|_| "memory")?;
    let again = replay_report(alloc, row, log.as_slice())?;
    let wanted = row.report.as_bytes();
    Ok(is_log(log.as_slice(), row.log) && report.as_slice() == wanted && again.as_slice() == wanted)
}
