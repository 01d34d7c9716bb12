//! Configurations, scripts and histories, read and saved.

use BootError::{BadLine, BadRecord, TooMany, TwiceNamed};
use mx_app_db::{debug_script, own_words_are_apart};
use mx_boot::{
    BootError, Over, ScriptLine, config, history_again, log, one_history, one_text, save_history,
    script,
};
use mx_machine::{Config, Record, Recorded};
use mx_proc::Rules;
use std::alloc::Global;
use std::io;
use std::io::Write;
use std::process::Abort;
use std::test::Fail;

const WHOLE: &str = "\
cpus 2 # two
log 64
service drv drv.out traps 1E send 2 calls 0 level 4 best 3 quantum 20 restarts 9
";

fn is_whole(found: &Config) -> bool {
    match found.lines.as_slice() {
        [line] => {
            let terms = line.terms;
            let masks = terms.masks;
            line.file.as_str() == "drv.out"
                && (masks.traps, masks.sends, masks.calls) == (0x1E, 2, 0)
                && (terms.level, terms.best, terms.quantum, terms.restarts) == (4, 3, 20, 9)
                && (found.cpus, found.others, found.log) == (2, 1, 64)
        }
        _ => false,
    }
}

fn is_read_whole(alloc: Global) -> bool {
    match config(alloc, WHOLE) {
        Ok(found) => is_whole(&found),
        Err(_) => false,
    }
}

fn fault_of(alloc: Global, text: &str) -> Option<BootError> {
    config(alloc, text).err()
}

/// A configuration with so many services, a line each.
fn services(alloc: Global, count: u8) -> Result<String, Fail> {
    let mut text = String::new(alloc);
    for number in 0..count {
        let line = "a.out traps 1e send 0 calls ff level 7 best 5 quantum 5 restarts 1";
        write!(text, "service n{number} {line}\n")?;
    }
    Ok(text)
}

#[test]
fn one_service_too_many(rt: HostRuntime) -> Result<(), Fail> {
    let text = services(rt.alloc(), 33)?;
    assert!(rt; fault_of(rt.alloc(), text.as_str()) == Some(TooMany(33)));
    let line = format!(in rt.alloc(); "{}", TooMany(33))?;
    assert!(rt; line.as_str() == "72 TooMany line 33");
    Ok(())
}

#[test]
fn whole_configuration(rt: HostRuntime) {
    assert!(rt; is_read_whole(rt.alloc()));
}

/// A machine of one processor and one other actor.
const MACHINE: &str =
    "service a a.out traps 1e send 0 calls ff level 7 best 5 quantum 5 restarts 1";

static LINES: &[ScriptLine] = &[
    ScriptLine::Take(0),
    ScriptLine::Step(0, 99),
    ScriptLine::Tick,
];

fn is_script_read(alloc: Global) -> bool {
    match script(alloc, "take 0\nstep 0 99\ntick") {
        Ok(read) => read.as_slice() == LINES,
        Err(_) => false,
    }
}

/// A writer that takes a number of bytes, at most three at a time, and then fails.
#[derive(Drop)]
pub(crate) struct Narrow {
    pub bytes: Vec<u8>,
    pub room: usize,
}

impl Write for Narrow {
    ghost use Rattle.std.specs.Prelude.{Some};

    ghost contents = { λ narrow. Some narrow.bytes.items };

    fn write(&mut self, buf: &[u8]) -> io::Result<usize> {
        let count = buf.len().min(3).min(self.room);
        self.bytes.extend_from_slice(&buf[..count])?;
        self.room -= count;
        Ok(count)
    }

    fn flush(&mut self) -> io::Result<()> {
        Ok(())
    }
}

/// A writer that takes all bytes, but fails at one of its calls, counted from 0, and only at that one.
#[derive(Drop)]
struct Faltering {
    bytes: Vec<u8>,
    calls: usize,
    failing: usize,
    kind: io::ErrorKind,
}

impl Write for Faltering {
    ghost use Rattle.std.specs.Prelude.{Some};

    ghost contents = { λ faltering. Some faltering.bytes.items };

    fn write(&mut self, buf: &[u8]) -> io::Result<usize> {
        let call = self.calls;
        self.calls = call.saturating_add(1);
        if call == self.failing {
            return Err(io::Error::from(self.kind));
        }
        self.bytes.extend_from_slice(buf)?;
        Ok(buf.len())
    }

    fn flush(&mut self) -> io::Result<()> {
        Ok(())
    }
}

static RECORDS: &[Record] = &[
    Record {
        actor: 1,
        event: Recorded::Take,
    },
    Record {
        actor: 1,
        event: Recorded::Back(2147483647),
    },
    Record {
        actor: 1,
        event: Recorded::Line(15),
    },
    Record {
        actor: 1,
        event: Recorded::Tick,
    },
    Record {
        actor: 1,
        event: Recorded::Kill(1027),
    },
    Record {
        actor: 1,
        event: Recorded::Respawn(0),
    },
];

const SAVED: &str = "\
1 take
1 back 2147483647
1 line 15
1 tick
1 kill 1027
1 respawn 0
";

const SAVED_STRICT: &str = "\
rules 2
1 take
1 back 2147483647
1 line 15
1 tick
1 kill 1027
1 respawn 0
";

/// By which rules a machine was booted, and what is saved of it.
struct Saved {
    name: &'static str,
    rules: Rules,
    text: &'static str,
}

static SAVES: &[Saved] = &[
    Saved {
        name: "lenient rules",
        rules: Rules::Lenient,
        text: SAVED,
    },
    Saved {
        name: "strict rules",
        rules: Rules::Strict,
        text: SAVED_STRICT,
    },
];

/// Whether a writer that fails after a number of bytes got just these of the text, or all if it has
/// room.
fn is_saved_to(alloc: Global, row: &Saved, room: usize) -> bool {
    let narrow = Narrow {
        bytes: Vec::new(alloc),
        room,
    };
    let mut sink = Over::new(narrow);
    let is_whole = save_history(row.rules, RECORDS, &mut sink).is_ok();
    let text = row.text.as_bytes();
    let front = &text[..room.min(text.len())];
    is_whole == (room >= text.len()) && sink.into_writer().bytes.as_slice() == front
}

/// The kinds of error that a program might try again, and one that it wouldn't.
static KINDS: &[io::ErrorKind] = &[
    io::ErrorKind::Interrupted,
    io::ErrorKind::WouldBlock,
    io::ErrorKind::TimedOut,
    io::ErrorKind::BrokenPipe,
];

/// How many bytes the first lines of a text have.
fn length_of_lines(text: &str, count: usize) -> usize {
    text.lines().take(count).fold(
        0_usize,
        |sum, line| sum.saturating_add(line.len()).saturating_add(1),
    )
}

/// Whether a writer's failure at the line of that number ends the saving: the lines above it are
/// written, and the writer isn't called again, though it would take the bytes now.
fn ends_at_an_error(alloc: Global, failing: usize, kind: io::ErrorKind) -> bool {
    let mut sink = Over::new(Faltering {
        bytes: Vec::new(alloc),
        calls: 0,
        failing,
        kind,
    });
    let is_whole = save_history(Rules::Strict, RECORDS, &mut sink).is_ok();
    let Faltering { bytes, calls, .. } = sink.into_writer();
    let front = length_of_lines(SAVED_STRICT, failing);
    !is_whole
        && calls == failing.saturating_add(1)
        && SAVED_STRICT.as_bytes().get(..front) == Some(bytes.as_slice())
}

#[test]
fn no_error_is_tried_again(rt: HostRuntime) {
    for kind in KINDS {
        for failing in 0..SAVED_STRICT.lines().count() {
            assert!(rt;
                ends_at_an_error(rt.alloc(), failing, *kind),
                "line {failing}"
            );
        }
    }
}

fn is_read_again(alloc: Global, machine: &Config, rules: Rules, text: &str) -> bool {
    match log(alloc, text, machine) {
        Ok((again, records)) => again == rules && records.as_slice() == RECORDS,
        Err(_) => false,
    }
}

fn save_in_each_room(rt: &impl Abort, alloc: Global, row: &Saved) {
    let name = row.name;
    for room in 0..SAVED_STRICT.len() + 2 {
        assert!(rt; is_saved_to(alloc, row, room), "{name}, room {room}");
    }
}

#[test]
fn saves_histories(rt: HostRuntime) {
    for row in SAVES {
        save_in_each_room(&rt, rt.alloc(), row);
    }
}

fn read_saves_again(rt: &impl Abort, alloc: Global, machine: &Config) {
    for row in SAVES {
        let name = row.name;
        assert!(rt;
            is_read_again(alloc, machine, row.rules, row.text),
            "{name}"
        );
    }
}

#[test]
fn lines_of_a_script(rt: HostRuntime) {
    assert!(rt; is_script_read(rt.alloc()));
}

#[test]
fn saves_are_read_again(rt: HostRuntime) -> Result<(), Fail> {
    let machine = config(rt.alloc(), MACHINE)?;
    read_saves_again(&rt, rt.alloc(), &machine);
    Ok(())
}

#[test]
fn laws() {
    own_words_are_apart();
    one_history();
    history_again();
    one_text();
}
