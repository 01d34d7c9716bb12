//! Writers that fail after each number of bytes.

use crate::files::reader;
use crate::texts::Narrow;
use mx_app::{CommandIo, Failure, NoProgress, OutputProblem, perform};
use mx_app_command::{CommandRequest, Listing, RecordRange};
use mx_app_db::{Channels, InputLines, MemoryWriter, Script, make_steps, start};
use mx_app_live::Nobody;
use mx_boot::{Over, save};
use mx_machine::{Event, Machine};
use std::alloc::Global;
use std::process::Abort;
use std::rt::Files;
use std::sync::Wait;
use std::test::Fail;
use std::thread::Threads;
use std::time::Clock;

/// What is asked for, and what is printed of it.
struct Row {
    name: &'static str,
    request: CommandRequest<'static>,
    printed: &'static str,
}

const KILLED: &str = "done\ndone\nrefused 54 NoProcess\nrefused 41 Worn\nrefused 53 NoLine\n\
    refused 42 NoService\n0 a 0 down kill 7 5\nuptime 1\nconsole 0\n";

const FAULTED: &str = "0 a 0 down fault 13 7 1\nuptime 0\nconsole 0\n";

/// Whether a request fails exactly if standard output has no room for its text, and prints what it has
/// room for.
fn is_printed<R: Threads + Wait + Clock + Files + Sync>(
    rt: &R,
    alloc: Global,
    row: &Row,
    room: usize,
) -> bool
where
    R::File: Send,
    R::Dir: Send,
{
    let mut io = CommandIo {
        channels: Channels {
            reader: reader(),
            files: MemoryWriter::new(alloc),
            out: Narrow {
                bytes: Vec::new(alloc),
                room,
            },
        },
        lines: InputLines::new(b"".as_slice()),
        seat: Nobody::new(),
        progress: NoProgress::new(),
        asks: false,
    };
    let text = row.printed.as_bytes();
    let is_short = room < text.len();
    let is_answered = match perform(rt, alloc, &mut io, row.request, false) {
        Ok(done) => !is_short && done.status == 0,
        Err(Failure::Output(OutputProblem::NoRoom)) => is_short,
        Err(_) => false,
    };
    is_answered && io.channels.out.bytes.as_slice() == &text[..room.min(text.len())]
}

fn print_in_each_room<R: Threads + Wait + Clock + Files + Sync + Abort>(
    rt: &R,
    alloc: Global,
    row: &Row,
)
where
    R::File: Send,
    R::Dir: Send,
{
    let name = row.name;
    for room in 0..row.printed.len() + 2 {
        assert!(rt; is_printed(rt, alloc, row, room), "{name}, room {room}");
    }
}

fn all_printed<R: Threads + Wait + Clock + Files + Sync + Abort>(
    rt: &R,
    alloc: Global,
    rows: &[Row],
)
where
    R::File: Send,
    R::Dir: Send,
{
    for row in rows {
        print_in_each_room(rt, alloc, row);
    }
}

/// What is printed of single programs.
static PROGRAMS: &[Row] = &[
    Row {
        name: "one",
        request: CommandRequest::One {
            file: "a.out",
            steps: 9,
        },
        printed: "EAX 00000080 ECX 00000000 EDX 00000000 EBX 00000000\n\
                  ESP 00001000 EBP 00000000 ESI 00000000 EDI 00000000\n\
                  EIP 0000000a CF 0 PF 0 AF 1 ZF 0 SF 0 DF 0 OF 0\n\
                  stop trap after 3\n",
    },
    Row {
        name: "dis",
        request: CommandRequest::Show {
            file: "a.out",
            listing: Listing::Instructions,
        },
        printed: "00000000 mov eax, 0x5\n00000005 add eax, 0x7b\n00000008 int 0x21\n",
    },
    Row {
        name: "nm",
        request: CommandRequest::Show {
            file: "drv.out",
            listing: Listing::Symbols,
        },
        printed: "00000000 D buf\n00000000 T top\n",
    },
];

#[test]
fn prints_of_programs_what_there_is_room_for(rt: HostRuntime) {
    all_printed(&rt, rt.alloc(), PROGRAMS);
}

/// What is printed of machines.
static MACHINES: &[Row] = &[
    Row {
        name: "step",
        request: CommandRequest::Step {
            config: "one",
            script: "kills",
            save: None,
            numbered: false,
        },
        printed: KILLED,
    },
    Row {
        name: "step with save",
        request: CommandRequest::Step {
            config: "one",
            script: "kills",
            save: Some("new"),
            numbered: false,
        },
        printed: KILLED,
    },
    Row {
        name: "replay",
        request: CommandRequest::Replay {
            config: "one",
            log: "whole",
        },
        printed: FAULTED,
    },
    Row {
        name: "trace",
        request: CommandRequest::Trace {
            config: "one",
            log: "whole",
            range: RecordRange { from: 3, to: 4 },
        },
        printed: "3 0 take: a 0 budget 2\n4 0 back 1: a 0 fault 13\n\
                  4   at 0000000a no code: the code ends at 0000000a\n\
                  4   a 0: out -> down fault 13\n",
    },
    Row {
        name: "db",
        request: CommandRequest::Db {
            config: "pair",
            script: "look",
        },
        printed: "done\n0 drv 0 ready 4 20\n1 cli 1 ready 7 20\nuptime 0\nconsole 0\n",
    },
    Row {
        name: "run",
        request: CommandRequest::Run {
            config: "one",
            log: "new",
            ticks: 0,
            events: None,
            stop: None,
        },
        printed: FAULTED,
    },
];

#[test]
fn prints_of_machines_what_there_is_room_for(rt: HostRuntime) {
    all_printed(&rt, rt.alloc(), MACHINES);
}

/// The history of a driver and its client.
const TURNS: &str = "rules 2\n\
    0 take\n0 back 4\n0 take\n0 back 4\n0 take\n0 back 3\n0 take\n0 back 5\n0 take\n0 back 4\n";

/// Five turns: a process is taken, steps up to its trap, and comes back.
fn make_turns(machine: &mut Machine) -> bool {
    for _ in 0..5 {
        let is_taken = machine.apply(0, Event::Take).is_ok();
        make_steps(machine, 0, 99);
        if !is_taken || machine.apply(0, Event::Back).is_err() {
            return false;
        }
    }
    true
}

/// Whether a history is saved up to this many bytes, and reported as whole exactly if there is room
/// for it.
fn is_saved(alloc: Global, machine: &Machine, room: usize) -> bool {
    let mut sink = Over::new(Narrow {
        bytes: Vec::new(alloc),
        room,
    });
    let is_whole = save(machine.kernel(), &mut sink).is_ok();
    let text = TURNS.as_bytes();
    is_whole == (room >= text.len())
        && sink.into_writer().bytes.as_slice() == &text[..room.min(text.len())]
}

fn save_in_each_room(rt: &impl Abort, alloc: Global, machine: &mut Machine) {
    assert!(rt; make_turns(machine));
    for room in 0..TURNS.len() + 2 {
        assert!(rt; is_saved(alloc, machine, room), "room {room}");
    }
}

#[test]
fn saves_what_there_is_room_for(rt: HostRuntime) -> Result<(), Fail> {
    let started = start::<Script, _>(rt.alloc(), &mut reader(), "pair", "empty");
    let mut machine = started.map_err(|_| "no start")?.machine;
    save_in_each_room(&rt, rt.alloc(), &mut machine);
    Ok(())
}
