//! Commands over files in memory: what is written and flushed, how turns end, and what is reported if a writer fails.
//! `checks/model/rows` has what each command prints.

use crate::files::{SUM, reader};
use mx_app::{
    CommandIo, Complaint, DrivenEnding, Ending, Failure, LineFailure, NoProgress, RunEnding,
    perform_words,
};
use mx_app_db::{Channels, InputLines, KeptFile, MemoryWriter, NamedFiles};
use mx_app_live::Nobody;
use std::alloc::Global;
use std::fmt::Write as _;
use std::io;
use std::io::Write;
use std::process::Abort;
use std::rt::Files;
use std::sync::Wait;
use std::test::Fail;
use std::thread::Threads;
use std::time::Clock;

/// Holds the bytes that it takes, of which those count that were flushed; or refuses each write. A signal interrupts
/// its first write.
#[derive(Drop)]
struct Sink {
    bytes: Vec<u8>,
    flushed: usize,
    was_interrupted: bool,
    refusal: Option<io::ErrorKind>,
}

impl Write for Sink {
    fn write(&mut self, buf: &[u8]) -> io::Result<usize> {
        if !self.was_interrupted {
            self.was_interrupted = true;
            return Err(io::Error::from(io::ErrorKind::Interrupted));
        }
        match self.refusal {
            Some(kind) => Err(io::Error::from(kind)),
            None => self.bytes.write(buf),
        }
    }

    fn flush(&mut self) -> io::Result<()> {
        self.flushed = self.bytes.len();
        Ok(())
    }
}

type MemoryIo = CommandIo<
    NamedFiles<'static>,
    MemoryWriter,
    Sink,
    InputLines<&'static [u8]>,
    Nobody,
    NoProgress,
>;

/// Channels over lists of bytes, of which those that take bytes may be broken; no line is typed.
fn memory_io(alloc: Global, refusal: Option<io::ErrorKind>) -> MemoryIo {
    let files = match refusal {
        Some(kind) => MemoryWriter::refusing(alloc, kind),
        None => MemoryWriter::new(alloc),
    };
    CommandIo {
        channels: Channels {
            reader: reader(),
            files,
            out: Sink {
                bytes: Vec::new(alloc),
                flushed: 0,
                was_interrupted: false,
                refusal,
            },
        },
        lines: InputLines::new(b"".as_slice()),
        seat: Nobody::new(),
        progress: NoProgress::new(),
        asks: false,
    }
}

/// Performs words, and answers the status and the lines of a failure.
fn perform<R: Threads + Wait + Clock + Files + Sync>(
    rt: &R,
    alloc: Global,
    work: &mut MemoryIo,
    words: &'static [&'static str],
    shows: bool,
) -> (u8, String)
where
    R::File: Send,
    R::Dir: Send,
{
    let mut answer = String::new(alloc);
    match perform_words(rt, alloc, words, work, shows) {
        Ok(done) => (done.status, answer),
        Err(complaint) => {
            let _ = write!(answer, "{complaint}");
            (complaint.status(), answer)
        }
    }
}

/// Whether a sink has taken this text, and it was flushed.
fn is_printed(out: &Sink, text: &str) -> bool {
    out.bytes.as_slice() == text.as_bytes() && out.flushed == text.len()
}

fn is_kept(files: &[KeptFile], wanted: Option<(&str, &[u8])>) -> bool {
    match (files, wanted) {
        ([], None) => true,
        ([file], Some((name, bytes))) => {
            file.name.as_str() == name && file.bytes.as_slice() == bytes
        }
        _ => false,
    }
}

/// What comes of words.
struct Done {
    name: &'static str,
    words: &'static [&'static str],
    status: u8,
    printed: &'static str,
    /// Its name and its bytes.
    file: Option<(&'static str, &'static [u8])>,
}

fn is_done<R: Threads + Wait + Clock + Files + Sync>(rt: &R, alloc: Global, row: &Done) -> bool
where
    R::File: Send,
    R::Dir: Send,
{
    let mut work = memory_io(alloc, None);
    let (status, answer) = perform(rt, alloc, &mut work, row.words, false);
    status == row.status
        && answer.is_empty()
        && is_printed(&work.channels.out, row.printed)
        && is_kept(work.channels.files.files(), row.file)
}

/// Whether words fail with nothing printed or written if what takes bytes refuses each write in this way.
fn is_refused<R: Threads + Wait + Clock + Files + Sync>(
    rt: &R,
    alloc: Global,
    row: &Done,
    refusal: io::ErrorKind,
    wanted: (u8, &str),
) -> bool
where
    R::File: Send,
    R::Dir: Send,
{
    let mut work = memory_io(alloc, Some(refusal));
    let (status, answer) = perform(rt, alloc, &mut work, row.words, false);
    (status, answer.as_str()) == wanted
        && is_printed(&work.channels.out, "")
        && is_kept(work.channels.files.files(), None)
}

const SUMMED: &str = "EAX 00000080 ECX 00000000 EDX 00000000 EBX 00000000\n\
    ESP 00001000 EBP 00000000 ESI 00000000 EDI 00000000\n\
    EIP 0000000a CF 0 PF 0 AF 1 ZF 0 SF 0 DF 0 OF 0\n\
    stop trap after 3\n";

/// Single programs: run, assembled, and printed.
static PROGRAMS: &[Done] = &[
    Done {
        name: "one: a sum",
        words: &["mx", "one", "a.out", "9"],
        status: 0,
        printed: SUMMED,
        file: None,
    },
    Done {
        name: "as: a sum",
        words: &["mx", "as", "sum.s", "new.out"],
        status: 0,
        printed: "",
        file: Some(("new.out", SUM)),
    },
    Done {
        name: "dis: a sum",
        words: &["mx", "dis", "a.out"],
        status: 0,
        printed: "00000000 mov eax, 0x5\n00000005 add eax, 0x7b\n00000008 int 0x21\n",
        file: None,
    },
    Done {
        name: "nm: a driver",
        words: &["mx", "nm", "drv.out"],
        status: 0,
        printed: "00000000 D buf\n00000000 T top\n",
        file: None,
    },
];

/// Words do what their rows say, and fail where nothing can be written.
#[test]
fn programs(rt: HostRuntime) {
    let alloc = rt.alloc();
    for row in PROGRAMS {
        let name = row.name;
        assert!(rt; is_done(&rt, alloc, row), "{name}");
        let broken = (3, "mx: 80 File\n");
        let is_reported = is_refused(&rt, alloc, row, io::ErrorKind::BrokenPipe, broken);
        assert!(rt; is_reported, "{name}, where writing is refused");
        let no_memory = (4, "mx: 90 NoMemory\n");
        let is_reported = is_refused(&rt, alloc, row, io::ErrorKind::OutOfMemory, no_memory);
        assert!(rt; is_reported, "{name}, where writing has no memory");
    }
}

/// Words that make turns, or run a machine, and how these end.
struct Turned {
    name: &'static str,
    words: &'static [&'static str],
    ending: DrivenEnding,
}

/// Whether the turns or the run that words ask for end so.
fn is_ended<R: Threads + Wait + Clock + Files + Sync>(rt: &R, alloc: Global, row: &Turned) -> bool
where
    R::File: Send,
    R::Dir: Send,
{
    let mut work = memory_io(alloc, None);
    match perform_words(rt, alloc, row.words, &mut work, false) {
        Ok(done) => done.ending == Some(row.ending),
        Err(_) => false,
    }
}

/// Turns and runs: up to rest, so many, and up to a full history.
static ENDS: &[Turned] = &[
    Turned {
        name: "up to rest",
        words: &["mx", "turns", "pair", "new.log"],
        ending: DrivenEnding::Turns(Ending::Rest),
    },
    Turned {
        name: "none",
        words: &["mx", "turns", "pair", "new.log", "--turns", "0"],
        ending: DrivenEnding::Turns(Ending::Turns),
    },
    Turned {
        name: "as many as up to rest",
        words: &["mx", "turns", "pair", "new.log", "--turns", "5"],
        ending: DrivenEnding::Turns(Ending::Rest),
    },
    Turned {
        name: "so many",
        words: &["mx", "turns", "restart", "new.log", "--turns", "20"],
        ending: DrivenEnding::Turns(Ending::Turns),
    },
    Turned {
        name: "as many as the history has room for",
        words: &["mx", "turns", "restart", "new.log", "--turns", "32"],
        ending: DrivenEnding::Turns(Ending::Turns),
    },
    Turned {
        name: "up to a full history",
        words: &["mx", "turns", "restart", "new.log", "--turns", "40"],
        ending: DrivenEnding::Turns(Ending::Full),
    },
    Turned {
        name: "a history too full for a take, and so for a tick",
        words: &["mx", "turns", "two_full", "new.log", "--ticks", "1"],
        ending: DrivenEnding::Turns(Ending::Full),
    },
    Turned {
        name: "a run up to a full history",
        words: &["mx", "run", "full", "new.log"],
        ending: DrivenEnding::Run(RunEnding::Full),
    },
    Turned {
        name: "a run up to rest",
        words: &["mx", "run", "one", "new.log"],
        ending: DrivenEnding::Run(RunEnding::Rest),
    },
    Turned {
        name: "a run up to rest after ticks",
        words: &["mx", "run", "one", "new.log", "--ticks", "2"],
        ending: DrivenEnding::Run(RunEnding::Rest),
    },
];

#[test]
fn endings(rt: HostRuntime) {
    for row in ENDS {
        let name = row.name;
        assert!(rt; is_ended(&rt, rt.alloc(), row), "{name}");
    }
}

/// Words that fail, with standard error as a terminal or not, and whether the failure is explained.
static TERMINALS: &[(&[&str], bool, bool)] = &[
    (&["mx", "nm", "nothing"], false, false),
    (&["mx", "nm", "nothing"], true, true),
    (&["mx", "nm", "nothing", "--explain"], false, true),
    (&["mx", "nm", "nothing", "--explain"], true, true),
    (&["mx", "nm", "nothing", "--no-explain"], false, false),
    (&["mx", "nm", "--no-explain", "nothing"], true, false),
    (
        &["mx", "nm", "nothing", "--explain", "--no-explain"],
        true,
        false,
    ),
];

#[test]
fn terminals_explained(rt: HostRuntime) {
    for (words, shows, is_explained) in TERMINALS {
        let mut work = memory_io(rt.alloc(), None);
        let (status, answer) = perform(&rt, rt.alloc(), &mut work, words, *shows);
        let wanted = if *is_explained {
            "mx: 80 File\nmx: FILE nothing: wanted a file that can be read: it isn't there\n"
        } else {
            "mx: 80 File\n"
        };
        assert!(rt; status == 3 && answer.as_str() == wanted, "{answer}");
    }
}

/// Each kind of error of standard output, and what is said of it.
static OUTPUTS: &[(io::ErrorKind, &str)] = &[
    (io::ErrorKind::BrokenPipe, "its reader has ended"),
    (
        io::ErrorKind::StorageFull,
        "wanted room for what is printed",
    ),
    (
        io::ErrorKind::QuotaExceeded,
        "wanted room for what is printed",
    ),
    (
        io::ErrorKind::FileTooLarge,
        "wanted room for what is printed",
    ),
    (
        io::ErrorKind::Uncategorized,
        "wanted an output that can be written",
    ),
];

/// Standard output that fails is called by its name, with what is wrong with it.
#[test]
fn outputs_explained(rt: HostRuntime) -> Result<(), Fail> {
    for (kind, said) in OUTPUTS {
        let mut work = memory_io(rt.alloc(), Some(*kind));
        let words = &["mx", "explain", "one", "--explain"];
        let (status, answer) = perform(&rt, rt.alloc(), &mut work, words, false);
        let wanted = format!(in rt.alloc(); "mx: 80 File\nmx: standard output: {said}\n")?;
        assert!(rt;
            status == 3 && answer.as_str() == wanted.as_str(),
            "{answer}"
        );
    }
    Ok(())
}

/// A failure for whose line there is no memory reports this, and has the status that it had.
#[test]
fn nothing_explained(rt: HostRuntime) -> Result<(), Fail> {
    let complaint = Complaint::Unexplained(LineFailure::Request(Failure::Input));
    let answer = complaint.to_string(rt.alloc())?;
    assert!(rt; answer.as_str() == "mx: 80 File\nmx: memory: wanted more of it\n");
    assert!(rt; complaint.status() == 3);
    Ok(())
}

/// How many line feeds there are.
fn lines_in(text: &[u8]) -> usize {
    text.iter().filter(|byte| **byte == b'\n').count()
}

/// Whether a report with three ticks is printed, and a history is written that has the line of the
/// rules, four records of the processor and the ticks.
fn has_three_ticks(work: &MemoryIo) -> bool {
    let report = "0 a 0 down fault 13 7 1\nuptime 3\nconsole 0\n";
    let is_saved = match work.channels.files.files() {
        [file] => lines_in(file.bytes.as_slice()) == 8,
        _ => false,
    };
    is_saved && is_printed(&work.channels.out, report)
}

/// The ticks come at any time, and what is printed is the same.
#[test]
fn run_with_ticks(rt: HostRuntime) {
    let words: &[&str] = &["mx", "run", "one", "new.log", "--ticks", "3"];
    let mut work = memory_io(rt.alloc(), None);
    let (status, answer) = perform(&rt, rt.alloc(), &mut work, words, false);
    assert!(rt; status == 0 && answer.is_empty() && has_three_ticks(&work));
}
