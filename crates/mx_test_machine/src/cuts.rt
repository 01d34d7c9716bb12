//! A saved history that is cut: nothing is replayed of it, unless whole lines are left.

use crate::files::{CLIENT, DRIVER, PAIR};
use mx_app::{About, FileProblem};
use mx_app_db::{Failure, NamedFile, NamedFiles, Replayed, replay};
use mx_boot::BootError;
use std::alloc::Global;
use std::process::Abort;

/// A call, its answer, and the caller's end.
const TURNS: &str =
    "0 take\n0 back 4\n0 take\n0 back 4\n0 take\n0 back 3\n0 take\n0 back 5\n0 take\n0 back 4\n";

/// `TURNS` by the strict rules.
const STRICT_TURNS: &str =
    "rules 2\n0 take\n0 back 4\n0 take\n0 back 4\n0 take\n0 back 3\n0 take\n0 back 5\n\
     0 take\n0 back 4\n";

/// A history, and how many of its lines are above the records.
struct History {
    name: &'static str,
    text: &'static str,
    above: usize,
}

static HISTORIES: &[History] = &[
    History {
        name: "lenient rules",
        text: TURNS,
        above: 0,
    },
    History {
        name: "strict rules",
        text: STRICT_TURNS,
        above: 1,
    },
];

/// The report by the number of records that are left.
static REPORTS: &[&str] = &[
    "0 drv 0 ready 4 20\n1 cli 1 ready 7 20\nuptime 0\nconsole 0\n",
    "0 drv 0 out 4 20\n1 cli 1 ready 7 20\nuptime 0\nconsole 0\n",
    "0 drv 0 receiving any 4 16\n1 cli 1 ready 7 20\nuptime 0\nconsole 0\n",
    "0 drv 0 receiving any 4 16\n1 cli 1 out 7 20\nuptime 0\nconsole 0\n",
    "0 drv 0 ready 4 16\n1 cli 1 awaiting 0 7 16\nuptime 0\nconsole 0\n",
    "0 drv 0 out 4 16\n1 cli 1 awaiting 0 7 16\nuptime 0\nconsole 0\n",
    "0 drv 0 ready 4 13\n1 cli 1 ready 7 16\nuptime 0\nconsole 0\n",
    "0 drv 0 out 4 13\n1 cli 1 ready 7 16\nuptime 0\nconsole 0\n",
    "0 drv 0 receiving any 4 8\n1 cli 1 ready 7 16\nuptime 0\nconsole 0\n",
    "0 drv 0 receiving any 4 8\n1 cli 1 out 7 16\nuptime 0\nconsole 0\n",
    "0 drv 0 receiving any 4 8\n1 cli 1 down exit 7 12\nuptime 0\nconsole 0\n",
];

fn file<'a>(name: &'a str, bytes: &'a [u8]) -> NamedFile<'a> {
    NamedFile { name, bytes }
}

/// What comes of a text that is replayed; what is printed is appended.
fn replay_text(alloc: Global, text: &[u8], out: &mut Vec<u8>) -> Result<Replayed, Failure> {
    let files = [
        file("pair", PAIR),
        file("drv.out", DRIVER),
        file("cli.out", CLIENT),
        file("cut", text),
    ];
    replay(alloc, &mut NamedFiles::new(&files), "pair", "cut", out)
}

/// The wrong line of a text with so many whole lines, some of them above the records, if it has one, and what is
/// printed.
fn wanted_answer(lines: usize, above: usize, is_whole: bool) -> (Option<usize>, &'static str) {
    match REPORTS.get(lines.saturating_sub(above)) {
        Some(report) if is_whole => (None, *report),
        _ => (Some(lines.wrapping_add(1)), ""),
    }
}

/// Whether a history is replayed whole, or fails at this line of it.
fn is_answered(found: &Result<Replayed, Failure>, wrong: Option<usize>) -> bool {
    match (found, wrong) {
        (Ok(Replayed::Whole), None) => true,
        (Err(Failure::Of(failure)), Some(line)) => {
            let problem = FileProblem::Misstated(BootError::BadRecord(line));
            failure.problem == problem && matches!(failure.about, About::Course)
        }
        _ => false,
    }
}

fn cut_at_each_byte(rt: &impl Abort, alloc: Global, history: &History) {
    let name = history.name;
    let text = history.text.as_bytes();
    let mut lines = 0_usize;
    for length in 0..text.len() + 1 {
        let front = &text[..length];
        let is_whole = front.is_empty() || front.ends_with(b"\n");
        if front.ends_with(b"\n") {
            lines = lines.wrapping_add(1);
        }
        let mut out = Vec::new(alloc);
        let found = replay_text(alloc, front, &mut out);
        let (wrong, printed) = wanted_answer(lines, history.above, is_whole);
        assert!(rt;
            is_answered(&found, wrong) && out.as_slice() == printed.as_bytes(),
            "{name}, {length} bytes"
        );
    }
}

#[test]
fn history_cut_at_each_byte(rt: HostRuntime) {
    for history in HISTORIES {
        cut_at_each_byte(&rt, rt.alloc(), history);
    }
}
