//! The program over the files and the streams of the runtime.

ghost use Rattle.std.specs.Prelude.{◌≡◌, ◌⊎◌, Err, IfErr, MatchResult, Ok};
ghost use Rattle.std.specs.IoError.{error_kind};
ghost use Rattle.mx_app.specs.Words.{words_failure_of};

use crate::after_run::{status_after, told_after, unknown_line, wants_marks};
use crate::asking::{begin_with, texts_asked};
use crate::command_io::CommandIo;
use crate::command_status::{complaint_of, perform_words};
use crate::complaint::Complaint;
use crate::ending::{NotingOutput, PrintedText, Terminals};
use crate::performing::Done;
use crate::summing::LineFailure;
use mx_app_command::{CommandLine, command};
use mx_app_failure::Failure;
use mx_app_live::Seat;
use mx_app_start::{Channels, InputLines, Reader, RuntimeFiles, RuntimeProgress, RuntimeWriter};
use mx_walk::Progress;
use mx_why::AfterRun;
use std::alloc::Global;
use std::io::IsTerminal;
use std::rt::{Env, Files};
use std::sync::Wait;
use std::thread::Threads;
use std::time::Clock;
use std::{env, io};

/// Why the program's words can't be had.
fn words_failure(error: &io::Error) -> Failure
    ensures { result ≡ words_failure_of (error_kind error.now) }
{
    match error.kind() {
        io::ErrorKind::OutOfMemory => Failure::NoMemory,
        _ => Failure::NotText,
    }
}

/// The program's words, its own name first.
fn arguments(rt: &(impl Env + AllocGlobal)) -> Result<Vec<String>, Failure>
    ensures { IfErr result (λ failure. (failure ≡ Failure.NotText) ⊎ (failure ≡ Failure.NoMemory)) }
{
    let words = match env::args(rt) {
        Ok(words) => words,
        Err(error) => return Err(words_failure(&error)),
    };
    let mut arguments = Vec::new(rt.alloc());
    for word in words {
        arguments.push(word)?;
    }
    Ok(arguments)
}

/// What a command has printed that is done.
fn printed_text(words: &[&str], done: Done) -> PrintedText {
    match done.ending {
        Some(ending) => PrintedText::Report(ending),
        None => if begin_with(words, "nm") {
            PrintedText::Symbols
        } else {
            PrintedText::Other
        },
    }
}

/// What a command that is done tells of the history that it has made.
#[derive(Drop)]
struct Marks {
    /// The line of standard error, if the history has a mark, or if that isn't known.
    line: Option<String>,
    /// Whether a mark is an error.
    strict: bool,
    /// Why nobody knows whether there is one, if a mark is an error.
    failure: Option<Complaint>,
}

/// The line of the history that a request has made, if it has a mark and somebody wants to know it, or if it is so long
/// that this isn't known. Fails if the history can't be read again.
fn marked_line<R: Reader>(
    alloc: Global,
    reader: &mut R,
    terminals: Terminals,
    line: CommandLine<'_>,
    done: Done,
) -> Result<Option<String>, Failure> {
    if !wants_marks(done.ending, terminals.err, line.strict) {
        return Ok(None);
    }
    match told_after(alloc, reader, line.request, line.strict)? {
        AfterRun::Line(text) => Ok(String::from_utf8(text).ok()),
        AfterRun::Unknown => match unknown_line(alloc, line.request, done.ending)? {
            Some(text) => Ok(String::from_utf8(text).ok()),
            None => Ok(None),
        },
        AfterRun::Nothing => Ok(None),
    }
}

/// What is told of the history that a request has made. That it can't be read again is an error only if a mark is one:
/// nobody can say then that there is none.
fn marks_of<R: Reader>(
    alloc: Global,
    reader: &mut R,
    terminals: Terminals,
    line: CommandLine<'_>,
    done: Done,
) -> Marks {
    let mut marks = Marks {
        line: None,
        strict: line.strict,
        failure: None,
    };
    match marked_line(alloc, reader, terminals, line, done) {
        Ok(told) => marks.line = told,
        Err(failure) => if line.strict {
            let failure = LineFailure::Request(failure);
            marks.failure = Some(complaint_of(alloc, line, terminals.err, failure));
        },
    }
    marks
}

/// What is told after a command with this answer of the history that it has made.
fn marks_after<R: Reader>(
    alloc: Global,
    reader: &mut R,
    terminals: Terminals,
    words: &[&str],
    answer: &Result<Done, Complaint>,
) -> Marks {
    match (answer, command(alloc, words)) {
        (Ok(done), Ok(line)) => marks_of(alloc, reader, terminals, line, *done),
        _ => Marks {
            line: None,
            strict: false,
            failure: None,
        },
    }
}

/// Helps a reader at a terminal after a command that printed such a text up to this byte. What is told of a mark
/// says how the command ended, too.
fn help_reader(
    rt: &(impl Print + Eprint),
    terminals: Terminals,
    printed: PrintedText,
    marks: &Marks,
    last: Option<u8>,
) {
    let end = terminals.text_end(last);
    let _ = print!(rt; "{end}");
    match &marks.line {
        Some(line) => {
            let _ = eprint!(rt; "{line}");
        }
        None => {
            let note = terminals.note(printed, last);
            let _ = eprint!(rt; "{note}");
        }
    }
}

/// Helps a reader at a terminal after a command with this answer, whose text had this last byte.
fn help_after(
    rt: &(impl Print + Eprint),
    terminals: Terminals,
    words: &[&str],
    answer: &Result<Done, Complaint>,
    marks: &Marks,
    last: Option<u8>,
) {
    let printed = match answer {
        Ok(done) => printed_text(words, *done),
        Err(_) => PrintedText::Other,
    };
    // a session's reader has ended the last line, and gdb reads packets
    let last = if begin_with(words, "look") || begin_with(words, "gdb") {
        None
    } else {
        last
    };
    help_reader(rt, terminals, printed, marks, last);
}

/// Says on standard error why a sweep tested nothing, or that gdb was to have a slot that isn't there.
fn tell_missing(rt: &impl Eprint, done: Done) {
    if let Some(why) = done.untested {
        let _ = eprint!(rt; "{why}\n");
    }
    if let Some(slot) = done.absent {
        let _ = eprint!(rt; "mx: slot {slot} has no service\n");
    }
}

/// Says on standard error what a command has missed, if it is done.
fn tell_untested(rt: &impl Eprint, answer: &Result<Done, Complaint>) {
    if let Ok(done) = answer {
        tell_missing(rt, *done);
    }
}

/// The status to end with after what is done.
fn status_of(answer: Result<Done, Complaint>) -> Result<u8, Complaint>
    ensures { MatchResult answer (λ done. result ≡ Ok done.status)
        (λ complaint. result ≡ Err complaint) }
{
    match answer {
        Ok(done) => Ok(done.status),
        Err(complaint) => Err(complaint),
    }
}

/// What the progress of a command counts. A page shows that of a sweep.
fn unit_of(words: &[&str]) -> &'static str {
    if begin_with(words, "sweep") || begin_with(words, "page") {
        "positions"
    } else if begin_with(words, "explore") {
        "schedules"
    } else {
        "records"
    }
}

/// Does what words ask for, and answers the status to end with, or why it isn't done.
fn perform_texts<R>(rt: &R, terminals: Terminals, words: &[&str]) -> Result<u8, Complaint>
where
    R: Env + Files + Input + Print + Eprint + AllocGlobal + Threads + Wait + Clock + Sync,
    R::Reader: IsTerminal,
    R::File: Send,
    R::Dir: Send,
{
    let mut work = CommandIo {
        channels: Channels {
            reader: RuntimeFiles::new(rt),
            files: RuntimeWriter::new(rt),
            out: NotingOutput::new(io::writer(rt)),
        },
        lines: InputLines::new(rt.reader()),
        seat: Seat::new(rt),
        progress: RuntimeProgress::new(rt, terminals.err, unit_of(words)),
        asks: terminals.input && terminals.out,
    };
    let answer = perform_words(rt, rt.alloc(), words, &mut work, terminals.err);
    work.progress.clear();
    let reader = &mut work.channels.reader;
    let marks = marks_after(rt.alloc(), reader, terminals, words, &answer);
    help_after(
        rt,
        terminals,
        words,
        &answer,
        &marks,
        work.channels.out.last(),
    );
    tell_untested(rt, &answer);
    let status = status_of(answer)?;
    let Marks {
        line,
        strict,
        failure,
    } = marks;
    match failure {
        Some(complaint) => Err(complaint),
        None => Ok(status_after(status, strict, line.is_some())),
    }
}

/// Does what the program's words ask for, and answers the status to end with, or why it isn't done.
fn perform_arguments<R>(rt: &R, terminals: Terminals) -> Result<u8, Complaint>
where
    R: Env + Files + Input + Print + Eprint + AllocGlobal + Threads + Wait + Clock + Sync,
    R::Reader: IsTerminal,
    R::File: Send,
    R::Dir: Send,
{
    let arguments = arguments(rt)?;
    let texts = texts_asked(rt.alloc(), arguments.as_slice())?;
    perform_texts(rt, terminals, texts.as_slice())
}

/// Does what the program's words ask for with the files and the streams of the runtime; if it isn't done,
/// prints why on standard error. Answers the status to end with.
pub fn run_program<R>(rt: &R, terminals: Terminals) -> u8
where
    R: Env + Files + Input + Print + Eprint + AllocGlobal + Threads + Wait + Clock + Sync,
    R::Reader: IsTerminal,
    R::File: Send,
    R::Dir: Send,
{
    match perform_arguments(rt, terminals) {
        Ok(status) => status,
        Err(complaint) => {
            let _ = eprint!(rt; "{complaint}");
            complaint.status()
        }
    }
}
