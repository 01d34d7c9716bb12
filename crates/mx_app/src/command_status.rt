//! From the words of the command line to a status.

ghost use Rattle.std.specs.Prelude.{◌≡◌, IfErr, IfOk, map, string_bytes};
ghost use Rattle.std.specs.Io.KnownBytes.{Appends};
ghost use Rattle.mx_app_failure.specs.Failure.{IsWanting};
ghost use Rattle.mx_app.specs.Deeds.{Does};
ghost use Rattle.mx_app.specs.Words.{AnswersMistake, Explains, explained_line, explains, IsAnswered, IsComplaintOf, IsPerformed};

use crate::command_io::CommandIo;
use crate::complaint::Complaint;
use crate::performing::Done;
use crate::summing::{LineFailure, perform_line};
use clap::Error;
use clap::error::ErrorKind;
use mx_app_command::{CommandLine, Mistake, command};
use mx_app_explain::{explain_failure, explain_sums};
use mx_app_failure::{Failure, print_text};
use mx_app_live::Outside;
use mx_app_start::{FileWriter, LineReader, Reader, SharedProgress};
use mx_walk::Progress;
use std::alloc::{AllocError, Global};
use std::io::Write;
use std::rt::Files;
use std::sync::Wait;
use std::thread::Threads;
use std::time::Clock;

/// Prints a text, whole, and flushes.
fn print_help<W: Write>(alloc: Global, error: &Error, out: &mut W) -> Result<(), Failure>
    ensures { IfErr result IsWanting }
{
    let text = format!(in alloc; "{error}")?;
    print_text(text.as_bytes(), out)
}

/// Prints help if it was asked for; what is wrong with the words is a complaint.
#[tactic(auto, using(mx_app_start::proofs::Appended::appends_nothing))]
fn explain<W: Write>(alloc: Global, error: Error, out: &mut W) -> Result<Done, Complaint>
    ensures { Explains error (λ text. Appends (W.contents out.old) (W.contents out.new) text)
        result }
{
    if error.kind() == ErrorKind::OutOfMemory {
        return Err(Complaint::from(Failure::NoMemory));
    }
    if error.use_stderr() {
        return Err(Complaint::Mistaken(error));
    }
    print_help(alloc, &error, out)?;
    Ok(Done::with_status(0))
}

/// What comes of words that ask for nothing: their error's, or that `--ticks` and `--events` exclude each
/// other.
#[tactic(auto, using(mx_app_start::proofs::Appended::appends_nothing))]
fn complain<W: Write>(alloc: Global, mistake: Mistake, out: &mut W) -> Result<Done, Complaint>
    ensures { AnswersMistake mistake
        (λ text. Appends (W.contents out.old) (W.contents out.new) text) result }
{
    match mistake {
        Mistake::Grammar(error) => explain(alloc, error, out),
        Mistake::TicksAndEvents => Err(Complaint::TicksAndEvents),
        Mistake::LiveWithCourse => Err(Complaint::LiveWithCourse),
        Mistake::NotLive => Err(Complaint::NotLive),
        Mistake::NoFault => Err(Complaint::NoFault),
        Mistake::NoPart => Err(Complaint::NoPart),
    }
}

/// Whether a failure is explained: if that is asked for, or if standard error shows it to somebody, unless it
/// is asked not to.
fn explains(line: CommandLine<'_>, shows: bool) -> bool
    ensures { result ≡ explains line.entry shows }
{
    (line.explains || shows) && !line.silent
}

/// What explains a failure, by the request or by the file of sums: a line without its end.
fn explained_line(
    alloc: Global,
    line: CommandLine<'_>,
    failure: &LineFailure,
) -> Result<String, AllocError>
    ensures { IfOk result (λ text. string_bytes text
        ≡ explained_line line.entry failure.now) }
{
    match failure {
        LineFailure::Request(failure) => explain_failure(alloc, line.request, failure),
        LineFailure::Sums(fault) => match line.sums {
            Some(name) => explain_sums(alloc, name, *fault),
            None => explain_sums(alloc, "", *fault),
        },
    }
}

/// The complaint of a failure, with the line that explains it if that is asked for.
#[tactic(auto, using(crate::proofs::Complaints::complaint_plain, crate::proofs::Complaints::complaint_unexplained))]
pub fn complaint_of(
    alloc: Global,
    line: CommandLine<'_>,
    shows: bool,
    failure: LineFailure,
) -> Complaint
    ensures { IsComplaintOf line.entry shows failure result }
{
    if !explains(line, shows) {
        return Complaint::Failed(failure);
    }
    match explained_line(alloc, line, &failure) {
        Ok(text) => Complaint::Explained(failure, text),
        Err(_) => Complaint::Unexplained(failure),
    }
}

/// The answer to a request that was done or that failed.
fn answer(
    alloc: Global,
    line: CommandLine<'_>,
    shows: bool,
    done: Result<Done, LineFailure>,
) -> Result<Done, Complaint>
    ensures { IsAnswered line.entry shows done result }
{
    match done {
        Ok(done) => Ok(done),
        Err(failure) => Err(complaint_of(alloc, line, shows, failure)),
    }
}

/// Does what the words of a command line ask for, the program's own name first, and answers the status to
/// end with and how turns ended, or what standard error gets, which `shows` it at once if it is a terminal.
pub fn perform_words<
    'a,
    T: Threads + Wait + Clock + Files + Sync,
    R: Reader + Drop,
    F: FileWriter + Drop,
    W: Write + Drop,
    L: LineReader + Drop,
    O: Outside + Drop,
    P: Progress + SharedProgress + Sync + Drop,
>(
    rt: &T,
    alloc: Global,
    words: &'a [&'a str],
    io: &mut CommandIo<R, F, W, L, O, P>,
    shows: bool,
) -> Result<Done, Complaint>
where
    T::File: Send,
    T::Dir: Send,
    ensures asks { io.new.asks ≡ io.old.asks }
    ensures done { Does io.old io.new R.asked F.written W.contents L.given O.heard O.told P.shown
        (λ did Prints. IsPerformed (P.was_shown io.old.progress)
        (map (λ s. s.now) words.now) io.old.asks shows did Prints result) }
{
    match command(alloc, words) {
        Ok(line) => {
            let done = perform_line(rt, alloc, io, line);
            answer(alloc, line, shows, done)
        }
        Err(mistake) => complain(alloc, mistake, &mut io.channels.out),
    }
}
