//! What standard error gets after a command that made a history, if that has a mark.

ghost use Rattle.std.specs.Prelude.{◌≡◌, ◌==◌, ◌++◌, ◌∷◌, [], IfErr, IfOk, List, OnOk, false, length, option_map, ℕ};
ghost use Rattle.mx_app_db.specs.Asked.{Asked, file_given};
ghost use Rattle.mx_why.specs.Begun.{names_of};
ghost use Rattle.mx_app.specs.AfterRun.{IsNotAgain, TellsAfter, TellsAgain, ended_text, is_stopped, made_by, pointer_text, status_after, unknown_line, unknown_text, wants_marks};

use crate::ending::DrivenEnding;
use mx_app_command::CommandRequest;
use mx_app_failure::{About, Access, Failure, FileProblem};
use mx_app_run::RunEnding;
use mx_app_start::Reader;
use mx_why::{AfterRun, HistoryNames, line_after_run, push_command};
use std::alloc::{AllocError, Global};

/// Whether turns or a run were stopped.
fn is_stopped(ending: Option<DrivenEnding>) -> bool
    ensures { result ≡ is_stopped ending }
{
    matches!(
        ending,
        Some(DrivenEnding::Run(RunEnding::Stopped) | DrivenEnding::Interrupted)
    )
}

/// Whether it is told if a history has a mark: where standard error shows it to somebody, or if a mark is an error;
/// not if the run was stopped.
pub fn wants_marks(ending: Option<DrivenEnding>, shows: bool, strict: bool) -> bool
    ensures { result ≡ wants_marks ending shows strict }
{
    !is_stopped(ending) && (shows || strict)
}

/// The status to end with: 1 in place of 0, if a mark is an error and there is one.
pub fn status_after(status: u8, strict: bool, marked: bool) -> u8
    ensures { result ≡ status_after status strict marked }
{
    if status == 0 && strict && marked {
        1
    } else {
        status
    }
}

/// The files of the history that a request makes. A session tells itself how it goes.
fn made_by(request: CommandRequest<'_>) -> Option<HistoryNames<'_>>
    ensures { option_map names_of result ≡ made_by request.entry }
{
    match request {
        CommandRequest::Step {
            config,
            save: Some(log),
            ..
        } => Some(HistoryNames {
            config,
            log,
            events: None,
        }),
        CommandRequest::Run {
            config,
            log,
            events,
            ..
        } => Some(HistoryNames {
            config,
            log,
            events,
        }),
        CommandRequest::Turns {
            config,
            log,
            events,
            ..
        } => Some(HistoryNames {
            config,
            log,
            events,
        }),
        _ => None,
    }
}

/// Refuses a history that can't be read again. A pipe has no first bytes: to read it waits for who writes to it.
fn first_again<R: Reader>(alloc: Global, reader: &mut R, log: &str) -> Result<(), Failure>
    ensures again { IfOk result (λ _. (front : List ℕ)
        × (R.asked reader.new ≡ R.asked reader.old ++ file_given log.now front ∷ [])
        × ((length front == 0) ≡ false)) }
    ensures not_again { IfErr result (λ f. (qs : List Asked)
        × (R.asked reader.new ≡ R.asked reader.old ++ qs) × IsNotAgain log.now qs f) }
{
    match reader.read_front(alloc, log) {
        Ok(front) => if front.is_empty() {
            let problem = FileProblem::Unread(Access::Other);
            Err(Failure::of(Some(problem), About::Written))
        } else {
            Ok(())
        },
        Err(error) => Err(Failure::unread(&error, About::Written)),
    }
}

/// What is told of the history in these files, which is run again.
fn told_again<R: Reader>(
    alloc: Global,
    reader: &mut R,
    names: HistoryNames<'_>,
    strict: bool,
) -> Result<AfterRun, Failure>
    ensures { (qs : List Asked) × (R.asked reader.new ≡ R.asked reader.old ++ qs)
        × TellsAgain strict (names_of names.entry) qs result }
{
    first_again(alloc, reader, names.log)?;
    line_after_run(alloc, reader, names, strict)
}

/// What is told of the history that a request has made, if it makes one and that has a mark: how it ended, the
/// first line with a mark, and how many more there are. The history is run again for it. A long one is only if a mark is
/// an error: nobody waits for what wasn't asked for.
pub fn told_after<R: Reader>(
    alloc: Global,
    reader: &mut R,
    request: CommandRequest<'_>,
    strict: bool,
) -> Result<AfterRun, Failure>
    ensures { (qs : List Asked) × (R.asked reader.new ≡ R.asked reader.old ++ qs)
        × TellsAfter strict (made_by request.entry) qs result }
{
    match made_by(request) {
        Some(names) => told_again(alloc, reader, names, strict),
        None => Ok(AfterRun::Nothing),
    }
}

/// Appends how turns or a run ended.
#[tactic(auto, unfolding(crate::specs::AfterRun::ended_text))]
fn push_ended(out: &mut Vec<u8>, word: &str) -> Result<(), AllocError>
    ensures { OnOk result (out.new.items ≡ out.old.items ++ ended_text word.now) }
{
    out.extend_from_slice(b"mx: ")?;
    out.extend_from_slice(word.as_bytes())
}

/// Appends what tells more of a history.
#[tactic(auto, unfolding(crate::specs::AfterRun::pointer_text))]
fn push_pointer(out: &mut Vec<u8>, names: HistoryNames<'_>) -> Result<(), AllocError>
    ensures { OnOk result (out.new.items ≡ out.old.items ++ pointer_text (names_of names.entry)) }
{
    out.extend_from_slice(b";")?;
    push_command(out, names)
}

/// Appends the line of a history that isn't run again.
#[tactic(auto, unfolding(crate::specs::AfterRun::unknown_text))]
fn push_unknown(out: &mut Vec<u8>, word: &str, names: HistoryNames<'_>) -> Result<(), AllocError>
    ensures { OnOk result (out.new.items
        ≡ out.old.items ++ unknown_text word.now (names_of names.entry)) }
{
    push_ended(out, word)?;
    push_pointer(out, names)?;
    out.extend_from_slice(b"\n")
}

/// What is told of a history that isn't run again: how the turns or the run ended, and what tells more.
pub fn unknown_line(
    alloc: Global,
    request: CommandRequest<'_>,
    ending: Option<DrivenEnding>,
) -> Result<Option<Vec<u8>>, AllocError>
    ensures { IfOk result (λ line. option_map (λ l. l.items) line
        ≡ unknown_line ending (made_by request.entry)) }
{
    match (made_by(request), ending) {
        (Some(names), Some(ending)) => {
            let mut line = Vec::new(alloc);
            push_unknown(&mut line, ending.word(), names)?;
            Ok(Some(line))
        }
        _ => Ok(None),
    }
}
