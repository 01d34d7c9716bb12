//! Sessions: from the files' names, through the lines that are typed, to the end.

ghost use Rattle.std.specs.Prelude.{◌≡◌, ◌<◌, ◌++◌, ◌∷◌, [], All, IfErr, IfOk, List, MatchOption, None, OnErr, OnOk, Option, Some, true, false, ℕ};
ghost use Rattle.std.specs.Io.KnownBytes.{Appends};
ghost use Rattle.mx_app_step.specs.Asked.{Asked};
ghost use Rattle.mx_app_step.specs.Config.{Config as Configured};
ghost use Rattle.mx_app_step.specs.Course.{IsSaved};
ghost use Rattle.mx_app_step.specs.Failure.{IsUntyped, IsWanting};
ghost use Rattle.mx_app_step.specs.Service.{Service};
ghost use Rattle.mx_app_step.specs.Setup.{IsStart};
ghost use Rattle.mx_machine.specs.Boot.{world_at_boot};
ghost use Rattle.mx_machine.specs.declared.history.Record.{Record as Noted};
ghost use Rattle.mx_walk.specs.declared.progress.Part.{Part as Parts};
ghost use Rattle.mx_walk.specs.Parts.{HasGrown, walk_shown};
ghost use Rattle.mx_walk.specs.Walks.{Walk};
ghost use Rattle.mx_app_look.specs.Requests.{ends};
ghost use Rattle.mx_app_look.specs.Sessions.{HasFailed, IsAnswered, IsBegun, IsCutOff, IsSession, IsWhole, begun_text, end_text, prompt_text, sight_at};
ghost use Rattle.mx_app_look.specs.Shows.{IsShown};

use crate::answering::{answer_line, push_prompt};
use crate::places::push_place;
use crate::points::Points;
use crate::sight::Sight;
use mx_app_failure::{Failure, print_text};
use mx_app_start::Channels;
use mx_app_step::{History, LineReader, Reader, Started, start};
use mx_walk::{Progress, Walker};
use std::alloc::Global;
use std::io::Write;

/// Prints where the walker is, and asks for the first line.
fn begin<W: Write>(
    alloc: Global,
    walker: &mut Walker,
    asks: bool,
    out: &mut W,
) -> Result<(), Failure>
    ensures err { IfErr result IsWanting }
    ensures same { walker.new ≡ walker.old }
    ensures printed { OnOk result (Appends (W.contents out.old) (W.contents out.new)
        (begun_text asks walker.old)) }
{
    let mut text = Vec::new(alloc);
    push_place(alloc, &mut text, walker)?;
    push_prompt(&mut text, asks, walker)?;
    print_text(text.as_slice(), out)
}

/// Ends the line of the prompt at the end of the input.
fn print_end<W: Write>(asks: bool, out: &mut W) -> Result<(), Failure>
    ensures err { IfErr result IsWanting }
    ensures printed { OnOk result (Appends (W.contents out.old) (W.contents out.new)
        (end_text asks)) }
{
    let end = if asks { "\n" } else { "" };
    print_text(end.as_bytes(), out)
}

/// Takes the next line, if the input isn't at its end.
fn next_line<L: LineReader>(lines: &mut L, line: &mut Vec<u8>) -> Result<bool, Failure>
    ensures err { IfErr result IsUntyped }
    ensures more { IfOk result (λ more. more ≡ true
        → L.given lines.new ≡ L.given lines.old ++ Some line.new.items ∷ []) }
    ensures end { IfOk result (λ more. more ≡ false
        → L.given lines.new ≡ L.given lines.old ++ None ∷ []) }
    ensures failed { OnErr result (L.given lines.new ≡ L.given lines.old) }
{
    match lines.next(line) {
        Ok(more) => Ok(more),
        Err(error) => Err(Failure::input(&error)),
    }
}

/// A session: what it has in hand, and whether it asks for each line.
#[derive(Drop)]
struct Session {
    sight: Sight,
    asks: bool,
}

/// Prints the answer to a line, and what asks for the next; answers what is in hand then, or nothing if the
/// line ends the session.
fn reply<P: Progress, W: Write>(
    alloc: Global,
    session: Session,
    line: &[u8],
    progress: &mut P,
    out: &mut W,
) -> Result<Option<Sight>, Failure>
    ensures err { IfErr result IsWanting }
    ensures answered { IfOk result (λ next. MatchOption next
        ((ends line.now ≡ true) × (P.shown progress.new ≡ P.shown progress.old)
        × (W.contents out.new ≡ W.contents out.old))
        (λ s. (ends line.now ≡ false) × ((text : List ℕ) × (ps : List Parts)
        × IsAnswered session.sight line.now s text × IsShown session.sight line.now ps
        × (P.shown progress.new ≡ P.shown progress.old ++ ps)
        × Appends (W.contents out.old) (W.contents out.new)
        (text ++ prompt_text session.asks s.walker)))) }
    ensures grown { IfErr result (λ _. HasGrown (P.shown progress.old) (P.shown progress.new)) }
{
    let Session { sight, asks } = session;
    match answer_line(alloc, sight, line, asks, progress)? {
        Some((next, text)) => {
            print_text(text.as_slice(), out)?;
            Ok(Some(next))
        }
        None => Ok(None),
    }
}

/// Answers lines up to one that ends the session, or to the end of the input. No session reaches the count.
fn converse<L: LineReader, P: Progress, W: Write>(
    alloc: Global,
    session: Session,
    lines: &mut L,
    progress: &mut P,
    out: &mut W,
) -> Result<(), Failure>
    ensures err { IfErr result (λ f. IsCutOff f × ((typed : List (Option (List ℕ)))
        × (L.given lines.new ≡ L.given lines.old ++ typed))
        × HasGrown (P.shown progress.old) (P.shown progress.new)) }
    ensures printed { OnOk result ((typed : List (Option (List ℕ))) × (text : List ℕ)
        × (ps : List Parts) × (L.given lines.new ≡ L.given lines.old ++ typed) × IsWhole typed
        × IsSession session.asks session.sight typed text ps
        × (P.shown progress.new ≡ P.shown progress.old ++ ps)
        × Appends (W.contents out.old) (W.contents out.new) text) }
{
    let Session { sight, asks } = session;
    let mut sight = sight;
    let mut line = Vec::new(alloc);
    for _ in 0..u64::MAX {
        if !next_line(lines, &mut line)? {
            return print_end(asks, out);
        }
        let session = Session { sight, asks };
        match reply(alloc, session, line.as_slice(), progress, out)? {
            Some(next) => sight = next,
            None => return Ok(()),
        }
    }
    Ok(())
}

/// A session: the names of the files of its configuration and of its saved history.
#[derive(Clone, Copy)]
pub struct SessionWanted<'a> {
    pub config: &'a str,
    pub log: &'a str,
    /// Whether the position is printed before each line.
    pub asks: bool,
}

/// Starts the machine of a saved history, walks the history once, and is then at its first position.
fn start_walker<R: Reader, P: Progress>(
    alloc: Global,
    reader: &mut R,
    progress: &mut P,
    wanted: SessionWanted<'_>,
) -> Result<Walker, Failure>
    ensures begun { IfOk result (λ k. (qs : List Asked) × (c : Configured) × (vs : List Service)
        × (records : List Noted) × (R.asked reader.new ≡ R.asked reader.old ++ qs)
        × (P.shown progress.new ≡ P.shown progress.old ++ walk_shown k.records k.last)
        × IsStart IsSaved wanted.entry.config.now wanted.entry.log.now qs c vs records
        × IsBegun (world_at_boot c vs) records k) }
    ensures fault { IfErr result (λ f. (qs : List Asked) × (ps : List Parts)
        × (R.asked reader.new ≡ R.asked reader.old ++ qs)
        × (P.shown progress.new ≡ P.shown progress.old ++ ps)
        × HasFailed wanted.entry.config.now wanted.entry.log.now qs ps f) }
{
    let Started {
        machine,
        config,
        other: _,
        lines: records,
    } = start::<History, R>(alloc, reader, wanted.config, wanted.log)?;
    let walker = Walker::new(alloc, machine, config, records, progress)?;
    progress.clear();
    Ok(walker)
}

/// Starts the machine of a saved history, and answers the lines that are typed: requests to go forward and
/// back in the history, and to show what is there. It takes lines up to `quit` or to the end of the input, and
/// none after that, and writes no file. A session's text is a function of the configuration, the programs, the
/// history and the lines. At the beginning it walks the history once. `progress` is shown each record of that
/// walk and of each later one.
pub fn look<R: Reader + Drop, F: Drop, W: Write + Drop, L: LineReader, P: Progress>(
    alloc: Global,
    channels: &mut Channels<R, F, W>,
    lines: &mut L,
    progress: &mut P,
    wanted: SessionWanted<'_>,
) -> Result<(), Failure>
    ensures files { channels.new.files ≡ channels.old.files }
    ensures printed { OnOk result ((qs : List Asked) × (c : Configured) × (vs : List Service)
        × (records : List Noted) × (k : Walk) × (typed : List (Option (List ℕ))) × (text : List ℕ)
        × (ps : List Parts)
        × (R.asked channels.new.reader ≡ R.asked channels.old.reader ++ qs)
        × (L.given lines.new ≡ L.given lines.old ++ typed) × IsWhole typed
        × (P.shown progress.new ≡ P.shown progress.old ++ (walk_shown k.records k.last ++ ps))
        × IsStart IsSaved wanted.entry.config.now wanted.entry.log.now qs c vs records
        × IsBegun (world_at_boot c vs) records k
        × IsSession wanted.entry.asks (sight_at k) typed text ps
        × Appends (W.contents channels.old.out) (W.contents channels.new.out)
        (begun_text wanted.entry.asks k ++ text)) }
    ensures fault { IfErr result (λ f. (qs : List Asked) × (typed : List (Option (List ℕ)))
        × (ps : List Parts)
        × (R.asked channels.new.reader ≡ R.asked channels.old.reader ++ qs)
        × (L.given lines.new ≡ L.given lines.old ++ typed)
        × (P.shown progress.new ≡ P.shown progress.old ++ ps)
        × HasFailed wanted.entry.config.now wanted.entry.log.now qs ps f) }
{
    let mut walker = start_walker(alloc, &mut channels.reader, progress, wanted)?;
    let asks = wanted.asks;
    begin(alloc, &mut walker, asks, &mut channels.out)?;
    let sight = Sight {
        walker,
        points: Points::new(),
    };
    let session = Session { sight, asks };
    converse(alloc, session, lines, progress, &mut channels.out)
}
