//! The talk with gdb: from the files' names, through the bytes that come, to the end.

ghost use Rattle.std.specs.Prelude.{◌≡◌, ◌++◌, ◌∷◌, [], IfErr, IfOk, List, OnErr, OnOk, Option, length, map, min, option_map, true, ℕ};
ghost use Rattle.std.specs.Io.KnownBytes.{Appends};
ghost use Rattle.mx_app_start.specs.Asked.{byte_line};
ghost use Rattle.mx_app_step.specs.Asked.{Asked};
ghost use Rattle.mx_app_step.specs.Config.{Config as Configured};
ghost use Rattle.mx_app_step.specs.Failure.{IsUntyped, IsWanting, PrintsFront};
ghost use Rattle.mx_walk.specs.declared.progress.Part.{Part as Parts};
ghost use Rattle.mx_walk.specs.Parts.{HasGrown};
ghost use Rattle.mx_walk.specs.Walks.{Walk};
ghost use Rattle.mx_app_look.specs.Sessions.{HasFailed, sight_at};
ghost use Rattle.mx_app_gdb.specs.Replied.{text_of};
ghost use Rattle.mx_app_gdb.specs.Threads.{threads_at};
ghost use Rattle.mx_app_gdb.specs.Talks.{HasTalkFailed, IsAnswerBegun, IsAnswered, IsByteBegun, IsByteHeard, IsLeft, IsOpened, IsTalk, IsTalkCut, IsTalked, file_names, if_acks, last_of, only_by, reply_text};

use crate::replying::{After, Reply, reply_to};
use crate::stub::Stub;
use crate::symbol_files::symbol_files;
use crate::threads::Threads;
use mx_app_failure::{Failure, print_text};
use mx_app_look::{Points, Sight};
use mx_app_start::{Channels, History, LineReader, Reader as FileReader, Started, start};
use mx_proc::Slot;
use mx_rsp::{Heard, Reader, packet_of, request_of};
use mx_walk::{Progress, Walker};
use std::alloc::Global;
use std::io::Write;

/// The names of the files of a configuration and of its saved history, and the only slot that gdb is to have, if it is
/// to have only one.
#[derive(Clone, Copy)]
pub struct TalkWanted<'a> {
    pub config: &'a str,
    pub log: &'a str,
    pub slot: Option<u32>,
}

/// How a talk ends.
#[derive(Clone, Copy, PartialEq, Eq)]
pub enum TalkEnding {
    /// gdb left it, or the input ended.
    Over,
    /// It didn't begin: the slot that gdb was to have has no service.
    NoService(u32),
}

/// What a talk has in hand: the stub, who reads packets, whether they are acknowledged, and the last one that was
/// written.
#[derive(Drop)]
struct Talk {
    stub: Stub,
    reader: Reader,
    acks: bool,
    last: Vec<u8>,
}

/// Writes a byte about a packet, if packets are acknowledged.
fn acknowledge<W: Write>(acks: bool, byte: &[u8], out: &mut W) -> Result<(), Failure>
    ensures err { IfErr result IsWanting }
    ensures begun { IfErr result (λ _. PrintsFront
        (λ front. Appends (W.contents out.old) (W.contents out.new) front)
        (if_acks acks byte.now)) }
    ensures bytes { OnOk result (Appends (W.contents out.old) (W.contents out.new)
        (if_acks acks byte.now)) }
{
    if acks { print_text(byte, out) } else { Ok(()) }
}

/// Writes a reply in a packet, if there is one. Answers the last packet that was written.
fn write_reply<W: Write>(
    alloc: Global,
    last: Vec<u8>,
    text: Option<Vec<u8>>,
    out: &mut W,
) -> Result<Vec<u8>, Failure>
    ensures err { IfErr result IsWanting }
    ensures last { IfOk result (λ now. now.items
        ≡ last_of last.items (option_map (λ v. v.items) text)) }
    ensures begun { IfErr result (λ _. PrintsFront
        (λ front. Appends (W.contents out.old) (W.contents out.new) front)
        (reply_text (option_map (λ v. v.items) text))) }
    ensures bytes { OnOk result (Appends (W.contents out.old) (W.contents out.new)
        (reply_text (option_map (λ v. v.items) text))) }
{
    match text {
        Some(text) => {
            let whole = packet_of(alloc, text.as_slice())?;
            print_text(whole.as_slice(), out)?;
            Ok(whole)
        }
        None => Ok(last),
    }
}

/// Writes a reply in a packet, if there is one. Answers what is in hand after it; nothing if the talk is over.
fn send<W: Write>(
    alloc: Global,
    talk: Talk,
    reply: Reply,
    out: &mut W,
) -> Result<Option<Talk>, Failure>
    ensures err { IfErr result IsWanting }
    ensures left { IfOk result (λ next. IsLeft talk talk.stub (text_of reply) reply.after next) }
    ensures begun { IfErr result (λ _. PrintsFront
        (λ front. Appends (W.contents out.old) (W.contents out.new) front)
        (reply_text (text_of reply))) }
    ensures bytes { OnOk result (Appends (W.contents out.old) (W.contents out.new)
        (reply_text (text_of reply))) }
{
    let Talk {
        stub,
        reader,
        acks,
        last,
    } = talk;
    let Reply { text, after } = reply;
    let last = write_reply(alloc, last, text, out)?;
    match after {
        After::More => Ok(Some(Talk {
            stub,
            reader,
            acks,
            last,
        })),
        After::NoAcks => Ok(Some(Talk {
            stub,
            reader,
            acks: false,
            last,
        })),
        After::Over => Ok(None),
    }
}

/// Writes the reply to a packet. Answers what is in hand after it; nothing if the talk is over.
fn answer<P: Progress, W: Write>(
    alloc: Global,
    talk: Talk,
    payload: &[u8],
    progress: &mut P,
    out: &mut W,
) -> Result<Option<Talk>, Failure>
    ensures err { IfErr result IsWanting }
    ensures answered { IfOk result (λ next. (text : List ℕ)
        × IsAnswered talk payload.now next text
        × Appends (W.contents out.old) (W.contents out.new) text) }
    ensures begun { IfErr result (λ _. IsAnswerBegun talk payload.now
        (λ text. Appends (W.contents out.old) (W.contents out.new) text)) }
    ensures grown { HasGrown (P.shown progress.old) (P.shown progress.new) }
{
    acknowledge(talk.acks, b"+", out)?;
    let Talk {
        stub,
        reader,
        acks,
        last,
    } = talk;
    let request = request_of(alloc, payload)?;
    let (stub, answered) = reply_to(alloc, stub, &request, progress)?;
    let talk = Talk {
        stub,
        reader,
        acks,
        last,
    };
    send(alloc, talk, answered, out)
}

/// Writes what a byte is answered, if it is. Answers what is in hand after it; nothing if the talk is over.
fn hear<P: Progress, W: Write>(
    alloc: Global,
    talk: Talk,
    byte: u8,
    progress: &mut P,
    out: &mut W,
) -> Result<Option<Talk>, Failure>
    ensures err { IfErr result IsWanting }
    ensures heard { IfOk result (λ next. (text : List ℕ)
        × IsByteHeard talk byte next text
        × Appends (W.contents out.old) (W.contents out.new) text) }
    ensures begun { IfErr result (λ _. IsByteBegun talk byte
        (λ text. Appends (W.contents out.old) (W.contents out.new) text)) }
    ensures grown { HasGrown (P.shown progress.old) (P.shown progress.new) }
{
    let mut talk = talk;
    match talk.reader.hear(alloc, byte)? {
        Heard::Nothing => Ok(Some(talk)),
        Heard::Again => {
            acknowledge(talk.acks, talk.last.as_slice(), out)?;
            Ok(Some(talk))
        }
        Heard::Wrong => {
            acknowledge(talk.acks, b"-", out)?;
            Ok(Some(talk))
        }
        // A packet that is too long asks for nothing known.
        Heard::TooLong => answer(alloc, talk, b"", progress, out),
        Heard::Packet(payload) => answer(alloc, talk, payload.as_slice(), progress, out),
    }
}

/// Takes the next byte, if the input isn't at its end.
fn next_byte<L: LineReader>(lines: &mut L) -> Result<Option<u8>, Failure>
    ensures err { IfErr result IsUntyped }
    ensures given { IfOk result (λ byte. L.given lines.new
        ≡ L.given lines.old ++ byte_line byte ∷ []) }
    ensures failed { OnErr result (L.given lines.new ≡ L.given lines.old) }
{
    match lines.next_byte() {
        Ok(byte) => Ok(byte),
        Err(error) => Err(Failure::input(&error)),
    }
}

/// Answers bytes up to the end of the input, or of the talk. No talk reaches the count.
fn converse<L: LineReader, P: Progress, W: Write>(
    alloc: Global,
    talk: Talk,
    lines: &mut L,
    progress: &mut P,
    out: &mut W,
) -> Result<(), Failure>
    ensures cut { IfErr result (λ f. (typed : List (Option (List ℕ)))
        × (L.given lines.new ≡ L.given lines.old ++ typed)
        × IsTalkCut talk typed (λ text. Appends (W.contents out.old) (W.contents out.new) text) f) }
    ensures talked { OnOk result ((typed : List (Option (List ℕ))) × (text : List ℕ)
        × (L.given lines.new ≡ L.given lines.old ++ typed) × IsTalk talk typed text
        × Appends (W.contents out.old) (W.contents out.new) text) }
    ensures grown { HasGrown (P.shown progress.old) (P.shown progress.new) }
{
    let mut talk = talk;
    for _ in 0..u64::MAX {
        let Some(byte) = next_byte(lines)? else {
            return Ok(());
        };
        match hear(alloc, talk, byte, progress, out)? {
            Some(next) => talk = next,
            None => return Ok(()),
        }
    }
    Ok(())
}

/// A history that is opened: at its first position, with nothing to halt at, and the files that gdb reads symbols from.
#[derive(Drop)]
struct Opened {
    sight: Sight,
    files: Vec<Vec<u8>>,
}

/// Starts the machine of a saved history, walks the history once, and is then at its first position.
fn open_history<R: FileReader, P: Progress>(
    alloc: Global,
    reader: &mut R,
    progress: &mut P,
    wanted: TalkWanted<'_>,
) -> Result<Opened, Failure>
    ensures opened { IfOk result (λ o. (qs : List Asked) × (ps : List Parts) × (c : Configured)
        × (k : Walk) × (R.asked reader.new ≡ R.asked reader.old ++ qs)
        × (P.shown progress.new ≡ P.shown progress.old ++ ps)
        × IsOpened wanted.entry.config.now wanted.entry.log.now qs ps c k
        × (o.sight ≡ sight_at k)
        × (map (λ f. f.items) o.files.items ≡ file_names c.lines)) }
    ensures fault { IfErr result (λ f. (qs : List Asked) × (ps : List Parts)
        × (R.asked reader.new ≡ R.asked reader.old ++ qs)
        × (P.shown progress.new ≡ P.shown progress.old ++ ps)
        × HasFailed wanted.entry.config.now wanted.entry.log.now qs ps f) }
{
    let Started {
        machine,
        config,
        other: _,
        lines: records,
    } = start::<History, R>(alloc, reader, wanted.config, wanted.log)?;
    let files = symbol_files(alloc, config.lines.as_slice())?;
    let walker = Walker::new(alloc, machine, config, records, progress)?;
    progress.clear();
    let sight = Sight {
        walker,
        points: Points::new(),
    };
    Ok(Opened { sight, files })
}

/// The slot that gdb is to have alone, if it has a service; else its number.
fn only_wanted(count: Slot, wanted: Option<u32>) -> Result<Option<Slot>, u32>
    ensures { result ≡ only_by count wanted }
{
    match wanted {
        None => Ok(None),
        Some(number) => match u8::try_from(number) {
            Ok(slot) if slot < count => Ok(Some(slot)),
            _ => Err(number),
        },
    }
}

/// How many slots have a service.
fn slot_count(files: &[Vec<u8>]) -> Slot
    ensures { result ≡ min (length files.now) 32 }
{
    files.len().min(32) as Slot
}

/// A talk that begins: no byte has come yet.
fn begin_talk(alloc: Global, opened: Opened, count: Slot, only: Option<Slot>) -> Talk
    ensures stub { (result.stub.sight ≡ opened.sight) × (result.stub.files ≡ opened.files) }
    ensures threads { result.stub.threads ≡ threads_at count only }
    ensures rest { (result.reader ≡ []) × (result.acks ≡ true) × (result.last.items ≡ []) }
{
    let Opened { sight, files } = opened;
    let threads = Threads::new(count, only);
    Talk {
        stub: Stub {
            sight,
            files,
            threads,
        },
        reader: Reader::new(alloc),
        acks: true,
        last: Vec::new(alloc),
    }
}

/// Starts the machine of a saved history, and answers the packets of gdb's remote protocol that come, up to one that
/// ends the talk, or to the end of the input. It writes no file, and nothing of the history changes. What is written is
/// a function of the configuration, the programs, the history and the bytes that come.
pub fn gdb<R: FileReader + Drop, F: Drop, W: Write + Drop, L: LineReader, P: Progress>(
    alloc: Global,
    channels: &mut Channels<R, F, W>,
    lines: &mut L,
    progress: &mut P,
    wanted: TalkWanted<'_>,
) -> Result<TalkEnding, Failure>
    ensures files { channels.new.files ≡ channels.old.files }
    ensures talked { IfOk result (λ ending. (qs : List Asked) × (typed : List (Option (List ℕ)))
        × (ps : List Parts) × (R.asked channels.new.reader ≡ R.asked channels.old.reader ++ qs)
        × (L.given lines.new ≡ L.given lines.old ++ typed)
        × (P.shown progress.new ≡ P.shown progress.old ++ ps)
        × IsTalked wanted.entry.config.now wanted.entry.log.now wanted.entry.slot qs typed ps
        (λ text. Appends (W.contents channels.old.out) (W.contents channels.new.out) text) ending) }
    ensures fault { IfErr result (λ f. (qs : List Asked) × (typed : List (Option (List ℕ)))
        × (ps : List Parts) × (R.asked channels.new.reader ≡ R.asked channels.old.reader ++ qs)
        × (L.given lines.new ≡ L.given lines.old ++ typed)
        × (P.shown progress.new ≡ P.shown progress.old ++ ps)
        × HasTalkFailed wanted.entry.config.now wanted.entry.log.now wanted.entry.slot qs typed ps
        (λ text. Appends (W.contents channels.old.out) (W.contents channels.new.out) text) f) }
{
    let opened = open_history(alloc, &mut channels.reader, progress, wanted)?;
    let count = slot_count(opened.files.as_slice());
    match only_wanted(count, wanted.slot) {
        Ok(only) => {
            let talk = begin_talk(alloc, opened, count, only);
            converse(alloc, talk, lines, progress, &mut channels.out)?;
            Ok(TalkEnding::Over)
        }
        Err(slot) => Ok(TalkEnding::NoService(slot)),
    }
}
