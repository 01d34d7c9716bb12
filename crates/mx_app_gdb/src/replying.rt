//! What a request is answered, and what the stub has in hand after it.

ghost use Rattle.std.specs.Prelude.{◌≡◌, ◌++◌, IfErr, IfOk, OnOk, Some, is_some, true};
ghost use Rattle.mx_app_step.specs.Failure.{IsWanting};
ghost use Rattle.mx_walk.specs.Parts.{HasGrown};
ghost use Rattle.mx_app_gdb.specs.declared.replying.After.TheVariants as afters;
ghost use Rattle.mx_rsp.specs.Moves.{continues};
ghost use Rattle.mx_app_gdb.specs.Halts.{IsUnchanged};
ghost use Rattle.mx_app_gdb.specs.Points.{inserted};
ghost use Rattle.mx_app_gdb.specs.Replied.{AreHalts, IsConsoleReply, IsDetached, IsGone, IsInserted, IsMovedBy, IsReplied, IsRepliedToWord, IsResumed, IsReversed, Says, SaysMoved, after_word, going, here_reply, left, range_of, reading, reply_to_word, text_of, with_names, without_point, word_reply};
ghost use Rattle.mx_app_gdb.specs.Replies.{done_text};
ghost use Rattle.mx_app_gdb.specs.Threads.{read_by};
ghost use Rattle.mx_rsp.specs.Replies.{features_text};

use crate::console::console;
use crate::going::go_on;
use crate::going_back::{go_back, step_back};
use crate::halts::{Halted, Halts};
use crate::here::{
    push_all, push_current, push_done, push_file, push_list, push_memory, push_one, push_target,
    push_thread_line,
};
use crate::points::{insert, remove};
use crate::ranges::{NOWHERE, Range};
use crate::stepping::step_on;
use crate::stops::{slot_halted, stop_at};
use crate::stub::Stub;
use crate::threads::Threads;
use mx_app_failure::Failure;
use mx_app_look::Sight;
use mx_proc::Slot;
use mx_rsp::{
    ACTIONS, Action, DONE, Move, Point, Request, Resume, Which, Word, push_bytes, push_features,
    push_stop,
};
use mx_walk::{Progress, Walker};
use mx_word::NoMemory;
use std::alloc::{AllocError, Global};

/// What comes after a reply.
#[derive(Clone, Copy, PartialEq, Eq)]
pub enum After {
    /// More packets.
    More,
    /// No packet is acknowledged from then on.
    NoAcks,
    /// The talk is over.
    Over,
}

/// A reply, if there is one, and what comes after it.
#[derive(Drop)]
pub struct Reply {
    pub text: Option<Vec<u8>>,
    pub after: After,
}

/// A reply after which more packets come.
fn reply_of(text: Vec<u8>) -> Reply
    ensures text { text_of result ≡ Some text.items }
    ensures after { result.after ≡ afters.More }
{
    Reply {
        text: Some(text),
        after: After::More,
    }
}

/// Where a move is to go.
#[derive(Clone, Copy)]
enum Way {
    /// On to the next halt.
    On,
    /// On by a step of a slot's process, and those after it within a range.
    Step(Slot, Range),
    /// Back to the last halt.
    Back,
    /// Back by a step of a slot's process.
    StepBack(Slot),
}

/// Goes a way.
fn go<P: Progress>(
    alloc: Global,
    walker: Walker,
    halts: &Halts,
    way: Way,
    progress: &mut P,
) -> Result<(Walker, Halted), NoMemory>
    requires unchanged { IsUnchanged walker halts.now }
    ensures same { IfOk result (λ r. r.0 ≡ record walker { here = r.0.here }) }
    ensures gone { IfOk result (λ r. IsGone way walker halts.now (r.0.here, Some r.1)) }
    ensures grown { HasGrown (P.shown progress.old) (P.shown progress.new) }
{
    match way {
        Way::On => go_on(alloc, walker, halts, progress),
        Way::Step(slot, range) => step_on(alloc, walker, halts, slot, range, progress),
        Way::Back => go_back(alloc, walker, halts, progress),
        Way::StepBack(slot) => step_back(alloc, walker, halts, slot, progress),
    }
}

/// What counts on the way of a move of a slot's process.
fn halts_on(alloc: Global, stub: &Stub, mover: Slot, others: bool) -> Result<Halts, AllocError>
    ensures halts { IfOk result (λ h. AreHalts stub.now mover others h) }
    ensures unchanged { IfOk result (λ h. IsUnchanged stub.now.sight.walker h) }
{
    let Sight { walker, points } = &stub.sight;
    Halts::new(alloc, walker, points, stub.threads, mover, others)
}

/// Goes a way, and replies why it halts. The process of the halt is the one that is read from then on.
fn move_along<P: Progress>(
    alloc: Global,
    stub: Stub,
    halts: &Halts,
    way: Way,
    progress: &mut P,
) -> Result<(Stub, Reply), Failure>
    requires unchanged { IsUnchanged stub.sight.walker halts.now }
    ensures err { IfErr result IsWanting }
    ensures replied { IfOk result (λ r. SaysMoved (IsMovedBy way halts.now stub) r.0
        (text_of r.1) r.1.after) }
    ensures grown { HasGrown (P.shown progress.old) (P.shown progress.new) }
{
    let Stub {
        sight,
        files,
        threads,
    } = stub;
    let Sight { walker, points } = sight;
    let (walker, halted) = go(alloc, walker, halts, way, progress)?;
    progress.clear();
    let stop = stop_at(walker.machine(), threads, halted);
    let mut text = Vec::new(alloc);
    push_stop(alloc, &mut text, &stop)?;
    let threads = Threads {
        reads: slot_halted(halted),
        ..threads
    };
    let sight = Sight { walker, points };
    let stub = Stub {
        sight,
        files,
        threads,
    };
    Ok((stub, reply_of(text)))
}

/// Replies that something is done, or that it can't be.
fn say_done(alloc: Global, stub: Stub, is_done: bool) -> Result<(Stub, Reply), Failure>
    ensures err { IfErr result IsWanting }
    ensures replied { IfOk result (λ r. Says stub (done_text is_done) r.0
        (text_of r.1) r.1.after) }
{
    let mut text = Vec::new(alloc);
    push_done(&mut text, is_done)?;
    Ok((stub, reply_of(text)))
}

/// The range of an action.
fn range_of(action: Action) -> Range
    ensures { result ≡ range_of action }
{
    match action {
        Action::StepWithin(first, end) => Range { first, end },
        Action::Step | Action::Continue => NOWHERE,
    }
}

/// Whether an action goes on until something halts it.
fn continues(action: Action) -> bool
    ensures { result ≡ continues action }
{
    match action {
        Action::Continue => true,
        Action::Step | Action::StepWithin(..) => false,
    }
}

/// Goes on, by an action of a process.
fn go_by<P: Progress>(
    alloc: Global,
    stub: Stub,
    resumed: Resume,
    progress: &mut P,
) -> Result<(Stub, Reply), Failure>
    ensures err { IfErr result IsWanting }
    ensures replied { IfOk result (λ r. SaysMoved
        (IsResumed stub resumed (read_by stub.threads resumed.first.who)) r.0
        (text_of r.1) r.1.after) }
    ensures grown { HasGrown (P.shown progress.old) (P.shown progress.new) }
{
    let Move { action, who } = resumed.first;
    let Some(slot) = stub.threads.read_by(who) else {
        return say_done(alloc, stub, false);
    };
    if continues(action) {
        let halts = halts_on(alloc, &stub, slot, true)?;
        return move_along(alloc, stub, &halts, Way::On, progress);
    }
    let halts = halts_on(alloc, &stub, slot, resumed.others)?;
    let way = Way::Step(slot, range_of(action));
    move_along(alloc, stub, &halts, way, progress)
}

/// Goes back, by a step or to the last halt.
fn reverse<P: Progress>(
    alloc: Global,
    stub: Stub,
    is_step: bool,
    progress: &mut P,
) -> Result<(Stub, Reply), Failure>
    ensures err { IfErr result IsWanting }
    ensures replied { IfOk result (λ r. SaysMoved (IsReversed is_step stub) r.0
        (text_of r.1) r.1.after) }
    ensures grown { HasGrown (P.shown progress.old) (P.shown progress.new) }
{
    let slot = stub.threads.goer();
    let halts = halts_on(alloc, &stub, slot, !is_step)?;
    let way = if is_step {
        Way::StepBack(slot)
    } else {
        Way::Back
    };
    move_along(alloc, stub, &halts, way, progress)
}

/// With other processes that gdb has, or asks about.
fn with_threads(stub: Stub, threads: Threads) -> Stub
    ensures { result ≡ record stub { threads = threads } }
{
    Stub { threads, ..stub }
}

/// What the stub has, if gdb names processes or not. Where it has only one, none is named.
fn tell_features(alloc: Global, stub: Stub, names: bool) -> Result<(Stub, Reply), Failure>
    ensures err { IfErr result IsWanting }
    ensures replied { IfOk result (λ r. Says (with_names stub names)
        (features_text (with_names stub names).threads.names) r.0
        (text_of r.1) r.1.after) }
{
    let names = names && stub.threads.only.is_none();
    let threads = Threads {
        names,
        ..stub.threads
    };
    let mut text = Vec::new(alloc);
    push_features(&mut text, names)?;
    Ok((with_threads(stub, threads), reply_of(text)))
}

/// Reads another process from now on.
fn read_other(alloc: Global, stub: Stub, which: Which) -> Result<(Stub, Reply), Failure>
    ensures err { IfErr result IsWanting }
    ensures replied { IfOk result (λ r. Says (reading stub (read_by stub.threads which))
        (done_text (is_some (read_by stub.threads which))) r.0
        (text_of r.1) r.1.after) }
{
    let Some(reads) = stub.threads.read_by(which) else {
        return say_done(alloc, stub, false);
    };
    let threads = Threads {
        reads,
        ..stub.threads
    };
    say_done(alloc, with_threads(stub, threads), true)
}

/// Lets another process go from now on.
fn move_other(alloc: Global, stub: Stub, which: Which) -> Result<(Stub, Reply), Failure>
    ensures err { IfErr result IsWanting }
    ensures replied { IfOk result (λ r. Says (going stub which)
        (done_text (is_some (read_by stub.threads which))) r.0
        (text_of r.1) r.1.after) }
{
    let goes = match which {
        Which::One(_) => stub.threads.read_by(which),
        Which::Any | Which::All => None,
    };
    let is_there = stub.threads.read_by(which).is_some();
    if !is_there {
        return say_done(alloc, stub, false);
    }
    let threads = Threads {
        goes,
        ..stub.threads
    };
    say_done(alloc, with_threads(stub, threads), true)
}

/// Sets a point.
fn insert_point(
    alloc: Global,
    stub: Stub,
    point: Point,
    address: u32,
    count: u32,
) -> Result<(Stub, Reply), Failure>
    ensures err { IfErr result IsWanting }
    ensures replied { IfOk result (λ r. IsInserted stub
        (inserted stub.sight.walker stub.sight.points stub.threads.reads point address count) r.0
        (text_of r.1) r.1.after) }
{
    let mut stub = stub;
    let slot = stub.threads.reads;
    let Sight { walker, points } = &mut stub.sight;
    let is_set = insert(walker, points, slot, point, address, count);
    say_done(alloc, stub, is_set)
}

/// Takes a point away.
fn remove_point(
    alloc: Global,
    stub: Stub,
    point: Point,
    address: u32,
    count: u32,
) -> Result<(Stub, Reply), Failure>
    ensures err { IfErr result IsWanting }
    ensures replied { IfOk result (λ r. Says (without_point stub point address count)
        (done_text true) r.0
        (text_of r.1) r.1.after) }
{
    let mut stub = stub;
    let slot = stub.threads.reads;
    remove(&mut stub.sight.points, slot, point, address, count);
    say_done(alloc, stub, true)
}

/// Replies to a command.
fn answer_console<P: Progress>(
    alloc: Global,
    stub: Stub,
    line: &[u8],
    progress: &mut P,
) -> Result<(Stub, Reply), Failure>
    ensures err { IfErr result IsWanting }
    ensures replied { IfOk result (λ r. IsConsoleReply stub line.now r.0
        (text_of r.1) r.1.after) }
    ensures grown { HasGrown (P.shown progress.old) (P.shown progress.new) }
{
    let (stub, answer) = console(alloc, stub, line, progress)?;
    let mut text = Vec::new(alloc);
    push_bytes(alloc, &mut text, answer.as_slice())?;
    Ok((stub, reply_of(text)))
}

/// That gdb has left a process: it is over if it has none any more.
fn detach_from(alloc: Global, stub: Stub, number: u32) -> Result<(Stub, Reply), Failure>
    ensures err { IfErr result IsWanting }
    ensures replied { IfOk result (λ r. IsDetached (left stub number) r.0
        (text_of r.1) r.1.after) }
{
    let threads = match stub.threads.named(number) {
        Some(slot) => stub.threads.without(slot),
        None => stub.threads,
    };
    let over = !threads.has_any();
    let (stub, reply) = say_done(alloc, with_threads(stub, threads), true)?;
    let after = if over { After::Over } else { After::More };
    Ok((stub, Reply { after, ..reply }))
}

/// The reply to a word that asks for something here.
fn push_word(alloc: Global, out: &mut Vec<u8>, stub: &Stub, word: Word) -> Result<(), AllocError>
    ensures { OnOk result (out.new.items ≡ out.old.items ++ word_reply stub.now word) }
{
    match word {
        Word::WhyHalted => {
            let halted = Halted::There(stub.threads.reads);
            let stop = stop_at(stub.sight.walker.machine(), stub.threads, halted);
            push_stop(alloc, out, &stop)
        }
        Word::Registers => push_all(alloc, out, stub),
        Word::Threads => push_list(alloc, out, stub.threads),
        Word::MoreThreads => out.extend_from_slice(b"l"),
        Word::Current => push_current(alloc, out, stub.threads),
        Word::IsAttached => out.extend_from_slice(b"1"),
        Word::Actions => out.extend_from_slice(ACTIONS),
        Word::NoAcks | Word::Detach => out.extend_from_slice(DONE),
        Word::StepBack | Word::ContinueBack | Word::End => Ok(()),
    }
}

/// What comes after the reply to a word.
fn after_word(word: Word) -> After
    ensures { result ≡ after_word word }
{
    match word {
        Word::NoAcks => After::NoAcks,
        Word::Detach | Word::End => After::Over,
        _ => After::More,
    }
}

/// Replies to a word that asks for something here.
fn say_word(alloc: Global, stub: Stub, word: Word) -> Result<(Stub, Reply), Failure>
    ensures err { IfErr result IsWanting }
    ensures replied { IfOk result (λ r. (r.0 ≡ stub)
        × (text_of r.1 ≡ reply_to_word stub word) × (r.1.after ≡ after_word word)) }
{
    let mut text = Vec::new(alloc);
    push_word(alloc, &mut text, &stub, word)?;
    let text = match word {
        Word::End => None,
        _ => Some(text),
    };
    let after = after_word(word);
    Ok((stub, Reply { text, after }))
}

/// Replies to a word.
fn answer_word<P: Progress>(
    alloc: Global,
    stub: Stub,
    word: Word,
    progress: &mut P,
) -> Result<(Stub, Reply), Failure>
    ensures err { IfErr result IsWanting }
    ensures replied { IfOk result (λ r. IsRepliedToWord stub word r.0
        (text_of r.1) r.1.after) }
    ensures grown { HasGrown (P.shown progress.old) (P.shown progress.new) }
{
    match word {
        Word::StepBack => reverse(alloc, stub, true, progress),
        Word::ContinueBack => reverse(alloc, stub, false, progress),
        _ => say_word(alloc, stub, word),
    }
}

/// The reply to a request that asks for something here, and is no word; nothing for all others.
fn push_here(
    alloc: Global,
    out: &mut Vec<u8>,
    stub: &Stub,
    request: &Request,
) -> Result<(), AllocError>
    ensures { OnOk result (out.new.items ≡ out.old.items ++ here_reply stub.now request.now) }
{
    match request {
        Request::ThreadText(which) => push_thread_line(alloc, out, stub, *which),
        Request::Description(offset, length) => push_target(out, *offset, *length),
        Request::File(process, offset, length) => {
            push_file(out, stub, *process, *offset, *length)
        }
        Request::IsAlive(which) => push_done(out, stub.threads.read_by(*which).is_some()),
        Request::Register(number) => push_one(alloc, out, stub, *number),
        Request::Memory(address, count) => push_memory(alloc, out, stub, *address, *count),
        Request::Write | Request::Malformed => push_done(out, false),
        _ => Ok(()),
    }
}

/// Replies to a request that asks for something here, and is no word.
fn say_here(alloc: Global, stub: Stub, request: &Request) -> Result<(Stub, Reply), Failure>
    ensures err { IfErr result IsWanting }
    ensures replied { IfOk result (λ r. Says stub (here_reply stub request.now) r.0
        (text_of r.1) r.1.after) }
{
    let mut text = Vec::new(alloc);
    push_here(alloc, &mut text, &stub, request)?;
    Ok((stub, reply_of(text)))
}

/// Replies to a request. What can't be done changes nothing, and no request changes the history.
pub(crate) fn reply_to<P: Progress>(
    alloc: Global,
    stub: Stub,
    request: &Request,
    progress: &mut P,
) -> Result<(Stub, Reply), Failure>
    ensures err { IfErr result IsWanting }
    ensures replied { IfOk result (λ r. IsReplied stub request.now r.0
        (text_of r.1) r.1.after) }
    ensures grown { HasGrown (P.shown progress.old) (P.shown progress.new) }
{
    match request {
        Request::Plain(word) => answer_word(alloc, stub, *word, progress),
        Request::Supported(names) => tell_features(alloc, stub, *names),
        Request::Console(line) => answer_console(alloc, stub, line.as_slice(), progress),
        Request::Go(resumed) => go_by(alloc, stub, *resumed, progress),
        Request::ForReading(which) => read_other(alloc, stub, *which),
        Request::ForGoing(which) => move_other(alloc, stub, *which),
        Request::Insert(point, address, count) => {
            insert_point(alloc, stub, *point, *address, *count)
        }
        Request::Remove(point, address, count) => {
            remove_point(alloc, stub, *point, *address, *count)
        }
        Request::DetachFrom(number) => detach_from(alloc, stub, *number),
        _ => say_here(alloc, stub, request),
    }
}
