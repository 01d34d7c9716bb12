//! What the payload of a packet asks for.

ghost use Rattle.std.specs.Prelude.{◌≡◌, IfOk};
ghost use Rattle.mx_rsp.specs.Words.{verb_of};
ghost use Rattle.mx_rsp.specs.Requests.{after_verb, command_of, ends_feature, file_of, names_processes, point_of, process_of, request_by, request_of, unpoint_of};
ghost use Rattle.hex.specs.Hex.{decode_of};
ghost use Rattle.mx_rsp.specs.declared.words.Verb.TheVariants as verbs;

use crate::fields::{Which, after, cut, number, two_numbers, who};
use crate::moves::{Resume, resume_asked};
use crate::words::{Verb, Word, verb_of, word_of};
use hex::FromHexError;
use mx_word::Bytes;
use std::alloc::{AllocError, Global};

/// What halts.
#[derive(Clone, Copy, Debug, PartialEq, Eq)]
pub enum Point {
    /// The instruction at an address.
    Break,
    /// A change of bytes.
    Watch,
}

/// What is asked for.
#[derive(Drop)]
pub enum Request {
    /// What a word says.
    Plain(Word),
    /// What the stub has, and whether gdb names processes.
    Supported(bool),
    /// A line about a thread.
    ThreadText(Which),
    /// Of the description of the target, from an offset on a number of bytes.
    Description(u32, u32),
    /// Of the name of a process's file, from an offset on a number of bytes.
    File(Option<u32>, u32, u32),
    /// The answer to a command.
    Console(Bytes),
    /// That it goes on.
    Go(Resume),
    /// That later requests read this one.
    ForReading(Which),
    /// That later moves are of this one.
    ForGoing(Which),
    /// Whether it is there.
    IsAlive(Which),
    /// A register.
    Register(u32),
    /// From an address on a number of bytes.
    Memory(u32, u32),
    /// A point more, at an address, of a number of bytes.
    Insert(Point, u32, u32),
    /// A point less.
    Remove(Point, u32, u32),
    /// That gdb leaves a process.
    DetachFrom(u32),
    /// A change of registers or memory.
    Write,
    /// It isn't written as it has to be.
    Malformed,
    /// It is none of these.
    Unknown,
}

/// The feature by which gdb names processes.
const NAMES: &[u8] = b"multiprocess+";

fn ends_feature(byte: u8) -> bool
    ensures { result ≡ ends_feature byte }
{
    byte == b':' || byte == b';'
}

/// Whether gdb names processes, by the features that it has.
fn names_processes(text: &[u8]) -> bool
    ensures { result ≡ names_processes text.now }
{
    let mut begin = 0;
    for at in 0..text.len() {
        if ends_feature(text[at]) {
            if &text[begin..at] == NAMES {
                return true;
            }
            begin = at + 1;
        }
    }
    &text[begin..] == NAMES
}

/// A process's number, if there is one.
fn process(text: &[u8]) -> Option<Option<u32>>
    ensures { result ≡ process_of text.now }
{
    if text.is_empty() {
        return Some(None);
    }
    let number = number(text)?;
    Some(Some(number))
}

fn file(text: &[u8]) -> Option<Request>
    ensures { result ≡ file_of text.now }
{
    let (first, rest) = cut(text, b':')?;
    let process = process(first)?;
    let (offset, length) = two_numbers(rest)?;
    Some(Request::File(process, offset, length))
}

fn insert(point: Point, text: &[u8]) -> Option<Request>
    ensures { result ≡ point_of point text.now }
{
    let (address, length) = two_numbers(text)?;
    Some(Request::Insert(point, address, length))
}

fn remove(point: Point, text: &[u8]) -> Option<Request>
    ensures { result ≡ unpoint_of point text.now }
{
    let (address, length) = two_numbers(text)?;
    Some(Request::Remove(point, address, length))
}

fn description(text: &[u8]) -> Option<Request>
    ensures { result ≡ request_by verbs.Description text.now }
{
    let (offset, length) = two_numbers(text)?;
    Some(Request::Description(offset, length))
}

fn memory(text: &[u8]) -> Option<Request>
    ensures { result ≡ request_by verbs.Memory text.now }
{
    let (address, length) = two_numbers(text)?;
    Some(Request::Memory(address, length))
}

/// What a verb and its arguments ask for.
fn request_by(verb: Verb, text: &[u8]) -> Option<Request>
    ensures { result ≡ request_by verb text.now }
{
    match verb {
        Verb::Supported => Some(Request::Supported(names_processes(text))),
        Verb::AttachedTo => Some(Request::Plain(Word::IsAttached)),
        Verb::ThreadText => Some(Request::ThreadText(who(text)?)),
        Verb::Description => description(text),
        Verb::File => file(text),
        Verb::Resume => Some(Request::Go(resume_asked(text)?)),
        Verb::ForReading => Some(Request::ForReading(who(text)?)),
        Verb::ForGoing => Some(Request::ForGoing(who(text)?)),
        Verb::IsAlive => Some(Request::IsAlive(who(text)?)),
        Verb::Register => Some(Request::Register(number(text)?)),
        Verb::Memory => memory(text),
        Verb::BreakSoft | Verb::BreakHard => insert(Point::Break, text),
        Verb::Watch => insert(Point::Watch, text),
        Verb::UnbreakSoft | Verb::UnbreakHard => remove(Point::Break, text),
        Verb::Unwatch => remove(Point::Watch, text),
        Verb::DetachFrom => Some(Request::DetachFrom(number(text)?)),
        Verb::WriteMemory | Verb::WriteBytes | Verb::WriteRegisters | Verb::WriteRegister => {
            Some(Request::Write)
        }
    }
}

/// What a text asks for that begins with a verb.
fn by_verb(text: &[u8]) -> Request
    ensures { result ≡ after_verb (verb_of text.now) text.now }
{
    let Some(verb) = verb_of(text) else {
        return Request::Unknown;
    };
    let Some(rest) = after(verb.text(), text) else {
        return Request::Malformed;
    };
    match request_by(verb, rest) {
        Some(request) => request,
        None => Request::Malformed,
    }
}

/// A command, by its digits.
fn command(alloc: Global, digits: &[u8]) -> Result<Request, AllocError>
    ensures { IfOk result (λ request. request ≡ command_of (decode_of digits.now)) }
{
    match hex::decode(alloc, digits) {
        Ok(bytes) => Ok(Request::Console(Bytes::from_vec(bytes))),
        Err(FromHexError::OutOfMemory) => Err(AllocError),
        Err(_) => Ok(Request::Malformed),
    }
}

/// What the payload of a packet asks for.
#[tactic(auto, unfolding(crate::specs::Requests::request_of))]
pub fn request_of(alloc: Global, payload: &[u8]) -> Result<Request, AllocError>
    ensures { IfOk result (λ request. request ≡ request_of payload.now) }
{
    if let Some(word) = word_of(payload) {
        return Ok(Request::Plain(word));
    }
    match after(b"qRcmd,", payload) {
        None => Ok(by_verb(payload)),
        Some(digits) => command(alloc, digits),
    }
}
