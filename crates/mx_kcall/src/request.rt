//! Requests to the kernel and its replies, as bytes of a message and as values.

ghost use Rattle.std.specs.Prelude.{◌≡◌, ◌+◌, ◌<◌, ◌≤◌, IfSome, length};
ghost use Rattle.mx_respawn.specs.Proc.Sound.{HasBuffer};
ghost use Rattle.mx_respawn.specs.Proc.TableState.{process_at};
ghost use Rattle.mx_kcall.specs.Requests.{word_at, message_words_of, message_words_at, kernel_call_of, kernel_call_under, no_reply_words, reply_bytes};

use crate::rows::{CallName, FIRST_CALL, row_under};
use mx_proc::{Endpoint, MESSAGE_SIZE, Rules, SYSTEM, Slot, Table};
use mx_word::{Register, read_dword, write_dword};

/// The type of a message to SYSTEM, and the first of its words.
#[derive(Clone, Copy)]
pub struct MessageWords {
    pub kind: u32,
    pub p0: u32,
    pub p1: u32,
    pub p2: u32,
    pub p3: u32,
    pub p4: u32,
}

/// An address in the memory of an endpoint's process.
#[derive(Clone, Copy)]
pub struct VirtualAddress {
    pub endpoint: Endpoint,
    pub offset: u32,
}

/// What VIRCOPY copies: `count` bytes from the source on, to the target.
#[derive(Clone, Copy)]
pub struct CopyRange {
    pub source: VirtualAddress,
    pub target: VirtualAddress,
    pub count: u32,
}

/// What GRANT lets another process do in the caller's memory: read (1), write (2) or both (3), in this range
/// of bytes and in no others. 0 closes the window.
#[derive(Clone, Copy)]
pub struct WindowGrant {
    pub user: Endpoint,
    pub place: u32,
    pub count: u32,
    pub access: u32,
}

/// A kernel call.
#[derive(Clone, Copy)]
pub enum KernelCall {
    /// The caller dies.
    Exit,
    /// Answers the uptime and the caller's steps.
    Times,
    /// Sets the caller's alarm after this number of ticks; 0 cancels it.
    SetAlarm(u32),
    /// Takes (1) or gives up (0) an interrupt line.
    Irqctl {
        action: u32,
        line: u32,
    },
    /// Reads (0) or writes (1) a register of the machine; register 0 is the console.
    Devio {
        action: u32,
        register: u32,
        value: u32,
    },
    /// Copies bytes from one process's address to another's.
    Vircopy(CopyRange),
    /// Kills a process.
    Kill(Endpoint),
    /// Answers the endpoint of a slot.
    Whois(u32),
    /// Lets a process use a part of the caller's memory.
    Grant(WindowGrant),
}

/// The words of a reply.
#[derive(Clone, Copy)]
pub struct ReplyWords {
    pub p0: u32,
    pub p1: u32,
    pub p2: u32,
}

impl ReplyWords {
    /// A kernel call's reply without words.
    pub fn none() -> ReplyWords
        ensures { result ≡ no_reply_words }
    {
        ReplyWords {
            p0: 0,
            p1: 0,
            p2: 0,
        }
    }
}

/// How a kernel call ended.
#[derive(Clone, Copy, PartialEq, Eq)]
pub enum After {
    /// It was answered with this result, and the caller goes on.
    Reply(u32),
    /// The caller died.
    Died,
}

/// The word at a place of a message.
fn word_at(message: &[u8; MESSAGE_SIZE], at: usize) -> u32
    requires { at + 4 ≤ MESSAGE_SIZE }
    ensures { result ≡ word_at message.now at }
{
    read_dword(&message[at..])
}

fn words_of(message: &[u8; MESSAGE_SIZE]) -> MessageWords
    ensures { result ≡ message_words_of message.now }
{
    MessageWords {
        kind: word_at(message, 4),
        p0: word_at(message, 8),
        p1: word_at(message, 12),
        p2: word_at(message, 16),
        p3: word_at(message, 20),
        p4: word_at(message, 24),
    }
}

/// The words of the message at a process's buffer.
#[tactic(auto, unfolding(crate::specs::Requests::message_words_at))]
pub(crate) fn words_at(table: &Table, slot: Slot) -> MessageWords
    requires slot { slot < length table.now.slots }
    requires inside { HasBuffer (process_at table.now slot) }
    ensures { result ≡ message_words_at table.now slot }
{
    let image = &table.process(slot).image;
    words_of(&image.memory.message(image.register(Register::Ebx)))
}

/// The request of a call with these words.
fn request_of(call: CallName, words: MessageWords) -> KernelCall
    ensures { result ≡ kernel_call_of call words }
{
    match call {
        CallName::Exit => KernelCall::Exit,
        CallName::Times => KernelCall::Times,
        CallName::SetAlarm => KernelCall::SetAlarm(words.p0),
        CallName::Irqctl => KernelCall::Irqctl {
            action: words.p0,
            line: words.p1,
        },
        CallName::Devio => KernelCall::Devio {
            action: words.p0,
            register: words.p1,
            value: words.p2,
        },
        CallName::Vircopy => KernelCall::Vircopy(CopyRange {
            source: VirtualAddress {
                endpoint: words.p0,
                offset: words.p1,
            },
            target: VirtualAddress {
                endpoint: words.p2,
                offset: words.p3,
            },
            count: words.p4,
        }),
        CallName::Kill => KernelCall::Kill(words.p0),
        CallName::Whois => KernelCall::Whois(words.p0),
        CallName::Grant => KernelCall::Grant(WindowGrant {
            user: words.p0,
            place: words.p1,
            count: words.p2,
            access: words.p3,
        }),
    }
}

/// The request that words make under these rules.
pub(crate) fn request_under(rules: Rules, words: MessageWords) -> Option<KernelCall>
    ensures value { result ≡ kernel_call_under rules words }
    ensures place { IfSome result (λ _.
        (FIRST_CALL ≤ words.kind) × (words.kind < FIRST_CALL + 32)) }
{
    let row = row_under(rules, words.kind)?;
    Some(request_of(row.call, words))
}

/// The bytes of a reply.
pub(crate) fn reply_bytes(outcome: u32, answer: ReplyWords) -> [u8; MESSAGE_SIZE]
    ensures { result ≡ reply_bytes outcome answer }
{
    let mut message = [0; MESSAGE_SIZE];
    write_dword(&mut message, SYSTEM);
    write_dword(&mut message[4..], outcome);
    write_dword(&mut message[8..], answer.p0);
    write_dword(&mut message[12..], answer.p1);
    write_dword(&mut message[16..], answer.p2);
    message
}
