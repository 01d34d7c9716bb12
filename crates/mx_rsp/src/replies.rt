//! The texts of replies.

ghost use Rattle.std.specs.Prelude.{◌≡◌, ◌++◌, Ok, OnOk, codes, drop};
ghost use Rattle.hex.specs.Hex.{decode_of, encode_lower};
ghost use Rattle.mx_rsp.specs.Replies.{features_text, front_text, hexadecimal, part_text, process_feature, reason_text, register_text, registers_text, stop_head, stop_registers, stop_text, thread_text, threads_after};

use std::alloc::{AllocError, Global};

/// The reply that it is done.
pub const DONE: &[u8] = b"OK";

/// The reply that it can't be done.
pub const FAULT: &[u8] = b"E01";

/// The reply that says which actions `vCont` has.
pub const ACTIONS: &[u8] = b"vCont;c;C;s;S;r";

/// The description of the target.
pub const TARGET: &[u8] = b"<?xml version=\"1.0\"?><!DOCTYPE target SYSTEM \"gdb-target.dtd\">\
<target version=\"1.0\"><architecture>i386</architecture><osabi>none</osabi></target>";

/// The name of a thread.
#[derive(Clone, Copy, Debug, PartialEq, Eq)]
pub struct ThreadName {
    /// Its number, which is that of its process.
    pub number: u32,
    /// Whether gdb names processes.
    pub with_process: bool,
}

/// Why it halted.
#[derive(Clone, Copy, Debug, PartialEq, Eq)]
pub enum StopReason {
    /// What the signal says.
    Plain,
    /// The watched bytes from this address on changed.
    Watched(u32),
    /// Nothing is above.
    AtBegin,
    /// Nothing is below.
    AtEnd,
}

/// A stop.
#[derive(Clone, Copy)]
pub struct Stop {
    pub signal: u8,
    pub reason: StopReason,
    pub thread: ThreadName,
    pub esp: u32,
    pub ebp: u32,
    pub eip: u32,
}

/// Law: who reads the digits of bytes reads the bytes.
fn bytes_facts(bytes: &[u8])
    ensures { decode_of (encode_lower bytes.now) ≡ Ok bytes.now }
{}

/// Appends bytes, each in two digits, from which they are read again.
pub fn push_bytes(alloc: Global, out: &mut Vec<u8>, bytes: &[u8]) -> Result<(), AllocError>
    ensures text { OnOk result (out.new.items ≡ out.old.items ++ encode_lower bytes.now) }
    ensures read { decode_of (encode_lower bytes.now) ≡ Ok bytes.now }
{
    bytes_facts(bytes);
    let digits = hex::encode(alloc, bytes)?;
    out.extend_from_slice(digits.as_bytes())
}

/// Appends a number, with no zero in front.
fn push_number(alloc: Global, out: &mut Vec<u8>, number: u32) -> Result<(), AllocError>
    ensures { OnOk result (out.new.items ≡ out.old.items ++ hexadecimal number) }
{
    let digits = format!(in alloc; "{number:x}")?;
    out.extend_from_slice(digits.as_bytes())
}

/// Appends the name of a thread.
pub fn push_thread(alloc: Global, out: &mut Vec<u8>, thread: ThreadName) -> Result<(), AllocError>
    ensures { OnOk result (out.new.items ≡ out.old.items ++ thread_text thread) }
{
    if !thread.with_process {
        return push_number(alloc, out, thread.number);
    }
    out.push(b'p')?;
    push_number(alloc, out, thread.number)?;
    out.push(b'.')?;
    push_number(alloc, out, thread.number)
}

/// Appends a list of threads, from its `m` on.
#[tactic(auto, using(crate::proofs::ReplyLemmas::threads_more))]
pub fn push_threads(
    alloc: Global,
    out: &mut Vec<u8>,
    threads: &[ThreadName],
) -> Result<(), AllocError>
    ensures { OnOk result (out.new.items ≡ out.old.items ++ threads_after (codes "m") threads.now) }
{
    let mut between = b'm';
    for thread in threads {
        out.push(between)?;
        push_thread(alloc, out, *thread)?;
        between = b',';
    }
    Ok(())
}

/// Appends a register.
pub fn push_register(alloc: Global, out: &mut Vec<u8>, register: u32) -> Result<(), AllocError>
    ensures { OnOk result (out.new.items ≡ out.old.items ++ register_text register) }
{
    let mut bytes = [0; 4];
    mx_word::write_dword(&mut bytes, register);
    push_bytes(alloc, out, &bytes)
}

/// Appends all registers, of which these ten are there: EAX, ECX, EDX, EBX, ESP, EBP, ESI, EDI, EIP and EFLAGS.
pub fn push_registers(
    alloc: Global,
    out: &mut Vec<u8>,
    registers: &[u32; 10],
) -> Result<(), AllocError>
    ensures { OnOk result (out.new.items ≡ out.old.items ++ registers_text registers.now) }
{
    for register in registers {
        push_register(alloc, out, *register)?;
    }
    out.extend_from_slice(&[b'x'; 48])
}

/// What a text has from an offset on.
fn rest_of(text: &[u8], offset: u32) -> &[u8]
    ensures { result.now ≡ drop offset text.now }
{
    let offset = offset as usize;
    if offset < text.len() {
        &text[offset..]
    } else {
        b"".as_slice()
    }
}

/// Appends the first bytes of what is left of a text, after a letter that says whether more follows.
fn push_front(out: &mut Vec<u8>, rest: &[u8], length: u32) -> Result<(), AllocError>
    ensures { OnOk result (out.new.items ≡ out.old.items ++ front_text rest.now length) }
{
    let length = length as usize;
    if rest.len() <= length {
        out.push(b'l')?;
        out.extend_from_slice(rest)
    } else {
        out.push(b'm')?;
        out.extend_from_slice(&rest[..length])
    }
}

/// Appends a part of a text, from an offset on.
pub fn push_part(out: &mut Vec<u8>, text: &[u8], offset: u32, length: u32) -> Result<(), AllocError>
    ensures { OnOk result (out.new.items ≡ out.old.items ++ part_text text.now offset length) }
{
    push_front(out, rest_of(text, offset), length)
}

fn push_reason(alloc: Global, out: &mut Vec<u8>, reason: StopReason) -> Result<(), AllocError>
    ensures { OnOk result (out.new.items ≡ out.old.items ++ reason_text reason) }
{
    match reason {
        StopReason::Plain => Ok(()),
        StopReason::Watched(address) => {
            out.extend_from_slice(b"watch:")?;
            push_number(alloc, out, address)?;
            out.extend_from_slice(b";")
        }
        StopReason::AtBegin => out.extend_from_slice(b"replaylog:begin;"),
        StopReason::AtEnd => out.extend_from_slice(b"replaylog:end;"),
    }
}

/// Appends a stop's signal, reason and thread.
fn push_stop_head(alloc: Global, out: &mut Vec<u8>, stop: &Stop) -> Result<(), AllocError>
    ensures { OnOk result (out.new.items ≡ out.old.items ++ stop_head stop.now) }
{
    out.push(b'T')?;
    push_bytes(alloc, out, &[stop.signal])?;
    push_reason(alloc, out, stop.reason)?;
    out.extend_from_slice(b"thread:")?;
    push_thread(alloc, out, stop.thread)
}

/// Appends a stop's registers.
fn push_stop_registers(alloc: Global, out: &mut Vec<u8>, stop: &Stop) -> Result<(), AllocError>
    ensures { OnOk result (out.new.items ≡ out.old.items ++ stop_registers stop.now) }
{
    out.extend_from_slice(b";04:")?;
    push_register(alloc, out, stop.esp)?;
    out.extend_from_slice(b";05:")?;
    push_register(alloc, out, stop.ebp)?;
    out.extend_from_slice(b";08:")?;
    push_register(alloc, out, stop.eip)?;
    out.extend_from_slice(b";")
}

/// Appends a stop.
pub fn push_stop(alloc: Global, out: &mut Vec<u8>, stop: &Stop) -> Result<(), AllocError>
    ensures { OnOk result (out.new.items ≡ out.old.items ++ stop_text stop.now) }
{
    push_stop_head(alloc, out, stop)?;
    push_stop_registers(alloc, out, stop)
}

/// The feature that processes are named.
fn process_feature(names: bool) -> &'static [u8]
    ensures { result.now ≡ process_feature names }
{
    if names { b"multiprocess+;" } else { b"" }
}

/// Appends what the stub has, by whether processes are named.
pub fn push_features(out: &mut Vec<u8>, names: bool) -> Result<(), AllocError>
    ensures { OnOk result (out.new.items ≡ out.old.items ++ features_text names) }
{
    out.extend_from_slice(
        b"PacketSize=4000;vContSupported+;QStartNoAckMode+;ReverseStep+;ReverseContinue+;",
    )?;
    out.extend_from_slice(process_feature(names))?;
    out.extend_from_slice(b"qXfer:features:read+;qXfer:exec-file:read+")
}
