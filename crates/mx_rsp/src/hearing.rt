//! What is heard of bytes, as they come one after the other.

ghost use Rattle.std.specs.Prelude.{◌≡◌, [], IfOk, OnOk};
ghost use Rattle.mx_rsp.specs.Hearing.{further, heard_of, is_whole, outside, reading_after, said, within_room};

use crate::packet::{BEGIN, END, checksum, payload_of};
use mx_text::number_up_to;
use mx_word::Bytes;
use std::alloc::{AllocError, Global};
use std::marker::Model;

/// How many bytes a body may have.
const MOST_BYTES: usize = 16384;

/// The byte by which the last packet is asked for again.
const AGAIN: u8 = b'-';

/// What a byte says, after those before it.
#[derive(Drop)]
pub enum Heard {
    /// Nothing yet.
    Nothing,
    /// That the last packet is to be sent again.
    Again,
    /// A packet whose checksum is wrong.
    Wrong,
    /// A packet of more bytes than are kept, whatever its checksum.
    TooLong,
    /// A packet with this payload.
    Packet(Bytes),
}

/// Whether a packet is whole: its third byte from the end is the `#`.
fn is_whole(front: &[u8]) -> bool
    ensures { result ≡ is_whole front.now }
{
    front.len() >= 4 && front[front.len() - 3] == END
}

/// What a packet says, by its body and its digits.
fn said(alloc: Global, body: &[u8], digits: &[u8]) -> Result<Heard, AllocError>
    ensures { IfOk result (λ heard. heard ≡ said body.now digits.now) }
{
    if body.len() > MOST_BYTES {
        return Ok(Heard::TooLong);
    }
    match number_up_to(digits, 16, 255) {
        Some(sum) if sum == u32::from(checksum(body)) => {
            Ok(Heard::Packet(Bytes::from_vec(payload_of(alloc, body)?)))
        }
        _ => Ok(Heard::Wrong),
    }
}

/// What a byte says that comes outside of packets and begins none.
fn outside(byte: u8) -> Heard
    ensures { result ≡ outside byte }
{
    if byte == AGAIN {
        Heard::Again
    } else {
        Heard::Nothing
    }
}

/// Takes a byte out of a body that is too long, where no more bytes are kept.
fn make_room(front: &mut Vec<u8>)
    ensures { front.new.items ≡ within_room front.old.items }
{
    if front.len() <= MOST_BYTES + 4 {
        return;
    }
    front.remove(MOST_BYTES + 1);
}

/// Appends a byte to a packet that has begun. Of a body that is too long not all bytes are kept.
fn push_further(front: &mut Vec<u8>, byte: u8) -> Result<(), AllocError>
    ensures { OnOk result (front.new.items ≡ further front.old.items byte) }
{
    make_room(front);
    front.push(byte)?;
    Ok(())
}

/// What a byte says that comes after these of a packet.
fn hear_after(alloc: Global, front: &mut Vec<u8>, byte: u8) -> Result<Heard, AllocError>
    ensures heard { IfOk result (λ heard. heard ≡ heard_of front.old.items byte) }
    ensures reading { OnOk result (front.new.items ≡ reading_after front.old.items byte) }
{
    if byte == BEGIN {
        front.clear();
        front.push(byte)?;
        return Ok(Heard::Nothing);
    }
    if front.is_empty() {
        return Ok(outside(byte));
    }
    push_further(front, byte)?;
    if !is_whole(front) {
        return Ok(Heard::Nothing);
    }
    let end = front.len();
    let heard = said(alloc, &front[1..end - 3], &front[end - 2..])?;
    front.clear();
    Ok(heard)
}

/// Who reads packets, byte by byte.
#[derive(Drop)]
pub struct Reader {
    front: Vec<u8>,
}

impl Model for Reader {
    ghost use Rattle.std.specs.Prelude.{List, ℕ};

    ghost Value = { List ℕ };

    ghost view = { λ r. r.front.items };
}

impl Reader {
    /// Nothing has come yet.
    pub fn new(alloc: Global) -> Reader
        ensures { result ≡ [] }
    {
        Reader {
            front: Vec::new(alloc),
        }
    }

    /// What the next byte says.
    pub fn hear(&mut self, alloc: Global, byte: u8) -> Result<Heard, AllocError>
        ensures heard { IfOk result (λ heard. heard ≡ heard_of self.old byte) }
        ensures reading { OnOk result (self.new ≡ reading_after self.old byte) }
    {
        hear_after(alloc, &mut self.front, byte)
    }
}
