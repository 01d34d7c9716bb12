//! Packets: how a payload is written as a packet, and what the body of a packet stands for.

ghost use Rattle.std.specs.Prelude.{◌≡◌, ◌++◌, IfOk, OnOk};
ghost use Rattle.mx_rsp.specs.Damage.{IsHeard, IsRefusedDamaged};
ghost use Rattle.mx_rsp.specs.Packets.{body_of, checksum, escaped, is_mark, packet, payload_of};

use std::alloc::{AllocError, Global};

/// The byte that begins a packet.
pub(crate) const BEGIN: u8 = b'$';

/// The byte that ends the body of a packet.
pub(crate) const END: u8 = b'#';

/// The byte before one that is escaped.
const ESCAPE: u8 = b'}';

/// The bit that is turned in an escaped byte.
const TURNED: u8 = 0x20;

/// Whether a byte stands in no body as it is. (A `*` would be read as a run of bytes.)
fn is_mark(byte: u8) -> bool
    ensures { result ≡ is_mark byte }
{
    byte == END || byte == BEGIN || byte == b'*' || byte == ESCAPE
}

/// Appends a byte of a payload, as a body has it.
fn push_escaped(out: &mut Vec<u8>, byte: u8) -> Result<(), AllocError>
    ensures { OnOk result (out.new.items ≡ out.old.items ++ escaped byte) }
{
    if is_mark(byte) {
        out.push(ESCAPE)?;
        out.push(byte ^ TURNED)?;
    } else {
        out.push(byte)?;
    }
    Ok(())
}

/// The body that stands for a payload.
fn body_of(alloc: Global, payload: &[u8]) -> Result<Vec<u8>, AllocError>
    ensures { IfOk result (λ body. body.items ≡ body_of payload.now) }
{
    let mut body = Vec::new(alloc);
    for byte in payload {
        push_escaped(&mut body, *byte)?;
    }
    Ok(body)
}

/// The sum of a body's bytes, modulo 256.
pub(crate) fn checksum(body: &[u8]) -> u8
    ensures { result ≡ checksum body.now }
{
    let mut total: u8 = 0;
    for byte in body {
        total = total.wrapping_add(*byte);
    }
    total
}

/// The payload that a body stands for.
pub(crate) fn payload_of(alloc: Global, body: &[u8]) -> Result<Vec<u8>, AllocError>
    ensures { IfOk result (λ payload. payload.items ≡ payload_of body.now) }
{
    let mut payload = Vec::new(alloc);
    let mut is_escaped = false;
    for byte in body {
        if is_escaped {
            payload.push(*byte ^ TURNED)?;
            is_escaped = false;
        } else if *byte == ESCAPE {
            is_escaped = true;
        } else {
            payload.push(*byte)?;
        }
    }
    Ok(payload)
}

/// Law: who reads a packet hears its payload, and whichever byte of it is wrong, that it is wrong.
fn packet_facts(payload: &[u8])
    ensures heard { IsHeard payload.now (packet payload.now) }
    ensures damaged { IsRefusedDamaged payload.now }
{}

/// The packet that carries a payload. Who reads it hears that payload; and that it is wrong, if a byte of it is.
#[tactic(auto, unfolding(crate::specs::Packets::packet))]
pub fn packet_of(alloc: Global, payload: &[u8]) -> Result<Vec<u8>, AllocError>
    ensures packet { IfOk result (λ whole. whole.items ≡ packet payload.now) }
    ensures heard { IfOk result (λ whole. IsHeard payload.now whole.items) }
    ensures damaged { IsRefusedDamaged payload.now }
{
    packet_facts(payload);
    let body = body_of(alloc, payload)?;
    let mut out = Vec::new(alloc);
    out.push(BEGIN)?;
    out.extend_from_slice(&body)?;
    out.push(END)?;
    let digits = hex::encode(alloc, [checksum(&body)])?;
    out.extend_from_slice(digits.as_bytes())?;
    Ok(out)
}
