//! Decodes one instruction: its row, its operands, and the number of its bytes.

ghost use Rattle.std.specs.Prelude.{◌≡◌, ◌<◌, ◌≤◌, ◌↔◌, ℕ, Ok};
ghost use Rattle.mx_insn.specs.declared.insn.Insn.{Insn};
ghost use Rattle.mx_insn.specs.Spelling.{IsOpen, row_size, is_resized};
ghost use Rattle.mx_decode.specs.Decode.{SpellsFirst, NoneFirst, Fetches, front};
ghost use Rattle.mx_decode.specs.Reading.{opcode_number, reading, read_after};
ghost use Rattle.mx_decode.specs.Given.{Gives, immediate_bound, narrow_bound, operands_code, head_seen};

use crate::DecodeFault;
use crate::fields::{immediate, place, row_size};
use crate::head::{Head, plain_head, read_head};
use crate::meaning::{ACCUMULATOR, FieldValues, put_insn};
use crate::select::row_of;
use mx_insn::{Insn, Plain, Row};

/// Puts the instruction of a row into `insn`, and answers what follows it.
#[inline(always)]
#[tactic(auto, unfolding(crate::specs::Given::operands_code))]
fn operands<'a>(
    head: Head,
    row: &Row,
    bytes: &'a [u8],
    insn: &mut Insn,
) -> Result<&'a [u8], DecodeFault>
    requires first { row.now.first ≤ head.opcode }
    requires step { 0 < row.now.step }
    requires number { opcode_number row.now head.opcode < 255 }
    requires narrow { immediate_bound row.now.immediate
        (row_size row.now.sizes (is_resized head.operand_size)) (is_resized head.operand_size)
        ≤ narrow_bound row.now.pattern (row_size row.now.sizes (is_resized head.operand_size))
        (is_resized head.operand_size) }
    ensures { Gives (λ x. (insn.new, x.now)) result
        (operands_code (head_seen head) row.now bytes.now) }
{
    let size = row_size(row.sizes, head.operand_size);
    let mut rm = ACCUMULATOR;
    let (reg, rest) = place(row.modrm, bytes, &mut rm)?;
    let (immediate, rest) = immediate(row.immediate, size, head.operand_size, rest)?;
    let values = FieldValues {
        operand_size: head.operand_size,
        repeat: head.repeat,
        number: (head.opcode - row.first) / row.step,
        reg,
        rm: &rm,
        immediate,
    };
    put_insn(row, size, &values, insn);
    Ok(rest)
}

/// Puts the instruction whose head is this into `insn`, and answers what follows it.
#[inline(always)]
fn read_after<'a>(head: Head, bytes: &'a [u8], insn: &mut Insn) -> Result<&'a [u8], DecodeFault>
    ensures { Gives (λ x. (insn.new, x.now)) result (read_after (head_seen head) bytes.now) }
{
    let row = row_of(head, bytes)?;
    operands(head, row, bytes, insn)
}

/// Puts the instruction at the front into `insn`, and answers what follows it: whatever it begins with.
#[inline(never)]
#[tactic(auto, unfolding(crate::specs::Reading::reading))]
fn read_any<'a>(bytes: &'a [u8], insn: &mut Insn) -> Result<&'a [u8], DecodeFault>
    ensures { Gives (λ x. (insn.new, x.now)) result (reading bytes.now) }
{
    let (head, rest) = read_head(bytes)?;
    read_after(head, rest, insn)
}

/// Puts the instruction at the front into `insn`, and answers what follows it. Most begin with the opcode.
#[inline(always)]
#[tactic(auto, unfolding(crate::specs::Reading::reading, crate::specs::Reading::head_at))]
fn read<'a>(bytes: &'a [u8], insn: &mut Insn) -> Result<&'a [u8], DecodeFault>
    ensures { Gives (λ x. (insn.new, x.now)) result (reading bytes.now) }
{
    match bytes {
        [] | [0x0F | 0x66 | 0xF2 | 0xF3, ..] => read_any(bytes, insn),
        [opcode, rest @ ..] => read_after(plain_head(*opcode), rest, insn),
    }
}

/// Puts the instruction at the front into `insn`, and answers how many bytes it takes: as `decode`, for who decodes
/// often. Takes no memory.
#[inline(always)]
#[tactic(auto, unfolding(crate::specs::Decode::front))]
pub fn decode_to(bytes: &[u8], insn: &mut Insn) -> Result<u8, DecodeFault>
    ensures { Fetches (front bytes.now) result insn.new }
{
    match read(bytes, insn) {
        Err(fault) => Err(fault),
        Ok(rest) => Ok((bytes.len() - rest.len()) as u8),
    }
}

#[tactic(auto, unfolding(crate::specs::Decode::front))]
fn read_counted(bytes: &[u8]) -> Result<(Insn, u8), DecodeFault>
    ensures { result ≡ front bytes.now }
{
    let mut insn = Insn::Plain(Plain::Nop);
    match read_any(bytes, &mut insn) {
        Err(fault) => Err(fault),
        Ok(rest) => Ok((insn, (bytes.len() - rest.len()) as u8)),
    }
}

/// The instruction at the front, and how many bytes it takes. Takes no memory.
pub fn decode(bytes: &[u8]) -> Result<(Insn, u8), DecodeFault>
    ensures value { result ≡ front bytes.now }
    ensures ok { (i : Insn) (k : ℕ) → (result ≡ Ok (i, k)) ↔ SpellsFirst bytes.now k i }
    ensures not_in_table { (result ≡ Err DecodeFault.NotInTable) ↔ (NoneFirst bytes.now
        × ¬ IsOpen bytes.now) }
    ensures short { (result ≡ Err DecodeFault.Short) ↔ (NoneFirst bytes.now × IsOpen bytes.now) }
{
    read_counted(bytes)
}
