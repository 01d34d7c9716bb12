//! Writes the bytes of an encoding, in their order.

ghost use Rattle.std.specs.Prelude.{◌≡◌, ◌+◌, ◌≤◌, ◌++◌, length, false};
ghost use Rattle.mx_word.specs.Word.{bytes_of};
ghost use Rattle.mx_insn.specs.Spelling.{is_resized, is_escaped, resized_bytes, repeat_bytes, escape_bytes, rm_form_bytes, modrm_bytes, sib_bytes};
ghost use Rattle.mx_encode.specs.Numbers.{number_bytes};
ghost use Rattle.mx_encode.specs.Places.{rm_form_for};
ghost use Rattle.mx_encode.specs.Given.{is_wide, RegFits, form_bytes, sib_seen, rm_form_seen};

use crate::field_numbers::NumberForm;
use crate::fields::{Number, Rm, RmFields, Sib};
use crate::forms::Encoding;
use crate::places::place_of;
use mx_insn::{ArrayVec, OpcodeMap, OperandSize, Repeat};

/// A spelling has at most 14 bytes.
type Bytes = ArrayVec<u8, 15>;

fn put_word(bytes: &mut Bytes, word: u16)
    requires { length bytes.old.items + 2 ≤ 15 }
    ensures { bytes.new.items ≡ bytes.old.items ++ bytes_of 2 word }
{
    bytes.push((word % 256) as u8);
    bytes.push((word / 256) as u8);
}

fn put_dword(bytes: &mut Bytes, dword: u32)
    requires { length bytes.old.items + 4 ≤ 15 }
    ensures { bytes.new.items ≡ bytes.old.items ++ bytes_of 4 dword }
{
    put_word(bytes, (dword % 0x1_0000) as u16);
    put_word(bytes, (dword / 0x1_0000) as u16);
}

fn put_number(bytes: &mut Bytes, number: Number)
    requires { length bytes.old.items + 4 ≤ 15 }
    ensures bytes { bytes.new.items ≡ bytes.old.items ++ number_bytes number }
    ensures room { length bytes.new.items ≤ length bytes.old.items + 4 }
{
    match number {
        Number::Nothing => {}
        Number::Byte(byte) => bytes.push(byte),
        Number::Word(word) => put_word(bytes, word),
        Number::Dword(dword) => put_dword(bytes, dword),
    }
}

/// The operand-size prefix.
fn put_operand_size(bytes: &mut Bytes, operand_size: OperandSize)
    requires { length bytes.old.items + 1 ≤ 15 }
    ensures bytes { bytes.new.items ≡ bytes.old.items ++ resized_bytes (is_resized operand_size) }
    ensures room { length bytes.new.items ≤ length bytes.old.items + 1 }
{
    match operand_size {
        OperandSize::Word => bytes.push(0x66),
        OperandSize::Dword => {}
    }
}

fn put_repeat(bytes: &mut Bytes, repeat: Option<Repeat>)
    requires { length bytes.old.items + 1 ≤ 15 }
    ensures bytes { bytes.new.items ≡ bytes.old.items ++ repeat_bytes repeat }
    ensures room { length bytes.new.items ≤ length bytes.old.items + 1 }
{
    match repeat {
        None => {}
        Some(Repeat::Repe) => bytes.push(0xf3),
        Some(Repeat::Repne) => bytes.push(0xf2),
    }
}

fn put_escape(bytes: &mut Bytes, map: OpcodeMap)
    requires { length bytes.old.items + 1 ≤ 15 }
    ensures bytes { bytes.new.items ≡ bytes.old.items ++ escape_bytes (is_escaped map) }
    ensures room { length bytes.new.items ≤ length bytes.old.items + 1 }
{
    match map {
        OpcodeMap::OneByte => {}
        OpcodeMap::TwoByte => bytes.push(0x0f),
    }
}

fn put_sib(bytes: &mut Bytes, sib: Option<Sib>)
    requires { length bytes.old.items + 1 ≤ 15 }
    ensures bytes { bytes.new.items ≡ bytes.old.items ++ sib_bytes (sib_seen sib) }
    ensures room { length bytes.new.items ≤ length bytes.old.items + 1 }
{
    if let Some(sib) = sib {
        bytes.push(64 * sib.scale + 8 * sib.index + sib.base);
    }
}

fn put_place(bytes: &mut Bytes, place: RmFields)
    requires { length bytes.old.items + 6 ≤ 15 }
    ensures bytes { bytes.new.items ≡ bytes.old.items ++ rm_form_bytes (rm_form_seen place) }
    ensures room { length bytes.new.items ≤ length bytes.old.items + 6 }
{
    bytes.push(64 * place.mode + 8 * place.reg + place.rm);
    put_sib(bytes, place.sib);
    put_number(bytes, place.displacement);
}

fn put_rm(bytes: &mut Bytes, rm: Option<Rm>, form: NumberForm)
    requires reg { RegFits rm }
    requires room { length bytes.old.items + 6 ≤ 15 }
    ensures bytes { bytes.new.items ≡ bytes.old.items ++ modrm_bytes (rm_form_for rm (is_wide form)) }
    ensures room { length bytes.new.items ≤ length bytes.old.items + 6 }
{
    if let Some(rm) = rm {
        put_place(bytes, place_of(rm, form));
    }
}

/// The bytes of an encoding, with its displacement in the form.
pub fn bytes_of_encoding(encoding: Encoding, form: NumberForm) -> Bytes
    requires { RegFits encoding.rm }
    ensures { result.items ≡ form_bytes encoding (rm_form_for encoding.rm (is_wide form)) }
{
    let mut bytes = Bytes::new();
    put_operand_size(&mut bytes, encoding.operand_size);
    put_repeat(&mut bytes, encoding.repeat);
    put_escape(&mut bytes, encoding.map);
    bytes.push(encoding.opcode);
    put_rm(&mut bytes, encoding.rm, form);
    put_number(&mut bytes, encoding.immediate);
    bytes
}
