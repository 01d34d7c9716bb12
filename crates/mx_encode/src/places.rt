//! Encodings of operands: ModRM, SIB and displacement.

ghost use Rattle.std.specs.Prelude.{◌≡◌, ◌<◌, ◌^◌, Bool};
ghost use Rattle.mx_word.specs.Word.{bytes_of};
ghost use Rattle.mx_word.specs.Names.{register_number};
ghost use Rattle.mx_insn.specs.Spelling.{displacement_length};
ghost use Rattle.mx_encode.specs.Numbers.{number_bytes};
ghost use Rattle.mx_encode.specs.Places.{base_number, sib_of, rm_number, mode_after, mode_of, memory_rm_form, rm_form_written, can_index, can_stand, has_place};
ghost use Rattle.mx_encode.specs.Given.{is_wide, sib_seen, rm_form_seen};

use crate::field_numbers::{NumberForm, is_short, scale_number};
use crate::fields::{Number, Rm, RmFields, Sib};
use mx_insn::{Index, Memory, Operand};
use mx_word::{Register, Size};

/// Without a base the base field is 101.
fn base_number(base: Option<Register>) -> u8
    ensures value { result ≡ base_number base }
    ensures below { result < 8 }
{
    match base {
        None => 5,
        Some(register) => register.number(),
    }
}

/// There is a SIB byte only if there is an index, or the base is ESP.
fn sib_of(base: Option<Register>, index: Option<Index>) -> Option<Sib>
    ensures { sib_seen result ≡ sib_of base index }
{
    let base = base_number(base);
    match index {
        Some(index) => Some(Sib {
            scale: scale_number(index.scale),
            index: index.register.number(),
            base,
        }),
        None if base == 4 => Some(Sib {
            scale: 0,
            index: 4,
            base: 4,
        }),
        None => None,
    }
}

fn mode_after(base: Register, displacement: u32, form: NumberForm) -> u8
    ensures value { result ≡ mode_after (register_number base) displacement (is_wide form) }
    ensures below { result < 3 }
{
    match form {
        NumberForm::Wide => 2,
        NumberForm::Shortest if displacement == 0 && base.number() != 5 => 0,
        NumberForm::Shortest if is_short(Size::Dword, displacement) => 1,
        NumberForm::Shortest => 2,
    }
}

fn mode_of(base: Option<Register>, displacement: u32, form: NumberForm) -> u8
    ensures value { result ≡ mode_of base displacement (is_wide form) }
    ensures below { result < 3 }
{
    match base {
        None => 0,
        Some(base) => mode_after(base, displacement, form),
    }
}

fn displacement_of(mode: u8, base: u8, displacement: u32) -> Number
    requires { mode < 3 }
    ensures { number_bytes result ≡ bytes_of (displacement_length mode base) displacement }
{
    match mode {
        0 if base != 5 => Number::Nothing,
        1 => Number::Byte((displacement % 256) as u8),
        _ => Number::Dword(displacement),
    }
}

fn memory_rm_form(reg: u8, memory: Memory, form: NumberForm) -> RmFields
    requires { reg < 8 }
    ensures { rm_form_seen result ≡ memory_rm_form reg memory (is_wide form) }
{
    let mode = mode_of(memory.base, memory.displacement, form);
    let base = base_number(memory.base);
    let sib = sib_of(memory.base, memory.index);
    RmFields {
        mode,
        reg,
        rm: if sib.is_some() { 4 } else { base },
        sib,
        displacement: displacement_of(mode, base, memory.displacement),
    }
}

/// How a ModRM byte and its SIB name an operand.
pub fn place_of(rm: Rm, form: NumberForm) -> RmFields
    requires { rm.reg < 8 }
    ensures { rm_form_seen result ≡ rm_form_written rm.reg rm.operand (is_wide form) }
{
    match rm.operand {
        Operand::Register(register) => RmFields {
            mode: 3,
            reg: rm.reg,
            rm: register.number(),
            sib: None,
            displacement: Number::Nothing,
        },
        Operand::Memory(memory) => memory_rm_form(rm.reg, memory, form),
    }
}

fn can_index(index: Option<Index>) -> bool
    ensures { result ≡ can_index index }
{
    match index {
        None => true,
        Some(index) => index.register.number() != 4,
    }
}

fn can_stand(operand: Operand) -> bool
    ensures { result ≡ can_stand operand }
{
    match operand {
        Operand::Register(_) => true,
        Operand::Memory(memory) => can_index(memory.index),
    }
}

/// Whether bytes can name the operand: ESP is no index.
pub fn has_place(rm: Option<Rm>) -> bool
    ensures { result ≡ has_place rm }
{
    match rm {
        None => true,
        Some(rm) => can_stand(rm.operand),
    }
}
