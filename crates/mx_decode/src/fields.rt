//! The operands of an instruction's bytes: ModRM, SIB, displacement and immediate are decoded here.

ghost use Rattle.std.specs.Prelude.{◌≡◌, ◌<◌, ◌^◌, ◌/◌, ◌%◌, IfOk, Some};
ghost use Rattle.mx_word.specs.Word.{width};
ghost use Rattle.mx_insn.specs.Spelling.{register, scale, base_of, index_of, sign_extended, row_size, is_resized};
ghost use Rattle.mx_decode.specs.Given.{Gives, number_at, displacement_at, immediate_at, sib_parts, base_field_parts, memory_field, operand_field, modrm_at, place_code, immediate_bound};

use crate::DecodeFault;
use mx_insn::{ImmediateColumn, Index, Memory, ModRm, Operand, OperandSize, Scale, SizeMark};
use mx_word::{Register, Size, signed};

#[inline(always)]
pub fn register(field: u8) -> Register
    ensures { result ≡ register field }
{
    match field {
        0 => Register::Eax,
        1 => Register::Ecx,
        2 => Register::Edx,
        3 => Register::Ebx,
        4 => Register::Esp,
        5 => Register::Ebp,
        6 => Register::Esi,
        _ => Register::Edi,
    }
}

#[inline(always)]
fn scale(field: u8) -> Scale
    ensures { result ≡ scale field }
{
    match field {
        0 => Scale::One,
        1 => Scale::Two,
        2 => Scale::Four,
        _ => Scale::Eight,
    }
}

#[inline(always)]
#[tactic(auto, unfolding(crate::specs::Given::number_at, crate::specs::Reading::take_exact))]
fn byte(bytes: &[u8]) -> Result<(u32, &[u8]), DecodeFault>
    ensures value { Gives (λ x. (x.0, x.1.now)) result (number_at 1 bytes.now) }
    ensures small { IfOk result (λ x. x.0 < 256) }
{
    match bytes {
        [a, rest @ ..] => Ok((u32::from(*a), rest)),
        _ => Err(DecodeFault::Short),
    }
}

#[inline(always)]
#[tactic(auto, unfolding(crate::specs::Given::number_at, crate::specs::Reading::take_exact))]
fn word(bytes: &[u8]) -> Result<(u32, &[u8]), DecodeFault>
    ensures value { Gives (λ x. (x.0, x.1.now)) result (number_at 2 bytes.now) }
    ensures small { IfOk result (λ x. x.0 < 65536) }
{
    match bytes {
        [a, b, rest @ ..] => Ok((u32::from(u16::from_le_bytes([*a, *b])), rest)),
        _ => Err(DecodeFault::Short),
    }
}

#[inline(always)]
#[tactic(auto, unfolding(crate::specs::Given::number_at, crate::specs::Reading::take_exact))]
fn dword(bytes: &[u8]) -> Result<(u32, &[u8]), DecodeFault>
    ensures { Gives (λ x. (x.0, x.1.now)) result (number_at 4 bytes.now) }
{
    match bytes {
        [a, b, c, d, rest @ ..] => Ok((u32::from_le_bytes([*a, *b, *c, *d]), rest)),
        _ => Err(DecodeFault::Short),
    }
}

/// A byte with its sign extended.
#[inline(always)]
fn sign_extended(byte: u32, size: Size) -> u32
    requires { byte < 256 }
    ensures value { result ≡ sign_extended (width size) byte }
    ensures below { result < 2 ^ width size }
{
    size.modulo(signed(Size::Byte, byte))
}

#[inline(always)]
#[tactic(auto, unfolding(crate::specs::Given::displacement_at, crate::specs::Given::number_at, crate::specs::Reading::take_exact))]
fn displacement(mode: u8, base: u8, bytes: &[u8]) -> Result<(u32, &[u8]), DecodeFault>
    requires { mode < 3 }
    ensures { Gives (λ x. (x.0, x.1.now)) result (displacement_at mode base bytes.now) }
{
    match mode {
        0 if base == 5 => dword(bytes),
        0 => Ok((0, bytes)),
        1 => {
            let (low, rest) = byte(bytes)?;
            Ok((sign_extended(low, Size::Dword), rest))
        }
        _ => dword(bytes),
    }
}

/// The index that a SIB byte names.
#[inline(always)]
fn index(sib: u8) -> Option<Index>
    ensures { result ≡ index_of
        (Some (record { scale = sib / 64; index = sib / 8 % 8; base = sib % 8 })) }
{
    match sib / 8 % 8 {
        4 => None,
        field => Some(Index {
            register: register(field),
            scale: scale(sib / 64),
        }),
    }
}

#[inline(always)]
#[tactic(auto, unfolding(crate::specs::Given::sib_parts))]
fn sib(bytes: &[u8]) -> Result<(u8, Option<Index>, &[u8]), DecodeFault>
    ensures { Gives (λ x. ((x.0, x.1), x.2.now)) result (sib_parts bytes.now) }
{
    match bytes {
        [] => Err(DecodeFault::Short),
        [sib, rest @ ..] => { Ok((*sib % 8, index(*sib), rest)) }
    }
}

/// The field that names the base, and the index.
#[inline(always)]
#[tactic(auto, unfolding(crate::specs::Given::base_field_parts))]
fn base(rm: u8, bytes: &[u8]) -> Result<(u8, Option<Index>, &[u8]), DecodeFault>
    ensures { Gives (λ x. ((x.0, x.1), x.2.now)) result (base_field_parts rm bytes.now) }
{
    if rm == 4 {
        return sib(bytes);
    }
    Ok((rm, None, bytes))
}

#[inline(always)]
fn base_of(mode: u8, field: u8) -> Option<Register>
    ensures { result ≡ base_of mode field }
{
    if mode == 0 && field == 5 {
        return None;
    }
    Some(register(field))
}

#[inline(always)]
#[tactic(auto, unfolding(crate::specs::Given::memory_field))]
fn memory(mode: u8, rm: u8, bytes: &[u8]) -> Result<(Memory, &[u8]), DecodeFault>
    requires { mode < 3 }
    ensures { Gives (λ x. (x.0, x.1.now)) result (memory_field mode rm bytes.now) }
{
    let (field, index, rest) = base(rm, bytes)?;
    let (displacement, rest) = displacement(mode, field, rest)?;
    Ok((
        Memory {
            base: base_of(mode, field),
            index,
            displacement,
        },
        rest,
    ))
}

/// Puts what mod and rm name into `to`, and answers what follows.
#[inline(always)]
#[tactic(auto, unfolding(crate::specs::Given::operand_field))]
fn operand<'a>(mode: u8, rm: u8, bytes: &'a [u8], to: &mut Operand) -> Result<&'a [u8], DecodeFault>
    requires { mode < 4 }
    ensures { Gives (λ x. (to.new, x.now)) result (operand_field mode rm bytes.now) }
{
    if mode == 3 {
        *to = Operand::Register(register(rm));
        return Ok(bytes);
    }
    let (memory, rest) = memory(mode, rm, bytes)?;
    *to = Operand::Memory(memory);
    Ok(rest)
}

/// The reg field of a ModRM byte, and what follows it. What mod and rm name is put into `rm`.
#[inline(always)]
#[tactic(auto, unfolding(crate::specs::Given::modrm_at))]
fn modrm<'a>(bytes: &'a [u8], rm: &mut Operand) -> Result<(u8, &'a [u8]), DecodeFault>
    ensures { Gives (λ x. ((x.0, rm.new), x.1.now)) result (modrm_at bytes.now) }
{
    match bytes {
        [] => Err(DecodeFault::Short),
        [modrm, rest @ ..] => {
            let rest = operand(*modrm / 64, *modrm % 8, rest, rm)?;
            Ok((*modrm / 8 % 8, rest))
        }
    }
}

/// The reg field, if the row has a ModRM byte, and what follows it. What mod and rm name is put into `rm`.
#[inline(always)]
#[tactic(auto, unfolding(crate::specs::Given::place_code))]
pub fn place<'a>(
    column: ModRm,
    bytes: &'a [u8],
    rm: &mut Operand,
) -> Result<(u8, &'a [u8]), DecodeFault>
    ensures { Gives (λ x. ((x.0, rm.new), x.1.now)) result (place_code column bytes.now) }
{
    match column {
        ModRm::Absent => {
            *rm = Operand::Register(Register::Eax);
            Ok((0, bytes))
        }
        ModRm::Any | ModRm::AnyMemory | ModRm::AnyRegister | ModRm::Only(_) => modrm(bytes, rm),
    }
}

#[inline(always)]
pub fn row_size(sizes: SizeMark, operand_size: OperandSize) -> Size
    ensures { result ≡ row_size sizes (is_resized operand_size) }
{
    match (sizes, operand_size) {
        (SizeMark::Byte, _) => Size::Byte,
        (SizeMark::Variable, OperandSize::Word) => Size::Word,
        (SizeMark::Variable, OperandSize::Dword) | (SizeMark::Dword, _) => Size::Dword,
    }
}

#[inline(always)]
#[tactic(auto, unfolding(crate::specs::Given::immediate_at, crate::specs::Given::number_at, crate::specs::Reading::take_exact))]
pub fn immediate(
    column: ImmediateColumn,
    size: Size,
    operand_size: OperandSize,
    bytes: &[u8],
) -> Result<(u32, &[u8]), DecodeFault>
    ensures value { Gives (λ x.
        (x.0, x.1.now)) result (immediate_at column size (is_resized operand_size) bytes.now) }
    ensures bound { IfOk result (λ x. x.0 < immediate_bound column size (is_resized operand_size)) }
{
    match column {
        ImmediateColumn::Nothing => Ok((0, bytes)),
        ImmediateColumn::Byte => byte(bytes),
        ImmediateColumn::SignedByte => {
            let (low, rest) = byte(bytes)?;
            Ok((sign_extended(low, size), rest))
        }
        ImmediateColumn::Word => word(bytes),
        ImmediateColumn::Dword => dword(bytes),
        ImmediateColumn::Variable => match operand_size {
            OperandSize::Word => word(bytes),
            OperandSize::Dword => dword(bytes),
        },
    }
}
