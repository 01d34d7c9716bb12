//! The operand that an instruction reads or writes and that can be in memory.

ghost use Rattle.std.specs.Prelude.{◌≡◌};
ghost use Rattle.mx_exec.specs.Accumulator.{narrow_size};
ghost use Rattle.mx_look.specs.Operands.{calculated_operand, one_operand, outer_operand};

use mx_insn::{Extension, Insn, Operand, Operands};
use mx_word::Size;

/// What MOVZX and MOVSX read.
fn narrow_size(extension: Extension) -> Size
    ensures { result ≡ narrow_size extension }
{
    match extension {
        Extension::ByteToWord | Extension::ByteToDword => Size::Byte,
        Extension::WordToDword => Size::Word,
    }
}

/// Of two operands the one that can be in memory, and the size of both.
fn outer_operand(operands: &Operands) -> (Operand, Size)
    ensures { result ≡ outer_operand operands.now }
{
    match operands {
        Operands::ToRegister { size, from, .. } => (*from, *size),
        Operands::ToMemory { size, to, .. } => (Operand::Memory(*to), *size),
        Operands::Immediate { to, value } => (*to, value.size()),
    }
}

/// The operand of what calculates on one operand or two.
#[tactic(auto, unfolding(mx_look::specs::Operands::calculated_operand))]
fn calculated_operand(insn: &Insn) -> Option<(Operand, Size)>
    ensures { result ≡ calculated_operand insn.now }
{
    match insn {
        Insn::Arithmetic { operands, .. } => Some(outer_operand(operands)),
        Insn::Test { size, operand, .. }
        | Insn::Unary { size, operand, .. }
        | Insn::Product { size, operand, .. }
        | Insn::Shift { size, operand, .. } => Some((*operand, *size)),
        Insn::TestImmediate { operand, value } => Some((*operand, value.size())),
        Insn::Multiply { size, from, .. } => Some((*from, size.size())),
        Insn::MultiplyImmediate { from, by, .. } => Some((*from, by.size())),
        Insn::DoubleShift { operand, .. }
        | Insn::BitTest { operand, .. }
        | Insn::BitScan { from: operand, .. } => Some((*operand, Size::Dword)),
        _ => None,
    }
}

/// The operand of an instruction that can be in memory and is read or written, and its size.
#[tactic(auto, unfolding(mx_look::specs::Operands::one_operand))]
pub(crate) fn one_operand(insn: &Insn) -> Option<(Operand, Size)>
    ensures { result ≡ one_operand insn.now }
{
    match insn {
        Insn::Move(operands) => Some(outer_operand(operands)),
        Insn::Exchange { size, operand, .. } => Some((*operand, *size)),
        Insn::ZeroExtend {
            extension,
            from,
            ..
        }
        | Insn::SignExtend {
            extension,
            from,
            ..
        } => { Some((*from, narrow_size(*extension))) }
        Insn::SetCondition { operand, .. } => Some((*operand, Size::Byte)),
        Insn::Push(operand) | Insn::JumpTo(operand) | Insn::CallTo(operand) => {
            Some((*operand, Size::Dword))
        }
        _ => calculated_operand(insn),
    }
}
