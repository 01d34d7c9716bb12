//! An instruction with another immediate or displacement: the assembler puts in addresses of labels so.

ghost use Rattle.std.specs.Prelude.{◌≡◌};
ghost use Rattle.mx_encode.specs.Filled.{value_with, factor_with, operands_with_value, with_immediate, operand_with_displacement, operands_with_displacement, with_displacement};

use mx_insn::{Immediate, Insn, Operand, Operands, WideImmediate};

fn value_with(value: Immediate, number: u32) -> Immediate
    ensures { result ≡ value_with value number }
{
    match value {
        Immediate::Dword(_) => Immediate::Dword(number),
        Immediate::Byte(_) | Immediate::Word(_) => value,
    }
}

fn factor_with(by: WideImmediate, number: u32) -> WideImmediate
    ensures { result ≡ factor_with by number }
{
    match by {
        WideImmediate::Dword(_) => WideImmediate::Dword(number),
        WideImmediate::Word(_) => by,
    }
}

fn operands_with_value(operands: Operands, number: u32) -> Operands
    ensures { result ≡ operands_with_value operands number }
{
    match operands {
        Operands::Immediate { to, value } => Operands::Immediate {
            to,
            value: value_with(value, number),
        },
        Operands::ToRegister { .. } | Operands::ToMemory { .. } => operands,
    }
}

/// The instruction with a number as its immediate, if it has one of 32 bits; any other doesn't change.
pub fn with_immediate(insn: Insn, number: u32) -> Insn
    ensures { result ≡ with_immediate insn number }
{
    match insn {
        Insn::Arithmetic {
            operation,
            operands,
        } => Insn::Arithmetic {
            operation,
            operands: operands_with_value(operands, number),
        },
        Insn::Move(operands) => Insn::Move(operands_with_value(operands, number)),
        Insn::TestImmediate { operand, value } => Insn::TestImmediate {
            operand,
            value: value_with(value, number),
        },
        Insn::MultiplyImmediate { to, from, by } => Insn::MultiplyImmediate {
            to,
            from,
            by: factor_with(by, number),
        },
        Insn::PushImmediate(_) => Insn::PushImmediate(number),
        _ => insn,
    }
}

fn displace_operand(operand: &mut Operand, displacement: u32)
    ensures { operand.new ≡ operand_with_displacement operand.old displacement }
{
    match operand {
        Operand::Register(_) => {}
        Operand::Memory(memory) => memory.displacement = displacement,
    }
}

fn displace_operands(operands: &mut Operands, displacement: u32)
    ensures { operands.new ≡ operands_with_displacement operands.old displacement }
{
    match operands {
        Operands::ToRegister { from, .. } => displace_operand(from, displacement),
        Operands::ToMemory { to, .. } => to.displacement = displacement,
        Operands::Immediate { to, .. } => displace_operand(to, displacement),
    }
}

fn displace(insn: &mut Insn, displacement: u32)
    ensures { insn.new ≡ with_displacement insn.old displacement }
{
    match insn {
        Insn::Arithmetic { operands, .. } => displace_operands(operands, displacement),
        Insn::Move(operands) => displace_operands(operands, displacement),
        Insn::Test { operand, .. } => displace_operand(operand, displacement),
        Insn::TestImmediate { operand, .. } => displace_operand(operand, displacement),
        Insn::Exchange { operand, .. } => displace_operand(operand, displacement),
        Insn::LoadAddress { memory, .. } => memory.displacement = displacement,
        Insn::Unary { operand, .. } => displace_operand(operand, displacement),
        Insn::Product { operand, .. } => displace_operand(operand, displacement),
        Insn::Multiply { from, .. } => displace_operand(from, displacement),
        Insn::MultiplyImmediate { from, .. } => displace_operand(from, displacement),
        Insn::Shift { operand, .. } => displace_operand(operand, displacement),
        Insn::DoubleShift { operand, .. } => displace_operand(operand, displacement),
        Insn::BitTest { operand, .. } => displace_operand(operand, displacement),
        Insn::BitScan { from, .. } => displace_operand(from, displacement),
        Insn::ZeroExtend { from, .. } => displace_operand(from, displacement),
        Insn::SignExtend { from, .. } => displace_operand(from, displacement),
        Insn::SetCondition { operand, .. } => displace_operand(operand, displacement),
        Insn::Push(operand) => displace_operand(operand, displacement),
        Insn::JumpTo(operand) => displace_operand(operand, displacement),
        Insn::CallTo(operand) => displace_operand(operand, displacement),
        _ => {}
    }
}

/// The instruction with a displacement in its memory; one without memory stays as it is.
pub fn with_displacement(insn: Insn, displacement: u32) -> Insn
    ensures { result ≡ with_displacement insn displacement }
{
    let mut displaced = insn;
    displace(&mut displaced, displacement);
    displaced
}
