//! Forms with a single operand.

ghost use Rattle.std.specs.Prelude.{◌≡◌};
ghost use Rattle.mx_asm_statement.specs.SizedOperands.{statement_of_insn, statement_of_branch, memory_named, sized_memory, sized_operand_of, operand_of_size, operand_beside, not_byte};

use crate::number::{names_no_other, number_in, waiting};
use crate::{Address, Argument, Branch, Instruction, Statement, Value};
use mx_insn::{Insn, Memory, Operand, OperandSize};
use mx_word::Size;

/// A register or a place in memory, with its size, and the value that is still to be put into its
/// displacement.
#[derive(Clone, Copy)]
pub struct SizedOperand {
    pub size: Size,
    pub operand: Operand,
    pub displacement: Option<Value>,
}

/// The instruction, with the values that are still to be put in.
pub fn says(insn: Insn, immediate: Option<Value>, displacement: Option<Value>) -> Option<Statement>
    ensures { result ≡ statement_of_insn insn immediate displacement }
{
    let instruction = Instruction::new(insn, immediate, displacement)?;
    Some(Statement::Instruction(instruction))
}

/// The statement that jumps to a target.
pub fn goes(branch: Branch, target: Value) -> Option<Statement>
    ensures { result ≡ statement_of_branch branch target }
{
    Some(Statement::Branch(branch, target))
}

/// The place in memory that a written address is.
pub fn memory_named(address: Address) -> Option<Memory>
    ensures { result ≡ memory_named address }
{
    let displacement = number_in(Size::Dword, address.value)?;
    Some(Memory {
        base: address.base,
        index: address.index,
        displacement,
    })
}

fn spot_in(size: Size, address: Address) -> Option<SizedOperand>
    ensures { result ≡ sized_memory size address }
{
    let memory = memory_named(address)?;
    Some(SizedOperand {
        size,
        operand: Operand::Memory(memory),
        displacement: waiting(address.value),
    })
}

/// A register, or a place in memory after its size word.
pub fn spot_of(argument: Argument) -> Option<SizedOperand>
    ensures { result ≡ sized_operand_of argument }
{
    match argument {
        Argument::Register(size, register) => Some(SizedOperand {
            size,
            operand: Operand::Register(register),
            displacement: None,
        }),
        Argument::Memory(Some(size), address) => spot_in(size, address),
        _ => None,
    }
}

/// The operand of an argument, if it is of this size.
pub fn spot_of_size(size: Size, argument: Argument) -> Option<SizedOperand>
    ensures { result ≡ operand_of_size size argument }
{
    let spot = spot_of(argument)?;
    if spot.size == size { Some(spot) } else { None }
}

/// The operand of an argument in a form whose other operand is a register, which gives the size.
pub fn spot_beside(size: Size, argument: Argument) -> Option<SizedOperand>
    ensures { result ≡ operand_beside size argument }
{
    match argument {
        Argument::Register(other, register) => {
            if other == size {
                Some(SizedOperand {
                    size,
                    operand: Operand::Register(register),
                    displacement: None,
                })
            } else {
                None
            }
        }
        Argument::Memory(named, address) => {
            if names_no_other(named, size) {
                spot_in(size, address)
            } else {
                None
            }
        }
        Argument::Value(_) => None,
    }
}

pub fn not_byte(size: Size) -> Option<OperandSize>
    ensures { result ≡ not_byte size }
{
    match size {
        Size::Byte => None,
        Size::Word => Some(OperandSize::Word),
        Size::Dword => Some(OperandSize::Dword),
    }
}
