//! Prints operands: registers, immediates and memory in brackets.

ghost use Rattle.std.specs.Prelude.{◌≡◌, ◌++◌, ◌==◌, if◌then◌else◌, [], codes, OnOk, string_bytes};
ghost use Rattle.mx_insn_words.specs.Listed.{written_list};
ghost use Rattle.mx_insn_words.specs.Numbers.{number_text};
ghost use Rattle.mx_insn_words.specs.Operands.{scale_text, index_text, place_text, bracket_text, operand_text};
ghost use Rattle.mx_insn_words.specs.Statement.{operands_text};

use crate::number::push_number;
use crate::registers::{register_word, size_word};
use crate::written::{Written, WrittenOperands};
use mx_insn::{Index, Memory, Scale};
use mx_word::Size;
use std::alloc::AllocError;

/// How a scale is written after its register.
fn scale(scale: Scale) -> &'static str
    ensures { result.now ≡ scale_text scale }
{
    match scale {
        Scale::One => "*1",
        Scale::Two => "*2",
        Scale::Four => "*4",
        Scale::Eight => "*8",
    }
}

fn push_index(out: &mut String, index: Index) -> Result<(), AllocError>
    ensures { OnOk result (string_bytes out.new ≡ string_bytes out.old ++ index_text index) }
{
    out.push_str(register_word(Size::Dword, index.register))?;
    out.push_str(scale(index.scale))
}

/// After a base or an index.
fn push_displacement(out: &mut String, displacement: u32) -> Result<(), AllocError>
    ensures { OnOk result (string_bytes out.new ≡ string_bytes out.old
        ++ (if displacement == 0 then [] else codes "+" ++ number_text displacement)) }
{
    if displacement == 0 {
        return Ok(());
    }
    out.push_str("+")?;
    push_number(out, displacement)
}

fn push_place(out: &mut String, memory: Memory) -> Result<(), AllocError>
    ensures { OnOk result (string_bytes out.new ≡ string_bytes out.old ++ place_text memory) }
{
    match (memory.base, memory.index) {
        (None, None) => return push_number(out, memory.displacement),
        (Some(base), None) => out.push_str(register_word(Size::Dword, base))?,
        (None, Some(index)) => push_index(out, index)?,
        (Some(base), Some(index)) => {
            out.push_str(register_word(Size::Dword, base))?;
            out.push_str("+")?;
            push_index(out, index)?;
        }
    }
    push_displacement(out, memory.displacement)
}

fn push_bracket(out: &mut String, memory: Memory) -> Result<(), AllocError>
    ensures { OnOk result (string_bytes out.new ≡ string_bytes out.old ++ bracket_text memory) }
{
    out.push_str("[")?;
    push_place(out, memory)?;
    out.push_str("]")
}

fn push_operand(out: &mut String, operand: Written) -> Result<(), AllocError>
    ensures { OnOk result (string_bytes out.new ≡ string_bytes out.old ++ operand_text operand) }
{
    match operand {
        Written::Register(size, register) => out.push_str(register_word(size, register)),
        Written::Memory(size, memory) => {
            out.push_str(size_word(size))?;
            out.push_str(" ")?;
            push_bracket(out, memory)
        }
        Written::Address(memory) => push_bracket(out, memory),
        Written::Number(value) => push_number(out, value),
    }
}

/// Two operands, and a comma between them.
fn push_two(out: &mut String, first: Written, second: Written) -> Result<(), AllocError>
    ensures { OnOk result (string_bytes out.new ≡ string_bytes out.old
        ++ (operand_text first ++ (codes ", " ++ operand_text second))) }
{
    push_operand(out, first)?;
    out.push_str(", ")?;
    push_operand(out, second)
}

/// Appends a space and an instruction's operands, if it has any.
pub fn push_operands(out: &mut String, operands: WrittenOperands) -> Result<(), AllocError>
    ensures { OnOk result (string_bytes out.new ≡ string_bytes out.old
        ++ operands_text (written_list operands)) }
{
    match operands {
        WrittenOperands::Nothing => Ok(()),
        WrittenOperands::One(only) => {
            out.push_str(" ")?;
            push_operand(out, only)
        }
        WrittenOperands::Two(first, second) => {
            out.push_str(" ")?;
            push_two(out, first, second)
        }
        WrittenOperands::Three(first, second, third) => {
            out.push_str(" ")?;
            push_two(out, first, second)?;
            out.push_str(", ")?;
            push_operand(out, third)
        }
    }
}
