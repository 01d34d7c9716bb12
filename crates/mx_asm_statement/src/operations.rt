//! Forms of operations on registers and memory.

ghost use Rattle.std.specs.Prelude.{◌≡◌, ◌∷◌, []};
ghost use Rattle.mx_asm_statement.specs.Operations.{factor_of, unary, test, product, shift_count_of, shift, set_condition_statement};

use crate::{
    Argument, Statement, Value, immediate_in, not_byte, number_in, says, spot_beside, spot_of,
    spot_of_size, waiting,
};
use mx_insn::{Count, Insn, Product, WideImmediate};
use mx_word::{Condition, Register, Shift, Size, Unary};

/// The statement of INC, DEC, NOT or NEG with its arguments.
pub fn unary(operation: Unary, arguments: &[Argument]) -> Option<Statement>
    ensures { result ≡ unary operation arguments.now }
{
    match arguments {
        [first] => {
            let spot = spot_of(*first)?;
            let insn = Insn::Unary {
                operation,
                size: spot.size,
                operand: spot.operand,
            };
            says(insn, None, spot.displacement)
        }
        _ => None,
    }
}

fn test_two(first: Argument, second: Argument) -> Option<Statement>
    ensures { result ≡ test (first ∷ second ∷ []) }
{
    match second {
        Argument::Register(size, register) => {
            let spot = spot_beside(size, first)?;
            let insn = Insn::Test {
                size,
                operand: spot.operand,
                register,
            };
            says(insn, None, spot.displacement)
        }
        Argument::Value(value) => {
            let spot = spot_of(first)?;
            let immediate = immediate_in(spot.size, value)?;
            let insn = Insn::TestImmediate {
                operand: spot.operand,
                value: immediate,
            };
            says(insn, waiting(value), spot.displacement)
        }
        Argument::Memory(_, _) => None,
    }
}

/// The statement of TEST with its arguments.
pub fn test(arguments: &[Argument]) -> Option<Statement>
    ensures { result ≡ test arguments.now }
{
    match arguments {
        [first, second] => test_two(*first, *second),
        _ => None,
    }
}

fn product_one(operation: Product, first: Argument) -> Option<Statement>
    ensures { result ≡ product operation (first ∷ []) }
{
    let spot = spot_of(first)?;
    let insn = Insn::Product {
        operation,
        size: spot.size,
        operand: spot.operand,
    };
    says(insn, None, spot.displacement)
}

fn product_two(operation: Product, first: Argument, second: Argument) -> Option<Statement>
    ensures { result ≡ product operation (first ∷ second ∷ []) }
{
    match (operation, first) {
        (Product::Imul, Argument::Register(register_size, to)) => {
            let size = not_byte(register_size)?;
            let spot = spot_beside(register_size, second)?;
            let insn = Insn::Multiply {
                size,
                to,
                from: spot.operand,
            };
            says(insn, None, spot.displacement)
        }
        _ => None,
    }
}

fn factor_of(size: Size, value: Value) -> Option<WideImmediate>
    ensures { result ≡ factor_of size value }
{
    let word = number_in(size, value)?;
    match size {
        Size::Byte => None,
        Size::Word => Some(WideImmediate::Word(word as u16)),
        Size::Dword => Some(WideImmediate::Dword(word)),
    }
}

fn product_three(
    operation: Product,
    first: Argument,
    second: Argument,
    third: Argument,
) -> Option<Statement>
    ensures { result ≡ product operation (first ∷ second ∷ third ∷ []) }
{
    match (operation, first, third) {
        (Product::Imul, Argument::Register(size, to), Argument::Value(value)) => {
            let spot = spot_beside(size, second)?;
            let by = factor_of(size, value)?;
            let insn = Insn::MultiplyImmediate {
                to,
                from: spot.operand,
                by,
            };
            says(insn, waiting(value), spot.displacement)
        }
        _ => None,
    }
}

/// MUL, IMUL, DIV, IDIV; IMUL with two or three operands too.
pub fn product(operation: Product, arguments: &[Argument]) -> Option<Statement>
    ensures { result ≡ product operation arguments.now }
{
    match arguments {
        [first] => product_one(operation, *first),
        [first, second] => product_two(operation, *first, *second),
        [first, second, third] => product_three(operation, *first, *second, *third),
        _ => None,
    }
}

pub fn count_of(argument: Argument) -> Option<Count>
    ensures { result ≡ shift_count_of argument }
{
    match argument {
        Argument::Register(Size::Byte, Register::Ecx) => Some(Count::Cl),
        Argument::Value(value) => {
            let word = number_in(Size::Byte, value)?;
            Some(Count::Immediate(word as u8))
        }
        _ => None,
    }
}

/// The statement of ROL, ROR, SHL, SHR or SAR with its arguments.
pub fn shift(operation: Shift, arguments: &[Argument]) -> Option<Statement>
    ensures { result ≡ shift operation arguments.now }
{
    match arguments {
        [first, second] => {
            let spot = spot_of(*first)?;
            let count = count_of(*second)?;
            let insn = Insn::Shift {
                operation,
                size: spot.size,
                operand: spot.operand,
                count,
            };
            says(insn, None, spot.displacement)
        }
        _ => None,
    }
}

/// The statement of SETcc with its arguments.
pub fn set_condition(condition: Condition, arguments: &[Argument]) -> Option<Statement>
    ensures { result ≡ set_condition_statement condition arguments.now }
{
    match arguments {
        [first] => {
            let spot = spot_of_size(Size::Byte, *first)?;
            let insn = Insn::SetCondition {
                condition,
                operand: spot.operand,
            };
            says(insn, None, spot.displacement)
        }
        _ => None,
    }
}
