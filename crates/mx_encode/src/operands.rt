//! Encodings of instructions with two operands.

ghost use Rattle.std.specs.Prelude.{◌≡◌, ◌<◌, ◌^◌};
ghost use Rattle.mx_encode.specs.Choice.{arithmetic_immediate, arithmetic_choice, move_immediate, move_choice, test_choice, test_immediate, exchange_choice, load_address, multiply_choice, multiply_immediate, zero_extension, sign_extension};
ghost use Rattle.mx_encode.specs.Given.{is_wide, laid, value_into, OperandFits, OperandsFit, ImmediateFits, WideImmediateFits};

use crate::field_numbers::{NumberForm, arithmetic_number, short, shortens};
use crate::fields::Number;
use crate::forms::Encoding;
use mx_insn::{Extension, Immediate, Memory, Operand, OperandSize, Operands, WideImmediate};
use mx_word::{Arithmetic, Register, Size};

fn arithmetic_immediate(
    operation: Arithmetic,
    to: Operand,
    value: Immediate,
    form: NumberForm,
) -> Encoding
    ensures form { result ≡ laid (arithmetic_immediate operation to value (is_wide form)) }
    ensures to_fits { OperandFits to }
    ensures value_fits { ImmediateFits value }
{
    let reg = arithmetic_number(operation);
    let short_form = Encoding::with_rm(0x83, reg, to);
    let long_form = Encoding::with_rm(0x81, reg, to);
    match value {
        Immediate::Byte(n) => Encoding::with_rm(0x80, reg, to).with_immediate(Number::Byte(n)),
        Immediate::Word(n) => {
            if shortens(Size::Word, u32::from(n), form) {
                short_form
                    .with_operand_size(OperandSize::Word)
                    .with_immediate(short(u32::from(n)))
            } else {
                long_form
                    .with_operand_size(OperandSize::Word)
                    .with_immediate(Number::Word(n))
            }
        }
        Immediate::Dword(n) => {
            if shortens(Size::Dword, n, form) {
                short_form.with_immediate(short(n))
            } else {
                long_form.with_immediate(Number::Dword(n))
            }
        }
    }
}

/// How ADD and its like are encoded, by their operands.
pub fn arithmetic(operation: Arithmetic, operands: Operands, form: NumberForm) -> Encoding
    ensures form { result ≡ laid (arithmetic_choice operation operands (is_wide form)) }
    ensures fits { OperandsFit operands }
{
    let group = 8 * arithmetic_number(operation);
    match operands {
        Operands::ToRegister { size, to, from } => match from {
            Operand::Register(from) => {
                Encoding::of_size(size, group, from.number(), Operand::Register(to))
            }
            Operand::Memory(_) => Encoding::of_size(size, group + 2, to.number(), from),
        },
        Operands::ToMemory { size, to, from } => {
            Encoding::of_size(size, group, from.number(), Operand::Memory(to))
        }
        Operands::Immediate { to, value } => arithmetic_immediate(operation, to, value, form),
    }
}

fn move_immediate(to: Operand, value: Immediate) -> Encoding
    ensures form { result ≡ laid (move_immediate to value) }
    ensures to_fits { OperandFits to }
    ensures value_fits { ImmediateFits value }
{
    match to {
        Operand::Register(to) => match value {
            Immediate::Byte(n) => {
                Encoding::bare(0xb0 + to.number()).with_immediate(Number::Byte(n))
            }
            Immediate::Word(n) => Encoding::bare(0xb8 + to.number())
                .with_operand_size(OperandSize::Word)
                .with_immediate(Number::Word(n)),
            Immediate::Dword(n) => {
                Encoding::bare(0xb8 + to.number()).with_immediate(Number::Dword(n))
            }
        },
        Operand::Memory(_) => value_into(0xc6, to, value),
    }
}

/// A value by an opcode for bytes and the next, for words and dwords, under /0.
fn value_into(opcode: u8, to: Operand, value: Immediate) -> Encoding
    requires { opcode < 255 }
    ensures form { result ≡ value_into opcode to value }
    ensures to_fits { OperandFits to }
    ensures value_fits { ImmediateFits value }
{
    match value {
        Immediate::Byte(n) => Encoding::with_rm(opcode, 0, to).with_immediate(Number::Byte(n)),
        Immediate::Word(n) => Encoding::with_rm(opcode + 1, 0, to)
            .with_operand_size(OperandSize::Word)
            .with_immediate(Number::Word(n)),
        Immediate::Dword(n) => {
            Encoding::with_rm(opcode + 1, 0, to).with_immediate(Number::Dword(n))
        }
    }
}

/// How a MOV is encoded, by its operands.
pub fn movement(operands: Operands) -> Encoding
    ensures form { result ≡ laid (move_choice operands) }
    ensures fits { OperandsFit operands }
{
    match operands {
        Operands::ToRegister { size, to, from } => match from {
            Operand::Register(from) => {
                Encoding::of_size(size, 0x88, from.number(), Operand::Register(to))
            }
            Operand::Memory(_) => Encoding::of_size(size, 0x8a, to.number(), from),
        },
        Operands::ToMemory { size, to, from } => {
            Encoding::of_size(size, 0x88, from.number(), Operand::Memory(to))
        }
        Operands::Immediate { to, value } => move_immediate(to, value),
    }
}

/// How a TEST with a register is encoded.
pub fn test(size: Size, operand: Operand, register: Register) -> Encoding
    ensures form { result ≡ laid (test_choice size operand register) }
    ensures fits { OperandFits operand }
{
    Encoding::of_size(size, 0x84, register.number(), operand)
}

/// How a TEST with an immediate is encoded.
pub fn test_immediate(operand: Operand, value: Immediate) -> Encoding
    ensures form { result ≡ laid (test_immediate operand value) }
    ensures operand_fits { OperandFits operand }
    ensures value_fits { ImmediateFits value }
{
    value_into(0xf6, operand, value)
}

/// How an XCHG is encoded, by its operands.
pub fn exchange(size: Size, operand: Operand, register: Register) -> Encoding
    ensures form { result ≡ laid (exchange_choice size operand register) }
    ensures fits { OperandFits operand }
{
    Encoding::of_size(size, 0x86, register.number(), operand)
}

/// How a LEA is encoded.
#[tactic(auto, using(crate::proofs::Sizes::size_again))]
pub fn load_address(size: OperandSize, to: Register, memory: Memory) -> Encoding
    ensures form { result ≡ laid (load_address size to memory) }
    ensures fits { memory.displacement < 2 ^ 32 }
{
    Encoding::with_rm(0x8d, to.number(), Operand::Memory(memory)).with_operand_size(size)
}

/// How an IMUL with two operands is encoded.
#[tactic(auto, using(crate::proofs::Sizes::size_again))]
pub fn multiply(size: OperandSize, to: Register, from: Operand) -> Encoding
    ensures form { result ≡ laid (multiply_choice size to from) }
    ensures fits { OperandFits from }
{
    Encoding::with_rm(0xaf, to.number(), from)
        .after_0f()
        .with_operand_size(size)
}

/// How an IMUL with three operands is encoded.
pub fn multiply_immediate(
    to: Register,
    from: Operand,
    value: WideImmediate,
    form: NumberForm,
) -> Encoding
    ensures form { result ≡ laid (multiply_immediate to from value (is_wide form)) }
    ensures from_fits { OperandFits from }
    ensures value_fits { WideImmediateFits value }
{
    let reg = to.number();
    let short_form = Encoding::with_rm(0x6b, reg, from);
    let long_form = Encoding::with_rm(0x69, reg, from);
    match value {
        WideImmediate::Word(n) => {
            if shortens(Size::Word, u32::from(n), form) {
                short_form
                    .with_operand_size(OperandSize::Word)
                    .with_immediate(short(u32::from(n)))
            } else {
                long_form
                    .with_operand_size(OperandSize::Word)
                    .with_immediate(Number::Word(n))
            }
        }
        WideImmediate::Dword(n) => {
            if shortens(Size::Dword, n, form) {
                short_form.with_immediate(short(n))
            } else {
                long_form.with_immediate(Number::Dword(n))
            }
        }
    }
}

/// How a MOVZX is encoded.
pub fn zero_extend(extension: Extension, to: Register, from: Operand) -> Encoding
    ensures form { result ≡ laid (zero_extension extension to from) }
    ensures fits { OperandFits from }
{
    let from_byte = Encoding::with_rm(0xb6, to.number(), from).after_0f();
    match extension {
        Extension::ByteToWord => from_byte.with_operand_size(OperandSize::Word),
        Extension::ByteToDword => from_byte,
        Extension::WordToDword => Encoding::with_rm(0xb7, to.number(), from).after_0f(),
    }
}

/// How a MOVSX is encoded.
pub fn sign_extend(extension: Extension, to: Register, from: Operand) -> Encoding
    ensures form { result ≡ laid (sign_extension extension to from) }
    ensures fits { OperandFits from }
{
    let from_byte = Encoding::with_rm(0xbe, to.number(), from).after_0f();
    match extension {
        Extension::ByteToWord => from_byte.with_operand_size(OperandSize::Word),
        Extension::ByteToDword => from_byte,
        Extension::WordToDword => Encoding::with_rm(0xbf, to.number(), from).after_0f(),
    }
}
