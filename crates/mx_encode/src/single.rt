//! Encodings of instructions with one operand, and of those of the stack.

ghost use Rattle.std.specs.Prelude.{◌≡◌, ◌<◌, ◌^◌, true, false, None, Some, Bool};
ghost use Rattle.mx_insn.specs.Table.{product_number};
ghost use Rattle.mx_encode.specs.Choice.{step_choice, unary_choice, product_choice, shift_choice, set_condition, push_choice, push_immediate, pop_choice};
ghost use Rattle.mx_encode.specs.Given.{is_wide, laid, step_form, OperandFits, CountFits};

use crate::field_numbers::{NumberForm, shift_number, short, shortens};
use crate::fields::Number;
use crate::forms::Encoding;
use mx_insn::{Count, Operand, OperandSize, Product};
use mx_word::{Condition, Register, Shift, Size, Unary};

/// INC or DEC, by the opcode for words and dwords in a register or else under /n of FE and FF.
fn step(opcode: u8, reg: u8, size: Size, operand: Operand) -> Encoding
    requires { opcode < 128 }
    ensures form { result ≡ step_form opcode reg size operand }
    ensures fits { OperandFits operand }
{
    match operand {
        Operand::Register(register) => match size {
            Size::Byte => Encoding::with_rm(0xfe, reg, operand),
            Size::Word => Encoding::bare(opcode + register.number()).with_operand_size(
                OperandSize::Word,
            ),
            Size::Dword => Encoding::bare(opcode + register.number()),
        },
        Operand::Memory(_) => Encoding::of_size(size, 0xfe, reg, operand),
    }
}

/// How INC, DEC, NOT and NEG are encoded.
pub fn unary(operation: Unary, size: Size, operand: Operand) -> Encoding
    ensures form { result ≡ laid (unary_choice operation size operand) }
    ensures fits { OperandFits operand }
{
    match operation {
        Unary::Inc => step(0x40, 0, size, operand),
        Unary::Dec => step(0x48, 1, size, operand),
        Unary::Not => Encoding::of_size(size, 0xf6, 2, operand),
        Unary::Neg => Encoding::of_size(size, 0xf6, 3, operand),
    }
}

fn product_number(operation: Product) -> u8
    ensures value { result ≡ product_number operation }
    ensures below { result < 8 }
{
    match operation {
        Product::Mul => 4,
        Product::Imul => 5,
        Product::Div => 6,
        Product::Idiv => 7,
    }
}

/// How MUL, IMUL, DIV and IDIV are encoded.
pub fn product(operation: Product, size: Size, operand: Operand) -> Encoding
    ensures form { result ≡ laid (product_choice operation size operand) }
    ensures fits { OperandFits operand }
{
    Encoding::of_size(size, 0xf6, product_number(operation), operand)
}

/// How ROL, ROR, SHL, SHR and SAR are encoded.
pub fn shift(operation: Shift, size: Size, operand: Operand, count: Count) -> Encoding
    ensures form { result ≡ laid (shift_choice operation size operand count) }
    ensures operand_fits { OperandFits operand }
    ensures count_fits { CountFits count }
{
    let reg = shift_number(operation);
    match count {
        Count::Cl => Encoding::of_size(size, 0xd2, reg, operand),
        Count::Immediate(n) => {
            if n == 1 {
                Encoding::of_size(size, 0xd0, reg, operand)
            } else {
                Encoding::of_size(size, 0xc0, reg, operand).with_immediate(Number::Byte(n))
            }
        }
    }
}

/// How a SETcc is encoded.
pub fn set_condition(condition: Condition, operand: Operand) -> Encoding
    ensures form { result ≡ laid (set_condition condition operand) }
    ensures fits { OperandFits operand }
{
    Encoding::with_rm(0x90 + condition.code(), 0, operand).after_0f()
}

/// How a PUSH is encoded.
pub fn push(operand: Operand) -> Encoding
    ensures form { result ≡ laid (push_choice operand) }
    ensures fits { OperandFits operand }
{
    match operand {
        Operand::Register(register) => Encoding::bare(0x50 + register.number()),
        Operand::Memory(_) => Encoding::with_rm(0xff, 6, operand),
    }
}

/// How a PUSH of an immediate is encoded.
pub fn push_immediate(number: u32, form: NumberForm) -> Encoding
    ensures { result ≡ laid (push_immediate number (is_wide form)) }
{
    if shortens(Size::Dword, number, form) {
        Encoding::bare(0x6a).with_immediate(short(number))
    } else {
        Encoding::bare(0x68).with_immediate(Number::Dword(number))
    }
}

/// How a POP is encoded.
pub fn pop(register: Register) -> Encoding
    ensures { result ≡ laid (pop_choice register) }
{
    Encoding::bare(0x58 + register.number())
}
