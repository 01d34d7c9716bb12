//! Encodings of jumps, calls and returns.

ghost use Rattle.std.specs.Prelude.{◌≡◌};
ghost use Rattle.mx_insn.specs.Table.{loop_opcode};
ghost use Rattle.mx_encode.specs.Choice.{jump_if, jump_choice, call_choice, jump_to, call_to, loop_choice, return_choice, interrupt_choice};
ghost use Rattle.mx_encode.specs.Given.{is_wide, laid, GivesBytes, OperandFits};

use crate::NoForm;
use crate::field_numbers::{NumberForm, is_short, short, shortens};
use crate::fields::Number;
use crate::forms::Encoding;
use mx_insn::{Loop, Operand};
use mx_word::{Condition, Size};

/// How a Jcc is encoded, with 8 bits or with all.
pub fn jump_if(condition: Condition, displacement: u32, form: NumberForm) -> Encoding
    ensures { result ≡ laid (jump_if condition displacement (is_wide form)) }
{
    if shortens(Size::Dword, displacement, form) {
        Encoding::bare(0x70 + condition.code()).with_immediate(short(displacement))
    } else {
        Encoding::bare(0x80 + condition.code())
            .after_0f()
            .with_immediate(Number::Dword(displacement))
    }
}

/// How a JMP is encoded, with 8 bits or with all.
pub fn jump(displacement: u32, form: NumberForm) -> Encoding
    ensures { result ≡ laid (jump_choice displacement (is_wide form)) }
{
    if shortens(Size::Dword, displacement, form) {
        Encoding::bare(0xeb).with_immediate(short(displacement))
    } else {
        Encoding::bare(0xe9).with_immediate(Number::Dword(displacement))
    }
}

/// How a CALL is encoded.
pub fn call(displacement: u32) -> Encoding
    ensures { result ≡ laid (call_choice displacement) }
{
    Encoding::bare(0xe8).with_immediate(Number::Dword(displacement))
}

/// How a JMP to the address in an operand is encoded.
pub fn jump_to(operand: Operand) -> Encoding
    ensures form { result ≡ laid (jump_to operand) }
    ensures fits { OperandFits operand }
{
    Encoding::with_rm(0xff, 4, operand)
}

/// How a CALL of the address in an operand is encoded.
pub fn call_to(operand: Operand) -> Encoding
    ensures form { result ≡ laid (call_to operand) }
    ensures fits { OperandFits operand }
{
    Encoding::with_rm(0xff, 2, operand)
}

fn loop_opcode(operation: Loop) -> u8
    ensures { result ≡ loop_opcode operation }
{
    match operation {
        Loop::Loopne => 0xe0,
        Loop::Loope => 0xe1,
        Loop::Loop => 0xe2,
        Loop::Jecxz => 0xe3,
    }
}

/// How LOOPNE, LOOPE, LOOP and JECXZ are encoded.
pub fn looping(operation: Loop, displacement: u32) -> Result<Encoding, NoForm>
    ensures { GivesBytes result (loop_choice operation displacement) }
{
    if !is_short(Size::Dword, displacement) {
        return Err(NoForm);
    }
    Ok(Encoding::bare(loop_opcode(operation)).with_immediate(short(displacement)))
}

/// How a RET is encoded.
pub fn returning(number: u16) -> Encoding
    ensures { result ≡ laid (return_choice number) }
{
    if number == 0 {
        Encoding::bare(0xc3)
    } else {
        Encoding::bare(0xc2).with_immediate(Number::Word(number))
    }
}

/// How an INT is encoded.
pub fn interrupt(number: u8) -> Encoding
    ensures { result ≡ laid (interrupt_choice number) }
{
    Encoding::bare(0xcd).with_immediate(Number::Byte(number))
}
