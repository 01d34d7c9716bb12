//! Encodings of bit tests, bit scans and double shifts.

ghost use Rattle.std.specs.Prelude.{◌≡◌, ◌<◌, ◌^◌};
ghost use Rattle.mx_insn.specs.Table.{bit_test_number, bit_test_opcode, bit_scan_opcode, double_shift_opcode};
ghost use Rattle.mx_encode.specs.Choice.{bit_test_choice, register_bit_test, bit_scan_choice, double_shift_choice};
ghost use Rattle.mx_encode.specs.Given.{laid, OperandFits, CountFits};

use crate::fields::Number;
use crate::forms::Encoding;
use mx_insn::{Count, Operand};
use mx_word::{BitScan, BitTest, DoubleShift, Register};

fn bit_test_number(operation: BitTest) -> u8
    ensures value { result ≡ bit_test_number operation }
    ensures below { result < 8 }
{
    match operation {
        BitTest::Bt => 4,
        BitTest::Bts => 5,
        BitTest::Btr => 6,
        BitTest::Btc => 7,
    }
}

fn bit_test_opcode(operation: BitTest) -> u8
    ensures { result ≡ bit_test_opcode operation }
{
    match operation {
        BitTest::Bt => 0xa3,
        BitTest::Bts => 0xab,
        BitTest::Btr => 0xb3,
        BitTest::Btc => 0xbb,
    }
}

fn bit_scan_opcode(operation: BitScan) -> u8
    ensures { result ≡ bit_scan_opcode operation }
{
    match operation {
        BitScan::Bsf => 0xbc,
        BitScan::Bsr => 0xbd,
    }
}

/// That by an immediate; that by CL is the next.
fn double_shift_opcode(operation: DoubleShift) -> u8
    ensures value { result ≡ double_shift_opcode operation }
    ensures below { result < 255 }
{
    match operation {
        DoubleShift::Shld => 0xa4,
        DoubleShift::Shrd => 0xac,
    }
}

/// BT, BTS, BTR, BTC with a number in the instruction.
pub fn bit_test(operation: BitTest, operand: Operand, number: u8) -> Encoding
    ensures form { result ≡ laid (bit_test_choice operation operand number) }
    ensures operand_fits { OperandFits operand }
    ensures number_fits { number < 2 ^ 8 }
{
    Encoding::with_rm(0xba, bit_test_number(operation), operand)
        .after_0f()
        .with_immediate(Number::Byte(number))
}

/// BT, BTS, BTR, BTC of a register with a number in a register.
pub fn register_bit_test(operation: BitTest, register: Register, number: Register) -> Encoding
    ensures { result ≡ laid (register_bit_test operation register number) }
{
    Encoding::with_rm(
        bit_test_opcode(operation),
        number.number(),
        Operand::Register(register),
    )
    .after_0f()
}

/// BSF, BSR.
pub fn bit_scan(operation: BitScan, to: Register, from: Operand) -> Encoding
    ensures form { result ≡ laid (bit_scan_choice operation to from) }
    ensures fits { OperandFits from }
{
    Encoding::with_rm(bit_scan_opcode(operation), to.number(), from).after_0f()
}

/// SHLD, SHRD.
pub fn double_shift(
    operation: DoubleShift,
    operand: Operand,
    register: Register,
    count: Count,
) -> Encoding
    ensures form { result ≡ laid (double_shift_choice operation operand register count) }
    ensures operand_fits { OperandFits operand }
    ensures count_fits { CountFits count }
{
    let opcode = double_shift_opcode(operation);
    let reg = register.number();
    match count {
        Count::Cl => Encoding::with_rm(opcode + 1, reg, operand).after_0f(),
        Count::Immediate(n) => Encoding::with_rm(opcode, reg, operand)
            .after_0f()
            .with_immediate(Number::Byte(n)),
    }
}
