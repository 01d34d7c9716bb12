//! Forms of bit tests, bit scans and double shifts.

ghost use Rattle.std.specs.Prelude.{◌≡◌, ◌∷◌, []};
ghost use Rattle.mx_asm_statement.specs.Operations.{double_shift, bit_test, bit_scan};

use crate::operations::count_of;
use crate::{Argument, Statement, number_in, says, spot_beside, spot_of_size};
use mx_insn::Insn;
use mx_word::{BitScan, BitTest, DoubleShift, Size};

fn double_shift_three(
    operation: DoubleShift,
    first: Argument,
    second: Argument,
    third: Argument,
) -> Option<Statement>
    ensures { result ≡ double_shift operation (first ∷ second ∷ third ∷ []) }
{
    match second {
        Argument::Register(Size::Dword, register) => {
            let spot = spot_beside(Size::Dword, first)?;
            let count = count_of(third)?;
            let insn = Insn::DoubleShift {
                operation,
                operand: spot.operand,
                register,
                count,
            };
            says(insn, None, spot.displacement)
        }
        _ => None,
    }
}

/// SHLD, SHRD.
pub fn double_shift(operation: DoubleShift, arguments: &[Argument]) -> Option<Statement>
    ensures { result ≡ double_shift operation arguments.now }
{
    match arguments {
        [first, second, third] => double_shift_three(operation, *first, *second, *third),
        _ => None,
    }
}

fn bit_test_two(operation: BitTest, first: Argument, second: Argument) -> Option<Statement>
    ensures { result ≡ bit_test operation (first ∷ second ∷ []) }
{
    match (first, second) {
        (Argument::Register(Size::Dword, register), Argument::Register(Size::Dword, number)) => {
            let insn = Insn::BitTestRegister {
                operation,
                register,
                number,
            };
            says(insn, None, None)
        }
        (first, Argument::Value(value)) => {
            let spot = spot_of_size(Size::Dword, first)?;
            let word = number_in(Size::Byte, value)?;
            let insn = Insn::BitTest {
                operation,
                operand: spot.operand,
                number: word as u8,
            };
            says(insn, None, spot.displacement)
        }
        _ => None,
    }
}

/// BT, BTS, BTR, BTC.
pub fn bit_test(operation: BitTest, arguments: &[Argument]) -> Option<Statement>
    ensures { result ≡ bit_test operation arguments.now }
{
    match arguments {
        [first, second] => bit_test_two(operation, *first, *second),
        _ => None,
    }
}

fn bit_scan_two(operation: BitScan, first: Argument, second: Argument) -> Option<Statement>
    ensures { result ≡ bit_scan operation (first ∷ second ∷ []) }
{
    match first {
        Argument::Register(Size::Dword, to) => {
            let spot = spot_beside(Size::Dword, second)?;
            let insn = Insn::BitScan {
                operation,
                to,
                from: spot.operand,
            };
            says(insn, None, spot.displacement)
        }
        _ => None,
    }
}

/// BSF, BSR.
pub fn bit_scan(operation: BitScan, arguments: &[Argument]) -> Option<Statement>
    ensures { result ≡ bit_scan operation arguments.now }
{
    match arguments {
        [first, second] => bit_scan_two(operation, *first, *second),
        _ => None,
    }
}
