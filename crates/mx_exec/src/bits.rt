//! Bit tests, bit scans and double shifts of operands in whatever form.

#![tactic(auto, unfolding(crate::specs::Ending::Leads))]

ghost use Rattle.std.specs.Prelude.{ℕ};
ghost use Rattle.mx_exec.specs.Ending.{Leads};
ghost use Rattle.mx_exec.specs.Step.{after, image_after_bit_test, scanned};

use crate::arithmetic::count_of;
use crate::{Image, InsnEnd, Place, Source};
use mx_alu::{bit_scan, bit_test, double_shift};
use mx_insn::{Count, Insn};
use mx_word::{BitScan, BitTest, DoubleShift, Register, Size};

/// BT, BTS, BTR or BTC. BT writes only flags.
pub fn test_bit<P: Place>(
    image: &mut Image,
    operation: BitTest,
    operand: &P,
    number: u32,
) -> InsnEnd
    ensures { (next : ℕ) → Leads next image.old
        (image_after_bit_test operation (P.operand operand.now) number next image.old) result image.new }
{
    let at = operand.spot(&image.regs);
    let x = match operand.load(image, at, Size::Dword) {
        Ok(x) => x,
        Err(vector) => return InsnEnd::Fault(vector),
    };
    let result = bit_test(operation, x, number, &image.flags);
    match operation {
        BitTest::Bt => {
            image.flags = result.1;
            InsnEnd::Next
        }
        _ => operand.store_result(image, at, Size::Dword, result),
    }
}

/// BSF or BSR.
pub fn scan<S: Source>(image: &mut Image, operation: BitScan, to: Register, from: &S) -> InsnEnd
    requires { S.Fits from.now Size.Dword }
    ensures { (next : ℕ) → Leads next image.old
        (scanned operation to (S.read from.now image.old Size.Dword) next image.old) result image.new }
{
    match from.value(image, Size::Dword) {
        Ok(x) => {
            let (found, flags) = bit_scan(operation, x, &image.flags);
            if let Some(place) = found {
                image.set_register(to, place);
            }
            image.flags = flags;
            InsnEnd::Next
        }
        Err(vector) => InsnEnd::Fault(vector),
    }
}

/// What a double shift fills its operand with: a register's bits, and how many.
#[derive(Clone, Copy)]
pub struct Filler {
    pub register: Register,
    pub count: Count,
}

/// SHLD or SHRD.
pub fn shift_double<P: Place>(
    image: &mut Image,
    operation: DoubleShift,
    to: &P,
    filler: Filler,
) -> InsnEnd
    ensures { (next : ℕ) → Leads next image.old
        (after (Insn.DoubleShift operation (P.operand to.now) filler.register filler.count) next image.old) result image.new }
{
    let at = to.spot(&image.regs);
    let x = match to.load(image, at, Size::Dword) {
        Ok(x) => x,
        Err(vector) => return InsnEnd::Fault(vector),
    };
    let bits = image.register(filler.register);
    let count = count_of(image, filler.count);
    let result = double_shift(operation, x, bits, count, &image.flags);
    to.store_result(image, at, Size::Dword, result)
}
