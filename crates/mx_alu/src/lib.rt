//! What arithmetic, logic, shifts by so many places, products, quotients and their `DivideFault` give at a
//! size, signed or not: the result, and the flags after it. No call takes memory.
#![tactic(auto)]

ghost use Rattle.std.specs.Prelude.{◌≡◌, ◌^◌, ◌<◌};
ghost use Rattle.mx_word.specs.Word.{width};
ghost use Rattle.mx_alu.specs.Alu.{alu_value, alu_flags, unary_value, unary_flags};

mod bits;
mod extension;
mod products;
mod shifts;
mod wide_numbers;

pub use bits::{bit_scan, bit_test, double_shift};
pub use extension::{extend, spread_sign};
use mx_flags::Flags;
use mx_word::{Arithmetic, Size, Unary, add_w, sub_w};
pub use products::{DivideFault, Division, Halves, divide, multiply, multiply_low};
pub use shifts::{shift, shift_in_place};
pub use wide_numbers::Signedness;

/// The result of an operation on two words, and the flags after it. TEST is an AND, as CMP is a SUB, whose
/// result nobody uses. Inlined, so that no code for the size is left if the caller knows it.
#[inline(always)]
pub fn alu(operation: Arithmetic, size: Size, x: u32, y: u32, flags: &Flags) -> (u32, Flags)
    requires left { x < 2 ^ width size }
    requires right { y < 2 ^ width size }
    ensures value { result.0 ≡ alu_value operation (width size) x y flags.now }
    ensures flags { result.1 ≡ alu_flags operation (width size) x y flags.now }
    ensures below { result.0 < 2 ^ width size }
{
    match operation {
        Arithmetic::Add => (add_w(size, x, y, false), flags.after_add(size, x, y, false)),
        Arithmetic::Or => (x | y, flags.after_logic(size, x | y)),
        Arithmetic::Adc => {
            let carry = flags.carry();
            (add_w(size, x, y, carry), flags.after_add(size, x, y, carry))
        }
        Arithmetic::Sbb => {
            let borrow = flags.carry();
            (
                sub_w(size, x, y, borrow),
                flags.after_sub(size, x, y, borrow),
            )
        }
        Arithmetic::And => (x & y, flags.after_logic(size, x & y)),
        Arithmetic::Sub | Arithmetic::Cmp => (
            sub_w(size, x, y, false),
            flags.after_sub(size, x, y, false),
        ),
        Arithmetic::Xor => (x ^ y, flags.after_logic(size, x ^ y)),
    }
}

/// The result of an operation on one word, and the flags after it.
#[inline(always)]
pub fn unary(operation: Unary, size: Size, x: u32, flags: &Flags) -> (u32, Flags)
    requires { x < 2 ^ width size }
    ensures value { result.0 ≡ unary_value operation (width size) x }
    ensures flags { result.1 ≡ unary_flags operation (width size) x flags.now }
    ensures below { result.0 < 2 ^ width size }
{
    match operation {
        Unary::Inc => (add_w(size, x, 1, false), flags.after_increment(size, x)),
        Unary::Dec => (sub_w(size, x, 1, false), flags.after_decrement(size, x)),
        Unary::Not => ((size.modulus() - 1) as u32 - x, flags.copy()),
        Unary::Neg => (sub_w(size, 0, x, false), flags.after_sub(size, 0, x, false)),
    }
}
