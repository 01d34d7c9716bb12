//! Words as numbers, and products and quotients of numbers that need two words.

ghost use Rattle.std.specs.Prelude.{◌≡◌, ◌≢◌, ◌*◌, ◌^◌, ◌<◌, ◌≤◌, pos, ◌+ℤ◌, ◌*ℤ◌, ◌≤ℤ◌, unsigned_abs, int_div, int_rem, IfNone, IfSome, true};
ghost use Rattle.std.specs.Int.{int_shr};
ghost use Rattle.mx_word.specs.Word.{width, signed, modulo, leaves_signed};
ghost use Rattle.mx_alu.specs.Products.{as_number};

use mx_word::{Size, signed};

/// How a word is read: MUL, DIV and MOVZX read it as unsigned, IMUL, IDIV and MOVSX as signed.
#[derive(Clone, Copy, PartialEq, Eq)]
pub enum Signedness {
    Unsigned,
    Signed,
}

/// A word as a number.
pub(crate) fn number(kind: Signedness, size: Size, x: u32) -> i64
    requires { x < 2 ^ width size }
    ensures { result ≡ as_number kind (width size) x }
{
    match kind {
        Signedness::Unsigned => i64::from(x),
        Signedness::Signed => signed(size, x),
    }
}

/// A word moved up, whole.
pub(crate) fn lift(x: u32, places: u32) -> u64
    requires { places ≤ 32 }
    ensures { result ≡ x * 2 ^ places }
{
    u64::from(x) << places
}

/// A product of two signed words.
pub(crate) fn times(x: i64, y: i64) -> i64
    requires left { unsigned_abs x ≤ 2 ^ 31 }
    requires right { unsigned_abs y ≤ 2 ^ 31 }
    ensures { result ≡ x *ℤ y }
{
    x * y
}

/// A quotient toward zero and its remainder. `None` if the quotient needs more than 64 bits.
pub(crate) fn quotient(whole: i64, divisor: i64) -> Option<(i64, i64)>
    requires { divisor ≢ pos 0 }
    ensures none { IfNone result (leaves_signed 64 (int_div whole divisor) ≡ true) }
    ensures some { IfSome result (λ q. (q.0 ≡ int_div whole divisor)
        × (q.1 ≡ int_rem whole divisor)) }
{
    match (whole.checked_div(divisor), whole.checked_rem(divisor)) {
        (Some(quotient), Some(remainder)) => Some((quotient, remainder)),
        _ => None,
    }
}

/// The word above the low one.
pub(crate) fn upper(size: Size, whole: i64) -> u32
    ensures value { result ≡ modulo (width size) (int_shr whole (width size)) }
    ensures below { result < 2 ^ width size }
{
    size.modulo(whole >> size.bits())
}

/// Two words as one signed number.
pub(crate) fn join(size: Size, high: u32, low: u32) -> i64
    requires upper { high < 2 ^ width size }
    requires lower { low < 2 ^ width size }
    ensures { result ≡ signed (width size) high *ℤ pos (2 ^ width size) +ℤ pos low }
{
    signed(size, high) * size.modulus() + i64::from(low)
}
