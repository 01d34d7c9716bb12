//! Products and quotients: MUL, IMUL, DIV and IDIV, with their flags or their fault.

ghost use Rattle.std.specs.Prelude.{◌≡◌, ◌^◌, ◌<◌};
ghost use Rattle.mx_word.specs.Word.{width, modulo};
ghost use Rattle.mx_alu.specs.Products.{product_of, halves_of, multiply_flags, division_of, leaves};

use crate::wide_numbers::{Signedness, join, lift, quotient, times, upper};
use mx_flags::Flags;
use mx_word::{Size, signed};

/// A number of two words.
#[derive(Clone, Copy, PartialEq, Eq)]
pub struct Halves {
    pub low: u32,
    pub high: u32,
}

/// A quotient toward zero, and the remainder, which has the dividend's sign.
#[derive(Clone, Copy, PartialEq, Eq)]
pub struct Division {
    pub quotient: u32,
    pub remainder: u32,
}

/// The divisor is 0, or the quotient is out of a word's range.
#[derive(Clone, Copy, PartialEq, Eq)]
pub struct DivideFault;

/// The product of two words, whole, and the flags after it: MUL, and IMUL with one operand.
pub fn multiply(kind: Signedness, size: Size, x: u32, y: u32, flags: &Flags) -> (Halves, Flags)
    requires left { x < 2 ^ width size }
    requires right { y < 2 ^ width size }
    ensures value { result.0 ≡ halves_of (width size) (product_of kind (width size) x y) }
    ensures flags { result.1 ≡ multiply_flags kind (width size) x y flags.now }
    ensures low { result.0.low < 2 ^ width size }
    ensures high { result.0.high < 2 ^ width size }
{
    let (halves, outside) = match kind {
        Signedness::Unsigned => unsigned_product(size, x, y),
        Signedness::Signed => signed_product(size, x, y),
    };
    (halves, flags.with_carry_and_overflow(outside, outside))
}

/// The low word of the signed product of two words, and the flags after it: IMUL with two or
/// three operands.
pub fn multiply_low(size: Size, x: u32, y: u32, flags: &Flags) -> (u32, Flags)
    requires left { x < 2 ^ width size }
    requires right { y < 2 ^ width size }
    ensures value { result.0 ≡ modulo (width size) (product_of Signedness.Signed (width size) x y) }
    ensures flags { result.1 ≡ multiply_flags Signedness.Signed (width size) x y flags.now }
    ensures below { result.0 < 2 ^ width size }
{
    let (halves, outside) = signed_product(size, x, y);
    (halves.low, flags.with_carry_and_overflow(outside, outside))
}

fn unsigned_product(size: Size, x: u32, y: u32) -> (Halves, bool)
    requires left { x < 2 ^ width size }
    requires right { y < 2 ^ width size }
    ensures value { result.0
        ≡ halves_of (width size) (product_of Signedness.Unsigned (width size) x y) }
    ensures outside { result.1
        ≡ leaves Signedness.Unsigned (width size)
        (product_of Signedness.Unsigned (width size) x y) }
    ensures low { result.0.low < 2 ^ width size }
    ensures high { result.0.high < 2 ^ width size }
{
    let product = u64::from(x) * u64::from(y);
    let high = size.low(size.high(product));
    (
        Halves {
            low: size.low(product),
            high,
        },
        high != 0,
    )
}

fn signed_product(size: Size, x: u32, y: u32) -> (Halves, bool)
    requires left { x < 2 ^ width size }
    requires right { y < 2 ^ width size }
    ensures value { result.0
        ≡ halves_of (width size) (product_of Signedness.Signed (width size) x y) }
    ensures outside { result.1
        ≡ leaves Signedness.Signed (width size) (product_of Signedness.Signed (width size) x y) }
    ensures low { result.0.low < 2 ^ width size }
    ensures high { result.0.high < 2 ^ width size }
{
    let product = times(signed(size, x), signed(size, y));
    let halves = Halves {
        low: size.modulo(product),
        high: upper(size, product),
    };
    (halves, size.leaves_signed(product))
}

/// A number of two words divided by a word: DIV and IDIV, which change no flag.
pub fn divide(
    kind: Signedness,
    size: Size,
    high: u32,
    low: u32,
    divisor: u32,
) -> Result<Division, DivideFault>
    requires upper { high < 2 ^ width size }
    requires lower { low < 2 ^ width size }
    requires divisor { divisor < 2 ^ width size }
    ensures { result ≡ division_of kind (width size) high low divisor }
{
    match kind {
        Signedness::Unsigned => unsigned_quotient(size, high, low, divisor),
        Signedness::Signed => signed_quotient(size, high, low, divisor),
    }
}

fn unsigned_quotient(size: Size, high: u32, low: u32, divisor: u32) -> Result<Division, DivideFault>
    requires upper { high < 2 ^ width size }
    requires lower { low < 2 ^ width size }
    requires divisor { divisor < 2 ^ width size }
    ensures { result ≡ division_of Signedness.Unsigned (width size) high low divisor }
{
    if divisor == 0 {
        return Err(DivideFault);
    }
    let whole = lift(high, size.bits()) + u64::from(low);
    let quotient = whole / u64::from(divisor);
    if size.high(quotient) != 0 {
        return Err(DivideFault);
    }
    Ok(Division {
        quotient: size.low(quotient),
        remainder: size.low(whole % u64::from(divisor)),
    })
}

fn signed_quotient(size: Size, high: u32, low: u32, divisor: u32) -> Result<Division, DivideFault>
    requires upper { high < 2 ^ width size }
    requires lower { low < 2 ^ width size }
    requires divisor { divisor < 2 ^ width size }
    ensures { result ≡ division_of Signedness.Signed (width size) high low divisor }
{
    if divisor == 0 {
        return Err(DivideFault);
    }
    let whole = join(size, high, low);
    let Some((quotient, remainder)) = quotient(whole, signed(size, divisor)) else {
        return Err(DivideFault);
    };
    if size.leaves_signed(quotient) {
        return Err(DivideFault);
    }
    Ok(Division {
        quotient: size.modulo(quotient),
        remainder: size.modulo(remainder),
    })
}
