//! Where the overflow flag comes from.

ghost use Rattle.std.specs.Prelude.{ℕ, ◌≡◌, ◌==◌, ◌+◌, ◌-◌, ◌^◌, ◌+ℤ◌, ◌-ℤ◌};
ghost use Rattle.mx_word.specs.Word.{width, signed, leaves_signed};
ghost use Rattle.mx_flags.specs.Last.{overflow_from};

use mx_word::{Size, signed};

/// Where the overflow flag comes from: a value, or the last sum, difference, INC or DEC, of a size. The size isn't a
/// value beside it, since the two have to be one byte.
#[derive(Clone, Copy, PartialEq, Eq)]
pub enum Overflow {
    Clear,
    Set,
    SumOfBytes,
    SumOfWords,
    SumOfDwords,
    DifferenceOfBytes,
    DifferenceOfWords,
    DifferenceOfDwords,
    IncrementOfByte,
    IncrementOfWord,
    IncrementOfDword,
    DecrementOfByte,
    DecrementOfWord,
    DecrementOfDword,
}

/// An overflow that is known.
#[inline(always)]
pub fn overflow_of(overflow: bool) -> Overflow
    ensures { (x y k : ℕ) → overflow_from result x y k ≡ overflow }
{
    if overflow {
        Overflow::Set
    } else {
        Overflow::Clear
    }
}

/// That of a sum.
#[inline(always)]
pub fn of_sum(size: Size) -> Overflow
    ensures { (x y k : ℕ) → overflow_from result x y k
        ≡ leaves_signed (width size) (signed 32 x +ℤ signed 32 y) }
{
    match size {
        Size::Byte => Overflow::SumOfBytes,
        Size::Word => Overflow::SumOfWords,
        Size::Dword => Overflow::SumOfDwords,
    }
}

/// That of a difference.
#[inline(always)]
pub fn of_difference(size: Size) -> Overflow
    ensures { (x y k : ℕ) → overflow_from result x y k
        ≡ leaves_signed (width size) (signed 32 x -ℤ signed 32 y) }
{
    match size {
        Size::Byte => Overflow::DifferenceOfBytes,
        Size::Word => Overflow::DifferenceOfWords,
        Size::Dword => Overflow::DifferenceOfDwords,
    }
}

/// That of INC.
#[inline(always)]
pub fn of_increment(size: Size) -> Overflow
    ensures { (x y k : ℕ) → overflow_from result x y k ≡ (k + 1 == 2 ^ (width size - 1)) }
{
    match size {
        Size::Byte => Overflow::IncrementOfByte,
        Size::Word => Overflow::IncrementOfWord,
        Size::Dword => Overflow::IncrementOfDword,
    }
}

/// That of DEC.
#[inline(always)]
pub fn of_decrement(size: Size) -> Overflow
    ensures { (x y k : ℕ) → overflow_from result x y k ≡ (k == 2 ^ (width size - 1)) }
{
    match size {
        Size::Byte => Overflow::DecrementOfByte,
        Size::Word => Overflow::DecrementOfWord,
        Size::Dword => Overflow::DecrementOfDword,
    }
}

/// Overflow, of the operands of the last sum or difference, and of the last INC or DEC.
#[inline(never)]
pub fn overflow_of_operands(overflow: Overflow, left: u32, right: u32, counter: u32) -> bool
    ensures { result ≡ overflow_from overflow left right counter }
{
    let x = signed(Size::Dword, left);
    let y = signed(Size::Dword, right);
    let k = i64::from(counter);
    match overflow {
        Overflow::Clear => false,
        Overflow::Set => true,
        Overflow::SumOfBytes => Size::Byte.leaves_signed(x + y),
        Overflow::SumOfWords => Size::Word.leaves_signed(x + y),
        Overflow::SumOfDwords => Size::Dword.leaves_signed(x + y),
        Overflow::DifferenceOfBytes => Size::Byte.leaves_signed(x - y),
        Overflow::DifferenceOfWords => Size::Word.leaves_signed(x - y),
        Overflow::DifferenceOfDwords => Size::Dword.leaves_signed(x - y),
        Overflow::IncrementOfByte => k + 1 == Size::Byte.half(),
        Overflow::IncrementOfWord => k + 1 == Size::Word.half(),
        Overflow::IncrementOfDword => k + 1 == Size::Dword.half(),
        Overflow::DecrementOfByte => k == Size::Byte.half(),
        Overflow::DecrementOfWord => k == Size::Word.half(),
        Overflow::DecrementOfDword => k == Size::Dword.half(),
    }
}
