//! The numbers of names in an encoding's fields, and numbers that are encoded as a byte with its sign
//! extended.

ghost use Rattle.std.specs.Prelude.{◌≡◌, ◌<◌, ◌^◌};
ghost use Rattle.mx_word.specs.Word.{width};
ghost use Rattle.mx_insn.specs.Table.{shift_number};
ghost use Rattle.mx_encode.specs.Numbers.{scale_number, arithmetic_number, is_short, shortens, short};
ghost use Rattle.mx_encode.specs.Given.{is_wide};

use crate::fields::Number;
use mx_insn::Scale;
use mx_word::{Arithmetic, Shift, Size, signed};

/// The form of an immediate, or of a displacement, if a byte with its sign extended is enough.
#[derive(Clone, Copy)]
pub enum NumberForm {
    /// A byte, if that is enough.
    Shortest,
    /// Never a byte: the number is marked wide.
    Wide,
}

pub fn scale_number(scale: Scale) -> u8
    ensures value { result ≡ scale_number scale }
    ensures below { result < 4 }
{
    match scale {
        Scale::One => 0,
        Scale::Two => 1,
        Scale::Four => 2,
        Scale::Eight => 3,
    }
}

pub fn arithmetic_number(operation: Arithmetic) -> u8
    ensures value { result ≡ arithmetic_number operation }
    ensures below { result < 8 }
{
    match operation {
        Arithmetic::Add => 0,
        Arithmetic::Or => 1,
        Arithmetic::Adc => 2,
        Arithmetic::Sbb => 3,
        Arithmetic::And => 4,
        Arithmetic::Sub => 5,
        Arithmetic::Xor => 6,
        Arithmetic::Cmp => 7,
    }
}

pub fn shift_number(operation: Shift) -> u8
    ensures value { result ≡ shift_number operation }
    ensures below { result < 8 }
{
    match operation {
        Shift::Rol => 0,
        Shift::Ror => 1,
        Shift::Shl => 4,
        Shift::Shr => 5,
        Shift::Sar => 7,
    }
}

/// Whether a number is a byte with its sign extended.
pub fn is_short(size: Size, number: u32) -> bool
    ensures { result ≡ is_short (width size) number }
{
    size.modulo(signed(Size::Byte, number % 256)) == number
}

/// Whether a byte is enough for a number in the form.
pub fn shortens(size: Size, number: u32, form: NumberForm) -> bool
    ensures { result ≡ shortens (width size) number (is_wide form) }
{
    match form {
        NumberForm::Shortest => is_short(size, number),
        NumberForm::Wide => false,
    }
}

/// The low byte of an immediate, if the rest is its sign.
pub fn short(number: u32) -> Number
    ensures { result ≡ short number }
{
    Number::Byte((number % 256) as u8)
}
