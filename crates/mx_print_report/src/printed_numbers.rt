//! Numbers, as lines of bytes have them.

ghost use Rattle.std.specs.Prelude.{◌≡◌, ◌<◌, ◌++◌, ◌∷◌, codes, false, OnOk};
ghost use Rattle.std.specs.Fmt.{decimal, digit_glyph, signed_decimal};
ghost use Rattle.std.specs.Int.{cast_signed, w32};
ghost use Rattle.mx_print_report.specs.Numbers.{two_digits};

use itoa::Buffer;
use std::alloc::AllocError;

/// Appends a number of 64 bits in decimal digits.
pub fn push_long(out: &mut Vec<u8>, number: u64) -> Result<(), AllocError>
    ensures { OnOk result (out.new.items ≡ out.old.items ++ decimal number) }
{
    out.extend_from_slice(Buffer::new().format(number).as_bytes())
}

/// Appends a number in decimal digits.
pub fn push_decimal(out: &mut Vec<u8>, number: u32) -> Result<(), AllocError>
    ensures { OnOk result (out.new.items ≡ out.old.items ++ decimal number) }
{
    push_long(out, u64::from(number))
}

/// Appends a number that has a sign: 0xFFFF_FFFF is -1.
pub fn push_signed(out: &mut Vec<u8>, number: u32) -> Result<(), AllocError>
    ensures { OnOk result (out.new.items ≡ out.old.items
        ++ signed_decimal (cast_signed w32 number)) }
{
    out.extend_from_slice(Buffer::new().format(number.cast_signed()).as_bytes())
}

/// Appends a number after a space.
pub fn push_number(out: &mut Vec<u8>, number: u32) -> Result<(), AllocError>
    ensures { OnOk result (out.new.items ≡ out.old.items ++ 32 ∷ decimal number) }
{
    out.push(b' ')?;
    push_decimal(out, number)
}

/// Appends a word and a number, with a space between them.
pub fn push_counted(out: &mut Vec<u8>, word: &[u8], number: u32) -> Result<(), AllocError>
    ensures { OnOk result (out.new.items ≡ out.old.items
        ++ (word.now ++ codes " " ++ decimal number)) }
{
    out.extend_from_slice(word)?;
    push_number(out, number)
}

/// The hexadecimal digit of a number.
fn digit(number: u8) -> u8
    requires { number < 16 }
    ensures { result ≡ digit_glyph false number }
{
    if number < 10 {
        48 + number
    } else {
        87 + number
    }
}

/// Appends a byte in two hexadecimal digits.
pub fn push_two_digits(out: &mut Vec<u8>, byte: u8) -> Result<(), AllocError>
    ensures { OnOk result (out.new.items ≡ out.old.items ++ two_digits byte) }
{
    out.push(digit(byte / 16))?;
    out.push(digit(byte % 16))?;
    Ok(())
}
