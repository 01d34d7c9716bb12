//! Prints numbers in hexadecimal.

ghost use Rattle.std.specs.Prelude.{◌≡◌, ◌++◌, ◌^◌, ◌<◌, OnOk, string_bytes};
ghost use Rattle.mx_insn_words.specs.Numbers.{number_text, eight_digits};

use std::alloc::AllocError;
use std::fmt::Write;

/// Appends an operand's number in plain digits, as `0x1f`.
pub fn push_number(out: &mut String, value: u32) -> Result<(), AllocError>
    ensures { OnOk result (string_bytes out.new ≡ string_bytes out.old ++ number_text value) }
{
    write!(out, "0x{value:x}")
}

/// Appends a number in eight digits, as `0000001f`.
pub fn push_eight_digits(out: &mut String, value: u32) -> Result<(), AllocError>
    ensures { OnOk result (string_bytes out.new ≡ string_bytes out.old ++ eight_digits value) }
{
    write!(out, "{value:08x}")
}
