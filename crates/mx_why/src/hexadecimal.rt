//! Masks in hexadecimal, as a configuration has them.

ghost use Rattle.std.specs.Prelude.{◌≡◌, ◌++◌, OnOk};
ghost use Rattle.mx_insn_words.specs.Numbers.{hexadecimal};

use std::alloc::AllocError;
use std::fmt::Write;

/// Appends a mask in hexadecimal digits, with no zero in front.
pub(crate) fn push_mask(out: &mut Vec<u8>, mask: u32) -> Result<(), AllocError>
    ensures { OnOk result (out.new.items ≡ out.old.items ++ hexadecimal mask) }
{
    let mut digits = String::new(*out.allocator());
    write!(digits, "{mask:x}")?;
    out.extend_from_slice(digits.as_bytes())
}
