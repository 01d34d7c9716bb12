//! Extension: MOVZX, MOVSX, CBW, CWDE, CWD and CDQ.

ghost use Rattle.std.specs.Prelude.{◌≡◌, ◌^◌, ◌<◌};
ghost use Rattle.mx_word.specs.Word.{width};
ghost use Rattle.mx_alu.specs.Extension.{extended_value, sign_of};

use crate::wide_numbers::{Signedness, number, upper};
use mx_word::{Size, signed};

/// The word of another size that is the same number: MOVZX, MOVSX, CBW and CWDE. If the other size is
/// narrower, the number modulo 2 to its bits.
pub fn extend(kind: Signedness, from: Size, to: Size, x: u32) -> u32
    requires { x < 2 ^ width from }
    ensures value { result ≡ extended_value kind (width from) (width to) x }
    ensures below { result < 2 ^ width to }
{
    to.modulo(number(kind, from, x))
}

/// The word of sign bits above a signed word: CWD and CDQ.
pub fn spread_sign(size: Size, x: u32) -> u32
    requires { x < 2 ^ width size }
    ensures value { result ≡ sign_of (width size) x }
    ensures below { result < 2 ^ width size }
{
    upper(size, signed(size, x))
}
