//! Numbers in forms: whether a value fits, and its bits.

ghost use Rattle.std.specs.Prelude.{◌≡◌, ◌<◌, ◌^◌, IfSome};
ghost use Rattle.mx_word.specs.Word.{width};
ghost use Rattle.mx_asm_statement.specs.Numbers.{number_in, value_waiting, immediate_in, names_no_other};

use crate::Value;
use mx_insn::Immediate;
use mx_word::Size;

/// The word of `size` bits of a value: its low bits if it is in -2^(w-1) to 2^w - 1, and 0 if it has a name,
/// for which only 32 bits suffice.
pub fn number_in(size: Size, value: Value) -> Option<u32>
    ensures value { result ≡ number_in size value }
    ensures below { IfSome result (λ n. n < 2 ^ width size) }
{
    if value.name.is_some() {
        return match size {
            Size::Dword => Some(0),
            Size::Byte | Size::Word => None,
        };
    }
    let whole = value.whole();
    if whole < -size.half() || whole >= size.modulus() {
        return None;
    }
    Some(size.modulo(whole))
}

/// The value that is still to be put in: one that holds a name.
pub fn waiting(value: Value) -> Option<Value>
    ensures { result ≡ value_waiting value }
{
    if value.name.is_some() {
        Some(value)
    } else {
        None
    }
}

pub fn immediate_in(size: Size, value: Value) -> Option<Immediate>
    ensures { result ≡ immediate_in size value }
{
    let word = number_in(size, value)?;
    match size {
        Size::Byte => Some(Immediate::Byte(word as u8)),
        Size::Word => Some(Immediate::Word(word as u16)),
        Size::Dword => Some(Immediate::Dword(word)),
    }
}

/// Whether a size word, if there is one, names this size.
pub fn names_no_other(named: Option<Size>, size: Size) -> bool
    ensures { result ≡ names_no_other named size }
{
    match named {
        None => true,
        Some(other) => other == size,
    }
}
