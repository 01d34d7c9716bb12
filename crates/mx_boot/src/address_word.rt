//! Addresses in the memory of a slot's process, as a line names them.

ghost use Rattle.std.specs.Prelude.{◌≡◌, position};
ghost use Rattle.mx_boot.specs.Addresses.{address_of_word, is_plus, number_field, number_of_word, symbol_by_plus, symbol_name};

use crate::place::SymbolName;
use crate::script_numbers::count;
use mx_text::{is_digit, number_up_to};

/// An address in the memory of a slot's process, as a line names it.
#[derive(Drop)]
pub enum AddressWord {
    /// A number.
    Number(u32),
    /// A symbol of the slot's program, and how many bytes after it. There is no name if it is too long for a
    /// symbol.
    Symbol(Option<SymbolName>, u32),
}

/// The symbol's name that a word is, if it isn't too long for one.
pub fn symbol_name(word: &[u8]) -> Option<SymbolName>
    ensures { result ≡ symbol_name word.now }
{
    if word.len() <= 8 {
        Some(SymbolName::new(word))
    } else {
        None
    }
}

/// The number that a word is: decimal, or hexadecimal after `0x`.
pub fn word_number(word: &[u8]) -> Option<u32>
    ensures { result ≡ number_field word.now }
{
    match word.strip_prefix(b"0x".as_slice()) {
        Some(digits) => number_up_to(digits, 16, u32::MAX),
        None => count(word),
    }
}

fn number_named(word: &[u8]) -> Option<AddressWord>
    ensures { result ≡ number_of_word word.now }
{
    Some(AddressWord::Number(word_number(word)?))
}

/// The index of the first plus.
fn plus_in(word: &[u8]) -> Option<usize>
    ensures { result ≡ position is_plus word.now }
{
    word.iter().position(|byte| *byte == b'+')
}

/// The symbol that a word is, or with a plus the bytes after a symbol.
fn symbol_named(word: &[u8]) -> Option<AddressWord>
    ensures { result ≡ symbol_by_plus (position is_plus word.now) word.now }
{
    match plus_in(word) {
        None => Some(AddressWord::Symbol(symbol_name(word), 0)),
        Some(plus) => {
            let after = word_number(&word[plus + 1..])?;
            Some(AddressWord::Symbol(symbol_name(&word[..plus]), after))
        }
    }
}

/// The address that a word is: a number, which begins with a digit, or a symbol's name, perhaps with a plus
/// and how many bytes after it.
pub fn address_named(word: &[u8]) -> Option<AddressWord>
    ensures { result ≡ address_of_word word.now }
{
    if is_digit(*word.first()?) {
        number_named(word)
    } else {
        symbol_named(word)
    }
}
