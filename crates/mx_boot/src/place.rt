//! Places in a program, as a debugger's script names them: by an address or a symbol.

ghost use Rattle.std.specs.Prelude.{◌≡◌, ◌<◌, ◌≤◌, length, Some, None};
ghost use Rattle.mx_boot.specs.Places.{named_place, code_place_of};

use crate::script_numbers::count;
use arrayvec::ArrayVec;
use mx_text::is_digit;
use std::marker::Model;

/// The name of a symbol, of at most eight bytes.
#[derive(Clone, Drop)]
pub struct SymbolName {
    bytes: ArrayVec<u8, 8>,
}

impl Model for SymbolName {
    ghost use Rattle.std.specs.Prelude.{List, ℕ};

    ghost Value = { List ℕ };

    ghost view = { λ name. name.bytes.items };
}

impl SymbolName {
    /// The name of a symbol that a word of a debugger's script is.
    pub fn new(word: &[u8]) -> SymbolName
        requires { length word.now ≤ 8 }
        ensures { result ≡ word.now }
    {
        let mut bytes = ArrayVec::new();
        for byte in word {
            bytes.push(*byte);
        }
        SymbolName { bytes }
    }

    /// The bytes of a symbol's name.
    pub fn as_slice(&self) -> &[u8]
        ensures { result.now ≡ self.now }
    {
        self.bytes.as_slice()
    }
}

/// A place in a program.
#[derive(Drop)]
pub enum CodePlace {
    Address(u32),
    Symbol(SymbolName),
    /// A name that is too long for a symbol.
    NoName,
}

fn named_place(word: &[u8]) -> CodePlace
    ensures { result ≡ named_place word.now }
{
    if word.len() <= 8 {
        CodePlace::Symbol(SymbolName::new(word))
    } else {
        CodePlace::NoName
    }
}

/// The place that a word is: an address, which begins with a digit, or a symbol's name.
pub fn place_named(word: &[u8]) -> Option<CodePlace>
    ensures { result ≡ code_place_of word.now }
{
    if is_digit(*word.first()?) {
        Some(CodePlace::Address(count(word)?))
    } else {
        Some(named_place(word))
    }
}
