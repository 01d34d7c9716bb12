//! A program in memory: text, data, bss, symbols and entry; and the errors of files.

ghost use Rattle.std.specs.Prelude.{◌≡◌, length};
ghost use Rattle.mx_aout.specs.Limits.{IsWithin};
ghost use Rattle.mx_aout.specs.Refusals.{refusal_code, refusal_name};

use mx_word::{Bytes, NoMemory};
use std::alloc::AllocError;
use std::marker::Model;

/// Why a file is no program, or that memory ran out.
#[derive(Clone, Copy, Debug, PartialEq, Eq)]
pub enum FileError {
    Truncated = 20,
    BadMagic = 21,
    BadCpu = 22,
    BadFlags = 23,
    BadHeader = 24,
    NoTotal = 25,
    TooLarge = 26,
    BadSymbols = 27,
    NoMemory = 90,
}

impl FileError {
    /// The number of an error of a program file in messages.
    pub fn code(self) -> u8
        ensures { result ≡ refusal_code self }
    {
        self as u8
    }

    /// The name of an error of a program file in messages.
    pub fn name(self) -> &'static str
        ensures { result.now ≡ refusal_name self }
    {
        match self {
            FileError::Truncated => "Truncated",
            FileError::BadMagic => "BadMagic",
            FileError::BadCpu => "BadCpu",
            FileError::BadFlags => "BadFlags",
            FileError::BadHeader => "BadHeader",
            FileError::NoTotal => "NoTotal",
            FileError::TooLarge => "TooLarge",
            FileError::BadSymbols => "BadSymbols",
            FileError::NoMemory => "NoMemory",
        }
    }
}

impl From<AllocError> for FileError {
    ghost use Rattle.std.specs.Prelude.{◌≡◌};
    ghost use Rattle.mx_aout.specs.declared.program.FileError.TheVariants as errors;

    ghost from_gives = { λ _ e. e ≡ errors.NoMemory };

    fn from(_: AllocError) -> FileError {
        FileError::NoMemory
    }
}

impl From<NoMemory> for FileError {
    ghost use Rattle.std.specs.Prelude.{◌≡◌};
    ghost use Rattle.mx_aout.specs.declared.program.FileError.TheVariants as errors;

    ghost from_gives = { λ _ e. e ≡ errors.NoMemory };

    fn from(_: NoMemory) -> FileError {
        FileError::NoMemory
    }
}

/// A symbol (a.out.h, struct nlist): the name is padded with zero bytes; the low three bits of the
/// class are 0 undefined, 1 absolute, 2 text, 3 data, 4 bss.
#[derive(Clone, Copy, PartialEq, Eq)]
pub struct Symbol {
    pub name: [u8; 8],
    pub value: u32,
    pub class: u8,
    /// How many auxiliary entries the symbol has.
    pub auxiliary: u8,
    /// The symbol's type.
    pub kind: u16,
}

/// A list of symbols.
#[derive(Drop)]
pub struct Symbols {
    symbols: Vec<Symbol>,
}

impl Model for Symbols {
    ghost use Rattle.std.specs.Prelude.{List};
    ghost use Rattle.mx_aout.specs.declared.program.Symbol.{Symbol};

    ghost Value = { List Symbol };

    ghost view = { λ list. list.symbols.items };
}

impl Symbols {
    /// A program's symbols, from a vector. Takes no memory.
    pub fn from_vec(symbols: Vec<Symbol>) -> Symbols
        ensures { result ≡ symbols.items }
    {
        Symbols { symbols }
    }

    /// A program's symbols, in the order of the file.
    pub fn as_slice(&self) -> &[Symbol]
        ensures { result.now ≡ self.now }
    {
        self.symbols.as_slice()
    }
}

/// A program. Its sizes, in bytes, are within the limits that `read` tests: so neither `write` nor a loader
/// has a condition for them.
pub struct Program {
    /// Whether the text has a segment of its own (A_SEP).
    pub sep: bool,
    /// The address of the first instruction.
    pub entry: u32,
    /// The size of the data segment, stack included, before it is rounded up to 4096.
    pub total: u32,
    pub text: Bytes,
    /// The data that the file holds.
    pub init: Bytes,
    /// How many zero bytes follow the data.
    pub bss: u32,
    pub symbols: Symbols,
    ghost within: { IsWithin sep total (length text) (length init) bss (length symbols) },
}

impl Drop for Program {
    fn drop(self) {
        let Program {
            sep: _,
            entry: _,
            total: _,
            text: _,
            init: _,
            bss: _,
            symbols: _,
        } = self;
    }
}
