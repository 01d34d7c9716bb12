//! Kinds of tokens, and the faults of a text that isn't made of tokens.

ghost use Rattle.std.specs.Prelude.{◌≡◌};
ghost use Rattle.mx_lex.specs.Codes.{lex_error_code};

use std::alloc::{AllocError, AllocFailed};

/// A token of one byte.
#[derive(Clone, Copy, Debug, PartialEq, Eq)]
pub enum Punctuation {
    Open,
    Close,
    Plus,
    Minus,
    Star,
    Comma,
    Colon,
}

/// What a token is. A word begins with a letter, an underscore, or a dot before a letter.
#[derive(Clone, Copy, Debug, PartialEq, Eq)]
pub enum TokenKind {
    LineFeed,
    Punctuation(Punctuation),
    Word,
    Number(u32),
    /// With its quotes.
    Text,
}

/// A slice of the text, from one offset up to another.
#[derive(Clone, Copy, Debug, PartialEq, Eq)]
pub struct Token {
    pub kind: TokenKind,
    pub start: usize,
    pub end: usize,
}

/// The first offset at fault, or that memory ran out.
#[derive(Clone, Copy, Debug, PartialEq, Eq)]
pub enum LexError {
    /// No token begins here, or an escape isn't one.
    BadByte(usize),
    /// What begins here with a digit is no number.
    BadNumber(usize),
    /// The line ends here within a text.
    OpenText(usize),
    NoMemory,
}

impl LexError {
    /// The number of a token's fault in messages.
    pub fn code(self) -> u8
        ensures { result ≡ lex_error_code self }
    {
        match self {
            LexError::BadByte(_) => 1,
            LexError::BadNumber(_) => 2,
            LexError::OpenText(_) => 3,
            LexError::NoMemory => 90,
        }
    }
}

impl From<AllocError> for LexError {
    ghost use Rattle.std.specs.Prelude.{◌≡◌};
    ghost use Rattle.mx_lex.specs.declared.kinds.LexError.TheVariants as errors;

    ghost from_gives = { λ _ e. e ≡ errors.NoMemory };

    fn from(_: AllocError) -> LexError {
        LexError::NoMemory
    }
}

impl<T: Drop> From<AllocFailed<T>> for LexError {
    ghost use Rattle.std.specs.Prelude.{◌≡◌};
    ghost use Rattle.mx_lex.specs.declared.kinds.LexError.TheVariants as errors;

    ghost from_gives = { λ _ e. e ≡ errors.NoMemory };

    fn from(_: AllocFailed<T>) -> LexError {
        LexError::NoMemory
    }
}
