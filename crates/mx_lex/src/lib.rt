//! From an assembler text to its `Token`s: words, numbers, marks and quoted texts with escapes; or a
//! `LexError`.
#![tactic(auto)]

mod gaps;
mod kinds;
mod scan;
mod text;
mod token_laws;
mod token_reading;

pub use kinds::{LexError, Punctuation, Token, TokenKind};
pub use text::text_bytes;
pub use token_laws::{one_fault, one_reading, reading_or_fault};
pub use token_reading::{tokens, tokens_in};
