//! The words of instructions (`Mnemonic`, `Directive`), and how an instruction is printed, with its written
//! operands.
//!
//! # One table for reading and printing
//!
//! A table has its rows in the order of their words, and each value once (`sorted_words`). A word is found by a binary
//! search, whose contract is that a row has it or none has. So what is printed of an instruction is read as it again,
//! and the two can't name an instruction differently: there is one place that names it.
#![tactic(auto)]

mod mnemonic;
mod number;
mod operand;
mod registers;
mod sorted_words;
mod start;
mod statement;
mod word_laws;
mod written;

pub use mnemonic::{Mnemonic, Single};
pub use number::{push_eight_digits, push_number};
pub use registers::{register_named, size_named};
pub use start::{Directive, Prefix, WordStart, mnemonic_named, start_named};
pub use statement::push_statement;
pub use word_laws::{one_register_or_size, one_start};
pub use written::{Written, WrittenOperands};
