//! From bytes to the instruction that they begin with: prefixes, opcode, the `Pattern` of its row, the ModRM
//! byte, displacement and immediate; or a `DecodeFault`.
//!
//! # One table
//!
//! There is one body over one table of rows: `head` decodes prefixes and opcode, `select` finds the row,
//! `fields` decodes the operands, and `meaning` makes the instruction of them.
#![tactic(auto)]

mod fields;
mod head;
mod meaning;
mod select;
mod single;
mod spellings;
mod table;

/// Why bytes are no instruction.
#[derive(Clone, Copy, Debug, PartialEq, Eq)]
pub enum DecodeFault {
    /// The bytes begin no row's spelling.
    NotInTable = 1,
    /// The bytes are the beginning of a spelling.
    Short = 2,
}

pub use single::{decode, decode_to};
pub use spellings::{few_bytes, front_is, front_of_fifteen, one_spelling};
