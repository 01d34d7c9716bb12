//! The assembler: from a text to a program, by the `Layout` of its sections, the addresses above each line and
//! its branches; or its first fault, an `AsmError`.
//!
//! # Two passes
//!
//! The first pass (`assembling`) reads the text line by line and lays each line out: a section grows, and a
//! label gets its offset. The length of a statement is known from its line, since a number that has a name is
//! marked wide, and a jump has its length in its words. So there is no search for lengths, and one layout is
//! enough.
//!
//! The second pass goes over the lines again, with all labels known. `second` finds the first line with a
//! problem. If there is none, `emit` makes the bytes, and `program` adds entry and symbols.
//!
//! # Memory and sizes
//!
//! Only lines with a label or a statement are stored; of the others only their count matters. The bytes of
//! the program are made after the last fault is excluded, and bss takes none. Sizes are summed in 128 bits,
//! which no count of lines in memory can overflow; an address is a sum modulo 2^32.
#![tactic(auto)]

mod assembling;
mod assembly_laws;
mod branch;
mod emit;
mod fault;
mod hashing;
mod layout;
mod numbered;
mod program;
mod second;
mod sizes;

pub use assembling::assemble;
pub use assembly_laws::{fault_is_one, program_is_one, program_or_fault};
pub use branch::branch_bytes;
pub use fault::{AsmError, Fault, Problem, problem_of};
pub use hashing::HashedByText;
pub use layout::Layout;
pub use sizes::{SectionOffset, SectionSizes};
