//! Program files, in the 80386 layout of MINIX's `a.out.h`: header, sections, symbols and total are read,
//! checked, which may answer a `FileError`, and written.
#![tactic(auto)]

mod file;
mod limits;
mod program;
mod writing;

pub use file::{length_asked, read};
pub use limits::{PAGE_SIZE, rounded_to_pages};
pub use program::{FileError, Program, Symbol, Symbols};
pub use writing::{one_program, read_back, write};
