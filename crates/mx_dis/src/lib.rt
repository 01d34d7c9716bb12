//! The listing of a program's instructions, line by line and in parts of its text, and of its symbols. Each
//! line is appended to one `String`; parts aren't collected.
//!
//! # One parting
//!
//! Where one instruction ends and the next begins depends on where one starts. A listing starts at address 0, and takes
//! one byte where no instruction begins; so bytes have one parting, and what follows some of its lines is the parting
//! of the rest (`parting_laws`). By that a caller may list a part, as the debugger does from EIP on.
#![tactic(auto)]

mod listing;
mod name;
mod part;
mod parting_laws;
mod symbols;

pub use listing::list;
pub use name::before_zero;
pub use part::{Part, first_part};
pub use parting_laws::{one_parting, parted_there};
pub use symbols::{names, push_symbol_name};
