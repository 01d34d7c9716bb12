//! What every text that is read shares: lines, the fields of a line, words, digits in a base, numbers, names,
//! and the error of a line.
#![tactic(auto)]

mod error;
mod fields;
mod names;
mod number_fields;
mod read_numbers;
mod text_lines;

pub use error::BootError;
pub use fields::{next_field, one_field, two_fields};
pub use names::{Name, begins_name, is_letter, is_word_byte, name_of};
pub use number_fields::number_up_to;
pub use read_numbers::{is_digit, number_in_base, number_of};
pub use text_lines::next_line;
