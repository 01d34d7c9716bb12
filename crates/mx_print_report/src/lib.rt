//! The words in which a process is printed, by a naming of endpoints: who it is, its state, partner or cause of
//! death; pushed numbers; and the report of a machine: a line for each service, the uptime, the console.
#![tactic(auto)]

mod doing;
mod printed_numbers;
mod process_fields;
mod process_words;
mod reporting;

pub use doing::{Awaited, Doing, Naming, doing_of};
pub use printed_numbers::{
    push_counted, push_decimal, push_long, push_number, push_signed, push_two_digits,
};
pub use process_fields::push_process;
pub use process_words::{kind_word, push_doing, push_name, push_named};
pub use reporting::{push_console, push_count, report_of};
