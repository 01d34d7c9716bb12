//! Explains: what a configuration's services may do; which machine a history is of, by sums of files and their
//! faults; and a failure's second line, an advice on the found word, its subject, its place and what was
//! wanted.
//!
//! `mx explain` prints what the masks of a configuration allow: `services_text` names each bit, by the names
//! that a trace has. The second line of a failure names the file that it is about, by the word that has its
//! name, and what was wanted. Of a line of a configuration or of a text for the assembler it has the word at
//! fault.
//!
//! The sums of a machine are SHA-256 of what its configuration says, and of each service's program. They are
//! written to a file of their own, a line each, as `sha256sum` prints it.
#![tactic(auto)]

mod allowed;
mod comparing;
mod config_field;
mod config_line;
mod detail;
mod explaining;
mod found_word;
mod hint;
mod items;
mod line_looks;
mod mask_names;
mod record_line;
mod services;
mod subject;
mod sums;
mod sums_fault;
mod text_advice;
mod text_words;
mod wanted;

pub use comparing::{first_other, own_sums_pass, passed_sums_are_own};
pub use config_field::{Field, Key};
pub use detail::{Detail, Label};
pub use explaining::explain_failure;
pub use found_word::FoundWord;
pub use hint::Hint;
pub use items::items_text;
pub use line_looks::LineLooks;
pub use services::services_text;
pub use subject::Subject;
pub use sums::{MachinePart, PartSum, machine_sums, sums_text};
pub use sums_fault::{SumsFault, explain_sums, unread, unwritten};
