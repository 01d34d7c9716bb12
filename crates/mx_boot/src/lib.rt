//! Everything that is read or written as text about a machine, in one place: configurations with `ConfigItem`s
//! and rules, scripts with `EventKind`s, histories saved through a sink, reports.
//!
//! # Judged before memory is taken
//!
//! A text's lines are judged one by one without memory (`draft`), and only what is answered takes some. So the first
//! line at fault is reported whatever memory there is, and a lack of memory means that no line is at fault.
//!
//! # Written and read by one definition
//!
//! What is saved of a history is read as that history (`history_laws`), and scripts, histories and the events of a run
//! share their kinds (`kind`) and one loop over lines (`script_reading`).
#![tactic(auto)]

mod address_word;
mod comment;
mod config_reading;
mod draft;
mod event_kind;
mod history_laws;
mod item;
mod items;
mod kernels;
mod logs;
mod names;
mod place;
mod saving;
mod script_numbers;
mod script_reading;
mod scripts;
mod service;
mod sink;
mod terms;

pub use address_word::{AddressWord, address_named, symbol_name, word_number};
pub use comment::before_byte;
pub use config_reading::config;
pub use event_kind::{EventKind, event_kind_named};
pub use history_laws::{history_again, one_history, one_text};
pub use items::{before_comment, has_stray};
pub use kernels::{report, save, saved_again, saved_text};
pub use logs::{begins_history, lines_above, log};
pub(crate) use mx_machine::Config;
pub use mx_text::BootError;
pub use place::{CodePlace, SymbolName, place_named};
pub use saving::{SaveFault, save_history};
pub use script_numbers::{actor, actor_and_count, count, only_actor, only_count};
pub use script_reading::{ReadsLine, read_lines};
pub use scripts::{ScriptLine, script, script_line_of};
pub use sink::{Over, Sink, SinkFault};
pub use terms::{mask, number_between};
