//! From files' names to a booted machine: all files are asked for, read and checked in order, answers are
//! noted, what is written replaces files, and progress is shown.
//!
//! # Files as questions and answers
//!
//! Which file is read next depends on the one before. So a `Reader`'s contract is a log of the names that it was asked
//! for, each with its answer, and a command's contract is about that log; a writer's and a terminal's are logs too.
//! Tests and proofs need no file system, and that nothing else is read or written is part of what is promised.
//!
//! # A file is replaced whole
//!
//! It is written beside the old one and then renamed, where that can be done: so who interrupts a command has the old
//! file or the new one.
#![tactic(auto)]

mod channels;
mod course;
mod limits;
mod memory;
mod named;
mod noted;
mod noting;
mod programs;
mod progress;
mod reader;
mod replacing;
mod runtime;
mod setup;
mod starting;
mod stop_sign;
mod typed_lines;
mod writer;

pub use channels::Channels;
pub use course::{Course, History, Script};
pub use memory::{KeptFile, MemoryWriter};
pub use mx_app_failure::{About, Failure, FileFailure, FileProblem};
pub use mx_walk::{Part, Progress};
pub use named::{NamedFile, NamedFiles};
pub use programs::{names_program, spare_programs};
pub use progress::{NoProgress, RuntimeProgress, SharedProgress};
pub use reader::Reader;
pub use runtime::{RuntimeFiles, RuntimeWriter};
pub use setup::{config_of, setup_of, text_of};
pub use starting::{Started, start};
pub use stop_sign::{StopFile, StopSign};
pub use typed_lines::{InputLines, LineReader};
pub use writer::FileWriter;
