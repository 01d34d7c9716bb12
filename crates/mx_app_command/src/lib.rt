//! The command line: which subcommand is asked for, with which arguments and values that clap matches; which files it
//! reads and which one it writes, and whether that one is read too; and its help, with examples.
//!
//! # One grammar
//!
//! A subcommand's arguments are a row of `grammar`, and its definition a shape (`specs/Words`): words ask for something
//! if they fit the shape. clap reads the words by the same rows, and help, man pages and completions are made of them.
//! Whether a file to be written is also read, and what it holds, is decided in `files` (`writes_over`, `written_kind`),
//! for all requests, and asked at one place, `perform` of `mx_app`.
#![tactic(auto)]

mod command_line;
mod files;
mod grammar;
mod help;
mod parts;

pub use command_line::{CommandLine, CommandRequest, Listing, Mistake, RecordRange, command};
pub use files::{FileKind, NamedWord, ReadWords, is_numbered};
pub use parts::SchedulePart;
