//! `mx db`: a machine under a debugger, by a `DebugScript` of `DebugLine`s; each look prints and changes
//! nothing.
//!
//! # One variant for all that only looks
//!
//! A `Look` prints something and changes nothing. What a debugger's script does to a machine is said once for all of
//! them, so a new one has one place in the code and one in the definitions, and no proof.
#![tactic(auto)]

mod db_command;
mod debug_lines;
mod go_line;
mod last_messages;
mod looks;
mod script;
mod script_breakpoints;

pub use db_command::db;
pub use go_line::go;
pub use looks::script_lines;
pub use mx_app_start::{
    Channels, Failure, InputLines, KeptFile, MemoryWriter, NamedFile, NamedFiles, Script, start,
};
pub use mx_app_step::{
    HistoryPart, NamedScript, Replayed, make_steps, replay, step, step_saved, trace,
};
pub use script::{debug_script, own_words_are_apart};
pub use script_breakpoints::{clear_breakpoint, set_breakpoint};
