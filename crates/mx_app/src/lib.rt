//! All subcommands of `mx`: what a `CommandRequest` asks of reader, files and channels, from the words of a
//! command line to what is done: a status and perhaps a `Complaint`.
#![tactic(auto)]

mod after_run;
mod asking;
mod command_io;
mod command_status;
mod complaint;
mod ending;
mod explain;
mod named;
mod performing;
mod program;
mod sparing;
mod summing;

pub use after_run::{status_after, told_after, unknown_line, wants_marks};
pub use asking::texts_asked;
pub use command_io::CommandIo;
pub use command_status::perform_words;
pub use complaint::Complaint;
pub use ending::{DrivenEnding, Note, NotingOutput, PrintedText, Terminals};
pub use explain::explain_named;
pub use mx_app_failure::{About, Failure, FileProblem, OutputProblem};
pub use mx_app_run::RunEnding;
pub use mx_app_start::NoProgress;
pub use mx_turns::Ending;
pub use named::{as_named, listing_named, one_named};
pub use performing::{Done, perform};
pub use program::run_program;
pub use summing::{LineFailure, perform_line};
