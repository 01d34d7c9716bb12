//! Why a command of `mx` fails, as a `Failure` with a `Problem`: its line on standard error, and its status.
//!
//! For example, a program file is shorter than its header says: the line is `mx: 20 Truncated`, and the
//! status is 1.
//!
//! # A failure knows its subject
//!
//! It is made where the fault is met, with what the file is to the command, and the file's text is moved into it: so no
//! memory is taken to say that there is none. Nobody has to find out afterwards which file it was about.
#![tactic(auto)]

mod failure;
mod printing;

pub use failure::{About, Access, Failure, FileFailure, FileProblem, Looks, OutputProblem};
pub use printing::print_text;
