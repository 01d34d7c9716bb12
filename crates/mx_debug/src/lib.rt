//! Breakpoints: a process is run, mark by mark, until it halts at one, with a `HaltCause`. Nothing is written
//! into its memory.
//!
//! # Why no byte of the code is changed
//!
//! A breakpoint that is an INT 3 in the code can be read by the program, and a run with it isn't the run without it.
//! Here each step is followed by a question: one look into a table of 1,024 marks, by the remainder of the address,
//! says no for most addresses, and only else the breakpoints are gone through. If a slot has no breakpoint, its process
//! runs as fast as without a debugger.
#![tactic(auto)]

mod error;
mod finding;
mod halt;
mod points;
mod resuming;

pub use error::DebugError;
pub use halt::{Halt, HaltCause};
pub use points::{Breakpoint, Debugger};
