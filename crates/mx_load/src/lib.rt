//! From a program to the image that a process begins with, with room for its text, data and segment; and an old image
//! made into that one again.
//!
//! # Loaded again in place
//!
//! A respawn needs the image that its slot's first process began with. All memory for it was taken at boot: `loading`
//! takes every page before it writes one, so a failure leaves nothing half made, and later writes into these pages.
#![tactic(auto)]

mod loading;

pub use loading::{load, refill};
pub use mx_aout::Program;
