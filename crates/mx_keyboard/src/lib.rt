//! The keyboard of a machine, as who types sees it: the process that is its driver, how many bytes that has taken, and
//! whether the one that the last byte was raised for is alive.
//!
//! Who asks while threads drive the machine asks under the lock, and who drives it by turns asks between two turns: both
//! see the same of a table.
#![tactic(auto)]

mod looks;

pub use looks::{driver_in, endpoint_in, seen_in};
