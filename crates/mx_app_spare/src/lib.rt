//! What is written over: a file that is empty, or that begins as what is written does. Any other file is spared, unless
//! that is forced.
#![tactic(auto)]

mod sparing;

pub use sparing::{spare_name, spare_numbered, spares};
