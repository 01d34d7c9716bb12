//! All bytes that a machine has written to its console since boot, beside the console, which keeps the last 4,096.
//!
//! Who prints while threads drive a machine may stand still, and the console's ring would overrun it. A spool doesn't:
//! it has room for a byte of each record that the history may have, and only a return writes one.
#![tactic(auto)]

mod spool;

pub use spool::Spool;
