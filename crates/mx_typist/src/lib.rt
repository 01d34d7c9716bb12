//! What somebody types at a machine, how much of it the keyboard's driver has taken, and which keys are commands.
//!
//! # A byte as interrupts
//!
//! Lines 8 to 15 are a byte's bits, and line 7, the strobe, says that it is whole. Register 255 counts the bytes that
//! were taken. *The driver* is the process that owns all nine lines. A byte's lines are raised in a row, if the
//! register has counted all bytes before it; so the driver gets all of them or none. It stores the byte and counts it:
//! the register is the answer, and outlives the driver.
//!
//! # Why no byte is lost or doubled
//!
//! The next byte isn't raised before this one is counted, so lines that are merged are one byte's. If the driver dies
//! before it has counted the byte, its lines are cleared with it, and the byte is raised again for its successor. Who
//! owns the lines doesn't say whether it died, since a driver may give them up for a moment; its endpoint does.
#![tactic(auto)]

mod keys;
mod protocol_laws;
mod typist;

pub use keys::{Pending, Wanted};
pub use protocol_laws::each_byte_is_stored_once;
pub use typist::{Raise, Seen, Typist};

/// The line that says that a byte is whole. The eight lines above it are the byte's bits.
pub const STROBE: u8 = 7;

/// The register in which the keyboard's driver counts the bytes that it has taken.
pub const COUNT_REGISTER: usize = 255;

/// How many typed bytes may wait for the driver.
pub const MOST_WAITING: usize = 16384;
