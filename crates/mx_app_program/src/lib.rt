//! `mx one`, `mx as`, `mx dis` and `mx nm`: what is done with one program; and the journey around, on which a
//! text is assembled, written, read, loaded and listed, and comes back as it was.
//!
//! # The journey around
//!
//! A text is assembled, written, read, loaded and listed, each by another crate. The laws (`round_trip_laws`) say what
//! comes of it: each statement's bytes are at its address in the code, and its instruction is there in the listing, if
//! no directive before it puts bytes into the text.
#![tactic(auto)]

mod assembly;
mod error;
mod first_steps;
mod listing;
mod report;
mod round_trip;
mod round_trip_laws;

pub use assembly::assemble_file;
pub use error::AroundError;
pub use first_steps::one;
pub use listing::print_listing;
pub use report::print_one;
pub use round_trip::{Journey, around};
pub use round_trip_laws::{code_keeps, listing_keeps};
