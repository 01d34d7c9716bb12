//! A machine that somebody sits at: each byte of its console is shown as it is written, and each key comes to the
//! driver of its keyboard.
//!
//! # Rounds
//!
//! One thread drives the machine by turns. After some turns it shows what they wrote, raises the next typed byte if the
//! driver has taken all before it, and asks once what comes from outside. So what the machine does follows from those
//! answers; when they come is not promised.
//!
//! # What is saved
//!
//! The history is written before the machine begins, without a record, and whole however the session ends: also if
//! standard output takes nothing more.
#![tactic(auto)]

mod keyboard;
mod living;
mod noted;
mod outside;
mod screen;
mod seat;
mod session;

pub use living::{LiveNames, live};
pub use outside::{Asking, Heard, Note, Outside, Sitting};
pub use seat::{Nobody, Seat};
pub use session::SessionEnding;
