//! One machine that many threads share: each call takes the lock, by a seat's side and door, and shows the seat
//! what is in the history now; and the threads' loops, with a gate that ends them.
//!
//! # How sharing begins and ends
//!
//! `boot` gives a `Blank` and the seats of all actors; `open` makes a `Shared` of the blank;
//! `into_kernel` ends the sharing. Neither a `Blank` nor a `Shared` can be dropped.
//!
//! # What lies under the lock
//!
//! The kernel and the desk, always in agreement, so that whoever takes the lock finds the kernel in
//! exactly the state to which its history leads. Beside them is a spool with all that this history wrote to the console,
//! for who shows it and may be slow.
//!
//! # Threads
//!
//! A loop for each processor, one that makes ticks and respawns, and one that makes outside events.
//!
//! # What a call can promise
//!
//! When a call has ended others go on, so no clause can say what is in the machine now. It says what its seat has seen:
//! the history up to the call, which begins with all that the seat saw before, and ends with the call's own record.
//! What was seen stays true, since histories only grow. So two threads never disagree: each has seen a front of one
//! history.
//!
//! # What it costs
//!
//! A process runs without the lock, which is held for an event at a time. Loops wait by time, a millisecond at most,
//! and nobody depends on being woken. What is lent is moved by value: its calls take about twice the instructions of
//! the kernel's own.
#![tactic(auto)]

mod blank;
mod calling;
mod gate;
mod locked;
mod loops;
mod naming;
mod outside;
mod progress;
mod shared;
mod side;
mod threads;

pub use blank::{Blank, boot};
pub use calling::outsider;
pub use gate::{Gate, WatchingGate};
pub use locked::{Given, HowFar, Locked, Sighting};
pub use loops::{processor, respawner};
pub use mx_loan::ActorSeat;
pub(crate) use mx_loan::{Desk, Loan};
pub(crate) use mx_machine::{Kernel, Service};
pub use naming::Naming;
pub use outside::{Outside, OutsideCall};
pub use shared::Shared;
pub use threads::{drive, drive_with};
