//! The table of processes: slots, each with a `Process` of a state, level and generation; ready lists and
//! blocked sends, which are linked; pending sources, windows, devices, the last deliveries; and the frame of
//! each move.
//!
//! # A sound table
//!
//! Soundness is the invariant of `Table`, so no call has it as a condition. A process that the kernel serves
//! is in no queue, and has a state for that, `Home`: `dequeue` leaves a process in it, and `enqueue` needs
//! one that is in no queue.
//!
//! # No memory after boot
//!
//! Only `Table::new` and `Table::add` take memory. A process that is on a processor has a blank image in the
//! table. The image of a dead process stays, and its slot's next process gets it (`take_image`, `revive`).
#![tactic(auto)]

mod console;
mod deliveries;
mod devices;
mod endpoints;
mod errors;
mod links;
mod process;
mod ready;
mod rings;
mod table;
mod waits;
mod windows;

pub use console::{Console, KEPT_BYTES};
pub use deliveries::{Deliveries, Delivery, DeliveryKind, KEPT_DELIVERIES};
pub use devices::Devices;
pub use endpoints::{
    ANY, CLOCK, Endpoint, HARDWARE, SYSTEM, endpoint_from, generation_of, slot_of,
};
pub use errors::Errno;
pub use mx_mem::MESSAGE_SIZE;
pub use process::{
    DeathCause, Masks, Partner, Process, ProcessAddress, Schedule, Slot, Source, State, Terms,
};
pub use table::{Stale, Table};
pub use windows::{Access, Rules, Window};
