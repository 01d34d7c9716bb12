//! The model of the whole machine, the kernel that makes each `Event` with an `Answer` and records all of them,
//! with leases of what is out at the present; and the machine of one thread.
//!
//! # The model
//!
//! Read first `Event` (what an actor may do), then `Answer` and `Refusal` (what the machine answers to an
//! event), and `Record` (what the history has of it). `specs/Move.antt` defines what each event does.
//!
//! # The kernel
//!
//! `take` lends a process to a processor, `back` takes it home, and `event` is all else. The services are
//! moved into the kernel; `into_parts` hands them back, and the records.
//!
//! # The machine of one thread
//!
//! `Machine::apply` makes one event, `Machine::run` a list of them.
//!
//! # Why a history is kept, and not what happened
//!
//! A contract sees a kernel as the machine at boot and the list of its records since then (`BootAndHistory`). Where the
//! machine is now is what a replay of them gives: the invariant of `Kernel` says so of the state that it has
//! (`CurrentState`), and no call replays anything. So there is one definition of what events do, and a run on one
//! thread, a run by threads, a replay, a trace, a walk and a picture mean the same by it.
//!
//! A record says which event came, and of a process only how many steps it made: what it computed follows. So a record
//! has a few bytes, however long its process ran. All memory for records is taken at boot. A `Take` wants room for two,
//! so a `Back` is never refused for want of one.
#![tactic(auto)]

mod booting;
mod caches;
mod checkpoint;
mod config;
mod current;
mod decoded;
mod events;
mod history;
mod holding;
mod kernel;
mod machine;
mod place;
mod replay_laws;
mod serving;
mod steps;
mod stored;

pub use checkpoint::Checkpoint;
pub use config::{Config, FileName, ServiceLine, ServiceLines};
pub use decoded::Decoded;
pub use events::{Answer, Event, Refusal};
pub use history::{Record, Recorded};
pub use holding::{Held, Lease, Out};
pub use kernel::{Kernel, recorded_as};
pub use machine::Machine;
pub(crate) use mx_image::Stop;
pub use mx_kcall::Service;
pub(crate) use mx_kcall::{call, die, is_worn, raise, respawn, tick};
pub(crate) use mx_load::load;
pub(crate) use mx_proc::{Endpoint, Rules, Slot};
pub use replay_laws::{histories_replay, runs_again, steps_change_places};
pub use steps::{Tool, at_stop};
