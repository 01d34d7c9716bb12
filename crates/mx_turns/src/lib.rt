//! Turns: one thread drives a whole machine, always in the same order: each actor is offered an event, and
//! those that are coming follow. And a sweep, which tries a fault at each position of a history.
//!
//! # A position of a sweep
//!
//! One machine goes along the history (`Pair`), and knows what comes from outside after it (`Coming`). A copy of it at the
//! position is given the `FaultLine`s of the fault and run on by turns. The text of its trial is compared with that of a
//! copy that is run on without the fault.
//!
//! Positions are independent of each other, so several threads try some each, ahead of what is printed (`Ahead`).
//!
//! `specs/Turns.antt` says which events come of turns; `specs/Sweep.antt` what a trial is, and how it is printed.
//!
//! # Why the order is fixed
//!
//! A turn offers an event to each actor in one order, and what the machine refuses changes nothing. So a driver decides
//! nothing: the history of turns follows from the configuration and from what comes from outside. That is why a sweep
//! may compare two runs, with a fault and without, and why two numbers of turns join (`joining_laws`).
#![tactic(auto)]

mod ahead;
mod coming;
mod faulted_run;
mod faults;
mod joining_laws;
mod offers;
mod outside;
mod pairs;
mod services;
mod trials;
mod turns;

pub use ahead::{Ahead, Told};
pub use coming::Coming;
pub use faulted_run::{Range, Sweep};
pub use faults::FaultLine;
pub use joining_laws::{rest_is_still, turn_of_one, turns_join};
pub use offers::{offer, offer_run};
pub use outside::{Outside, OutsideLine, next_now};
pub use pairs::Pair;
pub use services::copy_services;
pub use trials::{Findings, Trial, push_kept, trial_at};
pub use turns::{Ending, make_turns};
