//! `mx run`: a machine whose processors are threads, by a gate that ends their loops;
//! and its history, saved at the end.
//!
//! # When a run ends
//!
//! A loop may end only for what its actor has seen itself: the machine is at rest and nothing more will come from
//! outside, or the history is full. So no loop asks another, and none ends too early. The gate remembers in atomics
//! what it was asked, which no clause names: its calls are tested.
#![tactic(auto)]

mod gate;
mod outside_files;
mod report_laws;
mod respawns;
mod run_by_threads;

pub use gate::{RunGate, RunPlan};
pub use mx_app_start::{Channels, MemoryWriter, NamedFile, NamedFiles, NoProgress, setup_of};
pub use mx_app_step::{Replayed, replay};
pub use mx_boot::{report, saved_text};
pub use outside_files::outside_calls;
pub use report_laws::replay_again;
pub use run_by_threads::{RunEnding, RunWanted, run};
