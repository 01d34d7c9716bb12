//! `mx turns` and `mx sweep`: a machine that one thread drives in turns, and a saved history with a fault at each
//! position of a range, with blocks of positions that end alike.
//!
//! `specs/Sweeping.antt` says what a sweep leaves, and `specs/Blocks.antt` how its positions are printed.
#![tactic(auto)]

mod blocks;
mod commented;
mod event_files;
mod fault_files;
mod named;
mod nothing_tested;
mod sweeping;
mod turning;
mod turns_laws;

pub use blocks::Total;
pub use commented::read_commented;
pub use event_files::{OutsideEvents, outside_events, outside_line_of};
pub use fault_files::fault_lines;
pub use nothing_tested::Untested;
pub use sweeping::{
    Begun, SweepNames, SweepPlan, SweepWanted, Swept, begin_sweep, how_ended, jobs_of, range_of,
    sweep, told_shown,
};
pub use turning::{TurnsBegun, TurnsEnd, TurnsNames, TurnsWanted, begin_turns, turns};
pub use turns_laws::{bound_is_not_met, turns_again};
