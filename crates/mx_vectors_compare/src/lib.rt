//! Steps that a real processor took, read from a text as a `Case` with masks and wanted changes, compared with
//! ours, and counted in a `Tally`.
//!
//! Each is taken three times: as one step, as the only step of a run that decodes it, and in
//! another run, which finds it cached.
#![tactic(auto)]

mod case;
mod case_lines;
mod case_reading;
mod checking;
mod ends;
mod telling;

pub use case::{Case, CaseError, StepState};
pub use case_lines::{CompareFailure, Tally, check_all};
pub use case_reading::parse_case;
pub use checking::check_case;
pub use ends::{compared_flags, image_of, is_end_same, number_of, wanted_flags};
