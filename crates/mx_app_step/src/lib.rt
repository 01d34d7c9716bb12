//! `mx step`, `mx replay` and `mx trace`: a started machine that a performer drives by a script's lines, or by
//! the records of a saved history, numbered or not.
#![tactic(auto)]

mod driving_lines;
mod printing;
mod records;
mod saving;
mod script_lines;
mod stepping;
mod trace_laws;
mod tracing;

pub use driving_lines::{Lines, Performs, print_lines};
pub use mx_app_failure::{Failure, print_text};
pub use mx_app_start::{
    FileWriter, History, LineReader, Reader, RuntimeFiles, RuntimeWriter, Script, Started,
    setup_of, start,
};
pub use mx_boot::{lines_above, report, saved_text};
pub use printing::print_kernel_report;
pub use records::{Replayed, perform_records, print_refusal, refusal_line, replay};
pub use saving::{step_saved, write_history};
pub use script_lines::{NamedScript, perform_line, step};
pub use stepping::make_steps;
pub use trace_laws::parts_of_a_trace_join;
pub use tracing::{HistoryPart, first_records, look_record, resting_transition, trace};
