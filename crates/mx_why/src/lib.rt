//! `mx why`: what became of a saved history. How it ended, who waits for ever and why, who waits for a line or an alarm,
//! who computes without a call, who died, which calls and outside events were refused, who never ran, and what CONFIG
//! alone says can't work.
//!
//! # From the end, and from notes
//!
//! Whether a process can ever go on is a question about the world at the end of the history alone: an `End` has what is
//! known of it, and `verdict` answers. Since when it waits, and who died where, are in the history: a `Note` is taken of
//! each change while its records are made again. Calls that are refused are counted then, since there may be many that are
//! alike. The lines are made of all these.
//!
//! # Never
//!
//! Who is said never to go on doesn't, whatever comes but kills: a law (`never`), over the definition of what events do.
#![tactic(auto)]

mod after_run;
mod begun;
mod busy;
mod cells;
mod checking;
mod deaths;
mod ends;
mod event_files;
mod failed_calls;
mod failed_lines;
mod failing;
mod hexadecimal;
mod lines;
mod marks;
mod never;
mod notes;
mod noting;
mod operands;
mod outside;
mod place;
mod readings;
mod reasons;
mod refused_record;
mod seats;
mod seeing;
mod telling;
mod unfit;
mod unfit_lines;
mod unheard;
mod uses;
mod verdicts;
mod waiting;
mod want_lines;
mod wants;

pub use after_run::{AfterRun, line_after_run, push_command};
pub use begun::HistoryNames;
pub use busy::{Pace, busy_of};
pub use checking::check;
pub use deaths::{Death, deaths_of};
pub use ends::{Ending, Unfinished};
pub use failed_calls::FailedCall;
pub use never::{kernels_keep_waiting, never_holds};
pub use notes::{Deed, Note, NoteText};
pub use outside::LostLine;
pub use readings::{Cell, Reading};
pub use seats::{End, Seat};
pub use telling::{Told, why};
pub use unfit::{Lack, Pair, Unfit};
pub use unheard::{Unheard, unheard_of};
pub use uses::Use;
pub use verdicts::{Verdict, verdicts_on};
pub use wants::Want;
