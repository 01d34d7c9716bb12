//! What the program prints on standard error if it didn't do what its words ask for.

ghost use Rattle.std.specs.Prelude.{◌≡◌};
ghost use Rattle.mx_app.specs.Words.{complaint_status};

use crate::summing::LineFailure;
use mx_app_failure::Failure;
use std::fmt;

/// What is printed of `turns` with both `--ticks` and `--events`, in the form that clap's own texts have.
const BOTH: &str = "error: the argument '--ticks <T>' cannot be used with '--events <EVENTS>'

Usage: mx turns [OPTIONS] <CONFIG> <LOG>

For more information, try '--help'.
";

/// What is printed of `turns --live` with a course of its own.
const LIVE_COURSE: &str =
    "error: the argument '--live' cannot be used with '--ticks <T>', '--events <EVENTS>' or '--turns <N>'

Usage: mx turns [OPTIONS] <CONFIG> <LOG>

For more information, try '--help'.
";

/// What is printed of `turns` with an option of `--live`, and without it.
const NOT_LIVE: &str = "error: the arguments '--hertz <H>' and '--raw' need '--live'

Usage: mx turns [OPTIONS] <CONFIG> <LOG>

For more information, try '--help'.
";

/// What is printed of `page` with an option of `--fault`, and without it.
const NO_FAULT: &str = "error: the arguments '--turns <N>' and '--jobs <J>' need '--fault <FAULT>'

Usage: mx page [OPTIONS] <CONFIG> <LOG>

For more information, try '--help'.
";

/// What is printed of `explore` with a word that names no part.
const NO_PART: &str =
    "error: invalid value for '--part <I/N>': wanted two numbers, the first below the second

Usage: mx explore [OPTIONS] --departures <K> <CONFIG>

For more information, try '--help'.
";

/// Why the program didn't do what its words ask for.
#[derive(Drop)]
pub enum Complaint {
    /// They ask for nothing: what is wrong with them, and how they are used.
    Mistaken(clap::Error),
    /// They are those of `turns` with both `--ticks` and `--events`.
    TicksAndEvents,
    /// They are those of `turns --live` with `--ticks`, `--events` or `--turns`.
    LiveWithCourse,
    /// They are those of `turns` with `--hertz` or `--raw`, and without `--live`.
    NotLive,
    /// They are those of `page` with `--turns` or `--jobs`, and without `--fault`.
    NoFault,
    /// They are those of `explore` with a word that names no part.
    NoPart,
    /// What they ask for failed.
    Failed(LineFailure),
    /// It failed: with the line that explains the failure, without its end.
    Explained(LineFailure, String),
    /// It failed, and there is no memory for the line that explains the failure.
    Unexplained(LineFailure),
}

impl Complaint {
    /// The program's exit status for a complaint.
    pub fn status(&self) -> u8
        ensures { result ≡ complaint_status self.now }
    {
        match self {
            Complaint::Mistaken(_) => 2,
            Complaint::TicksAndEvents | Complaint::LiveWithCourse | Complaint::NotLive => 2,
            Complaint::NoFault | Complaint::NoPart => 2,
            Complaint::Failed(failure) => failure.status(),
            Complaint::Explained(failure, _) => failure.status(),
            Complaint::Unexplained(failure) => failure.status(),
        }
    }
}

/// What standard error gets, in whole lines.
impl fmt::Display for Complaint {
    ghost use Rattle.mx_app.specs.Words.{complaint_text};

    ghost output = { complaint_text };

    fn fmt<W: fmt::Write>(&self, f: &mut fmt::Formatter<W>) -> fmt::Result {
        match self {
            Complaint::Mistaken(error) => write!(f, "{error}"),
            Complaint::TicksAndEvents => f.write_str(BOTH),
            Complaint::LiveWithCourse => f.write_str(LIVE_COURSE),
            Complaint::NotLive => f.write_str(NOT_LIVE),
            Complaint::NoFault => f.write_str(NO_FAULT),
            Complaint::NoPart => f.write_str(NO_PART),
            Complaint::Failed(failure) => write!(f, "{failure}\n"),
            Complaint::Explained(failure, line) => write!(f, "{failure}\n{line}\n"),
            Complaint::Unexplained(failure) => {
                write!(f, "{failure}\nmx: memory: wanted more of it\n")
            }
        }
    }
}

impl From<Failure> for Complaint {
    ghost use Rattle.std.specs.Prelude.{◌≡◌};
    ghost use Rattle.mx_app.specs.declared.complaint.Complaint.TheVariants as complaints;
    ghost use Rattle.mx_app.specs.declared.summing.LineFailure.TheVariants as failures;

    ghost from_gives = { λ failure complaint. complaint ≡ complaints.Failed (failures.Request failure) };

    fn from(failure: Failure) -> Complaint {
        Complaint::Failed(LineFailure::Request(failure))
    }
}
