//! Sweeps that test nothing.

ghost use Rattle.std.specs.Prelude.{◌≡◌, length};
ghost use Rattle.mx_app_turns.specs.Untested.{untested_by};

use crate::blocks::Total;
use mx_machine::Refusal;
use mx_turns::FaultLine;
use std::fmt;

/// Why a sweep tells nothing of its fault.
#[derive(Clone, Copy, PartialEq, Eq)]
pub enum Untested {
    /// The fault has no line.
    NoLine,
    /// The history has no position from one to another.
    NoPosition(u32, u32),
    /// Each line was refused at each position; the first of all for this reason.
    Refused(Refusal),
    /// Each position ends since the history is full.
    Full,
}

/// The line that says it, without its end.
impl fmt::Display for Untested {
    ghost use Rattle.std.specs.Prelude.{Some};
    ghost use Rattle.mx_app_turns.specs.Untested.{untested_text};

    ghost output = { λ untested. Some (untested_text untested) };

    fn fmt<W: fmt::Write>(&self, f: &mut fmt::Formatter<W>) -> fmt::Result {
        match *self {
            Untested::NoLine => f.write_str("mx: no position was tested: FAULT has no line"),
            Untested::NoPosition(from, to) => write!(
                f,
                "mx: no position was tested: the history has none from {from} to {to}"
            ),
            Untested::Refused(refusal) => {
                let (code, name) = (refusal.code(), refusal.name());
                write!(
                    f,
                    "mx: no position was tested: FAULT was refused at each, first {code} {name}"
                )
            }
            Untested::Full => f.write_str("mx: each position ends full: log in CONFIG"),
        }
    }
}

/// Why a sweep of these counts tells nothing of its fault, if so: `first` is why the fault's first line was refused
/// at the first position, if each line was.
pub(crate) fn why_nothing(
    fault: &[FaultLine],
    from: u32,
    to: u32,
    total: Total,
    first: Option<Refusal>,
) -> Option<Untested>
    ensures { result ≡ untested_by (length fault.now) from to total first }
{
    if fault.is_empty() {
        return Some(Untested::NoLine);
    }
    if total.positions == 0 {
        return Some(Untested::NoPosition(from, to));
    }
    match first {
        Some(refusal) if total.refused == total.positions => Some(Untested::Refused(refusal)),
        _ => if total.full == total.positions {
            Some(Untested::Full)
        } else {
            None
        },
    }
}
