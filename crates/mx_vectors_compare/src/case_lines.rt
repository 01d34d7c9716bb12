//! Takes the step of each line of a text, and counts.

ghost use Rattle.std.specs.Prelude.{◌≡◌, ◌≤◌, ◌↔◌, ◌⊎◌, Bool, IsTrue, IfOk, IfErr};
ghost use Rattle.mx_vectors_compare.specs.declared.case.Case.{Case};
ghost use Rattle.mx_vectors_compare.specs.Line.{IsCaseSpelled};
ghost use Rattle.mx_vectors_compare.specs.Agreement.{DoesAgree, one_more, with_case};
ghost use Rattle.mx_vectors_compare.specs.Failure.{IsCaseWanting, failure_of_line};

use crate::checking::check_case;
use crate::{CaseError, parse_case};
use mx_exec_cache::Cache;
use mx_word::NoMemory;
use std::alloc::Global;
use std::fmt;
use std::io::{self, BufRead, Write};

/// The cache has room for code of so many bytes. The lines' codes are shorter, and there are many.
const CODE: usize = 16_384;

/// How many cases there were, and how many of them went wrong.
#[derive(Clone, Copy)]
pub struct Tally {
    pub cases: u64,
    pub wrong: u64,
}

impl Tally {
    /// With one case more, which went wrong or not.
    fn with_case(self, same: bool) -> Tally
        ensures { result ≡ with_case self same }
    {
        let Tally { cases, wrong } = self;
        Tally {
            cases: cases.saturating_add(1),
            wrong: if same { wrong } else { wrong.saturating_add(1) },
        }
    }
}

/// Why the comparison ended early.
#[derive(Clone, Copy)]
pub enum CompareFailure {
    /// A line is no case; the first line is 1.
    Line(u64),
    /// Input or output failed.
    File,
    NoMemory,
}

impl fmt::Display for CompareFailure {
    ghost use Rattle.std.specs.Prelude.{Some};
    ghost use Rattle.mx_vectors_compare.specs.Failure.{text_of};

    ghost output = { λ failure. Some (text_of failure) };

    fn fmt<W: fmt::Write>(&self, f: &mut fmt::Formatter<W>) -> fmt::Result {
        match *self {
            CompareFailure::Line(number) => write!(f, "line {number} is no case"),
            CompareFailure::File => write!(f, "input or output failed"),
            CompareFailure::NoMemory => write!(f, "out of memory"),
        }
    }
}

impl From<io::Error> for CompareFailure {
    ghost use Rattle.std.specs.Prelude.{◌≡◌};
    ghost use Rattle.std.specs.IoError.{error_kind};
    ghost use Rattle.mx_vectors_compare.specs.Failure.{case_failure_of_kind};

    ghost from_gives = { λ error failure. failure ≡ case_failure_of_kind (error_kind error) };

    fn from(error: io::Error) -> CompareFailure {
        match error.kind() {
            io::ErrorKind::OutOfMemory => CompareFailure::NoMemory,
            _ => CompareFailure::File,
        }
    }
}

impl From<NoMemory> for CompareFailure {
    ghost use Rattle.std.specs.Prelude.{◌≡◌};
    ghost use Rattle.mx_vectors_compare.specs.declared.case_lines.CompareFailure.TheVariants as failures;

    ghost from_gives = { λ _ failure. failure ≡ failures.NoMemory };

    fn from(_: NoMemory) -> CompareFailure {
        CompareFailure::NoMemory
    }
}

/// The failure of the line of this number, which can't be read.
fn line_failure(number: u64, error: CaseError) -> CompareFailure
    ensures { result ≡ failure_of_line number error }
{
    match error {
        CaseError::Malformed => CompareFailure::Line(number),
        CaseError::NoMemory => CompareFailure::NoMemory,
    }
}

/// Takes the step of a line's case, the next to count.
fn check_line<W: Write>(
    alloc: Global,
    tally: Tally,
    line: &str,
    cache: &mut Cache,
    out: &mut W,
) -> Result<Tally, CompareFailure>
    ensures counted { IfOk result (λ after. (case : Case) × IsCaseSpelled case
        × ((same : Bool) × (IsTrue same ↔ DoesAgree case) × (after ≡ with_case tally same))) }
    ensures err { IfErr result (λ failure. (failure ≡ CompareFailure.Line (one_more tally.cases))
        ⊎ IsCaseWanting failure) }
{
    match parse_case(alloc, line) {
        Ok(case) => Ok(tally.with_case(check_case(alloc, &case, cache, out)?)),
        Err(error) => Err(line_failure(tally.cases.saturating_add(1), error)),
    }
}

/// Takes the step of each line.
fn check_lines<R: BufRead + Drop, W: Write>(
    alloc: Global,
    input: R,
    cache: &mut Cache,
    out: &mut W,
) -> Result<Tally, CompareFailure>
    ensures { IfOk result (λ tally. tally.wrong ≤ tally.cases) }
{
    let mut tally = Tally { cases: 0, wrong: 0 };
    for line in input.lines(alloc) {
        let line = line?;
        tally = check_line(alloc, tally, line.as_str(), cache, out)?;
    }
    Ok(tally)
}

/// Takes the step of each line, and prints how many there were and how many went wrong.
pub fn check_all<R: BufRead + Drop, W: Write>(
    alloc: Global,
    input: R,
    out: &mut W,
) -> Result<Tally, CompareFailure>
    ensures { IfOk result (λ tally. tally.wrong ≤ tally.cases) }
{
    let mut cache = Cache::new(alloc, CODE)?;
    let tally = check_lines(alloc, input, &mut cache, out)?;
    let Tally { cases, wrong } = tally;
    writeln!(out, "{cases} cases, {wrong} wrong")?;
    out.flush()?;
    Ok(tally)
}
