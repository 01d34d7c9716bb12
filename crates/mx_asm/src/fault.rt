//! The faults of a text that makes no program: the line and the problem.

ghost use Rattle.std.specs.Prelude.{◌≡◌};
ghost use Rattle.mx_asm.specs.Faults.{problem_code, error_code, problem_of};

use mx_asm_statement::Reason;
use std::alloc::{AllocError, AllocFailed};

/// What is wrong with a line.
#[derive(Clone, Copy, Debug, PartialEq, Eq)]
pub enum Problem {
    BadByte,
    BadNumber,
    OpenText,
    UnknownWord,
    BadOperands,
    Twice,
    Undefined,
    TooFar,
    WrongSection,
    TooLarge,
    LongName,
}

impl Problem {
    /// The number of a problem in messages.
    pub fn code(self) -> u8
        ensures { result ≡ problem_code self }
    {
        match self {
            Problem::BadByte => 1,
            Problem::BadNumber => 2,
            Problem::OpenText => 3,
            Problem::UnknownWord => 10,
            Problem::BadOperands => 11,
            Problem::Twice => 12,
            Problem::Undefined => 13,
            Problem::TooFar => 14,
            Problem::WrongSection => 15,
            Problem::TooLarge => 16,
            Problem::LongName => 17,
        }
    }
}

/// A line and what is wrong with it. The first line has the number 1.
#[derive(Clone, Copy, Debug, PartialEq, Eq)]
pub struct Fault {
    pub problem: Problem,
    pub line: usize,
}

/// The first fault, or that memory ran out.
#[derive(Clone, Copy, Debug, PartialEq, Eq)]
pub enum AsmError {
    At(Fault),
    NoMemory,
}

impl AsmError {
    /// The number of an error in messages.
    pub fn code(self) -> u8
        ensures { result ≡ error_code self }
    {
        match self {
            AsmError::At(fault) => fault.problem.code(),
            AsmError::NoMemory => 90,
        }
    }
}

/// The problem for which a line is reported, of the reason to refuse it.
pub fn problem_of(reason: Reason) -> Problem
    ensures { result ≡ problem_of reason }
{
    match reason {
        Reason::LongName => Problem::LongName,
        Reason::Twice => Problem::Twice,
        Reason::Unknown => Problem::UnknownWord,
        Reason::WrongSection => Problem::WrongSection,
        Reason::NoForm => Problem::BadOperands,
    }
}

impl From<AllocError> for AsmError {
    ghost use Rattle.std.specs.Prelude.{◌≡◌};
    ghost use Rattle.mx_asm.specs.declared.fault.AsmError.TheVariants as errors;

    ghost from_gives = { λ _ e. e ≡ errors.NoMemory };

    fn from(_: AllocError) -> AsmError {
        AsmError::NoMemory
    }
}

impl<T: Drop> From<AllocFailed<T>> for AsmError {
    ghost use Rattle.std.specs.Prelude.{◌≡◌};
    ghost use Rattle.mx_asm.specs.declared.fault.AsmError.TheVariants as errors;

    ghost from_gives = { λ _ e. e ≡ errors.NoMemory };

    fn from(_: AllocFailed<T>) -> AsmError {
        AsmError::NoMemory
    }
}
