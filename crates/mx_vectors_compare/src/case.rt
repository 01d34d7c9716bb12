//! A case: one step of a real processor, as a line has it.

ghost use Rattle.std.specs.Prelude.{◌≡◌, length};

use mx_exec::Outcome;
use mx_word::Bytes;
use std::alloc::{AllocError, AllocFailed};

/// Registers, EIP and flags.
#[derive(Clone, Copy)]
pub struct StepState {
    pub registers: [u32; 8],
    pub eip: u32,
    pub flags: u32,
}

/// One step of a processor.
#[derive(Drop)]
pub struct Case<'a> {
    /// Row and mnemonic.
    pub row: &'a str,
    /// The instruction's bytes, as text and as bytes.
    pub spelling: &'a str,
    pub bytes: Bytes,
    /// The code, if it isn't in the data.
    pub code: Option<Bytes>,
    pub memory: Bytes,
    pub before: StepState,
    pub outcome: Outcome,
    pub after: StepState,
    /// Which flags to compare.
    pub mask: u32,
    pub memory_after: Bytes,
    ghost same_limit: { length memory_after ≡ length memory },
}

/// Why a line is no case.
#[derive(Clone, Copy)]
pub enum CaseError {
    Malformed,
    NoMemory,
}

impl From<AllocError> for CaseError {
    ghost use Rattle.std.specs.Prelude.{◌≡◌};
    ghost use Rattle.mx_vectors_compare.specs.declared.case.CaseError.TheVariants as errors;

    ghost from_gives = { λ _ e. e ≡ errors.NoMemory };

    fn from(_: AllocError) -> CaseError {
        CaseError::NoMemory
    }
}

impl<T: Drop> From<AllocFailed<T>> for CaseError {
    ghost use Rattle.std.specs.Prelude.{◌≡◌};
    ghost use Rattle.mx_vectors_compare.specs.declared.case.CaseError.TheVariants as errors;

    ghost from_gives = { λ _ e. e ≡ errors.NoMemory };

    fn from(_: AllocFailed<T>) -> CaseError {
        CaseError::NoMemory
    }
}

impl From<hex::FromHexError> for CaseError {
    ghost use Rattle.std.specs.Prelude.{◌≡◌};
    ghost use Rattle.mx_vectors_compare.specs.CaseFailure.{case_error_of};

    ghost from_gives = { λ error e. e ≡ case_error_of error };

    fn from(error: hex::FromHexError) -> CaseError {
        match error {
            hex::FromHexError::OutOfMemory => CaseError::NoMemory,
            _ => CaseError::Malformed,
        }
    }
}
