//! The error of a text: its kind, and the number of the line at fault.

ghost use Rattle.std.specs.Prelude.{◌≡◌};
ghost use Rattle.mx_text.specs.Errors.{boot_code_of};

use std::alloc::{AllocError, AllocFailed};
use thiserror::Error;

/// The first line at fault, the first line of a text having the number 1, or that memory ran
/// out.
#[derive(Clone, Copy, Debug, PartialEq, Eq, Error)]
pub enum BootError {
    /// No item of a configuration.
    #[error("70 BadLine line {0}")]
    BadLine(usize),
    /// A name or an item that is above already.
    #[error("71 TwiceNamed line {0}")]
    TwiceNamed(usize),
    /// A 33rd service.
    #[error("72 TooMany line {0}")]
    TooMany(usize),
    /// No line of a script, or of a saved history.
    #[error("73 BadRecord line {0}")]
    BadRecord(usize),
    #[error("90 NoMemory")]
    NoMemory,
}

impl BootError {
    /// The number of a text's first fault in messages.
    pub fn code(self) -> u8
        ensures { result ≡ boot_code_of self }
    {
        match self {
            BootError::BadLine(_) => 70,
            BootError::TwiceNamed(_) => 71,
            BootError::TooMany(_) => 72,
            BootError::BadRecord(_) => 73,
            BootError::NoMemory => 90,
        }
    }
}

impl From<AllocError> for BootError {
    ghost use Rattle.std.specs.Prelude.{◌≡◌};
    ghost use Rattle.mx_text.specs.declared.error.BootError.TheVariants as errors;

    ghost from_gives = { λ _ e. e ≡ errors.NoMemory };

    fn from(_: AllocError) -> BootError {
        BootError::NoMemory
    }
}

impl<T: Drop> From<AllocFailed<T>> for BootError {
    ghost use Rattle.std.specs.Prelude.{◌≡◌};
    ghost use Rattle.mx_text.specs.declared.error.BootError.TheVariants as errors;

    ghost from_gives = { λ _ e. e ≡ errors.NoMemory };

    fn from(_: AllocFailed<T>) -> BootError {
        BootError::NoMemory
    }
}
