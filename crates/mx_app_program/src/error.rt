//! Why a text's roundtrip fails.

use mx_asm::{AsmError, Fault};
use mx_word::NoMemory;

/// The text's first fault, or that memory ran out. Nothing else can happen, since what is read was written.
#[derive(Clone, Copy, PartialEq, Eq)]
pub enum AroundError {
    Text(Fault),
    NoMemory,
}

impl From<AsmError> for AroundError {
    ghost use Rattle.std.specs.Prelude.{◌≡◌};
    ghost use Rattle.mx_app_program.specs.Failure.{error_of};

    ghost from_gives = { λ e error. error ≡ error_of e };

    fn from(error: AsmError) -> AroundError {
        match error {
            AsmError::At(fault) => AroundError::Text(fault),
            AsmError::NoMemory => AroundError::NoMemory,
        }
    }
}

impl From<NoMemory> for AroundError {
    ghost use Rattle.std.specs.Prelude.{◌≡◌};
    ghost use Rattle.mx_app_program.specs.declared.error.AroundError.TheVariants as errors;

    ghost from_gives = { λ _ error. error ≡ errors.NoMemory };

    fn from(_: NoMemory) -> AroundError {
        AroundError::NoMemory
    }
}
