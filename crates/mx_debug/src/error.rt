//! The errors of a debugger: what it refuses.

ghost use Rattle.std.specs.Prelude.{◌≡◌};
ghost use Rattle.mx_debug.specs.Errors.{error_code, error_name};

/// Why a debugger's call is refused.
#[derive(Clone, Copy, Debug, PartialEq, Eq)]
pub enum DebugError {
    /// The program has no symbol of that name.
    NoSymbol = 60,
    /// Nothing is held there, or the place is past the limit.
    NotHere = 61,
    /// There are 64 breakpoints already.
    TooMany = 62,
}

impl DebugError {
    /// The number of a debugger's error in messages.
    pub fn code(self) -> u8
        ensures { result ≡ error_code self }
    {
        self as u8
    }

    /// The name of a debugger's error in messages.
    pub fn name(self) -> &'static str
        ensures { result.now ≡ error_name self }
    {
        match self {
            DebugError::NoSymbol => "NoSymbol",
            DebugError::NotHere => "NotHere",
            DebugError::TooMany => "TooMany",
        }
    }
}
