//! Ranges of code, within which gdb lets a process step on.

ghost use Rattle.std.specs.Prelude.{◌≡◌};
ghost use Rattle.mx_app_gdb.specs.Marks.{is_within};

use crate::addresses::shown_address;

/// Addresses of code, as gdb has them: from the first on, and below the end.
#[derive(Clone, Copy)]
pub struct Range {
    pub first: u32,
    pub end: u32,
}

/// No address.
pub(crate) const NOWHERE: Range = Range { first: 0, end: 0 };

impl Range {
    /// Whether an address of the code is within it.
    pub fn has(self, eip: u32) -> bool
        ensures { result ≡ is_within self eip }
    {
        let at = shown_address(eip);
        self.first <= at && at < self.end
    }
}
