//! The limits of a program's sizes, which its type has as an invariant.

ghost use Rattle.std.specs.Prelude.{◌≡◌, ◌+◌, ◌<◌, ◌^◌, length};
ghost use Rattle.mx_aout.specs.Limits.{rounded_to_pages, IsWithin};

use crate::program::Program;

/// How many bytes a page has.
pub const PAGE_SIZE: u128 = 4096;

/// A size in bytes, rounded up to whole pages.
pub fn rounded_to_pages(size: u128) -> u128
    requires { size + 4095 < 2 ^ 128 }
    ensures { result ≡ rounded_to_pages size }
{
    (size + (PAGE_SIZE - 1)) / PAGE_SIZE * PAGE_SIZE
}

impl Program {
    /// The limit of the data segment: the total, rounded up to whole pages.
    pub fn data_limit(&self) -> u32
        ensures value { result ≡ rounded_to_pages self.now.total }
        ensures within { IsWithin self.now.sep self.now.total (length self.now.text)
            (length self.now.init) self.now.bss (length self.now.symbols) }
    {
        rounded_to_pages(u128::from(self.total)) as u32
    }

    /// Law: a program's sizes are such that `read` doesn't refuse them.
    pub fn sizes_are_allowed(&self)
        ensures { IsWithin self.now.sep self.now.total (length self.now.text)
            (length self.now.init) self.now.bss (length self.now.symbols) }
    {}
}
