//! Up to where the bytes of a segment go.

ghost use Rattle.std.specs.Prelude.{◌≡◌, ◌+◌, nat_le};
ghost use Rattle.mx_word.specs.Word.{bytes_in};

use mx_word::Size;
use std::marker::Model;

/// The number of bytes of a segment. It also has the number of addresses where a dword may begin, so that
/// the commonest access takes one comparison.
#[derive(Drop)]
pub struct Limit {
    bytes: usize,
    dwords: usize,
}

impl Model for Limit {
    ghost use Rattle.std.specs.Prelude.{ℕ, ◌≡◌, ◌-◌};

    ghost Value = { ℕ };

    ghost view = { λ l. l.bytes };

    ghost invariant = { λ l. l.dwords ≡ l.bytes - 3 };
}

impl Limit {
    /// The limit of a segment of this many bytes.
    pub fn new(bytes: usize) -> Limit
        ensures { result ≡ bytes }
    {
        Limit {
            bytes,
            dwords: bytes.saturating_sub(3),
        }
    }

    /// The number of bytes.
    #[inline(always)]
    pub fn bytes(&self) -> usize
        ensures { result ≡ self.now }
    {
        self.bytes
    }

    /// Whether the 1, 2 or 4 bytes of a size, from an address on, lie below the limit.
    #[inline(always)]
    pub fn holds(&self, at: u32, size: Size) -> bool
        ensures { result ≡ nat_le (at + bytes_in size) self.now }
    {
        match size {
            Size::Byte | Size::Word => at as usize + size.bytes() as usize <= self.bytes,
            Size::Dword => (at as usize) < self.dwords,
        }
    }
}
