//! Single bits of numbers, as the processor counts them: bit 0 is the lowest.

ghost use Rattle.std.specs.Prelude.{◌≡◌, ◌<◌};
ghost use Rattle.mx_word.specs.Bits.{has_bit};

/// Whether a bit of a number is one. Bit 0 is the lowest.
pub fn has_bit(x: u32, place: u32) -> bool
    requires { place < 32 }
    ensures { result ≡ has_bit x place }
{
    (x >> place) % 2 == 1
}
