//! Single bits of dwords, the search for a one, and shifts of two dwords.

ghost use Rattle.std.specs.Prelude.{◌≡◌, ◌+◌, ◌-◌, ◌*◌, ◌^◌, ◌<◌};
ghost use Rattle.mx_alu.specs.Bits.{bit_changed, bit_test_value, bit_test_flags, found_one, bit_scan_flags, double_shift_of, last_bit_out, double_shift_value, double_shift_flags};

use crate::wide_numbers::lift;
use mx_flags::Flags;
use mx_word::{BitScan, BitTest, DoubleShift, Size, has_bit};

/// The word whose only one is at a position.
fn one_at(place: u32) -> u32
    requires { place < 32 }
    ensures { result ≡ 2 ^ place }
{
    1 << place
}

fn bit_changed(operation: BitTest, x: u32, place: u32) -> u32
    requires { place < 32 }
    ensures { result ≡ bit_changed operation x place }
{
    match operation {
        BitTest::Bt => x,
        BitTest::Bts => x | one_at(place),
        BitTest::Btr => x & !one_at(place),
        BitTest::Btc => x ^ one_at(place),
    }
}

/// A dword after a bit test, and the flags after it: the carry is the bit as it was. The number of
/// the bit is taken modulo 32.
pub fn bit_test(operation: BitTest, x: u32, number: u32, flags: &Flags) -> (u32, Flags)
    ensures value { result.0 ≡ bit_test_value operation x number }
    ensures flags { result.1 ≡ bit_test_flags x number flags.now }
{
    let place = number % 32;
    (
        bit_changed(operation, x, place),
        flags.with_carry(has_bit(x, place)),
    )
}

/// The position of the lowest or the highest one of a dword, and the flags after the search. `None` if the
/// dword is 0.
pub fn bit_scan(operation: BitScan, x: u32, flags: &Flags) -> (Option<u32>, Flags)
    ensures value { result.0 ≡ found_one operation x }
    ensures flags { result.1 ≡ bit_scan_flags x flags.now }
{
    let found = if x == 0 {
        None
    } else {
        Some(match operation {
            BitScan::Bsf => x.trailing_zeros(),
            BitScan::Bsr => 31 - x.leading_zeros(),
        })
    };
    (found, flags.with_zero(x == 0))
}

/// A dword above another, as one number.
fn above(high: u32, low: u32) -> u64
    ensures { result ≡ high * 2 ^ 32 + low }
{
    lift(high, 32) + u64::from(low)
}

/// A dword moved by some places, and filled from another.
fn move_filled(operation: DoubleShift, x: u32, filler: u32, places: u32) -> u32
    requires some { 0 < places }
    requires few { places < 32 }
    ensures { result ≡ double_shift_of operation x filler places }
{
    match operation {
        DoubleShift::Shld => Size::Dword.low(above(x, filler) >> (32 - places)),
        DoubleShift::Shrd => Size::Dword.low(above(filler, x) >> places),
    }
}

/// The last bit shifted out.
fn last_bit_out(operation: DoubleShift, x: u32, places: u32) -> bool
    requires some { 0 < places }
    requires few { places < 32 }
    ensures { result ≡ last_bit_out operation x places }
{
    match operation {
        DoubleShift::Shld => has_bit(x, 32 - places),
        DoubleShift::Shrd => has_bit(x, places - 1),
    }
}

/// A dword moved by a count modulo 32 and filled from the end of another, and the flags after it.
pub fn double_shift(
    operation: DoubleShift,
    x: u32,
    filler: u32,
    count: u32,
    flags: &Flags,
) -> (u32, Flags)
    ensures value { result.0 ≡ double_shift_value operation x filler count }
    ensures flags { result.1 ≡ double_shift_flags operation x filler count flags.now }
{
    let places = count % 32;
    if places == 0 {
        return (x, flags.copy());
    }
    let moved = move_filled(operation, x, filler, places);
    let shown = flags.after_result(Size::Dword, moved);
    (moved, shown.with_carry(last_bit_out(operation, x, places)))
}
