//! Shifts and rotates, with their flags.

ghost use Rattle.std.specs.Prelude.{◌≡◌, ◌^◌, ◌<◌, ◌≤◌};
ghost use Rattle.mx_word.specs.Word.{width};
ghost use Rattle.mx_alu.specs.Shifts.{shift_of, last_out, turns_over, shift_value, shift_flags, rotation_of, shown_flags, is_second};

use crate::wide_numbers::lift;
use mx_flags::Flags;
use mx_word::{Shift, Size, differ, signed};

/// A word moved by a count modulo 32, and the flags after it.
pub fn shift(operation: Shift, size: Size, x: u32, count: u32, flags: &Flags) -> (u32, Flags)
    requires { x < 2 ^ width size }
    ensures value { result.0 ≡ shift_value operation (width size) x count }
    ensures flags { result.1 ≡ shift_flags operation (width size) x count flags.now }
    ensures below { result.0 < 2 ^ width size }
{
    let mut after = flags.copy();
    let moved = shift_in_place(operation, size, x, count, &mut after);
    (moved, after)
}

/// A word moved by a count modulo 32. The flags are changed where they are: a shift changes few of their fields, and
/// new ones in their place are all stored.
#[inline(always)]
pub fn shift_in_place(operation: Shift, size: Size, x: u32, count: u32, flags: &mut Flags) -> u32
    requires { x < 2 ^ width size }
    ensures value { result ≡ shift_value operation (width size) x count }
    ensures flags { flags.new ≡ shift_flags operation (width size) x count flags.old }
    ensures below { result < 2 ^ width size }
{
    let places = count % 32;
    if places == 0 {
        return x;
    }
    let (moved, out) = move_by(operation, size, x, places);
    show(operation, size, moved, flags);
    flags.set_carry(out);
    if places == 1 {
        flags.set_overflow(turns_over(operation, size, x, moved, out));
    }
    moved
}

/// A word moved by some places, and the last bit shifted out.
#[inline(always)]
fn move_by(operation: Shift, size: Size, x: u32, places: u32) -> (u32, bool)
    requires word { x < 2 ^ width size }
    requires some { 0 < places }
    requires few { places < 32 }
    ensures value { result.0 ≡ shift_of operation (width size) x places }
    ensures out { result.1 ≡ last_out operation (width size) x places }
    ensures below { result.0 < 2 ^ width size }
{
    match operation {
        Shift::Rol => {
            let rotated = rotate(size, x, places % size.bits());
            (rotated, rotated % 2 == 1)
        }
        Shift::Ror => {
            let rotated = rotate(size, x, size.bits() - places % size.bits());
            (rotated, size.is_negative(rotated))
        }
        Shift::Shl => {
            let lifted = lift(x, places);
            (size.low(lifted), size.high(lifted) % 2 == 1)
        }
        Shift::Shr => (x >> places, (x >> (places - 1)) % 2 == 1),
        Shift::Sar => {
            let number = signed(size, x);
            (
                size.modulo(number >> places),
                (number >> (places - 1)).rem_euclid(2) == 1,
            )
        }
    }
}

/// A word rotated to the left.
#[tactic(auto, using(crate::proofs::Rotated::rotated_below, crate::proofs::Rotated::width_le))]
fn rotate(size: Size, x: u32, places: u32) -> u32
    requires word { x < 2 ^ width size }
    requires few { places ≤ width size }
    ensures value { result ≡ rotation_of (width size) x places }
    ensures below { result < 2 ^ width size }
{
    let lifted = lift(x, places);
    size.low(lifted) + size.high(lifted) as u32
}

/// Overflow after one place.
fn turns_over(operation: Shift, size: Size, x: u32, moved: u32, out: bool) -> bool
    requires value { moved ≡ shift_of operation (width size) x 1 }
    requires out { out ≡ last_out operation (width size) x 1 }
    ensures { result ≡ turns_over operation (width size) x }
{
    match operation {
        Shift::Rol | Shift::Shl => differ(size.is_negative(moved), out),
        Shift::Ror => differ(size.is_negative(moved), is_second(size, moved)),
        Shift::Shr => size.is_negative(x),
        Shift::Sar => false,
    }
}

/// Whether the bit below the top one is one.
fn is_second(size: Size, x: u32) -> bool
    ensures { result ≡ is_second (width size) x }
{
    match size {
        Size::Byte => x % 0x80 >= 0x40,
        Size::Word => x % 0x8000 >= 0x4000,
        Size::Dword => x % 0x8000_0000 >= 0x4000_0000,
    }
}

/// Sets the flags that show a shift's result.
#[inline(always)]
fn show(operation: Shift, size: Size, moved: u32, flags: &mut Flags)
    requires { moved < 2 ^ width size }
    ensures { flags.new ≡ shown_flags operation (width size) moved flags.old }
{
    match operation {
        Shift::Rol | Shift::Ror => {}
        Shift::Shl | Shift::Shr | Shift::Sar => flags.show(size, moved),
    }
}
