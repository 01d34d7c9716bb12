//! Numbers of 8, 16 and 32 bits: their `Size` and width in bits, sums with carry and borrow, signs, halves and
//! bytes; and the names of registers, conditions and operations.
#![tactic(auto)]

mod bits;
mod bytes;
mod names;
mod size;

pub use bits::has_bit;
pub use bytes::{Bytes, NoMemory, read_dword, read_word, write_dword, write_word};
pub use names::{Arithmetic, BitScan, BitTest, Condition, DoubleShift, Register, Shift, Unary};
pub use size::{Size, add_w, differ, difference, has_even_ones, signed, sub_w, sum};
