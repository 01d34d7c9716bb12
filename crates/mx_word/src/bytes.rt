//! Bytes, and words and dwords as little-endian bytes: the lowest byte has the lowest address.

ghost use Rattle.std.specs.Prelude.{◌≡◌, ◌≤◌, ◌++◌, length, drop};
ghost use Rattle.mx_word.specs.Word.{value_at, bytes_of};

use byteorder::{ByteOrder, LittleEndian};
use std::alloc::AllocError;
use std::marker::Model;

/// Out of memory: a growth was refused.
#[derive(Clone, Copy, Debug, PartialEq, Eq)]
pub struct NoMemory;

impl From<AllocError> for NoMemory {
    fn from(_: AllocError) -> NoMemory {
        NoMemory
    }
}

/// A list of bytes, as a file's text or an image's code.
#[derive(Drop)]
pub struct Bytes {
    bytes: Vec<u8>,
}

impl Model for Bytes {
    ghost use Rattle.std.specs.Prelude.{List, ℕ};

    ghost Value = { List ℕ };

    ghost view = { λ list. list.bytes.items };
}

impl Bytes {
    /// A list of bytes that contracts see whole, from a vector. Takes no memory.
    pub fn from_vec(bytes: Vec<u8>) -> Bytes
        ensures { result ≡ bytes.items }
    {
        Bytes { bytes }
    }

    /// The list of bytes as a slice.
    pub fn as_slice(&self) -> &[u8]
        ensures { result.now ≡ self.now }
    {
        self.bytes.as_slice()
    }
}

/// The number in the first two bytes, the lowest first.
pub fn read_word(bytes: &[u8]) -> u16
    requires { 2 ≤ length bytes.now }
    ensures { result ≡ value_at bytes.now 0 2 }
{
    LittleEndian::read_u16(bytes)
}

/// The number in the first four bytes, the lowest first.
pub fn read_dword(bytes: &[u8]) -> u32
    requires { 4 ≤ length bytes.now }
    ensures { result ≡ value_at bytes.now 0 4 }
{
    LittleEndian::read_u32(bytes)
}

/// Writes a number over the first two bytes, the lowest first.
pub fn write_word(bytes: &mut [u8], number: u16)
    requires { 2 ≤ length bytes.old }
    ensures { bytes.new ≡ bytes_of 2 number ++ drop 2 bytes.old }
{
    LittleEndian::write_u16(bytes, number);
}

/// Writes a number over the first four bytes, the lowest first.
pub fn write_dword(bytes: &mut [u8], number: u32)
    requires { 4 ≤ length bytes.old }
    ensures { bytes.new ≡ bytes_of 4 number ++ drop 4 bytes.old }
{
    LittleEndian::write_u32(bytes, number);
}
