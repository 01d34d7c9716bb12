//! A page of a segment: 4,096 bytes in an allocation of their own.

ghost use Rattle.std.specs.Prelude.{◌≡◌, ◌+◌, ◌*◌, ◌^◌, ◌<◌, ◌≤◌, IfOk, ℕ, length, slice_index, slice_set, replicate};
ghost use Rattle.mx_word.specs.Word.{width, bytes_in, value_at};
ghost use Rattle.mx_mem.specs.Segment.{IsPage, repeated, with_value, with_bytes_at};

use byteorder::{ByteOrder, LittleEndian};
use mx_word::{NoMemory, Size};
use std::alloc::{AllocError, Global};
use std::marker::Model;

/// How many bytes a page has.
pub(crate) const PAGE: usize = 4096;

/// A page, seen as a list of 4,096 bytes.
#[derive(Drop)]
pub(crate) struct Page {
    bytes: Box<[u8; PAGE]>,
}

impl Model for Page {
    ghost use Rattle.std.specs.Prelude.{List, ℕ};

    ghost Value = { List ℕ };

    ghost view = { λ p. p.bytes.value };
}

impl Page {
    /// Makes a page of zeros. Takes memory: answers `NoMemory` if there isn't enough.
    pub(crate) fn zeros(alloc: Global) -> Result<Page, NoMemory>
        ensures { IfOk result (λ p. p ≡ replicate 4096 0) }
    {
        match Box::new(alloc, [0; PAGE]) {
            Ok(bytes) => Ok(Page { bytes }),
            Err(_) => Err(NoMemory),
        }
    }

    /// The 4,096 bytes.
    #[inline(always)]
    pub(crate) fn bytes(&self) -> &[u8]
        ensures value { result.now ≡ self.now }
        ensures long { length result.now ≡ 4096 }
    {
        &self.bytes[..]
    }

    /// Writes a byte at a place of the page, 0 to 4,095.
    #[inline(always)]
    pub(crate) fn set(&mut self, at: usize, byte: u8)
        requires { at < 4096 }
        ensures value { self.new ≡ slice_set self.old at byte }
    {
        self.bytes[at] = byte;
    }

    /// Writes a number at a place of the page, lowest byte first.
    #[inline(always)]
    pub(crate) fn write(&mut self, at: usize, size: Size, value: u32)
        requires inside { at + bytes_in size ≤ 4096 }
        requires value { value < 2 ^ width size }
        ensures { self.new ≡ with_value self.old at (bytes_in size) value }
    {
        write_value(&mut self.bytes[..], at, size, value);
    }

    /// Writes bytes at a place of the page. They must fit.
    #[inline(always)]
    pub(crate) fn put(&mut self, at: usize, source: &[u8])
        requires { at + length source.now ≤ 4096 }
        ensures value { self.new ≡ with_bytes_at self.old at source.now }
        ensures source { (i : ℕ) → slice_index source.now i < 256 }
    {
        overwrite(&mut self.bytes[..], at, source);
    }

    /// Writes a number `count` times, one after another, lowest byte first. They must fit.
    #[inline(always)]
    pub(crate) fn fill(&mut self, at: usize, size: Size, count: usize, value: u32)
        requires inside { at + count * bytes_in size ≤ 4096 }
        requires value { value < 2 ^ width size }
        ensures { self.new ≡ with_bytes_at self.old at (repeated count (bytes_in size) value) }
    {
        write_values(&mut self.bytes[..], at, size, count, value);
    }

    /// Makes every byte zero.
    pub(crate) fn clear(&mut self)
        ensures { self.new ≡ replicate 4096 0 }
    {
        *self.bytes = [0; PAGE];
    }
}

/// Writes a number at a place of these bytes, lowest byte first.
#[inline(always)]
fn write_value(bytes: &mut [u8], at: usize, size: Size, value: u32)
    requires inside { at + bytes_in size ≤ length bytes.old }
    requires value { value < 2 ^ width size }
    ensures { bytes.new ≡ with_value bytes.old at (bytes_in size) value }
{
    bytes[at] = (value % 0x100) as u8;
    match size {
        Size::Byte => {}
        Size::Word => bytes[at + 1] = (value / 0x100) as u8,
        Size::Dword => {
            bytes[at + 1] = (value / 0x100 % 0x100) as u8;
            bytes[at + 2] = (value / 0x100 / 0x100 % 0x100) as u8;
            bytes[at + 3] = (value / 0x100 / 0x100 / 0x100) as u8;
        }
    }
}

/// Writes a number `count` times, one after another from a place on, lowest byte first.
#[inline(always)]
fn write_values(bytes: &mut [u8], at: usize, size: Size, count: usize, value: u32)
    requires inside { at + count * bytes_in size ≤ length bytes.old }
    requires value { value < 2 ^ width size }
    ensures { bytes.new ≡ with_bytes_at bytes.old at (repeated count (bytes_in size) value) }
{
    let mut place = at;
    for _k in 0..count {
        write_value(bytes, place, size, value);
        place += size.bytes() as usize;
    }
}

/// Writes the bytes of `source` at a place of `bytes`.
#[inline(always)]
fn overwrite(bytes: &mut [u8], at: usize, source: &[u8])
    requires { at + length source.now ≤ length bytes.old }
    ensures value { bytes.new ≡ with_bytes_at bytes.old at source.now }
    ensures source { (i : ℕ) → slice_index source.now i < 256 }
{
    bytes[at..at + source.len()].copy_from_slice(source);
}

/// The number of this size at a place of these bytes, lowest byte first.
#[inline(always)]
pub(crate) fn value_in(bytes: &[u8], at: usize, size: Size) -> u32
    requires { at + bytes_in size ≤ length bytes.now }
    ensures value { result ≡ value_at bytes.now at (bytes_in size) }
    ensures below { result < 2 ^ width size }
{
    match size {
        Size::Byte => u32::from(bytes[at]),
        Size::Word => u32::from(bytes[at]) + 0x100 * u32::from(bytes[at + 1]),
        Size::Dword => {
            u32::from(bytes[at])
                + 0x100
                    * (u32::from(bytes[at + 1])
                        + 0x100 * (u32::from(bytes[at + 2]) + 0x100 * u32::from(bytes[at + 3])))
        }
    }
}

/// The number in the eight bytes from a place on, lowest byte first.
#[inline(always)]
pub(crate) fn qword_at(bytes: &[u8], at: usize) -> u64
    requires { at + 8 ≤ length bytes.now }
    ensures value { result ≡ value_at bytes.now at 8 }
{
    LittleEndian::read_u64(&bytes[at..at + 8])
}
