//! Reads program files: the header, the sizes in it, and the parts.

ghost use Rattle.std.specs.Prelude.{◌≡◌, ◌≤◌, ◌+◌, ◌*◌, ◌/◌, ◌^◌, None, Some, IfSome, IfNone, IfOk, length, slice_index, take, drop};
ghost use Rattle.mx_word.specs.Word.{value_at};
ghost use Rattle.mx_aout.specs.File.{header_of, relocations_at, is_too_large, init_at, symbols_at, refusal_of, first_file_error, size_reasons, reasons_of_sizes, form_reasons, length_of_parts, length_asked, symbol_at, symbols_from, ReadsFile};
ghost use Rattle.mx_aout.specs.Limits.{rounded_to_pages, used_of, IsWithin};

use crate::limits::rounded_to_pages;
use crate::program::{FileError, Program, Symbol, Symbols};
use mx_word::{Bytes, read_dword, read_word};
use std::alloc::{AllocError, Global};

/// The values of a file's header. Sizes are in bytes.
#[derive(Clone, Copy)]
pub struct Header {
    /// The header's own size.
    pub length: u8,
    pub sep: bool,
    pub text: u32,
    pub init: u32,
    pub bss: u32,
    pub entry: u32,
    pub total: u32,
    pub symbols: u32,
    pub text_relocations: u32,
    pub init_relocations: u32,
}

impl Header {
    /// The offset of the data.
    fn init_at(&self) -> u64
        ensures { result ≡ init_at self.now }
    {
        u64::from(self.length) + u64::from(self.text)
    }

    /// The offset of the symbols.
    fn symbols_at(&self) -> u64
        ensures place { result ≡ symbols_at self.now }
        ensures small { result ≤ 2 ^ 35 }
    {
        self.init_at()
            + u64::from(self.init)
            + u64::from(self.text_relocations)
            + u64::from(self.init_relocations)
    }

    /// All that the header names.
    fn length_of_parts(&self) -> u64
        ensures { result ≡ length_of_parts self.now }
    {
        self.symbols_at() + u64::from(self.symbols)
    }

    /// The total, rounded up to whole pages.
    fn rounded_total(&self) -> u128
        ensures { result ≡ rounded_to_pages self.now.total }
    {
        rounded_to_pages(u128::from(self.total))
    }

    /// What the data segment begins with, and bss.
    fn used_bytes(&self) -> u64
        ensures { result ≡ used_of self.now.sep self.now.text self.now.init self.now.bss }
    {
        let kept = u64::from(self.init) + u64::from(self.bss);
        if self.sep {
            kept
        } else {
            u64::from(self.text) + kept
        }
    }

    fn is_too_large(&self) -> bool
        ensures { result ≡ is_too_large self.now }
    {
        self.text > 1_048_576
            || self.symbols > 262_144
            || self.rounded_total() > 4_194_304
            || u128::from(self.used_bytes()) > self.rounded_total()
    }
}

/// The number of four bytes at a place.
fn dword_at(bytes: &[u8], at: usize) -> u32
    requires { at + 4 ≤ length bytes.now }
    ensures { result ≡ value_at bytes.now at 4 }
{
    read_dword(&bytes[at..])
}

/// The size of the relocations that the long header names at a place.
fn relocations_at(bytes: &[u8], at: usize) -> u32
    requires room { at + 4 ≤ 48 }
    requires header { 32 ≤ length bytes.now }
    requires long { slice_index bytes.now 4 ≡ 48 → 48 ≤ length bytes.now }
    ensures { result ≡ relocations_at bytes.now at }
{
    if bytes[4] == 48 {
        dword_at(bytes, at)
    } else {
        0
    }
}

fn header_of(bytes: &[u8]) -> Header
    requires header { 32 ≤ length bytes.now }
    requires long { slice_index bytes.now 4 ≡ 48 → 48 ≤ length bytes.now }
    ensures { result ≡ header_of bytes.now }
{
    Header {
        length: bytes[4],
        sep: bytes[2] / 32 % 2 == 1,
        text: dword_at(bytes, 8),
        init: dword_at(bytes, 12),
        bss: dword_at(bytes, 16),
        entry: dword_at(bytes, 20),
        total: dword_at(bytes, 24),
        symbols: dword_at(bytes, 28),
        text_relocations: relocations_at(bytes, 32),
        init_relocations: relocations_at(bytes, 36),
    }
}

/// The first reason to refuse a file for its header.
fn header_refusal(bytes: &[u8]) -> Option<FileError>
    ensures stands { IfSome result (λ e. refusal_of bytes.now ≡ Some e) }
    ensures passes { IfNone result (refusal_of bytes.now
        ≡ first_file_error (size_reasons bytes.now)) }
    ensures form { result ≡ first_file_error (form_reasons bytes.now) }
    ensures header { IfNone result (32 ≤ length bytes.now) }
    ensures long { IfNone result (slice_index bytes.now 4 ≡ 48 → 48 ≤ length bytes.now) }
{
    if bytes.len() < 32 {
        return Some(FileError::Truncated);
    }
    if bytes[0] != 1 || bytes[1] != 3 {
        return Some(FileError::BadMagic);
    }
    if bytes[3] != 0x10 {
        return Some(FileError::BadCpu);
    }
    if bytes[2] & 0xCB != 0 {
        return Some(FileError::BadFlags);
    }
    match bytes[4] {
        32 => None,
        48 if bytes.len() < 48 => Some(FileError::Truncated),
        48 => None,
        _ => Some(FileError::BadHeader),
    }
}

/// The first reason to refuse a file for its sizes.
fn size_refusal(header: &Header, length: usize) -> Option<FileError>
    ensures reason { result ≡ first_file_error (reasons_of_sizes header.now length) }
    ensures within { IfNone result
        (IsWithin header.now.sep header.now.total header.now.text header.now.init header.now.bss
        (header.now.symbols / 16)) }
    ensures inside { IfNone result (symbols_at header.now + header.now.symbols ≤ length) }
{
    if header.total == 0 {
        return Some(FileError::NoTotal);
    }
    if header.is_too_large() {
        return Some(FileError::TooLarge);
    }
    if header.symbols % 16 != 0 {
        return Some(FileError::BadSymbols);
    }
    if (length as u64) < header.length_of_parts() {
        return Some(FileError::Truncated);
    }
    None
}

/// The longest header.
const LONGEST_HEADER: u64 = 48;

/// How many of a file's bytes matter, by its first 48, or all if it has fewer: the header and the parts that
/// it names. If the file is refused for its header, at most these 48, however long it is.
pub fn length_asked(front: &[u8]) -> u64
    ensures { result ≡ length_asked front.now }
{
    if header_refusal(front).is_some() {
        return LONGEST_HEADER;
    }
    let header = header_of(front);
    let length = header.length_of_parts();
    match size_refusal(&header, length as usize) {
        Some(_) => LONGEST_HEADER,
        None => length,
    }
}

/// The symbol at a place.
fn symbol_at(bytes: &[u8], at: usize) -> Symbol
    requires { at + 16 ≤ length bytes.now }
    ensures { result ≡ symbol_at bytes.now at }
{
    Symbol {
        name: [
            bytes[at],
            bytes[at + 1],
            bytes[at + 2],
            bytes[at + 3],
            bytes[at + 4],
            bytes[at + 5],
            bytes[at + 6],
            bytes[at + 7],
        ],
        value: dword_at(bytes, at + 8),
        class: bytes[at + 12],
        auxiliary: bytes[at + 13],
        kind: read_word(&bytes[at + 14..]),
    }
}

/// `count` symbols from an offset on.
fn symbols_from(alloc: Global, bytes: &[u8], at: usize, count: usize) -> Result<Symbols, AllocError>
    requires { at + count * 16 ≤ length bytes.now }
    ensures symbols { IfOk result (λ s. s ≡ symbols_from bytes.now at count) }
    ensures length { IfOk result (λ s. length s ≡ count) }
{
    let mut symbols = Vec::new(alloc);
    for number in 0..count {
        symbols.push(symbol_at(bytes, at + number * 16))?;
    }
    Ok(Symbols::from_vec(symbols))
}

/// A copy of this many bytes from a place on.
fn part(alloc: Global, bytes: &[u8], at: usize, count: u32) -> Result<Bytes, AllocError>
    requires { at + count ≤ length bytes.now }
    ensures bytes { IfOk result (λ part. part ≡ take count (drop at bytes.now)) }
    ensures length { IfOk result (λ part. length part ≡ count) }
{
    let part = &bytes[at..at + count as usize];
    Ok(Bytes::from_vec(part.to_vec(alloc)?))
}

/// The program of a file's bytes, or the first reason to refuse them. Bytes after the parts, relocations, the
/// unused byte, the version and the long header's bases are skipped.
pub fn read(alloc: Global, bytes: &[u8]) -> Result<Program, FileError>
    ensures { ReadsFile (refusal_of bytes.now) bytes.now result }
{
    if let Some(error) = header_refusal(bytes) {
        return Err(error);
    }
    let header = header_of(bytes);
    if let Some(error) = size_refusal(&header, bytes.len()) {
        return Err(error);
    }
    read_parts(alloc, bytes, &header)
}

/// The program of a file that nothing refuses.
fn read_parts(alloc: Global, bytes: &[u8], header: &Header) -> Result<Program, FileError>
    requires header { header.now ≡ header_of bytes.now }
    requires accepted { refusal_of bytes.now ≡ None }
    requires within { IsWithin header.now.sep header.now.total header.now.text header.now.init
        header.now.bss (header.now.symbols / 16) }
    requires inside { symbols_at header.now + header.now.symbols ≤ length bytes.now }
    ensures { ReadsFile None bytes.now result }
{
    let text = part(alloc, bytes, header.length as usize, header.text)?;
    let init = part(alloc, bytes, header.init_at() as usize, header.init)?;
    let count = header.symbols as usize / 16;
    let symbols = symbols_from(alloc, bytes, header.symbols_at() as usize, count)?;
    Ok(Program {
        sep: header.sep,
        entry: header.entry,
        total: header.total,
        text,
        init,
        bss: header.bss,
        symbols,
    })
}
