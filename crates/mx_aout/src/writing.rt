//! Writes a program file: its bytes, from the program.

ghost use Rattle.std.specs.Prelude.{◌≡◌, ◌<◌, ◌^◌, ◌++◌, ◌*◌, ℕ, IfOk, OnOk, List, MatchResult, length};
ghost use Rattle.std.specs.List.{AllByRecursion, flat_map};
ghost use Rattle.mx_word.specs.Word.{bytes_of};
ghost use Rattle.mx_aout.specs.declared.program.Program.{Program};
ghost use Rattle.mx_aout.specs.Limits.{IsWithin};
ghost use Rattle.mx_aout.specs.File.{FileIs, symbol_at};
ghost use Rattle.mx_aout.specs.Written.{short_file, short_header, symbol_bytes};

use crate::file::read;
use crate::program::{FileError, Program, Symbol};
use mx_word::{NoMemory, write_dword, write_word};
use std::alloc::{AllocError, Global};

/// The four bytes of a number.
fn dword_bytes(number: u32) -> [u8; 4]
    ensures { result ≡ bytes_of 4 number }
{
    let mut bytes = [0; 4];
    write_dword(&mut bytes, number);
    bytes
}

/// The two bytes of a number.
fn word_bytes(number: u16) -> [u8; 2]
    ensures { result ≡ bytes_of 2 number }
{
    let mut bytes = [0; 2];
    write_word(&mut bytes, number);
    bytes
}

/// The sixteen bytes of a symbol.
fn symbol_bytes(symbol: &Symbol) -> [u8; 16]
    ensures bytes { result ≡ symbol_bytes symbol.now }
    ensures again { symbol_at result 0 ≡ symbol.now }
{
    let [n0, n1, n2, n3, n4, n5, n6, n7] = symbol.name;
    let [v0, v1, v2, v3] = dword_bytes(symbol.value);
    let [k0, k1] = word_bytes(symbol.kind);
    [
        n0,
        n1,
        n2,
        n3,
        n4,
        n5,
        n6,
        n7,
        v0,
        v1,
        v2,
        v3,
        symbol.class,
        symbol.auxiliary,
        k0,
        k1,
    ]
}

/// Appends the bytes of each number.
fn push_dwords(bytes: &mut Vec<u8>, numbers: &[u32]) -> Result<(), AllocError>
    ensures { OnOk result (bytes.new.items ≡ bytes.old.items ++ flat_map (bytes_of 4) numbers.now) }
{
    for number in numbers {
        bytes.extend_from_slice(&dword_bytes(*number))?;
    }
    Ok(())
}

/// Appends the bytes of each symbol.
fn push_symbols(bytes: &mut Vec<u8>, symbols: &[Symbol]) -> Result<(), AllocError>
    ensures bytes { OnOk result (bytes.new.items ≡ bytes.old.items
        ++ flat_map symbol_bytes symbols.now) }
    ensures again { OnOk result (AllByRecursion (λ s. symbol_at (symbol_bytes s) 0
        ≡ s) symbols.now) }
{
    for symbol in symbols {
        bytes.extend_from_slice(&symbol_bytes(symbol))?;
    }
    Ok(())
}

/// The address of the first instruction.
fn entry_of(program: &Program) -> u32
    ensures value { result ≡ program.now.entry }
    ensures range { result < 2 ^ 32 }
{
    program.entry
}

/// The header of the short form.
fn short_header(alloc: Global, program: &Program) -> Result<Vec<u8>, AllocError>
    ensures bytes { IfOk result (λ bytes. bytes.items ≡ short_header program.now) }
    ensures entry { program.now.entry < 2 ^ 32 }
    ensures within { IsWithin program.now.sep program.now.total (length program.now.text)
        (length program.now.init) program.now.bss (length program.now.symbols) }
{
    let flags = if program.sep { 0x30 } else { 0x10 };
    let mut bytes = Vec::new(alloc);
    bytes.extend_from_slice(&[0x01, 0x03, flags, 0x10, 32, 0, 0, 0])?;
    let numbers = [
        program.text.as_slice().len() as u32,
        program.init.as_slice().len() as u32,
        program.bss,
        entry_of(program),
        program.total,
        program.symbols.as_slice().len() as u32 * 16,
    ];
    push_dwords(&mut bytes, &numbers)?;
    Ok(bytes)
}

/// The bytes of a program's file, in the short form, with nothing after the symbols.
pub fn write(alloc: Global, program: &Program) -> Result<Vec<u8>, NoMemory>
    ensures file { IfOk result (λ bytes. FileIs bytes.items program.now) }
    ensures form { IfOk result (λ bytes. bytes.items ≡ short_file program.now) }
{
    let mut bytes = short_header(alloc, program)?;
    bytes.extend_from_slice(program.text.as_slice())?;
    bytes.extend_from_slice(program.init.as_slice())?;
    push_symbols(&mut bytes, program.symbols.as_slice())?;
    Ok(bytes)
}

/// Law: bytes are an a.out file of one program at most.
pub fn one_program()
    ensures { (b : List ℕ) (p q : Program) → FileIs b p → FileIs b q → p ≡ q }
{}

/// Writes a program as an a.out file and reads it again. The result is equal to the program, unless memory
/// runs out.
pub fn read_back(alloc: Global, program: &Program) -> Result<Program, FileError>
    ensures { MatchResult result (λ again. again ≡ program.now) (λ e. e ≡ FileError.NoMemory) }
{
    let bytes = write(alloc, program)?;
    read(alloc, bytes.as_slice())
}
