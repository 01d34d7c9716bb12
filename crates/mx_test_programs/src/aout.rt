//! Files of programs, which are read and written again. `checks/model/rows` has those with a fault.

use mx_aout::{FileError, Program, one_program, read, read_back, write};
use std::alloc::Global;

/// A file of two bytes of text, `int 0x21`, in the data segment, with a total of 4096.
const TRAP: [u8; 34] = [
    0x01, 0x03, 0x10, 0x10, 0x20, 0, 0, 0, // magic, flags, processor, header of 32 bytes
    2, 0, 0, 0, 0, 0, 0, 0, 0, 0, 0, 0, // text, data, bss
    0, 0, 0, 0, 0, 0x10, 0, 0, 0, 0, 0, 0, // entry, total, symbols
    0xCD, 0x21, // int 0x21
];

/// `TRAP` without a text.
const EMPTY: [u8; 32] = [
    0x01, 0x03, 0x10, 0x10, 0x20, 0, 0, 0, // magic, flags, processor, header of 32 bytes
    0, 0, 0, 0, 0, 0, 0, 0, 0, 0, 0, 0, // text, data, bss
    0, 0, 0, 0, 0, 0x10, 0, 0, 0, 0, 0, 0, // entry, total, symbols
];

/// The long form: 2 bytes of text, 8 of relocations and one symbol.
const LONG: [u8; 74] = [
    0x01, 0x03, 0x30, 0x10, 0x30, 0, 0, 0, // magic, flags, processor, header of 48 bytes
    2, 0, 0, 0, 0, 0, 0, 0, 5, 0, 0, 0, // text, data, bss
    1, 0, 0, 0, 0, 0x10, 0, 0, 0x10, 0, 0, 0, // entry, total, symbols
    8, 0, 0, 0, 0, 0, 0, 0, 0, 0, 0, 0, 0, 0, 0, 0, // relocations and bases
    0x90, // nop
    0x90, // nop
    9, 9, 9, 9, 9, 9, 9, 9, // relocations
    b's', b't', b'a', b'r', b't', 0, 0, 0, 1, 0, 0, 0, 2, 0, 0, 0, // a symbol
];

fn is_long(program: &Program) -> bool {
    let is_symbol = match program.symbols.as_slice() {
        [symbol] => { symbol.name == *b"start\0\0\0" && (symbol.value, symbol.class) == (1, 2) }
        _ => false,
    };
    is_symbol
        && program.sep
        && (program.entry, program.total, program.bss) == (1, 0x1000, 5)
        && program.text.as_slice() == b"\x90\x90".as_slice()
        && program.init.as_slice().is_empty()
}

/// The short form: 12 bytes of text, one symbol `start`, and a total of 4096.
pub(crate) const SHORT: [u8; 60] = [
    0x01, 0x03, 0x30, 0x10, 0x20, 0, 0, 0, // magic, flags, processor, header of 32 bytes
    12, 0, 0, 0, 0, 0, 0, 0, 0, 0, 0, 0, // text, data, bss
    0, 0, 0, 0, 0, 0x10, 0, 0, 0x10, 0, 0, 0, // entry, total, symbols
    0xB8, 0x05, 0, 0, 0, // mov eax, 0x5
    0x83, 0xC0, 0x7B, // add eax, 0x7b
    0xE2, 0xF6, // loop 0x0
    0xCD, 0x21, // int 0x21
    b's', b't', b'a', b'r', b't', 0, 0, 0, 0, 0, 0, 0, 2, 0, 0, 0, // a symbol
];

fn is_written(alloc: Global, program: &Program, file: &[u8]) -> bool {
    match write(alloc, program) {
        Ok(written) => written.as_slice() == file,
        Err(_) => false,
    }
}

fn is_written_again(alloc: Global, program: &Program, file: &[u8]) -> bool {
    match read_back(alloc, program) {
        Ok(again) => is_written(alloc, &again, file),
        Err(_) => false,
    }
}

/// Whether a file is read, and is the long form's program or is written again as it was.
fn is_read(alloc: Global, file: &[u8]) -> bool {
    match read(alloc, file) {
        Ok(program) => is_long(&program) || is_written_again(alloc, &program, file),
        Err(_) => false,
    }
}

/// A file that is read.
struct Whole {
    name: &'static str,
    file: &'static [u8],
}

static WHOLE: &[Whole] = &[
    Whole {
        name: "two bytes of text in the data segment",
        file: &TRAP,
    },
    Whole {
        name: "no text",
        file: &EMPTY,
    },
    Whole {
        name: "short header and one symbol",
        file: &SHORT,
    },
    Whole {
        name: "long header, relocations and one symbol",
        file: &LONG,
    },
];

#[test]
fn whole_files(rt: HostRuntime) {
    for row in WHOLE {
        let name = row.name;
        assert!(rt; is_read(rt.alloc(), row.file), "{name}");
    }
    one_program();
}

/// The fault of the first bytes of a file.
fn error_of_front(alloc: Global, file: &[u8], length: usize) -> Option<FileError> {
    read(alloc, file.get(..length)?).err()
}

#[test]
fn cuts_at_every_place(rt: HostRuntime) {
    for length in 0..60 {
        let error = error_of_front(rt.alloc(), &SHORT, length);
        assert!(rt; error == Some(FileError::Truncated), "{length}");
    }
}
