//! Lines of listings: of a program's instructions and of its symbols.

use mx_aout::{Program, read};
use mx_dis::{list, names};
use mx_word::NoMemory;
use std::alloc::Global;
use std::test::Fail;

/// A file's text and symbols, and the listings of both.
struct Row {
    name: &'static str,
    text: &'static [u8],
    symbols: &'static [u8],
    listing: &'static str,
    symbol_listing: &'static str,
}

const ROW: Row = Row {
    name: "",
    text: b"",
    symbols: b"",
    listing: "",
    symbol_listing: "",
};

static ROWS: &[Row] = &[
    Row {
        name: "a byte that begins no instruction, then inc eax",
        text: b"\xD6\x40",
        listing: "00000000 .data1 0xd6\n00000001 inc eax\n",
        ..ROW
    },
    Row {
        name: "mov eax, 0x5 without its last bytes",
        text: b"\xB8\x05",
        listing: "00000000 .data1 0xb8\n00000001 .data1 0x5\n",
        ..ROW
    },
    Row {
        name: "rep movsw",
        text: b"\x66\xF3\xA5",
        listing: "00000000 rep movsw\n",
        ..ROW
    },
    Row {
        name: "mov eax, dword [0x10] with a SIB byte",
        text: b"\x8B\x04\x25\x10\x00\x00\x00",
        listing: "00000000 mov eax, dword [0x10]\n",
        ..ROW
    },
    Row {
        name: "mov eax, 0x5; add eax, 0x7b; loop 0x0; int 0x21",
        text: b"\xB8\x05\x00\x00\x00\x83\xC0\x7B\xE2\xF6\xCD\x21",
        listing: "00000000 mov eax, 0x5\n00000005 add eax, 0x7b\n00000008 loop 0x0\n\
                  0000000a int 0x21\n",
        ..ROW
    },
    Row {
        name: "symbols of the text and of an unknown class",
        symbols: b"start\0\0\0\0\0\0\0\x02\0\0\0a \0bcdef\x78\x56\x34\x12\x1d\0\0\0",
        symbol_listing: "00000000 T start\n12345678 ? a.\n",
        ..ROW
    },
];

/// A file that holds these bytes of text and of symbols.
fn file_of(alloc: Global, text: &[u8], symbols: &[u8]) -> Result<Vec<u8>, Fail> {
    let mut file = Vec::from_slice(alloc, &[1, 3, 0x30, 0x10, 32, 0, 0, 0])?;
    for size in [text.len(), 0, 0, 0, 4096, symbols.len()] {
        let size = u32::try_from(size)?;
        file.extend_from_slice(&size.to_le_bytes())?;
    }
    file.extend_from_slice(text)?;
    file.extend_from_slice(symbols)?;
    Ok(file)
}

fn is_text(listed: Result<String, NoMemory>, wanted: &str) -> bool {
    match listed {
        Ok(text) => text.as_str() == wanted,
        Err(_) => false,
    }
}

fn are_told(alloc: Global, program: &Program, row: &Row) -> bool {
    is_text(list(alloc, program), row.listing) && is_text(names(alloc, program), row.symbol_listing)
}

fn are_listed(alloc: Global, file: &[u8], row: &Row) -> bool {
    match read(alloc, file) {
        Ok(program) => are_told(alloc, &program, row),
        Err(_) => false,
    }
}

#[test]
fn listings(rt: HostRuntime) -> Result<(), Fail> {
    for row in ROWS {
        let name = row.name;
        let file = file_of(rt.alloc(), row.text, row.symbols)?;
        assert!(rt; are_listed(rt.alloc(), file.as_slice(), row), "{name}");
    }
    Ok(())
}

fn is_long(alloc: Global, program: &Program) -> bool {
    match list(alloc, program) {
        Ok(listing) => {
            listing.len() == 0x10000 * 13 && listing.as_str().ends_with("0000ffff nop\n")
        }
        Err(_) => false,
    }
}

fn is_long_listed(alloc: Global, file: &[u8]) -> bool {
    match read(alloc, file) {
        Ok(program) => is_long(alloc, &program),
        Err(_) => false,
    }
}

#[test]
fn long_listing(rt: HostRuntime) -> Result<(), Fail> {
    let text = vec![in rt.alloc(); 0x90; 0x10000]?;
    let file = file_of(rt.alloc(), text.as_slice(), &[])?;
    assert!(rt; is_long_listed(rt.alloc(), file.as_slice()));
    Ok(())
}
