//! Texts that go the whole way: assembled, written, read, loaded and listed.

use crate::aout::SHORT;
use crate::bytes::has_bytes;
use mx_app_program::{Journey, around};
use std::alloc::Global;

/// A text, its listing, some bytes of its image, and its file, if the row has it.
struct Row {
    name: &'static str,
    text: &'static str,
    listing: &'static str,
    /// Places of the image, and the bytes at them.
    bytes: &'static [(u32, u8)],
    file: Option<&'static [u8]>,
}

/// The file that the machines of other tests run as their driver.
const DRIVER: [u8; 135] = [
    1, 3, 0x30, 0x10, 0x20, 0, 0, 0, // magic, flags, processor, header of 32 bytes
    0x23, 0, 0, 0, 0x24, 0, 0, 0, 0, 0, 0, 0, // text, data, bss
    0, 0, 0, 0, 0, 0x10, 0, 0, 0x20, 0, 0, 0, // entry, total, symbols
    0xB9, 2, 0, 0, 0, // mov ecx, 0x2
    0xB8, 0xCE, 0x7A, 0, 0, // mov eax, 0x7ace
    0xBB, 0, 0, 0, 0, // mov ebx, 0x0
    0xCD, 0x21, // int 0x21
    0x8B, 5, 0, 0, 0, 0, // mov eax, dword [0x0]
    0xB9, 1, 0, 0, 0, // mov ecx, 0x1
    0xCD, 0x21, // int 0x21
    0xE9, 0xDD, 0xFF, 0xFF, 0xFF, // jmp 0x0
    0, 0, 0, 0, 0, 0, 0, 0, 0, 0, 0, 0, 0, 0, 0, 0, 0, 0, 0, 0, 0, 0, 0, 0, 0, 0, 0, 0, 0, 0, 0, 0,
    0, 0, 0, 0, // data
    b'b', b'u', b'f', 0, 0, 0, 0, 0, 0, 0, 0, 0, 3, 0, 0, 0, // a symbol
    b't', b'o', b'p', 0, 0, 0, 0, 0, 0, 0, 0, 0, 2, 0, 0, 0, // a symbol
];

/// And as their client.
const CLIENT: [u8; 123] = [
    1, 3, 0x30, 0x10, 0x20, 0, 0, 0, // magic, flags, processor, header of 32 bytes
    0x27, 0, 0, 0, 0x24, 0, 0, 0, 0, 0, 0, 0, // text, data, bss
    0, 0, 0, 0, 0, 0x10, 0, 0, 0x10, 0, 0, 0, // entry, total, symbols
    0xB9, 3, 0, 0, 0, // mov ecx, 0x3
    0xB8, 0, 0, 0, 0, // mov eax, 0x0
    0xBB, 0, 0, 0, 0, // mov ebx, 0x0
    0xCD, 0x21, // int 0x21
    0xC7, 5, 4, 0, 0, 0, 0, 6, 0, 0, // mov dword [0x4], 0x600
    0xB9, 3, 0, 0, 0, // mov ecx, 0x3
    0xB8, 0xFE, 0xFF, 0xFF, 0xFF, // mov eax, 0xfffffffe
    0xCD, 0x21, // int 0x21
    0, 0, 0, 0, 0, 0, 0, 0, 0, 0, 0, 0, 0, 0, 0, 0, 0, 0, 0, 0, 0, 0, 0, 0, 0, 0, 0, 0, 0, 0, 0, 0,
    0, 0, 0, 0, // data
    b'b', b'u', b'f', 0, 0, 0, 0, 0, 0, 0, 0, 0, 3, 0, 0, 0, // a symbol
];

static ROWS: &[Row] = &[
    Row {
        name: "bit tests, bit scans and double shifts, as the listing spells them",
        text: "bt ecx, 0x0\n\
               bt dword [eax+esi*4+0x8], 0x5\n\
               bt edx, ebx\n\
               bts ecx, 0x1f\n\
               bts dword [eax+esi*4+0x8], 0x5\n\
               bts edx, ebx\n\
               btr ecx, 0x20\n\
               btr dword [eax+esi*4+0x8], 0x5\n\
               btr edx, ebx\n\
               btc ecx, 0xff\n\
               btc dword [eax+esi*4+0x8], 0x5\n\
               btc edx, ebx\n\
               bsf eax, ecx\n\
               bsf edi, dword [0x1000]\n\
               bsr eax, ecx\n\
               bsr edi, dword [0x1000]\n\
               shld eax, ecx, 0x4\n\
               shld dword [ebp], esi, 0xff\n\
               shld eax, ecx, cl\n\
               shld dword [esp], ebx, cl\n\
               shrd eax, ecx, 0x4\n\
               shrd dword [ebp], esi, 0xff\n\
               shrd eax, ecx, cl\n\
               shrd dword [esp], ebx, cl\n",
        listing: "00000000 bt ecx, 0x0\n\
                  00000004 bt dword [eax+esi*4+0x8], 0x5\n\
                  0000000a bt edx, ebx\n\
                  0000000d bts ecx, 0x1f\n\
                  00000011 bts dword [eax+esi*4+0x8], 0x5\n\
                  00000017 bts edx, ebx\n\
                  0000001a btr ecx, 0x20\n\
                  0000001e btr dword [eax+esi*4+0x8], 0x5\n\
                  00000024 btr edx, ebx\n\
                  00000027 btc ecx, 0xff\n\
                  0000002b btc dword [eax+esi*4+0x8], 0x5\n\
                  00000031 btc edx, ebx\n\
                  00000034 bsf eax, ecx\n\
                  00000037 bsf edi, dword [0x1000]\n\
                  0000003e bsr eax, ecx\n\
                  00000041 bsr edi, dword [0x1000]\n\
                  00000048 shld eax, ecx, 0x4\n\
                  0000004c shld dword [ebp], esi, 0xff\n\
                  00000051 shld eax, ecx, cl\n\
                  00000054 shld dword [esp], ebx, cl\n\
                  00000058 shrd eax, ecx, 0x4\n\
                  0000005c shrd dword [ebp], esi, 0xff\n\
                  00000061 shrd eax, ecx, cl\n\
                  00000064 shrd dword [esp], ebx, cl\n",
        bytes: &[(0, 0x0F), (1, 0xBA), (2, 0xE1), (3, 0)], // bt ecx, 0x0
        file: None,
    },
    Row {
        name: "bit tests, a bit scan and a double shift with a label and other spellings of numbers",
        text: "shld eax, ecx, 4\nl: bt eax, 33\nbtc dword [l], -1\nbsr ecx, [l]\n",
        listing: "00000000 shld eax, ecx, 0x4\n00000004 bt eax, 0x21\n00000008 btc dword [0x4], 0xff\n\
                  00000010 bsr ecx, dword [0x4]\n",
        bytes: &[(0, 0x0F), (1, 0xA4), (2, 0xC8), (3, 0x04)], // shld eax, ecx, 0x4
        file: None,
    },
    Row {
        name: "short program with a text of its own",
        text: ".sep\n.text\nstart: mov eax, 5\nadd eax, 0x7b\nloop start\nint 33\n",
        listing: "00000000 mov eax, 0x5\n00000005 add eax, 0x7b\n00000008 loop 0x0\n\
                  0000000a int 0x21\n",
        bytes: &[(0, 0)],
        file: Some(&SHORT),
    },
    Row {
        name: "text in the data segment, and data that holds a label",
        text: "push eax\nx: int 33\n.data\n.data4 x\n",
        listing: "00000000 push eax\n00000001 int 0x21\n",
        bytes: &[(1, 0xCD), (3, 1)], // int, and the label in the data
        file: None,
    },
    Row {
        name: "driver of other tests",
        text: ".sep\n.data\nbuf: .space 36\n.text\n\
               top: mov ecx, 2\nmov eax, 31438\nmov ebx, buf\nint 33\n\
               mov eax, [buf]\nmov ecx, 1\nint 33\njmp top\n",
        listing: "00000000 mov ecx, 0x2\n00000005 mov eax, 0x7ace\n0000000a mov ebx, 0x0\n\
                  0000000f int 0x21\n00000011 mov eax, dword [0x0]\n00000017 mov ecx, 0x1\n\
                  0000001c int 0x21\n0000001e jmp 0x0\n",
        bytes: &[(0, 0)],
        file: Some(&DRIVER),
    },
    Row {
        name: "client of other tests",
        text: ".sep\n.data\nbuf: .space 36\n.text\n\
               mov ecx, 3\nmov eax, 0\nmov ebx, buf\nint 33\n\
               mov dword [buf+4], 0x600\nmov ecx, 3\nmov eax, -2\nint 33\n",
        listing: "00000000 mov ecx, 0x3\n00000005 mov eax, 0x0\n0000000a mov ebx, 0x0\n\
                  0000000f int 0x21\n00000011 mov dword [0x4], 0x600\n0000001b mov ecx, 0x3\n\
                  00000020 mov eax, 0xfffffffe\n00000025 int 0x21\n",
        bytes: &[(0, 0)],
        file: Some(&CLIENT),
    },
];

fn has_file(found: &Journey, row: &Row) -> bool {
    match row.file {
        Some(file) => found.file.as_slice() == file,
        None => true,
    }
}

fn is_gone_around(found: &Journey, row: &Row) -> bool {
    found.listing.as_str() == row.listing
        && has_bytes(&found.image, row.bytes)
        && has_file(found, row)
}

fn goes_around(alloc: Global, row: &Row) -> bool {
    match around(alloc, row.text) {
        Ok(found) => is_gone_around(&found, row),
        Err(_) => false,
    }
}

#[test]
fn texts_go_around(rt: HostRuntime) {
    for row in ROWS {
        let name = row.name;
        assert!(rt; goes_around(rt.alloc(), row), "{name}");
    }
    assert!(rt; around(rt.alloc(), "jmp nowhere").is_err());
}
