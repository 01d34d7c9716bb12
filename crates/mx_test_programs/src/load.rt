//! Images of a program, of both kinds: with a text of its own, and without.

use crate::bytes::has_bytes;
use mx_aout::{Program, read};
use mx_exec::Image;
use mx_image::Runs;
use mx_load::load;
use mx_word::Register;
use std::alloc::Global;

/// Two bytes of text, CD 21 (`int 0x21`), in the data segment, four of data, eight of bss, entry 1 and
/// a total of 256.
const FILE: [u8; 38] = [
    0x01, 0x03, 0x10, 0x10, 0x20, 0, 0, 0, 2, 0, 0, 0, 4, 0, 0, 0, 8, 0, 0, 0, 1, 0, 0, 0, 0, 1, 0,
    0, 0, 0, 0, 0, 0xCD, 0x21, 1, 2, 3, 4,
];

/// The file's flags: it can be executed, and its text has a segment of its own.
const A_EXEC: u8 = 0x10;

const A_SEP: u8 = 0x20;

/// That file with these flags, and some bytes of what is loaded.
struct Loaded {
    name: &'static str,
    flags: u8,
    /// Addresses in the data segment and their bytes.
    bytes: &'static [(u32, u8)],
}

static LOADED: &[Loaded] = &[
    Loaded {
        name: "the text in the data segment: int 0x21, and then the data",
        flags: A_EXEC,
        bytes: &[(0, 0xCD), (1, 0x21), (2, 1), (5, 4), (6, 0), (4095, 0)],
    },
    Loaded {
        name: "the text in a segment of its own: the data alone",
        flags: A_EXEC + A_SEP,
        bytes: &[(0, 1), (3, 4), (4, 0), (4095, 0)],
    },
];

fn is_image(image: &Image, bytes: &[(u32, u8)]) -> bool {
    (image.eip, image.reg(Register::Esp)) == (1, 0x1000)
        && image.byte(4096) == None
        && has_bytes(image, bytes)
}

fn has_image(alloc: Global, program: &Program, bytes: &[(u32, u8)]) -> bool {
    match load(alloc, program) {
        Ok(image) => is_image(&image, bytes),
        Err(_) => false,
    }
}

fn is_loaded(alloc: Global, row: &Loaded) -> bool {
    let mut file = FILE;
    file[2] = row.flags;
    match read(alloc, &file) {
        Ok(program) => has_image(alloc, &program, row.bytes),
        Err(_) => false,
    }
}

#[test]
fn loads_text_and_data(rt: HostRuntime) {
    for row in LOADED {
        let name = row.name;
        assert!(rt; is_loaded(rt.alloc(), row), "{name}");
    }
}
