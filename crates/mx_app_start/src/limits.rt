//! How much of a file is read.

ghost use Rattle.std.specs.Prelude.{◌≤◌, ◌*◌, IfOk, length};

use mx_aout::length_asked;
use std::io::Read;
use std::rt::Files;
use std::{fs, io};

/// The most bytes that a text may have: 64 MiB.
const LONGEST_TEXT: u64 = 64 * 1024 * 1024;

/// The longest header of a program's file.
const LONGEST_HEADER: u64 = 48;

/// How many first bytes of a file say what it holds.
const FRONT: u64 = 128;

/// Reads at most `most` more bytes of a file, and appends them.
fn read_more<F: Read + Drop>(file: F, most: u64, bytes: &mut Vec<u8>) -> io::Result<F> {
    let mut front = file.take(most);
    front.read_to_end(bytes)?;
    Ok(front.into_inner())
}

/// The bytes of a text's file. One that is too long is the error `FileTooLarge`, and isn't read to its end.
pub(crate) fn read_text<R: Files + AllocGlobal>(rt: &R, name: &str) -> io::Result<Vec<u8>>
    ensures { IfOk result (λ bytes. length bytes.items ≤ 64 * 1024 * 1024) }
{
    let file = fs::open(rt, name)?;
    let mut bytes = Vec::new(rt.alloc());
    // One byte more than is allowed says that there is more, of a file without an end too.
    read_more(file, LONGEST_TEXT + 1, &mut bytes)?;
    if bytes.len() as u64 > LONGEST_TEXT {
        return Err(io::Error::from(io::ErrorKind::FileTooLarge));
    }
    Ok(bytes)
}

/// The first bytes of a program's file: as many as its header asks for, or all if it has fewer.
pub(crate) fn read_program<R: Files + AllocGlobal>(rt: &R, name: &str) -> io::Result<Vec<u8>> {
    let file = fs::open(rt, name)?;
    let mut bytes = Vec::new(rt.alloc());
    let file = read_more(file, LONGEST_HEADER, &mut bytes)?;
    // What follows doesn't matter, however long it is.
    let asked = length_asked(bytes.as_slice());
    read_more(file, asked.saturating_sub(LONGEST_HEADER), &mut bytes)?;
    Ok(bytes)
}

/// Whether a name is that of a regular file, or leads to one.
fn is_regular(rt: &impl Files, name: &str) -> bool {
    match fs::metadata(rt, name) {
        Ok(metadata) => metadata.is_file(),
        Err(_) => false,
    }
}

/// The first bytes of a regular file. Nothing else is opened: to open a pipe waits for who writes to it.
pub(crate) fn read_front<R: Files + AllocGlobal>(rt: &R, name: &str) -> io::Result<Vec<u8>> {
    let mut bytes = Vec::new(rt.alloc());
    if is_regular(rt, name) {
        read_more(fs::open(rt, name)?, FRONT, &mut bytes)?;
    }
    Ok(bytes)
}
