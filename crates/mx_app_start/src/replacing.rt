//! How a file is replaced.

use std::alloc::{AllocError, Global};
use std::fs::Permissions;
use std::io::Write;
use std::rt::Files;
use std::{fs, io};

/// Where a file's new bytes go.
#[derive(Drop)]
enum Destination {
    /// Into a new file in the same folder, with the permissions of the regular file, if there is one.
    Part(Option<Permissions>),
    /// Into the file itself: a device, a pipe, what a link leads to.
    Itself,
}

/// Where the new bytes of the file that has a name go.
fn destination_of(rt: &impl Files, name: &str) -> Destination {
    match fs::symlink_metadata(rt, name) {
        Ok(metadata) => {
            if metadata.is_file() {
                Destination::Part(Some(metadata.permissions()))
            } else {
                Destination::Itself
            }
        }
        Err(error) => match error.kind() {
            io::ErrorKind::NotFound => Destination::Part(None),
            _ => Destination::Itself,
        },
    }
}

/// The name for bytes that aren't whole yet: the file's own, with `.part`.
fn part_name(alloc: Global, name: &str) -> Result<String, AllocError> {
    format!(in alloc; "{name}.part")
}

/// The name that a file has while it isn't whole, and its own.
#[derive(Clone, Copy)]
struct Names<'a> {
    part: &'a str,
    whole: &'a str,
}

/// Fills a new file with bytes and gives it permissions and its name.
fn fill_and_rename<R: Files>(
    rt: &R,
    mut file: R::File,
    names: Names<'_>,
    permissions: Option<Permissions>,
    bytes: &[u8],
) -> io::Result<()> {
    file.write_all(bytes)?;
    if let Some(permissions) = permissions {
        fs::set_permissions(rt, names.part, permissions)?;
    }
    fs::rename(rt, names.part, names.whole)
}

/// Writes bytes to the file that has a name, in place of what it had. If the file is regular or new and a
/// file of the name `NAME.part` can be made, it is written there first and then renamed, so no half of it is
/// ever seen; a file that is at `NAME.part` already isn't touched. Any other file is written in place.
pub(crate) fn replace_file<R: Files>(
    rt: &R,
    alloc: Global,
    name: &str,
    bytes: &[u8],
) -> io::Result<()> {
    let Destination::Part(permissions) = destination_of(rt, name) else {
        return fs::write(rt, name, bytes);
    };
    let Ok(part) = part_name(alloc, name) else {
        return Err(io::Error::from(io::ErrorKind::OutOfMemory));
    };
    // A file of that name may be somebody's, so it isn't taken.
    let Ok(file) = fs::File::create_new(rt, part.as_str()) else {
        return fs::write(rt, name, bytes);
    };
    let names = Names {
        part: part.as_str(),
        whole: name,
    };
    let done = fill_and_rename(rt, file, names, permissions, bytes);
    if done.is_err() {
        let _ = fs::remove_file(rt, names.part);
    }
    done
}
