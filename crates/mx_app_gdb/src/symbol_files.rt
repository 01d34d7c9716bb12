//! The names of the files that gdb reads symbols from.

ghost use Rattle.std.specs.Prelude.{◌≡◌, ◌≤◌, IfOk, length, map};
ghost use Rattle.mx_app_gdb.specs.SymbolFiles.{folder_length, stem, symbol_file};
ghost use Rattle.mx_app_gdb.specs.Talks.{file_names};

use mx_machine::ServiceLine;
use std::alloc::{AllocError, Global};

/// How many bytes of a file's name its folder has, with the stroke after it.
fn folder_length(file: &[u8]) -> usize
    ensures length { result ≡ folder_length file.now }
    ensures inside { result ≤ length file.now }
{
    let mut cut = 0;
    for place in 0..file.len() {
        if file[place] == b'/' {
            cut = place + 1;
        }
    }
    cut
}

/// A file's name without the end `.out`.
fn stem(file: &[u8]) -> &[u8]
    ensures { result.now ≡ stem file.now }
{
    match file.strip_suffix(b".out") {
        Some(stem) => stem,
        None => file,
    }
}

/// The file that gdb reads the symbols of a program from: beside the program's file, `out/NAME.gdb`.
fn symbol_file(alloc: Global, file: &[u8]) -> Result<Vec<u8>, AllocError>
    ensures { IfOk result (λ name. name.items ≡ symbol_file file.now) }
{
    let cut = folder_length(file);
    let mut name = Vec::new(alloc);
    name.extend_from_slice(&file[..cut])?;
    name.extend_from_slice(b"out/")?;
    name.extend_from_slice(stem(&file[cut..]))?;
    name.extend_from_slice(b".gdb")?;
    Ok(name)
}

/// Those of all services.
pub(crate) fn symbol_files(alloc: Global, lines: &[ServiceLine]) -> Result<Vec<Vec<u8>>, AllocError>
    ensures { IfOk result (λ files. map (λ f. f.items) files.items ≡ file_names lines.now) }
{
    let mut files = Vec::new(alloc);
    for line in lines {
        files.push(symbol_file(alloc, line.file.as_str().as_bytes())?)?;
    }
    Ok(files)
}
