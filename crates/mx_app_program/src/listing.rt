//! The listings of a program's file: its instructions, as `mx dis` prints them, and its symbols, as `mx nm` does.

ghost use Rattle.std.specs.Prelude.{ℕ, IfOk, List, OnOk, string_bytes};
ghost use Rattle.std.specs.Io.KnownBytes.{Appends};
ghost use Rattle.mx_aout.specs.File.{refusal_of};
ghost use Rattle.mx_app_failure.specs.Failure.{Tells};
ghost use Rattle.mx_app_program.specs.Shown.{IsListingOf, IsShown, Shows};

use mx_aout::{FileError, Program, read};
use mx_app_command::Listing;
use mx_app_failure::{About, Failure, print_text};
use mx_dis::{list, names};
use mx_word::NoMemory;
use std::alloc::Global;
use std::io::Write;

/// A listing of a program.
fn text_of(alloc: Global, program: &Program, listing: Listing) -> Result<String, NoMemory>
    ensures { IfOk result (λ text. IsListingOf listing program.now (string_bytes text)) }
{
    match listing {
        Listing::Instructions => list(alloc, program),
        Listing::Symbols => names(alloc, program),
    }
}

/// A listing of a file's program.
fn listing_of(alloc: Global, bytes: &[u8], listing: Listing) -> Result<String, FileError>
    ensures { Shows (λ text. string_bytes text)
        (IsListingOf listing) (refusal_of bytes.now) bytes.now result }
{
    let program = read(alloc, bytes)?;
    Ok(text_of(alloc, &program, listing)?)
}

/// Prints a listing of a file's program.
pub fn print_listing<W: Write>(
    alloc: Global,
    bytes: &[u8],
    listing: Listing,
    out: &mut W,
) -> Result<(), Failure>
    ensures tells { Tells bytes.now (refusal_of bytes.now) result }
    ensures shown { OnOk result ((text : List ℕ) × IsShown (IsListingOf listing) bytes.now text
        × Appends (W.contents out.old) (W.contents out.new) text) }
{
    let text = match listing_of(alloc, bytes, listing) {
        Ok(text) => text,
        Err(error) => return Err(Failure::refused(error, bytes, About::Program)),
    };
    print_text(text.as_bytes(), out)
}
