//! Subcommands by the names of their files.

ghost use Rattle.std.specs.Prelude.{◌≡◌, ◌++◌, ◌∷◌, [], IfErr, IfOk, List};
ghost use Rattle.std.specs.Io.KnownBytes.{Appends};
ghost use Rattle.std.specs.declared.io.ErrorKind.{ErrorKind};
ghost use Rattle.mx_app_db.specs.Asked.{Asked, file_given, file_missed};
ghost use Rattle.mx_app_db.specs.Written.{Written};
ghost use Rattle.mx_app_failure.specs.Failure.{failure_if, problem_of_reading};
ghost use Rattle.mx_app_program.specs.One.{IsPrinted};
ghost use Rattle.mx_app_program.specs.Shown.{IsListingOf, IsShown};
ghost use Rattle.mx_app.specs.Named.{Assembles, ShowsFile};

use mx_app_command::Listing;
use mx_app_failure::{About, Failure};
use mx_app_program::{assemble_file, print_listing, print_one};
use mx_app_start::{FileWriter, Reader};
use std::alloc::Global;
use std::io::Write;

/// The bytes of the program's file that a command reads.
fn program_of<R: Reader>(alloc: Global, reader: &mut R, file: &str) -> Result<Vec<u8>, Failure>
    ensures given { IfOk result (λ bytes. R.asked reader.new
        ≡ R.asked reader.old ++ file_given file.now bytes.items ∷ []) }
    ensures missed { IfErr result (λ f. (kind : ErrorKind)
        × (R.asked reader.new ≡ R.asked reader.old ++ file_missed file.now kind ∷ [])
        × (f ≡ failure_if (problem_of_reading kind) About.Program)) }
{
    match reader.read_program(alloc, file) {
        Ok(bytes) => Ok(bytes),
        Err(error) => Err(Failure::unread(&error, About::Program)),
    }
}

/// Reads a file, makes at most `steps` steps from its image, and prints the registers, the flags and how
/// the steps ended.
pub fn one_named<R: Reader, W: Write>(
    alloc: Global,
    reader: &mut R,
    file: &str,
    steps: u32,
    out: &mut W,
) -> Result<(), Failure>
    ensures { (q : Asked) × (R.asked reader.new ≡ R.asked reader.old ++ q ∷ [])
        × ShowsFile (λ bytes text. IsPrinted bytes steps text) file.now q
        (λ text. Appends (W.contents out.old) (W.contents out.new) text) result }
{
    let bytes = program_of(alloc, reader, file)?;
    print_one(alloc, bytes.as_slice(), steps, out)
}

/// Reads a text, assembles it, and writes the program's file.
pub fn as_named<R: Reader, F: FileWriter>(
    alloc: Global,
    reader: &mut R,
    files: &mut F,
    text: &str,
    file: &str,
) -> Result<(), Failure>
    ensures { (qs : List Asked) × (ws : List Written)
        × (R.asked reader.new ≡ R.asked reader.old ++ qs)
        × (F.written files.new ≡ F.written files.old ++ ws)
        × Assembles text.now file.now qs ws result }
{
    let source = match reader.read(alloc, text) {
        Ok(source) => source,
        Err(error) => return Err(Failure::unread(&error, About::Source)),
    };
    let program = assemble_file(alloc, source)?;
    match files.write(alloc, file, program.as_slice()) {
        Ok(()) => Ok(()),
        Err(error) => Err(Failure::unwritten(&error)),
    }
}

/// Reads a file, and prints a listing of its program.
pub fn listing_named<R: Reader, W: Write>(
    alloc: Global,
    reader: &mut R,
    file: &str,
    listing: Listing,
    out: &mut W,
) -> Result<(), Failure>
    ensures { (q : Asked) × (R.asked reader.new ≡ R.asked reader.old ++ q ∷ [])
        × ShowsFile (λ bytes text. IsShown (IsListingOf listing) bytes text) file.now q
        (λ text. Appends (W.contents out.old) (W.contents out.new) text) result }
{
    let bytes = program_of(alloc, reader, file)?;
    print_listing(alloc, bytes.as_slice(), listing, out)
}
