//! The roundtrip of a text: assembled, written, read, loaded and listed.

ghost use Rattle.std.specs.Prelude.{◌≡◌, ◌<◌, ◌^◌, length, string_bytes, IfOk, IfErr};
ghost use Rattle.mx_aout.specs.File.{FileIs};
ghost use Rattle.mx_load.specs.Load.{image_of_program};
ghost use Rattle.mx_dis.specs.Listing.{IsListing};
ghost use Rattle.mx_app_program.specs.Failure.{TellsWhy};
ghost use Rattle.mx_app_program.specs.Around.{GoesAround};

use crate::error::AroundError;
use crate::round_trip_laws::{code_keeps, listing_keeps};
use mx_aout::{FileError, Program, one_program, read, write};
use mx_asm::assemble;
use mx_dis::list;
use mx_exec::Image;
use mx_load::load;
use mx_word::{Bytes, NoMemory};
use std::alloc::Global;

/// The results of a text's roundtrip.
#[derive(Drop)]
pub struct Journey {
    /// The file of the text's program.
    pub file: Bytes,
    /// The image that the file's program begins with.
    pub image: Image,
    /// The listing of that program.
    pub listing: String,
}

/// Reads the file that was written of a program: it is that program again, unless memory runs out.
fn read_written(alloc: Global, file: &[u8], program: &Program) -> Result<Program, NoMemory>
    requires { FileIs file.now program.now }
    ensures { IfOk result (λ again. again ≡ program.now) }
{
    one_program();
    match read(alloc, file) {
        Ok(again) => Ok(again),
        Err(FileError::NoMemory) => Err(NoMemory),
        Err(_) => unreachable!(),
    }
}

/// Reads the file that was written of a program, and loads and lists what was read.
fn image_and_listing(
    alloc: Global,
    file: &[u8],
    program: &Program,
) -> Result<(Image, String), NoMemory>
    requires { FileIs file.now program.now }
    ensures image { IfOk result (λ made. made.0 ≡ image_of_program program.now) }
    ensures listing { IfOk result (λ made. IsListing 0 program.now.text (string_bytes made.1)) }
{
    let again = read_written(alloc, file, program)?;
    let image = load(alloc, &again)?;
    let listing = list(alloc, &again)?;
    Ok((image, listing))
}

/// No program's text is too long for an address of 32 bits.
fn text_is_short(program: &Program)
    ensures { length program.now.text < 2 ^ 32 }
{}

/// Assembles a text, writes its program, reads what was written, and loads and lists what was read.
pub fn around(alloc: Global, text: &str) -> Result<Journey, AroundError>
    ensures around { IfOk result (GoesAround text.now) }
    ensures fault { IfErr result (TellsWhy text.now) }
{
    let program = assemble(alloc, text)?;
    let file = write(alloc, &program)?;
    let (image, listing) = image_and_listing(alloc, file.as_slice(), &program)?;
    one_program();
    code_keeps();
    listing_keeps();
    text_is_short(&program);
    Ok(Journey {
        file: Bytes::from_vec(file),
        image,
        listing,
    })
}
