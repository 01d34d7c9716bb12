//! `mx one`: the first steps of a program's file.

ghost use Rattle.std.specs.Prelude.{◌≡◌, IfOk};
ghost use Rattle.mx_aout.specs.File.{refusal_of};
ghost use Rattle.mx_image.specs.Run.{run_of};
ghost use Rattle.mx_app_program.specs.One.{Answers};

use mx_aout::{FileError, Program, read};
use mx_exec::Image;
use mx_exec_cache::Cache;
use mx_image::{Stop, run_by_text, run_with};
use mx_load::load;
use mx_word::NoMemory;
use std::alloc::Global;

/// Makes at most `steps` steps of a program's image: with the cache of its text, or with one that it makes for code
/// in the data segment. Answers how many it made, and how they ended.
fn run_cached(
    alloc: Global,
    image: &mut Image,
    program: &Program,
    steps: u32,
) -> Result<(u32, Stop), NoMemory>
    ensures { IfOk result (λ made. run_of steps image.old
        ≡ record { count = made.0; stop = made.1; image = image.new }) }
{
    if program.sep {
        return Ok(run_by_text(image, steps));
    }
    let mut cache = Cache::new(alloc, program.text.as_slice().len())?;
    Ok(run_with(image, &mut cache, steps))
}

/// Makes at most `steps` steps from the image of a file. Answers how many it made, how they ended
/// and the image after them, or the file's refusal. A fault of the program is no refusal.
pub fn one(alloc: Global, bytes: &[u8], steps: u32) -> Result<(u32, Stop, Image), FileError>
    ensures { Answers (refusal_of bytes.now) bytes.now steps result }
{
    let program = read(alloc, bytes)?;
    let mut image = load(alloc, &program)?;
    let made = run_cached(alloc, &mut image, &program, steps)?;
    Ok((made.0, made.1, image))
}
