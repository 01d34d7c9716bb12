//! What `mx one` prints: registers, flags, and why and when the program stopped.

ghost use Rattle.std.specs.Prelude.{◌≡◌, ℕ, IfErr, IfOk, List, OnOk, string_bytes};
ghost use Rattle.std.specs.Io.KnownBytes.{Appends};
ghost use Rattle.mx_aout.specs.File.{refusal_of};
ghost use Rattle.mx_app_failure.specs.Failure.{IsWanting, Tells};
ghost use Rattle.mx_app_program.specs.One.{IsPrinted, one_text};

use crate::first_steps::one;
use mx_app_failure::{About, Failure, print_text};
use mx_image::{Runs, Stop};
use mx_print_answers::{push_registers, push_stop};
use std::alloc::{AllocError, Global};
use std::fmt::Write as _;
use std::io::Write;

/// Makes at most `steps` steps from the image of a file's bytes, and prints the registers, the
/// flags and how the steps ended, four lines in lower-case hexadecimal.
pub fn print_one<W: Write>(
    alloc: Global,
    bytes: &[u8],
    steps: u32,
    out: &mut W,
) -> Result<(), Failure>
    ensures tells { Tells bytes.now (refusal_of bytes.now) result }
    ensures shown { OnOk result ((text : List ℕ) × IsPrinted bytes.now steps text
        × Appends (W.contents out.old) (W.contents out.new) text) }
{
    let (count, stop, image) = match one(alloc, bytes, steps) {
        Ok(made) => made,
        Err(error) => return Err(Failure::refused(error, bytes, About::Program)),
    };
    print_steps(alloc, count, stop, &image, out)
}

/// Prints an image, and how the steps to it ended.
fn print_steps<R: Runs, W: Write>(
    alloc: Global,
    count: u32,
    stop: Stop,
    image: &R,
    out: &mut W,
) -> Result<(), Failure>
    ensures err { IfErr result IsWanting }
    ensures bytes { OnOk result (Appends (W.contents out.old) (W.contents out.new)
        (one_text count stop (R.image image.now))) }
{
    // One text, so only one write may fail.
    let text = four_lines(alloc, count, stop, image)?;
    print_text(text.as_bytes(), out)
}

/// Registers, flags and stop.
fn four_lines<R: Runs>(
    alloc: Global,
    count: u32,
    stop: Stop,
    image: &R,
) -> Result<String, AllocError>
    ensures { IfOk result (λ text. string_bytes text ≡ one_text count stop (R.image image.now)) }
{
    let mut text = String::new(alloc);
    push_registers(&mut text, image)?;
    text.push_str("stop ")?;
    push_stop(&mut text, stop)?;
    write!(text, " after {count}\n")?;
    Ok(text)
}
