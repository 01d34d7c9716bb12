//! What a command prints.

ghost use Rattle.std.specs.Prelude.{[], ◌≤◌, IfErr, IfOk, MatchResult, OnOk, length, take};
ghost use Rattle.std.specs.Io.KnownBytes.{Appends};
ghost use Rattle.mx_app_failure.specs.Failure.{IsWanting, PrintsFront};

use crate::failure::{Failure, OutputProblem};
use std::io::{ErrorKind, Write};

/// Writes as many of these bytes as `out` takes at once. Answers how many: none, if a signal interrupts it.
fn write_some<W: Write>(bytes: &[u8], out: &mut W) -> Result<usize, Failure>
    ensures err { IfErr result IsWanting }
    ensures few { IfOk result (λ count. count ≤ length bytes.now) }
    ensures bytes { MatchResult result
        (λ count. Appends (W.contents out.old) (W.contents out.new) (take count bytes.now))
        (λ _. Appends (W.contents out.old) (W.contents out.new) []) }
{
    match out.write(bytes) {
        Ok(0) => Err(Failure::Output(OutputProblem::NoRoom)),
        Ok(count) => Ok(count),
        Err(error) => {
            if error.kind() == ErrorKind::Interrupted {
                return Ok(0);
            }
            Err(Failure::output(&error))
        }
    }
}

/// Writes the text to `out`. After an error a front of it is written.
fn write_text<W: Write>(text: &[u8], out: &mut W) -> Result<(), Failure>
    ensures err { IfErr result IsWanting }
    ensures front { IfErr result (λ _. PrintsFront
        (λ front. Appends (W.contents out.old) (W.contents out.new) front) text.now) }
    ensures bytes { OnOk result (Appends (W.contents out.old) (W.contents out.new) text.now) }
{
    let mut rest = text;
    for _ in 0..u64::MAX {
        if rest.is_empty() {
            return Ok(());
        }
        let count = write_some(rest, out)?;
        rest = &rest[count..];
    }
    Err(Failure::Output(OutputProblem::Other))
}

/// Writes the text to `out`, as to standard output, and flushes it. If it can't, answers
/// `Failure::Output` or `Failure::NoMemory`, and a front of the text is written.
pub fn print_text<W: Write>(text: &[u8], out: &mut W) -> Result<(), Failure>
    ensures err { IfErr result IsWanting }
    ensures front { IfErr result (λ _. PrintsFront
        (λ front. Appends (W.contents out.old) (W.contents out.new) front) text.now) }
    ensures bytes { OnOk result (Appends (W.contents out.old) (W.contents out.new) text.now) }
{
    write_text(text, out)?;
    match out.flush() {
        Ok(()) => Ok(()),
        Err(error) => Err(Failure::output(&error)),
    }
}
