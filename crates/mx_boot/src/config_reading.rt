//! Reads a configuration's text, line by line, up to its first fault.

ghost use Rattle.std.specs.Prelude.{◌≡◌, ◌≤◌, ◌+◌, length, IfOk, IfErr};
ghost use Rattle.mx_text.specs.Lines.{lines, last_line};
ghost use Rattle.mx_boot.specs.Above.{nothing_above};
ghost use Rattle.mx_boot.specs.Lines.{AreItemsTaken, IsConfig, IsFirstItemWrong, TellsConfigFault};

use crate::draft::Draft;
use mx_machine::Config;
use mx_text::{BootError, next_line};
use std::alloc::Global;

/// What the lines of a text set, and the number of the last one. Takes no memory.
fn read_lines(text: &[u8]) -> Result<(Draft<'_>, usize), BootError>
    ensures taken { IfOk result (λ p. AreItemsTaken nothing_above 1 (lines text.now) p.0) }
    ensures last { IfOk result (λ p. p.1 ≡ last_line (lines text.now)) }
    ensures wrong { IfErr result (IsFirstItemWrong nothing_above 1 (lines text.now)) }
{
    let mut draft = Draft::new();
    let mut rest = text;
    let mut number = 0;
    while let Some((line, more)) = next_line(rest) {
        draft.take_line(line, number + 1)?;
        number += 1;
        rest = more;
    }
    Ok((draft, if number == 0 { 1 } else { number }))
}

/// The configuration that a text is, or the first line at fault. Takes memory only for what it
/// answers, once no line is at fault: so a line at fault is reported whatever memory there is.
#[tactic(auto, using(crate::proofs::Taking::told_last))]
pub fn config(alloc: Global, text: &str) -> Result<Config, BootError>
    ensures config { IfOk result (IsConfig text.now) }
    ensures fault { IfErr result (TellsConfigFault text.now) }
{
    let (draft, last) = read_lines(text.as_bytes())?;
    draft.into_config(alloc, last)
}
