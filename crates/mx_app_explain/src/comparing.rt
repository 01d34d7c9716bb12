//! A machine's sums, compared with a text of sums.

ghost use Rattle.std.specs.Prelude.{◌≡◌, IfOk, List, None, option_map, ℕ};
ghost use Rattle.mx_app_explain.specs.Sums.{after_line, first_other, sum_line, sums_text};
ghost use Rattle.mx_app_explain.specs.declared.sums.PartSum.{PartSum};

use crate::sums::{MachinePart, PartSum, push_sum_line};
use std::alloc::{AllocError, Global};

/// A text after a part's line. None if it doesn't begin with this line.
fn after_line<'a>(
    alloc: Global,
    sum: &PartSum,
    text: &'a [u8],
) -> Result<Option<&'a [u8]>, AllocError>
    ensures { IfOk result (λ rest. option_map (λ r. r.now) rest
        ≡ after_line (sum_line sum.now) text.entry.now) }
{
    let mut line = Vec::new(alloc);
    push_sum_line(alloc, &mut line, sum)?;
    Ok(text.strip_prefix(line.as_slice()))
}

/// The first part of a machine whose line a text of sums hasn't at its place; the configuration, if the text
/// has more lines than the machine has parts. None if the text is that of these sums.
pub fn first_other(
    alloc: Global,
    sums: &[PartSum],
    text: &[u8],
) -> Result<Option<MachinePart>, AllocError>
    ensures { IfOk result (λ other. other ≡ first_other sums.now text.now) }
{
    let mut rest = text;
    for sum in sums {
        match after_line(alloc, sum, rest)? {
            Some(more) => rest = more,
            None => return Ok(Some(sum.part)),
        }
    }
    if rest.is_empty() {
        Ok(None)
    } else {
        Ok(Some(MachinePart::Configuration))
    }
}

/// Law: a machine passes by its own sums, which is the text that is written of them.
pub fn own_sums_pass()
    ensures { (sums : List PartSum) → first_other sums (sums_text sums) ≡ None }
{}

/// Law: a machine that passes by a text has the sums of this text.
pub fn passed_sums_are_own()
    ensures { (sums : List PartSum) (text : List ℕ) → first_other sums text ≡ None
        → text ≡ sums_text sums }
{}
