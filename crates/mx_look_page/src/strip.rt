//! The lines of ranges of positions that were swept, below the rows, and the last line of a page that has them.

ghost use Rattle.std.specs.Prelude.{◌≡◌, ◌++◌, OnOk};
ghost use Rattle.mx_look_page.specs.Strips.{end_part, range_text, strip_of, strip_part, strip_tail_text};

use crate::head::{push_counted_member, push_text_member};
use crate::json::push_text;
use mx_print_report::push_decimal;
use std::alloc::AllocError;

/// What a page says of a sweep as a whole.
#[derive(Clone, Copy)]
pub struct StripTerms<'a> {
    /// The name of the fault's file.
    pub fault: &'a [u8],
    /// The most turns after each position.
    pub turns: u32,
    /// The first position, and how many there are.
    pub from: u32,
    pub positions: u32,
}

/// Appends how a range ends, if otherwise than the one before.
#[tactic(auto, unfolding(crate::specs::Strips::end_part))]
fn push_end(out: &mut Vec<u8>, before: &[u8], end: &[u8]) -> Result<(), AllocError>
    ensures { OnOk result (out.new.items ≡ out.old.items ++ end_part before.now end.now) }
{
    if before == end {
        return Ok(());
    }
    push_text_member(out, b"t", end)
}

/// Appends the line of a range of positions in a row that end alike: whether they end as without the fault, the first
/// of them, and how they end, if otherwise than those before.
#[tactic(auto, unfolding(crate::specs::Strips::range_text))]
pub fn push_range(
    out: &mut Vec<u8>,
    first: u32,
    before: &[u8],
    end: &[u8],
    is_alike: bool,
) -> Result<(), AllocError>
    ensures { OnOk result (out.new.items ≡ out.old.items
        ++ range_text first before.now end.now is_alike) }
{
    if is_alike {
        out.extend_from_slice(b"{\"same\":1")?;
    } else {
        out.extend_from_slice(b"{\"same\":0")?;
    }
    push_counted_member(out, b"from", first)?;
    push_end(out, before, end)?;
    out.extend_from_slice(b"}\n")
}

/// Appends what is said of a sweep.
#[tactic(auto, unfolding(crate::specs::Strips::strip_part))]
fn push_strip(out: &mut Vec<u8>, strip: StripTerms<'_>) -> Result<(), AllocError>
    ensures { OnOk result (out.new.items ≡ out.old.items ++ strip_part (strip_of strip.entry)) }
{
    out.extend_from_slice(b",\"sweep\":{\"fault\":")?;
    push_text(out, strip.fault)?;
    push_counted_member(out, b"turns", strip.turns)?;
    push_counted_member(out, b"from", strip.from)?;
    push_counted_member(out, b"positions", strip.positions)?;
    out.push(b'}')?;
    Ok(())
}

/// Appends the last line of a page with a strip: how many rows there are, and what is swept.
#[tactic(auto, unfolding(crate::specs::Strips::strip_tail_text))]
pub fn push_strip_tail(
    out: &mut Vec<u8>,
    records: u32,
    strip: StripTerms<'_>,
) -> Result<(), AllocError>
    ensures { OnOk result (out.new.items ≡ out.old.items
        ++ strip_tail_text records (strip_of strip.entry)) }
{
    out.extend_from_slice(b"{\"records\":")?;
    push_decimal(out, records)?;
    push_strip(out, strip)?;
    out.extend_from_slice(b"}\n")
}
