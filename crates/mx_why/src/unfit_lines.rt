//! The lines of what can't work by a configuration alone.

ghost use Rattle.std.specs.Prelude.{◌≡◌, ◌++◌, OnOk, slice_get};
ghost use Rattle.std.specs.List.{flat_map};
ghost use Rattle.mx_why.specs.UnfitLines.{alone_text, asks_text, lack_text, no_code_text, pair_text, stray_text, towards_text, unanswered_text, unfit_line, unfit_lines, unfit_text, unheard_text, unnamed_text};

use crate::hexadecimal::push_mask;
use crate::lines::{MOST_LINES, push_left_out};
use crate::reasons::push_bit;
use crate::unfit::{Lack, Pair, Unfit};
use mx_machine::{Config, ServiceLine};
use mx_print_report::{push_decimal, push_name};
use std::alloc::AllocError;

/// What is said of a mask that wants SENDREC, or a trap to send by.
const NO_SENDREC: &[u8] = b", but its traps have no SENDREC (8): it can make no kernel call";

const NO_SEND: &[u8] = b", but its traps have no SEND, SENDREC or NOTIFY";

/// Appends that a mask has bits that mean nothing.
#[tactic(auto, unfolding(crate::specs::UnfitLines::stray_text))]
fn push_stray(
    out: &mut Vec<u8>,
    line: &ServiceLine,
    field: &[u8],
    mask: u32,
    bits: u32,
) -> Result<(), AllocError>
    ensures { OnOk result (out.new.items ≡ out.old.items
        ++ stray_text line.now field.now mask bits) }
{
    push_name(out, &line.name.bytes)?;
    out.extend_from_slice(field)?;
    push_mask(out, mask)?;
    out.extend_from_slice(b" has a bit that means nothing: ")?;
    push_mask(out, bits)
}

/// Appends that a mask wants a trap that isn't allowed.
#[tactic(auto, unfolding(crate::specs::UnfitLines::alone_text))]
fn push_alone(
    out: &mut Vec<u8>,
    line: &ServiceLine,
    field: &[u8],
    mask: u32,
    lacking: &[u8],
) -> Result<(), AllocError>
    ensures { OnOk result (out.new.items ≡ out.old.items
        ++ alone_text line.now field.now mask lacking.now) }
{
    push_name(out, &line.name.bytes)?;
    out.extend_from_slice(field)?;
    push_mask(out, mask)?;
    out.extend_from_slice(lacking)
}

/// Appends that a program has no instruction.
#[tactic(auto, unfolding(crate::specs::UnfitLines::no_code_text))]
fn push_no_code(out: &mut Vec<u8>, line: &ServiceLine) -> Result<(), AllocError>
    ensures { OnOk result (out.new.items ≡ out.old.items ++ no_code_text line.now) }
{
    push_name(out, &line.name.bytes)?;
    out.extend_from_slice(b": its program ")?;
    out.extend_from_slice(line.file.as_str().as_bytes())?;
    out.extend_from_slice(b" has no instruction")
}

/// Appends that a service can only ask another.
#[tactic(auto, unfolding(crate::specs::UnfitLines::asks_text))]
fn push_asks(out: &mut Vec<u8>, line: &ServiceLine, other: &ServiceLine) -> Result<(), AllocError>
    ensures { OnOk result (out.new.items ≡ out.old.items ++ asks_text line.now other.now) }
{
    push_name(out, &line.name.bytes)?;
    out.extend_from_slice(b": may only ask ")?;
    push_name(out, &other.name.bytes)?;
    out.extend_from_slice(b" by SENDREC, and ")?;
    push_name(out, &other.name.bytes)
}

/// Appends that a service can only ask another, who may not send to it.
#[tactic(auto, unfolding(crate::specs::UnfitLines::unnamed_text))]
fn push_unnamed(
    out: &mut Vec<u8>,
    line: &ServiceLine,
    slot: u32,
    other: &ServiceLine,
) -> Result<(), AllocError>
    ensures { OnOk result (out.new.items ≡ out.old.items ++ unnamed_text line.now slot other.now) }
{
    push_asks(out, line, other)?;
    out.extend_from_slice(b"'s send ")?;
    push_mask(out, other.terms.masks.sends)?;
    out.extend_from_slice(b" has no bit for slot ")?;
    push_decimal(out, slot)?;
    push_bit(out, slot)?;
    out.extend_from_slice(b": no answer can come")
}

/// Appends that a service can only ask another, who has no trap for an answer.
#[tactic(auto, unfolding(crate::specs::UnfitLines::unanswered_text))]
fn push_unanswered(
    out: &mut Vec<u8>,
    line: &ServiceLine,
    other: &ServiceLine,
) -> Result<(), AllocError>
    ensures { OnOk result (out.new.items ≡ out.old.items ++ unanswered_text line.now other.now) }
{
    push_asks(out, line, other)?;
    out.extend_from_slice(b"'s traps ")?;
    push_mask(out, other.terms.masks.traps)?;
    out.extend_from_slice(b" have no SEND: no answer can come")
}

/// Appends that a service may send to another, who has no trap to receive by.
#[tactic(auto, unfolding(crate::specs::UnfitLines::unheard_text))]
fn push_unheard(
    out: &mut Vec<u8>,
    line: &ServiceLine,
    other: &ServiceLine,
) -> Result<(), AllocError>
    ensures { OnOk result (out.new.items ≡ out.old.items ++ unheard_text line.now other.now) }
{
    push_name(out, &line.name.bytes)?;
    out.extend_from_slice(b": may send to ")?;
    push_name(out, &other.name.bytes)?;
    out.extend_from_slice(b", whose traps ")?;
    push_mask(out, other.terms.masks.traps)?;
    out.extend_from_slice(b" have no RECEIVE")
}

/// Appends what can't work between a service and another.
fn push_pair(
    out: &mut Vec<u8>,
    slot: u32,
    line: &ServiceLine,
    other: &ServiceLine,
    pair: Pair,
) -> Result<(), AllocError>
    ensures { OnOk result (out.new.items ≡ out.old.items
        ++ pair_text slot line.now other.now pair) }
{
    match pair {
        Pair::Unnamed => push_unnamed(out, line, slot, other),
        Pair::Unanswered => push_unanswered(out, line, other),
        Pair::Unheard => push_unheard(out, line, other),
    }
}

/// Appends what can't work between a service and that of a slot.
fn push_towards(
    out: &mut Vec<u8>,
    lines: &[ServiceLine],
    slot: u32,
    line: &ServiceLine,
    other: u32,
    pair: Pair,
) -> Result<(), AllocError>
    ensures { OnOk result (out.new.items ≡ out.old.items
        ++ towards_text slot line.now pair (slice_get lines.now other)) }
{
    match lines.get(other as usize) {
        Some(other) => push_pair(out, slot, line, other, pair),
        None => Ok(()),
    }
}

/// Appends what can't work of a service, in words.
#[tactic(auto, unfolding(crate::specs::UnfitLines::lack_text))]
fn push_lack(
    out: &mut Vec<u8>,
    lines: &[ServiceLine],
    slot: u32,
    line: &ServiceLine,
    lack: Lack,
) -> Result<(), AllocError>
    ensures { OnOk result (out.new.items ≡ out.old.items
        ++ lack_text lines.now slot line.now lack) }
{
    let masks = line.terms.masks;
    match lack {
        Lack::StrayTraps(bits) => push_stray(out, line, b": traps ", masks.traps, bits),
        Lack::StrayCalls(bits) => push_stray(out, line, b": calls ", masks.calls, bits),
        Lack::CallsAlone => push_alone(out, line, b": calls ", masks.calls, NO_SENDREC),
        Lack::SendsAlone => push_alone(out, line, b": send ", masks.sends, NO_SEND),
        Lack::NoCode => push_no_code(out, line),
        Lack::Towards(other, pair) => push_towards(out, lines, slot, line, other, pair),
    }
}

/// Appends what can't work of a slot's service, in words.
fn push_unfit_text(out: &mut Vec<u8>, lines: &[ServiceLine], unfit: Unfit) -> Result<(), AllocError>
    ensures { OnOk result (out.new.items ≡ out.old.items ++ unfit_text lines.now unfit) }
{
    match lines.get(unfit.slot as usize) {
        Some(line) => push_lack(out, lines, unfit.slot, line, unfit.lack),
        None => Ok(()),
    }
}

/// Appends the line of what can't work.
#[tactic(auto, unfolding(crate::specs::UnfitLines::unfit_line))]
fn push_unfit(out: &mut Vec<u8>, lines: &[ServiceLine], unfit: Unfit) -> Result<(), AllocError>
    ensures { OnOk result (out.new.items ≡ out.old.items ++ unfit_line lines.now unfit) }
{
    out.extend_from_slice(b"CONFIG: ")?;
    push_unfit_text(out, lines, unfit)?;
    out.extend_from_slice(b"\n")
}

/// Appends some lines.
fn push_each_unfit(
    out: &mut Vec<u8>,
    lines: &[ServiceLine],
    found: &[Unfit],
) -> Result<(), AllocError>
    ensures { OnOk result (out.new.items ≡ out.old.items
        ++ flat_map (unfit_line lines.now) found.now) }
{
    for unfit in found {
        push_unfit(out, lines, *unfit)?;
    }
    Ok(())
}

/// Appends the lines of what can't work, and how many are left out.
#[tactic(auto, unfolding(crate::specs::UnfitLines::unfit_lines))]
pub(crate) fn push_unfit_lines(
    out: &mut Vec<u8>,
    config: &Config,
    found: &[Unfit],
) -> Result<(), AllocError>
    ensures { OnOk result (out.new.items ≡ out.old.items ++ unfit_lines config.now found.now) }
{
    let told = if found.len() < MOST_LINES {
        found.len()
    } else {
        MOST_LINES
    };
    push_each_unfit(out, config.lines.as_slice(), &found[..told])?;
    push_left_out(out, b"CONFIG: ", found.len())
}
