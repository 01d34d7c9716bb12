//! The lines of calls that were refused.

ghost use Rattle.std.specs.Prelude.{◌≡◌, ◌++◌, OnOk};
ghost use Rattle.std.specs.List.{flat_map};
ghost use Rattle.mx_why.specs.FailedLines.{failed_line, failed_lines};

use crate::ends::push_times;
use crate::failed_calls::FailedCall;
use crate::lines::{MOST_LINES, push_left_out};
use crate::reasons::push_slot;
use crate::seats::End;
use crate::want_lines::push_details;
use mx_machine::Config;
use mx_print_report::push_decimal;
use std::alloc::AllocError;

/// Appends the line of calls that are alike.
#[tactic(auto, unfolding(crate::specs::FailedLines::failed_line))]
pub(crate) fn push_failed(
    out: &mut Vec<u8>,
    config: &Config,
    end: &End,
    call: &FailedCall,
) -> Result<(), AllocError>
    ensures { OnOk result (out.new.items ≡ out.old.items
        ++ failed_line config.now end.now call.now) }
{
    out.extend_from_slice(b"refused: ")?;
    push_slot(out, end, call.slot)?;
    out.extend_from_slice(b": ")?;
    out.extend_from_slice(call.text.as_slice())?;
    push_times(out, call.times as usize)?;
    out.extend_from_slice(b" at record ")?;
    push_decimal(out, call.number)?;
    out.extend_from_slice(call.place.as_slice())?;
    push_details(out, config, end, call.slot, call.want)?;
    out.extend_from_slice(call.reading.text())?;
    out.extend_from_slice(b"\n")
}

/// Appends the lines of some calls.
fn push_each(
    out: &mut Vec<u8>,
    config: &Config,
    end: &End,
    calls: &[FailedCall],
) -> Result<(), AllocError>
    ensures { OnOk result (out.new.items ≡ out.old.items
        ++ flat_map (failed_line config.now end.now) calls.now) }
{
    for call in calls {
        push_failed(out, config, end, call)?;
    }
    Ok(())
}

/// Appends the lines of calls that were refused, and how many are left out.
#[tactic(auto, unfolding(crate::specs::FailedLines::failed_lines))]
pub(crate) fn push_failed_lines(
    out: &mut Vec<u8>,
    config: &Config,
    end: &End,
    calls: &[FailedCall],
) -> Result<(), AllocError>
    ensures { OnOk result (out.new.items ≡ out.old.items
        ++ failed_lines config.now end.now calls.now) }
{
    let told = if calls.len() < MOST_LINES {
        calls.len()
    } else {
        MOST_LINES
    };
    push_each(out, config, end, &calls[..told])?;
    push_left_out(out, b"refused: ", calls.len())
}
