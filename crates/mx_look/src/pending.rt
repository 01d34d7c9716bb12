//! Notifications that are kept.

ghost use Rattle.std.specs.Prelude.{◌≡◌, ◌++◌, OnOk};
ghost use Rattle.mx_look.specs.Trace.{source_text, kept_line, kept_between, kept_lines};

use crate::parties::{push_party, push_who, push_who_of};
use crate::record_lines::push_margin;
use crate::{Glance, SlotGlance, Transition, is_new_bit, slot_in};
use mx_proc::{CLOCK, HARDWARE};
use std::alloc::AllocError;

/// Appends the source that has a place among the pending bits.
#[tactic(auto, unfolding(crate::specs::Trace::source_text))]
fn push_source(out: &mut Vec<u8>, glance: &Glance, place: u32) -> Result<(), AllocError>
    ensures { OnOk result (out.new.items ≡ out.old.items ++ source_text glance.now place) }
{
    match place {
        0 => push_party(out, glance, HARDWARE),
        1 => push_party(out, glance, CLOCK),
        _ => push_who(out, glance, place - 2),
    }
}

/// Appends the line of a notification that is kept, if it is.
#[tactic(auto, unfolding(crate::specs::Trace::kept_line))]
pub fn push_kept(
    out: &mut Vec<u8>,
    transition: &Transition,
    before: &SlotGlance,
    after: &SlotGlance,
    place: u32,
) -> Result<(), AllocError>
    ensures { OnOk result (out.new.items ≡ out.old.items
        ++ kept_line transition.now before.now after.now place) }
{
    if !is_new_bit(before, after, place) {
        return Ok(());
    }
    push_margin(out, transition)?;
    out.extend_from_slice(b"notify ")?;
    push_source(out, &transition.after, place)?;
    out.extend_from_slice(b" to ")?;
    push_who_of(out, after)?;
    out.extend_from_slice(b", pending\n")
}

/// Appends the lines of the notifications that are kept for a slot.
fn push_kept_between(
    out: &mut Vec<u8>,
    transition: &Transition,
    before: &SlotGlance,
    after: &SlotGlance,
) -> Result<(), AllocError>
    ensures { OnOk result (out.new.items ≡ out.old.items
        ++ kept_between transition.now before.now after.now) }
{
    for place in 0..34u32 {
        if is_new_bit(before, after, place) {
            push_kept(out, transition, before, after, place)?;
        }
    }
    Ok(())
}

/// Appends the lines of the notifications that are kept for a slot, if it has a service.
#[tactic(auto, unfolding(crate::specs::Trace::kept_lines))]
pub(crate) fn push_kept_lines(
    out: &mut Vec<u8>,
    transition: &Transition,
    slot: u32,
) -> Result<(), AllocError>
    ensures { OnOk result (out.new.items ≡ out.old.items ++ kept_lines transition.now slot) }
{
    match (
        slot_in(&transition.before, slot),
        slot_in(&transition.after, slot),
    ) {
        (Some(before), Some(after)) => push_kept_between(out, transition, before, after),
        _ => Ok(()),
    }
}
