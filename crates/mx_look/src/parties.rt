//! Who has a slot, and whom an endpoint names.

ghost use Rattle.std.specs.Prelude.{◌≡◌, ◌++◌, OnOk};
ghost use Rattle.mx_look.specs.Words.{who_of, who, party_text, named_party};

use crate::{Glance, SlotGlance, slot_in};
use mx_print_report::{push_named, push_signed};
use mx_proc::{ANY, CLOCK, HARDWARE, SYSTEM, slot_of};
use std::alloc::AllocError;

/// Appends the name and the endpoint of what is seen of a slot.
pub(crate) fn push_who_of(out: &mut Vec<u8>, seen: &SlotGlance) -> Result<(), AllocError>
    ensures { OnOk result (out.new.items ≡ out.old.items ++ who_of seen.now) }
{
    push_named(out, &seen.name.bytes, seen.endpoint)
}

/// Appends the name and the endpoint of a slot, if it has a service.
#[tactic(auto, unfolding(crate::specs::Words::who))]
pub fn push_who(out: &mut Vec<u8>, glance: &Glance, slot: u32) -> Result<(), AllocError>
    ensures { OnOk result (out.new.items ≡ out.old.items ++ who glance.now slot) }
{
    match slot_in(glance, slot) {
        Some(seen) => push_who_of(out, seen),
        None => Ok(()),
    }
}

/// Appends an endpoint that names no pseudo-process.
#[tactic(auto, unfolding(crate::specs::Words::named_party))]
fn push_named_party(out: &mut Vec<u8>, glance: &Glance, endpoint: u32) -> Result<(), AllocError>
    ensures { OnOk result (out.new.items ≡ out.old.items ++ named_party glance.now endpoint) }
{
    match slot_in(glance, slot_of(endpoint)) {
        Some(seen) if endpoint < 0x8000_0000 => push_named(out, &seen.name.bytes, endpoint),
        _ => push_signed(out, endpoint),
    }
}

/// Appends whom an endpoint names.
#[tactic(auto, unfolding(crate::specs::Words::party_text))]
pub fn push_party(out: &mut Vec<u8>, glance: &Glance, endpoint: u32) -> Result<(), AllocError>
    ensures { OnOk result (out.new.items ≡ out.old.items ++ party_text glance.now endpoint) }
{
    match endpoint {
        ANY => out.extend_from_slice(b"any"),
        HARDWARE => out.extend_from_slice(b"HARDWARE"),
        SYSTEM => out.extend_from_slice(b"SYSTEM"),
        CLOCK => out.extend_from_slice(b"CLOCK"),
        _ => push_named_party(out, glance, endpoint),
    }
}
