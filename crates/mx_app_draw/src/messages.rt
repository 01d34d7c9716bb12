//! Arrows of messages, of notifications, and of notifications that become pending.

ghost use Rattle.std.specs.Prelude.{◌≡◌, ◌<◌, ◌≤◌, ◌++◌, OnOk};
ghost use Rattle.mx_app_draw.specs.Fates.{IsOnPaper};
ghost use Rattle.mx_app_draw.specs.Messages.{party_height, source_height, arrow_kind, type_note, delivery_values, is_kept, kept_arrow, kept_values};

use crate::fates::{height_of, line_to, note};
use crate::layout::{Origin, row};
use crate::{ArrowKind, Hint, LabelKind, Text, Value};
use mx_look::{Transition, delivery_to, is_new_bit, slot_in};
use mx_proc::{Delivery, DeliveryKind, slot_of};
use std::alloc::AllocError;

/// How many sources a notification can have: HARDWARE, CLOCK, and 32 slots.
const SOURCES: u32 = 34;

/// The middle of the row of the party that an endpoint names. HARDWARE and CLOCK have the row `outside`.
fn party_height(origin: Origin, endpoint: u32) -> u32
    requires { IsOnPaper origin }
    ensures { result ≡ party_height origin endpoint }
{
    height_of(origin, slot_of(endpoint))
}

/// The middle of the row of the source whose pending bit has this place.
fn source_height(origin: Origin, place: u32) -> u32
    requires { IsOnPaper origin }
    ensures { result ≡ source_height origin place }
{
    if place < 2 {
        row(origin.top, 0)
    } else {
        height_of(origin, place - 2)
    }
}

fn arrow_kind(kind: DeliveryKind) -> ArrowKind
    ensures { result ≡ arrow_kind kind }
{
    match kind {
        DeliveryKind::Message => ArrowKind::Message,
        DeliveryKind::Notification => ArrowKind::Notification,
    }
}

/// Appends the type of a message, if it isn't 0.
#[tactic(auto, unfolding(crate::specs::Messages::type_note))]
fn push_type(
    out: &mut Vec<Value>,
    origin: Origin,
    slot: u32,
    delivery: Delivery,
) -> Result<(), AllocError>
    requires { IsOnPaper origin }
    ensures { OnOk result (out.new.items ≡ out.old.items ++ type_note origin slot delivery) }
{
    if matches!(delivery.kind, DeliveryKind::Message) && delivery.message_type != 0 {
        let text = Text::Number(delivery.message_type);
        let hint = Hint::Delivery(origin.place, slot);
        out.push(note(LabelKind::Note, origin, slot, text, hint))?;
    }
    Ok(())
}

/// Appends the arrow of the message or notification that a slot got, if it got one.
#[tactic(auto, unfolding(crate::specs::Messages::delivery_values))]
pub(crate) fn push_delivery(
    out: &mut Vec<Value>,
    transition: &Transition,
    origin: Origin,
    slot: u32,
) -> Result<(), AllocError>
    requires on_paper { IsOnPaper origin }
    requires slot { slot < 32 }
    ensures { OnOk result (out.new.items ≡ out.old.items
        ++ delivery_values transition.now origin slot) }
{
    let Some(delivery) = delivery_to(transition, slot) else {
        return Ok(());
    };
    let from = party_height(origin, delivery.from);
    let hint = Hint::Delivery(origin.place, slot);
    out.push(line_to(origin, arrow_kind(delivery.kind), from, slot, hint))?;
    push_type(out, origin, slot, delivery)
}

/// Whether a notification by the source with this place becomes pending for a slot.
fn is_kept(transition: &Transition, slot: u32, place: u32) -> bool
    ensures { result ≡ is_kept transition.now slot place }
{
    match (
        slot_in(&transition.before, slot),
        slot_in(&transition.after, slot),
    ) {
        (Some(before), Some(after)) => is_new_bit(before, after, place),
        _ => false,
    }
}

/// Appends the arrow of a notification that becomes pending, if there is one.
#[tactic(auto, unfolding(crate::specs::Messages::kept_arrow))]
fn push_kept_arrow(
    out: &mut Vec<Value>,
    transition: &Transition,
    origin: Origin,
    slot: u32,
    place: u32,
) -> Result<(), AllocError>
    requires { IsOnPaper origin }
    ensures { OnOk result (out.new.items ≡ out.old.items
        ++ kept_arrow transition.now origin slot place) }
{
    if is_kept(transition, slot, place) {
        let from = source_height(origin, place);
        let hint = Hint::Kept(origin.place, slot, place);
        out.push(line_to(origin, ArrowKind::Pending, from, slot, hint))?;
    }
    Ok(())
}

/// Appends the arrows of all notifications that become pending for a slot.
pub(crate) fn push_kept(
    out: &mut Vec<Value>,
    transition: &Transition,
    origin: Origin,
    slot: u32,
) -> Result<(), AllocError>
    requires { IsOnPaper origin }
    ensures { OnOk result (out.new.items ≡ out.old.items
        ++ kept_values transition.now origin slot) }
{
    for place in 0..SOURCES {
        push_kept_arrow(out, transition, origin, slot, place)?;
    }
    Ok(())
}
