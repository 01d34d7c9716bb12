//! The row of a record: what the trace says of it, and what of the shown world changed.

ghost use Rattle.std.specs.Prelude.{◌≡◌, ◌<◌, ◌++◌, OnOk};
ghost use Rattle.mx_look.specs.Going.{gone_on};
ghost use Rattle.mx_look.specs.Trace.{record_text};
ghost use Rattle.mx_look_page.specs.Json.{ArePlain, IsPlainLine, Reads, escaped, text};
ghost use Rattle.mx_look_page.specs.Shown.{state_in};
ghost use Rattle.std.specs.List.{flat_map};
ghost use Rattle.mx_look_page.specs.Rows.{but_last, some_go_wrong, event_number, event_detail, subject_part, is_wrong, has_gone_wrong, has_failed, wrong_part, trace_part, state_items, result_part, differs, state_part, party_items, delivery_item, kept_item, arrow_items, order_items, order_part, byte_part, row_text, all_arrows, changed_states, changes_part, event_part, has_failed_call, has_faulted, items_part, kept_between, source_at};

use crate::json::{push_list, push_member, push_numbered, push_text};
use crate::shown::{Shown, SlotState};
use mx_image::Stop;
use mx_look::{
    SlotGlance, Transition, about, delivery_to, gone_on, held_after, held_before, is_new_bit,
    is_ready, kernel_call, push_record, slot_in,
};
use mx_machine::Recorded;
use mx_print_report::{push_decimal, push_signed};
use mx_proc::{CLOCK, Delivery, DeliveryKind, Endpoint, HARDWARE, slot_of};
use std::alloc::AllocError;

/// From this number on endpoints are negative as signed numbers, and name no slot.
const FIRST_NEGATIVE: Endpoint = 0x8000_0000;

/// How many sources a notification can have: HARDWARE, CLOCK, and 32 slots.
const SOURCES: u32 = 34;

/// The number of an event's kind.
fn event_number(event: Recorded) -> u32
    ensures { result ≡ event_number event }
{
    match event {
        Recorded::Take => 0,
        Recorded::Back(_) => 1,
        Recorded::Line(_) => 2,
        Recorded::Tick => 3,
        Recorded::Kill(_) => 4,
        Recorded::Respawn(_) => 5,
    }
}

/// The number that goes with an event: the budget of a take, the steps of what comes back, the line, the uptime, the
/// endpoint of who is killed, the slot of what is respawned.
#[tactic(auto, unfolding(crate::specs::Rows::event_detail))]
fn event_detail(transition: &Transition) -> u32
    ensures { result ≡ event_detail transition.now }
{
    match transition.event {
        Recorded::Take => match held_after(transition) {
            Some(held) => held.budget,
            None => 0,
        },
        Recorded::Back(steps) => steps,
        Recorded::Line(line) => line,
        Recorded::Tick => transition.after.uptime,
        Recorded::Kill(endpoint) => endpoint,
        Recorded::Respawn(slot) => slot,
    }
}

/// Appends the slot that the record is about, if it is about one.
#[tactic(auto, unfolding(crate::specs::Rows::subject_part))]
fn push_subject(out: &mut Vec<u8>, transition: &Transition) -> Result<(), AllocError>
    ensures { OnOk result (out.new.items ≡ out.old.items ++ subject_part transition.now) }
{
    match about(transition) {
        Some(slot) => {
            push_member(out, b"s")?;
            push_decimal(out, slot)
        }
        None => Ok(()),
    }
}

/// Whether a slot's process has gone on with an error.
fn has_gone_wrong(transition: &Transition, slot: u32) -> bool
    ensures { result ≡ has_gone_wrong transition.now slot }
{
    match gone_on(transition, slot) {
        Some(outcome) => outcome != 0,
        None => false,
    }
}

/// Whether the reply in the buffer of a kernel call's caller, which goes on, is an error.
fn has_failed(seen: &SlotGlance) -> bool
    ensures { result ≡ has_failed seen.now }
{
    match &seen.image.words {
        Some(reply) => is_ready(seen.doing) && reply[1] != 0,
        None => false,
    }
}

/// Whether a kernel call was answered with an error.
fn has_failed_call(transition: &Transition) -> bool
    ensures { result ≡ has_failed_call transition.now }
{
    match kernel_call(transition) {
        Some(held) => match slot_in(&transition.after, u32::from(held.slot)) {
            Some(seen) => has_failed(seen),
            None => false,
        },
        None => false,
    }
}

/// Whether a process comes back with a fault.
fn has_faulted(transition: &Transition) -> bool
    ensures { result ≡ has_faulted transition.now }
{
    let Recorded::Back(_) = transition.event else {
        return false;
    };
    match held_before(transition) {
        Some(held) => matches!(held.stop, Stop::Fault(_)),
        None => false,
    }
}

/// Whether a process has gone on with an error.
fn some_go_wrong(transition: &Transition) -> bool
    ensures { result ≡ some_go_wrong transition.now }
{
    (0..32u32).any(|slot| has_gone_wrong(transition, slot))
}

/// Whether an error or a fault came of the record.
fn is_wrong(transition: &Transition) -> bool
    ensures { result ≡ is_wrong transition.now }
{
    has_faulted(transition) || has_failed_call(transition) || some_go_wrong(transition)
}

/// Appends that an error or a fault came of the record, if one did.
#[tactic(auto, unfolding(crate::specs::Rows::wrong_part))]
fn push_wrong(out: &mut Vec<u8>, transition: &Transition) -> Result<(), AllocError>
    ensures { OnOk result (out.new.items ≡ out.old.items ++ wrong_part transition.now) }
{
    if is_wrong(transition) {
        out.extend_from_slice(b",\"x\":1")
    } else {
        Ok(())
    }
}

/// Appends what the trace says of the record, without its last line feed.
#[tactic(auto, unfolding(crate::specs::Rows::trace_part))]
fn push_trace(
    out: &mut Vec<u8>,
    scratch: &mut Vec<u8>,
    transition: &Transition,
) -> Result<(), AllocError>
    ensures value { OnOk result (out.new.items ≡ out.old.items ++ trace_part transition.now) }
    ensures read { OnOk result (Reads (flat_map escaped (but_last (record_text transition.now)))
        (but_last (record_text transition.now))) }
    ensures plain { OnOk result (ArePlain (text (but_last (record_text transition.now)))) }
{
    scratch.clear();
    push_record(scratch, transition)?;
    let shown = scratch.len().saturating_sub(1);
    push_member(out, b"t")?;
    push_text(out, &scratch.as_slice()[..shown])
}

/// Appends a slot's state after a comma, but for its end.
#[tactic(auto, unfolding(crate::specs::Rows::state_items))]
pub(crate) fn push_state_items(
    out: &mut Vec<u8>,
    slot: u32,
    state: SlotState,
) -> Result<(), AllocError>
    ensures { OnOk result (out.new.items ≡ out.old.items ++ state_items slot state) }
{
    out.extend_from_slice(b",[")?;
    push_decimal(out, slot)?;
    push_numbered(out, state.endpoint)?;
    push_numbered(out, state.state)?;
    out.push(b',')?;
    push_signed(out, state.partner)?;
    push_numbered(out, state.level)?;
    push_numbered(out, state.ticks)
}

/// Whether two states differ in a number.
fn differs(a: SlotState, b: SlotState) -> bool
    ensures { result ≡ differs a b }
{
    a.endpoint != b.endpoint
        || a.state != b.state
        || a.partner != b.partner
        || a.level != b.level
        || a.ticks != b.ticks
}

/// Appends the result with which a slot's process has gone on, after a comma, if it has.
#[tactic(auto, unfolding(crate::specs::Rows::result_part))]
fn push_result(out: &mut Vec<u8>, outcome: Option<u32>) -> Result<(), AllocError>
    ensures { OnOk result (out.new.items ≡ out.old.items ++ result_part outcome) }
{
    match outcome {
        Some(outcome) => {
            out.push(b',')?;
            push_signed(out, outcome)
        }
        None => Ok(()),
    }
}

/// Appends a slot's state after a comma, if it differs from the one before or the slot's process has gone on.
#[tactic(auto, unfolding(crate::specs::Rows::state_part))]
fn push_state(
    out: &mut Vec<u8>,
    transition: &Transition,
    before: &Shown,
    after: &Shown,
    slot: u32,
) -> Result<(), AllocError>
    requires { slot < 32 }
    ensures { OnOk result (out.new.items ≡ out.old.items ++ state_part slot
        (state_in before.now slot) (state_in after.now slot) (gone_on transition.now slot)) }
{
    let outcome = gone_on(transition, slot);
    match (before.state(slot), after.state(slot)) {
        (Some(before), Some(after)) if differs(before, after) || outcome.is_some() => {
            push_state_items(out, slot, after)?;
            push_result(out, outcome)?;
            out.push(b']')?;
            Ok(())
        }
        _ => Ok(()),
    }
}

/// Appends the states that changed, as items.
fn push_states(
    out: &mut Vec<u8>,
    transition: &Transition,
    before: &Shown,
    after: &Shown,
) -> Result<(), AllocError>
    ensures { OnOk result (out.new.items ≡ out.old.items
        ++ changed_states transition.now before.now after.now) }
{
    for slot in 0..32u32 {
        push_state(out, transition, before, after, slot)?;
    }
    Ok(())
}

/// Appends a member that is a list of these items, if there is one.
#[tactic(auto, unfolding(crate::specs::Rows::items_part))]
fn push_items(out: &mut Vec<u8>, name: &[u8], items: &[u8]) -> Result<(), AllocError>
    ensures { OnOk result (out.new.items ≡ out.old.items
        ++ items_part name.now items.now) }
{
    if items.is_empty() {
        return Ok(());
    }
    push_member(out, name)?;
    push_list(out, items)
}

/// Appends a party after a comma: its slot, or the number of HARDWARE, SYSTEM or CLOCK.
#[tactic(auto, unfolding(crate::specs::Rows::party_items))]
fn push_party(out: &mut Vec<u8>, endpoint: Endpoint) -> Result<(), AllocError>
    ensures { OnOk result (out.new.items ≡ out.old.items ++ party_items endpoint) }
{
    out.push(b',')?;
    if endpoint < FIRST_NEGATIVE {
        push_decimal(out, slot_of(endpoint))
    } else {
        push_signed(out, endpoint)
    }
}

/// Appends what a slot got, as an item, if it got anything.
#[tactic(auto, unfolding(crate::specs::Rows::delivery_item))]
fn push_delivery(out: &mut Vec<u8>, slot: u32, delivery: Option<Delivery>) -> Result<(), AllocError>
    ensures { OnOk result (out.new.items ≡ out.old.items ++ delivery_item slot delivery) }
{
    let Some(delivery) = delivery else {
        return Ok(());
    };
    match delivery.kind {
        DeliveryKind::Message => out.extend_from_slice(b",[0")?,
        DeliveryKind::Notification => out.extend_from_slice(b",[1")?,
    }
    push_party(out, delivery.from)?;
    push_numbered(out, slot)?;
    push_numbered(out, delivery.message_type)?;
    out.push(b']')?;
    Ok(())
}

/// The endpoint of the source that has a place among the pending bits, or its slot.
fn source_at(place: u32) -> Endpoint
    ensures { result ≡ source_at place }
{
    match place {
        0 => HARDWARE,
        1 => CLOCK,
        _ => place - 2,
    }
}

/// Appends a notification that becomes pending for a slot, as an item.
#[tactic(auto, unfolding(crate::specs::Rows::kept_item))]
fn push_kept(
    out: &mut Vec<u8>,
    slot: u32,
    before: &SlotGlance,
    after: &SlotGlance,
    place: u32,
) -> Result<(), AllocError>
    ensures { OnOk result (out.new.items ≡ out.old.items
        ++ kept_item slot before.now after.now place) }
{
    if !is_new_bit(before, after, place) {
        return Ok(());
    }
    out.extend_from_slice(b",[2")?;
    push_party(out, source_at(place))?;
    push_numbered(out, slot)?;
    out.push(b']')?;
    Ok(())
}

/// Appends the notifications that become pending for a slot, as items.
fn push_kept_between(
    out: &mut Vec<u8>,
    slot: u32,
    before: &SlotGlance,
    after: &SlotGlance,
) -> Result<(), AllocError>
    ensures { OnOk result (out.new.items ≡ out.old.items
        ++ kept_between slot before.now after.now) }
{
    for place in 0..SOURCES {
        push_kept(out, slot, before, after, place)?;
    }
    Ok(())
}

/// Appends what comes to a slot, as items: what it got, and the notifications that become pending.
#[tactic(auto, unfolding(crate::specs::Rows::arrow_items))]
fn push_arrows_to(out: &mut Vec<u8>, transition: &Transition, slot: u32) -> Result<(), AllocError>
    requires { slot < 32 }
    ensures { OnOk result (out.new.items ≡ out.old.items ++ arrow_items transition.now slot) }
{
    match (
        slot_in(&transition.before, slot),
        slot_in(&transition.after, slot),
    ) {
        (Some(before), Some(after)) => {
            push_delivery(out, slot, delivery_to(transition, slot))?;
            push_kept_between(out, slot, before, after)
        }
        _ => Ok(()),
    }
}

/// Appends the messages and notifications of a record, as items.
fn push_arrows(out: &mut Vec<u8>, transition: &Transition) -> Result<(), AllocError>
    ensures { OnOk result (out.new.items ≡ out.old.items
        ++ all_arrows transition.now) }
{
    for slot in 0..32u32 {
        push_arrows_to(out, transition, slot)?;
    }
    Ok(())
}

/// Appends slots as items.
pub(crate) fn push_order_items(out: &mut Vec<u8>, slots: &[u8]) -> Result<(), AllocError>
    ensures { OnOk result (out.new.items ≡ out.old.items ++ order_items slots.now) }
{
    for slot in slots {
        push_numbered(out, u32::from(*slot))?;
    }
    Ok(())
}

/// Appends an order of slots, if it isn't as before.
#[tactic(auto, unfolding(crate::specs::Rows::order_part))]
fn push_order(
    out: &mut Vec<u8>,
    scratch: &mut Vec<u8>,
    name: &[u8],
    before: &[u8],
    after: &[u8],
) -> Result<(), AllocError>
    ensures { OnOk result (out.new.items ≡ out.old.items ++ order_part name.now before.now after.now) }
{
    if before == after {
        return Ok(());
    }
    scratch.clear();
    push_order_items(scratch, after)?;
    push_member(out, name)?;
    push_list(out, scratch.as_slice())
}

/// Appends the byte that the record wrote to the console, if it wrote one.
#[tactic(auto, unfolding(crate::specs::Rows::byte_part))]
fn push_byte(out: &mut Vec<u8>, transition: &Transition) -> Result<(), AllocError>
    ensures { OnOk result (out.new.items ≡ out.old.items ++ byte_part transition.now) }
{
    if transition.before.written == transition.after.written {
        return Ok(());
    }
    let Some(byte) = transition.after.last_byte else {
        return Ok(());
    };
    push_member(out, b"b")?;
    push_decimal(out, u32::from(byte))
}

/// Appends the members that say which record it is.
#[tactic(auto, unfolding(crate::specs::Rows::event_part))]
fn push_event(out: &mut Vec<u8>, transition: &Transition) -> Result<(), AllocError>
    ensures { OnOk result (out.new.items ≡ out.old.items
        ++ event_part transition.now) }
{
    out.extend_from_slice(b"{\"a\":")?;
    push_decimal(out, u32::from(transition.actor))?;
    push_member(out, b"e")?;
    push_decimal(out, event_number(transition.event))?;
    push_member(out, b"n")?;
    push_decimal(out, event_detail(transition))?;
    push_subject(out, transition)?;
    push_wrong(out, transition)
}

/// Appends the states that changed, and what was delivered.
#[tactic(auto, unfolding(crate::specs::Rows::changes_part))]
fn push_changes(
    out: &mut Vec<u8>,
    scratch: &mut Vec<u8>,
    transition: &Transition,
    before: &Shown,
    after: &Shown,
) -> Result<(), AllocError>
    ensures { OnOk result (out.new.items ≡ out.old.items
        ++ changes_part transition.now before.now after.now) }
{
    scratch.clear();
    push_states(scratch, transition, before, after)?;
    push_items(out, b"c", scratch.as_slice())?;
    scratch.clear();
    push_arrows(scratch, transition)?;
    push_items(out, b"d", scratch.as_slice())
}

/// Appends the row of a record, a line: of what is shown before it and after it. What was in `scratch` is lost. No byte
/// of the line is a control, `<`, or above 126, and a reader of JSON reads what the trace says of the record.
#[tactic(auto, unfolding(crate::specs::Rows::row_text), using(crate::proofs::PlainRows::plain_row))]
pub fn push_row(
    out: &mut Vec<u8>,
    scratch: &mut Vec<u8>,
    transition: &Transition,
    before: &Shown,
    after: &Shown,
) -> Result<(), AllocError>
    ensures value { OnOk result (out.new.items ≡ out.old.items
        ++ row_text transition.now before.now after.now) }
    ensures read { OnOk result (Reads (flat_map escaped (but_last (record_text transition.now)))
        (but_last (record_text transition.now))) }
    ensures line { OnOk result (IsPlainLine (row_text transition.now before.now after.now)) }
{
    push_event(out, transition)?;
    push_trace(out, scratch, transition)?;
    push_changes(out, scratch, transition, before, after)?;
    push_order(
        out,
        scratch,
        b"q",
        before.ready.as_slice(),
        after.ready.as_slice(),
    )?;
    push_order(
        out,
        scratch,
        b"w",
        before.waiting.as_slice(),
        after.waiting.as_slice(),
    )?;
    push_byte(out, transition)?;
    out.extend_from_slice(b"}\n")
}
