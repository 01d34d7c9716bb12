//! Who is meant, for whom he waits, and why nothing comes from there.

ghost use Rattle.std.specs.Prelude.{◌≡◌, ◌++◌, OnOk};
ghost use Rattle.mx_why.specs.Reasons.{awaited_text, bit_text, has_no_send, meanwhile_from_text, meanwhile_text, no_bit_text, no_trap_text, only_from_text, reason_text, silent_text, since_text, slot_text, takes_from_text, unanswered_text, unsent_text, untaken_text, wait_text, waiting_text};

use crate::hexadecimal::push_mask;
use crate::notes::{Note, since};
use crate::seats::{End, Seat};
use crate::waiting::{NOTIFY, RECEIVE, SEND, SENDREC, may_name, may_trap};
use mx_print_report::{Awaited, Doing, push_counted, push_name};
use std::alloc::AllocError;

/// Appends the name of a slot's service.
#[tactic(auto, unfolding(crate::specs::Reasons::slot_text))]
pub(crate) fn push_slot(out: &mut Vec<u8>, end: &End, slot: u32) -> Result<(), AllocError>
    ensures { OnOk result (out.new.items ≡ out.old.items
        ++ slot_text end.now slot) }
{
    match end.seat(slot) {
        Some(seat) => push_name(out, &seat.name.bytes),
        None => Ok(()),
    }
}

/// Appends whom one receives from.
#[tactic(auto, unfolding(crate::specs::Reasons::awaited_text))]
fn push_awaited(out: &mut Vec<u8>, end: &End, awaited: Awaited) -> Result<(), AllocError>
    ensures { OnOk result (out.new.items ≡ out.old.items
        ++ awaited_text end.now awaited) }
{
    match awaited {
        Awaited::Any => out.extend_from_slice(b"any"),
        Awaited::System => out.extend_from_slice(b"SYSTEM"),
        Awaited::Hardware => out.extend_from_slice(b"HARDWARE"),
        Awaited::Clock => out.extend_from_slice(b"CLOCK"),
        Awaited::Process(slot) => push_slot(out, end, slot),
    }
}

/// Appends words and whom one receives from.
fn push_from(out: &mut Vec<u8>, end: &End, words: &[u8], awaited: Awaited) -> Result<(), AllocError>
    ensures { OnOk result (out.new.items ≡ out.old.items
        ++ (words.now ++ awaited_text end.now awaited)) }
{
    out.extend_from_slice(words)?;
    push_awaited(out, end, awaited)
}

/// Appends a verb and the name of a slot's service.
pub(crate) fn push_verb(
    out: &mut Vec<u8>,
    end: &End,
    verb: &[u8],
    slot: u32,
) -> Result<(), AllocError>
    ensures { OnOk result (out.new.items ≡ out.old.items ++ (verb.now ++ slot_text end.now slot)) }
{
    out.extend_from_slice(verb)?;
    push_slot(out, end, slot)
}

/// Appends what one does that waits, and whom it waits for.
#[tactic(auto, unfolding(crate::specs::Reasons::wait_text))]
pub(crate) fn push_wait(out: &mut Vec<u8>, end: &End, doing: Doing) -> Result<(), AllocError>
    ensures { OnOk result (out.new.items ≡ out.old.items
        ++ wait_text end.now doing) }
{
    match doing {
        Doing::Sending(slot) => push_verb(out, end, b" sends to ", slot),
        Doing::Calling(slot) => push_verb(out, end, b" calls ", slot),
        Doing::Awaiting(slot) => push_verb(out, end, b" awaits ", slot),
        Doing::Receiving(awaited) => push_from(out, end, b" receives from ", awaited),
        _ => Ok(()),
    }
}

/// Appends who has a slot, what its process does and whom it waits for.
#[tactic(auto, unfolding(crate::specs::Reasons::waiting_text))]
pub(crate) fn push_waiting(out: &mut Vec<u8>, end: &End, slot: u32) -> Result<(), AllocError>
    ensures { OnOk result (out.new.items ≡ out.old.items
        ++ waiting_text end.now slot) }
{
    push_slot(out, end, slot)?;
    match end.doing(slot) {
        Some(doing) => push_wait(out, end, doing),
        None => Ok(()),
    }
}

/// Appends since which record a slot's process does what it does.
#[tactic(auto, unfolding(crate::specs::Reasons::since_text))]
pub(crate) fn push_since(out: &mut Vec<u8>, notes: &[Note], slot: u32) -> Result<(), AllocError>
    ensures { OnOk result (out.new.items ≡ out.old.items
        ++ since_text notes.now slot) }
{
    push_counted(out, b" since record", since(notes, slot))
}

/// Appends that the traps of a process have no such one.
#[tactic(auto, unfolding(crate::specs::Reasons::no_trap_text))]
fn push_no_trap(out: &mut Vec<u8>, seat: &Seat, trap: &[u8]) -> Result<(), AllocError>
    ensures { OnOk result (out.new.items ≡ out.old.items
        ++ no_trap_text seat.now trap.now) }
{
    out.extend_from_slice(b"'s traps ")?;
    push_mask(out, seat.traps)?;
    out.extend_from_slice(b" have no ")?;
    out.extend_from_slice(trap)
}

/// Appends from whom alone the process of a slot takes a message, and since when.
#[tactic(auto, unfolding(crate::specs::Reasons::only_from_text))]
fn push_only_from(
    out: &mut Vec<u8>,
    end: &End,
    notes: &[Note],
    slot: u32,
    awaited: Awaited,
) -> Result<(), AllocError>
    ensures { OnOk result (out.new.items ≡ out.old.items
        ++ only_from_text end.now notes.now slot awaited) }
{
    out.extend_from_slice(b" receives only from ")?;
    push_awaited(out, end, awaited)?;
    out.extend_from_slice(b",")?;
    push_since(out, notes, slot)
}

/// Appends from whom the process of a slot, which does this, takes a message.
#[tactic(auto, unfolding(crate::specs::Reasons::takes_from_text))]
fn push_takes_from(
    out: &mut Vec<u8>,
    end: &End,
    notes: &[Note],
    slot: u32,
    doing: Doing,
) -> Result<(), AllocError>
    ensures { OnOk result (out.new.items ≡ out.old.items
        ++ takes_from_text end.now notes.now slot doing) }
{
    match doing {
        Doing::Receiving(awaited) => push_only_from(out, end, notes, slot, awaited),
        _ => out.extend_from_slice(b" doesn't receive"),
    }
}

/// Appends why the process of a slot doesn't take a message.
#[tactic(auto, unfolding(crate::specs::Reasons::untaken_text))]
fn push_untaken(
    out: &mut Vec<u8>,
    end: &End,
    notes: &[Note],
    to: u32,
    seat: &Seat,
) -> Result<(), AllocError>
    ensures { OnOk result (out.new.items ≡ out.old.items
        ++ untaken_text end.now notes.now to seat.now) }
{
    if may_trap(seat, RECEIVE) {
        push_takes_from(out, end, notes, to, seat.doing)
    } else {
        push_no_trap(out, seat, b"RECEIVE")
    }
}

/// Appends the bit of a slot in a mask.
#[tactic(auto, unfolding(crate::specs::Reasons::bit_text))]
pub(crate) fn push_bit(out: &mut Vec<u8>, slot: u32) -> Result<(), AllocError>
    ensures { OnOk result (out.new.items ≡ out.old.items
        ++ bit_text slot) }
{
    if slot >= 32 {
        return Ok(());
    }
    out.extend_from_slice(b" (")?;
    push_mask(out, 1 << slot)?;
    out.extend_from_slice(b")")
}

/// Appends that the send mask of a process has no bit for a slot.
#[tactic(auto, unfolding(crate::specs::Reasons::no_bit_text))]
fn push_no_bit(out: &mut Vec<u8>, end: &End, seat: &Seat, slot: u32) -> Result<(), AllocError>
    ensures { OnOk result (out.new.items ≡ out.old.items
        ++ no_bit_text end.now seat.now slot) }
{
    out.extend_from_slice(b"'s send ")?;
    push_mask(out, seat.sends)?;
    out.extend_from_slice(b" has no bit for ")?;
    push_slot(out, end, slot)?;
    push_bit(out, slot)
}

/// Appends from whom the process of a slot receives in place of an answer, and since when.
#[tactic(auto, unfolding(crate::specs::Reasons::meanwhile_from_text))]
fn push_meanwhile_from(
    out: &mut Vec<u8>,
    end: &End,
    notes: &[Note],
    slot: u32,
    awaited: Awaited,
) -> Result<(), AllocError>
    ensures { OnOk result (out.new.items ≡ out.old.items
        ++ meanwhile_from_text end.now notes.now slot awaited) }
{
    out.extend_from_slice(b", and receives from ")?;
    push_awaited(out, end, awaited)?;
    push_since(out, notes, slot)
}

/// Appends what the process of a slot, which does this, does in place of an answer.
#[tactic(auto, unfolding(crate::specs::Reasons::meanwhile_text))]
fn push_meanwhile(
    out: &mut Vec<u8>,
    end: &End,
    notes: &[Note],
    slot: u32,
    doing: Doing,
) -> Result<(), AllocError>
    ensures { OnOk result (out.new.items ≡ out.old.items
        ++ meanwhile_text end.now notes.now slot doing) }
{
    match doing {
        Doing::Receiving(awaited) => push_meanwhile_from(out, end, notes, slot, awaited),
        _ => out.extend_from_slice(b", and waits"),
    }
}

/// Appends what the process of a slot does that has a message and hasn't answered it.
#[tactic(auto, unfolding(crate::specs::Reasons::unanswered_text))]
fn push_unanswered(
    out: &mut Vec<u8>,
    end: &End,
    notes: &[Note],
    slot: u32,
    from: u32,
    doing: Doing,
) -> Result<(), AllocError>
    ensures { OnOk result (out.new.items ≡ out.old.items
        ++ unanswered_text end.now notes.now slot from doing) }
{
    out.extend_from_slice(b" has its message")?;
    push_since(out, notes, slot)?;
    push_meanwhile(out, end, notes, from, doing)?;
    out.extend_from_slice(b" without an answer")
}

/// Appends what the process of a slot does, from which another one receives.
#[tactic(auto, unfolding(crate::specs::Reasons::silent_text))]
fn push_silent(out: &mut Vec<u8>, end: &End, doing: Doing) -> Result<(), AllocError>
    ensures { OnOk result (out.new.items ≡ out.old.items
        ++ silent_text end.now doing) }
{
    match doing {
        Doing::Receiving(awaited) => push_from(out, end, b" receives too, from ", awaited),
        _ => out.extend_from_slice(b" waits too"),
    }
}

/// Whether a process can't send to one that does this: what a SENDREC waits for is no notification.
fn has_no_send(seat: &Seat, is_call: bool) -> bool
    ensures { result ≡ has_no_send seat.now is_call }
{
    !(may_trap(seat, SEND) || may_trap(seat, SENDREC) || !is_call && may_trap(seat, NOTIFY))
}

/// Appends why nothing comes from the process of a slot.
#[tactic(auto, unfolding(crate::specs::Reasons::unsent_text))]
fn push_unsent(
    out: &mut Vec<u8>,
    end: &End,
    notes: &[Note],
    slot: u32,
    from: u32,
    seat: &Seat,
    is_call: bool,
) -> Result<(), AllocError>
    ensures { OnOk result (out.new.items ≡ out.old.items
        ++ unsent_text end.now notes.now slot from seat.now is_call) }
{
    if !may_name(seat, slot) {
        push_no_bit(out, end, seat, slot)
    } else if has_no_send(seat, is_call) {
        push_no_trap(out, seat, b"SEND")
    } else if is_call {
        push_unanswered(out, end, notes, slot, from, seat.doing)
    } else {
        push_silent(out, end, seat.doing)
    }
}

/// Appends why the process of a slot, which does this, waits for that of another in vain.
#[tactic(auto, unfolding(crate::specs::Reasons::reason_text))]
pub(crate) fn push_reason(
    out: &mut Vec<u8>,
    end: &End,
    notes: &[Note],
    slot: u32,
    doing: Doing,
    partner: u32,
) -> Result<(), AllocError>
    ensures { OnOk result (out.new.items ≡ out.old.items
        ++ reason_text end.now notes.now slot doing partner) }
{
    let Some(seat) = end.seat(partner) else {
        return Ok(());
    };
    push_name(out, &seat.name.bytes)?;
    match doing {
        Doing::Sending(_) | Doing::Calling(_) => push_untaken(out, end, notes, partner, seat),
        Doing::Awaiting(_) => push_unsent(out, end, notes, slot, partner, seat, true),
        _ => push_unsent(out, end, notes, slot, partner, seat, false),
    }
}
