//! Taking notes of a transition.

ghost use Rattle.std.specs.Prelude.{◌≡◌, ◌++◌, ◌∷◌, [], OnOk};
ghost use Rattle.mx_look.specs.Going.{gone_on};
ghost use Rattle.mx_why.specs.Noting.{call_deed, change_note, change_notes, deed_of, died_text, has_spent, is_error, noted, notes_of, of_change, of_down, return_note, return_of, take_note, takes_message};

use crate::notes::{Deed, Note, NoteText};
use crate::place::push_death;
use crate::waiting::{RECEIVE, SENDREC};
use mx_image::Stop;
use mx_look::{
    CpuGlance, Transition, about, asks_kernel, gone_on, has_changed, held_before, is_acted,
    is_down, slot_in,
};
use mx_machine::Recorded;
use mx_print_report::Doing;
use mx_proc::DeathCause;
use std::alloc::AllocError;

/// Appends a note with this text.
fn push_note(
    notes: &mut Vec<Note>,
    transition: &Transition,
    slot: u32,
    deed: Deed,
    text: Vec<u8>,
) -> Result<(), AllocError>
    ensures { OnOk result (notes.new.items ≡ notes.old.items
        ++ noted transition.now slot deed text.items ∷ []) }
{
    let number = transition.number;
    let text = NoteText::from_vec(text);
    notes.push(Note {
        number,
        slot,
        deed,
        text,
    })?;
    Ok(())
}

/// Appends a note without a text.
fn push_bare(
    notes: &mut Vec<Note>,
    transition: &Transition,
    slot: u32,
    deed: Deed,
) -> Result<(), AllocError>
    ensures { OnOk result (notes.new.items ≡ notes.old.items
        ++ noted transition.now slot deed [] ∷ []) }
{
    let text = Vec::new(*notes.allocator());
    push_note(notes, transition, slot, deed, text)
}

/// What a note of a death is of.
fn deed_of(cause: DeathCause) -> Deed
    ensures { result ≡ deed_of cause }
{
    match cause {
        DeathCause::Exit => Deed::Changed,
        DeathCause::Kill => Deed::Killed,
        DeathCause::Fault(_) => Deed::Faulted,
    }
}

/// Appends the note of a death.
fn push_died(
    notes: &mut Vec<Note>,
    transition: &Transition,
    slot: u32,
    cause: DeathCause,
) -> Result<(), AllocError>
    ensures { OnOk result (notes.new.items ≡ notes.old.items
        ++ noted transition.now slot (deed_of cause) (died_text transition.now slot cause) ∷ []) }
{
    let mut text = Vec::new(*notes.allocator());
    push_death(&mut text, transition, slot, cause)?;
    push_note(notes, transition, slot, deed_of(cause), text)
}

/// Appends the note of a process that is down.
fn push_down(
    notes: &mut Vec<Note>,
    transition: &Transition,
    slot: u32,
    cause: DeathCause,
) -> Result<(), AllocError>
    ensures { OnOk result (notes.new.items ≡ notes.old.items
        ++ of_down transition.now slot cause ∷ []) }
{
    match cause {
        DeathCause::Exit => push_bare(notes, transition, slot, Deed::Changed),
        _ => push_died(notes, transition, slot, cause),
    }
}

/// Appends the note of a process that did one thing and does another.
fn push_changed(
    notes: &mut Vec<Note>,
    transition: &Transition,
    slot: u32,
    before: Doing,
    after: Doing,
) -> Result<(), AllocError>
    ensures { OnOk result (notes.new.items ≡ notes.old.items
        ++ of_change transition.now slot before after ∷ []) }
{
    match after {
        Doing::Down(cause) => push_down(notes, transition, slot, cause),
        _ if is_down(before) => push_bare(notes, transition, slot, Deed::Respawned),
        _ => push_bare(notes, transition, slot, Deed::Changed),
    }
}

/// Appends the note of a slot whose process does something else, if it does.
#[tactic(auto, unfolding(crate::specs::Noting::change_note))]
fn push_change(notes: &mut Vec<Note>, transition: &Transition, slot: u32) -> Result<(), AllocError>
    ensures { OnOk result (notes.new.items ≡ notes.old.items
        ++ change_note transition.now slot) }
{
    if !has_changed(transition, slot) {
        return Ok(());
    }
    match (
        slot_in(&transition.before, slot),
        slot_in(&transition.after, slot),
    ) {
        (Some(before), Some(after)) => {
            push_changed(notes, transition, slot, before.doing, after.doing)
        }
        _ => Ok(()),
    }
}

/// Appends the note of a take, if the record is one.
fn push_taken(notes: &mut Vec<Note>, transition: &Transition) -> Result<(), AllocError>
    ensures { OnOk result (notes.new.items ≡ notes.old.items
        ++ take_note transition.now) }
{
    match (transition.event, about(transition)) {
        (Recorded::Take, Some(slot)) => push_bare(notes, transition, slot, Deed::Taken),
        _ => Ok(()),
    }
}

/// Whether a process has made all the steps that it may, without a call or a fault.
fn has_spent(held: &CpuGlance) -> bool
    ensures { result ≡ has_spent held.now }
{
    matches!(held.stop, Stop::Spent) && held.budget <= held.count
}

/// Whether a call takes a message: RECEIVE, or SENDREC to another process.
fn takes_message(held: &CpuGlance) -> bool
    ensures { result ≡ takes_message held.now }
{
    held.image.ecx == RECEIVE || held.image.ecx == SENDREC && !asks_kernel(held)
}

/// Whether the process of a slot has gone on with an error.
fn is_error(transition: &Transition, slot: u32) -> bool
    ensures { result ≡ is_error (gone_on transition.now slot) }
{
    match gone_on(transition, slot) {
        Some(result) => result != 0,
        None => false,
    }
}

/// What a note of a call is of.
fn call_deed(transition: &Transition, held: &CpuGlance) -> Deed
    ensures { result ≡ call_deed transition.now held.now }
{
    if !takes_message(held) {
        Deed::Called
    } else if is_error(transition, u32::from(held.slot)) {
        Deed::Missed
    } else {
        Deed::Received
    }
}

/// Appends the note of how a process comes back, if it makes a call or its budget is spent.
fn push_return_of(
    notes: &mut Vec<Note>,
    transition: &Transition,
    held: &CpuGlance,
) -> Result<(), AllocError>
    ensures { OnOk result (notes.new.items ≡ notes.old.items
        ++ return_of transition.now held.now) }
{
    let slot = u32::from(held.slot);
    if is_acted(transition, slot) {
        push_bare(notes, transition, slot, call_deed(transition, held))
    } else if has_spent(held) {
        push_bare(notes, transition, slot, Deed::Spent)
    } else {
        Ok(())
    }
}

/// Appends the note of how a process comes back, if the record is that.
#[tactic(auto, unfolding(crate::specs::Noting::return_note))]
fn push_return(notes: &mut Vec<Note>, transition: &Transition) -> Result<(), AllocError>
    ensures { OnOk result (notes.new.items ≡ notes.old.items
        ++ return_note transition.now) }
{
    match (transition.event, held_before(transition)) {
        (Recorded::Back(_), Some(held)) => push_return_of(notes, transition, held),
        _ => Ok(()),
    }
}

/// Appends the notes of changes.
fn push_changes(notes: &mut Vec<Note>, transition: &Transition) -> Result<(), AllocError>
    ensures { OnOk result (notes.new.items ≡ notes.old.items
        ++ change_notes transition.now) }
{
    for slot in 0..32u32 {
        push_change(notes, transition, slot)?;
    }
    Ok(())
}

/// Appends the notes of a record.
#[tactic(auto, unfolding(crate::specs::Noting::notes_of))]
pub(crate) fn push_notes(notes: &mut Vec<Note>, transition: &Transition) -> Result<(), AllocError>
    ensures { OnOk result (notes.new.items ≡ notes.old.items
        ++ notes_of transition.now) }
{
    push_taken(notes, transition)?;
    push_return(notes, transition)?;
    push_changes(notes, transition)
}
