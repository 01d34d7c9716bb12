//! What a viewer shows when it is asked about a value.
//!
//! # From a hint to its text
//!
//! A hint names a record and perhaps a slot. It becomes a line of the trace only when its value is
//! printed.

ghost use Rattle.std.specs.Prelude.{◌≡◌, ◌++◌, OnOk};
ghost use Rattle.mx_app_draw.specs.Hints.{transition_line, kept_hint, on_processor, standing_hint, placed_line, hint_line, hint_title, hint_text, end_text};

use crate::scene_values::{Scene, Standing};
use crate::svg_text::push_shown;
use crate::texts::push_standing;
use crate::values::Hint;
use mx_look::{
    Transition, push_change, push_console_line, push_delivery, push_fault_line, push_head,
    push_kept, slot_in,
};
use mx_print_report::push_decimal;
use std::alloc::{AllocError, Global};

/// Appends the line of a notification that becomes pending for a slot, if it does.
#[tactic(auto, unfolding(crate::specs::Hints::kept_hint))]
fn push_kept_hint(
    out: &mut Vec<u8>,
    transition: &Transition,
    slot: u32,
    place: u32,
) -> Result<(), AllocError>
    ensures { OnOk result (out.new.items ≡ out.old.items ++ kept_hint transition.now slot place) }
{
    match (
        slot_in(&transition.before, slot),
        slot_in(&transition.after, slot),
    ) {
        (Some(before), Some(after)) => push_kept(out, transition, before, after, place),
        _ => Ok(()),
    }
}

/// Appends the line of a transition that a hint names.
#[tactic(auto, unfolding(crate::specs::Hints::transition_line))]
fn push_transition_line(
    out: &mut Vec<u8>,
    transition: &Transition,
    hint: Hint,
) -> Result<(), AllocError>
    ensures { OnOk result (out.new.items ≡ out.old.items ++ transition_line transition.now hint) }
{
    match hint {
        Hint::Record(_) => {
            push_head(out, transition)?;
            push_fault_line(out, transition)
        }
        Hint::Change(_, slot) => push_change(out, transition, slot),
        Hint::Delivery(_, slot) if slot < 32 => push_delivery(out, transition, slot),
        Hint::Kept(_, slot, place) => push_kept_hint(out, transition, slot, place),
        Hint::Console(_) => push_console_line(out, transition),
        _ => Ok(()),
    }
}

/// Appends the processor that a process is on, if it is on one.
fn push_on_processor(out: &mut Vec<u8>, cpu: Option<u8>) -> Result<(), AllocError>
    ensures { OnOk result (out.new.items ≡ out.old.items ++ on_processor cpu) }
{
    let Some(cpu) = cpu else {
        return Ok(());
    };
    out.extend_from_slice(b" on processor ")?;
    push_decimal(out, u32::from(cpu))
}

/// Appends what a process does after a record.
#[tactic(auto, unfolding(crate::specs::Hints::standing_hint))]
fn push_standing_hint(out: &mut Vec<u8>, seen: &Standing, number: u32) -> Result<(), AllocError>
    ensures { OnOk result (out.new.items ≡ out.old.items ++ standing_hint seen.now number) }
{
    push_standing(out, seen)?;
    push_on_processor(out, seen.cpu)?;
    out.extend_from_slice(b" after record ")?;
    push_decimal(out, number)
}

/// Appends the line of the transition at a place that a hint names, if there is one.
#[tactic(auto, unfolding(crate::specs::Hints::placed_line))]
fn push_placed_line(
    out: &mut Vec<u8>,
    scene: &Scene,
    place: u32,
    hint: Hint,
) -> Result<(), AllocError>
    ensures { OnOk result (out.new.items ≡ out.old.items ++ placed_line scene.now place hint) }
{
    match scene.transitions.get(place as usize) {
        Some(transition) => push_transition_line(out, transition, hint),
        None => Ok(()),
    }
}

/// Appends the text of a hint.
#[tactic(auto, unfolding(crate::specs::Hints::hint_line))]
fn push_hint_line(out: &mut Vec<u8>, scene: &Scene, hint: Hint) -> Result<(), AllocError>
    ensures { OnOk result (out.new.items ≡ out.old.items ++ hint_line scene.now hint) }
{
    match hint {
        Hint::Nothing => Ok(()),
        Hint::Standing(seen, number) => push_standing_hint(out, &seen, number),
        Hint::Record(place)
        | Hint::Change(place, _)
        | Hint::Delivery(place, _)
        | Hint::Kept(place, _, _)
        | Hint::Console(place) => push_placed_line(out, scene, place, hint),
    }
}

/// Appends the text of a hint, as a title.
fn push_told(alloc: Global, out: &mut Vec<u8>, scene: &Scene, hint: Hint) -> Result<(), AllocError>
    ensures { OnOk result (out.new.items ≡ out.old.items ++ hint_title scene.now hint) }
{
    let mut line = Vec::new(alloc);
    push_hint_line(&mut line, scene, hint)?;
    out.extend_from_slice(b"<title>")?;
    push_shown(out, line.as_slice())?;
    out.extend_from_slice(b"</title>")
}

/// Appends the title that a hint is, if it has any text.
#[tactic(auto, unfolding(crate::specs::Hints::hint_text))]
pub(crate) fn push_hint(
    alloc: Global,
    out: &mut Vec<u8>,
    scene: &Scene,
    hint: Hint,
) -> Result<(), AllocError>
    ensures { OnOk result (out.new.items ≡ out.old.items ++ hint_text scene.now hint) }
{
    match hint {
        Hint::Nothing => Ok(()),
        _ => push_told(alloc, out, scene, hint),
    }
}

/// Appends the end of a figure that has nothing in it but a hint.
#[tactic(auto, unfolding(crate::specs::Hints::end_text))]
pub(crate) fn push_end(
    alloc: Global,
    out: &mut Vec<u8>,
    scene: &Scene,
    tag: &[u8],
    hint: Hint,
) -> Result<(), AllocError>
    ensures { OnOk result (out.new.items ≡ out.old.items ++ end_text scene.now tag.now hint) }
{
    match hint {
        Hint::Nothing => out.extend_from_slice(b"/>\n"),
        _ => {
            out.push(b'>')?;
            push_told(alloc, out, scene, hint)?;
            out.extend_from_slice(b"</")?;
            out.extend_from_slice(tag)?;
            out.extend_from_slice(b">\n")
        }
    }
}
