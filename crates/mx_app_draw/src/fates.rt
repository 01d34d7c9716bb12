//! Ticks and interrupt lines; and processes that are killed, die, are born again, or go on with an error.

ghost use Rattle.std.specs.Prelude.{◌≡◌, ◌<◌, ◌≤◌, ◌++◌, OnOk, IfSome};
ghost use Rattle.mx_app_draw.specs.Fates.{IsOnPaper, height_of, line_to, note, outside_glyph, outside_values, killer, is_gone, has_fallen, kill_values, middle_glyph, death_values, birth_values, fate_values, freed_values};

use crate::four_figures::{Point, arrow, glyph, label};
use crate::layout::{Origin, row, row_of, toward};
use crate::{Anchor, ArrowKind, GlyphKind, Hint, LabelKind, Text, Value};
use mx_look::{Transition, gone_on, held_before, is_acted, slot_in};
use mx_machine::Recorded;
use mx_print_report::Doing;
use mx_proc::DeathCause;
use std::alloc::AllocError;

/// The height of the middle of a service's row. For a slot that is no service: of the row `outside`.
pub(crate) fn height_of(origin: Origin, slot: u32) -> u32
    requires { IsOnPaper origin }
    ensures height { result ≡ height_of origin slot }
    ensures above { 40 ≤ result }
    ensures below { result ≤ 40000 }
{
    row(origin.top, row_of(origin.services, slot))
}

/// A vertical line from this height to the row of a service.
pub(crate) fn line_to(origin: Origin, kind: ArrowKind, from: u32, slot: u32, hint: Hint) -> Value
    requires { IsOnPaper origin }
    ensures { result ≡ line_to origin kind from slot hint }
{
    let tail = Point {
        x: origin.x,
        y: from,
    };
    arrow(kind, tail, toward(from, height_of(origin, slot)), hint)
}

/// A text next to the record, just above the middle of a service's row.
pub(crate) fn note(kind: LabelKind, origin: Origin, slot: u32, text: Text, hint: Hint) -> Value
    requires { IsOnPaper origin }
    ensures { result ≡ note kind origin slot text hint }
{
    let beside = Point {
        x: origin.x + 6,
        y: height_of(origin, slot) - 8,
    };
    label(kind, beside, Anchor::Start, text, hint)
}

/// Appends a glyph in the row `outside`, and a number above the glyph.
fn push_outside_glyph(
    out: &mut Vec<Value>,
    origin: Origin,
    kind: GlyphKind,
    number: u32,
) -> Result<(), AllocError>
    requires { IsOnPaper origin }
    ensures { OnOk result (out.new.items ≡ out.old.items ++ outside_glyph origin kind number) }
{
    let middle = Point {
        x: origin.x,
        y: row(origin.top, 0),
    };
    let above = Point {
        x: origin.x,
        y: middle.y - 9,
    };
    let hint = Hint::Record(origin.place);
    out.push(glyph(kind, middle, hint))?;
    out.push(label(
        LabelKind::Note,
        above,
        Anchor::Middle,
        Text::Number(number),
        hint,
    ))?;
    Ok(())
}

/// Appends a tick with the uptime, or an interrupt line with its number.
#[tactic(auto, unfolding(crate::specs::Fates::outside_values))]
pub(crate) fn push_outside(
    out: &mut Vec<Value>,
    transition: &Transition,
    origin: Origin,
) -> Result<(), AllocError>
    requires { IsOnPaper origin }
    ensures { OnOk result (out.new.items ≡ out.old.items ++ outside_values transition.now origin) }
{
    match transition.event {
        Recorded::Tick => push_outside_glyph(out, origin, GlyphKind::Tick, transition.after.uptime),
        Recorded::Line(line) => push_outside_glyph(out, origin, GlyphKind::Line, line),
        _ => Ok(()),
    }
}

/// The height where the line of a kill begins: the row `outside` for an event, or the row of the process
/// whose `Back` killed it.
#[tactic(auto, unfolding(crate::specs::Fates::killer))]
fn killer(transition: &Transition, origin: Origin, slot: u32) -> Option<u32>
    requires { IsOnPaper origin }
    ensures { result ≡ killer transition.now origin slot }
{
    match transition.event {
        Recorded::Kill(_) => Some(row(origin.top, 0)),
        Recorded::Back(_) => match held_before(transition) {
            Some(held) if u32::from(held.slot) != slot => Some(height_of(
                origin,
                u32::from(held.slot),
            )),
            _ => None,
        },
        _ => None,
    }
}

/// Whether a process is dead or doomed.
fn is_gone(doing: Doing) -> bool
    ensures { result ≡ is_gone doing }
{
    matches!(doing, Doing::Doomed | Doing::Down(_))
}

/// Whether a slot's process dies or gets doomed in this transition. A doomed one that now dies doesn't count.
fn has_fallen(transition: &Transition, slot: u32) -> bool
    ensures { result ≡ has_fallen transition.now slot }
{
    match (
        slot_in(&transition.before, slot),
        slot_in(&transition.after, slot),
    ) {
        (Some(before), Some(after)) => !is_gone(before.doing) && is_gone(after.doing),
        _ => false,
    }
}

/// Appends the line from a killer to this slot, if the slot's process is killed in this transition.
#[tactic(auto, unfolding(crate::specs::Fates::kill_values))]
fn push_kill(
    out: &mut Vec<Value>,
    transition: &Transition,
    origin: Origin,
    slot: u32,
) -> Result<(), AllocError>
    requires { IsOnPaper origin }
    ensures { OnOk result (out.new.items ≡ out.old.items
        ++ kill_values transition.now origin slot) }
{
    if !has_fallen(transition, slot) {
        return Ok(());
    }
    if let Some(from) = killer(transition, origin, slot) {
        let hint = Hint::Change(origin.place, slot);
        out.push(line_to(origin, ArrowKind::Kill, from, slot, hint))?;
    }
    Ok(())
}

/// A glyph in the row of a service.
fn middle_glyph(origin: Origin, slot: u32, kind: GlyphKind) -> Value
    requires { IsOnPaper origin }
    ensures { result ≡ middle_glyph origin slot kind }
{
    let middle = Point {
        x: origin.x,
        y: height_of(origin, slot),
    };
    glyph(kind, middle, Hint::Change(origin.place, slot))
}

/// Appends the cross of a death, and the word for a kill if it was one.
#[tactic(auto, unfolding(crate::specs::Fates::death_values))]
fn push_death(
    out: &mut Vec<Value>,
    origin: Origin,
    slot: u32,
    cause: DeathCause,
) -> Result<(), AllocError>
    requires { IsOnPaper origin }
    ensures { OnOk result (out.new.items ≡ out.old.items ++ death_values origin slot cause) }
{
    out.push(middle_glyph(origin, slot, GlyphKind::Death))?;
    if matches!(cause, DeathCause::Kill) {
        let hint = Hint::Change(origin.place, slot);
        out.push(note(LabelKind::Bad, origin, slot, Text::Killed, hint))?;
    }
    Ok(())
}

/// Appends the line and the diamond of a respawn, with the new endpoint.
#[tactic(auto, unfolding(crate::specs::Fates::birth_values))]
fn push_birth(
    out: &mut Vec<Value>,
    origin: Origin,
    slot: u32,
    endpoint: u32,
) -> Result<(), AllocError>
    requires { IsOnPaper origin }
    ensures { OnOk result (out.new.items ≡ out.old.items ++ birth_values origin slot endpoint) }
{
    let hint = Hint::Change(origin.place, slot);
    out.push(line_to(origin, ArrowKind::Respawn, row(origin.top, 0), slot, hint))?;
    out.push(middle_glyph(origin, slot, GlyphKind::Birth))?;
    out.push(note(LabelKind::Note, origin, slot, Text::Number(endpoint), hint))?;
    Ok(())
}

/// Appends what becomes of a slot: killed, dead, born again.
#[tactic(auto, unfolding(crate::specs::Fates::fate_values))]
pub(crate) fn push_fate(
    out: &mut Vec<Value>,
    transition: &Transition,
    origin: Origin,
    slot: u32,
) -> Result<(), AllocError>
    requires { IsOnPaper origin }
    ensures { OnOk result (out.new.items ≡ out.old.items
        ++ fate_values transition.now origin slot) }
{
    push_kill(out, transition, origin, slot)?;
    let (Some(before), Some(after)) = (
        slot_in(&transition.before, slot),
        slot_in(&transition.after, slot),
    ) else {
        return Ok(());
    };
    match (before.doing, after.doing) {
        (Doing::Down(_), Doing::Down(_)) => Ok(()),
        (_, Doing::Down(cause)) => push_death(out, origin, slot, cause),
        (Doing::Down(_), _) => push_birth(out, origin, slot, after.endpoint),
        _ => Ok(()),
    }
}

/// Appends an error, if the slot's process was waiting and goes on with this error.
#[tactic(auto, unfolding(crate::specs::Fates::freed_values))]
pub(crate) fn push_freed(
    out: &mut Vec<Value>,
    transition: &Transition,
    origin: Origin,
    slot: u32,
) -> Result<(), AllocError>
    requires { IsOnPaper origin }
    ensures { OnOk result (out.new.items ≡ out.old.items
        ++ freed_values transition.now origin slot) }
{
    if is_acted(transition, slot) {
        return Ok(());
    }
    let Some(outcome) = gone_on(transition, slot) else {
        return Ok(());
    };
    if outcome != 0 {
        let hint = Hint::Change(origin.place, slot);
        out.push(note(LabelKind::Bad, origin, slot, Text::Outcome(outcome), hint))?;
    }
    Ok(())
}
