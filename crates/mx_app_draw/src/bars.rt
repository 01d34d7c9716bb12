//! The bars of a strip. As long as a service does one thing, from column to column, it has one bar;
//! when it begins to do something else, a new bar begins.

ghost use Rattle.std.specs.Prelude.{◌≡◌, ◌<◌, ◌≤◌, ◌+◌, ◌++◌, OnOk, IfSome};
ghost use Rattle.mx_app_draw.specs.Bars.{IsWithin, part, cpu_label, state_bar, seen_at, begins, next_run, run_end, bar_here, bars_of_slot, bars};

use crate::between_transitions::{number_at, same_seen, standing_of, world_at};
use crate::four_figures::{Point, bar, label};
use crate::layout::{Strip, column, row};
use crate::{Anchor, BarKind, Hint, LabelKind, Scene, Standing, Text, Value};
use mx_print_report::Doing;
use std::alloc::AllocError;

/// Where a bar is: its left end is at `x`, and its middle at height `y`.
#[derive(Clone, Copy)]
pub(crate) struct Span {
    pub(crate) x: u32,
    pub(crate) width: u32,
    pub(crate) y: u32,
}

/// A bar. Its top is `above` pixels above the middle of its row, and it is `height` pixels high.
fn part(span: Span, kind: BarKind, above: u32, height: u32, hint: Hint) -> Value
    requires { above ≤ span.y }
    ensures { result ≡ part span kind above height hint }
{
    let corner = Point {
        x: span.x,
        y: span.y - above,
    };
    bar(kind, corner, span.width, height, hint)
}

/// Appends the number of the processor in a bar's first column.
#[tactic(auto, unfolding(crate::specs::Bars::cpu_label))]
fn push_cpu(out: &mut Vec<Value>, span: Span, cpu: Option<u8>) -> Result<(), AllocError>
    requires x { span.x ≤ 60000 }
    requires y { span.y ≤ 60000 }
    ensures { OnOk result (out.new.items ≡ out.old.items ++ cpu_label span cpu) }
{
    if let Some(cpu) = cpu {
        let middle = Point {
            x: span.x + 14,
            y: span.y + 4,
        };
        let text = Text::Number(u32::from(cpu));
        out.push(label(LabelKind::Cpu, middle, Anchor::Middle, text, Hint::Nothing))?;
    }
    Ok(())
}

/// Appends the bar that shows what a process does, and for one on a processor the processor's number.
#[tactic(auto, unfolding(crate::specs::Bars::state_bar))]
fn push_state_bar(
    out: &mut Vec<Value>,
    span: Span,
    seen: &Standing,
    hint: Hint,
) -> Result<(), AllocError>
    requires x { span.x ≤ 60000 }
    requires above { 6 ≤ span.y }
    requires y { span.y ≤ 60000 }
    ensures { OnOk result (out.new.items ≡ out.old.items ++ state_bar span seen.now hint) }
{
    match seen.doing {
        Doing::Out => {
            out.push(part(span, BarKind::Out, 6, 12, hint))?;
            push_cpu(out, span, seen.cpu)?;
        }
        Doing::Doomed => {
            out.push(part(span, BarKind::Doomed, 6, 12, hint))?;
            push_cpu(out, span, seen.cpu)?;
        }
        Doing::Calling(_) => {
            out.push(part(span, BarKind::Sending, 3, 3, hint))?;
            out.push(part(span, BarKind::Awaiting, 0, 3, hint))?;
        }
        Doing::Ready => out.push(part(span, BarKind::Ready, 3, 6, hint))?,
        Doing::Sending(_) => out.push(part(span, BarKind::Sending, 3, 6, hint))?,
        Doing::Awaiting(_) => out.push(part(span, BarKind::Awaiting, 3, 6, hint))?,
        Doing::Receiving(_) => out.push(part(span, BarKind::Receiving, 1, 2, hint))?,
        Doing::Home | Doing::Down(_) => (),
    }
    Ok(())
}

/// What the picture shows of a slot in a column, or `None` if there is no such slot.
#[tactic(auto, unfolding(crate::specs::Bars::seen_at))]
pub(crate) fn seen_at(scene: &Scene, strip: Strip, slot: u32, index: u32) -> Option<Standing>
    ensures { result ≡ seen_at scene.now strip slot index }
{
    standing_of(world_at(scene, strip.place, index), slot)
}

/// Whether a run of a slot begins in a column. A run is columns side by side in which the slot
/// shows one thing: so one begins in column 0, and in each column that shows another thing than the
/// column before.
#[tactic(auto, unfolding(crate::specs::Bars::begins))]
fn begins(scene: &Scene, strip: Strip, slot: u32, index: u32) -> bool
    ensures { result ≡ begins scene.now strip slot index }
{
    if index == 0 {
        return true;
    }
    let before = seen_at(scene, strip, slot, index - 1);
    let here = seen_at(scene, strip, slot, index);
    !same_seen(&before, &here)
}

/// The column where the next run of a slot begins after this column, if one does.
#[tactic(auto, unfolding(crate::specs::Bars::next_run))]
fn next_run(scene: &Scene, strip: Strip, slot: u32, index: u32) -> Option<u32>
    requires count { strip.count ≤ 40 }
    requires index { index ≤ strip.count }
    ensures next { result ≡ next_run scene.now strip slot index }
    ensures after { IfSome result (λ later. index < later) }
    ensures within { IfSome result (λ later. later ≤ strip.count) }
{
    (index + 1..strip.count + 1).find(|later| begins(scene, strip, slot, *later))
}

/// The first column after the run that begins in this column: the next run's first one, or the one after
/// the strip's last column.
#[tactic(auto, unfolding(crate::specs::Bars::run_end))]
fn run_end(scene: &Scene, strip: Strip, slot: u32, index: u32) -> u32
    requires count { strip.count ≤ 40 }
    requires index { index ≤ strip.count }
    ensures end { result ≡ run_end scene.now strip slot index }
    ensures after { index < result }
    ensures within { result ≤ strip.count + 1 }
{
    match next_run(scene, strip, slot, index) {
        Some(later) => later,
        None => strip.count + 1,
    }
}

/// Appends the bar of a slot's run that begins in this column, if one begins there.
#[tactic(auto, unfolding(crate::specs::Bars::bar_here))]
fn push_bar_here(
    out: &mut Vec<Value>,
    scene: &Scene,
    strip: Strip,
    slot: u32,
    index: u32,
) -> Result<(), AllocError>
    requires strip { IsWithin strip }
    requires slot { slot < 32 }
    requires index { index ≤ strip.count }
    ensures { OnOk result (out.new.items ≡ out.old.items ++ bar_here scene.now strip slot index) }
{
    if !begins(scene, strip, slot, index) {
        return Ok(());
    }
    let Some(seen) = seen_at(scene, strip, slot, index) else {
        return Ok(());
    };
    let span = Span {
        x: column(index),
        width: 28 * (run_end(scene, strip, slot, index) - index),
        y: row(strip.top, 1 + slot),
    };
    let hint = Hint::Standing(seen, number_at(scene, strip.place, index));
    push_state_bar(out, span, &seen, hint)
}

/// Appends the bars of a slot.
fn push_bars_of_slot(
    out: &mut Vec<Value>,
    scene: &Scene,
    strip: Strip,
    slot: u32,
) -> Result<(), AllocError>
    requires strip { IsWithin strip }
    requires slot { slot < 32 }
    ensures { OnOk result (out.new.items ≡ out.old.items ++ bars_of_slot scene.now strip slot) }
{
    for index in 0..strip.count + 1 {
        push_bar_here(out, scene, strip, slot, index)?;
    }
    Ok(())
}

/// Appends the bars of a strip.
pub(crate) fn push_bars(out: &mut Vec<Value>, scene: &Scene, strip: Strip) -> Result<(), AllocError>
    requires strip { IsWithin strip }
    requires services { scene.now.services ≤ 32 }
    ensures { OnOk result (out.new.items ≡ out.old.items ++ bars scene.now strip) }
{
    for slot in 0..scene.services {
        push_bars_of_slot(out, scene, strip, slot)?;
    }
    Ok(())
}
