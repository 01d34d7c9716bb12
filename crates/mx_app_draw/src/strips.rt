//! A strip: its bands, its axis, its names, its bars, and what its records changed.

ghost use Rattle.std.specs.Prelude.{◌≡◌, ◌<◌, ◌≤◌, ◌++◌, None, Some, MatchOption, OnOk};
ghost use Rattle.mx_app_draw.specs.Bars.{IsWithin};
ghost use Rattle.mx_app_draw.specs.Strips.{band, bands, transition_at, is_marked, axis_values, axis_at, axis, name_label, end_label, name_values, service_names, names, came_at, came, strip_values};

use crate::bars::{push_bars, seen_at};
use crate::between_transitions::world_at;
use crate::came::push_record;
use crate::four_figures::{Point, bar, label};
use crate::layout::{Origin, Strip, column, row, rows};
use crate::{Anchor, BarKind, Hint, LabelKind, Scene, Text, Value};
use mx_look::Transition;
use std::alloc::AllocError;

/// The `x` where names begin, in pixels.
const MARGIN: u32 = 8;

/// Appends the band under a row, if it has one.
#[tactic(auto, unfolding(crate::specs::Strips::band))]
fn push_band(out: &mut Vec<Value>, top: u32, width: u32, index: u32) -> Result<(), AllocError>
    requires top { top ≤ 30000 }
    requires index { index ≤ 33 }
    ensures { OnOk result (out.new.items ≡ out.old.items ++ band top width index) }
{
    if index % 2 == 1 {
        let corner = Point {
            x: 0,
            y: row(top, index) - 16,
        };
        out.push(bar(BarKind::Band, corner, width, 32, Hint::Nothing))?;
    }
    Ok(())
}

/// Appends the bands under each second row.
fn push_bands(out: &mut Vec<Value>, top: u32, width: u32, services: u32) -> Result<(), AllocError>
    requires top { top ≤ 30000 }
    requires services { services ≤ 32 }
    ensures { OnOk result (out.new.items ≡ out.old.items ++ bands top width services) }
{
    for index in 0..rows(services) {
        push_band(out, top, width, index)?;
    }
    Ok(())
}

/// Whether a record has its number above its column. Every fifth record has, and so does the first record
/// of a strip, but not if the one after it has.
fn is_marked(index: u32, number: u32) -> bool
    ensures { result ≡ is_marked index number }
{
    number % 5 == 0 || index == 0 && number % 5 != 4
}

/// Appends a record's vertical line and its number above, if the record is marked.
#[tactic(auto, unfolding(crate::specs::Strips::axis_values))]
fn push_axis_number(
    out: &mut Vec<Value>,
    strip: Strip,
    services: u32,
    index: u32,
    number: u32,
) -> Result<(), AllocError>
    requires strip { IsWithin strip }
    requires services { services ≤ 32 }
    requires index { index ≤ 40 }
    ensures { OnOk result (out.new.items ≡ out.old.items
        ++ axis_values strip services index number) }
{
    if !is_marked(index, number) {
        return Ok(());
    }
    let below = Point {
        x: column(index + 1),
        y: strip.top + 16,
    };
    let above = Point {
        x: column(index + 1),
        y: strip.top + 12,
    };
    let height = 32 * rows(services) + 8;
    let text = Text::Number(number);
    out.push(bar(BarKind::Grid, below, 1, height, Hint::Nothing))?;
    out.push(label(LabelKind::Axis, above, Anchor::Middle, text, Hint::Nothing))?;
    Ok(())
}

/// The step of a column.
fn transition_at(scene: &Scene, strip: Strip, index: u32) -> Option<&Transition>
    ensures { MatchOption result (transition_at scene.now strip index ≡ None)
        (λ transition. transition_at scene.now strip index ≡ Some transition.now) }
{
    scene.transitions.get(strip.place as usize + index as usize)
}

/// Appends the line and the number of a step of a strip.
#[tactic(auto, unfolding(crate::specs::Strips::axis_at))]
fn push_axis_at(
    out: &mut Vec<Value>,
    scene: &Scene,
    strip: Strip,
    index: u32,
) -> Result<(), AllocError>
    requires strip { IsWithin strip }
    requires services { scene.now.services ≤ 32 }
    requires index { index ≤ 40 }
    ensures { OnOk result (out.new.items ≡ out.old.items ++ axis_at scene.now strip index) }
{
    match transition_at(scene, strip, index) {
        Some(transition) => push_axis_number(out, strip, scene.services, index, transition.number),
        None => Ok(()),
    }
}

/// Appends the axis of a strip.
fn push_axis(out: &mut Vec<Value>, scene: &Scene, strip: Strip) -> Result<(), AllocError>
    requires strip { IsWithin strip }
    requires services { scene.now.services ≤ 32 }
    ensures { OnOk result (out.new.items ≡ out.old.items ++ axis scene.now strip) }
{
    for index in 0..strip.count {
        push_axis_at(out, scene, strip, index)?;
    }
    Ok(())
}

/// The name of a row.
fn name(strip: Strip, index: u32, text: Text) -> Value
    requires strip { IsWithin strip }
    requires index { index ≤ 33 }
    ensures { result ≡ name_label strip index text }
{
    let at = Point {
        x: MARGIN,
        y: row(strip.top, index) + 4,
    };
    label(LabelKind::Name, at, Anchor::Start, text, Hint::Nothing)
}

/// The text at the end of a row.
fn end(strip: Strip, index: u32, text: Text) -> Value
    requires strip { IsWithin strip }
    requires index { index ≤ 33 }
    ensures { result ≡ end_label strip index text }
{
    let at = Point {
        x: column(strip.count + 1) + 8,
        y: row(strip.top, index) + 4,
    };
    label(LabelKind::End, at, Anchor::Start, text, Hint::Nothing)
}

/// Appends a service's name before its row, and after the row what it does in the strip's last world.
#[tactic(auto, unfolding(crate::specs::Strips::name_values))]
fn push_name(out: &mut Vec<Value>, scene: &Scene, strip: Strip, slot: u32) -> Result<(), AllocError>
    requires strip { IsWithin strip }
    requires slot { slot < 32 }
    ensures { OnOk result (out.new.items ≡ out.old.items ++ name_values scene.now strip slot) }
{
    if let Some(seen) = seen_at(scene, strip, slot, 0) {
        out.push(name(strip, 1 + slot, Text::Who(seen)))?;
    }
    if let Some(seen) = seen_at(scene, strip, slot, strip.count) {
        out.push(end(strip, 1 + slot, Text::Standing(seen)))?;
    }
    Ok(())
}

/// Appends the names of the services, and what each does in the strip's last world.
fn push_services(out: &mut Vec<Value>, scene: &Scene, strip: Strip) -> Result<(), AllocError>
    requires strip { IsWithin strip }
    requires services { scene.now.services ≤ 32 }
    ensures { OnOk result (out.new.items ≡ out.old.items ++ service_names scene.now strip) }
{
    for slot in 0..scene.services {
        push_name(out, scene, strip, slot)?;
    }
    Ok(())
}

/// Appends the names of the rows.
#[tactic(auto, unfolding(crate::specs::Strips::names))]
fn push_names(out: &mut Vec<Value>, scene: &Scene, strip: Strip) -> Result<(), AllocError>
    requires strip { IsWithin strip }
    requires services { scene.now.services ≤ 32 }
    ensures { OnOk result (out.new.items ≡ out.old.items ++ names scene.now strip) }
{
    let console = scene.services + 1;
    let written = world_at(scene, strip.place, strip.count).written;
    out.push(name(strip, 0, Text::Outside))?;
    push_services(out, scene, strip)?;
    out.push(name(strip, console, Text::Console))?;
    out.push(end(strip, console, Text::Bytes(written)))?;
    Ok(())
}

/// Appends what a step of a strip changed.
#[tactic(auto, unfolding(crate::specs::Strips::came_at))]
fn push_came_at(
    out: &mut Vec<Value>,
    scene: &Scene,
    strip: Strip,
    index: u32,
) -> Result<(), AllocError>
    requires strip { IsWithin strip }
    requires services { scene.now.services ≤ 32 }
    requires index { index ≤ 40 }
    ensures { OnOk result (out.new.items ≡ out.old.items ++ came_at scene.now strip index) }
{
    let Some(transition) = transition_at(scene, strip, index) else {
        return Ok(());
    };
    let origin = Origin {
        place: strip.place + index,
        x: column(index + 1),
        top: strip.top,
        services: scene.services,
    };
    push_record(out, transition, origin)
}

/// Appends what the steps of a strip changed.
fn push_came(out: &mut Vec<Value>, scene: &Scene, strip: Strip) -> Result<(), AllocError>
    requires strip { IsWithin strip }
    requires services { scene.now.services ≤ 32 }
    ensures { OnOk result (out.new.items ≡ out.old.items ++ came scene.now strip) }
{
    for index in 0..strip.count {
        push_came_at(out, scene, strip, index)?;
    }
    Ok(())
}

/// Appends a strip.
#[tactic(auto, unfolding(crate::specs::Strips::strip_values))]
pub(crate) fn push_strip(
    out: &mut Vec<Value>,
    scene: &Scene,
    width: u32,
    strip: Strip,
) -> Result<(), AllocError>
    requires strip { IsWithin strip }
    requires services { scene.now.services ≤ 32 }
    ensures { OnOk result (out.new.items ≡ out.old.items ++ strip_values scene.now width strip) }
{
    push_bands(out, strip.top, width, scene.services)?;
    push_axis(out, scene, strip)?;
    push_names(out, scene, strip)?;
    push_bars(out, scene, strip)?;
    push_came(out, scene, strip)
}
