//! The whole picture: its title, its strips, one below the other, and its legend.

ghost use Rattle.std.specs.Prelude.{◌≡◌, ◌≤◌, ◌++◌, OnOk, IfOk, length};
ghost use Rattle.mx_app_draw.specs.Picture.{IsDrawable, title, strips, refused_values, picture, IsPicture, IsOnItsPaper, AllAreCovered};

use crate::four_figures::{Point, label};
use crate::layout::{paper_height, paper_width, strip_at, strip_count};
use crate::legend::push_legend;
use crate::strips::push_strip;
use crate::{Anchor, Drawing, Hint, LabelKind, Scene, Text, Value};
use std::alloc::{AllocError, Global};

/// The title.
fn title() -> Value
    ensures { result ≡ title }
{
    let at = Point { x: 8, y: 20 };
    label(
        LabelKind::Title,
        at,
        Anchor::Start,
        Text::Title,
        Hint::Nothing,
    )
}

/// Appends the strips.
fn push_strips(
    out: &mut Vec<Value>,
    scene: &Scene,
    width: u32,
    count: u32,
) -> Result<(), AllocError>
    requires drawable { IsDrawable scene.now }
    requires count { count ≡ length scene.now.transitions.items }
    ensures { OnOk result (out.new.items ≡ out.old.items ++ strips scene.now width count) }
{
    for index in 0..strip_count(count) {
        push_strip(out, scene, width, strip_at(scene.services, count, index))?;
    }
    Ok(())
}

/// Appends the text about the refused record, if the run ends before one: its line and why.
#[tactic(auto, unfolding(crate::specs::Picture::refused_values))]
fn push_refused(out: &mut Vec<Value>, scene: &Scene, width: u32) -> Result<(), AllocError>
    requires { 8 ≤ width }
    ensures { OnOk result (out.new.items ≡ out.old.items ++ refused_values scene.now width) }
{
    if scene.refused.is_some() {
        let at = Point {
            x: width - 8,
            y: 20,
        };
        out.push(label(
            LabelKind::Refused,
            at,
            Anchor::End,
            Text::Refused,
            Hint::Nothing,
        ))?;
    }
    Ok(())
}

/// The picture of a run: a title, strips of at most 40 records each, one below the other, and a legend. For
/// at most 1,000 records and 32 services.
#[tactic(auto, unfolding(crate::specs::Picture::picture))]
pub fn picture(alloc: Global, scene: &Scene) -> Result<Drawing, AllocError>
    requires { IsDrawable scene.now }
    ensures picture { IfOk result (λ drawing. IsPicture scene.now drawing) }
    ensures inside { IfOk result (λ drawing. IsOnItsPaper drawing) }
    ensures covered { AllAreCovered scene.now }
{
    let count = scene.transitions.len() as u32;
    let width = paper_width(count);
    let mut values = Vec::new(alloc);
    values.push(title())?;
    push_strips(&mut values, scene, width, count)?;
    push_refused(&mut values, scene, width)?;
    push_legend(&mut values, scene.services, count)?;
    Ok(Drawing {
        width,
        height: paper_height(scene.services, count),
        values,
    })
}
