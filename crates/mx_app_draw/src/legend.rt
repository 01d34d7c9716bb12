//! The legend: a line for each figure, with a sample and its meaning.

ghost use Rattle.std.specs.Prelude.{◌≡◌, ◌<◌, ◌≤◌, ◌++◌, OnOk};
ghost use Rattle.mx_app_draw.specs.Legend.{IsCorner, item_at, sample_bar, sample_cpu, sample_arrow, sample_glyph, sample_text, sample, item_values, corner_of, legend_item, legend};

use crate::four_figures::{Point, arrow, bar, glyph, label};
use crate::layout::{items_abreast, legend_top};
use crate::{
    Anchor, ArrowKind, BarKind, Deed, GlyphKind, Hint, Item, LabelKind, Manner, Text, Value,
};
use std::alloc::AllocError;

/// How many items the legend has.
const ITEMS: u32 = 16;

/// The legend's item number `index`, from 0.
#[tactic(auto, unfolding(crate::specs::Legend::item_at))]
fn item_at(index: u32) -> Item
    ensures { result ≡ item_at index }
{
    match index {
        0 => Item::Out,
        1 => Item::Doomed,
        2 => Item::Ready,
        3 => Item::Sending,
        4 => Item::Calling,
        5 => Item::Awaiting,
        6 => Item::Receiving,
        7 => Item::Message,
        8 => Item::Notification,
        9 => Item::Pending,
        10 => Item::Tick,
        11 => Item::Line,
        12 => Item::Death,
        13 => Item::Birth,
        14 => Item::Wrong,
        _ => Item::Unmade,
    }
}

/// A sample bar. Its top is `above` pixels above the middle, and it is `height` pixels high.
fn sample_bar(at: Point, kind: BarKind, above: u32, height: u32) -> Value
    requires corner { IsCorner at }
    requires above { above ≤ 6 }
    ensures { result ≡ sample_bar at kind above height }
{
    let corner = Point {
        x: at.x,
        y: at.y - above,
    };
    bar(kind, corner, 24, height, Hint::Nothing)
}

/// The number of a processor.
fn sample_cpu(at: Point) -> Value
    requires { IsCorner at }
    ensures { result ≡ sample_cpu at }
{
    sample_text(at, LabelKind::Cpu, Text::Number(0))
}

/// An arrow.
fn sample_arrow(at: Point, kind: ArrowKind) -> Value
    requires { IsCorner at }
    ensures { result ≡ sample_arrow at kind }
{
    let tail = Point {
        x: at.x + 12,
        y: at.y - 8,
    };
    arrow(kind, tail, at.y + 6, Hint::Nothing)
}

/// A glyph.
fn sample_glyph(at: Point, kind: GlyphKind) -> Value
    requires { IsCorner at }
    ensures { result ≡ sample_glyph at kind }
{
    let middle = Point {
        x: at.x + 12,
        y: at.y,
    };
    glyph(kind, middle, Hint::Nothing)
}

/// A text.
fn sample_text(at: Point, kind: LabelKind, text: Text) -> Value
    requires { IsCorner at }
    ensures { result ≡ sample_text at kind text }
{
    let middle = Point {
        x: at.x + 12,
        y: at.y + 4,
    };
    label(kind, middle, Anchor::Middle, text, Hint::Nothing)
}

/// The sample that shows what an item looks like in the picture.
#[tactic(auto, unfolding(crate::specs::Legend::sample))]
fn sample(at: Point, item: Item) -> Value
    requires { IsCorner at }
    ensures { result ≡ sample at item }
{
    match item {
        Item::Out => sample_bar(at, BarKind::Out, 6, 12),
        Item::Doomed => sample_bar(at, BarKind::Doomed, 6, 12),
        Item::Ready => sample_bar(at, BarKind::Ready, 3, 6),
        Item::Sending => sample_bar(at, BarKind::Sending, 3, 6),
        Item::Calling => sample_bar(at, BarKind::Sending, 3, 3),
        Item::Awaiting => sample_bar(at, BarKind::Awaiting, 3, 6),
        Item::Receiving => sample_bar(at, BarKind::Receiving, 1, 2),
        Item::Message => sample_arrow(at, ArrowKind::Message),
        Item::Notification => sample_arrow(at, ArrowKind::Notification),
        Item::Pending => sample_arrow(at, ArrowKind::Pending),
        Item::Tick => sample_glyph(at, GlyphKind::Tick),
        Item::Line => sample_glyph(at, GlyphKind::Line),
        Item::Death => sample_glyph(at, GlyphKind::Death),
        Item::Birth => sample_glyph(at, GlyphKind::Birth),
        Item::Wrong => sample_text(at, LabelKind::Bad, Text::Deed(Deed::Call(1), Manner::Wrong)),
        Item::Unmade => sample_text(
            at,
            LabelKind::Call,
            Text::Deed(Deed::Call(1), Manner::Unmade),
        ),
    }
}

/// Appends an item: its sample and its meaning.
#[tactic(auto, unfolding(crate::specs::Legend::item_values))]
fn push_item(out: &mut Vec<Value>, at: Point, item: Item) -> Result<(), AllocError>
    requires { IsCorner at }
    ensures { OnOk result (out.new.items ≡ out.old.items ++ item_values at item) }
{
    out.push(sample(at, item))?;
    match item {
        Item::Out | Item::Doomed => out.push(sample_cpu(at))?,
        Item::Calling => out.push(sample_bar(at, BarKind::Awaiting, 0, 3))?,
        _ => (),
    }
    let beside = Point {
        x: at.x + 32,
        y: at.y + 4,
    };
    out.push(label(
        LabelKind::Key,
        beside,
        Anchor::Start,
        Text::Key(item),
        Hint::Nothing,
    ))?;
    Ok(())
}

/// Where item `index` is.
#[tactic(auto, using(crate::proofs::Within::quotient_within, crate::proofs::Within::rest_within))]
fn corner_of(services: u32, count: u32, index: u32) -> Point
    requires services { services ≤ 32 }
    requires count { count ≤ 1000 }
    requires index { index < 16 }
    ensures { result ≡ corner_of services count index }
{
    let abreast = items_abreast(count);
    Point {
        x: 8 + 136 * (index % abreast),
        y: legend_top(services, count) + 12 + 24 * (index / abreast),
    }
}

/// Appends the legend's item number `index`.
#[tactic(auto, unfolding(crate::specs::Legend::legend_item))]
fn push_legend_item(
    out: &mut Vec<Value>,
    services: u32,
    count: u32,
    index: u32,
) -> Result<(), AllocError>
    requires services { services ≤ 32 }
    requires count { count ≤ 1000 }
    requires index { index < 16 }
    ensures { OnOk result (out.new.items ≡ out.old.items ++ legend_item services count index) }
{
    push_item(out, corner_of(services, count, index), item_at(index))
}

/// Appends the legend.
pub(crate) fn push_legend(out: &mut Vec<Value>, services: u32, count: u32) -> Result<(), AllocError>
    requires services { services ≤ 32 }
    requires count { count ≤ 1000 }
    ensures { OnOk result (out.new.items ≡ out.old.items ++ legend services count) }
{
    for index in 0..ITEMS {
        push_legend_item(out, services, count, index)?;
    }
    Ok(())
}
