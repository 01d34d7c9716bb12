//! The figures of a picture: each value's SVG element.

ghost use Rattle.std.specs.Prelude.{◌≡◌, ◌++◌, OnOk};
ghost use Rattle.mx_app_draw.specs.Figures.{class, bar_text, anchored, placed, label_text, point, circle, head_base, head_text, ring_text, arrow_end, line_text, stem_text, arrow_text, moved, path_text, death_text, glyph_text, value_text};

use crate::classes::{anchor_word, arrow_class, bar_class, label_class};
use crate::hints::{push_end, push_hint};
use crate::scene_values::Scene;
use crate::svg_text::{push_attribute, push_pair, push_shown};
use crate::texts::push_words;
use crate::values::{Anchor, Arrow, ArrowKind, Bar, Glyph, GlyphKind, Label, Value};
use mx_print_report::push_decimal;
use std::alloc::{AllocError, Global};

/// Appends the begin of an element of a class.
#[tactic(auto, unfolding(crate::specs::Figures::class))]
fn push_class(out: &mut Vec<u8>, tag: &[u8], name: &[u8]) -> Result<(), AllocError>
    ensures { OnOk result (out.new.items ≡ out.old.items ++ class tag.now name.now) }
{
    out.push(b'<')?;
    out.extend_from_slice(tag)?;
    out.extend_from_slice(b" class=\"")?;
    out.extend_from_slice(name)?;
    out.push(b'"')?;
    Ok(())
}

/// Appends a rectangle.
#[tactic(auto, unfolding(crate::specs::Figures::bar_text))]
fn push_bar(alloc: Global, out: &mut Vec<u8>, scene: &Scene, bar: Bar) -> Result<(), AllocError>
    ensures { OnOk result (out.new.items ≡ out.old.items ++ bar_text scene.now bar) }
{
    push_class(out, b"rect", bar_class(bar.kind))?;
    push_attribute(out, b"x", bar.x)?;
    push_attribute(out, b"y", bar.y)?;
    push_attribute(out, b"width", bar.width)?;
    push_attribute(out, b"height", bar.height)?;
    push_end(alloc, out, scene, b"rect", bar.hint)
}

/// Appends which point of a text is at its place.
#[tactic(auto, unfolding(crate::specs::Figures::anchored))]
fn push_anchored(out: &mut Vec<u8>, anchor: Anchor) -> Result<(), AllocError>
    ensures { OnOk result (out.new.items ≡ out.old.items ++ anchored anchor) }
{
    out.extend_from_slice(b" text-anchor=\"")?;
    out.extend_from_slice(anchor_word(anchor))?;
    out.extend_from_slice(b"\">")
}

/// Appends the begin of a text: what it is for, and where it is.
#[tactic(auto, unfolding(crate::specs::Figures::placed))]
fn push_placed(out: &mut Vec<u8>, label: Label) -> Result<(), AllocError>
    ensures { OnOk result (out.new.items ≡ out.old.items ++ placed label) }
{
    push_class(out, b"text", label_class(label.kind))?;
    push_attribute(out, b"x", label.x)?;
    push_attribute(out, b"y", label.y)?;
    push_anchored(out, label.anchor)
}

/// Appends a text.
#[tactic(auto, unfolding(crate::specs::Figures::label_text))]
fn push_label(
    alloc: Global,
    out: &mut Vec<u8>,
    scene: &Scene,
    label: Label,
) -> Result<(), AllocError>
    ensures { OnOk result (out.new.items ≡ out.old.items ++ label_text scene.now label) }
{
    let mut words = Vec::new(alloc);
    push_words(&mut words, scene, label.text)?;
    push_placed(out, label)?;
    push_hint(alloc, out, scene, label.hint)?;
    push_shown(out, words.as_slice())?;
    out.extend_from_slice(b"</text>\n")
}

/// Appends a point of a path.
#[tactic(auto, unfolding(crate::specs::Figures::point))]
fn push_point(out: &mut Vec<u8>, letter: u8, x: u64, y: u64) -> Result<(), AllocError>
    ensures { OnOk result (out.new.items ≡ out.old.items ++ point letter x y) }
{
    out.push(letter)?;
    push_pair(out, x, y)
}

/// Appends where a circle is, and how large it is.
#[tactic(auto, unfolding(crate::specs::Figures::circle))]
fn push_circle(out: &mut Vec<u8>, x: u32, y: u32, radius: u32) -> Result<(), AllocError>
    ensures { OnOk result (out.new.items ≡ out.old.items ++ circle x y radius) }
{
    push_attribute(out, b"cx", x)?;
    push_attribute(out, b"cy", y)?;
    push_attribute(out, b"r", radius)
}

/// Where the head of an arrow begins: 7 before its point.
fn head_base(from: u32, to: u32) -> u64
    ensures { result ≡ head_base from to }
{
    if from < to {
        u64::from(to.saturating_sub(7))
    } else {
        u64::from(to) + 7
    }
}

/// Appends the head of an arrow.
#[tactic(auto, unfolding(crate::specs::Figures::head_text))]
fn push_head(out: &mut Vec<u8>, arrow: Arrow) -> Result<(), AllocError>
    ensures { OnOk result (out.new.items ≡ out.old.items ++ head_text arrow) }
{
    let base = head_base(arrow.y, arrow.to);
    let x = u64::from(arrow.x);
    out.extend_from_slice(b"<path class=\"head\" d=\"")?;
    push_point(out, b'M', u64::from(arrow.x.saturating_sub(4)), base)?;
    push_point(out, b'L', x, u64::from(arrow.to))?;
    push_point(out, b'L', x + 4, base)?;
    out.extend_from_slice(b"Z\"/>")
}

/// Appends the ring at the end of the arrow of a notification that becomes pending.
#[tactic(auto, unfolding(crate::specs::Figures::ring_text))]
fn push_ring(out: &mut Vec<u8>, arrow: Arrow) -> Result<(), AllocError>
    ensures { OnOk result (out.new.items ≡ out.old.items ++ ring_text arrow) }
{
    out.extend_from_slice(b"<circle class=\"head\"")?;
    push_circle(out, arrow.x, arrow.to, 3)?;
    out.extend_from_slice(b"/>")
}

/// Appends how an arrow ends: that of a message or a notification in a head, that of a notification
/// that becomes pending in a ring.
#[tactic(auto, unfolding(crate::specs::Figures::arrow_end))]
fn push_arrow_end(out: &mut Vec<u8>, arrow: Arrow) -> Result<(), AllocError>
    ensures { OnOk result (out.new.items ≡ out.old.items ++ arrow_end arrow) }
{
    match arrow.kind {
        ArrowKind::Message | ArrowKind::Notification => push_head(out, arrow),
        ArrowKind::Pending => push_ring(out, arrow),
        ArrowKind::Kill | ArrowKind::Respawn => Ok(()),
    }
}

/// Appends the line of an arrow.
#[tactic(auto, unfolding(crate::specs::Figures::line_text))]
fn push_line(out: &mut Vec<u8>, arrow: Arrow) -> Result<(), AllocError>
    ensures { OnOk result (out.new.items ≡ out.old.items ++ line_text arrow) }
{
    out.extend_from_slice(b"<path class=\"stem\" d=\"")?;
    push_point(out, b'M', u64::from(arrow.x), u64::from(arrow.y))?;
    out.extend_from_slice(b"V")?;
    push_decimal(out, arrow.to)?;
    out.extend_from_slice(b"\"/>")
}

/// Appends the line of an arrow, and the dot at its tail.
#[tactic(auto, unfolding(crate::specs::Figures::stem_text))]
fn push_stem(out: &mut Vec<u8>, arrow: Arrow) -> Result<(), AllocError>
    ensures { OnOk result (out.new.items ≡ out.old.items ++ stem_text arrow) }
{
    push_line(out, arrow)?;
    out.extend_from_slice(b"<circle")?;
    push_circle(out, arrow.x, arrow.y, 2)?;
    out.extend_from_slice(b"/>")
}

/// Appends an arrow.
#[tactic(auto, unfolding(crate::specs::Figures::arrow_text))]
fn push_arrow(
    alloc: Global,
    out: &mut Vec<u8>,
    scene: &Scene,
    arrow: Arrow,
) -> Result<(), AllocError>
    ensures { OnOk result (out.new.items ≡ out.old.items ++ arrow_text scene.now arrow) }
{
    push_class(out, b"g", arrow_class(arrow.kind))?;
    out.push(b'>')?;
    push_hint(alloc, out, scene, arrow.hint)?;
    push_stem(out, arrow)?;
    push_arrow_end(out, arrow)?;
    out.extend_from_slice(b"</g>\n")
}

/// Appends where a glyph is.
#[tactic(auto, unfolding(crate::specs::Figures::moved))]
fn push_moved(out: &mut Vec<u8>, glyph: Glyph) -> Result<(), AllocError>
    ensures { OnOk result (out.new.items ≡ out.old.items ++ moved glyph) }
{
    out.extend_from_slice(b" transform=\"translate(")?;
    push_pair(out, u64::from(glyph.x), u64::from(glyph.y))?;
    out.extend_from_slice(b")\"")
}

/// Appends the begin of a glyph that is one path.
#[tactic(auto, unfolding(crate::specs::Figures::path_text))]
fn push_path(out: &mut Vec<u8>, glyph: Glyph, class: &[u8], path: &[u8]) -> Result<(), AllocError>
    ensures { OnOk result (out.new.items ≡ out.old.items ++ path_text glyph class.now path.now) }
{
    push_class(out, b"path", class)?;
    push_moved(out, glyph)?;
    out.extend_from_slice(b" d=\"")?;
    out.extend_from_slice(path)?;
    out.push(b'"')?;
    Ok(())
}

/// Appends the cross of a death, on a ground that sets it off.
#[tactic(auto, unfolding(crate::specs::Figures::death_text))]
fn push_death(
    alloc: Global,
    out: &mut Vec<u8>,
    scene: &Scene,
    glyph: Glyph,
) -> Result<(), AllocError>
    ensures { OnOk result (out.new.items ≡ out.old.items ++ death_text scene.now glyph) }
{
    out.extend_from_slice(b"<g")?;
    push_moved(out, glyph)?;
    out.push(b'>')?;
    push_hint(alloc, out, scene, glyph.hint)?;
    out.extend_from_slice(b"<path class=\"halo\" d=\"M-5 -5L5 5M-5 5L5 -5\"/>")?;
    out.extend_from_slice(b"<path class=\"death\" d=\"M-5 -5L5 5M-5 5L5 -5\"/></g>\n")
}

/// Appends a glyph.
#[tactic(auto, unfolding(crate::specs::Figures::glyph_text))]
fn push_glyph(
    alloc: Global,
    out: &mut Vec<u8>,
    scene: &Scene,
    glyph: Glyph,
) -> Result<(), AllocError>
    ensures { OnOk result (out.new.items ≡ out.old.items ++ glyph_text scene.now glyph) }
{
    match glyph.kind {
        GlyphKind::Tick => push_path(out, glyph, b"tick", b"M0 -6V6")?,
        GlyphKind::Line => push_path(out, glyph, b"line", b"M-5 -5H5L0 5Z")?,
        GlyphKind::Death => return push_death(alloc, out, scene, glyph),
        GlyphKind::Birth => push_path(out, glyph, b"birth", b"M-5 0L0 -5L5 0L0 5Z")?,
    }
    push_end(alloc, out, scene, b"path", glyph.hint)
}

/// Appends a value.
#[tactic(auto, unfolding(crate::specs::Figures::value_text))]
pub(crate) fn push_value(
    alloc: Global,
    out: &mut Vec<u8>,
    scene: &Scene,
    value: Value,
) -> Result<(), AllocError>
    ensures { OnOk result (out.new.items ≡ out.old.items ++ value_text scene.now value) }
{
    match value {
        Value::Bar(bar) => push_bar(alloc, out, scene, bar),
        Value::Arrow(arrow) => push_arrow(alloc, out, scene, arrow),
        Value::Glyph(glyph) => push_glyph(alloc, out, scene, glyph),
        Value::Label(label) => push_label(alloc, out, scene, label),
    }
}
