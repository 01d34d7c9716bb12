//! The four figures of a picture: bars, arrows, glyphs and labels.

ghost use Rattle.std.specs.Prelude.{◌≡◌};
ghost use Rattle.mx_app_draw.specs.FourFigures.{bar_at, arrow_at, glyph_at, label_at};

use crate::{
    Anchor, Arrow, ArrowKind, Bar, BarKind, Glyph, GlyphKind, Hint, Label, LabelKind, Text, Value,
};

/// A point of the paper: `x` pixels from the left, `y` pixels from the top.
#[derive(Clone, Copy)]
pub(crate) struct Point {
    pub(crate) x: u32,
    pub(crate) y: u32,
}

/// A rectangle whose top left corner is at a point.
pub(crate) fn bar(kind: BarKind, at: Point, width: u32, height: u32, hint: Hint) -> Value
    ensures { result ≡ bar_at kind at.x at.y width height hint }
{
    Value::Bar(Bar {
        kind,
        x: at.x,
        y: at.y,
        width,
        height,
        hint,
    })
}

/// A vertical line from a point up or down to the height `to`.
pub(crate) fn arrow(kind: ArrowKind, at: Point, to: u32, hint: Hint) -> Value
    ensures { result ≡ arrow_at kind at.x at.y to hint }
{
    Value::Arrow(Arrow {
        kind,
        x: at.x,
        y: at.y,
        to,
        hint,
    })
}

/// A small figure around a point.
pub(crate) fn glyph(kind: GlyphKind, at: Point, hint: Hint) -> Value
    ensures { result ≡ glyph_at kind at.x at.y hint }
{
    Value::Glyph(Glyph {
        kind,
        x: at.x,
        y: at.y,
        hint,
    })
}

/// A text at a point.
pub(crate) fn label(kind: LabelKind, at: Point, anchor: Anchor, text: Text, hint: Hint) -> Value
    ensures { result ≡ label_at kind at.x at.y anchor text hint }
{
    Value::Label(Label {
        kind,
        x: at.x,
        y: at.y,
        anchor,
        text,
        hint,
    })
}
