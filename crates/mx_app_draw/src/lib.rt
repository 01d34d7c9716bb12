//! `mx draw`: the picture of a saved history. First a `Scene` is made of its transitions (strips, origins, bars, hints,
//! labels and deeds: calls that failed, fates, returns), then the picture of it, a list of values with whole
//! coordinates on paper, and at last its text in SVG 1.1: texts, classes, attributes, fonts and strokes.
//!
//! # Why values, and then text
//!
//! Where a figure is and which one it is are one thing, how SVG spells it is another. Each has its definitions, and
//! neither speaks of the other. All steps have to be known before the first byte is printed, as the height is in it: so
//! a picture has at most 1,000 records.
#![tactic(auto)]

mod bars;
mod between_transitions;
mod came;
mod classes;
mod document;
mod drawing;
mod fates;
mod figures;
mod four_figures;
mod hints;
mod layout;
mod legend;
mod messages;
mod returns;
mod scene;
mod scene_values;
mod seeing;
mod strips;
mod svg_text;
mod texts;
mod values;
mod whole_picture;

pub use drawing::draw;
pub(crate) use mx_look::Glance;
pub use scene_values::{Scene, Standing};
pub use values::{
    Anchor, Arrow, ArrowKind, Bar, BarKind, Deed, Drawing, Glyph, GlyphKind, Hint, Item, Label,
    LabelKind, Manner, Text, Value,
};
pub use whole_picture::picture;
