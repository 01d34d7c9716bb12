//! The whole drawing as an SVG document: its head, its style sheet, and all figures.

ghost use Rattle.std.specs.Prelude.{◌≡◌, ◌++◌, OnOk};
ghost use Rattle.mx_app_draw.specs.Document.{size_text, document_head, opening_text, description, told_title, paper_text, letters_style, words_style, figures_style, dark_style, values_text, drawing_text};

use crate::figures::push_value;
use crate::scene_values::Scene;
use crate::svg_text::{push_attribute, push_pair, push_shown};
use crate::texts::push_title;
use crate::values::{Drawing, Value};
use std::alloc::{AllocError, Global};

/// Appends the size of the paper.
#[tactic(auto, unfolding(crate::specs::Document::size_text))]
fn push_size(out: &mut Vec<u8>, width: u32, height: u32) -> Result<(), AllocError>
    ensures { OnOk result (out.new.items ≡ out.old.items ++ size_text width height) }
{
    push_attribute(out, b"width", width)?;
    push_attribute(out, b"height", height)
}

/// What each document begins with.
fn document_head() -> &'static [u8]
    ensures { result.now ≡ document_head }
{
    b"<?xml version=\"1.0\" encoding=\"UTF-8\"?>\n<svg xmlns=\"http://www.w3.org/2000/svg\" version=\"1.1\""
}

/// Appends the head of the document.
#[tactic(auto, unfolding(crate::specs::Document::opening_text))]
fn push_opening(out: &mut Vec<u8>, width: u32, height: u32) -> Result<(), AllocError>
    ensures { OnOk result (out.new.items ≡ out.old.items ++ opening_text width height) }
{
    out.extend_from_slice(document_head())?;
    push_size(out, width, height)?;
    out.extend_from_slice(b" viewBox=\"0 0 ")?;
    push_pair(out, u64::from(width), u64::from(height))?;
    out.extend_from_slice(b"\">\n")
}

/// Appends the title of the document, and what is on it.
#[tactic(auto, unfolding(crate::specs::Document::told_title))]
fn push_told_title(alloc: Global, out: &mut Vec<u8>, scene: &Scene) -> Result<(), AllocError>
    ensures { OnOk result (out.new.items ≡ out.old.items ++ told_title scene.now) }
{
    let mut title = Vec::new(alloc);
    push_title(&mut title, scene)?;
    out.extend_from_slice(b"<title>")?;
    push_shown(out, title.as_slice())?;
    out.extend_from_slice(b"</title>\n")?;
    out.extend_from_slice(description())
}

/// What a picture shows.
fn description() -> &'static [u8]
    ensures { result.now ≡ description }
{
    b"<desc>Time runs from left to right, one column a record. Each service has a row, whose bars show its \
        state; arrows are messages and notifications; the lowest row has what was written to the console. mx \
        trace prints the same records in words.</desc>\n"
}

/// Appends the style of the paper, the bars and the texts.
#[tactic(auto, unfolding(crate::specs::Document::letters_style))]
fn push_letters_style(out: &mut Vec<u8>) -> Result<(), AllocError>
    ensures { OnOk result (out.new.items ≡ out.old.items ++ letters_style) }
{
    out.extend_from_slice(b"<style type=\"text/css\">\n")?;
    out.extend_from_slice(b"text{font-family:monospace;fill:#222}\n")?;
    out.extend_from_slice(b".paper{fill:#fff}.band{fill:#f4f4f2}.grid{fill:#d8d8d4}\n")?;
    out.extend_from_slice(
        b".out{fill:#0060a0}.doomed{fill:#d55e00}.ready{fill:#56b4e9}.sending{fill:#e69f00}\
            .awaiting{fill:#cc79a7}.receiving{fill:#999}\n",
    )?;
    out.extend_from_slice(
        b".title{font-size:13px;font-weight:bold}.name{font-size:12px;font-weight:bold}.end,.key{font-size:11px}\
            .axis,.call,.note,.bad,.byte{font-size:9px}\n",
    )
}

/// Appends the colours of the texts.
#[tactic(auto, unfolding(crate::specs::Document::words_style))]
fn push_words_style(out: &mut Vec<u8>) -> Result<(), AllocError>
    ensures { OnOk result (out.new.items ≡ out.old.items ++ words_style) }
{
    out.extend_from_slice(
        b".axis{fill:#6b6b6b}.call{fill:#555}.bad,.refused{font-weight:bold;fill:#b34000}\
            .refused{font-size:12px}.char{font-size:14px;font-weight:bold}\n",
    )?;
    out.extend_from_slice(b".cpu{font-size:10px;font-weight:bold;fill:#fff;pointer-events:none}\n")
}

/// Appends the style of the figures.
#[tactic(auto, unfolding(crate::specs::Document::figures_style))]
fn push_figures_style(out: &mut Vec<u8>) -> Result<(), AllocError>
    ensures { OnOk result (out.new.items ≡ out.old.items ++ figures_style) }
{
    out.extend_from_slice(
        b".message,.notify,.pending,.tick,.line{stroke:#222;fill:#222}\
            .notify .stem,.pending .stem{stroke-dasharray:3 2}.notify .head,.pending .head{fill:#fff}\n",
    )?;
    out.extend_from_slice(
        b".kill{stroke:#d55e00;fill:#d55e00}.respawn,.birth{stroke:#009e73;fill:#009e73}\
            .death{stroke:#d55e00;stroke-width:3}.halo{stroke:#fff;stroke-width:7}\n",
    )
}

/// Appends the style for viewers that show light letters on a dark ground.
#[tactic(auto, unfolding(crate::specs::Document::dark_style))]
fn push_dark_style(out: &mut Vec<u8>) -> Result<(), AllocError>
    ensures { OnOk result (out.new.items ≡ out.old.items ++ dark_style) }
{
    out.extend_from_slice(
        b"@media (prefers-color-scheme:dark){text,.note{fill:#e8e8e8}.paper{fill:#16181c}.band{fill:#1f2227}\
            .grid{fill:#363a40}.axis{fill:#999}.call{fill:#bbb}\n",
    )?;
    out.extend_from_slice(
        b".out{fill:#2a7ab8}.bad,.refused{fill:#ff9a5c}.cpu{fill:#fff}\
            .message,.notify,.pending,.tick,.line{stroke:#e8e8e8;fill:#e8e8e8}\n",
    )?;
    out.extend_from_slice(b".notify .head,.pending .head{fill:#16181c}.halo{stroke:#16181c}}\n")?;
    out.extend_from_slice(b"</style>\n")
}

/// Appends the paper.
#[tactic(auto, unfolding(crate::specs::Document::paper_text))]
fn push_paper(out: &mut Vec<u8>, width: u32, height: u32) -> Result<(), AllocError>
    ensures { OnOk result (out.new.items ≡ out.old.items ++ paper_text width height) }
{
    out.extend_from_slice(b"<rect class=\"paper\" x=\"0\" y=\"0\"")?;
    push_size(out, width, height)?;
    out.extend_from_slice(b"/>\n")
}

/// Appends the values.
fn push_values(
    alloc: Global,
    out: &mut Vec<u8>,
    scene: &Scene,
    values: &[Value],
) -> Result<(), AllocError>
    ensures { OnOk result (out.new.items ≡ out.old.items ++ values_text scene.now values.now) }
{
    for value in values {
        push_value(alloc, out, scene, *value)?;
    }
    Ok(())
}

/// Appends the drawing of a run as a document: SVG 1.1, with no script, and nothing from outside.
/// An error means that there is no memory.
#[tactic(auto, unfolding(crate::specs::Document::drawing_text))]
pub(crate) fn push_drawing(
    alloc: Global,
    out: &mut Vec<u8>,
    scene: &Scene,
    drawing: &Drawing,
) -> Result<(), AllocError>
    ensures { OnOk result (out.new.items ≡ out.old.items ++ drawing_text scene.now drawing.now) }
{
    push_opening(out, drawing.width, drawing.height)?;
    push_told_title(alloc, out, scene)?;
    push_letters_style(out)?;
    push_words_style(out)?;
    push_figures_style(out)?;
    push_dark_style(out)?;
    push_paper(out, drawing.width, drawing.height)?;
    push_values(alloc, out, scene, drawing.values.as_slice())?;
    out.extend_from_slice(b"</svg>\n")
}
