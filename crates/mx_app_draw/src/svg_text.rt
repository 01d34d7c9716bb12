//! Texts and numbers of an SVG document, between its tags and in them.

ghost use Rattle.std.specs.Prelude.{◌≡◌, ◌<◌, ◌++◌, length, OnOk};
ghost use Rattle.mx_app_draw.specs.Shown.{pair, escaped, is_left_out, shown_byte, shown, attribute};

use mx_print_report::{push_decimal, push_long};
use std::alloc::AllocError;

/// Appends two numbers, parted by a space.
#[tactic(auto, unfolding(crate::specs::Shown::pair))]
pub(crate) fn push_pair(out: &mut Vec<u8>, first: u64, second: u64) -> Result<(), AllocError>
    ensures { OnOk result (out.new.items ≡ out.old.items ++ pair first second) }
{
    push_long(out, first)?;
    out.push(b' ')?;
    push_long(out, second)
}

/// Appends a byte of a text, between tags.
#[tactic(auto, unfolding(crate::specs::Shown::escaped))]
fn push_escaped(out: &mut Vec<u8>, byte: u8) -> Result<(), AllocError>
    ensures { OnOk result (out.new.items ≡ out.old.items ++ escaped byte) }
{
    match byte {
        b'&' => out.extend_from_slice(b"&amp;"),
        b'<' => out.extend_from_slice(b"&lt;"),
        b'>' => out.extend_from_slice(b"&gt;"),
        _ => {
            out.push(byte)?;
            Ok(())
        }
    }
}

/// Whether a byte of a text isn't shown: the end of its last line, and a space after a space.
fn is_left_out(line: &[u8], index: usize) -> bool
    requires { index < length line.now }
    ensures { result ≡ is_left_out line.now index }
{
    line[index] == b'\n' && index + 1 == line.len()
        || index > 0 && line[index] == b' ' && line[index - 1] == b' '
}

/// Appends a byte of a line, if it is shown.
#[tactic(auto, unfolding(crate::specs::Shown::shown_byte))]
fn push_shown_byte(out: &mut Vec<u8>, line: &[u8], index: usize) -> Result<(), AllocError>
    requires { index < length line.now }
    ensures { OnOk result (out.new.items ≡ out.old.items ++ shown_byte line.now index) }
{
    if is_left_out(line, index) {
        return Ok(());
    }
    push_escaped(out, line[index])
}

/// Appends a line as it is shown between tags.
#[tactic(auto, unfolding(crate::specs::Shown::shown))]
pub(crate) fn push_shown(out: &mut Vec<u8>, line: &[u8]) -> Result<(), AllocError>
    ensures { OnOk result (out.new.items ≡ out.old.items ++ shown line.now) }
{
    for index in 0..line.len() {
        push_shown_byte(out, line, index)?;
    }
    Ok(())
}

/// Appends an attribute with a number.
#[tactic(auto, unfolding(crate::specs::Shown::attribute))]
pub(crate) fn push_attribute(out: &mut Vec<u8>, name: &[u8], number: u32) -> Result<(), AllocError>
    ensures { OnOk result (out.new.items ≡ out.old.items ++ attribute name.now number) }
{
    out.push(b' ')?;
    out.extend_from_slice(name)?;
    out.extend_from_slice(b"=\"")?;
    push_decimal(out, number)?;
    out.push(b'"')?;
    Ok(())
}
