//! Texts and lists in JSON, of bytes that can stand in a `script` element.

ghost use Rattle.std.specs.Prelude.{◌≡◌, ◌++◌, ◌∷◌, [], OnOk};
ghost use Rattle.std.specs.List.{flat_map};
ghost use Rattle.mx_look_page.specs.Json.{ArePlain, Reads, escaped, text, numbered, list_of, member};

use mx_print_report::{push_decimal, push_two_digits};
use std::alloc::AllocError;

/// Appends a byte of a text, as it stands between the quotes.
#[tactic(auto, unfolding(crate::specs::Json::escaped))]
fn push_escaped(out: &mut Vec<u8>, byte: u8) -> Result<(), AllocError>
    ensures { OnOk result (out.new.items ≡ out.old.items ++ escaped byte) }
{
    match byte {
        b'"' => out.extend_from_slice(b"\\\""),
        b'\\' => out.extend_from_slice(b"\\\\"),
        b'\n' => out.extend_from_slice(b"\\n"),
        0..=31 | b'<' | 127..=255 => {
            out.extend_from_slice(b"\\u00")?;
            push_two_digits(out, byte)
        }
        _ => {
            out.push(byte)?;
            Ok(())
        }
    }
}

/// Appends the bytes of a text, as they stand between the quotes.
fn push_all_escaped(out: &mut Vec<u8>, bytes: &[u8]) -> Result<(), AllocError>
    ensures { OnOk result (out.new.items ≡ out.old.items ++ flat_map escaped bytes.now) }
{
    for byte in bytes {
        push_escaped(out, *byte)?;
    }
    Ok(())
}

/// Law: a text stands in a line of the data and has no markup, and a reader of JSON reads what it is of.
fn text_facts(bytes: &[u8])
    ensures read { Reads (flat_map escaped bytes.now) bytes.now }
    ensures plain { ArePlain (text bytes.now) }
{}

/// Appends a text between quotes. No byte of it is a control, `<`, or above 126, and a reader of JSON reads the text.
#[tactic(auto, unfolding(crate::specs::Json::text))]
pub fn push_text(out: &mut Vec<u8>, bytes: &[u8]) -> Result<(), AllocError>
    ensures value { OnOk result (out.new.items ≡ out.old.items ++ text bytes.now) }
    ensures read { Reads (flat_map escaped bytes.now) bytes.now }
    ensures plain { ArePlain (text bytes.now) }
{
    text_facts(bytes);
    out.push(b'"')?;
    push_all_escaped(out, bytes)?;
    out.push(b'"')?;
    Ok(())
}

/// Appends a comma and a number.
pub(crate) fn push_numbered(out: &mut Vec<u8>, number: u32) -> Result<(), AllocError>
    ensures { OnOk result (out.new.items ≡ out.old.items ++ numbered number) }
{
    out.push(b',')?;
    push_decimal(out, number)
}

/// Appends a list of items, each of which has a comma before it: the first comma is left out.
pub(crate) fn push_list(out: &mut Vec<u8>, items: &[u8]) -> Result<(), AllocError>
    ensures { OnOk result (out.new.items ≡ out.old.items ++ list_of items.now) }
{
    out.push(b'[')?;
    if !items.is_empty() {
        out.extend_from_slice(&items[1..])?;
    }
    out.push(b']')?;
    Ok(())
}

/// Appends the name of a member that isn't the first of its object.
pub(crate) fn push_member(out: &mut Vec<u8>, name: &[u8]) -> Result<(), AllocError>
    ensures { OnOk result (out.new.items ≡ out.old.items ++ member name.now) }
{
    out.extend_from_slice(b",\"")?;
    out.extend_from_slice(name)?;
    out.extend_from_slice(b"\":")
}
