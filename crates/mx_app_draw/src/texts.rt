//! The words of a picture's texts.

ghost use Rattle.std.specs.Prelude.{◌≡◌, ◌++◌, OnOk};
ghost use Rattle.mx_look.specs.Trace.{name_or};
ghost use Rattle.mx_app_draw.specs.Texts.{counted, span_text, title_text, who_text, standing_text, deed_word, deed_text, refused_text, key_text, text_words};

use crate::scene_values::{Scene, Standing};
use crate::values::{Deed, Item, Manner, Text};
use mx_look::{Transition, call_name, request_name};
use mx_print_report::{
    push_counted, push_decimal, push_doing, push_named, push_signed, push_two_digits,
};
use std::alloc::AllocError;

/// Appends how many there are of something.
#[tactic(auto, unfolding(crate::specs::Texts::counted))]
fn push_many(out: &mut Vec<u8>, count: u32, word: &[u8]) -> Result<(), AllocError>
    ensures { OnOk result (out.new.items ≡ out.old.items ++ counted count word.now) }
{
    push_decimal(out, count)?;
    out.push(b' ')?;
    out.extend_from_slice(word)?;
    if count != 1 {
        out.push(b's')?;
    }
    Ok(())
}

/// Appends which records are drawn.
#[tactic(auto, unfolding(crate::specs::Texts::span_text))]
fn push_span(out: &mut Vec<u8>, transitions: &[Transition]) -> Result<(), AllocError>
    ensures { OnOk result (out.new.items ≡ out.old.items ++ span_text transitions.now) }
{
    match (transitions.first(), transitions.last()) {
        (Some(first), Some(last)) => {
            out.extend_from_slice(b"Records ")?;
            push_decimal(out, first.number)?;
            out.extend_from_slice(b" to ")?;
            push_decimal(out, last.number)
        }
        _ => out.extend_from_slice(b"No record"),
    }
}

/// Appends what the picture is of.
#[tactic(auto, unfolding(crate::specs::Texts::title_text))]
pub(crate) fn push_title(out: &mut Vec<u8>, scene: &Scene) -> Result<(), AllocError>
    ensures { OnOk result (out.new.items ≡ out.old.items ++ title_text scene.now) }
{
    push_span(out, scene.transitions.as_slice())?;
    out.extend_from_slice(b" of ")?;
    push_decimal(out, scene.total)?;
    out.extend_from_slice(b", ")?;
    push_many(out, scene.services, b"service")?;
    out.extend_from_slice(b", ")?;
    push_many(out, scene.processors, b"processor")
}

/// Appends a name and an endpoint.
#[tactic(auto, unfolding(crate::specs::Texts::who_text))]
fn push_who(out: &mut Vec<u8>, seen: &Standing) -> Result<(), AllocError>
    ensures { OnOk result (out.new.items ≡ out.old.items ++ who_text seen.now) }
{
    push_named(out, &seen.name.bytes, seen.endpoint)
}

/// Appends a name, an endpoint, and what the process does.
#[tactic(auto, unfolding(crate::specs::Texts::standing_text))]
pub(crate) fn push_standing(out: &mut Vec<u8>, seen: &Standing) -> Result<(), AllocError>
    ensures { OnOk result (out.new.items ≡ out.old.items ++ standing_text seen.now) }
{
    push_who(out, seen)?;
    out.push(b' ')?;
    push_doing(out, seen.doing)
}

/// Appends a name, or another word if there is none.
fn push_name_or(out: &mut Vec<u8>, other: &[u8], name: &[u8]) -> Result<(), AllocError>
    ensures { OnOk result (out.new.items ≡ out.old.items ++ name_or other.now name.now) }
{
    if name.is_empty() {
        out.extend_from_slice(other)
    } else {
        out.extend_from_slice(name)
    }
}

/// Appends what a process did.
#[tactic(auto, unfolding(crate::specs::Texts::deed_word))]
fn push_deed_word(out: &mut Vec<u8>, deed: Deed) -> Result<(), AllocError>
    ensures { OnOk result (out.new.items ≡ out.old.items ++ deed_word deed) }
{
    match deed {
        Deed::Spent => out.extend_from_slice(b"spent"),
        Deed::Early => out.extend_from_slice(b"early"),
        Deed::Fault(vector) => push_counted(out, b"fault", u32::from(vector)),
        Deed::Call(call) => push_name_or(out, b"trap", call_name(call)),
        Deed::Kernel(rules, kind) => push_name_or(out, b"type", request_name(rules, kind)),
    }
}

/// Appends what a process did: with a glyph if it went wrong, in brackets if it wasn't made.
#[tactic(auto, unfolding(crate::specs::Texts::deed_text))]
fn push_deed(out: &mut Vec<u8>, deed: Deed, manner: Manner) -> Result<(), AllocError>
    ensures { OnOk result (out.new.items ≡ out.old.items ++ deed_text deed manner) }
{
    match manner {
        Manner::Plain => push_deed_word(out, deed),
        Manner::Wrong => {
            push_deed_word(out, deed)?;
            out.push(b'!')?;
            Ok(())
        }
        Manner::Unmade => {
            out.push(b'(')?;
            push_deed_word(out, deed)?;
            out.push(b')')?;
            Ok(())
        }
    }
}

/// Appends the line of the record that is refused, if one is.
#[tactic(auto, unfolding(crate::specs::Texts::refused_text))]
fn push_refused(out: &mut Vec<u8>, scene: &Scene) -> Result<(), AllocError>
    ensures { OnOk result (out.new.items ≡ out.old.items ++ refused_text scene.now) }
{
    let Some((line, refusal)) = scene.refused else {
        return Ok(());
    };
    out.extend_from_slice(b"line ")?;
    push_decimal(out, line)?;
    out.extend_from_slice(b": refused ")?;
    push_decimal(out, u32::from(refusal.code()))?;
    out.push(b' ')?;
    out.extend_from_slice(refusal.name().as_bytes())
}

/// What an item of the legend means.
fn key_text(item: Item) -> &'static [u8]
    ensures { result.now ≡ key_text item }
{
    match item {
        Item::Out => b"on a processor",
        Item::Doomed => b"killed there",
        Item::Ready => b"ready",
        Item::Sending => b"sending",
        Item::Calling => b"calling",
        Item::Awaiting => b"awaiting",
        Item::Receiving => b"receiving",
        Item::Message => b"message",
        Item::Notification => b"notification",
        Item::Pending => b"kept pending",
        Item::Tick => b"tick, uptime",
        Item::Line => b"interrupt line",
        Item::Death => b"death",
        Item::Birth => b"respawn",
        Item::Wrong => b"error result",
        Item::Unmade => b"killed, not made",
    }
}

/// Appends the words of a text.
#[tactic(auto, unfolding(crate::specs::Texts::text_words))]
pub(crate) fn push_words(out: &mut Vec<u8>, scene: &Scene, text: Text) -> Result<(), AllocError>
    ensures { OnOk result (out.new.items ≡ out.old.items ++ text_words scene.now text) }
{
    match text {
        Text::Title => push_title(out, scene),
        Text::Outside => out.extend_from_slice(b"outside"),
        Text::Console => out.extend_from_slice(b"console"),
        Text::Number(number) => push_decimal(out, number),
        Text::Outcome(outcome) => push_signed(out, outcome),
        Text::Who(seen) => push_who(out, &seen),
        Text::Standing(seen) => push_standing(out, &seen),
        Text::Bytes(count) => push_many(out, count, b"byte"),
        Text::Deed(deed, manner) => push_deed(out, deed, manner),
        Text::Killed => out.extend_from_slice(b"kill"),
        Text::Character(byte) => {
            out.push(byte)?;
            Ok(())
        }
        Text::Hexadecimal(byte) => push_two_digits(out, byte),
        Text::Refused => push_refused(out, scene),
        Text::Key(item) => out.extend_from_slice(key_text(item)),
    }
}
