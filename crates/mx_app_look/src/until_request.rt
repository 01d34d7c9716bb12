//! What `until` is asked to look for, as it is typed.

ghost use Rattle.std.specs.Prelude.{◌≡◌};
ghost use Rattle.mx_text.specs.Fields.{fields};
ghost use Rattle.mx_app_look.specs.UntilRequests.{call_asked, delivery_asked, error_asked, happening_asked, type_of_word, until_asked};

use crate::happening::Happening;
use crate::slot_word::{only_slot, slot_of_word};
use mx_boot::word_number;
use mx_look::request_type;
use mx_machine::Service;
use mx_text::{is_digit, next_field, one_field, two_fields};

/// The type that a word is: a number, which begins with a digit, or a kernel call's name.
fn type_named(word: &[u8]) -> Option<u32>
    ensures { result ≡ type_of_word word.now }
{
    if is_digit(*word.first()?) {
        word_number(word)
    } else {
        request_type(word)
    }
}

/// A kernel call, by a slot and a type.
fn call_asked(services: &[Service], first: &[u8], rest: &[u8]) -> Option<Happening>
    ensures { result ≡ call_asked services.now first.now (fields rest.now) }
{
    let slot = slot_of_word(services, first)?;
    let kind = type_named(one_field(rest)?)?;
    Some(Happening::Call(slot, kind))
}

/// A delivery, by the slots from which and to which it comes.
fn delivery_asked(services: &[Service], line: &[u8]) -> Option<Happening>
    ensures { result ≡ delivery_asked services.now (fields line.now) }
{
    let (first, second) = two_fields(line)?;
    let from = slot_of_word(services, first)?;
    let to = slot_of_word(services, second)?;
    Some(Happening::Delivery(from, to))
}

/// An error of a slot's process, or without a slot of any.
fn error_asked(services: &[Service], line: &[u8]) -> Option<Happening>
    ensures { result ≡ error_asked services.now (fields line.now) }
{
    match next_field(line) {
        None => Some(Happening::Error(None)),
        Some(_) => Some(Happening::Error(Some(only_slot(services, line)?))),
    }
}

/// What is looked for, by the first word: after `death` a slot, after `message` two, after `error` one or none, else it
/// is a slot, and a type follows.
fn happening_asked(services: &[Service], first: &[u8], rest: &[u8]) -> Option<Happening>
    ensures { result ≡ happening_asked services.now first.now (fields rest.now) }
{
    match first {
        b"death" => Some(Happening::Death(only_slot(services, rest)?)),
        b"message" => delivery_asked(services, rest),
        b"error" => error_asked(services, rest),
        _ => call_asked(services, first, rest),
    }
}

/// A search for something that happens, and which way it goes.
#[derive(Clone, Copy)]
pub struct UntilAsked {
    pub is_back: bool,
    pub happening: Happening,
}

/// What is looked for, and which way: back after `back`, else on.
pub(crate) fn until_asked(services: &[Service], line: &[u8]) -> Option<UntilAsked>
    ensures { result ≡ until_asked services.now (fields line.now) }
{
    let (first, rest) = next_field(line)?;
    if first != b"back".as_slice() {
        let happening = happening_asked(services, first, rest)?;
        return Some(UntilAsked {
            is_back: false,
            happening,
        });
    }
    let (first, rest) = next_field(rest)?;
    let happening = happening_asked(services, first, rest)?;
    Some(UntilAsked {
        is_back: true,
        happening,
    })
}
