//! Slots, as they are typed.

ghost use Rattle.std.specs.Prelude.{◌≡◌, position};
ghost use Rattle.std.specs.Str.{bytes_eq};
ghost use Rattle.mx_machine.specs.Service.{Service as Served};
ghost use Rattle.mx_text.specs.Fields.{fields};
ghost use Rattle.mx_app_look.specs.SlotWords.{only_slot, slot_of_name, slot_of_word};

use mx_boot::count;
use mx_machine::Service;
use mx_text::{Name, name_of, one_field};

/// No slot has this number.
const NO_SLOT: usize = 32;

/// The place of the service of this name.
fn place_of(services: &[Service], name: Name) -> Option<usize>
    ensures { result ≡ position (λ (v : Served). bytes_eq v.name.bytes name.bytes) services.now }
{
    services.iter().position(|service| service.name == name)
}

/// The slot of the service of this name. If no service has it, that is a number which is no slot's.
fn slot_of_name(services: &[Service], word: &[u8]) -> Option<u32>
    ensures { result ≡ slot_of_name services.now word.now }
{
    let name = name_of(word)?;
    let place = place_of(services, name).unwrap_or(NO_SLOT);
    Some(place.min(NO_SLOT) as u32)
}

/// The slot that a word is: a number, or the name of its service, which begins with no digit.
pub(crate) fn slot_of_word(services: &[Service], word: &[u8]) -> Option<u32>
    ensures { result ≡ slot_of_word services.now word.now }
{
    match count(word) {
        Some(slot) => Some(slot),
        None => slot_of_name(services, word),
    }
}

/// The slot that is a line's only field.
pub(crate) fn only_slot(services: &[Service], line: &[u8]) -> Option<u32>
    ensures { result ≡ only_slot services.now (fields line.now) }
{
    slot_of_word(services, one_field(line)?)
}
