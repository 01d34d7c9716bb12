//! Processes that a line names: by an endpoint or a slot, or by the name of their service.

ghost use Rattle.std.specs.Prelude.{◌≡◌, ◌<◌, IfSome, length, position};
ghost use Rattle.std.specs.Str.{bytes_eq};
ghost use Rattle.mx_machine.specs.declared.config.ServiceLine.{ServiceLine as Line};
ghost use Rattle.mx_text.specs.Fields.{fields};
ghost use Rattle.mx_app_turns.specs.Named.{kill_of_fields, only_slot, slot_of_name, slot_of_word};

use mx_boot::count;
use mx_machine::{Config, Event, ServiceLine};
use mx_text::{Name, name_of, one_field};
use mx_turns::OutsideLine;

/// The place of the line that has this name, among these.
fn place_among(lines: &[ServiceLine], name: Name) -> Option<usize>
    ensures place { result ≡ position (λ (l : Line). bytes_eq l.name.bytes name.bytes) lines.now }
    ensures within { IfSome result (λ i. i < length lines.now) }
{
    lines.iter().position(|line| line.name == name)
}

/// The place of the line that has this name.
fn place_of(config: &Config, name: Name) -> Option<usize>
    ensures place { result
        ≡ position (λ (l : Line). bytes_eq l.name.bytes name.bytes) config.now.lines }
    ensures within { IfSome result (λ i. i < length config.now.lines) }
{
    place_among(config.lines.as_slice(), name)
}

/// The slot of the service of this name.
pub(crate) fn slot_of_name(config: &Config, word: &[u8]) -> Option<u8>
    ensures { result ≡ slot_of_name config.now.lines word.now }
{
    let name = name_of(word)?;
    let place = place_of(config, name)?;
    // A configuration has 32 lines of services at most.
    Some(place as u8)
}

/// The slot that a word names: a number, or the name of its service, which begins with no digit.
fn slot_of_word(config: &Config, word: &[u8]) -> Option<u32>
    ensures { result ≡ slot_of_word config.now.lines word.now }
{
    match count(word) {
        Some(slot) => Some(slot),
        None => Some(u32::from(slot_of_name(config, word)?)),
    }
}

/// The slot that a line's only field names.
pub(crate) fn only_slot(config: &Config, line: &[u8]) -> Option<u32>
    ensures { result ≡ only_slot config.now.lines (fields line.now) }
{
    slot_of_word(config, one_field(line)?)
}

/// The kill that a line's only field names: of the process of an endpoint, or of that which the service of this name
/// has then.
pub(crate) fn kill_of_fields(config: &Config, line: &[u8]) -> Option<OutsideLine>
    ensures { result ≡ kill_of_fields config.now.lines (fields line.now) }
{
    let word = one_field(line)?;
    match count(word) {
        Some(endpoint) => Some(OutsideLine::Plain(Event::Kill(endpoint))),
        None => Some(OutsideLine::KillSlot(slot_of_name(config, word)?)),
    }
}
