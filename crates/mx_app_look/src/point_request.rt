//! What typed lines ask for about what a search halts at.

ghost use Rattle.std.specs.Prelude.{◌≡◌};
ghost use Rattle.mx_text.specs.Fields.{fields};
ghost use Rattle.mx_app_look.specs.PointRequests.{break_asked, watch_asked};

use crate::slot_word::slot_of_word;
use mx_boot::{AddressWord, address_named, count};
use mx_machine::Service;
use mx_text::{next_field, two_fields};

/// What a line asks for about what a search halts at.
#[derive(Drop)]
pub enum PointRequest {
    /// A breakpoint in the process of a slot.
    Break(u32, AddressWord),
    /// A watch of a slot's process: from an address on, a number of bytes.
    Watch(u32, AddressWord, u32),
    /// What is set.
    Show,
    /// All of them away.
    Clear,
}

/// A breakpoint, by a slot and an address.
pub(crate) fn break_asked(services: &[Service], line: &[u8]) -> Option<PointRequest>
    ensures { result ≡ break_asked services.now (fields line.now) }
{
    let (first, second) = two_fields(line)?;
    let slot = slot_of_word(services, first)?;
    let place = address_named(second)?;
    Some(PointRequest::Break(slot, place))
}

/// A watch, by a slot, an address and a number of bytes.
pub(crate) fn watch_asked(services: &[Service], line: &[u8]) -> Option<PointRequest>
    ensures { result ≡ watch_asked services.now (fields line.now) }
{
    let (first, rest) = next_field(line)?;
    let slot = slot_of_word(services, first)?;
    let (second, third) = two_fields(rest)?;
    let address = address_named(second)?;
    let bytes = count(third)?;
    Some(PointRequest::Watch(slot, address, bytes))
}
