//! The slot of a request, and the addresses that are named in its program.

ghost use Rattle.std.specs.Prelude.{◌≡◌, slice_get};
ghost use Rattle.mx_print_answers.specs.Slots.{address_asked};
ghost use Rattle.mx_walk.specs.Walks.{world_here};
ghost use Rattle.mx_app_look.specs.Slots.{limit_in, or_not_here, slot_asked, slot_next};

use mx_boot::AddressWord;
use mx_debug::DebugError;
use mx_print_answers::{Refused, address_asked, image_in, slot_named};
use mx_proc::Slot;
use mx_walk::Walker;

/// The slot of the process on the processor whose record is next, if there is one.
pub fn slot_next(walker: &Walker) -> Option<Slot>
    ensures { result ≡ slot_next (world_here walker.now)
        (slice_get walker.now.records walker.now.here.records) }
{
    let here = walker.here();
    match walker.records().get(here.records) {
        Some(entry) => walker.machine().slot_on(entry.actor),
        None => None,
    }
}

/// The slot, or that there is none.
fn or_not_here(slot: Option<Slot>) -> Result<Slot, Refused>
    ensures { result ≡ or_not_here slot }
{
    match slot {
        Some(slot) => Ok(slot),
        None => Err(Refused::ByDebugger(DebugError::NotHere)),
    }
}

/// The slot that is named, if it has a service; without a name that of the process on the processor whose
/// record is next.
pub(crate) fn slot_asked(walker: &Walker, asked: Option<u32>) -> Result<Slot, Refused>
    ensures { result ≡ slot_asked walker.now asked }
{
    match asked {
        Some(slot) => slot_named(walker.machine(), slot),
        None => or_not_here(slot_next(walker)),
    }
}

/// The address that is named in the program of a slot's service at this position, or why there is none.
pub(crate) fn address_here(walker: &Walker, slot: Slot, asked: &AddressWord) -> Result<u32, Refused>
    ensures { result ≡ address_asked (world_here walker.now) slot asked.now }
{
    address_asked(walker.machine(), slot, asked)
}

/// How many bytes the memory of a slot's process has.
pub fn limit_here(walker: &Walker, slot: Slot) -> usize
    ensures { result ≡ limit_in (world_here walker.now) slot }
{
    match image_in(walker.machine(), slot) {
        Some(image) => image.memory.limit(),
        None => 0,
    }
}
