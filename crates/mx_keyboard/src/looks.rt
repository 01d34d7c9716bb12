//! What is seen of a table.

ghost use Rattle.std.specs.Prelude.{◌≡◌};
ghost use Rattle.std.specs.List.{list_all};
ghost use Rattle.mx_keyboard.specs.Keyboard.{driver_of, endpoint_in, is_alive, is_owned_by, owner_of_all, seen_of};

use mx_proc::Table;
use mx_typist::{COUNT_REGISTER, STROBE, Seen};

/// Whether a line's owner is a slot.
fn is_owned_by(slot: u8, owner: Option<u8>) -> bool
    ensures { result ≡ is_owned_by slot owner }
{
    match owner {
        Some(other) => other == slot,
        None => false,
    }
}

/// Whether all of some lines have this slot as their owner.
fn are_owned_by(slot: u8, owners: &[Option<u8>]) -> bool
    ensures { result ≡ list_all (is_owned_by slot) owners.now }
{
    owners.iter().all(|owner| is_owned_by(slot, *owner))
}

/// The slot that owns all of some lines.
fn owner_of_all(owners: &[Option<u8>]) -> Option<u8>
    ensures { result ≡ owner_of_all owners.now }
{
    let slot = (*owners.first()?)?;
    if are_owned_by(slot, owners) {
        Some(slot)
    } else {
        None
    }
}

/// The endpoint of the process of a slot, if there is the slot.
pub fn endpoint_in(table: &Table, slot: Option<u8>) -> Option<u32>
    ensures { result ≡ endpoint_in table.now slot }
{
    let slot = slot?;
    if slot >= table.slot_count() {
        return None;
    }
    Some(table.endpoint(slot))
}

/// The endpoint of the process that owns all lines of the keyboard: the strobe and the eight above it.
pub fn driver_in(table: &Table) -> Option<u32>
    ensures { result ≡ driver_of table.now }
{
    let owners = &table.devices().owners[STROBE as usize..];
    endpoint_in(table, owner_of_all(owners))
}

/// Whether the process that a byte was raised for is alive.
fn is_alive(table: &Table, flight: Option<u32>) -> bool
    ensures { result ≡ is_alive table.now flight }
{
    match flight {
        Some(endpoint) => table.look(endpoint).is_ok(),
        None => false,
    }
}

/// What is seen of the driver, and of the process that the last byte was raised for.
pub fn seen_in(table: &Table, flight: Option<u32>) -> Seen
    ensures { result ≡ seen_of table.now flight }
{
    Seen {
        driver: driver_in(table),
        counted: table.devices().registers[COUNT_REGISTER],
        is_alive: is_alive(table, flight),
    }
}
