//! The world at the end of a history, as it is seen.

ghost use Rattle.std.specs.Prelude.{◌≡◌, ◌<◌, length};
ghost use Rattle.mx_machine.specs.Machine.{world_of};
ghost use Rattle.mx_machine.specs.Rest.{at_rest};
ghost use Rattle.mx_why.specs.Seeing.{end_of, restarts_left, seat_at, seat_of, seats_of};

use crate::seats::{End, Seat};
use mx_machine::{Machine, Service};
use mx_print_report::{Naming, doing_of};
use mx_proc::{Process, Slot, Table};
use mx_respawn::is_worn;

/// How often the service of a process may still be respawned.
fn restarts_left(process: &Process, service: &Service) -> u32
    ensures { result ≡ restarts_left process.now service.now }
{
    if is_worn(process, service) {
        0
    } else {
        service.terms.restarts.saturating_sub(process.restarts_used)
    }
}

/// What is known of the slot of a service.
#[tactic(auto, unfolding(crate::specs::Seeing::seat_of))]
fn seat_of(table: &Table, slot: Slot, service: &Service) -> Seat
    requires { slot < length table.now.slots }
    ensures { result ≡ seat_of table.now slot service.now }
{
    let process = table.process(slot);
    let masks = process.schedule.terms.masks;
    Seat {
        name: service.name,
        endpoint: table.endpoint(slot),
        doing: doing_of(Naming::Slots, table, slot, process.state),
        traps: masks.traps,
        sends: masks.sends,
        alarm: process.alarm,
        restarts: restarts_left(process, service),
        is_bare: service.program.text.as_slice().is_empty(),
    }
}

/// What is known of a slot, if it has a service.
fn seat_at(table: &Table, services: &[Service], slot: Slot) -> Option<Seat>
    requires { length services.now ≡ length table.now.slots }
    ensures { result ≡ seat_at table.now services.now slot }
{
    if (slot as usize) < services.len() {
        Some(seat_of(table, slot, &services[slot as usize]))
    } else {
        None
    }
}

/// What is known of the slots.
fn seats_of(table: &Table, services: &[Service]) -> [Option<Seat>; 32]
    requires { length services.now ≡ length table.now.slots }
    ensures { result ≡ seats_of table.now services.now }
{
    let mut seats = [None; 32];
    for slot in 0..32u8 {
        seats[slot as usize] = seat_at(table, services, slot);
    }
    seats
}

/// Whether a machine is at rest.
fn is_at_rest(machine: &Machine) -> bool
    ensures { result ≡ at_rest (world_of machine.now) }
{
    machine.kernel().at_rest()
}

/// What is known of a machine's world. Takes no memory.
#[tactic(auto, unfolding(mx_machine::specs::Machine::world_of))]
pub(crate) fn end_of(machine: &Machine) -> End
    ensures { result ≡ end_of (world_of machine.now) }
{
    let kernel = machine.kernel();
    kernel.facts();
    let table = kernel.table();
    End {
        seats: seats_of(table, kernel.services()),
        owners: table.devices().owners,
        uptime: table.uptime(),
        at_rest: is_at_rest(machine),
    }
}
