//! How an outcome is printed.

ghost use Rattle.std.specs.Prelude.{◌≡◌, ◌++◌, OnOk, option_map, slice_get};
ghost use Rattle.mx_app_explore.specs.FoundText.{departure_line, departure_lines, head_text, name_told, offer_text, total_text, turns_text};

use mx_explore::{Departure, Met, Offer, Outcome, Tally};
use mx_look::push_event;
use mx_machine::{Service, recorded_as};
use mx_print_report::{push_decimal, push_long, push_name};
use mx_proc::Slot;
use std::alloc::AllocError;

/// Appends the first line of an outcome, which has this number.
pub(crate) fn push_head(
    text: &mut Vec<u8>,
    number: u64,
    outcome: &Outcome,
) -> Result<(), AllocError>
    ensures { OnOk result (text.new.items ≡ text.old.items ++ head_text number outcome.now) }
{
    text.extend_from_slice(b"outcome ")?;
    push_long(text, number)?;
    text.extend_from_slice(b": ")?;
    push_long(text, outcome.count)?;
    text.extend_from_slice(b" schedules, the first with ")?;
    push_long(text, outcome.departures.len() as u64)?;
    text.extend_from_slice(b" departures and ")?;
    push_long(text, outcome.records as u64)?;
    text.extend_from_slice(b" records\n")
}

/// Appends the name of a slot's service.
fn push_slot(text: &mut Vec<u8>, services: &[Service], slot: Slot) -> Result<(), AllocError>
    ensures { OnOk result (text.new.items
        ≡ text.old.items ++ name_told (slice_get services.now slot)) }
{
    match services.get(slot as usize) {
        None => Ok(()),
        Some(service) => push_name(text, &service.name.bytes),
    }
}

/// Appends who waits, and with what.
fn push_offer(text: &mut Vec<u8>, services: &[Service], offer: Offer) -> Result<(), AllocError>
    ensures { OnOk result (text.new.items ≡ text.old.items ++ offer_text services.now offer) }
{
    match offer {
        Offer::Take(cpu, slot) => {
            text.extend_from_slice(b"processor ")?;
            push_decimal(text, u32::from(cpu))?;
            text.extend_from_slice(b" waits with take ")?;
            push_slot(text, services, slot)
        }
        Offer::Back(cpu, slot) => {
            text.extend_from_slice(b"processor ")?;
            push_decimal(text, u32::from(cpu))?;
            text.extend_from_slice(b" waits with back ")?;
            push_slot(text, services, slot)
        }
        Offer::Outside(event) => {
            text.extend_from_slice(b"outside waits with ")?;
            push_event(text, recorded_as(event))
        }
        Offer::Respawn(slot) => {
            text.extend_from_slice(b"respawner waits with respawn ")?;
            push_slot(text, services, slot)
        }
    }
}

/// Appends for how many turns, if for several.
fn push_turns(text: &mut Vec<u8>, turns: u32) -> Result<(), AllocError>
    ensures { OnOk result (text.new.items ≡ text.old.items ++ turns_text turns) }
{
    if turns <= 1 {
        return Ok(());
    }
    text.extend_from_slice(b", ")?;
    push_decimal(text, turns)?;
    text.extend_from_slice(b" turns")
}

/// Appends the line of a departure, by the offer with its number.
fn push_departure(
    text: &mut Vec<u8>,
    services: &[Service],
    departure: Departure,
    met: Option<&Met>,
) -> Result<(), AllocError>
    ensures { OnOk result (text.new.items ≡ text.old.items
        ++ departure_line services.now departure (option_map (λ m. m.now) met.entry)) }
{
    let Some(met) = met else {
        return Ok(());
    };
    text.extend_from_slice(b"  after ")?;
    push_long(text, met.records as u64)?;
    text.extend_from_slice(b": ")?;
    push_offer(text, services, met.offer)?;
    push_turns(text, departure.turns)?;
    text.extend_from_slice(b"\n")
}

/// Appends a line for each departure of a schedule, whose run met these offers.
pub(crate) fn push_departures(
    text: &mut Vec<u8>,
    services: &[Service],
    departures: &[Departure],
    met: &[Met],
) -> Result<(), AllocError>
    ensures { OnOk result (text.new.items ≡ text.old.items
        ++ departure_lines services.now met.now departures.now) }
{
    for departure in departures {
        push_departure(text, services, *departure, met.get(departure.at))?;
    }
    Ok(())
}

/// Appends the last line: how many schedules and outcomes there are.
pub(crate) fn push_total(
    text: &mut Vec<u8>,
    tally: &Tally,
    departures: u32,
) -> Result<(), AllocError>
    ensures { OnOk result (text.new.items ≡ text.old.items ++ total_text departures tally.now) }
{
    push_long(text, tally.schedules)?;
    text.extend_from_slice(b" schedules with at most ")?;
    push_decimal(text, departures)?;
    text.extend_from_slice(b" departures, ")?;
    push_long(text, tally.outcomes.len() as u64)?;
    text.extend_from_slice(b" outcomes\n")
}
