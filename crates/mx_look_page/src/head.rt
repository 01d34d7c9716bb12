//! The line for the run, above the rows, and the last line.

ghost use Rattle.std.specs.Prelude.{◌≡◌, ◌<◌, ◌++◌, OnOk, option_map};
ghost use Rattle.mx_look_page.specs.Shown.{state_in};
ghost use Rattle.mx_look_page.specs.Heads.{text_part, run_of, names_part, machine_part, masks_part, schedule_part, service_text, services_items, start_items, shown_part, head_text, refused_part, tail_text, number_part, order_member, start_item};

use crate::json::{push_list, push_member, push_text};
use crate::row::{push_order_items, push_state_items};
use crate::shown::Shown;
use mx_machine::Service;
use mx_print_report::{push_decimal, push_name};
use mx_proc::{Masks, Terms};
use std::alloc::AllocError;

/// What a page says of a run as a whole.
#[derive(Clone, Copy)]
pub struct RunTerms<'a> {
    /// The names of the files.
    pub config: &'a [u8],
    pub history: &'a [u8],
    /// How many records are above the first row.
    pub first: u32,
    /// How many processors there are, other actors, records that the history has room for; and the number of the
    /// rules.
    pub cpus: u32,
    pub others: u32,
    pub log: u32,
    pub rules: u32,
}

/// Appends a member with a number.
pub(crate) fn push_counted_member(
    out: &mut Vec<u8>,
    name: &[u8],
    number: u32,
) -> Result<(), AllocError>
    ensures { OnOk result (out.new.items ≡ out.old.items
        ++ number_part name.now number) }
{
    push_member(out, name)?;
    push_decimal(out, number)
}

/// Appends a member with a number of eight bits.
fn push_small_member(out: &mut Vec<u8>, name: &[u8], number: u8) -> Result<(), AllocError>
    ensures { OnOk result (out.new.items ≡ out.old.items ++ number_part name.now number) }
{
    push_counted_member(out, name, u32::from(number))
}

/// Appends a member with a text.
pub(crate) fn push_text_member(
    out: &mut Vec<u8>,
    name: &[u8],
    bytes: &[u8],
) -> Result<(), AllocError>
    ensures { OnOk result (out.new.items ≡ out.old.items ++ text_part name.now bytes.now) }
{
    push_member(out, name)?;
    push_text(out, bytes)
}

/// Appends the names of the files.
#[tactic(auto, unfolding(crate::specs::Heads::names_part))]
fn push_names(out: &mut Vec<u8>, config: &[u8], history: &[u8]) -> Result<(), AllocError>
    ensures { OnOk result (out.new.items ≡ out.old.items ++ names_part config.now history.now) }
{
    out.extend_from_slice(b"{\"format\":1")?;
    push_text_member(out, b"config", config)?;
    push_text_member(out, b"history", history)
}

/// Appends the place of the first row, and the numbers of the configuration.
#[tactic(auto, unfolding(crate::specs::Heads::machine_part))]
fn push_machine(out: &mut Vec<u8>, terms: RunTerms<'_>) -> Result<(), AllocError>
    ensures { OnOk result (out.new.items ≡ out.old.items ++ machine_part (run_of terms.entry)) }
{
    push_counted_member(out, b"first", terms.first)?;
    push_counted_member(out, b"cpus", terms.cpus)?;
    push_counted_member(out, b"others", terms.others)?;
    push_counted_member(out, b"log", terms.log)?;
    push_counted_member(out, b"rules", terms.rules)
}

/// Appends what a service may do.
#[tactic(auto, unfolding(crate::specs::Heads::masks_part))]
fn push_masks(out: &mut Vec<u8>, masks: Masks) -> Result<(), AllocError>
    ensures { OnOk result (out.new.items ≡ out.old.items ++ masks_part masks) }
{
    push_counted_member(out, b"traps", masks.traps)?;
    push_counted_member(out, b"send", masks.sends)?;
    push_counted_member(out, b"calls", masks.calls)
}

/// Appends how a service is scheduled and respawned.
#[tactic(auto, unfolding(crate::specs::Heads::schedule_part))]
fn push_schedule(out: &mut Vec<u8>, terms: Terms) -> Result<(), AllocError>
    ensures { OnOk result (out.new.items ≡ out.old.items ++ schedule_part terms) }
{
    push_small_member(out, b"level", terms.level)?;
    push_small_member(out, b"best", terms.best)?;
    push_counted_member(out, b"quantum", terms.quantum)?;
    push_counted_member(out, b"restarts", terms.restarts)
}

/// Appends a service as an item. What was in `scratch` is lost.
#[tactic(auto, unfolding(crate::specs::Heads::service_text))]
fn push_service(
    out: &mut Vec<u8>,
    scratch: &mut Vec<u8>,
    service: &Service,
) -> Result<(), AllocError>
    ensures { OnOk result (out.new.items ≡ out.old.items ++ service_text service.now) }
{
    scratch.clear();
    push_name(scratch, &service.name.bytes)?;
    out.extend_from_slice(b",{\"name\":")?;
    push_text(out, scratch.as_slice())?;
    push_masks(out, service.terms.masks)?;
    push_schedule(out, service.terms)?;
    out.push(b'}')?;
    Ok(())
}

/// Appends the services as items. What was in `scratch` is lost.
fn push_services(
    out: &mut Vec<u8>,
    scratch: &mut Vec<u8>,
    services: &[Service],
) -> Result<(), AllocError>
    ensures { OnOk result (out.new.items ≡ out.old.items ++ services_items services.now) }
{
    for service in services {
        push_service(out, scratch, service)?;
    }
    Ok(())
}

/// Appends a slot's state as an item, if it has a service.
fn push_start(out: &mut Vec<u8>, shown: &Shown, slot: u32) -> Result<(), AllocError>
    requires { slot < 32 }
    ensures { OnOk result (out.new.items ≡ out.old.items
        ++ start_item slot (state_in shown.now slot)) }
{
    match shown.state(slot) {
        Some(state) => {
            push_state_items(out, slot, state)?;
            out.push(b']')?;
            Ok(())
        }
        None => Ok(()),
    }
}

/// Appends the states of the slots as items.
fn push_starts(out: &mut Vec<u8>, shown: &Shown) -> Result<(), AllocError>
    ensures { OnOk result (out.new.items ≡ out.old.items ++ start_items shown.now) }
{
    for slot in 0..32u32 {
        push_start(out, shown, slot)?;
    }
    Ok(())
}

/// Appends an order of slots as a member. What was in `scratch` is lost.
fn push_order(
    out: &mut Vec<u8>,
    scratch: &mut Vec<u8>,
    name: &[u8],
    slots: &[u8],
) -> Result<(), AllocError>
    ensures { OnOk result (out.new.items ≡ out.old.items
        ++ order_member name.now slots.now) }
{
    scratch.clear();
    push_order_items(scratch, slots)?;
    push_member(out, name)?;
    push_list(out, scratch.as_slice())
}

/// Appends what is shown before the first row. What was in `scratch` is lost.
#[tactic(auto, unfolding(crate::specs::Heads::shown_part))]
fn push_shown(out: &mut Vec<u8>, scratch: &mut Vec<u8>, shown: &Shown) -> Result<(), AllocError>
    ensures { OnOk result (out.new.items ≡ out.old.items ++ shown_part shown.now) }
{
    push_order(out, scratch, b"queue", shown.ready.as_slice())?;
    push_order(out, scratch, b"wait", shown.waiting.as_slice())?;
    scratch.clear();
    push_starts(scratch, shown)?;
    push_member(out, b"start")?;
    push_list(out, scratch.as_slice())
}

/// Appends the line for the run: its terms, its services, and what is shown before the first row. What was in
/// `scratch` and `items` is lost.
#[tactic(auto, unfolding(crate::specs::Heads::head_text))]
pub fn push_head(
    out: &mut Vec<u8>,
    scratch: &mut Vec<u8>,
    items: &mut Vec<u8>,
    terms: RunTerms<'_>,
    services: &[Service],
    shown: &Shown,
) -> Result<(), AllocError>
    ensures { OnOk result (out.new.items ≡ out.old.items
        ++ head_text (run_of terms.entry) services.now shown.now) }
{
    push_names(out, terms.config, terms.history)?;
    push_machine(out, terms)?;
    items.clear();
    push_services(items, scratch, services)?;
    push_member(out, b"services")?;
    push_list(out, items.as_slice())?;
    push_shown(out, scratch, shown)?;
    out.extend_from_slice(b"}\n")
}

/// Appends the line of a refused record, if there is one.
fn push_refused(out: &mut Vec<u8>, refused: Option<&[u8]>) -> Result<(), AllocError>
    ensures { OnOk result (out.new.items ≡ out.old.items
        ++ refused_part (option_map (λ s. s.now) refused.entry)) }
{
    match refused {
        Some(line) => {
            push_member(out, b"refused")?;
            push_text(out, line)
        }
        None => Ok(()),
    }
}

/// Appends the last line: how many rows there are, and the line of the record that is refused, if one is.
#[tactic(auto, unfolding(crate::specs::Heads::tail_text))]
pub fn push_tail(out: &mut Vec<u8>, records: u32, refused: Option<&[u8]>) -> Result<(), AllocError>
    ensures { OnOk result (out.new.items ≡ out.old.items
        ++ tail_text records (option_map (λ s. s.now) refused.entry)) }
{
    out.extend_from_slice(b"{\"records\":")?;
    push_decimal(out, records)?;
    push_refused(out, refused)?;
    out.extend_from_slice(b"}\n")
}
