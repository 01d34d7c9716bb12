//! A glance at a slot: its service and its process.

ghost use Rattle.std.specs.Prelude.{◌≡◌, ◌<◌, length};
ghost use Rattle.mx_look.specs.Glances.{glance_of_slot, slot_glance, slot_glances};

use crate::images::{ImageGlance, image_glance};
use mx_machine::Service;
use mx_print_report::{Doing, Naming, doing_of};
use mx_proc::{Endpoint, Slot, Table};
use mx_text::Name;

/// What is looked at of a slot: its service's name, and its process. While that is on a processor its
/// image is blank.
#[derive(Clone, Copy)]
pub struct SlotGlance {
    pub name: Name,
    pub endpoint: Endpoint,
    /// The traps that it may make, bit n for trap n.
    pub traps: u32,
    pub doing: Doing,
    pub level: u8,
    /// The ticks of its quantum that are left.
    pub ticks: u32,
    /// Pending notifications: HARDWARE, CLOCK, slot 0 and up.
    pub pending: [bool; 34],
    /// Interrupt lines that were raised, bit l for line l.
    pub lines: u32,
    /// The uptime at which the alarm rings.
    pub alarm: Option<u64>,
    pub image: ImageGlance,
}

/// What is looked at of the slot of a service.
#[tactic(auto, unfolding(crate::specs::Glances::glance_of_slot))]
fn glance_of_slot(table: &Table, slot: Slot, service: &Service) -> SlotGlance
    requires { slot < length table.now.slots }
    ensures { result ≡ glance_of_slot table.now slot service.now }
{
    let process = table.process(slot);
    SlotGlance {
        name: service.name,
        endpoint: table.endpoint(slot),
        traps: process.schedule.terms.masks.traps,
        doing: doing_of(Naming::Endpoints, table, slot, process.state),
        level: process.schedule.level,
        ticks: process.schedule.ticks,
        pending: process.pending,
        lines: process.lines,
        alarm: process.alarm,
        image: image_glance(&process.image),
    }
}

/// Looks at a slot, if it has a service.
fn look_at_slot(seen: &mut Option<SlotGlance>, table: &Table, services: &[Service], slot: Slot)
    requires { length services.now ≡ length table.now.slots }
    ensures { seen.new ≡ slot_glance table.now services.now slot }
{
    if (slot as usize) < services.len() {
        *seen = Some(glance_of_slot(table, slot, &services[slot as usize]));
    } else if seen.is_some() {
        *seen = None;
    }
}

/// Looks at the slots.
pub(crate) fn look_at_slots(
    slots: &mut [Option<SlotGlance>; 32],
    table: &Table,
    services: &[Service],
)
    requires { length services.now ≡ length table.now.slots }
    ensures { slots.new ≡ slot_glances table.now services.now }
{
    for slot in 0..32u8 {
        look_at_slot(&mut slots[slot as usize], table, services, slot);
    }
}
