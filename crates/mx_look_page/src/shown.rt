//! What the page shows of a world.

ghost use Rattle.std.specs.Prelude.{◌≡◌, ◌++◌, ◌<◌, OnOk};
ghost use Rattle.mx_proc.specs.Queues.{list_at};
ghost use Rattle.mx_look_page.specs.Shown.{partner_of, holder_of, processor_of, state_in, state_number, slot_state, slot_states, ready_order, waiting_order, shown_of, awaited_endpoint, holds};

use mx_look::{Glance, cpu_in, slot_in};
use mx_print_report::{Awaited, Doing};
use mx_proc::{ANY, CLOCK, DeathCause, HARDWARE, SYSTEM, Table};
use std::alloc::{AllocError, Global};
use std::marker::Model;

/// What the page shows of a slot's process, in the numbers of its data.
#[derive(Clone, Copy)]
pub struct SlotState {
    pub endpoint: u32,
    /// What the process does: 0 ready, 1 out, 2 doomed, 3 sending, 4 calling, 5 receiving, 6 awaiting, 7 to 9 down by
    /// an exit, a kill or a fault.
    pub state: u32,
    /// With whom: the partner's endpoint, the processor, or the number of the fault; else 0.
    pub partner: u32,
    pub level: u32,
    /// The ticks of its quantum that are left.
    pub ticks: u32,
}

/// What the page shows of a world.
#[derive(Drop)]
pub struct Shown {
    pub(crate) slots: [Option<SlotState>; 32],
    /// The ready slots, the next one first.
    pub(crate) ready: Vec<u8>,
    /// The slots that wait to send, in the order in which they came.
    pub(crate) waiting: Vec<u8>,
}

impl Model for Shown {
    ghost use Rattle.mx_look_page.specs.Shown.{ShownWorld};

    ghost Value = { ShownWorld };

    ghost view = { λ s. record {
      slots = s.slots;
      ready = s.ready.items;
      waiting = s.waiting.items;
    } };
}

/// Whether a processor holds the process of a slot.
fn holds(glance: &Glance, slot: u32, cpu: u8) -> bool
    ensures { result ≡ holds glance.now slot cpu }
{
    match cpu_in(glance, cpu) {
        Some(held) => u32::from(held.slot) == slot,
        None => false,
    }
}

/// The processor that holds the process of a slot.
fn holder_of(glance: &Glance, slot: u32) -> Option<u8>
    ensures { result ≡ holder_of glance.now slot }
{
    (0..8u8).find(|cpu| holds(glance, slot, *cpu))
}

/// The processor that holds the process of a slot, or 0 if none does.
fn processor_of(glance: &Glance, slot: u32) -> u32
    ensures { result ≡ processor_of glance.now slot }
{
    match holder_of(glance, slot) {
        Some(cpu) => u32::from(cpu),
        None => 0,
    }
}

/// The number of what a process does.
fn state_number(doing: Doing) -> u32
    ensures { result ≡ state_number doing }
{
    match doing {
        Doing::Ready => 0,
        Doing::Out => 1,
        Doing::Doomed => 2,
        Doing::Sending(_) => 3,
        Doing::Calling(_) => 4,
        Doing::Receiving(_) => 5,
        Doing::Awaiting(_) => 6,
        Doing::Down(DeathCause::Exit) => 7,
        Doing::Down(DeathCause::Kill) => 8,
        Doing::Down(DeathCause::Fault(_)) => 9,
        Doing::Home => 10,
    }
}

/// The endpoint of whom a process receives from.
fn awaited_endpoint(awaited: Awaited) -> u32
    ensures { result ≡ awaited_endpoint awaited }
{
    match awaited {
        Awaited::Any => ANY,
        Awaited::System => SYSTEM,
        Awaited::Hardware => HARDWARE,
        Awaited::Clock => CLOCK,
        Awaited::Process(endpoint) => endpoint,
    }
}

/// With whom a slot's process does what it does.
fn partner_of(glance: &Glance, slot: u32, doing: Doing) -> u32
    ensures { result ≡ partner_of glance.now slot doing }
{
    match doing {
        Doing::Out | Doing::Doomed => processor_of(glance, slot),
        Doing::Sending(endpoint) | Doing::Calling(endpoint) | Doing::Awaiting(endpoint) => endpoint,
        Doing::Receiving(awaited) => awaited_endpoint(awaited),
        Doing::Down(DeathCause::Fault(vector)) => u32::from(vector),
        _ => 0,
    }
}

/// What is shown of a slot, if it has a service.
fn slot_state(glance: &Glance, slot: u32) -> Option<SlotState>
    ensures { result ≡ slot_state glance.now slot }
{
    let seen = slot_in(glance, slot)?;
    Some(SlotState {
        endpoint: seen.endpoint,
        state: state_number(seen.doing),
        partner: partner_of(glance, slot, seen.doing),
        level: u32::from(seen.level),
        ticks: seen.ticks,
    })
}

/// Appends the ready slots of a level, the first one first.
fn push_level(out: &mut Vec<u8>, table: &Table, level: u8) -> Result<(), AllocError>
    requires { level < 16 }
    ensures { OnOk result (out.new.items ≡ out.old.items ++ list_at table.now.ready level) }
{
    let mut place = 0;
    while let Some(slot) = table.ready_at(level, place) {
        out.push(slot)?;
        place += 1;
    }
    Ok(())
}

/// Appends the ready slots, the next one first.
fn push_ready(out: &mut Vec<u8>, table: &Table) -> Result<(), AllocError>
    ensures { OnOk result (out.new.items ≡ out.old.items ++ ready_order table.now) }
{
    for level in 0..16u8 {
        push_level(out, table, level)?;
    }
    Ok(())
}

/// Appends the slots that wait to send, in the order in which they came.
fn push_waiting(out: &mut Vec<u8>, table: &Table) -> Result<(), AllocError>
    ensures { OnOk result (out.new.items ≡ out.old.items ++ waiting_order table.now) }
{
    let mut place = 0;
    while let Some(slot) = table.waiting_at(place) {
        out.push(slot)?;
        place += 1;
    }
    Ok(())
}

/// Looks at the slots of a glance.
fn look_at_slots(slots: &mut [Option<SlotState>; 32], glance: &Glance)
    ensures { slots.new ≡ slot_states glance.now }
{
    for slot in 0..32u32 {
        slots[slot as usize] = slot_state(glance, slot);
    }
}

impl Shown {
    /// A world without services, in which nobody is ready or waits.
    pub fn nothing(alloc: Global) -> Shown {
        Shown {
            slots: [None; 32],
            ready: Vec::new(alloc),
            waiting: Vec::new(alloc),
        }
    }

    /// What is shown of a slot.
    pub(crate) fn state(&self, slot: u32) -> Option<SlotState>
        requires { slot < 32 }
        ensures { result ≡ state_in self.now slot }
    {
        self.slots[slot as usize]
    }

    /// Looks at a world, of which there is a glance, and forgets what was shown before.
    pub fn look(&mut self, glance: &Glance, table: &Table) -> Result<(), AllocError>
        ensures { OnOk result (self.new ≡ shown_of glance.now table.now) }
    {
        look_at_slots(&mut self.slots, glance);
        self.ready.clear();
        push_ready(&mut self.ready, table)?;
        self.waiting.clear();
        push_waiting(&mut self.waiting, table)
    }
}
