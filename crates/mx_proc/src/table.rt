//! The table of processes: what it consists of, and how it is read.

ghost use Rattle.std.specs.Prelude.{◌≡◌, ℕ, ◌+◌, ◌*◌, ◌<◌, ◌≤◌, ◌^◌, true, IfSome, IfOk, IfErr, OnErr, OnOk, IsOk, MatchResult, length, slice_get};
ghost use Rattle.mx_exec.specs.Image.{blank};
ghost use Rattle.mx_proc.specs.EndpointNumbers.{slot_of, endpoint_from};
ghost use Rattle.mx_proc.specs.Endpoints.{names_slot, slot_of_endpoint};
ghost use Rattle.mx_proc.specs.Sound.{Sound, HasBuffer};
ghost use Rattle.mx_proc.specs.States.{is_blocked, is_down};

use crate::deliveries::{Deliveries, Delivery};
use crate::devices::Devices;
use crate::endpoints::{Endpoint, FIRST_NEGATIVE, endpoint_from, generation_of, slot_of};
use crate::process::{Process, Slot, Terms};
use crate::ready::Ready;
use crate::waits::Waits;
use crate::windows::Rules;
use mx_exec::Image;
use mx_word::NoMemory;
use std::alloc::Global;
use std::marker::Model;
use std::mem;

mod copying;
mod lending;
mod messages;
mod queues;
mod serving;

/// Why an endpoint has no slot: its process is dead, or no process ever had it.
#[derive(Clone, Copy, PartialEq, Eq)]
pub struct Stale;

/// The processes with their queues, the devices, and the last deliveries. Only `new` and `add` take memory.
pub struct Table {
    slots: Vec<Process>,
    ready: Ready,
    waits: Waits,
    renewed: Option<u8>,
    uptime: u32,
    devices: Devices,
    deliveries: Deliveries,
    rules: Rules,
}

impl Drop for Table {
    fn drop(self) {
        // By hand, so that it is a call: a derived drop is proved at each exit of each function that has a table.
        let Table {
            slots: _,
            ready: _,
            waits: _,
            renewed: _,
            uptime: _,
            devices: _,
            deliveries: _,
            rules: _,
        } = self;
    }
}

impl Model for Table {
    ghost use Rattle.mx_proc.specs.TableState.{TableState};
    ghost use Rattle.mx_proc.specs.Sound.{Sound};

    ghost Value = { TableState };

    ghost view = { λ t. record {
      slots = t.slots.items;
      ready = t.ready;
      waits = t.waits;
      renewed = t.renewed;
      uptime = t.uptime;
      devices = t.devices;
      deliveries = t.deliveries;
      rules = t.rules;
    } };

    ghost invariant = { λ t.
        Sound (record {
          slots = t.slots.items;
          ready = t.ready;
          waits = t.waits;
          renewed = t.renewed;
          uptime = t.uptime;
          devices = t.devices;
          deliveries = t.deliveries;
          rules = t.rules;
        }) };
}

impl Table {
    ghost use Rattle.mx_proc.specs.TableState.{empty_table, table_after_add, process_at, endpoint_of};
    ghost use Rattle.mx_proc.specs.Endpoints.{is_current};

    /// A table without processes. Takes memory: answers `NoMemory` if there isn't enough.
    pub fn new(alloc: Global, rules: Rules) -> Result<Table, NoMemory>
        ensures { IfOk result (λ table. table ≡ empty_table rules) }
    {
        let slots = Vec::with_capacity(alloc, 32)?;
        let devices = Devices::new(alloc)?;
        let deliveries = Deliveries::new(alloc)?;
        Ok(Table {
            slots,
            ready: Ready::new(),
            waits: Waits::new(),
            renewed: None,
            uptime: 0,
            devices,
            deliveries,
            rules,
        })
    }

    /// Makes a process with this image in the next slot, and answers the slot. The process is ready, with a
    /// full quantum, at the end of the ready list of its level. `image` is blank after the call. If there is
    /// no memory, nothing changes.
    pub fn add(&mut self, alloc: Global, image: &mut Image, terms: Terms) -> Result<Slot, NoMemory>
        requires room { length self.old.slots < 32 }
        ensures slot { IfOk result (λ slot. slot ≡ length self.old.slots) }
        ensures ok { OnOk result
            ((self.new ≡ table_after_add self.old image.old terms) × (image.new ≡ blank)) }
        ensures err { OnErr result ((self.new ≡ self.old) × (image.new ≡ image.old)) }
    {
        let slot = self.slots.as_slice().len() as u8;
        let process = Process::new(terms, mem::replace(image, Image::blank(alloc)));
        match self.slots.push(process) {
            Ok(()) => {
                self.ready.push_back(terms.level, slot);
                Ok(slot)
            }
            Err(refused) => {
                // The process that found no room comes back, and with it the caller's image.
                *image = refused.value.image;
                Err(NoMemory)
            }
        }
    }

    /// The slot of an endpoint if its process is alive, else `Stale`.
    pub fn look(&self, endpoint: Endpoint) -> Result<Slot, Stale>
        ensures { result ≡ slot_of_endpoint self.now endpoint }
    {
        if !self.names_slot(endpoint) {
            return Err(Stale);
        }
        let slot = self.slot_of(endpoint);
        if self.is_current(slot, generation_of(endpoint)) {
            Ok(slot)
        } else {
            Err(Stale)
        }
    }

    /// Whether an endpoint names a slot that is used, whatever its generation.
    pub fn names_slot(&self, endpoint: Endpoint) -> bool
        ensures { result ≡ names_slot self.now endpoint }
    {
        endpoint < FIRST_NEGATIVE && slot_of(endpoint) < self.slots.len() as u32
    }

    /// The slot of an endpoint, if the slot is used.
    pub fn slot_of(&self, endpoint: Endpoint) -> Slot
        requires { slot_of endpoint < length self.now.slots }
        ensures { result ≡ slot_of endpoint }
    {
        // At most 32 slots are used, so a slot fits a byte.
        self.sound();
        slot_of(endpoint) as Slot
    }

    /// Whether a slot's process is alive and has this generation.
    pub fn is_current(&self, slot: Slot, generation: u32) -> bool
        requires { slot < length self.now.slots }
        ensures { result ≡ is_current self.now slot generation }
    {
        let process = self.process(slot);
        !process.state.is_down() && process.generation == generation
    }

    /// The process of a slot.
    #[inline(always)]
    pub fn process(&self, slot: Slot) -> &Process
        requires { slot < length self.now.slots }
        ensures value { result.now ≡ process_at self.now slot }
        ensures few { length self.now.slots ≤ 32 }
        ensures buffer { is_blocked (process_at self.now slot).state ≡ true
            → HasBuffer (process_at self.now slot) }
        ensures generation { (process_at self.now slot).generation < 2 ^ 20 }
        ensures alarm { IfSome (process_at self.now slot).alarm (λ due.
            due < self.now.uptime + 2 ^ 32) }
    {
        &self.slots[slot as usize]
    }

    /// The endpoint of a slot's process.
    pub fn endpoint(&self, slot: Slot) -> Endpoint
        requires { slot < length self.now.slots }
        ensures value { result ≡ endpoint_of self.now slot }
        ensures below { result < 2 ^ 31 }
        ensures slot { result ≡ endpoint_from (process_at self.now slot).generation slot }
    {
        endpoint_from(self.process(slot).generation, u32::from(slot))
    }

    /// How many slots of the table are used.
    pub fn slot_count(&self) -> u8
        ensures value { result ≡ length self.now.slots }
        ensures few { result ≤ 32 }
    {
        self.slots.len() as u8
    }

    /// The slot whose quantum `to_end` renewed last, or `None` if it renewed none yet.
    pub fn last_renewed(&self) -> Option<Slot>
        ensures { result ≡ self.now.renewed }
    {
        self.renewed
    }

    /// The ticks of the clock since boot.
    pub fn uptime(&self) -> u32
        ensures { result ≡ self.now.uptime }
    {
        self.uptime
    }

    /// The rules for copies between processes.
    pub fn rules(&self) -> Rules
        ensures { result ≡ self.now.rules }
    {
        self.rules
    }

    /// A recorded delivery: index 0 is the oldest that is left. `None` if the index is too high.
    pub fn delivery(&self, index: usize) -> Option<Delivery>
        ensures { result ≡ slice_get self.now.deliveries index }
    {
        self.deliveries.get(index)
    }

    /// Law: each table is sound.
    pub fn sound(&self)
        ensures { Sound self.now }
    {
        let _slots = &self.slots;
    }
}
