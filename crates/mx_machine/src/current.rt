//! The current state of a kernel, without its history: the table, the leases and the services.

ghost use Rattle.std.specs.Prelude.{◌≡◌, ℕ, ◌+◌, ◌-◌, ◌<◌, ◌≤◌, ◌^◌, ◌==◌, ◌&&◌, true, Some, None, IsSome, Ok, Err, IfOk, IfErr, OnOk, OnErr, is_none, length, slice_get};
ghost use Rattle.mx_machine.specs.Load.{IsLoadedFrom};
ghost use Rattle.mx_ipc.specs.Proc.Queues.{first_ready};
ghost use Rattle.mx_ipc.specs.Proc.Sound.{Sound};
ghost use Rattle.mx_ipc.specs.Proc.States.{is_ready};
ghost use Rattle.mx_ipc.specs.Proc.TableState.{process_at};
ghost use Rattle.mx_machine.specs.Service.{Service};
ghost use Rattle.mx_machine.specs.CallRefusals.{owner_of};
ghost use Rattle.mx_machine.specs.declared.events.Event.TheVariants as events;
ghost use Rattle.mx_machine.specs.Move.{if_full, held_at_take};
ghost use Rattle.mx_machine.specs.Rest.{down_are_worn};
ghost use Rattle.mx_machine.specs.Sound.{IsConsistent, lease_at};
ghost use Rattle.mx_machine.specs.World.{out_count};
ghost use Rattle.mx_machine.specs.KernelState.{is_for_all, records_left, refusal_to, MayRespawn, state_after_take, state_after_back, AnswersTake, AnswersEvent};

use crate::serving::{come_home, kill, send_out};
use crate::stored::StoredState;
use crate::{Answer, Event, Lease, Out, Refusal, Service, Stop, is_worn, raise, respawn, tick};
use mx_exec::CopyFor;
use mx_ipc::pick;
use mx_proc::{Endpoint, Slot, Table, endpoint_from};
use mx_word::NoMemory;
use std::alloc::Global;
use std::marker::Model;
use std::snapshot::Snapshot;

/// A kernel's table, and what it remembers of its processors.
#[derive(Drop)]
pub(crate) struct CurrentState {
    pub(crate) table: Table,
    pub(crate) leases: Vec<Option<Lease>>,
    pub(crate) others: u8,
    pub(crate) services: Vec<Service>,
    pub(crate) records: u32,
    pub(crate) capacity: u32,
}

impl Model for CurrentState {
    ghost use Rattle.mx_machine.specs.KernelState.{KernelState};
    ghost use Rattle.mx_machine.specs.Sound.{IsConsistent};

    ghost Value = { KernelState };

    ghost view = { λ p. record {
      table = p.table;
      leases = p.leases.items;
      others = p.others;
      services = p.services.items;
      records = p.records;
      capacity = p.capacity;
    } };

    ghost invariant = { λ p.
        IsConsistent p.table p.leases.items p.services.items p.records p.capacity };
}

/// How many processors hold a process.
fn count_out(leases: &[Option<Lease>]) -> usize
    ensures { result ≡ out_count leases.now }
{
    let mut count = 0;
    for lease in leases {
        if lease.is_some() {
            count += 1;
        }
    }
    count
}

impl CurrentState {
    /// A table with nothing recorded yet.
    pub(crate) fn new(
        table: Table,
        leases: Vec<Option<Lease>>,
        others: u8,
        services: Vec<Service>,
        capacity: u32,
    ) -> CurrentState
        requires { IsConsistent table leases.items services.items 0 capacity }
        ensures { result ≡ record {
          table = table;
          leases = leases.items;
          others = others;
          services = services.items;
          records = 0;
          capacity = capacity;
        } }
    {
        CurrentState {
            table,
            leases,
            others,
            services,
            records: 0,
            capacity,
        }
    }

    /// A copy without the services, to be stored.
    pub(crate) fn to_stored(&self, alloc: Global) -> Result<StoredState, NoMemory>
        ensures { IfOk result (λ stored. stored ≡ self.now) }
    {
        let table = self.table.copied(alloc, CopyFor::Storing)?;
        let leases = Vec::from_slice(alloc, self.leases.as_slice())?;
        Ok(StoredState {
            table,
            leases,
            others: self.others,
            services: Snapshot::of(&self.services),
            records: self.records,
            capacity: self.capacity,
        })
    }

    /// The table.
    pub(crate) fn table(&self) -> &Table
        ensures { result.now ≡ self.now.table }
    {
        &self.table
    }

    /// Law: the table is sound, and leases, services and records fit it.
    pub(crate) fn facts(&self)
        ensures sound { Sound self.now.table }
        ensures holds { IsConsistent self.now.table self.now.leases self.now.services
            self.now.records self.now.capacity }
    {
        self.table.sound();
    }

    /// How many processors there are.
    fn processors(&self) -> usize
        ensures { result ≡ length self.now.leases }
    {
        self.leases.as_slice().len()
    }

    /// What a processor holds.
    pub(crate) fn lease(&self, cpu: u8) -> Option<Lease>
        ensures { result ≡ lease_at self.now.leases cpu }
    {
        match self.leases.as_slice().get(cpu as usize) {
            Some(lease) => *lease,
            None => None,
        }
    }

    /// How many actors there are that are no processors.
    pub(crate) fn others(&self) -> u8
        ensures { result ≡ self.now.others }
    {
        self.others
    }

    /// What each slot is made from.
    pub(crate) fn services(&self) -> &[Service]
        ensures { result.now ≡ self.now.services }
    {
        self.services.as_slice()
    }

    /// The services, of which each slot was made; all else is dropped.
    pub(crate) fn into_services(self) -> Vec<Service>
        ensures { result.items ≡ self.services }
    {
        let CurrentState {
            table: _,
            leases: _,
            others: _,
            services,
            records: _,
            capacity: _,
        } = self;
        services
    }

    /// The free records.
    fn free(&self) -> usize
        ensures { result ≡ records_left self.now }
    {
        self.capacity as usize - (self.records as usize + count_out(self.leases.as_slice()))
    }

    /// The records that are free even if each processor holds a process: so nobody counts these.
    fn surely_free(&self) -> usize
        ensures { result ≤ records_left self.now }
    {
        let held = self.processors();
        (self.capacity as usize)
            .saturating_sub(self.records as usize)
            .saturating_sub(held)
    }

    /// Fewer records are free than an event needs.
    fn if_full(&self, needed: usize) -> Result<(), Refusal>
        ensures ok { OnOk result ((if_full (records_left self.now) needed ≡ None)
            × (needed ≤ records_left self.now)) }
        ensures err { IfErr result (λ refusal. if_full (records_left self.now) needed
            ≡ Some refusal) }
    {
        if self.surely_free() >= needed {
            return Ok(());
        }
        if self.free() < needed {
            Err(Refusal::LogFull)
        } else {
            Ok(())
        }
    }

    /// A processor takes the process that is first to run; `out` becomes what it is lent.
    pub(crate) fn take(&mut self, cpu: u8, out: &mut Out) -> Result<(), Refusal>
        ensures ok { OnOk result (AnswersTake self.old self.new cpu (Ok out.new)) }
        ensures err { IfErr result (λ refusal. AnswersTake self.old self.new cpu (Err refusal)) }
        ensures same { OnErr result (out.new ≡ out.old) }
    {
        if cpu as usize >= self.processors() {
            return Err(Refusal::CpuBusy);
        }
        if let Some(_) = self.lease(cpu) {
            return Err(Refusal::CpuBusy);
        }
        let Some(slot) = pick(&self.table) else {
            return Err(Refusal::NoProcess);
        };
        // One record for this Take, and one for its Back. Tested last: a Take with nothing ready is refused as such.
        self.if_full(2)?;
        self.take_out(cpu, slot, out);
        Ok(())
    }

    /// A processor takes a ready process.
    fn take_out(&mut self, cpu: u8, slot: Slot, out: &mut Out)
        requires cpu { cpu < length self.old.leases }
        requires idle { lease_at self.old.leases cpu ≡ None }
        requires slot { slot < length self.old.table.slots }
        requires ready { is_ready (process_at self.old.table slot).state ≡ true }
        requires room { 2 ≤ records_left self.old }
        ensures value { self.new ≡ state_after_take self.old cpu slot }
        ensures out { out.new ≡ (held_at_take self.old.table slot).out }
    {
        let budget = self.table.process(slot).schedule.ticks;
        send_out(&mut self.table, slot, &mut out.image);
        self.leases[cpu as usize] = Some(Lease { slot, budget });
        self.records += 1;
        out.budget = budget;
        out.count = 0;
        out.stop = Stop::Spent;
    }

    /// The process that a processor holds comes back.
    pub(crate) fn come_back(&mut self, cpu: u8, lease: Lease, out: &mut Out)
        requires lease { lease_at self.old.leases cpu ≡ Some lease }
        requires count { out.old.count ≤ lease.budget }
        requires loaded { (v : Service) → slice_get self.old.services lease.slot ≡ Some v
            → IsLoadedFrom out.old.image v.program }
        ensures value { self.new ≡ state_after_back self.old cpu lease.slot out.old }
        ensures few { out.old.count ≤ 65535 }
    {
        self.table.sound();
        come_home(&mut self.table, lease.slot, out);
        self.leases[cpu as usize] = None;
        self.records += 1;
    }

    /// An event that any actor may do.
    pub(crate) fn act(&mut self, event: Event) -> Result<Answer, Refusal>
        requires { is_for_all event ≡ true }
        ensures { AnswersEvent self.old self.new event result }
    {
        match event {
            Event::Line(line) => self.raise(line),
            Event::Tick => self.tick(),
            Event::Kill(endpoint) => self.kill(endpoint),
            Event::Respawn(slot) => self.respawn(slot),
            Event::Step | Event::Take | Event::Back => unreachable!(),
        }
    }

    /// Who owns a line.
    fn owner(&self, line: u32) -> Option<Slot>
        ensures value { result ≡ owner_of self.now.table line }
        ensures below { IsSome result → line < 16 }
    {
        self.table.sound();
        if line < 16 {
            self.table.devices().owners[line as usize]
        } else {
            None
        }
    }

    /// A line is raised.
    fn raise(&mut self, line: u32) -> Result<Answer, Refusal>
        ensures { AnswersEvent self.old self.new (events.Line line) result }
    {
        if self.owner(line).is_none() {
            return Err(Refusal::NoLine);
        }
        self.if_full(1)?;
        raise(&mut self.table, line as u8);
        self.records += 1;
        Ok(Answer::Done)
    }

    /// The clock ticks.
    fn tick(&mut self) -> Result<Answer, Refusal>
        ensures { AnswersEvent self.old self.new events.Tick result }
    {
        self.if_full(1)?;
        tick(&mut self.table);
        self.records += 1;
        Ok(Answer::Done)
    }

    /// The process of an endpoint is killed.
    fn kill(&mut self, endpoint: u32) -> Result<Answer, Refusal>
        ensures { AnswersEvent self.old self.new (events.Kill endpoint) result }
    {
        let Ok(slot) = self.table.look(endpoint) else {
            return Err(Refusal::NoProcess);
        };
        self.if_full(1)?;
        kill(&mut self.table, slot);
        self.records += 1;
        Ok(Answer::Done)
    }

    /// The endpoint of the process that a slot gets next, or why it gets none.
    fn next_endpoint(&self, slot: u32) -> Result<Endpoint, Refusal>
        ensures ok { IfOk result (λ endpoint. MayRespawn self.now slot endpoint) }
        ensures err { IfErr result (λ refusal. refusal_to self.now (events.Respawn slot)
            ≡ Some refusal) }
    {
        if slot >= u32::from(self.table.slot_count()) {
            return Err(Refusal::NoService);
        }
        let process = self.table.process(slot as u8);
        if !process.state.is_down() {
            return Err(Refusal::NotDown);
        }
        if is_worn(process, &self.services[slot as usize]) {
            return Err(Refusal::Worn);
        }
        let endpoint = endpoint_from(process.generation + 1, slot);
        self.if_full(1)?;
        Ok(endpoint)
    }

    /// A slot whose process is dead gets a new one.
    fn respawn(&mut self, slot: u32) -> Result<Answer, Refusal>
        ensures { AnswersEvent self.old self.new (events.Respawn slot) result }
    {
        let endpoint = self.next_endpoint(slot)?;
        respawn(&mut self.table, slot as u8, &self.services[slot as usize]);
        self.records += 1;
        Ok(Answer::Respawned(endpoint))
    }

    /// Whether nothing is ready, nothing is out, and no slot that is down can be respawned.
    pub(crate) fn at_rest(&self) -> bool
        ensures { result ≡ (is_none (first_ready self.now.table.ready) &&
            (out_count self.now.leases == 0) && down_are_worn self.now.table.slots
            self.now.services) }
    {
        pick(&self.table).is_none()
            && count_out(self.leases.as_slice()) == 0
            && down_are_worn(&self.table, self.services.as_slice())
    }
}

/// Whether each slot that is down is worn.
fn down_are_worn(table: &Table, services: &[Service]) -> bool
    requires { length services.now ≡ length table.now.slots }
    ensures { result ≡ down_are_worn table.now.slots services.now }
{
    for slot in 0..table.slot_count() {
        let process = table.process(slot);
        if process.state.is_down() && !is_worn(process, &services[slot as usize]) {
            return false;
        }
    }
    true
}
