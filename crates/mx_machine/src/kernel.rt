//! The kernel: the current state, and the history of all events.

ghost use Rattle.std.specs.Prelude.{◌≡◌, ℕ, ◌≤◌, ◌<◌, ◌++◌, ◌∷◌, [], true, Some, None, IfOk, IfErr, OnOk, OnErr, All, length, slice_get, vec_len, vec_capacity};
ghost use Rattle.std.specs.Option.{option_map};
ghost use Rattle.mx_machine.specs.declared.events.Event.TheVariants as events;
ghost use Rattle.mx_machine.specs.declared.history.Recorded.TheVariants as recorded;
ghost use Rattle.mx_machine.specs.Boot.{world_at_boot};
ghost use Rattle.mx_machine.specs.Held.{IsBack};
ghost use Rattle.mx_machine.specs.History.{AreAccepted, IsWritable, events_of_history, replay, with_record};
ghost use Rattle.mx_machine.specs.Move.{event_refusal, event_answer, world_after_event, with_held};
ghost use Rattle.mx_machine.specs.Rest.{at_rest};
ghost use Rattle.mx_machine.specs.Sound.{IsSound, lease_of};
ghost use Rattle.mx_machine.specs.World.{HeldProcess, actors, held_by};
ghost use Rattle.mx_machine.specs.Agrees.{AreSound, IsBoot, IsEventAccepted, IsFresh, IsEventRefused};
ghost use Rattle.mx_machine.specs.KernelState.{is_for_all, recorded_as};

use crate::booting::first_present;
use crate::caches::Caches;
use crate::current::CurrentState;
use crate::stored::StoredKernel;
use crate::{Answer, Config, Decoded, Event, Out, Record, Recorded, Refusal, Service};
use mx_proc::{Delivery, Rules, Slot, Table};
use mx_word::NoMemory;
use std::alloc::Global;
use std::marker::Model;
use std::mem;
use std::snapshot::Snapshot;

/// A kernel: its current state, and the history that led there. It took all its memory when it was made. A
/// contract sees it as the machine at boot and the history. It has no ghost snapshot, so that a lock may send
/// it to another thread.
pub struct Kernel {
    pub(crate) present: CurrentState,
    pub(crate) records: Vec<Record>,
    pub(crate) processors: u8,
    pub(crate) rules: Rules,
    pub(crate) caches: Caches,
}

impl Drop for Kernel {
    fn drop(self) {
        // By hand, so that a drop is a call, as that of `Machine`.
        let Kernel {
            present: _,
            records: _,
            processors: _,
            rules: _,
            caches: _,
        } = self;
    }
}

impl Model for Kernel {
    ghost use Rattle.std.specs.Prelude.{vec_capacity};
    ghost use Rattle.mx_machine.specs.Boot.{world_at_boot_with};
    ghost use Rattle.mx_machine.specs.History.{BootAndHistory};
    ghost use Rattle.mx_machine.specs.Agrees.{IsAtReplay};

    ghost Value = { BootAndHistory };

    ghost view = { λ k. record {
      boot = world_at_boot_with k.rules k.present.services k.processors
          k.present.others k.present.capacity;
      history = k.records.items;
    } };

    ghost invariant = { λ k.
        IsAtReplay k.present (vec_capacity k.records)
        (record {
          boot = world_at_boot_with k.rules k.present.services k.processors k.present.others
              k.present.capacity;
          history = k.records.items;
        }) };
}

/// Adds a record, for which there is room.
fn note(records: &mut Vec<Record>, actor: u8, event: Recorded)
    requires { vec_len records.old < vec_capacity records.old }
    ensures items { records.new.items ≡ records.old.items ++ record { actor = actor; event = event }
        ∷ [] }
    ensures room { vec_capacity records.old ≤ vec_capacity records.new }
{
    match records.push(Record { actor, event }) {
        Ok(()) => {}
        Err(_) => unreachable!(),
    }
}

/// The shortest record in which an event is made. An event that any actor may do is recorded so; of a processor's
/// steps only `Kernel::back` knows how many came before their `Back`.
pub fn recorded_as(event: Event) -> Recorded
    ensures { result ≡ recorded_as event }
{
    match event {
        Event::Step => Recorded::Back(1),
        Event::Take => Recorded::Take,
        Event::Back => Recorded::Back(0),
        Event::Line(line) => Recorded::Line(line),
        Event::Tick => Recorded::Tick,
        Event::Kill(endpoint) => Recorded::Kill(endpoint),
        Event::Respawn(slot) => Recorded::Respawn(slot),
    }
}

impl Kernel {
    /// The kernel of a configuration and its services. The slot of a service is its index in the list. The
    /// services are moved out of the list, which is left empty; if memory runs out they stay.
    pub fn new(
        alloc: Global,
        config: &Config,
        services: &mut Vec<Service>,
    ) -> Result<Kernel, NoMemory>
        requires some { 0 < length services.old.items }
        requires few { length services.old.items ≤ 32 }
        ensures booted { IfOk result (λ kernel.
            kernel ≡ record { boot = world_at_boot config.now services.old.items; history = [] }) }
        ensures emptied { OnOk result (services.new.items ≡ []) }
        ensures same { OnErr result (services.new.items ≡ services.old.items) }
    {
        let records = Vec::with_capacity(alloc, config.log as usize)?;
        let caches = Caches::new(alloc, services.as_slice())?;
        let present = first_present(alloc, config, services)?;
        Ok(Kernel {
            present,
            records,
            processors: config.cpus,
            rules: config.rules,
            caches,
        })
    }

    /// A processor takes the process that is first to run, and is lent its image, with the cache of
    /// instructions that it has decoded. It needs two free records, one of them for its return: so `back` is never
    /// refused for want of a record.
    pub fn take(&mut self, cpu: u8) -> Result<Out, Refusal>
        ensures ok { OnOk result (IsEventAccepted self.old self.new cpu events.Take recorded.Take) }
        ensures lent { IfOk result (λ out. (l : HeldProcess)
            × (held_by (replay self.new) cpu ≡ Some l) × (l.out ≡ out)) }
        ensures err { IfErr result (λ refusal.
            IsEventRefused self.old self.new cpu events.Take refusal) }
    {
        let mut out = Out::idle(*self.records.allocator());
        self.take_into(cpu, &mut out)?;
        Ok(out)
    }

    /// As `take`, into a place whose old image and cache are dropped.
    pub(crate) fn take_into(&mut self, cpu: u8, out: &mut Out) -> Result<(), Refusal>
        ensures ok { OnOk result (IsEventAccepted self.old self.new cpu events.Take recorded.Take) }
        ensures lent { OnOk result ((l : HeldProcess)
            × (held_by (replay self.new) cpu ≡ Some l) × (l.out ≡ out.new)) }
        ensures err { IfErr result (λ refusal.
            IsEventRefused self.old self.new cpu events.Take refusal) }
        ensures same { OnErr result (out.new ≡ out.old) }
    {
        self.present.facts();
        self.present.take(cpu, out)?;
        self.present.facts();
        note(&mut self.records, cpu, Recorded::Take);
        out.decoded = self.caches.lend(self.present.lease(cpu));
        Ok(())
    }

    /// A processor brings back what it was lent, after a run. Answers the steps of the run. The world that
    /// this event finds is sound.
    pub fn back(&mut self, cpu: u8, mut out: Out) -> u32
        requires { (l : HeldProcess) × (held_by (replay self.old) cpu ≡ Some l) × IsBack l.out out }
        ensures count { result ≡ out.count }
        ensures recorded { self.new ≡ with_record self.old cpu (recorded.Back out.count) }
        ensures world { (l : HeldProcess) → held_by (replay self.old) cpu ≡ Some l
            → replay self.new ≡ world_after_event
            (with_held (replay self.old) cpu (Some (record l { out = out }))) cpu events.Back }
        ensures found { (l : HeldProcess) → held_by (replay self.old) cpu ≡ Some l
            → IsSound (with_held (replay self.old) cpu (Some (record l { out = out }))) }
    {
        self.back_from(cpu, &mut out)
    }

    /// As `back`, from a place, which stays.
    pub(crate) fn back_from(&mut self, cpu: u8, out: &mut Out) -> u32
        requires { (l : HeldProcess) × (held_by (replay self.old) cpu ≡ Some l)
            × IsBack l.out out.old }
        ensures count { result ≡ out.old.count }
        ensures recorded { self.new ≡ with_record self.old cpu (recorded.Back out.old.count) }
        ensures world { (l : HeldProcess) → held_by (replay self.old) cpu ≡ Some l
            → replay self.new ≡ world_after_event
            (with_held (replay self.old) cpu (Some (record l { out = out.old }))) cpu events.Back }
        ensures found { (l : HeldProcess) → held_by (replay self.old) cpu ≡ Some l
            → IsSound (with_held (replay self.old) cpu (Some (record l { out = out.old }))) }
    {
        self.present.facts();
        let count = out.count;
        let decoded = mem::replace(&mut out.decoded, Decoded::nothing());
        let Some(lease) = self.present.lease(cpu) else {
            unreachable!()
        };
        self.caches.take_home(lease.slot, decoded);
        self.present.come_back(cpu, lease, out);
        self.present.facts();
        note(&mut self.records, cpu, Recorded::Back(count));
        count
    }

    /// An actor raises a line, lets the clock tick, kills a process or respawns a slot.
    pub fn event(&mut self, actor: u8, event: Event) -> Result<Answer, Refusal>
        requires event { is_for_all event ≡ true }
        requires actor { actor < actors (replay self.old) }
        ensures ok { IfOk result (λ answer. (answer ≡ event_answer (replay self.old) actor event)
            × IsEventAccepted self.old self.new actor event (recorded_as event)) }
        ensures err { IfErr result (λ refusal.
            IsEventRefused self.old self.new actor event refusal) }
    {
        self.present.facts();
        let answer = self.present.act(event)?;
        self.present.facts();
        note(&mut self.records, actor, recorded_as(event));
        Ok(answer)
    }

    /// Whether nothing is ready, nothing is out, and no slot that is down can be respawned.
    pub fn at_rest(&self) -> bool
        ensures { result ≡ at_rest (replay self.now) }
    {
        self.present.at_rest()
    }

    /// How many actors there are: the processors, and the others.
    pub fn actors(&self) -> usize
        ensures { result ≡ actors (replay self.now) }
    {
        self.processors as usize + self.present.others() as usize
    }

    /// How many processors the kernel serves.
    pub fn cpus(&self) -> u8
        ensures { result ≡ length (replay self.now).cpus }
    {
        self.processors
    }

    /// By which rules the machine was booted.
    #[tactic(auto, unfolding(crate::specs::Boot::first_table))]
    pub fn rules(&self) -> Rules
        ensures { result ≡ self.now.boot.table.rules }
    {
        self.rules
    }

    /// The kernel's table of processes.
    pub fn table(&self) -> &Table
        ensures { result.now ≡ (replay self.now).table }
    {
        self.present.table()
    }

    /// The kernel's history: what has happened since boot.
    pub fn history(&self) -> &[Record]
        ensures { result.now ≡ self.now.history }
    {
        self.records.as_slice()
    }

    /// The services, from which each slot is made.
    pub fn services(&self) -> &[Service]
        ensures { result.now ≡ (replay self.now).services }
    {
        self.present.services()
    }

    /// A copy without the services and the records, to be stored.
    pub(crate) fn to_stored(&self, alloc: Global) -> Result<StoredKernel, NoMemory>
        ensures { IfOk result (λ stored. stored ≡ self.now) }
    {
        Ok(StoredKernel {
            present: self.present.to_stored(alloc)?,
            records: Snapshot::of(&self.records),
            processors: self.processors,
            rules: self.rules,
        })
    }

    /// Lends the cache of the process that a processor holds.
    pub(crate) fn lend_cache(&mut self, cpu: u8) -> Decoded
        ensures { self.new ≡ self.old }
    {
        self.caches.lend(self.present.lease(cpu))
    }

    /// Ends the kernel, and hands back what its slots were made from, and its records. Takes no memory.
    pub fn into_parts(self) -> (Vec<Service>, Vec<Record>)
        ensures services { result.0.items ≡ self.boot.services }
        ensures records { result.1.items ≡ self.history }
    {
        let Kernel {
            present,
            records,
            processors: _,
            rules: _,
            caches: _,
        } = self;
        (present.into_services(), records)
    }

    /// Ends the kernel, and hands back what its slots were made from. Takes no memory.
    pub fn into_services(self) -> Vec<Service>
        ensures { result.items ≡ self.boot.services }
    {
        let (services, _) = self.into_parts();
        services
    }

    /// The slot whose process the kernel has lent to a processor.
    pub fn slot_on(&self, cpu: u8) -> Option<Slot>
        ensures { result ≡ option_map (λ (l : HeldProcess).
            l.slot) (held_by (replay self.now) cpu) }
    {
        match self.present.lease(cpu) {
            Some(lease) => Some(lease.slot),
            None => None,
        }
    }

    /// A recorded delivery, counted from the oldest.
    pub fn delivery(&self, index: usize) -> Option<Delivery>
        ensures { result ≡ slice_get (replay self.now).table.deliveries index }
    {
        self.table().delivery(index)
    }

    /// Law: a kernel's history begins at a boot, and each of its events is accepted and finds a sound world.
    /// So is the replay, with at most 8 processors. The records can be written, and what an actor holds is
    /// fresh.
    pub fn facts(&self)
        ensures sound { IsSound (replay self.now) }
        ensures few { length (replay self.now).cpus ≤ 8 }
        ensures booted { IsBoot self.now.boot }
        ensures accepted { AreAccepted self.now.boot (events_of_history self.now.history) }
        ensures history { AreSound self.now.boot (events_of_history self.now.history) }
        ensures written { All (IsWritable (actors (replay self.now))) self.now.history }
        ensures fresh { (a : ℕ) (l : HeldProcess) → held_by (replay self.now) a ≡ Some l
            → IsFresh (replay self.now) l }
    {
        self.present.facts();
    }
}
