//! The parts of a kernel that are stored, to make the same kernel again: all but the services and the records, which
//! the caller has.

ghost use Rattle.std.specs.Prelude.{◌≡◌, ◌≤◌, IfOk, length, vec_capacity};

use crate::caches::Caches;
use crate::current::CurrentState;
use crate::{Kernel, Lease, Record, Service};
use mx_exec::CopyFor;
use mx_proc::{Rules, Table};
use mx_word::NoMemory;
use std::alloc::Global;
use std::marker::Model;
use std::snapshot::Snapshot;

/// A kernel's state without its services.
#[derive(Drop)]
pub(crate) struct StoredState {
    pub table: Table,
    pub leases: Vec<Option<Lease>>,
    pub others: u8,
    pub services: Snapshot<Vec<Service>>,
    pub records: u32,
    pub capacity: u32,
}

impl Model for StoredState {
    ghost use Rattle.mx_machine.specs.KernelState.{KernelState};
    ghost use Rattle.mx_machine.specs.Sound.{IsConsistent};

    ghost Value = { KernelState };

    ghost view = { λ p. record {
      table = p.table;
      leases = p.leases.items;
      others = p.others;
      services = p.services.value.items;
      records = p.records;
      capacity = p.capacity;
    } };

    ghost invariant = { λ p.
        IsConsistent p.table p.leases.items p.services.value.items p.records p.capacity };
}

impl StoredState {
    /// How many records there may be.
    fn capacity(&self) -> u32
        ensures value { result ≡ self.now.capacity }
        ensures room { self.now.records ≤ result }
    {
        self.capacity
    }

    /// The state again, with these services.
    pub(crate) fn restore(
        &self,
        alloc: Global,
        services: Vec<Service>,
    ) -> Result<CurrentState, NoMemory>
        requires { services.items ≡ self.now.services }
        ensures { IfOk result (λ present. present ≡ self.now) }
    {
        let table = self.table.copied(alloc, CopyFor::Running)?;
        let leases = Vec::from_slice(alloc, self.leases.as_slice())?;
        Ok(CurrentState {
            table,
            leases,
            others: self.others,
            services,
            records: self.records,
            capacity: self.capacity,
        })
    }
}

/// A kernel without its services and records. A contract sees it as the whole kernel.
#[derive(Drop)]
pub(crate) struct StoredKernel {
    pub present: StoredState,
    pub records: Snapshot<Vec<Record>>,
    pub processors: u8,
    pub rules: Rules,
}

impl Model for StoredKernel {
    ghost use Rattle.mx_machine.specs.Boot.{world_at_boot_with};
    ghost use Rattle.mx_machine.specs.History.{BootAndHistory};
    ghost use Rattle.mx_machine.specs.Agrees.{IsAtReplay};

    ghost Value = { BootAndHistory };

    ghost view = { λ k. record {
      boot = world_at_boot_with k.rules k.present.services k.processors
          k.present.others k.present.capacity;
      history = k.records.value.items;
    } };

    ghost invariant = { λ k.
        IsAtReplay k.present k.present.capacity
        (record {
          boot = world_at_boot_with k.rules k.present.services k.processors k.present.others
              k.present.capacity;
          history = k.records.value.items;
        }) };
}

/// These records, with room for so many.
fn with_room(records: Vec<Record>, capacity: u32) -> Result<Vec<Record>, NoMemory>
    requires { length records.items ≤ capacity }
    ensures items { IfOk result (λ roomy. roomy.items ≡ records.items) }
    ensures room { IfOk result (λ roomy. capacity ≤ vec_capacity roomy) }
{
    let mut records = records;
    let left = capacity as usize - records.len();
    records.reserve_exact(left)?;
    Ok(records)
}

impl StoredKernel {
    /// The kernel again, with its services and its records. The caches are empty, as at boot.
    pub(crate) fn restore(
        &self,
        alloc: Global,
        services: Vec<Service>,
        records: Vec<Record>,
    ) -> Result<Kernel, NoMemory>
        requires services { services.items ≡ self.now.boot.services }
        requires records { records.items ≡ self.now.history }
        ensures { IfOk result (λ kernel. kernel ≡ self.now) }
    {
        let records = with_room(records, self.present.capacity())?;
        let caches = Caches::new(alloc, services.as_slice())?;
        let present = self.present.restore(alloc, services)?;
        Ok(Kernel {
            present,
            records,
            processors: self.processors,
            rules: self.rules,
            caches,
        })
    }
}
