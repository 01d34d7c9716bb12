//! Copies of tables.

ghost use Rattle.std.specs.Prelude.{◌≡◌, IfOk};

use super::Table;
use crate::process::Process;
use mx_exec::{CopyFor, copy_image};
use mx_word::NoMemory;
use std::alloc::Global;

/// A process with the same fields and a copy of the image.
fn copy_process(alloc: Global, process: &Process, purpose: CopyFor) -> Result<Process, NoMemory>
    ensures { IfOk result (λ copy. copy ≡ process.now) }
{
    let image = copy_image(alloc, &process.image, purpose)?;
    Ok(Process { image, ..*process })
}

/// Copies of these processes, in room for 32 of them.
fn copy_slots(alloc: Global, slots: &[Process], purpose: CopyFor) -> Result<Vec<Process>, NoMemory>
    ensures { IfOk result (λ copies. copies.items ≡ slots.now) }
{
    let mut copies = Vec::with_capacity(alloc, 32)?;
    for process in slots {
        let Ok(()) = copies.push(copy_process(alloc, process, purpose)?) else {
            return Err(NoMemory);
        };
    }
    Ok(copies)
}

impl Table {
    /// A table with the same processes, queues, devices and deliveries. Takes memory: answers `NoMemory` if
    /// there isn't enough.
    pub fn copied(&self, alloc: Global, purpose: CopyFor) -> Result<Table, NoMemory>
        ensures { IfOk result (λ copy. copy ≡ self.now) }
    {
        let slots = copy_slots(alloc, self.slots.as_slice(), purpose)?;
        let devices = self.devices.copied(alloc)?;
        let deliveries = self.deliveries.copied(alloc)?;
        Ok(Table {
            slots,
            ready: self.ready.copied(),
            waits: self.waits.copied(),
            renewed: self.renewed,
            uptime: self.uptime,
            devices,
            deliveries,
            rules: self.rules,
        })
    }
}
