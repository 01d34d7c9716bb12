//! The devices of a table of processes: interrupt lines, machine registers and the console.

ghost use Rattle.std.specs.Prelude.{◌≡◌, IfOk};
ghost use Rattle.mx_proc.specs.Devices.{no_devices};

use crate::console::Console;
use mx_word::NoMemory;
use std::alloc::Global;

/// The owner of each interrupt line (a slot, or nobody), the machine's registers, and its console.
#[derive(Drop)]
pub struct Devices {
    pub owners: [Option<u8>; 16],
    pub registers: [u32; 256],
    pub console: Console,
}

impl Devices {
    /// Lines without owners, registers that are 0, and an empty console. Takes memory: answers `NoMemory`
    /// if there isn't enough.
    pub fn new(alloc: Global) -> Result<Devices, NoMemory>
        ensures { IfOk result (λ devices. devices ≡ no_devices) }
    {
        let console = Console::new(alloc)?;
        Ok(Devices {
            owners: [None; 16],
            registers: [0; 256],
            console,
        })
    }

    /// The same owners, registers and console. Takes memory: answers `NoMemory` if there isn't enough.
    pub fn copied(&self, alloc: Global) -> Result<Devices, NoMemory>
        ensures { IfOk result (λ copy. copy ≡ self.now) }
    {
        let console = self.console.copied(alloc)?;
        Ok(Devices {
            owners: self.owners,
            registers: self.registers,
            console,
        })
    }
}
