//! Checkpoints: copies of a machine, from which it can be made again.

ghost use Rattle.std.specs.Prelude.{◌≡◌, IfOk};

use crate::place::{Place, no_outs};
use crate::stored::StoredKernel;
use crate::{Decoded, Kernel, Machine, Out, Record, Service};
use mx_exec::{CopyFor, copy_image};
use mx_word::NoMemory;
use std::alloc::Global;
use std::marker::Model;

/// A copy of a machine, for which the services and the records aren't copied: who makes the machine again has them.
/// A contract sees it as the whole machine. It has no cache of decoded instructions.
pub struct Checkpoint {
    kernel: StoredKernel,
    outs: [Place; 8],
}

impl Drop for Checkpoint {
    fn drop(self) {
        let Checkpoint { kernel: _, outs: _ } = self;
    }
}

impl Model for Checkpoint {
    ghost use Rattle.mx_machine.specs.Machine.{MachineState, IsMachineState};

    ghost Value = { MachineState };

    ghost view = { λ m. record { kernel = m.kernel; outs = m.outs } };

    ghost invariant = { λ m. IsMachineState (record { kernel = m.kernel; outs = m.outs }) };
}

/// A copy of what a processor holds, if it holds anything. It has no cache.
fn copy_held(alloc: Global, held: &Place, purpose: CopyFor) -> Result<Place, NoMemory>
    ensures { IfOk result (λ copy. copy ≡ held.now) }
{
    if !held.is_held {
        return Ok(Place::new(alloc));
    }
    let out = &held.out;
    let image = copy_image(alloc, &out.image, purpose)?;
    let out = Out {
        image,
        budget: out.budget,
        count: out.count,
        stop: out.stop,
        // A cache only makes runs faster, and fills again.
        decoded: Decoded::nothing(),
    };
    Ok(Place { is_held: true, out })
}

/// Copies of what the processors hold.
fn copy_outs(alloc: Global, outs: &[Place; 8], purpose: CopyFor) -> Result<[Place; 8], NoMemory>
    ensures { IfOk result (λ copies. copies ≡ outs.now) }
{
    let mut copies = no_outs(alloc);
    for cpu in 0..outs.len() {
        copies[cpu] = copy_held(alloc, &outs[cpu], purpose)?;
    }
    Ok(copies)
}

/// Gives a process the cache of its slot, if a processor holds one.
fn give_cache(kernel: &mut Kernel, cpu: u8, held: &mut Place)
    ensures kernel { kernel.new ≡ kernel.old }
    ensures held { held.new ≡ held.old }
{
    if held.is_held {
        held.out.decoded = kernel.lend_cache(cpu);
    }
}

/// Gives each process that a processor holds the cache of its slot.
fn give_caches(kernel: &mut Kernel, outs: &mut [Place; 8])
    ensures kernel { kernel.new ≡ kernel.old }
    ensures outs { outs.new ≡ outs.old }
{
    for cpu in 0..8u8 {
        give_cache(kernel, cpu, &mut outs[cpu as usize]);
    }
}

impl Checkpoint {
    /// A checkpoint of a machine. Takes memory for its images and its table.
    pub fn new(alloc: Global, machine: &Machine) -> Result<Checkpoint, NoMemory>
        ensures { IfOk result (λ checkpoint. checkpoint ≡ machine.now) }
    {
        machine.facts();
        let kernel = machine.kernel.to_stored(alloc)?;
        let outs = copy_outs(alloc, &machine.outs, CopyFor::Storing)?;
        Ok(Checkpoint { kernel, outs })
    }

    /// The machine again, with its services and its records. Its caches are empty, as at boot. Takes memory, for the
    /// records too if they haven't as much room as those of the machine.
    pub fn machine(
        &self,
        alloc: Global,
        services: Vec<Service>,
        records: Vec<Record>,
    ) -> Result<Machine, NoMemory>
        requires services { services.items ≡ self.now.kernel.boot.services }
        requires records { records.items ≡ self.now.kernel.history }
        ensures { IfOk result (λ machine. machine ≡ self.now) }
    {
        let mut kernel = self.kernel.restore(alloc, services, records)?;
        let mut outs = copy_outs(alloc, &self.outs, CopyFor::Running)?;
        give_caches(&mut kernel, &mut outs);
        Ok(Machine { kernel, outs })
    }
}
