//! A glance at a whole machine: its slots, its processors, its devices and deliveries.

ghost use Rattle.std.specs.Prelude.{◌≡◌};
ghost use Rattle.mx_machine.specs.World.{held_by};
ghost use Rattle.mx_machine.specs.Machine.{world_of};
ghost use Rattle.mx_look.specs.Glances.{glance_of, held_glance, cpu_glance, cpu_glances};

use crate::faults::{FaultGlance, look_at_faults};
use crate::images::{ImageGlance, image_glance};
use crate::kept::{last_byte, look_at_deliveries};
use crate::slot_glances::{SlotGlance, look_at_slots};
use mx_image::Stop;
use mx_machine::{Machine, Out};
use mx_proc::{Delivery, Rules, Slot};

/// What is looked at of a processor that holds a process.
#[derive(Clone, Copy)]
pub struct CpuGlance {
    pub slot: Slot,
    /// How many steps its process may make, and has made, and how the last one ended.
    pub budget: u32,
    pub count: u32,
    pub stop: Stop,
    pub image: ImageGlance,
}

/// What is looked at in a machine. Slots, processors and deliveries that there aren't are none.
#[derive(Clone, Copy)]
pub struct Glance {
    pub slots: [Option<SlotGlance>; 32],
    pub cpus: [Option<CpuGlance>; 8],
    /// The faults of the processes on the processors.
    pub faults: [Option<FaultGlance>; 8],
    /// The rules, which say what is a kernel call.
    pub rules: Rules,
    /// Who owns which interrupt line.
    pub owners: [Option<u8>; 16],
    /// The ticks since boot.
    pub uptime: u32,
    /// How many bytes were ever written to the console, and the last of them.
    pub written: u32,
    pub last_byte: Option<u8>,
    /// The recorded deliveries, the latest first, and of these as many as there are services: no
    /// event makes more.
    pub deliveries: [Option<Delivery>; 32],
}

/// What is looked at of a process on a processor.
#[tactic(auto, unfolding(crate::specs::Glances::held_glance))]
fn held_glance(slot: Slot, out: &Out) -> CpuGlance
    ensures { result ≡ held_glance (record { slot = slot; out = out.now }) }
{
    CpuGlance {
        slot,
        budget: out.budget,
        count: out.count,
        stop: out.stop,
        image: image_glance(&out.image),
    }
}

/// What is looked at of a processor.
fn cpu_glance(machine: &Machine, cpu: u8) -> Option<CpuGlance>
    ensures { result ≡ cpu_glance (world_of machine.now) cpu }
{
    match (machine.slot_on(cpu), machine.out(cpu)) {
        (Some(slot), Some(out)) => Some(held_glance(slot, out)),
        _ => None,
    }
}

/// Looks at the processors.
fn look_at_cpus(cpus: &mut [Option<CpuGlance>; 8], machine: &Machine)
    ensures { cpus.new ≡ cpu_glances (world_of machine.now) }
{
    for cpu in 0..8u8 {
        cpus[cpu as usize] = cpu_glance(machine, cpu);
    }
}

impl Glance {
    /// Looks at a machine. Takes no memory.
    pub fn of(machine: &Machine) -> Glance
        ensures { result ≡ glance_of (world_of machine.now) }
    {
        let mut glance = Glance {
            slots: [None; 32],
            cpus: [None; 8],
            faults: [None; 8],
            rules: machine.rules(),
            owners: [None; 16],
            uptime: 0,
            written: 0,
            last_byte: None,
            deliveries: [None; 32],
        };
        glance.look(machine);
        glance
    }

    /// Looks at a machine, and forgets what was seen before. It moves less than a new glance does.
    #[tactic(auto, unfolding(mx_machine::specs::Machine::world_of))]
    pub fn look(&mut self, machine: &Machine)
        ensures { self.new ≡ glance_of (world_of machine.now) }
    {
        look_at_cpus(&mut self.cpus, machine);
        look_at_faults(&mut self.faults, machine);
        let kernel = machine.kernel();
        kernel.facts();
        let table = kernel.table();
        let console = &table.devices().console;
        let services = kernel.services();
        look_at_slots(&mut self.slots, table, services);
        look_at_deliveries(&mut self.deliveries, table, services.len());
        self.rules = table.rules();
        self.owners = table.devices().owners;
        self.uptime = table.uptime();
        self.written = console.count();
        self.last_byte = last_byte(console);
    }
}
