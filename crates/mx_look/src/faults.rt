//! A glance at a fault: where a process faulted, and why.

ghost use Rattle.std.specs.Prelude.{◌≡◌, slice_get};
ghost use Rattle.mx_machine.specs.Machine.{world_of};
ghost use Rattle.mx_machine.specs.World.{held_by};
ghost use Rattle.mx_look.specs.Faults.{fault_by_stop, fault_glance, fault_glances, fault_seen, symbols_by};

use crate::code::code_part;
use crate::nearest::nearest_symbol;
use crate::reasons::{FaultReason, fault_reason};
use mx_aout::Symbol;
use mx_dis::Part;
use mx_exec::Image;
use mx_image::Stop;
use mx_machine::Machine;
use mx_proc::Slot;

/// Where and why the last step of a process on a processor faulted.
#[derive(Clone, Copy)]
pub struct FaultGlance {
    /// The address of the instruction: a fault changes nothing, so EIP is there.
    pub at: u32,
    /// The symbol of its program that the address lies at or after.
    pub symbol: Option<Symbol>,
    /// What a listing has of the bytes at the address; none if the code ends there.
    pub part: Option<Part>,
    pub reason: FaultReason,
    /// The limits of its memory and of its code, in bytes.
    pub memory_limit: usize,
    pub code_limit: usize,
}

/// The symbols of a slot's program; none if the slot has no service.
#[tactic(auto, unfolding(mx_machine::specs::Machine::world_of))]
fn symbols_of(machine: &Machine, slot: Slot) -> &[Symbol]
    ensures { result.now ≡ symbols_by (slice_get (world_of machine.now).services slot) }
{
    let kernel = machine.kernel();
    kernel.facts();
    match kernel.services().get(slot as usize) {
        Some(service) => service.program.symbols.as_slice(),
        None => &[],
    }
}

/// What is looked at of a process whose last step faulted.
#[tactic(auto, unfolding(crate::specs::Faults::fault_seen))]
fn fault_seen(symbols: &[Symbol], image: &Image, vector: u8) -> FaultGlance
    ensures { result ≡ fault_seen symbols.now image.now vector }
{
    let at = image.eip;
    FaultGlance {
        at,
        symbol: nearest_symbol(symbols, at).copied(),
        part: code_part(image, at),
        reason: fault_reason(image, vector),
        memory_limit: image.memory.limit(),
        code_limit: image.code_segment().limit(),
    }
}

/// The fault of a process, if it stopped at one.
fn fault_by_stop(symbols: &[Symbol], image: &Image, stop: Stop) -> Option<FaultGlance>
    ensures { result ≡ fault_by_stop symbols.now image.now stop }
{
    match stop {
        Stop::Fault(vector) => Some(fault_seen(symbols, image, vector)),
        Stop::Spent | Stop::Trap => None,
    }
}

/// The fault of the process on a processor, if it stopped at one.
fn fault_glance(machine: &Machine, cpu: u8) -> Option<FaultGlance>
    ensures { result ≡ fault_glance (world_of machine.now) cpu }
{
    match (machine.slot_on(cpu), machine.out(cpu)) {
        (Some(slot), Some(out)) => {
            fault_by_stop(symbols_of(machine, slot), &out.image, out.stop)
        }
        _ => None,
    }
}

/// Looks at the faults of the processes on the processors.
pub(crate) fn look_at_faults(faults: &mut [Option<FaultGlance>; 8], machine: &Machine)
    ensures { faults.new ≡ fault_glances (world_of machine.now) }
{
    for cpu in 0..8u8 {
        faults[cpu as usize] = fault_glance(machine, cpu);
    }
}
