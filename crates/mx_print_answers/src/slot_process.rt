//! A slot's process, wherever it is, and addresses in its memory.

ghost use Rattle.std.specs.Prelude.{◌≡◌, ◌++◌, OnOk, option_map, slice_get, string_bytes};
ghost use Rattle.mx_machine.specs.History.{replay};
ghost use Rattle.mx_machine.specs.Machine.{world_of};
ghost use Rattle.mx_machine.specs.World.{held_by};
ghost use Rattle.mx_debug.specs.Finding.{first_named};
ghost use Rattle.mx_print_answers.specs.Slots.{address_after, address_asked, address_in, image_at_home, image_in, image_of_held, memory_at, memory_of, registers_of, slot_named, symbols_by, value_named};

use crate::processes::{push_memory, push_process};
use crate::refused::Refused;
use mx_aout::Symbol;
use mx_boot::{AddressWord, SymbolName};
use mx_debug::{DebugError, Debugger};
use mx_exec::Image;
use mx_machine::{Kernel, Machine, Refusal};
use mx_proc::Slot;
use std::alloc::AllocError;
use std::fmt::Write;

/// The symbols of a slot's program; none if the slot has no service.
pub fn symbols_of(kernel: &Kernel, slot: Slot) -> &[Symbol]
    ensures { result.now ≡ symbols_by (slice_get (replay kernel.now).services slot) }
{
    kernel.facts();
    match kernel.services().get(slot as usize) {
        Some(service) => service.program.symbols.as_slice(),
        None => &[],
    }
}

/// The process that a processor holds, if it is that of this slot.
fn image_held(machine: &Machine, cpu: u8, slot: Slot) -> Option<&Image>
    ensures { option_map (λ m. m.now) result
        ≡ image_of_held (held_by (world_of machine.now) cpu) slot }
{
    match (machine.slot_on(cpu), machine.image(cpu)) {
        (Some(on), Some(image)) => if on == slot { Some(image) } else { None },
        _ => None,
    }
}

/// The process of a slot in the kernel's table, if there is such a slot.
#[tactic(auto, unfolding(mx_machine::specs::Machine::world_of))]
fn image_at_home(machine: &Machine, slot: Slot) -> Option<&Image>
    ensures { option_map (λ m. m.now) result ≡ image_at_home (world_of machine.now) slot }
{
    let table = machine.kernel().table();
    if slot >= table.slot_count() {
        return None;
    }
    Some(&table.process(slot).image)
}

/// The process of a slot: on a processor, or in the kernel's table.
pub fn image_in(machine: &Machine, slot: Slot) -> Option<&Image>
    ensures { option_map (λ m. m.now) result ≡ image_in (world_of machine.now) slot }
{
    for cpu in 0..8u8 {
        match image_held(machine, cpu, slot) {
            Some(image) => return Some(image),
            None => {}
        }
    }
    image_at_home(machine, slot)
}

/// The slot of a number, if it has a service.
#[tactic(auto, unfolding(mx_machine::specs::Machine::world_of))]
pub fn slot_named(machine: &Machine, slot: u32) -> Result<Slot, Refused>
    ensures { result ≡ slot_named (world_of machine.now) slot }
{
    let kernel = machine.kernel();
    kernel.facts();
    if (slot as usize) < kernel.services().len() {
        Ok(slot as Slot)
    } else {
        Err(Refused::ByMachine(Refusal::NoService))
    }
}

/// The value of the first symbol of a name in the program of a slot's service.
fn value_of(kernel: &Kernel, slot: Slot, name: &[u8]) -> Option<u32>
    ensures { result
        ≡ first_named (symbols_by (slice_get (replay kernel.now).services slot)) name.now }
{
    kernel.facts();
    match kernel.services().get(slot as usize) {
        Some(service) => Debugger::address(&service.program, name).ok(),
        None => None,
    }
}

/// The value of the first symbol of a name in a slot's program, if the name isn't too long for a symbol.
fn value_named(kernel: &Kernel, slot: Slot, name: &Option<SymbolName>) -> Option<u32>
    ensures { result
        ≡ value_named (symbols_by (slice_get (replay kernel.now).services slot)) name.now }
{
    match name {
        Some(name) => value_of(kernel, slot, name.as_slice()),
        None => None,
    }
}

/// So many bytes after a symbol's value, if there is one.
fn address_after(value: Option<u32>, after: u32) -> Result<u32, Refused>
    ensures { result ≡ address_after value after }
{
    match value {
        None => Err(Refused::ByDebugger(DebugError::NoSymbol)),
        Some(value) => match value.checked_add(after) {
            Some(at) => Ok(at),
            None => Err(Refused::ByDebugger(DebugError::NotHere)),
        },
    }
}

/// The address that is named in the program of a slot's service, or why there is none.
fn address_in(kernel: &Kernel, slot: Slot, asked: &AddressWord) -> Result<u32, Refused>
    ensures { result
        ≡ address_in (symbols_by (slice_get (replay kernel.now).services slot)) asked.now }
{
    match asked {
        AddressWord::Number(at) => Ok(*at),
        AddressWord::Symbol(name, after) => address_after(value_named(kernel, slot, name), *after),
    }
}

/// The address that is named in the program of a slot's service, or why there is none.
#[tactic(auto, unfolding(mx_machine::specs::Machine::world_of))]
pub fn address_asked(machine: &Machine, slot: Slot, asked: &AddressWord) -> Result<u32, Refused>
    ensures { result ≡ address_asked (world_of machine.now) slot asked.now }
{
    address_in(machine.kernel(), slot, asked)
}

/// Appends the registers of a slot's process, or why there are none.
pub fn push_registers_of(
    out: &mut String,
    machine: &Machine,
    slot: Result<Slot, Refused>,
) -> Result<(), AllocError>
    ensures { OnOk result (string_bytes out.new ≡ string_bytes out.old
        ++ registers_of (world_of machine.now) slot) }
{
    match slot {
        Ok(slot) => push_process(out, image_in(machine, slot)),
        Err(refused) => writeln!(out, "{refused}"),
    }
}

/// Appends bytes of a process from an address on, or why there are none.
pub fn push_memory_at(
    out: &mut String,
    image: Option<&Image>,
    from: Result<u32, Refused>,
    count: u32,
) -> Result<(), AllocError>
    ensures { OnOk result (string_bytes out.new ≡ string_bytes out.old
        ++ memory_at (option_map (λ m. m.now) image.entry) count from) }
{
    match from {
        Ok(from) => push_memory(out, image, from, count),
        Err(refused) => writeln!(out, "{refused}"),
    }
}

/// Appends bytes of a slot's process from an address on that is named, or why there are none.
pub fn push_memory_of(
    out: &mut String,
    machine: &Machine,
    slot: Result<Slot, Refused>,
    from: &AddressWord,
    count: u32,
) -> Result<(), AllocError>
    ensures { OnOk result (string_bytes out.new ≡ string_bytes out.old
        ++ memory_of (world_of machine.now) from.now count slot) }
{
    match slot {
        Ok(slot) => {
            let from = address_asked(machine, slot, from);
            push_memory_at(out, image_in(machine, slot), from, count)
        }
        Err(refused) => writeln!(out, "{refused}"),
    }
}
