//! What is shown of a slot's process.

ghost use Rattle.std.specs.Prelude.{◌≡◌, ◌++◌, OnOk, Some, option_copied, option_map, string_bytes};
ghost use Rattle.mx_print_answers.specs.Slots.{address_asked, image_in, memory_of, refused_text};
ghost use Rattle.mx_walk.specs.Walks.{world_here};
ghost use Rattle.mx_app_look.specs.Showing.{code_at, code_by, code_from, code_next, code_of, dword_line, query_text, registers_by, slot_refused, stack_by, stack_of, symbol_of_name, symbols_in, value_text, variable_by, variable_text};
ghost use Rattle.mx_app_look.specs.Slots.{slot_asked};

use crate::asked_slot::{address_here, slot_asked};
use crate::query::Query;
use mx_aout::Symbol;
use mx_boot::{AddressWord, SymbolName};
use mx_debug::DebugError;
use mx_exec::Image;
use mx_look::{push_code_lines, push_stack, push_variable, variable_named, variable_value};
use mx_print_answers::{Refused, image_in, push_memory_of, push_process, symbols_of};
use mx_proc::Slot;
use mx_walk::Walker;
use std::alloc::{AllocError, Global};
use std::fmt::Write;

/// How many instructions are listed.
const LISTED: u32 = 8;

/// Appends why nothing is shown.
fn push_refused(text: &mut String, refused: Refused) -> Result<(), AllocError>
    ensures { OnOk result (string_bytes text.new ≡ string_bytes text.old ++ refused_text refused) }
{
    writeln!(text, "{refused}")
}

/// What is answered if no slot is named, and no process is on the processor whose record is next.
const NO_SLOT: &str = "refused 61 NotHere: no process is next here: name a SLOT\n";

/// Appends why nothing is shown of a slot that is asked for, or that isn't named.
fn push_slot_refused(
    text: &mut String,
    asked: Option<u32>,
    refused: Refused,
) -> Result<(), AllocError>
    ensures { OnOk result (string_bytes text.new ≡ string_bytes text.old
        ++ slot_refused asked refused) }
{
    match asked {
        Some(_) => push_refused(text, refused),
        None => text.push_str(NO_SLOT),
    }
}

/// The symbols of the program of a slot's service.
fn symbols_in(walker: &Walker, slot: Slot) -> &[Symbol]
    ensures { result.now ≡ symbols_in (world_here walker.now) slot }
{
    symbols_of(walker.machine().kernel(), slot)
}

/// The process of a slot.
pub(crate) fn image_here(walker: &Walker, slot: Slot) -> Option<&Image>
    ensures { option_map (λ m. m.now) result ≡ image_in (world_here walker.now) slot }
{
    image_in(walker.machine(), slot)
}

/// Appends the registers of a slot's process, or why there are none.
fn push_registers(text: &mut String, walker: &Walker, asked: Option<u32>) -> Result<(), AllocError>
    ensures { OnOk result (string_bytes text.new ≡ string_bytes text.old
        ++ registers_by (world_here walker.now) asked (slot_asked walker.now asked)) }
{
    match slot_asked(walker, asked) {
        Ok(slot) => push_process(text, image_here(walker, slot)),
        Err(refused) => push_slot_refused(text, asked, refused),
    }
}

/// Appends bytes of the process of a slot that is named, or why there are none.
fn push_memory(
    text: &mut String,
    walker: &Walker,
    slot: u32,
    from: &AddressWord,
    count: u32,
) -> Result<(), AllocError>
    ensures { OnOk result (string_bytes text.new ≡ string_bytes text.old
        ++ memory_of (world_here walker.now) from.now count (slot_asked walker.now (Some slot))) }
{
    let slot = slot_asked(walker, Some(slot));
    push_memory_of(text, walker.machine(), slot, from, count)
}

/// Appends the code of a process from an address on, if there is a process.
fn push_code_at(
    text: &mut String,
    symbols: &[Symbol],
    image: Option<&Image>,
    at: u32,
) -> Result<(), AllocError>
    ensures { OnOk result (string_bytes text.new ≡ string_bytes text.old
        ++ code_at symbols.now (option_map (λ m. m.now) image.entry) at) }
{
    match image {
        Some(image) => push_code_lines(text, symbols, image, at, LISTED),
        None => push_process(text, None),
    }
}

/// Appends the code of a process from its next instruction on, if there is a process.
fn push_code_next(
    text: &mut String,
    symbols: &[Symbol],
    image: Option<&Image>,
) -> Result<(), AllocError>
    ensures { OnOk result (string_bytes text.new ≡ string_bytes text.old
        ++ code_next symbols.now (option_map (λ m. m.now) image.entry)) }
{
    match image {
        Some(image) => push_code_lines(text, symbols, image, image.eip, LISTED),
        None => push_process(text, None),
    }
}

/// Appends the code of a slot's process from an address on that is named, or why there is none.
fn push_code_from(
    text: &mut String,
    walker: &Walker,
    slot: Slot,
    from: &AddressWord,
) -> Result<(), AllocError>
    ensures { OnOk result (string_bytes text.new ≡ string_bytes text.old
        ++ code_from (world_here walker.now) slot
        (address_asked (world_here walker.now) slot from.now)) }
{
    match address_here(walker, slot, from) {
        Ok(at) => push_code_at(text, symbols_in(walker, slot), image_here(walker, slot), at),
        Err(refused) => push_refused(text, refused),
    }
}

/// Appends the code of a slot's process from an address, or from the next instruction on.
fn push_code_of(
    text: &mut String,
    walker: &Walker,
    slot: Slot,
    from: &Option<AddressWord>,
) -> Result<(), AllocError>
    ensures { OnOk result (string_bytes text.new ≡ string_bytes text.old
        ++ code_of (world_here walker.now) slot from.now) }
{
    match from {
        Some(from) => push_code_from(text, walker, slot, from),
        None => push_code_next(text, symbols_in(walker, slot), image_here(walker, slot)),
    }
}

/// Appends the code of a slot's process, or why there is none.
fn push_code(
    text: &mut String,
    walker: &Walker,
    asked: Option<u32>,
    from: &Option<AddressWord>,
) -> Result<(), AllocError>
    ensures { OnOk result (string_bytes text.new ≡ string_bytes text.old
        ++ code_by (world_here walker.now) asked from.now (slot_asked walker.now asked)) }
{
    match slot_asked(walker, asked) {
        Ok(slot) => push_code_of(text, walker, slot, from),
        Err(refused) => push_slot_refused(text, asked, refused),
    }
}

/// Appends the top of a process's stack, if there is a process.
fn push_stack_of(
    text: &mut String,
    symbols: &[Symbol],
    image: Option<&Image>,
    count: u32,
) -> Result<(), AllocError>
    ensures { OnOk result (string_bytes text.new ≡ string_bytes text.old
        ++ stack_of count symbols.now (option_map (λ m. m.now) image.entry)) }
{
    match image {
        Some(image) => push_stack(text, symbols, image, count),
        None => push_process(text, None),
    }
}

/// Appends the top of the stack of a slot's process, or why there is none.
fn push_stack_asked(
    text: &mut String,
    walker: &Walker,
    asked: Option<u32>,
    count: u32,
) -> Result<(), AllocError>
    ensures { OnOk result (string_bytes text.new ≡ string_bytes text.old
        ++ stack_by (world_here walker.now) asked count (slot_asked walker.now asked)) }
{
    match slot_asked(walker, asked) {
        Ok(slot) => {
            let symbols = symbols_in(walker, slot);
            push_stack_of(text, symbols, image_here(walker, slot), count)
        }
        Err(refused) => push_slot_refused(text, asked, refused),
    }
}

/// Appends the line of a variable, if the process's memory has it.
fn push_dword(text: &mut String, symbol: &Symbol, value: Option<u32>) -> Result<(), AllocError>
    ensures { OnOk result (string_bytes text.new ≡ string_bytes text.old
        ++ dword_line symbol.now value) }
{
    match value {
        Some(value) => push_variable(text, symbol, value),
        None => push_process(text, None),
    }
}

/// Appends the line of a variable of a process, if there is a process.
fn push_value(text: &mut String, symbol: &Symbol, image: Option<&Image>) -> Result<(), AllocError>
    ensures { OnOk result (string_bytes text.new ≡ string_bytes text.old
        ++ value_text symbol.now (option_map (λ m. m.now) image.entry)) }
{
    match image {
        Some(image) => push_dword(text, symbol, variable_value(image, symbol)),
        None => push_process(text, None),
    }
}

/// The variable of a name.
fn symbol_of_name<'a>(symbols: &'a [Symbol], name: &Option<SymbolName>) -> Option<&'a Symbol>
    ensures { option_copied result ≡ symbol_of_name symbols.now name.now }
{
    match name {
        Some(name) => variable_named(symbols, name.as_slice()),
        None => None,
    }
}

/// Appends the line of a variable of a slot's process, or why there is none.
fn push_variable_of(
    text: &mut String,
    walker: &Walker,
    slot: Slot,
    name: &Option<SymbolName>,
) -> Result<(), AllocError>
    ensures { OnOk result (string_bytes text.new ≡ string_bytes text.old
        ++ variable_text (image_in (world_here walker.now) slot)
        (symbol_of_name (symbols_in (world_here walker.now) slot) name.now)) }
{
    match symbol_of_name(symbols_in(walker, slot), name) {
        Some(symbol) => push_value(text, symbol, image_here(walker, slot)),
        None => push_refused(text, Refused::ByDebugger(DebugError::NoSymbol)),
    }
}

/// Appends the line of a variable of the process of a slot that is named, or why there is none.
fn push_variable_asked(
    text: &mut String,
    walker: &Walker,
    slot: u32,
    name: &Option<SymbolName>,
) -> Result<(), AllocError>
    ensures { OnOk result (string_bytes text.new ≡ string_bytes text.old
        ++ variable_by (world_here walker.now) name.now (slot_asked walker.now (Some slot))) }
{
    match slot_asked(walker, Some(slot)) {
        Ok(slot) => push_variable_of(text, walker, slot, name),
        Err(refused) => push_refused(text, refused),
    }
}

/// Writes what is asked for of a slot's process.
fn push_asked(text: &mut String, walker: &Walker, query: &Query) -> Result<(), AllocError>
    ensures { OnOk result (string_bytes text.new ≡ string_bytes text.old
        ++ query_text walker.now query.now) }
{
    match query {
        Query::Registers(slot) => push_registers(text, walker, *slot),
        Query::Memory(slot, from, count) => push_memory(text, walker, *slot, from, *count),
        Query::Code(slot, from) => push_code(text, walker, *slot, from),
        Query::Stack(slot, count) => push_stack_asked(text, walker, *slot, *count),
        Query::Variable(slot, name) => push_variable_asked(text, walker, *slot, name),
    }
}

/// Appends what is asked for of a slot's process.
pub(crate) fn push_shown(
    alloc: Global,
    out: &mut Vec<u8>,
    walker: &Walker,
    query: &Query,
) -> Result<(), AllocError>
    ensures { OnOk result (out.new.items ≡ out.old.items ++ query_text walker.now query.now) }
{
    let mut text = String::new(alloc);
    push_asked(&mut text, walker, query)?;
    out.extend_from_slice(text.as_bytes())
}
