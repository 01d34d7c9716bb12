//! What is asked for of a slot's process.

ghost use Rattle.std.specs.Prelude.{◌≡◌};
ghost use Rattle.mx_text.specs.Fields.{fields};
ghost use Rattle.mx_app_look.specs.Queries.{code_of_fields, code_of_slot, memory_of_fields, registers_of_fields, stack_of_fields, stack_of_slot, variable_of_fields};

use crate::slot_word::{only_slot, slot_of_word};
use mx_boot::{AddressWord, SymbolName, address_named, count, only_count, symbol_name};
use mx_machine::Service;
use mx_text::{next_field, one_field, two_fields};

/// How many dwords of a stack are shown if no number is typed.
const DWORDS: u32 = 8;

/// What is asked for of a slot's process. Without a slot it is the process on the processor whose record is
/// next.
#[derive(Drop)]
pub enum Query {
    /// Its registers.
    Registers(Option<u32>),
    /// Of a slot's process, from an address on, a number of bytes.
    Memory(u32, AddressWord, u32),
    /// Its code, from an address or from the next instruction on.
    Code(Option<u32>, Option<AddressWord>),
    /// A number of dwords of its stack.
    Stack(Option<u32>, u32),
    /// A variable of a slot's process. There is no name if it is too long for a symbol.
    Variable(u32, Option<SymbolName>),
}

/// The slot whose registers are asked for.
pub(crate) fn registers(services: &[Service], line: &[u8]) -> Option<Query>
    ensures { result ≡ registers_of_fields services.now (fields line.now) }
{
    match next_field(line) {
        None => Some(Query::Registers(None)),
        Some(_) => Some(Query::Registers(Some(only_slot(services, line)?))),
    }
}

/// The slot, the address and the count of bytes that are asked for.
pub(crate) fn memory(services: &[Service], line: &[u8]) -> Option<Query>
    ensures { result ≡ memory_of_fields services.now (fields line.now) }
{
    let (first, rest) = next_field(line)?;
    let slot = slot_of_word(services, first)?;
    let (second, third) = two_fields(rest)?;
    let from = address_named(second)?;
    let bytes = count(third)?;
    Some(Query::Memory(slot, from, bytes))
}

/// The address from which on a slot's code is asked for, if one is typed.
fn code_of_slot(slot: u32, line: &[u8]) -> Option<Query>
    ensures { result ≡ code_of_slot slot (fields line.now) }
{
    match next_field(line) {
        None => Some(Query::Code(Some(slot), None)),
        Some(_) => {
            let from = address_named(one_field(line)?)?;
            Some(Query::Code(Some(slot), Some(from)))
        }
    }
}

/// The slot and the address from which on code is asked for, as far as they are typed.
pub(crate) fn code(services: &[Service], line: &[u8]) -> Option<Query>
    ensures { result ≡ code_of_fields services.now (fields line.now) }
{
    match next_field(line) {
        None => Some(Query::Code(None, None)),
        Some((first, rest)) => code_of_slot(slot_of_word(services, first)?, rest),
    }
}

/// How many dwords of a slot's stack are asked for.
fn stack_of_slot(slot: u32, line: &[u8]) -> Option<Query>
    ensures { result ≡ stack_of_slot slot (fields line.now) }
{
    match next_field(line) {
        None => Some(Query::Stack(Some(slot), DWORDS)),
        Some(_) => Some(Query::Stack(Some(slot), only_count(line)?)),
    }
}

/// The slot and how many dwords of its stack are asked for, as far as they are typed.
pub(crate) fn stack(services: &[Service], line: &[u8]) -> Option<Query>
    ensures { result ≡ stack_of_fields services.now (fields line.now) }
{
    match next_field(line) {
        None => Some(Query::Stack(None, DWORDS)),
        Some((first, rest)) => stack_of_slot(slot_of_word(services, first)?, rest),
    }
}

/// The slot and the name of the variable that are asked for.
pub(crate) fn variable(services: &[Service], line: &[u8]) -> Option<Query>
    ensures { result ≡ variable_of_fields services.now (fields line.now) }
{
    let (first, second) = two_fields(line)?;
    let slot = slot_of_word(services, first)?;
    Some(Query::Variable(slot, symbol_name(second)))
}
