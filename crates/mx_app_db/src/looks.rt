//! Looks: the lines of a debugger's script that change nothing. How each is written and what it shows is said
//! here and in the definitions of the same name, and nowhere else.

ghost use Rattle.std.specs.Prelude.{◌≡◌, ◌++◌, OnOk, string_bytes};
ghost use Rattle.mx_text.specs.Fields.{fields};
ghost use Rattle.mx_app_step.specs.Machine.{world_of};
ghost use Rattle.mx_machine.specs.World.{held_by};
ghost use Rattle.mx_print_answers.specs.Messages.{delivery_lines};
ghost use Rattle.mx_print_answers.specs.Processes.{registers_text};
ghost use Rattle.mx_app_db.specs.Looks.{address_and_count, image_held, look_of, look_text, memory_asked, memory_held, memory_of_slot, messages_asked, registers_asked, script_lines};

use crate::last_messages::push_last_messages;
use mx_boot::{AddressWord, actor, address_named, count, only_actor, only_count};
use mx_machine::Machine;
use mx_print_answers::{
    address_asked, push_memory_at, push_memory_of, push_messages, push_process, push_registers_of,
    slot_named,
};
use mx_text::{next_field, two_fields};
use std::alloc::AllocError;

/// What a line shows that changes nothing.
#[derive(Drop)]
pub enum Look {
    /// The registers of a processor's process.
    Registers(u8),
    /// The registers of a slot's process, wherever it is.
    RegistersOf(u32),
    /// Of a processor's process, from an address on, a number of bytes.
    Memory(u8, AddressWord, u32),
    /// Of a slot's process, wherever it is, from an address on, a number of bytes.
    MemoryOf(u32, AddressWord, u32),
    /// The recorded deliveries.
    Messages,
    /// The last deliveries, as many as the number, with their words.
    LastMessages(u32),
}

/// The lines of a debugger's script, as a failure says what was wanted: what does something comes first.
pub fn script_lines() -> &'static str
    ensures { result.now ≡ script_lines }
{
    "an event, or break S PLACE, clear S PLACE, go C K, regs C, regs of S, mem C M N, \
     mem of S M N, messages or messages N"
}

/// The registers that a line asks for: of a processor, or after `of` of a slot.
#[tactic(auto, unfolding(crate::specs::Looks::registers_asked))]
fn registers_asked(line: &[u8]) -> Option<Look>
    ensures { result ≡ registers_asked (fields line.now) }
{
    let (first, rest) = next_field(line)?;
    if first == b"of".as_slice() {
        return Some(Look::RegistersOf(only_count(rest)?));
    }
    Some(Look::Registers(only_actor(line)?))
}

/// The address and the count that are a line's two fields.
fn address_and_count(line: &[u8]) -> Option<(AddressWord, u32)>
    ensures { result ≡ address_and_count (fields line.now) }
{
    let (first, second) = two_fields(line)?;
    let from = address_named(first)?;
    let bytes = count(second)?;
    Some((from, bytes))
}

/// The slot, the address and the count that are a line's three fields.
fn memory_of_slot(line: &[u8]) -> Option<Look>
    ensures { result ≡ memory_of_slot (fields line.now) }
{
    let (first, rest) = next_field(line)?;
    let slot = count(first)?;
    let (from, bytes) = address_and_count(rest)?;
    Some(Look::MemoryOf(slot, from, bytes))
}

/// The memory that a line asks for: of a processor, or after `of` of a slot.
#[tactic(auto, unfolding(crate::specs::Looks::memory_asked))]
fn memory_asked(line: &[u8]) -> Option<Look>
    ensures { result ≡ memory_asked (fields line.now) }
{
    let (first, rest) = next_field(line)?;
    if first == b"of".as_slice() {
        return memory_of_slot(rest);
    }
    let cpu = actor(first)?;
    let (from, bytes) = address_and_count(rest)?;
    Some(Look::Memory(cpu, from, bytes))
}

/// The deliveries that a line asks for: all, or the last of them.
#[tactic(auto, unfolding(crate::specs::Looks::messages_asked))]
fn messages_asked(line: &[u8]) -> Option<Look>
    ensures { result ≡ messages_asked (fields line.now) }
{
    match next_field(line) {
        None => Some(Look::Messages),
        Some(_) => Some(Look::LastMessages(only_count(line)?)),
    }
}

/// The look of a line that begins with a word and goes on like this: `regs C`, `regs of S`, `mem C M N`,
/// `mem of S M N`, `messages` or `messages N`. M is an address, which begins with a digit, or the name of a
/// symbol, which may be followed by a plus and how many bytes after it.
#[tactic(auto, unfolding(crate::specs::Looks::look_of))]
pub(crate) fn look_of(word: &[u8], rest: &[u8]) -> Option<Look>
    ensures { result ≡ look_of word.now (fields rest.now) }
{
    if word == b"regs".as_slice() {
        return registers_asked(rest);
    }
    if word == b"mem".as_slice() {
        return memory_asked(rest);
    }
    if word == b"messages".as_slice() {
        return messages_asked(rest);
    }
    None
}

/// Appends the registers of the process on a processor.
fn push_registers_on(text: &mut String, machine: &Machine, cpu: u8) -> Result<(), AllocError>
    ensures { OnOk result (string_bytes text.new ≡ string_bytes text.old
        ++ registers_text (image_held (held_by (world_of machine.now) cpu))) }
{
    push_process(text, machine.image(cpu))
}

/// Appends `count` bytes of the process on a processor, from `from` on.
fn push_memory_on(
    text: &mut String,
    machine: &Machine,
    cpu: u8,
    from: &AddressWord,
    count: u32,
) -> Result<(), AllocError>
    ensures { OnOk result (string_bytes text.new ≡ string_bytes text.old
        ++ memory_held (world_of machine.now) (held_by (world_of machine.now) cpu) from.now
        count) }
{
    match (machine.slot_on(cpu), machine.image(cpu)) {
        (Some(slot), Some(image)) => {
            let from = address_asked(machine, slot, from);
            push_memory_at(text, Some(image), from, count)
        }
        _ => push_process(text, None),
    }
}

/// Appends the lines of the recorded deliveries.
#[tactic(auto, unfolding(mx_machine::specs::Machine::world_of))]
fn push_all_messages(text: &mut String, machine: &Machine) -> Result<(), AllocError>
    ensures { OnOk result (string_bytes text.new ≡ string_bytes text.old
        ++ delivery_lines (world_of machine.now).table.deliveries) }
{
    push_messages(text, machine.kernel())
}

/// Appends what a look shows of a machine.
pub(crate) fn push_look(text: &mut String, machine: &Machine, look: &Look) -> Result<(), AllocError>
    ensures { OnOk result (string_bytes text.new ≡ string_bytes text.old
        ++ look_text (world_of machine.now) look.now) }
{
    match look {
        Look::Registers(cpu) => push_registers_on(text, machine, *cpu),
        Look::RegistersOf(slot) => push_registers_of(text, machine, slot_named(machine, *slot)),
        Look::Memory(cpu, from, count) => push_memory_on(text, machine, *cpu, from, *count),
        Look::MemoryOf(slot, from, count) => {
            push_memory_of(text, machine, slot_named(machine, *slot), from, *count)
        }
        Look::Messages => push_all_messages(text, machine),
        Look::LastMessages(most) => push_last_messages(text, machine, *most),
    }
}
