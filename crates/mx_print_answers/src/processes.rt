//! Prints a process: its registers, and bytes of its memory.

ghost use Rattle.std.specs.Prelude.{◌≡◌, ◌++◌, ◌+◌, ◌<◌, ◌≤◌, ◌^◌, OnOk, length, take, drop, string_bytes};
ghost use Rattle.std.specs.List.{flat_map};
ghost use Rattle.std.specs.Option.{option_map};
ghost use Rattle.mx_print_answers.specs.Processes.{not_here, registers_text, byte_field, memory_row, memory_rows, memory_text};

use crate::push_registers;
use crate::refused::Refused;
use mx_debug::DebugError;
use mx_exec::Image;
use mx_insn_words::push_eight_digits;
use mx_mem::Segment;
use std::alloc::AllocError;
use std::fmt::Write;

/// Appends that nothing is there.
fn push_not_here(out: &mut String) -> Result<(), AllocError>
    ensures { OnOk result (string_bytes out.new ≡ string_bytes out.old ++ not_here) }
{
    let refused = Refused::ByDebugger(DebugError::NotHere);
    writeln!(out, "{refused}")
}

/// Appends the registers of a process, if there is one.
pub fn push_process(out: &mut String, image: Option<&Image>) -> Result<(), AllocError>
    ensures { OnOk result (string_bytes out.new ≡ string_bytes out.old
        ++ registers_text (option_map (λ m. m.now) image.entry)) }
{
    match image {
        Some(image) => push_registers(out, image),
        None => push_not_here(out),
    }
}

/// Appends a byte in two digits after a space.
pub fn push_byte(out: &mut String, byte: u8) -> Result<(), AllocError>
    ensures { OnOk result (string_bytes out.new ≡ string_bytes out.old ++ byte_field byte) }
{
    write!(out, " {byte:02x}")
}

/// Appends the byte at an address, if there is one.
fn push_byte_at(out: &mut String, memory: &Segment, at: u32) -> Result<(), AllocError>
    ensures { OnOk result (string_bytes out.new ≡ string_bytes out.old
        ++ flat_map byte_field (take 1 (drop at memory.now))) }
{
    match memory.get(at) {
        Some(byte) => push_byte(out, byte),
        None => Ok(()),
    }
}

/// Appends the line of this many bytes from an address on.
fn push_row(out: &mut String, memory: &Segment, from: u32, count: u32) -> Result<(), AllocError>
    requires { from + count < 2 ^ 32 }
    ensures { OnOk result (string_bytes out.new ≡ string_bytes out.old
        ++ memory_row from (take count (drop from memory.now))) }
{
    push_eight_digits(out, from)?;
    for at in from..from + count {
        push_byte_at(out, memory, at)?;
    }
    out.push_str("\n")
}

/// Appends `count` bytes from an address on, sixteen a line.
fn push_rows(out: &mut String, memory: &Segment, from: u32, count: u32) -> Result<(), AllocError>
    requires short { from + count < 2 ^ 32 }
    requires inside { from + count ≤ length memory.now }
    ensures { OnOk result (string_bytes out.new ≡ string_bytes out.old
        ++ memory_rows from (take count (drop from memory.now))) }
{
    for row in 0..count.div_ceil(16) {
        let above = 16 * row;
        let left = count - above;
        push_row(out, memory, from + above, left.min(16))?;
    }
    Ok(())
}

/// Appends `count` bytes of a process's data from an address on, if all of them are inside: in rows of an
/// address and up to sixteen bytes, as `00000000 01 00`.
pub fn push_memory(
    out: &mut String,
    image: Option<&Image>,
    from: u32,
    count: u32,
) -> Result<(), AllocError>
    ensures { OnOk result (string_bytes out.new ≡ string_bytes out.old
        ++ memory_text (option_map (λ m. m.now) image.entry) from count) }
{
    let Some(image) = image else {
        return push_not_here(out);
    };
    match from.checked_add(count) {
        Some(end) if end as usize <= image.memory.limit() => {
            push_rows(out, &image.memory, from, count)
        }
        _ => push_not_here(out),
    }
}
