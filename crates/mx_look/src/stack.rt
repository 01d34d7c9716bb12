//! The top of a process's stack.

ghost use Rattle.std.specs.Prelude.{◌≡◌, ◌++◌, OnOk, string_bytes};
ghost use Rattle.mx_look.specs.Stack.{call_ends, dword_text, follows_call, is_call, is_call_of, stack_row, stack_rows, stack_text};

use crate::code::{code_part, push_code_line};
use mx_aout::Symbol;
use mx_dis::Part;
use mx_exec::Image;
use mx_insn::Insn;
use mx_insn_words::push_eight_digits;
use mx_word::{Register, Size};
use std::alloc::AllocError;

/// An instruction has at most fifteen bytes.
const SIZES: u32 = 16;

fn is_call(insn: &Insn) -> bool
    ensures { result ≡ is_call insn.now }
{
    match insn {
        Insn::Call(_) | Insn::CallTo(_) => true,
        _ => false,
    }
}

/// Whether what the code has at a place is a call of this size.
fn is_call_of(part: Option<Part>, size: u32) -> bool
    ensures { result ≡ is_call_of size part }
{
    match part {
        Some(Part::Instruction(insn, length)) => is_call(&insn) && u32::from(length) == size,
        _ => false,
    }
}

/// Whether a call of this size ends at an address of a process.
fn call_ends(image: &Image, at: u32, size: u32) -> bool
    ensures { result ≡ call_ends image.now at size }
{
    size <= at && is_call_of(code_part(image, at - size), size)
}

/// Whether a call ends at an address of a process, so that it may be a return address.
fn follows_call(image: &Image, at: u32) -> bool
    ensures { result ≡ follows_call image.now at }
{
    for size in 0..SIZES {
        if call_ends(image, at, size) {
            return true;
        }
    }
    false
}

/// Appends a dword; if it is an address that follows a call, the line of the code there.
fn push_dword(
    out: &mut String,
    symbols: &[Symbol],
    image: &Image,
    value: u32,
) -> Result<(), AllocError>
    ensures { OnOk result (string_bytes out.new ≡ string_bytes out.old
        ++ dword_text symbols.now image.now value) }
{
    if follows_call(image, value) {
        return push_code_line(out, symbols, image, value);
    }
    push_eight_digits(out, value)?;
    out.push_str("\n")
}

/// Appends the row of a dword of the stack.
#[tactic(auto, unfolding(crate::specs::Stack::stack_row))]
fn push_row(
    out: &mut String,
    symbols: &[Symbol],
    image: &Image,
    at: u32,
    value: u32,
) -> Result<(), AllocError>
    ensures { OnOk result (string_bytes out.new ≡ string_bytes out.old
        ++ stack_row symbols.now image.now at value) }
{
    push_eight_digits(out, at)?;
    out.push_str(" ")?;
    push_dword(out, symbols, image, value)
}

/// Appends the rows of at most `count` dwords from an address on, up to the end of memory.
fn push_rows(
    out: &mut String,
    symbols: &[Symbol],
    image: &Image,
    from: u32,
    count: u32,
) -> Result<(), AllocError>
    ensures { OnOk result (string_bytes out.new ≡ string_bytes out.old
        ++ stack_rows count symbols.now image.now from) }
{
    let mut at = from;
    for _ in 0..count {
        let Ok(value) = image.memory.read(at, Size::Dword) else {
            return Ok(());
        };
        push_row(out, symbols, image, at, value)?;
        at = at.wrapping_add(4);
    }
    Ok(())
}

/// Appends the rows of at most `count` dwords of a process's stack, from ESP on: `00000ff8 00000005`. If a
/// dword is an address that follows a call, the row has the line of the code there.
pub fn push_stack(
    out: &mut String,
    symbols: &[Symbol],
    image: &Image,
    count: u32,
) -> Result<(), AllocError>
    ensures { OnOk result (string_bytes out.new ≡ string_bytes out.old
        ++ stack_text count symbols.now image.now) }
{
    push_rows(out, symbols, image, image.register(Register::Esp), count)
}
