//! Lines of code.

ghost use Rattle.std.specs.Prelude.{◌≡◌, ◌++◌, OnOk, codes, string_bytes, option_copied};
ghost use Rattle.mx_look.specs.Code.{code_line, code_part, code_text, part_text_if, place_text};

use crate::nearest::nearest_symbol;
use mx_aout::Symbol;
use mx_decode::decode;
use mx_dis::{Part, push_symbol_name};
use mx_exec::Image;
use mx_insn_words::{push_eight_digits, push_number, push_statement};
use std::alloc::AllocError;
use std::fmt::Write;

/// Appends where an address lies by a symbol: `top ` or `top+1f `.
#[tactic(auto, unfolding(crate::specs::Code::place_text))]
pub fn push_place(out: &mut String, symbol: &Symbol, at: u32) -> Result<(), AllocError>
    ensures { OnOk result (string_bytes out.new ≡ string_bytes out.old
        ++ place_text at symbol.now) }
{
    push_symbol_name(out, &symbol.name)?;
    if symbol.value < at {
        let far = at - symbol.value;
        write!(out, "+{far:x}")?;
    }
    out.push_str(" ")
}

/// Appends the instruction or the byte at an address, as a listing has it; `no code` if the code ends there.
fn push_part(out: &mut String, part: Option<Part>, at: u32) -> Result<(), AllocError>
    ensures { OnOk result (string_bytes out.new ≡ string_bytes out.old
        ++ part_text_if at part) }
{
    match part {
        Some(Part::Instruction(insn, size)) => {
            push_statement(out, &insn, at.wrapping_add(u32::from(size)))
        }
        Some(Part::Byte(byte)) => {
            out.push_str(".data1 ")?;
            push_number(out, u32::from(byte))
        }
        None => out.push_str("no code"),
    }
}

/// What a listing has of the bytes that are now at an address of a process: an instruction, or a byte with
/// which none begins; nothing if the code ends there.
#[tactic(auto, unfolding(crate::specs::Code::code_part))]
pub fn code_part(image: &Image, at: u32) -> Option<Part>
    ensures { result ≡ code_part image.now at }
{
    let front = image.code_segment().copy_of_front(at);
    let front = front.as_slice();
    let byte = front.first()?;
    match decode(front) {
        Ok((insn, size)) => Some(Part::Instruction(insn, size)),
        Err(_) => Some(Part::Byte(*byte)),
    }
}

/// Appends the code at an address: the address, the symbol that it lies at or after, and what a listing has
/// there.
#[tactic(auto, unfolding(crate::specs::Code::code_text))]
pub fn push_code(
    out: &mut String,
    symbol: Option<&Symbol>,
    part: Option<Part>,
    at: u32,
) -> Result<(), AllocError>
    ensures { OnOk result (string_bytes out.new ≡ string_bytes out.old
        ++ code_text (option_copied symbol.entry) part at) }
{
    push_eight_digits(out, at)?;
    out.push_str(" ")?;
    if let Some(symbol) = symbol {
        push_place(out, symbol, at)?;
    }
    push_part(out, part, at)
}

/// Appends the line of the code at an address of a process: the address, the nearest of its program's
/// symbols, and what a listing has of the bytes that are there now.
#[tactic(auto, unfolding(crate::specs::Code::code_line))]
pub fn push_code_line(
    out: &mut String,
    symbols: &[Symbol],
    image: &Image,
    at: u32,
) -> Result<(), AllocError>
    ensures { OnOk result (string_bytes out.new ≡ string_bytes out.old
        ++ code_line symbols.now image.now at) }
{
    push_code(out, nearest_symbol(symbols, at), code_part(image, at), at)?;
    out.push_str("\n")
}
