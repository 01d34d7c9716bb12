//! Lists the instructions of a program's text, one a line.

ghost use Rattle.std.specs.Prelude.{◌≡◌, ◌<◌, ◌≤◌, ◌+◌, ◌^◌, ◌++◌, length, drop, OnOk, IfOk, string_bytes};
ghost use Rattle.mx_dis.specs.Parting.{part_size};
ghost use Rattle.mx_dis.specs.Listing.{part_text, listing_line, IsListing};

use crate::part::{Part, first_part};
use mx_aout::Program;
use mx_insn_words::{push_eight_digits, push_number, push_statement};
use mx_word::NoMemory;
use std::alloc::{AllocError, Global};

/// Appends a part. `next` is the address of the next one.
fn push_part(out: &mut String, part: &Part, next: u32) -> Result<(), AllocError>
    ensures { OnOk result (string_bytes out.new ≡ string_bytes out.old ++ part_text next part.now) }
{
    match part {
        Part::Instruction(insn, _) => push_statement(out, insn, next),
        Part::Byte(byte) => {
            out.push_str(".data1 ")?;
            push_number(out, u32::from(*byte))
        }
    }
}

/// The line of a part at an address.
fn push_line(out: &mut String, at: u32, part: &Part) -> Result<(), AllocError>
    requires { at + part_size part.now < 2 ^ 32 }
    ensures { OnOk result (string_bytes out.new ≡ string_bytes out.old
        ++ listing_line at part.now) }
{
    push_eight_digits(out, at)?;
    out.push_str(" ")?;
    push_part(out, part, at + u32::from(part.size()))?;
    out.push_str("\n")
}

/// The bytes after the part that they begin with.
fn after<'a>(bytes: &'a [u8], part: &Part) -> &'a [u8]
    requires { part_size part.now ≤ length bytes.now }
    ensures { result.now ≡ drop (part_size part.now) bytes.now }
{
    &bytes[part.size() as usize..]
}

/// The listing of a program's text from 0, one line an instruction: the address, a space, the statement as
/// the assembler would read it. If no instruction begins at a byte, the byte has a line of its own, and the
/// listing goes on at the next.
pub fn list(alloc: Global, program: &Program) -> Result<String, NoMemory>
    ensures { IfOk result (λ text. IsListing 0 program.now.text (string_bytes text)) }
{
    let mut out = String::new(alloc);
    let mut rest = program.text.as_slice();
    let mut at = 0;
    while !rest.is_empty() {
        let part = first_part(rest);
        push_line(&mut out, at, &part)?;
        at += u32::from(part.size());
        rest = after(rest, &part);
    }
    Ok(out)
}
