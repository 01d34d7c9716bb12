//! The second pass of the assembler, its bytes: the statements with the addresses of all labels put in.

ghost use Rattle.std.specs.Prelude.{◌≡◌, ◌++◌, true, false, map, None, replicate, Some, OnOk, IfOk};
ghost use Rattle.std.specs.List.{list_any};
ghost use Rattle.mx_word.specs.Word.{bytes_of, bytes_in};
ghost use Rattle.mx_encode.specs.Forms.{has_form};
ghost use Rattle.mx_asm.specs.Layout.{no_lines_above, statement_said, section_offset_of, address_of_offset};
ghost use Rattle.mx_asm.specs.Faults.{is_undefined, is_undefined_if, problem_at};
ghost use Rattle.mx_asm.specs.Kept.{first_problem_kept};
ghost use Rattle.mx_asm.specs.declared.numbered.NumberedLine.{NumberedLine};
ghost use Rattle.mx_asm.specs.View.{above_of};
ghost use Rattle.mx_asm.specs.Bytes.{named_under, BytesOf, Pushes, PutsOut, AreParts};

use crate::numbered::NumberedLine;
use crate::{Layout, SectionSizes, branch_bytes};
use mx_asm_statement::{Branch, Instruction, Line, Section, Statement, Value};
use mx_encode::{encode, with_displacement, with_immediate};
use mx_insn::{ArrayVec, Insn};
use mx_word::Size;
use std::alloc::{AllocError, Global};

/// What the statements put into text and data.
#[derive(Drop)]
pub struct Parts {
    pub text: Vec<u8>,
    pub init: Vec<u8>,
}

/// The low bytes of a number, lowest first.
fn push_number(size: Size, number: u32, out: &mut Vec<u8>) -> Result<(), AllocError>
    ensures { OnOk result (out.new.items ≡ out.old.items ++ bytes_of (bytes_in size) number) }
{
    let bytes = number.to_le_bytes();
    match size {
        Size::Byte => out.extend_from_slice(&bytes[..1]),
        Size::Word => out.extend_from_slice(&bytes[..2]),
        Size::Dword => out.extend_from_slice(&bytes),
    }
}

fn push_values(
    layout: &Layout,
    size: Size,
    values: &[Value],
    out: &mut Vec<u8>,
) -> Result<(), AllocError>
    requires { list_any (is_undefined (above_of layout.now)) values.now ≡ false }
    ensures { OnOk result
        (Pushes (above_of layout.now) 0 (Statement.Data size values.now) out.old.items
        out.new.items) }
{
    for value in values {
        let Some(number) = layout.value(*value) else {
            unreachable!()
        };
        push_number(size, number, out)?;
    }
    Ok(())
}

#[tactic(auto, using(mx_encode::proofs::Formed::immediate_keeps_form, mx_encode::proofs::Formed::displacement_keeps_form))]
fn with_values(layout: &Layout, instruction: &Instruction) -> Insn
    requires immediate { is_undefined_if (above_of layout.now) instruction.now.immediate ≡ false }
    requires displacement { is_undefined_if (above_of layout.now) instruction.now.displacement
        ≡ false }
    ensures named { named_under (above_of layout.now) instruction.now ≡ Some result }
    ensures form { has_form result ≡ true }
{
    let mut insn = instruction.insn;
    if let Some(value) = instruction.immediate {
        let Some(number) = layout.value(value) else {
            unreachable!()
        };
        insn = with_immediate(insn, number);
    }
    if let Some(value) = instruction.displacement {
        let Some(number) = layout.value(value) else {
            unreachable!()
        };
        insn = with_displacement(insn, number);
    }
    insn
}

fn instruction_bytes(layout: &Layout, instruction: &Instruction) -> ArrayVec<u8, 15>
    requires immediate { is_undefined_if (above_of layout.now) instruction.now.immediate ≡ false }
    requires displacement { is_undefined_if (above_of layout.now) instruction.now.displacement
        ≡ false }
    ensures { BytesOf (above_of layout.now) 0 (Statement.Instruction instruction.now) result.items }
{
    match encode(&with_values(layout, instruction), instruction.marks()) {
        Ok(bytes) => bytes,
        Err(_) => unreachable!(),
    }
}

/// Puts this many zeros after other bytes.
fn push_zeros(count: u32, out: &mut Vec<u8>) -> Result<(), AllocError>
    ensures { OnOk result (out.new.items ≡ out.old.items ++ replicate count 0) }
{
    let length = out.len() + count as usize;
    out.resize(length, 0)
}

/// The bytes of a jump at an address.
fn jump_bytes(layout: &Layout, at: u32, branch: Branch, target: Value) -> ArrayVec<u8, 15>
    requires { problem_at (above_of layout.now) at (Statement.Branch branch target) ≡ None }
    ensures { BytesOf (above_of layout.now) at (Statement.Branch branch target) result.items }
{
    let Some(target) = layout.value(target) else {
        unreachable!()
    };
    branch_bytes(branch, at, target)
}

/// The bytes of a line's statement at an address, after others.
fn push_line(layout: &Layout, at: u32, line: &Line, out: &mut Vec<u8>) -> Result<(), AllocError>
    requires { problem_at (above_of layout.now) at (statement_said line.now) ≡ None }
    ensures { OnOk result (Pushes (above_of layout.now) at (statement_said line.now) out.old.items
        out.new.items) }
{
    match &line.statement {
        Some(Statement::Data(size, values)) => push_values(layout, *size, values.as_slice(), out),
        Some(Statement::Ascii(bytes)) => out.extend_from_slice(bytes.as_slice()),
        Some(Statement::Space(count)) => push_zeros(*count, out),
        Some(Statement::Instruction(instruction)) => {
            out.extend_from_slice(instruction_bytes(layout, instruction).as_slice())
        }
        Some(Statement::Branch(branch, target)) => {
            out.extend_from_slice(jump_bytes(layout, at, *branch, *target).as_slice())
        }
        _ => Ok(()),
    }
}

/// Puts a line's bytes after those of its section.
fn put_line(
    layout: &Layout,
    sizes: SectionSizes,
    line: &Line,
    parts: &mut Parts,
) -> Result<(), AllocError>
    requires { problem_at (above_of layout.now) (address_of_offset (above_of layout.now)
        (section_offset_of sizes)) (statement_said line.now) ≡ None }
    ensures { OnOk result
        (PutsOut (above_of layout.now) sizes (statement_said line.now) parts.old.text.items
        parts.old.init.items parts.new.text.items parts.new.init.items) }
{
    let at = layout.address_of(sizes.spot());
    match sizes.section {
        Section::Text => push_line(layout, at, line, &mut parts.text),
        Section::Data => push_line(layout, at, line, &mut parts.init),
        Section::Bss => Ok(()),
    }
}

/// The bytes of all statements, if no line has a problem.
pub fn parts_of(alloc: Global, layout: &Layout, lines: &[NumberedLine]) -> Result<Parts, AllocError>
    requires { first_problem_kept (above_of layout.now) no_lines_above.sizes lines.now ≡ None }
    ensures { IfOk result (λ parts.
        AreParts (above_of layout.now) no_lines_above.sizes (map (λ (k : NumberedLine).
        k.line) lines.now) parts.text.items parts.init.items) }
{
    let mut parts = Parts {
        text: Vec::new(alloc),
        init: Vec::new(alloc),
    };
    let mut sizes = SectionSizes::START;
    for kept in lines {
        put_line(layout, sizes, &kept.line, &mut parts)?;
        sizes = sizes.after(&kept.line);
    }
    Ok(parts)
}
