//! String instructions: one value, or one iteration of a repeat.

ghost use Rattle.std.specs.Prelude.{◌≡◌, ◌^◌, ◌<◌, true, false, Ok, Err, IfOk};
ghost use Rattle.mx_word.specs.Word.{width};
ghost use Rattle.mx_exec.specs.Image.{Performs};
ghost use Rattle.mx_exec.specs.Ending.{Iterates};
ghost use Rattle.mx_exec.specs.Strings.{read_by, written_by, pointer_after, image_after_transfer, image_after_comparison, counted_down, is_counted_out, ends_repeat, transfer, compare};

use crate::Image;
use crate::image::{dword_difference, dword_sum};
use mx_insn::{Comparison, Repeat, Transfer};
use mx_mem::{GENERAL_PROTECTION, OutOfLimit, Vector};
use mx_word::{Register, Size};

/// The number that a pointer names.
#[inline(always)]
fn read_by(image: &Image, pointer: Register, size: Size) -> Result<u32, Vector>
    ensures value { result ≡ read_by pointer size image.now }
    ensures below { IfOk result (λ v. v < 2 ^ width size) }
{
    match image.memory.read(image.register(pointer), size) {
        Ok(value) => Ok(value),
        Err(OutOfLimit) => Err(GENERAL_PROTECTION),
    }
}

#[inline(always)]
fn write_by(image: &mut Image, pointer: Register, size: Size, value: u32) -> Result<(), Vector>
    requires { value < 2 ^ width size }
    ensures performs { Performs image.old (written_by pointer size value image.old) result image.new }
    ensures eip { image.new.eip ≡ image.old.eip }
{
    let at = image.register(pointer);
    match image.memory.write(at, size, value) {
        Ok(()) => Ok(()),
        Err(OutOfLimit) => Err(GENERAL_PROTECTION),
    }
}

/// Moves a pointer by a size, down if the direction flag is set.
#[inline(always)]
fn advance(image: &mut Image, pointer: Register, size: Size)
    ensures { image.new ≡ pointer_after pointer size image.old }
{
    let from = image.register(pointer);
    let to = if image.flags.direction() {
        dword_difference(from, size.bytes())
    } else {
        dword_sum(from, size.bytes())
    };
    image.set_register(pointer, to);
}

/// One MOVS, STOS or LODS.
#[inline(always)]
fn transfer_once(image: &mut Image, operation: Transfer, size: Size) -> Result<(), Vector>
    ensures performs { Performs image.old (image_after_transfer operation size image.old) result
        image.new }
    ensures eip { image.new.eip ≡ image.old.eip }
{
    match operation {
        Transfer::Movs => {
            let value = read_by(image, Register::Esi, size)?;
            write_by(image, Register::Edi, size, value)?;
            advance(image, Register::Esi, size);
            advance(image, Register::Edi, size);
            Ok(())
        }
        Transfer::Stos => {
            let value = image.regs.get(size, Register::Eax);
            write_by(image, Register::Edi, size, value)?;
            advance(image, Register::Edi, size);
            Ok(())
        }
        Transfer::Lods => {
            let value = read_by(image, Register::Esi, size)?;
            image.regs.set(size, Register::Eax, value);
            advance(image, Register::Esi, size);
            Ok(())
        }
    }
}

/// One CMPS or SCAS.
fn compare_once(image: &mut Image, operation: Comparison, size: Size) -> Result<(), Vector>
    ensures { Performs image.old (image_after_comparison operation size image.old) result
        image.new }
{
    match operation {
        Comparison::Cmps => {
            let x = read_by(image, Register::Esi, size)?;
            let y = read_by(image, Register::Edi, size)?;
            image.flags = image.flags.after_sub(size, x, y, false);
            advance(image, Register::Esi, size);
            advance(image, Register::Edi, size);
            Ok(())
        }
        Comparison::Scas => {
            let x = image.regs.get(size, Register::Eax);
            let y = read_by(image, Register::Edi, size)?;
            image.flags = image.flags.after_sub(size, x, y, false);
            advance(image, Register::Edi, size);
            Ok(())
        }
    }
}

/// Takes one from ECX.
#[inline(always)]
fn count_down(image: &mut Image)
    ensures { image.new ≡ counted_down image.old }
{
    let count = dword_difference(image.register(Register::Ecx), 1);
    image.set_register(Register::Ecx, count);
}

/// Whether ECX has run out.
#[inline(always)]
fn is_counted_out(image: &Image) -> bool
    ensures { result ≡ is_counted_out image.now }
{
    image.register(Register::Ecx) == 0
}

/// A transfer alone.
pub fn transfer(image: &mut Image, operation: Transfer, size: Size, next: u32) -> Result<(), Vector>
    ensures { Performs image.old (transfer operation size false next image.old) result image.new }
{
    transfer_once(image, operation, size)?;
    image.eip = next;
    Ok(())
}

/// One iteration of a transfer after REP. Answers whether the instruction is still next: as long as ECX
/// isn't 0. Else EIP is at the one after it.
#[inline(always)]
pub fn iterate(
    image: &mut Image,
    operation: Transfer,
    size: Size,
    next: u32,
) -> Result<bool, Vector>
    ensures { Iterates image.old (transfer operation size true next image.old) result image.new }
{
    if is_counted_out(image) {
        image.eip = next;
        return Ok(false);
    }
    // Each iteration is a step of its own, so a budget may end between two: ECX, ESI and EDI say how far the repeat
    // is, and EIP stays at it.
    transfer_once(image, operation, size)?;
    count_down(image);
    if is_counted_out(image) {
        image.eip = next;
        return Ok(false);
    }
    Ok(true)
}

/// A transfer after REP: one iteration.
pub fn repeat_transfer(
    image: &mut Image,
    operation: Transfer,
    size: Size,
    next: u32,
) -> Result<(), Vector>
    ensures { Performs image.old (transfer operation size true next image.old) result image.new }
{
    match iterate(image, operation, size, next) {
        Ok(_) => Ok(()),
        Err(vector) => Err(vector),
    }
}

/// Whether a comparison ends its repeat.
fn ends_repeat(image: &Image, repeat: Repeat) -> bool
    ensures { result ≡ ends_repeat repeat image.now }
{
    match repeat {
        Repeat::Repe => !image.flags.zero(),
        Repeat::Repne => image.flags.zero(),
    }
}

/// CMPS or SCAS alone, or one iteration of it after REPE or REPNE.
pub fn compare(
    image: &mut Image,
    operation: Comparison,
    size: Size,
    repeat: Option<Repeat>,
    next: u32,
) -> Result<(), Vector>
    ensures { Performs image.old (compare operation size repeat next image.old) result image.new }
{
    let Some(repeat) = repeat else {
        compare_once(image, operation, size)?;
        image.eip = next;
        return Ok(());
    };
    if is_counted_out(image) {
        image.eip = next;
        return Ok(());
    }
    compare_once(image, operation, size)?;
    count_down(image);
    if is_counted_out(image) || ends_repeat(image, repeat) {
        image.eip = next;
    }
    Ok(())
}
