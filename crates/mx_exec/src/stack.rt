//! The stack.

#![tactic(auto, unfolding(crate::specs::Ending::Leads))]

ghost use Rattle.std.specs.Prelude.{◌≡◌, ◌<◌, ℕ, length, Ok, Err, true};
ghost use Rattle.mx_word.specs.Word.{value_at};
ghost use Rattle.mx_mem.specs.Segment.{inside, with_value};
ghost use Rattle.mx_exec.specs.Image.{Performs, dword_difference, dword_sum};
ghost use Rattle.mx_exec.specs.Ending.{Leads};
ghost use Rattle.mx_exec.specs.Step.{after, image_after_push_of};
ghost use Rattle.mx_exec.specs.Stack.{top_of, image_after_drop, has_room, has_dwords, with_pushed, pushad_words, pushad, popad, popad_words};

use crate::image::{dword_difference, dword_sum};
use crate::{Image, InsnEnd, Source};
use mx_insn::Insn;
use mx_mem::{OutOfLimit, STACK_FAULT, Segment, Vector};
use mx_regs::Regs;
use mx_word::{Register, Size};

/// PUSH of a value.
#[inline(always)]
pub fn push(image: &mut Image, value: u32) -> InsnEnd
    ensures { (next : ℕ) → Leads next image.old (after (Insn.PushImmediate value) next image.old)
        result image.new }
{
    let top = dword_difference(image.register(Register::Esp), 4);
    // ESP moves only after the write: a fault leaves it where it was.
    match image.memory.write(top, Size::Dword, value) {
        Ok(()) => {
            image.set_register(Register::Esp, top);
            InsnEnd::Wrote { at: top }
        }
        Err(OutOfLimit) => InsnEnd::Fault(STACK_FAULT),
    }
}

/// PUSH of what an instruction reads.
#[inline(always)]
pub fn push_from<S: Source>(image: &mut Image, from: &S) -> InsnEnd
    requires { S.Fits from.now Size.Dword }
    ensures { (next : ℕ) → Leads next image.old
        (image_after_push_of (S.read from.now image.old Size.Dword) next image.old) result
        image.new }
{
    match from.value(image, Size::Dword) {
        Ok(value) => push(image, value),
        Err(vector) => InsnEnd::Fault(vector),
    }
}

/// The dword on top of the image's stack.
#[inline(always)]
pub fn top(image: &Image) -> Result<u32, Vector>
    ensures { result ≡ top_of image.now }
{
    match image
        .memory
        .read(image.register(Register::Esp), Size::Dword)
    {
        Ok(value) => Ok(value),
        Err(OutOfLimit) => Err(STACK_FAULT),
    }
}

/// POP.
#[inline(always)]
pub fn pop(image: &mut Image, to: Register) -> InsnEnd
    ensures { (next : ℕ) → Leads next image.old (after (Insn.Pop to) next image.old)
        result image.new }
{
    match top(image) {
        Ok(value) => {
            // ESP moves first, so that POP ESP leaves what was popped.
            drop_bytes(image, 4);
            image.set_register(to, value);
            InsnEnd::Next
        }
        Err(vector) => InsnEnd::Fault(vector),
    }
}

/// Takes bytes off the image's stack.
#[inline(always)]
pub fn drop_bytes(image: &mut Image, count: u32)
    ensures { image.new ≡ image_after_drop count image.old }
{
    let top = dword_sum(image.register(Register::Esp), count);
    image.set_register(Register::Esp, top);
}

/// Whether eight dwords fit below a place.
fn has_room(memory: &Segment, top: u32) -> bool
    ensures { result ≡ has_room memory.now top 8 }
{
    let a = dword_difference(top, 4);
    let b = dword_difference(a, 4);
    let c = dword_difference(b, 4);
    let d = dword_difference(c, 4);
    let e = dword_difference(d, 4);
    let f = dword_difference(e, 4);
    let g = dword_difference(f, 4);
    let h = dword_difference(g, 4);
    memory.holds(a, Size::Dword)
        && memory.holds(b, Size::Dword)
        && memory.holds(c, Size::Dword)
        && memory.holds(d, Size::Dword)
        && memory.holds(e, Size::Dword)
        && memory.holds(f, Size::Dword)
        && memory.holds(g, Size::Dword)
        && memory.holds(h, Size::Dword)
}

/// Writes a dword that lies inside.
fn store(memory: &mut Segment, at: u32, value: u32)
    requires { inside memory.old at 4 ≡ true }
    ensures value { memory.new ≡ with_value memory.old at 4 value }
    ensures length { length memory.new ≡ length memory.old }
{
    match memory.write(at, Size::Dword, value) {
        Ok(()) => {}
        Err(OutOfLimit) => unreachable!(),
    }
}

/// Writes the eight registers below a place.
fn store_all(memory: &mut Segment, regs: &Regs, top: u32)
    requires { has_room memory.old top 8 ≡ true }
    ensures { memory.new ≡ with_pushed memory.old top (pushad_words regs.now) }
{
    let a = dword_difference(top, 4);
    let b = dword_difference(a, 4);
    let c = dword_difference(b, 4);
    let d = dword_difference(c, 4);
    let e = dword_difference(d, 4);
    let f = dword_difference(e, 4);
    let g = dword_difference(f, 4);
    let h = dword_difference(g, 4);
    store(memory, a, regs.get(Size::Dword, Register::Eax));
    store(memory, b, regs.get(Size::Dword, Register::Ecx));
    store(memory, c, regs.get(Size::Dword, Register::Edx));
    store(memory, d, regs.get(Size::Dword, Register::Ebx));
    store(memory, e, regs.get(Size::Dword, Register::Esp));
    store(memory, f, regs.get(Size::Dword, Register::Ebp));
    store(memory, g, regs.get(Size::Dword, Register::Esi));
    store(memory, h, regs.get(Size::Dword, Register::Edi));
}

/// PUSHAD: all eight registers or nothing.
pub fn push_all(image: &mut Image) -> Result<(), Vector>
    ensures { Performs image.old (pushad image.old) result image.new }
{
    let top = image.register(Register::Esp);
    // All eight places are asked about before the first is written, so PUSHAD never stops half way.
    if !has_room(&image.memory, top) {
        return Err(STACK_FAULT);
    }
    store_all(&mut image.memory, &image.regs, top);
    image.set_register(Register::Esp, dword_difference(top, 32));
    Ok(())
}

/// Whether eight dwords lie inside from a place up.
fn has_dwords(memory: &Segment, top: u32) -> bool
    ensures { result ≡ has_dwords memory.now top 8 }
{
    let b = dword_sum(top, 4);
    let c = dword_sum(b, 4);
    let d = dword_sum(c, 4);
    let e = dword_sum(d, 4);
    let f = dword_sum(e, 4);
    let g = dword_sum(f, 4);
    let h = dword_sum(g, 4);
    memory.holds(top, Size::Dword)
        && memory.holds(b, Size::Dword)
        && memory.holds(c, Size::Dword)
        && memory.holds(d, Size::Dword)
        && memory.holds(e, Size::Dword)
        && memory.holds(f, Size::Dword)
        && memory.holds(g, Size::Dword)
        && memory.holds(h, Size::Dword)
}

/// Reads a dword that lies inside.
fn load(memory: &Segment, at: u32) -> u32
    requires { inside memory.now at 4 ≡ true }
    ensures { result ≡ value_at memory.now at 4 }
{
    match memory.read(at, Size::Dword) {
        Ok(value) => value,
        Err(OutOfLimit) => unreachable!(),
    }
}

/// Takes back seven registers from a place up; the stored ESP is read past.
fn load_all(regs: &mut Regs, memory: &Segment, top: u32)
    requires { has_dwords memory.now top 8 ≡ true }
    ensures { regs.new ≡ popad_words memory.now top }
{
    let b = dword_sum(top, 4);
    let c = dword_sum(b, 4);
    let d = dword_sum(c, 4);
    let e = dword_sum(d, 4);
    let f = dword_sum(e, 4);
    let g = dword_sum(f, 4);
    let h = dword_sum(g, 4);
    regs.set(Size::Dword, Register::Edi, load(memory, top));
    regs.set(Size::Dword, Register::Esi, load(memory, b));
    regs.set(Size::Dword, Register::Ebp, load(memory, c));
    // The ESP that PUSHAD wrote is skipped, as the manual says.
    regs.set(Size::Dword, Register::Esp, dword_sum(top, 32));
    regs.set(Size::Dword, Register::Ebx, load(memory, e));
    regs.set(Size::Dword, Register::Edx, load(memory, f));
    regs.set(Size::Dword, Register::Ecx, load(memory, g));
    regs.set(Size::Dword, Register::Eax, load(memory, h));
}

/// POPAD: all registers but ESP, or nothing.
pub fn pop_all(image: &mut Image) -> Result<(), Vector>
    ensures { Performs image.old (popad image.old) result image.new }
{
    let top = image.register(Register::Esp);
    if !has_dwords(&image.memory, top) {
        return Err(STACK_FAULT);
    }
    load_all(&mut image.regs, &image.memory, top);
    Ok(())
}
