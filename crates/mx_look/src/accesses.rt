//! The accesses of an instruction to memory, of which the first that isn't inside is found.

ghost use Rattle.std.specs.Prelude.{◌≡◌};
ghost use Rattle.std.specs.Option.{option_or};
ghost use Rattle.mx_exec.specs.Image.{dword_difference, dword_sum, register_of};
ghost use Rattle.mx_look.specs.Accesses.{first_outside, operand_outside, outside, popped_outside, pushed_outside, stack_outside, string_outside};

use crate::operands::one_operand;
use mx_exec::Image;
use mx_insn::{Comparison, Insn, Operand, Plain, Transfer};
use mx_mem::address;
use mx_word::{Register, Size};

/// An access to memory: an address, and how many bytes from there on.
#[derive(Clone, Copy, PartialEq, Eq)]
pub struct Access {
    pub at: u32,
    pub size: Size,
}

/// An access, if it isn't inside.
fn outside(image: &Image, at: u32, size: Size) -> Option<Access>
    ensures { result ≡ outside at size image.now }
{
    if image.memory.holds(at, size) {
        None
    } else {
        Some(Access { at, size })
    }
}

/// An access at the address in a register, if it isn't inside.
fn pointed_outside(image: &Image, pointer: Register, size: Size) -> Option<Access>
    ensures { result ≡ outside (register_of image.now pointer) size image.now }
{
    outside(image, image.register(pointer), size)
}

/// The access to the operand, if it isn't inside.
#[tactic(auto, unfolding(crate::specs::Accesses::operand_outside))]
fn operand_outside(image: &Image, insn: &Insn) -> Option<Access>
    ensures { result ≡ operand_outside insn.now image.now }
{
    match one_operand(insn) {
        Some((Operand::Memory(memory), size)) => {
            outside(image, address(&memory, &image.regs), size)
        }
        _ => None,
    }
}

/// The address of the dword below an address.
fn dword_below(at: u32) -> u32
    ensures { result ≡ dword_difference at 4 }
{
    at.wrapping_sub(4)
}

/// The address of the next dword above.
fn dword_above(at: u32) -> u32
    ensures { result ≡ dword_sum at 4 }
{
    at.wrapping_add(4)
}

/// The access to a dword, if it isn't inside; or else what is found further on.
fn dword_outside(image: &Image, at: u32, further: Option<Access>) -> Option<Access>
    ensures { result ≡ option_or (outside at Size.Dword image.now) further }
{
    outside(image, at, Size::Dword).or(further)
}

/// Of the dwords that PUSHAD writes the first that isn't inside.
fn pushad_outside(image: &Image, top: u32) -> Option<Access>
    ensures { result ≡ pushed_outside 8 top image.now }
{
    let a = dword_below(top);
    let b = dword_below(a);
    let c = dword_below(b);
    let d = dword_below(c);
    let e = dword_below(d);
    let f = dword_below(e);
    let g = dword_below(f);
    let h = dword_below(g);
    let after_f = dword_outside(image, g, dword_outside(image, h, None));
    let after_d = dword_outside(image, e, dword_outside(image, f, after_f));
    let after_b = dword_outside(image, c, dword_outside(image, d, after_d));
    dword_outside(image, a, dword_outside(image, b, after_b))
}

/// Of the dwords that POPAD reads the first that isn't inside.
fn popad_outside(image: &Image, a: u32) -> Option<Access>
    ensures { result ≡ popped_outside 8 a image.now }
{
    let b = dword_above(a);
    let c = dword_above(b);
    let d = dword_above(c);
    let e = dword_above(d);
    let f = dword_above(e);
    let g = dword_above(f);
    let h = dword_above(g);
    let after_f = dword_outside(image, g, dword_outside(image, h, None));
    let after_d = dword_outside(image, e, dword_outside(image, f, after_f));
    let after_b = dword_outside(image, c, dword_outside(image, d, after_d));
    dword_outside(image, a, dword_outside(image, b, after_b))
}

/// The first access to the stack that isn't inside.
#[tactic(auto, unfolding(crate::specs::Accesses::stack_outside))]
fn stack_outside(image: &Image, insn: &Insn) -> Option<Access>
    ensures { result ≡ stack_outside insn.now image.now }
{
    let top = image.register(Register::Esp);
    match insn {
        Insn::Push(_)
        | Insn::PushImmediate(_)
        | Insn::Call(_)
        | Insn::CallTo(_)
        | Insn::Plain(Plain::Pushfd) => outside(image, dword_below(top), Size::Dword),
        Insn::Plain(Plain::Pushad) => pushad_outside(image, top),
        Insn::Pop(_) | Insn::Return(_) | Insn::Plain(Plain::Popfd) => {
            outside(image, top, Size::Dword)
        }
        Insn::Plain(Plain::Popad) => popad_outside(image, top),
        Insn::Plain(Plain::Leave) => pointed_outside(image, Register::Ebp, Size::Dword),
        _ => None,
    }
}

/// The first access by ESI or EDI that isn't inside. Of a repeat it is one of the iteration at hand.
#[tactic(auto, unfolding(crate::specs::Accesses::string_outside))]
fn string_outside(image: &Image, insn: &Insn) -> Option<Access>
    ensures { result ≡ string_outside insn.now image.now }
{
    match insn {
        Insn::Transfer {
            operation: Transfer::Movs,
            size,
            ..
        }
        | Insn::Compare {
            operation: Comparison::Cmps,
            size,
            ..
        } => {
            let second = pointed_outside(image, Register::Edi, *size);
            pointed_outside(image, Register::Esi, *size).or(second)
        }
        Insn::Transfer {
            operation: Transfer::Lods,
            size,
            ..
        } => pointed_outside(image, Register::Esi, *size),
        Insn::Transfer {
            operation: Transfer::Stos,
            size,
            ..
        }
        | Insn::Compare {
            operation: Comparison::Scas,
            size,
            ..
        } => pointed_outside(image, Register::Edi, *size),
        _ => None,
    }
}

/// The first access of an instruction that isn't inside the memory.
#[tactic(auto, unfolding(crate::specs::Accesses::first_outside))]
pub(crate) fn first_outside(image: &Image, insn: &Insn) -> Option<Access>
    ensures { result ≡ first_outside insn.now image.now }
{
    let further = stack_outside(image, insn).or(string_outside(image, insn));
    operand_outside(image, insn).or(further)
}
