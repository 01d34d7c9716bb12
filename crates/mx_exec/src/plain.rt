//! Instructions without operands.

ghost use Rattle.std.specs.Prelude.{Ok, Err};
ghost use Rattle.mx_exec.specs.Image.{Performs, image_at_next};
ghost use Rattle.mx_exec.specs.Step.{plain_after, frame_released};

use crate::image::dword_sum;
use crate::{Image, settle, stack};
use mx_flags::Flags;
use mx_insn::Plain;
use mx_mem::{GENERAL_PROTECTION, STACK_FAULT, Vector};
use mx_word::{Register, Size};

/// On to the next instruction.
fn pass(image: &mut Image, next: u32) -> Result<(), Vector>
    ensures { Performs image.old (image_at_next next image.old) result image.new }
{
    image.eip = next;
    Ok(())
}

fn push_flags(image: &mut Image, next: u32) -> Result<(), Vector>
    ensures { Performs image.old (plain_after Plain.Pushfd next image.old) result image.new }
{
    let bits = image.flags.to_bits();
    let end = stack::push(image, bits);
    settle(image, end, next)
}

fn pop_flags(image: &mut Image, next: u32) -> Result<(), Vector>
    ensures { Performs image.old (plain_after Plain.Popfd next image.old) result image.new }
{
    let bits = stack::top(image)?;
    stack::drop_bytes(image, 4);
    image.flags = Flags::from_bits(bits);
    image.eip = next;
    Ok(())
}

/// LEAVE: ESP is EBP, then POP EBP.
fn leave(image: &mut Image) -> Result<(), Vector>
    ensures { Performs image.old (frame_released image.old) result image.new }
{
    let top = image.register(Register::Ebp);
    let Ok(value) = image.memory.read(top, Size::Dword) else {
        return Err(STACK_FAULT);
    };
    image.set_register(Register::Esp, dword_sum(top, 4));
    image.set_register(Register::Ebp, value);
    Ok(())
}

fn set_carry(image: &mut Image, carry: bool, next: u32) -> Result<(), Vector>
    ensures { Performs image.old
        (image_at_next next (record image.old { flags = record image.old.flags { carry = carry } }))
        result image.new }
{
    image.flags = image.flags.with_carry(carry);
    pass(image, next)
}

fn set_direction(image: &mut Image, direction: bool, next: u32) -> Result<(), Vector>
    ensures { Performs image.old
        (image_at_next next (record image.old
        { flags = record image.old.flags { direction = direction } })) result image.new }
{
    image.flags = image.flags.with_direction(direction);
    pass(image, next)
}

fn store_low_flags(image: &mut Image, next: u32) -> Result<(), Vector>
    ensures { Performs image.old (plain_after Plain.Sahf next image.old) result image.new }
{
    let byte = image.regs.get(Size::Byte, Register::Esp);
    image.flags = image.flags.with_low_byte(byte as u8);
    pass(image, next)
}

fn load_low_flags(image: &mut Image, next: u32) -> Result<(), Vector>
    ensures { Performs image.old (plain_after Plain.Lahf next image.old) result image.new }
{
    let byte = u32::from(image.flags.low_byte());
    image.regs.set(Size::Byte, Register::Esp, byte);
    pass(image, next)
}

pub fn perform_plain(image: &mut Image, operation: Plain, next: u32) -> Result<(), Vector>
    ensures { Performs image.old (plain_after operation next image.old) result image.new }
{
    match operation {
        Plain::Pushad => {
            stack::push_all(image)?;
            pass(image, next)
        }
        Plain::Popad => {
            stack::pop_all(image)?;
            pass(image, next)
        }
        Plain::Pushfd => push_flags(image, next),
        Plain::Popfd => pop_flags(image, next),
        Plain::Sahf => store_low_flags(image, next),
        Plain::Lahf => load_low_flags(image, next),
        Plain::Nop => pass(image, next),
        Plain::Leave => {
            leave(image)?;
            pass(image, next)
        }
        Plain::Int3 => Err(3),
        Plain::Into => {
            if image.flags.overflow() {
                return Err(4);
            }
            pass(image, next)
        }
        Plain::Hlt | Plain::Cli | Plain::Sti => Err(GENERAL_PROTECTION),
        Plain::Cmc => {
            let carry = !image.flags.carry();
            set_carry(image, carry, next)
        }
        Plain::Clc => set_carry(image, false, next),
        Plain::Stc => set_carry(image, true, next),
        Plain::Cld => set_direction(image, false, next),
        Plain::Std => set_direction(image, true, next),
    }
}
