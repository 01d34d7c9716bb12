//! Whether an instruction begins at an address, and what is said of a breakpoint where none does.

ghost use Rattle.std.specs.Prelude.{◌≡◌, ◌++◌, OnOk, Some, option_map, string_bytes};
ghost use Rattle.mx_look.specs.Code.{code_part};
ghost use Rattle.mx_print_answers.specs.Slots.{address_asked, image_in};
ghost use Rattle.mx_walk.specs.Walks.{world_here};
ghost use Rattle.mx_app_look.specs.Slots.{slot_asked};
ghost use Rattle.mx_app_look.specs.Starts.{begins_at, begins_part, is_instruction, note_at, note_in, start_note};

use crate::asked_slot::{address_here, slot_asked};
use crate::showing::image_here;
use mx_boot::AddressWord;
use mx_exec::Image;
use mx_insn_words::push_eight_digits;
use mx_look::{Part, code_part};
use mx_print_answers::Refused;
use mx_walk::Walker;
use std::alloc::AllocError;

/// Whether a part of the code begins at an address, if it is parted from its first byte on.
fn begins_part(image: &Image, address: u32) -> bool
    ensures { result ≡ begins_part address image.now address 0 }
{
    let mut at = 0;
    for _ in 0..address {
        if at == address {
            return true;
        }
        let Some(part) = code_part(image, at) else {
            return false;
        };
        at = at.wrapping_add(u32::from(part.size()));
    }
    at == address
}

/// Whether the bytes at an address are an instruction.
fn is_instruction(image: &Image, address: u32) -> bool
    ensures { result ≡ is_instruction (code_part image.now address) }
{
    match code_part(image, address) {
        Some(Part::Instruction(_, _)) => true,
        Some(Part::Byte(_)) | None => false,
    }
}

/// Whether an instruction begins at an address.
fn begins_at(image: &Image, address: u32) -> bool
    ensures { result ≡ begins_at image.now address }
{
    begins_part(image, address) && is_instruction(image, address)
}

/// Appends that no instruction of a process begins at an address, unless one does.
fn push_start_note(out: &mut String, image: Option<&Image>, address: u32) -> Result<(), AllocError>
    ensures { OnOk result (string_bytes out.new ≡ string_bytes out.old
        ++ start_note (option_map (λ m. m.now) image.entry) address) }
{
    let Some(image) = image else {
        return Ok(());
    };
    if begins_at(image, address) {
        return Ok(());
    }
    out.push_str("mx dis has no instruction at ")?;
    push_eight_digits(out, address)?;
    out.push_str(": a number is decimal, or hexadecimal after 0x\n")
}

/// Appends that at an address of a process no instruction begins, if there is the address.
fn push_note_at(
    out: &mut String,
    image: Option<&Image>,
    address: Result<u32, Refused>,
) -> Result<(), AllocError>
    ensures { OnOk result (string_bytes out.new ≡ string_bytes out.old
        ++ note_at (option_map (λ m. m.now) image.entry) address) }
{
    match address {
        Ok(address) => push_start_note(out, image, address),
        Err(_) => Ok(()),
    }
}

/// Appends that no instruction of a slot's process begins at the address that is named, unless one does.
pub(crate) fn push_break_note(
    out: &mut String,
    walker: &Walker,
    slot: u32,
    address: &AddressWord,
) -> Result<(), AllocError>
    ensures { OnOk result (string_bytes out.new ≡ string_bytes out.old
        ++ note_in (world_here walker.now) address.now (slot_asked walker.now (Some slot))) }
{
    match slot_asked(walker, Some(slot)) {
        Ok(slot) => {
            let at = address_here(walker, slot, address);
            push_note_at(out, image_here(walker, slot), at)
        }
        Err(_) => Ok(()),
    }
}
