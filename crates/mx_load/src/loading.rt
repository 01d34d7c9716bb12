//! Loads a program: makes the image that its process begins with, or makes an old image that one again.

ghost use Rattle.std.specs.Prelude.{◌≡◌, ℕ, List, ◌+◌, ◌≤◌, ◌++◌, IfOk, length, replicate, take, drop};
ghost use Rattle.mx_flags.specs.Flags.{values_of};
ghost use Rattle.mx_aout.specs.Limits.{rounded_to_pages};
ghost use Rattle.mx_regs.specs.Regs.{no_words};
ghost use Rattle.mx_load.specs.Load.{IsLoadedFrom, code_of_text, image_of_program};
ghost use Rattle.mx_entries.specs.Validated.{IsCacheOf};
ghost use Rattle.mx_load.specs.Room.{IsRoomForText};

use mx_aout::Program;
use mx_entries::CodeCache;
use mx_exec::{Code, Image, TextSegment, empty_cache};
use mx_flags::Flags;
use mx_mem::Segment;
use mx_regs::Regs;
use mx_word::{NoMemory, Register, Size};
use std::alloc::Global;

/// Copies bytes to an address at which they are inside the segment.
fn fill(segment: &mut Segment, at: u32, bytes: &[u8])
    requires { at + length bytes.now ≤ length segment.old }
    ensures value { segment.new ≡ take at segment.old ++ bytes.now
        ++ drop (at + length bytes.now) segment.old }
    ensures limit { length segment.new ≡ length segment.old }
{
    match segment.fill_from(at, bytes) {
        Ok(()) => {}
        Err(_) => unreachable!(),
    }
}

/// Registers that are 0 but for ESP.
fn first_registers(top: u32) -> Regs
    ensures { result ≡ record no_words { esp = top } }
{
    let mut regs = Regs::new();
    regs.set(Size::Dword, Register::Esp, top);
    regs
}

/// Room for a text in a segment of its own: zeros, and an empty cache.
struct TextRoom {
    segment: Segment,
    cache: Box<CodeCache>,
}

/// The segments of a program's image, all zeros.
struct Room {
    memory: Segment,
    text: Option<TextRoom>,
}

/// Takes all memory that a text of this many bytes needs in a segment of its own.
fn text_room(alloc: Global, size: u32) -> Result<TextRoom, NoMemory>
    ensures zeros { IfOk result (λ room. room.segment ≡ replicate size 0) }
    ensures cached { (code : List ℕ) → IfOk result (λ room. IsCacheOf code room.cache.value) }
{
    let segment = Segment::new(alloc, size)?;
    let cache = empty_cache(alloc, size as usize)?;
    Ok(TextRoom { segment, cache })
}

/// Takes all memory that a program's image needs, and writes no page.
fn room_for(alloc: Global, program: &Program) -> Result<Room, NoMemory>
    ensures memory { IfOk result (λ room. room.memory
        ≡ replicate (rounded_to_pages program.now.total) 0) }
    ensures text { IfOk result (λ room. IsRoomForText program.now.sep program.now.text room.text) }
{
    let memory = Segment::new(alloc, program.data_limit())?;
    let text = if program.sep {
        Some(text_room(alloc, program.text.as_slice().len() as u32)?)
    } else {
        None
    };
    Ok(Room { memory, text })
}

/// Writes the first bytes of the data segment over zeros: the text, if it isn't separate, and the data.
fn write_contents(memory: &mut Segment, program: &Program)
    requires { memory.old ≡ replicate (rounded_to_pages program.now.total) 0 }
    ensures { memory.new ≡ (image_of_program program.now).memory }
{
    program.sizes_are_allowed();
    let init = program.init.as_slice();
    if program.sep {
        fill(memory, 0, init);
    } else {
        let text = program.text.as_slice();
        fill(memory, 0, text);
        fill(memory, text.len() as u32, init);
    }
}

/// The code: a text over the zeros of its own segment, or what the data segment holds.
fn code_of(text: Option<TextRoom>, program: &Program) -> Code
    requires { IsRoomForText program.now.sep program.now.text text }
    ensures { result ≡ code_of_text program.now.sep program.now.text }
{
    let Some(TextRoom { mut segment, cache }) = text else {
        return Code::Shared;
    };
    fill(&mut segment, 0, program.text.as_slice());
    Code::Separate(TextSegment::with_cache(segment, cache))
}

/// The image with which a process of a program begins. Takes all pages for its segments before it
/// writes one.
pub fn load(alloc: Global, program: &Program) -> Result<Image, NoMemory>
    ensures image { IfOk result (λ image. image ≡ image_of_program program.now) }
    ensures from { IfOk result (λ image. IsLoadedFrom image program.now) }
{
    let Room { mut memory, text } = room_for(alloc, program)?;
    write_contents(&mut memory, program);
    let code = code_of(text, program);
    let regs = first_registers(program.data_limit());
    Ok(image(program.entry, regs, memory, code))
}

/// An image with all flags 0.
fn image(eip: u32, regs: Regs, memory: Segment, code: Code) -> Image
    ensures { result ≡ record {
      regs = regs;
      eip = eip;
      flags = values_of 0;
      memory = memory;
      code = code;
    } }
{
    Image {
        regs,
        eip,
        flags: Flags::from_bits(0),
        memory,
        code,
    }
}

/// Makes an image that was loaded from a program equal to the one at loading, whatever it did since. It
/// writes into the pages that the image has: takes none, and gives up none. So a respawn takes no memory.
pub fn refill(image: &mut Image, program: &Program)
    requires { IsLoadedFrom image.old program.now }
    ensures image { image.new ≡ image_of_program program.now }
    ensures from { IsLoadedFrom image.new program.now }
{
    image.memory.clear();
    write_contents(&mut image.memory, program);
    image.regs = first_registers(program.data_limit());
    image.eip = program.entry;
    image.flags = Flags::from_bits(0);
}
