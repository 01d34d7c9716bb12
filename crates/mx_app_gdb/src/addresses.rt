//! Addresses as gdb has them, and what is there.

ghost use Rattle.std.specs.Prelude.{◌≡◌, ◌<◌, IfOk, drop};
ghost use Rattle.mx_app_gdb.specs.Addresses.{bytes_at, bytes_for, code_address, place_of, registers_of, shown_address};

use mx_exec::Image;
use mx_mem::Segment;
use mx_word::Register;
use std::alloc::{AllocError, Global};

/// The first address of code, as gdb has it. Those below are of data.
const CODE: u32 = 0x8000_0000;

/// How many bytes a reply has at most: with two digits a byte it is a packet of the size that gdb was told.
const MOST_BYTES: u32 = 8190;

/// The address in a process's code that gdb means, if it means code.
pub(crate) fn code_address(address: u32) -> Option<u32>
    ensures { result ≡ code_address address }
{
    address.checked_sub(CODE)
}

/// An address in a process's code, as gdb has it.
pub(crate) fn shown_address(address: u32) -> u32
    ensures { result ≡ shown_address address }
{
    address.wrapping_add(CODE)
}

/// The segment that gdb means by an address, and the address there.
fn segment_at(image: &Image, address: u32) -> (&Segment, u32)
    ensures bytes { drop result.1 result.0.now ≡ bytes_at image.now address }
    ensures place { result.1 ≡ place_of address }
    ensures low { result.1 < 2147483648 }
{
    match code_address(address) {
        Some(at) => (image.code_segment(), at),
        None => (&image.memory, address),
    }
}

/// The bytes of a process from an address on, as many as are asked for, are there and have room.
pub(crate) fn bytes_for(
    alloc: Global,
    image: &Image,
    address: u32,
    count: u32,
) -> Result<Vec<u8>, AllocError>
    ensures { IfOk result (λ bytes. bytes.items ≡ bytes_for image.now address count) }
{
    let (segment, at) = segment_at(image, address);
    let mut bytes = Vec::new(alloc);
    for offset in 0..count.min(MOST_BYTES).min(CODE - at) {
        match segment.get(at + offset) {
            Some(byte) => bytes.push(byte)?,
            None => return Ok(bytes),
        }
    }
    Ok(bytes)
}

/// The registers of a process that gdb knows, in its order: eight, EIP as it has it, and EFLAGS.
pub(crate) fn registers_of(image: &Image) -> [u32; 10]
    ensures { result ≡ registers_of image.now }
{
    [
        image.register(Register::Eax),
        image.register(Register::Ecx),
        image.register(Register::Edx),
        image.register(Register::Ebx),
        image.register(Register::Esp),
        image.register(Register::Ebp),
        image.register(Register::Esi),
        image.register(Register::Edi),
        shown_address(image.eip),
        image.flags.to_bits(),
    ]
}
