//! The image that a case begins with, and whether a step of it ended as the case wants.

ghost use Rattle.std.specs.Prelude.{◌≡◌, ◌<◌, ◌^◌, ◌↔◌, length, IsTrue, IfOk, OnOk, List, ℕ};
ghost use Rattle.mx_flags.specs.Flags.{bits_of};
ghost use Rattle.mx_regs.specs.Regs.{word_of_register};
ghost use Rattle.mx_regs.specs.RegisterValues.{words_of};
ghost use Rattle.mx_vectors_compare.specs.Ends.{EndsAs, SameBits, compared_flags, image_of_case, number_of, wanted_flags};

use crate::Case;
use mx_exec::{Code, Image, Outcome, TextSegment};
use mx_flags::Flags;
use mx_mem::Segment;
use mx_regs::Regs;
use mx_word::{NoMemory, Register, Size};
use std::alloc::Global;

/// A segment of these bytes.
fn segment_of(alloc: Global, bytes: &[u8]) -> Result<Segment, NoMemory>
    ensures bytes { IfOk result (λ segment. segment ≡ bytes.now) }
    ensures fits { OnOk result (length bytes.now < 2 ^ 32) }
{
    let Ok(limit) = u32::try_from(bytes.len()) else {
        return Err(NoMemory);
    };
    let mut segment = Segment::new(alloc, limit)?;
    match segment.fill_from(0, bytes) {
        Ok(()) => Ok(segment),
        Err(_) => unreachable!(),
    }
}

/// Registers with these words, in the registers' order.
fn regs_of(words: &[u32; 8]) -> Regs
    ensures { result ≡ words_of words.now }
{
    let [eax, ecx, edx, ebx, esp, ebp, esi, edi] = *words;
    let mut regs = Regs::new();
    regs.set(Size::Dword, Register::Eax, eax);
    regs.set(Size::Dword, Register::Ecx, ecx);
    regs.set(Size::Dword, Register::Edx, edx);
    regs.set(Size::Dword, Register::Ebx, ebx);
    regs.set(Size::Dword, Register::Esp, esp);
    regs.set(Size::Dword, Register::Ebp, ebp);
    regs.set(Size::Dword, Register::Esi, esi);
    regs.set(Size::Dword, Register::Edi, edi);
    regs
}

/// The image that a processor's recorded case begins with.
pub fn image_of(alloc: Global, case: &Case<'_>) -> Result<Image, NoMemory>
    ensures image { IfOk result (λ image. image ≡ image_of_case case.now) }
    ensures fits { OnOk result (length case.now.memory < 2 ^ 32) }
{
    let code = match &case.code {
        Some(text) => Code::Separate(TextSegment::new(segment_of(alloc, text.as_slice())?)),
        None => Code::Shared,
    };
    Ok(Image {
        regs: regs_of(&case.before.registers),
        eip: case.before.eip,
        flags: Flags::from_bits(case.before.flags),
        memory: segment_of(alloc, case.memory.as_slice())?,
        code,
    })
}

/// The outcome as a number: a fault's vector, or 256 for on and 257 for a trap.
pub fn number_of(outcome: Outcome) -> u32
    ensures { result ≡ number_of outcome }
{
    match outcome {
        Outcome::Fault(vector) => u32::from(vector),
        Outcome::Go => 0x100,
        Outcome::Trap => 0x101,
    }
}

/// Whether a step ended so.
fn is_outcome_same(found: Outcome, wanted: Outcome) -> bool
    ensures { IsTrue result ↔ (found ≡ wanted) }
{
    found == wanted
}

/// Whether a register has these bits.
fn is_register_same(image: &Image, register: Register, wanted: u32) -> bool
    ensures { IsTrue result ↔ (word_of_register image.now.regs register ≡ wanted) }
{
    image.register(register) == wanted
}

/// Whether the registers have these words, in the registers' order.
fn are_registers_same(image: &Image, wanted: &[u32; 8]) -> bool
    ensures { IsTrue result ↔ (image.now.regs ≡ words_of wanted.now) }
{
    let [eax, ecx, edx, ebx, esp, ebp, esi, edi] = *wanted;
    is_register_same(image, Register::Eax, eax)
        & is_register_same(image, Register::Ecx, ecx)
        & is_register_same(image, Register::Edx, edx)
        & is_register_same(image, Register::Ebx, ebx)
        & is_register_same(image, Register::Esp, esp)
        & is_register_same(image, Register::Ebp, ebp)
        & is_register_same(image, Register::Esi, esi)
        & is_register_same(image, Register::Edi, edi)
}

/// Whether a segment has these bytes.
fn is_memory_same(memory: &Segment, wanted: &[u8]) -> bool
    requires { length wanted.now < 2 ^ 32 }
    ensures { IsTrue result ↔ (memory.now ≡ wanted.now) }
{
    let mut same = memory.limit() == wanted.len();
    for (at, byte) in wanted.iter().enumerate() {
        let found = memory.get(at as u32).unwrap_or(0);
        same &= found == *byte;
    }
    same
}

/// The seven flags, as bits.
const FLAGS: u32 = 0xCD5;

const CARRY: u32 = 0x001;

const DIRECTION: u32 = 0x400;

/// Which flags to compare: all, but not carry if a byte or word was shifted beyond its width, for
/// which the manual gives none. In an iteration of a repeated comparison only direction, since the
/// processor showed no other flag.
pub fn compared_flags(mask: u32) -> u32
    ensures { result ≡ compared_flags mask }
{
    if mask == DIRECTION {
        return mask;
    }
    FLAGS & !CARRY | mask & CARRY
}

/// The flags after the step: those that the manual leaves undefined are as before it.
pub fn wanted_flags(case: &Case<'_>) -> u32
    ensures { result ≡ wanted_flags case.now }
{
    case.after.flags & case.mask | case.before.flags & !case.mask
}

/// Whether the flags to compare are as the case has them.
fn are_flags_same(case: &Case<'_>, flags: &Flags) -> bool
    ensures { IsTrue result ↔ SameBits (compared_flags case.now.mask) (bits_of flags.now)
        (wanted_flags case.now) }
{
    let compared = compared_flags(case.mask);
    flags.to_bits() & compared == wanted_flags(case) & compared
}

/// Whether a step ended as the processor's case has it.
pub fn is_end_same(case: &Case<'_>, outcome: Outcome, image: &Image) -> bool
    requires { length case.now.memory < 2 ^ 32 }
    ensures { IsTrue result ↔ EndsAs case.now outcome image.now }
{
    is_outcome_same(outcome, case.outcome)
        & are_registers_same(image, &case.after.registers)
        & (image.eip == case.after.eip)
        & are_flags_same(case, &image.flags)
        & is_memory_same(&image.memory, case.memory_after.as_slice())
}
