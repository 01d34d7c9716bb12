//! A process as its processor sees it.

ghost use Rattle.std.specs.Prelude.{◌≡◌, ◌<◌, ◌^◌, length, drop, Ok, Err};
ghost use Rattle.mx_decode.specs.Decode.{front};
ghost use Rattle.mx_exec.specs.Text.{Fetches};
ghost use Rattle.mx_exec.specs.Image.{code_bytes, dword_difference, dword_sum, blank, register_of, with_dword, image_at_target, Performs};

use crate::text::{TextSegment, decode_at};
use mx_decode::DecodeFault;
use mx_flags::Flags;
use mx_insn::Insn;
use mx_mem::{GENERAL_PROTECTION, Segment, Vector};
use mx_regs::Regs;
use mx_word::{Register, Size};
use std::alloc::Global;

/// Where the code is.
#[derive(Drop)]
pub enum Code {
    /// In a segment of its own, which nothing writes.
    Separate(TextSegment),
    /// In the data segment.
    Shared,
}

/// A process's registers, memory and code.
pub struct Image {
    pub regs: Regs,
    pub eip: u32,
    pub flags: Flags,
    pub memory: Segment,
    pub code: Code,
}

impl Drop for Image {
    fn drop(self) {
        let Image {
            regs: _,
            eip: _,
            flags: _,
            memory: _,
            code: _,
        } = self;
    }
}

/// How a step ends.
#[derive(Clone, Copy, PartialEq, Eq)]
pub enum Outcome {
    /// On to the next step.
    Go,
    /// INT 33: the process calls the kernel.
    Trap,
    /// A fault with its vector, which changed nothing.
    Fault(Vector),
}

impl Image {
    /// What is left where an image was moved out: no memory, and zeros. Takes no memory.
    pub fn blank(alloc: Global) -> Image
        ensures { result ≡ blank }
    {
        Image {
            regs: Regs::new(),
            eip: 0,
            flags: Flags::from_bits(0),
            memory: Segment::empty(alloc),
            code: Code::Shared,
        }
    }

    /// The 32 bits of a register of the image.
    #[inline(always)]
    pub fn register(&self, register: Register) -> u32
        ensures { result ≡ register_of self.now register }
    {
        self.regs.get(Size::Dword, register)
    }

    #[inline(always)]
    pub(crate) fn set_register(&mut self, register: Register, value: u32)
        ensures { self.new ≡ with_dword self.old register value }
    {
        self.regs.set(Size::Dword, register, value);
    }

    /// The segment that the image's code is in.
    #[inline(always)]
    pub fn code_segment(&self) -> &Segment
        ensures { result.now ≡ code_bytes self.now }
    {
        match &self.code {
            Code::Separate(text) => text.segment(),
            Code::Shared => &self.memory,
        }
    }

    /// The limit of the code, in bytes.
    pub(crate) fn code_limit(&self) -> usize
        ensures { result ≡ length (code_bytes self.now) }
    {
        self.code_segment().limit()
    }

    /// Puts the instruction at EIP into `insn`, and answers its length.
    #[inline(always)]
    pub fn fetch(&self, insn: &mut Insn) -> Result<u8, DecodeFault>
        ensures { Fetches (front (drop self.now.eip (code_bytes self.now))) result insn.new }
    {
        decode_at(self.code_segment(), self.eip, insn)
    }

    /// Jumps, or answers the vector of a target that isn't below the code's limit.
    pub(crate) fn jump(&mut self, target: u32) -> Result<(), Vector>
        ensures { Performs self.old (image_at_target target self.old) result self.new }
    {
        if target as usize >= self.code_limit() {
            return Err(GENERAL_PROTECTION);
        }
        self.eip = target;
        Ok(())
    }
}

/// An address or count less a number, modulo 2^32.
#[inline(always)]
pub fn dword_difference(number: u32, by: u32) -> u32
    ensures { result ≡ dword_difference number by }
{
    number.wrapping_sub(by)
}

/// An address or count and a number more, modulo 2^32.
#[inline(always)]
pub fn dword_sum(number: u32, by: u32) -> u32
    ensures { result ≡ dword_sum number by }
{
    number.wrapping_add(by)
}
