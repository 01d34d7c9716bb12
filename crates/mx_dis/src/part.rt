//! The parts of a text that the listing prints: instructions, and single bytes.

ghost use Rattle.std.specs.Prelude.{◌≡◌, ◌<◌, ◌≤◌, ◌∷◌, List, length, drop};
ghost use Rattle.mx_dis.specs.declared.part.Part.{Part};
ghost use Rattle.mx_dis.specs.Parting.{IsFirstPart, IsParting, part_size};

use mx_decode::decode;
use mx_insn::Insn;

/// An instruction, or one byte, of a text.
#[derive(Clone, Copy)]
pub enum Part {
    /// An instruction, and how many bytes spell it.
    Instruction(Insn, u8),
    /// A byte at which no instruction begins.
    Byte(u8),
}

impl Part {
    /// How many bytes a line of a listing takes.
    pub fn size(&self) -> u8
        ensures { result ≡ part_size self.now }
    {
        match self {
            Part::Instruction(_, size) => *size,
            Part::Byte(_) => 1,
        }
    }
}

/// The line of a listing that bytes begin with. Whatever the rest is parted into follows it.
pub fn first_part(bytes: &[u8]) -> Part
    requires { 0 < length bytes.now }
    ensures part { IsFirstPart bytes.now result }
    ensures parting { (rest : List Part) → IsParting (drop (part_size result) bytes.now) rest
        → IsParting bytes.now (result ∷ rest) }
    ensures least { 1 ≤ part_size result }
    ensures within { part_size result ≤ length bytes.now }
    ensures byte { part_size result < 256 }
{
    match decode(bytes) {
        Ok((insn, size)) => Part::Instruction(insn, size),
        Err(_) => Part::Byte(bytes[0]),
    }
}
