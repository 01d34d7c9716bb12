//! The fields of an encoding: numbers, ModRM and SIB.

ghost use Rattle.std.specs.Prelude.{◌<◌};

use mx_insn::Operand;

/// A number in an instruction's bytes.
#[derive(Clone, Copy)]
pub enum Number {
    Nothing,
    Byte(u8),
    Word(u16),
    Dword(u32),
}

/// A reg field, and what mod and rm name.
#[derive(Clone, Copy)]
pub struct Rm {
    pub reg: u8,
    pub operand: Operand,
}

/// The fields of a SIB byte.
#[derive(Clone, Copy)]
pub struct Sib {
    pub scale: u8,
    pub index: u8,
    pub base: u8,
    ghost scale_below: { scale < 4 },
    ghost index_below: { index < 8 },
    ghost base_below: { base < 8 },
}

/// The fields of a ModRM byte, the SIB byte if there is one, and the displacement.
#[derive(Clone, Copy)]
pub struct RmFields {
    pub mode: u8,
    pub reg: u8,
    pub rm: u8,
    pub sib: Option<Sib>,
    pub displacement: Number,
    ghost mode_below: { mode < 4 },
    ghost reg_below: { reg < 8 },
    ghost rm_below: { rm < 8 },
}
