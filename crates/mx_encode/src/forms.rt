//! Encodings as values: what an instruction's bytes are made of.

ghost use Rattle.std.specs.Prelude.{◌≡◌, ◌<◌, None, Some};
ghost use Rattle.mx_insn.specs.Spelling.{operand_size};
ghost use Rattle.mx_insn.specs.Table.{sized_opcode};
ghost use Rattle.mx_encode.specs.Numbers.{is_word};

use crate::fields::{Number, Rm};
use mx_insn::{OpcodeMap, Operand, OperandSize, Repeat};
use mx_word::Size;

/// An opcode and its prefixes, the operand that mod and rm name, and the immediate.
#[derive(Clone, Copy)]
pub struct Encoding {
    /// A word if there is the operand-size prefix, 66, else a dword.
    pub operand_size: OperandSize,
    pub repeat: Option<Repeat>,
    pub map: OpcodeMap,
    pub opcode: u8,
    pub rm: Option<Rm>,
    pub immediate: Number,
}

impl Encoding {
    /// An encoding of an opcode without operands.
    pub fn bare(opcode: u8) -> Encoding
        ensures { result ≡ record {
          operand_size = OperandSize.Dword;
          repeat = None;
          map = OpcodeMap.OneByte;
          opcode = opcode;
          rm = None;
          immediate = Number.Nothing;
        } }
    {
        Encoding {
            operand_size: OperandSize::Dword,
            repeat: None,
            map: OpcodeMap::OneByte,
            opcode,
            rm: None,
            immediate: Number::Nothing,
        }
    }

    /// An encoding of an opcode with a reg field and an operand.
    pub fn with_rm(opcode: u8, reg: u8, operand: Operand) -> Encoding
        ensures { result ≡ record {
          operand_size = OperandSize.Dword;
          repeat = None;
          map = OpcodeMap.OneByte;
          opcode = opcode;
          rm = Some (record { reg = reg; operand = operand });
          immediate = Number.Nothing;
        } }
    {
        Encoding {
            operand_size: OperandSize::Dword,
            repeat: None,
            map: OpcodeMap::OneByte,
            opcode,
            rm: Some(Rm { reg, operand }),
            immediate: Number::Nothing,
        }
    }

    /// Of two opcodes, for bytes and next to it for words and dwords, that of the size, with a reg
    /// field and an operand.
    pub fn of_size(size: Size, opcode: u8, reg: u8, operand: Operand) -> Encoding
        requires { opcode < 255 }
        ensures { result ≡ record {
          operand_size = operand_size (is_word size);
          repeat = None;
          map = OpcodeMap.OneByte;
          opcode = sized_opcode size opcode;
          rm = Some (record { reg = reg; operand = operand });
          immediate = Number.Nothing;
        } }
    {
        let encoding = Encoding::with_rm(sized_opcode(size, opcode), reg, operand);
        encoding.with_operand_size(operand_size(size))
    }

    /// This encoding with the prefix 66 for words, or without it for dwords.
    pub fn with_operand_size(self, operand_size: OperandSize) -> Encoding
        ensures { result ≡ record self { operand_size = operand_size } }
    {
        Encoding {
            operand_size,
            ..self
        }
    }

    /// This encoding with 0F before its opcode.
    pub fn after_0f(self) -> Encoding
        ensures { result ≡ record self { map = OpcodeMap.TwoByte } }
    {
        Encoding {
            map: OpcodeMap::TwoByte,
            ..self
        }
    }

    /// This encoding with the prefix F3, F2, or neither.
    pub fn with_repeat(self, repeat: Option<Repeat>) -> Encoding
        ensures { result ≡ record self { repeat = repeat } }
    {
        Encoding { repeat, ..self }
    }

    /// This encoding with an immediate.
    pub fn with_immediate(self, immediate: Number) -> Encoding
        ensures { result ≡ record self { immediate = immediate } }
    {
        Encoding { immediate, ..self }
    }
}

/// The operand size of an instruction whose operands have a size: one on bytes has no prefix.
pub fn operand_size(size: Size) -> OperandSize
    ensures { result ≡ operand_size (is_word size) }
{
    match size {
        Size::Word => OperandSize::Word,
        Size::Byte | Size::Dword => OperandSize::Dword,
    }
}

/// Of an opcode for bytes and the next, for words and dwords, that of the size.
pub fn sized_opcode(size: Size, opcode: u8) -> u8
    requires { opcode < 255 }
    ensures { result ≡ sized_opcode size opcode }
{
    match size {
        Size::Byte => opcode,
        Size::Word | Size::Dword => opcode + 1,
    }
}
