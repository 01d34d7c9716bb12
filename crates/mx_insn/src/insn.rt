//! Instructions as values: operation, size and operands, and not the form that spelled them. What the decoder
//! gives, the encoder takes, and a step performs.

ghost use Rattle.std.specs.Prelude.{◌≡◌, ◌^◌, ◌<◌};
ghost use Rattle.mx_word.specs.Word.{width};
ghost use Rattle.mx_insn.specs.Sizes.{size_of_immediate, size_of_operands, value_of_immediate, wide_size, wide_value};

use mx_word::{Arithmetic, BitScan, BitTest, Condition, DoubleShift, Register, Shift, Size, Unary};

/// What an index register is multiplied by.
#[derive(Clone, Copy, PartialEq, Eq)]
pub enum Scale {
    One,
    Two,
    Four,
    Eight,
}

/// An index register and its scale. ESP is no index: no bytes spell it.
#[derive(Clone, Copy)]
pub struct Index {
    pub register: Register,
    pub scale: Scale,
}

/// A place in memory: base + index * scale + displacement, modulo 2^32.
#[derive(Clone, Copy)]
pub struct Memory {
    pub base: Option<Register>,
    pub index: Option<Index>,
    pub displacement: u32,
}

/// What mod and rm name: a register or a place in memory.
#[derive(Clone, Copy)]
pub enum Operand {
    Register(Register),
    Memory(Memory),
}

/// The operand size of a row that has no byte form.
#[derive(Clone, Copy)]
pub enum OperandSize {
    Word,
    Dword,
}

impl OperandSize {
    /// The size of this operand, as one of the three sizes that rows have.
    #[inline(always)]
    pub fn size(self) -> Size
        ensures { result ≡ size_of_operands self }
    {
        match self {
            OperandSize::Word => Size::Word,
            OperandSize::Dword => Size::Dword,
        }
    }
}

/// A number in the instruction, with its size.
#[derive(Clone, Copy)]
pub enum Immediate {
    Byte(u8),
    Word(u16),
    Dword(u32),
}

impl Immediate {
    #[inline(always)]
    pub fn size(self) -> Size
        ensures { result ≡ size_of_immediate self }
    {
        match self {
            Immediate::Byte(_) => Size::Byte,
            Immediate::Word(_) => Size::Word,
            Immediate::Dword(_) => Size::Dword,
        }
    }

    /// The number, unsigned.
    #[inline(always)]
    pub fn value(self) -> u32
        ensures value { result ≡ value_of_immediate self }
        ensures below { result < 2 ^ width (size_of_immediate self) }
    {
        match self {
            Immediate::Byte(number) => u32::from(number),
            Immediate::Word(number) => u32::from(number),
            Immediate::Dword(number) => number,
        }
    }
}

/// A number in an instruction that has no byte form.
#[derive(Clone, Copy)]
pub enum WideImmediate {
    Word(u16),
    Dword(u32),
}

impl WideImmediate {
    #[inline(always)]
    pub fn size(self) -> Size
        ensures { result ≡ wide_size self }
    {
        match self {
            WideImmediate::Word(_) => Size::Word,
            WideImmediate::Dword(_) => Size::Dword,
        }
    }

    /// The number, unsigned.
    #[inline(always)]
    pub fn value(self) -> u32
        ensures value { result ≡ wide_value self }
        ensures below { result < 2 ^ width (wide_size self) }
    {
        match self {
            WideImmediate::Word(number) => u32::from(number),
            WideImmediate::Dword(number) => number,
        }
    }
}

/// Two operands of one size, of which at most one is memory.
#[derive(Clone, Copy)]
pub enum Operands {
    ToRegister {
        size: Size,
        to: Register,
        from: Operand,
    },
    ToMemory {
        size: Size,
        to: Memory,
        from: Register,
    },
    Immediate {
        to: Operand,
        value: Immediate,
    },
}

/// A multiplication or division of the accumulator.
#[derive(Clone, Copy, PartialEq, Eq)]
pub enum Product {
    Mul,
    Imul,
    Div,
    Idiv,
}

/// How far a shift or a rotate goes.
#[derive(Clone, Copy)]
pub enum Count {
    Cl,
    Immediate(u8),
}

/// What MOVZX and MOVSX extend, and to which size.
#[derive(Clone, Copy)]
pub enum Extension {
    ByteToWord,
    ByteToDword,
    WordToDword,
}

/// A jump that ECX decides.
#[derive(Clone, Copy, PartialEq, Eq)]
pub enum Loop {
    Loopne,
    Loope,
    Loop,
    Jecxz,
}

/// A string instruction that moves a value.
#[derive(Clone, Copy, PartialEq, Eq)]
pub enum Transfer {
    Movs,
    Stos,
    Lods,
}

/// A string instruction that compares.
#[derive(Clone, Copy, PartialEq, Eq)]
pub enum Comparison {
    Cmps,
    Scas,
}

/// F3 or F2 before a comparison of strings: on while equal, or while not equal.
#[derive(Clone, Copy)]
pub enum Repeat {
    Repe,
    Repne,
}

/// The port of IN and OUT: a number in the instruction, or register DX.
#[derive(Clone, Copy)]
pub enum Port {
    Dx,
    Immediate(u8),
}

/// What IN and OUT move: AL or EAX.
#[derive(Clone, Copy)]
pub enum PortSize {
    Byte,
    Dword,
}

/// An instruction without operands.
#[derive(Clone, Copy, PartialEq, Eq)]
pub enum Plain {
    Pushad,
    Popad,
    Pushfd,
    Popfd,
    Sahf,
    Lahf,
    Nop,
    Leave,
    Int3,
    Into,
    Hlt,
    Cli,
    Sti,
    Cmc,
    Clc,
    Stc,
    Cld,
    Std,
}

/// An instruction. Displacements of jumps are relative to the next instruction, modulo 2^32.
/// No bytes spell a LOOP or JECXZ whose displacement isn't a signed byte, nor ESP as an index;
/// every other value has a spelling. Bytes spell at most one, so two are compared by their bytes.
#[derive(Clone, Copy)]
pub enum Insn {
    /// ADD, OR, ADC, SBB, AND, SUB, XOR, CMP.
    Arithmetic {
        operation: Arithmetic,
        operands: Operands,
    },
    /// MOV.
    Move(Operands),
    /// TEST with a register.
    Test {
        size: Size,
        operand: Operand,
        register: Register,
    },
    /// TEST with an immediate.
    TestImmediate {
        operand: Operand,
        value: Immediate,
    },
    /// XCHG.
    Exchange {
        size: Size,
        operand: Operand,
        register: Register,
    },
    /// LEA.
    LoadAddress {
        size: OperandSize,
        to: Register,
        memory: Memory,
    },
    /// INC, DEC, NOT, NEG.
    Unary {
        operation: Unary,
        size: Size,
        operand: Operand,
    },
    /// MUL, IMUL, DIV, IDIV of the accumulator.
    Product {
        operation: Product,
        size: Size,
        operand: Operand,
    },
    /// IMUL with two operands.
    Multiply {
        size: OperandSize,
        to: Register,
        from: Operand,
    },
    /// IMUL with three operands.
    MultiplyImmediate {
        to: Register,
        from: Operand,
        by: WideImmediate,
    },
    /// ROL, ROR, SHL, SHR, SAR.
    Shift {
        operation: Shift,
        size: Size,
        operand: Operand,
        count: Count,
    },
    /// SHLD, SHRD: a dword, filled from a register.
    DoubleShift {
        operation: DoubleShift,
        operand: Operand,
        register: Register,
        count: Count,
    },
    /// BT, BTS, BTR, BTC of a dword's bit with a number in the instruction.
    BitTest {
        operation: BitTest,
        operand: Operand,
        number: u8,
    },
    /// BT, BTS, BTR, BTC of a register's bit, with its number in a register.
    BitTestRegister {
        operation: BitTest,
        register: Register,
        number: Register,
    },
    /// BSF, BSR of a dword.
    BitScan {
        operation: BitScan,
        to: Register,
        from: Operand,
    },
    /// MOVZX.
    ZeroExtend {
        extension: Extension,
        to: Register,
        from: Operand,
    },
    /// MOVSX.
    SignExtend {
        extension: Extension,
        to: Register,
        from: Operand,
    },
    /// SETcc.
    SetCondition {
        condition: Condition,
        operand: Operand,
    },
    /// PUSH of a dword.
    Push(Operand),
    PushImmediate(u32),
    /// POP into a register.
    Pop(Register),
    /// Jcc.
    JumpIf {
        condition: Condition,
        displacement: u32,
    },
    Jump(u32),
    Call(u32),
    /// JMP to the address that the operand holds.
    JumpTo(Operand),
    /// CALL of the address that the operand holds.
    CallTo(Operand),
    /// LOOPNE, LOOPE, LOOP, JECXZ.
    Loop {
        operation: Loop,
        displacement: u32,
    },
    /// RET, and how many bytes more it takes off the stack.
    Return(u16),
    /// INT.
    Interrupt(u8),
    /// CBW or CWDE: the accumulator's lower half, its sign extended over the whole.
    ExtendAccumulator(OperandSize),
    /// CWD or CDQ: the accumulator's sign, extended over DX or EDX.
    SpreadSign(OperandSize),
    /// MOVS, STOS, LODS, with or without REP.
    Transfer {
        operation: Transfer,
        size: Size,
        repeated: bool,
    },
    /// CMPS, SCAS, with or without REPE or REPNE.
    Compare {
        operation: Comparison,
        size: Size,
        repeat: Option<Repeat>,
    },
    In {
        size: PortSize,
        port: Port,
    },
    Out {
        size: PortSize,
        port: Port,
    },
    Plain(Plain),
}
