//! The columns of the table of instructions: size, prefixes, ModRM, immediate and count of a row.

use crate::insn::{Comparison, Loop, Plain, Product, Transfer};
use mx_word::{BitScan, BitTest, DoubleShift, Shift, Unary};

/// An opcode map: that of the opcodes of one byte, or of those that follow 0F.
#[derive(Clone, Copy)]
pub enum OpcodeMap {
    OneByte,
    TwoByte,
}

/// The operand size of a row: b, v (word after 66, else dword), or d (also if it has no mark).
#[derive(Clone, Copy)]
pub enum SizeMark {
    Byte,
    Variable,
    Dword,
}

/// Which of F3 and F2 may come before a row.
#[derive(Clone, Copy)]
pub enum Repeats {
    Neither,
    /// F3, as REP.
    Rep,
    /// F3 as REPE, F2 as REPNE.
    Both,
}

/// A row's ModRM byte.
#[derive(Clone, Copy)]
pub enum ModRm {
    /// There is none.
    Absent,
    /// Any reg field and any rm.
    Any,
    /// Any reg field, and rm is memory.
    AnyMemory,
    /// Any reg field, and rm is a register: mod is 11.
    AnyRegister,
    /// /n: the reg field is this, and rm is any.
    Only(u8),
}

/// The last column of a row: nothing, ib, is, iw, id, iv.
#[derive(Clone, Copy)]
pub enum ImmediateColumn {
    Nothing,
    Byte,
    /// A byte with its sign extended.
    SignedByte,
    Word,
    Dword,
    /// As wide as the operands: a word after 66, else a dword.
    Variable,
}

/// Where the count of a shift is.
#[derive(Clone, Copy)]
pub enum CountColumn {
    Immediate,
    One,
    Cl,
}

/// A row's instruction, with its operands in the order in which the manual names them.
#[derive(Clone, Copy)]
pub enum Pattern {
    ArithmeticRmReg,
    ArithmeticRegRm,
    ArithmeticAccImmediate,
    /// The operation is the reg field's.
    ArithmeticRmImmediate,
    MoveRmReg,
    MoveRegRm,
    MoveAccAt,
    MoveAtAcc,
    MoveRegImmediate,
    MoveRmImmediate,
    TestRmReg,
    TestAccImmediate,
    TestRmImmediate,
    ExchangeRmReg,
    ExchangeRegAcc,
    LoadAddress,
    UnaryReg(Unary),
    UnaryRm(Unary),
    ProductRm(Product),
    MultiplyRegRm,
    MultiplyRegRmImmediate,
    ShiftRm(Shift, CountColumn),
    DoubleShiftRmReg(DoubleShift, CountColumn),
    BitTestRmImmediate(BitTest),
    BitTestRmReg(BitTest),
    BitScanRegRm(BitScan),
    ZeroExtendByte,
    ZeroExtendWord,
    SignExtendByte,
    SignExtendWord,
    SetCondition,
    PushReg,
    PushRm,
    PushImmediate,
    PopReg,
    JumpIf,
    Jump,
    JumpRm,
    Call,
    CallRm,
    Loop(Loop),
    Return,
    Interrupt,
    ExtendAccumulator,
    SpreadSign,
    Transfer(Transfer),
    Compare(Comparison),
    InImmediate,
    InDx,
    OutImmediate,
    OutDx,
    Plain(Plain),
}

/// A row of the table: opcodes first, first + step, .. of which there are count, and its columns.
#[derive(Clone, Copy)]
pub struct Row {
    /// After 0F.
    pub escaped: bool,
    pub first: u8,
    pub step: u8,
    pub count: u8,
    pub sizes: SizeMark,
    pub repeats: Repeats,
    pub modrm: ModRm,
    pub immediate: ImmediateColumn,
    pub pattern: Pattern,
}
