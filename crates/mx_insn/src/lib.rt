//! An instruction as a value, `Insn`, with its operands; and the table of rows that defines which bytes spell
//! it.
#![tactic(auto)]

mod insn;
mod row;

pub use arrayvec::ArrayVec;
pub use insn::{
    Comparison, Count, Extension, Immediate, Index, Insn, Loop, Memory, Operand, OperandSize,
    Operands, Plain, Port, PortSize, Product, Repeat, Scale, Transfer, WideImmediate,
};
pub use row::{CountColumn, ImmediateColumn, ModRm, OpcodeMap, Pattern, Repeats, Row, SizeMark};
