//! Jumps, calls and loops of a text, whose target is a value.

use mx_insn::Loop;
use mx_word::Condition;

/// How long the displacement of a jump is.
#[derive(Clone, Copy)]
pub enum JumpLength {
    /// 8 bits, which the word `short` asks for.
    Short,
    /// 32 bits.
    Long,
}

/// A jump, call or loop. Its target is stored with it, as a value.
#[derive(Clone, Copy)]
pub enum Branch {
    Jump {
        length: JumpLength,
    },
    JumpIf {
        condition: Condition,
        length: JumpLength,
    },
    Call,
    Loop(Loop),
}
