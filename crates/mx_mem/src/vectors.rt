//! The vectors of the faults that an instruction can have (manual, 9.8).

/// The number of a fault, by which a processor finds its handler.
pub type Vector = u8;

/// A quotient is too large, or the divisor is 0.
pub const DIVIDE_ERROR: Vector = 0;
/// No row of the table of instructions has these bytes.
pub const INVALID_OPCODE: Vector = 6;
/// An access to the stack isn't inside the segment.
pub const STACK_FAULT: Vector = 12;
/// Any other access or jump isn't inside the segment, or the instruction isn't allowed.
pub const GENERAL_PROTECTION: Vector = 13;
