//! The manual's names of registers, conditions and operations.

ghost use Rattle.std.specs.Prelude.{◌≡◌, ◌<◌};
ghost use Rattle.mx_word.specs.Names.{register_number, condition_code};

/// A register, by the name of its 32 bits. Under size byte the first four name AL, CL, DL and BL,
/// the last four AH, CH, DH and BH (80386 Programmer's Reference Manual, 2.3.1).
#[derive(Clone, Copy, PartialEq, Eq)]
pub enum Register {
    Eax,
    Ecx,
    Edx,
    Ebx,
    Esp,
    Ebp,
    Esi,
    Edi,
}

impl Register {
    /// A register's number in an instruction's fields.
    pub fn number(self) -> u8
        ensures value { result ≡ register_number self }
        ensures below { result < 8 }
    {
        match self {
            Register::Eax => 0,
            Register::Ecx => 1,
            Register::Edx => 2,
            Register::Ebx => 3,
            Register::Esp => 4,
            Register::Ebp => 5,
            Register::Esi => 6,
            Register::Edi => 7,
        }
    }
}

/// What a conditional jump or SETcc tests, in the order of the codes 0 to 15 (manual, appendix D).
#[derive(Clone, Copy, PartialEq, Eq)]
pub enum Condition {
    Overflow,
    NotOverflow,
    Below,
    NotBelow,
    Zero,
    NotZero,
    BelowOrEqual,
    NotBelowOrEqual,
    Sign,
    NotSign,
    Parity,
    NotParity,
    Less,
    NotLess,
    LessOrEqual,
    NotLessOrEqual,
}

impl Condition {
    /// A condition's code in an opcode.
    pub fn code(self) -> u8
        ensures value { result ≡ condition_code self }
        ensures below { result < 16 }
    {
        match self {
            Condition::Overflow => 0,
            Condition::NotOverflow => 1,
            Condition::Below => 2,
            Condition::NotBelow => 3,
            Condition::Zero => 4,
            Condition::NotZero => 5,
            Condition::BelowOrEqual => 6,
            Condition::NotBelowOrEqual => 7,
            Condition::Sign => 8,
            Condition::NotSign => 9,
            Condition::Parity => 10,
            Condition::NotParity => 11,
            Condition::Less => 12,
            Condition::NotLess => 13,
            Condition::LessOrEqual => 14,
            Condition::NotLessOrEqual => 15,
        }
    }
}

/// An operation on two operands, in the order of its number in an opcode or a reg field.
#[derive(Clone, Copy, PartialEq, Eq)]
pub enum Arithmetic {
    Add,
    Or,
    Adc,
    Sbb,
    And,
    Sub,
    Xor,
    Cmp,
}

/// An operation on one operand.
#[derive(Clone, Copy, PartialEq, Eq)]
pub enum Unary {
    Inc,
    Dec,
    Not,
    Neg,
}

/// A rotate or a shift.
#[derive(Clone, Copy, PartialEq, Eq)]
pub enum Shift {
    Rol,
    Ror,
    Shl,
    Shr,
    Sar,
}

/// What is done to the bit that is put into the carry: nothing, set, cleared, inverted.
#[derive(Clone, Copy, PartialEq, Eq)]
pub enum BitTest {
    Bt,
    Bts,
    Btr,
    Btc,
}

/// A search for a one: from the lowest bit up, or from the highest down.
#[derive(Clone, Copy, PartialEq, Eq)]
pub enum BitScan {
    Bsf,
    Bsr,
}

/// A shift to the left or to the right that a second word fills.
#[derive(Clone, Copy, PartialEq, Eq)]
pub enum DoubleShift {
    Shld,
    Shrd,
}
