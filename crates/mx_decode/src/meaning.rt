//! The instruction of a row and of its fields, once both are decoded. The match over the patterns is in four
//! functions: the time of a proof grows with the square of a function's local values, and one function took
//! over twice as long as the four.

ghost use Rattle.std.specs.Prelude.{◌≡◌, ◌<◌, ◌^◌, true, false, if◌then◌else◌};
ghost use Rattle.mx_word.specs.Word.{width};
ghost use Rattle.mx_insn.specs.Spelling.{arithmetic, condition, immediate_of, wide_immediate, port_size, byte_extension, to_rm, memory_of, register_of, at, shift_count, made, is_resized};
ghost use Rattle.mx_decode.specs.Given.{narrow_bound, shift_bound, parts_in, is_of_two, is_of_calculation, is_of_control};

use crate::fields::register;
use mx_insn::{
    Count, CountColumn, Extension, Immediate, Insn, Memory, Operand, OperandSize, Operands,
    Pattern, Port, PortSize, Repeat, Row, WideImmediate,
};
use mx_word::{Arithmetic, Condition, Register, Size};

/// What an instruction's bytes have besides the row: prefixes, fields and the immediate.
#[derive(Clone, Copy)]
pub struct FieldValues<'a> {
    pub operand_size: OperandSize,
    pub repeat: Option<Repeat>,
    pub number: u8,
    pub reg: u8,
    pub rm: &'a Operand,
    pub immediate: u32,
}

fn arithmetic(number: u8) -> Arithmetic
    ensures { result ≡ arithmetic number }
{
    match number {
        0 => Arithmetic::Add,
        1 => Arithmetic::Or,
        2 => Arithmetic::Adc,
        3 => Arithmetic::Sbb,
        4 => Arithmetic::And,
        5 => Arithmetic::Sub,
        6 => Arithmetic::Xor,
        _ => Arithmetic::Cmp,
    }
}

fn condition(number: u8) -> Condition
    ensures { result ≡ condition number }
{
    match number {
        0 => Condition::Overflow,
        1 => Condition::NotOverflow,
        2 => Condition::Below,
        3 => Condition::NotBelow,
        4 => Condition::Zero,
        5 => Condition::NotZero,
        6 => Condition::BelowOrEqual,
        7 => Condition::NotBelowOrEqual,
        8 => Condition::Sign,
        9 => Condition::NotSign,
        10 => Condition::Parity,
        11 => Condition::NotParity,
        12 => Condition::Less,
        13 => Condition::NotLess,
        14 => Condition::LessOrEqual,
        _ => Condition::NotLessOrEqual,
    }
}

fn immediate_of(size: Size, number: u32) -> Immediate
    requires { number < 2 ^ width size }
    ensures { result ≡ immediate_of size number }
{
    match size {
        Size::Byte => Immediate::Byte(number as u8),
        Size::Word => Immediate::Word(number as u16),
        Size::Dword => Immediate::Dword(number),
    }
}

fn wide_immediate(operand_size: OperandSize, number: u32) -> WideImmediate
    requires { number < (if is_resized operand_size then 65536 else 2 ^ 32) }
    ensures { result ≡ wide_immediate (is_resized operand_size) number }
{
    match operand_size {
        OperandSize::Word => WideImmediate::Word(number as u16),
        OperandSize::Dword => WideImmediate::Dword(number),
    }
}

fn byte_extension(operand_size: OperandSize) -> Extension
    ensures { result ≡ byte_extension (is_resized operand_size) }
{
    match operand_size {
        OperandSize::Word => Extension::ByteToWord,
        OperandSize::Dword => Extension::ByteToDword,
    }
}

fn port_size(size: Size) -> PortSize
    ensures { result ≡ port_size size }
{
    match size {
        Size::Byte => PortSize::Byte,
        Size::Word | Size::Dword => PortSize::Dword,
    }
}

fn to_rm(size: Size, to: Operand, from: Register) -> Operands
    ensures { result ≡ to_rm size to from }
{
    match to {
        Operand::Register(to) => Operands::ToRegister {
            size,
            to,
            from: Operand::Register(from),
        },
        Operand::Memory(to) => Operands::ToMemory { size, to, from },
    }
}

fn memory_of(operand: Operand) -> Memory
    ensures { result ≡ memory_of operand }
{
    match operand {
        Operand::Register(_) => at(0),
        Operand::Memory(memory) => memory,
    }
}

fn register_of(operand: Operand) -> Register
    ensures { result ≡ register_of operand }
{
    match operand {
        Operand::Register(register) => register,
        Operand::Memory(_) => Register::Eax,
    }
}

fn at(displacement: u32) -> Memory
    ensures { result ≡ at displacement }
{
    Memory {
        base: None,
        index: None,
        displacement,
    }
}

fn shift_count(column: CountColumn, immediate: u32) -> Count
    requires { immediate < shift_bound column }
    ensures { result ≡ shift_count column immediate }
{
    match column {
        CountColumn::Immediate => Count::Immediate(immediate as u8),
        CountColumn::One => Count::Immediate(1),
        CountColumn::Cl => Count::Cl,
    }
}

/// The accumulator, as an operand.
pub const ACCUMULATOR: Operand = Operand::Register(Register::Eax);

/// Puts the instruction that a row's instruction column makes into `insn`. Each pattern does so itself: so nothing is
/// copied, and no parts of different patterns are joined.
#[inline(never)]
pub fn put_insn(row: &Row, size: Size, values: &FieldValues, insn: &mut Insn)
    requires narrow { values.now.immediate
        < narrow_bound row.now.pattern size (is_resized values.now.operand_size) }
    requires number { values.now.number < 255 }
    ensures { insn.new ≡ made row.now.pattern size (parts_in values.now) }
{
    let reg = register(values.reg);
    match row.pattern {
        Pattern::ArithmeticRmReg => *insn = Insn::Arithmetic {
            operation: arithmetic(values.number),
            operands: to_rm(size, *values.rm, reg),
        },
        Pattern::ArithmeticRegRm => *insn = Insn::Arithmetic {
            operation: arithmetic(values.number),
            operands: Operands::ToRegister {
                size,
                to: reg,
                from: *values.rm,
            },
        },
        Pattern::ArithmeticAccImmediate => *insn = Insn::Arithmetic {
            operation: arithmetic(values.number),
            operands: Operands::Immediate {
                to: ACCUMULATOR,
                value: immediate_of(size, values.immediate),
            },
        },
        Pattern::ArithmeticRmImmediate => *insn = Insn::Arithmetic {
            operation: arithmetic(values.reg),
            operands: Operands::Immediate {
                to: *values.rm,
                value: immediate_of(size, values.immediate),
            },
        },
        Pattern::MoveRmReg => *insn = Insn::Move(to_rm(size, *values.rm, reg)),
        Pattern::MoveRegRm => *insn = Insn::Move(Operands::ToRegister {
            size,
            to: reg,
            from: *values.rm,
        }),
        Pattern::MoveAccAt => *insn = Insn::Move(Operands::ToRegister {
            size,
            to: Register::Eax,
            from: Operand::Memory(at(values.immediate)),
        }),
        Pattern::MoveAtAcc => *insn = Insn::Move(Operands::ToMemory {
            size,
            to: at(values.immediate),
            from: Register::Eax,
        }),
        Pattern::MoveRegImmediate => *insn = Insn::Move(Operands::Immediate {
            to: Operand::Register(register(values.number)),
            value: immediate_of(size, values.immediate),
        }),
        Pattern::MoveRmImmediate => *insn = Insn::Move(Operands::Immediate {
            to: *values.rm,
            value: immediate_of(size, values.immediate),
        }),
        Pattern::ExchangeRmReg => *insn = Insn::Exchange {
            size,
            operand: *values.rm,
            register: reg,
        },
        Pattern::ExchangeRegAcc => *insn = Insn::Exchange {
            size,
            operand: Operand::Register(register(values.number + 1)),
            register: Register::Eax,
        },
        _ => put_calculation(row, size, values, insn),
    }
}

/// Puts the instruction of a pattern that `put_insn` leaves: of TEST and LEA, of what has one operand, of
/// products and shifts; else `put_conversion`.
#[tactic(auto, using(crate::proofs::Sizes::size_again))]
fn put_calculation(row: &Row, size: Size, values: &FieldValues, insn: &mut Insn)
    requires not_of_two { is_of_two row.now.pattern ≡ false }
    requires narrow { values.now.immediate
        < narrow_bound row.now.pattern size (is_resized values.now.operand_size) }
    requires number { values.now.number < 255 }
    ensures { insn.new ≡ made row.now.pattern size (parts_in values.now) }
{
    let reg = register(values.reg);
    match row.pattern {
        Pattern::TestRmReg => *insn = Insn::Test {
            size,
            operand: *values.rm,
            register: reg,
        },
        Pattern::TestAccImmediate => *insn = Insn::TestImmediate {
            operand: ACCUMULATOR,
            value: immediate_of(size, values.immediate),
        },
        Pattern::TestRmImmediate => *insn = Insn::TestImmediate {
            operand: *values.rm,
            value: immediate_of(size, values.immediate),
        },
        Pattern::LoadAddress => *insn = Insn::LoadAddress {
            size: values.operand_size,
            to: reg,
            memory: memory_of(*values.rm),
        },
        Pattern::UnaryReg(operation) => *insn = Insn::Unary {
            operation,
            size,
            operand: Operand::Register(register(values.number)),
        },
        Pattern::UnaryRm(operation) => *insn = Insn::Unary {
            operation,
            size,
            operand: *values.rm,
        },
        Pattern::ProductRm(operation) => *insn = Insn::Product {
            operation,
            size,
            operand: *values.rm,
        },
        Pattern::MultiplyRegRm => *insn = Insn::Multiply {
            size: values.operand_size,
            to: reg,
            from: *values.rm,
        },
        Pattern::MultiplyRegRmImmediate => *insn = Insn::MultiplyImmediate {
            to: reg,
            from: *values.rm,
            by: wide_immediate(values.operand_size, values.immediate),
        },
        Pattern::ShiftRm(operation, column) => *insn = Insn::Shift {
            operation,
            size,
            operand: *values.rm,
            count: shift_count(column, values.immediate),
        },
        Pattern::DoubleShiftRmReg(operation, column) => *insn = Insn::DoubleShift {
            operation,
            operand: *values.rm,
            register: reg,
            count: shift_count(column, values.immediate),
        },
        _ => put_conversion(row, size, values, insn),
    }
}

/// Puts the instruction of a pattern that `put_calculation` leaves: of bits, of extensions, of SETcc and the
/// stack; else `put_control`.
#[tactic(auto, using(crate::proofs::Sizes::size_again))]
fn put_conversion(row: &Row, size: Size, values: &FieldValues, insn: &mut Insn)
    requires not_of_two { is_of_two row.now.pattern ≡ false }
    requires not_calculation { is_of_calculation row.now.pattern ≡ false }
    requires narrow { values.now.immediate
        < narrow_bound row.now.pattern size (is_resized values.now.operand_size) }
    requires number { values.now.number < 255 }
    ensures { insn.new ≡ made row.now.pattern size (parts_in values.now) }
{
    let reg = register(values.reg);
    match row.pattern {
        Pattern::BitTestRmImmediate(operation) => *insn = Insn::BitTest {
            operation,
            operand: *values.rm,
            number: values.immediate as u8,
        },
        Pattern::BitTestRmReg(operation) => *insn = Insn::BitTestRegister {
            operation,
            register: register_of(*values.rm),
            number: reg,
        },
        Pattern::BitScanRegRm(operation) => *insn = Insn::BitScan {
            operation,
            to: reg,
            from: *values.rm,
        },
        Pattern::ZeroExtendByte => *insn = Insn::ZeroExtend {
            extension: byte_extension(values.operand_size),
            to: reg,
            from: *values.rm,
        },
        Pattern::ZeroExtendWord => *insn = Insn::ZeroExtend {
            extension: Extension::WordToDword,
            to: reg,
            from: *values.rm,
        },
        Pattern::SignExtendByte => *insn = Insn::SignExtend {
            extension: byte_extension(values.operand_size),
            to: reg,
            from: *values.rm,
        },
        Pattern::SignExtendWord => *insn = Insn::SignExtend {
            extension: Extension::WordToDword,
            to: reg,
            from: *values.rm,
        },
        Pattern::ExtendAccumulator => *insn = Insn::ExtendAccumulator(values.operand_size),
        Pattern::SpreadSign => *insn = Insn::SpreadSign(values.operand_size),
        Pattern::SetCondition => *insn = Insn::SetCondition {
            condition: condition(values.number),
            operand: *values.rm,
        },
        Pattern::PushReg => *insn = Insn::Push(Operand::Register(register(values.number))),
        Pattern::PushRm => *insn = Insn::Push(*values.rm),
        Pattern::PushImmediate => *insn = Insn::PushImmediate(values.immediate),
        Pattern::PopReg => *insn = Insn::Pop(register(values.number)),
        _ => put_control(row, size, values, insn),
    }
}

/// Puts the instruction of a pattern of control transfer, of strings and ports, or without operands.
fn put_control(row: &Row, size: Size, values: &FieldValues, insn: &mut Insn)
    requires control { is_of_control row.now.pattern ≡ true }
    requires narrow { values.now.immediate
        < narrow_bound row.now.pattern size (is_resized values.now.operand_size) }
    requires number { values.now.number < 255 }
    ensures { insn.new ≡ made row.now.pattern size (parts_in values.now) }
{
    match row.pattern {
        Pattern::JumpIf => *insn = Insn::JumpIf {
            condition: condition(values.number),
            displacement: values.immediate,
        },
        Pattern::Jump => *insn = Insn::Jump(values.immediate),
        Pattern::JumpRm => *insn = Insn::JumpTo(*values.rm),
        Pattern::Call => *insn = Insn::Call(values.immediate),
        Pattern::CallRm => *insn = Insn::CallTo(*values.rm),
        Pattern::Loop(operation) => *insn = Insn::Loop {
            operation,
            displacement: values.immediate,
        },
        Pattern::Return => *insn = Insn::Return(values.immediate as u16),
        Pattern::Interrupt => *insn = Insn::Interrupt(values.immediate as u8),
        Pattern::Transfer(operation) => *insn = Insn::Transfer {
            operation,
            size,
            repeated: values.repeat.is_some(),
        },
        Pattern::Compare(operation) => *insn = Insn::Compare {
            operation,
            size,
            repeat: values.repeat,
        },
        Pattern::InImmediate => *insn = Insn::In {
            size: port_size(size),
            port: Port::Immediate(values.immediate as u8),
        },
        Pattern::InDx => *insn = Insn::In {
            size: port_size(size),
            port: Port::Dx,
        },
        Pattern::OutImmediate => *insn = Insn::Out {
            size: port_size(size),
            port: Port::Immediate(values.immediate as u8),
        },
        Pattern::OutDx => *insn = Insn::Out {
            size: port_size(size),
            port: Port::Dx,
        },
        Pattern::Plain(operation) => *insn = Insn::Plain(operation),
        _ => unreachable!(),
    }
}
