//! An instruction as it is printed: its mnemonic and its operands.

ghost use Rattle.std.specs.Prelude.{◌≡◌, [], ◌∷◌};
ghost use Rattle.mx_insn.specs.Sizes.{size_of_operands};
ghost use Rattle.mx_insn_words.specs.Instructions.{mnemonic_of, extend_mnemonic, spread_mnemonic, written_operand, written_pair, written_product, written_count, written_extension, written_accumulator, written_port, written_target, written_return, written_operands};
ghost use Rattle.mx_insn_words.specs.Listed.{written_list};

use crate::mnemonic::{Mnemonic, Single};
use WrittenOperands::{Nothing, One, Three, Two};
use mx_insn::{
    Count, Extension, Immediate, Insn, Memory, Operand, OperandSize, Operands, Port, PortSize,
    Product, WideImmediate,
};
use mx_word::{Register, Size};

/// An operand as it is written.
#[derive(Clone, Copy)]
pub enum Written {
    Register(Size, Register),
    Memory(Size, Memory),
    /// A place in memory of which only the address counts.
    Address(Memory),
    Number(u32),
}

/// The operands of one instruction, the destination first.
#[derive(Clone, Copy)]
pub enum WrittenOperands {
    Nothing,
    One(Written),
    Two(Written, Written),
    Three(Written, Written, Written),
}

/// CBW or CWDE.
fn extend(size: OperandSize) -> Mnemonic
    ensures { result ≡ extend_mnemonic size }
{
    match size {
        OperandSize::Word => Mnemonic::Single(Single::Cbw),
        OperandSize::Dword => Mnemonic::Single(Single::Cwde),
    }
}

/// CWD or CDQ.
fn spread_sign(size: OperandSize) -> Mnemonic
    ensures { result ≡ spread_mnemonic size }
{
    match size {
        OperandSize::Word => Mnemonic::Single(Single::Cwd),
        OperandSize::Dword => Mnemonic::Single(Single::Cdq),
    }
}

/// What an instruction is called.
pub fn mnemonic(insn: &Insn) -> Mnemonic
    ensures { result ≡ mnemonic_of insn.now }
{
    match *insn {
        Insn::Arithmetic { operation, .. } => Mnemonic::Arithmetic(operation),
        Insn::Move(_) => Mnemonic::Single(Single::Mov),
        Insn::Test { .. } | Insn::TestImmediate { .. } => Mnemonic::Single(Single::Test),
        Insn::Exchange { .. } => Mnemonic::Single(Single::Xchg),
        Insn::LoadAddress { .. } => Mnemonic::Single(Single::Lea),
        Insn::Unary { operation, .. } => Mnemonic::Unary(operation),
        Insn::Product { operation, .. } => Mnemonic::Product(operation),
        Insn::Multiply { .. } | Insn::MultiplyImmediate { .. } => Mnemonic::Product(Product::Imul),
        Insn::Shift { operation, .. } => Mnemonic::Shift(operation),
        Insn::DoubleShift { operation, .. } => Mnemonic::DoubleShift(operation),
        Insn::BitTest { operation, .. } | Insn::BitTestRegister { operation, .. } => {
            Mnemonic::BitTest(operation)
        }
        Insn::BitScan { operation, .. } => Mnemonic::BitScan(operation),
        Insn::ZeroExtend { .. } => Mnemonic::Single(Single::Movzx),
        Insn::SignExtend { .. } => Mnemonic::Single(Single::Movsx),
        Insn::SetCondition { condition, .. } => Mnemonic::SetCondition(condition),
        Insn::Push(_) | Insn::PushImmediate(_) => Mnemonic::Single(Single::Push),
        Insn::Pop(_) => Mnemonic::Single(Single::Pop),
        Insn::JumpIf { condition, .. } => Mnemonic::JumpIf(condition),
        Insn::Jump(_) | Insn::JumpTo(_) => Mnemonic::Single(Single::Jmp),
        Insn::Call(_) | Insn::CallTo(_) => Mnemonic::Single(Single::Call),
        Insn::Loop { operation, .. } => Mnemonic::Loop(operation),
        Insn::Return(_) => Mnemonic::Single(Single::Ret),
        Insn::Interrupt(_) => Mnemonic::Single(Single::Int),
        Insn::ExtendAccumulator(size) => extend(size),
        Insn::SpreadSign(size) => spread_sign(size),
        Insn::Transfer {
            operation,
            size,
            ..
        } => Mnemonic::Transfer(operation, size),
        Insn::Compare {
            operation,
            size,
            ..
        } => Mnemonic::Compare(operation, size),
        Insn::In { .. } => Mnemonic::Single(Single::In),
        Insn::Out { .. } => Mnemonic::Single(Single::Out),
        Insn::Plain(operation) => Mnemonic::Plain(operation),
    }
}

fn of_operand(size: Size, operand: Operand) -> Written
    ensures { result ≡ written_operand size operand }
{
    match operand {
        Operand::Register(register) => Written::Register(size, register),
        Operand::Memory(memory) => Written::Memory(size, memory),
    }
}

fn with_immediate(to: Operand, value: Immediate) -> WrittenOperands
    ensures { written_list result ≡ written_pair (Operands.Immediate to value) }
{
    Two(of_operand(value.size(), to), Written::Number(value.value()))
}

fn of_operands(operands: Operands) -> WrittenOperands
    ensures { written_list result ≡ written_pair operands }
{
    match operands {
        Operands::ToRegister { size, to, from } => Two(
            Written::Register(size, to),
            of_operand(size, from),
        ),
        Operands::ToMemory { size, to, from } => Two(
            Written::Memory(size, to),
            Written::Register(size, from),
        ),
        Operands::Immediate { to, value } => with_immediate(to, value),
    }
}

/// Of an IMUL with three operands.
fn of_product(to: Register, from: Operand, by: WideImmediate) -> WrittenOperands
    ensures { written_list result ≡ written_product to from by }
{
    Three(
        Written::Register(by.size(), to),
        of_operand(by.size(), from),
        Written::Number(by.value()),
    )
}

fn of_count(count: Count) -> Written
    ensures { result ≡ written_count count }
{
    match count {
        Count::Cl => Written::Register(Size::Byte, Register::Ecx),
        Count::Immediate(count) => Written::Number(u32::from(count)),
    }
}

/// Of MOVZX and MOVSX.
fn of_extension(extension: Extension, to: Register, from: Operand) -> WrittenOperands
    ensures { written_list result ≡ written_extension extension to from }
{
    let (to_size, from_size) = match extension {
        Extension::ByteToWord => (Size::Word, Size::Byte),
        Extension::ByteToDword => (Size::Dword, Size::Byte),
        Extension::WordToDword => (Size::Dword, Size::Word),
    };
    Two(Written::Register(to_size, to), of_operand(from_size, from))
}

/// AL or EAX.
fn of_accumulator(size: PortSize) -> Written
    ensures { result ≡ written_accumulator size }
{
    match size {
        PortSize::Byte => Written::Register(Size::Byte, Register::Eax),
        PortSize::Dword => Written::Register(Size::Dword, Register::Eax),
    }
}

fn of_port(port: Port) -> Written
    ensures { result ≡ written_port port }
{
    match port {
        Port::Dx => Written::Register(Size::Word, Register::Edx),
        Port::Immediate(port) => Written::Number(u32::from(port)),
    }
}

/// Of a jump, a call or a loop: the address that it names.
fn of_target(next: u32, displacement: u32) -> WrittenOperands
    ensures { written_list result ≡ written_target next displacement ∷ [] }
{
    One(Written::Number(next.wrapping_add(displacement)))
}

/// Of RET.
fn of_return(count: u16) -> WrittenOperands
    ensures { written_list result ≡ written_return count }
{
    match count {
        0 => Nothing,
        _ => One(Written::Number(u32::from(count))),
    }
}

/// An operand and a register of its size.
fn with_register(size: Size, operand: Operand, register: Register) -> WrittenOperands
    ensures { written_list result ≡ written_operand size operand ∷ Written.Register size register
        ∷ [] }
{
    Two(of_operand(size, operand), Written::Register(size, register))
}

/// A register of a size, and an operand of its size.
fn to_register(size: Size, to: Register, from: Operand) -> WrittenOperands
    ensures { written_list result ≡ Written.Register size to ∷ written_operand size from ∷ [] }
{
    Two(Written::Register(size, to), of_operand(size, from))
}

/// Of LEA.
fn of_address(size: OperandSize, to: Register, memory: Memory) -> WrittenOperands
    ensures { written_list result ≡ Written.Register (size_of_operands size) to
        ∷ Written.Address memory ∷ [] }
{
    Two(Written::Register(size.size(), to), Written::Address(memory))
}

/// Of a rotate or a shift.
fn of_shift(size: Size, operand: Operand, count: Count) -> WrittenOperands
    ensures { written_list result ≡ written_operand size operand ∷ written_count count ∷ [] }
{
    Two(of_operand(size, operand), of_count(count))
}

/// Of SHLD or SHRD.
fn of_double_shift(operand: Operand, register: Register, count: Count) -> WrittenOperands
    ensures { written_list result ≡ written_operand Size.Dword operand
        ∷ Written.Register Size.Dword register ∷ written_count count ∷ [] }
{
    Three(
        of_operand(Size::Dword, operand),
        Written::Register(Size::Dword, register),
        of_count(count),
    )
}

/// Of a bit test with a number in the instruction.
fn of_bit(operand: Operand, number: u8) -> WrittenOperands
    ensures { written_list result ≡ written_operand Size.Dword operand ∷ Written.Number number
        ∷ [] }
{
    Two(
        of_operand(Size::Dword, operand),
        Written::Number(u32::from(number)),
    )
}

/// The operands of an instruction, by the address of the next one.
pub fn of_insn(insn: &Insn, next: u32) -> WrittenOperands
    ensures { written_list result ≡ written_operands next insn.now }
{
    match *insn {
        Insn::Arithmetic { operands, .. } | Insn::Move(operands) => of_operands(operands),
        Insn::Test {
            size,
            operand,
            register,
        }
        | Insn::Exchange {
            size,
            operand,
            register,
        } => with_register(size, operand, register),
        Insn::TestImmediate { operand, value } => with_immediate(operand, value),
        Insn::LoadAddress { size, to, memory } => of_address(size, to, memory),
        Insn::Unary { size, operand, .. } | Insn::Product { size, operand, .. } => {
            One(of_operand(size, operand))
        }
        Insn::Multiply { size, to, from } => to_register(size.size(), to, from),
        Insn::MultiplyImmediate { to, from, by } => of_product(to, from, by),
        Insn::Shift {
            size,
            operand,
            count,
            ..
        } => of_shift(size, operand, count),
        Insn::DoubleShift {
            operand,
            register,
            count,
            ..
        } => of_double_shift(operand, register, count),
        Insn::BitTest {
            operand,
            number,
            ..
        } => of_bit(operand, number),
        Insn::BitTestRegister {
            register,
            number,
            ..
        } => to_register(Size::Dword, register, Operand::Register(number)),
        Insn::BitScan { to, from, .. } => to_register(Size::Dword, to, from),
        Insn::ZeroExtend {
            extension,
            to,
            from,
        }
        | Insn::SignExtend {
            extension,
            to,
            from,
        } => of_extension(extension, to, from),
        Insn::SetCondition { operand, .. } => One(of_operand(Size::Byte, operand)),
        Insn::Push(operand) | Insn::JumpTo(operand) | Insn::CallTo(operand) => {
            One(of_operand(Size::Dword, operand))
        }
        Insn::PushImmediate(value) => One(Written::Number(value)),
        Insn::Pop(register) => One(Written::Register(Size::Dword, register)),
        Insn::JumpIf { displacement, .. }
        | Insn::Jump(displacement)
        | Insn::Call(displacement)
        | Insn::Loop { displacement, .. } => of_target(next, displacement),
        Insn::Return(count) => of_return(count),
        Insn::Interrupt(vector) => One(Written::Number(u32::from(vector))),
        Insn::ExtendAccumulator(_) | Insn::SpreadSign(_) => Nothing,
        Insn::Transfer { .. } | Insn::Compare { .. } | Insn::Plain(_) => Nothing,
        Insn::In { size, port } => Two(of_accumulator(size), of_port(port)),
        Insn::Out { size, port } => Two(of_port(port), of_accumulator(size)),
    }
}
