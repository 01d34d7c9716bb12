//! Forms of the stack, interrupts and ports.

ghost use Rattle.std.specs.Prelude.{◌≡◌, ◌∷◌, []};
ghost use Rattle.mx_asm_statement.specs.Stack.{statement_without_arguments, push, only_register, pop, return_of, interrupt, port_of, port_size_of, port_in, port_out};

use crate::{Argument, Statement, number_in, says, spot_of_size, waiting};
use mx_insn::{Insn, Port, PortSize};
use mx_word::{Register, Size};

/// The statement of an instruction that takes no arguments.
pub fn alone(insn: Insn, arguments: &[Argument]) -> Option<Statement>
    ensures { result ≡ statement_without_arguments insn arguments.now }
{
    match arguments {
        [] => says(insn, None, None),
        _ => None,
    }
}

fn push_one(first: Argument) -> Option<Statement>
    ensures { result ≡ push (first ∷ []) }
{
    match first {
        Argument::Value(value) => {
            let word = number_in(Size::Dword, value)?;
            says(Insn::PushImmediate(word), waiting(value), None)
        }
        _ => {
            let spot = spot_of_size(Size::Dword, first)?;
            says(Insn::Push(spot.operand), None, spot.displacement)
        }
    }
}

/// The statement of PUSH with its arguments.
pub fn push(arguments: &[Argument]) -> Option<Statement>
    ensures { result ≡ push arguments.now }
{
    match arguments {
        [first] => push_one(*first),
        _ => None,
    }
}

/// The register of a form that has one dword register and nothing else.
pub fn only_register(arguments: &[Argument]) -> Option<Register>
    ensures { result ≡ only_register arguments.now }
{
    match arguments {
        [Argument::Register(Size::Dword, register)] => Some(*register),
        _ => None,
    }
}

/// The statement of POP with its arguments.
pub fn pop(arguments: &[Argument]) -> Option<Statement>
    ensures { result ≡ pop arguments.now }
{
    let register = only_register(arguments)?;
    says(Insn::Pop(register), None, None)
}

fn return_one(first: Argument) -> Option<Statement>
    ensures { result ≡ return_of (first ∷ []) }
{
    match first {
        Argument::Value(value) => {
            let word = number_in(Size::Word, value)?;
            says(Insn::Return(word as u16), None, None)
        }
        _ => None,
    }
}

/// The statement of RET with its arguments.
pub fn return_of(arguments: &[Argument]) -> Option<Statement>
    ensures { result ≡ return_of arguments.now }
{
    match arguments {
        [] => says(Insn::Return(0), None, None),
        [first] => return_one(*first),
        _ => None,
    }
}

fn interrupt_one(first: Argument) -> Option<Statement>
    ensures { result ≡ interrupt (first ∷ []) }
{
    match first {
        Argument::Value(value) => {
            let word = number_in(Size::Byte, value)?;
            says(Insn::Interrupt(word as u8), None, None)
        }
        _ => None,
    }
}

/// The statement of INT with its arguments.
pub fn interrupt(arguments: &[Argument]) -> Option<Statement>
    ensures { result ≡ interrupt arguments.now }
{
    match arguments {
        [first] => interrupt_one(*first),
        _ => None,
    }
}

fn port_of(argument: Argument) -> Option<Port>
    ensures { result ≡ port_of argument }
{
    match argument {
        Argument::Register(Size::Word, Register::Edx) => Some(Port::Dx),
        Argument::Value(value) => {
            let word = number_in(Size::Byte, value)?;
            Some(Port::Immediate(word as u8))
        }
        _ => None,
    }
}

fn port_size_of(argument: Argument) -> Option<PortSize>
    ensures { result ≡ port_size_of argument }
{
    match argument {
        Argument::Register(Size::Byte, Register::Eax) => Some(PortSize::Byte),
        Argument::Register(Size::Dword, Register::Eax) => Some(PortSize::Dword),
        _ => None,
    }
}

/// The statement of IN with its arguments.
pub fn port_in(arguments: &[Argument]) -> Option<Statement>
    ensures { result ≡ port_in arguments.now }
{
    match arguments {
        [first, second] => {
            let size = port_size_of(*first)?;
            let port = port_of(*second)?;
            says(Insn::In { size, port }, None, None)
        }
        _ => None,
    }
}

/// The statement of OUT with its arguments.
pub fn port_out(arguments: &[Argument]) -> Option<Statement>
    ensures { result ≡ port_out arguments.now }
{
    match arguments {
        [first, second] => {
            let port = port_of(*first)?;
            let size = port_size_of(*second)?;
            says(Insn::Out { size, port }, None, None)
        }
        _ => None,
    }
}
