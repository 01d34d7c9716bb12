//! Forms with two operands of one size.

ghost use Rattle.std.specs.Prelude.{◌≡◌, ◌∷◌, []};
ghost use Rattle.mx_asm_statement.specs.declared.argument.Argument.TheVariants as arguments;
ghost use Rattle.mx_asm_statement.specs.Pairs.{pair_into_register, pair_into_memory, pair_of_immediate, operands_of};

use crate::number::{immediate_in, names_no_other, waiting};
use crate::sized_operand::{SizedOperand, memory_named, spot_beside, spot_of};
use crate::{Address, Argument, Value};
use mx_insn::{Operand, Operands};
use mx_word::{Register, Size};

/// Two operands, and the values that are still to be put into their numbers.
#[derive(Clone, Copy)]
pub struct Pair {
    pub operands: Operands,
    pub immediate: Option<Value>,
    pub displacement: Option<Value>,
}

fn from_spot(size: Size, to: Register, from: Argument) -> Option<Pair>
    ensures { result ≡ pair_into_register size to from }
{
    let spot = spot_beside(size, from)?;
    Some(Pair {
        operands: Operands::ToRegister {
            size,
            to,
            from: spot.operand,
        },
        immediate: None,
        displacement: spot.displacement,
    })
}

fn to_memory(named: Option<Size>, address: Address, size: Size, from: Register) -> Option<Pair>
    ensures { result ≡ pair_into_memory named address size from }
{
    if !names_no_other(named, size) {
        return None;
    }
    let to = memory_named(address)?;
    Some(Pair {
        operands: Operands::ToMemory { size, to, from },
        immediate: None,
        displacement: waiting(address.value),
    })
}

fn to_spot(spot: SizedOperand, value: Value) -> Option<Pair>
    ensures { result ≡ pair_of_immediate spot value }
{
    let immediate = immediate_in(spot.size, value)?;
    Some(Pair {
        operands: Operands::Immediate {
            to: spot.operand,
            value: immediate,
        },
        immediate: waiting(value),
        displacement: spot.displacement,
    })
}

fn into_register(size: Size, to: Register, second: Argument) -> Option<Pair>
    ensures { result ≡ operands_of (arguments.Register size to ∷ second ∷ []) }
{
    match second {
        Argument::Value(value) => {
            let spot = SizedOperand {
                size,
                operand: Operand::Register(to),
                displacement: None,
            };
            to_spot(spot, value)
        }
        _ => from_spot(size, to, second),
    }
}

fn into_memory(named: Option<Size>, address: Address, second: Argument) -> Option<Pair>
    ensures { result ≡ operands_of (arguments.Memory named address ∷ second ∷ []) }
{
    match second {
        Argument::Value(value) => {
            let spot = spot_of(Argument::Memory(named, address))?;
            to_spot(spot, value)
        }
        Argument::Register(size, from) => to_memory(named, address, size, from),
        Argument::Memory(_, _) => None,
    }
}

fn operands_of_two(first: Argument, second: Argument) -> Option<Pair>
    ensures { result ≡ operands_of (first ∷ second ∷ []) }
{
    match first {
        Argument::Register(size, to) => into_register(size, to, second),
        Argument::Memory(named, address) => into_memory(named, address, second),
        Argument::Value(_) => None,
    }
}

/// Two operands of one size, of which at most one is memory.
pub fn operands_of(arguments: &[Argument]) -> Option<Pair>
    ensures { result ≡ operands_of arguments.now }
{
    match arguments {
        [first, second] => operands_of_two(*first, *second),
        _ => None,
    }
}
