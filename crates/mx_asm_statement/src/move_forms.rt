//! Forms of what moves values as they are, or extends them.

ghost use Rattle.std.specs.Prelude.{◌≡◌, ◌∷◌, []};
ghost use Rattle.mx_asm_statement.specs.Moves.{exchange, load_address_statement, extension_between, extension_parts, zero_extend, sign_extend};

use crate::number::waiting;
use crate::sized_operand::{memory_named, not_byte, says, spot_beside, spot_of};
use crate::{Argument, Statement, Value};
use mx_insn::{Extension, Insn, Operand};
use mx_word::{Register, Size};

fn exchange_two(first: Argument, second: Argument) -> Option<Statement>
    ensures { result ≡ exchange (first ∷ second ∷ []) }
{
    match second {
        Argument::Register(size, register) => {
            let spot = spot_beside(size, first)?;
            let insn = Insn::Exchange {
                size,
                operand: spot.operand,
                register,
            };
            says(insn, None, spot.displacement)
        }
        _ => None,
    }
}

/// The statement of XCHG with its arguments.
pub fn exchange(arguments: &[Argument]) -> Option<Statement>
    ensures { result ≡ exchange arguments.now }
{
    match arguments {
        [first, second] => exchange_two(*first, *second),
        _ => None,
    }
}

fn load_two(first: Argument, second: Argument) -> Option<Statement>
    ensures { result ≡ load_address_statement (first ∷ second ∷ []) }
{
    match (first, second) {
        (Argument::Register(size, to), Argument::Memory(None, address)) => {
            let size = not_byte(size)?;
            let memory = memory_named(address)?;
            says(
                Insn::LoadAddress { size, to, memory },
                None,
                waiting(address.value),
            )
        }
        _ => None,
    }
}

/// The statement of LEA with its arguments, which takes no size word.
pub fn load_address(arguments: &[Argument]) -> Option<Statement>
    ensures { result ≡ load_address_statement arguments.now }
{
    match arguments {
        [first, second] => load_two(*first, *second),
        _ => None,
    }
}

fn extension_of(to: Size, from: Size) -> Option<Extension>
    ensures { result ≡ extension_between to from }
{
    match (to, from) {
        (Size::Word, Size::Byte) => Some(Extension::ByteToWord),
        (Size::Dword, Size::Byte) => Some(Extension::ByteToDword),
        (Size::Dword, Size::Word) => Some(Extension::WordToDword),
        _ => None,
    }
}

/// What MOVZX or MOVSX takes into which register.
#[derive(Clone, Copy)]
pub struct ExtensionParts {
    pub extension: Extension,
    pub to: Register,
    pub from: Operand,
    pub displacement: Option<Value>,
}

fn extension_parts_of_two(first: Argument, second: Argument) -> Option<ExtensionParts>
    ensures { result ≡ extension_parts (first ∷ second ∷ []) }
{
    match first {
        Argument::Register(size, to) => {
            let spot = spot_of(second)?;
            let extension = extension_of(size, spot.size)?;
            Some(ExtensionParts {
                extension,
                to,
                from: spot.operand,
                displacement: spot.displacement,
            })
        }
        _ => None,
    }
}

fn extension_parts(arguments: &[Argument]) -> Option<ExtensionParts>
    ensures { result ≡ extension_parts arguments.now }
{
    match arguments {
        [first, second] => extension_parts_of_two(*first, *second),
        _ => None,
    }
}

/// The statement of MOVZX with its arguments.
pub fn zero_extend(arguments: &[Argument]) -> Option<Statement>
    ensures { result ≡ zero_extend arguments.now }
{
    let parts = extension_parts(arguments)?;
    let insn = Insn::ZeroExtend {
        extension: parts.extension,
        to: parts.to,
        from: parts.from,
    };
    says(insn, None, parts.displacement)
}

/// The statement of MOVSX with its arguments.
pub fn sign_extend(arguments: &[Argument]) -> Option<Statement>
    ensures { result ≡ sign_extend arguments.now }
{
    let parts = extension_parts(arguments)?;
    let insn = Insn::SignExtend {
        extension: parts.extension,
        to: parts.to,
        from: parts.from,
    };
    says(insn, None, parts.displacement)
}
