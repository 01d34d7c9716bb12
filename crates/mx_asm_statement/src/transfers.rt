//! Forms of jumps, calls and loops.

ghost use Rattle.std.specs.Prelude.{◌≡◌, ◌∷◌, []};
ghost use Rattle.mx_asm_statement.specs.Transfers.{jump, jump_if_statement, call, loop_statement};

use crate::sized_operand::{goes, says, spot_of_size};
use crate::{Argument, Branch, JumpLength, Statement};
use mx_insn::{Insn, Loop};
use mx_word::{Condition, Size};

fn jump_one(length: JumpLength, first: Argument) -> Option<Statement>
    ensures { result ≡ jump length (first ∷ []) }
{
    match (length, first) {
        (_, Argument::Value(target)) => goes(Branch::Jump { length }, target),
        (JumpLength::Short, _) => None,
        (JumpLength::Long, _) => {
            let spot = spot_of_size(Size::Dword, first)?;
            says(Insn::JumpTo(spot.operand), None, spot.displacement)
        }
    }
}

/// The statement of JMP with its arguments.
pub fn jump(length: JumpLength, arguments: &[Argument]) -> Option<Statement>
    ensures { result ≡ jump length arguments.now }
{
    match arguments {
        [first] => jump_one(length, *first),
        _ => None,
    }
}

/// The statement of Jcc with its arguments.
pub fn jump_if(
    length: JumpLength,
    condition: Condition,
    arguments: &[Argument],
) -> Option<Statement>
    ensures { result ≡ jump_if_statement length condition arguments.now }
{
    match arguments {
        [Argument::Value(target)] => goes(Branch::JumpIf { condition, length }, *target),
        _ => None,
    }
}

fn call_one(first: Argument) -> Option<Statement>
    ensures { result ≡ call (first ∷ []) }
{
    match first {
        Argument::Value(target) => goes(Branch::Call, target),
        _ => {
            let spot = spot_of_size(Size::Dword, first)?;
            says(Insn::CallTo(spot.operand), None, spot.displacement)
        }
    }
}

/// The statement of CALL with its arguments.
pub fn call(arguments: &[Argument]) -> Option<Statement>
    ensures { result ≡ call arguments.now }
{
    match arguments {
        [first] => call_one(*first),
        _ => None,
    }
}

/// The statement of LOOPNE, LOOPE, LOOP or JECXZ with its arguments.
pub fn looping(operation: Loop, arguments: &[Argument]) -> Option<Statement>
    ensures { result ≡ loop_statement operation arguments.now }
{
    match arguments {
        [Argument::Value(target)] => goes(Branch::Loop(operation), *target),
        _ => None,
    }
}
