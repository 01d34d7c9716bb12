//! Finds the form of a mnemonic and its arguments: which instruction they are, if any.

ghost use Rattle.std.specs.Prelude.{◌≡◌};
ghost use Rattle.mx_asm_statement.specs.Statements.{arithmetic_statement, move_statement, statement_for_single, statement_for, statement_after_prefix};

use crate::bits::{bit_scan, bit_test, double_shift};
use crate::operations::{product, set_condition, shift, test, unary};
use crate::stack::{alone, interrupt, pop, port_in, port_out, push, return_of};
use crate::{
    Argument, JumpLength, Statement, call, exchange, jump, jump_if, load_address, looping,
    operands_of, says, sign_extend, zero_extend,
};
use mx_insn::{Insn, OperandSize, Repeat};
use mx_insn_words::{Mnemonic, Prefix, Single};
use mx_word::Arithmetic;

fn arithmetic(operation: Arithmetic, arguments: &[Argument]) -> Option<Statement>
    ensures { result ≡ arithmetic_statement operation arguments.now }
{
    let pair = operands_of(arguments)?;
    let insn = Insn::Arithmetic {
        operation,
        operands: pair.operands,
    };
    says(insn, pair.immediate, pair.displacement)
}

fn mov(arguments: &[Argument]) -> Option<Statement>
    ensures { result ≡ move_statement arguments.now }
{
    let pair = operands_of(arguments)?;
    says(Insn::Move(pair.operands), pair.immediate, pair.displacement)
}

fn statement_for_single(
    length: JumpLength,
    single: Single,
    arguments: &[Argument],
) -> Option<Statement>
    ensures { result ≡ statement_for_single length single arguments.now }
{
    match single {
        Single::Mov => mov(arguments),
        Single::Test => test(arguments),
        Single::Xchg => exchange(arguments),
        Single::Lea => load_address(arguments),
        Single::Movzx => zero_extend(arguments),
        Single::Movsx => sign_extend(arguments),
        Single::Push => push(arguments),
        Single::Pop => pop(arguments),
        Single::Jmp => jump(length, arguments),
        Single::Call => call(arguments),
        Single::Ret => return_of(arguments),
        Single::Int => interrupt(arguments),
        Single::Cbw => alone(Insn::ExtendAccumulator(OperandSize::Word), arguments),
        Single::Cwde => alone(Insn::ExtendAccumulator(OperandSize::Dword), arguments),
        Single::Cwd => alone(Insn::SpreadSign(OperandSize::Word), arguments),
        Single::Cdq => alone(Insn::SpreadSign(OperandSize::Dword), arguments),
        Single::In => port_in(arguments),
        Single::Out => port_out(arguments),
    }
}

/// The statement that a mnemonic and its arguments are. The length is that of JMP or Jcc.
pub fn statement_for(
    length: JumpLength,
    mnemonic: Mnemonic,
    arguments: &[Argument],
) -> Option<Statement>
    ensures { result ≡ statement_for length mnemonic arguments.now }
{
    match mnemonic {
        Mnemonic::Arithmetic(operation) => arithmetic(operation, arguments),
        Mnemonic::Unary(operation) => unary(operation, arguments),
        Mnemonic::Product(operation) => product(operation, arguments),
        Mnemonic::Shift(operation) => shift(operation, arguments),
        Mnemonic::DoubleShift(operation) => double_shift(operation, arguments),
        Mnemonic::BitTest(operation) => bit_test(operation, arguments),
        Mnemonic::BitScan(operation) => bit_scan(operation, arguments),
        Mnemonic::Loop(operation) => looping(operation, arguments),
        Mnemonic::Plain(plain) => alone(Insn::Plain(plain), arguments),
        Mnemonic::Single(single) => statement_for_single(length, single, arguments),
        Mnemonic::JumpIf(condition) => jump_if(length, condition, arguments),
        Mnemonic::SetCondition(condition) => set_condition(condition, arguments),
        Mnemonic::Transfer(operation, size) => alone(
            Insn::Transfer {
                operation,
                size,
                repeated: false,
            },
            arguments,
        ),
        Mnemonic::Compare(operation, size) => alone(
            Insn::Compare {
                operation,
                size,
                repeat: None,
            },
            arguments,
        ),
    }
}

/// The statement of a string instruction after `rep`, `repe` or `repne`, which has no arguments.
pub fn statement_after_prefix(prefix: Prefix, mnemonic: Mnemonic) -> Option<Statement>
    ensures { result ≡ statement_after_prefix prefix mnemonic }
{
    match (prefix, mnemonic) {
        (Prefix::Rep, Mnemonic::Transfer(operation, size)) => says(
            Insn::Transfer {
                operation,
                size,
                repeated: true,
            },
            None,
            None,
        ),
        (Prefix::Repe, Mnemonic::Compare(operation, size)) => says(
            Insn::Compare {
                operation,
                size,
                repeat: Some(Repeat::Repe),
            },
            None,
            None,
        ),
        (Prefix::Repne, Mnemonic::Compare(operation, size)) => says(
            Insn::Compare {
                operation,
                size,
                repeat: Some(Repeat::Repne),
            },
            None,
            None,
        ),
        _ => None,
    }
}
