//! Operands as arguments: a register, a value, or memory in brackets.

ghost use Rattle.std.specs.Prelude.{◌≡◌, MatchOption, Some, None};
ghost use Rattle.mx_asm_statement.specs.Arguments.{is_close, before_close, argument_in_brackets, argument_of};

use crate::Value;
use crate::item::Item;
use crate::memory::{Address, address_of};
use crate::value_items::value_of;
use mx_lex::Punctuation;
use mx_word::{Register, Size};

/// What an operand is in a text: a register, a value, or a place in memory with its size word or
/// without.
#[derive(Clone, Copy)]
pub enum Argument {
    Register(Size, Register),
    Value(Value),
    Memory(Option<Size>, Address),
}

fn is_close(item: Item) -> bool
    ensures { result ≡ is_close item }
{
    match item {
        Item::Punctuation(Punctuation::Close) => true,
        _ => false,
    }
}

/// What is before the closing bracket, if the last item is one.
#[tactic(auto, using(crate::proofs::Closing::before_close_last))]
fn before_close(items: &[Item]) -> Option<&[Item]>
    ensures { MatchOption result (before_close items.now ≡ None) (λ r. before_close items.now
        ≡ Some r.now) }
{
    match items.split_last() {
        None => None,
        Some((last, rest)) => { if is_close(*last) { Some(rest) } else { None } }
    }
}

fn in_brackets(size: Option<Size>, items: &[Item]) -> Option<Argument>
    ensures { result ≡ argument_in_brackets size items.now }
{
    let inside = before_close(items)?;
    let address = address_of(inside)?;
    Some(Argument::Memory(size, address))
}

/// The argument of an operand's items.
pub fn argument_of(items: &[Item]) -> Option<Argument>
    ensures { result ≡ argument_of items.now }
{
    match items.split_first() {
        Some((Item::Register(size, register), rest)) => {
            if rest.is_empty() {
                Some(Argument::Register(*size, *register))
            } else {
                None
            }
        }
        Some((Item::Punctuation(Punctuation::Open), rest)) => in_brackets(None, rest),
        Some((Item::Size(size), rest)) => match rest.split_first() {
            Some((Item::Punctuation(Punctuation::Open), rest)) => in_brackets(Some(*size), rest),
            _ => None,
        },
        _ => {
            let value = value_of(items)?;
            Some(Argument::Value(value))
        }
    }
}
