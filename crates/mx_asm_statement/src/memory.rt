//! Memory operands: what is between brackets.

ghost use Rattle.std.specs.Prelude.{◌≡◌, ◌∷◌};
ghost use Rattle.mx_word.specs.declared.size.Size.TheVariants as sizes;
ghost use Rattle.mx_lex.specs.declared.kinds.Punctuation.TheVariants as marks;
ghost use Rattle.mx_asm_statement.specs.declared.item.Item.TheVariants as item;
ghost use Rattle.mx_asm_statement.specs.Addresses.{scale_of_number, displacement_after, address_with_index, address_with_base, address_in_brackets};

use crate::Value;
use crate::item::Item;
use crate::value_items::value_of;
use mx_insn::{Index, Scale};
use mx_lex::Punctuation;
use mx_word::{Register, Size};

/// A place in memory: base + index * scale + value.
#[derive(Clone, Copy)]
pub struct Address {
    pub base: Option<Register>,
    pub index: Option<Index>,
    pub value: Value,
}

fn scale_of(number: u32) -> Option<Scale>
    ensures { result ≡ scale_of_number number }
{
    match number {
        1 => Some(Scale::One),
        2 => Some(Scale::Two),
        4 => Some(Scale::Four),
        8 => Some(Scale::Eight),
        _ => None,
    }
}

/// The value after a register.
fn displacement_after(items: &[Item]) -> Option<Value>
    ensures { result ≡ displacement_after items.now }
{
    match items.split_first() {
        None => Some(Value {
            name: None,
            minus: false,
            number: 0,
        }),
        Some((Item::Punctuation(Punctuation::Minus), _)) => value_of(items),
        Some((Item::Punctuation(Punctuation::Plus), rest)) => match rest.split_first() {
            Some((Item::Punctuation(Punctuation::Minus), _)) => None,
            _ => value_of(rest),
        },
        _ => None,
    }
}

fn with_index(
    base: Option<Register>,
    register: Register,
    scale: Option<Scale>,
    rest: &[Item],
) -> Option<Address>
    ensures { result ≡ address_with_index base register scale rest.now }
{
    if register == Register::Esp {
        return None;
    }
    let scale = scale?;
    let value = displacement_after(rest)?;
    Some(Address {
        base,
        index: Some(Index { register, scale }),
        value,
    })
}

fn with_base(base: Register, items: &[Item]) -> Option<Address>
    ensures { result ≡ address_with_base base items.now }
{
    let value = displacement_after(items)?;
    Some(Address {
        base: Some(base),
        index: None,
        value,
    })
}

/// The place after a base, a plus and a second register.
fn after_two(base: Register, register: Register, items: &[Item]) -> Option<Address>
    ensures { result ≡ address_in_brackets (item.Register sizes.Dword base ∷ item.Punctuation marks.Plus
        ∷ item.Register sizes.Dword register ∷ items.now) }
{
    match items.split_first() {
        Some((Item::Punctuation(Punctuation::Star), rest)) => match rest.split_first() {
            Some((Item::Number(number), rest)) => {
                with_index(Some(base), register, scale_of(*number), rest)
            }
            _ => with_index(Some(base), register, Some(Scale::One), items),
        },
        _ => with_index(Some(base), register, Some(Scale::One), items),
    }
}

/// The place after a register, which is an index if `*n` follows, else the base.
fn after_register(register: Register, items: &[Item]) -> Option<Address>
    ensures { result ≡ address_in_brackets (item.Register sizes.Dword register ∷ items.now) }
{
    match items.split_first() {
        Some((Item::Punctuation(Punctuation::Star), rest)) => match rest.split_first() {
            Some((Item::Number(number), rest)) => with_index(
                None,
                register,
                scale_of(*number),
                rest,
            ),
            _ => with_base(register, items),
        },
        Some((Item::Punctuation(Punctuation::Plus), rest)) => match rest.split_first() {
            Some((Item::Register(Size::Dword, index), rest)) => after_two(register, *index, rest),
            _ => with_base(register, items),
        },
        _ => with_base(register, items),
    }
}

/// The place in memory that the items between brackets name.
pub fn address_of(items: &[Item]) -> Option<Address>
    ensures { result ≡ address_in_brackets items.now }
{
    match items.split_first() {
        Some((Item::Register(Size::Dword, register), rest)) => after_register(*register, rest),
        _ => {
            let value = value_of(items)?;
            Some(Address {
                base: None,
                index: None,
                value,
            })
        }
    }
}
