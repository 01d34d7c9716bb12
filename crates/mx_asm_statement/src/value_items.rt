//! Reads values from items: `n`, `-n`, `name`, `name+n`, `name-n`.

ghost use Rattle.std.specs.Prelude.{◌≡◌, ◌∷◌, []};
ghost use Rattle.mx_asm_statement.specs.ValueItems.{value_in_items};

use crate::Value;
use crate::item::Item;
use mx_lex::Punctuation;

fn value_of_one(item: Item) -> Option<Value>
    ensures { result ≡ value_in_items (item ∷ []) }
{
    match item {
        Item::Number(number) => Some(Value {
            name: None,
            minus: false,
            number,
        }),
        Item::Name(name) => Some(Value {
            name: Some(name),
            minus: false,
            number: 0,
        }),
        _ => None,
    }
}

fn value_of_two(first: Item, second: Item) -> Option<Value>
    ensures { result ≡ value_in_items (first ∷ second ∷ []) }
{
    match (first, second) {
        (Item::Punctuation(Punctuation::Minus), Item::Number(number)) => Some(Value {
            name: None,
            minus: true,
            number,
        }),
        _ => None,
    }
}

fn value_of_three(first: Item, second: Item, third: Item) -> Option<Value>
    ensures { result ≡ value_in_items (first ∷ second ∷ third ∷ []) }
{
    match (first, second, third) {
        (Item::Name(name), Item::Punctuation(Punctuation::Plus), Item::Number(number)) => Some(
            Value {
                name: Some(name),
                minus: false,
                number,
            },
        ),
        (Item::Name(name), Item::Punctuation(Punctuation::Minus), Item::Number(number)) => Some(
            Value {
                name: Some(name),
                minus: true,
                number,
            },
        ),
        _ => None,
    }
}

/// The value of an operand's items.
pub fn value_of(items: &[Item]) -> Option<Value>
    ensures { result ≡ value_in_items items.now }
{
    match items {
        [first] => value_of_one(*first),
        [first, second] => value_of_two(*first, *second),
        [first, second, third] => value_of_three(*first, *second, *third),
        _ => None,
    }
}
