//! Separates a statement's items into arguments, at the commas.

ghost use Rattle.std.specs.Prelude.{◌≡◌, ◌∷◌, [], ◌<◌, length, MatchOption, IfSome, IfOk, Some, None};
ghost use Rattle.std.specs.List.{slice_split};
ghost use Rattle.mx_asm_statement.specs.Lists.{is_comma, arguments_of};

use crate::argument::{Argument, argument_of};
use crate::item::Item;
use mx_lex::Punctuation;
use std::alloc::{AllocError, Global};

fn is_comma(item: Item) -> bool
    ensures { result ≡ is_comma item }
{
    match item {
        Item::Punctuation(Punctuation::Comma) => true,
        _ => false,
    }
}

/// What is before the first comma, and what after it.
pub fn split_at_comma(items: &[Item]) -> Option<(&[Item], &[Item])>
    ensures parts { MatchOption result (slice_split is_comma items.now ≡ items.now ∷ []) (λ p.
        slice_split is_comma items.now ≡ p.0.now ∷ slice_split is_comma p.1.now) }
    ensures shorter { IfSome result (λ p. length p.1.now < length items.now) }
{
    let mut at = 0;
    while at < items.len() {
        if is_comma(items[at]) {
            return Some((&items[..at], &items[at + 1..]));
        }
        at += 1;
    }
    None
}

/// The arguments of a statement's items.
pub fn arguments_of(alloc: Global, items: &[Item]) -> Result<Option<Vec<Argument>>, AllocError>
    ensures { IfOk result (λ found. MatchOption found (arguments_of items.now ≡ None) (λ v.
        arguments_of items.now ≡ Some v.items)) }
{
    let mut found = Vec::new(alloc);
    if items.is_empty() {
        return Ok(Some(found));
    }
    let mut rest = items;
    while let Some((front, more)) = split_at_comma(rest) {
        match argument_of(front) {
            Some(argument) => found.push(argument)?,
            None => return Ok(None),
        }
        rest = more;
    }
    match argument_of(rest) {
        Some(argument) => found.push(argument)?,
        None => return Ok(None),
    }
    Ok(Some(found))
}
