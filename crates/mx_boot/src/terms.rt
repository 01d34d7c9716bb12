//! The terms of a service: what its line in a configuration has after the file.

ghost use Rattle.std.specs.Prelude.{◌≡◌, ◌≤◌, Some, None, MatchOption, IfSome};
ghost use Rattle.mx_text.specs.Fields.{fields};
ghost use Rattle.mx_boot.specs.Terms.{number_between, mask, key_with_value, read_as, masks_of, rest_of, term_words_of, AreWithin};

use crate::service::TermWords;
use mx_proc::Masks;
use mx_text::{next_field, number_up_to};

/// The number that decimal digits spell, from the least to the most that is allowed.
pub fn number_between(word: &[u8], least: u32, most: u32) -> Option<u32>
    ensures value { result ≡ number_between least most word.now }
    ensures most { IfSome result (λ n. n ≤ most) }
    ensures least { IfSome result (λ n. least ≤ n) }
{
    let number = number_up_to(word, 10, most)?;
    if number < least { None } else { Some(number) }
}

/// The mask that 1 to 8 hexadecimal digits spell.
pub fn mask(word: &[u8]) -> Option<u32>
    ensures { result ≡ mask word.now }
{
    if word.len() > 8 {
        None
    } else {
        number_up_to(word, 16, u32::MAX)
    }
}

/// What follows a key that is the line's first field, and the line after that.
fn value_of<'a>(line: &'a [u8], key: &[u8]) -> Option<(&'a [u8], &'a [u8])>
    ensures { MatchOption result (key_with_value key.now (fields line.now) ≡ None) (λ p.
        key_with_value key.now (fields line.now) ≡ Some (p.0.now, fields p.1.now)) }
{
    let (word, rest) = next_field(line)?;
    let (value, rest) = next_field(rest)?;
    if word == key {
        Some((value, rest))
    } else {
        None
    }
}

/// The mask after a key, and the line after it.
fn mask_at<'a>(line: &'a [u8], key: &[u8]) -> Option<(u32, &'a [u8])>
    ensures { MatchOption result (read_as mask key.now (fields line.now) ≡ None) (λ p.
        read_as mask key.now (fields line.now) ≡ Some (p.0, fields p.1.now)) }
{
    let (value, rest) = value_of(line, key)?;
    let mask = mask(value)?;
    Some((mask, rest))
}

/// The number after a key, and the line after it.
fn number_at<'a>(line: &'a [u8], key: &[u8], least: u32, most: u32) -> Option<(u32, &'a [u8])>
    ensures value { MatchOption result (read_as (number_between least most) key.now
        (fields line.now) ≡ None) (λ p.
        read_as (number_between least most) key.now (fields line.now)
        ≡ Some (p.0, fields p.1.now)) }
    ensures most { IfSome result (λ p. p.0 ≤ most) }
    ensures least { IfSome result (λ p. least ≤ p.0) }
{
    let (value, rest) = value_of(line, key)?;
    let number = number_between(value, least, most)?;
    Some((number, rest))
}

/// `traps T send S calls C`, and the line after it.
#[tactic(auto, unfolding(crate::specs::Terms::masks_of))]
fn masks_of(line: &[u8]) -> Option<(Masks, &[u8])>
    ensures { MatchOption result (masks_of (fields line.now) ≡ None) (λ p.
        masks_of (fields line.now) ≡ Some (p.0, fields p.1.now)) }
{
    let (traps, rest) = mask_at(line, b"traps")?;
    let (sends, rest) = mask_at(rest, b"send")?;
    let (calls, rest) = mask_at(rest, b"calls")?;
    let masks = Masks {
        traps,
        sends,
        calls,
    };
    Some((masks, rest))
}

/// `level L best B quantum Q restarts R`.
#[tactic(auto, unfolding(crate::specs::Terms::rest_of))]
fn rest_of(masks: Masks, line: &[u8]) -> Option<TermWords>
    ensures value { result ≡ rest_of masks (fields line.now) }
    ensures within { IfSome result AreWithin }
{
    let (level, rest) = number_at(line, b"level", 0, 14)?;
    let (best, rest) = number_at(rest, b"best", 0, level)?;
    let (quantum, rest) = number_at(rest, b"quantum", 1, 65535)?;
    let (restarts, rest) = number_at(rest, b"restarts", 0, 1_048_575)?;
    match next_field(rest) {
        Some(_) => None,
        None => Some(TermWords {
            masks,
            level: level as u8,
            best: best as u8,
            quantum,
            restarts,
        }),
    }
}

/// The terms in the fields after a service's file: masks, levels, quantum, restarts.
pub fn term_words_of(line: &[u8]) -> Option<TermWords>
    ensures value { result ≡ term_words_of (fields line.now) }
    ensures within { IfSome result AreWithin }
{
    let (masks, rest) = masks_of(line)?;
    rest_of(masks, rest)
}
