//! The first place of a configuration's line where another word is wanted.

ghost use Rattle.std.specs.Prelude.{◌≡◌, Err, Ok, Some, MatchResult};
ghost use Rattle.mx_text.specs.Fields.{fields};
ghost use Rattle.mx_app_explain.specs.ConfigFaults.{after_file, after_key, after_levels, after_mask, after_masks, after_name, after_number, after_service, end_fault, fault_after, fault_in, fault_of_other, is_misfit, is_traps, number_at, word_at};
ghost use Rattle.mx_app_explain.specs.declared.config_field.Field.TheVariants.{ItemEnd, ServiceEnd};

use crate::config_field::{Field, Key};
use crate::found_word::byte_at;
use crate::text_words::is_reserved;
use mx_boot::{has_stray, mask, number_between};
use mx_text::{name_of, next_field};
use std::str;

/// The first word of a line, and what is after it; the line's end is a fault at this place.
fn word_at(line: &[u8], place: Field) -> Result<(&[u8], &[u8]), Field>
    ensures { MatchResult result (λ p. word_at place (fields line.now)
        ≡ Ok (p.0.now, fields p.1.now)) (λ e. word_at place (fields line.now) ≡ Err e) }
{
    match next_field(line) {
        Some(parts) => Ok(parts),
        None => Err(place),
    }
}

/// What is after a key.
fn after_key(line: &[u8], key: Key) -> Result<&[u8], Field>
    ensures { MatchResult result (λ rest. after_key key (fields line.now) ≡ Ok (fields rest.now))
        (λ e. after_key key (fields line.now) ≡ Err e) }
{
    let place = Field::Key(key);
    let (word, rest) = word_at(line, place)?;
    if word == key.word().as_bytes() {
        Ok(rest)
    } else {
        Err(place)
    }
}

/// What is after a key and its mask.
fn after_mask(line: &[u8], key: Key) -> Result<&[u8], Field>
    ensures { MatchResult result (λ rest. after_mask key (fields line.now) ≡ Ok (fields rest.now))
        (λ e. after_mask key (fields line.now) ≡ Err e) }
{
    let place = Field::Value(key);
    let (word, rest) = word_at(after_key(line, key)?, place)?;
    if mask(word).is_some() {
        Ok(rest)
    } else {
        Err(place)
    }
}

/// The number at a place, and what is after it.
fn number_at(line: &[u8], place: Field, least: u32, most: u32) -> Result<(u32, &[u8]), Field>
    ensures { MatchResult result (λ p. number_at place least most (fields line.now)
        ≡ Ok (p.0, fields p.1.now)) (λ e. number_at place least most (fields line.now) ≡ Err e) }
{
    let (word, rest) = word_at(line, place)?;
    match number_between(word, least, most) {
        Some(number) => Ok((number, rest)),
        None => Err(place),
    }
}

/// The number after a key, and what is after it.
fn after_number(line: &[u8], key: Key, least: u32, most: u32) -> Result<(u32, &[u8]), Field>
    ensures { MatchResult result (λ p. after_number key least most (fields line.now)
        ≡ Ok (p.0, fields p.1.now)) (λ e. after_number key least most (fields line.now) ≡ Err e) }
{
    let rest = after_key(line, key)?;
    number_at(rest, Field::Value(key), least, most)
}

/// What is after a service's name.
#[tactic(auto, unfolding(crate::specs::ConfigFaults::after_name))]
fn after_name(line: &[u8]) -> Result<&[u8], Field>
    ensures { MatchResult result (λ rest. after_name (fields line.now) ≡ Ok (fields rest.now))
        (λ e. after_name (fields line.now) ≡ Err e) }
{
    let (name, rest) = word_at(line, Field::Name)?;
    if name_of(name).is_none() || is_reserved(name) {
        return Err(Field::Name);
    }
    Ok(rest)
}

/// Whether the first word of what follows is the one that stands after a file's name.
fn is_traps(rest: &[u8]) -> bool
    ensures { result ≡ is_traps (fields rest.now) }
{
    match next_field(rest) {
        Some((word, _)) => word == Key::Traps.word().as_bytes(),
        None => false,
    }
}

/// Whether a word is no file's name, by what follows it: the next key, or the first word in quotes.
fn is_misfit(file: &[u8], rest: &[u8]) -> bool
    ensures { result ≡ is_misfit file.now (fields rest.now) }
{
    (file == Key::Traps.word().as_bytes() || byte_at(file, 0) == b'"') && !is_traps(rest)
}

/// What is after a service's name and file.
#[tactic(auto, unfolding(crate::specs::ConfigFaults::after_file), using(crate::proofs::Printed::printed, crate::proofs::Printed::unprinted))]
fn after_file(line: &[u8]) -> Result<&[u8], Field>
    ensures { MatchResult result (λ rest. after_file (fields line.now) ≡ Ok (fields rest.now))
        (λ e. after_file (fields line.now) ≡ Err e) }
{
    let rest = after_name(line)?;
    let (file, rest) = word_at(rest, Field::File)?;
    if has_stray(file) || (str::from_utf8(file).is_err() || is_misfit(file, rest)) {
        return Err(Field::File);
    }
    Ok(rest)
}

/// What is after a service's three masks.
#[tactic(auto, unfolding(crate::specs::ConfigFaults::after_masks))]
fn after_masks(line: &[u8]) -> Result<&[u8], Field>
    ensures { MatchResult result (λ rest. after_masks (fields line.now) ≡ Ok (fields rest.now))
        (λ e. after_masks (fields line.now) ≡ Err e) }
{
    let rest = after_mask(line, Key::Traps)?;
    let rest = after_mask(rest, Key::Send)?;
    after_mask(rest, Key::Calls)
}

/// The number of restarts, and what is after it.
#[tactic(auto, unfolding(crate::specs::ConfigFaults::after_levels))]
fn after_levels(line: &[u8]) -> Result<(u32, &[u8]), Field>
    ensures { MatchResult result (λ p. after_levels (fields line.now) ≡ Ok (p.0, fields p.1.now))
        (λ e. after_levels (fields line.now) ≡ Err e) }
{
    let (level, rest) = after_number(line, Key::Level, 0, 14)?;
    let (_, rest) = after_number(rest, Key::Best, 0, level)?;
    let (_, rest) = after_number(rest, Key::Quantum, 1, 65_535)?;
    after_number(rest, Key::Restarts, 0, 1_048_575)
}

/// The number of restarts, and what is after all that a service's line has.
#[tactic(auto, unfolding(crate::specs::ConfigFaults::after_service))]
fn after_service(line: &[u8]) -> Result<(u32, &[u8]), Field>
    ensures { MatchResult result (λ p. after_service (fields line.now) ≡ Ok (p.0, fields p.1.now))
        (λ e. after_service (fields line.now) ≡ Err e) }
{
    let rest = after_file(line)?;
    let rest = after_masks(rest)?;
    after_levels(rest)
}

/// The fault of a line of which so much was read: at the end, if a word is left.
fn fault_after(read: Result<(u32, &[u8]), Field>, end: Field) -> Option<Field>
    ensures { MatchResult read.entry (λ p. result ≡ end_fault end (fields p.1.now))
        (λ e. result ≡ Some e) }
{
    match read {
        Ok((_, rest)) => match next_field(rest) {
            Some(_) => Some(end),
            None => None,
        },
        Err(place) => Some(place),
    }
}

/// The fault of a service's line after its first word.
fn service_fault(line: &[u8]) -> Option<Field>
    ensures { result ≡ fault_after ServiceEnd (after_service (fields line.now)) }
{
    fault_after(after_service(line), Field::ServiceEnd)
}

/// The fault of a line that has one number after its first word.
fn number_fault(line: &[u8], place: Field, least: u32, most: u32) -> Option<Field>
    ensures { result ≡ fault_after ItemEnd (number_at place least most (fields line.now)) }
{
    fault_after(number_at(line, place, least, most), Field::ItemEnd)
}

/// The fault of what is after an item's first word, which isn't `service`.
fn other_fault(word: &[u8], rest: &[u8]) -> Option<Field>
    ensures { result ≡ fault_of_other word.now (fields rest.now) }
{
    if word == b"cpus".as_slice() {
        number_fault(rest, Field::Cpus, 1, 8)
    } else if word == b"others".as_slice() {
        number_fault(rest, Field::Others, 1, 4)
    } else if word == b"log".as_slice() {
        number_fault(rest, Field::Log, 1, 1_048_576)
    } else if word == b"rules".as_slice() {
        number_fault(rest, Field::Rules, 1, 2)
    } else {
        Some(Field::Item)
    }
}

/// The fault of a line up to its comment: the first place where another word is wanted. None if there is none,
/// as in an empty line. What a name may not be, and what lines above say, isn't looked at.
#[tactic(auto, unfolding(crate::specs::ConfigFaults::fault_in))]
pub(crate) fn line_fault(line: &[u8]) -> Option<Field>
    ensures { result ≡ fault_in (fields line.now) }
{
    let (word, rest) = next_field(line)?;
    if word == b"service".as_slice() {
        service_fault(rest)
    } else {
        other_fault(word, rest)
    }
}
