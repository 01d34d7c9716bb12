//! Masks that are written with names: the number that they are.

ghost use Rattle.std.specs.Prelude.{◌≡◌, ◌<◌, ◌&&◌, IfSome};
ghost use Rattle.mx_boot.specs.Items.{said_in};
ghost use Rattle.mx_text.specs.Lines.{lines};
ghost use Rattle.mx_app_explain.specs.Hints.{hint_told};
ghost use Rattle.mx_app_explain.specs.MaskNames.{bit_named, call_bit, has_name, is_service, mask_hint, mask_of_names, service_bit, trap_bit, with_bit};

use crate::config_field::Key;
use crate::hint::Hint;
use mx_boot::{before_byte, before_comment};
use mx_look::request_type;
use mx_text::{next_field, next_line};
use std::str;

/// The bit of the trap that has this name.
fn trap_bit(name: &[u8]) -> Option<u32>
    ensures bit { result ≡ trap_bit name.now }
    ensures low { IfSome result (λ bit. bit < 32) }
{
    if name == b"SEND".as_slice() {
        Some(1)
    } else if name == b"RECEIVE".as_slice() {
        Some(2)
    } else if name == b"SENDREC".as_slice() {
        Some(3)
    } else if name == b"NOTIFY".as_slice() {
        Some(4)
    } else {
        None
    }
}

/// The bit of the kernel call that has this name.
fn call_bit(name: &[u8]) -> Option<u32>
    ensures bit { result ≡ call_bit name.now }
    ensures low { IfSome result (λ bit. bit < 32) }
{
    Some(request_type(name)? - 0x600)
}

/// Whether a configuration's line is that of a service of this name; and whether it is a service's.
fn names_service(line: &[u8], name: &[u8]) -> (bool, bool)
    ensures service { result.1 ≡ is_service (said_in line.now) }
    ensures name { result.0 ≡ (is_service (said_in line.now) && has_name name.now (said_in line.now)) }
{
    let said = before_comment(line);
    let Some((word, rest)) = next_field(said) else {
        return (false, false);
    };
    if word != b"service".as_slice() {
        return (false, false);
    }
    match next_field(rest) {
        Some((own, _)) => (own == name, true),
        None => (false, true),
    }
}

/// The slot of the service of this name, in a configuration's text.
fn service_bit(text: &[u8], name: &[u8]) -> Option<u32>
    ensures bit { result ≡ service_bit (lines text.now) 0 name.now }
    ensures low { IfSome result (λ bit. bit < 32) }
{
    let mut rest = text;
    let mut slot = 0;
    while let Some((line, below)) = next_line(rest) {
        let (is_it, is_service) = names_service(line, name);
        if is_it && slot < 32 {
            return Some(slot);
        }
        if is_service && slot < 32 {
            slot += 1;
        }
        rest = below;
    }
    None
}

/// The bit that a name is in a mask.
fn bit_named(text: &[u8], key: Key, name: &[u8]) -> Option<u32>
    ensures bit { result ≡ bit_named (lines text.now) key name.now }
    ensures low { IfSome result (λ bit. bit < 32) }
{
    match key {
        Key::Traps => trap_bit(name),
        Key::Send => service_bit(text, name),
        Key::Calls => call_bit(name),
        _ => None,
    }
}

/// A mask with a bit.
#[tactic(auto, using(crate::proofs::Masks::bit_set))]
fn with_bit(mask: u32, bit: u32) -> u32
    requires { bit < 32 }
    ensures { result ≡ with_bit mask bit }
{
    mask | 1 << bit
}

/// The mask that names with a plus between them are, 32 names at most.
fn mask_of_names(text: &[u8], key: Key, word: &[u8]) -> Option<u32>
    ensures { result ≡ mask_of_names (lines text.now) key word.now }
{
    let mut mask = 0u32;
    let mut rest = word;
    for _ in 0..32_u32 {
        let name = before_byte(rest, b'+');
        let bit = bit_named(text, key, name)?;
        mask = with_bit(mask, bit);
        if name.len() == rest.len() {
            return Some(mask);
        }
        rest = &rest[name.len() + 1..];
    }
    None
}

/// The number that a mask's word is, if it is made of names.
#[tactic(auto, using(crate::proofs::Printed::printed, crate::proofs::Printed::unprinted))]
pub(crate) fn mask_hint<'a>(text: &[u8], key: Key, word: &'a [u8]) -> Hint<'a>
    ensures { hint_told result ≡ mask_hint (lines text.now) key word.now }
{
    match (mask_of_names(text, key, word), str::from_utf8(word)) {
        (Some(mask), Ok(names)) => Hint::Mask(names, mask),
        _ => Hint::Nothing,
    }
}
