//! Numbers within limits: digits whose number is at most a limit.

ghost use Rattle.std.specs.Prelude.{◌≡◌, ◌≤◌};
ghost use Rattle.mx_text.specs.NumberFields.{number_up_to};

use crate::number_in_base;

/// The number that one or more digits spell in a base, 10 to 16, if it is at most the limit.
#[tactic(auto, using(crate::proofs::Spelled::no_number, crate::proofs::Spelled::number_beyond))]
pub fn number_up_to(word: &[u8], base: u8, limit: u32) -> Option<u32>
    requires low { 10 ≤ base }
    requires high { base ≤ 16 }
    ensures { result ≡ number_up_to limit base word.now }
{
    match number_in_base(word, base) {
        Some(number) => { if number <= limit { Some(number) } else { None } }
        None => None,
    }
}
