//! Numbers as they are read in texts, decimal and hexadecimal.

ghost use Rattle.std.specs.Prelude.{◌≡◌, ℕ, ◌<◌, ◌≤◌, [], MatchOption};
ghost use Rattle.mx_text.specs.Bytes.{is_digit, digit_value};
ghost use Rattle.mx_text.specs.Numbers.{AreDigits, IsNoValue, value_from, IsNumberInBase, IsNumber};

/// Whether a byte is a decimal digit.
pub fn is_digit(byte: u8) -> bool
    ensures { result ≡ is_digit byte }
{
    byte >= b'0' && byte <= b'9'
}

fn digit_value(byte: u8) -> u8
    ensures value { result ≡ digit_value byte }
    ensures small { result < 17 }
{
    match byte {
        b'0'..=b'9' => byte - b'0',
        b'a'..=b'f' => byte - b'a' + 10,
        b'A'..=b'F' => byte - b'A' + 10,
        _ => 16,
    }
}

/// The number that digits spell, 0 if there are none.
fn value_of(digits: &[u8], base: u8) -> Option<u32>
    requires low { 10 ≤ base }
    requires high { base ≤ 16 }
    ensures { MatchOption result (IsNoValue base digits.now) (λ n. AreDigits base digits.now
        × (n ≡ value_from base 0 digits.now)) }
{
    let mut value: u32 = 0;
    for byte in digits {
        let digit = digit_value(*byte);
        if digit >= base {
            return None;
        }
        let more = u64::from(value) * u64::from(base) + u64::from(digit);
        if more > u64::from(u32::MAX) {
            return None;
        }
        value = more as u32;
    }
    Some(value)
}

/// The number that one or more digits spell in a base, 10 to 16: letters are digits in either case. `None`
/// too if it is over 4,294,967,295.
pub fn number_in_base(digits: &[u8], base: u8) -> Option<u32>
    requires low { 10 ≤ base }
    requires high { base ≤ 16 }
    ensures { MatchOption result ((n : ℕ) → IsNumberInBase base digits.now n
        → ⊥) (λ n. IsNumberInBase base digits.now n) }
{
    if digits.is_empty() {
        None
    } else {
        value_of(digits, base)
    }
}

/// The number that decimal digits spell, or `0x` and hexadecimal ones.
pub fn number_of(word: &[u8]) -> Option<u32>
    ensures { MatchOption result ((n : ℕ) → IsNumber word.now n → ⊥) (λ n. IsNumber word.now n) }
{
    if word.len() > 2 && word[0] == b'0' && word[1] == b'x' {
        number_in_base(&word[2..], 16)
    } else {
        number_in_base(word, 10)
    }
}
