//! The parts of a request: numbers, and whom it is about.

ghost use Rattle.std.specs.Prelude.{◌≡◌, ◌==◌, MatchOption, None, Some, position};
ghost use Rattle.mx_rsp.specs.Fields.{after, cut, number, process_by, two_numbers, which_of, who_of};

use mx_text::number_up_to;

/// Whom a request is about. Each process has one thread, of the same number.
#[derive(Clone, Copy, Debug, PartialEq, Eq)]
pub enum Which {
    /// Whichever the stub chooses.
    Any,
    /// All of them.
    All,
    /// The one of this number, which isn't 0.
    One(u32),
}

/// What follows a word, if a text begins with it.
pub(crate) fn after<'a>(word: &[u8], text: &'a [u8]) -> Option<&'a [u8]>
    ensures { MatchOption result (after word.now text.now ≡ None)
        (λ rest. after word.now text.now ≡ Some rest.now) }
{
    let rest = text.strip_prefix(word)?;
    Some(rest)
}

/// How many bytes stand before the first such byte.
fn first_at(text: &[u8], mark: u8) -> Option<usize>
    ensures { result ≡ position (λ b. b == mark) text.now }
{
    text.iter().position(|byte| *byte == mark)
}

/// What stands before the first such byte, and what after it.
pub(crate) fn cut(text: &[u8], mark: u8) -> Option<(&[u8], &[u8])>
    ensures { MatchOption result (cut mark text.now ≡ None) (λ p. cut mark text.now
        ≡ Some (p.0.now, p.1.now)) }
{
    let at = first_at(text, mark)?;
    Some((&text[..at], &text[at + 1..]))
}

/// A number in hexadecimal digits.
pub(crate) fn number(text: &[u8]) -> Option<u32>
    ensures { result ≡ number text.now }
{
    number_up_to(text, 16, u32::MAX)
}

/// Two numbers, with a comma between them.
pub(crate) fn two_numbers(text: &[u8]) -> Option<(u32, u32)>
    ensures { result ≡ two_numbers text.now }
{
    let (left, right) = cut(text, b',')?;
    let first = number(left)?;
    let second = number(right)?;
    Some((first, second))
}

/// A number, or all, or any one.
fn which_named(text: &[u8]) -> Option<Which>
    ensures { result ≡ which_of text.now }
{
    if text == b"-1".as_slice() {
        return Some(Which::All);
    }
    let number = number(text)?;
    if number == 0 {
        Some(Which::Any)
    } else {
        Some(Which::One(number))
    }
}

/// A process, and maybe its thread.
fn process(text: &[u8]) -> Option<Which>
    ensures { result ≡ process_by text.now (cut 46 text.now) }
{
    match cut(text, b'.') {
        None => which_named(text),
        Some((process, thread)) => {
            which_named(thread)?;
            which_named(process)
        }
    }
}

/// Whom a request is about.
pub(crate) fn who(text: &[u8]) -> Option<Which>
    ensures { result ≡ who_of text.now }
{
    match after(b"p", text) {
        None => which_named(text),
        Some(pair) => process(pair),
    }
}
