//! The word that a line has at a place.

ghost use Rattle.std.specs.Prelude.{◌≡◌, option_map, slice_index};
ghost use Rattle.std.specs.List.{list_any};
ghost use Rattle.mx_app_explain.specs.FoundWords.{field_told, found_at, found_told, is_control, is_marked, is_return, is_tab};

use std::{fmt, str};

/// The word that a line has at a place, as far as it can be printed.
#[derive(Clone, Copy)]
pub enum FoundWord<'a> {
    /// It isn't looked at.
    Unseen,
    /// The line ends here.
    Nothing,
    Word(&'a str),
    /// A word with a carriage return.
    Return,
    /// A byte order mark.
    ByteOrderMark,
    /// A word with a tab.
    Tab,
    /// A word with other bytes that can't be printed.
    Bytes,
}

/// As it is in a line, after a comma.
impl fmt::Display for FoundWord<'_> {
    ghost use Rattle.std.specs.Prelude.{Some};
    ghost use Rattle.mx_app_explain.specs.FoundWords.{found_told};

    ghost output = { λ found. Some (found_told found) };

    fn fmt<W: fmt::Write>(&self, f: &mut fmt::Formatter<W>) -> fmt::Result {
        match *self {
            FoundWord::Unseen => Ok(()),
            FoundWord::Nothing => write!(f, ", where the line ends"),
            FoundWord::Word(word) => write!(f, ", stands \"{word}\""),
            FoundWord::Return => write!(
                f,
                ", stands a word with a carriage return: a line ends in a line feed alone"
            ),
            FoundWord::ByteOrderMark => write!(
                f,
                ", stands a byte order mark, which a text may not have"
            ),
            FoundWord::Tab => write!(
                f,
                ", stands a word with a tab: between words are spaces alone"
            ),
            FoundWord::Bytes => write!(f, ", stands a word with bytes that aren't printable"),
        }
    }
}

fn is_return(byte: u8) -> bool
    ensures { result ≡ is_return byte }
{
    byte == b'\r'
}

fn is_tab(byte: u8) -> bool
    ensures { result ≡ is_tab byte }
{
    byte == b'\t'
}

fn is_control(byte: u8) -> bool
    ensures { result ≡ is_control byte }
{
    byte < 32 || byte == 127
}

fn has_return(word: &[u8]) -> bool
    ensures { result ≡ list_any is_return word.now }
{
    word.iter().any(|byte| is_return(*byte))
}

fn has_tab(word: &[u8]) -> bool
    ensures { result ≡ list_any is_tab word.now }
{
    word.iter().any(|byte| is_tab(*byte))
}

fn has_control(word: &[u8]) -> bool
    ensures { result ≡ list_any is_control word.now }
{
    word.iter().any(|byte| is_control(*byte))
}

/// A word's byte, and 0 after its end.
pub(crate) fn byte_at(word: &[u8], at: usize) -> u8
    ensures { result ≡ slice_index word.now at }
{
    if at < word.len() { word[at] } else { 0 }
}

/// Whether a word begins with the byte order mark of UTF-8.
fn is_marked(word: &[u8]) -> bool
    ensures { result ≡ is_marked word.now }
{
    byte_at(word, 0) == 0xEF && byte_at(word, 1) == 0xBB && byte_at(word, 2) == 0xBF
}

/// A word that a line has.
#[tactic(auto, unfolding(crate::specs::FoundWords::field_told), using(crate::proofs::Printed::printed, crate::proofs::Printed::unprinted))]
fn of_field(word: &[u8]) -> FoundWord<'_>
    ensures { found_told result ≡ field_told word.now }
{
    if has_return(word) {
        return FoundWord::Return;
    }
    if is_marked(word) {
        return FoundWord::ByteOrderMark;
    }
    if has_tab(word) {
        return FoundWord::Tab;
    }
    if has_control(word) {
        return FoundWord::Bytes;
    }
    match str::from_utf8(word) {
        Ok(text) => FoundWord::Word(text),
        Err(_) => FoundWord::Bytes,
    }
}

/// The word that a line has at a place, or that it ends there.
pub(crate) fn found_at(word: Option<&[u8]>) -> FoundWord<'_>
    ensures { found_told result ≡ found_at (option_map (λ w. w.now) word.entry) }
{
    match word {
        Some(word) => of_field(word),
        None => FoundWord::Nothing,
    }
}
