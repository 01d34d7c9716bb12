//! Names: of labels, and of whatever else is named as a label is.

ghost use Rattle.std.specs.Prelude.{◌≡◌, slice_index};
ghost use Rattle.std.specs.List.{list_all};
ghost use Rattle.mx_text.specs.Bytes.{is_letter, begins_name, is_word_byte};
ghost use Rattle.mx_text.specs.Names.{padded_name, is_name, name_of};

use crate::read_numbers::is_digit;

/// A name of at most eight bytes, padded with zero bytes.
#[derive(Clone, Copy, Debug, PartialEq, Eq, Hash)]
pub struct Name {
    pub bytes: [u8; 8],
}

/// Whether a byte is one of A to Z and a to z.
pub fn is_letter(byte: u8) -> bool
    ensures { result ≡ is_letter byte }
{
    byte >= b'A' && byte <= b'Z' || byte >= b'a' && byte <= b'z'
}

/// Whether a name may begin with a byte: a letter or the underscore.
pub fn begins_name(byte: u8) -> bool
    ensures { result ≡ begins_name byte }
{
    is_letter(byte) || byte == b'_'
}

/// Whether a name may have a byte after its first one.
pub fn is_word_byte(byte: u8) -> bool
    ensures { result ≡ is_word_byte byte }
{
    begins_name(byte) || is_digit(byte)
}

/// A word's byte, and 0 after its end.
fn byte_at(word: &[u8], at: usize) -> u8
    ensures { result ≡ slice_index word.now at }
{
    if at < word.len() { word[at] } else { 0 }
}

fn pad(word: &[u8]) -> [u8; 8]
    ensures { result ≡ padded_name word.now }
{
    [
        byte_at(word, 0),
        byte_at(word, 1),
        byte_at(word, 2),
        byte_at(word, 3),
        byte_at(word, 4),
        byte_at(word, 5),
        byte_at(word, 6),
        byte_at(word, 7),
    ]
}

fn are_word_bytes(bytes: &[u8]) -> bool
    ensures { result ≡ list_all is_word_byte bytes.now }
{
    bytes.iter().all(|byte| is_word_byte(*byte))
}

fn is_name(word: &[u8]) -> bool
    ensures { result ≡ is_name word.now }
{
    match word.split_first() {
        None => false,
        Some((first, rest)) => word.len() <= 8 && begins_name(*first) && are_word_bytes(rest),
    }
}

/// The name that a word is: a letter or underscore, then letters, digits and underscores, eight
/// bytes at most. It may still be a register's or a size's.
pub fn name_of(word: &[u8]) -> Option<Name>
    ensures { result ≡ name_of word.now }
{
    if is_name(word) {
        Some(Name { bytes: pad(word) })
    } else {
        None
    }
}
