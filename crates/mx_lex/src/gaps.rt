//! What is between tokens: blanks, comments and the ends of lines.

ghost use Rattle.std.specs.Prelude.{◌≡◌, ◌≢◌, ◌⊎◌, ℕ, ◌<◌, ◌≤◌, length, slice_index, false};
ghost use Rattle.mx_text.specs.Bytes.{is_word_byte};
ghost use Rattle.mx_lex.specs.Bytes.{ends_at, AllFrom};
ghost use Rattle.mx_lex.specs.Tokens.{Gap, IsOver};

use mx_text::is_word_byte;

/// Whether a line ends at an offset: the text's end or a line feed is there, or a carriage return before one
/// of these.
pub fn ends_at(bytes: &[u8], at: usize) -> bool
    requires { at ≤ length bytes.now }
    ensures { result ≡ ends_at bytes.now at }
{
    if at == bytes.len() {
        return true;
    }
    if bytes[at] == b'\n' {
        return true;
    }
    bytes[at] == b'\r' && (at + 1 == bytes.len() || bytes[at + 1] == b'\n')
}

/// The offset after the bytes of a word that begins at an offset of a text.
pub fn run_end(bytes: &[u8], start: usize) -> usize
    requires { start ≤ length bytes.now }
    ensures from { start ≤ result }
    ensures within { result ≤ length bytes.now }
    ensures run { AllFrom is_word_byte bytes.now start result }
    ensures over { result < length bytes.now → is_word_byte (slice_index bytes.now result) ≡ false }
{
    let mut at = start;
    while at < bytes.len() && is_word_byte(bytes[at]) {
        at += 1;
    }
    at
}

/// The offset of the next line feed from an offset on, or the text's end.
fn line_feed_at(bytes: &[u8], start: usize) -> usize
    requires { start ≤ length bytes.now }
    ensures from { start ≤ result }
    ensures within { result ≤ length bytes.now }
    ensures run { (k : ℕ) → start ≤ k → k < result → slice_index bytes.now k ≢ 10 }
    ensures over { (result ≡ length bytes.now) ⊎ (slice_index bytes.now result ≡ 10) }
{
    let mut at = start;
    while at < bytes.len() && bytes[at] != b'\n' {
        at += 1;
    }
    at
}

/// The offset after blanks, comments and carriage returns at a line's end.
pub fn gap_end(bytes: &[u8], start: usize) -> usize
    requires { start ≤ length bytes.now }
    ensures within { result ≤ length bytes.now }
    ensures gap { Gap bytes.now start result }
    ensures over { IsOver bytes.now result }
{
    let mut at = start;
    while at < bytes.len() {
        let byte = bytes[at];
        if byte == b' ' || byte == b'\t' {
            at += 1;
        } else if byte == b';' {
            at = line_feed_at(bytes, at + 1);
        } else if byte == b'\r' && ends_at(bytes, at) {
            at += 1;
        } else {
            return at;
        }
    }
    at
}
