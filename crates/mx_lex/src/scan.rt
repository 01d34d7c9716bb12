//! Reads one token.

ghost use Rattle.std.specs.Prelude.{◌≡◌, ◌≢◌, ◌<◌, length, slice_index, true, MatchOption, IfOk, IfErr};
ghost use Rattle.mx_text.specs.Bytes.{is_digit};
ghost use Rattle.mx_lex.specs.Bytes.{begins_word};
ghost use Rattle.mx_lex.specs.Tokens.{IsOver, IsToken, BrokenAt, punctuation_byte};

use crate::gaps::run_end;
use crate::kinds::{LexError, Punctuation, Token, TokenKind};
use crate::text::quote_at;
use mx_text::{begins_name, is_digit, is_letter, number_of};

fn punctuation_of(byte: u8) -> Option<Punctuation>
    ensures { MatchOption result ((m : Punctuation) → byte ≢ punctuation_byte m)
        (λ m. byte ≡ punctuation_byte m) }
{
    match byte {
        b'[' => Some(Punctuation::Open),
        b']' => Some(Punctuation::Close),
        b'+' => Some(Punctuation::Plus),
        b'-' => Some(Punctuation::Minus),
        b'*' => Some(Punctuation::Star),
        b',' => Some(Punctuation::Comma),
        b':' => Some(Punctuation::Colon),
        _ => None,
    }
}

/// Whether a word begins at an offset: with a letter or underscore, or with a dot before a letter.
fn begins_word(bytes: &[u8], at: usize) -> bool
    requires { at < length bytes.now }
    ensures { result ≡ begins_word bytes.now at }
{
    begins_name(bytes[at]) || bytes[at] == b'.' && at + 1 < bytes.len() && is_letter(bytes[at + 1])
}

/// The number that begins at an offset.
fn number_at(bytes: &[u8], start: usize) -> Result<Token, LexError>
    requires place { start < length bytes.now }
    requires digit { is_digit (slice_index bytes.now start) ≡ true }
    ensures start { IfOk result (λ k. k.start ≡ start) }
    ensures token { IfOk result (λ k. IsToken bytes.now k) }
    ensures fault { IfErr result (λ e. BrokenAt bytes.now start e) }
{
    let end = run_end(bytes, start + 1);
    match number_of(&bytes[start..end]) {
        None => Err(LexError::BadNumber(start)),
        Some(number) => Ok(Token {
            kind: TokenKind::Number(number),
            start,
            end,
        }),
    }
}

/// The quoted text that begins at an offset.
fn text_at(bytes: &[u8], start: usize) -> Result<Token, LexError>
    requires place { start < length bytes.now }
    requires quote { slice_index bytes.now start ≡ 34 }
    ensures start { IfOk result (λ k. k.start ≡ start) }
    ensures token { IfOk result (λ k. IsToken bytes.now k) }
    ensures fault { IfErr result (λ e. BrokenAt bytes.now start e) }
{
    let end = quote_at(bytes, start + 1)? + 1;
    Ok(Token {
        kind: TokenKind::Text,
        start,
        end,
    })
}

/// The token of a text that begins at an offset.
pub fn token_at(bytes: &[u8], start: usize) -> Result<Token, LexError>
    requires place { start < length bytes.now }
    requires over { IsOver bytes.now start }
    ensures start { IfOk result (λ k. k.start ≡ start) }
    ensures token { IfOk result (λ k. IsToken bytes.now k) }
    ensures fault { IfErr result (λ e. BrokenAt bytes.now start e) }
{
    let byte = bytes[start];
    if byte == b'\n' {
        return Ok(Token {
            kind: TokenKind::LineFeed,
            start,
            end: start + 1,
        });
    }
    if let Some(punctuation) = punctuation_of(byte) {
        return Ok(Token {
            kind: TokenKind::Punctuation(punctuation),
            start,
            end: start + 1,
        });
    }
    if byte == b'"' {
        return text_at(bytes, start);
    }
    if is_digit(byte) {
        return number_at(bytes, start);
    }
    if !begins_word(bytes, start) {
        return Err(LexError::BadByte(start));
    }
    let end = run_end(bytes, start + 1);
    Ok(Token {
        kind: TokenKind::Word,
        start,
        end,
    })
}
