//! Quoted texts: their escapes and their end.

ghost use Rattle.std.specs.Prelude.{◌≡◌, ◌<◌, ◌≤◌, length, slice_index, IfOk, IfErr};
ghost use Rattle.mx_lex.specs.Bytes.{ends_at, is_escape, escape_value, text_value};
ghost use Rattle.mx_lex.specs.Tokens.{Body, IsBrokenText};

use crate::gaps::ends_at;
use crate::kinds::LexError;
use std::alloc::{AllocError, Global};

fn is_escape(byte: u8) -> bool
    ensures { result ≡ is_escape byte }
{
    byte == b'n' || byte == b'0' || byte == b'"' || byte == b'\\'
}

/// The offset of the quote that ends a quoted text.
pub fn quote_at(bytes: &[u8], start: usize) -> Result<usize, LexError>
    requires { start ≤ length bytes.now }
    ensures quote { IfOk result (λ e. (e < length bytes.now) × Body bytes.now start e
        × (slice_index bytes.now e ≡ 34)) }
    ensures fault { IfErr result (λ e. IsBrokenText bytes.now start e) }
{
    let mut at = start;
    while !ends_at(bytes, at) {
        let byte = bytes[at];
        if byte == b'"' {
            return Ok(at);
        }
        if byte != b'\\' {
            at += 1;
            continue;
        }
        if ends_at(bytes, at + 1) {
            return Err(LexError::OpenText(at + 1));
        }
        if !is_escape(bytes[at + 1]) {
            return Err(LexError::BadByte(at));
        }
        at += 2;
    }
    Err(LexError::OpenText(at))
}

fn escape_value(byte: u8) -> u8
    ensures { result ≡ escape_value byte }
{
    match byte {
        b'n' => b'\n',
        b'0' => 0,
        _ => byte,
    }
}

/// The bytes of a text, of what is between its quotes: each escape is one byte.
pub fn text_bytes(alloc: Global, body: &[u8]) -> Result<Vec<u8>, AllocError>
    ensures { IfOk result (λ bytes. bytes.items ≡ text_value body.now) }
{
    let mut bytes = Vec::new(alloc);
    let mut rest = body;
    while let Some((first, more)) = rest.split_first() {
        rest = more;
        match (*first, more.split_first()) {
            (b'\\', Some((second, others))) => {
                bytes.push(escape_value(*second))?;
                rest = others;
            }
            _ => bytes.push(*first)?,
        }
    }
    Ok(bytes)
}
