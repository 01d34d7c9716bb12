//! The words of a line of a text for the assembler, and what each of them is.

ghost use Rattle.std.specs.Prelude.{◌≡◌, ◌++◌, IfOk, OnOk, option_map};
ghost use Rattle.std.specs.List.{flat_map, list_any};
ghost use Rattle.mx_app_explain.specs.TextWords.{bad_escape, begins_comment, begins_with_digit, is_bad_number, is_beyond_ascii, is_blank, is_capital, is_close, is_constant, is_equals, is_escaped, is_free_word, is_jump, is_long_name, is_loop, is_narrow_register, is_operator, is_punctuation, is_punctuation_word, is_number, is_odd_byte, is_open, is_other_size, is_prepared, is_quote, is_reserved, is_size, is_unpushed, with_spaces, spaced_byte};

use crate::found_word::byte_at;
use mx_boot::before_byte;
use mx_insn_words::{register_named, size_named};
use mx_text::{begins_name, is_digit, is_word_byte, number_up_to};
use std::alloc::{AllocError, Global};

/// Whether a byte is a mark: a word of its own.
fn is_punctuation(byte: u8) -> bool
    ensures { result ≡ is_punctuation byte }
{
    byte == b'['
        || byte == b']'
        || byte == b'+'
        || byte == b'-'
        || byte == b'*'
        || byte == b','
        || byte == b':'
}

fn is_blank(byte: u8) -> bool
    ensures { result ≡ is_blank byte }
{
    byte == b' ' || byte == b'\t' || byte == b'\r'
}

/// Appends a byte, a mark between spaces, and a space for a blank.
fn push_spaced(out: &mut Vec<u8>, byte: u8) -> Result<(), AllocError>
    ensures { OnOk result (out.new.items ≡ out.old.items ++ spaced_byte byte) }
{
    if is_punctuation(byte) {
        out.push(b' ')?;
        out.push(byte)?;
        out.push(b' ')?;
    } else if is_blank(byte) {
        out.push(b' ')?;
    } else {
        out.push(byte)?;
    }
    Ok(())
}

/// A line up to its comment, with its words between spaces.
#[tactic(auto, using(crate::proofs::Spaced::spaced_more))]
pub(crate) fn with_spaces(alloc: Global, line: &[u8]) -> Result<Vec<u8>, AllocError>
    ensures { IfOk result (λ found. found.items ≡ with_spaces line.now) }
{
    let mut out = Vec::new(alloc);
    let said = before_byte(line, b';');
    for byte in said {
        push_spaced(&mut out, *byte)?;
    }
    Ok(out)
}

/// Whether a byte is no part of a word, of a mark or of a directive.
fn is_odd_byte(byte: u8) -> bool
    ensures { result ≡ is_odd_byte byte }
{
    !(is_word_byte(byte) || is_punctuation(byte) || byte == b'.')
}

/// Whether a word has a byte that is no part of any.
pub(crate) fn is_odd(word: &[u8]) -> bool
    ensures { result ≡ list_any is_odd_byte word.now }
{
    word.iter().any(|byte| is_odd_byte(*byte))
}

/// Whether a byte is none of ASCII.
fn is_beyond_ascii(byte: u8) -> bool
    ensures { result ≡ is_beyond_ascii byte }
{
    byte > 127
}

pub(crate) fn is_beyond(word: &[u8]) -> bool
    ensures { result ≡ list_any is_beyond_ascii word.now }
{
    word.iter().any(|byte| is_beyond_ascii(*byte))
}

/// Whether a word begins a comment of other languages.
pub(crate) fn begins_comment(word: &[u8]) -> bool
    ensures { result ≡ begins_comment word.now }
{
    byte_at(word, 0) == b'#' || byte_at(word, 0) == b'/'
}

/// Whether a text has this byte after a backslash.
fn is_escaped(byte: u8) -> bool
    ensures { result ≡ is_escaped byte }
{
    byte == b'n' || byte == b'0' || byte == b'"' || byte == b'\\'
}

/// The first escape of a word that no text has: a backslash, and what is after it in the word.
pub(crate) fn bad_escape(word: &[u8]) -> Option<&[u8]>
    ensures { option_map (λ w. w.now) result ≡ bad_escape word.now }
{
    let mut rest = word;
    while let Some((first, more)) = rest.split_first() {
        if *first != b'\\' {
            rest = more;
            continue;
        }
        let Some((second, others)) = more.split_first() else {
            return Some(rest);
        };
        if !is_escaped(*second) {
            return Some(&rest[..2]);
        }
        rest = others;
    }
    None
}

pub(crate) fn has_quote(word: &[u8]) -> bool
    ensures { result ≡ list_any is_quote word.now }
{
    word.iter().any(|byte| *byte == b'"')
}

pub(crate) fn has_equals(word: &[u8]) -> bool
    ensures { result ≡ list_any is_equals word.now }
{
    word.iter().any(|byte| *byte == b'=')
}

pub(crate) fn has_capital(word: &[u8]) -> bool
    ensures { result ≡ list_any is_capital word.now }
{
    word.iter().any(|byte| *byte >= b'A' && *byte <= b'Z')
}

pub(crate) fn begins_with_digit(word: &[u8]) -> bool
    ensures { result ≡ begins_with_digit word.now }
{
    is_digit(byte_at(word, 0))
}

/// Whether a word is a number of 32 bits, decimal or hexadecimal after 0x.
fn is_number(word: &[u8]) -> bool
    ensures { result ≡ is_number word.now }
{
    if word.len() > 2 && (word[0] == b'0' && word[1] == b'x') {
        number_up_to(&word[2..], 16, u32::MAX).is_some()
    } else {
        number_up_to(word, 10, u32::MAX).is_some()
    }
}

/// Whether a word begins as a number and is none.
pub(crate) fn is_bad_number(word: &[u8]) -> bool
    ensures { result ≡ is_bad_number word.now }
{
    begins_with_digit(word) && !is_number(word)
}

/// Whether a word is too long for a name.
pub(crate) fn is_long_name(word: &[u8]) -> bool
    ensures { result ≡ is_long_name word.now }
{
    begins_name(byte_at(word, 0)) && word.len() > 8
}

pub(crate) fn is_punctuation_word(word: &[u8]) -> bool
    ensures { result ≡ is_punctuation_word word.now }
{
    is_punctuation(byte_at(word, 0))
}

pub(crate) fn is_size(word: &[u8]) -> bool
    ensures { result ≡ is_size word.now }
{
    word == b"byte".as_slice() || word == b"word".as_slice() || word == b"dword".as_slice()
}

/// Whether a word is a register or a size.
pub(crate) fn is_reserved(word: &[u8]) -> bool
    ensures { result ≡ is_reserved word.now }
{
    let register = register_named(word);
    let size = size_named(word);
    register.is_some() | size.is_some()
}

/// Whether a word may be a name: it is no mark, no number, no text, no register and no size.
pub(crate) fn is_free_word(word: &[u8]) -> bool
    ensures { result ≡ is_free_word word.now }
{
    begins_name(byte_at(word, 0)) && !(is_reserved(word) || word == b"short".as_slice())
}

/// Whether a word is a loop instruction.
fn is_loop(word: &[u8]) -> bool
    ensures { result ≡ is_loop word.now }
{
    word == b"loop".as_slice() || word == b"loope".as_slice() || word == b"loopne".as_slice()
}

/// Whether a word is a conditional jump or a loop.
pub(crate) fn is_jump(word: &[u8]) -> bool
    ensures { result ≡ is_jump word.now }
{
    (byte_at(word, 0) == b'j' && word != b"jmp".as_slice()) || is_loop(word)
}

/// Whether other assemblers, or a preprocessor, define a constant by a word.
pub(crate) fn is_constant(word: &[u8]) -> bool
    ensures { result ≡ is_constant word.now }
{
    word == b"equ".as_slice()
        || word == b"EQU".as_slice()
        || word == b".equ".as_slice()
        || word == b".set".as_slice()
        || word == b"#define".as_slice()
        || word == b"%define".as_slice()
}

/// Whether a preprocessor does something else by a word.
pub(crate) fn is_prepared(word: &[u8]) -> bool
    ensures { result ≡ is_prepared word.now }
{
    word == b"#include".as_slice()
        || word == b"#if".as_slice()
        || word == b"#ifdef".as_slice()
        || word == b"#ifndef".as_slice()
        || word == b"%include".as_slice()
        || word == b"%macro".as_slice()
        || word == b".include".as_slice()
        || word == b".macro".as_slice()
}

/// Whether other assemblers have a word before a bracket: a size, with or without capital letters.
pub(crate) fn is_other_size(word: &[u8]) -> bool
    ensures { result ≡ is_other_size word.now }
{
    matches!(
        word,
        b"BYTE" | b"WORD" | b"DWORD" | b"PTR" | b"qword" | b"QWORD" | b"near" | b"far"
    )
}

/// Whether a word is an operator of other assemblers.
pub(crate) fn is_operator(word: &[u8]) -> bool
    ensures { result ≡ is_operator word.now }
{
    word == b"offset".as_slice() || word == b"ptr".as_slice()
}

/// Whether a word says that fewer than 32 bits are pushed: a size, or a register.
pub(crate) fn is_unpushed(word: &[u8]) -> bool
    ensures { result ≡ is_unpushed word.now }
{
    word == b"byte".as_slice() || word == b"word".as_slice() || is_narrow_register(word)
}

/// Whether a word is a register of 8 or 16 bits.
fn is_narrow_register(word: &[u8]) -> bool
    ensures { result ≡ is_narrow_register word.now }
{
    word.len() == 2 && is_reserved(word)
}

pub(crate) fn is_open(word: &[u8]) -> bool
    ensures { result ≡ is_open word.now }
{
    word == b"[".as_slice()
}

pub(crate) fn is_close(word: &[u8]) -> bool
    ensures { result ≡ is_close word.now }
{
    word == b"]".as_slice()
}
