//! What a line opens with: its label, and its statement's first words.

ghost use Rattle.std.specs.Prelude.{◌≡◌, All};
ghost use Rattle.mx_lex.specs.Tokens.{IsSlice};
ghost use Rattle.mx_asm_statement.specs.Opening.{is_label, label_of, after_label, IsLabelItem, Begins, after_first, NamesMnemonic};

use crate::{Item, is_dotted, item_of, token_bytes};
use mx_insn_words::{Mnemonic, WordStart, mnemonic_named, start_named};
use mx_lex::{Punctuation, Token, TokenKind};

/// What a statement begins with.
#[derive(Clone, Copy)]
pub enum LineStart {
    Nothing,
    /// No word that begins a statement.
    Unknown,
    Known(WordStart),
}

/// Whether a word without a dot is before a colon.
fn is_label(text: &[u8], first: Token, second: Token) -> bool
    requires { IsSlice text.now first }
    ensures { result ≡ is_label text.now first second }
{
    match (first.kind, second.kind) {
        (TokenKind::Word, TokenKind::Punctuation(Punctuation::Colon)) => {
            !is_dotted(token_bytes(text, first))
        }
        _ => false,
    }
}

/// The item of the label's token, if there is a label, and the tokens after it; without a label, all tokens.
pub fn after_label<'a>(text: &[u8], tokens: &'a [Token]) -> (Option<Item>, &'a [Token])
    requires { All (IsSlice text.now) tokens.now }
    ensures label { IsLabelItem text.now (label_of text.now tokens.now) result.0 }
    ensures rest { result.1.now ≡ after_label text.now tokens.now }
{
    let Some((first, rest)) = tokens.split_first() else {
        return (None, tokens);
    };
    let Some((second, others)) = rest.split_first() else {
        return (None, tokens);
    };
    if is_label(text, *first, *second) {
        (Some(item_of(text, *first)), others)
    } else {
        (None, tokens)
    }
}

/// What a line's first token begins: a label, a directive, an instruction.
pub fn begun_by(text: &[u8], tokens: &[Token]) -> LineStart
    requires { All (IsSlice text.now) tokens.now }
    ensures { Begins text.now tokens.now result }
{
    match tokens.split_first() {
        None => LineStart::Nothing,
        Some((first, _)) => {
            if first.kind != TokenKind::Word {
                return LineStart::Unknown;
            }
            match start_named(token_bytes(text, *first)) {
                Some(start) => LineStart::Known(start),
                None => LineStart::Unknown,
            }
        }
    }
}

pub fn after_first(tokens: &[Token]) -> &[Token]
    ensures { result.now ≡ after_first tokens.now }
{
    match tokens.split_first() {
        None => tokens,
        Some((_, rest)) => rest,
    }
}

/// The mnemonic that is a line's first word.
pub fn mnemonic_first(text: &[u8], tokens: &[Token]) -> Option<Mnemonic>
    requires { All (IsSlice text.now) tokens.now }
    ensures { NamesMnemonic text.now tokens.now result }
{
    match tokens.split_first() {
        None => None,
        Some((first, _)) => {
            if first.kind != TokenKind::Word {
                return None;
            }
            mnemonic_named(token_bytes(text, *first))
        }
    }
}
