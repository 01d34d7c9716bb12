//! Sorts tokens into items, by the tables of words.

ghost use Rattle.std.specs.Prelude.{◌≡◌, ◌==◌, slice_index, IfOk, All};
ghost use Rattle.mx_lex.specs.Tokens.{IsSlice};
ghost use Rattle.mx_asm_statement.specs.Sorting.{token_bytes, IsWordItem, IsItem, AreItems};

use crate::item::Item;
use mx_insn_words::{register_named, size_named};
use mx_lex::{Token, TokenKind};
use mx_text::name_of;
use std::alloc::{AllocError, Global};

/// The bytes of an assembler text's token.
pub fn token_bytes(text: &[u8], token: Token) -> &[u8]
    requires { IsSlice text.now token }
    ensures { result.now ≡ token_bytes text.now token }
{
    &text[token.start..token.end]
}

/// Whether a word begins with a dot, as directives do.
pub fn is_dotted(word: &[u8]) -> bool
    ensures { result ≡ (slice_index word.now 0 == 46) }
{
    match word.first() {
        None => false,
        Some(first) => *first == b'.',
    }
}

/// What a word is as a part of an operand.
fn word_item(word: &[u8]) -> Item
    ensures { IsWordItem word.now result }
{
    if let Some((size, register)) = register_named(word) {
        return Item::Register(size, register);
    }
    if let Some(size) = size_named(word) {
        return Item::Size(size);
    }
    if is_dotted(word) {
        return Item::Other;
    }
    match name_of(word) {
        Some(name) => Item::Name(name),
        None => Item::Long,
    }
}

/// What a token is as a part of an operand.
pub fn item_of(text: &[u8], token: Token) -> Item
    requires { IsSlice text.now token }
    ensures { IsItem text.now token result }
{
    match token.kind {
        TokenKind::Punctuation(punctuation) => Item::Punctuation(punctuation),
        TokenKind::Number(number) => Item::Number(number),
        TokenKind::Word => word_item(token_bytes(text, token)),
        TokenKind::Text | TokenKind::LineFeed => Item::Other,
    }
}

/// What tokens are as parts of operands.
pub fn items_of(alloc: Global, text: &[u8], tokens: &[Token]) -> Result<Vec<Item>, AllocError>
    requires { All (IsSlice text.now) tokens.now }
    ensures { IfOk result (λ found. AreItems text.now tokens.now found.items) }
{
    let mut found = Vec::new(alloc);
    let mut rest = tokens;
    while let Some((first, more)) = rest.split_first() {
        found.push(item_of(text, *first))?;
        rest = more;
    }
    Ok(found)
}
