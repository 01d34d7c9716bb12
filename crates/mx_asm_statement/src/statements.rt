//! What follows a statement's first word.

ghost use Rattle.std.specs.Prelude.{◌≡◌, ◌+◌, ◌≤◌, IfOk, All};
ghost use Rattle.mx_lex.specs.Tokens.{IsSlice};
ghost use Rattle.mx_asm_statement.specs.LineStatements.{is_short_word, takes_short, statement_by, after_mnemonic, after_prefix, standing_alone, text_given, space_of, stack_of, entry_of, after_directive, text_alone, statement_of};

use crate::opening::LineStart;
use crate::{
    Item, JumpLength, Section, Statement, arguments_of, data_of, statement_after_prefix,
    statement_for,
};
use mx_insn_words::{Directive, Mnemonic, Prefix, Single, WordStart};
use mx_lex::{Token, TokenKind, text_bytes};
use mx_word::{Bytes, Size};
use std::alloc::{AllocError, Global};

/// Whether `short` is allowed after a mnemonic.
fn takes_short(mnemonic: Mnemonic) -> bool
    ensures { result ≡ takes_short mnemonic }
{
    match mnemonic {
        Mnemonic::Single(Single::Jmp) => true,
        Mnemonic::JumpIf(_) => true,
        _ => false,
    }
}

fn is_short(item: Item) -> bool
    ensures { result ≡ is_short_word item }
{
    match item {
        Item::Name(name) => name.bytes == *b"short\0\0\0",
        _ => false,
    }
}

fn stated_by(
    alloc: Global,
    length: JumpLength,
    mnemonic: Mnemonic,
    items: &[Item],
) -> Result<Option<Statement>, AllocError>
    ensures { IfOk result (λ s. s ≡ statement_by length mnemonic items.now) }
{
    match arguments_of(alloc, items)? {
        None => Ok(None),
        Some(arguments) => Ok(statement_for(length, mnemonic, arguments.as_slice())),
    }
}

/// The instruction of a mnemonic and of what follows it; the first item may be `short`.
fn after_mnemonic(
    alloc: Global,
    mnemonic: Mnemonic,
    items: &[Item],
) -> Result<Option<Statement>, AllocError>
    ensures { IfOk result (λ s. s ≡ after_mnemonic mnemonic items.now) }
{
    let Some((first, rest)) = items.split_first() else {
        return stated_by(alloc, JumpLength::Long, mnemonic, items);
    };
    if takes_short(mnemonic) & is_short(*first) {
        stated_by(alloc, JumpLength::Short, mnemonic, rest)
    } else {
        stated_by(alloc, JumpLength::Long, mnemonic, items)
    }
}

fn after_prefix(prefix: Prefix, second: Option<Mnemonic>, items: &[Item]) -> Option<Statement>
    ensures { result ≡ after_prefix prefix second items.now }
{
    match (second, items) {
        (Some(mnemonic), [_]) => statement_after_prefix(prefix, mnemonic),
        _ => None,
    }
}

fn standing_alone(statement: Statement, items: &[Item]) -> Option<Statement>
    ensures { result ≡ standing_alone statement items.now }
{
    if items.is_empty() {
        Some(statement)
    } else {
        None
    }
}

/// The text of `.ascii`, without its quotes, if there is nothing else.
pub fn text_alone(alloc: Global, text: &[u8], tokens: &[Token]) -> Result<Option<Bytes>, AllocError>
    requires { All (IsSlice text.now) tokens.now }
    ensures { IfOk result (λ bytes. bytes ≡ text_alone text.now tokens.now) }
{
    match tokens {
        [token] => {
            if token.kind != TokenKind::Text {
                return Ok(None);
            }
            let bytes = text_bytes(alloc, &text[token.start + 1..token.end - 1])?;
            Ok(Some(Bytes::from_vec(bytes)))
        }
        _ => Ok(None),
    }
}

fn text_given(text: Option<Bytes>) -> Option<Statement>
    ensures { result ≡ text_given text }
{
    match text {
        Some(bytes) => Some(Statement::Ascii(bytes)),
        None => None,
    }
}

fn space_of(items: &[Item]) -> Option<Statement>
    ensures { result ≡ space_of items.now }
{
    match items {
        [Item::Number(number)] => Some(Statement::Space(*number)),
        _ => None,
    }
}

fn stack_of(items: &[Item]) -> Option<Statement>
    ensures { result ≡ stack_of items.now }
{
    match items {
        [Item::Number(number)] => Some(Statement::Stack(*number)),
        _ => None,
    }
}

fn entry_of(items: &[Item]) -> Option<Statement>
    ensures { result ≡ entry_of items.now }
{
    match items {
        [Item::Name(name)] => Some(Statement::Entry(*name)),
        _ => None,
    }
}

fn after_directive(
    alloc: Global,
    directive: Directive,
    text: Option<Bytes>,
    items: &[Item],
) -> Result<Option<Statement>, AllocError>
    ensures { IfOk result (λ s. s ≡ after_directive directive text items.now) }
{
    match directive {
        Directive::Text => Ok(standing_alone(Statement::Enter(Section::Text), items)),
        Directive::Data => Ok(standing_alone(Statement::Enter(Section::Data), items)),
        Directive::Bss => Ok(standing_alone(Statement::Enter(Section::Bss), items)),
        Directive::Data1 => data_of(alloc, Size::Byte, items),
        Directive::Data2 => data_of(alloc, Size::Word, items),
        Directive::Data4 => data_of(alloc, Size::Dword, items),
        Directive::Ascii => Ok(text_given(text)),
        Directive::Space => Ok(space_of(items)),
        Directive::Sep => Ok(standing_alone(Statement::Separate, items)),
        Directive::Entry => Ok(entry_of(items)),
        Directive::Stack => Ok(stack_of(items)),
    }
}

/// The statement of its parts: the first word, the mnemonic after a prefix, the quoted text if there is
/// nothing else, and the items after the first word.
pub fn statement_of(
    alloc: Global,
    begun: LineStart,
    second: Option<Mnemonic>,
    text: Option<Bytes>,
    items: &[Item],
) -> Result<Option<Statement>, AllocError>
    ensures { IfOk result (λ s. s ≡ statement_of begun second text items.now) }
{
    match begun {
        LineStart::Nothing => Ok(Some(Statement::Nothing)),
        LineStart::Unknown => Ok(None),
        LineStart::Known(WordStart::Mnemonic(mnemonic)) => after_mnemonic(alloc, mnemonic, items),
        LineStart::Known(WordStart::Repeat(prefix)) => Ok(after_prefix(prefix, second, items)),
        LineStart::Known(WordStart::Directive(directive)) => {
            after_directive(alloc, directive, text, items)
        }
    }
}
