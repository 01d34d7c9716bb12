//! Reads one line: label, statement, and whether a name is too long.

ghost use Rattle.std.specs.Prelude.{◌≡◌, IfOk, IfErr, All};
ghost use Rattle.mx_lex.specs.Tokens.{IsSlice, TellsLexFault};
ghost use Rattle.mx_asm_statement.specs.Lines.{any_long, long_after, long_label, name_in, where_named, beginning_of, SaysLine, IsLine};

use crate::opening::{LineStart, after_first, after_label, begun_by, mnemonic_first};
use crate::statements::{statement_of, text_alone};
use crate::{Item, Line, Statement, StatementStart, is_long, items_of};
use mx_insn_words::{Directive, WordStart};
use mx_lex::{LexError, Token, tokens_in};
use mx_text::Name;
use std::alloc::{AllocError, Global};

fn any_long(items: &[Item]) -> bool
    ensures { result ≡ any_long items.now }
{
    let mut rest = items;
    while let Some((first, more)) = rest.split_first() {
        if is_long(*first) {
            return true;
        }
        rest = more;
    }
    false
}

/// Whether a name after a statement's first word is too long, the word after a prefix aside.
fn long_after(begun: LineStart, rest: &[Item]) -> bool
    ensures { result ≡ long_after begun rest.now }
{
    match begun {
        LineStart::Known(WordStart::Repeat(_)) => match rest.split_first() {
            None => false,
            Some((_, more)) => any_long(more),
        },
        _ => any_long(rest),
    }
}

fn long_label(label: Option<Item>) -> bool
    ensures { result ≡ long_label label }
{
    match label {
        None => false,
        Some(item) => is_long(item),
    }
}

fn name_in(label: Option<Item>) -> Option<Name>
    ensures { result ≡ name_in label }
{
    match label {
        Some(Item::Name(name)) => Some(name),
        _ => None,
    }
}

/// The statement, unless there is a label that is no name.
fn where_named(label: Option<Item>, statement: Option<Statement>) -> Option<Statement>
    ensures { result ≡ where_named label statement }
{
    match label {
        None => statement,
        Some(Item::Name(_)) => statement,
        Some(_) => None,
    }
}

fn beginning_of(begun: LineStart) -> StatementStart
    ensures { result ≡ beginning_of begun }
{
    match begun {
        LineStart::Nothing => StatementStart::Nothing,
        LineStart::Unknown => StatementStart::Unknown,
        LineStart::Known(WordStart::Mnemonic(_) | WordStart::Repeat(_)) =>
            StatementStart::Instruction,
        LineStart::Known(WordStart::Directive(directive)) => match directive {
            Directive::Data1 | Directive::Data2 | Directive::Data4 | Directive::Ascii => {
                StatementStart::Data
            }
            Directive::Sep => StatementStart::Separate,
            Directive::Entry => StatementStart::Entry,
            Directive::Stack => StatementStart::Stack,
            Directive::Text | Directive::Data | Directive::Bss | Directive::Space => {
                StatementStart::Anywhere
            }
        },
    }
}

/// The line of these tokens.
fn line_of(alloc: Global, text: &[u8], tokens: &[Token]) -> Result<Line, AllocError>
    requires { All (IsSlice text.now) tokens.now }
    ensures { IfOk result (SaysLine text.now tokens.now) }
{
    let (label, statement) = after_label(text, tokens);
    let begun = begun_by(text, statement);
    let rest = after_first(statement);
    let second = mnemonic_first(text, rest);
    let alone = text_alone(alloc, text, rest)?;
    let found = items_of(alloc, text, rest)?;
    let items = found.as_slice();
    let long = long_label(label) || long_after(begun, items);
    let stated = statement_of(alloc, begun, second, alone, items)?;
    Ok(Line {
        label: name_in(label),
        long,
        beginning: beginning_of(begun),
        statement: where_named(label, stated),
    })
}

/// The meaning of a line of a text, without its line feed; or the first offset in it at fault.
pub fn read_line(alloc: Global, text: &[u8]) -> Result<Line, LexError>
    ensures line { IfOk result (IsLine text.now) }
    ensures fault { IfErr result (TellsLexFault text.now) }
{
    let tokens = tokens_in(alloc, text)?;
    let line = line_of(alloc, text, tokens.as_slice())?;
    Ok(line)
}
