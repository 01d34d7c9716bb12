//! What a line looks like that stands in the wrong file, and what takes it.

ghost use Rattle.std.specs.Prelude.{◌≡◌, option_map};
ghost use Rattle.mx_text.specs.Fields.{fields};
ghost use Rattle.mx_app_explain.specs.Hints.{hint_told};
ghost use Rattle.mx_app_explain.specs.LineLooks.{begins_statement, hint_at, is_config_word, is_debug_line, is_debug_word, is_event_word, is_own, is_printed_word, is_record, is_session_word, looks_of_first, looks_of_line, looks_too, taken_by};

use crate::found_word::byte_at;
use crate::hint::Hint;
use mx_boot::{actor, before_comment, event_kind_named};
use mx_text::next_field;

/// What a line looks like.
#[derive(Clone, Copy, PartialEq, Eq)]
pub enum LineLooks {
    Config,
    Script,
    History,
    Debugger,
    /// A line of a session of `mx look`.
    Session,
    /// The line with the rules, which a history begins with.
    Rules,
    /// What `mx step` prints.
    Printed,
    Source,
    Unknown,
}

/// Whether a configuration's line begins with this word.
fn is_config_word(word: &[u8]) -> bool
    ensures { result ≡ is_config_word word.now }
{
    word == b"cpus".as_slice()
        || word == b"log".as_slice()
        || word == b"others".as_slice()
        || word == b"service".as_slice()
}

/// Whether a line of the debugger begins with this word.
fn is_debug_word(word: &[u8]) -> bool
    ensures { result ≡ is_debug_word word.now }
{
    word == b"break".as_slice()
        || word == b"clear".as_slice()
        || word == b"go".as_slice()
        || word == b"regs".as_slice()
        || word == b"mem".as_slice()
        || word == b"messages".as_slice()
}

/// Whether a line of a session alone begins with this word.
fn is_session_word(word: &[u8]) -> bool
    ensures { result ≡ is_session_word word.now }
{
    word == b"ps".as_slice()
        || word == b"print".as_slice()
        || word == b"list".as_slice()
        || word == b"goto".as_slice()
        || word == b"until".as_slice()
        || word == b"watch".as_slice()
        || word == b"stack".as_slice()
        || word == b"points".as_slice()
}

/// Whether a line that `mx step` prints begins with this word.
fn is_printed_word(word: &[u8]) -> bool
    ensures { result ≡ is_printed_word word.now }
{
    word == b"taken".as_slice()
        || word == b"stepped".as_slice()
        || word == b"returned".as_slice()
        || word == b"respawned".as_slice()
        || word == b"refused".as_slice()
        || word == b"done".as_slice()
}

/// Whether a script's line begins with this word.
fn is_event_word(word: &[u8]) -> bool
    ensures { result ≡ is_event_word word.now }
{
    event_kind_named(word).is_some()
}

/// Whether a word begins a line of a text for the assembler: it is a directive, or has a label's colon.
fn begins_statement(word: &[u8]) -> bool
    ensures { result ≡ begins_statement word.now }
{
    byte_at(word, 0) == b'.' || byte_at(word, word.len().saturating_sub(1)) == b':'
}

/// Whether a line is a record of a history: an actor, and an event.
fn is_record(word: &[u8], rest: &[u8]) -> bool
    ensures { result ≡ is_record word.now (fields rest.now) }
{
    match next_field(rest) {
        Some((second, _)) => actor(word).is_some() && is_event_word(second),
        None => false,
    }
}

/// What a line looks like that begins with a word and goes on like this.
fn looks_of_first(word: &[u8], rest: &[u8]) -> LineLooks
    ensures { result ≡ looks_of_first word.now (fields rest.now) }
{
    if is_config_word(word) {
        LineLooks::Config
    } else if word == b"rules".as_slice() {
        LineLooks::Rules
    } else if is_event_word(word) {
        LineLooks::Script
    } else if is_record(word, rest) {
        LineLooks::History
    } else if is_debug_word(word) {
        LineLooks::Debugger
    } else if is_session_word(word) {
        LineLooks::Session
    } else if is_printed_word(word) {
        LineLooks::Printed
    } else if begins_statement(word) {
        LineLooks::Source
    } else {
        LineLooks::Unknown
    }
}

/// What a line looks like, up to a comment.
fn looks_of_line(line: &[u8]) -> LineLooks
    ensures { result ≡ looks_of_line line.now }
{
    match next_field(before_comment(line)) {
        Some((word, rest)) => looks_of_first(word, rest),
        None => LineLooks::Unknown,
    }
}

/// Whether a line is one of the debugger.
pub(crate) fn is_debug_line(line: &[u8]) -> bool
    ensures { result ≡ is_debug_line line.now }
{
    looks_of_line(line) == LineLooks::Debugger
}

impl LineLooks {
    /// What takes a line that looks so.
    fn taken_by(self) -> Option<&'static str>
        ensures { option_map (λ s. s.now) result ≡ taken_by self }
    {
        match self {
            LineLooks::Config => Some("this is a line of a configuration"),
            LineLooks::Script => Some("this is a line of a script, which mx step takes"),
            LineLooks::History => Some("this is a line of a history, which mx replay takes"),
            LineLooks::Debugger => Some("this is a line of mx db"),
            LineLooks::Session => Some("this is a line of mx look"),
            LineLooks::Rules => {
                Some("a history begins so, which mx replay takes, and a configuration may have it")
            }
            LineLooks::Printed => Some("mx step prints this: --save LOG keeps its history"),
            LineLooks::Source => Some("this is a line of a text for mx as"),
            LineLooks::Unknown => None,
        }
    }
}

/// Whether a line that looks so may stand among others: a line with the rules in a configuration and in a history, and an
/// event in a debugger's script.
fn looks_too(looks: LineLooks, own: LineLooks) -> bool
    ensures { result ≡ looks_too looks own }
{
    match own {
        LineLooks::Config | LineLooks::History => looks == LineLooks::Rules,
        LineLooks::Debugger => looks == LineLooks::Script,
        _ => false,
    }
}

/// Whether a line that looks so may stand in a file whose lines look like this.
fn is_own(looks: LineLooks, own: LineLooks) -> bool
    ensures { result ≡ is_own looks own }
{
    looks == own || looks_too(looks, own)
}

/// What is added if a line isn't of the file that it stands in, whose lines look like this.
pub(crate) fn hint_at(line: &[u8], own: LineLooks) -> Hint<'_>
    ensures { hint_told result ≡ hint_at line.now own }
{
    let looks = looks_of_line(line);
    if is_own(looks, own) {
        return Hint::Nothing;
    }
    match looks.taken_by() {
        Some(words) => Hint::Words(words),
        None => Hint::Nothing,
    }
}
