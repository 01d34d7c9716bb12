//! What was wanted of a line, and where.

ghost use Rattle.std.specs.Prelude.{◌≡◌, option_map, slice_get};
ghost use Rattle.mx_text.specs.Fields.{fields};
ghost use Rattle.mx_text.specs.Lines.{lines};
ghost use Rattle.mx_app_explain.specs.ConfigFaults.{fault_in};
ghost use Rattle.mx_app_explain.specs.ConfigFields.{value_name, words_before};
ghost use Rattle.mx_app_explain.specs.Details.{after_words, config_detail, detail_told, label_told, field_detail, field_hint, field_label, has_service, is_remark, remark_or, service_detail, wanted_of_field};
ghost use Rattle.mx_app_explain.specs.MaskNames.{is_service};
ghost use Rattle.mx_boot.specs.Items.{said_in};
ghost use Rattle.mx_app_explain.specs.Hints.{hint_told};

use crate::config_field::Field;
use crate::config_line::line_fault;
use crate::found_word::{FoundWord, byte_at, found_at};
use crate::hint::Hint;
use crate::line_looks::{LineLooks, hint_at};
use crate::mask_names::mask_hint;
use mx_boot::before_comment;
use mx_text::{next_field, next_line};
use std::{fmt, str};

/// Where in a line something was wanted.
#[derive(Clone, Copy)]
pub enum Label<'a> {
    /// It isn't printed.
    Nowhere,
    /// As the value of this name.
    Value(&'static str),
    /// After these two words.
    After(&'a str, &'a str),
    /// In a file of which these words say what is wrong with it.
    In(&'static str),
}

/// As it is in a line, with a colon and a space.
impl fmt::Display for Label<'_> {
    ghost use Rattle.std.specs.Prelude.{Some};
    ghost use Rattle.mx_app_explain.specs.Details.{label_told};

    ghost output = { λ label. Some (label_told label) };

    fn fmt<W: fmt::Write>(&self, f: &mut fmt::Formatter<W>) -> fmt::Result {
        match *self {
            Label::Nowhere => Ok(()),
            Label::Value(name) => write!(f, "{name}: "),
            Label::After(first, second) => write!(f, "after \"{first} {second}\": "),
            Label::In(words) => write!(f, "{words}; "),
        }
    }
}

/// What was wanted, where, and what is there; and what is added.
#[derive(Clone, Copy)]
pub struct Detail<'a> {
    pub label: Label<'a>,
    pub wanted: &'static str,
    pub found: FoundWord<'a>,
    pub hint: Hint<'a>,
}

/// As `quantum: wanted 1 to 65535, stands "0"`.
impl fmt::Display for Detail<'_> {
    ghost use Rattle.std.specs.Prelude.{Some};
    ghost use Rattle.mx_app_explain.specs.Details.{detail_told};

    ghost output = { λ detail. Some (detail_told detail) };

    fn fmt<W: fmt::Write>(&self, f: &mut fmt::Formatter<W>) -> fmt::Result {
        let Detail {
            label,
            wanted,
            found,
            hint,
        } = *self;
        write!(f, "{label}wanted {wanted}{found}{hint}")
    }
}

/// The line of a text that has so many lines above it.
pub(crate) fn line_below(text: &[u8], above: usize) -> Option<&[u8]>
    ensures { option_map (λ l. l.now) result ≡ slice_get (lines text.now) above }
{
    let mut rest = text;
    let mut left = above;
    while left > 0 {
        match next_line(rest) {
            Some((_, more)) => rest = more,
            None => return None,
        }
        left -= 1;
    }
    match next_line(rest) {
        Some((line, _)) => Some(line),
        None => None,
    }
}

/// The word of a line that has so many words before it.
fn word_after(line: &[u8], before: usize) -> Option<&[u8]>
    ensures { option_map (λ w. w.now) result ≡ slice_get (fields line.now) before }
{
    let (word, rest) = next_field(line)?;
    if before == 0 {
        Some(word)
    } else {
        word_after(rest, before - 1)
    }
}

/// That something was wanted after two words, if they can be printed.
#[tactic(auto, using(crate::proofs::Printed::printed, crate::proofs::Printed::unprinted))]
fn after_words<'a>(first: Option<&'a [u8]>, second: Option<&'a [u8]>) -> Label<'a>
    ensures { label_told result ≡ after_words (option_map (λ w. w.now) first.entry)
        (option_map (λ w. w.now) second.entry) }
{
    match (first, second) {
        (Some(first), Some(second)) => match (str::from_utf8(first), str::from_utf8(second)) {
            (Ok(first), Ok(second)) => Label::After(first, second),
            _ => Label::Nowhere,
        },
        _ => Label::Nowhere,
    }
}

/// Where a place of a line is.
fn field_label(line: &[u8], place: Field) -> Label<'_>
    ensures { label_told result
        ≡ field_label (fields line.now) (words_before place) (value_name place) }
{
    let before = place.words_before();
    match place.value_name() {
        Some(name) => Label::Value(name),
        None => {
            if before == 0 {
                Label::Nowhere
            } else {
                after_words(
                    word_after(line, before.saturating_sub(2)),
                    word_after(line, before - 1),
                )
            }
        }
    }
}

/// Whether a word begins a comment elsewhere.
fn is_remark(word: &[u8]) -> bool
    ensures { result ≡ is_remark word.now }
{
    byte_at(word, 0) == b';'
        || (byte_at(word, 0) == b'/' && (byte_at(word, 1) == b'/' || byte_at(word, 1) == b'*'))
}

/// What is added where a comment may begin: at a word that begins one elsewhere, and at another one this.
fn remark_or<'a>(word: Option<&[u8]>, other: Hint<'a>) -> Hint<'a>
    ensures { hint_told result
        ≡ remark_or (option_map (λ w. w.now) word.entry) (hint_told other.entry) }
{
    match word {
        Some(word) if is_remark(word) => Hint::Words("a comment begins with #"),
        _ => other,
    }
}

/// What is added at a place of a line of a configuration's text: where a comment may begin what begins it, at its first
/// word what takes such a line, and at a mask of names the number that it is.
fn field_hint<'a>(text: &[u8], line: &'a [u8], place: Field) -> Hint<'a>
    ensures { hint_told result ≡ field_hint (lines text.now) line.now place }
{
    let word = word_after(line, place.words_before());
    match place {
        Field::Item => remark_or(word, hint_at(line, LineLooks::Config)),
        Field::ItemEnd | Field::ServiceEnd => remark_or(word, Hint::Nothing),
        Field::Value(key) => match word {
            Some(word) => mask_hint(text, key, word),
            None => Hint::Nothing,
        },
        _ => Hint::Nothing,
    }
}

/// What was wanted at a place of a line of a configuration's text.
fn field_detail<'a>(text: &[u8], line: &'a [u8], place: Field) -> Detail<'a>
    ensures { detail_told result ≡ wanted_of_field (lines text.now) line.now place }
{
    Detail {
        label: field_label(line, place),
        wanted: place.wanted_text(),
        found: found_at(word_after(line, place.words_before())),
        hint: field_hint(text, line, place),
    }
}

/// What was wanted of a line of a configuration's text up to its comment. None if the line has no fault of its own.
fn line_detail<'a>(text: &[u8], line: &'a [u8]) -> Option<Detail<'a>>
    ensures { option_map detail_told result
        ≡ field_detail (lines text.now) line.now (fault_in (fields line.now)) }
{
    match line_fault(line) {
        None => None,
        Some(place) => Some(field_detail(text, line, place)),
    }
}

/// Whether a line is a service's.
fn is_service_line(line: &[u8]) -> bool
    ensures { result ≡ is_service (said_in line.now) }
{
    match next_field(before_comment(line)) {
        Some((word, _)) => word == b"service".as_slice(),
        None => false,
    }
}

/// Whether a configuration's text has a line that is a service's.
fn has_service(text: &[u8]) -> bool
    ensures { result ≡ has_service (lines text.now) }
{
    let mut rest = text;
    while let Some((line, below)) = next_line(rest) {
        if is_service_line(line) {
            return true;
        }
        rest = below;
    }
    false
}

/// What was wanted of a configuration's text of which no line has a fault: a service. None if it has one.
fn service_detail<'a>(text: &[u8]) -> Option<Detail<'a>>
    ensures { option_map detail_told result ≡ service_detail (lines text.now) }
{
    if has_service(text) {
        return None;
    }
    Some(Detail {
        label: Label::Nowhere,
        wanted: "at least one line service NAME FILE traps T send S calls C level L best B quantum Q restarts R",
        found: FoundWord::Unseen,
        hint: Hint::Nothing,
    })
}

/// What was wanted of the line of a configuration's text that has this number, counted from 1, or of the text. None if
/// neither has a fault of its own.
#[tactic(auto, unfolding(crate::specs::ConfigFaults::fault_in))]
pub(crate) fn config_detail(text: &[u8], number: usize) -> Option<Detail<'_>>
    ensures { option_map detail_told result ≡ config_detail text.now number }
{
    match line_below(text, number.saturating_sub(1)) {
        None => None,
        Some(line) => match line_detail(text, before_comment(line)) {
            Some(detail) => Some(detail),
            None => service_detail(text),
        },
    }
}
