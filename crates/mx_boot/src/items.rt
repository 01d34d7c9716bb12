//! From a line of a configuration to the item that it sets.

ghost use Rattle.std.specs.Prelude.{◌≡◌, ◌≢◌, ◌≤◌, ◌∷◌, [], ℕ, List, Some, None, MatchOption, IfOk, IfSome, codes};
ghost use Rattle.std.specs.List.{before_first, list_any};
ghost use Rattle.mx_text.specs.Fields.{fields};
ghost use Rattle.mx_boot.specs.declared.service.ServiceWords.{ServiceWords as Words};
ghost use Rattle.mx_boot.specs.declared.item.ConfigItem.{ConfigItem};
ghost use Rattle.mx_boot.specs.Items.{is_hash, is_stray, said_in, number_after_word, rules_after_word, SaysService, SaysItem, IsServiceWithin, IsItemWithin};

use crate::comment::before_byte;
use crate::item::ConfigItem;
use crate::names::service_name;
use crate::service::ServiceWords;
use crate::terms::{number_between, term_words_of};
use mx_proc::Rules;
use mx_text::{next_field, one_field};

/// A configuration's line up to its comment.
pub fn before_comment(line: &[u8]) -> &[u8]
    ensures { result.now ≡ before_first is_hash line.now }
{
    before_byte(line, b'#')
}

/// The number that a line is.
fn only_number(line: &[u8], least: u32, most: u32) -> Option<u32>
    ensures value { result ≡ number_after_word least most (fields line.now) }
    ensures most { IfSome result (λ n. n ≤ most) }
    ensures least { IfSome result (λ n. least ≤ n) }
{
    let word = one_field(line)?;
    number_between(word, least, most)
}

/// The rules that a line is the number of.
fn rules_of(line: &[u8]) -> Option<Rules>
    ensures { result ≡ rules_after_word (fields line.now) }
{
    match only_number(line, 1, 2)? {
        1 => Some(Rules::Lenient),
        _ => Some(Rules::Strict),
    }
}

/// Whether a byte is no part of a file's name.
fn is_stray(byte: u8) -> bool
    ensures { result ≡ is_stray byte }
{
    byte == b'\t' || byte == b'\r'
}

/// Whether a byte of a field is no part of a file's name: a tab or a carriage return.
pub fn has_stray(file: &[u8]) -> bool
    ensures { result ≡ list_any is_stray file.now }
{
    file.iter().any(|byte| is_stray(*byte))
}

/// The service that a line is.
fn service_of(line: &[u8]) -> Option<ServiceWords<'_>>
    ensures within { IfSome result IsServiceWithin }
    ensures says { MatchOption result ((s : Words) → SaysService (fields line.now) s
        → ⊥) (SaysService (fields line.now)) }
{
    let (name, rest) = next_field(line)?;
    let (file, rest) = next_field(rest)?;
    let name = service_name(name)?;
    let terms = term_words_of(rest)?;
    if has_stray(file) {
        return None;
    }
    match str::from_utf8(file) {
        Ok(text) => Some(ServiceWords {
            name,
            file: text,
            terms,
        }),
        Err(_) => None,
    }
}

/// The number that a line sets whose fields begin with a word, of a service and of rules apart.
fn count_at<'a>(word: &[u8], line: &'a [u8]) -> Option<ConfigItem<'a>>
    requires service { word.now ≢ codes "service" }
    requires rules { word.now ≢ codes "rules" }
    ensures said { MatchOption result ((i : ConfigItem) → SaysItem (word.now ∷ fields line.now) i
        → ⊥) (SaysItem (word.now ∷ fields line.now)) }
    ensures within { IfSome result IsItemWithin }
{
    match word {
        b"cpus" => Some(ConfigItem::Cpus(only_number(line, 1, 8)? as u8)),
        b"log" => Some(ConfigItem::Log(only_number(line, 1, 1_048_576)?)),
        b"others" => Some(ConfigItem::Others(only_number(line, 1, 4)? as u8)),
        _ => None,
    }
}

/// What a line sets whose fields begin with a word. Takes no memory.
#[tactic(auto, using(crate::proofs::Services::only_service))]
pub fn item_at<'a>(word: &[u8], line: &'a [u8]) -> Option<ConfigItem<'a>>
    ensures said { MatchOption result ((i : ConfigItem) → SaysItem (word.now ∷ fields line.now) i
        → ⊥) (SaysItem (word.now ∷ fields line.now)) }
    ensures within { IfSome result IsItemWithin }
{
    if word == b"service".as_slice() {
        return match service_of(line) {
            Some(service) => Some(ConfigItem::Service(service)),
            None => None,
        };
    }
    match word {
        b"rules" => Some(ConfigItem::ByRules(rules_of(line)?)),
        _ => count_at(word, line),
    }
}
