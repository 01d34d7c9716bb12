//! Reads the text of a history: its rules, and its records.

ghost use Rattle.std.specs.Prelude.{◌≡◌, ◌≤◌, ◌+◌, length, List, All, IfOk, IfErr, MatchResult};
ghost use Rattle.mx_text.specs.declared.error.BootError.TheVariants.{NoMemory};
ghost use Rattle.mx_machine.specs.declared.history.Record.{Record};
ghost use Rattle.mx_machine.specs.History.{IsWritable};
ghost use Rattle.mx_machine.specs.Rules.{Rules as ByRules};
ghost use Rattle.mx_boot.specs.Text.{saved_text};
ghost use Rattle.mx_text.specs.Fields.{fields};
ghost use Rattle.mx_text.specs.Lines.{lines};
ghost use Rattle.mx_boot.specs.Script.{after_event_word};
ghost use Rattle.mx_boot.specs.Reading.{AreLinesRead};
ghost use Rattle.mx_boot.specs.Log.{recorded_of, record_by, record_line, is_ended, says_strict, begins_history, rules_of_lines, record_lines, lines_above, IsHistory, TellsNoRecords, TellsHistoryFault};

use crate::history_laws::{history_again, one_history};
use crate::{EventKind, ReadsLine, actor, event_kind_named, only_count, read_lines};
use mx_machine::{Config, Record, Recorded};
use mx_proc::Rules;
use mx_text::{BootError, next_field, next_line};
use std::alloc::Global;

/// What was recorded, of a kind and the fields after it.
fn recorded_of(kind: EventKind, rest: &[u8]) -> Option<Recorded>
    ensures { result ≡ recorded_of kind (fields rest.now) }
{
    match kind {
        EventKind::Take => match next_field(rest) {
            None => Some(Recorded::Take),
            Some(_) => None,
        },
        EventKind::Back => Some(Recorded::Back(only_count(rest)?)),
        EventKind::Line => Some(Recorded::Line(only_count(rest)?)),
        EventKind::Tick => match next_field(rest) {
            None => Some(Recorded::Tick),
            Some(_) => None,
        },
        EventKind::Kill => Some(Recorded::Kill(only_count(rest)?)),
        EventKind::Respawn => Some(Recorded::Respawn(only_count(rest)?)),
        _ => None,
    }
}

/// What a line records after its actor.
fn recorded_after_actor(line: &[u8]) -> Option<Recorded>
    ensures { result ≡ after_event_word recorded_of (fields line.now) }
{
    let (word, rest) = next_field(line)?;
    let kind = event_kind_named(word)?;
    recorded_of(kind, rest)
}

/// A record, if the actor is one of this many.
fn made_by(actors: u8, actor: u8, event: Recorded) -> Option<Record>
    ensures { result ≡ record_by actors actor event }
{
    if actor < actors {
        Some(Record { actor, event })
    } else {
        None
    }
}

/// Reads the records of this many actors.
#[derive(Drop)]
struct RecordReader {
    actors: u8,
}

impl ReadsLine for RecordReader {
    ghost use Rattle.mx_boot.specs.Log.{record_line};

    type Said = Record;

    ghost says = { λ reader line. record_line reader.actors line };

    fn read(&self, line: &[u8]) -> Option<Record> {
        let (word, rest) = next_field(line)?;
        let actor = actor(word)?;
        let event = recorded_after_actor(rest)?;
        made_by(self.actors, actor, event)
    }
}

/// Whether each line of a text is ended by a line feed.
fn is_ended(text: &[u8]) -> bool
    ensures { result ≡ is_ended text.now }
{
    match text.last() {
        None => true,
        Some(byte) => *byte == b'\n',
    }
}

/// How many lines a text has.
#[tactic(auto, using(crate::proofs::Unended::one_more))]
fn count_of_lines(text: &[u8]) -> usize
    ensures { result ≡ length (lines text.now) }
{
    let mut rest = text;
    let mut count = 0;
    while let Some((_, below)) = next_line(rest) {
        rest = below;
        count += 1;
    }
    count
}

/// Whether a line is that of the strict rules: `rules 2`.
fn says_strict(line: &[u8]) -> bool
    ensures { result ≡ says_strict (fields line.now) }
{
    let Some((word, rest)) = next_field(line) else {
        return false;
    };
    let Some((number, rest)) = next_field(rest) else {
        return false;
    };
    match next_field(rest) {
        Some(_) => false,
        None => word == b"rules".as_slice() && number == b"2".as_slice(),
    }
}

/// The rules of a text, and the text below their line.
fn split_rules(text: &[u8]) -> (Rules, &[u8])
    ensures rules { result.0 ≡ rules_of_lines (lines text.now) }
    ensures below { lines result.1.now ≡ record_lines (lines text.now) }
    ensures fewer { length result.1.now ≤ length text.now }
{
    match next_line(text) {
        Some((line, below)) => if says_strict(line) {
            (Rules::Strict, below)
        } else {
            (Rules::Lenient, text)
        },
        None => (Rules::Lenient, text),
    }
}

/// The most actors that a record's actor is one of.
const MOST_ACTORS: u8 = u8::MAX;

/// Whether a text begins as a history does: its first line is `rules 2`, or a record of some machine.
pub fn begins_history(text: &[u8]) -> bool
    ensures { result ≡ begins_history text.now }
{
    match next_line(text) {
        Some((line, _)) => {
            let reader = RecordReader {
                actors: MOST_ACTORS,
            };
            says_strict(line) || reader.read(line).is_some()
        }
        None => false,
    }
}

/// How many lines are above those of the records in what is saved by these rules.
pub fn lines_above(rules: Rules) -> usize
    ensures value { result ≡ lines_above rules }
    ensures few { result ≤ 1 }
{
    match rules {
        Rules::Lenient => 0,
        Rules::Strict => 1,
    }
}

/// The rules and the records of a text, or the first line that is no record.
fn read_records(alloc: Global, text: &str, actors: u8) -> Result<(Rules, Vec<Record>), BootError>
    ensures rules { IfOk result (λ found. found.0 ≡ rules_of_lines (lines text.now)) }
    ensures read { IfOk result (λ found.
        AreLinesRead (record_line actors) (record_lines (lines text.now)) found.1.items) }
    ensures unread { IfErr result (TellsNoRecords actors text.now) }
{
    let (rules, below) = split_rules(text.as_bytes());
    match read_lines(alloc, &RecordReader { actors }, below) {
        Ok(records) => Ok((rules, records)),
        Err(BootError::BadRecord(number)) => Err(BootError::BadRecord(lines_above(rules) + number)),
        Err(error) => Err(error),
    }
}

/// The rules and the records of a text, or its first line at fault. Out of memory is reported after
/// all lines are judged, so that a line at fault is reported whatever memory there is.
fn read_log(alloc: Global, text: &str, actors: u8) -> Result<(Rules, Vec<Record>), BootError>
    ensures history { IfOk result (λ found. IsHistory actors text.now found.0 found.1.items) }
    ensures fault { IfErr result (λ e. TellsHistoryFault actors text.now e) }
{
    let bytes = text.as_bytes();
    let read = read_records(alloc, text, actors);
    // After all lines, so that a fault above the last line comes first.
    if is_ended(bytes) {
        return read;
    }
    match read {
        Err(BootError::BadRecord(number)) => Err(BootError::BadRecord(number)),
        _ => Err(BootError::BadRecord(count_of_lines(bytes))),
    }
}

/// The history that a text is, and the rules by which its machine was booted: the strict ones if
/// the first line is `rules 2`, else the lenient ones. Each line below is a record: `A take`,
/// `A back N`, `A line L`, `A tick`, `A kill E`, `A respawn S`, A the actor; each line is ended by
/// a line feed. The numbers are decimal; A is below the count of the configuration's processors and
/// others, the other numbers at most 2,147,483,647. Else `BadRecord` with the first line at fault;
/// `NoMemory` comes only if the text is a history. So what is saved of a history is read as that
/// history.
pub fn log(alloc: Global, text: &str, config: &Config) -> Result<(Rules, Vec<Record>), BootError>
    ensures history { IfOk result (λ found.
        IsHistory (config.now.cpus + config.now.others) text.now found.0 found.1.items) }
    ensures fault { IfErr result (λ e.
        TellsHistoryFault (config.now.cpus + config.now.others) text.now e) }
    ensures saved { (rules : ByRules) (records : List Record)
        → All (IsWritable (config.now.cpus + config.now.others)) records
        → text.now ≡ saved_text rules records
        → MatchResult result (λ found. (found.0 ≡ rules) × (found.1.items ≡ records)) (λ e.
        e ≡ NoMemory) }
{
    one_history();
    history_again();
    read_log(alloc, text, config.cpus + config.others)
}
