//! Writes the text of a history to a sink.

ghost use Rattle.std.specs.Prelude.{◌≡◌, ◌≤◌, ◌<◌, ◌+◌, ◌++◌, ◌∷◌, [], ℕ, List, true, false, length, OnOk, OnErr, codes};
ghost use Rattle.std.specs.Fmt.{decimal};
ghost use Rattle.arrayvec.specs.ArrayVec.{array_vec_len};
ghost use Rattle.mx_boot.specs.Words.{joined_words};
ghost use Rattle.mx_boot.specs.Taking.{IsTakenBut};
ghost use Rattle.mx_boot.specs.Text.{event_words, record_words, history_text, rules_text, saved_text};

use crate::sink::{Sink, SinkFault};
use arrayvec::ArrayVec;
use itoa::Buffer;
use mx_machine::{Record, Recorded};
use mx_proc::Rules;

/// The sink has failed.
#[derive(Clone, Copy, Debug, PartialEq, Eq)]
pub struct SaveFault;

/// The bytes of a line: two numbers of at most 10 digits and a word of at most 7 bytes, with what
/// parts and ends them.
type Line = ArrayVec<u8, 32>;

/// Appends bytes.
fn push_bytes(line: &mut Line, bytes: &[u8])
    requires { array_vec_len line.old + length bytes.now ≤ 32 }
    ensures bytes { line.new.items ≡ line.old.items ++ bytes.now }
    ensures count { array_vec_len line.new ≡ array_vec_len line.old + length bytes.now }
{
    for byte in bytes {
        line.push(*byte);
    }
}

/// Appends a number. Most have one digit: an actor's, and the steps of a process that asks often.
#[tactic(auto, using(std::proofs::lemmas::Fmt::decimal_digit))]
fn push_number(line: &mut Line, number: u32)
    requires { array_vec_len line.old ≤ 22 }
    ensures bytes { line.new.items ≡ line.old.items ++ decimal number }
    ensures few { array_vec_len line.new ≤ array_vec_len line.old + 10 }
{
    if number < 10 {
        line.push(b'0' + number as u8);
        return;
    }
    push_bytes(line, Buffer::new().format(number).as_bytes());
}

/// Appends a word and a number, parted by a space.
fn push_counted(line: &mut Line, word: &[u8], number: u32)
    requires { array_vec_len line.old + length word.now ≤ 21 }
    ensures bytes { line.new.items ≡ line.old.items ++ (word.now ++ 32 ∷ decimal number) }
    ensures few { array_vec_len line.new ≤ array_vec_len line.old + length word.now + 11 }
{
    push_bytes(line, word);
    line.push(b' ');
    push_number(line, number);
}

/// Appends what was recorded.
fn push_event(line: &mut Line, event: Recorded)
    requires { array_vec_len line.old ≤ 11 }
    ensures bytes { line.new.items ≡ line.old.items ++ joined_words (event_words event) }
    ensures few { array_vec_len line.new ≤ 29 }
{
    match event {
        Recorded::Take => push_bytes(line, b"take"),
        Recorded::Back(steps) => push_counted(line, b"back", steps),
        Recorded::Line(number) => push_counted(line, b"line", number),
        Recorded::Tick => push_bytes(line, b"tick"),
        Recorded::Kill(endpoint) => push_counted(line, b"kill", endpoint),
        Recorded::Respawn(slot) => push_counted(line, b"respawn", slot),
    }
}

/// Makes an empty line that of a record, with its line feed.
fn push_record(line: &mut Line, entry: Record)
    requires { line.old.items ≡ [] }
    ensures { line.new.items ≡ joined_words (record_words entry) ++ codes "\n" }
{
    push_number(line, u32::from(entry.actor));
    line.push(b' ');
    push_event(line, entry.event);
    line.push(b'\n');
}

/// Puts all bytes.
fn put_all<S: Sink>(sink: &mut S, bytes: &[u8]) -> Result<(), SaveFault>
    requires { S.has_failed sink.old ≡ false }
    ensures taken { OnOk result (S.taken sink.new ≡ S.taken sink.old ++ bytes.now) }
    ensures whole { OnOk result (S.has_failed sink.new ≡ false) }
    ensures front { OnErr result ((rest : List ℕ)
        × IsTakenBut (S.taken sink.old) (S.taken sink.new) bytes.now rest) }
    ensures failed { OnErr result (S.has_failed sink.new ≡ true) }
{
    let mut rest = bytes;
    while !rest.is_empty() {
        match sink.put(rest) {
            Ok(0) => return Err(SaveFault),
            Ok(count) => rest = &rest[count..],
            Err(SinkFault) => return Err(SaveFault),
        }
    }
    Ok(())
}

/// Writes the lines of records to a sink that hasn't failed. If it answers an error, the sink has
/// failed, and what it took is a front of them.
fn save_records<S: Sink>(records: &[Record], sink: &mut S) -> Result<(), SaveFault>
    requires { S.has_failed sink.old ≡ false }
    ensures taken { OnOk result (S.taken sink.new ≡ S.taken sink.old ++ history_text records.now) }
    ensures whole { OnOk result (S.has_failed sink.new ≡ false) }
    ensures front { OnErr result ((rest : List ℕ)
        × IsTakenBut (S.taken sink.old) (S.taken sink.new) (history_text records.now) rest) }
    ensures failed { OnErr result (S.has_failed sink.new ≡ true) }
{
    for entry in records {
        let mut line = ArrayVec::new();
        push_record(&mut line, *entry);
        put_all(sink, line.as_slice())?;
    }
    Ok(())
}

/// The line of the rules.
fn rules_text(rules: Rules) -> &'static [u8]
    ensures { result.now ≡ rules_text rules }
{
    match rules {
        Rules::Lenient => b"",
        Rules::Strict => b"rules 2\n",
    }
}

/// Writes the text of a history, by the rules of its machine, to a sink that hasn't failed. If it
/// answers an error, the sink has failed, and what it took is a front of the text. Takes no memory.
pub fn save_history<S: Sink>(
    rules: Rules,
    records: &[Record],
    sink: &mut S,
) -> Result<(), SaveFault>
    requires { S.has_failed sink.old ≡ false }
    ensures taken { OnOk result (S.taken sink.new ≡ S.taken sink.old
        ++ saved_text rules records.now) }
    ensures whole { OnOk result (S.has_failed sink.new ≡ false) }
    ensures front { OnErr result ((rest : List ℕ)
        × IsTakenBut (S.taken sink.old) (S.taken sink.new) (saved_text rules records.now) rest) }
    ensures failed { OnErr result (S.has_failed sink.new ≡ true) }
{
    put_all(sink, rules_text(rules))?;
    save_records(records, sink)
}
