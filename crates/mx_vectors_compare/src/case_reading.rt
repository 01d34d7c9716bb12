//! Reads a line of the processor's steps as a case.

ghost use Rattle.std.specs.Prelude.{◌≡◌, ◌==◌, IfOk, codes, length, map};
ghost use Rattle.std.specs.List.{slice_split};
ghost use Rattle.mx_vectors_compare.specs.Line.{ReadsField, IsHexNumber, AreNumbers, AreRegisters, AreHexBytes, IsCase, IsCode, IsOutcome, IsCaseSpelled, IsState};

use crate::case::{Case, CaseError, StepState};
use mx_exec::Outcome;
use mx_word::Bytes;
use std::alloc::{AllocError, Global};

/// A number in hexadecimal digits.
fn read_number(text: &str) -> Result<u32, CaseError>
    ensures { ReadsField (IsHexNumber text.now) result }
{
    u32::from_str_radix(text, 16).map_err(|_| CaseError::Malformed)
}

/// What spaces part.
fn split_words<'a>(alloc: Global, text: &'a str) -> Result<Vec<&'a str>, AllocError>
    ensures { IfOk result (λ words. map (λ x. x.now) words.items
        ≡ slice_split (λ b. b == 32) text.now) }
{
    text.split(' ').collect(alloc)
}

/// Eight numbers, of this many words.
fn eight_numbers(words: &[&str]) -> Result<[u32; 8], CaseError>
    ensures { IfOk result (λ numbers. (length numbers ≡ 8)
        × AreNumbers (map (λ word. word.now) words.now) numbers) }
{
    if words.len() != 8 {
        return Err(CaseError::Malformed);
    }
    let mut numbers = [0; 8];
    for (at, word) in words.iter().enumerate() {
        numbers[at] = read_number(*word)?;
    }
    Ok(numbers)
}

/// Eight numbers parted by spaces.
fn read_registers(alloc: Global, text: &str) -> Result<[u32; 8], CaseError>
    ensures { IfOk result (λ words. AreRegisters text.now words) }
{
    eight_numbers(split_words(alloc, text)?.as_slice())
}

/// How the step ended.
fn read_outcome(text: &str) -> Result<Outcome, CaseError>
    ensures { ReadsField (IsOutcome text.now) result }
{
    if text == "go" {
        return Ok(Outcome::Go);
    }
    let Some(digits) = text.strip_prefix("fault-") else {
        return Err(CaseError::Malformed);
    };
    let Ok(vector) = digits.parse::<u8>() else {
        return Err(CaseError::Malformed);
    };
    Ok(Outcome::Fault(vector))
}

/// Changes the byte that `address:byte` names.
fn change_byte(bytes: &mut [u8], change: &str) -> Result<(), CaseError>
    ensures { length bytes.new ≡ length bytes.old }
{
    let Some((address, byte)) = change.split_once(':') else {
        return Err(CaseError::Malformed);
    };
    let Ok(byte) = u8::from_str_radix(byte, 16) else {
        return Err(CaseError::Malformed);
    };
    let Some(place) = bytes.get_mut(read_number(address)? as usize) else {
        return Err(CaseError::Malformed);
    };
    *place = byte;
    Ok(())
}

/// Changes the bytes that `address:byte,..` names.
fn change_bytes(bytes: &mut [u8], changes: &str) -> Result<(), CaseError>
    ensures { length bytes.new ≡ length bytes.old }
{
    for change in changes.split(',') {
        change_byte(bytes, change)?;
    }
    Ok(())
}

/// The bytes after the changes that a text names; `-` names none.
fn memory_with_changes(alloc: Global, memory: &[u8], changes: &str) -> Result<Vec<u8>, CaseError>
    ensures limit { IfOk result (λ after. length after.items ≡ length memory.now) }
    ensures none { changes.now ≡ codes "-" → IfOk result (λ after. after.items ≡ memory.now) }
{
    let mut after = memory.to_vec(alloc)?;
    if changes != "-" {
        change_bytes(after.as_mut_slice(), changes)?;
    }
    Ok(after)
}

/// Registers, EIP and flags.
fn read_state(alloc: Global, words: &str, eip: &str, flags: &str) -> Result<StepState, CaseError>
    ensures { IfOk result (λ state. IsState words.now eip.now flags.now state) }
{
    Ok(StepState {
        registers: read_registers(alloc, words)?,
        eip: read_number(eip)?,
        flags: read_number(flags)?,
    })
}

/// Bytes in hexadecimal digits.
fn bytes_of(alloc: Global, text: &str) -> Result<Bytes, CaseError>
    ensures { ReadsField (AreHexBytes text.now) result }
{
    Ok(Bytes::from_vec(hex::decode(alloc, text)?))
}

/// The code, if it isn't in the data.
fn code_of(alloc: Global, text: &str) -> Result<Option<Bytes>, CaseError>
    ensures { ReadsField (IsCode text.now) result }
{
    if text == "-" {
        return Ok(None);
    }
    Ok(Some(bytes_of(alloc, text)?))
}

/// How many fields a line has.
const FIELD_COUNT: usize = 13;

/// A line's fields, as texts.
#[derive(Clone, Copy)]
struct Fields<'a> {
    row: &'a str,
    spelling: &'a str,
    code: &'a str,
    memory: &'a str,
    words: &'a str,
    eip: &'a str,
    flags: &'a str,
    ends: &'a str,
    words_after: &'a str,
    eip_after: &'a str,
    flags_after: &'a str,
    mask: &'a str,
    changes: &'a str,
}

/// The case that the fields spell.
fn case_of<'a>(alloc: Global, fields: &Fields<'a>) -> Result<Case<'a>, CaseError>
    ensures { IfOk result (λ case. IsCase fields.now case) }
{
    let before = read_state(alloc, fields.words, fields.eip, fields.flags)?;
    let outcome = read_outcome(fields.ends)?;
    let after = read_state(
        alloc,
        fields.words_after,
        fields.eip_after,
        fields.flags_after,
    )?;
    let mask = read_number(fields.mask)?;
    let memory = bytes_of(alloc, fields.memory)?;
    let memory_after = memory_with_changes(alloc, memory.as_slice(), fields.changes)?;
    let code = code_of(alloc, fields.code)?;
    let bytes = bytes_of(alloc, fields.spelling)?;
    Ok(Case {
        row: fields.row,
        spelling: fields.spelling,
        bytes,
        code,
        memory,
        before,
        outcome,
        after,
        mask,
        memory_after: Bytes::from_vec(memory_after),
    })
}

/// Reads a line that records a real processor's case.
pub fn parse_case<'a>(alloc: Global, line: &'a str) -> Result<Case<'a>, CaseError>
    ensures { IfOk result IsCaseSpelled }
{
    let parts: Vec<&'a str> = line.split(" | ").collect(alloc)?;
    let texts = parts.as_slice();
    if texts.len() != FIELD_COUNT {
        return Err(CaseError::Malformed);
    }
    let fields = Fields {
        row: texts[0],
        spelling: texts[1],
        code: texts[2],
        memory: texts[3],
        words: texts[4],
        eip: texts[5],
        flags: texts[6],
        ends: texts[7],
        words_after: texts[8],
        eip_after: texts[9],
        flags_after: texts[10],
        mask: texts[11],
        changes: texts[12],
    };
    case_of(alloc, &fields)
}
