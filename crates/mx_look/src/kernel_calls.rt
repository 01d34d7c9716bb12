//! Kernel calls: what is asked, and what is answered. Names and counts of words are those of the table of
//! kernel calls. A type is that of a call only if the rules have the call.

ghost use Rattle.std.specs.Prelude.{◌≡◌, ◌≤◌, ◌++◌, OnOk, option_copied, option_map, position, slice_index};
ghost use Rattle.std.specs.Str.{bytes_eq};
ghost use Rattle.mx_kcall.specs.Rows.{calls, name_of, row_of, row_under};
ghost use Rattle.mx_look.specs.KernelCalls.{answer_count, answer_text, other_type, request_name, request_text, request_type, request_words, row_by_digits};

use crate::refusals::request_reason;
use crate::result_names::{push_result, push_spaced};
use crate::{CpuGlance, Glance, asks_kernel};
use mx_kcall::{CALLS, CallRow, FIRST_CALL, call_row, row_under};
use mx_print_report::{push_counted, push_decimal};
use mx_proc::Rules;
use std::alloc::AllocError;

/// The name of the call of a type, or nothing if these rules have none.
#[tactic(auto, unfolding(crate::specs::KernelCalls::request_name))]
pub fn request_name(rules: Rules, kind: u32) -> &'static [u8]
    ensures { result.now ≡ request_name rules kind }
{
    match row_under(rules, kind) {
        Some(row) => row.name(),
        None => b"",
    }
}

/// The place in the table of the call of this name.
fn call_named(name: &[u8]) -> Option<usize>
    ensures { result ≡ position (λ row. bytes_eq name.now (name_of row)) calls }
{
    CALLS.iter().position(|row| name == row.name())
}

/// The type of the call of this name, whichever rules have it.
pub fn request_type(name: &[u8]) -> Option<u32>
    ensures { result ≡ request_type name.now }
{
    Some(FIRST_CALL + call_named(name)? as u32)
}

/// The call whose type has these decimal digits, read in hexadecimal.
fn row_by_digits(rules: Rules, kind: u32) -> Option<&'static CallRow>
    ensures { option_copied result ≡ row_by_digits rules kind }
{
    if kind < 600 || kind > 609 {
        return None;
    }
    row_under(rules, kind - 600 + FIRST_CALL)
}

/// Appends a type that no call has, and the call whose type it is if its digits are hexadecimal.
#[tactic(auto, unfolding(crate::specs::KernelCalls::other_type))]
fn push_other_type(out: &mut Vec<u8>, rules: Rules, kind: u32) -> Result<(), AllocError>
    ensures { OnOk result (out.new.items ≡ out.old.items ++ other_type rules kind) }
{
    push_counted(out, b", type", kind)?;
    let Some(row) = row_by_digits(rules, kind) else {
        return Ok(());
    };
    out.extend_from_slice(b": 0x")?;
    push_decimal(out, kind)?;
    out.extend_from_slice(b" is ")?;
    out.extend_from_slice(row.name())
}

/// Appends a request.
#[tactic(auto, unfolding(crate::specs::KernelCalls::request_words))]
fn push_request_words(out: &mut Vec<u8>, rules: Rules, words: &[u32; 9]) -> Result<(), AllocError>
    ensures { OnOk result (out.new.items ≡ out.old.items ++ request_words rules words.now) }
{
    let kind = words[1];
    let Some(row) = row_under(rules, kind) else {
        return push_other_type(out, rules, kind);
    };
    out.extend_from_slice(b", ")?;
    out.extend_from_slice(row.name())?;
    push_spaced(out, &words[2..2 + row.words])
}

/// Appends what a process asks of the kernel, if its trap does and the words lie inside its memory.
#[tactic(auto, unfolding(crate::specs::KernelCalls::request_text))]
pub fn push_request(out: &mut Vec<u8>, rules: Rules, held: &CpuGlance) -> Result<(), AllocError>
    ensures { OnOk result (out.new.items ≡ out.old.items ++ request_text rules held.now) }
{
    match &held.image.words {
        Some(words) if asks_kernel(held) => push_request_words(out, rules, words),
        _ => Ok(()),
    }
}

/// How many words the reply to a request has, if it is made.
fn answer_count(kind: u32, first: u32) -> usize
    ensures count { result ≡ answer_count (row_of kind) first }
    ensures few { result ≤ 7 }
{
    match call_row(kind) {
        Some(row) => row.reply_words(first),
        None => 0,
    }
}

/// Appends the reply to a request, by the machine that has answered it.
#[tactic(auto, unfolding(crate::specs::KernelCalls::answer_text))]
pub(crate) fn push_answer(
    out: &mut Vec<u8>,
    glance: &Glance,
    request: &[u32; 9],
    reply: &[u32; 9],
) -> Result<(), AllocError>
    ensures { OnOk result (out.new.items ≡ out.old.items
        ++ answer_text glance.now request.now reply.now) }
{
    out.extend_from_slice(b"answer ")?;
    push_result(out, reply[1])?;
    if reply[1] != 0 {
        return out.extend_from_slice(request_reason(glance, request, reply[1]));
    }
    push_spaced(out, &reply[2..2 + answer_count(request[1], request[2])])
}
