//! The lines of those that wait, and of those that never ran.

ghost use Rattle.std.specs.Prelude.{◌≡◌, ◌++◌, OnOk, count_by, slice_index_or, unwrap_or, None};
ghost use Rattle.std.specs.List.{flat_map, list_any, range_with_len};
ghost use Rattle.mx_why.specs.Seats.{doing_in, is_slot, owns};
ghost use Rattle.mx_why.specs.Waiting.{waits_for};
ghost use Rattle.mx_why.specs.Lines.{awaits_line_text, comma_text, doing_if, due_text, for_ring_text, further_text, idle_at, idle_text, is_idle, is_kind, is_said, is_told, kind_of, left_out_text, line_text, may_come_text, nothing_text, owned_text, ring_rest, ring_text, said_line, verdict_text, wait_at, wait_line, waits_text, waker_text, which_ring_text};

use crate::notes::{Note, has_run};
use crate::reasons::{push_reason, push_since, push_slot, push_verb, push_waiting};
use crate::seats::End;
use crate::verdicts::Verdict;
use crate::waiting::{chain_from, waits_for, waking_alarm, waking_line};
use mx_print_report::{push_counted, push_decimal, push_doing, push_long};
use std::alloc::AllocError;

/// The most lines of a kind.
pub(crate) const MOST_LINES: usize = 8;

/// Appends how many lines of a kind are left out, if any are.
#[tactic(auto, unfolding(crate::specs::Lines::left_out_text))]
pub(crate) fn push_left_out(out: &mut Vec<u8>, kind: &[u8], count: usize) -> Result<(), AllocError>
    ensures { OnOk result (out.new.items ≡ out.old.items ++ left_out_text kind.now count) }
{
    if count <= MOST_LINES {
        return Ok(());
    }
    out.extend_from_slice(kind)?;
    out.extend_from_slice(b"and ")?;
    push_long(out, (count - MOST_LINES) as u64)?;
    out.extend_from_slice(b" more\n")
}

/// Appends those of a chain up to a slot.
#[tactic(auto, using(crate::proofs::Rings::text_ends, crate::proofs::Rings::text_more, crate::proofs::Rings::text_over))]
fn push_ring_rest(out: &mut Vec<u8>, end: &End, slot: u32, chain: &[u32]) -> Result<(), AllocError>
    ensures { OnOk result (out.new.items ≡ out.old.items ++ ring_rest end.now slot chain.now) }
{
    for other in chain {
        if *other == slot {
            return Ok(());
        }
        out.extend_from_slice(b", ")?;
        push_waiting(out, end, *other)?;
    }
    Ok(())
}

/// Appends that those of a ring wait for each other, from a slot on.
#[tactic(auto, unfolding(crate::specs::Lines::ring_text))]
fn push_ring(out: &mut Vec<u8>, end: &End, slot: u32) -> Result<(), AllocError>
    ensures { OnOk result (out.new.items ≡ out.old.items ++ ring_text end.now slot) }
{
    let chain = chain_from(*out.allocator(), end, slot)?;
    out.extend_from_slice(b": they wait for each other: ")?;
    push_waiting(out, end, slot)?;
    push_ring_rest(out, end, slot, chain.as_slice())
}

/// Whether the process of a slot waits for itself.
fn waits_for_itself(end: &End, slot: u32) -> bool
    ensures { result ≡ is_slot slot (waits_for end.now slot) }
{
    match waits_for(end, slot) {
        Some(partner) => partner == slot,
        None => false,
    }
}

/// Appends in which ring one waits, of which this slot comes first.
#[tactic(auto, unfolding(crate::specs::Lines::which_ring_text))]
fn push_which_ring(out: &mut Vec<u8>, end: &End, partner: u32, first: u32) -> Result<(), AllocError>
    ensures { OnOk result (out.new.items ≡ out.old.items ++ which_ring_text end.now partner first) }
{
    if waits_for_itself(end, partner) {
        out.extend_from_slice(b" waits for itself")
    } else {
        push_verb(out, end, b" waits too, in the ring of ", first)
    }
}

/// Appends that one waits for a ring, of which this slot comes first.
#[tactic(auto, unfolding(crate::specs::Lines::for_ring_text))]
fn push_for_ring(out: &mut Vec<u8>, end: &End, partner: u32, first: u32) -> Result<(), AllocError>
    ensures { OnOk result (out.new.items ≡ out.old.items ++ for_ring_text end.now partner first) }
{
    out.extend_from_slice(b": ")?;
    push_slot(out, end, partner)?;
    push_which_ring(out, end, partner, first)
}

/// Whether a slot owns a line below one.
fn owns_below(end: &End, slot: u32, line: u32) -> bool
    ensures { result ≡ list_any (owns end.now slot) (range_with_len 0 line) }
{
    (0..line).any(|other| end.owns(slot, other))
}

/// What stands before the number of a line, a later one or the first.
#[tactic(auto, unfolding(crate::specs::Lines::comma_text))]
fn comma(later: bool) -> &'static [u8]
    ensures { result.now ≡ comma_text later }
{
    if later { b", " } else { b" " }
}

/// Appends a line that a slot owns, after a comma if it owns one before.
#[tactic(auto, unfolding(crate::specs::Lines::line_text))]
fn push_owned_line(out: &mut Vec<u8>, end: &End, slot: u32, line: u32) -> Result<(), AllocError>
    ensures { OnOk result (out.new.items ≡ out.old.items ++ line_text end.now slot line) }
{
    if !end.owns(slot, line) {
        return Ok(());
    }
    out.extend_from_slice(comma(owns_below(end, slot, line)))?;
    push_decimal(out, line)
}

/// Appends the lines that a slot owns.
fn push_owned(out: &mut Vec<u8>, end: &End, slot: u32) -> Result<(), AllocError>
    ensures { OnOk result (out.new.items ≡ out.old.items ++ owned_text end.now slot) }
{
    for line in 0..16u32 {
        push_owned_line(out, end, slot, line)?;
    }
    Ok(())
}

/// Appends that nobody raises the lines that a slot owns.
#[tactic(auto, unfolding(crate::specs::Lines::awaits_line_text))]
fn push_awaits_line(out: &mut Vec<u8>, end: &End, slot: u32) -> Result<(), AllocError>
    ensures { OnOk result (out.new.items ≡ out.old.items ++ awaits_line_text end.now slot) }
{
    out.extend_from_slice(b": nobody raises its line")?;
    push_owned(out, end, slot)
}

/// Appends when an alarm rings, and when it is now.
#[tactic(auto, unfolding(crate::specs::Lines::due_text))]
fn push_due(out: &mut Vec<u8>, end: &End, due: u64) -> Result<(), AllocError>
    ensures { OnOk result (out.new.items ≡ out.old.items ++ due_text end.now due) }
{
    out.extend_from_slice(b": its alarm is due at uptime ")?;
    push_long(out, due)?;
    out.extend_from_slice(b", which is ")?;
    push_decimal(out, end.uptime)
}

/// Appends by what one may go on.
#[tactic(auto, unfolding(crate::specs::Lines::waker_text))]
fn push_waker(out: &mut Vec<u8>, line: Option<u32>, alarm: Option<u64>) -> Result<(), AllocError>
    ensures { OnOk result (out.new.items ≡ out.old.items ++ waker_text line alarm) }
{
    match (line, alarm) {
        (Some(line), _) => push_counted(out, b"line", line),
        (None, Some(_)) => out.extend_from_slice(b"an alarm"),
        (None, None) => out.extend_from_slice(b"others"),
    }
}

/// Appends by what the last one of a chain may go on.
#[tactic(auto, unfolding(crate::specs::Lines::may_come_text))]
fn push_may_come(out: &mut Vec<u8>, end: &End, last: u32) -> Result<(), AllocError>
    ensures { OnOk result (out.new.items ≡ out.old.items ++ may_come_text end.now last) }
{
    out.extend_from_slice(b": ")?;
    push_waiting(out, end, last)?;
    out.extend_from_slice(b", and may be woken by ")?;
    push_waker(out, waking_line(end, last), waking_alarm(end, last))
}

/// Appends for whom a partner waits, if it isn't the last one.
#[tactic(auto, unfolding(crate::specs::Lines::further_text))]
fn push_further(out: &mut Vec<u8>, end: &End, partner: u32, last: u32) -> Result<(), AllocError>
    ensures { OnOk result (out.new.items ≡ out.old.items ++ further_text end.now partner last) }
{
    if partner == last {
        return Ok(());
    }
    out.extend_from_slice(b"; ")?;
    push_waiting(out, end, partner)
}

/// Appends why nothing comes from a partner, and for whom that one waits if it isn't the last.
#[tactic(auto, unfolding(crate::specs::Lines::nothing_text))]
fn push_nothing(
    out: &mut Vec<u8>,
    end: &End,
    notes: &[Note],
    slot: u32,
    partner: u32,
    last: u32,
) -> Result<(), AllocError>
    ensures { OnOk result (out.new.items ≡ out.old.items
        ++ nothing_text end.now notes.now slot partner last) }
{
    match end.doing(slot) {
        Some(doing) => {
            out.extend_from_slice(b": ")?;
            push_reason(out, end, notes, slot, doing, partner)?;
            push_further(out, end, partner, last)
        }
        None => Ok(()),
    }
}

/// The slot of the process for which that of a slot waits; of one that waits for none, itself.
fn partner(end: &End, slot: u32) -> u32
    ensures { result ≡ unwrap_or (waits_for end.now slot) slot }
{
    waits_for(end, slot).unwrap_or(slot)
}

/// Appends a verdict on a slot's process.
#[tactic(auto, unfolding(crate::specs::Lines::verdict_text))]
fn push_verdict(
    out: &mut Vec<u8>,
    end: &End,
    notes: &[Note],
    slot: u32,
    verdict: Verdict,
) -> Result<(), AllocError>
    ensures { OnOk result (out.new.items ≡ out.old.items
        ++ verdict_text end.now notes.now slot verdict) }
{
    match verdict {
        Verdict::Itself => out.extend_from_slice(b": it waits for itself"),
        Verdict::Ring => push_ring(out, end, slot),
        Verdict::ForRing(first) => push_for_ring(out, end, partner(end, slot), first),
        Verdict::NoLine => out.extend_from_slice(b", but it owns no line"),
        Verdict::NoAlarm => out.extend_from_slice(b", but it has no alarm"),
        Verdict::FromSystem => out.extend_from_slice(b", which never sends"),
        Verdict::NoSender => {
            out.extend_from_slice(b": nobody may send to it, it owns no line and has no alarm")
        }
        Verdict::NothingComes(last) => {
            push_nothing(out, end, notes, slot, partner(end, slot), last)
        }
        Verdict::AwaitsLine => push_awaits_line(out, end, slot),
        Verdict::AwaitsAlarm(due) => push_due(out, end, due),
        Verdict::MayComeBy(last) => push_may_come(out, end, last),
    }
}

/// Appends the line of a slot's process that waits, without its kind.
#[tactic(auto, unfolding(crate::specs::Lines::wait_line))]
fn push_wait_line(
    out: &mut Vec<u8>,
    end: &End,
    notes: &[Note],
    slot: u32,
    verdict: Verdict,
) -> Result<(), AllocError>
    ensures { OnOk result (out.new.items ≡ out.old.items
        ++ wait_line end.now notes.now slot verdict) }
{
    push_waiting(out, end, slot)?;
    push_since(out, notes, slot)?;
    push_verdict(out, end, notes, slot, verdict)?;
    out.extend_from_slice(b"\n")
}

/// The word before the lines of those that never go on, and of those that may.
fn kind_of(is_never: bool) -> &'static [u8]
    ensures { result.now ≡ kind_of is_never }
{
    if is_never { b"never: " } else { b"waits: " }
}

/// What is said of a slot.
fn said_of(said: &[Option<Verdict>; 32], slot: u32) -> Option<Verdict>
    ensures { result ≡ slice_index_or said.now slot None }
{
    if slot as usize >= said.len() {
        return None;
    }
    said[slot as usize]
}

/// Whether a slot has a line of a kind.
fn is_said(said: &[Option<Verdict>; 32], is_never: bool, slot: u32) -> bool
    ensures { result ≡ is_said said.now is_never slot }
{
    match said_of(said, slot) {
        Some(verdict) => verdict.is_never() == is_never,
        None => false,
    }
}

/// How many slots below one have a line of a kind.
pub(crate) fn count_said(said: &[Option<Verdict>; 32], is_never: bool, below: u32) -> usize
    ensures { result ≡ count_by (is_said said.now is_never) (range_with_len 0 below) }
{
    (0..below)
        .filter(|slot| is_said(said, is_never, *slot))
        .count()
}

/// Appends the line of a slot, if it has one of this kind and is one of the first that have.
#[tactic(auto, unfolding(crate::specs::Lines::wait_at))]
fn push_wait_at(
    out: &mut Vec<u8>,
    end: &End,
    notes: &[Note],
    said: &[Option<Verdict>; 32],
    is_never: bool,
    slot: u32,
) -> Result<(), AllocError>
    ensures { OnOk result (out.new.items ≡ out.old.items
        ++ wait_at end.now notes.now said.now is_never slot) }
{
    if !is_said(said, is_never, slot) || count_said(said, is_never, slot) >= MOST_LINES {
        return Ok(());
    }
    out.extend_from_slice(kind_of(is_never))?;
    match said_of(said, slot) {
        Some(verdict) => push_wait_line(out, end, notes, slot, verdict),
        None => Ok(()),
    }
}

/// Appends the lines of a kind.
fn push_each_wait(
    out: &mut Vec<u8>,
    end: &End,
    notes: &[Note],
    said: &[Option<Verdict>; 32],
    is_never: bool,
) -> Result<(), AllocError>
    ensures { OnOk result (out.new.items ≡ out.old.items
        ++ flat_map (wait_at end.now notes.now said.now is_never) (range_with_len 0 32)) }
{
    for slot in 0..32u32 {
        push_wait_at(out, end, notes, said, is_never, slot)?;
    }
    Ok(())
}

/// Appends the lines of those that never go on, or of those that may.
#[tactic(auto, unfolding(crate::specs::Lines::waits_text))]
pub(crate) fn push_waits(
    out: &mut Vec<u8>,
    end: &End,
    notes: &[Note],
    said: &[Option<Verdict>; 32],
    is_never: bool,
) -> Result<(), AllocError>
    ensures { OnOk result (out.new.items ≡ out.old.items
        ++ waits_text end.now notes.now said.now is_never) }
{
    push_each_wait(out, end, notes, said, is_never)?;
    push_left_out(out, kind_of(is_never), count_said(said, is_never, 32))
}

/// Whether the process of a slot never ran.
fn is_idle(end: &End, notes: &[Note], slot: u32) -> bool
    ensures { result ≡ is_idle end.now notes.now slot }
{
    match end.seat(slot) {
        Some(_) => !has_run(notes, slot),
        None => false,
    }
}

/// How many slots below one have a process that never ran.
pub(crate) fn count_idle(end: &End, notes: &[Note], below: u32) -> usize
    ensures { result ≡ count_by (is_idle end.now notes.now) (range_with_len 0 below) }
{
    (0..below).filter(|slot| is_idle(end, notes, *slot)).count()
}

/// Appends what the process of a slot does.
fn push_doing_of(out: &mut Vec<u8>, end: &End, slot: u32) -> Result<(), AllocError>
    ensures { OnOk result (out.new.items ≡ out.old.items ++ doing_if (doing_in end.now slot)) }
{
    match end.doing(slot) {
        Some(doing) => push_doing(out, doing),
        None => Ok(()),
    }
}

/// Appends the line of a slot whose process never ran, if it is one of the first.
#[tactic(auto, unfolding(crate::specs::Lines::idle_at))]
fn push_idle_at(out: &mut Vec<u8>, end: &End, notes: &[Note], slot: u32) -> Result<(), AllocError>
    ensures { OnOk result (out.new.items ≡ out.old.items ++ idle_at end.now notes.now slot) }
{
    if !is_idle(end, notes, slot) || count_idle(end, notes, slot) >= MOST_LINES {
        return Ok(());
    }
    out.extend_from_slice(b"idle: ")?;
    push_slot(out, end, slot)?;
    out.extend_from_slice(b" never ran: it is ")?;
    push_doing_of(out, end, slot)?;
    out.extend_from_slice(b"\n")
}

/// Appends the first lines of the slots whose process never ran.
fn push_each_idle(out: &mut Vec<u8>, end: &End, notes: &[Note]) -> Result<(), AllocError>
    ensures { OnOk result (out.new.items ≡ out.old.items
        ++ flat_map (idle_at end.now notes.now) (range_with_len 0 32)) }
{
    for slot in 0..32u32 {
        push_idle_at(out, end, notes, slot)?;
    }
    Ok(())
}

/// Appends the lines of the slots whose process never ran.
#[tactic(auto, unfolding(crate::specs::Lines::idle_text))]
pub(crate) fn push_idle(out: &mut Vec<u8>, end: &End, notes: &[Note]) -> Result<(), AllocError>
    ensures { OnOk result (out.new.items ≡ out.old.items ++ idle_text end.now notes.now) }
{
    push_each_idle(out, end, notes)?;
    push_left_out(out, b"idle: ", count_idle(end, notes, 32))
}
