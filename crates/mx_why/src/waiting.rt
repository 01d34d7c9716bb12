//! Who waits for whom, and who may go on if a line is raised or the clock ticks.

ghost use Rattle.std.specs.Prelude.{◌≡◌, ◌++◌, ◌<◌, length, nat_le, IfOk, OnOk};
ghost use Rattle.mx_why.specs.Waiting.{alarm_for, chain, first_reached, is_among, is_next, is_reached, line_for, may_name, may_send, may_trap, may_wake, next_reached, partner_of, reached, takes_alarms, takes_lines, waits_for, wakes_from_outside, waking_alarm, waking_line};
ghost use Rattle.mx_why.specs.Verdicts.{is_in};

use crate::seats::{End, Seat};
use mx_print_report::{Awaited, Doing};
use mx_word::has_bit;
use std::alloc::{AllocError, Global};

/// The numbers of the traps, which are their bits in a mask.
pub(crate) const SEND: u32 = 1;

pub(crate) const RECEIVE: u32 = 2;

pub(crate) const SENDREC: u32 = 3;

pub(crate) const NOTIFY: u32 = 4;

/// How many slots there may be, and so how long a chain of different ones may be.
const MOST_SLOTS: u32 = 32;

/// The slot for whose process one waits that does this.
pub(crate) fn partner_of(doing: Doing) -> Option<u32>
    ensures { result ≡ partner_of doing }
{
    match doing {
        Doing::Sending(slot) | Doing::Calling(slot) | Doing::Awaiting(slot) => Some(slot),
        Doing::Receiving(Awaited::Process(slot)) => Some(slot),
        _ => None,
    }
}

/// The slot for whose process that of a slot waits.
pub(crate) fn waits_for(end: &End, slot: u32) -> Option<u32>
    ensures { result ≡ waits_for end.now slot }
{
    match end.doing(slot) {
        Some(doing) => partner_of(doing),
        None => None,
    }
}

/// Appends the chain from a slot on: for whom it waits, for whom that one waits, and so on. One that closes has 32.
#[tactic(auto, unfolding(crate::specs::Waiting::chain), using(crate::proofs::Chains::chain_ends, crate::proofs::Chains::chain_over))]
fn push_chain(slots: &mut Vec<u32>, end: &End, slot: u32) -> Result<(), AllocError>
    ensures { OnOk result (slots.new.items ≡ slots.old.items ++ chain end.now slot) }
{
    let mut at = slot;
    for count in 0..MOST_SLOTS {
        match waits_for(end, at) {
            Some(next) => {
                slots.push(next)?;
                at = next;
            }
            None => return Ok(()),
        }
    }
    Ok(())
}

/// The chain from a slot on.
pub(crate) fn chain_from(alloc: Global, end: &End, slot: u32) -> Result<Vec<u32>, AllocError>
    ensures { IfOk result (λ slots. slots.items ≡ chain end.now slot) }
{
    let mut slots = Vec::new(alloc);
    push_chain(&mut slots, end, slot)?;
    Ok(slots)
}

/// Whether a chain closes: it has more slots than there are different ones.
pub(crate) fn closes(chain: &[u32]) -> bool
    ensures { result ≡ nat_le 32 (length chain.now) }
{
    chain.len() >= MOST_SLOTS as usize
}

/// Whether a slot is in a chain. One that is in its own waits in a ring.
pub(crate) fn is_in(chain: &[u32], slot: u32) -> bool
    ensures { result ≡ is_in chain.now slot }
{
    chain.iter().any(|other| *other == slot)
}

/// Whether what a process waits for may be an interrupt line.
fn takes_lines(doing: Doing) -> bool
    ensures { result ≡ takes_lines doing }
{
    matches!(
        doing,
        Doing::Receiving(Awaited::Any) | Doing::Receiving(Awaited::Hardware)
    )
}

/// Whether what a process waits for may be its alarm.
fn takes_alarms(doing: Doing) -> bool
    ensures { result ≡ takes_alarms doing }
{
    matches!(
        doing,
        Doing::Receiving(Awaited::Any) | Doing::Receiving(Awaited::Clock)
    )
}

/// The first line by which the process of a slot may go on.
pub(crate) fn waking_line(end: &End, slot: u32) -> Option<u32>
    ensures { result ≡ waking_line end.now slot }
{
    match end.seat(slot) {
        Some(seat) if takes_lines(seat.doing) => end.first_line(slot),
        _ => None,
    }
}

/// The uptime at which the process of a slot goes on by its alarm.
pub(crate) fn waking_alarm(end: &End, slot: u32) -> Option<u64>
    ensures { result ≡ waking_alarm end.now slot }
{
    match end.seat(slot) {
        Some(seat) if takes_alarms(seat.doing) => seat.alarm,
        _ => None,
    }
}

/// Whether a line or an alarm may make the process of a slot go on.
fn wakes_from_outside(end: &End, slot: u32) -> bool
    ensures { result ≡ wakes_from_outside end.now slot }
{
    waking_line(end, slot).is_some() || waking_alarm(end, slot).is_some()
}

/// Whether a process may make this trap.
pub(crate) fn may_trap(seat: &Seat, trap: u32) -> bool
    ensures { result ≡ may_trap seat.now trap }
{
    trap < 32 && has_bit(seat.traps, trap)
}

/// Whether the send mask of a process has the bit of a slot.
pub(crate) fn may_name(seat: &Seat, slot: u32) -> bool
    ensures { result ≡ may_name seat.now slot }
{
    slot < 32 && has_bit(seat.sends, slot)
}

/// Whether the process of a slot may send to another, or notify it.
pub(crate) fn may_send(end: &End, from: u32, to: u32) -> bool
    ensures { result ≡ may_send end.now from to }
{
    match end.seat(from) {
        Some(seat) => {
            may_name(seat, to)
                && (may_trap(seat, SEND) || may_trap(seat, SENDREC) || may_trap(seat, NOTIFY))
        }
        None => false,
    }
}

/// Whether a process that goes on may make another go on: it may send to it, or that one waits for it.
fn may_wake(end: &End, from: u32, to: u32) -> bool
    ensures { result ≡ may_wake end.now from to }
{
    may_send(end, from, to) || waits_for(end, to) == Some(from)
}

/// Whether a slot is one of those that may go on.
pub(crate) fn is_among(reached: &[bool; 32], slot: u32) -> bool
    ensures { result ≡ is_among reached.now slot }
{
    if slot as usize >= reached.len() {
        return false;
    }
    reached[slot as usize]
}

/// Whether one of those that may go on may make the process of a slot go on.
fn is_next(end: &End, reached: &[bool; 32], slot: u32) -> bool
    ensures { result ≡ is_next end.now reached.now slot }
{
    (0..32u32).any(|from| is_among(reached, from) && may_wake(end, from, slot))
}

/// Who may go on by a line or an alarm.
fn first_reached(end: &End) -> [bool; 32]
    ensures { result ≡ first_reached end.now }
{
    let mut reached = [false; 32];
    for slot in 0..32u32 {
        reached[slot as usize] = wakes_from_outside(end, slot);
    }
    reached
}

/// Whether the process of a slot may go on, or one of those that may may make it go on.
fn is_reached(end: &End, reached: &[bool; 32], slot: u32) -> bool
    ensures { result ≡ is_reached end.now reached.now slot }
{
    is_among(reached, slot) || is_next(end, reached, slot)
}

/// Those that may go on, and those that one of them may make go on.
fn next_reached(end: &End, reached: &[bool; 32]) -> [bool; 32]
    ensures { result ≡ next_reached end.now reached.now }
{
    let mut next = [false; 32];
    for slot in 0..32u32 {
        next[slot as usize] = is_reached(end, reached, slot);
    }
    next
}

/// Who may go on by a line or an alarm, or since another does that may.
pub(crate) fn reached(end: &End) -> [bool; 32]
    ensures { result ≡ reached end.now }
{
    let mut reached = first_reached(end);
    for round in 0..MOST_SLOTS {
        reached = next_reached(end, &reached);
    }
    reached
}
