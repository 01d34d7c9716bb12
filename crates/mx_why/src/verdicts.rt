//! Whether the process of a slot, which waits, can ever go on.

ghost use Rattle.std.specs.Prelude.{◌≡◌, ◌<◌, IfOk, length, nat_le};
ghost use Rattle.std.specs.List.{list_all};
ghost use Rattle.mx_why.specs.Verdicts.{alone, behind, by_chain, closed, from_any, from_nobody, from_own_alarm, has_no_sender, has_sender, is_never, ring_in, verdict, verdicts};
ghost use Rattle.mx_why.specs.Waiting.{chain};

use crate::seats::End;
use crate::waiting::{
    chain_from, closes, is_among, is_in, may_send, partner_of, reached, waking_alarm, waking_line,
};
use mx_print_report::{Awaited, Doing};
use std::alloc::{AllocError, Global};

/// What is said of a process that waits.
#[derive(Clone, Copy)]
pub enum Verdict {
    /// It waits for itself: it never goes on.
    Itself,
    /// It waits in a ring, of whose slots it has the lowest: they never go on.
    Ring,
    /// It waits for a ring that it isn't in, of which this slot comes first: it never goes on.
    ForRing(u32),
    /// It waits for HARDWARE and owns no line: it never goes on.
    NoLine,
    /// It waits for CLOCK and has no alarm: it never goes on.
    NoAlarm,
    /// It waits for SYSTEM, which never sends.
    FromSystem,
    /// Nobody may send to it, and it has neither a line nor an alarm: it never goes on.
    NoSender,
    /// At rest: nothing makes this last one of its chain go on.
    NothingComes(u32),
    /// A line may be raised.
    AwaitsLine,
    /// Its alarm rings at this uptime.
    AwaitsAlarm(u64),
    /// At rest: a line or an alarm may make this last one of its chain go on.
    MayComeBy(u32),
}

impl Verdict {
    /// Whether it never goes on.
    pub fn is_never(self) -> bool
        ensures { result ≡ is_never self }
    {
        !matches!(
            self,
            Verdict::AwaitsLine | Verdict::AwaitsAlarm(_) | Verdict::MayComeBy(_)
        )
    }
}

/// Whether a process whose chain closes has the lowest slot of its chain.
fn is_lowest(chain: &[u32], slot: u32) -> bool
    ensures { result ≡ list_all (λ p. nat_le slot p) chain.now }
{
    chain.iter().all(|other| slot <= *other)
}

/// The first slot of a chain that comes again in it.
fn first_of_ring(chain: &[u32]) -> Option<u32>
    ensures { result ≡ ring_in chain.now }
{
    for index in 0..chain.len() {
        let slot = chain[index];
        if is_in(&chain[index + 1..], slot) {
            return Some(slot);
        }
    }
    None
}

/// What is said of a process whose chain closes.
#[tactic(auto, unfolding(crate::specs::Verdicts::closed))]
fn closed(chain: &[u32], slot: u32) -> Option<Verdict>
    ensures { result ≡ closed chain.now slot }
{
    if !is_in(chain, slot) {
        return Some(Verdict::ForRing(first_of_ring(chain)?));
    }
    if !is_lowest(chain, slot) {
        return None;
    }
    match chain.first() {
        Some(first) if *first == slot => Some(Verdict::Itself),
        _ => Some(Verdict::Ring),
    }
}

/// Whether another may send to a slot.
#[tactic(auto, unfolding(crate::specs::Verdicts::has_sender))]
fn has_sender(end: &End, slot: u32) -> bool
    ensures { result ≡ has_sender end.now slot }
{
    (0..32u32).any(|from| from != slot && may_send(end, from, slot))
}

/// Whether nobody may send to a slot.
fn has_no_sender(end: &End, slot: u32) -> bool
    ensures { result ≡ has_no_sender end.now slot }
{
    !has_sender(end, slot)
}

/// What is said of a process that receives from anybody and has an alarm: at rest that it waits for it.
fn from_own_alarm(end: &End, due: u64) -> Option<Verdict>
    ensures { result ≡ from_own_alarm end.now due }
{
    if end.at_rest {
        Some(Verdict::AwaitsAlarm(due))
    } else {
        None
    }
}

/// What is said of a process that receives from anybody and has no alarm, if nobody may send to it.
fn from_nobody(end: &End, slot: u32) -> Option<Verdict>
    ensures { result ≡ from_nobody end.now slot }
{
    if waking_line(end, slot).is_none() && has_no_sender(end, slot) {
        Some(Verdict::NoSender)
    } else {
        None
    }
}

/// What is said of a process that receives from anybody.
#[tactic(auto, unfolding(crate::specs::Verdicts::from_any))]
fn from_any(end: &End, slot: u32) -> Option<Verdict>
    ensures { result ≡ from_any end.now slot }
{
    match waking_alarm(end, slot) {
        Some(due) => from_own_alarm(end, due),
        None => from_nobody(end, slot),
    }
}

/// What is said of a process that waits for no process.
#[tactic(auto, unfolding(crate::specs::Verdicts::alone))]
fn alone(end: &End, slot: u32, doing: Doing) -> Option<Verdict>
    ensures { result ≡ alone end.now slot doing }
{
    match doing {
        Doing::Receiving(Awaited::Any) => from_any(end, slot),
        Doing::Receiving(Awaited::System) => Some(Verdict::FromSystem),
        Doing::Receiving(Awaited::Hardware) => match waking_line(end, slot) {
            Some(_) => Some(Verdict::AwaitsLine),
            None => Some(Verdict::NoLine),
        },
        Doing::Receiving(Awaited::Clock) => match waking_alarm(end, slot) {
            Some(due) => Some(Verdict::AwaitsAlarm(due)),
            None => Some(Verdict::NoAlarm),
        },
        _ => None,
    }
}

/// What is said at rest of a process whose chain ends with another.
#[tactic(auto, unfolding(crate::specs::Verdicts::behind))]
fn behind(end: &End, last: u32) -> Option<Verdict>
    ensures { result ≡ behind end.now last }
{
    if !end.at_rest {
        return None;
    }
    if is_among(&reached(end), last) {
        Some(Verdict::MayComeBy(last))
    } else {
        Some(Verdict::NothingComes(last))
    }
}

/// What is said of the process of a slot that waits for another.
fn judge_waiting(alloc: Global, end: &End, slot: u32) -> Result<Option<Verdict>, AllocError>
    ensures { IfOk result (λ said. said ≡ by_chain end.now slot (chain end.now slot)) }
{
    let chain = chain_from(alloc, end, slot)?;
    let slots = chain.as_slice();
    if closes(slots) {
        return Ok(closed(slots, slot));
    }
    match slots.last() {
        Some(last) => Ok(behind(end, *last)),
        None => Ok(None),
    }
}

/// What is said of the process of a slot, if it waits.
#[tactic(auto, using(crate::proofs::Judged::for_none, crate::proofs::Judged::for_nobody, crate::proofs::Judged::for_another))]
fn judge(alloc: Global, end: &End, slot: u32) -> Result<Option<Verdict>, AllocError>
    ensures { IfOk result (λ said. said ≡ verdict end.now slot) }
{
    let Some(doing) = end.doing(slot) else {
        return Ok(None);
    };
    match partner_of(doing) {
        Some(_) => judge_waiting(alloc, end, slot),
        None => Ok(alone(end, slot, doing)),
    }
}

/// What is said of each slot.
pub fn verdicts_on(alloc: Global, end: &End) -> Result<[Option<Verdict>; 32], AllocError>
    ensures { IfOk result (λ said. said ≡ verdicts end.now) }
{
    let mut said = [None; 32];
    for slot in 0..32u32 {
        said[slot as usize] = judge(alloc, end, slot)?;
    }
    Ok(said)
}
