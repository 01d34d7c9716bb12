//! Where requests lead.

ghost use Rattle.std.specs.Prelude.{◌≡◌, ◌++◌, IfErr, IfOk, OnOk, true};
ghost use Rattle.mx_walk.specs.Walks.{shown_to};
ghost use Rattle.mx_walk.specs.Positions.{IsPosition, IsUpTo};
ghost use Rattle.mx_walk.specs.Moves.{back_from, can_go, forward_from, gone_to, position_asked, steps_back, steps_on, up_to_last};

use crate::walker::Walker;
use crate::{Position, Progress, is_position, is_up_to, next_event, position_before};
use mx_word::NoMemory;
use std::alloc::Global;

/// A position of a history, as it is asked for.
#[derive(Clone, Copy)]
pub enum PositionWord {
    /// After this many records, and this many steps of the next.
    After(u32, u32),
    /// The last position.
    End,
}

/// A position, or the last one if that is before it.
fn up_to_last(walker: &Walker, to: Position) -> Position
    requires { to.steps ≡ 0 }
    ensures value { result ≡ up_to_last walker.now to }
    ensures position { IsPosition walker.now.records result }
    ensures early { IsUpTo result walker.now.last }
{
    let last = walker.last();
    if is_up_to(to, last) { to } else { last }
}

/// The start of a later record, at most the last position.
pub fn forward_from(walker: &Walker, count: u32) -> Position
    ensures value { result ≡ forward_from walker.now count }
    ensures position { IsPosition walker.now.records result }
    ensures early { IsUpTo result walker.now.last }
{
    let here = walker.here();
    if count == 0 {
        return here;
    }
    match here.records.checked_add(count as usize) {
        Some(records) => up_to_last(walker, Position { records, steps: 0 }),
        None => walker.last(),
    }
}

/// The start of the record that one is in, or of one before.
pub fn back_from(walker: &Walker, count: u32) -> Position
    ensures value { result ≡ back_from walker.now count }
    ensures position { IsPosition walker.now.records result }
    ensures early { IsUpTo result walker.now.last }
{
    let here = walker.here();
    if count == 0 {
        return here;
    }
    let earlier = if here.steps == 0 { count } else { count - 1 };
    Position {
        records: here.records.saturating_sub(earlier as usize),
        steps: 0,
    }
}

/// That many events on, at most to the last position.
pub fn steps_on(walker: &Walker, count: u32) -> Position
    ensures value { result ≡ steps_on count walker.now walker.now.here }
    ensures position { IsPosition walker.now.records result }
    ensures early { IsUpTo result walker.now.last }
{
    let mut at = walker.here();
    for _ in 0..count {
        if is_up_to(walker.last(), at) {
            return at;
        }
        match next_event(walker.records(), at) {
            Some(next) => at = next.position,
            None => unreachable!(),
        }
    }
    at
}

/// That many events back, at most to the first position.
pub fn steps_back(walker: &Walker, count: u32) -> Position
    ensures value { result ≡ steps_back count walker.now walker.now.here }
    ensures position { IsPosition walker.now.records result }
    ensures early { IsUpTo result walker.now.last }
{
    let mut at = walker.here();
    for _ in 0..count {
        match position_before(walker.records(), at) {
            Some(before) => at = before,
            None => return at,
        }
    }
    at
}

/// The position that is asked for.
fn position_asked(walker: &Walker, asked: PositionWord) -> Position
    ensures { result ≡ position_asked walker.now asked }
{
    match asked {
        PositionWord::After(records, steps) => Position {
            records: records as usize,
            steps,
        },
        PositionWord::End => walker.last(),
    }
}

/// Whether a walker can come to a position.
fn can_go(walker: &Walker, to: Position) -> bool
    ensures value { result ≡ can_go walker.now to }
    ensures position { result ≡ true → IsPosition walker.now.records to }
    ensures early { result ≡ true → IsUpTo to walker.now.last }
{
    if !is_position(walker.records(), to) {
        return false;
    }
    is_up_to(to, walker.last())
}

/// Goes to the position that is asked for, and shows each record that it passes. Answers whether the walker can come
/// there; if not, it stays where it is. Takes memory only to go back, before it shows anything.
pub fn go_to_asked<P: Progress>(
    alloc: Global,
    walker: Walker,
    asked: PositionWord,
    progress: &mut P,
) -> Result<(Walker, bool), NoMemory>
    ensures gone { IfOk result (λ r. r.0 ≡ record walker { here = gone_to walker asked }) }
    ensures can { IfOk result (λ r. r.1 ≡ can_go walker (position_asked walker asked)) }
    ensures shown { OnOk result (P.shown progress.new
        ≡ P.shown progress.old ++ shown_to walker (gone_to walker asked)) }
    ensures unshown { IfErr result (λ _. P.shown progress.new ≡ P.shown progress.old) }
{
    let to = position_asked(&walker, asked);
    if can_go(&walker, to) {
        let walker = walker.go_to(alloc, to, progress)?;
        return Ok((walker, true));
    }
    Ok((walker, false))
}
