//! Positions in a history.

ghost use Rattle.std.specs.Prelude.{◌≡◌, MatchOption, Some, None, true, false};
ghost use Rattle.mx_walk.specs.Positions.{IsBefore, IsPosition, IsUpTo, next_event, is_position, is_up_to, next_position, own_event, position_before, steps_in};

use mx_machine::{Event, Record, Recorded};

/// A position in a history: after this many of its records, and after this many steps of the record that
/// comes next.
#[derive(Clone, Copy, Debug, PartialEq, Eq)]
pub struct Position {
    pub records: usize,
    pub steps: u32,
}

/// The first position: before all records.
pub const FIRST: Position = Position {
    records: 0,
    steps: 0,
};

/// Whether a position is before another, or is it.
pub fn is_up_to(at: Position, to: Position) -> bool
    ensures yes { result ≡ true → IsUpTo at to }
    ensures no { result ≡ false → IsBefore to at }
    ensures value { result ≡ is_up_to at to }
{
    if at.records == to.records {
        at.steps <= to.steps
    } else {
        at.records < to.records
    }
}

/// How many steps a record represents.
pub fn steps_in(event: Recorded) -> u32
    ensures { result ≡ steps_in event }
{
    match event {
        Recorded::Back(steps) => steps,
        Recorded::Take
        | Recorded::Line(_)
        | Recorded::Tick
        | Recorded::Kill(_)
        | Recorded::Respawn(_) => 0,
    }
}

/// The event of a record, after the steps that it represents.
pub fn own_event(event: Recorded) -> Event
    ensures { result ≡ own_event event }
{
    match event {
        Recorded::Take => Event::Take,
        Recorded::Back(_) => Event::Back,
        Recorded::Line(line) => Event::Line(line),
        Recorded::Tick => Event::Tick,
        Recorded::Kill(endpoint) => Event::Kill(endpoint),
        Recorded::Respawn(slot) => Event::Respawn(slot),
    }
}

/// The event after a position, its actor, and the position after it.
#[derive(Clone, Copy)]
pub struct NextEvent {
    pub actor: u8,
    pub event: Event,
    pub position: Position,
}

/// The event after a position, if it isn't the end.
pub fn next_event(records: &[Record], at: Position) -> Option<NextEvent>
    requires { IsPosition records.now at }
    ensures { MatchOption result (next_event records.now at ≡ None) (λ next.
        (next_event records.now at ≡ Some (next.actor, next.event))
        × (next.position ≡ next_position records.now at)) }
{
    if at.records >= records.len() {
        return None;
    }
    let entry = records[at.records];
    if at.steps < steps_in(entry.event) {
        return Some(NextEvent {
            actor: entry.actor,
            event: Event::Step,
            position: Position {
                records: at.records,
                steps: at.steps + 1,
            },
        });
    }
    Some(NextEvent {
        actor: entry.actor,
        event: own_event(entry.event),
        position: Position {
            records: at.records + 1,
            steps: 0,
        },
    })
}

/// The position before another, if that isn't the first.
pub fn position_before(records: &[Record], at: Position) -> Option<Position>
    requires { IsPosition records.now at }
    ensures { MatchOption result (at ≡ record { records = 0; steps = 0 }) (λ before.
        (before ≡ position_before records.now at) × IsBefore before at) }
{
    if at.steps > 0 {
        return Some(Position {
            records: at.records,
            steps: at.steps - 1,
        });
    }
    if at.records == 0 {
        return None;
    }
    let earlier = at.records - 1;
    Some(Position {
        records: earlier,
        steps: steps_in(records[earlier].event),
    })
}

/// Whether this is a position of a history.
pub fn is_position(records: &[Record], at: Position) -> bool
    ensures yes { result ≡ true → IsPosition records.now at }
    ensures no { IsPosition records.now at → result ≡ true }
    ensures value { result ≡ is_position records.now at }
{
    if at.records < records.len() {
        at.steps <= steps_in(records[at.records].event)
    } else {
        at.records == records.len() && at.steps == 0
    }
}
