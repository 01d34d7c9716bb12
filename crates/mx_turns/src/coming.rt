//! The outside events of a history.

ghost use Rattle.std.specs.Prelude.{◌≡◌, ◌≤◌, ◌+◌, ◌++◌, drop, IfOk, length};
ghost use Rattle.mx_turns.specs.Sweep.{coming, outside_event};

use crate::outside::OutsideLine;
use mx_machine::{Event, Record, Recorded};
use std::alloc::{AllocError, Global};

/// The outside event that a record has, if it is a line or a tick.
fn outside_event(event: Recorded) -> Option<OutsideLine>
    ensures { result ≡ outside_event event }
{
    match event {
        Recorded::Line(line) => Some(OutsideLine::Plain(Event::Line(line))),
        Recorded::Tick => Some(OutsideLine::Plain(Event::Tick)),
        _ => None,
    }
}

/// The lines and the ticks of records, in order.
fn coming_of(alloc: Global, records: &[Record]) -> Result<Vec<OutsideLine>, AllocError>
    ensures { IfOk result (λ events. events.items ≡ coming records.now) }
{
    let mut events = Vec::new(alloc);
    for entry in records {
        if let Some(event) = outside_event(entry.event) {
            events.push(event)?;
        }
    }
    Ok(events)
}

/// The lines and the ticks of a history, listed once, and how many of them are past at a position.
#[derive(Drop)]
pub struct Coming {
    pub all: Vec<OutsideLine>,
    pub past: usize,
}

impl Coming {
    /// Those of these records, at the first position.
    pub(crate) fn new(alloc: Global, records: &[Record]) -> Result<Coming, AllocError>
        ensures all { IfOk result (λ made. made.all.items ≡ coming records.now) }
        ensures past { IfOk result (λ made. made.past ≡ 0) }
    {
        let all = coming_of(alloc, records)?;
        Ok(Coming { all, past: 0 })
    }

    /// Goes past those of these records.
    pub(crate) fn pass(&mut self, records: &[Record])
        requires { self.old.past + length (coming records.now) ≤ length self.old.all.items }
        ensures all { self.new.all ≡ self.old.all }
        ensures past { self.new.past ≡ self.old.past + length (coming records.now) }
    {
        for entry in records {
            if outside_event(entry.event).is_some() {
                self.past += 1;
            }
        }
    }

    /// Those that aren't past.
    pub(crate) fn left(&self) -> &[OutsideLine]
        requires { self.now.past ≤ length self.now.all.items }
        ensures { result.now ≡ drop self.now.past self.now.all.items }
    {
        &self.all[self.past..]
    }
}
