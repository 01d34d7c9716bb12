//! Files of a run's outside events.

ghost use Rattle.std.specs.Prelude.{◌≡◌, ◌≤◌, IfErr, IfOk};
ghost use Rattle.mx_text.specs.Fields.{fields};
ghost use Rattle.mx_text.specs.Lines.{lines};
ghost use Rattle.mx_app_turns.specs.Commented.{AreSaid, TellsUnsaid};
ghost use Rattle.mx_app_run.specs.Calls.{call_line, call_of_event, call_of_fields, call_of_outside, tick_of, ticks_of};

use mx_app_turns::{outside_line_of, read_commented};
use mx_boot::{ReadsLine, event_kind_named, only_count};
use mx_cpus::OutsideCall;
use mx_machine::{Config, Event};
use mx_text::{BootError, next_field};
use mx_turns::OutsideLine;
use std::alloc::Global;

/// How many actors that are no processors a file of outside events wants: the first one makes ticks and respawns, and
/// the second one makes the file's calls.
const WANTED_OTHERS: u8 = 2;

/// An outside event, as a call.
fn call_of_event(event: Event) -> Option<OutsideCall>
    ensures { result ≡ call_of_event event }
{
    match event {
        Event::Line(line) => Some(OutsideCall::Line(line)),
        Event::Kill(endpoint) => Some(OutsideCall::Kill(endpoint)),
        Event::Respawn(slot) => Some(OutsideCall::Respawn(slot)),
        Event::Tick => Some(OutsideCall::Tick),
        _ => None,
    }
}

/// What comes from outside, as a call.
fn call_of_outside(line: OutsideLine) -> Option<OutsideCall>
    ensures { result ≡ call_of_outside line }
{
    match line {
        OutsideLine::Plain(event) => call_of_event(event),
        OutsideLine::KillSlot(slot) => Some(OutsideCall::KillSlot(slot)),
    }
}

/// What a line says: `wait N`, or an outside event.
fn call_of(config: &Config, line: &[u8]) -> Option<OutsideCall>
    ensures { result ≡ call_of_fields config.now.lines (fields line.now) }
{
    let (word, rest) = next_field(line)?;
    if word == b"wait".as_slice() {
        return Some(OutsideCall::Wait(only_count(rest)?));
    }
    let kind = event_kind_named(word)?;
    call_of_outside(outside_line_of(config, kind, rest)?)
}

/// Reads the lines of a file for the machine of a configuration.
#[derive(Clone, Copy)]
struct CallReader<'a> {
    config: &'a Config,
}

impl<'a> ReadsLine for CallReader<'a> {
    ghost use Rattle.mx_app_run.specs.Calls.{call_line};

    type Said = OutsideCall;

    ghost says = { λ r line. call_line r.config.now line };

    fn read(&self, line: &[u8]) -> Option<OutsideCall> {
        if self.config.others < WANTED_OTHERS {
            return None;
        }
        call_of(self.config, line)
    }
}

/// The lines of a run's file of outside events, one a line: `line L`, `tick`, `kill E`, `respawn S` and `wait N`, where E
/// and S may be the name of a service. The numbers are decimal, at most 2,147,483,647. Each such line wants a machine
/// with two actors that are no processors, or more. A line may be empty, or end with a comment, which `#` begins.
pub fn outside_calls(
    alloc: Global,
    text: &str,
    config: &Config,
) -> Result<Vec<OutsideCall>, BootError>
    ensures read { IfOk result (λ found.
        AreSaid (call_line config.now) (lines text.now) found.items) }
    ensures unread { IfErr result (λ e.
        TellsUnsaid (call_line config.now) (lines text.now) e) }
{
    read_commented(alloc, &CallReader { config }, text.as_bytes())
}

/// 1 for a tick, and 0 for another call.
fn tick_of(call: OutsideCall) -> usize
    ensures value { result ≡ tick_of call }
    ensures few { result ≤ 1 }
{
    match call {
        OutsideCall::Tick => 1,
        _ => 0,
    }
}

/// How many of some calls are ticks.
pub(crate) fn ticks_of(calls: &[OutsideCall]) -> usize
    ensures { result ≡ ticks_of calls.now }
{
    let mut ticks = 0;
    for call in calls {
        ticks += tick_of(*call);
    }
    ticks
}
