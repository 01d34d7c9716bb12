//! Turns of a machine.

ghost use Rattle.std.specs.Prelude.{◌≡◌, ◌&&◌, ◌<◌, ◌++◌, is_none, length};
ghost use Rattle.mx_machine.specs.Machine.{world_of};
ghost use Rattle.mx_machine.specs.Rest.{at_rest};
ghost use Rattle.mx_machine.specs.World.{actors};
ghost use Rattle.mx_turns.specs.Endings.{ending_word};
ghost use Rattle.mx_turns.specs.Made.{HasMade, HasOffered, outside_events};
ghost use Rattle.mx_turns.specs.Shown.{part_of, turns_shown};
ghost use Rattle.mx_turns.specs.Turns.{turn, turns};

use crate::offers::{offer_others, offer_runs, offer_takes};
use crate::outside::{Outside, OutsideLine, next_now};
use mx_machine::Machine;
use mx_walk::{Part, Progress};

/// How turns end.
#[derive(Clone, Copy, Debug, PartialEq, Eq)]
pub enum Ending {
    /// The machine is at rest, and no outside event is to come.
    Rest,
    /// All turns that were asked for are made.
    Turns,
    /// The history is too full for an event that was to be made.
    Full,
}

impl Ending {
    /// The word that says it.
    pub fn word(self) -> &'static str
        ensures { result.now ≡ ending_word self }
    {
        match self {
            Ending::Rest => "rest",
            Ending::Turns => "turns",
            Ending::Full => "full",
        }
    }
}

/// Whether nothing is left to do: no outside event is to come, and the machine is at rest.
fn is_over(machine: &Machine, next: Option<OutsideLine>) -> bool
    ensures { result ≡ (is_none next && at_rest (world_of machine.now)) }
{
    next.is_none() && machine.kernel().at_rest()
}

/// One turn: each processor takes a process, if one is ready; each runs what it holds up to its stop, and
/// brings it back; then the outside event is made, and each slot that is down and not worn gets a new
/// process. Answers whether the history is full.
fn make_turn(machine: &mut Machine, next: Option<OutsideLine>) -> bool
    requires { length (world_of machine.old).cpus < actors (world_of machine.old) }
    ensures { HasOffered machine.old (turn (world_of machine.old) next) result machine.new }
{
    machine.sound();
    let cpus = machine.kernel().cpus();
    let slots = u32::from(machine.kernel().table().slot_count());
    // No slot gets a new process before it, so whom it kills is known now.
    let event = next_now(machine, next);
    let is_full = offer_takes(machine, cpus);
    // After a full history too: each take has kept room for its return.
    offer_runs(machine, cpus);
    if is_full {
        return true;
    }
    offer_others(machine, cpus, event, slots)
}

/// How many records a machine's history has, of so many that it may have.
fn part_of(machine: &Machine, log: usize) -> Part
    ensures { result ≡ part_of log (world_of machine.now) }
{
    let kernel = machine.kernel();
    kernel.facts();
    Part {
        done: kernel.history().len(),
        all: log,
    }
}

/// Makes turns of a machine, with outside events to come: until it is at rest and none is to come, or `bound`
/// turns are made, or the history is full. Answers which. The machine must have an actor that is no
/// processor; the first such actor makes the outside events and the respawns. Takes no memory.
///
/// In a turn each processor, in order, takes a process if it holds none and one is ready. Then each, in
/// order, runs the process that it holds up to its stop, and brings it back. Then the next outside event is
/// made; and each slot that is down and not worn gets a new process. A refused event has no record, and an
/// outside event that is refused is gone. If a take is refused because the history is full, no later take is
/// tried and nothing is made after the returns; if a later event is refused so, nothing is made after it.
///
/// After each turn `progress` is shown how many records the history has, of the `log` that it may have.
pub fn make_turns<P: Progress>(
    machine: &mut Machine,
    outside: Outside<'_>,
    bound: u64,
    log: usize,
    progress: &mut P,
) -> Ending
    requires { length (world_of machine.old).cpus < actors (world_of machine.old) }
    ensures made { HasMade machine.old
        (turns bound (world_of machine.old) (outside_events outside.entry)).made machine.new }
    ensures ending { result
        ≡ (turns bound (world_of machine.old) (outside_events outside.entry)).ending }
    ensures shown { P.shown progress.new ≡ P.shown progress.old
        ++ turns_shown log bound (world_of machine.old) (outside_events outside.entry) }
{
    for made in 0..bound {
        let next = outside.get(made);
        if is_over(machine, next) {
            return Ending::Rest;
        }
        let is_filled = make_turn(machine, next);
        progress.show(part_of(machine, log));
        if is_filled {
            return Ending::Full;
        }
    }
    if is_over(machine, outside.get(bound)) {
        Ending::Rest
    } else {
        Ending::Turns
    }
}
