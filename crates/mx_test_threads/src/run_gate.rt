//! The gate of a run, asked from one thread: when it ends a loop, and what it shows.

use mx_app_run::{NoProgress, RunGate, RunPlan};
use mx_app_start::SharedProgress;
use mx_cpus::{HowFar, Outside, OutsideCall, WatchingGate};
use mx_walk::Part;
use std::sync::atomic::{AtomicUsize, Ordering};
use std::test::Fail;

/// How many records the history may have.
const LOG: usize = 64;

/// So many turns that minutes pass if each waits for the respawner as long as one may.
const TURNS: usize = 100_000;

/// What an actor has seen of the machine before its question.
#[derive(Clone, Copy)]
enum Look {
    Busy,
    Rest,
    /// Somebody is ready, and the history has no room for a turn.
    Full,
    /// The machine is at rest, and the history has room for just one turn.
    LastTurn,
}

impl Look {
    fn far(self) -> HowFar {
        let (records, at_rest) = match self {
            Look::Busy => (9, false),
            Look::Rest => (9, true),
            Look::Full => (LOG - 1, false),
            Look::LastTurn => (LOG - 2, true),
        };
        HowFar { records, at_rest }
    }
}

/// A call of the gate.
#[derive(Clone, Copy)]
enum Call {
    /// A question of an actor, what it has seen, whether its own work is done, and the wanted answer.
    Asks(u8, Look, bool, bool),
    Held(u8),
    Given(u8),
    Ended(u8),
}

/// A run on two processors, whose respawner is actor 2 and whose outsider is actor 3, and calls of its gate.
struct Row {
    name: &'static str,
    /// The calls that the outsider has to make.
    outside: &'static [OutsideCall],
    calls: &'static [Call],
}

static ROWS: &[Row] = &[
    Row {
        name: "a question after the last tick ends nothing, and the next one of its actor ends the loop",
        outside: &[],
        calls: &[
            Call::Asks(2, Look::Rest, true, true),
            Call::Asks(0, Look::Rest, true, true),
            Call::Asks(0, Look::Rest, true, false),
            Call::Asks(2, Look::Rest, true, false),
        ],
    },
    Row {
        name: "no question ends a loop while the machine isn't at rest",
        outside: &[],
        calls: &[
            Call::Asks(2, Look::Busy, true, true),
            Call::Asks(2, Look::Busy, true, true),
            Call::Asks(0, Look::Busy, true, true),
            Call::Asks(0, Look::Busy, true, true),
            Call::Asks(0, Look::LastTurn, true, false),
        ],
    },
    Row {
        name: "each actor has to have asked before",
        outside: &[],
        calls: &[
            Call::Asks(2, Look::Rest, true, true),
            Call::Asks(0, Look::Rest, true, true),
            Call::Asks(1, Look::Rest, true, true),
            Call::Asks(1, Look::Rest, true, false),
            Call::Asks(0, Look::Rest, true, false),
            Call::Asks(2, Look::Rest, true, false),
        ],
    },
    Row {
        name: "a question before the last tick counts for nothing",
        outside: &[],
        calls: &[
            Call::Asks(0, Look::Rest, true, true),
            Call::Asks(0, Look::Rest, true, true),
            Call::Asks(2, Look::Rest, false, true),
            Call::Asks(2, Look::Rest, false, true),
            Call::Asks(0, Look::Rest, true, true),
            Call::Asks(2, Look::Rest, true, true),
            Call::Asks(0, Look::Rest, true, true),
            Call::Asks(0, Look::Rest, true, false),
            Call::Asks(2, Look::Rest, true, false),
        ],
    },
    Row {
        name: "turns between two questions change nothing",
        outside: &[],
        calls: &[
            Call::Asks(2, Look::Busy, true, true),
            Call::Asks(0, Look::Busy, true, true),
            Call::Held(0),
            Call::Given(0),
            Call::Asks(0, Look::Rest, true, false),
        ],
    },
    Row {
        name: "while the outsider has calls to make a question counts for nothing",
        outside: &[OutsideCall::Tick],
        calls: &[
            Call::Asks(2, Look::Rest, true, true),
            Call::Asks(0, Look::Rest, true, true),
            Call::Asks(0, Look::Rest, true, true),
            Call::Asks(3, Look::Busy, false, true),
            Call::Asks(3, Look::Rest, false, true),
            Call::Asks(3, Look::Rest, false, true),
            Call::Asks(0, Look::Rest, true, true),
            Call::Asks(3, Look::Rest, true, true),
            Call::Asks(0, Look::Rest, true, true),
            Call::Asks(2, Look::Rest, true, true),
            Call::Asks(0, Look::Rest, true, false),
            Call::Asks(2, Look::Rest, true, false),
            Call::Asks(3, Look::Rest, true, false),
        ],
    },
    Row {
        name: "a full history ends a loop at its second question",
        outside: &[OutsideCall::Tick],
        calls: &[
            Call::Asks(0, Look::Full, true, true),
            Call::Asks(0, Look::Full, true, false),
            Call::Asks(2, Look::Full, true, true),
            Call::Asks(2, Look::Full, true, false),
        ],
    },
    Row {
        name: "a full history ends the outsider's wait, and not the respawner's ticks",
        outside: &[OutsideCall::Tick],
        calls: &[
            Call::Asks(2, Look::Full, false, true),
            Call::Asks(2, Look::Full, false, true),
            Call::Asks(2, Look::Full, false, true),
            Call::Asks(3, Look::Full, false, true),
            Call::Asks(3, Look::Full, false, false),
        ],
    },
    Row {
        name: "that another loop has ended doesn't matter",
        outside: &[],
        calls: &[
            Call::Ended(1),
            Call::Asks(0, Look::Busy, true, true),
            Call::Asks(2, Look::Busy, false, true),
        ],
    },
];

/// Which call is the first that isn't answered as wanted.
fn first_other<G: WatchingGate>(gate: &G, calls: &[Call]) -> Option<usize> {
    for (place, call) in calls.iter().enumerate() {
        let is_wanted = match *call {
            Call::Asks(actor, look, is_done, goes_on) => {
                gate.goes_on(actor, look.far(), is_done) == goes_on
            }
            Call::Held(cpu) => {
                gate.held(cpu, 0);
                true
            }
            Call::Given(cpu) => {
                gate.given(cpu);
                true
            }
            Call::Ended(actor) => {
                gate.ended(actor);
                true
            }
        };
        if !is_wanted {
            return Some(place);
        }
    }
    None
}

#[test]
fn questions_of_a_run(rt: HostRuntime) -> Result<(), Fail> {
    for row in ROWS {
        let name = row.name;
        let outside = Outside {
            ticks: 3,
            calls: row.outside,
        };
        let plan = RunPlan::new(2, outside, LOG, None);
        let progress = NoProgress::new();
        let gate = RunGate::new(&rt, &progress, plan);
        let fault = first_other(&gate, row.calls);
        let call = fault.unwrap_or(0);
        assert!(rt; fault.is_none(), "{name}: call {call}");
    }
    Ok(())
}

/// Sums up what it is shown.
#[derive(Drop)]
struct Sums {
    parts: AtomicUsize,
    done: AtomicUsize,
    all: AtomicUsize,
}

impl SharedProgress for Sums {
    fn show_shared(&self, part: Part) {
        let _earlier = self.parts.fetch_add(1, Ordering::SeqCst);
        let _earlier = self.done.fetch_add(part.done, Ordering::SeqCst);
        let _earlier = self.all.fetch_add(part.all, Ordering::SeqCst);
    }
}

/// The gate shows how many records an actor has seen, once, and nothing else.
#[test]
fn parts_of_a_run(rt: HostRuntime) {
    let outside = Outside {
        ticks: 0,
        calls: &[],
    };
    let plan = RunPlan::new(2, outside, LOG, None);
    let progress = Sums {
        parts: AtomicUsize::new(0),
        done: AtomicUsize::new(0),
        all: AtomicUsize::new(0),
    };
    let gate = RunGate::new(&rt, &progress, plan);
    gate.seen(0, 5);
    gate.held(0, 0);
    gate.given(0);
    gate.seen(1, 7);
    gate.ended(0);
    assert!(rt; progress.parts.load(Ordering::SeqCst) == 2);
    assert!(rt; progress.done.load(Ordering::SeqCst) == 12);
    assert!(rt; progress.all.load(Ordering::SeqCst) == 2 * LOG);
}

/// Once the respawner has ended no processor waits for it, though a death isn't served.
#[test]
fn no_wait_after_the_end(rt: HostRuntime) {
    let outside = Outside {
        ticks: 0,
        calls: &[],
    };
    let plan = RunPlan::new(2, outside, LOG, None);
    let progress = NoProgress::new();
    let gate = RunGate::new(&rt, &progress, plan);
    gate.due(0);
    gate.ended(2);
    for _ in 0..TURNS {
        gate.seen(0, 5);
    }
}
