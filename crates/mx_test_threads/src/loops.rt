//! The loops, each by itself on one thread: which calls of the gate each makes, in which order, and what it records.

ghost use Rattle.std.specs.Prelude.{◌≡◌, ◌≤◌, All, None};

use crate::gates::{GateCall, NotingGate};
use crate::machine::{Wanted, booted, is_history, last_idle_seat};
use mx_cpus::{
    ActorSeat, Blank, Naming, Outside, OutsideCall, Shared, drive_with, outsider, processor,
    respawner,
};
use mx_machine::{Kernel, Record, Recorded};
use std::marker::Brand;
use std::sync::Wait;
use std::test::Fail;
use std::thread::Threads;

/// Whose loop it is, on a machine of one processor.
#[derive(Clone, Copy, PartialEq, Eq)]
enum Loop {
    Processor,
    Respawner { ticks: u32 },
    Outsider { calls: &'static [OutsideCall] },
}

/// A machine of equal services on one processor, of which another actor kills some before the loop; the loop;
/// the calls of the gate; and the history at the end.
struct Row {
    name: &'static str,
    services: u8,
    log: u32,
    restarts: u32,
    killed: &'static [u32],
    by: Loop,
    /// How many questions the gate answers with yes.
    yes: u32,
    calls: &'static [GateCall],
    history: &'static [(u8, Recorded)],
}

const FIRST: GateCall = GateCall::Held { cpu: 0, turn: 0 };

const SECOND: GateCall = GateCall::Held { cpu: 0, turn: 1 };

const GIVEN: GateCall = GateCall::Given(0);

/// The processor asks while the machine is at rest, or isn't.
const RESTS: GateCall = GateCall::Again {
    actor: 0,
    at_rest: true,
};

const WAITS: GateCall = GateCall::Again {
    actor: 0,
    at_rest: false,
};

/// The respawner asks while a process is ready.
const ROUND: GateCall = GateCall::Again {
    actor: 1,
    at_rest: false,
};

/// The outsider asks at rest.
const ALL_MADE: GateCall = GateCall::Again {
    actor: 1,
    at_rest: true,
};

static ROWS: &[Row] = &[
    Row {
        name: "two turns, and two questions once nothing is ready",
        services: 1,
        log: 64,
        restarts: 0,
        killed: &[],
        by: Loop::Processor,
        yes: 1,
        calls: &[FIRST, GIVEN, SECOND, GIVEN, RESTS, RESTS],
        history: &[
            (0, Recorded::Take),
            (0, Recorded::Back(3)),
            (0, Recorded::Take),
            (0, Recorded::Back(1)),
        ],
    },
    Row {
        name: "a machine isn't at rest while a dead service can be respawned",
        services: 1,
        log: 64,
        restarts: 1,
        killed: &[0],
        by: Loop::Processor,
        yes: 2,
        calls: &[WAITS, WAITS, WAITS],
        history: &[(1, Recorded::Kill(0))],
    },
    Row {
        name: "a history without room for a take and its return ends the processor, and nobody asks",
        services: 1,
        log: 1,
        restarts: 0,
        killed: &[],
        by: Loop::Processor,
        yes: 9,
        calls: &[],
        history: &[],
    },
    Row {
        name: "a history with room for one turn ends the processor after it",
        services: 1,
        log: 3,
        restarts: 0,
        killed: &[],
        by: Loop::Processor,
        yes: 9,
        calls: &[FIRST, GIVEN],
        history: &[(0, Recorded::Take), (0, Recorded::Back(3))],
    },
    Row {
        name: "three ticks, one a round, and rounds without a tick",
        services: 1,
        log: 64,
        restarts: 0,
        killed: &[],
        by: Loop::Respawner { ticks: 3 },
        yes: 4,
        calls: &[ROUND, ROUND, ROUND, ROUND, ROUND],
        history: &[
            (1, Recorded::Tick),
            (1, Recorded::Tick),
            (1, Recorded::Tick),
        ],
    },
    Row {
        name: "a history without room for a tick ends the respawner",
        services: 1,
        log: 2,
        restarts: 0,
        killed: &[],
        by: Loop::Respawner { ticks: 3 },
        yes: 9,
        calls: &[ROUND, ROUND],
        history: &[(1, Recorded::Tick), (1, Recorded::Tick)],
    },
    Row {
        name: "a history without room for the third respawn of a sweep ends the respawner",
        services: 4,
        log: 6,
        restarts: 1,
        killed: &[0, 1, 3],
        by: Loop::Respawner { ticks: 1 },
        yes: 9,
        calls: &[],
        history: &[
            (1, Recorded::Kill(0)),
            (1, Recorded::Kill(1)),
            (1, Recorded::Kill(3)),
            (1, Recorded::Tick),
            (1, Recorded::Respawn(0)),
            (1, Recorded::Respawn(1)),
        ],
    },
    Row {
        name: "calls in order, of which one is refused, and a question after the last",
        services: 1,
        log: 64,
        restarts: 0,
        killed: &[],
        by: Loop::Outsider {
            calls: &[
                OutsideCall::Tick,
                OutsideCall::Line(5),
                OutsideCall::Kill(0),
                OutsideCall::Tick,
            ],
        },
        yes: 0,
        calls: &[ALL_MADE],
        history: &[
            (1, Recorded::Tick),
            (1, Recorded::Kill(0)),
            (1, Recorded::Tick),
        ],
    },
    Row {
        name: "a wait ends at rest, and for no records at its first look",
        services: 1,
        log: 64,
        restarts: 0,
        killed: &[],
        by: Loop::Outsider {
            calls: &[
                OutsideCall::Wait(0),
                OutsideCall::Kill(0),
                OutsideCall::Wait(5),
                OutsideCall::Tick,
            ],
        },
        yes: 0,
        calls: &[ALL_MADE],
        history: &[(1, Recorded::Kill(0)), (1, Recorded::Tick)],
    },
    Row {
        name: "after its last call the outsider asks until the gate ends its loop",
        services: 1,
        log: 64,
        restarts: 0,
        killed: &[0],
        by: Loop::Outsider {
            calls: &[OutsideCall::Tick],
        },
        yes: 2,
        calls: &[ALL_MADE, ALL_MADE, ALL_MADE],
        history: &[(1, Recorded::Kill(0)), (1, Recorded::Tick)],
    },
    Row {
        name: "a wait asks until the gate ends the loop, and no later call is made",
        services: 1,
        log: 64,
        restarts: 0,
        killed: &[],
        by: Loop::Outsider {
            calls: &[OutsideCall::Tick, OutsideCall::Wait(1), OutsideCall::Tick],
        },
        yes: 2,
        calls: &[ROUND, ROUND, ROUND],
        history: &[(1, Recorded::Tick)],
    },
    Row {
        name: "a history without room for a tick ends the outsider, and nobody asks",
        services: 1,
        log: 1,
        restarts: 0,
        killed: &[],
        by: Loop::Outsider {
            calls: &[
                OutsideCall::Kill(0),
                OutsideCall::Tick,
                OutsideCall::Wait(0),
            ],
        },
        yes: 9,
        calls: &[],
        history: &[(1, Recorded::Kill(0))],
    },
    Row {
        name: "a history without room for a kill ends the outsider, and nobody asks",
        services: 1,
        log: 1,
        restarts: 0,
        killed: &[],
        by: Loop::Outsider {
            calls: &[OutsideCall::Tick, OutsideCall::Kill(0), OutsideCall::Tick],
        },
        yes: 9,
        calls: &[],
        history: &[(1, Recorded::Tick)],
    },
    Row {
        name: "what is down is respawned in a sweep, and what is up or worn isn't",
        services: 4,
        log: 64,
        restarts: 1,
        killed: &[3, 1, 1025],
        by: Loop::Respawner { ticks: 0 },
        yes: 0,
        calls: &[ROUND],
        history: &[
            (1, Recorded::Kill(3)),
            (1, Recorded::Kill(1)),
            (1, Recorded::Respawn(1)),
            (1, Recorded::Respawn(3)),
        ],
    },
];

/// Kills processes. What is refused is left.
fn kill_all<M: Naming>(
    rt: &impl Wait,
    shared: &Shared<M>,
    seat: ActorSeat,
    endpoints: &[u32],
) -> ActorSeat
    requires { seat.table ≡ M.table }
    ensures { result.table ≡ seat.table }
{
    let mut seat = seat;
    for endpoint in endpoints {
        seat = shared.kill(rt, seat, *endpoint).0;
    }
    seat
}

/// Whether a row's loop makes the calls of the gate that the row wants, and the history is the wanted one.
fn goes_as_wanted<M: Naming>(
    rt: &impl Wait,
    blank: Blank,
    mut seats: Vec<ActorSeat>,
    row: &Row,
) -> bool
    requires table { blank.table ≡ M.table }
    requires boot { blank.boot ≡ M.boot }
    requires tables { All (λ s. s.table ≡ M.table) seats.items }
    requires empties { All (λ s. s.held ≡ None) seats.items }
{
    let shared: Shared<M> = blank.open();
    let gate = NotingGate::new(row.yes);
    let others = last_idle_seat::<M>(&mut seats);
    let processors = last_idle_seat::<M>(&mut seats);
    let (Some(other), Some(cpu)) = (others, processors) else {
        let _kernel = shared.into_kernel(seats);
        return false;
    };
    let other = kill_all(rt, &shared, other, row.killed);
    match row.by {
        Loop::Processor => {
            if cpu.actor() < shared.cpus() {
                let _cpu = processor(rt, &shared, cpu, &gate);
            }
        }
        Loop::Respawner { ticks } => {
            let _other = respawner(rt, &shared, other, &gate, ticks);
        }
        Loop::Outsider { calls } => {
            let _other = outsider(rt, &shared, other, &gate, calls);
        }
    }
    let kernel = shared.into_kernel(seats);
    gate.has_just(row.calls) && is_history(kernel.history(), row.history)
}

#[test]
fn loops_call_their_gate(rt: HostRuntime) -> Result<(), Fail> {
    for row in ROWS {
        let name = row.name;
        let wanted = Wanted {
            services: row.services,
            cpus: 1,
            others: 1,
            log: row.log,
            restarts: row.restarts,
        };
        let (blank, seats) = booted(rt.alloc(), wanted)?;
        assert!(rt; goes_as_wanted::<Brand>(&rt, blank, seats, row), "{name}");
    }
    Ok(())
}

/// How many slots a machine may have.
const SLOTS: u8 = 32;

/// Kills the process of each slot in turn, and lets the respawner make one round after each kill.
/// Then kills each again, and lets it make one round. Answers whether the history is the wanted
/// one: each slot's respawn follows its kill, and the sweep over all goes up from slot 0.
fn sweeps_all<M: Naming>(rt: &impl Wait, blank: Blank, mut seats: Vec<ActorSeat>) -> bool
    requires table { blank.table ≡ M.table }
    requires boot { blank.boot ≡ M.boot }
    requires tables { All (λ s. s.table ≡ M.table) seats.items }
    requires empties { All (λ s. s.held ≡ None) seats.items }
{
    let shared: Shared<M> = blank.open();
    let gate = NotingGate::new(0);
    let Some(mut seat) = last_idle_seat::<M>(&mut seats) else {
        let _kernel = shared.into_kernel(seats);
        return false;
    };
    for slot in 0..u32::from(SLOTS) {
        seat = shared.kill(rt, seat, slot).0;
        seat = respawner(rt, &shared, seat, &gate, 0);
    }
    for slot in 0..u32::from(SLOTS) {
        seat = shared.kill(rt, seat, slot + 1024).0;
    }
    seat = respawner(rt, &shared, seat, &gate, 0);
    let _seat = seat;
    is_swept(shared.into_kernel(seats).history())
}

/// The record of a place in the history of two sweeps over 32 slots.
fn swept_record(place: u32) -> Recorded {
    let slots = u32::from(SLOTS);
    if place < 2 * slots {
        let slot = place / 2;
        return if place % 2 == 0 {
            Recorded::Kill(slot)
        } else {
            Recorded::Respawn(slot)
        };
    }
    let slot = place % slots;
    if place < 3 * slots {
        Recorded::Kill(slot + 1024)
    } else {
        Recorded::Respawn(slot)
    }
}

/// Whether a history is that of two sweeps over 32 slots.
fn is_swept(history: &[Record]) -> bool {
    if history.len() != 4 * usize::from(SLOTS) {
        return false;
    }
    let mut place: u32 = 0;
    for record in history {
        if record.actor != 1 || record.event != swept_record(place) {
            return false;
        }
        place = place.saturating_add(1);
    }
    true
}

#[test]
fn each_slot_is_respawned_in_turn(rt: HostRuntime) -> Result<(), Fail> {
    let wanted = Wanted {
        services: SLOTS,
        cpus: 1,
        others: 1,
        log: 256,
        restarts: 2,
    };
    let (blank, seats) = booted(rt.alloc(), wanted)?;
    assert!(rt; sweeps_all::<Brand>(&rt, blank, seats));
    Ok(())
}

/// A machine once its loops have ended, if all calls were made.
fn drive_to_end<M: Naming + Send + Sync, R: Threads + Wait + Sync>(
    rt: &R,
    blank: Blank,
    seats: Vec<ActorSeat>,
    gate: &NotingGate,
    calls: &[OutsideCall],
) -> Option<Kernel>
    requires table { blank.table ≡ M.table }
    requires boot { blank.boot ≡ M.boot }
    requires tables { All (λ s. s.table ≡ M.table) seats.items }
    requires empties { All (λ s. s.held ≡ None) seats.items }
{
    let alloc = *seats.allocator();
    let shared: Shared<M> = blank.open();
    match drive_with(rt, &shared, seats, gate, Outside { ticks: 0, calls }) {
        Ok((seats, are_all_made)) => {
            let kernel = shared.into_kernel(seats);
            if are_all_made { Some(kernel) } else { None }
        }
        Err(_) => {
            let _kernel = shared.into_kernel(Vec::new(alloc));
            None
        }
    }
}

/// The calls of the outsider on a machine of two processors, which is actor 3 then.
static CALLS: &[OutsideCall] = &[
    OutsideCall::Tick,
    OutsideCall::Line(9),
    OutsideCall::Kill(77),
    OutsideCall::Wait(0),
    OutsideCall::Tick,
];

/// Whether the outside events of a history are those of the calls in order, all by actor 3, or none.
fn has_calls(history: &[Record], is_called: bool) -> bool {
    let mut wanted: &[Recorded] = if is_called {
        &[Recorded::Tick, Recorded::Tick]
    } else {
        &[]
    };
    for record in history {
        if record.actor == 3 {
            let Some((first, rest)) = wanted.split_first() else {
                return false;
            };
            if record.event != *first {
                return false;
            }
            wanted = rest;
        }
    }
    wanted.is_empty()
}

/// Whether the end of each actor that has a loop was reported once, and that of no other.
fn has_ends(gate: &NotingGate, is_called: bool) -> bool {
    for actor in 0..6 {
        let has_loop = actor <= 2 || (actor == 3 && is_called);
        if gate.count(GateCall::Ended(actor)) != u32::from(has_loop) {
            return false;
        }
    }
    true
}

/// Whether each death was reported by the processor that gave its process back, and the outsider's kill by the
/// outsider.
fn has_deaths(gate: &NotingGate, services: u32, is_called: bool) -> bool {
    let by_processors = gate
        .count(GateCall::Due(0))
        .saturating_add(gate.count(GateCall::Due(1)));
    by_processors == services && gate.count(GateCall::Due(3)) == u32::from(is_called)
}

/// How often the gate was asked whether it stops a processor.
fn stops_asked(gate: &NotingGate) -> u32 {
    gate.count(GateCall::Stops(0))
        .saturating_add(gate.count(GateCall::Stops(1)))
}

/// The end of each loop is reported once, and that of no actor that has no loop. The second other actor has one if
/// there are calls for it to make, and then it makes them. Each service faults in its second turn, and that is reported
/// too. After each turn the gate is asked whether it stops the loop.
#[test]
fn ends_are_told(rt: HostRuntime) -> Result<(), Fail> {
    for (others, calls) in [(1, CALLS), (2, &[]), (2, CALLS), (4, &[]), (4, CALLS)] {
        let wanted = Wanted {
            services: 2,
            cpus: 2,
            others,
            log: 64,
            restarts: 0,
        };
        let (blank, seats) = booted(rt.alloc(), wanted)?;
        let gate = NotingGate::new(20);
        let is_called = others >= 2 && !calls.is_empty();
        let kernel = drive_to_end::<Brand, _>(&rt, blank, seats, &gate, calls);
        assert!(rt;
            kernel.is_some_and(|it| has_calls(it.history(), is_called)),
            "{others} others"
        );
        assert!(rt; has_ends(&gate, is_called), "{others} others");
        assert!(rt; has_deaths(&gate, 2, is_called), "{others} others");
        assert!(rt; stops_asked(&gate) == 4, "{others} others");
    }
    Ok(())
}

/// A processor that the gate stops makes one turn.
#[test]
fn stopped_after_a_turn(rt: HostRuntime) -> Result<(), Fail> {
    let wanted = Wanted {
        services: 2,
        cpus: 1,
        others: 1,
        log: 64,
        restarts: 0,
    };
    let (blank, seats) = booted(rt.alloc(), wanted)?;
    let gate = NotingGate::stopping(20);
    let kernel = drive_to_end::<Brand, _>(&rt, blank, seats, &gate, &[]);
    assert!(rt; kernel.is_some());
    assert!(rt; gate.count(FIRST) == 1 && gate.count(SECOND) == 0);
    assert!(rt; stops_asked(&gate) == 1);
    Ok(())
}
