//! Tests of one thread's calls on the shared machine, by a processor's seat and another's, one
//! after the other.

ghost use Rattle.std.specs.Prelude.{◌≡◌, All};

use crate::machine::{Wanted, booted, is_history, last_seat};
use mx_cpus::{ActorSeat, Blank, Naming, Shared};
use mx_machine::{Answer, Held, Recorded, Refusal};
use std::marker::Brand;
use std::process::Abort;
use std::sync::Wait;
use std::test::Fail;

/// A call. What is taken is run for some steps and given back.
#[derive(Clone, Copy)]
enum Call {
    Take { steps: u32 },
    Line(u32),
    Tick,
    Kill(u32),
    Respawn(u32),
    AtRest,
}

/// What a call answers: of a loan its budget and the steps that it counts.
#[derive(Clone, Copy, PartialEq, Eq)]
pub(crate) enum Reply {
    Done(Answer),
    Refused(Refusal),
    Lent { budget: u32, count: u32 },
    Rest(bool),
}

/// Who calls.
#[derive(Clone, Copy, PartialEq, Eq)]
enum Caller {
    Processor,
    Other,
}

/// A call, and what it answers.
struct Exchange {
    by: Caller,
    call: Call,
    wanted: Reply,
}

/// A machine of one service on one processor, with one other actor, and the history at the end.
struct Row {
    name: &'static str,
    log: u32,
    restarts: u32,
    exchanges: &'static [Exchange],
    /// Who did it, and what.
    history: &'static [(u8, Recorded)],
}

/// The actors.
const PROCESSOR: u8 = 0;

const OTHER: u8 = 1;

static ROWS: &[Row] = &[
    Row {
        name: "a kill, a respawn, and a loan that is given back after no step",
        log: 8,
        restarts: 1,
        exchanges: &[
            Exchange {
                by: Caller::Other,
                call: Call::Kill(0),
                wanted: Reply::Done(Answer::Done),
            },
            Exchange {
                by: Caller::Processor,
                call: Call::Take { steps: 0 },
                wanted: Reply::Refused(Refusal::NoProcess),
            },
            Exchange {
                by: Caller::Processor,
                call: Call::AtRest,
                wanted: Reply::Rest(false),
            },
            Exchange {
                by: Caller::Other,
                call: Call::Respawn(0),
                wanted: Reply::Done(Answer::Respawned(1024)),
            },
            Exchange {
                by: Caller::Processor,
                call: Call::Take { steps: 0 },
                wanted: Reply::Lent {
                    budget: 5,
                    count: 0,
                },
            },
            Exchange {
                by: Caller::Other,
                call: Call::Kill(1024),
                wanted: Reply::Done(Answer::Done),
            },
            Exchange {
                by: Caller::Processor,
                call: Call::AtRest,
                wanted: Reply::Rest(true),
            },
        ],
        history: &[
            (OTHER, Recorded::Kill(0)),
            (OTHER, Recorded::Respawn(0)),
            (PROCESSOR, Recorded::Take),
            (PROCESSOR, Recorded::Back(0)),
            (OTHER, Recorded::Kill(1024)),
        ],
    },
    Row {
        name: "three steps up to a trap that is no call, and one to the end of the text",
        log: 8,
        restarts: 0,
        exchanges: &[
            Exchange {
                by: Caller::Processor,
                call: Call::Take { steps: 9 },
                wanted: Reply::Lent {
                    budget: 5,
                    count: 3,
                },
            },
            Exchange {
                by: Caller::Processor,
                call: Call::Take { steps: 9 },
                wanted: Reply::Lent {
                    budget: 2,
                    count: 1,
                },
            },
            Exchange {
                by: Caller::Processor,
                call: Call::Take { steps: 9 },
                wanted: Reply::Refused(Refusal::NoProcess),
            },
            Exchange {
                by: Caller::Processor,
                call: Call::AtRest,
                wanted: Reply::Rest(true),
            },
        ],
        history: &[
            (PROCESSOR, Recorded::Take),
            (PROCESSOR, Recorded::Back(3)),
            (PROCESSOR, Recorded::Take),
            (PROCESSOR, Recorded::Back(1)),
        ],
    },
    Row {
        name: "calls that are refused",
        log: 8,
        restarts: 0,
        exchanges: &[
            Exchange {
                by: Caller::Other,
                call: Call::Respawn(0),
                wanted: Reply::Refused(Refusal::NotDown),
            },
            Exchange {
                by: Caller::Other,
                call: Call::Respawn(5),
                wanted: Reply::Refused(Refusal::NoService),
            },
            Exchange {
                by: Caller::Other,
                call: Call::Line(3),
                wanted: Reply::Refused(Refusal::NoLine),
            },
            Exchange {
                by: Caller::Other,
                call: Call::Take { steps: 0 },
                wanted: Reply::Refused(Refusal::CpuBusy),
            },
            Exchange {
                by: Caller::Other,
                call: Call::Tick,
                wanted: Reply::Done(Answer::Done),
            },
            Exchange {
                by: Caller::Other,
                call: Call::Kill(0),
                wanted: Reply::Done(Answer::Done),
            },
            Exchange {
                by: Caller::Other,
                call: Call::Kill(0),
                wanted: Reply::Refused(Refusal::NoProcess),
            },
            Exchange {
                by: Caller::Other,
                call: Call::Respawn(0),
                wanted: Reply::Refused(Refusal::Worn),
            },
        ],
        history: &[(OTHER, Recorded::Tick), (OTHER, Recorded::Kill(0))],
    },
    Row {
        name: "a history that has room for two records",
        log: 2,
        restarts: 0,
        exchanges: &[
            Exchange {
                by: Caller::Processor,
                call: Call::Take { steps: 0 },
                wanted: Reply::Lent {
                    budget: 5,
                    count: 0,
                },
            },
            Exchange {
                by: Caller::Other,
                call: Call::Tick,
                wanted: Reply::Refused(Refusal::LogFull),
            },
            Exchange {
                by: Caller::Processor,
                call: Call::AtRest,
                wanted: Reply::Rest(false),
            },
        ],
        history: &[(PROCESSOR, Recorded::Take), (PROCESSOR, Recorded::Back(0))],
    },
];

fn reply_of(answer: Result<Answer, Refusal>) -> Reply {
    match answer {
        Ok(answer) => Reply::Done(answer),
        Err(refusal) => Reply::Refused(refusal),
    }
}

/// Takes, runs for some steps, and gives back.
pub(crate) fn out_and_back<M: Naming>(
    rt: &impl Wait,
    shared: &Shared<M>,
    seat: ActorSeat,
    steps: u32,
) -> (ActorSeat, Reply)
    requires { seat.table ≡ M.table }
    ensures { result.0.table ≡ seat.table }
{
    let (seat, taken) = shared.take(rt, seat);
    let mut loan = match taken {
        Ok(loan) => loan,
        Err(refusal) => return (seat, Reply::Refused(refusal)),
    };
    let _stop = loan.run(steps);
    let (budget, count) = (loan.budget(), loan.count());
    (shared.give(rt, seat, loan), Reply::Lent { budget, count })
}

fn make_call<M: Naming>(
    rt: &impl Wait,
    shared: &Shared<M>,
    seat: ActorSeat,
    call: Call,
) -> (ActorSeat, Reply)
    requires { seat.table ≡ M.table }
    ensures { result.0.table ≡ seat.table }
{
    let (seat, answer) = match call {
        Call::Take { steps } => return out_and_back(rt, shared, seat, steps),
        Call::AtRest => {
            let (seat, rest) = shared.at_rest(rt, seat);
            return (seat, Reply::Rest(rest));
        }
        Call::Line(line) => shared.line(rt, seat, line),
        Call::Tick => shared.tick(rt, seat),
        Call::Kill(endpoint) => shared.kill(rt, seat, endpoint),
        Call::Respawn(slot) => shared.respawn(rt, seat, slot),
    };
    (seat, reply_of(answer))
}

/// Which exchange is answered otherwise than the row wants, or whether the history is another.
fn first_other<M: Naming>(
    rt: &impl Wait,
    blank: Blank,
    mut seats: Vec<ActorSeat>,
    row: &Row,
) -> Option<usize>
    requires table { blank.table ≡ M.table }
    requires boot { blank.boot ≡ M.boot }
    requires tables { All (λ s. s.table ≡ M.table) seats.items }
{
    let shared: Shared<M> = blank.open();
    let others = last_seat::<M>(&mut seats);
    let processors = last_seat::<M>(&mut seats);
    let (Some(mut other), Some(mut processor)) = (others, processors) else {
        let _kernel = shared.into_kernel(seats);
        return Some(0);
    };
    let mut found = None;
    for (number, exchange) in row.exchanges.iter().enumerate() {
        let reply = if exchange.by == Caller::Other {
            let (seat, reply) = make_call(rt, &shared, other, exchange.call);
            other = seat;
            reply
        } else {
            let (seat, reply) = make_call(rt, &shared, processor, exchange.call);
            processor = seat;
            reply
        };
        if reply != exchange.wanted && found.is_none() {
            found = Some(number);
        }
    }
    let kernel = shared.into_kernel(seats);
    if !is_history(kernel.history(), row.history) && found.is_none() {
        found = Some(row.exchanges.len());
    }
    found
}

#[test]
fn calls_in_turn(rt: HostRuntime) -> Result<(), Fail> {
    for row in ROWS {
        let name = row.name;
        let wanted = Wanted {
            services: 1,
            cpus: 1,
            others: 1,
            log: row.log,
            restarts: row.restarts,
        };
        let (blank, seats) = booted(rt.alloc(), wanted)?;
        let fault = first_other::<Brand>(&rt, blank, seats, row);
        let exchange = fault.unwrap_or(0);
        assert!(rt; fault.is_none(), "{name}: exchange {exchange}");
    }
    Ok(())
}
