//! Tests of several loans at once, of a kill while its process is out, and of a loan under a
//! debugger.

ghost use Rattle.std.specs.Prelude.{◌≡◌, ◌<◌, All, length};

use crate::machine::{Wanted, booted, is_history, last_seat};
use mx_cpus::{ActorSeat, Blank, Naming, Shared};
use mx_debug::{Debugger, Halt, HaltCause};
use mx_machine::{Answer, Kernel, Recorded, Refusal};
use mx_proc::{DeathCause, State};
use std::marker::Brand;
use std::process::Abort;
use std::sync::Wait;
use std::test::Fail;

/// What came of it when all seats took a process: how many were out at once, how many takes were
/// refused since the history is full, and how the tick of another actor is answered then.
#[derive(Clone, Copy, PartialEq, Eq)]
struct Taken {
    out: u64,
    full: u64,
    ticked: Result<Answer, Refusal>,
}

/// Each seat, the last one first, takes a process while the earlier ones hold theirs; then another actor
/// ticks, and all are given back.
#[cycle(take_all)]
fn take_all<M: Naming>(
    rt: &impl Wait,
    shared: &Shared<M>,
    seats: &mut Vec<ActorSeat>,
    other: ActorSeat,
) -> Taken
    requires tables { All (λ s. s.table ≡ M.table) seats.old.items }
    requires other { other.table ≡ M.table }
{
    let Some(seat) = last_seat::<M>(seats) else {
        return Taken {
            out: 0,
            full: 0,
            ticked: shared.tick(rt, other).1,
        };
    };
    let (seat, taken) = shared.take(rt, seat);
    match taken {
        Ok(loan) => {
            let others = take_all(rt, shared, seats, other);
            let _seat = shared.give(rt, seat, loan);
            Taken {
                out: others.out.saturating_add(1),
                ..others
            }
        }
        Err(refusal) => {
            let others = take_all(rt, shared, seats, other);
            let full = u64::from(refusal == Refusal::LogFull);
            Taken {
                full: others.full.saturating_add(full),
                ..others
            }
        }
    }
}

/// A machine of as many equal services as processors, each of which takes one while the others hold
/// theirs: what comes of it, and how many records there are at the end.
struct Row {
    name: &'static str,
    cpus: u8,
    log: u32,
    taken: Taken,
    records: usize,
}

static ROWS: &[Row] = &[
    Row {
        name: "eight processes are out at once",
        cpus: 8,
        log: 64,
        taken: Taken {
            out: 8,
            full: 0,
            ticked: Ok(Answer::Done),
        },
        records: 17,
    },
    Row {
        name: "room for four takes and their returns, and none for a tick",
        cpus: 4,
        log: 8,
        taken: Taken {
            out: 4,
            full: 0,
            ticked: Err(Refusal::LogFull),
        },
        records: 8,
    },
    Row {
        name: "a fourth take finds no room for its return, and the tick has room",
        cpus: 4,
        log: 7,
        taken: Taken {
            out: 3,
            full: 1,
            ticked: Ok(Answer::Done),
        },
        records: 7,
    },
];

/// Whether a row's machine does what the row wants.
fn are_out<M: Naming>(rt: &impl Wait, blank: Blank, mut seats: Vec<ActorSeat>, row: &Row) -> bool
    requires table { blank.table ≡ M.table }
    requires boot { blank.boot ≡ M.boot }
    requires tables { All (λ s. s.table ≡ M.table) seats.items }
{
    let shared: Shared<M> = blank.open();
    let Some(other) = last_seat::<M>(&mut seats) else {
        let _kernel = shared.into_kernel(seats);
        return false;
    };
    let taken = take_all(rt, &shared, &mut seats, other);
    let kernel = shared.into_kernel(Vec::new(*seats.allocator()));
    taken == row.taken && kernel.history().len() == row.records
}

#[test]
fn all_at_once(rt: HostRuntime) -> Result<(), Fail> {
    for row in ROWS {
        let name = row.name;
        let wanted = Wanted {
            services: row.cpus,
            cpus: row.cpus,
            others: 1,
            log: row.log,
            restarts: 0,
        };
        let (blank, seats) = booted(rt.alloc(), wanted)?;
        assert!(rt; are_out::<Brand>(&rt, blank, seats, row), "{name}");
    }
    Ok(())
}

/// What is done with a loan while it is out.
#[derive(Clone, Copy)]
enum Meanwhile {
    /// Another actor kills its process.
    Kill,
    /// A debugger resumes it, up to a breakpoint at the second instruction.
    Resume,
}

/// The history after a kill: who did it, and what.
static KILLED: &[(u8, Recorded)] = &[
    (0, Recorded::Take),
    (1, Recorded::Kill(0)),
    (0, Recorded::Back(0)),
];

/// The history after a debugger's turn.
static RESUMED: &[(u8, Recorded)] = &[(0, Recorded::Take), (0, Recorded::Back(1))];

/// The state of the process in slot 0.
fn state(kernel: &Kernel) -> Option<State> {
    let table = kernel.table();
    if table.slot_count() == 0 {
        return None;
    }
    Some(table.process(0).state)
}

/// Whether the history and slot 0 show what was done.
fn shows(kernel: &Kernel, meanwhile: Meanwhile) -> bool {
    let (history, wanted) = match meanwhile {
        Meanwhile::Kill => (KILLED, State::Down(DeathCause::Kill)),
        Meanwhile::Resume => (RESUMED, State::Ready),
    };
    is_history(kernel.history(), history) && state(kernel) == Some(wanted)
}

fn lent_and_given<M: Naming>(
    rt: &impl Wait,
    blank: Blank,
    mut seats: Vec<ActorSeat>,
    meanwhile: Meanwhile,
) -> bool
    requires table { blank.table ≡ M.table }
    requires boot { blank.boot ≡ M.boot }
    requires tables { All (λ s. s.table ≡ M.table) seats.items }
{
    let shared: Shared<M> = blank.open();
    let others = last_seat::<M>(&mut seats);
    let processors = last_seat::<M>(&mut seats);
    let (Some(other), Some(processor)) = (others, processors) else {
        let _kernel = shared.into_kernel(seats);
        return false;
    };
    let (processor, taken) = shared.take(rt, processor);
    let mut loan = match taken {
        Ok(loan) => loan,
        Err(_) => {
            let _kernel = shared.into_kernel(seats);
            return false;
        }
    };
    let answered = match meanwhile {
        Meanwhile::Kill => shared.kill(rt, other, 0).1 == Ok(Answer::Done),
        Meanwhile::Resume => {
            let mut debugger = Debugger::new();
            debugger.add(0, 5).is_ok()
                && debugger.resume(0, &mut loan, 9)
                    == (Halt {
                        count: 1,
                        cause: HaltCause::Breakpoint,
                    })
        }
    };
    let _processor = shared.give(rt, processor, loan);
    let kernel = shared.into_kernel(seats);
    answered && shows(&kernel, meanwhile)
}

#[test]
fn what_happens_meanwhile(rt: HostRuntime) -> Result<(), Fail> {
    for meanwhile in [Meanwhile::Kill, Meanwhile::Resume] {
        let wanted = Wanted {
            services: 1,
            cpus: 1,
            others: 1,
            log: 8,
            restarts: 0,
        };
        let (blank, seats) = booted(rt.alloc(), wanted)?;
        assert!(rt; lent_and_given::<Brand>(&rt, blank, seats, meanwhile));
    }
    Ok(())
}
