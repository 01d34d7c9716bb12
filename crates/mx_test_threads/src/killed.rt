//! A process that is killed while a processor's thread holds it.

ghost use Rattle.std.specs.Prelude.{◌≡◌, All, None};

use crate::machine::last_idle_seat;
use crate::pair::{Log, RUNS, Row, boot_row, is_end};
use mx_cpus::{ActorSeat, Blank, Gate, Naming, Shared, drive};
use mx_debug::Debugger;
use mx_machine::{Answer, Kernel};
use std::alloc::Global;
use std::marker::Brand;
use std::process::Abort;
use std::sync::Wait;
use std::sync::atomic::{AtomicBool, Ordering};
use std::test::Fail;
use std::thread;
use std::thread::Threads;

/// How long a thread waits for another one, in turns.
const TURNS: u32 = 10_000_000;

/// The turn in which the driver is held and the client awaits its answer.
const AWAITED: u64 = 2;

/// A processor waits in one of its turns until another actor has killed its process. A loop ends if
/// the machine is at rest.
#[derive(Drop)]
struct Waiting {
    is_held: AtomicBool,
    is_killed: AtomicBool,
}

impl Waiting {
    fn new() -> Waiting {
        Waiting {
            is_held: AtomicBool::new(false),
            is_killed: AtomicBool::new(false),
        }
    }
}

/// Whether another thread sets a flag in time.
fn is_set_in_time(flag: &AtomicBool) -> bool {
    for _ in 0..TURNS {
        if flag.load(Ordering::SeqCst) {
            return true;
        }
        thread::yield_now();
    }
    false
}

impl Gate for Waiting {
    fn held(&self, _cpu: u8, turn: u64) {
        if turn == AWAITED {
            self.is_held.store(true, Ordering::SeqCst);
            let _in_time = is_set_in_time(&self.is_killed);
        }
    }

    fn given(&self, _cpu: u8) {}

    fn again(&self, _actor: u8, at_rest: bool) -> bool {
        thread::yield_now();
        !at_rest
    }

    fn ended(&self, _actor: u8) {}
}

/// Kills the driver once a processor waits with it. Whether that is done.
fn kill_when_held<M: Naming>(
    rt: &impl Wait,
    shared: &Shared<M>,
    seat: ActorSeat,
    gate: &Waiting,
) -> bool
    requires { seat.table ≡ M.table }
{
    let is_held = is_set_in_time(&gate.is_held);
    let (_seat, answer) = shared.kill(rt, seat, 0);
    gate.is_killed.store(true, Ordering::SeqCst);
    is_held && answer == Ok(Answer::Done)
}

/// How the processor runs what it has taken.
#[derive(Clone, Copy)]
enum Runner {
    /// By the loop of a processor.
    Processor,
    /// By a debugger, up to a breakpoint after the driver's first instruction since its first trap.
    Debugger,
}

/// Who is taken in each turn.
const TAKEN: [u8; 4] = [0, 1, 0, 1];

/// The breakpoint in the driver.
const BREAKPOINT: u32 = 0x17;

/// The turns of a processor under a debugger.
fn debug_turns<M: Naming>(
    rt: &impl Wait,
    shared: &Shared<M>,
    seat: ActorSeat,
    gate: &Waiting,
) -> bool
    requires { seat.table ≡ M.table }
{
    let mut debugger = Debugger::new();
    let is_added = debugger.add(0, BREAKPOINT).is_ok();
    let mut seat = seat;
    for (turn, slot) in TAKEN.iter().enumerate() {
        let (next, taken) = shared.take(rt, seat);
        seat = match taken {
            Ok(mut loan) => {
                gate.held(0, turn as u64);
                let _halt = debugger.resume(*slot, &mut loan, u32::MAX);
                shared.give(rt, next, loan)
            }
            Err(_) => next,
        };
    }
    is_added
}

/// A machine at its end, and whether the driver was killed while it was held.
fn run_with_kill<M: Naming + Send + Sync, R: Threads + Wait + Sync>(
    rt: &R,
    alloc: Global,
    blank: Blank,
    seats: Vec<ActorSeat>,
    runner: Runner,
) -> (Kernel, bool)
    requires table { blank.table ≡ M.table }
    requires boot { blank.boot ≡ M.boot }
    requires tables { All (λ s. s.table ≡ M.table) seats.items }
    requires empties { All (λ s. s.held ≡ None) seats.items }
{
    let mut seats = seats;
    let shared: Shared<M> = blank.open();
    let gate = Waiting::new();
    let Some(other) = last_idle_seat::<M>(&mut seats) else {
        return (shared.into_kernel(seats), false);
    };
    let (ended, killed) = match runner {
        Runner::Processor => {
            thread::join(
                rt,
                || -> bool
                    requires tables { All (λ s. s.table ≡ M.table) seats.items }
                    requires empties { All (λ s. s.held ≡ None) seats.items }
                { drive(rt, &shared, seats, &gate, 0).is_ok() },
                || -> bool
                    requires { other.table ≡ M.table }
                { kill_when_held(rt, &shared, other, &gate) },
            )
        }
        Runner::Debugger => {
            let Some(processor) = last_idle_seat::<M>(&mut seats) else {
                return (shared.into_kernel(seats), false);
            };
            thread::join(
                rt,
                || -> bool
                    requires { processor.table ≡ M.table }
                { debug_turns(rt, &shared, processor, &gate) },
                || -> bool
                    requires { other.table ≡ M.table }
                { kill_when_held(rt, &shared, other, &gate) },
            )
        }
    };
    (shared.into_kernel(Vec::new(alloc)), ended && killed)
}

const ONE_PROCESSOR: &str = "cpus 1
log 64
service drv drv.out traps 1e send 2 calls 0 level 4 best 4 quantum 20 restarts 0
service cli cli.out traps 1e send 1 calls 1 level 7 best 7 quantum 20 restarts 0
";

/// The driver comes back after its answer's trap, which isn't acted; the client goes on without an answer,
/// and ends.
static KILLED: Row = Row {
    config: ONE_PROCESSOR,
    ticks: 0,
    log: Log::Text(
        "rules 2
0 take
0 back 4
0 take
0 back 4
0 take
1 kill 0
0 back 3
0 take
0 back 4
",
    ),
    report: "0 drv 0 down kill 4 13
1 cli 1 down exit 7 12
uptime 0
console 0
",
};

/// The driver comes back after one instruction.
static KILLED_AT_BREAKPOINT: Row = Row {
    config: ONE_PROCESSOR,
    ticks: 0,
    log: Log::Text(
        "rules 2
0 take
0 back 4
0 take
0 back 4
0 take
1 kill 0
0 back 1
0 take
0 back 4
",
    ),
    report: "0 drv 0 down kill 4 15
1 cli 1 down exit 7 12
uptime 0
console 0
",
};

/// How many runs of a row end otherwise than it wants, or without the kill.
fn wrong_runs<R: Threads + Wait + Sync>(
    rt: &R,
    alloc: Global,
    row: &Row,
    runner: Runner,
) -> Result<u32, Fail> {
    let mut wrong: u32 = 0;
    for _ in 0..RUNS {
        let (blank, seats) = boot_row(alloc, row)?;
        let (kernel, was_killed) = run_with_kill::<Brand, R>(rt, alloc, blank, seats, runner);
        if !was_killed || !is_end(alloc, row, &kernel)? {
            wrong = wrong.saturating_add(1);
        }
    }
    Ok(wrong)
}

#[test]
fn killed_while_held(rt: HostRuntime) -> Result<(), Fail> {
    let wrong = wrong_runs(&rt, rt.alloc(), &KILLED, Runner::Processor)?;
    assert!(rt; wrong == 0, "{wrong} wrong runs");
    Ok(())
}

#[test]
fn killed_while_debugged(rt: HostRuntime) -> Result<(), Fail> {
    let wrong = wrong_runs(&rt, rt.alloc(), &KILLED_AT_BREAKPOINT, Runner::Debugger)?;
    assert!(rt; wrong == 0, "{wrong} wrong runs");
    Ok(())
}
