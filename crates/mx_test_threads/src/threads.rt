//! Tests of processors that run at the same time, each in a thread of its own.

ghost use Rattle.std.specs.Prelude.{◌≡◌, All, None};

use crate::machine::{Wanted, booted, last_seat};
use mx_cpus::{ActorSeat, Blank, Gate, Naming, Shared, drive};
use mx_machine::Refusal;
use std::alloc::Global;
use std::marker::Brand;
use std::process::Abort;
use std::sync::Wait;
use std::sync::atomic::{AtomicU32, Ordering};
use std::test::Fail;
use std::thread;
use std::thread::Threads;

/// How long a processor waits for the other one, in turns.
const TURNS: u32 = 10_000_000;

/// A processor goes on with its first process only once a number of processors hold one. A loop
/// ends if the machine is at rest, or if another loop has ended.
#[derive(Drop)]
struct Meeting {
    /// How many processors have to hold one.
    wanted: u32,
    /// How many processors have taken their first process, and how many of them saw the others.
    inside: AtomicU32,
    met: AtomicU32,
    /// How many processes were given back, and how many loops have ended.
    given: AtomicU32,
    ended: AtomicU32,
}

impl Meeting {
    fn new(wanted: u32) -> Meeting {
        Meeting {
            wanted,
            inside: AtomicU32::new(0),
            met: AtomicU32::new(0),
            given: AtomicU32::new(0),
            ended: AtomicU32::new(0),
        }
    }
}

impl Gate for Meeting {
    fn held(&self, _cpu: u8, turn: u64) {
        if turn > 0 {
            return;
        }
        let _earlier = self.inside.fetch_add(1, Ordering::SeqCst);
        for _ in 0..TURNS {
            if self.inside.load(Ordering::SeqCst) >= self.wanted {
                let _met = self.met.fetch_add(1, Ordering::SeqCst);
                return;
            }
            thread::yield_now();
        }
    }

    fn given(&self, _cpu: u8) {
        let _given = self.given.fetch_add(1, Ordering::SeqCst);
    }

    fn again(&self, _actor: u8, at_rest: bool) -> bool {
        thread::yield_now();
        !at_rest && self.ended.load(Ordering::SeqCst) == 0
    }

    fn ended(&self, _actor: u8) {
        let _ended = self.ended.fetch_add(1, Ordering::SeqCst);
    }
}

/// What is seen of a machine once its loops have ended.
#[derive(Clone, Copy, PartialEq, Eq)]
struct Ending {
    records: usize,
    /// Whether a last tick finds the history full.
    is_full: bool,
}

/// Whether a tick of the last actor finds the history full.
fn is_full<M: Naming>(rt: &impl Wait, shared: &Shared<M>, seats: &mut Vec<ActorSeat>) -> bool
    requires { All (λ s. s.table ≡ M.table) seats.old.items }
    ensures { All (λ s. s.table ≡ M.table) seats.new.items }
{
    match last_seat::<M>(seats) {
        Some(seat) => shared.tick(rt, seat).1 == Err(Refusal::LogFull),
        None => false,
    }
}

/// Drives a machine until its loops have ended.
fn drive_to_end<M: Naming + Send + Sync, G: Gate + Sync, R: Threads + Wait + Sync>(
    rt: &R,
    alloc: Global,
    booted: (Blank, Vec<ActorSeat>),
    gate: &G,
    ticks: u32,
) -> Option<Ending>
    requires table { booted.0.table ≡ M.table }
    requires boot { booted.0.boot ≡ M.boot }
    requires tables { All (λ s. s.table ≡ M.table) booted.1.items }
    requires empties { All (λ s. s.held ≡ None) booted.1.items }
{
    let (blank, seats) = booted;
    let shared: Shared<M> = blank.open();
    match drive(rt, &shared, seats, gate, ticks) {
        Ok(mut seats) => {
            let is_full = is_full(rt, &shared, &mut seats);
            let records = shared.into_kernel(seats).history().len();
            Some(Ending { records, is_full })
        }
        Err(_) => {
            let _kernel = shared.into_kernel(Vec::new(alloc));
            None
        }
    }
}

/// A machine of as many equal services as processors, and what is seen of it in every schedule.
struct Row {
    name: &'static str,
    cpus: u8,
    log: u32,
    ticks: u32,
    /// How many processors hold a process at the same time.
    holders: u32,
    ending: Ending,
}

static ROWS: &[Row] = &[
    // Each process is taken again, and dies then.
    Row {
        name: "two processors hold a process at the same time, and a tick has room",
        cpus: 2,
        log: 64,
        ticks: 0,
        holders: 2,
        ending: Ending {
            records: 9,
            is_full: false,
        },
    },
    Row {
        name: "room for four takes and four returns, and none for a tick",
        cpus: 4,
        log: 8,
        ticks: 0,
        holders: 4,
        ending: Ending {
            records: 8,
            is_full: true,
        },
    },
    Row {
        name: "room for three takes and three returns: a fourth take is refused, and a tick has room",
        cpus: 4,
        log: 7,
        ticks: 1,
        holders: 3,
        ending: Ending {
            records: 7,
            is_full: true,
        },
    },
];

/// Processors hold processes at the same time, each take has its return, and all loops end, at a full
/// history too.
#[test]
fn hold_at_once(rt: HostRuntime) -> Result<(), Fail> {
    for row in ROWS {
        let name = row.name;
        let wanted = Wanted {
            services: row.cpus,
            cpus: row.cpus,
            others: 1,
            log: row.log,
            restarts: 0,
        };
        let booted = booted(rt.alloc(), wanted)?;
        let gate = Meeting::new(row.holders);
        let ending = drive_to_end::<Brand, _, _>(&rt, rt.alloc(), booted, &gate, row.ticks);
        let (met, ended) = (
            gate.met.load(Ordering::SeqCst),
            gate.ended.load(Ordering::SeqCst),
        );
        assert!(rt; ending == Some(row.ending), "{name}");
        assert!(rt; met == row.holders, "{name}: {met} met");
        assert!(rt; ended == u32::from(row.cpus) + 1, "{name}: {ended} ended");
    }
    Ok(())
}

/// What a processor does first after a yes.
const TAKES: u32 = 1;

const ASKS: u32 = 2;

/// A gate of two processors with one process. The processor that takes it first holds it until the other one has
/// asked. After its return it waits until the other one, which gets a yes then, has made its next call. So the
/// other one finds the process ready.
#[derive(Drop)]
struct OneProcess {
    /// The processor that held the process first, plus 1.
    first: AtomicU32,
    /// How many questions the other one has asked.
    questions: AtomicU32,
    /// Whether the first one has given it back.
    given: AtomicU32,
    /// What the other one did after its yes: 0 until then.
    next: AtomicU32,
}

/// Waits until a number isn't 0, but not for ever.
fn wait_for(number: &AtomicU32) {
    for _ in 0..TURNS {
        if number.load(Ordering::SeqCst) > 0 {
            return;
        }
        thread::yield_now();
    }
}

impl OneProcess {
    fn new() -> OneProcess {
        OneProcess {
            first: AtomicU32::new(0),
            questions: AtomicU32::new(0),
            given: AtomicU32::new(0),
            next: AtomicU32::new(0),
        }
    }

    /// Whether a processor is the one that held the process first.
    fn is_first(&self, cpu: u8) -> bool {
        self.first.load(Ordering::SeqCst) == u32::from(cpu) + 1
    }

    /// Sets a number that is 0, and answers whether it was.
    fn set(number: &AtomicU32, to: u32) -> bool {
        number
            .compare_exchange(0, to, Ordering::SeqCst, Ordering::SeqCst)
            .is_ok()
    }
}

impl Gate for OneProcess {
    fn held(&self, cpu: u8, _turn: u64) {
        if OneProcess::set(&self.first, u32::from(cpu) + 1) {
            wait_for(&self.questions);
        } else if !self.is_first(cpu) {
            let _was_first = OneProcess::set(&self.next, TAKES);
        }
    }

    fn given(&self, cpu: u8) {
        if self.is_first(cpu) {
            self.given.store(1, Ordering::SeqCst);
            wait_for(&self.next);
        }
    }

    fn again(&self, actor: u8, _at_rest: bool) -> bool {
        thread::yield_now();
        if actor > 1 || self.is_first(actor) || self.first.load(Ordering::SeqCst) == 0 {
            return self.next.load(Ordering::SeqCst) == 0;
        }
        if self.questions.fetch_add(1, Ordering::SeqCst) == 0 {
            wait_for(&self.given);
            return true;
        }
        let _was_first = OneProcess::set(&self.next, ASKS);
        false
    }

    fn ended(&self, _actor: u8) {}
}

/// After a yes a processor takes again before it asks again.
#[test]
fn takes_after_a_yes(rt: HostRuntime) -> Result<(), Fail> {
    let wanted = Wanted {
        services: 1,
        cpus: 2,
        others: 1,
        log: 64,
        restarts: 0,
    };
    let booted = booted(rt.alloc(), wanted)?;
    let gate = OneProcess::new();
    let ending = drive_to_end::<Brand, _, _>(&rt, rt.alloc(), booted, &gate, 0);
    assert!(rt; ending.is_some());
    let next = gate.next.load(Ordering::SeqCst);
    assert!(rt; next == TAKES, "{next}");
    Ok(())
}
