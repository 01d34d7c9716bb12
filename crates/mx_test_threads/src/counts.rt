//! What the threads of a run count, against its history.

ghost use Rattle.std.specs.Prelude.{◌≡◌, All, None};

use crate::pair::{FULL, RUNS, Row, TALK, TALK_AGAIN, TALK_AND_TICK, boot_row, is_end};
use mx_cpus::{ActorSeat, Blank, Gate, Naming, Shared, drive};
use mx_machine::{Kernel, Record, Recorded};
use std::alloc::Global;
use std::marker::Brand;
use std::process::Abort;
use std::sync::Wait;
use std::sync::atomic::{AtomicBool, AtomicU32, AtomicUsize, Ordering};
use std::test::Fail;
use std::thread;
use std::thread::Threads;

/// Counts what each of two processors gives back. A loop ends if the machine is at rest after all
/// ticks, or if another loop has ended.
#[derive(Drop)]
struct Counting {
    /// The actor that makes the ticks, how many it makes, and how many rounds it has made.
    respawner: u8,
    ticks: u32,
    rounds: AtomicU32,
    given: [AtomicUsize; 2],
    has_ended: AtomicBool,
}

impl Counting {
    fn new(respawner: u8, ticks: u32) -> Counting {
        Counting {
            respawner,
            ticks,
            rounds: AtomicU32::new(0),
            given: [AtomicUsize::new(0), AtomicUsize::new(0)],
            has_ended: AtomicBool::new(false),
        }
    }
}

impl Gate for Counting {
    fn held(&self, _cpu: u8, _turn: u64) {}

    fn given(&self, cpu: u8) {
        if let Some(given) = self.given.get(usize::from(cpu)) {
            let _earlier = given.fetch_add(1, Ordering::SeqCst);
        }
    }

    fn again(&self, actor: u8, at_rest: bool) -> bool {
        thread::yield_now();
        if actor == self.respawner {
            let _earlier = self.rounds.fetch_add(1, Ordering::SeqCst);
        }
        let is_over = at_rest && self.rounds.load(Ordering::SeqCst) >= self.ticks;
        !is_over && !self.has_ended.load(Ordering::SeqCst)
    }

    fn ended(&self, _actor: u8) {
        self.has_ended.store(true, Ordering::SeqCst);
    }
}

/// A machine once its loops have ended, and what they counted.
fn drive_and_count<M: Naming + Send + Sync, R: Threads + Wait + Sync>(
    rt: &R,
    alloc: Global,
    blank: Blank,
    seats: Vec<ActorSeat>,
    ticks: u32,
) -> Option<(Kernel, Counting)>
    requires table { blank.table ≡ M.table }
    requires boot { blank.boot ≡ M.boot }
    requires tables { All (λ s. s.table ≡ M.table) seats.items }
    requires empties { All (λ s. s.held ≡ None) seats.items }
{
    let shared: Shared<M> = blank.open();
    let gate = Counting::new(shared.cpus(), ticks);
    match drive(rt, &shared, seats, &gate, ticks) {
        Ok(seats) => Some((shared.into_kernel(seats), gate)),
        Err(_) => {
            let _kernel = shared.into_kernel(Vec::new(alloc));
            None
        }
    }
}

/// How many returns of a processor a history has.
fn returns_of(history: &[Record], cpu: u8) -> usize {
    history
        .iter()
        .filter(|record| record.actor == cpu && matches!(record.event, Recorded::Back(_)))
        .count()
}

/// Whether a history has the returns that each processor's thread has counted.
fn is_counted(history: &[Record], gate: &Counting) -> bool {
    let [first, second] = &gate.given;
    returns_of(history, 0) == first.load(Ordering::SeqCst)
        && returns_of(history, 1) == second.load(Ordering::SeqCst)
}

/// Whether a run of a row ends as the row wants, and its threads counted what its history has.
fn counts_well<R: Threads + Wait + Sync>(rt: &R, alloc: Global, row: &Row) -> Result<bool, Fail> {
    let (blank, seats) = boot_row(alloc, row)?;
    let Some((kernel, gate)) = drive_and_count::<Brand, _>(rt, alloc, blank, seats, row.ticks)
    else {
        return Err(Fail::new("no threads"));
    };
    Ok(is_counted(kernel.history(), &gate) && is_end(alloc, row, &kernel)?)
}

/// How many of a row's runs end otherwise, or counted otherwise.
fn wrong_runs<R: Threads + Wait + Sync>(rt: &R, alloc: Global, row: &Row) -> Result<u32, Fail> {
    let mut wrong: u32 = 0;
    for _ in 0..RUNS {
        if !counts_well(rt, alloc, row)? {
            wrong = wrong.saturating_add(1);
        }
    }
    Ok(wrong)
}

#[test]
fn turns_are_counted(rt: HostRuntime) -> Result<(), Fail> {
    let wrong = wrong_runs(&rt, rt.alloc(), &TALK)?;
    assert!(rt; wrong == 0, "{wrong} wrong runs");
    Ok(())
}

#[test]
fn turns_and_ticks_are_counted(rt: HostRuntime) -> Result<(), Fail> {
    let wrong = wrong_runs(&rt, rt.alloc(), &TALK_AND_TICK)?;
    assert!(rt; wrong == 0, "{wrong} wrong runs");
    Ok(())
}

#[test]
fn turns_of_all_lives_are_counted(rt: HostRuntime) -> Result<(), Fail> {
    let wrong = wrong_runs(&rt, rt.alloc(), &TALK_AGAIN)?;
    assert!(rt; wrong == 0, "{wrong} wrong runs");
    Ok(())
}

#[test]
fn turns_of_a_full_history_are_counted(rt: HostRuntime) -> Result<(), Fail> {
    let wrong = wrong_runs(&rt, rt.alloc(), &FULL)?;
    assert!(rt; wrong == 0, "{wrong} wrong runs");
    Ok(())
}
