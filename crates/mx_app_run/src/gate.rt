//! When the loops of a run wait, and when they end.
//!
//! # How a loop waits
//!
//! A processor that finds nothing ready yields, and from the seventeenth time in a row on it sleeps
//! a millisecond too. The respawner sleeps a millisecond after each round, unless a death wakes it. So an idle loop
//! costs little.
//!
//! # When a loop ends
//!
//! A loop that finds the history full for its next event ends by itself. Of the others each ends by what it has seen
//! itself, and by what it has asked before; that another loop has ended doesn't matter. So nothing ends too early: the
//! last one that recorded something has seen the whole history.

ghost use Rattle.std.specs.Prelude.{◌≡◌, ◌==◌, not, true, is_some, length};
ghost use Rattle.mx_app_run.specs.Shows.{is_full_at, is_settled, may_end, nap_after};

use crate::respawns::Respawns;
use mx_app_start::{SharedProgress, StopFile, StopSign};
use mx_cpus::{HowFar, Outside, WatchingGate};
use mx_walk::Part;
use std::rt::Files;
use std::sync::Wait;
use std::sync::atomic::{AtomicBool, AtomicU32, Ordering};
use std::time::{Clock, Duration};
use std::{array, thread};

/// How many loops a run may have: eight processors, the respawner, and the outsider.
const LOOPS: usize = 10;

/// How often a processor that finds nothing ready only yields, before it sleeps too.
const YIELDS: u32 = 16;

/// How many milliseconds a loop sleeps at a time. Only the respawner is woken by others, and it comes without that too:
/// no loop depends on another.
const NAP: u64 = 1;

/// How many records a turn needs: a take, and its return.
const TURN: usize = 2;

/// What the gate knows of one loop.
#[derive(Drop)]
struct LoopState {
    /// Whether an earlier question of it came after the last tick and after the outsider's last call.
    is_past_all: AtomicBool,
    /// Whether an earlier question of it came with a full history.
    has_seen_full: AtomicBool,
    /// How many questions it has asked since it last held a process.
    questions: AtomicU32,
}

/// What an actor's earlier questions have shown.
#[derive(Clone, Copy)]
struct Earlier {
    is_past_all: bool,
    has_seen_full: bool,
}

/// What the gate of a run has to know of it.
#[derive(Clone, Copy)]
pub struct RunPlan<'a> {
    /// The first actor that is no processor. The next one is the outsider, if there are calls for it to make.
    respawner: u8,
    has_calls: bool,
    /// How many records the history may have.
    log: usize,
    /// The file that stops it once it is there, if one is named.
    stop: Option<&'a str>,
}

impl<'a> RunPlan<'a> {
    /// The plan of a run with so many processors, what comes from outside, and room for so many records; and with a file
    /// that stops it, if one is named.
    pub fn new(cpus: u8, outside: Outside<'_>, log: usize, stop: Option<&'a str>) -> RunPlan<'a>
        ensures respawner { result.respawner ≡ cpus }
        ensures calls { result.has_calls ≡ not (length outside.entry.calls.now == 0) }
        ensures log { result.log ≡ log }
        ensures stop { result.stop ≡ stop.entry }
    {
        RunPlan {
            respawner: cpus,
            has_calls: !outside.calls.is_empty(),
            log,
            stop,
        }
    }
}

/// Whether a history of so many records has no room for a turn.
pub(crate) fn is_full_at(log: usize, records: usize) -> bool
    ensures { result ≡ is_full_at log records }
{
    log.saturating_sub(records) < TURN
}

/// Whether a loop ends. The machine is at rest, its work is done, and an earlier question of it came after all ticks
/// and calls: nothing can become ready then. Or the history is full, as at an earlier question of it; the outsider's
/// wait ends then too.
fn is_settled(plan: RunPlan<'_>, actor: u8, far: HowFar, is_done: bool, earlier: Earlier) -> bool
    ensures value { result ≡ is_settled plan.entry.respawner plan.entry.log
        actor far is_done earlier.is_past_all earlier.has_seen_full }
    ensures may { result ≡ true → may_end plan.entry.log far.records far.at_rest is_done ≡ true }
{
    if is_full_at(plan.log, far.records) {
        earlier.has_seen_full && (is_done || actor > plan.respawner)
    } else {
        far.at_rest && is_done && earlier.is_past_all
    }
}

/// How many milliseconds a loop sleeps after so many questions in a row.
fn nap_after(questions: u32, is_respawner: bool) -> u64
    ensures { result ≡ nap_after questions is_respawner }
{
    if is_respawner || questions > YIELDS {
        NAP
    } else {
        0
    }
}

/// The gate of a run: it ends all loops if the machine is at rest after the last tick and the outsider's
/// last call, if the history is full, and if the file that stops the run is there. It shows how long the history is.
#[derive(Drop)]
pub struct RunGate<'a, R, P: SharedProgress> {
    clock: &'a R,
    progress: &'a P,
    plan: RunPlan<'a>,
    /// Whether the file that stops it was seen.
    is_stopped: AtomicBool,
    are_ticks_made: AtomicBool,
    are_calls_made: AtomicBool,
    respawns: Respawns,
    loops: [LoopState; LOOPS],
}

impl<'a, R, P: SharedProgress> RunGate<'a, R, P> {
    /// The gate of a run, by its clock, by what shows its progress, and by its plan.
    pub fn new(clock: &'a R, progress: &'a P, plan: RunPlan<'a>) -> RunGate<'a, R, P>
        ensures plan { result.plan ≡ plan.entry }
        ensures progress { result.progress.now ≡ progress.now }
    {
        RunGate {
            clock,
            progress,
            plan,
            is_stopped: AtomicBool::new(false),
            are_ticks_made: AtomicBool::new(false),
            are_calls_made: AtomicBool::new(!plan.has_calls),
            respawns: Respawns::new(),
            loops: array::from_fn(|_| LoopState {
                is_past_all: AtomicBool::new(false),
                has_seen_full: AtomicBool::new(false),
                questions: AtomicU32::new(0),
            }),
        }
    }

    /// Notes that an actor's own work is done.
    fn note_done(&self, actor: u8) {
        if actor == self.plan.respawner {
            self.are_ticks_made.store(true, Ordering::SeqCst);
        } else if actor > self.plan.respawner {
            self.are_calls_made.store(true, Ordering::SeqCst);
        }
    }

    /// Whether nothing is to come from outside: all ticks and all calls are made.
    fn is_past_all(&self) -> bool {
        self.are_ticks_made.load(Ordering::SeqCst) && self.are_calls_made.load(Ordering::SeqCst)
    }

    /// What an actor's earlier questions have shown. Notes what this one does.
    fn note_question(&self, actor: u8, far: HowFar) -> Earlier {
        let Some(state) = self.loops.get(usize::from(actor)) else {
            return Earlier {
                is_past_all: false,
                has_seen_full: false,
            };
        };
        let earlier = Earlier {
            is_past_all: state.is_past_all.load(Ordering::SeqCst),
            has_seen_full: state.has_seen_full.load(Ordering::SeqCst),
        };
        if self.is_past_all() {
            state.is_past_all.store(true, Ordering::SeqCst);
        }
        if is_full_at(self.plan.log, far.records) {
            state.has_seen_full.store(true, Ordering::SeqCst);
        }
        earlier
    }

    /// How many questions a loop has asked in a row, this one too.
    fn count_question(&self, actor: u8) -> u32 {
        let Some(state) = self.loops.get(usize::from(actor)) else {
            return 0;
        };
        let questions = state.questions.load(Ordering::SeqCst).saturating_add(1);
        state.questions.store(questions, Ordering::SeqCst);
        questions
    }
}

impl<'a, R: Files, P: SharedProgress> RunGate<'a, R, P> {
    /// Whether the run is stopped. The respawner looks for the file at each of its questions, so about each millisecond.
    fn is_stopped(&self, actor: u8) -> bool
        ensures { result ≡ true → is_some self.now.plan.stop ≡ true }
    {
        if self.plan.stop.is_none() {
            return false;
        }
        if actor == self.plan.respawner && StopFile::new(self.clock, self.plan.stop).is_up() {
            self.is_stopped.store(true, Ordering::SeqCst);
        }
        self.is_stopped.load(Ordering::SeqCst)
    }
}

impl<'a, R: Clock + Wait, P: SharedProgress> RunGate<'a, R, P> {
    /// Lets others run, and sleeps if the loop is idle for long.
    fn wait(&self, actor: u8) {
        let is_respawner = actor == self.plan.respawner;
        let nap = nap_after(self.count_question(actor), is_respawner);
        thread::yield_now();
        if is_respawner {
            self.respawns
                .begin_round(self.clock, Duration::from_millis(nap));
        } else if nap > 0 {
            thread::sleep(self.clock, Duration::from_millis(nap));
        }
    }
}

impl<'a, R: Clock + Wait + Files, P: SharedProgress> WatchingGate for RunGate<'a, R, P> {
    ghost use Rattle.std.specs.Prelude.{is_some};
    ghost use Rattle.mx_app_run.specs.Shows.{shows};

    ghost was_called = { λ gate call.
        shows (P.was_shown gate.progress.now) gate.plan.log (is_some gate.plan.stop) call };

    fn held(&self, cpu: u8, _turn: u64) {
        if let Some(state) = self.loops.get(usize::from(cpu)) {
            state.questions.store(0, Ordering::SeqCst);
        }
    }

    fn given(&self, _cpu: u8) {}

    fn due(&self, _actor: u8) {
        self.respawns.report();
    }

    fn seen(&self, actor: u8, records: usize) {
        self.progress.show_shared(Part {
            done: records,
            all: self.plan.log,
        });
        if actor < self.plan.respawner {
            self.respawns.wait_for_round(self.clock);
        }
    }

    fn goes_on(&self, actor: u8, far: HowFar, is_done: bool) -> bool {
        if actor == self.plan.respawner {
            self.respawns.end_round();
        }
        if is_done {
            self.note_done(actor);
        }
        let earlier = self.note_question(actor, far);
        if self.is_stopped(actor) || is_settled(self.plan, actor, far, is_done, earlier) {
            return false;
        }
        self.wait(actor);
        true
    }

    fn stops(&self, cpu: u8) -> bool {
        self.is_stopped(cpu)
    }

    fn ended(&self, actor: u8) {
        if actor == self.plan.respawner {
            self.respawns.end();
        }
    }
}
