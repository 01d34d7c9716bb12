//! How far a command is, for a reader at a terminal.

ghost use Rattle.std.specs.Prelude.{◌≡◌, []};
ghost use Rattle.mx_walk.specs.declared.progress.Part.{Part as Parts};

use crate::noted::Noted;
use mx_walk::{Part, Progress};
use std::sync::atomic::{AtomicBool, AtomicU64, Ordering};
use std::time::{Clock, Instant};

/// How many milliseconds a command works before its progress is printed.
const PATIENCE: u64 = 1000;

/// How many milliseconds a line of progress stays as it is.
const PAUSE: u64 = 100;

/// A time that never comes.
const NEVER: u64 = u64::MAX;

/// Goes back to the beginning of the line, and empties it.
const EMPTY_LINE: &str = "\r\x1b[K";

/// Is shown how far a work is that several threads do.
pub trait SharedProgress {
    /// What it was shown. A call promises this of itself when it returns.
    ghost was_shown: { Self → Parts → Type 0 } = { λ _ _. Unit {0} };

    /// So many parts are done, as one of the threads has seen.
    fn show_shared(&self, part: Part)
        ensures { was_shown self.now part };
}

/// One line of the runtime's standard error, which any thread may print again: a second after it was made, or after
/// the first part that a later work shows, and not twice in a tenth of a second.
#[derive(Drop)]
struct ProgressLine<'a, R> {
    rt: &'a R,
    /// What the parts are: `positions` of a sweep, `records` of a history.
    unit: &'a str,
    /// When it was made; none if it is never printed: standard error is no terminal, or there is no clock.
    began: Option<Instant>,
    /// After how many milliseconds it may be printed next.
    due: AtomicU64,
    /// How many parts were done when it was last shown one.
    last: AtomicU64,
    /// After how many milliseconds it was taken away, if that was after the last part; else `NEVER`.
    cleared: AtomicU64,
    is_printed: AtomicBool,
}

impl<'a, R: Clock> ProgressLine<'a, R> {
    fn new(rt: &'a R, is_terminal: bool, unit: &'a str) -> ProgressLine<'a, R> {
        let began = if is_terminal {
            Instant::now(rt).ok()
        } else {
            None
        };
        ProgressLine {
            rt,
            unit,
            began,
            due: AtomicU64::new(PATIENCE),
            last: AtomicU64::new(0),
            cleared: AtomicU64::new(NEVER),
            is_printed: AtomicBool::new(false),
        }
    }

    /// How many milliseconds have passed since it was made; none if it is never printed.
    fn now(&self) -> Option<u64> {
        let passed = self.began?.elapsed(self.rt).ok()?;
        Some(u64::try_from(passed.as_millis()).unwrap_or(NEVER))
    }

    /// Gives a new work its own second. A part begins one if the line was taken away since the last part, and this
    /// one's number isn't higher, or it comes after a pause: a session waits for its reader between its lines.
    fn begin_if_new(&self, now: u64, done: u64) {
        let cleared = self.cleared.swap(NEVER, Ordering::SeqCst);
        let last = self.last.swap(done, Ordering::SeqCst);
        let is_later = now.saturating_sub(cleared) > PAUSE;
        if cleared != NEVER && (done <= last || is_later) {
            let due = now.saturating_add(PATIENCE);
            self.due.store(due, Ordering::SeqCst);
        }
    }

    /// Whether the line is due. If several threads ask at once, only one is answered with yes.
    fn is_due(&self, now: u64) -> bool {
        let due = self.due.load(Ordering::SeqCst);
        if now < due {
            return false;
        }
        let next = now.saturating_add(PAUSE);
        self.due
            .compare_exchange(due, next, Ordering::SeqCst, Ordering::SeqCst)
            .is_ok()
    }
}

impl<'a, R: Clock + Eprint> ProgressLine<'a, R> {
    /// Prints the line, if it is due.
    fn show(&self, part: Part) {
        let Some(now) = self.now() else {
            return;
        };
        let Part { done, all } = part;
        self.begin_if_new(now, done as u64);
        if self.is_due(now) {
            let unit = self.unit;
            let _ = eprint!(self.rt; "{EMPTY_LINE}mx: {done} of {all} {unit}");
            self.is_printed.store(true, Ordering::SeqCst);
        }
    }

    /// Takes the line away.
    fn clear(&self) {
        let now = self.now().unwrap_or(NEVER);
        self.cleared.store(now, Ordering::SeqCst);
        // Only what was printed is taken away: a command that isn't slow writes nothing.
        if self.is_printed.swap(false, Ordering::SeqCst) {
            let _ = eprint!(self.rt; "{EMPTY_LINE}");
        }
    }
}

/// Prints how far a command is, in one line of the runtime's standard error: if that is a terminal, and a second after
/// the command, or a later line of its session, has begun.
#[derive(Drop)]
pub struct RuntimeProgress<'a, R> {
    line: ProgressLine<'a, R>,
    parts: Noted<Part>,
}

impl<'a, R: Clock> RuntimeProgress<'a, R> {
    /// What prints progress on a runtime's standard error, if that is a terminal, and was shown none yet.
    pub fn new(rt: &'a R, is_terminal: bool, unit: &'a str) -> RuntimeProgress<'a, R>
        ensures { result.parts.items ≡ [] }
    {
        RuntimeProgress {
            line: ProgressLine::new(rt, is_terminal, unit),
            parts: Noted::new(),
        }
    }
}

impl<'a, R: Clock + Eprint> Progress for RuntimeProgress<'a, R> {
    ghost shown = { λ progress. progress.parts.items };

    fn show(&mut self, part: Part) {
        self.parts = self.parts.and(&part);
        self.line.show(part);
    }

    fn clear(&mut self) {
        self.line.clear();
    }
}

impl<'a, R: Clock + Eprint> SharedProgress for RuntimeProgress<'a, R> {
    fn show_shared(&self, part: Part) {
        self.line.show(part);
    }
}

/// Prints nothing.
#[derive(Drop)]
pub struct NoProgress {
    parts: Noted<Part>,
}

impl NoProgress {
    /// What was shown no part yet.
    pub fn new() -> NoProgress
        ensures { result.parts.items ≡ [] }
    {
        NoProgress {
            parts: Noted::new(),
        }
    }
}

impl Progress for NoProgress {
    ghost shown = { λ progress. progress.parts.items };

    fn show(&mut self, part: Part) {
        self.parts = self.parts.and(&part);
    }

    fn clear(&mut self) {}
}

impl SharedProgress for NoProgress {
    fn show_shared(&self, _part: Part) {}
}
