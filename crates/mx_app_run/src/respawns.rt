//! How a death wakes the respawner, and how processors let it go first.
//!
//! # Which round serves a death
//!
//! Deaths are counted as they are reported. A round that has begun may have passed the slot of the next one, so a round
//! serves those that were reported before it began. While one isn't served, processors begin no turn, for some tens of
//! milliseconds at most, and the respawner doesn't sleep.

use std::sync::Wait;
use std::sync::atomic::{AtomicBool, AtomicU32, Ordering};
use std::thread;
use std::thread::Parker;
use std::time::{Clock, Duration};

/// How often a processor only yields while it lets the respawner go first, before it sleeps: where more threads want to
/// run than there are processors, those that yield would keep the respawner from them.
const YIELDS: u32 = 256;

/// How many times it sleeps a millisecond then, at most: if the respawner gets no processor for so long, the run goes on.
const NAPS: u32 = 64;

/// What is to respawn, and how far the respawner is.
#[derive(Drop)]
pub(crate) struct Respawns {
    /// How many deaths were reported. It may wrap, as the next two.
    reported: AtomicU32,
    /// How many were when the round began that the respawner is in.
    begun: AtomicU32,
    /// How many were when the round began that it has ended last.
    served: AtomicU32,
    has_ended: AtomicBool,
    parker: Parker,
}

impl Respawns {
    pub(crate) fn new() -> Respawns {
        Respawns {
            reported: AtomicU32::new(0),
            begun: AtomicU32::new(0),
            served: AtomicU32::new(0),
            has_ended: AtomicBool::new(false),
            parker: Parker::new(),
        }
    }

    /// A process has died. Wakes the respawner.
    pub(crate) fn report(&self) {
        self.reported.fetch_add(1, Ordering::SeqCst);
        self.parker.unpark();
    }

    /// Whether each death that was reported is served.
    fn are_served(&self) -> bool {
        self.served.load(Ordering::SeqCst) == self.reported.load(Ordering::SeqCst)
    }

    /// A processor lets the respawner go first, if a death isn't served.
    pub(crate) fn wait_for_round(&self, rt: &(impl Clock + Wait)) {
        for waits in 0..YIELDS + NAPS {
            if self.are_served() || self.has_ended.load(Ordering::SeqCst) {
                return;
            }
            if waits < YIELDS {
                thread::yield_now();
            } else {
                thread::sleep(rt, Duration::from_millis(1));
            }
        }
    }

    /// The respawner has ended a round.
    pub(crate) fn end_round(&self) {
        let served = self.begun.load(Ordering::SeqCst);
        self.served.store(served, Ordering::SeqCst);
    }

    /// The respawner sleeps until a death is reported, so long at most, and then begins a round.
    pub(crate) fn begin_round(&self, rt: &impl Wait, nap: Duration) {
        if self.are_served() {
            self.parker.park_timeout(rt, nap);
        }
        let reported = self.reported.load(Ordering::SeqCst);
        self.begun.store(reported, Ordering::SeqCst);
    }

    /// No further round comes.
    pub(crate) fn end(&self) {
        self.has_ended.store(true, Ordering::SeqCst);
    }
}
