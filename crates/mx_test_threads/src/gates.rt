//! A gate for tests, which notes each call that a loop makes of it.

use mx_cpus::{Gate, HowFar, WatchingGate};
use std::array;
use std::sync::atomic::{AtomicU32, AtomicU64, Ordering};

/// How many calls a gate notes.
const NOTED: usize = 80;

/// A call of a gate. A number above 99 is noted as 99.
#[derive(Clone, Copy)]
pub enum GateCall {
    Held { cpu: u8, turn: u64 },
    Given(u8),
    Again { actor: u8, at_rest: bool },
    Ended(u8),
    /// A slot may have to be respawned.
    Due(u8),
    Seen { actor: u8, records: usize },
    /// A question with whether the actor's own work is done.
    Asked { actor: u8, is_done: bool },
    /// A question after a turn whether the processor's loop is stopped.
    Stops(u8),
}

/// A call as a number: which kind of call, then a number below 100, then the actor.
fn number_of(call: GateCall) -> u64 {
    let (kind, actor, number): (u64, u8, u64) = match call {
        GateCall::Held { cpu, turn } => (1, cpu, turn.min(99)),
        GateCall::Given(cpu) => (2, cpu, 0),
        GateCall::Again { actor, at_rest } => (3, actor, u64::from(at_rest)),
        GateCall::Ended(actor) => (4, actor, 0),
        GateCall::Seen { actor, records } => (5, actor, records.min(99) as u64),
        GateCall::Due(actor) => (7, actor, 0),
        GateCall::Asked { actor, is_done } => (6, actor, u64::from(is_done)),
        GateCall::Stops(cpu) => (8, cpu, 0),
    };
    kind.min(9) * 100_000 + number.min(99) * 1000 + u64::from(actor)
}

/// A gate that answers a number of questions with yes, and then no. It stops each processor after its turn, or none.
#[derive(Drop)]
pub struct NotingGate {
    yes: u32,
    stops: bool,
    questions: AtomicU32,
    made: AtomicU32,
    calls: [AtomicU64; NOTED],
}

impl NotingGate {
    /// A gate that stops no processor.
    pub fn new(yes: u32) -> NotingGate {
        NotingGate::with(yes, false)
    }

    /// A gate that stops each processor after its turn.
    pub fn stopping(yes: u32) -> NotingGate {
        NotingGate::with(yes, true)
    }

    fn with(yes: u32, stops: bool) -> NotingGate {
        NotingGate {
            yes,
            stops,
            questions: AtomicU32::new(0),
            made: AtomicU32::new(0),
            calls: array::from_fn(|_| AtomicU64::new(0)),
        }
    }

    fn note(&self, call: GateCall) {
        let place = self.made.fetch_add(1, Ordering::SeqCst);
        if let Some(noted) = self.calls.get(place as usize) {
            noted.store(number_of(call), Ordering::SeqCst);
        }
    }

    /// Whether just these calls were made, in this order.
    pub fn has_just(&self, wanted: &[GateCall]) -> bool {
        if self.made.load(Ordering::SeqCst) as usize != wanted.len() {
            return false;
        }
        for (noted, call) in self.calls.iter().zip(wanted.iter()) {
            if noted.load(Ordering::SeqCst) != number_of(*call) {
                return false;
            }
        }
        true
    }

    /// How often a call was made.
    pub fn count(&self, call: GateCall) -> u32 {
        let mut found: u32 = 0;
        for noted in self.calls.iter() {
            if noted.load(Ordering::SeqCst) == number_of(call) {
                found = found.saturating_add(1);
            }
        }
        found
    }
}

impl Gate for NotingGate {
    fn held(&self, cpu: u8, turn: u64) {
        self.note(GateCall::Held { cpu, turn });
    }

    fn given(&self, cpu: u8) {
        self.note(GateCall::Given(cpu));
    }

    fn again(&self, actor: u8, at_rest: bool) -> bool {
        self.note(GateCall::Again { actor, at_rest });
        self.questions.fetch_add(1, Ordering::SeqCst) < self.yes
    }

    fn ended(&self, actor: u8) {
        self.note(GateCall::Ended(actor));
    }
}

impl WatchingGate for NotingGate {
    fn held(&self, cpu: u8, turn: u64) {
        self.note(GateCall::Held { cpu, turn });
    }

    fn given(&self, cpu: u8) {
        self.note(GateCall::Given(cpu));
    }

    fn due(&self, actor: u8) {
        self.note(GateCall::Due(actor));
    }

    fn seen(&self, actor: u8, records: usize) {
        self.note(GateCall::Seen { actor, records });
    }

    fn goes_on(&self, actor: u8, _far: HowFar, is_done: bool) -> bool {
        self.note(GateCall::Asked { actor, is_done });
        self.questions.fetch_add(1, Ordering::SeqCst) < self.yes
    }

    fn stops(&self, cpu: u8) -> bool {
        self.note(GateCall::Stops(cpu));
        self.stops
    }

    fn ended(&self, actor: u8) {
        self.note(GateCall::Ended(actor));
    }
}
