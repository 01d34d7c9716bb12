//! What a loop calls between its calls of the machine.

use crate::HowFar;

/// What a loop calls between its calls of the machine, and what decides when the loop ends. No call
/// of it is made under the lock. One gate serves all threads.
pub trait Gate {
    ghost use Rattle.mx_cpus.specs.Gates.{GateCall, held_call, given_call, again_call, ended_call};

    /// Which calls were made. A call promises this of itself when it returns.
    ghost was_called: { Self → GateCall → Type 0 } = { λ _ _. Unit {0} };

    /// A processor has taken a process, and hasn't run it yet. `turn` counts its accepted takes from 0.
    fn held(&self, cpu: u8, turn: u64)
        ensures { was_called self.now (held_call cpu turn) };

    /// A processor has given its process back.
    fn given(&self, cpu: u8)
        ensures { was_called self.now (given_call cpu) };

    /// Whether an actor's loop goes on. A processor asks if it found nothing ready, and the
    /// respawner asks after each sweep; `at_rest` is whether the machine was at rest just before.
    fn again(&self, actor: u8, at_rest: bool) -> bool
        ensures { was_called self.now (again_call actor at_rest result) };

    /// An actor's loop has ended, or no thread could be made for it.
    fn ended(&self, actor: u8)
        ensures { was_called self.now (ended_call actor) };
}

/// A gate that the actors also show how far the machine is, and whether their own work is done.
pub trait WatchingGate {
    ghost use Rattle.mx_cpus.specs.Gates.{GateCall, held_call, given_call, due_call, asked_call, ended_call, seen_call, stops_call};

    /// Which calls were made. A call promises this of itself when it returns.
    ghost was_called: { Self → GateCall → Type 0 } = { λ _ _. Unit {0} };

    /// A processor has taken a process, and hasn't run it yet. `turn` counts its accepted takes from 0.
    fn held(&self, cpu: u8, turn: u64)
        ensures { was_called self.now (held_call cpu turn) };

    /// A processor has given its process back.
    fn given(&self, cpu: u8)
        ensures { was_called self.now (given_call cpu) };

    /// A slot may have to be respawned: the process that a processor gave back is dead, or the outsider has killed one.
    fn due(&self, actor: u8)
        ensures { was_called self.now (due_call actor) };

    /// An actor has seen so many records, which was the whole history: after a turn, and before each question of
    /// it. No call of it is made under the lock, so the calls of several actors can come in another order.
    fn seen(&self, actor: u8, records: usize)
        ensures { was_called self.now (seen_call actor records) };

    /// Whether an actor's loop goes on, by how far the machine was just before, and by whether the actor's own work is
    /// done: the respawner has made all ticks, or the outsider all calls. A processor has no work of its own.
    fn goes_on(&self, actor: u8, far: HowFar, is_done: bool) -> bool
        ensures { was_called self.now
            (asked_call actor far.records far.at_rest is_done result) };

    /// Whether a processor's loop is stopped after a turn.
    fn stops(&self, cpu: u8) -> bool
        ensures { was_called self.now (stops_call cpu result) };

    /// An actor's loop has ended, or it never began, since not each loop could have a thread.
    fn ended(&self, actor: u8)
        ensures { was_called self.now (ended_call actor) };
}

/// A gate that no actor shows how far the machine is.
#[derive(Drop)]
pub(crate) struct Unwatched<'g, G: Gate> {
    pub gate: &'g G,
}

impl<'g, G: Gate> WatchingGate for Unwatched<'g, G> {
    ghost use Rattle.mx_cpus.specs.Gates.{unwatched};

    ghost was_called = { λ unwatching call. unwatched (G.was_called unwatching.gate.now) call };

    fn held(&self, cpu: u8, turn: u64) {
        self.gate.held(cpu, turn);
    }

    fn given(&self, cpu: u8) {
        self.gate.given(cpu);
    }

    fn due(&self, _actor: u8) {}

    fn seen(&self, _actor: u8, _records: usize) {}

    fn goes_on(&self, actor: u8, far: HowFar, _is_done: bool) -> bool {
        self.gate.again(actor, far.at_rest)
    }

    fn stops(&self, _cpu: u8) -> bool {
        false
    }

    fn ended(&self, actor: u8) {
        self.gate.ended(actor);
    }
}
