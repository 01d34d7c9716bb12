//! The machine that threads share, and its calls under the lock.

ghost use Rattle.std.specs.Prelude.{◌≡◌, ◌≤◌, ℕ, true, IfOk, IfErr, All, drop, length, take, vec_capacity};
ghost use Rattle.mx_machine.specs.declared.events.Event.TheVariants as events;
ghost use Rattle.mx_machine.specs.KernelState.{is_for_all};
ghost use Rattle.mx_cpus.specs.Calls.{EndsDead, IsAnsweredCall, IsGiveCall, IsKillCall, IsLoanOf, IsRefusedCall, IsRefusedKill};
ghost use Rattle.mx_cpus.specs.Calls.{IsRestCall, IsTakeCall, IsAcceptedHistory, StandsIn, world_after};
ghost use Rattle.mx_keyboard.specs.Keyboard.{seen_of};
ghost use Rattle.mx_spool.specs.Written.{console_of_history};

use crate::{ActorSeat, Given, HowFar, Kernel, Loan, Locked, Naming, Sighting};
use mx_machine::{Answer, Event, Refusal};
use mx_proc::Slot;
use std::sync::{Mutex, Wait};

/// The machine that threads share: a kernel under a lock. Each call takes its actor's seat and
/// gives it back with what the call did: the seat's own records, the history as it has seen it, and
/// what it holds. A call may wait for the lock; what it promises holds if it returns. None takes
/// memory.
pub struct Shared<M: Naming> {
    lock: Mutex<Locked<M>>,
    /// How many processors there are. It never changes, so it isn't under the lock.
    cpus: u8,
    ghost counted: { cpus ≡ length M.boot.cpus },
}

impl<M: Naming> Shared<M> {
    pub(crate) fn new(cpus: u8, locked: Locked<M>) -> Shared<M>
        requires { cpus ≡ length M.boot.cpus }
    {
        Shared {
            lock: Mutex::new(locked),
            cpus,
        }
    }

    /// How many processors there are. They are the first actors.
    pub fn cpus(&self) -> u8
        ensures { result ≡ length M.boot.cpus }
    {
        self.cpus
    }

    /// Ends the sharing: takes the seats of all actors, and gives out the kernel, in the state to
    /// which its history leads. All that the seats show is in the history. Of an actor whose seat
    /// isn't handed in, only this is known: the history's records, its own too, are accepted from
    /// the boot on.
    pub fn into_kernel(self, seats: Vec<ActorSeat>) -> Kernel
        requires table { All (λ s. s.table ≡ M.table) seats.items }
        ensures stands { All (λ s. StandsIn result.history s) seats.items }
        ensures boot { result.boot ≡ M.boot }
        ensures accepted { IsAcceptedHistory M.boot result.history }
    {
        let Shared { lock, cpus: _ } = self;
        let mut locked = lock.into_inner();
        // Each seat sees the history here, so what it shows is in the history.
        for seat in seats {
            let _seat = locked.show(seat);
        }
        let kernel = locked.into_kernel();
        kernel.facts();
        kernel
    }

    /// A processor takes the process that is first to run.
    pub fn take(&self, rt: &impl Wait, seat: ActorSeat) -> (ActorSeat, Result<Loan, Refusal>)
        requires table { seat.table ≡ M.table }
        ensures ok { IfOk result.1 (λ l. IsTakeCall M.boot seat result.0 l) }
        ensures err { IfErr result.1 (λ r. IsRefusedCall M.boot seat result.0 events.Take r) }
    {
        self.lock.lock(rt).take(seat)
    }

    /// A processor gives back the loan, under the lock. Its record counts the steps that were made.
    pub fn give(&self, rt: &impl Wait, seat: ActorSeat, loan: Loan) -> ActorSeat
        requires table { seat.table ≡ M.table }
        requires loan { IsLoanOf seat loan }
        ensures { IsGiveCall M.boot seat result loan }
    {
        let (seat, _given) = self.lock.lock(rt).give(seat, loan);
        seat
    }

    /// A processor gives back the loan, under the lock. Answers how many records the history has then, all of which the
    /// seat sees, and whether the process is dead.
    pub(crate) fn give_counted(
        &self,
        rt: &impl Wait,
        seat: ActorSeat,
        loan: Loan,
    ) -> (ActorSeat, Given)
        requires table { seat.table ≡ M.table }
        requires loan { IsLoanOf seat loan }
        ensures given { IsGiveCall M.boot seat result.0 loan }
        ensures records { result.1.records ≡ length result.0.seen }
        ensures died { EndsDead M.boot result.0 result.1.has_died }
    {
        self.lock.lock(rt).give(seat, loan)
    }

    /// An actor raises an interrupt line, numbered from 0.
    pub fn line(
        &self,
        rt: &impl Wait,
        seat: ActorSeat,
        line: u32,
    ) -> (ActorSeat, Result<Answer, Refusal>)
        requires table { seat.table ≡ M.table }
        ensures ok { IfOk result.1 (λ x. IsAnsweredCall M.boot seat result.0 (events.Line line) x) }
        ensures err { IfErr result.1 (λ r.
            IsRefusedCall M.boot seat result.0 (events.Line line) r) }
    {
        self.lock.lock(rt).event(seat, Event::Line(line))
    }

    /// An actor lets the clock tick, under the lock.
    pub fn tick(&self, rt: &impl Wait, seat: ActorSeat) -> (ActorSeat, Result<Answer, Refusal>)
        requires table { seat.table ≡ M.table }
        ensures ok { IfOk result.1 (λ x. IsAnsweredCall M.boot seat result.0 events.Tick x) }
        ensures err { IfErr result.1 (λ r. IsRefusedCall M.boot seat result.0 events.Tick r) }
    {
        self.lock.lock(rt).event(seat, Event::Tick)
    }

    /// An actor kills the process of an endpoint, under the lock.
    pub fn kill(
        &self,
        rt: &impl Wait,
        seat: ActorSeat,
        endpoint: u32,
    ) -> (ActorSeat, Result<Answer, Refusal>)
        requires table { seat.table ≡ M.table }
        ensures ok { IfOk result.1 (λ x.
            IsAnsweredCall M.boot seat result.0 (events.Kill endpoint) x) }
        ensures err { IfErr result.1 (λ r.
            IsRefusedCall M.boot seat result.0 (events.Kill endpoint) r) }
    {
        self.lock.lock(rt).event(seat, Event::Kill(endpoint))
    }

    /// An actor kills the process that a slot has: it is found and killed under one lock.
    pub fn kill_slot(
        &self,
        rt: &impl Wait,
        seat: ActorSeat,
        slot: Slot,
    ) -> (ActorSeat, Result<Answer, Refusal>)
        requires table { seat.table ≡ M.table }
        ensures ok { IfOk result.1 (λ x. (e : ℕ) × IsKillCall M.boot slot seat result.0 e x) }
        ensures err { IfErr result.1 (λ r. (e : ℕ)
            × IsRefusedKill M.boot slot seat result.0 e r) }
    {
        self.lock.lock(rt).kill_slot(seat, slot)
    }

    /// An actor puts a new process into a slot whose process is dead.
    pub fn respawn(
        &self,
        rt: &impl Wait,
        seat: ActorSeat,
        slot: u32,
    ) -> (ActorSeat, Result<Answer, Refusal>)
        requires table { seat.table ≡ M.table }
        ensures ok { IfOk result.1 (λ x.
            IsAnsweredCall M.boot seat result.0 (events.Respawn slot) x) }
        ensures err { IfErr result.1 (λ r.
            IsRefusedCall M.boot seat result.0 (events.Respawn slot) r) }
    {
        self.lock.lock(rt).event(seat, Event::Respawn(slot))
    }

    /// An actor makes an event that any actor may make.
    pub(crate) fn event(
        &self,
        rt: &impl Wait,
        seat: ActorSeat,
        event: Event,
    ) -> (ActorSeat, Result<Answer, Refusal>)
        requires table { seat.table ≡ M.table }
        requires event { is_for_all event ≡ true }
        ensures ok { IfOk result.1 (λ x. IsAnsweredCall M.boot seat result.0 event x) }
        ensures err { IfErr result.1 (λ r. IsRefusedCall M.boot seat result.0 event r) }
    {
        self.lock.lock(rt).event(seat, event)
    }

    /// Whether nothing is ready, nothing is out, and no slot that is down can be respawned. What the seat
    /// holds is what the machine shows as out.
    pub fn at_rest(&self, rt: &impl Wait, seat: ActorSeat) -> (ActorSeat, bool)
        requires table { seat.table ≡ M.table }
        ensures { IsRestCall M.boot seat result.0 result.1 }
    {
        self.lock.lock(rt).at_rest(seat)
    }

    /// How far the machine is: how many records its history has, all of which the seat sees, and whether it is at
    /// rest.
    pub fn how_far(&self, rt: &impl Wait, seat: ActorSeat) -> (ActorSeat, HowFar)
        requires table { seat.table ≡ M.table }
        ensures rest { IsRestCall M.boot seat result.0 result.1.at_rest }
        ensures records { result.1.records ≡ length result.0.seen }
    {
        self.lock.lock(rt).how_far(seat)
    }

    /// Shows an outsider that types the machine, in which a byte was raised for the process `flight`, if it was: how
    /// far it is, what is seen of its keyboard, and the bytes of its console from one on, as many as there is room for.
    /// They take the place of what the list had. Takes no memory.
    pub fn glance(
        &self,
        rt: &impl Wait,
        seat: ActorSeat,
        flight: Option<u32>,
        from: usize,
        bytes: &mut Vec<u8>,
    ) -> (ActorSeat, Sighting)
        requires table { seat.table ≡ M.table }
        ensures rest { IsRestCall M.boot seat result.0 result.1.far.at_rest }
        ensures records { result.1.far.records ≡ length result.0.seen }
        ensures keyboard { result.1.seen
            ≡ seen_of (world_after M.boot result.0.seen).table flight }
        ensures bytes { bytes.new.items ≡ take (vec_capacity bytes.old)
            (drop from (console_of_history M.boot result.0.seen)) }
        ensures room { vec_capacity bytes.old ≤ vec_capacity bytes.new }
    {
        self.lock.lock(rt).glance(seat, flight, from, bytes)
    }
}
