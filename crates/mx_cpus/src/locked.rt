//! The kernel with its desk and its spool, as they lie under the lock.

ghost use Rattle.std.specs.Prelude.{◌≡◌, ◌≤◌, ℕ, true, IfOk, IfErr, drop, length, take, vec_capacity};
ghost use Rattle.mx_machine.specs.declared.events.Event.TheVariants as events;
ghost use Rattle.mx_machine.specs.KernelState.{is_for_all};
ghost use Rattle.mx_machine.specs.History.{replay};
ghost use Rattle.mx_cpus.specs.Calls.{EndsDead, Follows, IsAnsweredCall, IsAnsweredHere, IsGiveCall, IsKillCall, IsLoanOf, IsLocked, IsRefusedKill, endpoint_now};
ghost use Rattle.mx_cpus.specs.Calls.{IsRefusedCall, IsRestCall, IsSameSeat, IsTakeCall, StandsIn, is_dead, world_after};
ghost use Rattle.mx_keyboard.specs.Keyboard.{seen_of};
ghost use Rattle.mx_spool.specs.Written.{console_of_history};

use crate::naming::Naming;
use mx_keyboard::seen_in;
use mx_loan::{ActorSeat, Desk, Loan};
use mx_machine::{Answer, Event, Kernel, Refusal, recorded_as};
use mx_proc::Slot;
use mx_spool::Spool;
use mx_typist::Seen;
use std::marker::{Model, PhantomData};

/// What lies under the lock: the kernel, in the state to which its history leads; its desk, which has this history and
/// lends what that state shows as out; and its spool, which has all that this history wrote to the console. Contracts
/// see the kernel.
pub struct Locked<M: Naming> {
    kernel: Kernel,
    desk: Desk,
    spool: Spool,
    of: PhantomData<M>,
}

/// How far a machine is.
#[derive(Clone, Copy, Debug, PartialEq, Eq)]
pub struct HowFar {
    /// How many records its history has.
    pub records: usize,
    /// Whether nothing is ready, nothing is out, and no slot that is down can be respawned.
    pub at_rest: bool,
}

/// What an outsider sees at a glance.
#[derive(Clone, Copy)]
pub struct Sighting {
    pub far: HowFar,
    /// The driver of the keyboard, and the process that the last byte was raised for.
    pub seen: Seen,
}

/// What a processor sees when it has given a process back.
#[derive(Clone, Copy)]
pub struct Given {
    /// How many records the history has.
    pub records: usize,
    /// Whether the process that came back is dead.
    pub has_died: bool,
}

/// Whether there is such a slot, and its process is dead.
fn is_dead(kernel: &Kernel, slot: Option<Slot>) -> bool
    ensures { result ≡ is_dead (replay kernel.now) slot }
{
    match slot {
        None => false,
        Some(slot) => {
            let table = kernel.table();
            slot < table.slot_count() && table.process(slot).state.is_down()
        }
    }
}

/// The endpoint of the process that a slot has. A number that is no slot's is its own: it names nobody.
fn endpoint_now(kernel: &Kernel, slot: Slot) -> u32
    ensures { result ≡ endpoint_now (replay kernel.now).table slot }
{
    let table = kernel.table();
    if slot < table.slot_count() {
        table.endpoint(slot)
    } else {
        u32::from(slot)
    }
}

impl<M: Naming> Model for Locked<M> {
    ghost use Rattle.mx_machine.specs.History.{BootAndHistory};
    ghost use Rattle.mx_cpus.specs.Calls.{IsLocked};

    ghost Value = { BootAndHistory };

    ghost view = { λ l. l.kernel };

    ghost invariant = { λ l. IsLocked M.table M.boot l.kernel l.desk l.spool };
}

#[tactic(auto, using(crate::proofs::WorldLemmas::event_outs))]
impl<M: Naming> Locked<M> {
    /// What the lock guards: a kernel, and the desk and the spool that agree with it.
    pub fn new(kernel: Kernel, desk: Desk, spool: Spool) -> Locked<M>
        requires { IsLocked M.table M.boot kernel desk spool }
        ensures { result ≡ kernel }
    {
        Locked {
            kernel,
            desk,
            spool,
            of: PhantomData,
        }
    }

    /// The kernel that the lock guarded, in the state to which its history leads.
    pub fn into_kernel(self) -> Kernel
        ensures kernel { result ≡ self }
        ensures boot { result.boot ≡ M.boot }
    {
        let Locked {
            kernel,
            desk: _,
            spool: _,
            of: _,
        } = self;
        kernel
    }

    /// The seat sees the history as the lock has it now.
    pub fn show(&mut self, seat: ActorSeat) -> ActorSeat
        requires table { seat.table ≡ M.table }
        ensures kernel { self.new ≡ self.old }
        ensures stands { StandsIn self.old.history seat }
        ensures follows { Follows seat result }
        ensures same { IsSameSeat seat result }
    {
        self.desk.note(seat)
    }

    /// Whether nothing is ready, nothing is out, and no slot that is down can be respawned. What the seat
    /// holds is what the machine shows as out.
    #[tactic(auto, using(crate::proofs::SeatLemmas::rest_by))]
    pub fn at_rest(&mut self, seat: ActorSeat) -> (ActorSeat, bool)
        requires table { seat.table ≡ M.table }
        ensures { IsRestCall M.boot seat result.0 result.1 }
    {
        self.kernel.facts();
        (self.desk.note(seat), self.kernel.at_rest())
    }

    /// How many records the history has, all of which the seat sees, and whether the machine is at rest.
    pub fn how_far(&mut self, seat: ActorSeat) -> (ActorSeat, HowFar)
        requires table { seat.table ≡ M.table }
        ensures rest { IsRestCall M.boot seat result.0 result.1.at_rest }
        ensures records { result.1.records ≡ length result.0.seen }
    {
        self.kernel.facts();
        let far = HowFar {
            records: self.kernel.history().len(),
            at_rest: self.kernel.at_rest(),
        };
        (self.desk.note(seat), far)
    }

    /// Shows the seat the history, and a machine in which a byte was raised for the process `flight`, if it was: how far
    /// it is, what is seen of its keyboard, and the bytes of its console from one on, as many as there is room for. They
    /// take the place of what the list had. Takes no memory.
    pub fn glance(
        &mut self,
        seat: ActorSeat,
        flight: Option<u32>,
        from: usize,
        bytes: &mut Vec<u8>,
    ) -> (ActorSeat, Sighting)
        requires table { seat.table ≡ M.table }
        ensures rest { IsRestCall M.boot seat result.0 result.1.far.at_rest }
        ensures records { result.1.far.records ≡ length result.0.seen }
        ensures keyboard { result.1.seen
            ≡ seen_of (world_after M.boot result.0.seen).table flight }
        ensures bytes { bytes.new.items ≡ take (vec_capacity bytes.old)
            (drop from (console_of_history M.boot result.0.seen)) }
        ensures room { vec_capacity bytes.old ≤ vec_capacity bytes.new }
    {
        self.spool.copy_from(from, bytes);
        let seen = seen_in(self.kernel.table(), flight);
        self.kernel.facts();
        let history = self.kernel.history();
        let at_rest = self.kernel.at_rest();
        let far = HowFar {
            records: history.len(),
            at_rest,
        };
        (self.desk.note(seat), Sighting { far, seen })
    }

    /// A processor takes the process that is first to run.
    pub fn take(&mut self, seat: ActorSeat) -> (ActorSeat, Result<Loan, Refusal>)
        requires table { seat.table ≡ M.table }
        ensures ok { IfOk result.1 (λ l. IsTakeCall M.boot seat result.0 l) }
        ensures err { IfErr result.1 (λ r. IsRefusedCall M.boot seat result.0 events.Take r) }
    {
        // The seat sees the history first, also if the take is refused.
        let seat = self.desk.note(seat);
        self.kernel.facts();
        match self.kernel.take(seat.actor()) {
            Ok(out) => {
                self.kernel.facts();
                let (seat, loan) = self.desk.lend(seat, out);
                (seat, Ok(loan))
            }
            Err(refusal) => (seat, Err(refusal)),
        }
    }

    /// A processor brings back its loan to the locked kernel. Answers how many records the history has then, all of
    /// which the seat sees, and whether the process is dead.
    pub fn give(&mut self, seat: ActorSeat, loan: Loan) -> (ActorSeat, Given)
        requires table { seat.table ≡ M.table }
        requires loan { IsLoanOf seat loan }
        ensures given { IsGiveCall M.boot seat result.0 loan }
        ensures records { result.1.records ≡ length result.0.seen }
        ensures died { EndsDead M.boot result.0 result.1.has_died }
    {
        let actor = seat.actor();
        let slot = self.kernel.slot_on(actor);
        // By the desk's contract this is what was lent, after the steps that it counts.
        let (seat, out) = self.desk.redeem(seat, loan);
        self.kernel.back(actor, out);
        self.kernel.facts();
        self.spool.follow(&self.kernel);
        let records = self.kernel.history().len();
        let has_died = is_dead(&self.kernel, slot);
        (seat, Given { records, has_died })
    }

    /// An actor kills the process that a slot has: it is found and killed under one lock.
    pub fn kill_slot(&mut self, seat: ActorSeat, slot: Slot) -> (ActorSeat, Result<Answer, Refusal>)
        requires table { seat.table ≡ M.table }
        ensures ok { IfOk result.1 (λ x. (e : ℕ) × IsKillCall M.boot slot seat result.0 e x) }
        ensures err { IfErr result.1 (λ r. (e : ℕ)
            × IsRefusedKill M.boot slot seat result.0 e r) }
    {
        let endpoint = endpoint_now(&self.kernel, slot);
        self.event_here(seat, Event::Kill(endpoint))
    }

    /// An actor raises a line, lets the clock tick, kills a process or respawns a slot.
    pub fn event(&mut self, seat: ActorSeat, event: Event) -> (ActorSeat, Result<Answer, Refusal>)
        requires table { seat.table ≡ M.table }
        requires event { is_for_all event ≡ true }
        ensures ok { IfOk result.1 (λ x. IsAnsweredCall M.boot seat result.0 event x) }
        ensures err { IfErr result.1 (λ r. IsRefusedCall M.boot seat result.0 event r) }
    {
        self.event_here(seat, event)
    }

    /// An actor makes an event that any actor may make, at the world that the kernel is in.
    fn event_here(&mut self, seat: ActorSeat, event: Event) -> (ActorSeat, Result<Answer, Refusal>)
        requires table { seat.table ≡ M.table }
        requires event { is_for_all event ≡ true }
        ensures ok { IfOk result.1 (λ x.
            IsAnsweredHere M.boot (replay self.old) seat result.0 event x) }
        ensures err { IfErr result.1 (λ r. IsRefusedCall M.boot seat result.0 event r
            × (world_after M.boot result.0.seen ≡ replay self.old)) }
    {
        // The seat sees the history first, also if the event is refused.
        let seat = self.desk.note(seat);
        seat.facts();
        self.kernel.facts();
        match self.kernel.event(seat.actor(), event) {
            Ok(answer) => {
                self.kernel.facts();
                (self.desk.record(seat, recorded_as(event)), Ok(answer))
            }
            Err(refusal) => (seat, Err(refusal)),
        }
    }
}
