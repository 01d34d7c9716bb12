//! An actor's side of the gate: which call a loop may make when. A loop has no other way to the gate.

ghost use Rattle.std.specs.Prelude.{◌≡◌, ◌+◌, ◌-◌, ◌^◌, not, true, None, length, min};
ghost use Rattle.mx_cpus.specs.Courses.{IsAsked};
ghost use Rattle.mx_cpus.specs.Gates.{held_call, given_call, due_call, asked_call, ended_call, seen_call, stops_call};

use crate::gate::WatchingGate;
use crate::{ActorSeat, Given, HowFar, Loan, Naming, Shared};
use std::sync::Wait;

/// The gate as a loop has it: only an actor's side calls it.
#[derive(Drop)]
pub(crate) struct Door<'g, G: WatchingGate> {
    gate: &'g G,
}

impl<'g, G: WatchingGate> Door<'g, G> {
    pub(crate) fn new(gate: &'g G) -> Door<'g, G>
        ensures { result.gate.now ≡ gate.now }
    {
        Door { gate }
    }
}

/// What the loops of a machine share.
#[derive(Drop)]
pub(crate) struct LoopContext<'s, M: Naming, G: WatchingGate, R> {
    pub rt: &'s R,
    pub shared: &'s Shared<M>,
    pub door: Door<'s, G>,
}

impl<'s, M: Naming, G: WatchingGate, R> LoopContext<'s, M, G, R> {
    pub(crate) fn new(rt: &'s R, shared: &'s Shared<M>, gate: &'s G) -> LoopContext<'s, M, G, R>
        ensures { result.door.gate.now ≡ gate.now }
    {
        LoopContext {
            rt,
            shared,
            door: Door::new(gate),
        }
    }
}

impl<'s, M: Naming, G: WatchingGate, R: Wait> LoopContext<'s, M, G, R> {
    /// Looks how far the machine is, shows it to the gate, and asks the gate whether the actor's loop goes on, by
    /// whether the actor's own work is done.
    pub(crate) fn ask(
        &self,
        seat: ActorSeat,
        side: FreeSide,
        is_done: bool,
    ) -> (ActorSeat, FreeSide)
        requires table { seat.table ≡ M.table }
        requires actor { side.actor ≡ seat.actor }
        requires goes_on { side.goes_on ≡ true }
        ensures asked { IsAsked M.boot (G.was_called self.now.door.gate.now) is_done
            seat result.0 result.1.goes_on }
        ensures side { (result.1.actor ≡ side.actor) × (result.1.turn ≡ side.turn) }
    {
        let (seat, far) = self.shared.how_far(self.rt, seat);
        (seat, side.ask(&self.door, far, is_done))
    }
}

/// The side of an actor that holds nothing.
pub(crate) struct FreeSide {
    actor: u8,
    /// How many takes of it were accepted.
    turn: u64,
    /// The gate's last answer: the loop goes on.
    goes_on: bool,
}

/// The side of an actor that holds a loan, of which the gate knows.
pub(crate) struct HoldingSide {
    actor: u8,
    turn: u64,
}

impl FreeSide {
    /// The side of an actor whose loop begins.
    pub(crate) fn new(actor: u8) -> FreeSide
        ensures { (result.actor ≡ actor) × (result.turn ≡ 0) × (result.goes_on ≡ true) }
    {
        FreeSide {
            actor,
            turn: 0,
            goes_on: true,
        }
    }

    /// Reports to the gate a loan that hasn't run yet.
    pub(crate) fn report_loan<G: WatchingGate>(self, door: &Door<'_, G>, loan: &Loan) -> HoldingSide
        requires goes_on { self.goes_on ≡ true }
        requires actor { loan.now.actor ≡ self.actor }
        requires fresh { loan.now.out ≡ loan.now.lent }
        ensures called { G.was_called door.now.gate.now (held_call self.actor self.turn) }
        ensures side { (result.actor ≡ self.actor) × (result.turn ≡ self.turn) }
    {
        let _loan = loan;
        let FreeSide {
            actor,
            turn,
            goes_on: _,
        } = self;
        door.gate.held(actor, turn);
        HoldingSide { actor, turn }
    }

    /// Shows the gate how far the machine is, and asks it whether the loop goes on, by whether the actor's own work is
    /// done.
    pub(crate) fn ask<G: WatchingGate>(
        self,
        door: &Door<'_, G>,
        far: HowFar,
        is_done: bool,
    ) -> FreeSide
        requires goes_on { self.goes_on ≡ true }
        ensures seen { G.was_called door.now.gate.now (seen_call self.actor far.records) }
        ensures called { G.was_called door.now.gate.now
            (asked_call self.actor far.records far.at_rest is_done result.goes_on) }
        ensures side { (result.actor ≡ self.actor) × (result.turn ≡ self.turn) }
    {
        let FreeSide {
            actor,
            turn,
            goes_on: _,
        } = self;
        door.gate.seen(actor, far.records);
        let goes_on = door.gate.goes_on(actor, far, is_done);
        FreeSide {
            actor,
            turn,
            goes_on,
        }
    }

    /// Asks the gate after a turn whether it stops the loop.
    pub(crate) fn ask_stop<G: WatchingGate>(self, door: &Door<'_, G>) -> FreeSide
        requires goes_on { self.goes_on ≡ true }
        ensures called { G.was_called door.now.gate.now (stops_call self.actor (not result.goes_on)) }
        ensures side { (result.actor ≡ self.actor) × (result.turn ≡ self.turn) }
    {
        let FreeSide {
            actor,
            turn,
            goes_on: _,
        } = self;
        let stops = door.gate.stops(actor);
        FreeSide {
            actor,
            turn,
            goes_on: !stops,
        }
    }

    /// Reports to the gate that the actor has killed a process.
    pub(crate) fn report_kill<G: WatchingGate>(&self, door: &Door<'_, G>)
        ensures { G.was_called door.now.gate.now (due_call self.now.actor) }
    {
        door.gate.due(self.actor);
    }

    /// The gate's last answer.
    pub(crate) fn goes_on(&self) -> bool
        ensures { result ≡ self.now.goes_on }
    {
        self.goes_on
    }

    /// Reports to the gate that the loop has ended.
    pub(crate) fn report_end<G: WatchingGate>(self, door: &Door<'_, G>)
        ensures { G.was_called door.now.gate.now (ended_call self.actor) }
    {
        let FreeSide {
            actor,
            turn: _,
            goes_on: _,
        } = self;
        door.gate.ended(actor);
    }

    /// Leaves it to the caller to report the end to the gate.
    pub(crate) fn leave(self) {
        let FreeSide {
            actor: _,
            turn: _,
            goes_on: _,
        } = self;
    }
}

impl HoldingSide {
    /// Reports to the gate that the loan was given back, and whether a slot is due, since the process is dead, and shows
    /// it how many records the seat has seen that came back for it.
    pub(crate) fn report_return<G: WatchingGate>(
        self,
        door: &Door<'_, G>,
        seat: &ActorSeat,
        given: Given,
    ) -> FreeSide
        requires actor { seat.now.actor ≡ self.actor }
        requires back { seat.now.held ≡ None }
        requires records { given.records ≡ length seat.now.seen }
        ensures called { G.was_called door.now.gate.now (given_call self.actor) }
        ensures due { given.has_died ≡ true → G.was_called door.now.gate.now (due_call self.actor) }
        ensures seen { G.was_called door.now.gate.now (seen_call self.actor given.records) }
        ensures actor { result.actor ≡ self.actor }
        ensures turn { result.turn ≡ min (self.turn + 1) (2 ^ 64 - 1) }
        ensures goes_on { result.goes_on ≡ true }
    {
        let _seat = seat;
        let HoldingSide { actor, turn } = self;
        door.gate.given(actor);
        if given.has_died {
            door.gate.due(actor);
        }
        door.gate.seen(actor, given.records);
        FreeSide {
            actor,
            turn: turn.saturating_add(1),
            goes_on: true,
        }
    }
}
