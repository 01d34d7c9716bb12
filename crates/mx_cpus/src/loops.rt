//! What a processor does, turn after turn, and the respawner, round after round.

ghost use Rattle.std.specs.Prelude.{◌≡◌, ◌<◌, ◌+◌, ℕ, Bool, true, false, None, if◌then◌else◌, length, nat_lt, IfErr, OnOk};
ghost use Rattle.mx_machine.specs.declared.events.Event.TheVariants as events;
ghost use Rattle.mx_cpus.specs.Calls.{EndsDead, IsRefusedCall};
ghost use Rattle.mx_cpus.specs.Courses.{IsLastRound, IsLastTurn, IsOneMoreBy, IsProcessorRun, IsRespawnerRun, IsRoundAsked, IsTurn, turn_number};
ghost use Rattle.mx_cpus.specs.Gates.{due_call, unwatched};
ghost use Rattle.mx_cpus.specs.Loops.{HasMadeTurns, HasTickedAndRespawned};
ghost use Rattle.mx_cpus.specs.Progresses.{IsRoundTo, IsSweepTo};

use crate::gate::{Gate, Unwatched, WatchingGate};
use crate::progress::Progress;
use crate::side::{FreeSide, LoopContext};
use crate::{ActorSeat, Naming, Shared};
use mx_machine::{Held, Refusal};
use std::sync::Wait;

/// A take, and if it isn't refused, a run of the loan until its budget is spent or it stops, and its return. The gate
/// is called with a loan before it runs, and after it came back, and if its process is dead then. Answers whether the take was refused, and why.
fn make_turn<M: Naming, G: WatchingGate, R: Wait>(
    context: &LoopContext<'_, M, G, R>,
    seat: ActorSeat,
    side: FreeSide,
) -> (ActorSeat, FreeSide, Result<(), Refusal>)
    requires table { seat.table ≡ M.table }
    requires actor { side.actor ≡ seat.actor }
    requires goes_on { side.goes_on ≡ true }
    ensures turn { OnOk result.2 ((n : ℕ) → side.turn ≡ turn_number n
        → IsTurn M.boot (G.was_called context.now.door.gate.now) n seat result.0) }
    ensures counted { OnOk result.2 ((result.1.actor ≡ side.actor)
        × (result.1.turn ≡ turn_number (side.turn + 1)) × (result.1.goes_on ≡ true)) }
    ensures died { OnOk result.2 ((died : Bool) × EndsDead M.boot result.0 died
        × (died ≡ true → G.was_called context.now.door.gate.now (due_call seat.actor))) }
    ensures refused { IfErr result.2 (λ r. IsRefusedCall M.boot seat result.0 events.Take r) }
    ensures same { IfErr result.2 (λ _. result.1 ≡ side) }
{
    let (next, taken) = context.shared.take(context.rt, seat);
    match taken {
        Ok(mut loan) => {
            let holding = side.report_loan(&context.door, &loan);
            // No budget is larger, so it runs until its budget is spent or it stops.
            let _stop = loan.run(u32::MAX);
            let (back, given) = context.shared.give_counted(context.rt, next, loan);
            let side = holding.report_return(&context.door, &back, given);
            (back, side, Ok(()))
        }
        Err(refusal) => (next, side, Err(refusal)),
    }
}

/// A turn, and a question to the gate whether it stops the loop; or another one if its take is refused. Answers whether
/// the loop goes on; it doesn't at a full history, of which the gate isn't asked.
fn turn_or_wait<M: Naming, G: WatchingGate, R: Wait>(
    context: &LoopContext<'_, M, G, R>,
    seat: ActorSeat,
    side: FreeSide,
) -> (ActorSeat, FreeSide, bool)
    requires table { seat.table ≡ M.table }
    requires actor { side.actor ≡ seat.actor }
    requires goes_on { side.goes_on ≡ true }
    ensures more { result.2 ≡ true → (n : ℕ) → side.turn ≡ turn_number n
        → IsOneMoreBy M.boot (G.was_called context.now.door.gate.now)
        n seat result.0 result.1.turn }
    ensures ends { result.2 ≡ false → (n : ℕ) → side.turn ≡ turn_number n
        → IsLastTurn M.boot (G.was_called context.now.door.gate.now) n seat result.0 }
    ensures actor { result.1.actor ≡ side.actor }
    ensures goes_on { result.2 ≡ true → result.1.goes_on ≡ true }
{
    let (seat, side, made) = make_turn(context, seat, side);
    match made {
        Ok(()) => {
            let side = side.ask_stop(&context.door);
            let goes_on = side.goes_on();
            (seat, side, goes_on)
        }
        Err(Refusal::LogFull) => (seat, side, false),
        Err(_) => {
            let (seat, side) = context.ask(seat, side, true);
            let goes_on = side.goes_on();
            (seat, side, goes_on)
        }
    }
}

/// A processor's turns, and its questions to the gate if nothing is ready.
pub(crate) fn make_turns<M: Naming, G: WatchingGate, R: Wait>(
    context: &LoopContext<'_, M, G, R>,
    seat: ActorSeat,
    side: FreeSide,
) -> (ActorSeat, FreeSide)
    requires table { seat.table ≡ M.table }
    requires empty { seat.held ≡ None }
    requires actor { side.actor ≡ seat.actor }
    requires turn { side.turn ≡ 0 }
    requires goes_on { side.goes_on ≡ true }
    ensures made { HasMadeTurns seat result.0 }
    ensures course { IsProcessorRun M.boot (G.was_called context.now.door.gate.now)
        seat result.0 }
    ensures side { result.1.actor ≡ seat.actor }
{
    seat.facts();
    let mut seat = seat;
    let mut side = side;
    for _ in context.rt.forever() {
        let (next, after, goes_on) = turn_or_wait(context, seat, side);
        seat = next;
        side = after;
        if !goes_on {
            return (seat, side);
        }
    }
    unreachable!()
}

/// A processor takes a process, runs it until its budget is spent or it stops, and gives it back,
/// again and again. If nothing is ready, the gate decides whether the loop goes on. It ends at a
/// full history too. Takes no memory.
pub fn processor<M: Naming, G: Gate, R: Wait>(
    rt: &R,
    shared: &Shared<M>,
    seat: ActorSeat,
    gate: &G,
) -> ActorSeat
    requires table { seat.table ≡ M.table }
    requires processor { seat.actor < length M.boot.cpus }
    requires empty { seat.held ≡ None }
    ensures made { HasMadeTurns seat result }
    ensures course { IsProcessorRun M.boot (unwatched (G.was_called gate.now)) seat result }
{
    let gate = Unwatched { gate };
    let context = LoopContext::new(rt, shared, &gate);
    let side = FreeSide::new(seat.actor());
    let (seat, side) = make_turns(&context, seat, side);
    side.leave();
    seat
}

/// How many slots a machine may have.
const SLOTS: u32 = 32;

/// Respawns each slot that is down and not worn, in turn.
fn sweep<M: Naming, R: Wait>(rt: &R, shared: &Shared<M>, seat: ActorSeat) -> (ActorSeat, Progress)
    requires table { seat.table ≡ M.table }
    ensures { IsSweepTo M.boot seat result.0 result.1 }
{
    let mut seat = seat;
    for slot in 0..SLOTS {
        let (next, answer) = shared.respawn(rt, seat, slot);
        seat = next;
        // Another refusal, as of a slot that isn't down, doesn't end the sweep.
        if let Err(Refusal::LogFull) = answer {
            return (seat, Progress::Full);
        }
    }
    (seat, Progress::GoesOn)
}

/// One tick, if `left` are left and not none, and one sweep.
fn make_round<M: Naming, R: Wait>(
    rt: &R,
    shared: &Shared<M>,
    seat: ActorSeat,
    left: u32,
) -> (ActorSeat, Progress)
    requires table { seat.table ≡ M.table }
    ensures { IsRoundTo M.boot left seat result.0 result.1 }
{
    if left == 0 {
        return sweep(rt, shared, seat);
    }
    let (seat, ticked) = shared.tick(rt, seat);
    // A tick is refused only at a full history.
    if ticked.is_err() {
        return (seat, Progress::Full);
    }
    sweep(rt, shared, seat)
}

/// A round, and a question to the gate after it. Answers whether the loop goes on; it doesn't at a full history, of
/// which the gate isn't asked.
fn round_and_question<M: Naming, G: WatchingGate, R: Wait>(
    context: &LoopContext<'_, M, G, R>,
    seat: ActorSeat,
    side: FreeSide,
    left: u32,
) -> (ActorSeat, FreeSide, bool)
    requires table { seat.table ≡ M.table }
    requires actor { side.actor ≡ seat.actor }
    requires goes_on { side.goes_on ≡ true }
    ensures more { result.2 ≡ true
        → IsRoundAsked M.boot (G.was_called context.now.door.gate.now) left seat result.0 true }
    ensures ends { result.2 ≡ false
        → IsLastRound M.boot (G.was_called context.now.door.gate.now) left seat result.0 }
    ensures actor { result.1.actor ≡ side.actor }
    ensures goes_on { result.2 ≡ true → result.1.goes_on ≡ true }
{
    seat.facts();
    let (seat, progress) = make_round(context.rt, context.shared, seat, left);
    match progress {
        Progress::Full => (seat, side, false),
        Progress::GoesOn => {
            let (seat, side) = context.ask(seat, side, left < 2);
            let goes_on = side.goes_on();
            (seat, side, goes_on)
        }
    }
}

/// The respawner's rounds, and its questions of the gate.
pub(crate) fn make_rounds<M: Naming, G: WatchingGate, R: Wait>(
    context: &LoopContext<'_, M, G, R>,
    seat: ActorSeat,
    side: FreeSide,
    ticks: u32,
) -> (ActorSeat, FreeSide)
    requires table { seat.table ≡ M.table }
    requires actor { side.actor ≡ seat.actor }
    requires goes_on { side.goes_on ≡ true }
    ensures made { HasTickedAndRespawned ticks seat result.0 }
    ensures course { IsRespawnerRun M.boot (G.was_called context.now.door.gate.now)
        ticks seat result.0 }
    ensures side { result.1.actor ≡ seat.actor }
{
    seat.facts();
    let mut seat = seat;
    let mut side = side;
    let mut left = ticks;
    for _ in context.rt.forever() {
        let (next, after, goes_on) = round_and_question(context, seat, side, left);
        seat = next;
        side = after;
        if !goes_on {
            return (seat, side);
        }
        left = left.saturating_sub(1);
    }
    unreachable!()
}

/// Makes rounds: in each one tick, while some are left, and one sweep over the slots, in which each
/// that is down and not worn is respawned. After each round the gate decides whether the loop goes
/// on. It ends at a full history too. Takes no memory.
pub fn respawner<M: Naming, G: Gate, R: Wait>(
    rt: &R,
    shared: &Shared<M>,
    seat: ActorSeat,
    gate: &G,
    ticks: u32,
) -> ActorSeat
    requires table { seat.table ≡ M.table }
    ensures made { HasTickedAndRespawned ticks seat result }
    ensures course { IsRespawnerRun M.boot (unwatched (G.was_called gate.now)) ticks seat result }
{
    let gate = Unwatched { gate };
    let context = LoopContext::new(rt, shared, &gate);
    let side = FreeSide::new(seat.actor());
    let (seat, side) = make_rounds(&context, seat, side, ticks);
    side.leave();
    seat
}
