//! What the second other actor does: outside events, and waits between them.

ghost use Rattle.std.specs.Prelude.{◌≡◌, ℕ, true, false, IfNone, IfSome, length};
ghost use Rattle.mx_machine.specs.KernelState.{is_for_all};
ghost use Rattle.mx_cpus.specs.CallEnds.{IsCallTo, IsEventTo, IsKillTo, IsWaitTo, goes_on_after};
ghost use Rattle.mx_cpus.specs.Calls.{IsRestCall};
ghost use Rattle.mx_cpus.specs.Gates.{asked_call, due_call, seen_call, unwatched};
ghost use Rattle.mx_cpus.specs.declared.outside.OutsideCall.TheVariants as outside_calls;
ghost use Rattle.mx_cpus.specs.Outsiders.{HasMadeCalls, IsAskedToEnd, IsOutsiderRun, IsOutsiderRunTo};

use crate::gate::{Gate, Unwatched, WatchingGate};
use crate::outside::OutsideCall;
use crate::side::{FreeSide, LoopContext};
use crate::{ActorSeat, HowFar, Naming, Shared};
use mx_machine::{Event, Refusal};
use mx_proc::Slot;
use std::sync::Wait;

/// How a call of the outsider ended, by which its loop goes on or ends.
#[derive(Clone, Copy)]
pub(crate) enum CallEnd {
    Made,
    /// The history is full.
    Full,
    /// The gate ended the loop while it waited.
    Stopped,
}

/// An outside event. If it is refused, and not for a full history, the loop goes on.
fn make_event<M: Naming, G: WatchingGate, R: Wait>(
    context: &LoopContext<'_, M, G, R>,
    seat: ActorSeat,
    side: FreeSide,
    event: Event,
) -> (ActorSeat, FreeSide, CallEnd)
    requires table { seat.table ≡ M.table }
    requires event { is_for_all event ≡ true }
    ensures made { IsEventTo M.boot event seat result.0 result.2 }
    ensures side { result.1 ≡ side }
{
    let (seat, answer) = context.shared.event(context.rt, seat, event);
    match answer {
        Err(Refusal::LogFull) => (seat, side, CallEnd::Full),
        // A refused event changes nothing, and the next one may be accepted.
        _ => (seat, side, CallEnd::Made),
    }
}

/// A kill of the process that a slot has. If it is refused, and not for a full history, the loop goes on.
fn make_kill<M: Naming, G: WatchingGate, R: Wait>(
    context: &LoopContext<'_, M, G, R>,
    seat: ActorSeat,
    side: FreeSide,
    slot: Slot,
) -> (ActorSeat, FreeSide, CallEnd)
    requires table { seat.table ≡ M.table }
    ensures made { IsKillTo M.boot slot seat result.0 result.2 }
    ensures side { result.1 ≡ side }
{
    let (seat, answer) = context.shared.kill_slot(context.rt, seat, slot);
    match answer {
        Err(Refusal::LogFull) => (seat, side, CallEnd::Full),
        _ => (seat, side, CallEnd::Made),
    }
}

/// Shows the gate how far the machine is, asks it whether the loop goes on, and looks at the machine again if it
/// does. How far the machine is then; None if the loop ends.
fn ask_and_look<M: Naming, G: WatchingGate, R: Wait>(
    context: &LoopContext<'_, M, G, R>,
    seat: ActorSeat,
    side: FreeSide,
    seen: HowFar,
) -> (ActorSeat, FreeSide, Option<HowFar>)
    requires table { seat.table ≡ M.table }
    requires goes_on { side.goes_on ≡ true }
    ensures seen { G.was_called context.now.door.gate.now (seen_call side.actor seen.records) }
    ensures called { G.was_called context.now.door.gate.now
        (asked_call side.actor seen.records seen.at_rest false result.1.goes_on) }
    ensures actor { result.1.actor ≡ side.actor }
    ensures ends { IfNone result.2 ((result.1.goes_on ≡ false) × (result.0 ≡ seat)) }
    ensures looks { IfSome result.2 (λ far. (result.1.goes_on ≡ true)
        × IsRestCall M.boot seat result.0 far.at_rest × (far.records ≡ length result.0.seen)) }
{
    let side = side.ask(&context.door, seen, false);
    if !side.goes_on() {
        return (seat, side, None);
    }
    let (seat, far) = context.shared.how_far(context.rt, seat);
    (seat, side, Some(far))
}

/// Looks at the machine again and again, until its history has `more` records more than at the first look, or
/// it is at rest. Between two looks the gate decides whether the loop goes on.
fn wait_for<M: Naming, G: WatchingGate, R: Wait>(
    context: &LoopContext<'_, M, G, R>,
    seat: ActorSeat,
    side: FreeSide,
    more: u32,
) -> (ActorSeat, FreeSide, CallEnd)
    requires table { seat.table ≡ M.table }
    requires actor { side.actor ≡ seat.actor }
    requires goes_on { side.goes_on ≡ true }
    ensures waits { IsWaitTo M.boot (G.was_called context.now.door.gate.now) more
        seat result.0 result.2 }
    ensures actor { result.1.actor ≡ seat.actor }
    ensures goes_on { result.1.goes_on ≡ goes_on_after result.2 }
{
    let (seat, first) = context.shared.how_far(context.rt, seat);
    let mut seat = seat;
    let mut side = side;
    let mut seen = first;
    for _ in context.rt.forever() {
        if seen.at_rest || seen.records.saturating_sub(first.records) >= more as usize {
            return (seat, side, CallEnd::Made);
        }
        let (next, asked, far) = ask_and_look(context, seat, side, seen);
        seat = next;
        side = asked;
        match far {
            Some(far) => seen = far,
            None => return (seat, side, CallEnd::Stopped),
        }
    }
    unreachable!()
}

/// An outside event, or a wait. The gate is called after a kill.
fn make_call<M: Naming, G: WatchingGate, R: Wait>(
    context: &LoopContext<'_, M, G, R>,
    seat: ActorSeat,
    side: FreeSide,
    call: OutsideCall,
) -> (ActorSeat, FreeSide, CallEnd)
    requires table { seat.table ≡ M.table }
    requires actor { side.actor ≡ seat.actor }
    requires goes_on { side.goes_on ≡ true }
    ensures made { IsCallTo M.boot (G.was_called context.now.door.gate.now) call
        seat result.0 result.2 }
    ensures killed { (endpoint : ℕ) → call ≡ outside_calls.Kill endpoint
        → G.was_called context.now.door.gate.now (due_call seat.actor) }
    ensures killed_in { (slot : ℕ) → call ≡ outside_calls.KillSlot slot
        → G.was_called context.now.door.gate.now (due_call seat.actor) }
    ensures actor { result.1.actor ≡ seat.actor }
    ensures goes_on { result.1.goes_on ≡ goes_on_after result.2 }
{
    match call {
        OutsideCall::Line(line) => make_event(context, seat, side, Event::Line(line)),
        OutsideCall::Kill(endpoint) => {
            let (seat, side, end) = make_event(context, seat, side, Event::Kill(endpoint));
            // Also if the kill was refused, or the process is out: the respawner then finds nothing to do.
            side.report_kill(&context.door);
            (seat, side, end)
        }
        OutsideCall::KillSlot(slot) => {
            let (seat, side, end) = make_kill(context, seat, side, slot);
            side.report_kill(&context.door);
            (seat, side, end)
        }
        OutsideCall::Tick => make_event(context, seat, side, Event::Tick),
        OutsideCall::Respawn(slot) => make_event(context, seat, side, Event::Respawn(slot)),
        OutsideCall::Wait(records) => wait_for(context, seat, side, records),
    }
}

/// Asks the gate again and again, since all calls are made, until it ends the loop.
fn ask_to_end<M: Naming, G: WatchingGate, R: Wait>(
    context: &LoopContext<'_, M, G, R>,
    seat: ActorSeat,
    side: FreeSide,
) -> (ActorSeat, FreeSide)
    requires table { seat.table ≡ M.table }
    requires actor { side.actor ≡ seat.actor }
    requires goes_on { side.goes_on ≡ true }
    ensures asked { IsAskedToEnd M.boot (G.was_called context.now.door.gate.now) seat result.0 }
    ensures actor { result.1.actor ≡ seat.actor }
{
    seat.facts();
    let mut seat = seat;
    let mut side = side;
    for _ in context.rt.forever() {
        let (next, asked) = context.ask(seat, side, true);
        seat = next;
        side = asked;
        if !side.goes_on() {
            return (seat, side);
        }
    }
    unreachable!()
}

/// The outsider's calls, and its questions of the gate after the last. Answers whether all calls were made.
pub(crate) fn make_calls<M: Naming, G: WatchingGate, R: Wait>(
    context: &LoopContext<'_, M, G, R>,
    seat: ActorSeat,
    side: FreeSide,
    calls: &[OutsideCall],
) -> (ActorSeat, FreeSide, bool)
    requires table { seat.table ≡ M.table }
    requires actor { side.actor ≡ seat.actor }
    requires goes_on { side.goes_on ≡ true }
    ensures made { HasMadeCalls calls.now seat result.0 }
    ensures course { IsOutsiderRun M.boot (G.was_called context.now.door.gate.now) calls.now
        seat result.0 }
    ensures whole { IsOutsiderRunTo M.boot (G.was_called context.now.door.gate.now) calls.now
        seat result.0 result.2 }
    ensures side { result.1.actor ≡ seat.actor }
{
    seat.facts();
    let mut seat = seat;
    let mut side = side;
    for call in calls {
        let (next, after, end) = make_call(context, seat, side, *call);
        seat = next;
        side = after;
        match end {
            CallEnd::Made => {}
            CallEnd::Full => return (seat, side, false),
            CallEnd::Stopped => return (seat, side, false),
        }
    }
    let (seat, side) = ask_to_end(context, seat, side);
    (seat, side, true)
}

/// Makes calls in order: outside events, and waits. A wait ends once the history has as many records
/// more as it names, counted from its first look at the machine, or the machine is at rest; the gate is
/// asked between its looks. After the last call the gate is asked until it ends the loop. The loop ends at a
/// full history too, and if the gate says so while it waits. Another refusal doesn't end it. Takes no memory.
pub fn outsider<M: Naming, G: Gate, R: Wait>(
    rt: &R,
    shared: &Shared<M>,
    seat: ActorSeat,
    gate: &G,
    calls: &[OutsideCall],
) -> ActorSeat
    requires table { seat.table ≡ M.table }
    ensures made { HasMadeCalls calls.now seat result }
    ensures course { IsOutsiderRun M.boot (unwatched (G.was_called gate.now)) calls.now
        seat result }
{
    let gate = Unwatched { gate };
    let context = LoopContext::new(rt, shared, &gate);
    let side = FreeSide::new(seat.actor());
    let (seat, side, _whole) = make_calls(&context, seat, side, calls);
    side.leave();
    seat
}
