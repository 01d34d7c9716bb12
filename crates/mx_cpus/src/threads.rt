//! A thread for each processor, one for the respawner, and one for the outsider if it has calls to make.
//!
//! # Threads without a list
//!
//! `drive_all` takes the last seat, starts a thread for it, goes on with the seats before it, and
//! joins the thread on its way back. So no list of threads is needed, each thread is joined on each
//! way out, and the room of the list of seats takes the seats back.
//!
//! # All loops or none
//!
//! A thread waits until each loop has its thread. If one can't have any, no loop begins.

ghost use Rattle.std.specs.Prelude.{◌≡◌, ◌≤◌, ◌&&◌, None, Some, IfOk, IfSome, OnErr, OnOk, All, length, vec_capacity, vec_len};
ghost use Rattle.mx_cpus.specs.Gates.{ended_call, unwatched};
ghost use Rattle.mx_cpus.specs.Courses.{AreServed};
ghost use Rattle.mx_cpus.specs.Loops.{AreDriven};
ghost use Rattle.mx_cpus.specs.Outsiders.{AreDrivenWith, AreServedWith, AreWholeWith, IsDrivenAs, IsEndTold, IsServedAs, IsWholeAs, role_of};

use crate::calling::make_calls;
use crate::gate::{Gate, Unwatched, WatchingGate};
use crate::loops::{make_rounds, make_turns};
use crate::outside::{Outside, OutsideCall, Role, role_of};
use crate::side::{Door, FreeSide, LoopContext};
use crate::{ActorSeat, Naming, Shared};
use mx_loan::Ghost;
use mx_word::NoMemory;
use std::marker::PhantomData;
use std::sync::{OnceLock, Wait};
use std::thread;
use std::thread::{Promise, PromisedHandle, Scope, Threads};

/// What a thread promises of its seat, by the one that it was started with, and of its gate: its end was reported; and,
/// if its loop began, what it did, and whether it made all calls.
#[derive(Drop)]
struct Follower<'s, M: Naming, G: WatchingGate> {
    from: Ghost<ActorSeat>,
    gate: Ghost<G>,
    role: Role,
    ticks: u32,
    calls: &'s [OutsideCall],
    of: PhantomData<M>,
}

impl<'s, M: Naming, G: WatchingGate> Promise<(ActorSeat, Option<bool>)> for Follower<'s, M, G> {
    ghost use Rattle.std.specs.Prelude.{IfSome};
    ghost use Rattle.mx_cpus.specs.Gates.{ended_call};
    ghost use Rattle.mx_cpus.specs.Outsiders.{IsDrivenAs, IsServedAs, IsWholeAs};

    ghost kept_by = { λ p s. G.was_called p.gate.value (ended_call p.from.value.actor)
        × IfSome s.1 (λ whole. IsDrivenAs p.role p.ticks p.calls.now p.from.value s.0
        × IsServedAs p.role M.boot (G.was_called p.gate.value) p.ticks p.calls.now p.from.value s.0
        × IsWholeAs p.role M.boot (G.was_called p.gate.value) p.calls.now p.from.value s.0 whole) };
}

/// What the threads of a machine share.
#[derive(Drop)]
struct ThreadContext<'s, M: Naming, G: WatchingGate, R: Wait> {
    rt: &'s R,
    shared: &'s Shared<M>,
    gate: &'s G,
    ticks: u32,
    calls: &'s [OutsideCall],
    /// Whether the loops begin, once that is known.
    begins: &'s OnceLock<bool>,
}

/// The loop of an actor. Its end is reported to the gate. Answers whether all its calls were made.
fn serve<M: Naming, G: WatchingGate, R: Wait>(
    context: &ThreadContext<'_, M, G, R>,
    seat: ActorSeat,
    role: Role,
) -> (ActorSeat, bool)
    requires table { seat.table ≡ M.table }
    requires empty { seat.held ≡ None }
    ensures driven { IsDrivenAs role context.now.ticks context.now.calls.now seat result.0 }
    ensures served { IsServedAs role M.boot (G.was_called context.now.gate.now)
        context.now.ticks context.now.calls.now seat result.0 }
    ensures whole { IsWholeAs role M.boot (G.was_called context.now.gate.now)
        context.now.calls.now seat result.0 result.1 }
{
    let ThreadContext {
        rt,
        shared,
        gate,
        ticks,
        calls,
        begins: _,
    } = *context;
    let door = Door::new(gate);
    let side = FreeSide::new(seat.actor());
    let context = LoopContext { rt, shared, door };
    let (seat, side, whole) = match role {
        Role::Processor => {
            let (seat, side) = make_turns(&context, seat, side);
            (seat, side, true)
        }
        Role::Respawner => {
            let (seat, side) = make_rounds(&context, seat, side, ticks);
            (seat, side, true)
        }
        Role::Outsider => make_calls(&context, seat, side, calls),
    };
    side.report_end(&context.door);
    (seat, whole)
}

/// The loop of an actor, if the loops begin. Its end is reported to the gate, also if it doesn't begin. Answers whether
/// all its calls were made, if it began.
fn serve_if_begun<M: Naming, G: WatchingGate, R: Wait>(
    context: &ThreadContext<'_, M, G, R>,
    seat: ActorSeat,
    role: Role,
) -> (ActorSeat, Option<bool>)
    requires table { seat.table ≡ M.table }
    requires empty { seat.held ≡ None }
    ensures told { G.was_called context.now.gate.now (ended_call seat.actor) }
    ensures driven { IfSome result.1 (λ _. IsDrivenAs role
        context.now.ticks context.now.calls.now seat result.0) }
    ensures served { IfSome result.1 (λ _. IsServedAs role M.boot
        (G.was_called context.now.gate.now)
        context.now.ticks context.now.calls.now seat result.0) }
    ensures whole { IfSome result.1 (λ whole. IsWholeAs role M.boot
        (G.was_called context.now.gate.now) context.now.calls.now seat result.0 whole) }
{
    if !*context.begins.wait(context.rt) {
        context.gate.ended(seat.actor());
        return (seat, None);
    }
    let (seat, whole) = serve(context, seat, role);
    (seat, Some(whole))
}

/// Starts a thread with the loop of an actor. If no thread can be made, it reports to the gate that
/// the loop has ended.
fn start<'s, E, M: Naming + Send + Sync, G: WatchingGate + Sync, R: Wait + Sync>(
    scope: &Scope<'s, E>,
    context: &ThreadContext<'s, M, G, R>,
    seat: ActorSeat,
    role: Role,
) -> Result<PromisedHandle<(ActorSeat, Option<bool>), Follower<'s, M, G>>, NoMemory>
    requires table { seat.table ≡ M.table }
    requires empty { seat.held ≡ None }
    ensures ok { IfOk result (λ h. (h.promise.from.value ≡ seat)
        × (h.promise.gate.value ≡ context.now.gate.now) × (h.promise.role ≡ role)
        × (h.promise.ticks ≡ context.now.ticks)
        × (h.promise.calls.now ≡ context.now.calls.now)) }
    ensures told { OnErr result (G.was_called context.now.gate.now (ended_call seat.actor)) }
{
    let ThreadContext {
        rt,
        shared,
        gate,
        ticks,
        calls,
        begins,
    } = *context;
    let actor = seat.actor();
    let promise = Follower {
        from: Ghost::of(&seat),
        gate: Ghost::of(gate),
        role,
        ticks,
        calls,
        of: PhantomData,
    };
    let job = move || -> (ActorSeat, Option<bool>)
        requires { (seat.table ≡ M.table) × (seat.held ≡ None) }
        ensures told { G.was_called gate.entry.now (ended_call seat.actor) }
        ensures driven { IfSome result.1 (λ _.
            IsDrivenAs role ticks calls.entry.now seat result.0) }
        ensures served { IfSome result.1 (λ _. IsServedAs role M.boot
            (G.was_called gate.entry.now) ticks calls.entry.now seat result.0) }
        ensures whole { IfSome result.1 (λ whole. IsWholeAs role M.boot
            (G.was_called gate.entry.now) calls.entry.now seat result.0 whole) }
    {
        let context = ThreadContext {
            rt,
            shared,
            gate,
            ticks,
            calls,
            begins,
        };
        serve_if_begun(&context, seat, role)
    };
    match scope.spawn_with(promise, job) {
        Ok(handle) => Ok(handle),
        Err(refused) => {
            drop(refused);
            gate.ended(actor);
            Err(NoMemory)
        }
    }
}

/// Whether both hold.
fn both(own: bool, others: bool) -> bool
    ensures { result ≡ (own && others) }
{
    own && others
}

/// Runs the loop of each seat in a thread of its own, from the last seat on, and joins all threads. The
/// seats of actors without a loop stay as they are. The loops begin once all have their threads, if those above have
/// theirs. After an error some seats are spent.
#[cycle(drive_all)]
fn drive_all<'s, E, M: Naming + Send + Sync, G: WatchingGate + Sync, R: Threads + Wait + Sync>(
    scope: &Scope<'s, E>,
    context: &ThreadContext<'s, M, G, R>,
    seats: &mut Vec<ActorSeat>,
    has_threads: bool,
) -> Result<bool, NoMemory>
    requires tables { All (λ s. s.table ≡ M.table) seats.old.items }
    requires empties { All (λ s. s.held ≡ None) seats.old.items }
    ensures driven { OnOk result (AreDrivenWith (length M.boot.cpus)
        context.now.ticks context.now.calls.now seats.old.items seats.new.items) }
    ensures served { OnOk result (AreServedWith M.boot (G.was_called context.now.gate.now)
        (length M.boot.cpus) context.now.ticks context.now.calls.now
        seats.old.items seats.new.items) }
    ensures whole { IfOk result (λ w. AreWholeWith M.boot (G.was_called context.now.gate.now)
        (length M.boot.cpus) context.now.calls.now seats.old.items seats.new.items w) }
    ensures told { All (λ s. IsEndTold (role_of s.actor (length M.boot.cpus) context.now.calls.now)
        (G.was_called context.now.gate.now) s) seats.old.items }
    ensures tables { OnOk result (All (λ s. s.table ≡ M.table) seats.new.items) }
    ensures len { OnOk result (vec_len seats.new ≡ vec_len seats.old) }
    ensures room { vec_capacity seats.new ≡ vec_capacity seats.old }
{
    let Some(seat) = seats.pop() else {
        let _ = context.begins.set(context.rt, has_threads);
        return Ok(true);
    };
    let Some(role) = role_of(seat.actor(), context.shared.cpus(), context.calls) else {
        let whole = drive_all(scope, context, seats, has_threads)?;
        seats.push_reserved(seat);
        return Ok(whole);
    };
    let started = start(scope, context, seat, role);
    // Also if this thread couldn't be made: then no loop begins.
    let others = drive_all(scope, context, seats, has_threads && started.is_ok());
    let (seat, end) = started?.join(context.rt);
    let all = others?;
    let Some(own) = end else {
        return Err(NoMemory);
    };
    seats.push_reserved(seat);
    Ok(both(own, all))
}

/// Runs the loops of all processors, that of the first other actor as respawner, and that of the second one as
/// outsider if it has calls to make, each in a thread of its own, and gives the seats back in order once all have
/// ended. The seats of further actors stay as they are. The end of each loop is reported to the gate. If no thread can
/// be made for one, no loop begins, each is reported as ended, the answer is `NoMemory`, and the seats are spent.
/// Answers too whether all calls were made. Takes no memory but that of the threads.
pub fn drive_with<M: Naming + Send + Sync, G: WatchingGate + Sync, R: Threads + Wait + Sync>(
    rt: &R,
    shared: &Shared<M>,
    seats: Vec<ActorSeat>,
    gate: &G,
    outside: Outside<'_>,
) -> Result<(Vec<ActorSeat>, bool), NoMemory>
    requires tables { All (λ s. s.table ≡ M.table) seats.items }
    requires empties { All (λ s. s.held ≡ None) seats.items }
    ensures driven { IfOk result (λ v. AreDrivenWith (length M.boot.cpus) outside.entry.ticks
        outside.entry.calls.now seats.items v.0.items) }
    ensures served { IfOk result (λ v. AreServedWith M.boot (G.was_called gate.now)
        (length M.boot.cpus) outside.entry.ticks outside.entry.calls.now seats.items v.0.items) }
    ensures whole { IfOk result (λ v. AreWholeWith M.boot (G.was_called gate.now)
        (length M.boot.cpus) outside.entry.calls.now seats.items v.0.items v.1) }
    ensures told { All (λ s. IsEndTold
        (role_of s.actor (length M.boot.cpus) outside.entry.calls.now)
        (G.was_called gate.now) s) seats.items }
    ensures tables { IfOk result (λ v. All (λ s. s.table ≡ M.table) v.0.items) }
{
    let Outside { ticks, calls } = outside;
    let known = OnceLock::new();
    let begins = &known;
    thread::scope(
        thread::scope_env(),
        rt,
        move |scope| -> Result<(Vec<ActorSeat>, bool), NoMemory>
            requires tables { All (λ s. s.table ≡ M.table) seats.items }
            requires empties { All (λ s. s.held ≡ None) seats.items }
            ensures driven { IfOk result (λ v. AreDrivenWith (length M.boot.cpus)
                ticks calls.entry.now seats.items v.0.items) }
            ensures served { IfOk result (λ v.
                AreServedWith M.boot (G.was_called gate.entry.now) (length M.boot.cpus)
                ticks calls.entry.now seats.items v.0.items) }
            ensures whole { IfOk result (λ v.
                AreWholeWith M.boot (G.was_called gate.entry.now) (length M.boot.cpus)
                calls.entry.now seats.items v.0.items v.1) }
            ensures told { All (λ s.
                IsEndTold (role_of s.actor (length M.boot.cpus) calls.entry.now)
                (G.was_called gate.entry.now) s) seats.items }
            ensures tables { IfOk result (λ v. All (λ s. s.table ≡ M.table) v.0.items) }
        {
            let mut seats = seats;
            let context = ThreadContext {
                rt,
                shared,
                gate,
                ticks,
                calls,
                begins,
            };
            let whole = drive_all(scope, &context, &mut seats, true)?;
            Ok((seats, whole))
        },
    )
}

/// Runs the loops of all processors, and that of the first other actor as respawner, each in a
/// thread of its own, and gives the seats back in order once all have ended. The seats of further
/// actors stay as they are. The end of each loop is reported to the gate. If no thread can be made for
/// one, no loop begins, each is reported as ended, the answer is `NoMemory`, and the seats are spent. Takes no memory
/// but that of the threads.
pub fn drive<M: Naming + Send + Sync, G: Gate + Sync, R: Threads + Wait + Sync>(
    rt: &R,
    shared: &Shared<M>,
    seats: Vec<ActorSeat>,
    gate: &G,
    ticks: u32,
) -> Result<Vec<ActorSeat>, NoMemory>
    requires tables { All (λ s. s.table ≡ M.table) seats.items }
    requires empties { All (λ s. s.held ≡ None) seats.items }
    ensures driven { IfOk result (λ v. AreDriven (length M.boot.cpus) ticks seats.items v.items) }
    ensures served { IfOk result (λ v. AreServed M.boot (unwatched (G.was_called gate.now))
        (length M.boot.cpus) ticks seats.items v.items) }
    ensures told { All (λ s. s.actor ≤ length M.boot.cpus
        → G.was_called gate.now (ended_call s.actor)) seats.items }
    ensures tables { IfOk result (λ v. All (λ s. s.table ≡ M.table) v.items) }
{
    let gate = Unwatched { gate };
    let (seats, _whole) = drive_with(rt, shared, seats, &gate, Outside { ticks, calls: &[] })?;
    Ok(seats)
}
