//! The six checks of a trap's call, in their order.

ghost use Rattle.std.specs.Prelude.{◌≡◌, ℕ, ◌<◌, ◌^◌, length, Some, None, MatchResult, IfOk};
ghost use Rattle.std.specs.Option.{ForSome};
ghost use Rattle.mx_sched.specs.Proc.TableState.{process_at};
ghost use Rattle.mx_ipc.specs.Checks.{party_of, to_pseudo, out_of_place, is_send, is_receive, is_notify, is_outside, is_masked, call_refusal, Passed, HasUsedSlot, MayBeSentTo, PassedProcess, process_refusal, party_refusal};

use crate::trap_calls::{Call, Party};
use mx_proc::{ANY, CLOCK, Errno, HARDWARE, MESSAGE_SIZE, SYSTEM, Slot, Table, generation_of};
use mx_word::{Register, has_bit};

/// Whom a number names.
#[tactic(auto, unfolding(crate::specs::Checks::party_of))]
pub(crate) fn party_of(table: &Table, number: u32) -> Option<Party>
    ensures value { result ≡ party_of table.now number }
    ensures used { ForSome result (λ party. HasUsedSlot table.now party) }
{
    match number {
        ANY => Some(Party::Any),
        HARDWARE => Some(Party::Hardware),
        SYSTEM => Some(Party::System),
        CLOCK => Some(Party::Clock),
        _ if table.names_slot(number) => {
            Some(Party::Process(table.slot_of(number), generation_of(number)))
        }
        _ => None,
    }
}

/// A pseudo-process in SEND or NOTIFY.
fn to_pseudo(call: Call, party: Party) -> bool
    ensures { result ≡ to_pseudo call party }
{
    match (call, party) {
        (Call::Send | Call::Notify, Party::Hardware | Party::Clock | Party::System) => true,
        _ => false,
    }
}

/// ANY outside RECEIVE; HARDWARE or CLOCK in SENDREC.
fn out_of_place(call: Call, party: Party) -> bool
    ensures { result ≡ out_of_place call party }
{
    match (call, party) {
        (Call::Send | Call::Sendrec | Call::Notify, Party::Any) => true,
        (Call::Sendrec, Party::Hardware | Party::Clock) => true,
        _ => false,
    }
}

fn is_send(call: Call) -> bool
    ensures { result ≡ is_send call }
{
    match call {
        Call::Send | Call::Sendrec => true,
        Call::Receive | Call::Notify => false,
    }
}

fn is_receive(call: Call) -> bool
    ensures { result ≡ is_receive call }
{
    match call {
        Call::Receive => true,
        _ => false,
    }
}

fn is_notify(call: Call) -> bool
    ensures { result ≡ is_notify call }
{
    match call {
        Call::Notify => true,
        _ => false,
    }
}

/// Whether the bytes of the buffer don't all lie inside the data segment.
fn is_outside(table: &Table, slot: Slot) -> bool
    requires { slot < length table.now.slots }
    ensures { result ≡ is_outside table.now slot }
{
    let image = &table.process(slot).image;
    image.memory.limit() < image.register(Register::Ebx) as usize + MESSAGE_SIZE
}

/// The last three checks, which ask about a process that is named.
#[tactic(auto, unfolding(crate::specs::Checks::process_refusal))]
fn check_process(
    table: &Table,
    slot: Slot,
    call: Call,
    to: Slot,
    generation: u32,
) -> Result<(), Errno>
    requires slot { slot < length table.now.slots }
    requires to { to < length table.now.slots }
    ensures value { MatchResult result (λ _. process_refusal table.now slot call to generation
        ≡ None) (λ e. process_refusal table.now slot call to generation ≡ Some e) }
    ensures free { IfOk result (λ _. PassedProcess table.now slot call to) }
{
    if !is_receive(call)
        && !has_bit(
            table.process(slot).schedule.terms.masks.sends,
            u32::from(to),
        )
    {
        return Err(Errno::Denied);
    }
    if !table.is_current(to, generation) {
        return Err(Errno::Dead);
    }
    if is_send(call) && (to == slot || table.reaches(to, slot)) {
        return Err(Errno::Locked);
    }
    Ok(())
}

/// The checks after the trap mask.
#[tactic(auto, unfolding(crate::specs::Checks::party_refusal, crate::specs::Checks::process_refusal))]
fn check_party(table: &Table, slot: Slot, call: Call, party: Party) -> Result<(), Errno>
    requires slot { slot < length table.now.slots }
    requires named { HasUsedSlot table.now party }
    ensures value { MatchResult result (λ _. party_refusal table.now slot call party ≡ None) (λ e.
        party_refusal table.now slot call party ≡ Some e) }
    ensures passed { IfOk result (λ _. Passed table.now slot call party) }
{
    if to_pseudo(call, party) {
        return Err(Errno::Denied);
    }
    if out_of_place(call, party) {
        return Err(Errno::BadEndpoint);
    }
    if !is_notify(call) && is_outside(table, slot) {
        return Err(Errno::BadAddress);
    }
    if let Party::Process(to, generation) = party {
        check_process(table, slot, call, to, generation)?;
    }
    Ok(())
}

/// The six checks of a call: whom it names, or the error of the first that holds.
#[tactic(auto, unfolding(crate::specs::Checks::call_refusal, crate::specs::Checks::party_refusal))]
pub(crate) fn check(table: &Table, slot: Slot, call: Call, number: u32) -> Result<Party, Errno>
    requires slot { slot < length table.now.slots }
    ensures party { IfOk result (λ party. party_of table.now number ≡ Some party) }
    ensures value { MatchResult result (λ _.
        call_refusal table.now slot call (party_of table.now number) ≡ None) (λ e.
        call_refusal table.now slot call (party_of table.now number) ≡ Some e) }
    ensures passed { IfOk result (λ party. Passed table.now slot call party) }
{
    if !has_bit(
        table.process(slot).schedule.terms.masks.traps,
        call.number(),
    ) {
        return Err(Errno::Denied);
    }
    let party = party_of(table, number).ok_or(Errno::BadEndpoint)?;
    check_party(table, slot, call, party)?;
    Ok(party)
}
