//! The traps SEND, RECEIVE, SENDREC and NOTIFY: the checks of a call and of its other `Party`, delivery,
//! blocking, going on with a result. Each of the four makes all six checks itself (`checks`), so its caller
//! needs to know nothing of the destination.
//!
//! # Why nothing is buffered
//!
//! A message is copied once, from the sender's memory to the receiver's, when both are there (MINIX's rendezvous).
//! Until then the sender waits with the message in its own memory. So the kernel has no buffers, no call takes memory,
//! and who sends to one that doesn't receive stops only itself. A notification is one bit of the receiver, so who
//! notifies never waits.
//!
//! # Why no two wait for each other
//!
//! A send is refused (`ELOCKED`) if a chain of waiting processes leads from its destination back to the sender. So chains
//! of callers have no cycle, which is part of what a sound table is.
#![tactic(auto)]

ghost use Rattle.std.specs.Prelude.{◌≡◌, ◌≢◌, ℕ, ◌<◌, Some, None, true, false, length};
ghost use Rattle.mx_sched.specs.Proc.Frame.{frame};
ghost use Rattle.mx_sched.specs.Proc.Sound.{HasBuffer, NoneComesHome};
ghost use Rattle.mx_sched.specs.Proc.States.{IsAlone, is_ready, is_sending, is_blocked, is_out};
ghost use Rattle.mx_sched.specs.Proc.Waits.{Reaches, without_from};
ghost use Rattle.mx_sched.specs.Proc.Partners.{order_of_source};
ghost use Rattle.mx_sched.specs.Proc.TableState.{process_at, IsUsedSource};
ghost use Rattle.mx_sched.specs.Proc.EndpointNumbers.{system_endpoint};
ghost use Rattle.mx_sched.specs.Proc.Endpoints.{names_slot};
ghost use Rattle.mx_sched.specs.Proc.declared.process.State.TheVariants.{Home, Ready};
ghost use Rattle.mx_ipc.specs.Checks.{Passed};
ghost use Rattle.mx_ipc.specs.Calls.{goes_on, accepts, hears, table_after_send, table_after_release, table_after_taking, table_after_receive, table_after_sendrec, table_after_notifying, partner_of, table_after_checked_call, table_after_call, call_answer, table_after_trap, trap_answer, table_after_notify, call_answer_by, MayNotify};
ghost use Rattle.mx_ipc.specs.declared.trap_calls.Call.TheVariants as calls;
ghost use Rattle.mx_ipc.specs.declared.trap_calls.TrapAnswer.TheVariants.{Done, Kernel};

mod checks;
mod trap_calls;

use checks::check;
use mx_proc::{Endpoint, Errno, Partner, Process, Slot, Source, State, Table, slot_of};
pub use mx_sched::{enqueue, pick};
use mx_word::Register;
pub use trap_calls::{Call, Party, TrapAnswer};

/// A process goes on with a result: it is put into EAX, and the process is queued.
pub fn go_on(table: &mut Table, slot: Slot, value: u32)
    requires slot { slot < length table.old.slots }
    requires alone { IsAlone (process_at table.old slot).state }
    requires home { is_out (process_at table.old slot).state ≡ false }
    ensures value { table.new ≡ goes_on table.old slot value }
    ensures frame { frame table.new ≡ frame table.old }
    ensures used { length table.new.slots ≡ length table.old.slots }
    ensures waits { table.new.waits ≡ table.old.waits }
    ensures others { (s : ℕ) → s ≢ slot → process_at table.new s ≡ process_at table.old s }
    ensures ready { (process_at table.new slot).state ≡ Ready }
    ensures settled { NoneComesHome table.old table.new }
{
    table.set_result(slot, value);
    enqueue(table, slot);
}

/// Whether a process in a state receives a message of a slot.
fn accepts(state: State, slot: Slot) -> bool
    ensures value { result ≡ accepts state slot }
    ensures blocked { result ≡ true → is_blocked state ≡ true }
    ensures alone { result ≡ true → IsAlone state }
    ensures home { result ≡ true → is_out state ≡ false }
{
    match state {
        State::Receiving(partner) => partner.may_be(Source::Slot(slot).place()),
        State::Awaiting(from) => from == slot,
        _ => false,
    }
}

/// Whether a process in a state receives a notification of a source.
fn hears(state: State, source: Source) -> bool
    ensures value { result ≡ hears state source }
    ensures blocked { result ≡ true → is_blocked state ≡ true }
    ensures alone { result ≡ true → IsAlone state }
    ensures home { result ≡ true → is_out state ≡ false }
{
    match state {
        State::Receiving(partner) => partner.may_be(source.place()),
        _ => false,
    }
}

/// SEND that passed the checks.
#[tactic(auto, unfolding(crate::specs::Calls::table_after_send))]
fn deliver_or_block(table: &mut Table, slot: Slot, to: Slot)
    requires slot { slot < length table.old.slots }
    requires to { to < length table.old.slots }
    requires apart { slot ≢ to }
    requires home { (process_at table.old slot).state ≡ Home }
    requires inside { HasBuffer (process_at table.old slot) }
    requires free { Reaches table.old.waits to slot → ⊥ }
    ensures value { table.new ≡ table_after_send table.old slot to }
    ensures frame { frame table.new ≡ frame table.old }
    ensures settled { NoneComesHome table.old table.new }
    ensures own { (process_at table.new slot).state ≢ Home }
{
    let state = table.process(to).state;
    if accepts(state, slot) {
        table.deliver(slot, to);
        go_on(table, to, 0);
        go_on(table, slot, 0);
    } else {
        table.block(slot, to, State::Sending);
    }
}

/// A caller's message was taken: after a SEND it goes on, in a SENDREC it turns to receiving.
#[tactic(auto, unfolding(crate::specs::Calls::table_after_release))]
fn release(table: &mut Table, slot: Slot, from: Slot)
    requires slot { slot < length table.old.slots }
    requires from { from < length table.old.slots }
    requires sending { is_sending (process_at table.old from).state ≡ true }
    requires inside { HasBuffer (process_at table.old from) }
    ensures value { table.new
        ≡ table_after_release table.old slot from (process_at table.old from).state }
    ensures frame { frame table.new ≡ frame table.old }
    ensures used { length table.new.slots ≡ length table.old.slots }
    ensures others { (s : ℕ) → s ≢ from → process_at table.new s ≡ process_at table.old s }
    ensures settled { NoneComesHome table.old table.new }
{
    let state = table.process(from).state;
    table.unblock(from);
    match state {
        State::Calling => table.set_state(from, State::Awaiting(slot)),
        _ => go_on(table, from, 0),
    }
}

/// Takes the first caller's message, of those that the partner may be, or waits in a state.
#[tactic(auto, unfolding(crate::specs::Calls::table_after_taking))]
fn take_or_wait(table: &mut Table, slot: Slot, partner: Partner, state: State)
    requires slot { slot < length table.old.slots }
    requires home { (process_at table.old slot).state ≡ Home }
    requires inside { HasBuffer (process_at table.old slot) }
    requires alone { IsAlone state }
    requires stays { is_out state ≡ false }
    requires waits { state ≢ Home }
    ensures value { table.new ≡ table_after_taking table.old slot partner state }
    ensures frame { frame table.new ≡ frame table.old }
    ensures settled { NoneComesHome table.old table.new }
    ensures own { (process_at table.new slot).state ≢ Home }
{
    match table.caller(slot, partner) {
        None => table.set_state(slot, state),
        Some(from) => {
            table.deliver(from, slot);
            release(table, slot, from);
            go_on(table, slot, 0);
        }
    }
}

/// RECEIVE that passed the checks.
#[tactic(auto, unfolding(crate::specs::Calls::table_after_receive))]
fn hear_or_take(table: &mut Table, slot: Slot, partner: Partner)
    requires slot { slot < length table.old.slots }
    requires home { (process_at table.old slot).state ≡ Home }
    requires inside { HasBuffer (process_at table.old slot) }
    ensures value { table.new ≡ table_after_receive table.old slot partner }
    ensures frame { frame table.new ≡ frame table.old }
    ensures settled { NoneComesHome table.old table.new }
    ensures own { (process_at table.new slot).state ≢ Home }
{
    match table.first_pending(slot, partner) {
        None => take_or_wait(table, slot, partner, State::Receiving(partner)),
        Some(source) => {
            table.notice(slot, source);
            go_on(table, slot, 0);
        }
    }
}

/// SENDREC that passed the checks, to a process.
#[tactic(auto, unfolding(crate::specs::Calls::table_after_sendrec))]
fn deliver_and_await(table: &mut Table, slot: Slot, to: Slot)
    requires slot { slot < length table.old.slots }
    requires to { to < length table.old.slots }
    requires apart { slot ≢ to }
    requires home { (process_at table.old slot).state ≡ Home }
    requires inside { HasBuffer (process_at table.old slot) }
    requires free { Reaches table.old.waits to slot → ⊥ }
    ensures value { table.new ≡ table_after_sendrec table.old slot to }
    ensures frame { frame table.new ≡ frame table.old }
    ensures settled { NoneComesHome table.old table.new }
    ensures own { (process_at table.new slot).state ≢ Home }
{
    let state = table.process(to).state;
    if accepts(state, slot) {
        table.deliver(slot, to);
        go_on(table, to, 0);
        take_or_wait(
            table,
            slot,
            Partner::Only(Source::Slot(to)),
            State::Awaiting(to),
        );
    } else {
        table.block(slot, to, State::Calling);
    }
}

/// Notifies a process at once, or sets its source's bit.
#[tactic(auto, unfolding(crate::specs::Calls::table_after_notifying))]
fn tell(table: &mut Table, source: Source, to: Slot)
    requires source { IsUsedSource table.old source }
    requires to { to < length table.old.slots }
    ensures value { table.new ≡ table_after_notifying table.old source to }
    ensures frame { frame table.new ≡ frame table.old }
    ensures used { length table.new.slots ≡ length table.old.slots }
    ensures home { (s : ℕ) → (process_at table.old s).state ≡ Home → (process_at table.new s).state
        ≡ Home }
    ensures settled { NoneComesHome table.old table.new }
{
    let state = table.process(to).state;
    if hears(state, source) {
        table.notice(to, source);
        go_on(table, to, 0);
    } else {
        table.set_pending(to, source);
    }
}

/// Whom a RECEIVE names.
fn partner_of(party: Party) -> Partner
    ensures { result ≡ partner_of party }
{
    match party {
        Party::Any => Partner::Any,
        Party::System => Partner::System,
        Party::Hardware => Partner::Only(Source::Hardware),
        Party::Clock => Partner::Only(Source::Clock),
        Party::Process(slot, _) => Partner::Only(Source::Slot(slot)),
    }
}

/// What a call that passed the checks does.
fn act(table: &mut Table, slot: Slot, call: Call, party: Party) -> TrapAnswer
    requires slot { slot < length table.old.slots }
    requires home { (process_at table.old slot).state ≡ Home }
    requires passed { Passed table.old slot call party }
    ensures value { table.new ≡ table_after_checked_call table.old slot call party }
    ensures frame { frame table.new ≡ frame table.old }
    ensures answer { result ≡ call_answer_by call (Some party) None }
    ensures same { result ≡ Kernel → table.new ≡ table.old }
    ensures settled { NoneComesHome table.old table.new }
    ensures own { result ≡ Done → (process_at table.new slot).state ≢ Home }
    ensures buffer { result ≡ Kernel → HasBuffer (process_at table.old slot) }
{
    match (call, party) {
        (Call::Send, Party::Process(to, _)) => deliver_or_block(table, slot, to),
        (Call::Receive, _) => hear_or_take(table, slot, partner_of(party)),
        (Call::Sendrec, Party::Process(to, _)) => deliver_and_await(table, slot, to),
        (Call::Sendrec, Party::System) => return TrapAnswer::Kernel,
        (Call::Notify, Party::Process(to, _)) => {
            tell(table, Source::Slot(slot), to);
            go_on(table, slot, 0);
        }
        _ => {}
    }
    TrapAnswer::Done
}

/// A call that names a number: the checks, and what it does if it passes them.
#[tactic(auto, unfolding(crate::specs::Calls::table_after_call, crate::specs::Calls::call_answer))]
fn perform(table: &mut Table, slot: Slot, call: Call, number: u32) -> TrapAnswer
    requires slot { slot < length table.old.slots }
    requires home { (process_at table.old slot).state ≡ Home }
    ensures value { table.new ≡ table_after_call table.old slot call number }
    ensures frame { frame table.new ≡ frame table.old }
    ensures answer { result ≡ call_answer table.old slot call number }
    ensures same { result ≡ Kernel → table.new ≡ table.old }
    ensures settled { NoneComesHome table.old table.new }
    ensures own { result ≡ Done → (process_at table.new slot).state ≢ Home }
    ensures buffer { result ≡ Kernel → HasBuffer (process_at table.old slot) }
{
    match check(table, slot, call, number) {
        Err(error) => {
            go_on(table, slot, error.bits());
            TrapAnswer::Done
        }
        Ok(party) => act(table, slot, call, party),
    }
}

/// SEND: delivers if the destination receives, else blocks the sender after its callers.
pub fn send(table: &mut Table, slot: Slot, to: Endpoint)
    requires slot { slot < length table.old.slots }
    requires home { (process_at table.old slot).state ≡ Home }
    ensures value { table.new ≡ table_after_call table.old slot calls.Send to }
    ensures frame { frame table.new ≡ frame table.old }
{
    perform(table, slot, Call::Send, to);
}

/// RECEIVE: takes a pending notification, else the first caller's message, else waits.
pub fn receive(table: &mut Table, slot: Slot, from: Endpoint)
    requires slot { slot < length table.old.slots }
    requires home { (process_at table.old slot).state ≡ Home }
    ensures value { table.new ≡ table_after_call table.old slot calls.Receive from }
    ensures frame { frame table.new ≡ frame table.old }
{
    perform(table, slot, Call::Receive, from);
}

/// SENDREC to a process: SEND, and then RECEIVE from it without notifications. One to SYSTEM is a
/// kernel call, which `trap` leaves to others.
pub fn sendrec(table: &mut Table, slot: Slot, to: Endpoint)
    requires slot { slot < length table.old.slots }
    requires home { (process_at table.old slot).state ≡ Home }
    requires process { to ≢ system_endpoint }
    ensures value { table.new ≡ table_after_call table.old slot calls.Sendrec to }
    ensures frame { frame table.new ≡ frame table.old }
{
    perform(table, slot, Call::Sendrec, to);
}

/// NOTIFY: a call by a slot, or only the notification if HARDWARE or CLOCK makes it. Of the endpoint that
/// these two name only the slot counts: if its process is gone, the notification reaches the process that the
/// slot has now.
pub fn notify(table: &mut Table, source: Source, to: Endpoint)
    requires { MayNotify table.old source to }
    ensures value { table.new ≡ table_after_notify table.old source to }
    ensures frame { frame table.new ≡ frame table.old }
    ensures settled { NoneComesHome table.old table.new }
{
    match source {
        Source::Slot(slot) => {
            perform(table, slot, Call::Notify, to);
        }
        Source::Hardware | Source::Clock => tell(table, source, table.slot_of(to)),
    }
}

/// A trap of a process that has come home: the call in its registers. If a SENDREC to SYSTEM passes the
/// checks, nothing has changed, and a kernel call is left to make.
#[tactic(auto, unfolding(crate::specs::Calls::table_after_trap, crate::specs::Calls::trap_answer))]
pub fn trap(table: &mut Table, slot: Slot) -> TrapAnswer
    requires slot { slot < length table.old.slots }
    requires home { (process_at table.old slot).state ≡ Home }
    ensures value { table.new ≡ table_after_trap table.old slot }
    ensures frame { frame table.new ≡ frame table.old }
    ensures answer { result ≡ trap_answer table.old slot }
    ensures same { result ≡ Kernel → table.new ≡ table.old }
    ensures settled { NoneComesHome table.old table.new }
    ensures own { result ≡ Done → (process_at table.new slot).state ≢ Home }
    ensures buffer { result ≡ Kernel → HasBuffer (process_at table.old slot) }
{
    let image = &table.process(slot).image;
    let number = image.register(Register::Eax);
    match Call::of_number(image.register(Register::Ecx)) {
        None => {
            go_on(table, slot, Errno::Denied.bits());
            TrapAnswer::Done
        }
        Some(call) => perform(table, slot, call, number),
    }
}
