//! How a process dies, and what its partners get.

ghost use Rattle.std.specs.Prelude.{◌≡◌, ◌≢◌, ℕ, ◌++◌, ◌<◌, false, true, length};
ghost use Rattle.mx_ipc.specs.Proc.Frame.{frame};
ghost use Rattle.mx_ipc.specs.Proc.Serving.{without_bit_of};
ghost use Rattle.mx_ipc.specs.Proc.Sound.{NoneComesHome};
ghost use Rattle.mx_ipc.specs.Proc.States.{IsAlone, is_out, is_ready, is_sending};
ghost use Rattle.mx_ipc.specs.Proc.TableState.{process_at};
ghost use Rattle.mx_ipc.specs.Proc.declared.process.State.TheVariants.{Home, Down};
ghost use Rattle.mx_respawn.specs.Death.{receives_from_alone, table_after_taking_out, callers, receivers, table_after_freeing_all, table_after_death};
ghost use Rattle.mx_respawn.specs.Waking.{table_after_waking};

use mx_ipc::go_on;
use mx_proc::{DeathCause, Errno, Partner, Slot, Source, State, Table};

/// Whether a process in this state receives only from this slot.
fn names(state: State, slot: Slot) -> bool
    ensures value { result ≡ receives_from_alone state slot }
    ensures alone { result ≡ true → IsAlone state }
    ensures home { result ≡ true → is_out state ≡ false }
{
    match state {
        State::Receiving(Partner::Only(Source::Slot(from))) => from == slot,
        State::Awaiting(from) => from == slot,
        _ => false,
    }
}

/// Takes a process out of its queue, if it is in one.
#[tactic(auto, unfolding(crate::specs::Death::table_after_taking_out))]
fn take_out(table: &mut Table, slot: Slot)
    requires slot { slot < length table.old.slots }
    requires home { is_out (process_at table.old slot).state ≡ false }
    ensures value { table.new ≡ table_after_taking_out table.old slot }
    ensures frame { frame table.new ≡ frame table.old }
    ensures alone { IsAlone (process_at table.new slot).state }
    ensures home { is_out (process_at table.new slot).state ≡ false }
    ensures used { length table.new.slots ≡ length table.old.slots }
    ensures others { (s : ℕ) → s ≢ slot → process_at table.new s ≡ process_at table.old s }
{
    match table.process(slot).state {
        State::Ready => table.unqueue(slot),
        State::Sending | State::Calling => table.unblock(slot),
        _ => {}
    }
}

/// Those that send to a slot go on, in order of blocking.
fn free_callers(table: &mut Table, slot: Slot)
    requires slot { slot < length table.old.slots }
    requires alone { IsAlone (process_at table.old slot).state }
    ensures value { table.new ≡ table_after_freeing_all table.old (callers slot table.old.waits) }
    ensures frame { frame table.new ≡ frame table.old }
    ensures own { process_at table.new slot ≡ process_at table.old slot }
    ensures used { length table.new.slots ≡ length table.old.slots }
    ensures others { (s : ℕ) → (process_at table.old s).state ≡ Home
        → process_at table.new s ≡ process_at table.old s }
    ensures receivers { receivers slot 0 table.new.slots ≡ receivers slot 0 table.old.slots }
    ensures settled { NoneComesHome table.old table.new }
{
    while let Some(from) = table.caller(slot, Partner::Any) {
        table.sound();
        table.unblock(from);
        go_on(table, from, Errno::Dead.bits());
    }
}

/// A process goes on if it receives only from this slot.
fn wake(table: &mut Table, slot: Slot, other: Slot)
    requires slot { other < length table.old.slots }
    ensures value { table.new ≡ table_after_waking table.old slot other }
    ensures frame { frame table.new ≡ frame table.old }
    ensures own { process_at table.new slot ≡ process_at table.old slot }
    ensures others { (s : ℕ) → s ≢ other → process_at table.new s ≡ process_at table.old s }
    ensures home { (process_at table.old other).state ≡ Home → process_at table.new other
        ≡ process_at table.old other }
    ensures used { length table.new.slots ≡ length table.old.slots }
    ensures settled { NoneComesHome table.old table.new }
{
    let state = table.process(other).state;
    if other != slot && names(state, slot) {
        go_on(table, other, Errno::Dead.bits());
    }
}

/// The processes that receive only from this slot go on, in slot order.
fn wake_receivers(table: &mut Table, slot: Slot)
    ensures value { table.new
        ≡ table_after_freeing_all table.old (receivers slot 0 table.old.slots) }
    ensures frame { frame table.new ≡ frame table.old }
    ensures own { process_at table.new slot ≡ process_at table.old slot }
    ensures others { (s : ℕ) → (process_at table.old s).state ≡ Home
        → process_at table.new s ≡ process_at table.old s }
    ensures used { length table.new.slots ≡ length table.old.slots }
    ensures settled { NoneComesHome table.old table.new }
{
    for other in 0..table.slot_count() {
        wake(table, slot, other);
    }
}

/// The process of a slot dies: its partners go on with an error. It is at home, whatever queue it was in.
pub fn die(table: &mut Table, slot: Slot, cause: DeathCause)
    requires slot { slot < length table.old.slots }
    requires home { is_out (process_at table.old slot).state ≡ false }
    ensures value { table.new ≡ table_after_death table.old slot cause }
    ensures frame { frame table.new ≡ record (frame table.old) { devices = table.new.devices } }
    ensures used { length table.new.slots ≡ length table.old.slots }
    ensures home { (s : ℕ) → s ≢ slot → (process_at table.old s).state ≡ Home
        → process_at table.new s ≡ without_bit_of slot (process_at table.old s) }
    ensures console { table.new.devices.console ≡ table.old.devices.console }
    ensures down { (process_at table.new slot).state ≡ Down cause }
    ensures settled { NoneComesHome table.old table.new }
{
    take_out(table, slot);
    free_callers(table, slot);
    wake_receivers(table, slot);
    table.forget(slot);
    table.bury(slot, cause);
}
