//! What the kernel's events do to the table: processes that go out, come home, or are killed.

ghost use Rattle.std.specs.Prelude.{◌≡◌, ◌+◌, ◌<◌, ◌≤◌, ◌^◌, true, length};
ghost use Rattle.mx_ipc.specs.Proc.Frame.{frame};
ghost use Rattle.mx_ipc.specs.Proc.States.{is_ready, is_out};
ghost use Rattle.mx_ipc.specs.Proc.TableState.{process_at};
ghost use Rattle.mx_ipc.specs.Proc.declared.process.State.TheVariants.{Home};
ghost use Rattle.mx_ipc.specs.Calls.{trap_answer};
ghost use Rattle.mx_machine.specs.Move.{table_after_sending_out, table_after_trap_at_back, table_after_end_of_turn, table_after_coming_home, table_after_back, table_after_kill};
ghost use Rattle.mx_machine.specs.Serving.{IsReturned, IsSent, Settled, SettledBut, WritesAtMostOne};

use crate::{Out, Stop, call, die};
use mx_exec::Image;
use mx_ipc::{TrapAnswer, enqueue, trap};
use mx_proc::{DeathCause, Slot, State, Table};

/// Moves the image of a ready process out, into a place whose old image is dropped.
#[tactic(auto, unfolding(crate::specs::Move::table_after_sending_out), using(crate::proofs::ServingLemmas::is_sent))]
pub(crate) fn send_out(table: &mut Table, slot: Slot, place: &mut Image)
    requires slot { slot < length table.old.slots }
    requires ready { is_ready (process_at table.old slot).state ≡ true }
    ensures value { table.new ≡ table_after_sending_out table.old slot }
    ensures image { place.new ≡ (process_at table.old slot).image }
    ensures sent { IsSent table.old table.new slot }
{
    table.unqueue(slot);
    table.lend_into(slot, place);
}

/// A process that has come home traps: its call, or the kernel call that is left to make.
fn act(table: &mut Table, slot: Slot)
    requires slot { slot < length table.old.slots }
    requires home { (process_at table.old slot).state ≡ Home }
    requires room { table.old.devices.console.count + 1 < 2 ^ 32 }
    ensures value { table.new
        ≡ table_after_trap_at_back table.old slot (trap_answer table.old slot) }
    ensures frame { frame table.new ≡ record (frame table.old) { devices = table.new.devices } }
    ensures console { WritesAtMostOne table.old table.new }
    ensures settled { SettledBut slot table.old → Settled table.new }
{
    match trap(table, slot) {
        TrapAnswer::Done => {}
        TrapAnswer::Kernel => {
            call(table, slot);
        }
    }
}

/// A process that has come home dies, traps or is queued.
fn resume(table: &mut Table, slot: Slot, doomed: bool, stop: Stop)
    requires slot { slot < length table.old.slots }
    requires home { (process_at table.old slot).state ≡ Home }
    requires room { table.old.devices.console.count + 1 < 2 ^ 32 }
    ensures value { table.new ≡ table_after_end_of_turn table.old slot doomed stop }
    ensures frame { frame table.new ≡ record (frame table.old) { devices = table.new.devices } }
    ensures console { WritesAtMostOne table.old table.new }
    ensures settled { SettledBut slot table.old → Settled table.new }
{
    if doomed {
        die(table, slot, DeathCause::Kill);
        return;
    }
    match stop {
        Stop::Spent => enqueue(table, slot),
        Stop::Trap => act(table, slot),
        Stop::Fault(vector) => die(table, slot, DeathCause::Fault(vector)),
    }
}

/// Moves an image home, counts its steps, and goes on by its stop.
#[tactic(auto, unfolding(crate::specs::Move::table_after_coming_home, crate::specs::Move::table_after_back))]
pub(crate) fn come_home(table: &mut Table, slot: Slot, out: &mut Out)
    requires slot { slot < length table.old.slots }
    requires out { is_out (process_at table.old slot).state ≡ true }
    requires ticks { out.old.count ≤ (process_at table.old slot).schedule.ticks }
    requires steps { (process_at table.old slot).steps + out.old.count < 2 ^ 64 }
    requires room { table.old.devices.console.count + 1 < 2 ^ 32 }
    ensures value { table.new
        ≡ table_after_back table.old (record { slot = slot; out = out.old }) }
    ensures returned { IsReturned table.old table.new slot out.old }
{
    let doomed = matches!(table.process(slot).state, State::Doomed);
    let (count, stop) = (out.count, out.stop);
    table.take_home_from(slot, &mut out.image);
    table.spend(slot, count);
    resume(table, slot, doomed, stop);
}

/// Kills a process, or dooms it if it is out.
#[tactic(auto, unfolding(crate::specs::Move::table_after_kill))]
pub(crate) fn kill(table: &mut Table, slot: Slot)
    requires slot { slot < length table.old.slots }
    ensures value { table.new ≡ table_after_kill table.old slot }
    ensures frame { frame table.new ≡ record (frame table.old) { devices = table.new.devices } }
    ensures console { WritesAtMostOne table.old table.new }
    ensures settled { Settled table.old → Settled table.new }
{
    match table.process(slot).state {
        State::Out | State::Doomed => table.doom(slot),
        _ => die(table, slot, DeathCause::Kill),
    }
}
