//! Scheduling: how a process is queued, at the front or end of the ready list of its level, and which one runs
//! next.
//!
//! Sixteen ready lists, list 0 is the highest, and the front of the highest that isn't empty runs next: MINIX 3's
//! scheduler. Who gave up the processor with ticks left waits for others more than it works, and goes to the front of
//! its list. Who used up its quantum gets a new one and goes to the end. If nobody else got a quantum since its last,
//! it may be in a loop that keeps the others out, and goes one level down; else one level up again, at most to its
//! best. So a driver that mostly waits stays high, and a program that only computes sinks, but comes back.
//!
//! The order is part of the machine: a history made again has to pick the same processes. So nothing here asks a clock.
//! A call takes the same time however many processes there are (`links.rt` of `mx_proc`).
#![tactic(auto)]

ghost use Rattle.std.specs.Prelude.{◌≡◌, ◌≢◌, ℕ, ◌<◌, true, false, length, IfSome};
ghost use Rattle.mx_proc.specs.Queues.{first_ready};
ghost use Rattle.mx_proc.specs.Frame.{frame};
ghost use Rattle.mx_proc.specs.States.{IsAlone, is_ready, is_out};
ghost use Rattle.mx_proc.specs.TableState.{process_at, table_after_dequeue};
ghost use Rattle.mx_proc.specs.declared.process.State.TheVariants.{Ready};
ghost use Rattle.mx_sched.specs.Queueing.{table_after_queueing};

use mx_proc::{Slot, State, Table};

/// Queues a process that is at home and in no queue: to the front of its list if ticks are left, else with a
/// new quantum and perhaps on another level to the end of its list.
#[tactic(auto, unfolding(crate::specs::Queueing::table_after_queueing))]
pub fn enqueue(table: &mut Table, slot: Slot)
    requires slot { slot < length table.old.slots }
    requires alone { IsAlone (process_at table.old slot).state }
    requires home { is_out (process_at table.old slot).state ≡ false }
    ensures value { table.new ≡ table_after_queueing table.old slot }
    ensures frame { frame table.new ≡ frame table.old }
    ensures used { length table.new.slots ≡ length table.old.slots }
    ensures waits { table.new.waits ≡ table.old.waits }
    ensures ready { (process_at table.new slot).state ≡ Ready }
    ensures others { (s : ℕ) → s ≢ slot → process_at table.new s ≡ process_at table.old s }
{
    let process = table.process(slot);
    if process.schedule.ticks > 0 {
        // So the one that is queued last comes first: a sender overtakes its receiver on the same level.
        table.to_front(slot);
        return;
    }
    let level = process.schedule.level;
    let again = match table.last_renewed() {
        Some(last) => last == slot,
        None => false,
    };
    let next = if again {
        level + 1
    } else {
        level.saturating_sub(1)
    };
    table.to_end(slot, next);
}

/// Takes a ready process out of its ready list.
pub fn dequeue(table: &mut Table, slot: Slot)
    requires slot { slot < length table.old.slots }
    requires ready { is_ready (process_at table.old slot).state ≡ true }
    ensures value { table.new ≡ table_after_dequeue table.old slot }
    ensures frame { frame table.new ≡ frame table.old }
{
    table.unqueue(slot);
}

/// The front of the lowest list that isn't empty: it is ready.
pub fn pick(table: &Table) -> Option<Slot>
    ensures value { result ≡ first_ready table.now.ready }
    ensures used { IfSome result (λ s. s < length table.now.slots) }
    ensures ready { IfSome result (λ s. is_ready (process_at table.now s).state ≡ true) }
{
    table.pick()
}
