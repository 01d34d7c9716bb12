//! Interrupt lines and the clock: what a raised line and a tick do.

ghost use Rattle.std.specs.Prelude.{◌≡◌, ◌≢◌, ℕ, ◌+◌, ◌<◌, ◌^◌, IsSome, IfSome, length};
ghost use Rattle.mx_respawn.specs.Proc.Frame.{frame};
ghost use Rattle.mx_respawn.specs.Proc.Sound.{NoneComesHome};
ghost use Rattle.mx_respawn.specs.Proc.TableState.{process_at};
ghost use Rattle.mx_kcall.specs.Known.{owner_of};
ghost use Rattle.mx_kcall.specs.Clock.{is_due, table_after_line, table_after_tick};
ghost use Rattle.mx_kcall.specs.Ringing.{table_after_ring_if_due};

use mx_proc::{Slot, Source, Table};
use mx_respawn::notify;

/// Raises a line that has an owner: the owner has its bit, and is notified.
pub fn raise(table: &mut Table, line: u8)
    requires line { line < 16 }
    requires owned { IsSome (owner_of table.old line) }
    ensures value { IfSome (owner_of table.old line) (λ s. table.new
        ≡ table_after_line table.old line s) }
    ensures frame { frame table.new ≡ frame table.old }
    ensures settled { NoneComesHome table.old table.new }
{
    table.sound();
    // Of a line that nobody owns nothing is kept.
    if let Some(owner) = table.devices().owners[line as usize] {
        table.set_line(owner, line);
        notify(table, Source::Hardware, table.endpoint(owner));
    }
}

/// Whether an alarm is due.
fn is_due(uptime: u32, alarm: Option<u64>) -> bool
    ensures { result ≡ is_due uptime alarm }
{
    match alarm {
        Some(due) => due <= u64::from(uptime),
        None => false,
    }
}

/// Lets a process's alarm ring, if it is due.
fn ring(table: &mut Table, slot: Slot)
    requires { slot < length table.old.slots }
    ensures value { table.new ≡ table_after_ring_if_due table.old slot }
    ensures frame { frame table.new ≡ frame table.old }
    ensures others { (s : ℕ) → s ≢ slot → (process_at table.new s).alarm
        ≡ (process_at table.old s).alarm }
    ensures settled { NoneComesHome table.old table.new }
{
    if is_due(table.uptime(), table.process(slot).alarm) {
        // It rings once: its process sets the next one.
        table.set_alarm(slot, None);
        notify(table, Source::Clock, table.endpoint(slot));
    }
}

/// One tick: the uptime is one more, and each alarm that is due rings, in slot order.
#[tactic(auto, unfolding(crate::specs::Clock::table_after_tick))]
pub fn tick(table: &mut Table)
    requires { table.old.uptime + 1 < 2 ^ 32 }
    ensures value { table.new ≡ table_after_tick table.old }
    ensures frame { frame table.new ≡ record (frame table.old) { uptime = table.old.uptime + 1 } }
    ensures settled { NoneComesHome table.old table.new }
{
    table.advance();
    for slot in 0..table.slot_count() {
        ring(table, slot);
    }
}
