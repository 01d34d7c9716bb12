//! How a service gets a new process in its slot, in the memory of the dead one.

ghost use Rattle.std.specs.Prelude.{◌≡◌, ◌<◌, true, false, length};
ghost use Rattle.mx_load.specs.Load.{IsLoadedFrom};
ghost use Rattle.mx_ipc.specs.Proc.Frame.{frame, frame_with_process};
ghost use Rattle.mx_ipc.specs.Proc.Sound.{NoneComesHome};
ghost use Rattle.mx_ipc.specs.Proc.States.{is_down};
ghost use Rattle.mx_ipc.specs.Proc.TableState.{process_at};
ghost use Rattle.mx_respawn.specs.Respawn.{is_worn, next_process, table_after_respawn};

use crate::service::Service;
use mx_load::refill;
use mx_proc::{Process, Slot, Table};

/// Whether a process can have none after it: the restarts of its service are used up, or its
/// generation is the last one.
pub fn is_worn(process: &Process, service: &Service) -> bool
    ensures { result ≡ is_worn process.now service.now }
{
    service.terms.restarts <= process.restarts_used || process.generation >= 0xF_FFFF
}

/// The slot of a dead process gets a new one, from the service that the dead one was loaded from.
/// Takes no memory.
#[tactic(auto, unfolding(crate::specs::Respawn::table_after_respawn))]
pub fn respawn(table: &mut Table, slot: Slot, service: &Service)
    requires slot { slot < length table.old.slots }
    requires down { is_down (process_at table.old slot).state ≡ true }
    requires fresh { is_worn (process_at table.old slot) service.now ≡ false }
    requires from { IsLoadedFrom (process_at table.old slot).image service.now.program }
    ensures value { table.new ≡ table_after_respawn table.old slot service.now }
    ensures frame { frame table.new
        ≡ frame_with_process (frame table.old) slot
        (next_process (process_at table.old slot) service.now) }
    ensures from { IsLoadedFrom (process_at table.new slot).image service.now.program }
    ensures used { length table.new.slots ≡ length table.old.slots }
    ensures settled { NoneComesHome table.old table.new }
{
    // The image goes out of the table, is filled again, and comes back: no memory is taken.
    let mut image = table.take_image(slot);
    refill(&mut image, &service.program);
    table.revive(slot, service.terms, image);
}
