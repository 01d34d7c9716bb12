//! What a move halts at.

ghost use Rattle.std.specs.Prelude.{◌≡◌, IfOk, None, Some, if◌then◌else◌, map};
ghost use Rattle.mx_app_look.specs.Changes.{as_seen, seen_in};
ghost use Rattle.mx_walk.specs.Walks.{world_here};
ghost use Rattle.mx_app_gdb.specs.Halts.{halted_here};
ghost use Rattle.mx_app_gdb.specs.Points.{counted_points};

use crate::faults::fault_here;
use crate::points::counted_points;
use crate::threads::{Counted, Threads};
use mx_app_look::{Points, Seen, Watch, all_bytes, first_change};
use mx_proc::Slot;
use mx_walk::Walker;
use std::alloc::{AllocError, Global};

/// Why a move halted, and at whose process.
#[derive(Clone, Copy)]
pub enum Halted {
    /// It came where it was to go.
    There(Slot),
    /// The slot's next step is at a breakpoint.
    AtBreak(Slot),
    /// The bytes of this watch changed.
    Changed(Watch),
    /// The slot's last step ended in a fault of this vector.
    Fault(Slot, u8),
    /// Nothing is above.
    AtBegin(Slot),
    /// Nothing is below.
    AtEnd(Slot),
}

/// What a move halts at: points, and faults. The watched bytes are as they were where it began.
#[derive(Drop)]
pub struct Halts {
    pub points: Points,
    pub seen: Vec<Seen>,
    pub counted: Counted,
    /// Whose stop it is if the history ends.
    pub mover: Slot,
}

impl Halts {
    /// What a move of a slot's process halts at that begins here: at its own points and faults alone, or at those of
    /// all that gdb has.
    pub fn new(
        alloc: Global,
        walker: &Walker,
        points: &Points,
        threads: Threads,
        mover: Slot,
        others: bool,
    ) -> Result<Halts, AllocError>
        ensures points { IfOk result (λ h. h.points ≡ counted_points points.now h.counted) }
        ensures seen { IfOk result (λ h. map as_seen h.seen.items
            ≡ map (seen_in (world_here walker.now)) h.points.watches) }
        ensures counted { IfOk result (λ h. h.counted
            ≡ record { threads = threads; only = (if others then None else Some mover) }) }
        ensures mover { IfOk result (λ h. h.mover ≡ mover) }
    {
        let only = if others { None } else { Some(mover) };
        let counted = Counted { threads, only };
        let points = counted_points(points, counted);
        let seen = all_bytes(alloc, walker.machine(), points.watches.as_slice())?;
        Ok(Halts {
            points,
            seen,
            counted,
            mover,
        })
    }
}

/// Why a move halts right after the event before a position, if it does: watched bytes have changed since it began, or
/// the event is a step that ends in a fault.
pub(crate) fn halted_here(
    alloc: Global,
    walker: &Walker,
    halts: &Halts,
) -> Result<Option<Halted>, AllocError>
    ensures { IfOk result (λ halted. halted ≡ halted_here walker.now halts.now) }
{
    match first_change(alloc, walker.machine(), halts.seen.as_slice())? {
        Some(watch) => Ok(Some(Halted::Changed(watch))),
        None => Ok(fault_here(walker, halts.counted)),
    }
}
