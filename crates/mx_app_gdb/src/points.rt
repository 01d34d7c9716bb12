//! Breakpoints and watches, as gdb sets them.

ghost use Rattle.std.specs.Prelude.{◌≡◌, filter};
ghost use Rattle.mx_app_look.specs.declared.watches.Watch.{Watch as Watched};
ghost use Rattle.mx_debug.specs.declared.points.Breakpoint.{Breakpoint};
ghost use Rattle.mx_print_answers.specs.Slots.{image_in};
ghost use Rattle.mx_walk.specs.Walks.{world_here};
ghost use Rattle.mx_app_gdb.specs.Points.{break_at, breaks_set, code_limit_of, counted_points, inserted, is_inside, removed, watch_at, watches_set};
ghost use Rattle.mx_app_gdb.specs.Threads.{counts};

use crate::addresses::code_address;
use crate::threads::Counted;
use mx_app_look::{Points, Watch, limit_here};
use mx_print_answers::image_in;
use mx_proc::Slot;
use mx_rsp::Point;
use mx_walk::Walker;

/// How many bytes a watch of gdb's has at most.
const MOST_BYTES: u32 = 4096;

/// Sets those breakpoints of some points that count.
fn set_counted_breaks(some: &mut Points, points: &Points, counted: Counted)
    ensures breakpoints { some.new.breakpoints ≡ breaks_set some.old.breakpoints
        (filter (λ (p : Breakpoint). counts counted p.slot) points.now.breakpoints) }
    ensures watches { some.new.watches ≡ some.old.watches }
{
    for point in points.breakpoints.as_slice() {
        if counted.counts(point.slot) {
            let _ = some.breakpoints.add(point.slot, point.address);
        }
    }
}

/// Sets those watches of some points that count.
fn set_counted_watches(some: &mut Points, points: &Points, counted: Counted)
    ensures watches { some.new.watches ≡ watches_set some.old.watches
        (filter (λ (x : Watched). counts counted x.slot) points.now.watches) }
    ensures breakpoints { some.new.breakpoints ≡ some.old.breakpoints }
{
    for watch in points.watches.as_slice() {
        if counted.counts(watch.slot) {
            let _ = some.watches.add(*watch);
        }
    }
}

/// Those of some points that count.
pub(crate) fn counted_points(points: &Points, counted: Counted) -> Points
    ensures { result ≡ counted_points points.now counted }
{
    let mut some = Points::new();
    set_counted_breaks(&mut some, points, counted);
    set_counted_watches(&mut some, points, counted);
    some
}

/// How many bytes the code of a slot's process has.
fn code_limit(walker: &Walker, slot: Slot) -> usize
    ensures { result ≡ code_limit_of (image_in (world_here walker.now) slot) }
{
    match image_in(walker.machine(), slot) {
        Some(image) => image.code_segment().limit(),
        None => 0,
    }
}

/// Sets a breakpoint of a slot at an address of its code. Answers whether there is such an address, and room.
fn insert_break(walker: &Walker, points: &mut Points, slot: Slot, at: Option<u32>) -> bool
    ensures { break_at walker.now points.old slot at ≡ (result, points.new) }
{
    match at {
        Some(at) => {
            (at as usize) < code_limit(walker, slot) && points.breakpoints.add(slot, at).is_ok()
        }
        None => false,
    }
}

/// Whether bytes of a slot's process are some, not too many, and all inside its memory.
fn is_inside(walker: &Walker, watch: Watch) -> bool
    ensures { result ≡ is_inside walker.now watch }
{
    0 < watch.count
        && watch.count <= MOST_BYTES
        && watch.address as usize + watch.count as usize <= limit_here(walker, watch.slot)
}

/// Watches bytes of a slot's process. Answers whether they are all inside its memory, and there is room.
fn insert_watch(walker: &Walker, points: &mut Points, watch: Watch) -> bool
    ensures { watch_at walker.now points.old watch ≡ (result, points.new) }
{
    is_inside(walker, watch) && points.watches.add(watch).is_ok()
}

/// Sets a point of a slot. Answers whether it is set; if not, nothing changes.
pub(crate) fn insert(
    walker: &Walker,
    points: &mut Points,
    slot: Slot,
    point: Point,
    address: u32,
    count: u32,
) -> bool
    ensures { inserted walker.now points.old slot point address count ≡ (result, points.new) }
{
    match point {
        Point::Break => insert_break(walker, points, slot, code_address(address)),
        Point::Watch => {
            let watch = Watch {
                slot,
                address,
                count,
            };
            insert_watch(walker, points, watch)
        }
    }
}

/// Takes a point of a slot away, if it is set.
pub(crate) fn remove(points: &mut Points, slot: Slot, point: Point, address: u32, count: u32)
    ensures { points.new ≡ removed points.old slot point address count }
{
    match point {
        Point::Break => {
            if let Some(at) = code_address(address) {
                points.breakpoints.remove(slot, at);
            }
        }
        Point::Watch => {
            points.watches.remove(Watch {
                slot,
                address,
                count,
            });
        }
    }
}
