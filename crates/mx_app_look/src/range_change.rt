//! What marks the changes of a watch's bytes.
//!
//! The bytes are copied where a search begins to look at them, and compared eight at a time after a step that may write.
//! So a watch of many bytes costs what it costs to read them, and no processor is asked for each of them.

ghost use Rattle.std.specs.Prelude.{◌≡◌, ◌-◌, ◌≤◌, IfOk, [], bytes_eq, drop, length, min, slice_index, take};
ghost use Rattle.mx_app_look.specs.Ranges.{range_in, span};

use crate::watches::Watch;
use mx_machine::{Event, Machine, Out};
use mx_mem::Segment;
use mx_print_answers::image_in;
use mx_walk::Mark;
use mx_word::NoMemory;
use std::alloc::Global;
use std::marker::Model;

/// How many bytes are compared at once.
const AT_ONCE: usize = 8;

/// How many addresses a watch has: after the last one is none.
fn span_of(watch: Watch) -> u32
    ensures { result ≡ span watch }
{
    let more = u32::MAX - watch.address;
    if watch.count > more {
        more + 1
    } else {
        watch.count
    }
}

/// How many of some bytes from an address on lie in a memory.
fn count_in(memory: &Segment, at: u32, most: usize) -> usize
    ensures { result ≡ min most (length memory.now - at) }
{
    memory.limit().saturating_sub(at as usize).min(most)
}

/// The byte at an address; 0 if it isn't inside.
fn byte_or_zero(memory: &Segment, at: u32) -> u8
    ensures { result ≡ slice_index memory.now at }
{
    memory.get(at).unwrap_or(0)
}

/// Whether bytes of a memory, from an address on, are the first ones of another.
fn is_same(memory: &Segment, at: u32, other: &Segment, count: usize) -> bool
    requires inside { count ≤ length memory.now - at }
    requires few { count ≤ 4294967296 - at }
    requires there { count ≤ length other.now }
    ensures { result ≡ bytes_eq (take count other.now) (take count (drop at memory.now)) }
{
    let mut done = 0;
    while count - done >= AT_ONCE {
        let next = done as u32;
        if memory.qword_from(at + next) != other.qword_from(next) {
            return false;
        }
        done += AT_ONCE;
    }
    while done < count {
        let next = done as u32;
        if byte_or_zero(memory, at + next) != byte_or_zero(other, next) {
            return false;
        }
        done += 1;
    }
    true
}

/// Marks each event that changes some of a watch's bytes.
#[derive(Drop)]
pub struct RangeChange {
    watch: Watch,
    /// It begins with the bytes that were seen, and has room for all.
    seen: Segment,
    count: usize,
}

impl Model for RangeChange {
    ghost use Rattle.std.specs.Prelude.{◌≡◌, ◌≤◌, length, take};
    ghost use Rattle.mx_app_look.specs.Ranges.{Kept, span};

    ghost Value = { Kept };

    ghost view = { λ m. record { watch = m.watch; bytes = take m.count m.seen } };

    ghost invariant = { λ m. (length m.seen ≡ span m.watch) × (m.count ≤ length m.seen) };
}

impl RangeChange {
    /// What marks each event that changes some of these bytes. Takes memory for them.
    pub fn new(alloc: Global, watch: Watch) -> Result<RangeChange, NoMemory>
        ensures { IfOk result (λ mark. mark.watch ≡ watch) }
    {
        let seen = Segment::new(alloc, span_of(watch))?;
        Ok(RangeChange {
            watch,
            seen,
            count: 0,
        })
    }

    /// Sees the bytes in a memory.
    fn see(&mut self, memory: &Segment)
        ensures { self.new ≡ record {
          watch = self.old.watch;
          bytes = range_in memory.now self.old.watch;
        } }
    {
        let at = self.watch.address;
        let count = count_in(memory, at, self.seen.limit());
        if count > 0 {
            self.seen.copy_from(memory, at, 0, count as u32);
        }
        self.count = count;
    }

    /// Sees that there are none.
    fn see_none(&mut self)
        ensures { self.new ≡ record { watch = self.old.watch; bytes = [] } }
    {
        self.count = 0;
    }

    /// Whether the bytes in a memory are those that were seen.
    fn is_there(&self, memory: &Segment) -> bool
        ensures { result ≡ bytes_eq self.now.bytes (range_in memory.now self.now.watch) }
    {
        let at = self.watch.address;
        let count = count_in(memory, at, self.seen.limit());
        count == self.count && is_same(memory, at, &self.seen, count)
    }

    /// Whether no bytes were seen.
    fn is_none(&self) -> bool
        ensures { result ≡ bytes_eq self.now.bytes [] }
    {
        self.count == 0
    }

    /// Of whose memory they are.
    fn slot(&self) -> u8
        ensures { result ≡ self.now.watch.slot }
    {
        self.watch.slot
    }
}

impl Mark for RangeChange {
    ghost use Rattle.std.specs.Prelude.{◌≡◌};
    ghost use Rattle.std.specs.List.{list_any};
    ghost use Rattle.mx_walk.specs.Watching.{is_changed_by_step};
    ghost use Rattle.mx_app_look.specs.Marks.{changes_bytes};
    ghost use Rattle.mx_app_look.specs.Ranges.{memory_in, range_in};
    ghost use Rattle.mx_app_look.specs.Watches.{places_of};

    ghost marks = { λ mark w x u. changes_bytes mark.watch w x u };

    ghost marks_step = { λ mark l o.
        list_any (λ b. is_changed_by_step b l o) (places_of mark.watch) };

    ghost HasSeen = { λ mark w x. mark.bytes
        ≡ range_in (memory_in w mark.watch.slot) mark.watch };

    ghost HasSeenHeld = { λ mark l. l.slot ≡ mark.watch.slot
        → mark.bytes ≡ range_in l.out.image.memory mark.watch };

    fn steps_are_marked() {}

    fn look(&mut self, machine: &Machine, _actor: u8, _event: Event) {
        match image_in(machine, self.slot()) {
            Some(image) => self.see(&image.memory),
            None => self.see_none(),
        }
    }

    fn is_met(&self, machine: &Machine) -> bool {
        match image_in(machine, self.slot()) {
            Some(image) => !self.is_there(&image.memory),
            None => !self.is_none(),
        }
    }

    fn watches(&self, slot: u8) -> bool {
        slot == self.slot()
    }

    fn is_of_memory(&self, _slot: u8) -> bool {
        true
    }

    fn look_at(&mut self, slot: u8, out: &Out) {
        if slot == self.slot() {
            self.see(&out.image.memory);
        }
    }

    fn look_again(&mut self, slot: u8, out: &Out) -> bool {
        slot == self.slot() && !self.is_there(&out.image.memory)
    }
}
