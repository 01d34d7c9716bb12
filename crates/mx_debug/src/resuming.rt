//! Runs a process up to a breakpoint. Nothing is written into its memory: if its slot has breakpoints it
//! makes one step after another, and EIP is compared in between; else it makes all steps in one run.

ghost use Rattle.std.specs.Prelude.{◌≡◌, ◌≢◌, ◌⊎◌, ℕ, ◌%◌, true, false, List, slice_index_or};
ghost use Rattle.mx_debug.specs.declared.points.Breakpoint.{Breakpoint};
ghost use Rattle.mx_debug.specs.Points.{has_breakpoint, has_any};
ghost use Rattle.mx_debug.specs.Halts.{Halts, is_breakpoint};

use crate::halt::{Halt, HaltCause, NextPlace, cause_of};
use crate::points::Debugger;
use mx_machine::Held;
use mx_proc::Slot;

/// How many marks there are, one for each remainder of an address.
const MARKS: usize = 1024;

/// All steps in one run, if no breakpoint can be reached.
fn run_on<H: Held>(held: &mut H, k: u32) -> Halt
    ensures halts { (points : List Breakpoint) (slot : ℕ) → (k ≡ 0) ⊎ (has_any points slot ≡ false)
        → Halts points slot k (H.out held.old) result (H.out held.new) }
    ensures loan { H.loan held.new ≡ H.loan held.old }
{
    let (count, stop) = held.run(k);
    Halt {
        count,
        cause: cause_of(stop, NextPlace::Elsewhere),
    }
}

impl Debugger {
    /// A mark for each breakpoint of a slot, by the remainder of its address. After a step, one look into
    /// this table decides for most addresses.
    fn marks(&self, slot: Slot) -> [bool; MARKS]
        ensures { (address : ℕ) → has_breakpoint self.now slot address ≡ true
            → slice_index_or result (address % 1024) false ≡ true }
    {
        let mut marks = [false; MARKS];
        for point in self.as_slice() {
            if point.slot == slot {
                marks[point.address as usize % MARKS] = true;
            }
        }
        marks
    }

    /// Whether a slot has a breakpoint at an address, by its marks first.
    fn is_reached(&self, marks: &[bool; MARKS], slot: Slot, address: u32) -> bool
        requires { (a : ℕ) → has_breakpoint self.now slot a ≡ true
            → slice_index_or marks.now (a % 1024) false ≡ true }
        ensures { result ≡ has_breakpoint self.now slot address }
    {
        if !marks[address as usize % MARKS] {
            return false;
        }
        self.has_breakpoint(slot, address)
    }

    /// Whether the address of the slot's next instruction is at a breakpoint.
    fn next_place(&self, marks: &[bool; MARKS], slot: Slot, address: u32) -> NextPlace
        requires { (a : ℕ) → has_breakpoint self.now slot a ≡ true
            → slice_index_or marks.now (a % 1024) false ≡ true }
        ensures { is_breakpoint result ≡ has_breakpoint self.now slot address }
    {
        if self.is_reached(marks, slot, address) {
            NextPlace::Breakpoint
        } else {
            NextPlace::Elsewhere
        }
    }

    /// Steps one after another, up to a breakpoint.
    fn step_on<H: Held>(&self, slot: Slot, held: &mut H, k: u32) -> Halt
        requires { k ≢ 0 }
        ensures halts { Halts self.now slot k (H.out held.old) result (H.out held.new) }
        ensures loan { H.loan held.new ≡ H.loan held.old }
    {
        let marks = self.marks(slot);
        // The first step is made also at a breakpoint: so a process at one goes on.
        for count in 0..k {
            let (made, stop) = held.run(1);
            if made == 0 {
                return Halt {
                    count,
                    cause: cause_of(stop, NextPlace::Elsewhere),
                };
            }
            let place = self.next_place(&marks, slot, held.image().eip);
            let cause = cause_of(stop, place);
            if !cause.is_spent() {
                return Halt {
                    count: count + 1,
                    cause,
                };
            }
        }
        Halt {
            count: k,
            cause: HaltCause::Spent,
        }
    }

    /// Runs what holds a slot's process for at most `k` steps, up to the first instruction at one of
    /// the slot's breakpoints, which isn't made; but the first step always is. Takes no memory.
    pub fn resume<H: Held>(&self, slot: Slot, held: &mut H, k: u32) -> Halt
        ensures halts { Halts self.now slot k (H.out held.old) result (H.out held.new) }
        ensures loan { H.loan held.new ≡ H.loan held.old }
    {
        if k == 0 || !self.has_any(slot) {
            run_on(held, k)
        } else {
            self.step_on(slot, held, k)
        }
    }
}
