//! What a processor holds while it has a process: the image, the budget, and its cache.

ghost use Rattle.std.specs.Prelude.{◌≡◌, ℕ, Option};
ghost use Rattle.mx_machine.specs.declared.holding.Out.{Out};
ghost use Rattle.mx_machine.specs.Held.{held_run};

use crate::decoded::Decoded;
use mx_exec::Image;
use mx_image::Stop;
use mx_proc::Slot;
use std::alloc::Global;

/// A process that is on a processor.
pub struct Out {
    /// Its registers, flags and memory.
    pub image: Image,
    /// How many steps it may make from its `Take` to its `Back`.
    pub budget: u32,
    /// How many steps it has made since its `Take`.
    pub count: u32,
    /// How its last step ended: `Trap`, `Fault`, or else `Spent`. `Spent` too if it has made no step.
    pub stop: Stop,
    /// The cache of its slot. The model leaves it out: there any two caches are equal.
    pub decoded: Decoded,
}

impl Drop for Out {
    fn drop(self) {
        let Out {
            image: _,
            budget: _,
            count: _,
            stop: _,
            decoded: _,
        } = self;
    }
}

impl Out {
    /// What is where no process is held: a blank image, without steps. Takes no memory.
    pub(crate) fn idle(alloc: Global) -> Out {
        Out {
            image: Image::blank(alloc),
            budget: 0,
            count: 0,
            stop: Stop::Spent,
            decoded: Decoded::nothing(),
        }
    }
}

/// What the kernel remembers of a process while a processor has it: its slot and its budget. The budget
/// is how many steps the process may make before it has to come back.
#[derive(Clone, Copy, PartialEq, Eq)]
pub struct Lease {
    pub slot: Slot,
    pub budget: u32,
}

/// A type that holds a process which is on a processor: `Out`, or a type with an `Out` inside.
pub trait Held {
    /// The process that it holds.
    ghost out: { Self → Out };

    /// If the type remembers a loan: the actor that borrowed the process, and the process as it was at
    /// that moment. Else `None`, as for `Out`.
    ghost loan: { Self → Option (ℕ × Out) };

    /// Makes at most `k` steps: no more than the budget leaves, and none after a trap or a fault. Answers
    /// how many it made and how they ended. If the process has trapped or faulted before this call, the
    /// answer is 0 steps and that trap or fault again. Takes no memory. For example, with budget 20 and
    /// count 15 a run of 100 makes at most 5 steps.
    fn run(&mut self, k: u32) -> (u32, Stop)
        ensures ran { held_run k (out self.old) ≡ (result, out self.new) }
        ensures loan { loan self.new ≡ loan self.old };

    /// The image of the process, as its steps so far have left it.
    fn image(&self) -> &Image
        ensures { result.now ≡ (out self.now).image };
}

impl Held for Out {
    ghost use Rattle.std.specs.Prelude.{None};

    ghost out = { λ o. o };

    ghost loan = { λ _. None };

    #[tactic(auto, unfolding(crate::specs::Held::held_run), using(crate::proofs::WorldRunLemmas::ran_within))]
    fn run(&mut self, k: u32) -> (u32, Stop) {
        match self.stop {
            Stop::Spent => {
                let left = self.budget.saturating_sub(self.count);
                let (made, stop) = self.decoded.run(&mut self.image, k.min(left));
                self.count += made;
                self.stop = stop;
                (made, stop)
            }
            Stop::Trap => (0, Stop::Trap),
            Stop::Fault(vector) => (0, Stop::Fault(vector)),
        }
    }

    fn image(&self) -> &Image {
        &self.image
    }
}
