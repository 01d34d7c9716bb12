//! Steps of a processor, up to the first that is marked.

ghost use Rattle.std.specs.Prelude.{◌≡◌, ◌<◌, ◌≤◌, ℕ, suc, true, false, length};
ghost use Rattle.mx_machine.specs.declared.events.Event.TheVariants as events;
ghost use Rattle.mx_machine.specs.Held.{held_run};
ghost use Rattle.mx_machine.specs.History.{world_after_events};
ghost use Rattle.mx_machine.specs.World.{HeldProcess, actors};
ghost use Rattle.mx_machine.specs.Machine.{world_of};
ghost use Rattle.mx_walk.specs.Positions.{HasMade, IsRefused, steps_of};
ghost use Rattle.mx_walk.specs.Quiet.{AreQuiet};
ghost use Rattle.mx_walk.specs.Running.{AreUnmarked, HasRun, steps_to_mark};
ghost use Rattle.mx_walk.specs.Seeking.{NoneMarked, is_marked};

use crate::quiet::{NO_PLACE, PLACES, QuietPlace, quiet_ahead};
use crate::seeking::Mark;
use mx_machine::{Held, Machine, Out, Tool};

/// How many steps have to be left for it to be worth while to decode instructions ahead.
const WORTH_DECODING: u32 = 256;

/// How many steps a search made, and whether the last of them is marked. No other is.
#[derive(Clone, Copy)]
pub(crate) struct Searched {
    pub made: u32,
    pub is_met: bool,
}

/// How many steps ahead aren't marked, as far as that is known without making them. It isn't asked where few
/// steps are left.
fn unmarked_ahead<M: Mark>(
    mark: &M,
    slot: u8,
    out: &Out,
    left: u32,
    places: &mut [QuietPlace],
) -> u32
    requires quiet { AreQuiet out.now.image.code places.old }
    requires some { length places.old ≡ 64 }
    ensures ahead { AreUnmarked (M.marks_step mark.now) (M.HasSeenHeld mark.now)
        (record { slot = slot; out = out.now }) result }
    ensures quiet { AreQuiet out.now.image.code places.new }
    ensures some { length places.new ≡ 64 }
{
    if left < WORTH_DECODING {
        return 0;
    }
    if mark.is_of_memory(slot) {
        quiet_ahead(&out.image, places)
    } else {
        0
    }
}

/// Lets a process make at most that many steps, up to the first that is marked. Steps that leave memory as it
/// is are made with the one after them, if the mark looks at memory only.
fn run_watched<M: Mark>(mark: &mut M, slot: u8, out: &mut Out, steps: u32) -> Searched
    ensures ran { (held_run (steps_to_mark (M.marks_step mark.old) steps
        (record { slot = slot; out = out.old })) out.old).1 ≡ out.new }
    ensures searched { HasRun (M.marks_step mark.old) steps (record { slot = slot; out = out.old })
        result.made result.is_met }
    ensures same { M.marks mark.new ≡ M.marks mark.old }
    ensures steps { M.marks_step mark.new ≡ M.marks_step mark.old }
{
    let mut places = [NO_PLACE; PLACES];
    mark.look_at(slot, out);
    let mut made = 0;
    while made < steps {
        let left = steps - made;
        let quiet = unmarked_ahead(mark, slot, out, left, &mut places).min(left - 1);
        let (few, _) = out.run(quiet + 1);
        made += few;
        if few <= quiet {
            return Searched {
                made,
                is_met: false,
            };
        }
        if mark.look_again(slot, out) {
            return Searched { made, is_met: true };
        }
    }
    Searched {
        made,
        is_met: false,
    }
}

/// Lets a process make at most that many steps, up to the first that is marked.
fn run_to_mark<M: Mark>(mark: &mut M, slot: u8, out: &mut Out, steps: u32) -> Searched
    ensures ran { (held_run (steps_to_mark (M.marks_step mark.old) steps
        (record { slot = slot; out = out.old })) out.old).1 ≡ out.new }
    ensures searched { HasRun (M.marks_step mark.old) steps (record { slot = slot; out = out.old })
        result.made result.is_met }
    ensures same { M.marks mark.new ≡ M.marks mark.old }
    ensures steps { M.marks_step mark.new ≡ M.marks_step mark.old }
{
    if mark.watches(slot) {
        return run_watched(mark, slot, out, steps);
    }
    let (made, _) = out.run(steps);
    Searched {
        made,
        is_met: false,
    }
}

/// Runs the process of a slot up to the first step that is marked, and notes how far it came.
#[derive(Drop)]
struct Searcher<'a, M: Mark> {
    mark: &'a mut M,
    slot: u8,
    steps: u32,
    searched: Searched,
}

impl<'a, M: Mark> Tool for Searcher<'a, M> {
    ghost use Rattle.std.specs.Prelude.{◌≡◌};
    ghost use Rattle.mx_walk.specs.Running.{HasRun, steps_to_mark};

    ghost steps = { λ tool out. steps_to_mark (M.marks_step tool.mark.now) tool.steps
        (record { slot = tool.slot; out = out }) };

    ghost Becomes = { λ old out new. (new.mark.ghost_name ≡ old.mark.ghost_name)
        × (M.marks new.mark.now ≡ M.marks old.mark.now)
        × (M.marks_step new.mark.now ≡ M.marks_step old.mark.now)
        × HasRun (M.marks_step old.mark.now) old.steps (record { slot = old.slot; out = out })
        new.searched.made new.searched.is_met };

    fn work(&mut self, out: &mut Out) {
        self.searched = run_to_mark(self.mark, self.slot, out, self.steps);
    }
}

/// Makes at most that many steps of a processor, up to the first that is marked.
pub(crate) fn make_steps_to_mark<M: Mark>(
    machine: &mut Machine,
    cpu: u8,
    steps: u32,
    mark: &mut M,
) -> Searched
    ensures made { HasMade (world_of machine.old) (world_of machine.new)
        (steps_of cpu result.made) }
    ensures few { result.made ≤ steps }
    ensures halted { result.is_met ≡ false → result.made < steps
        → IsRefused (world_of machine.new) (cpu, events.Step) }
    ensures passed { result.is_met ≡ false
        → NoneMarked (M.marks mark.old) (world_of machine.old) (steps_of cpu result.made) }
    ensures found { result.is_met ≡ true → (n : ℕ) × (result.made ≡ suc n)
        × NoneMarked (M.marks mark.old) (world_of machine.old) (steps_of cpu n)
        × (is_marked (M.marks mark.old)
        (world_after_events (world_of machine.old) (steps_of cpu n)) (cpu, events.Step) ≡ true) }
    ensures mark { M.marks mark.new ≡ M.marks mark.old }
    ensures boot { machine.new.kernel.boot ≡ machine.old.kernel.boot }
    ensures actors { actors (world_of machine.new) ≡ actors (world_of machine.old) }
{
    let none = Searched {
        made: 0,
        is_met: false,
    };
    let slot = match machine.slot_on(cpu) {
        Some(slot) => slot,
        None => return none,
    };
    machine.sound();
    machine.facts();
    M::steps_are_marked();
    let mut searcher = Searcher {
        mark,
        slot,
        steps,
        searched: none,
    };
    match machine.work(cpu, &mut searcher) {
        Ok(()) => searcher.searched,
        Err(_) => none,
    }
}
