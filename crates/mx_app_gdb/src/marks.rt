//! What moves look for in a history: steps of a slot's process, those that end in a fault, those that leave a range of
//! code, and the ends of records.

ghost use Rattle.std.specs.Prelude.{◌≡◌, Some};
ghost use Rattle.mx_machine.specs.Machine.{world_of};
ghost use Rattle.mx_machine.specs.World.{held_by};
ghost use Rattle.mx_walk.specs.Stopping.{is_step};
ghost use Rattle.mx_app_gdb.specs.Marks.{moves, stands_within};

use crate::faults::{fault_of, is_at_fault};
use crate::ranges::Range;
use crate::threads::Counted;
use mx_machine::{Event, Machine, Out, at_stop};
use mx_proc::Slot;
use mx_walk::Mark;

pub(crate) fn is_step(event: Event) -> bool
    ensures { result ≡ is_step event }
{
    match event {
        Event::Step => true,
        Event::Take
        | Event::Back
        | Event::Line(_)
        | Event::Tick
        | Event::Kill(_)
        | Event::Respawn(_) => false,
    }
}

/// Whether an event is a step of a slot's process.
pub(crate) fn moves(machine: &Machine, actor: u8, event: Event, slot: Slot) -> bool
    ensures { result ≡ moves slot (world_of machine.now) (actor, event) }
{
    is_step(event) && machine.slot_on(actor) == Some(slot)
}

/// Marks each step of a slot's process.
#[derive(Drop)]
pub struct Moving {
    slot: Slot,
    moves: bool,
}

impl Moving {
    /// What marks each step of a slot's process.
    pub fn new(slot: Slot) -> Moving
        ensures { result.slot ≡ slot }
    {
        Moving { slot, moves: false }
    }
}

impl Mark for Moving {
    ghost use Rattle.std.specs.Prelude.{◌≡◌, ◌==◌};
    ghost use Rattle.mx_app_gdb.specs.Marks.{moves};

    ghost marks = { λ mark w x u. moves mark.slot w x };

    ghost marks_step = { λ mark l o. l.slot == mark.slot };

    ghost HasSeen = { λ mark w x. mark.moves ≡ moves mark.slot w x };

    ghost HasSeenHeld = { λ _ _. Unit {0} };

    fn steps_are_marked() {}

    fn look(&mut self, machine: &Machine, actor: u8, event: Event) {
        self.moves = moves(machine, actor, event, self.slot);
    }

    fn is_met(&self, _machine: &Machine) -> bool {
        self.moves
    }

    fn watches(&self, slot: u8) -> bool {
        slot == self.slot
    }

    fn is_of_memory(&self, slot: u8) -> bool {
        slot != self.slot
    }

    fn look_at(&mut self, _slot: u8, _out: &Out) {}

    fn look_again(&mut self, slot: u8, _out: &Out) -> bool {
        slot == self.slot
    }
}

/// Marks each step that ends in a fault that counts.
#[derive(Drop)]
pub struct Faulting {
    counted: Counted,
    actor: u8,
    steps: bool,
}

impl Faulting {
    /// What marks each step that ends in a fault that counts.
    pub fn new(counted: Counted) -> Faulting
        ensures { result.counted ≡ counted }
    {
        Faulting {
            counted,
            actor: 0,
            steps: false,
        }
    }
}

impl Mark for Faulting {
    ghost use Rattle.std.specs.Prelude.{◌≡◌, Some};
    ghost use Rattle.mx_walk.specs.Running.{with_out};
    ghost use Rattle.mx_walk.specs.Stopping.{is_step};
    ghost use Rattle.mx_app_gdb.specs.Marks.{faults, is_at_fault};

    ghost marks = { λ mark w x u. faults mark.counted w x u };

    ghost marks_step = { λ mark l o. is_at_fault mark.counted (Some (with_out l o)) };

    ghost HasSeen = { λ mark w x. (mark.actor ≡ x.0) × (mark.steps ≡ is_step x.1) };

    ghost HasSeenHeld = { λ _ _. Unit {0} };

    fn steps_are_marked() {}

    fn look(&mut self, _machine: &Machine, actor: u8, event: Event) {
        self.actor = actor;
        self.steps = is_step(event);
    }

    fn is_met(&self, machine: &Machine) -> bool {
        self.steps && is_at_fault(machine, self.actor, self.counted)
    }

    fn watches(&self, slot: u8) -> bool {
        self.counted.counts(slot)
    }

    fn is_of_memory(&self, slot: u8) -> bool {
        !self.counted.counts(slot)
    }

    fn look_at(&mut self, _slot: u8, _out: &Out) {}

    fn look_again(&mut self, slot: u8, out: &Out) -> bool {
        fault_of(self.counted, slot, out).is_some()
    }
}

/// Whether this is the slot's process, its next instruction is within a range, and it can step.
fn is_within(slot: Slot, range: Range, on: Slot, out: &Out) -> bool
    ensures { result ≡ stands_within slot range (Some (record { slot = on; out = out.now })) }
{
    on == slot && range.has(out.image.eip) && !at_stop(out)
}

/// Whether a processor has the slot's process, its next instruction is within a range, and it can step.
pub(crate) fn stands_within(machine: &Machine, cpu: u8, slot: Slot, range: Range) -> bool
    ensures { result ≡ stands_within slot range (held_by (world_of machine.now) cpu) }
{
    match (machine.slot_on(cpu), machine.out(cpu)) {
        (Some(on), Some(out)) => is_within(slot, range, on, out),
        _ => false,
    }
}

/// Marks each step of a slot's process that comes out of a range of code, or after which it can't step.
#[derive(Drop)]
pub struct ComingOut {
    slot: Slot,
    range: Range,
    actor: u8,
    moves: bool,
}

impl ComingOut {
    /// What marks each such step of a slot's process.
    pub fn new(slot: Slot, range: Range) -> ComingOut
        ensures slot { result.slot ≡ slot }
        ensures range { result.range ≡ range }
    {
        ComingOut {
            slot,
            range,
            actor: 0,
            moves: false,
        }
    }
}

impl Mark for ComingOut {
    ghost use Rattle.std.specs.Prelude.{◌≡◌, ◌==◌, ◌&&◌, Some, not};
    ghost use Rattle.mx_walk.specs.Running.{with_out};
    ghost use Rattle.mx_app_gdb.specs.Marks.{comes_out, moves, stands_within};

    ghost marks = { λ mark w x u. comes_out mark.slot mark.range w x u };

    ghost marks_step = { λ mark l o. (l.slot == mark.slot)
        && not (stands_within mark.slot mark.range (Some (with_out l o))) };

    ghost HasSeen = { λ mark w x. (mark.actor ≡ x.0) × (mark.moves ≡ moves mark.slot w x) };

    ghost HasSeenHeld = { λ _ _. Unit {0} };

    fn steps_are_marked() {}

    fn look(&mut self, machine: &Machine, actor: u8, event: Event) {
        self.actor = actor;
        self.moves = moves(machine, actor, event, self.slot);
    }

    fn is_met(&self, machine: &Machine) -> bool {
        self.moves && !stands_within(machine, self.actor, self.slot, self.range)
    }

    fn watches(&self, slot: u8) -> bool {
        slot == self.slot
    }

    fn is_of_memory(&self, slot: u8) -> bool {
        slot != self.slot
    }

    fn look_at(&mut self, _slot: u8, _out: &Out) {}

    fn look_again(&mut self, slot: u8, out: &Out) -> bool {
        slot == self.slot && !is_within(self.slot, self.range, slot, out)
    }
}

/// Marks each event that is no step: the own event of each record.
#[derive(Drop)]
pub struct Ending {
    ends: bool,
}

impl Ending {
    /// What marks each event that is no step.
    pub fn new() -> Ending {
        Ending { ends: false }
    }
}

impl Mark for Ending {
    ghost use Rattle.std.specs.Prelude.{◌≡◌, false, not};
    ghost use Rattle.mx_walk.specs.Stopping.{is_step};

    ghost marks = { λ mark w x u. not (is_step x.1) };

    ghost marks_step = { λ mark l o. false };

    ghost HasSeen = { λ mark w x. mark.ends ≡ not (is_step x.1) };

    ghost HasSeenHeld = { λ _ _. Unit {0} };

    fn steps_are_marked() {}

    fn look(&mut self, _machine: &Machine, _actor: u8, event: Event) {
        self.ends = !is_step(event);
    }

    fn is_met(&self, _machine: &Machine) -> bool {
        self.ends
    }

    fn watches(&self, _slot: u8) -> bool {
        false
    }

    fn is_of_memory(&self, _slot: u8) -> bool {
        true
    }

    fn look_at(&mut self, _slot: u8, _out: &Out) {}

    fn look_again(&mut self, _slot: u8, _out: &Out) -> bool {
        false
    }
}
