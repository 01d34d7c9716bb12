//! The machine of one thread. It has eight places for what its processors hold, so only `run` takes memory.

ghost use Rattle.std.specs.Prelude.{◌≡◌, ℕ, true, ◌+◌, ◌<◌, ◌≤◌, ◌++◌, ◌∷◌, [], All, Ok, None, Some, IsSome, IfSome, IfErr, OnOk, OnErr, MatchOption, vec_len, vec_capacity};
ghost use Rattle.std.specs.Option.{option_map};
ghost use Rattle.mx_machine.specs.Proc.TableState.{endpoint_of};
ghost use Rattle.mx_machine.specs.declared.events.Event.TheVariants as events;
ghost use Rattle.mx_machine.specs.declared.events.Refusal.TheVariants.{CpuEmpty};
ghost use Rattle.mx_machine.specs.History.{replay};
ghost use Rattle.mx_machine.specs.Move.{move, moves};
ghost use Rattle.mx_machine.specs.Sound.{IsSound};
ghost use Rattle.mx_machine.specs.World.{HeldProcess, actors, held_by, out_count};
ghost use Rattle.mx_machine.specs.KernelState.{is_for_all};
ghost use Rattle.mx_machine.specs.Machine.{AreSound, HasWorked, IsActor, IsMachineState, kept_after, kept_along, world_of};

use crate::place::{Place, no_outs};
use crate::steps::{Tool, step_held, work_held};
use crate::{Answer, Endpoint, Event, Kernel, Out, Refusal, Rules, Slot};
use mx_exec::Image;
use mx_word::NoMemory;
use std::marker::Model;

/// The machine of one thread: a kernel, and what each of its processors holds.
pub struct Machine {
    pub(crate) kernel: Kernel,
    pub(crate) outs: [Place; 8],
}

// A derived drop would be proved again at each way out of each function that has a machine; this one is a call.
impl Drop for Machine {
    fn drop(self) {
        let Machine { kernel: _, outs: _ } = self;
    }
}

impl Model for Machine {
    ghost use Rattle.mx_machine.specs.Machine.{MachineState, IsMachineState};

    ghost Value = { MachineState };

    ghost view = { λ m. record { kernel = m.kernel; outs = m.outs } };

    ghost invariant = { λ m. IsMachineState (record { kernel = m.kernel; outs = m.outs }) };
}

/// The endpoint of the process that is on a processor.
fn endpoint_on(kernel: &Kernel, cpu: u8) -> Endpoint
    requires { IsSome (held_by (replay kernel.now) cpu) }
    ensures { IfSome (held_by (replay kernel.now) cpu) (λ l.
        result ≡ endpoint_of (replay kernel.now).table l.slot) }
{
    kernel.facts();
    match kernel.slot_on(cpu) {
        Some(slot) => kernel.table().endpoint(slot),
        None => unreachable!(),
    }
}

/// Adds an answer, for which there is room.
fn add(answers: &mut Vec<Result<Answer, Refusal>>, answer: Result<Answer, Refusal>)
    requires { vec_len answers.old < vec_capacity answers.old }
    ensures items { answers.new.items ≡ answers.old.items ++ answer ∷ [] }
    ensures len { vec_len answers.new ≡ vec_len answers.old + 1 }
    ensures room { vec_capacity answers.old ≤ vec_capacity answers.new }
{
    match answers.push(answer) {
        Ok(()) => {}
        Err(_) => unreachable!(),
    }
}

impl Machine {
    /// A kernel's machine, whose processors hold nothing yet. Takes no memory.
    pub fn new(kernel: Kernel) -> Machine
        requires { out_count (replay kernel).cpus ≡ 0 }
        ensures kernel { result.kernel ≡ kernel }
        ensures world { world_of result ≡ replay kernel }
    {
        kernel.facts();
        let outs = no_outs(*kernel.records.allocator());
        Machine { kernel, outs }
    }

    /// The kernel that the machine drives.
    pub fn kernel(&self) -> &Kernel
        ensures { result.now ≡ self.now.kernel }
    {
        &self.kernel
    }

    /// Ends the machine, and hands back its kernel. What its processors hold is dropped. Takes no memory.
    pub fn into_kernel(self) -> Kernel
        ensures { result ≡ self.kernel }
    {
        let Machine { kernel, outs: _ } = self;
        kernel
    }

    /// By which rules it copies between processes.
    #[tactic(auto, unfolding(crate::specs::Machine::world_of))]
    pub fn rules(&self) -> Rules
        ensures { result ≡ (world_of self.now).table.rules }
    {
        self.kernel.table().rules()
    }

    /// How many actors there are: the processors, and the others.
    pub fn actors(&self) -> usize
        ensures { result ≡ actors (world_of self.now) }
    {
        self.kernel.actors()
    }

    /// What a processor holds, as it is now.
    pub fn out(&self, cpu: u8) -> Option<&Out>
        ensures { MatchOption result (held_by (world_of self.now) cpu ≡ None) (λ out.
            (l : HeldProcess) × (held_by (world_of self.now) cpu ≡ Some l) × (out.now ≡ l.out)) }
    {
        self.facts();
        if cpu as usize >= self.outs.len() {
            return None;
        }
        match self.outs[cpu as usize].held() {
            Some(out) => Some(out),
            None => None,
        }
    }

    /// The image that a processor of the machine holds, as it is now.
    pub fn image(&self, cpu: u8) -> Option<&Image>
        ensures { MatchOption result (held_by (world_of self.now) cpu ≡ None) (λ image.
            (l : HeldProcess) × (held_by (world_of self.now) cpu ≡ Some l)
            × (image.now ≡ l.out.image)) }
    {
        match self.out(cpu) {
            Some(out) => Some(&out.image),
            None => None,
        }
    }

    /// The slot whose process a processor of the machine holds.
    pub fn slot_on(&self, cpu: u8) -> Option<Slot>
        ensures { result ≡ option_map (λ (l : HeldProcess).
            l.slot) (held_by (world_of self.now) cpu) }
    {
        self.kernel.slot_on(cpu)
    }

    /// Lends what a processor of the machine holds to a tool.
    pub fn work<T: Tool>(&mut self, cpu: u8, tool: &mut T) -> Result<(), Refusal>
        ensures ok { OnOk result ((l : HeldProcess)
            × HasWorked (world_of self.old) (world_of self.new) cpu (T.steps tool.old l.out) l
            × T.Becomes tool.old l.out tool.new) }
        ensures err { IfErr result (λ refusal. (refusal ≡ CpuEmpty)
            × (held_by (world_of self.old) cpu ≡ None) × (self.new ≡ self.old)
            × (tool.new ≡ tool.old)) }
        ensures kernel { self.new.kernel ≡ self.old.kernel }
        ensures actors { actors (world_of self.new) ≡ actors (world_of self.old) }
    {
        self.facts();
        if cpu as usize >= self.outs.len() {
            return Err(Refusal::CpuEmpty);
        }
        work_held(tool, &mut self.outs[cpu as usize])
    }

    /// A step of a processor.
    fn step(&mut self, cpu: u8) -> Result<Answer, Refusal>
        ensures moved { move (world_of self.old) cpu events.Step ≡ (result, world_of self.new) }
        ensures recorded { self.new.kernel ≡ kept_after self.old.kernel cpu events.Step result }
    {
        self.facts();
        if cpu as usize >= self.outs.len() {
            return Err(Refusal::CpuEmpty);
        }
        step_held(&mut self.outs[cpu as usize])
    }

    /// A processor takes the process that is first to run.
    fn take(&mut self, cpu: u8) -> Result<Answer, Refusal>
        ensures moved { move (world_of self.old) cpu events.Take ≡ (result, world_of self.new) }
        ensures recorded { self.new.kernel ≡ kept_after self.old.kernel cpu events.Take result }
    {
        self.facts();
        if cpu as usize >= self.outs.len() {
            return Err(Refusal::CpuBusy);
        }
        let budget = self.outs[cpu as usize].take(&mut self.kernel, cpu)?;
        self.kernel.facts();
        Ok(Answer::Taken(endpoint_on(&self.kernel, cpu), budget))
    }

    /// A processor's process comes back.
    fn back(&mut self, cpu: u8) -> Result<Answer, Refusal>
        ensures moved { move (world_of self.old) cpu events.Back ≡ (result, world_of self.new) }
        ensures recorded { self.new.kernel ≡ kept_after self.old.kernel cpu events.Back result }
    {
        self.facts();
        if cpu as usize >= self.outs.len() {
            return Err(Refusal::CpuEmpty);
        }
        match self.outs[cpu as usize].back(&mut self.kernel, cpu) {
            Some(count) => Ok(Answer::Returned(count)),
            None => Err(Refusal::CpuEmpty),
        }
    }

    /// A line, a tick, a kill or a respawn.
    fn rule(&mut self, actor: u8, event: Event) -> Result<Answer, Refusal>
        requires event { is_for_all event ≡ true }
        requires actor { actor < actors (world_of self.old) }
        ensures moved { move (world_of self.old) actor event ≡ (result, world_of self.new) }
        ensures recorded { self.new.kernel ≡ kept_after self.old.kernel actor event result }
    {
        self.kernel.event(actor, event)
    }

    /// One event of an actor: it is refused, and nothing changes, or it is answered. But for a step
    /// the history then has one record more.
    pub fn apply(&mut self, actor: u8, event: Event) -> Result<Answer, Refusal>
        requires { IsActor (world_of self.old) actor event }
        ensures moved { move (world_of self.old) actor event ≡ (result, world_of self.new) }
        ensures recorded { self.new.kernel ≡ kept_after self.old.kernel actor event result }
        ensures actors { actors (world_of self.new) ≡ actors (world_of self.old) }
    {
        match event {
            Event::Step => self.step(actor),
            Event::Take => self.take(actor),
            Event::Back => self.back(actor),
            _ => self.rule(actor, event),
        }
    }

    /// Events in order, each by its actor; their answers are added to a list. If memory runs out nothing
    /// changes.
    pub fn run(
        &mut self,
        events: &[(u8, Event)],
        answers: &mut Vec<Result<Answer, Refusal>>,
    ) -> Result<(), NoMemory>
        requires { All (λ x. IsActor (world_of self.old) x.0 x.1) events.now }
        ensures ok { OnOk result ((answers.new.items ≡ answers.old.items
            ++ (moves (world_of self.old) events.now).0)
            × (world_of self.new ≡ (moves (world_of self.old) events.now).1)) }
        ensures sound { OnOk result (AreSound (world_of self.old) events.now) }
        ensures recorded { OnOk result (self.new.kernel
            ≡ kept_along self.old.kernel events.now (moves (world_of self.old) events.now).0) }
        ensures err { OnErr result ((answers.new.items ≡ answers.old.items)
            × (self.new ≡ self.old)) }
        ensures actors { actors (world_of self.new) ≡ actors (world_of self.old) }
    {
        answers.reserve(events.len())?;
        for pair in events {
            self.sound();
            let answer = self.apply(pair.0, pair.1);
            add(answers, answer);
        }
        Ok(())
    }

    /// Law: after each event the machine is sound.
    pub fn sound(&self)
        ensures { IsSound (world_of self.now) }
    {
        self.kernel.facts();
    }

    /// Law: what each processor holds is what the kernel lent it, after the steps made since.
    pub fn facts(&self)
        ensures { IsMachineState self.now }
    {
        let _kernel = &self.kernel;
    }
}
