//! Offers: a machine makes what it accepts of them.

ghost use Rattle.std.specs.Prelude.{◌≡◌, ◌∷◌, [], ◌++◌, ◌<◌, false};
ghost use Rattle.mx_machine.specs.Machine.{IsActor, world_of};
ghost use Rattle.mx_machine.specs.declared.events.Event.TheVariants as events;
ghost use Rattle.mx_machine.specs.Steps.{steps_of};
ghost use Rattle.mx_machine.specs.Proc.States.{is_down};
ghost use Rattle.mx_machine.specs.Proc.TableState.{process_at};
ghost use Rattle.mx_machine.specs.World.{actors};
ghost use Rattle.mx_turns.specs.Made.{HasOffered, is_full};
ghost use Rattle.mx_turns.specs.Turns.{most_steps, offered, outside, respawns, run_of, runs, takes};

use mx_machine::{Answer, Event, Held, Machine, Out, Refusal, Tool};

/// More steps than any process may make before it comes back.
const MOST_STEPS: u32 = u32::MAX;

/// Makes steps up to the process's stop.
#[derive(Drop)]
struct Runner;

impl Tool for Runner {
    ghost use Rattle.mx_turns.specs.Turns.{most_steps};

    ghost steps = { λ _ _. most_steps };

    ghost Becomes = { λ _ _ _. Unit {0} };

    #[tactic(auto, unfolding(crate::specs::Turns::most_steps))]
    fn work(&mut self, out: &mut Out) {
        let _ = out.run(MOST_STEPS);
    }
}

/// Whether an event was refused because the history is full.
fn is_full(answer: Result<Answer, Refusal>) -> bool
    ensures { result ≡ is_full answer }
{
    match answer {
        Ok(_) => false,
        Err(refusal) => match refusal {
            Refusal::LogFull => true,
            _ => false,
        },
    }
}

/// Offers an event. Answers whether it was refused because the history is full.
pub fn offer(machine: &mut Machine, actor: u8, event: Event) -> bool
    requires { IsActor (world_of machine.old) actor event }
    ensures offered { HasOffered machine.old (offered (world_of machine.old) ((actor, event) ∷ []))
        result machine.new }
    ensures actors { actors (world_of machine.new) ≡ actors (world_of machine.old) }
{
    let answer = machine.apply(actor, event);
    is_full(answer)
}

/// Offers each processor a take, up to the first that is refused because the history is full. Answers
/// whether one was.
pub(crate) fn offer_takes(machine: &mut Machine, cpus: u8) -> bool
    ensures offered { HasOffered machine.old (offered (world_of machine.old) (takes cpus)) result
        machine.new }
    ensures actors { actors (world_of machine.new) ≡ actors (world_of machine.old) }
{
    for cpu in 0..cpus {
        if offer(machine, cpu, Event::Take) {
            return true;
        }
    }
    false
}

/// The steps of what a processor holds, up to its stop.
fn offer_steps(machine: &mut Machine, cpu: u8)
    ensures offered { HasOffered machine.old
        (offered (world_of machine.old) (steps_of cpu most_steps)) false machine.new }
    ensures actors { actors (world_of machine.new) ≡ actors (world_of machine.old) }
{
    let mut runner = Runner;
    let _ = machine.work(cpu, &mut runner);
}

/// The steps of what a processor holds, up to its stop, and its return.
pub fn offer_run(machine: &mut Machine, cpu: u8)
    ensures offered { HasOffered machine.old (offered (world_of machine.old) (run_of cpu)) false
        machine.new }
    ensures actors { actors (world_of machine.new) ≡ actors (world_of machine.old) }
{
    offer_steps(machine, cpu);
    offer(machine, cpu, Event::Back);
}

/// Each processor makes the steps of what it holds, and brings it back.
pub(crate) fn offer_runs(machine: &mut Machine, cpus: u8)
    ensures offered { HasOffered machine.old (offered (world_of machine.old) (runs cpus)) false
        machine.new }
    ensures actors { actors (world_of machine.new) ≡ actors (world_of machine.old) }
{
    for cpu in 0..cpus {
        offer_run(machine, cpu);
    }
}

/// Whether the process of a slot is down.
#[tactic(auto, unfolding(mx_machine::specs::Machine::world_of))]
fn is_down(machine: &Machine, slot: u32) -> bool
    ensures { result ≡ false
        → is_down (process_at (world_of machine.now).table slot).state ≡ false }
{
    let table = machine.kernel().table();
    if slot >= u32::from(table.slot_count()) {
        return true;
    }
    table.process(slot as u8).state.is_down()
}

/// Offers a slot a new process, if it is down: otherwise the machine refuses it. Answers whether the history was too
/// full for it.
fn offer_respawn(machine: &mut Machine, other: u8, slot: u32) -> bool
    requires { other < actors (world_of machine.old) }
    ensures offered { HasOffered machine.old
        (offered (world_of machine.old) ((other, events.Respawn slot) ∷ [])) result machine.new }
    ensures actors { actors (world_of machine.new) ≡ actors (world_of machine.old) }
{
    if is_down(machine, slot) {
        return offer(machine, other, Event::Respawn(slot));
    }
    false
}

/// Offers each slot a new process, up to the first offer that is refused because the history is full.
/// Answers whether one was.
fn offer_respawns(machine: &mut Machine, other: u8, slots: u32) -> bool
    requires { other < actors (world_of machine.old) }
    ensures offered { HasOffered machine.old (offered (world_of machine.old) (respawns other slots))
        result machine.new }
    ensures actors { actors (world_of machine.new) ≡ actors (world_of machine.old) }
{
    for slot in 0..slots {
        if offer_respawn(machine, other, slot) {
            return true;
        }
    }
    false
}

/// Offers the outside event, if there is one, and then each slot a new process. Answers whether the
/// history was too full for one of them.
pub(crate) fn offer_others(
    machine: &mut Machine,
    other: u8,
    next: Option<Event>,
    slots: u32,
) -> bool
    requires { other < actors (world_of machine.old) }
    ensures offered { HasOffered machine.old
        (offered (world_of machine.old) (outside other next ++ respawns other slots)) result
        machine.new }
    ensures actors { actors (world_of machine.new) ≡ actors (world_of machine.old) }
{
    let Some(event) = next else {
        return offer_respawns(machine, other, slots);
    };
    if offer(machine, other, event) {
        return true;
    }
    offer_respawns(machine, other, slots)
}
