//! What a machine does with the process that a processor holds: a step, or the work of a tool.

ghost use Rattle.std.specs.Prelude.{◌≡◌, ℕ, ◌+◌, ◌<◌, ◌^◌, true, false, IfOk, IfErr, OnOk, None, Some};
ghost use Rattle.mx_machine.specs.declared.events.Answer.TheVariants.{Went};
ghost use Rattle.mx_machine.specs.declared.events.Refusal.TheVariants.{AtStop, CpuEmpty};
ghost use Rattle.mx_machine.specs.declared.holding.Out.{Out};
ghost use Rattle.mx_machine.specs.Held.{held_run, outcome_of_step, out_after_step, stop_of_outcome};
ghost use Rattle.mx_machine.specs.Move.{at_stop};
ghost use Rattle.mx_machine.specs.Machine.{hold_after_step};

use crate::place::Place;
use crate::{Answer, Out, Refusal, Stop};
use mx_exec::{Outcome, step};

/// What makes steps with what a processor holds, as a debugger does.
pub trait Tool {
    /// How many steps its run asks for, by what it is and what it is lent.
    ghost steps: { Self → Out → ℕ };

    /// What its work leaves it as.
    ghost Becomes: { Self → Out → Self → Type 0 };

    /// Makes its one run with what it is lent.
    fn work(&mut self, out: &mut Out)
        ensures ran { out.new ≡ (held_run (steps self.old out.old) out.old).1 }
        ensures becomes { Becomes self.old out.old self.new };
}

/// How a step that ended so leaves its process.
fn stop_of(outcome: Outcome) -> Stop
    ensures { result ≡ stop_of_outcome outcome }
{
    match outcome {
        Outcome::Go => Stop::Spent,
        Outcome::Trap => Stop::Trap,
        Outcome::Fault(vector) => Stop::Fault(vector),
    }
}

/// Whether no further step can be made: the budget is spent, or the last step ended in a trap or a fault.
pub fn at_stop(out: &Out) -> bool
    ensures value { result ≡ at_stop out.now }
    ensures left { result ≡ false → out.now.count + 1 < 2 ^ 32 }
{
    match out.stop {
        Stop::Spent => out.budget <= out.count,
        Stop::Trap | Stop::Fault(_) => true,
    }
}

/// One step of what a processor holds, unless it is at a stop.
#[tactic(auto, unfolding(crate::specs::Held::out_after_step, crate::specs::Held::outcome_of_step))]
fn step_of(out: &mut Out) -> Result<Answer, Refusal>
    ensures stop { IfErr result (λ refusal. (refusal ≡ AtStop) × (at_stop out.old ≡ true)
        × (out.new ≡ out.old)) }
    ensures went { IfOk result (λ answer. (answer ≡ Went (outcome_of_step out.old))
        × (at_stop out.old ≡ false) × (out.new ≡ out_after_step out.old)) }
{
    if at_stop(out) {
        return Err(Refusal::AtStop);
    }
    let outcome = step(&mut out.image);
    out.count += 1;
    out.stop = stop_of(outcome);
    Ok(Answer::Went(outcome))
}

/// One step of what a processor holds, if it holds anything.
pub(crate) fn step_held(held: &mut Place) -> Result<Answer, Refusal>
    ensures { hold_after_step held.old ≡ (result, held.new) }
{
    if held.is_held {
        step_of(&mut held.out)
    } else {
        Err(Refusal::CpuEmpty)
    }
}

/// Lends what a processor holds to a tool, if it holds anything.
pub(crate) fn work_held<T: Tool>(tool: &mut T, held: &mut Place) -> Result<(), Refusal>
    ensures none { IfErr result (λ refusal. (refusal ≡ CpuEmpty) × (held.old ≡ None)
        × (held.new ≡ None) × (tool.new ≡ tool.old)) }
    ensures some { OnOk result ((o : Out) × (p : Out) × (held.old ≡ Some o) × (held.new ≡ Some p)
        × (p ≡ (held_run (T.steps tool.old o) o).1) × T.Becomes tool.old o tool.new) }
{
    if !held.is_held {
        return Err(Refusal::CpuEmpty);
    }
    tool.work(&mut held.out);
    Ok(())
}
