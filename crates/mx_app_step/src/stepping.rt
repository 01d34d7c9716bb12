//! Steps of a processor.

ghost use Rattle.std.specs.Prelude.{◌≡◌, ◌<◌, Some};
ghost use Rattle.mx_machine.specs.Machine.{IsActor};
ghost use Rattle.mx_machine.specs.Move.{move};
ghost use Rattle.mx_machine.specs.World.{actors, held_by};
ghost use Rattle.mx_app_start.specs.Machine.{world_of};
ghost use Rattle.mx_app_step.specs.Kept.{kept_by};
ghost use Rattle.mx_app_step.specs.Lines.{event_made, run_made, steps_made};

use mx_image::Stop;
use mx_machine::{Event, Held, Machine, Out, Refusal, Tool, at_stop};
use mx_print_answers::{Said, said_of};

/// Makes that many steps, and notes what is said of them.
#[derive(Drop)]
struct Stepper {
    steps: u32,
    said: Said,
}

impl Tool for Stepper {
    ghost use Rattle.std.specs.Prelude.{◌≡◌};
    ghost use Rattle.mx_app_step.specs.Lines.{said_of_run};

    ghost steps = { λ tool _. tool.steps };

    ghost Becomes = { λ old out new. new ≡ record old { said = said_of_run old.steps out } };

    fn work(&mut self, out: &mut Out) {
        let stopped = at_stop(out);
        let (count, stop) = out.run(self.steps);
        self.said = if stopped {
            Said::Refused(Refusal::AtStop)
        } else {
            Said::Stepped(count, stop)
        };
    }
}

/// One or more steps of a processor, in one run.
fn work_steps(machine: &mut Machine, cpu: u8, steps: u32) -> Said
    requires { 0 < steps }
    ensures made { run_made (world_of machine.old) cpu steps (held_by (world_of machine.old) cpu)
        ≡ (result, world_of machine.new) }
    ensures actors { actors (world_of machine.new) ≡ actors (world_of machine.old) }
    ensures kernel { machine.new.kernel ≡ machine.old.kernel }
{
    let mut stepper = Stepper {
        steps,
        said: Said::Stepped(0, Stop::Spent),
    };
    match machine.work(cpu, &mut stepper) {
        Ok(()) => stepper.said,
        Err(refusal) => Said::Refused(refusal),
    }
}

/// At most that many steps of a processor, in one run: up to a trap, a fault or the end of the budget.
/// Where the first of them is refused, the refusal; no steps are none, whatever the processor holds.
pub fn make_steps(machine: &mut Machine, cpu: u8, steps: u32) -> Said
    ensures made { steps_made (world_of machine.old) cpu steps ≡ (result, world_of machine.new) }
    ensures kernel { machine.new.kernel ≡ machine.old.kernel }
    ensures actors { actors (world_of machine.new) ≡ actors (world_of machine.old) }
{
    if steps == 0 {
        return Said::Stepped(0, Stop::Spent);
    }
    work_steps(machine, cpu, steps)
}

/// One event of an actor of the machine, and what is said of it.
pub(crate) fn make_event(machine: &mut Machine, actor: u8, event: Event) -> Said
    requires { IsActor (world_of machine.old) actor event }
    ensures made { event_made (move (world_of machine.old) actor event)
        ≡ (result, world_of machine.new) }
    ensures kept { machine.new.kernel
        ≡ kept_by machine.old.kernel (world_of machine.old) (Some (actor, event)) }
    ensures actors { actors (world_of machine.new) ≡ actors (world_of machine.old) }
{
    said_of(machine.apply(actor, event))
}
