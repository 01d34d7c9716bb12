//! The line `go` of a debugger's script: steps up to a breakpoint.

ghost use Rattle.std.specs.Prelude.{◌≡◌, IfOk, IfErr};
ghost use Rattle.mx_app_step.specs.Machine.{world_of};
ghost use Rattle.mx_machine.specs.World.{actors, held_by};
ghost use Rattle.mx_app_db.specs.Going.{HasGone, IsStuck};
ghost use Rattle.mx_app_db.specs.DebugLines.{world_after_go};

use mx_machine::{Machine, Out, Refusal, Tool};
use mx_print_answers::{Debugger, Halt, HaltCause};
use mx_proc::Slot;

/// A debugger that runs the process of this slot for at most `steps` steps.
#[derive(Drop)]
struct Resuming<'a> {
    debugger: &'a Debugger,
    slot: Slot,
    steps: u32,
    /// How the run halted. `work` sets it.
    halt: Halt,
}

impl<'a> Tool for Resuming<'a> {
    ghost use Rattle.std.specs.Prelude.{◌≡◌};
    ghost use Rattle.mx_print_answers.specs.Halts.{Halts, held_after, steps_to_halt};

    ghost steps = { λ tool out. steps_to_halt tool.debugger.now tool.slot tool.steps out };

    ghost Becomes = { λ tool out u. Halts tool.debugger.now tool.slot tool.steps out u.halt (held_after u.halt.count out) };

    fn work(&mut self, out: &mut Out) {
        self.halt = self.debugger.resume(self.slot, out, self.steps);
    }
}

/// Runs the process on processor `cpu` for at most `steps` steps, and halts at a breakpoint of its slot.
/// Answers how many steps it made and why it halted. If `steps` isn't 0, it makes at least one step, or
/// refuses with `AtStop` if the process can make none. Refuses with `CpuEmpty` if the processor holds no
/// process.
#[tactic(auto, using(crate::proofs::Worlds::gone_steps, crate::proofs::Worlds::gone_nothing, crate::proofs::Worlds::gone_no_slot))]
pub fn go(machine: &mut Machine, debugger: &Debugger, cpu: u8, steps: u32) -> Result<Halt, Refusal>
    ensures gone { IfOk result (λ halt.
        HasGone (world_of machine.old) (world_of machine.new) debugger.now cpu steps halt) }
    ensures stuck { IfErr result (λ refusal.
        IsStuck (world_of machine.old) debugger.now cpu steps refusal
        × (world_of machine.new ≡ world_of machine.old)) }
    ensures world { world_after_go (world_of machine.old) debugger.now cpu steps
        (held_by (world_of machine.old) cpu) ≡ world_of machine.new }
    ensures kernel { machine.new.kernel ≡ machine.old.kernel }
    ensures actors { actors (world_of machine.new) ≡ actors (world_of machine.old) }
{
    let Some(slot) = machine.slot_on(cpu) else {
        return Err(Refusal::CpuEmpty);
    };
    let mut tool = Resuming {
        debugger,
        slot,
        steps,
        halt: Halt {
            count: 0,
            cause: HaltCause::Spent,
        },
    };
    machine.work(cpu, &mut tool)?;
    // The first step is made also at a breakpoint, so the process is at a stop.
    if steps != 0 && tool.halt.count == 0 {
        return Err(Refusal::AtStop);
    }
    Ok(tool.halt)
}
