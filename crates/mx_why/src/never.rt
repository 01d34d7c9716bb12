//! The laws of those that are said to wait for ever. They have no code.

ghost use Rattle.std.specs.Prelude.{ℕ, List};
ghost use Rattle.mx_machine.specs.declared.events.Event.{Event};
ghost use Rattle.mx_machine.specs.declared.history.Record.{Record};
ghost use Rattle.mx_machine.specs.World.{World};
ghost use Rattle.mx_why.specs.declared.verdicts.Verdict.{Verdict};
ghost use Rattle.mx_why.specs.Never.{KernelStaysWaiting, StaysWaiting};

use mx_machine::{Kernel, histories_replay};

/// Law: of whom a verdict says at the end of a history that it never goes on, does what it did then after any more
/// events without a kill.
pub fn never_holds()
    ensures { (boot : World) (history : List (ℕ × Event)) (slot : ℕ) (said : Verdict)
        (more : List (ℕ × Event)) → StaysWaiting boot history slot said more }
{}

/// Law: so of a kernel, if the verdict is of some of its records, and by the others nobody is killed. Nothing is asked
/// of the kernel: each event of its history found a sound machine.
pub fn kernels_keep_waiting(kernel: &Kernel)
    ensures { (before later : List Record) (slot : ℕ) (said : Verdict)
        → KernelStaysWaiting kernel.now before later slot said }
{
    kernel.facts();
    histories_replay();
}
