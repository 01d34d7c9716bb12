//! Laws of a machine's events: order, replay, and runs after one another.

ghost use Rattle.std.specs.Prelude.{◌≡◌, ℕ, Some};
ghost use Rattle.mx_machine.specs.declared.events.Event.{Event};
ghost use Rattle.mx_machine.specs.declared.events.Event.TheVariants as e;
ghost use Rattle.mx_machine.specs.History.{BootAndHistory, AreAccepted, events_of_history};
ghost use Rattle.mx_machine.specs.World.{World, HeldProcess, held_by};
ghost use Rattle.mx_machine.specs.Laws.{ChangePlaces, IsOthers, Replays, RunsAgain};
ghost use Rattle.mx_machine.specs.Machine.{world_of};

use crate::Kernel;
use crate::machine::Machine;

/// Law: while a processor has a process, its step commutes with any event but its own steps, takes and
/// returns.
pub fn steps_change_places()
    ensures { (w : World) (c a : ℕ) (x : Event) (l : HeldProcess) → held_by w c ≡ Some l
        → IsOthers c a x → ChangePlaces w c e.Step a x }
{}

/// Law: a history whose events are accepted, as every kernel's are, replays.
pub fn histories_replay()
    ensures { (k : BootAndHistory) → AreAccepted k.boot (events_of_history k.history) → Replays k }
{}

/// Law: a machine in the state in which a kernel was booted may make the events of the kernel's history. Each
/// of them is accepted, and they lead to the kernel's current state.
pub fn runs_again(machine: &Machine, kernel: &Kernel)
    ensures { world_of machine.now ≡ kernel.now.boot → RunsAgain (world_of machine.now) kernel.now }
{
    histories_replay();
    kernel.facts();
}
