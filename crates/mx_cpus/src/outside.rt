//! What the second other actor is asked to do.

ghost use Rattle.std.specs.Prelude.{◌≡◌};
ghost use Rattle.mx_cpus.specs.Outsiders.{role_of};

use mx_proc::Slot;

/// A call that the second other actor makes: an outside event, or a wait.
#[derive(Clone, Copy, Debug, PartialEq, Eq)]
pub enum OutsideCall {
    /// It raises this line.
    Line(u32),
    /// It kills the process of this endpoint.
    Kill(u32),
    /// It kills the process that this slot has then.
    KillSlot(Slot),
    /// It lets the clock tick.
    Tick,
    /// It puts a new process into this slot, if the slot's process is dead.
    Respawn(u32),
    /// It waits until the history has so many records more, or the machine is at rest.
    Wait(u32),
}

/// What comes from outside while loops drive a machine: how many ticks the respawner makes, and the outsider's calls.
#[derive(Clone, Copy)]
pub struct Outside<'a> {
    pub ticks: u32,
    pub calls: &'a [OutsideCall],
}

/// Which loop an actor has.
#[derive(Clone, Copy)]
pub(crate) enum Role {
    Processor,
    Respawner,
    Outsider,
}

/// Which loop an actor has, if there are so many processors. The first actor after them is the respawner. The next
/// one is the outsider, if it has calls to make. Another one has no loop.
pub(crate) fn role_of(actor: u8, cpus: u8, calls: &[OutsideCall]) -> Option<Role>
    ensures { result ≡ role_of actor cpus calls.now }
{
    if actor < cpus {
        Some(Role::Processor)
    } else if actor == cpus {
        Some(Role::Respawner)
    } else if actor - cpus == 1 && !calls.is_empty() {
        Some(Role::Outsider)
    } else {
        None
    }
}
