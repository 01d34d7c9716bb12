//! The events of a machine, the answers to them, and the reasons to refuse them.
//!
//! # Five types of events
//!
//! What may happen to a machine is spelled in five types. Each has what its users may say, and no more.
//!
//! | type | how it differs |
//! |---|---|
//! | `Event` | What the machine makes. Who does it is said beside it, and a `Back` has no number: the machine counts. |
//! | `Recorded` | What a history keeps. It has no step; a `Back` has the number of its steps. |
//! | `EventKind` (`mx_boot`) | The word that begins a line of a text, without the numbers after it. |
//! | `ScriptLine` (`mx_boot`) | A line of a script. It names its processor, and a step is as many as the line says. |
//! | `OutsideCall` (`mx_cpus`) | What comes from outside while threads run a machine: a line, a kill or a tick; or a wait, which is no event. |
//!
//! Which becomes which:
//!
//! | from | to | by |
//! |---|---|---|
//! | `EventKind`, fields | `ScriptLine`; `Recorded`; `Event` | `script_line_of`, `recorded_of` (`mx_boot`); `outside_event_of` (`mx_app_turns`) |
//! | `ScriptLine` | `Event` | `perform_line` (`mx_app_step`) |
//! | `Event` | `OutsideCall` | `call_of_event` (`mx_app_run`), which refuses what only processors and respawners do |
//! | `OutsideCall` | `Event` | `make_call` (`mx_cpus`) |
//! | `Event` | `Recorded` | `recorded_as`, if any actor may do it; else `Kernel::take` and `Kernel::back` |
//! | `Recorded` | `Event` | `own_event` (`mx_walk`): a history made again; the steps of a `Back` come before it |

ghost use Rattle.std.specs.Prelude.{◌≡◌};
ghost use Rattle.mx_machine.specs.Refusals.{code_of_refusal, name_of_refusal};

use mx_exec::Outcome;
use mx_proc::Endpoint;

/// What an actor does to a machine. Only a processor can make a `Step`, a `Take` or a `Back`. Every
/// actor, and so a processor too, can make the other four events.
#[derive(Clone, Copy, PartialEq, Eq)]
pub enum Event {
    /// The processor makes one step (one instruction) of its process.
    Step,
    /// The processor takes the process at the front of the highest ready list that isn't empty. List 0
    /// is the highest.
    Take,
    /// The processor brings its process back to the table.
    Back,
    /// The actor raises the interrupt line with this number, 0 to 15.
    Line(u32),
    /// The clock ticks once.
    Tick,
    /// The actor kills the process with this endpoint. If that process is on a processor, it dies at its
    /// `Back`.
    Kill(u32),
    /// The actor gives the slot with this number a new process. The old process must be dead.
    Respawn(u32),
}

/// What the machine answers to an accepted event.
#[derive(Clone, Copy, PartialEq, Eq)]
pub enum Answer {
    /// To `Step`: how the step ended.
    Went(Outcome),
    /// To `Take`: the endpoint of the process, and its budget. The budget is how many steps it may make
    /// before it has to come back.
    Taken(Endpoint, u32),
    /// To `Back`: how many steps the process made since its `Take`.
    Returned(u32),
    /// To `Line`, `Tick` and `Kill`: the event is made, and the answer has nothing else.
    Done,
    /// To `Respawn`: the endpoint of the new process.
    Respawned(Endpoint),
}

/// Why the machine refuses an event. A refused event changes nothing.
#[derive(Clone, Copy, PartialEq, Eq)]
pub enum Refusal {
    /// `Respawn`: the slot's process isn't dead.
    NotDown = 40,
    /// `Respawn`: the slot has no restart left, or its dead process was of the last generation.
    Worn = 41,
    /// `Respawn`: the slot has no service, because there is no such slot.
    NoService = 42,
    /// `Take`: there is no such processor, or it has a process already.
    CpuBusy = 50,
    /// `Step` and `Back`: there is no such processor, or it has no process.
    CpuEmpty = 51,
    /// `Take`: fewer than two records are free, one for the `Take` and one for its `Back`. `Line`,
    /// `Tick`, `Kill` and `Respawn`: no record is free.
    LogFull = 52,
    /// `Line`: there is no such interrupt line, or no process owns it.
    NoLine = 53,
    /// `Take`: no process is ready. `Kill`: no process that is alive has the endpoint.
    NoProcess = 54,
    /// `Step`: the last step was a trap or a fault, or the process has spent its budget.
    AtStop = 55,
}

impl Refusal {
    /// The number of this reason: 52 for `LogFull`, for example.
    pub fn code(self) -> u8
        ensures { result ≡ code_of_refusal self }
    {
        self as u8
    }

    /// The name of this reason, as a text: `LogFull`, for example.
    pub fn name(self) -> &'static str
        ensures { result.now ≡ name_of_refusal self }
    {
        match self {
            Refusal::NotDown => "NotDown",
            Refusal::Worn => "Worn",
            Refusal::NoService => "NoService",
            Refusal::CpuBusy => "CpuBusy",
            Refusal::CpuEmpty => "CpuEmpty",
            Refusal::LogFull => "LogFull",
            Refusal::NoLine => "NoLine",
            Refusal::NoProcess => "NoProcess",
            Refusal::AtStop => "AtStop",
        }
    }
}
