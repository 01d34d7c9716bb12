//! Halts: how a run under breakpoints ends.

ghost use Rattle.std.specs.Prelude.{◌≡◌};
ghost use Rattle.mx_debug.specs.Halts.{is_breakpoint, is_spent, cause_of};

use mx_image::Stop;

/// The cause of a halt.
#[derive(Clone, Copy, Debug, PartialEq, Eq)]
pub enum HaltCause {
    /// All steps that were asked for, or that the budget leaves, are made.
    Spent,
    /// The next instruction is at a breakpoint.
    Breakpoint,
    /// The last step was a trap.
    Trap,
    /// The last step was a fault with this vector.
    Fault(u8),
}

impl HaltCause {
    /// Whether the run ended neither at a stop nor at a breakpoint.
    pub fn is_spent(self) -> bool
        ensures { result ≡ is_spent self }
    {
        match self {
            HaltCause::Spent => true,
            HaltCause::Breakpoint | HaltCause::Trap | HaltCause::Fault(_) => false,
        }
    }
}

/// How many steps were made, and the cause of the end.
#[derive(Clone, Copy, Debug, PartialEq, Eq)]
pub struct Halt {
    pub count: u32,
    pub cause: HaltCause,
}

/// Whether the next instruction is at a breakpoint.
#[derive(Clone, Copy)]
pub enum NextPlace {
    /// At a breakpoint.
    Breakpoint,
    /// Anywhere else.
    Elsewhere,
}

/// A trap or a fault is reported before a breakpoint, a breakpoint before a spent budget.
pub fn cause_of(stop: Stop, place: NextPlace) -> HaltCause
    ensures { result ≡ cause_of stop (is_breakpoint place) }
{
    match stop {
        Stop::Trap => HaltCause::Trap,
        Stop::Fault(vector) => HaltCause::Fault(vector),
        Stop::Spent => match place {
            NextPlace::Breakpoint => HaltCause::Breakpoint,
            NextPlace::Elsewhere => HaltCause::Spent,
        },
    }
}
