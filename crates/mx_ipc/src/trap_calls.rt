//! The four traps as calls: numbers, parties and answers.

ghost use Rattle.std.specs.Prelude.{◌≡◌, ◌<◌};
ghost use Rattle.mx_ipc.specs.Checks.{call_of, call_number};

/// The calls that a trap makes.
#[derive(Clone, Copy, PartialEq, Eq)]
pub enum Call {
    Send,
    Receive,
    Sendrec,
    Notify,
}

impl Call {
    /// The call that a number in ECX means: SEND, RECEIVE, SENDREC, NOTIFY.
    pub fn of_number(number: u32) -> Option<Call>
        ensures { result ≡ call_of number }
    {
        match number {
            1 => Some(Call::Send),
            2 => Some(Call::Receive),
            3 => Some(Call::Sendrec),
            4 => Some(Call::Notify),
            _ => None,
        }
    }

    /// Its number, which is that of its bit in the trap mask too.
    pub fn number(self) -> u32
        ensures value { result ≡ call_number self }
        ensures below { result < 5 }
    {
        match self {
            Call::Send => 1,
            Call::Receive => 2,
            Call::Sendrec => 3,
            Call::Notify => 4,
        }
    }
}

/// Whom a call names.
#[derive(Clone, Copy, PartialEq, Eq)]
pub enum Party {
    Any,
    Hardware,
    Clock,
    System,
    /// A slot and a generation.
    Process(u8, u32),
}

/// What is left to do after a trap.
#[derive(Clone, Copy, PartialEq, Eq)]
pub enum TrapAnswer {
    /// Nothing.
    Done,
    /// A kernel call.
    Kernel,
}
