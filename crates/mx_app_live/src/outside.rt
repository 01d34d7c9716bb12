//! What comes from outside while a machine lives, and what is told there.

ghost use Rattle.std.specs.Prelude.{◌≡◌, ◌++◌, ◌∷◌, [], List};
ghost use Rattle.mx_app_live.specs.declared.outside.Heard.{Heard as Heards};
ghost use Rattle.mx_app_live.specs.declared.outside.Note.{Note as Notes};

use crate::session::SessionEnding;

/// What comes from outside at one question.
#[derive(Clone, Copy, Debug, PartialEq, Eq)]
pub enum Heard {
    Nothing,
    /// A key was typed: this byte.
    Key(u8),
    /// The clock has ticked.
    Tick,
    /// No more keys will come.
    NoMoreKeys,
    /// The session is to end.
    Stop,
}

/// What is told to who sits at the machine.
#[derive(Clone, Copy, Debug, PartialEq, Eq)]
pub enum Note {
    /// A key is no command, or there is no room for it.
    Refused,
    /// Which keys are commands; the history has so many records.
    Help(usize),
    /// A slot's process was killed: by the record with this number.
    Killed(usize),
    /// Nobody was killed: there is no such slot, or its process is dead already.
    NobodyKilled(u8),
    /// The session has ended so: with so many records, and so many typed bytes that weren't taken.
    Ended(SessionEnding, usize, usize),
}

/// How somebody sits at a machine.
#[derive(Clone, Copy)]
pub struct Sitting<'a> {
    /// Whether a read of the keys never waits, and one that gives nothing isn't their end.
    pub is_raw: bool,
    /// How many ticks the clock makes in a second.
    pub hertz: u32,
    /// The file that ends the session once it is there.
    pub stop: Option<&'a str>,
}

/// How the session is, for who decides whether to wait for a key.
#[derive(Clone, Copy)]
pub struct Asking<'a> {
    pub sitting: Sitting<'a>,
    /// Whether the machine is at rest and nothing typed waits.
    pub is_idle: bool,
    /// Whether the machine is at rest.
    pub at_rest: bool,
    /// Whether there is room for a key more.
    pub has_room: bool,
}

/// Who sits at the machine.
pub trait Outside {
    /// The answers to all questions, in order.
    ghost heard: { Self → List Heards };

    /// What was told, in order.
    ghost told: { Self → List Notes };

    /// Asks what comes from outside. It may wait for a key if the session is idle, and takes its time in any case.
    fn hear(&mut self, asking: Asking<'_>) -> Heard
        ensures heard { heard self.new ≡ heard self.old ++ result ∷ [] }
        ensures told { told self.new ≡ told self.old };

    /// Tells something.
    fn tell(&mut self, note: Note)
        ensures told { told self.new ≡ told self.old ++ note ∷ [] }
        ensures heard { heard self.new ≡ heard self.old };
}
