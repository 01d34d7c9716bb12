//! The typed bytes that wait for the driver, and how many it has taken.

ghost use Rattle.std.specs.Prelude.{◌≡◌, ◌≤◌, ◌-◌, ◌++◌, ◌∷◌, [], IfOk, None, false, true, length};
ghost use Rattle.mx_typist.specs.Typing.{has_room, noted_of, nothing_typed, raise_of, typing_after_key, typing_after_look};

use crate::MOST_WAITING;
use circular_buffer::HeapCircularBuffer;
use std::alloc::{AllocError, Global};
use std::marker::Model;

/// What the outside sees of a machine at one look.
#[derive(Clone, Copy)]
pub struct Seen {
    /// The driver: the process that owns all lines of the keyboard.
    pub driver: Option<u32>,
    /// How many bytes were taken, by register 255.
    pub counted: u32,
    /// Whether the process that the last byte was raised to is alive.
    pub is_alive: bool,
}

/// A byte, and the endpoint of the driver that its lines are to be raised for.
#[derive(Clone, Copy)]
pub struct Raise {
    pub driver: u32,
    pub byte: u8,
}

/// The typed bytes that aren't taken, in order, how many are taken, and the endpoint of the driver that the first of
/// those that wait was raised for, if it was.
#[derive(Drop)]
pub struct Typist {
    waiting: HeapCircularBuffer<u8>,
    taken: u32,
    flight: Option<u32>,
}

impl Model for Typist {
    ghost use Rattle.std.specs.Prelude.{◌≡◌};
    ghost use Rattle.mx_typist.specs.Typing.{Typing, most_waiting};

    ghost Value = { Typing };

    ghost view = { λ t. record { waiting = t.waiting.items; taken = t.taken; flight = t.flight } };

    ghost invariant = { λ t. t.waiting.capacity ≡ most_waiting };
}

impl Typist {
    /// Nothing is typed yet. Takes memory for all that may wait, and none later.
    pub fn new(alloc: Global) -> Result<Typist, AllocError>
        ensures { IfOk result (λ t. t ≡ nothing_typed) }
    {
        let waiting = HeapCircularBuffer::with_capacity(alloc, MOST_WAITING)?;
        Ok(Typist {
            waiting,
            taken: 0,
            flight: None,
        })
    }

    /// The endpoint of the driver that the byte which waits first was raised for, if it was.
    pub fn flight(&self) -> Option<u32>
        ensures { result ≡ self.now.flight }
    {
        self.flight
    }

    /// How many typed bytes aren't taken.
    pub fn waiting(&self) -> usize
        ensures { result ≡ length self.now.waiting }
    {
        self.waiting.len()
    }

    /// Whether a byte more may wait.
    pub fn has_room(&self) -> bool
        ensures { result ≡ has_room self.now }
    {
        self.waiting() < MOST_WAITING
    }

    /// A byte is typed. Answers false, and does nothing, just if there is no room for it.
    pub fn push(&mut self, byte: u8) -> bool
        ensures typed { self.new ≡ typing_after_key byte self.old }
        ensures room { result ≡ has_room self.old }
    {
        self.waiting.try_push_back(byte).is_ok()
    }

    /// Notes what became of the byte that was raised, as of a look: it is taken, or its driver died.
    fn note(&mut self, seen: Seen)
        ensures { self.new ≡ noted_of seen self.old }
    {
        if self.flight.is_none() {
            return;
        }
        if seen.counted as usize == self.taken as usize + 1 {
            self.waiting.pop_front();
            self.taken = seen.counted;
            self.flight = None;
        } else if !seen.is_alive {
            self.flight = None;
        }
    }

    /// The byte that is to be raised as of a look, and for whom. It counts as raised then.
    pub fn look(&mut self, seen: Seen) -> Option<Raise>
        ensures typing { self.new ≡ typing_after_look seen self.old }
        ensures raise { result ≡ raise_of seen self.old }
    {
        self.note(seen);
        if self.flight.is_some() || seen.counted != self.taken {
            return None;
        }
        let driver = seen.driver?;
        let byte = *self.waiting.front()?;
        self.flight = Some(driver);
        Some(Raise { driver, byte })
    }
}
