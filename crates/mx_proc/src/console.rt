//! The console of a machine: a ring of the last 4,096 bytes that processes wrote to it.

ghost use Rattle.std.specs.Prelude.{◌≡◌, ◌+◌, ◌^◌, ◌<◌, ◌++◌, ◌∷◌, [], IfOk, slice_get};
ghost use Rattle.circular_buffer.specs.Buffer.{keep_last};
ghost use Rattle.mx_proc.specs.Console.{empty_console};

use crate::rings::copy_ring;
use circular_buffer::HeapCircularBuffer;
use mx_word::NoMemory;
use std::alloc::Global;
use std::marker::Model;

/// How many bytes the console holds.
pub const KEPT_BYTES: usize = 4096;

/// The console: the last 4,096 bytes that were written to it, and how many were ever written.
#[derive(Drop)]
pub struct Console {
    kept: HeapCircularBuffer<u8>,
    count: u32,
}

impl Model for Console {
    ghost use Rattle.std.specs.Prelude.{◌≡◌};
    ghost use Rattle.mx_proc.specs.Console.{ConsoleState};

    ghost Value = { ConsoleState };

    ghost view = { λ c. record { kept = c.kept.items; count = c.count } };

    ghost invariant = { λ c. c.kept.capacity ≡ 4096 };
}

impl Console {
    /// An empty console. Takes memory for 4,096 bytes: answers `NoMemory` if there isn't enough.
    pub fn new(alloc: Global) -> Result<Console, NoMemory>
        ensures { IfOk result (λ console. console ≡ empty_console) }
    {
        let kept = HeapCircularBuffer::with_capacity(alloc, KEPT_BYTES)?;
        Ok(Console { kept, count: 0 })
    }

    /// A console with the same bytes and count. Takes memory: answers `NoMemory` if there isn't enough.
    pub fn copied(&self, alloc: Global) -> Result<Console, NoMemory>
        ensures { IfOk result (λ copy. copy ≡ self.now) }
    {
        let kept = copy_ring(alloc, &self.kept)?;
        Ok(Console {
            kept,
            count: self.count,
        })
    }

    /// Writes a byte. If it has 4,096 bytes already, the oldest of them goes.
    pub fn push(&mut self, byte: u8)
        requires { self.old.count + 1 < 2 ^ 32 }
        ensures { self.new ≡ record {
          kept = keep_last 4096 (self.old.kept ++ byte
              ∷ []);
          count = self.old.count + 1;
        } }
    {
        self.kept.push_back(byte);
        self.count += 1;
    }

    /// A byte of the console: index 0 is the oldest of those that are left. `None` if the index is too high.
    pub fn get(&self, index: usize) -> Option<u8>
        ensures { result ≡ slice_get self.now.kept index }
    {
        self.kept.get(index).copied()
    }

    /// How many bytes were ever written to the console.
    pub fn count(&self) -> u32
        ensures { result ≡ self.now.count }
    {
        self.count
    }
}
