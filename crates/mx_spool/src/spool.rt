//! The spool of a kernel.

ghost use Rattle.std.specs.Prelude.{◌≡◌, ◌≤◌, [], IfOk, drop, take, vec_capacity};
ghost use Rattle.mx_spool.specs.Spools.{IsBehind, IsSpoolOf};

use mx_machine::Kernel;
use mx_proc::KEPT_BYTES;
use mx_word::NoMemory;
use std::alloc::Global;
use std::marker::Model;

/// The bytes that a machine has written to its console since boot. Contracts see them, and for how many there is room.
#[derive(Drop)]
pub struct Spool {
    bytes: Vec<u8>,
}

impl Model for Spool {
    ghost use Rattle.std.specs.Prelude.{vec_capacity};
    ghost use Rattle.mx_spool.specs.Spools.{SpoolView};

    ghost Value = { SpoolView };

    ghost view = { λ s. record { bytes = s.bytes.items; room = vec_capacity s.bytes } };
}

/// The bytes from an index on, but `most` at most.
fn part(bytes: &[u8], from: usize, most: usize) -> &[u8]
    ensures { result.now ≡ take most (drop from bytes.now) }
{
    let rest = &bytes[from.min(bytes.len())..];
    &rest[..most.min(rest.len())]
}

impl Spool {
    /// An empty spool, with room for so many bytes. Takes all its memory: answers `NoMemory` if there isn't enough.
    pub fn with_room(alloc: Global, room: usize) -> Result<Spool, NoMemory>
        ensures { IfOk result (λ s. s ≡ record { bytes = []; room = room }) }
    {
        let bytes = Vec::with_capacity(alloc, room)?;
        Ok(Spool { bytes })
    }

    /// Keeps the byte that a kernel's last return wrote to the console, if it wrote one. Takes no memory.
    pub fn follow(&mut self, kernel: &Kernel)
        requires { IsBehind kernel.now self.old }
        ensures { IsSpoolOf kernel.now self.new }
    {
        kernel.facts();
        let console = &kernel.table().devices().console;
        let count = console.count() as usize;
        if count <= self.bytes.len() {
            return;
        }
        let Some(byte) = console.get(count.min(KEPT_BYTES) - 1) else {
            unreachable!()
        };
        self.bytes.push_reserved(byte);
    }

    /// Copies the bytes from an index on, as many as a list has room for. They take the place of what it had. Takes no
    /// memory.
    pub fn copy_from(&self, from: usize, to: &mut Vec<u8>)
        ensures bytes { to.new.items ≡ take (vec_capacity to.old) (drop from self.now.bytes) }
        ensures room { vec_capacity to.old ≤ vec_capacity to.new }
    {
        let piece = part(self.bytes.as_slice(), from, to.capacity());
        to.clear();
        match to.extend_from_slice(piece) {
            Ok(()) => {}
            Err(_) => unreachable!(),
        }
    }
}
