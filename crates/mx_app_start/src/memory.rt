//! Files that are written to memory.

ghost use Rattle.std.specs.Prelude.{◌≡◌, ◌++◌, ◌∷◌, [], IfErr, IfOk, None, OnOk, Some};
ghost use Rattle.std.specs.IoError.{error_kind};
ghost use Rattle.mx_app_start.specs.Written.{IsUnkept, files_of, kept, unkept, written_in};

use crate::noted::Noted;
use crate::noting::{Writes, with_write};
use crate::writer::FileWriter;
use std::alloc::{AllocError, Global};
use std::io;

/// A file that was written.
#[derive(Drop)]
pub struct KeptFile {
    pub name: String,
    pub bytes: Vec<u8>,
}

/// Holds the files that are written in a list, or refuses each.
#[derive(Drop)]
pub struct MemoryWriter {
    files: Vec<KeptFile>,
    refusal: Option<io::ErrorKind>,
    writes: Writes,
}

impl MemoryWriter {
    /// What holds the files that are written, and has none yet.
    pub fn new(alloc: Global) -> MemoryWriter
        ensures files { result.files.items ≡ [] }
        ensures refusal { result.refusal ≡ None }
    {
        MemoryWriter {
            files: Vec::new(alloc),
            refusal: None,
            writes: Noted::new(),
        }
    }

    /// What refuses each file with an error of this kind.
    pub fn refusing(alloc: Global, kind: io::ErrorKind) -> MemoryWriter
        ensures files { result.files.items ≡ [] }
        ensures refusal { result.refusal ≡ Some kind }
    {
        MemoryWriter {
            files: Vec::new(alloc),
            refusal: Some(kind),
            writes: Noted::new(),
        }
    }

    /// The files that were written to memory, in order.
    pub fn files(&self) -> &[KeptFile]
        ensures { result.now ≡ self.now.files.items }
    {
        self.files.as_slice()
    }

    /// Adds a file to the list. A lack of memory changes nothing.
    fn keep(&mut self, alloc: Global, name: &str, bytes: &[u8]) -> Result<(), AllocError>
        ensures files { OnOk result (files_of self.new.files.items
            ≡ files_of self.old.files.items ++ (name.now, bytes.now) ∷ []) }
        ensures same { IfErr result (λ _. self.new.files.items ≡ self.old.files.items) }
        ensures others { (self.new.refusal ≡ self.old.refusal)
            × (self.new.writes ≡ self.old.writes) }
    {
        let file = KeptFile {
            name: String::from_str(alloc, name)?,
            bytes: bytes.to_vec(alloc)?,
        };
        self.files.push(file)?;
        Ok(())
    }
}

impl FileWriter for MemoryWriter {
    ghost written = { λ writer. written_in writer.writes.items };

    /// Adds the file to the list, or refuses it; what is refused changes no file.
    fn write(&mut self, alloc: Global, name: &str, bytes: &[u8]) -> io::Result<()>
        ensures kept { IfOk result (λ _. written_in self.new.writes.items
            ≡ written_in self.old.writes.items ++ kept name.now bytes.now ∷ []) }
        ensures unkept { IfErr result (λ e. written_in self.new.writes.items
            ≡ written_in self.old.writes.items ++ unkept name.now bytes.now (error_kind e) ∷ []) }
        ensures files { OnOk result ((self.old.refusal ≡ None) × (files_of self.new.files.items
            ≡ files_of self.old.files.items ++ (name.now, bytes.now) ∷ [])) }
        ensures refused { IfErr result (λ e. IsUnkept self.old.refusal (error_kind e)
            × (self.new.files.items ≡ self.old.files.items)) }
        ensures refusal { self.new.refusal ≡ self.old.refusal }
    {
        let answer = match self.refusal {
            Some(kind) => Err(io::Error::from(kind)),
            None => match self.keep(alloc, name, bytes) {
                Ok(()) => Ok(()),
                Err(_) => Err(io::Error::from(io::ErrorKind::OutOfMemory)),
            },
        };
        self.writes = with_write(&self.writes, name, bytes, &answer);
        answer
    }
}
