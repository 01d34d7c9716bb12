//! What reads files.

ghost use Rattle.std.specs.Prelude.{◌≡◌, ◌++◌, ◌∷◌, [], List, Ok, Err, IfOk, IfErr};
ghost use Rattle.std.specs.IoError.{error_kind};
ghost use Rattle.mx_app_start.specs.Asked.{Asked};

use std::alloc::Global;
use std::io;

/// Reads files by their names.
pub trait Reader {
    /// What it was asked for, each name with its answer, in order.
    ghost asked: { Self → List Asked };

    /// The bytes of the file that has a name. Out of memory is the error `OutOfMemory`.
    fn read(&mut self, alloc: Global, name: &str) -> io::Result<Vec<u8>>
        ensures given { IfOk result (λ bytes. asked self.new ≡ asked self.old
            ++ record { name = name.now; answer = Ok bytes.items } ∷ []) }
        ensures missed { IfErr result (λ e. asked self.new ≡ asked self.old
            ++ record { name = name.now; answer = Err (error_kind e) } ∷ []) };

    /// The bytes of the program's file that has a name; of a file that is longer than its header says, the
    /// first of them may be all. Out of memory is the error `OutOfMemory`.
    fn read_program(&mut self, alloc: Global, name: &str) -> io::Result<Vec<u8>>
        ensures given { IfOk result (λ bytes. asked self.new ≡ asked self.old
            ++ record { name = name.now; answer = Ok bytes.items } ∷ []) }
        ensures missed { IfErr result (λ e. asked self.new ≡ asked self.old
            ++ record { name = name.now; answer = Err (error_kind e) } ∷ []) };

    /// The first bytes of the regular file that has a name, by which what it holds is known. A name that no regular
    /// file has, as a new one or that of a pipe, has none. Out of memory is the error `OutOfMemory`.
    fn read_front(&mut self, alloc: Global, name: &str) -> io::Result<Vec<u8>>
        ensures given { IfOk result (λ bytes. asked self.new ≡ asked self.old
            ++ record { name = name.now; answer = Ok bytes.items } ∷ []) }
        ensures missed { IfErr result (λ e. asked self.new ≡ asked self.old
            ++ record { name = name.now; answer = Err (error_kind e) } ∷ []) };
}
