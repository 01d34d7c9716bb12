//! What writes files.

ghost use Rattle.std.specs.Prelude.{◌≡◌, ◌++◌, ◌∷◌, [], List, IfOk, IfErr};
ghost use Rattle.std.specs.IoError.{error_kind};
ghost use Rattle.mx_app_start.specs.Written.{Written, kept, unkept};

use std::alloc::Global;
use std::io;

/// Writes files by their names.
pub trait FileWriter {
    /// What it was given to write, each file with what came of it, in order.
    ghost written: { Self → List Written };

    /// Writes bytes to the file that has a name, in place of what it had. Out of memory is the error
    /// `OutOfMemory`. After an error the file may have a part of the bytes.
    fn write(&mut self, alloc: Global, name: &str, bytes: &[u8]) -> io::Result<()>
        ensures kept { IfOk result (λ _.
            written self.new ≡ written self.old ++ kept name.now bytes.now ∷ []) }
        ensures unkept { IfErr result (λ e.
            written self.new ≡ written self.old ++ unkept name.now bytes.now (error_kind e) ∷ []) };
}
