//! `mx as`: from a text to the bytes of its program's file.

ghost use Rattle.std.specs.Prelude.{IfErr, IfOk};
ghost use Rattle.mx_app_program.specs.Assembling.{IsAssembledFile, TellsText};

use mx_aout::write;
use mx_app_failure::{About, Failure, FileProblem};
use mx_asm::assemble;
use std::alloc::Global;
use std::str;

/// Assembles a text to the bytes of its a.out file: what `mx as` writes. Answers the bytes of the
/// program's file, in the one short form.
pub fn assemble_file(alloc: Global, source: Vec<u8>) -> Result<Vec<u8>, Failure>
    ensures file { IfOk result (λ bytes. IsAssembledFile source.items bytes.items) }
    ensures fault { IfErr result (TellsText source.items) }
{
    let Ok(text) = str::from_utf8(source.as_slice()) else {
        let problem = FileProblem::of_bytes(source.as_slice());
        return Err(Failure::of(Some(problem), About::Source));
    };
    match assemble(alloc, text) {
        Ok(program) => Ok(write(alloc, &program)?),
        Err(error) => Err(Failure::faulty(error, source)),
    }
}
