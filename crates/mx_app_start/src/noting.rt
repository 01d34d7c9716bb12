//! What a reader's contract remembers of its answers. It takes no memory, and nothing is done for it
//! at run time.

ghost use Rattle.std.specs.Prelude.{◌≡◌, ◌++◌, ◌∷◌, [], List, Ok, Err, IfOk, IfErr};
ghost use Rattle.std.specs.IoError.{error_kind};
ghost use Rattle.mx_app_start.specs.Asked.{Asked, asked_in, noted_bytes};
ghost use Rattle.mx_app_start.specs.Written.{kept, unkept, written_in};

use crate::noted::Noted;
use std::io;

/// Bytes that a contract remembers.
pub(crate) type Bytes = Noted<u8>;

/// The names that a reader was asked for, and its answers.
pub(crate) type Answers = Noted<(Bytes, Result<Bytes, io::ErrorKind>)>;

/// The names and the bytes that a writer was given, and what came of them.
pub(crate) type Writes = Noted<((Bytes, Bytes), Result<(), io::ErrorKind>)>;

/// Remembers bytes.
pub(crate) fn bytes_noted(bytes: &[u8]) -> Bytes
    ensures { noted_bytes result ≡ bytes.now }
{
    let mut noted = Noted::new();
    for byte in bytes {
        noted = noted.and(byte);
    }
    noted
}

/// Remembers an answer after others.
pub(crate) fn with_answer(answers: &Answers, name: &str, answer: &io::Result<Vec<u8>>) -> Answers
    ensures given { IfOk answer.now (λ bytes. asked_in result.items ≡ asked_in answers.now.items
        ++ record { name = name.now; answer = Ok bytes.items } ∷ []) }
    ensures missed { IfErr answer.now (λ e. asked_in result.items ≡ asked_in answers.now.items
        ++ record { name = name.now; answer = Err (error_kind e) } ∷ []) }
{
    let name = bytes_noted(name.as_bytes());
    let answer = match answer {
        Ok(bytes) => Ok(bytes_noted(bytes.as_slice())),
        Err(error) => Err(error.kind()),
    };
    answers.and(&(name, answer))
}

/// Remembers what came of a write after others.
pub(crate) fn with_write(
    writes: &Writes,
    name: &str,
    bytes: &[u8],
    answer: &io::Result<()>,
) -> Writes
    ensures kept { IfOk answer.now (λ _.
        written_in result.items ≡ written_in writes.now.items ++ kept name.now bytes.now ∷ []) }
    ensures unkept { IfErr answer.now (λ e. written_in result.items
        ≡ written_in writes.now.items ++ unkept name.now bytes.now (error_kind e) ∷ []) }
{
    let file = (bytes_noted(name.as_bytes()), bytes_noted(bytes));
    let answer = match answer {
        Ok(()) => Ok(()),
        Err(error) => Err(error.kind()),
    };
    writes.and(&(file, answer))
}
