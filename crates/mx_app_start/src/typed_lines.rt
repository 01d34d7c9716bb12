//! What gives the lines that are typed.

ghost use Rattle.std.specs.Prelude.{◌≡◌, ◌++◌, ◌∷◌, [], ℕ, List, Option, Some, None, IfOk, OnErr, true, false};
ghost use Rattle.mx_app_start.specs.Asked.{byte_line, line_in, line_or_end, lines_in};

use crate::noted::Noted;
use crate::noting::{Bytes, bytes_noted};
use std::io;
use std::io::{BufRead, Read};

/// How many bytes of a line are given. A session refuses a line that is so long.
const GIVEN: usize = 4097;

/// Gives the lines that are typed.
pub trait LineReader {
    /// Its answers, in order: a line, or `None` at the end of the input. A byte that is asked for alone is as a line of
    /// that byte.
    ghost given: { Self → List (Option (List ℕ)) };

    /// Puts the next line, without its line feed, in place of what `line` had. Answers false at the end of
    /// the input; a terminal may give lines after it. Out of memory is the error `OutOfMemory`.
    fn next(&mut self, line: &mut Vec<u8>) -> io::Result<bool>
        ensures more { IfOk result (λ more. more ≡ true
            → given self.new ≡ given self.old ++ Some line.new.items ∷ []) }
        ensures end { IfOk result (λ more. more ≡ false
            → given self.new ≡ given self.old ++ None ∷ []) }
        ensures failed { OnErr result (given self.new ≡ given self.old) };

    /// The next byte, as soon as it is there; `None` at the end of the input. Out of memory is the error `OutOfMemory`.
    fn next_byte(&mut self) -> io::Result<Option<u8>>
        ensures given { IfOk result (λ byte. given self.new ≡ given self.old ++ byte_line byte ∷ []) }
        ensures failed { OnErr result (given self.new ≡ given self.old) };
}

/// Gives the lines of an input. The last one counts without a line feed too. Of a line of more than 4,096
/// bytes it gives the first 4,097.
#[derive(Drop)]
pub struct InputLines<B: Drop> {
    input: B,
    lines: Noted<Option<Bytes>>,
}

impl<B: Drop> InputLines<B> {
    /// What gives an input's lines, and has given none yet.
    pub fn new(input: B) -> InputLines<B>
        ensures { result.lines.items ≡ [] }
    {
        InputLines {
            input,
            lines: Noted::new(),
        }
    }
}

/// Remembers an answer: a line, or the end of the input.
fn line_noted(more: bool, line: &[u8]) -> Option<Bytes>
    ensures { line_in result ≡ line_or_end more line.now }
{
    if more { Some(bytes_noted(line)) } else { None }
}

/// Reads a line, or its first bytes if it is too long. Answers false at the end of the input.
fn read_line<B: BufRead>(input: &mut B, line: &mut Vec<u8>) -> io::Result<bool> {
    let count = input.by_ref().take(GIVEN as u64).read_until(b'\n', line)?;
    if line.last() == Some(&b'\n') {
        line.pop();
    } else if count >= GIVEN {
        // The rest of a line that is too long isn't kept.
        input.skip_until(b'\n')?;
    }
    Ok(count > 0)
}

/// Reads a byte, if the input isn't at its end.
fn read_byte<B: BufRead>(input: &mut B) -> io::Result<Option<u8>> {
    let mut bytes = [0; 1];
    let count = input.read(&mut bytes)?;
    if count > 0 {
        Ok(Some(bytes[0]))
    } else {
        Ok(None)
    }
}

/// Remembers an answer: a byte, or the end of the input.
fn byte_noted(byte: Option<u8>) -> Option<Bytes>
    ensures { line_in result ≡ byte_line byte }
{
    match byte {
        Some(byte) => Some(bytes_noted(&[byte])),
        None => None,
    }
}

impl<B: BufRead + Drop> LineReader for InputLines<B> {
    ghost given = { λ lines. lines_in lines.lines.items };

    fn next(&mut self, line: &mut Vec<u8>) -> io::Result<bool> {
        line.clear();
        let more = read_line(&mut self.input, line)?;
        self.lines = self.lines.and(&line_noted(more, line.as_slice()));
        Ok(more)
    }

    fn next_byte(&mut self) -> io::Result<Option<u8>> {
        let byte = read_byte(&mut self.input)?;
        self.lines = self.lines.and(&byte_noted(byte));
        Ok(byte)
    }
}
