//! The first pass of the assembler: the lines of a text are read and laid out, up to the first that is
//! refused.

ghost use Rattle.std.specs.Prelude.{◌≡◌, ◌+◌, ◌<◌, ◌≤◌, ◌^◌, List, length, OnOk, IfOk, IfErr};
ghost use Rattle.mx_text.specs.Lines.{lines};
ghost use Rattle.mx_asm_statement.specs.declared.line.Line.{Line};
ghost use Rattle.mx_asm.specs.Kept.{AreKept};
ghost use Rattle.mx_asm.specs.Layout.{SizesWithin, GrowsWithin, no_lines_above, unseen, seen_of, laid_by};
ghost use Rattle.mx_asm.specs.Faults.{problem_of};
ghost use Rattle.mx_asm.specs.declared.fault.AsmError.TheVariants.{At};
ghost use Rattle.mx_asm.specs.View.{above_of};
ghost use Rattle.mx_asm.specs.Text.{AreLinesTaken, Accepts, TakesLine, IsAssembled, TellsTextFault, TellsFirstLine, TellsRefusal, TellsLineWrong, TellsLexical};

use crate::hashing::HashedByText;
use crate::numbered::{NumberedLine, says_something};
use crate::program::program_of;
use crate::{AsmError, Fault, Layout, Problem, problem_of};
use mx_aout::Program;
use mx_asm_statement::{Line, Reason, read_line};
use mx_lex::LexError;
use mx_text::next_line;
use std::alloc::Global;

/// The error of a line whose bytes are no tokens.
fn lexical_error(error: LexError, line: usize) -> AsmError
    ensures { TellsLexical error line result }
{
    let problem = match error {
        LexError::BadByte(_) => Problem::BadByte,
        LexError::BadNumber(_) => Problem::BadNumber,
        LexError::OpenText(_) => Problem::OpenText,
        LexError::NoMemory => return AsmError::NoMemory,
    };
    AsmError::At(Fault { problem, line })
}

/// The lines of a text with a label or a statement, how many others there are, and the layout of all.
#[derive(Drop)]
struct Read {
    layout: Layout,
    lines: Vec<NumberedLine>,
    blanks: usize,
}

/// The error of a line that is refused.
fn refusal_error(reason: Reason, line: usize) -> AsmError
    ensures { result ≡ At (record { problem = problem_of reason; line = line }) }
{
    AsmError::At(Fault {
        problem: problem_of(reason),
        line,
    })
}

impl Read {
    /// How many lines were read.
    fn count(&self) -> usize
        requires { length self.now.lines.items + self.now.blanks < 2 ^ 64 }
        ensures count { result ≡ length self.now.lines.items + self.now.blanks }
        ensures few { length self.now.lines.items ≤ 2 ^ 62 }
    {
        self.lines.as_slice().len() + self.blanks
    }

    /// Adds a line after those above it, or answers why it is refused. Only a line that isn't refused takes
    /// memory, and one without a label and a statement isn't stored.
    #[tactic(auto, using(crate::proofs::Kept::one_kept, crate::proofs::Kept::none_kept))]
    fn accept(&mut self, line: Line, number: usize) -> Result<(), AsmError>
        requires room { SizesWithin self.old.layout.sizes (2 ^ 126) }
        requires few { self.old.blanks + 1 < 2 ^ 64 }
        ensures accepted { OnOk result
            (Accepts (above_of self.old.layout) (above_of self.new.layout) number line
            self.old.lines.items self.new.lines.items) }
        ensures counted { OnOk result (length self.new.lines.items + self.new.blanks
            ≡ length self.old.lines.items + self.old.blanks + 1) }
        ensures small { OnOk result (GrowsWithin self.old.layout.sizes self.new.layout.sizes
            (2 ^ 64)) }
        ensures refused { IfErr result
            (TellsRefusal (seen_of (above_of self.old.layout)) number line) }
    {
        match self.layout.reason_of(&line) {
            Some(reason) => return Err(refusal_error(reason, number)),
            None => {}
        }
        self.layout.go_after(&line)?;
        if says_something(&line) {
            self.lines.push(NumberedLine { number, line })?;
        } else {
            self.blanks += 1;
        }
        Ok(())
    }

    /// Reads a line and adds it, or answers what is wrong with it.
    fn take(&mut self, alloc: Global, text: &[u8], number: usize) -> Result<(), AsmError>
        requires room { SizesWithin self.old.layout.sizes (2 ^ 126) }
        requires few { self.old.blanks + 1 < 2 ^ 64 }
        ensures taken { OnOk result
            (TakesLine (above_of self.old.layout) (above_of self.new.layout) number text.now
            self.old.lines.items self.new.lines.items) }
        ensures counted { OnOk result (length self.new.lines.items + self.new.blanks
            ≡ length self.old.lines.items + self.old.blanks + 1) }
        ensures small { OnOk result (GrowsWithin self.old.layout.sizes self.new.layout.sizes
            (2 ^ 64)) }
        ensures wrong { IfErr result
            (TellsLineWrong (seen_of (above_of self.old.layout)) number text.now) }
    {
        match read_line(alloc, text) {
            Ok(line) => self.accept(line, number),
            Err(error) => Err(lexical_error(error, number)),
        }
    }
}

/// The lines of a text, or the first with which something is wrong.
fn read_lines(alloc: Global, text: &[u8]) -> Result<Read, AsmError>
    ensures taken { IfOk result (λ read. (ls : List Line) × AreLinesTaken unseen (lines text.now) ls
        × AreKept ls read.lines.items (length read.lines.items + read.blanks)
        × (above_of read.layout ≡ laid_by no_lines_above ls)) }
    ensures few { IfOk result (λ read. length read.lines.items + read.blanks < 2 ^ 64) }
    ensures wrong { IfErr result (TellsFirstLine text.now) }
{
    let mut read = Read {
        layout: Layout::new(alloc, HashedByText::new(text)),
        lines: Vec::new(alloc),
        blanks: 0,
    };
    let mut rest = text;
    let mut number = 1;
    // Line by line: so a refused line is reported before a bad byte further down.
    while let Some((line, more)) = next_line(rest) {
        read.take(alloc, line, number)?;
        number = read.count() + 1;
        rest = more;
    }
    Ok(read)
}

/// The program of an assembler text, or its first fault. Takes memory only for its result and for lines with
/// a label or a statement.
pub fn assemble(alloc: Global, text: &str) -> Result<Program, AsmError>
    ensures program { IfOk result (IsAssembled text.now) }
    ensures fault { IfErr result (TellsTextFault text.now) }
{
    // The first pass has all lines and all labels; `program_of` is the second pass.
    let read = read_lines(alloc, text.as_bytes())?;
    program_of(alloc, &read.layout, read.lines.as_slice(), read.count())
}
