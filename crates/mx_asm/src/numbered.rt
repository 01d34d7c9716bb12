//! The lines of a text with a label or a statement, each with its number.

ghost use Rattle.std.specs.Prelude.{◌≡◌};
ghost use Rattle.mx_asm.specs.Kept.{says_something};

use mx_asm_statement::{Line, Statement};

/// A line, and its number in the text. The first has the number 1.
#[derive(Drop)]
pub struct NumberedLine {
    pub number: usize,
    pub line: Line,
}

/// Whether a line has a label or a statement.
pub fn says_something(line: &Line) -> bool
    ensures { result ≡ says_something line.now }
{
    match (line.label, &line.statement) {
        (None, None | Some(Statement::Nothing)) => false,
        _ => true,
    }
}
