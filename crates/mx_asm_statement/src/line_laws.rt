//! Laws of lines of an assembler text.

ghost use Rattle.std.specs.Prelude.{◌≡◌, ℕ, List};
ghost use Rattle.mx_lex.specs.declared.kinds.LexError.{LexError};
ghost use Rattle.mx_lex.specs.Tokens.{IsLexFault};
ghost use Rattle.mx_asm_statement.specs.declared.line.Line.{Line};
ghost use Rattle.mx_asm_statement.specs.Lines.{IsLine};

use mx_insn_words::{one_register_or_size, one_start};
use mx_lex::{one_reading, reading_or_fault};

/// Law: a line of an assembler text has at most one meaning.
pub fn one_line()
    ensures { (t : List ℕ) (a b : Line) → IsLine t a → IsLine t b → a ≡ b }
{
    one_start();
    one_register_or_size();
    one_reading();
}

/// Law: a line of a text has a meaning or a fault, and not both: none has neither.
pub fn line_or_fault()
    ensures not_both { (t : List ℕ) (l : Line) (e : LexError) → IsLine t l → IsLexFault t e → ⊥ }
    ensures not_neither { (t : List ℕ) → ((l : Line) → IsLine t l → ⊥)
        → ((e : LexError) → IsLexFault t e → ⊥) → ⊥ }
{
    reading_or_fault();
}
