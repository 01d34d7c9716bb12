//! Laws of the assembler: programs and faults of a text.
//!
//! # The round trip
//!
//! What a text means is a relation between the text and a program (`IsAssembled`), which names no pass and no order of
//! work: there is one address for each label such that each statement's bytes are right. That this is one program, and
//! that a text without a program has a fault, are the laws here. They rest on those below: a text has one reading as
//! tokens (`mx_lex`), a word one meaning (`mx_insn_words`), a line one statement (`mx_asm_statement`), and an
//! instruction one encoding that is chosen (`mx_encode`). The chosen bytes spell their instruction, and no bytes spell
//! two (`mx_decode`). So what is assembled and then listed is the same program again (`mx_dis`).

ghost use Rattle.std.specs.Prelude.{◌≡◌, ℕ, List};
ghost use Rattle.mx_aout.specs.declared.program.Program.{Program};
ghost use Rattle.mx_asm_statement.specs.declared.line.Line.{Line};
ghost use Rattle.mx_asm.specs.declared.fault.Fault.{Fault};
ghost use Rattle.mx_asm.specs.Text.{AreLinesAccepted, IsAssembled, HasTextFault};

use mx_asm_statement::{line_or_fault, one_line};
use mx_encode::one_chosen;
use mx_lex::one_fault;

/// Law: lines without a problem have their program. No text has both a program and a fault, and none has
/// neither.
pub fn program_or_fault()
    ensures accepted { (t : List ℕ) (ls : List Line) → AreLinesAccepted t ls → (p : Program)
        × IsAssembled t p }
    ensures not_both { (t : List ℕ) (p : Program) (f : Fault) → IsAssembled t p → HasTextFault t f
        → ⊥ }
    ensures not_neither { (t : List ℕ) → ((p : Program) → IsAssembled t p → ⊥)
        → ((f : Fault) → HasTextFault t f → ⊥) → ⊥ }
{
    one_line();
    line_or_fault();
}

/// Law: at most one fault of an assembler text is reported.
pub fn fault_is_one()
    ensures { (t : List ℕ) (f g : Fault) → HasTextFault t f → HasTextFault t g → f ≡ g }
{
    one_line();
    line_or_fault();
    one_fault();
}

/// Law: an assembler text has at most one program.
pub fn program_is_one()
    ensures { (t : List ℕ) (p q : Program) → IsAssembled t p → IsAssembled t q → p ≡ q }
{
    one_line();
    one_chosen();
}
