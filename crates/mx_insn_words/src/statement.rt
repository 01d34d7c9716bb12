//! Prints instructions as statements of the assembler.

ghost use Rattle.std.specs.Prelude.{◌≡◌, ◌++◌, OnOk, string_bytes};
ghost use Rattle.mx_insn_words.specs.Statement.{prefix_of, prefix_text, statement_text};

use crate::mnemonic::word;
use crate::operand::push_operands;
use crate::start::other_word;
use crate::{Prefix, WordStart, written};
use mx_insn::{Insn, Repeat};
use std::alloc::AllocError;

/// The prefix before an instruction.
fn prefix(insn: &Insn) -> Option<Prefix>
    ensures { result ≡ prefix_of insn.now }
{
    match *insn {
        Insn::Transfer { repeated: true, .. } => Some(Prefix::Rep),
        Insn::Compare {
            repeat: Some(Repeat::Repe),
            ..
        } => Some(Prefix::Repe),
        Insn::Compare {
            repeat: Some(Repeat::Repne),
            ..
        } => Some(Prefix::Repne),
        _ => None,
    }
}

/// Appends a prefix and the space after it, if there is one.
fn push_prefix(out: &mut String, prefix: Option<Prefix>) -> Result<(), AllocError>
    ensures { OnOk result (string_bytes out.new ≡ string_bytes out.old ++ prefix_text prefix) }
{
    match prefix {
        None => Ok(()),
        Some(prefix) => {
            out.push_str(other_word(WordStart::Repeat(prefix)))?;
            out.push_str(" ")
        }
    }
}

/// Appends an instruction in the assembler's notation. `next` is the address of the next instruction: jumps
/// name the address that they go to. On an error `out` may have a part of it.
pub fn push_statement(out: &mut String, insn: &Insn, next: u32) -> Result<(), AllocError>
    ensures { OnOk result (string_bytes out.new ≡ string_bytes out.old
        ++ statement_text next insn.now) }
{
    push_prefix(out, prefix(insn))?;
    out.push_str(word(written::mnemonic(insn)))?;
    push_operands(out, written::of_insn(insn, next))
}
