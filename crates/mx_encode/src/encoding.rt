//! One instruction, encoded: its form, then its bytes.

ghost use Rattle.std.specs.Prelude.{◌≡◌, ◌↔◌, ℕ, List, IsOk, IsTrue, IfOk, IfErr};
ghost use Rattle.mx_insn.specs.Spelling.{Spells};
ghost use Rattle.mx_encode.specs.Forms.{has_form};
ghost use Rattle.mx_encode.specs.Chosen.{Chosen};

use crate::choice::form_of;
use crate::places::has_place;
use crate::writing::bytes_of_encoding;
use crate::{NoForm, Wide};
use mx_insn::{ArrayVec, Insn};

/// The bytes that are chosen for an instruction. Takes no memory.
pub fn encode(insn: &Insn, wide: Wide) -> Result<ArrayVec<u8, 15>, NoForm>
    ensures chosen { IfOk result (λ bytes. Chosen insn.now wide bytes.items) }
    ensures form { IsOk result ↔ IsTrue (has_form insn.now) }
    ensures none { IfErr result (λ _. (bytes : List ℕ) → Spells bytes insn.now → ⊥) }
{
    let form = form_of(*insn, wide)?;
    if !has_place(form.rm) {
        return Err(NoForm);
    }
    Ok(bytes_of_encoding(form, wide.displacement_form()))
}
