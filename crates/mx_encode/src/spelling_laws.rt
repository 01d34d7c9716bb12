//! Laws of encoding: the spelling that is chosen for an instruction.

ghost use Rattle.std.specs.Prelude.{◌≡◌, ℕ, true, List, IsTrue};
ghost use Rattle.mx_insn.specs.declared.insn.Insn.{Insn};
ghost use Rattle.mx_insn.specs.Spelling.{Spells};
ghost use Rattle.mx_encode.specs.declared.Wide.{Wide};
ghost use Rattle.mx_encode.specs.Forms.{has_form};
ghost use Rattle.mx_encode.specs.Chosen.{Chosen};
ghost use Rattle.mx_encode.specs.Given.{Fits};

/// Law: what is chosen for an instruction spells it.
pub fn chosen_spells()
    ensures { (i : Insn) (wide : Wide) (bytes : List ℕ) → Chosen i wide bytes → Spells bytes i }
{}

/// Law: at most one spelling is chosen.
pub fn one_chosen()
    ensures { (i : Insn) (wide : Wide) (a b : List ℕ) → Chosen i wide a → Chosen i wide b → a ≡ b }
{}

/// Law: what has a spelling has a form: it doesn't index by ESP, nor loop further than a signed
/// byte.
pub fn spelled_has_form()
    ensures { (i : Insn) (bytes : List ℕ) → Spells bytes i → IsTrue (has_form i) }
{}

/// Law: what has a form, and numbers as wide as their types, has a spelling that is chosen.
pub fn some_chosen()
    ensures { (i : Insn) (wide : Wide) → Fits i → has_form i ≡ true → (bytes : List ℕ)
        × Chosen i wide bytes }
{}
