//! Laws of the parts of a text.

ghost use Rattle.std.specs.Prelude.{◌≡◌, ◌++◌, ℕ, List, length, drop};
ghost use Rattle.mx_insn.specs.declared.insn.Insn.{Insn};
ghost use Rattle.mx_insn.specs.Spelling.{AreBytes, Spells};
ghost use Rattle.mx_decode.specs.Decode.{SpellsFirst};
ghost use Rattle.mx_dis.specs.declared.part.Part.{Part};
ghost use Rattle.mx_dis.specs.Parting.{IsParting, BeginsWith, total_size};

/// Law: bytes are parted into the lines of a listing in one way.
pub fn one_parting()
    ensures some { (t : List ℕ) → AreBytes t → (parts : List Part) × IsParting t parts }
    ensures one { (t : List ℕ) (a b : List Part) → IsParting t a → IsParting t b → a ≡ b }
{}

/// Law: if a text begins with an instruction, so do its parts. What follows some of the parts is the parts of
/// the rest.
pub fn parted_there()
    ensures first { (t : List ℕ) (k : ℕ) (i : Insn) (parts : List Part) → SpellsFirst t k i
        → IsParting t parts → BeginsWith i k (drop k t) parts }
    ensures spelled { (b rest : List ℕ) (i : Insn) (parts : List Part) → Spells b i
        → IsParting (b ++ rest) parts → BeginsWith i (length b) rest parts }
    ensures later { (t : List ℕ) (front back : List Part) → IsParting t (front ++ back)
        → IsParting (drop (total_size front) t) back }
{}
