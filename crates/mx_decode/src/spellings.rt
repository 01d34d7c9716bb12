//! Laws of decoding: spellings, and the instruction at the front of bytes.

ghost use Rattle.std.specs.Prelude.{◌≡◌, ◌↔◌, ◌<◌, ◌≤◌, ◌++◌, ℕ, List, length, slice_index, take};
ghost use Rattle.mx_insn.specs.declared.insn.Insn.{Insn};
ghost use Rattle.mx_insn.specs.Spelling.{AreBytes, Spells, IsOpen};
ghost use Rattle.mx_decode.specs.Decode.{SpellsFirst, NoneFirst, front};

use crate::DecodeFault;

/// Law: no spelling begins another, and no bytes spell two instructions.
pub fn one_spelling()
    ensures { (a b x y : List ℕ) (i j : Insn) → Spells a i → Spells b j → a ++ x ≡ b ++ y → (a ≡ b)
        × (i ≡ j) }
{}

/// Law: a spelling is made of bytes, of at most 14, and so is a front of one.
pub fn few_bytes()
    ensures bytes { (bytes : List ℕ) (i : Insn) → Spells bytes i → AreBytes bytes }
    ensures spelled { (bytes : List ℕ) (i : Insn) → Spells bytes i → length bytes ≤ 14 }
    ensures open_too { (bytes : List ℕ) → IsOpen bytes → length bytes ≤ 14 }
{}

/// Law: what is at the front of a list of bytes.
pub fn front_is()
    ensures ok { (bytes : List ℕ) (i : Insn) (k : ℕ) → AreBytes bytes
        → (front bytes ≡ Ok (i, k)) ↔ SpellsFirst bytes k i }
    ensures not_in_table { (bytes : List ℕ) → AreBytes bytes
        → (front bytes ≡ Err DecodeFault.NotInTable) ↔ (NoneFirst bytes × ¬ IsOpen bytes) }
    ensures short { (bytes : List ℕ) → AreBytes bytes
        → (front bytes ≡ Err DecodeFault.Short) ↔ (NoneFirst bytes × IsOpen bytes) }
{}

/// Law: the first 15 bytes decide what is at the front, and what is there takes 1 to 14 of them.
pub fn front_of_fifteen()
    ensures same { (bytes : List ℕ) → ((i : ℕ) → slice_index (take 15 bytes) i < 256)
        → front (take 15 bytes) ≡ front bytes }
    ensures least { (bytes : List ℕ) (i : Insn) (k : ℕ) → AreBytes bytes → front bytes ≡ Ok (i, k)
        → 1 ≤ k }
    ensures most { (bytes : List ℕ) (i : Insn) (k : ℕ) → AreBytes bytes → front bytes ≡ Ok (i, k)
        → k ≤ 14 }
    ensures within { (bytes : List ℕ) (i : Insn) (k : ℕ) → AreBytes bytes → front bytes ≡ Ok (i, k)
        → k ≤ length bytes }
{}
