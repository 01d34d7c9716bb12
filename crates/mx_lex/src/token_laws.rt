//! Laws of the tokens of an assembler text.

ghost use Rattle.std.specs.Prelude.{◌≡◌, ℕ, List};
ghost use Rattle.mx_lex.specs.declared.kinds.LexError.{LexError};
ghost use Rattle.mx_lex.specs.declared.kinds.Token.{Token};
ghost use Rattle.mx_lex.specs.Tokens.{IsReadAs, IsLexFault};

/// Law: a text is parted into tokens in at most one way.
pub fn one_reading()
    ensures { (t : List ℕ) (ks js : List Token) → IsReadAs t ks → IsReadAs t js → ks ≡ js }
{}

/// Law: a text has a reading or a fault, and not both: none has neither.
pub fn reading_or_fault()
    ensures not_both { (t : List ℕ) (ks : List Token) (e : LexError) → IsReadAs t ks
        → IsLexFault t e → ⊥ }
    ensures not_neither { (t : List ℕ) → ((ks : List Token) → IsReadAs t ks → ⊥)
        → ((e : LexError) → IsLexFault t e → ⊥) → ⊥ }
{}

/// Law: a text has at most one first fault of its tokens.
pub fn one_fault()
    ensures { (t : List ℕ) (e f : LexError) → IsLexFault t e → IsLexFault t f → e ≡ f }
{}
