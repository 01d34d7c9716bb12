//! Laws of the table of words.

ghost use Rattle.std.specs.Prelude.{◌≡◌, ◌≢◌};
ghost use Rattle.mx_word.specs.declared.size.Size.{Size};
ghost use Rattle.mx_word.specs.declared.names.Register.{Register};
ghost use Rattle.mx_insn_words.specs.declared.start.WordStart.{WordStart};
ghost use Rattle.mx_insn_words.specs.Words.{start_word};
ghost use Rattle.mx_insn_words.specs.Registers.{register_word, size_word};

/// Law: a word has at most one meaning at the beginning of an assembler statement.
pub fn one_start()
    ensures { (a b : WordStart) → start_word a ≡ start_word b → a ≡ b }
{}

/// Law: a word is one register at most, or a size word, and not both.
#[tactic(auto, using(crate::proofs::Inverse::one_register, crate::proofs::Inverse::one_size, crate::proofs::Inverse::register_or_size))]
pub fn one_register_or_size()
    ensures register { (s z : Size) (r q : Register) → register_word s r ≡ register_word z q
        → (s ≡ z) × (r ≡ q) }
    ensures size { (s z : Size) → size_word s ≡ size_word z → s ≡ z }
    ensures not_both { (s z : Size) (r : Register) → register_word s r ≢ size_word z }
{}
