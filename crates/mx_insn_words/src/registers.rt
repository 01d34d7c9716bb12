//! The words of registers, and of sizes.

ghost use Rattle.std.specs.Prelude.{◌≡◌, ◌≢◌, MatchOption};
ghost use Rattle.mx_word.specs.declared.size.Size.{Size};
ghost use Rattle.mx_word.specs.declared.names.Register.{Register};
ghost use Rattle.mx_insn_words.specs.Registers.{register_word, size_word};

use crate::sorted_words::{Named, find_word};
use mx_word::{Register, Size};

/// The registers, with their sizes, byte for byte in order.
macro_rules! registers {
    ($use:ident $($sized:ident)?) => {
        $use! {
            $($sized)?
            "ah" => (Size::Byte, Register::Esp),
            "al" => (Size::Byte, Register::Eax),
            "ax" => (Size::Word, Register::Eax),
            "bh" => (Size::Byte, Register::Edi),
            "bl" => (Size::Byte, Register::Ebx),
            "bp" => (Size::Word, Register::Ebp),
            "bx" => (Size::Word, Register::Ebx),
            "ch" => (Size::Byte, Register::Ebp),
            "cl" => (Size::Byte, Register::Ecx),
            "cx" => (Size::Word, Register::Ecx),
            "dh" => (Size::Byte, Register::Esi),
            "di" => (Size::Word, Register::Edi),
            "dl" => (Size::Byte, Register::Edx),
            "dx" => (Size::Word, Register::Edx),
            "eax" => (Size::Dword, Register::Eax),
            "ebp" => (Size::Dword, Register::Ebp),
            "ebx" => (Size::Dword, Register::Ebx),
            "ecx" => (Size::Dword, Register::Ecx),
            "edi" => (Size::Dword, Register::Edi),
            "edx" => (Size::Dword, Register::Edx),
            "esi" => (Size::Dword, Register::Esi),
            "esp" => (Size::Dword, Register::Esp),
            "si" => (Size::Word, Register::Esi),
            "sp" => (Size::Word, Register::Esp),
        }
    };
}

/// The words that name a size, byte for byte in order.
macro_rules! sizes {
    ($use:ident $($size:ident)?) => {
        $use! {
            $($size)?
            "byte" => (Size::Byte),
            "dword" => (Size::Dword),
            "word" => (Size::Word),
        }
    };
}

macro_rules! table {
    ($($word:literal => $value:tt,)*) => {
        [$(Named {
            word: $word,
            value: $value,
        },)*]
    };
}

macro_rules! word_in {
    ($named:ident $($word:literal => $value:tt,)*) => {
        match $named {
            $($value => $word,)*
        }
    };
}

static REGISTERS: [Named<(Size, Register)>; 24] = registers!(table);

static SIZES: [Named<Size>; 3] = sizes!(table);

/// The word of a register of a size.
pub fn register_word(size: Size, register: Register) -> &'static str
    ensures { result.now ≡ register_word size register }
{
    let sized = (size, register);
    registers!(word_in sized)
}

/// The word that names a size.
pub fn size_word(size: Size) -> &'static str
    ensures { result.now ≡ size_word size }
{
    sizes!(word_in size)
}

/// The register that a word is, with its size.
pub fn register_named(word: &[u8]) -> Option<(Size, Register)>
    ensures { MatchOption result ((s : Size) (r : Register) → word.now ≢ register_word s r) (λ p.
        word.now ≡ register_word p.0 p.1) }
{
    find_word(&REGISTERS, word)
}

/// The size that a word names.
pub fn size_named(word: &[u8]) -> Option<Size>
    ensures { MatchOption result ((s : Size) → word.now ≢ size_word s) (λ s.
        word.now ≡ size_word s) }
{
    find_word(&SIZES, word)
}
