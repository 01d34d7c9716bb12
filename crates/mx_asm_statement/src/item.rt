//! Items: the tokens of an operand, with each word as a register, a size or a name.

ghost use Rattle.std.specs.Prelude.{◌≡◌};
ghost use Rattle.mx_asm_statement.specs.Items.{is_long};

use mx_lex::Punctuation;
use mx_text::Name;
use mx_word::{Register, Size};

/// A token, and what it is as a part of an operand.
#[derive(Clone, Copy)]
pub enum Item {
    Punctuation(Punctuation),
    Register(Size, Register),
    /// `byte`, `word`, `dword`.
    Size(Size),
    Name(Name),
    Number(u32),
    /// A word that is too long for a name.
    Long,
    /// A text, or a word that begins with a dot.
    Other,
}

/// Whether an operand's item is a name that is too long.
pub fn is_long(item: Item) -> bool
    ensures { result ≡ is_long item }
{
    match item {
        Item::Long => true,
        _ => false,
    }
}
