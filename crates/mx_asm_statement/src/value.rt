//! Values in operands and data: numbers, and labels' addresses with a number more or less.

use mx_text::Name;

/// `n`, `-n`, `name`, `name+n` or `name-n`.
#[derive(Clone, Copy, PartialEq, Eq)]
pub struct Value {
    pub name: Option<Name>,
    pub minus: bool,
    pub number: u32,
}

impl Value {
    ghost use Rattle.std.specs.Prelude.{◌≡◌};
    ghost use Rattle.mx_word.specs.Word.{IsSmall};
    ghost use Rattle.mx_asm_statement.specs.Values.{whole_of};

    /// The number of a written value with its sign, whatever the name.
    pub fn whole(self) -> i64
        ensures value { result ≡ whole_of self }
        ensures near { IsSmall result }
    {
        if self.minus {
            -i64::from(self.number)
        } else {
            i64::from(self.number)
        }
    }
}
