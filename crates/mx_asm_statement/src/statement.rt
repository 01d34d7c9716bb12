//! Statements of an assembler text, and its sections.

ghost use Rattle.std.specs.Prelude.{◌≡◌};

use crate::branch::Branch;
use crate::instruction::Instruction;
use crate::value::Value;
use mx_text::Name;
use mx_word::{Bytes, Size};
use std::marker::Model;

/// The section of a program's bytes.
#[derive(Clone, Copy, PartialEq, Eq)]
pub enum Section {
    Text,
    Data,
    Bss,
}

/// A list of values, as a line of data gives them.
#[derive(Drop)]
pub struct DataValues {
    values: Vec<Value>,
}

impl Model for DataValues {
    ghost use Rattle.std.specs.Prelude.{List};
    ghost use Rattle.mx_asm_statement.specs.declared.value.Value.{Value as NamedValue};

    ghost Value = { List NamedValue };

    ghost view = { λ list. list.values.items };
}

impl DataValues {
    /// The values of a data statement, from a vector. Takes no memory.
    pub fn from_vec(values: Vec<Value>) -> DataValues
        ensures { result ≡ values.items }
    {
        DataValues { values }
    }

    /// The values of a data statement, in order.
    pub fn as_slice(&self) -> &[Value]
        ensures { result.now ≡ self.now }
    {
        self.values.as_slice()
    }
}

/// What a line has after its label.
#[derive(Drop)]
pub enum Statement {
    Nothing,
    /// `.text`, `.data`, `.bss`: the section of what follows.
    Enter(Section),
    /// `.data1`, `.data2`, `.data4`.
    Data(Size, DataValues),
    /// `.ascii`: the bytes of a quoted text.
    Ascii(Bytes),
    /// `.space`: a number of zeros.
    Space(u32),
    /// `.sep`: text and data have segments of their own.
    Separate,
    /// `.entry`: the label at which the program begins.
    Entry(Name),
    /// `.stack`: the bytes of the stack.
    Stack(u32),
    Instruction(Instruction),
    /// To a target.
    Branch(Branch, Value),
}
