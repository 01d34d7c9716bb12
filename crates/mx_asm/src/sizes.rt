//! The sizes of a program's sections, and offsets in them.

ghost use Rattle.std.specs.Prelude.{◌≡◌, ◌≤◌, ◌^◌};
ghost use Rattle.mx_encode.specs.Lengths.{chosen_length};
ghost use Rattle.mx_asm.specs.Lengths.{statement_length};
ghost use Rattle.mx_asm.specs.Layout.{size_in, section_offset_of, sizes_grown, sizes_after, statement_said, SizesWithin, GrowsWithin};
ghost use Rattle.mx_asm_statement.specs.Instructions.{marks};

use crate::branch::branch_length;
use mx_asm_statement::{Instruction, Line, Section, Statement};
use mx_encode::encode;

/// The section and the offset of a label.
#[derive(Clone, Copy)]
pub struct SectionOffset {
    pub section: Section,
    pub offset: u128,
}

/// The section in force, and how many bytes each holds so far.
#[derive(Clone, Copy)]
pub struct SectionSizes {
    pub section: Section,
    pub text: u128,
    /// The data.
    pub init: u128,
    pub bss: u128,
}

fn instruction_length(instruction: &Instruction) -> u128
    ensures length { result ≡ chosen_length instruction.now.insn (marks instruction.now) }
    ensures small { result ≤ 15 }
{
    // A number with a name is 0 here, and marked wide: so the length holds for every address.
    match encode(&instruction.insn, instruction.marks()) {
        Ok(bytes) => bytes.len() as u128,
        Err(_) => unreachable!(),
    }
}

/// How many bytes a line's statement takes, whatever the addresses of its names.
fn length_of(line: &Line) -> u128
    ensures length { result ≡ statement_length (statement_said line.now) }
    ensures small { result ≤ 2 ^ 64 }
{
    match &line.statement {
        None => 0,
        Some(Statement::Nothing) => 0,
        Some(Statement::Enter(_)) => 0,
        Some(Statement::Data(size, values)) => {
            u128::from(size.bytes()) * values.as_slice().len() as u128
        }
        Some(Statement::Ascii(bytes)) => bytes.as_slice().len() as u128,
        Some(Statement::Space(count)) => u128::from(*count),
        Some(Statement::Separate) => 0,
        Some(Statement::Entry(_)) => 0,
        Some(Statement::Stack(_)) => 0,
        Some(Statement::Instruction(instruction)) => instruction_length(instruction),
        Some(Statement::Branch(branch, _)) => u128::from(branch_length(*branch)),
    }
}

impl SectionSizes {
    /// Nothing yet, in the text.
    pub const START: SectionSizes = SectionSizes {
        section: Section::Text,
        text: 0,
        init: 0,
        bss: 0,
    };

    fn of(&self, section: Section) -> u128
        ensures { result ≡ size_in self.now section }
    {
        match section {
            Section::Text => self.text,
            Section::Data => self.init,
            Section::Bss => self.bss,
        }
    }

    /// The offset of the next byte of the current section.
    pub fn spot(&self) -> SectionOffset
        ensures { result ≡ section_offset_of self.now }
    {
        SectionOffset {
            section: self.section,
            offset: self.of(self.section),
        }
    }

    fn grow(&self, count: u128) -> SectionSizes
        requires sizes { SizesWithin self.now (2 ^ 126) }
        requires count { count ≤ 2 ^ 64 }
        ensures sizes { result ≡ sizes_grown self.now count }
        ensures small { GrowsWithin self.now result (2 ^ 64) }
    {
        match self.section {
            Section::Text => SectionSizes {
                text: self.text + count,
                ..*self
            },
            Section::Data => SectionSizes {
                init: self.init + count,
                ..*self
            },
            Section::Bss => SectionSizes {
                bss: self.bss + count,
                ..*self
            },
        }
    }

    /// The sizes of the sections after one line more.
    pub fn after(&self, line: &Line) -> SectionSizes
        requires { SizesWithin self.now (2 ^ 126) }
        ensures sizes { result
            ≡ sizes_after self.now (statement_said line.now)
            (statement_length (statement_said line.now)) }
        ensures small { GrowsWithin self.now result (2 ^ 64) }
    {
        let count = length_of(line);
        match &line.statement {
            Some(Statement::Enter(section)) => SectionSizes {
                section: *section,
                ..*self
            },
            _ => self.grow(count),
        }
    }
}
