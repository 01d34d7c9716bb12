//! A line of an assembler text, and the reasons to refuse one.

ghost use Rattle.std.specs.Prelude.{◌≡◌};
ghost use Rattle.mx_asm_statement.specs.Reasons.{reason_code, is_unknown, is_misplaced, statement_refusal};

use crate::statement::{Section, Statement};
use mx_text::Name;

/// What a statement begins with.
#[derive(Clone, Copy, PartialEq, Eq)]
pub enum StatementStart {
    Nothing,
    /// Neither a mnemonic nor a repeat nor a directive.
    Unknown,
    /// A mnemonic or a repeat.
    Instruction,
    /// `.data1`, `.data2`, `.data4`, `.ascii`.
    Data,
    /// `.sep`.
    Separate,
    /// `.entry`.
    Entry,
    /// `.stack`.
    Stack,
    /// `.text`, `.data`, `.bss`, `.space`.
    Anywhere,
}

/// What a line's tokens mean, whatever is above it.
#[derive(Drop)]
pub struct Line {
    /// `None` too if what is before the colon is no name.
    pub label: Option<Name>,
    /// The label, or a name in an operand, has more than eight bytes.
    pub long: bool,
    pub beginning: StatementStart,
    /// `None` if the statement fits no form, or the label is no name.
    pub statement: Option<Statement>,
}

/// Why a line is refused, in the order in which reasons are reported.
#[derive(Clone, Copy, PartialEq, Eq)]
pub enum Reason {
    LongName,
    Twice,
    Unknown,
    WrongSection,
    NoForm,
}

impl Reason {
    /// The number of a reason in messages.
    pub fn code(self) -> u8
        ensures { result ≡ reason_code self }
    {
        match self {
            Reason::LongName => 17,
            Reason::Twice => 12,
            Reason::Unknown => 10,
            Reason::WrongSection => 15,
            Reason::NoForm => 11,
        }
    }
}

fn is_unknown(beginning: StatementStart) -> bool
    ensures { result ≡ is_unknown beginning }
{
    match beginning {
        StatementStart::Unknown => true,
        _ => false,
    }
}

fn is_misplaced(section: Section, beginning: StatementStart) -> bool
    ensures { result ≡ is_misplaced section beginning }
{
    match (section, beginning) {
        (Section::Data | Section::Bss, StatementStart::Instruction) => true,
        (Section::Bss, StatementStart::Data) => true,
        _ => false,
    }
}

/// Whether a line above defines already what this line defines: its label, its `.sep`, its `.entry` or its
/// `.stack`.
#[derive(Clone, Copy)]
pub enum Saying {
    First,
    Second,
}

/// The first reason to refuse a line in a section.
pub fn refusal(line: &Line, section: Section, saying: Saying) -> Option<Reason>
    ensures { result ≡ statement_refusal section saying line.now }
{
    if line.long {
        return Some(Reason::LongName);
    }
    if let Saying::Second = saying {
        return Some(Reason::Twice);
    }
    if is_unknown(line.beginning) {
        return Some(Reason::Unknown);
    }
    if is_misplaced(section, line.beginning) {
        return Some(Reason::WrongSection);
    }
    if line.statement.is_none() {
        return Some(Reason::NoForm);
    }
    None
}
