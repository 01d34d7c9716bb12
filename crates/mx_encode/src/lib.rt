//! From an instruction to bytes: of all its forms the chosen `Encoding`, which is laid out as opcode, ModRM
//! byte, displacement and immediate. `choice` finds the encoding, `operands`, `single`, `jumps` and their like
//! make it, and `writing` writes its bytes.
//!
//! # One of several spellings
//!
//! Most instructions have more than one spelling in the table (`mx_insn`), as `83 C0 05` and `05 05 00 00 00`. The
//! definition `Choice` says which one is taken, by the instruction and by whether its number is marked wide. It doesn't
//! depend on an address, so the assembler knows each length before any address. That what is chosen spells the
//! instruction, that only one is chosen, and when none is, are laws (`spelling_laws`).
#![tactic(auto)]

ghost use Rattle.std.specs.Prelude.{◌≡◌};
ghost use Rattle.mx_encode.specs.Given.{is_wide};

mod accumulator;
mod bits;
mod choice;
mod encoding;
mod field_numbers;
mod fields;
mod filled;
mod forms;
mod jumps;
mod operands;
mod places;
mod single;
mod spelling_laws;
mod writing;

pub use encoding::encode;
use field_numbers::NumberForm;
pub use filled::{with_displacement, with_immediate};
pub use spelling_laws::{chosen_spells, one_chosen, some_chosen, spelled_has_form};

/// What is asked for if a shorter form is possible. A mark has no effect if an instruction has nothing to
/// widen.
#[derive(Clone, Copy)]
pub struct Wide {
    /// An immediate as wide as the operands.
    pub immediate: bool,
    /// A displacement of 32 bits, in memory after a base or in a jump.
    pub displacement: bool,
}

impl Wide {
    fn immediate_form(self) -> NumberForm
        ensures { is_wide result ≡ self.immediate }
    {
        if self.immediate {
            NumberForm::Wide
        } else {
            NumberForm::Shortest
        }
    }

    fn displacement_form(self) -> NumberForm
        ensures { is_wide result ≡ self.displacement }
    {
        if self.displacement {
            NumberForm::Wide
        } else {
            NumberForm::Shortest
        }
    }
}

/// No bytes spell the instruction: ESP is an index, or a LOOP or JECXZ goes further than a
/// signed byte.
#[derive(Clone, Copy)]
pub struct NoForm;
