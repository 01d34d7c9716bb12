//! Instructions of a text. A number of one may be a name, whose value is put in once all labels have
//! addresses: so a line is read once, and neither its length nor whether it has a form depends on an address.

ghost use Rattle.std.specs.Prelude.{◌≡◌, true};
ghost use Rattle.mx_encode.specs.Forms.{has_form};

use crate::value::Value;
use mx_encode::{Wide, encode};
use mx_insn::Insn;

/// An instruction other than a jump. If its immediate or the displacement of its memory has a name, the
/// number in the instruction is 0, and its value is in the second or third field.
#[derive(Clone, Copy)]
pub struct Instruction {
    pub insn: Insn,
    pub immediate: Option<Value>,
    pub displacement: Option<Value>,
    ghost spelled: { has_form insn ≡ true },
}

impl Instruction {
    ghost use Rattle.mx_asm_statement.specs.Instructions.{instruction_of, marks};

    /// `None` if no bytes spell the instruction, since it indexes by ESP.
    #[tactic(auto, unfolding(crate::specs::Instructions::instruction_of))]
    pub fn new(
        insn: Insn,
        immediate: Option<Value>,
        displacement: Option<Value>,
    ) -> Option<Instruction>
        ensures { result ≡ instruction_of insn immediate displacement }
    {
        let plain = Wide {
            immediate: false,
            displacement: false,
        };
        if encode(&insn, plain).is_err() {
            return None;
        }
        Some(Instruction {
            insn,
            immediate,
            displacement,
        })
    }

    /// A number is marked wide if it has a name.
    pub fn marks(&self) -> Wide
        ensures { result ≡ marks self.now }
    {
        Wide {
            immediate: self.immediate.is_some(),
            displacement: self.displacement.is_some(),
        }
    }
}
