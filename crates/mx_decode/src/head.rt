//! The head of an instruction's bytes: its prefixes and its opcode.

ghost use Rattle.std.specs.Prelude.{◌≡◌, None, Some, false};
ghost use Rattle.mx_insn.specs.declared.insn.Repeat.TheVariants as repeats;
ghost use Rattle.mx_decode.specs.Reading.{escaped_at, opcode_at, resized_then, repeat_then, head, head_at};
ghost use Rattle.mx_insn.specs.Spelling.{is_resized};
ghost use Rattle.mx_decode.specs.Given.{Gives, head_seen};

use crate::DecodeFault;
use mx_insn::{OpcodeMap, OperandSize, Repeat};

/// The prefixes and the opcode: all that comes before the operands.
#[derive(Clone, Copy)]
pub struct Head {
    /// A word if there is the operand-size prefix, 66, else a dword.
    pub operand_size: OperandSize,
    pub repeat: Option<Repeat>,
    pub map: OpcodeMap,
    pub opcode: u8,
}

/// The head that is an opcode alone.
#[inline(always)]
pub fn plain_head(opcode: u8) -> Head
    ensures { head_seen result ≡ head false None false opcode }
{
    Head {
        operand_size: OperandSize::Dword,
        repeat: None,
        map: OpcodeMap::OneByte,
        opcode,
    }
}

fn after_0f(
    operand_size: OperandSize,
    repeat: Option<Repeat>,
    bytes: &[u8],
) -> Result<(Head, &[u8]), DecodeFault>
    ensures { Gives (λ x. (head_seen x.0, x.1.now)) result
        (escaped_at (is_resized operand_size) repeat bytes.now) }
{
    match (repeat, bytes) {
        (Some(_), _) => Err(DecodeFault::NotInTable),
        (None, []) => Err(DecodeFault::Short),
        (None, [opcode, rest @ ..]) => {
            let head = Head {
                operand_size,
                repeat: None,
                map: OpcodeMap::TwoByte,
                opcode: *opcode,
            };
            Ok((head, rest))
        }
    }
}

fn opcode(
    operand_size: OperandSize,
    repeat: Option<Repeat>,
    bytes: &[u8],
) -> Result<(Head, &[u8]), DecodeFault>
    ensures { Gives (λ x. (head_seen x.0, x.1.now)) result
        (opcode_at (is_resized operand_size) repeat bytes.now) }
{
    match bytes {
        [] => Err(DecodeFault::Short),
        [0x0F, rest @ ..] => after_0f(operand_size, repeat, rest),
        [opcode, rest @ ..] => {
            let head = Head {
                operand_size,
                repeat,
                map: OpcodeMap::OneByte,
                opcode: *opcode,
            };
            Ok((head, rest))
        }
    }
}

fn after_66(bytes: &[u8]) -> Result<(Head, &[u8]), DecodeFault>
    ensures { Gives (λ x. (head_seen x.0, x.1.now)) result (resized_then bytes.now) }
{
    match bytes {
        [] => Err(DecodeFault::Short),
        [0xF3, rest @ ..] => opcode(OperandSize::Word, Some(Repeat::Repe), rest),
        [0xF2, rest @ ..] => opcode(OperandSize::Word, Some(Repeat::Repne), rest),
        _ => opcode(OperandSize::Word, None, bytes),
    }
}

fn after_repeat(repeat: Repeat, bytes: &[u8]) -> Result<(Head, &[u8]), DecodeFault>
    ensures { Gives (λ x. (head_seen x.0, x.1.now)) result (repeat_then repeat bytes.now) }
{
    match bytes {
        [] => Err(DecodeFault::Short),
        [0x66, rest @ ..] => opcode(OperandSize::Word, Some(repeat), rest),
        _ => opcode(OperandSize::Dword, Some(repeat), bytes),
    }
}

/// The prefixes and the opcode at the front, and what follows.
#[tactic(auto, unfolding(crate::specs::Reading::head_at))]
pub fn read_head(bytes: &[u8]) -> Result<(Head, &[u8]), DecodeFault>
    ensures { Gives (λ x. (head_seen x.0, x.1.now)) result (head_at bytes.now) }
{
    match bytes {
        [] => Err(DecodeFault::Short),
        [0x66, rest @ ..] => after_66(rest),
        [0xF3, rest @ ..] => after_repeat(Repeat::Repe, rest),
        [0xF2, rest @ ..] => after_repeat(Repeat::Repne, rest),
        _ => opcode(OperandSize::Dword, None, bytes),
    }
}
