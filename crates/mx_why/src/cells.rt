//! What an instruction does with a dword of memory: whether it may read it, or overwrites it.

ghost use Rattle.std.specs.Prelude.{◌≡◌};
ghost use Rattle.mx_exec.specs.Image.{dword_difference};
ghost use Rattle.mx_look.specs.Operands.{one_operand};
ghost use Rattle.mx_why.specs.Cells.{below_meets, is_there, meets, moves_there, operand_is_there, operand_meets, other_meets, overwrites_cell, plain_meets, top_meets, use_of_cell};

use crate::operands::one_operand;
use crate::uses::{Use, is_dword};
use mx_exec::Image;
use mx_insn::{Insn, Memory, Operand, Operands, Plain};
use mx_mem::address;
use mx_word::Register;

/// The size of a dword, and of a message, in bytes.
const DWORD: u64 = 4;

const MESSAGE: u64 = 36;

/// Whether so many bytes from an address on have a byte of the dword at another.
fn meets(cell: u32, count: u64, at: u32) -> bool
    ensures { result ≡ meets cell count at }
{
    u64::from(at) < u64::from(cell) + DWORD && u64::from(cell) < u64::from(at).saturating_add(count)
}

/// Whether a place in memory is the dword.
fn is_there(cell: u32, image: &Image, memory: &Memory) -> bool
    ensures { result ≡ is_there cell image.now memory.now }
{
    address(memory, &image.regs) == cell
}

/// Whether an operand is the dword.
fn operand_is_there(cell: u32, image: &Image, operand: &Operand) -> bool
    ensures { result ≡ operand_is_there cell image.now operand.now }
{
    match operand {
        Operand::Register(_) => false,
        Operand::Memory(memory) => is_there(cell, image, memory),
    }
}

/// Whether a MOV overwrites the dword.
fn moves_there(cell: u32, image: &Image, operands: &Operands) -> bool
    ensures { result ≡ moves_there cell image.now operands.now }
{
    match operands {
        Operands::ToRegister { .. } => false,
        Operands::ToMemory { size, to, .. } => is_dword(*size) && is_there(cell, image, to),
        Operands::Immediate { to, value } => {
            is_dword(value.size()) && operand_is_there(cell, image, to)
        }
    }
}

/// Whether an instruction writes all of the dword, and doesn't read it.
#[tactic(auto, unfolding(crate::specs::Cells::overwrites_cell))]
fn overwrites_cell(cell: u32, insn: &Insn, image: &Image) -> bool
    ensures { result ≡ overwrites_cell cell insn.now image.now }
{
    match insn {
        Insn::Move(operands) => moves_there(cell, image, operands),
        _ => false,
    }
}

/// Whether the operand of an instruction reaches the dword.
fn operand_meets(cell: u32, insn: &Insn, image: &Image) -> bool
    ensures { result ≡ operand_meets cell image.now (one_operand insn.now) }
{
    match one_operand(insn) {
        Some((Operand::Memory(memory), _)) => { meets(cell, DWORD, address(&memory, &image.regs)) }
        _ => false,
    }
}

/// Whether the dword below the stack's top reaches the dword.
fn below_meets(cell: u32, image: &Image) -> bool
    ensures { result ≡ below_meets cell image.now }
{
    meets(cell, DWORD, image.register(Register::Esp).wrapping_sub(4))
}

/// Whether the dword on top of the stack reaches the dword.
fn top_meets(cell: u32, image: &Image) -> bool
    ensures { result ≡ top_meets cell image.now }
{
    meets(cell, DWORD, image.register(Register::Esp))
}

/// Whether an instruction without operands may reach the dword.
fn plain_meets(cell: u32, image: &Image, operation: Plain) -> bool
    ensures { result ≡ plain_meets cell image.now operation }
{
    match operation {
        Plain::Pushfd => below_meets(cell, image),
        Plain::Popfd => top_meets(cell, image),
        Plain::Leave => meets(cell, DWORD, image.register(Register::Ebp)),
        Plain::Pushad | Plain::Popad => true,
        _ => false,
    }
}

/// Whether an instruction may reach the dword besides its operand.
#[tactic(auto, unfolding(crate::specs::Cells::other_meets))]
fn other_meets(cell: u32, insn: &Insn, image: &Image) -> bool
    ensures { result ≡ other_meets cell insn.now image.now }
{
    match insn {
        Insn::Push(_) | Insn::PushImmediate(_) | Insn::Call(_) | Insn::CallTo(_) => {
            below_meets(cell, image)
        }
        Insn::Pop(_) | Insn::Return(_) => top_meets(cell, image),
        Insn::Transfer { .. } | Insn::Compare { .. } => true,
        Insn::Interrupt(_) => meets(cell, MESSAGE, image.register(Register::Ebx)),
        Insn::Plain(operation) => plain_meets(cell, image, *operation),
        _ => false,
    }
}

/// What an instruction does with the dword at an address.
pub(crate) fn use_of_cell(cell: u32, insn: &Insn, image: &Image) -> Use
    ensures { result ≡ use_of_cell cell insn.now image.now }
{
    if overwrites_cell(cell, insn, image) {
        Use::Overwrites
    } else if operand_meets(cell, insn, image) || other_meets(cell, insn, image) {
        Use::Reads
    } else {
        Use::Neither
    }
}
