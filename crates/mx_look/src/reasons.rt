//! Why a step faults: what it accesses, where it jumps to, or what it is.

ghost use Rattle.std.specs.Prelude.{◌≡◌, drop};
ghost use Rattle.mx_decode.specs.Decode.{front};
ghost use Rattle.mx_exec.specs.Operands.{value_in};
ghost use Rattle.mx_exec.specs.Stack.{top_of};
ghost use Rattle.mx_look.specs.Accesses.{first_outside};
ghost use Rattle.mx_look.specs.Reasons.{fault_reason, reason_by_access, reason_of_front, target_of, value_found};

use crate::accesses::{Access, first_outside};
use mx_exec::Image;
use mx_insn::{Insn, Operand, Plain};
use mx_mem::{GENERAL_PROTECTION, STACK_FAULT, value};
use mx_word::{Register, Size};

/// Why a step faults, if its vector is 12 or 13.
#[derive(Clone, Copy, PartialEq, Eq)]
pub enum FaultReason {
    /// The first access that isn't inside the memory.
    Outside(Access),
    /// The code ends in the instruction or before it.
    CodeEnd,
    /// A jump, a call or a return to this address, which isn't below the code's limit.
    Target(u32),
    /// What a process may not perform: HLT, CLI, STI, IN, OUT and INT.
    Forbidden,
    /// Another vector, which says it.
    Other,
}

/// The dword of an operand, if it is inside.
fn dword_of(image: &Image, operand: &Operand) -> Option<u32>
    ensures { result ≡ value_found (value_in image.now operand.now Size.Dword) }
{
    match value(operand, Size::Dword, &image.regs, &image.memory) {
        Ok(value) => Some(value),
        Err(_) => None,
    }
}

/// The dword on top of the stack, if it is inside.
fn top_of(image: &Image) -> Option<u32>
    ensures { result ≡ value_found (top_of image.now) }
{
    match image
        .memory
        .read(image.register(Register::Esp), Size::Dword)
    {
        Ok(value) => Some(value),
        Err(_) => None,
    }
}

/// The target of a jump, a call, a loop or a return, whose next instruction is at `next`.
#[tactic(auto, unfolding(crate::specs::Reasons::target_of))]
fn target_of(image: &Image, insn: &Insn, next: u32) -> Option<u32>
    ensures { result ≡ target_of insn.now next image.now }
{
    match insn {
        Insn::JumpIf { displacement, .. } | Insn::Loop { displacement, .. } => {
            Some(next.wrapping_add(*displacement))
        }
        Insn::Jump(displacement) | Insn::Call(displacement) => {
            Some(next.wrapping_add(*displacement))
        }
        Insn::JumpTo(operand) | Insn::CallTo(operand) => dword_of(image, operand),
        Insn::Return(_) => top_of(image),
        _ => None,
    }
}

/// Why an instruction faults that is at EIP, if its vector is 12 or 13.
fn reason_of(image: &Image, insn: &Insn, next: u32) -> FaultReason
    ensures { result
        ≡ reason_by_access (target_of insn.now next image.now) (first_outside insn.now image.now) }
{
    match (first_outside(image, insn), target_of(image, insn, next)) {
        (Some(access), _) => FaultReason::Outside(access),
        (None, Some(target)) => FaultReason::Target(target),
        (None, None) => FaultReason::Forbidden,
    }
}

/// Why the step at EIP faults, by its vector: 12 is a stack fault, 13 general protection.
#[tactic(auto, unfolding(crate::specs::Reasons::fault_reason))]
pub fn fault_reason(image: &Image, vector: u8) -> FaultReason
    ensures { result ≡ fault_reason image.now vector }
{
    if vector != STACK_FAULT && vector != GENERAL_PROTECTION {
        return FaultReason::Other;
    }
    let mut insn = Insn::Plain(Plain::Nop);
    match image.fetch(&mut insn) {
        Ok(size) => reason_of(image, &insn, image.eip.wrapping_add(u32::from(size))),
        Err(_) => FaultReason::CodeEnd,
    }
}
