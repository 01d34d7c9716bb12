//! The lengths, distances and bytes of jumps, calls and loops.

ghost use Rattle.std.specs.Prelude.{◌≡◌, ◌+◌, ◌≤◌, false, length};
ghost use Rattle.mx_encode.specs.Chosen.{Chosen};
ghost use Rattle.mx_encode.specs.Numbers.{is_short};
ghost use Rattle.mx_asm_statement.specs.declared.branch.Branch.{Branch};
ghost use Rattle.mx_asm.specs.Branches.{is_near, branch_by, branch_marks, branch_length, distance, is_too_far};

use mx_asm_statement::{Branch, JumpLength};
use mx_encode::{Wide, encode};
use mx_insn::{ArrayVec, Insn};

fn is_near(branch: Branch) -> bool
    ensures { result ≡ is_near branch }
{
    match branch {
        Branch::Jump { length } | Branch::JumpIf { length, .. } => match length {
            JumpLength::Short => true,
            JumpLength::Long => false,
        },
        Branch::Call => false,
        Branch::Loop(_) => true,
    }
}

fn branch_by(branch: Branch, displacement: u32) -> Insn
    ensures { result ≡ branch_by branch displacement }
{
    match branch {
        Branch::Jump { .. } => Insn::Jump(displacement),
        Branch::JumpIf { condition, .. } => Insn::JumpIf {
            condition,
            displacement,
        },
        Branch::Call => Insn::Call(displacement),
        Branch::Loop(operation) => Insn::Loop {
            operation,
            displacement,
        },
    }
}

/// How many bytes a jump takes, whatever the address of its target.
pub fn branch_length(branch: Branch) -> u8
    ensures length { result ≡ branch_length branch }
    ensures small { result ≤ 6 }
{
    if is_near(branch) {
        return 2;
    }
    match branch {
        Branch::JumpIf { .. } => 6,
        _ => 5,
    }
}

/// The distance from the next instruction, after one of this many bytes, to a target.
pub fn distance(at: u32, length: u8, target: u32) -> u32
    ensures { result ≡ distance (at + length) target }
{
    target.wrapping_sub(at.wrapping_add(u32::from(length)))
}

fn is_short(displacement: u32) -> bool
    ensures { result ≡ is_short 32 displacement }
{
    displacement < 0x80 || displacement >= 0xFFFF_FF80
}

/// Whether a jump asks for 8 bits and they do not reach its label.
pub fn is_too_far(branch: Branch, displacement: u32) -> bool
    ensures { result ≡ is_too_far branch displacement }
{
    is_near(branch) && !is_short(displacement)
}

/// The bytes of a jump to a label, at an address.
pub fn branch_bytes(branch: Branch, at: u32, target: u32) -> ArrayVec<u8, 15>
    requires { is_too_far branch (distance (at + branch_length branch) target) ≡ false }
    ensures bytes { Chosen (branch_by branch (distance (at + length result.items) target))
        (branch_marks branch) result.items }
    ensures length { length result.items ≡ branch_length branch }
{
    let marks = Wide {
        immediate: false,
        displacement: !is_near(branch),
    };
    let displacement = distance(at, branch_length(branch), target);
    match encode(&branch_by(branch, displacement), marks) {
        Ok(bytes) => bytes,
        Err(_) => unreachable!(),
    }
}
