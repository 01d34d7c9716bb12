//! How an instruction ended, before EIP is set.

#![tactic(auto, unfolding(crate::specs::Ending::Leads))]

ghost use Rattle.std.specs.Prelude.{ℕ, Result};
ghost use Rattle.mx_exec.specs.declared.image.Image.{Image};
ghost use Rattle.mx_exec.specs.Ending.{Leads};
ghost use Rattle.mx_exec.specs.Image.{Performs};

use crate::Image;
use crate::image::dword_sum;
use mx_mem::Vector;

/// How an instruction ended. EIP is not set yet.
#[derive(Clone, Copy)]
pub enum InsnEnd {
    /// The next instruction is the one that follows, and memory is as it was.
    Next,
    /// It is at this address, and memory is as it was.
    To(u32),
    /// It is this far from the one that follows, by a sum that wraps, and memory is as it was.
    By(u64),
    /// It is the one that follows; the four bytes at an address may have been written.
    Wrote { at: u32 },
    /// It is at an address; the four bytes at another may have been written.
    Called { to: u32, at: u32 },
    /// The vector of a fault, which changed nothing.
    Fault(Vector),
}

/// Sets EIP as an instruction ended, or answers the vector.
#[inline(always)]
pub fn settle(image: &mut Image, end: InsnEnd, next: u32) -> Result<(), Vector>
    ensures { (m : Image) (wanted : Result Image ℕ) → Leads next m wanted end image.old
        → Performs m wanted result image.new }
{
    image.eip = match end {
        InsnEnd::Next | InsnEnd::Wrote { .. } => next,
        InsnEnd::To(to) | InsnEnd::Called { to, .. } => to,
        InsnEnd::By(distance) => dword_sum(next, (distance % 0x1_0000_0000) as u32),
        InsnEnd::Fault(vector) => return Err(vector),
    };
    Ok(())
}
