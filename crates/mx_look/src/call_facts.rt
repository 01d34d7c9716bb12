//! The facts of kernel calls in a transition.

ghost use Rattle.std.specs.Prelude.{◌≡◌, None, Some, MatchOption};
ghost use Rattle.mx_look.specs.Calls.{asks_kernel, is_served, kernel_call};

use crate::doings::{is_down, is_ready};
use crate::transition::{Transition, slot_in};
use crate::trap_facts::acting;
use crate::{CpuGlance, SlotGlance};
use mx_proc::SYSTEM;

/// The number of the call SENDREC.
const SENDREC: u32 = 3;

/// Whether a trap is a SENDREC to SYSTEM.
pub fn asks_kernel(held: &CpuGlance) -> bool
    ensures { result ≡ asks_kernel held.now }
{
    held.image.ecx == SENDREC && held.image.eax == SYSTEM
}

/// Whether a process that asked the kernel was served: it is dead, or ready with the result 0.
fn is_served(seen: &SlotGlance) -> bool
    ensures { result ≡ is_served seen.now }
{
    is_down(seen.doing) || is_ready(seen.doing) && seen.image.eax == 0
}

/// A kernel call that is made: what is seen of its caller's trap, by which processor it came back.
#[tactic(auto, unfolding(crate::specs::Calls::kernel_call))]
pub fn kernel_call(transition: &Transition) -> Option<&CpuGlance>
    ensures { MatchOption result (kernel_call transition.now ≡ None) (λ held. kernel_call transition.now
        ≡ Some held.now) }
{
    let held = acting(transition)?;
    match slot_in(&transition.after, u32::from(held.slot)) {
        Some(seen) if asks_kernel(held) && is_served(seen) => Some(held),
        _ => None,
    }
}
