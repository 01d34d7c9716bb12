//! What a session has in hand.

ghost use Rattle.std.specs.Prelude.{◌≡◌, IfErr, IfOk};
ghost use Rattle.mx_app_step.specs.Failure.{IsWanting};

use crate::points::Points;
use mx_app_failure::Failure;
use mx_walk::Walker;
use std::alloc::Global;

/// A walker, and what its searches halt at.
#[derive(Drop)]
pub struct Sight {
    pub walker: Walker,
    pub points: Points,
}

/// Answers a text, and changes nothing.
pub(crate) fn say(alloc: Global, sight: Sight, text: &str) -> Result<(Sight, Vec<u8>), Failure>
    ensures err { IfErr result IsWanting }
    ensures same { IfOk result (λ r. r.0 ≡ sight) }
    ensures text { IfOk result (λ r. r.1.items ≡ text.now) }
{
    let mut answer = Vec::new(alloc);
    answer.extend_from_slice(text.as_bytes())?;
    Ok((sight, answer))
}
