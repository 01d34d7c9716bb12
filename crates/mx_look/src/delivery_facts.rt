//! The facts of deliveries in a transition, and of notifications that become pending.

ghost use Rattle.std.specs.Prelude.{◌≡◌, ◌≤◌, ◌<◌, ◌+◌};
ghost use Rattle.mx_look.specs.Deliveries.{got_from, delivery_to, is_pending, is_new_bit};

use crate::transition::Transition;
use crate::trap_facts::got;
use crate::{Delivery, SlotGlance};

/// How many slots from one on got a message.
#[tactic(auto, unfolding(crate::specs::Deliveries::got_from))]
fn got_from(transition: &Transition, slot: u32) -> usize
    requires { slot ≤ 32 }
    ensures count { result ≡ got_from transition.now slot }
    ensures few { result + slot ≤ 32 }
{
    (slot..32).filter(|other| got(transition, *other)).count()
}

/// What a slot got. As many of the latest deliveries as slots got one belong to these, in slot order.
#[tactic(auto, unfolding(crate::specs::Deliveries::delivery_to))]
pub fn delivery_to(transition: &Transition, slot: u32) -> Option<Delivery>
    requires { slot < 32 }
    ensures { result ≡ delivery_to transition.now slot }
{
    if !got(transition, slot) {
        return None;
    }
    transition.after.deliveries[got_from(transition, slot + 1)]
}

/// Whether a notification is pending.
fn is_pending(seen: &SlotGlance, place: u32) -> bool
    ensures { result ≡ is_pending seen.now place }
{
    place < 34 && seen.pending[place as usize]
}

/// Whether a notification becomes pending for a slot: it is pending and wasn't, or it has other
/// interrupt lines. Places are those of the sources: HARDWARE 0, CLOCK 1, slot 0 from 2 on.
#[tactic(auto, unfolding(crate::specs::Deliveries::is_new_bit))]
pub fn is_new_bit(before: &SlotGlance, after: &SlotGlance, place: u32) -> bool
    ensures { result ≡ is_new_bit before.now after.now place }
{
    is_pending(after, place)
        && (!is_pending(before, place) || place == 0 && before.lines != after.lines)
}
