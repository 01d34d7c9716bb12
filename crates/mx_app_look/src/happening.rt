//! What `until` looks for in the records of a history, as a trace has it.

ghost use Rattle.std.specs.Prelude.{◌≡◌};
ghost use Rattle.std.specs.Option.{option_map};
ghost use Rattle.mx_look.specs.Doings.{is_down, seen_is};
ghost use Rattle.mx_look.specs.Transition.{slot_in};
ghost use Rattle.mx_app_look.specs.Happenings.{answer_in, answer_to, any_fails, calls, comes_from, dies, fails, has_type, happens, is_delivered, is_error, called_by};

use mx_look::{
    CpuGlance, Glance, SlotGlance, Transition, delivery_to, gone_on, is_down, is_ready,
    kernel_call, slot_in,
};
use mx_proc::{Delivery, slot_of};

/// How many slots a machine may have.
const SLOTS: u32 = 32;

/// The errors are negative numbers, and no other result is.
const ERRORS: u32 = 1 << 31;

/// What `until` looks for in the records of a history.
#[derive(Clone, Copy)]
pub enum Happening {
    /// A kernel call of a slot's process, of a type.
    Call(u32, u32),
    /// The death of a slot's process.
    Death(u32),
    /// A message or a notification of one slot's process comes to another's.
    Delivery(u32, u32),
    /// A trap or a kernel call of a slot's process, or of any, ends with an error.
    Error(Option<u32>),
}

/// Whether a message is of this type.
fn has_type(message: &Option<[u32; 9]>, kind: u32) -> bool
    ensures { result ≡ has_type message.now kind }
{
    match message {
        Some(words) => words[1] == kind,
        None => false,
    }
}

/// Whether a kernel call is that of a slot's process, and of this type.
fn is_called_by(call: Option<&CpuGlance>, slot: u32, kind: u32) -> bool
    ensures { result ≡ called_by (option_map (λ h. h.now) call.entry) slot kind }
{
    match call {
        Some(held) => u32::from(held.slot) == slot && has_type(&held.image.words, kind),
        None => false,
    }
}

/// Whether a slot's process makes a kernel call of this type.
fn calls(transition: &Transition, slot: u32, kind: u32) -> bool
    ensures { result ≡ calls transition.now slot kind }
{
    is_called_by(kernel_call(transition), slot, kind)
}

/// Whether a slot's process is dead.
fn is_dead(glance: &Glance, slot: u32) -> bool
    ensures { result ≡ seen_is is_down (slot_in glance.now slot) }
{
    match slot_in(glance, slot) {
        Some(seen) => is_down(seen.doing),
        None => false,
    }
}

/// Whether a slot's process dies.
fn dies(transition: &Transition, slot: u32) -> bool
    ensures { result ≡ dies transition.now slot }
{
    !is_dead(&transition.before, slot) && is_dead(&transition.after, slot)
}

/// Whether a delivery is one of a slot's process.
fn comes_from(delivery: Option<Delivery>, slot: u32) -> bool
    ensures { result ≡ comes_from delivery slot }
{
    match delivery {
        Some(delivery) => slot_of(delivery.from) == slot,
        None => false,
    }
}

/// Whether a message or a notification comes from one slot's process to another's.
fn is_delivered(transition: &Transition, from: u32, to: u32) -> bool
    ensures { result ≡ is_delivered transition.now from to }
{
    to < 32 && comes_from(delivery_to(transition, to), from)
}

/// Whether a result is an error.
fn is_error(outcome: Option<u32>) -> bool
    ensures { result ≡ is_error outcome }
{
    match outcome {
        Some(outcome) => outcome >= ERRORS,
        None => false,
    }
}

/// The answer to a kernel call whose caller goes on: the type of the reply in its buffer.
fn answer_in(seen: &SlotGlance) -> Option<u32>
    ensures { result ≡ answer_in seen.now }
{
    if !is_ready(seen.doing) {
        return None;
    }
    match &seen.image.words {
        Some(reply) => Some(reply[1]),
        None => None,
    }
}

/// The answer to the kernel call that a slot's process makes, if it makes one and goes on.
fn answer_to(transition: &Transition, slot: u32) -> Option<u32>
    ensures { result ≡ answer_to transition.now slot }
{
    let held = kernel_call(transition)?;
    if u32::from(held.slot) != slot {
        return None;
    }
    answer_in(slot_in(&transition.after, slot)?)
}

/// Whether a trap of a slot's process ends with an error, or a kernel call of it is answered with one.
fn fails(transition: &Transition, slot: u32) -> bool
    ensures { result ≡ fails transition.now slot }
{
    is_error(gone_on(transition, slot)) || is_error(answer_to(transition, slot))
}

/// Whether that happens to any slot's process.
fn any_fails(transition: &Transition) -> bool
    ensures { result ≡ any_fails transition.now }
{
    for slot in 0..SLOTS {
        if fails(transition, slot) {
            return true;
        }
    }
    false
}

/// Whether it happens in a record.
pub(crate) fn happens(happening: Happening, transition: &Transition) -> bool
    ensures { result ≡ happens happening transition.now }
{
    match happening {
        Happening::Call(slot, kind) => calls(transition, slot, kind),
        Happening::Death(slot) => dies(transition, slot),
        Happening::Delivery(from, to) => is_delivered(transition, from, to),
        Happening::Error(Some(slot)) => fails(transition, slot),
        Happening::Error(None) => any_fails(transition),
    }
}
