//! What a process did on its processor before it comes back.

ghost use Rattle.std.specs.Prelude.{◌≡◌, ◌++◌, OnOk};
ghost use Rattle.mx_app_draw.specs.Fates.{IsOnPaper};
ghost use Rattle.mx_app_draw.specs.Returns.{trap_deed, deed_of, is_doomed_in, has_gone_wrong, is_refused_answer, has_failed_call, manner_of, deed_kind, return_values};

use crate::fates::height_of;
use crate::four_figures::{Point, label};
use crate::layout::Origin;
use crate::{Anchor, Deed, Hint, LabelKind, Manner, Text, Value};
use mx_image::Stop;
use mx_look::{
    CpuGlance, SlotGlance, Transition, asks_kernel, gone_on, held_before, is_acted, is_doomed,
    is_ready, kernel_call, slot_in,
};
use mx_machine::Recorded;
use mx_proc::Rules;
use std::alloc::AllocError;

/// The number of the call SENDREC.
const SENDREC: u32 = 3;

/// What a trap asked for: a call, by its number; or a kernel call, by the rules and the type in its message,
/// if the message is inside the memory.
#[tactic(auto, unfolding(crate::specs::Returns::trap_deed))]
fn trap_deed(rules: Rules, held: &CpuGlance) -> Deed
    ensures { result ≡ trap_deed rules held.now }
{
    if !asks_kernel(held) {
        return Deed::Call(held.image.ecx);
    }
    match &held.image.words {
        Some(words) => Deed::Kernel(rules, words[1]),
        None => Deed::Call(SENDREC),
    }
}

/// What a process did last: it trapped or faulted, spent its budget, or stopped early.
#[tactic(auto, unfolding(crate::specs::Returns::deed_of))]
fn deed_of(rules: Rules, held: &CpuGlance) -> Deed
    ensures { result ≡ deed_of rules held.now }
{
    match held.stop {
        Stop::Spent if held.count < held.budget => Deed::Early,
        Stop::Spent => Deed::Spent,
        Stop::Fault(vector) => Deed::Fault(vector),
        Stop::Trap => trap_deed(rules, held),
    }
}

fn is_doomed_in(transition: &Transition, slot: u32) -> bool
    ensures { result ≡ is_doomed_in transition.now slot }
{
    match slot_in(&transition.before, slot) {
        Some(seen) => is_doomed(seen.doing),
        None => false,
    }
}

/// Whether the kernel answered a slot's trap with an error.
fn has_gone_wrong(transition: &Transition, slot: u32) -> bool
    ensures { result ≡ has_gone_wrong transition.now slot }
{
    match gone_on(transition, slot) {
        Some(outcome) => outcome != 0 && is_acted(transition, slot),
        None => false,
    }
}

/// Whether the reply to a kernel call, in the slot's buffer, is an error.
fn is_refused_answer(seen: &SlotGlance) -> bool
    ensures { result ≡ is_refused_answer seen.now }
{
    match &seen.image.words {
        Some(reply) => is_ready(seen.doing) && reply[1] != 0,
        None => false,
    }
}

/// Whether the kernel answered a slot's kernel call with an error.
fn has_failed_call(transition: &Transition, slot: u32) -> bool
    ensures { result ≡ has_failed_call transition.now slot }
{
    match (kernel_call(transition), slot_in(&transition.after, slot)) {
        (Some(_), Some(seen)) => is_refused_answer(seen),
        _ => false,
    }
}

/// How the deed ended: well, with an error, or not made because the process was killed. Only a trap can be
/// left unmade.
#[tactic(auto, unfolding(crate::specs::Returns::manner_of))]
fn manner_of(transition: &Transition, slot: u32, deed: Deed) -> Manner
    ensures { result ≡ manner_of transition.now slot deed }
{
    match deed {
        Deed::Spent | Deed::Early | Deed::Fault(_) => Manner::Plain,
        Deed::Call(_) | Deed::Kernel(_, _) => {
            if is_doomed_in(transition, slot) {
                Manner::Unmade
            } else if has_gone_wrong(transition, slot) || has_failed_call(transition, slot) {
                Manner::Wrong
            } else {
                Manner::Plain
            }
        }
    }
}

fn deed_kind(deed: Deed, manner: Manner) -> LabelKind
    ensures { result ≡ deed_kind deed manner }
{
    match (deed, manner) {
        (Deed::Fault(_), _) | (_, Manner::Wrong) => LabelKind::Bad,
        _ => LabelKind::Call,
    }
}

/// Appends what a process did, if the transition is its `Back`.
#[tactic(auto, unfolding(crate::specs::Returns::return_values))]
pub(crate) fn push_return(
    out: &mut Vec<Value>,
    transition: &Transition,
    origin: Origin,
) -> Result<(), AllocError>
    requires { IsOnPaper origin }
    ensures { OnOk result (out.new.items ≡ out.old.items ++ return_values transition.now origin) }
{
    let Recorded::Back(_) = transition.event else {
        return Ok(());
    };
    let Some(held) = held_before(transition) else {
        return Ok(());
    };
    let slot = u32::from(held.slot);
    let deed = deed_of(transition.before.rules, held);
    let manner = manner_of(transition, slot, deed);
    let below = Point {
        x: origin.x - 4,
        y: height_of(origin, slot) + 15,
    };
    let text = Text::Deed(deed, manner);
    let hint = Hint::Record(origin.place);
    out.push(label(deed_kind(deed, manner), below, Anchor::End, text, hint))?;
    Ok(())
}
