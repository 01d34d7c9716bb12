//! What can't work by a configuration alone.

ghost use Rattle.std.specs.Prelude.{◌≡◌, ◌<◌, ◌++◌, ◌==◌, IfOk, OnOk, length, not};
ghost use Rattle.std.specs.List.{flat_map, range_with_len};
ghost use Rattle.mx_why.specs.Unfit.{allows, bare, bare_at, calls_of, has_call, if_so, lacking_in, may_answer, may_receive, may_send, names, names_other, names_some, only_asks, silent_in, stray_bits_of, stray_calls, stray_in, stray_traps, towards, towards_all, towards_at, unfit, unfit_at, unfit_masks, unfit_of};

use crate::seats::End;
use crate::waiting::{NOTIFY, RECEIVE, SEND, SENDREC};
use mx_machine::{Config, ServiceLine};
use mx_proc::{Masks, Rules};
use mx_word::has_bit;
use std::alloc::{AllocError, Global};

/// What can't work between a service and another that it may send to.
#[derive(Clone, Copy)]
pub enum Pair {
    /// It can only ask the other, who may not send to it.
    Unnamed,
    /// It can only ask the other, who has no trap for an answer.
    Unanswered,
    /// The other has no trap to receive by.
    Unheard,
}

/// What can't work of a service.
#[derive(Clone, Copy)]
pub enum Lack {
    /// These bits of its traps mean nothing.
    StrayTraps(u32),
    /// These bits of its calls mean nothing.
    StrayCalls(u32),
    /// It may make kernel calls, and no SENDREC.
    CallsAlone,
    /// It may send to others, and has no trap for it.
    SendsAlone,
    /// Its program has no instruction.
    NoCode,
    /// Something between it and the service of this slot.
    Towards(u32, Pair),
}

/// What can't work of a slot's service.
#[derive(Clone, Copy)]
pub struct Unfit {
    pub slot: u32,
    pub lack: Lack,
}

/// The bits of traps that there aren't.
const NO_TRAPS: u32 = 0xffff_ffe1;

/// Whether a mask allows a trap.
fn allows(masks: &Masks, trap: u32) -> bool
    requires { trap < 32 }
    ensures { result ≡ allows masks.now trap }
{
    has_bit(masks.traps, trap)
}

/// Whether a mask allows to send to a slot.
fn names(masks: &Masks, slot: u32) -> bool
    ensures { result ≡ names masks.now slot }
{
    slot < 32 && has_bit(masks.sends, slot)
}

/// The bits of calls that there are.
fn calls_of(rules: Rules) -> u32
    ensures { result ≡ calls_of rules }
{
    match rules {
        Rules::Lenient => 0xff,
        Rules::Strict => 0x1ff,
    }
}

/// The bits of calls that there aren't.
fn stray_bits_of(rules: Rules) -> u32
    ensures { result ≡ stray_bits_of rules }
{
    match rules {
        Rules::Lenient => 0xffff_ff00,
        Rules::Strict => 0xffff_fe00,
    }
}

/// Whether a mask allows a kernel call that there is.
fn has_call(rules: Rules, masks: &Masks) -> bool
    ensures { result ≡ has_call rules masks.now }
{
    masks.calls & calls_of(rules) != 0
}

/// Whether a service has a trap to send by.
fn may_send(masks: &Masks) -> bool
    ensures { result ≡ may_send masks.now }
{
    allows(masks, SEND) || allows(masks, SENDREC) || allows(masks, NOTIFY)
}

/// Whether a service can send by SENDREC alone.
fn only_asks(masks: &Masks) -> bool
    ensures { result ≡ only_asks masks.now }
{
    allows(masks, SENDREC) && !allows(masks, SEND) && !allows(masks, NOTIFY)
}

/// Whether a service has a trap for an answer.
fn may_answer(masks: &Masks) -> bool
    ensures { result ≡ may_answer masks.now }
{
    allows(masks, SEND) || allows(masks, SENDREC)
}

/// Whether a service has a trap to receive by.
fn may_receive(masks: &Masks) -> bool
    ensures { result ≡ may_receive masks.now }
{
    allows(masks, RECEIVE) || allows(masks, SENDREC)
}

/// Appends what can't work, if it is so.
pub(crate) fn push_if(
    found: &mut Vec<Unfit>,
    is_so: bool,
    slot: u32,
    lack: Lack,
) -> Result<(), AllocError>
    ensures { OnOk result (found.new.items ≡ found.old.items ++ if_so is_so slot lack) }
{
    if is_so {
        found.push(Unfit { slot, lack })?;
    }
    Ok(())
}

/// Appends the bits of a service's masks that mean nothing.
#[tactic(auto, unfolding(crate::specs::Unfit::stray_in))]
fn push_stray(
    found: &mut Vec<Unfit>,
    rules: Rules,
    slot: u32,
    masks: &Masks,
) -> Result<(), AllocError>
    ensures { OnOk result (found.new.items ≡ found.old.items ++ stray_in rules slot masks.now) }
{
    let traps = masks.traps & NO_TRAPS;
    let calls = masks.calls & stray_bits_of(rules);
    push_if(found, traps != 0, slot, Lack::StrayTraps(traps))?;
    push_if(found, calls != 0, slot, Lack::StrayCalls(calls))
}

/// Whether a service may send to another one that there is.
fn names_other(count: usize, slot: u32, masks: &Masks, other: u32) -> bool
    ensures { result ≡ names_other count slot masks.now other }
{
    names(masks, other) && (other as usize) < count && other != slot
}

/// Whether a service may send to any other.
#[tactic(auto, unfolding(crate::specs::Unfit::names_some))]
fn names_some(count: usize, slot: u32, masks: &Masks) -> bool
    ensures { result ≡ names_some count slot masks.now }
{
    (0..32u32).any(|other| names_other(count, slot, masks, other))
}

/// Appends what a service's masks allow, and its traps don't.
#[tactic(auto, unfolding(crate::specs::Unfit::lacking_in))]
fn push_lacking(
    found: &mut Vec<Unfit>,
    rules: Rules,
    count: usize,
    slot: u32,
    masks: &Masks,
) -> Result<(), AllocError>
    ensures { OnOk result (found.new.items ≡ found.old.items
        ++ lacking_in rules count slot masks.now) }
{
    let calls = has_call(rules, masks) && !allows(masks, SENDREC);
    let sends = names_some(count, slot, masks) && !may_send(masks);
    push_if(found, calls, slot, Lack::CallsAlone)?;
    push_if(found, sends, slot, Lack::SendsAlone)
}

/// Appends that a service can only ask another, from whom no answer can come.
fn push_silent(
    found: &mut Vec<Unfit>,
    slot: u32,
    masks: &Masks,
    other: u32,
    others: &Masks,
) -> Result<(), AllocError>
    ensures { OnOk result (found.new.items ≡ found.old.items
        ++ silent_in slot masks.now other others.now) }
{
    if !only_asks(masks) {
        return Ok(());
    }
    let named = names(others, slot);
    let silent = named && !may_answer(others);
    push_if(found, !named, slot, Lack::Towards(other, Pair::Unnamed))?;
    push_if(found, silent, slot, Lack::Towards(other, Pair::Unanswered))
}

/// Appends what can't work between a service and another that it may send to.
#[tactic(auto, unfolding(crate::specs::Unfit::towards))]
fn push_towards(
    found: &mut Vec<Unfit>,
    slot: u32,
    masks: &Masks,
    other: u32,
    others: &Masks,
) -> Result<(), AllocError>
    ensures { OnOk result (found.new.items ≡ found.old.items
        ++ towards slot masks.now other others.now) }
{
    push_silent(found, slot, masks, other, others)?;
    push_if(
        found,
        !may_receive(others),
        slot,
        Lack::Towards(other, Pair::Unheard),
    )
}

/// Appends what can't work between a service and that of a slot, if it is another that it may send to.
#[tactic(auto, unfolding(crate::specs::Unfit::towards_at))]
fn push_towards_at(
    found: &mut Vec<Unfit>,
    lines: &[ServiceLine],
    slot: u32,
    masks: &Masks,
    other: u32,
) -> Result<(), AllocError>
    ensures { OnOk result (found.new.items ≡ found.old.items
        ++ towards_at lines.now slot masks.now other) }
{
    if !names_other(lines.len(), slot, masks, other) {
        return Ok(());
    }
    match lines.get(other as usize) {
        Some(line) => push_towards(found, slot, masks, other, &line.terms.masks),
        None => Ok(()),
    }
}

/// Appends what can't work between a service and the others.
fn push_towards_all(
    found: &mut Vec<Unfit>,
    lines: &[ServiceLine],
    slot: u32,
    masks: &Masks,
) -> Result<(), AllocError>
    ensures { OnOk result (found.new.items ≡ found.old.items
        ++ towards_all lines.now slot masks.now) }
{
    for other in 0..32u32 {
        push_towards_at(found, lines, slot, masks, other)?;
    }
    Ok(())
}

/// Appends what can't work of a service with these masks.
#[tactic(auto, unfolding(crate::specs::Unfit::unfit_of))]
fn push_unfit_of(
    found: &mut Vec<Unfit>,
    rules: Rules,
    lines: &[ServiceLine],
    slot: u32,
    masks: &Masks,
) -> Result<(), AllocError>
    ensures { OnOk result (found.new.items ≡ found.old.items
        ++ unfit_of rules lines.now slot masks.now) }
{
    push_stray(found, rules, slot, masks)?;
    push_lacking(found, rules, lines.len(), slot, masks)?;
    push_towards_all(found, lines, slot, masks)
}

/// Appends what can't work of a slot's service, if there is one.
fn push_unfit_at(
    found: &mut Vec<Unfit>,
    rules: Rules,
    lines: &[ServiceLine],
    slot: u32,
) -> Result<(), AllocError>
    ensures { OnOk result (found.new.items ≡ found.old.items ++ unfit_at rules lines.now slot) }
{
    match lines.get(slot as usize) {
        Some(line) => push_unfit_of(found, rules, lines, slot, &line.terms.masks),
        None => Ok(()),
    }
}

/// Appends the masks of a configuration that can't work.
pub(crate) fn push_unfit_masks(found: &mut Vec<Unfit>, config: &Config) -> Result<(), AllocError>
    ensures { OnOk result (found.new.items ≡ found.old.items ++ unfit_masks config.now) }
{
    let rules = config.rules;
    let lines = config.lines.as_slice();
    for slot in 0..32u32 {
        push_unfit_at(found, rules, lines, slot)?;
    }
    Ok(())
}

/// Appends that a slot's program has no instruction, if it has none.
fn push_bare_at(found: &mut Vec<Unfit>, end: &End, slot: u32) -> Result<(), AllocError>
    ensures { OnOk result (found.new.items ≡ found.old.items ++ bare_at end.now slot) }
{
    match end.seat(slot) {
        Some(seat) => push_if(found, seat.is_bare, slot, Lack::NoCode),
        None => Ok(()),
    }
}

/// Appends the slots whose programs have no instruction.
fn push_bare(found: &mut Vec<Unfit>, end: &End) -> Result<(), AllocError>
    ensures { OnOk result (found.new.items ≡ found.old.items ++ bare end.now) }
{
    for slot in 0..32u32 {
        push_bare_at(found, end, slot)?;
    }
    Ok(())
}

/// What can't work by a configuration alone, and by the programs' having an instruction.
#[tactic(auto, unfolding(crate::specs::Unfit::unfit))]
pub(crate) fn unfit_by(alloc: Global, config: &Config, end: &End) -> Result<Vec<Unfit>, AllocError>
    ensures { IfOk result (λ found. found.items ≡ unfit config.now end.now) }
{
    let mut found = Vec::new(alloc);
    push_unfit_masks(&mut found, config)?;
    push_bare(&mut found, end)?;
    Ok(found)
}
