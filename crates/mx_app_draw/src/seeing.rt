//! What is seen of a history's records.
//!
//! # As a trace, but with all transitions
//!
//! The records are walked by `look_record`, as by `mx trace`. The transitions are put into a list, since
//! the size of the paper comes before the first value.

ghost use Rattle.std.specs.Prelude.{◌≡◌, ◌<◌, ◌≤◌, ◌^◌, ◌++◌, All, IfOk, IfSome, OnOk, length};
ghost use Rattle.mx_app_step.specs.Machine.{world_of};
ghost use Rattle.mx_machine.specs.declared.history.Record.{Record as Noted};
ghost use Rattle.mx_machine.specs.World.{actors};
ghost use Rattle.mx_app_draw.specs.Scenes.{IsSeen, drawn_of, last_drawn};

use mx_app_step::{look_record, resting_transition};
use mx_look::{Glance, Transition};
use mx_machine::{Machine, Record, Refusal};
use std::alloc::{AllocError, Global};

/// The most records that are drawn.
const MOST_DRAWN: u32 = 1000;

/// What is seen of records that are made one after the other.
#[derive(Drop)]
pub(crate) struct Seen {
    /// The records that are drawn.
    pub(crate) transitions: Vec<Transition>,
    /// The world after the records that were made.
    pub(crate) world: Glance,
    /// The number of the record that is refused, the first having the number 1, and why.
    pub(crate) refused: Option<(usize, Refusal)>,
}

/// The last record that is drawn of those from `from` to `to`.
pub(crate) fn last_drawn(from: u32, to: u32) -> u32
    ensures { result ≡ last_drawn from to }
{
    from.max(1).saturating_add(MOST_DRAWN - 1).min(to)
}

/// Appends a step, if it is one from `from` on.
fn keep_transition(
    transitions: &mut Vec<Transition>,
    transition: &Transition,
    from: u32,
) -> Result<(), AllocError>
    ensures { OnOk result (transitions.new.items ≡ transitions.old.items
        ++ drawn_of from transition.now) }
{
    if transition.number >= from {
        transitions.push(*transition)?;
    }
    Ok(())
}

/// Makes records up to the first that is refused, and appends each from `from` on as a step.
pub(crate) fn see_records(
    alloc: Global,
    machine: &mut Machine,
    records: &[Record],
    from: u32,
) -> Result<Seen, AllocError>
    requires few { length records.now < 2 ^ 32 }
    requires actors { All (λ (x : Noted). x.actor < actors (world_of machine.old)) records.now }
    ensures seen { IfOk result (λ seen. IsSeen (world_of machine.old) records.now from seen) }
    ensures few { IfOk result (λ seen. IfSome seen.refused (λ p. p.0 ≤ length records.now)) }
{
    let mut transitions = Vec::new(alloc);
    let mut transition = resting_transition(machine);
    let mut world = transition.after;
    for (index, entry) in records.iter().enumerate() {
        let number = index as u32 + 1;
        match look_record(machine, number, *entry, &mut transition) {
            Ok(()) => keep_transition(&mut transitions, &transition, from)?,
            Err(refusal) => {
                let refused = Some((number as usize, refusal));
                return Ok(Seen {
                    transitions,
                    world,
                    refused,
                });
            }
        }
        world = transition.after;
    }
    Ok(Seen {
        transitions,
        world,
        refused: None,
    })
}
