//! The scene of a history: what is drawn of it.

ghost use Rattle.std.specs.Prelude.{◌≡◌, ◌<◌, ◌≤◌, ◌+◌, ◌^◌, All, IfOk, length, max};
ghost use Rattle.mx_app_step.specs.Machine.{world_of};
ghost use Rattle.mx_machine.specs.declared.history.Record.{Record as Noted};
ghost use Rattle.mx_machine.specs.World.{actors};
ghost use Rattle.mx_app_draw.specs.Picture.{IsDrawable};
ghost use Rattle.mx_app_draw.specs.Scenes.{IsHistoryScene, refused_line, told_number};

use crate::scene_values::Scene;
use crate::seeing::see_records;
use mx_app_step::lines_above;
use mx_machine::{Machine, Record, Refusal};
use std::alloc::{AllocError, Global};

/// A number as one of 32 bits: of a larger one, the largest of these.
fn told_number(number: usize) -> u32
    ensures { result ≡ told_number number }
{
    number.min(u32::MAX as usize) as u32
}

/// How many services a machine has.
#[tactic(auto, unfolding(mx_machine::specs::Machine::world_of))]
fn service_count(machine: &Machine) -> u32
    ensures count { result ≡ length (world_of machine.now).services }
    ensures few { result ≤ 32 }
{
    machine.sound();
    machine.kernel().services().len() as u32
}

/// The line of a record by its number, if `above` lines are above the first record.
fn refused_line(above: usize, refused: Option<(usize, Refusal)>) -> Option<(u32, Refusal)>
    requires { above ≤ 1 }
    ensures { result ≡ refused_line above refused }
{
    let (number, refusal) = refused?;
    Some((told_number(above.saturating_add(number)), refusal))
}

/// Which part of which history a picture shows.
#[derive(Clone, Copy)]
pub(crate) struct DrawnPart {
    /// How many processors the machine has.
    pub processors: u32,
    /// How many records the whole history has.
    pub total: usize,
    /// The place of the first record that is drawn. The first of the history is 1.
    pub from: u32,
}

/// Makes records, which are the first of a history, up to the first that is refused, and answers what is
/// drawn of them.
pub(crate) fn scene_of(
    alloc: Global,
    machine: &mut Machine,
    records: &[Record],
    part: DrawnPart,
) -> Result<Scene, AllocError>
    requires few { length records.now < 2 ^ 32 }
    requires actors { All (λ (x : Noted). x.actor < actors (world_of machine.old)) records.now }
    requires drawn { length records.now ≤ max part.from 1 + 999 }
    ensures scene { IfOk result (λ scene.
        IsHistoryScene (world_of machine.old) part.processors part.total records.now part.from
        scene) }
    ensures drawable { IfOk result (λ scene. IsDrawable scene) }
{
    let services = service_count(machine);
    let above = lines_above(machine.rules());
    let seen = see_records(alloc, machine, records, part.from)?;
    Ok(Scene {
        first: part.from.max(1),
        total: told_number(part.total),
        processors: part.processors,
        services,
        world: seen.world,
        transitions: seen.transitions,
        refused: refused_line(above, seen.refused),
    })
}
