//! What the picture shows of the worlds between the transitions of a run.

ghost use Rattle.std.specs.Prelude.{◌≡◌};
ghost use Rattle.mx_app_draw.specs.Scene.{world_at, number_at, holds, cpu_of, standing_of, same_cpu, same_standing, same_seen};

use crate::{Glance, Scene, Standing};
use mx_look::{cpu_in, same_doing, slot_in};

/// The world of a column in the strip whose first transition has the index `place`. Column 0 has the world before
/// the strip, and column c the world after the strip's c-th transition.
#[tactic(auto, unfolding(crate::specs::Scene::world_at))]
pub(crate) fn world_at(scene: &Scene, place: u32, column: u32) -> &Glance
    ensures { result.now ≡ world_at scene.now place column }
{
    if column == 0 {
        return match scene.transitions.get(place as usize) {
            Some(transition) => &transition.before,
            None => &scene.world,
        };
    }
    match scene.transitions.get(place as usize + column as usize - 1) {
        Some(transition) => &transition.after,
        None => &scene.world,
    }
}

/// The number of the last record before the world of a column.
#[tactic(auto, unfolding(crate::specs::Scene::number_at))]
pub(crate) fn number_at(scene: &Scene, place: u32, column: u32) -> u32
    ensures { result ≡ number_at scene.now place column }
{
    if column == 0 {
        return match scene.transitions.get(place as usize) {
            Some(transition) => transition.number.saturating_sub(1),
            None => scene.first.saturating_sub(1),
        };
    }
    match scene.transitions.get(place as usize + column as usize - 1) {
        Some(transition) => transition.number,
        None => scene.first,
    }
}

/// Whether a processor holds the process of a slot.
fn holds(glance: &Glance, slot: u32, cpu: u8) -> bool
    ensures { result ≡ holds glance.now slot cpu }
{
    match cpu_in(glance, cpu) {
        Some(held) => u32::from(held.slot) == slot,
        None => false,
    }
}

/// The processor that holds the process of a slot.
fn cpu_of(glance: &Glance, slot: u32) -> Option<u8>
    ensures { result ≡ cpu_of glance.now slot }
{
    (0..8u8).find(|cpu| holds(glance, slot, *cpu))
}

/// What the picture shows of a slot in this world, or `None` if there is no such slot.
#[tactic(auto, unfolding(crate::specs::Scene::standing_of))]
pub(crate) fn standing_of(glance: &Glance, slot: u32) -> Option<Standing>
    ensures { result ≡ standing_of glance.now slot }
{
    let seen = slot_in(glance, slot)?;
    Some(Standing {
        name: seen.name,
        endpoint: seen.endpoint,
        doing: seen.doing,
        cpu: cpu_of(glance, slot),
    })
}

/// Whether both are on one processor, or on none.
fn same_cpu(a: Option<u8>, b: Option<u8>) -> bool
    ensures { result ≡ same_cpu a b }
{
    match (a, b) {
        (None, None) => true,
        (Some(a), Some(b)) => a == b,
        _ => false,
    }
}

/// Whether two columns of a slot belong to one bar: same endpoint, same doing, same processor.
fn same_standing(a: &Standing, b: &Standing) -> bool
    ensures { result ≡ same_standing a.now b.now }
{
    a.endpoint == b.endpoint && same_doing(a.doing, b.doing) && same_cpu(a.cpu, b.cpu)
}

/// Whether two columns of a slot belong to one bar, if they may have no such slot: two without it
/// belong together too.
pub(crate) fn same_seen(a: &Option<Standing>, b: &Option<Standing>) -> bool
    ensures { result ≡ same_seen a.now b.now }
{
    match (a, b) {
        (None, None) => true,
        (Some(a), Some(b)) => same_standing(a, b),
        _ => false,
    }
}
