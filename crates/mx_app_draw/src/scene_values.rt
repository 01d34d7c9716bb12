//! The scene: the run that a picture is drawn from.

use mx_look::{Glance, Transition};
use mx_machine::Refusal;
use mx_print_report::Doing;
use mx_text::Name;

/// A run that is drawn: some of its records, one after the other.
#[derive(Drop)]
pub struct Scene {
    /// The number that its first record has, or would have if there were one.
    pub first: u32,
    /// How many records the history has.
    pub total: u32,
    pub processors: u32,
    pub services: u32,
    /// The world at the end.
    pub world: Glance,
    pub transitions: Vec<Transition>,
    /// The line of the record that is refused after these transitions, and why.
    pub refused: Option<(u32, Refusal)>,
}

/// What is drawn of a slot in a world.
#[derive(Clone, Copy)]
pub struct Standing {
    pub name: Name,
    pub endpoint: u32,
    pub doing: Doing,
    /// The processor that it is on.
    pub cpu: Option<u8>,
}
