//! Services: a program and its terms, from which each process of a slot is made.

use mx_load::Program;
use mx_proc::Terms;
use mx_text::Name;

/// What a slot is booted and respawned from.
pub struct Service {
    pub name: Name,
    pub program: Program,
    /// What the service gives its processes.
    pub terms: Terms,
}

impl Drop for Service {
    fn drop(self) {
        let Service {
            name: _,
            program: _,
            terms: _,
        } = self;
    }
}
