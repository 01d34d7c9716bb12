//! The history: what the kernel records of each accepted event.

/// An accepted event, as the history records it. A step has no record of its own: `Back` has the number of
/// steps that the process made.
#[derive(Clone, Copy, PartialEq, Eq)]
pub enum Recorded {
    /// A processor took a process.
    Take,
    /// A processor brought its process back. The number counts the steps since the `Take`.
    Back(u32),
    /// An actor raised the interrupt line with this number, 0 to 15.
    Line(u32),
    /// The clock ticked.
    Tick,
    /// An actor killed the process with this endpoint.
    Kill(u32),
    /// An actor gave the slot with this number a new process.
    Respawn(u32),
}

/// A record of the history: an accepted event, and who made it. For example, processor 0 brings its
/// process back after 4 steps: then `actor` is 0 and `event` is `Back(4)`.
#[derive(Clone, Copy, PartialEq, Eq)]
pub struct Record {
    /// The actor's number. Processors come first, from 0 on; then come the others.
    pub actor: u8,
    pub event: Recorded,
}
