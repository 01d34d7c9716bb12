//! How a round of the respawner ended, by which its loop goes on or ends.

/// Whether a loop goes on.
#[derive(Clone, Copy)]
pub(crate) enum Progress {
    GoesOn,
    /// The history is full.
    Full,
}
