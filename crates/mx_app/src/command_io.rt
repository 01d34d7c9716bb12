//! What a command works with.

use mx_app_start::Channels;

/// What a command works with: its files and its text, the lines that are typed for it, who sits at its machine, and what
/// is shown its progress.
#[derive(Drop)]
pub struct CommandIo<R: Drop, F: Drop, W: Drop, L: Drop, O: Drop, P: Drop> {
    pub channels: Channels<R, F, W>,
    /// The lines that are typed. Only `look` takes any, and `gdb` bytes.
    pub lines: L,
    /// Who sits at the machine of `turns --live`.
    pub seat: O,
    /// What is shown how far a command is.
    pub progress: P,
    /// Whether `look` prints the position before each line.
    pub asks: bool,
}
