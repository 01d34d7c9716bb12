//! What a command works with.

/// What a command works with: the files that it reads, those that it writes, and where it prints.
#[derive(Drop)]
pub struct Channels<R: Drop, F: Drop, W: Drop> {
    pub reader: R,
    pub files: F,
    pub out: W,
}
