//! What a talk with gdb has in hand.

use crate::threads::Threads;
use mx_app_look::Sight;

/// A walker with points, the files that gdb reads symbols from, by slot, and which processes gdb has.
#[derive(Drop)]
pub struct Stub {
    pub sight: Sight,
    pub files: Vec<Vec<u8>>,
    pub threads: Threads,
}
