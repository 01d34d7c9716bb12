//! Windows, by which processes let one another copy their memory; and the rules for such copies.

/// How a window may be used.
#[derive(Clone, Copy, PartialEq, Eq)]
pub enum Access {
    /// The other process may copy from it.
    Read,
    /// The other process may copy to it.
    Write,
    /// The other process may do both.
    Both,
}

/// A range of a process's memory that another process may copy from or to.
#[derive(Clone, Copy, PartialEq, Eq)]
pub struct Window {
    /// The address of its first byte.
    pub place: u32,
    /// How many bytes it has.
    pub count: u32,
    pub access: Access,
}

/// The rules for copies between processes. A machine has one of them from its boot on.
#[derive(Clone, Copy, PartialEq, Eq)]
pub enum Rules {
    /// Rules 1: a process that may make the call can copy between any two processes. Nobody opens windows.
    Lenient,
    /// Rules 2: a process can copy from or to another's memory only through a window. The other process has
    /// to open it.
    Strict,
}
