//! Items of a configuration: what one line of it can set.

use crate::service::ServiceWords;
use mx_proc::Rules;

/// What a line of a configuration sets. It takes no memory: a file's name is a part of the line.
#[derive(Clone, Copy)]
pub enum ConfigItem<'a> {
    /// How many processors there are.
    Cpus(u8),
    /// How many records the history has room for.
    Log(u32),
    /// How many other actors there are.
    Others(u8),
    /// By which rules the machine copies between processes.
    ByRules(Rules),
    Service(ServiceWords<'a>),
}
