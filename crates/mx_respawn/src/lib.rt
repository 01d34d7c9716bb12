//! How a process dies, which receivers then wake, and how its service gets a new one, if it isn't worn out.
//!
//! # Why a death is five calls
//!
//! Nobody may wait for a process that is dead, or a server's end would stop its clients for ever. So `die` takes the
//! process out of its queue, lets those go on that send to it, and then those that receive from it alone, with an error
//! that says so; makes the others forget it (bits, windows, lines); and marks it dead. Its slot's next process has a
//! higher generation. So an endpoint that is older names nobody, and a client whose call ends so looks its server up
//! again. A respawn loads the program into the pages of the dead process, and takes no memory.
#![tactic(auto)]

mod death;
mod respawning;
mod service;

pub use death::die;
pub use mx_ipc::{go_on, notify};
pub use mx_text::Name;
pub use respawning::{is_worn, respawn};
pub use service::Service;
