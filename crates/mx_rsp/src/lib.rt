//! The remote serial protocol of gdb, as texts: packets with checksums and escapes, what is heard of bytes as they
//! come, the requests that packets make, and the texts of replies.
#![tactic(auto)]

mod fields;
mod hearing;
mod moves;
mod packet;
mod replies;
mod request;
mod words;

pub use fields::Which;
pub use hearing::{Heard, Reader};
pub use moves::{Action, Move, Resume};
pub use packet::packet_of;
pub use replies::{
    ACTIONS, DONE, FAULT, Stop, StopReason, TARGET, ThreadName, push_bytes, push_features,
    push_part, push_register, push_registers, push_stop, push_thread, push_threads,
};
pub use request::{Point, Request, request_of};
pub use words::Word;
