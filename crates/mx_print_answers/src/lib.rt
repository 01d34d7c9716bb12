//! How a machine's answers are printed, as a `Said`: registers, flags and stops, refusals, halts, and the
//! answers to events, to runs and to questions about memory and messages.
#![tactic(auto)]

mod messages;
mod processes;
mod refused;
mod registers;
mod runs;
mod said;
mod slot_process;
mod stops;

pub use messages::{push_delivery, push_messages};
pub use mx_debug::{DebugError, Debugger, Halt, HaltCause};
pub use processes::{push_byte, push_memory, push_process};
pub use refused::{Refused, push_done};
pub use registers::push_registers;
pub use runs::push_run;
pub use said::{Said, said_of};
pub use slot_process::{
    address_asked, image_in, push_memory_at, push_memory_of, push_registers_of, slot_named,
    symbols_of,
};
pub use stops::push_stop;
