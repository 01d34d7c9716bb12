//! `mx gdb`: a saved history, looked at forward and back by gdb, which sends packets of its remote protocol: a `Stub`
//! answers each, over a walker, with breakpoints and watches; and a `Talk` takes the bytes.
//!
//! # What gdb sees
//!
//! Each slot is a process of one thread, whose number is the slot's and one. Data has the addresses of its segment;
//! code those from 80000000 on, as a program's two segments both begin at 0. A debugger's own stops are positions: of a
//! slot, those right before its steps.
//!
//! # Nothing is written
//!
//! A packet that asks for a change is refused, and a move is a way along the history. So what gdb shows is the machine
//! as it was.
#![tactic(auto)]

mod addresses;
mod console;
mod faults;
mod going;
mod going_back;
mod halts;
mod here;
mod marks;
mod moving;
mod points;
mod ranges;
mod reply_laws;
mod replying;
mod stepping;
mod stops;
mod stub;
mod symbol_files;
mod talk_laws;
mod talking;
mod threads;

pub use reply_laws::{back_returns, history_stays};
pub use talk_laws::one_talk;
pub use talking::{TalkEnding, TalkWanted, gdb};
