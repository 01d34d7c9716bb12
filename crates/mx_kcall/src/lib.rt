//! Calls to the kernel, as `KernelCall`s and rows of `CallName`s: reasons against them, grants, copies, words
//! of replies; interrupt lines; and the clock with its alarms. `rows` has the table of calls. A call is refused
//! by its type, then by the mask of calls, then by reasons of its own (`refusals`); else `serving` changes the
//! table and writes the reply.
//!
//! # Why a call is a value, and what it does another
//!
//! The words of a request become a `KernelCall` once (`request`), so neither refusals nor service read them again. What
//! may refuse a call, and what its reply says, depends on what a call may know of the table: no byte of a memory
//! (`specs/Known`). What it does to the table is one of eight effects (`specs/Effects`). So the laws of isolation
//! (`mx_laws`) go over effects and not over calls, and a new call with an old effect needs no new law.
#![tactic(auto)]

mod clock;
mod refusals;
mod request;
mod rows;
mod serving;
mod windows;

pub use clock::{raise, tick};
pub use mx_respawn::{Name, Service, die, is_worn, respawn};
pub use request::{After, CopyRange, KernelCall, ReplyWords, VirtualAddress, WindowGrant};
pub use rows::{CALLS, CallName, CallRow, FIRST_CALL, ReplyCount, call_row, is_there, row_under};
pub use serving::call;
pub use windows::{is_strict, window_allows};
