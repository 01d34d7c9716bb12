//! The laws of isolation and of looking at a run: functions without a body of their own, whose contracts are the
//! promises.
//!
//! # Why laws
//!
//! A contract says what one call does. That a process can't read or change another's memory is about any events in a
//! row on any two machines, and no call promises it. So it is said of the definition of what events do (`Move`), which
//! the contracts of the kernel are about, and it holds of whatever is proved to do that: one thread, threads, a replay.
//!
//! # Isolation, from two sides
//!
//! *Secrecy* (`secrecy_laws`): two machines that differ in one process's image answer each event alike, and go on to
//! differ in it alone, until that process steps or returns, or a message or a copy is taken from it. So nobody learns
//! of an image what wasn't sent or opened. *Diaries* (`diary_laws`): an image is what its diary makes of its program:
//! its own steps, the results and messages of its own calls, and copies that were allowed. So nobody changes an image
//! otherwise. No code keeps a diary; it is a function of the event and the machine before it.
//!
//! # Looking
//!
//! What is printed of an event is worked out from the worlds before and after it. `look_laws` say that this is what the
//! event did.
//!
//! # Rest
//!
//! Who waits where nothing can wake anybody waits for ever (`rest_laws`): no events but kills change that machine.
#![tactic(auto)]

mod diary_laws;
mod look_laws;
mod rest_laws;
mod secrecy_laws;

pub use diary_laws::{
    copies_go_through_windows, diaries_have_entries, diaries_tell_images, diaries_tell_runs,
    kernels_agree, kernels_tell_images, lives_tell_images, others_leave_images,
};
pub use look_laws::{bytes_give_console, told_are_made, told_gone_on};
pub use rest_laws::still_machines_stay;
pub use secrecy_laws::{all_else_is_same, images_stay_secret, other_images_differ, rules_stay};
