//! What is looked at: of a process by its program's symbols, lines of its code as it is in memory now, its stack, its
//! variables, and why an instruction faults, as by a dword outside; and what an event did, as a `Glance` at the worlds
//! before and after it, with slots and processors, what each is doing, and the facts of the transition between them.
//! The trace says these in words: the parties, their endpoints, the numbers and names of calls and results.
//!
//! # In place
//!
//! A glance is about six kilobytes long. `Glance::look` fills one that is there, since a new one is
//! moved from call to call.
//!
//! # From two glances
//!
//! What an event did is worked out from the worlds before and after it; nothing observes it being done, so a machine
//! that nobody looks at pays nothing. That the facts which are found so are what the event did is a law (`look_laws` of
//! `mx_laws`).
#![tactic(auto)]

mod accesses;
mod call_facts;
mod changed_slots;
mod code;
mod code_lines;
mod delivery_facts;
mod doings;
mod fault_lines;
mod faults;
mod glance;
mod heads;
mod images;
mod kept;
mod kernel_calls;
mod nearest;
mod operands;
mod parties;
mod pending;
mod reasons;
mod record;
mod record_lines;
mod refusals;
mod result_names;
mod slot_glances;
mod stack;
mod transition;
mod trap_facts;
mod variables;

pub use accesses::Access;
pub use call_facts::{asks_kernel, kernel_call};
pub use changed_slots::{has_changed, has_rung, is_renewed};
pub use code::{code_part, push_code, push_code_line, push_place};
pub use code_lines::push_code_lines;
pub use delivery_facts::{delivery_to, is_new_bit};
pub use doings::{is_doomed, is_down, is_ready, same_doing};
pub use fault_lines::push_fault_line;
pub use faults::FaultGlance;
pub use glance::{CpuGlance, Glance};
pub use heads::{call_name, push_call, push_event, push_head};
pub use images::ImageGlance;
pub use kernel_calls::{push_request, request_name, request_type};
pub use mx_dis::Part;
pub(crate) use mx_proc::Delivery;
pub use nearest::nearest_symbol;
pub use parties::{push_party, push_who};
pub use pending::push_kept;
pub use reasons::{FaultReason, fault_reason};
pub use record::push_record;
pub use record_lines::{push_change, push_console_line, push_delivery};
pub use refusals::{push_refusal, request_reason};
pub use result_names::push_result;
pub use slot_glances::SlotGlance;
pub use stack::push_stack;
pub use transition::{Transition, about, cpu_in, fault_in, held_after, held_before, slot_in};
pub use trap_facts::{acting, gone_on, got, is_acted};
pub use variables::{push_variable, variable_named, variable_value};
