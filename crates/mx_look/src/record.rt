//! All that is printed of a record.

ghost use Rattle.std.specs.Prelude.{◌≡◌, ◌++◌, OnOk, is_some};
ghost use Rattle.mx_look.specs.Transition.{slot_in};
ghost use Rattle.mx_look.specs.Trace.{alarm_lines, delivery_lines, all_kept_lines, change_lines, record_text};

use crate::fault_lines::push_fault_line;
use crate::heads::push_head;
use crate::pending::push_kept_lines;
use crate::record_lines::{
    push_alarm, push_answer_line, push_change, push_console_line, push_delivery, push_quantum,
};
use crate::{Transition, slot_in};
use std::alloc::AllocError;

/// Whether a slot has a service: of one without nothing is printed.
fn has_service(transition: &Transition, slot: u32) -> bool
    ensures { result ≡ is_some (slot_in transition.now.after slot) }
{
    slot_in(&transition.after, slot).is_some()
}

/// Appends the lines of alarms.
fn push_alarms(out: &mut Vec<u8>, transition: &Transition) -> Result<(), AllocError>
    ensures { OnOk result (out.new.items ≡ out.old.items ++ alarm_lines transition.now) }
{
    for slot in 0..32u32 {
        push_alarm(out, transition, slot)?;
    }
    Ok(())
}

/// Appends the lines of deliveries.
fn push_deliveries(out: &mut Vec<u8>, transition: &Transition) -> Result<(), AllocError>
    ensures { OnOk result (out.new.items ≡ out.old.items ++ delivery_lines transition.now) }
{
    for slot in 0..32u32 {
        if has_service(transition, slot) {
            push_delivery(out, transition, slot)?;
        }
    }
    Ok(())
}

/// Appends the lines of notifications that are kept.
fn push_all_kept(out: &mut Vec<u8>, transition: &Transition) -> Result<(), AllocError>
    ensures { OnOk result (out.new.items ≡ out.old.items ++ all_kept_lines transition.now) }
{
    for slot in 0..32u32 {
        if has_service(transition, slot) {
            push_kept_lines(out, transition, slot)?;
        }
    }
    Ok(())
}

/// Appends the lines of slots that do something else, or have new quanta.
fn push_changes(out: &mut Vec<u8>, transition: &Transition) -> Result<(), AllocError>
    ensures { OnOk result (out.new.items ≡ out.old.items ++ change_lines transition.now) }
{
    for slot in 0..32u32 {
        if has_service(transition, slot) {
            push_change(out, transition, slot)?;
            push_quantum(out, transition, slot)?;
        }
    }
    Ok(())
}

/// Appends what a record did: its own line, and a line for each thing that came of it.
#[tactic(auto, unfolding(crate::specs::Trace::record_text))]
pub fn push_record(out: &mut Vec<u8>, transition: &Transition) -> Result<(), AllocError>
    ensures { OnOk result (out.new.items ≡ out.old.items ++ record_text transition.now) }
{
    push_head(out, transition)?;
    push_fault_line(out, transition)?;
    push_answer_line(out, transition)?;
    push_console_line(out, transition)?;
    push_alarms(out, transition)?;
    push_deliveries(out, transition)?;
    push_all_kept(out, transition)?;
    push_changes(out, transition)
}
