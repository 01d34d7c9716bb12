//! A record's own line.

ghost use Rattle.std.specs.Prelude.{◌≡◌, ◌++◌, OnOk};
ghost use Rattle.mx_look.specs.Trace.{event_text, call_name, call_text, stop_text, doom_text, return_text, take_text, subject_text, about_text, head_line};

use crate::kernel_calls::push_request;
use crate::parties::{push_party, push_who};
use crate::{CpuGlance, Glance, Transition, about, held_after, held_before, is_doomed, slot_in};
use mx_image::Stop;
use mx_machine::Recorded;
use mx_print_report::{push_counted, push_decimal};
use std::alloc::AllocError;

/// Appends what was recorded, as a saved history has it.
pub fn push_event(out: &mut Vec<u8>, event: Recorded) -> Result<(), AllocError>
    ensures { OnOk result (out.new.items ≡ out.old.items ++ event_text event) }
{
    match event {
        Recorded::Take => out.extend_from_slice(b"take"),
        Recorded::Back(steps) => push_counted(out, b"back", steps),
        Recorded::Line(line) => push_counted(out, b"line", line),
        Recorded::Tick => out.extend_from_slice(b"tick"),
        Recorded::Kill(endpoint) => push_counted(out, b"kill", endpoint),
        Recorded::Respawn(slot) => push_counted(out, b"respawn", slot),
    }
}

/// The name of a trap's call, or nothing.
#[tactic(auto, unfolding(crate::specs::Trace::call_name))]
pub fn call_name(call: u32) -> &'static [u8]
    ensures { result.now ≡ call_name call }
{
    match call {
        1 => b"SEND",
        2 => b"RECEIVE",
        3 => b"SENDREC",
        4 => b"NOTIFY",
        _ => b"",
    }
}

/// Appends the name or the number of a call.
#[tactic(auto, unfolding(crate::specs::Trace::call_text))]
pub fn push_call(out: &mut Vec<u8>, call: u32) -> Result<(), AllocError>
    ensures { OnOk result (out.new.items ≡ out.old.items ++ call_text call) }
{
    let name = call_name(call);
    if name.is_empty() {
        push_decimal(out, call)
    } else {
        out.extend_from_slice(name)
    }
}

/// Appends how the steps of a process ended.
#[tactic(auto, unfolding(crate::specs::Trace::stop_text))]
fn push_stop(out: &mut Vec<u8>, glance: &Glance, held: &CpuGlance) -> Result<(), AllocError>
    ensures { OnOk result (out.new.items ≡ out.old.items ++ stop_text glance.now held.now) }
{
    match held.stop {
        Stop::Spent if held.count < held.budget => out.extend_from_slice(b"early"),
        Stop::Spent => out.extend_from_slice(b"spent"),
        Stop::Fault(vector) => push_counted(out, b"fault", u32::from(vector)),
        Stop::Trap => {
            out.extend_from_slice(b"trap ")?;
            push_call(out, held.image.ecx)?;
            out.push(b' ')?;
            push_party(out, glance, held.image.eax)?;
            push_request(out, glance.rules, held)
        }
    }
}

/// Appends whether a slot's process is doomed.
#[tactic(auto, unfolding(crate::specs::Trace::doom_text))]
fn push_doom(out: &mut Vec<u8>, glance: &Glance, slot: u32) -> Result<(), AllocError>
    ensures { OnOk result (out.new.items ≡ out.old.items ++ doom_text glance.now slot) }
{
    match slot_in(glance, slot) {
        Some(seen) if is_doomed(seen.doing) => out.extend_from_slice(b", doomed"),
        _ => Ok(()),
    }
}

/// Appends who comes back, and how its steps ended.
#[tactic(auto, unfolding(crate::specs::Trace::return_text))]
fn push_return(out: &mut Vec<u8>, transition: &Transition) -> Result<(), AllocError>
    ensures { OnOk result (out.new.items ≡ out.old.items ++ return_text transition.now) }
{
    let Some(held) = held_before(transition) else {
        return Ok(());
    };
    let slot = u32::from(held.slot);
    push_who(out, &transition.before, slot)?;
    out.push(b' ')?;
    push_stop(out, &transition.before, held)?;
    push_doom(out, &transition.before, slot)
}

/// Appends who is taken, and how many steps it may make.
#[tactic(auto, unfolding(crate::specs::Trace::take_text))]
fn push_take(out: &mut Vec<u8>, transition: &Transition) -> Result<(), AllocError>
    ensures { OnOk result (out.new.items ≡ out.old.items ++ take_text transition.now) }
{
    let Some(held) = held_after(transition) else {
        return Ok(());
    };
    push_who(out, &transition.after, u32::from(held.slot))?;
    push_counted(out, b" budget", held.budget)
}

/// Appends the slot that a record is about, as it is in a world.
#[tactic(auto, unfolding(crate::specs::Trace::subject_text))]
fn push_subject(
    out: &mut Vec<u8>,
    transition: &Transition,
    glance: &Glance,
) -> Result<(), AllocError>
    ensures { OnOk result (out.new.items ≡ out.old.items ++ subject_text transition.now glance.now) }
{
    match about(transition) {
        Some(slot) => push_who(out, glance, slot),
        None => Ok(()),
    }
}

/// Appends what a record is about.
#[tactic(auto, unfolding(crate::specs::Trace::about_text))]
fn push_about(out: &mut Vec<u8>, transition: &Transition) -> Result<(), AllocError>
    ensures { OnOk result (out.new.items ≡ out.old.items ++ about_text transition.now) }
{
    match transition.event {
        Recorded::Take => push_take(out, transition),
        Recorded::Back(_) => push_return(out, transition),
        Recorded::Tick => push_counted(out, b"uptime", transition.after.uptime),
        Recorded::Line(_) | Recorded::Kill(_) => push_subject(out, transition, &transition.before),
        Recorded::Respawn(_) => push_subject(out, transition, &transition.after),
    }
}

/// Appends a record's own line: its number, its actor, its event, and what it is about.
#[tactic(auto, unfolding(crate::specs::Trace::head_line))]
pub fn push_head(out: &mut Vec<u8>, transition: &Transition) -> Result<(), AllocError>
    ensures { OnOk result (out.new.items ≡ out.old.items ++ head_line transition.now) }
{
    push_decimal(out, transition.number)?;
    out.push(b' ')?;
    push_decimal(out, u32::from(transition.actor))?;
    out.push(b' ')?;
    push_event(out, transition.event)?;
    out.extend_from_slice(b": ")?;
    push_about(out, transition)?;
    out.push(b'\n')?;
    Ok(())
}
