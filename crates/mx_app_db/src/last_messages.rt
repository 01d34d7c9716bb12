//! The last deliveries, with their words as far as their receivers still have them.

ghost use Rattle.std.specs.Prelude.{◌≡◌, ◌≤◌, ◌++◌, OnOk, length, string_bytes};
ghost use Rattle.mx_app_step.specs.Machine.{world_of};
ghost use Rattle.mx_look.specs.Transition.{slot_in};
ghost use Rattle.mx_machine.specs.History.{replay};
ghost use Rattle.mx_proc.specs.EndpointNumbers.{slot_of};
ghost use Rattle.mx_app_db.specs.LastMessages.{if_of, is_of, kept_line, kept_words, last_lines, last_of, recorded, spaced, words_seen};

use mx_look::{Glance, SlotGlance, slot_in};
use mx_machine::{Kernel, Machine};
use mx_print_answers::{Debugger, push_delivery};
use mx_proc::{Delivery, KEPT_DELIVERIES, slot_of};
use std::alloc::AllocError;
use std::fmt::Write;

/// Whether a message is that of a delivery, by its sender and its type.
fn is_of(words: &[u32; 9], delivery: Delivery) -> bool
    ensures { result ≡ is_of words.now delivery }
{
    words[0] == delivery.from && words[1] == delivery.message_type
}

/// The message at a process's buffer, if it is that of a delivery.
fn words_at(seen: &SlotGlance, delivery: Delivery) -> Option<[u32; 9]>
    ensures { result ≡ if_of delivery seen.now.image.words }
{
    match &seen.image.words {
        Some(words) => if is_of(words, delivery) {
            Some(*words)
        } else {
            None
        },
        None => None,
    }
}

/// The message of a delivery, if its receiver still has it. While the receiver is on a processor there is none.
fn words_of(glance: &Glance, delivery: Delivery) -> Option<[u32; 9]>
    ensures { result ≡ words_seen delivery (slot_in glance.now (slot_of delivery.to)) }
{
    match slot_in(glance, slot_of(delivery.to)) {
        Some(seen) => words_at(seen, delivery),
        None => None,
    }
}

/// Appends numbers, each after a space.
fn push_spaced(out: &mut String, numbers: &[u32]) -> Result<(), AllocError>
    ensures { OnOk result (string_bytes out.new ≡ string_bytes out.old ++ spaced numbers.now) }
{
    for number in numbers {
        write!(out, " {number}")?;
    }
    Ok(())
}

/// Appends the words p0 to p6 of a message, if there is one.
fn push_words(out: &mut String, words: Option<[u32; 9]>) -> Result<(), AllocError>
    ensures { OnOk result (string_bytes out.new ≡ string_bytes out.old ++ kept_words words) }
{
    match words {
        Some(words) => {
            out.push_str(" words")?;
            push_spaced(out, &words[2..])
        }
        None => Ok(()),
    }
}

/// Appends the line of a delivery with its words.
fn push_kept_line(out: &mut String, glance: &Glance, delivery: Delivery) -> Result<(), AllocError>
    ensures { OnOk result (string_bytes out.new ≡ string_bytes out.old
        ++ kept_line glance.now delivery) }
{
    push_delivery(out, delivery)?;
    push_words(out, words_of(glance, delivery))?;
    out.push_str("\n")
}

/// How many deliveries are recorded: a table has at most 1,024.
fn delivery_count(kernel: &Kernel) -> usize
    ensures count { result ≡ length (recorded (replay kernel.now).table.deliveries) }
    ensures few { result ≤ 1024 }
{
    for count in 0..KEPT_DELIVERIES {
        match Debugger::message(kernel, count) {
            Some(_) => {}
            None => return count,
        }
    }
    KEPT_DELIVERIES
}

/// Appends the lines of the last deliveries, at most so many, the oldest first.
fn push_last(
    out: &mut String,
    kernel: &Kernel,
    glance: &Glance,
    most: u32,
) -> Result<(), AllocError>
    ensures { OnOk result (string_bytes out.new ≡ string_bytes out.old
        ++ last_of glance.now (replay kernel.now).table.deliveries most) }
{
    let count = delivery_count(kernel);
    let first = count.saturating_sub(most as usize);
    for index in first..count {
        match Debugger::message(kernel, index) {
            Some(delivery) => push_kept_line(out, glance, delivery)?,
            None => unreachable!(),
        }
    }
    Ok(())
}

/// Appends the lines of the last deliveries, at most so many, the oldest first: `1 0 7 message words 5 0 0 0 0 0 0`.
#[tactic(auto, unfolding(mx_machine::specs::Machine::world_of))]
pub(crate) fn push_last_messages(
    out: &mut String,
    machine: &Machine,
    most: u32,
) -> Result<(), AllocError>
    ensures { OnOk result (string_bytes out.new ≡ string_bytes out.old
        ++ last_lines (world_of machine.now) most) }
{
    let glance = Glance::of(machine);
    push_last(out, machine.kernel(), &glance, most)
}
