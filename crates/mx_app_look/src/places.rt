//! Where one is in a history.

ghost use Rattle.std.specs.Prelude.{◌≡◌, ◌++◌, ◌+◌, OnOk, slice_get};
ghost use Rattle.mx_app_step.specs.Log.{lines_above};
ghost use Rattle.mx_look.specs.Code.{code_line};
ghost use Rattle.mx_machine.specs.World.{held_by};
ghost use Rattle.mx_machine.specs.Machine.{world_of};
ghost use Rattle.mx_walk.specs.Positions.{next_event};
ghost use Rattle.mx_walk.specs.Walks.{refusal_here, world_here};
ghost use Rattle.mx_app_look.specs.Places.{ahead_line, place_text, position_text, process_line, record_line, rest_of_place, step_line};

use mx_aout::Symbol;
use mx_app_step::refusal_line;
use mx_boot::lines_above;
use mx_exec::Image;
use mx_look::{Glance, push_code_line, push_event, push_who};
use mx_machine::{Event, Machine, Record, Refusal};
use mx_print_answers::symbols_of;
use mx_print_report::{push_decimal, push_long};
use mx_walk::{Position, Walker, next_event};
use std::alloc::{AllocError, Global};

/// Appends a position: `K`, or `K.J` inside the next record.
pub(crate) fn push_position(out: &mut Vec<u8>, at: Position) -> Result<(), AllocError>
    ensures { OnOk result (out.new.items ≡ out.old.items ++ position_text at) }
{
    push_long(out, at.records as u64)?;
    if at.steps == 0 {
        return Ok(());
    }
    out.push(b'.')?;
    push_decimal(out, at.steps)
}

/// Appends the next record, with its number.
fn push_record_line(out: &mut Vec<u8>, number: usize, entry: Record) -> Result<(), AllocError>
    ensures { OnOk result (out.new.items ≡ out.old.items ++ record_line number entry) }
{
    out.extend_from_slice(b", record ")?;
    push_long(out, number as u64)?;
    out.extend_from_slice(b": ")?;
    push_decimal(out, u32::from(entry.actor))?;
    out.extend_from_slice(b" ")?;
    push_event(out, entry.event)?;
    out.extend_from_slice(b"\n")
}

/// Appends the line of the next instruction of a process.
fn push_instruction(
    alloc: Global,
    out: &mut Vec<u8>,
    symbols: &[Symbol],
    image: &Image,
) -> Result<(), AllocError>
    ensures { OnOk result (out.new.items ≡ out.old.items
        ++ code_line symbols.now image.now image.now.eip) }
{
    let mut line = String::new(alloc);
    push_code_line(&mut line, symbols, image, image.eip)?;
    out.extend_from_slice(line.as_bytes())
}

/// Appends who is on a processor, and its next instruction, if there is anyone.
fn push_process(
    alloc: Global,
    out: &mut Vec<u8>,
    machine: &Machine,
    cpu: u8,
) -> Result<(), AllocError>
    ensures { OnOk result (out.new.items ≡ out.old.items
        ++ process_line (world_of machine.now) (held_by (world_of machine.now) cpu)) }
{
    let Some(image) = machine.image(cpu) else {
        return Ok(());
    };
    let Some(slot) = machine.slot_on(cpu) else {
        return Ok(());
    };
    push_who(out, &Glance::of(machine), u32::from(slot))?;
    out.extend_from_slice(b" ")?;
    push_instruction(alloc, out, symbols_of(machine.kernel(), slot), image)
}

/// Appends the next step, if the next event is one.
fn push_step(alloc: Global, out: &mut Vec<u8>, walker: &Walker) -> Result<(), AllocError>
    ensures { OnOk result (out.new.items ≡ out.old.items
        ++ step_line (world_here walker.now) (next_event walker.now.records walker.now.here)) }
{
    let Some(next) = next_event(walker.records(), walker.here()) else {
        return Ok(());
    };
    match next.event {
        Event::Step => push_process(alloc, out, walker.machine(), next.actor),
        _ => Ok(()),
    }
}

/// Appends what comes next: the next step; or, if the next event is refused, the line of the history and
/// why.
fn push_ahead(
    alloc: Global,
    out: &mut Vec<u8>,
    walker: &Walker,
    line: usize,
    refusal: Option<Refusal>,
) -> Result<(), AllocError>
    requires { line
        ≡ lines_above (world_here walker.now).table.rules + (walker.now.here.records + 1) }
    ensures { OnOk result (out.new.items ≡ out.old.items ++ ahead_line walker.now refusal) }
{
    match refusal {
        None => push_step(alloc, out, walker),
        Some(refusal) => {
            let text = refusal_line(alloc, line, refusal)?;
            out.extend_from_slice(text.as_bytes())
        }
    }
}

/// Appends the next record and what comes next, or that this is the end.
fn push_rest(
    alloc: Global,
    out: &mut Vec<u8>,
    walker: &Walker,
    refusal: Option<Refusal>,
) -> Result<(), AllocError>
    requires { refusal ≡ refusal_here walker.now }
    ensures { OnOk result (out.new.items ≡ out.old.items
        ++ rest_of_place walker.now (slice_get walker.now.records walker.now.here.records)) }
{
    let here = walker.here();
    match walker.records().get(here.records) {
        None => out.extend_from_slice(b", the end\n"),
        Some(entry) => {
            let number = here.records + 1;
            push_record_line(out, number, *entry)?;
            let line = lines_above(walker.machine().rules()) + number;
            push_ahead(alloc, out, walker, line, refusal)
        }
    }
}

/// Appends where a walker is. Nothing of the walker changes.
#[tactic(auto, unfolding(crate::specs::Places::place_text))]
pub(crate) fn push_place(
    alloc: Global,
    out: &mut Vec<u8>,
    walker: &mut Walker,
) -> Result<(), AllocError>
    ensures text { OnOk result (out.new.items ≡ out.old.items ++ place_text walker.old) }
    ensures same { walker.new ≡ walker.old }
{
    let refusal = walker.refusal();
    out.extend_from_slice(b"at ")?;
    push_position(out, walker.here())?;
    out.extend_from_slice(b" of ")?;
    push_long(out, walker.records().len() as u64)?;
    push_rest(alloc, out, walker, refusal)
}
