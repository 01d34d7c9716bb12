//! The report on a machine's table of processes, as text.

ghost use Rattle.std.specs.Prelude.{◌≡◌, ◌<◌, ◌++◌, OnOk, IfOk, codes, length};
ghost use Rattle.std.specs.Fmt.{decimal};
ghost use Rattle.mx_print_report.specs.Report.{slot_line, slot_lines, report_text};

use crate::doing::Naming;
use crate::printed_numbers::{push_decimal, push_number};
use crate::process_fields::push_process;
use mx_proc::{Console, Slot, Table};
use mx_respawn::Service;
use mx_word::NoMemory;
use std::alloc::{AllocError, Global};

/// Appends the line of a slot whose service has a name.
fn push_slot(out: &mut Vec<u8>, table: &Table, slot: Slot, name: &[u8]) -> Result<(), AllocError>
    requires { slot < length table.now.slots }
    ensures { OnOk result (out.new.items ≡ out.old.items ++ slot_line table.now slot name.now) }
{
    let process = table.process(slot);
    push_decimal(out, u32::from(slot))?;
    out.push(b' ')?;
    push_process(out, Naming::Endpoints, table, slot, name)?;
    push_number(out, u32::from(process.schedule.level))?;
    push_number(out, process.schedule.ticks)?;
    out.push(b'\n')?;
    Ok(())
}

/// Appends the lines of services.
#[tactic(auto, using(crate::proofs::Steps::slot_lines_more))]
fn push_slots(out: &mut Vec<u8>, table: &Table, services: &[Service]) -> Result<(), AllocError>
    requires { length services.now ≡ length table.now.slots }
    ensures { OnOk result (out.new.items ≡ out.old.items ++ slot_lines table.now 0 services.now) }
{
    for slot in 0..table.slot_count() {
        push_slot(out, table, slot, &services[slot as usize].name.bytes)?;
    }
    Ok(())
}

/// Appends a line that counts something.
pub fn push_count(out: &mut Vec<u8>, word: &[u8], count: u32) -> Result<(), AllocError>
    ensures { OnOk result (out.new.items ≡ out.old.items
        ++ (word.now ++ decimal count ++ codes "\n")) }
{
    out.extend_from_slice(word)?;
    push_decimal(out, count)?;
    out.push(b'\n')?;
    Ok(())
}

/// Appends the bytes that the console still holds.
pub fn push_console(out: &mut Vec<u8>, console: &Console) -> Result<(), AllocError>
    ensures { OnOk result (out.new.items ≡ out.old.items ++ console.now.kept) }
{
    let mut index = 0;
    while let Some(byte) = console.get(index) {
        out.push(byte)?;
        index += 1;
    }
    Ok(())
}

/// The report on a table of processes. For each service, in slot order, it has the slot, name,
/// endpoint, state, level and ticks left. Below are the ticks since boot, how many bytes were
/// written to the console, and, as they are, those that the console still holds.
#[tactic(auto, unfolding(crate::specs::Report::report_text))]
pub fn report_of(alloc: Global, table: &Table, services: &[Service]) -> Result<Vec<u8>, NoMemory>
    requires { length services.now ≡ length table.now.slots }
    ensures { IfOk result (λ report. report.items ≡ report_text table.now services.now) }
{
    let mut out = Vec::new(alloc);
    push_slots(&mut out, table, services)?;
    push_count(&mut out, b"uptime ", table.uptime())?;
    let console = &table.devices().console;
    push_count(&mut out, b"console ", console.count())?;
    push_console(&mut out, console)?;
    Ok(out)
}
