//! The fields that each line of a process begins with.

ghost use Rattle.std.specs.Prelude.{◌≡◌, ◌<◌, ◌++◌, OnOk, length};
ghost use Rattle.mx_print_report.specs.Report.{process_words};

use crate::doing::{Naming, doing_of, number_of};
use crate::process_words::{push_doing, push_named};
use mx_proc::{Slot, Table};
use std::alloc::AllocError;

/// Appends the name, the number and the state of a slot's process, whose service has this name.
pub fn push_process(
    out: &mut Vec<u8>,
    naming: Naming,
    table: &Table,
    slot: Slot,
    name: &[u8],
) -> Result<(), AllocError>
    requires { slot < length table.now.slots }
    ensures { OnOk result (out.new.items ≡ out.old.items
        ++ process_words naming table.now slot name.now) }
{
    push_named(out, name, number_of(naming, table, slot))?;
    out.push(b' ')?;
    push_doing(
        out,
        doing_of(naming, table, slot, table.process(slot).state),
    )
}
