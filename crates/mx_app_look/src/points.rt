//! Breakpoints and watches, and how they are listed.

ghost use Rattle.std.specs.Prelude.{◌≡◌, ◌++◌, [], OnOk, string_bytes};
ghost use Rattle.std.specs.List.{flat_map};
ghost use Rattle.mx_app_look.specs.Points.{break_line, points_text, watch_line};

use crate::watches::{Watch, Watches};
use mx_debug::{Breakpoint, Debugger};
use mx_insn_words::push_eight_digits;
use std::alloc::AllocError;
use std::fmt::Write;

/// What a session halts at: breakpoints, and bytes that are watched.
#[derive(Drop)]
pub struct Points {
    pub breakpoints: Debugger,
    pub watches: Watches,
}

impl Points {
    /// Nothing to halt at.
    pub fn new() -> Points
        ensures breakpoints { result.breakpoints ≡ [] }
        ensures watches { result.watches ≡ [] }
    {
        Points {
            breakpoints: Debugger::new(),
            watches: Watches::new(),
        }
    }

    /// Appends a line for each breakpoint and for each watch.
    pub fn push_lines(&self, out: &mut String) -> Result<(), AllocError>
        ensures { OnOk result (string_bytes out.new ≡ string_bytes out.old
            ++ points_text self.now) }
    {
        push_breaks(out, self.breakpoints.as_slice())?;
        push_watches(out, self.watches.as_slice())
    }
}

/// Appends the line of a breakpoint.
fn push_break(out: &mut String, point: Breakpoint) -> Result<(), AllocError>
    ensures { OnOk result (string_bytes out.new ≡ string_bytes out.old ++ break_line point) }
{
    let slot = point.slot;
    write!(out, "break {slot} ")?;
    push_eight_digits(out, point.address)?;
    out.push_str("\n")
}

/// Appends a line for each breakpoint.
fn push_breaks(out: &mut String, points: &[Breakpoint]) -> Result<(), AllocError>
    ensures { OnOk result (string_bytes out.new ≡ string_bytes out.old
        ++ flat_map break_line points.now) }
{
    for point in points {
        push_break(out, *point)?;
    }
    Ok(())
}

/// Appends the line of a watch.
fn push_watch(out: &mut String, watch: Watch) -> Result<(), AllocError>
    ensures { OnOk result (string_bytes out.new ≡ string_bytes out.old ++ watch_line watch) }
{
    let Watch {
        slot,
        address,
        count,
    } = watch;
    write!(out, "watch {slot} ")?;
    push_eight_digits(out, address)?;
    writeln!(out, " {count}")
}

/// Appends a line for each watch.
fn push_watches(out: &mut String, watches: &[Watch]) -> Result<(), AllocError>
    ensures { OnOk result (string_bytes out.new ≡ string_bytes out.old
        ++ flat_map watch_line watches.now) }
{
    for watch in watches {
        push_watch(out, *watch)?;
    }
    Ok(())
}
