//! Prints how steps ended: a trap, a fault, or the budget.

ghost use Rattle.std.specs.Prelude.{◌≡◌, ◌++◌, OnOk, string_bytes};
ghost use Rattle.mx_print_answers.specs.Stops.{stop_text};

use mx_image::Stop;
use std::alloc::AllocError;
use std::fmt::Write;

/// Appends how steps ended: `spent`, `trap` or, with its vector, `fault 13`.
pub fn push_stop(out: &mut String, stop: Stop) -> Result<(), AllocError>
    ensures { OnOk result (string_bytes out.new ≡ string_bytes out.old ++ stop_text stop) }
{
    match stop {
        Stop::Spent => out.push_str("spent"),
        Stop::Trap => out.push_str("trap"),
        Stop::Fault(vector) => write!(out, "fault {vector}"),
    }
}
