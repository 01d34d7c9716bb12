//! What is printed of a machine.

ghost use Rattle.std.specs.Prelude.{IfErr, OnOk, string_bytes};
ghost use Rattle.std.specs.Io.KnownBytes.{Appends};
ghost use Rattle.mx_app_start.specs.Failure.{IsWanting, PrintsFront};
ghost use Rattle.mx_app_start.specs.Machine.{world_of};
ghost use Rattle.mx_app_start.specs.Report.{report_text};
ghost use Rattle.mx_machine.specs.History.{replay};
ghost use Rattle.mx_app_step.specs.Pieces.{IsPrintedBut};

use mx_app_failure::{Failure, print_text};
use mx_boot::report;
use mx_machine::{Kernel, Machine};
use std::alloc::Global;
use std::io::Write;

/// How long a text becomes before it is printed: at most this many bytes and one line more.
const PIECE: usize = 1 << 16;

/// Prints a text and empties it, if it is long. So a text that goes on is printed in pieces, and what is left
/// at the end is still to be printed.
pub(crate) fn print_piece<W: Write>(text: &mut String, out: &mut W) -> Result<(), Failure>
    ensures err { IfErr result IsWanting }
    ensures front { IfErr result (λ _. PrintsFront
        (λ front. Appends (W.contents out.old) (W.contents out.new) front) (string_bytes text.old)) }
    ensures printed { OnOk result (IsPrintedBut (W.contents out.old) (W.contents out.new)
        (string_bytes text.new) (string_bytes text.old)) }
{
    if text.len() < PIECE {
        return Ok(());
    }
    print_text(text.as_bytes(), out)?;
    text.clear();
    Ok(())
}

/// Prints the report on a kernel's processes, and flushes. After an error, which is memory or the output,
/// a front of it is printed.
pub fn print_kernel_report<W: Write>(
    alloc: Global,
    kernel: &Kernel,
    out: &mut W,
) -> Result<(), Failure>
    ensures err { IfErr result IsWanting }
    ensures front { IfErr result (λ _. PrintsFront
        (λ front. Appends (W.contents out.old) (W.contents out.new) front)
        (report_text (replay kernel.now).table (replay kernel.now).services)) }
    ensures bytes { OnOk result (Appends (W.contents out.old) (W.contents out.new)
        (report_text (replay kernel.now).table (replay kernel.now).services)) }
{
    let report = report(alloc, kernel)?;
    print_text(report.as_slice(), out)
}

/// Prints the report on a machine's processes, as `print_kernel_report` does.
pub(crate) fn print_report<W: Write>(
    alloc: Global,
    machine: &Machine,
    out: &mut W,
) -> Result<(), Failure>
    ensures err { IfErr result IsWanting }
    ensures front { IfErr result (λ _. PrintsFront
        (λ front. Appends (W.contents out.old) (W.contents out.new) front)
        (report_text (world_of machine.now).table (world_of machine.now).services)) }
    ensures bytes { OnOk result (Appends (W.contents out.old) (W.contents out.new)
        (report_text (world_of machine.now).table (world_of machine.now).services)) }
{
    print_kernel_report(alloc, machine.kernel(), out)
}
