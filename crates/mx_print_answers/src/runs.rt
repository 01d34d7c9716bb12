//! Prints runs up to a breakpoint.

ghost use Rattle.std.specs.Prelude.{◌≡◌, ◌++◌, OnOk, codes, string_bytes};
ghost use Rattle.mx_print_answers.specs.Runs.{stop_of_halt, halt_line, run_line};

use crate::said::Said;
use mx_debug::{Halt, HaltCause};
use mx_image::Stop;
use mx_insn_words::push_eight_digits;
use mx_machine::Refusal;
use std::alloc::AllocError;
use std::fmt::Write;

/// How the steps ended of a process that halts at no breakpoint.
fn stop_of(halt: Halt) -> Stop
    ensures { result ≡ stop_of_halt halt.count halt.cause }
{
    if halt.count == 0 {
        return Stop::Spent;
    }
    match halt.cause {
        HaltCause::Spent | HaltCause::Breakpoint => Stop::Spent,
        HaltCause::Trap => Stop::Trap,
        HaltCause::Fault(vector) => Stop::Fault(vector),
    }
}

/// Appends the line of a run after which the process's next instruction is at an address.
fn push_halt(text: &mut String, halt: Halt, eip: u32) -> Result<(), AllocError>
    ensures { OnOk result (string_bytes text.new ≡ string_bytes text.old
        ++ halt_line halt.count halt.cause eip ++ codes "\n") }
{
    let count = halt.count;
    if let HaltCause::Breakpoint = halt.cause {
        text.push_str("stopped at ")?;
        push_eight_digits(text, eip)?;
        return writeln!(text, " after {count}");
    }
    let said = Said::Stepped(count, stop_of(halt));
    writeln!(text, "{said}")
}

/// Appends the line of a run up to a breakpoint, after which the process's next instruction is at an address:
/// `stopped at 00000000 after 1`, or the line of a number of steps.
pub fn push_run(text: &mut String, run: Result<Halt, Refusal>, eip: u32) -> Result<(), AllocError>
    ensures { OnOk result (string_bytes text.new ≡ string_bytes text.old ++ run_line run eip) }
{
    match run {
        Ok(halt) => push_halt(text, halt, eip),
        Err(refusal) => {
            let said = Said::Refused(refusal);
            writeln!(text, "{said}")
        }
    }
}
