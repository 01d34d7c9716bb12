//! Prints messages that were delivered.

ghost use Rattle.std.specs.Prelude.{◌≡◌, ◌++◌, OnOk, string_bytes};
ghost use Rattle.mx_machine.specs.History.{replay};
ghost use Rattle.mx_print_answers.specs.Messages.{delivery_line, delivery_lines, delivery_text};

use mx_debug::Debugger;
use mx_machine::Kernel;
use mx_print_report::kind_word;
use mx_proc::Delivery;
use std::alloc::AllocError;
use std::fmt::Write;

/// Appends a delivery: the endpoints of sender and receiver, the type, and its kind.
#[tactic(auto, unfolding(crate::specs::Messages::delivery_text))]
pub fn push_delivery(out: &mut String, delivery: Delivery) -> Result<(), AllocError>
    ensures { OnOk result (string_bytes out.new ≡ string_bytes out.old ++ delivery_text delivery) }
{
    let from = delivery.from.cast_signed();
    let to = delivery.to.cast_signed();
    let message_type = delivery.message_type;
    let kind = kind_word(delivery.kind);
    write!(out, "{from} {to} {message_type} {kind}")
}

/// Appends the line of a delivery.
fn push_delivery_line(out: &mut String, delivery: Delivery) -> Result<(), AllocError>
    ensures { OnOk result (string_bytes out.new ≡ string_bytes out.old ++ delivery_line delivery) }
{
    push_delivery(out, delivery)?;
    out.push_str("\n")
}

/// Appends the lines of the recorded deliveries, the oldest first: `1 0 0 message`.
pub fn push_messages(out: &mut String, kernel: &Kernel) -> Result<(), AllocError>
    ensures { OnOk result (string_bytes out.new ≡ string_bytes out.old
        ++ delivery_lines (replay kernel.now).table.deliveries) }
{
    let mut index = 0;
    while let Some(delivery) = Debugger::message(kernel, index) {
        push_delivery_line(out, delivery)?;
        index += 1;
    }
    Ok(())
}
