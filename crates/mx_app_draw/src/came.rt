//! All values that the picture has in the column of a record.

ghost use Rattle.std.specs.Prelude.{◌≡◌, ◌≤◌, ◌++◌, OnOk};
ghost use Rattle.mx_app_draw.specs.Fates.{IsOnPaper};
ghost use Rattle.mx_app_draw.specs.Record.{byte_label, console_values, fates, deliveries, all_kept, freed, record_values};

use crate::fates::{push_fate, push_freed, push_outside};
use crate::four_figures::{Point, label};
use crate::layout::{Origin, row};
use crate::messages::{push_delivery, push_kept};
use crate::returns::push_return;
use crate::{Anchor, Hint, LabelKind, Text, Value};
use mx_look::Transition;
use std::alloc::AllocError;

/// A byte of the console: its character if it is one from ! to ~, else two hexadecimal digits.
#[tactic(auto, unfolding(crate::specs::Record::byte_label))]
fn byte_label(origin: Origin, byte: u8) -> Value
    requires { IsOnPaper origin }
    ensures { result ≡ byte_label origin byte }
{
    let middle = row(origin.top, origin.services + 1);
    let hint = Hint::Console(origin.place);
    if byte > 0x20 && byte < 0x7F {
        let at = Point {
            x: origin.x,
            y: middle + 5,
        };
        label(
            LabelKind::Character,
            at,
            Anchor::Middle,
            Text::Character(byte),
            hint,
        )
    } else {
        let at = Point {
            x: origin.x,
            y: middle + 4,
        };
        label(
            LabelKind::Byte,
            at,
            Anchor::Middle,
            Text::Hexadecimal(byte),
            hint,
        )
    }
}

/// Appends the byte that the transition wrote to the console, if it wrote one.
#[tactic(auto, unfolding(crate::specs::Record::console_values))]
fn push_console(
    out: &mut Vec<Value>,
    transition: &Transition,
    origin: Origin,
) -> Result<(), AllocError>
    requires { IsOnPaper origin }
    ensures { OnOk result (out.new.items ≡ out.old.items ++ console_values transition.now origin) }
{
    if transition.before.written == transition.after.written {
        return Ok(());
    }
    if let Some(byte) = transition.after.last_byte {
        out.push(byte_label(origin, byte))?;
    }
    Ok(())
}

/// Appends who is killed, dies or is born again, slot by slot.
fn push_fates(
    out: &mut Vec<Value>,
    transition: &Transition,
    origin: Origin,
) -> Result<(), AllocError>
    requires { IsOnPaper origin }
    ensures { OnOk result (out.new.items ≡ out.old.items ++ fates transition.now origin) }
{
    for slot in 0..origin.services {
        push_fate(out, transition, origin, slot)?;
    }
    Ok(())
}

/// Appends the arrows of messages and notifications that the slots got.
fn push_deliveries(
    out: &mut Vec<Value>,
    transition: &Transition,
    origin: Origin,
) -> Result<(), AllocError>
    requires { IsOnPaper origin }
    ensures { OnOk result (out.new.items ≡ out.old.items ++ deliveries transition.now origin) }
{
    for slot in 0..origin.services {
        push_delivery(out, transition, origin, slot)?;
    }
    Ok(())
}

/// Appends the arrows of notifications that become pending for a process in this transition.
fn push_all_kept(
    out: &mut Vec<Value>,
    transition: &Transition,
    origin: Origin,
) -> Result<(), AllocError>
    requires { IsOnPaper origin }
    ensures { OnOk result (out.new.items ≡ out.old.items ++ all_kept transition.now origin) }
{
    for slot in 0..origin.services {
        push_kept(out, transition, origin, slot)?;
    }
    Ok(())
}

/// Appends the errors of processes that stop waiting, and go on with an error.
fn push_all_freed(
    out: &mut Vec<Value>,
    transition: &Transition,
    origin: Origin,
) -> Result<(), AllocError>
    requires { IsOnPaper origin }
    ensures { OnOk result (out.new.items ≡ out.old.items ++ freed transition.now origin) }
{
    for slot in 0..origin.services {
        push_freed(out, transition, origin, slot)?;
    }
    Ok(())
}

/// Appends all that a record changed.
#[tactic(auto, unfolding(crate::specs::Record::record_values))]
pub(crate) fn push_record(
    out: &mut Vec<Value>,
    transition: &Transition,
    origin: Origin,
) -> Result<(), AllocError>
    requires { IsOnPaper origin }
    ensures { OnOk result (out.new.items ≡ out.old.items ++ record_values transition.now origin) }
{
    push_outside(out, transition, origin)?;
    push_fates(out, transition, origin)?;
    push_deliveries(out, transition, origin)?;
    push_all_kept(out, transition, origin)?;
    push_return(out, transition, origin)?;
    push_all_freed(out, transition, origin)?;
    push_console(out, transition, origin)
}
