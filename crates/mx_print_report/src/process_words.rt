//! The words for who, and for what a process does. Each is written here and nowhere else.

ghost use Rattle.std.specs.Prelude.{◌≡◌, ◌++◌, OnOk};
ghost use Rattle.mx_print_report.specs.Words.{awaited_text, cause_text, doing_text, kind_word, name_bytes, named};

use crate::doing::{Awaited, Doing};
use crate::printed_numbers::{push_counted, push_decimal, push_number};
use mx_proc::{DeathCause, DeliveryKind};
use std::alloc::AllocError;

/// Appends a name without the zero bytes that pad it.
pub fn push_name(out: &mut Vec<u8>, name: &[u8]) -> Result<(), AllocError>
    ensures { OnOk result (out.new.items ≡ out.old.items ++ name_bytes name.now) }
{
    for byte in name {
        if *byte == 0 {
            return Ok(());
        }
        out.push(*byte)?;
    }
    Ok(())
}

/// Appends a process's name and its number: `rs 3`.
pub fn push_named(out: &mut Vec<u8>, name: &[u8], number: u32) -> Result<(), AllocError>
    ensures { OnOk result (out.new.items ≡ out.old.items ++ named name.now number) }
{
    push_name(out, name)?;
    push_number(out, number)
}

fn push_awaited(out: &mut Vec<u8>, awaited: Awaited) -> Result<(), AllocError>
    ensures { OnOk result (out.new.items ≡ out.old.items ++ awaited_text awaited) }
{
    match awaited {
        Awaited::Any => out.extend_from_slice(b"any"),
        Awaited::System => out.extend_from_slice(b"-2"),
        Awaited::Hardware => out.extend_from_slice(b"-1"),
        Awaited::Clock => out.extend_from_slice(b"-3"),
        Awaited::Process(number) => push_decimal(out, number),
    }
}

fn push_cause(out: &mut Vec<u8>, cause: DeathCause) -> Result<(), AllocError>
    ensures { OnOk result (out.new.items ≡ out.old.items ++ cause_text cause) }
{
    match cause {
        DeathCause::Exit => out.extend_from_slice(b"exit"),
        DeathCause::Kill => out.extend_from_slice(b"kill"),
        DeathCause::Fault(vector) => push_counted(out, b"fault", u32::from(vector)),
    }
}

/// Appends what a process does: `ready`, `awaiting 3`, `down fault 13`.
#[tactic(auto, unfolding(crate::specs::Words::doing_text))]
pub fn push_doing(out: &mut Vec<u8>, doing: Doing) -> Result<(), AllocError>
    ensures { OnOk result (out.new.items ≡ out.old.items ++ doing_text doing) }
{
    match doing {
        Doing::Home => out.extend_from_slice(b"home"),
        Doing::Ready => out.extend_from_slice(b"ready"),
        Doing::Out => out.extend_from_slice(b"out"),
        Doing::Doomed => out.extend_from_slice(b"doomed"),
        Doing::Sending(number) => push_counted(out, b"sending", number),
        Doing::Calling(number) => push_counted(out, b"calling", number),
        Doing::Receiving(awaited) => {
            out.extend_from_slice(b"receiving ")?;
            push_awaited(out, awaited)
        }
        Doing::Awaiting(number) => push_counted(out, b"awaiting", number),
        Doing::Down(cause) => {
            out.extend_from_slice(b"down ")?;
            push_cause(out, cause)
        }
    }
}

/// The word for a delivery's kind.
pub fn kind_word(kind: DeliveryKind) -> &'static str
    ensures { result.now ≡ kind_word kind }
{
    match kind {
        DeliveryKind::Message => "message",
        DeliveryKind::Notification => "notify",
    }
}
