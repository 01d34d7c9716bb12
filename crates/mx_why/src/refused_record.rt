//! The line of a history of which a record is refused.

ghost use Rattle.std.specs.Prelude.{◌≡◌, ◌++◌, ◌-◌, IfErr, OnOk, slice_get};
ghost use Rattle.std.specs.Io.KnownBytes.{Appends};
ghost use Rattle.mx_app_start.specs.Failure.{IsWanting, PrintsFront};
ghost use Rattle.mx_why.specs.RefusedRecords.{cause_text, refused_record, refused_record_by, refused_record_text};

use mx_app_step::{Failure, print_text};
use mx_look::push_event;
use mx_machine::{Record, Refusal};
use mx_print_report::{push_decimal, push_long};
use std::alloc::{AllocError, Global};
use std::io::Write;

/// Appends why a record is refused, and of what LOG may be then.
#[tactic(auto, unfolding(crate::specs::RefusedRecords::cause_text))]
fn push_cause(out: &mut Vec<u8>, refusal: Refusal) -> Result<(), AllocError>
    ensures { OnOk result (out.new.items ≡ out.old.items ++ cause_text refusal) }
{
    out.extend_from_slice(b") is refused, ")?;
    push_decimal(out, u32::from(refusal.code()))?;
    out.extend_from_slice(b" ")?;
    out.extend_from_slice(refusal.name().as_bytes())?;
    out.extend_from_slice(
        b". LOG is of another machine, or CONFIG or a program was changed since, or LOG itself\n",
    )
}

/// Appends the line of a record that is refused, which has this number.
#[tactic(auto, unfolding(crate::specs::RefusedRecords::refused_record))]
fn push_refused_record(
    out: &mut Vec<u8>,
    number: usize,
    entry: Record,
    refusal: Refusal,
) -> Result<(), AllocError>
    ensures { OnOk result (out.new.items ≡ out.old.items ++ refused_record number entry refusal) }
{
    out.extend_from_slice(b"ends: record ")?;
    push_long(out, number as u64)?;
    out.extend_from_slice(b" (")?;
    push_decimal(out, u32::from(entry.actor))?;
    out.extend_from_slice(b" ")?;
    push_event(out, entry.event)?;
    push_cause(out, refusal)
}

/// Appends the line of the record of this number, the first having the number 1.
#[tactic(auto, unfolding(crate::specs::RefusedRecords::refused_record_text))]
fn push_refused_in(
    out: &mut Vec<u8>,
    records: &[Record],
    number: usize,
    refusal: Refusal,
) -> Result<(), AllocError>
    ensures { OnOk result (out.new.items ≡ out.old.items
        ++ refused_record_text records.now number refusal) }
{
    match records.get(number.saturating_sub(1)) {
        Some(entry) => push_refused_record(out, number, *entry, refusal),
        None => Ok(()),
    }
}

/// Prints which record is refused, and why.
pub(crate) fn print_refused_record<W: Write>(
    alloc: Global,
    records: &[Record],
    number: usize,
    refusal: Refusal,
    out: &mut W,
) -> Result<(), Failure>
    ensures err { IfErr result IsWanting }
    ensures front { IfErr result (λ _. PrintsFront
        (λ front. Appends (W.contents out.old) (W.contents out.new) front)
        (refused_record_text records.now number refusal)) }
    ensures bytes { OnOk result (Appends (W.contents out.old) (W.contents out.new)
        (refused_record_text records.now number refusal)) }
{
    let mut text = Vec::new(alloc);
    push_refused_in(&mut text, records, number, refusal)?;
    print_text(text.as_slice(), out)
}
