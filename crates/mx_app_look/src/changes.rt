//! How the bytes that are watched changed.

ghost use Rattle.std.specs.Prelude.{◌≡◌, ◌++◌, IfOk, OnOk, map, string_bytes};
ghost use Rattle.std.specs.List.{flat_map};
ghost use Rattle.mx_machine.specs.Machine.{world_of};
ghost use Rattle.mx_print_answers.specs.Processes.{byte_field};
ghost use Rattle.mx_app_look.specs.Changes.{as_seen, bytes_of, change_line, changes_since, first_change, listed_bytes, seen_in};

use crate::watches::{Watch, places_of};
use mx_insn_words::push_eight_digits;
use mx_machine::Machine;
use mx_print_answers::push_byte;
use mx_walk::{BytePlace, byte_in};
use std::alloc::{AllocError, Global};
use std::fmt::Write;

/// The bytes at these places, as they are now; none for a place outside.
fn bytes_at(alloc: Global, machine: &Machine, places: &[BytePlace]) -> Result<Vec<u8>, AllocError>
    ensures { IfOk result (λ bytes. bytes.items ≡ listed_bytes (world_of machine.now) places.now) }
{
    let mut bytes = Vec::new(alloc);
    for place in places {
        if let Some(byte) = byte_in(machine, *place) {
            bytes.push(byte)?;
        }
    }
    Ok(bytes)
}

/// The bytes of a watch, as they are now.
fn bytes_of(alloc: Global, machine: &Machine, watch: Watch) -> Result<Vec<u8>, AllocError>
    ensures { IfOk result (λ bytes. bytes.items ≡ bytes_of (world_of machine.now) watch) }
{
    let places = places_of(alloc, watch)?;
    bytes_at(alloc, machine, places.as_slice())
}

/// The bytes of a watch, as they were seen.
#[derive(Drop)]
pub struct Seen {
    watch: Watch,
    bytes: Vec<u8>,
}

/// The bytes of each watch, as they are now.
pub fn all_bytes(
    alloc: Global,
    machine: &Machine,
    watches: &[Watch],
) -> Result<Vec<Seen>, AllocError>
    ensures { IfOk result (λ seen. map as_seen seen.items
        ≡ map (seen_in (world_of machine.now)) watches.now) }
{
    let mut seen = Vec::new(alloc);
    for watch in watches {
        let bytes = bytes_of(alloc, machine, *watch)?;
        seen.push(Seen {
            watch: *watch,
            bytes,
        })?;
    }
    Ok(seen)
}

/// Appends each of these bytes.
fn push_bytes(out: &mut String, bytes: &[u8]) -> Result<(), AllocError>
    ensures { OnOk result (string_bytes out.new ≡ string_bytes out.old
        ++ flat_map byte_field bytes.now) }
{
    for byte in bytes {
        push_byte(out, *byte)?;
    }
    Ok(())
}

/// Appends how the bytes of a watch changed, if they did.
fn push_change(
    out: &mut String,
    watch: Watch,
    before: &[u8],
    after: &[u8],
) -> Result<(), AllocError>
    ensures { OnOk result (string_bytes out.new ≡ string_bytes out.old
        ++ change_line watch before.now after.now) }
{
    if before == after {
        return Ok(());
    }
    let slot = watch.slot;
    write!(out, "watch {slot} ")?;
    push_eight_digits(out, watch.address)?;
    out.push_str(":")?;
    push_bytes(out, before)?;
    out.push_str(" ->")?;
    push_bytes(out, after)?;
    out.push_str("\n")
}

/// Appends how the bytes of each watch changed since they were seen.
pub(crate) fn push_changes(
    alloc: Global,
    out: &mut String,
    machine: &Machine,
    seen: &[Seen],
) -> Result<(), AllocError>
    ensures { OnOk result (string_bytes out.new ≡ string_bytes out.old
        ++ changes_since (world_of machine.now) (map as_seen seen.now)) }
{
    for one in seen {
        let after = bytes_of(alloc, machine, one.watch)?;
        push_change(out, one.watch, one.bytes.as_slice(), after.as_slice())?;
    }
    Ok(())
}

/// The first watch whose bytes have changed since they were seen.
pub fn first_change(
    alloc: Global,
    machine: &Machine,
    seen: &[Seen],
) -> Result<Option<Watch>, AllocError>
    ensures { IfOk result (λ watch. watch
        ≡ first_change (world_of machine.now) (map as_seen seen.now)) }
{
    for one in seen {
        let after = bytes_of(alloc, machine, one.watch)?;
        if one.bytes.as_slice() != after.as_slice() {
            return Ok(Some(one.watch));
        }
    }
    Ok(None)
}
