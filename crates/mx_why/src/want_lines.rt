//! What a refused call wanted, in words.

ghost use Rattle.std.specs.Prelude.{◌≡◌, ◌++◌, OnOk, slice_get};
ghost use Rattle.mx_proc.specs.EndpointNumbers.{slot_of};
ghost use Rattle.mx_why.specs.Seats.{seat_in};
ghost use Rattle.mx_why.specs.WantLines.{bit_for_text, call_text, details_text, file_text, instead_text, lacking_text, living_by, living_text, mask_text, owner_text, partner_by, partner_text, successor_text, trap_text, want_line};

use crate::hexadecimal::push_mask;
use crate::reasons::{push_bit, push_slot};
use crate::seats::{End, Seat};
use crate::wants::Want;
use mx_kcall::FIRST_CALL;
use mx_look::{call_name, is_down, request_name};
use mx_machine::{Config, ServiceLine};
use mx_print_report::{push_decimal, push_name};
use mx_proc::slot_of;
use std::alloc::AllocError;

/// Appends a mask of a service.
#[tactic(auto, unfolding(crate::specs::WantLines::mask_text))]
fn push_mask_of(
    out: &mut Vec<u8>,
    line: &ServiceLine,
    field: &[u8],
    mask: u32,
) -> Result<(), AllocError>
    ensures { OnOk result (out.new.items ≡ out.old.items ++ mask_text line.now field.now mask) }
{
    push_name(out, &line.name.bytes)?;
    out.extend_from_slice(field)?;
    push_mask(out, mask)
}

/// Appends that a mask has no such bit.
#[tactic(auto, unfolding(crate::specs::WantLines::bit_for_text))]
fn push_bit_for(out: &mut Vec<u8>, what: &[u8], bit: u32) -> Result<(), AllocError>
    ensures { OnOk result (out.new.items ≡ out.old.items ++ bit_for_text what.now bit) }
{
    out.extend_from_slice(b" has no bit for ")?;
    out.extend_from_slice(what)?;
    push_bit(out, bit)
}

/// Appends that a mask of a service has no such bit.
#[tactic(auto, unfolding(crate::specs::WantLines::lacking_text))]
fn push_lacking(
    out: &mut Vec<u8>,
    line: &ServiceLine,
    field: &[u8],
    mask: u32,
    what: &[u8],
    bit: u32,
) -> Result<(), AllocError>
    ensures { OnOk result (out.new.items ≡ out.old.items
        ++ lacking_text line.now field.now mask what.now bit) }
{
    push_mask_of(out, line, field, mask)?;
    push_bit_for(out, what, bit)?;
    out.extend_from_slice(b"; masks are hexadecimal")
}

/// Appends that a service may not send to another, which is there.
#[tactic(auto, unfolding(crate::specs::WantLines::partner_text))]
fn push_partner_there(
    out: &mut Vec<u8>,
    line: &ServiceLine,
    other: u32,
    found: &ServiceLine,
) -> Result<(), AllocError>
    ensures { OnOk result (out.new.items ≡ out.old.items
        ++ partner_text line.now other found.now) }
{
    let mut name = Vec::new(*out.allocator());
    push_name(&mut name, &found.name.bytes)?;
    out.extend_from_slice(b": ")?;
    push_lacking(
        out,
        line,
        b"'s send ",
        line.terms.masks.sends,
        name.as_slice(),
        other,
    )
}

/// Appends that a service may not send to another.
fn push_partner(
    out: &mut Vec<u8>,
    config: &Config,
    line: &ServiceLine,
    other: u32,
) -> Result<(), AllocError>
    ensures { OnOk result (out.new.items ≡ out.old.items
        ++ partner_by line.now other (slice_get config.now.lines other)) }
{
    match config.lines.as_slice().get(other as usize) {
        Some(found) => push_partner_there(out, line, other, found),
        None => Ok(()),
    }
}

/// Appends that a service may not make a kernel call.
#[tactic(auto, unfolding(crate::specs::WantLines::call_text))]
fn push_call(
    out: &mut Vec<u8>,
    config: &Config,
    line: &ServiceLine,
    kind: u32,
) -> Result<(), AllocError>
    ensures { OnOk result (out.new.items ≡ out.old.items
        ++ call_text config.now line.now kind) }
{
    let name = request_name(config.rules, kind);
    let bit = kind.saturating_sub(FIRST_CALL);
    out.extend_from_slice(b": ")?;
    push_lacking(out, line, b"'s calls ", line.terms.masks.calls, name, bit)
}

/// Appends that a service may not make a trap.
#[tactic(auto, unfolding(crate::specs::WantLines::trap_text))]
fn push_trap(out: &mut Vec<u8>, line: &ServiceLine, call: u32) -> Result<(), AllocError>
    ensures { OnOk result (out.new.items ≡ out.old.items ++ trap_text line.now call) }
{
    out.extend_from_slice(b": ")?;
    push_lacking(
        out,
        line,
        b"'s traps ",
        line.terms.masks.traps,
        call_name(call),
        call,
    )
}

/// Appends the endpoint of a slot's process.
#[tactic(auto, unfolding(crate::specs::WantLines::successor_text))]
fn push_successor(out: &mut Vec<u8>, seat: &Seat) -> Result<(), AllocError>
    ensures { OnOk result (out.new.items ≡ out.old.items ++ successor_text seat.now) }
{
    push_name(out, &seat.name.bytes)?;
    out.extend_from_slice(b" is ")?;
    push_decimal(out, seat.endpoint)
}

/// Appends the endpoint that was named.
#[tactic(auto, unfolding(crate::specs::WantLines::instead_text))]
fn push_instead(out: &mut Vec<u8>, endpoint: u32) -> Result<(), AllocError>
    ensures { OnOk result (out.new.items ≡ out.old.items ++ instead_text endpoint) }
{
    out.extend_from_slice(b" now, and not ")?;
    push_decimal(out, endpoint)?;
    out.extend_from_slice(b"; WHOIS tells it")
}

/// Appends who lives in place of an endpoint.
#[tactic(auto, unfolding(crate::specs::WantLines::living_text))]
fn push_living(out: &mut Vec<u8>, seat: &Seat, endpoint: u32) -> Result<(), AllocError>
    ensures { OnOk result (out.new.items ≡ out.old.items ++ living_text seat.now endpoint) }
{
    out.extend_from_slice(b": ")?;
    push_successor(out, seat)?;
    push_instead(out, endpoint)
}

/// Appends who lives in the slot that an endpoint names, if that is another one.
fn push_living_in(out: &mut Vec<u8>, end: &End, endpoint: u32) -> Result<(), AllocError>
    ensures { OnOk result (out.new.items ≡ out.old.items
        ++ living_by endpoint (seat_in end.now (slot_of endpoint))) }
{
    match end.seat(slot_of(endpoint)) {
        Some(seat) if !is_down(seat.doing) && seat.endpoint != endpoint => {
            push_living(out, seat, endpoint)
        }
        _ => Ok(()),
    }
}

/// Appends who owns an interrupt line.
#[tactic(auto, unfolding(crate::specs::WantLines::owner_text))]
fn push_owner(out: &mut Vec<u8>, end: &End, line: u32, slot: u32) -> Result<(), AllocError>
    ensures { OnOk result (out.new.items ≡ out.old.items ++ owner_text end.now line slot) }
{
    out.extend_from_slice(b": line ")?;
    push_decimal(out, line)?;
    out.extend_from_slice(b" is ")?;
    push_slot(out, end, slot)?;
    out.extend_from_slice(b"'s")
}

/// Appends what a call of a service wanted.
fn push_want(
    out: &mut Vec<u8>,
    config: &Config,
    end: &End,
    line: &ServiceLine,
    want: Want,
) -> Result<(), AllocError>
    ensures { OnOk result (out.new.items ≡ out.old.items
        ++ want_line config.now end.now line.now want) }
{
    match want {
        Want::Nothing => Ok(()),
        Want::Trap(call) => push_trap(out, line, call),
        Want::Partner(other) => push_partner(out, config, line, other),
        Want::Call(kind) => push_call(out, config, line, kind),
        Want::Living(endpoint) if endpoint < 0x8000_0000 => push_living_in(out, end, endpoint),
        Want::Living(_) => Ok(()),
        Want::Any => out.extend_from_slice(b": 201784 is 0x31438, and any is 31438 decimal"),
        Want::Line(number, slot) => push_owner(out, end, number, slot),
    }
}

/// Appends the file of a service's program, unless its name is the service's.
#[tactic(auto, unfolding(crate::specs::WantLines::file_text))]
fn push_file(out: &mut Vec<u8>, line: &ServiceLine) -> Result<(), AllocError>
    ensures { OnOk result (out.new.items ≡ out.old.items ++ file_text line.now) }
{
    let file = line.file.as_str().as_bytes();
    let mut name = Vec::new(*out.allocator());
    push_name(&mut name, &line.name.bytes)?;
    name.extend_from_slice(b".out")?;
    if file == name.as_slice() {
        return Ok(());
    }
    out.extend_from_slice(b" of ")?;
    out.extend_from_slice(file)
}

/// Appends what is told of a refused call of a slot besides the place: the program, and what was wanted.
#[tactic(auto, unfolding(crate::specs::WantLines::details_text))]
pub(crate) fn push_details(
    out: &mut Vec<u8>,
    config: &Config,
    end: &End,
    slot: u32,
    want: Want,
) -> Result<(), AllocError>
    ensures { OnOk result (out.new.items ≡ out.old.items
        ++ details_text config.now end.now slot want) }
{
    match config.lines.as_slice().get(slot as usize) {
        Some(line) => {
            push_file(out, line)?;
            push_want(out, config, end, line, want)
        }
        None => Ok(()),
    }
}
