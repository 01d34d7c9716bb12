//! How a history ended, in a line; and the lines of its deaths.

ghost use Rattle.std.specs.Prelude.{◌≡◌, ◌++◌, ◌<◌, ◌^◌, ◌≤◌, OnOk};
ghost use Rattle.std.specs.List.{flat_map, list_any, range_with_len};
ghost use Rattle.mx_look.specs.Doings.{is_ready};
ghost use Rattle.mx_why.specs.Endings.{after_text, before_text, death_line, death_text, deaths_text, does, ending, full_text, has_held, has_ready, ending_by, ending_text, is_held, is_listed, is_unfinished, listed_at, listed_text, no_room_text, open_text, respawned_text, rest_text, restarts_in, several_text, then_text, times_text, unfinished_text, wanted_records, word_of};
ghost use Rattle.mx_why.specs.Seats.{doing_in, seat_in};

use crate::deaths::Death;
use crate::lines::{MOST_LINES, push_left_out};
use crate::notes::Note;
use crate::reasons::push_slot;
use crate::seats::{End, Seat};
use mx_look::{is_down, is_ready};
use mx_print_report::{Doing, push_decimal, push_long};
use std::alloc::AllocError;

/// How a history ended.
#[derive(Clone, Copy)]
pub enum Ending {
    /// It has no record.
    Nothing,
    /// Nothing more happens without a tick, a line or a kill.
    Rest,
    /// There is no room for what comes next.
    Full,
    /// It could go on.
    Open,
}

/// Who could have gone on at the end.
#[derive(Clone, Copy)]
pub enum Unfinished {
    /// Those that are ready or on a processor.
    Running,
    /// Those that are down and may be respawned.
    ToRespawn,
}

/// Whether a process that does this is on a processor.
fn is_held(doing: Doing) -> bool
    ensures { result ≡ is_held doing }
{
    matches!(doing, Doing::Out | Doing::Doomed)
}

/// Whether a slot is one of those.
fn is_unfinished(unfinished: Unfinished, seat: &Seat) -> bool
    ensures { result ≡ is_unfinished unfinished seat.now }
{
    match unfinished {
        Unfinished::Running => is_ready(seat.doing) || is_held(seat.doing),
        Unfinished::ToRespawn => is_down(seat.doing) && seat.restarts > 0,
    }
}

/// Whether a slot has a service and is one of those.
pub(crate) fn is_listed(end: &End, unfinished: Unfinished, slot: u32) -> bool
    ensures { result ≡ is_listed end.now unfinished slot }
{
    match end.seat(slot) {
        Some(seat) => is_unfinished(unfinished, seat),
        None => false,
    }
}

/// Whether the process of a slot is ready.
fn is_ready_at(end: &End, slot: u32) -> bool
    ensures { result ≡ does is_ready (doing_in end.now slot) }
{
    match end.doing(slot) {
        Some(doing) => is_ready(doing),
        None => false,
    }
}

/// Whether the process of a slot is on a processor.
fn is_held_at(end: &End, slot: u32) -> bool
    ensures { result ≡ does is_held (doing_in end.now slot) }
{
    match end.doing(slot) {
        Some(doing) => is_held(doing),
        None => false,
    }
}

/// Whether a process is on a processor.
#[tactic(auto, unfolding(crate::specs::Endings::has_held))]
fn has_held(end: &End) -> bool
    ensures { result ≡ has_held end.now }
{
    (0..32u32).any(|slot| is_held_at(end, slot))
}

/// Whether a process is ready.
#[tactic(auto, unfolding(crate::specs::Endings::has_ready))]
fn has_ready(end: &End) -> bool
    ensures { result ≡ has_ready end.now }
{
    (0..32u32).any(|slot| is_ready_at(end, slot))
}

/// How many free records are wanted: two for a take, one for a respawn.
fn wanted_records(end: &End) -> usize
    ensures { result ≡ wanted_records end.now }
{
    if has_ready(end) { 2 } else { 1 }
}

/// How a history of so many records ended, which could have had at most `log`.
#[tactic(auto, unfolding(crate::specs::Endings::ending))]
pub(crate) fn ending_of(end: &End, records: usize, log: u32) -> Ending
    ensures { result ≡ ending end.now records log }
{
    if records == 0 {
        Ending::Nothing
    } else if end.at_rest {
        Ending::Rest
    } else if has_held(end) || wanted_records(end) <= (log as usize).saturating_sub(records) {
        Ending::Open
    } else {
        Ending::Full
    }
}

/// The words before the names of those.
fn word_of(unfinished: Unfinished) -> &'static [u8]
    ensures { result.now ≡ word_of unfinished }
{
    match unfinished {
        Unfinished::Running => b"; ready: ",
        Unfinished::ToRespawn => b"; down with restarts left: ",
    }
}

/// Whether a slot below one is one of those.
fn is_listed_below(end: &End, unfinished: Unfinished, slot: u32) -> bool
    ensures { result ≡ list_any (is_listed end.now unfinished) (range_with_len 0 slot) }
{
    (0..slot).any(|other| is_listed(end, unfinished, other))
}

/// What stands before a name, a later one or the first.
#[tactic(auto, unfolding(crate::specs::Endings::before_text))]
fn before(unfinished: Unfinished, later: bool) -> &'static [u8]
    ensures { result.now ≡ before_text unfinished later }
{
    if later { b", " } else { word_of(unfinished) }
}

/// Appends the name of a slot, if it is one of those: after a comma, or for the first after the words.
#[tactic(auto, unfolding(crate::specs::Endings::listed_at))]
fn push_listed_at(
    out: &mut Vec<u8>,
    end: &End,
    unfinished: Unfinished,
    slot: u32,
) -> Result<(), AllocError>
    ensures { OnOk result (out.new.items ≡ out.old.items ++ listed_at end.now unfinished slot) }
{
    if !is_listed(end, unfinished, slot) {
        return Ok(());
    }
    out.extend_from_slice(before(unfinished, is_listed_below(end, unfinished, slot)))?;
    push_slot(out, end, slot)
}

/// Appends the names of those.
fn push_listed(out: &mut Vec<u8>, end: &End, unfinished: Unfinished) -> Result<(), AllocError>
    ensures { OnOk result (out.new.items ≡ out.old.items ++ listed_text end.now unfinished) }
{
    for slot in 0..32u32 {
        push_listed_at(out, end, unfinished, slot)?;
    }
    Ok(())
}

/// Appends who could have gone on.
#[tactic(auto, unfolding(crate::specs::Endings::unfinished_text))]
fn push_unfinished(out: &mut Vec<u8>, end: &End) -> Result<(), AllocError>
    ensures { OnOk result (out.new.items ≡ out.old.items ++ unfinished_text end.now) }
{
    push_listed(out, end, Unfinished::Running)?;
    push_listed(out, end, Unfinished::ToRespawn)
}

/// Appends after how many records a history ended.
#[tactic(auto, unfolding(crate::specs::Endings::after_text))]
fn push_after(out: &mut Vec<u8>, word: &[u8], records: usize) -> Result<(), AllocError>
    ensures { OnOk result (out.new.items ≡ out.old.items ++ after_text word.now records) }
{
    out.extend_from_slice(word)?;
    out.extend_from_slice(b" after ")?;
    push_long(out, records as u64)?;
    out.extend_from_slice(b" records")
}

/// Appends that there is no room for a record more, if there is none.
#[tactic(auto, unfolding(crate::specs::Endings::no_room_text))]
fn push_no_room(out: &mut Vec<u8>, records: usize, log: u32) -> Result<(), AllocError>
    ensures { OnOk result (out.new.items ≡ out.old.items ++ no_room_text records log) }
{
    if records < log as usize {
        return Ok(());
    }
    out.extend_from_slice(b", and full: CONFIG has log ")?;
    push_decimal(out, log)
}

/// Appends that nothing more happens.
#[tactic(auto, unfolding(crate::specs::Endings::rest_text))]
fn push_rest(out: &mut Vec<u8>, records: usize, log: u32) -> Result<(), AllocError>
    ensures { OnOk result (out.new.items ≡ out.old.items ++ rest_text records log) }
{
    push_after(out, b"rest", records)?;
    push_no_room(out, records, log)
}

/// Appends that a history is full, and who could have gone on.
#[tactic(auto, unfolding(crate::specs::Endings::full_text))]
fn push_full(out: &mut Vec<u8>, end: &End, records: usize, log: u32) -> Result<(), AllocError>
    ensures { OnOk result (out.new.items ≡ out.old.items
        ++ full_text end.now records log) }
{
    push_after(out, b"full", records)?;
    out.extend_from_slice(b", since CONFIG has log ")?;
    push_decimal(out, log)?;
    push_unfinished(out, end)
}

/// Appends that a history could go on, and who could.
#[tactic(auto, unfolding(crate::specs::Endings::open_text))]
fn push_open(out: &mut Vec<u8>, end: &End, records: usize) -> Result<(), AllocError>
    ensures { OnOk result (out.new.items ≡ out.old.items ++ open_text end.now records) }
{
    push_after(out, b"open", records)?;
    push_unfinished(out, end)
}

/// Appends how a history ended.
#[tactic(auto, unfolding(crate::specs::Endings::ending_by))]
pub(crate) fn push_ending_by(
    out: &mut Vec<u8>,
    end: &End,
    records: usize,
    log: u32,
    ending: Ending,
) -> Result<(), AllocError>
    ensures { OnOk result (out.new.items ≡ out.old.items ++ ending_by end.now records log ending) }
{
    match ending {
        Ending::Nothing => out.extend_from_slice(
            b"no record: LOG is the history of a machine that has done nothing",
        ),
        Ending::Rest => push_rest(out, records, log),
        Ending::Full => push_full(out, end, records, log),
        Ending::Open => push_open(out, end, records),
    }
}

/// Appends the line of how a history ended.
#[tactic(auto, unfolding(crate::specs::Endings::ending_text))]
pub(crate) fn push_ending(
    out: &mut Vec<u8>,
    end: &End,
    records: usize,
    log: u32,
) -> Result<(), AllocError>
    ensures { OnOk result (out.new.items ≡ out.old.items ++ ending_text end.now records log) }
{
    out.extend_from_slice(b"ends: ")?;
    push_ending_by(out, end, records, log, ending_of(end, records, log))?;
    out.extend_from_slice(b"\n")
}

/// How often a slot may still be respawned.
fn restarts_in(end: &End, slot: u32) -> u32
    ensures { result ≡ restarts_in (seat_in end.now slot) }
{
    match end.seat(slot) {
        Some(seat) => seat.restarts,
        None => 0,
    }
}

/// Appends that a slot was respawned.
#[tactic(auto, unfolding(crate::specs::Endings::respawned_text))]
fn push_respawned(out: &mut Vec<u8>, restarts: u32, number: u32) -> Result<(), AllocError>
    ensures { OnOk result (out.new.items ≡ out.old.items ++ respawned_text restarts number) }
{
    out.extend_from_slice(b"; respawned at record ")?;
    push_decimal(out, number)?;
    out.extend_from_slice(b", ")?;
    push_decimal(out, restarts)?;
    out.extend_from_slice(b" restarts left")
}

/// Appends what came after deaths of a slot.
#[tactic(auto, unfolding(crate::specs::Endings::then_text))]
fn push_then(out: &mut Vec<u8>, end: &End, slot: u32, death: Death) -> Result<(), AllocError>
    ensures { OnOk result (out.new.items ≡ out.old.items ++ then_text end.now slot death) }
{
    let restarts = restarts_in(end, slot);
    match death.respawn {
        Some(number) => push_respawned(out, restarts, number),
        None if restarts > 0 => out.extend_from_slice(b"; not respawned yet"),
        None => out.extend_from_slice(b"; no restart left"),
    }
}

/// Appends that something happened several times.
#[tactic(auto, unfolding(crate::specs::Endings::several_text))]
fn push_several(out: &mut Vec<u8>, times: usize) -> Result<(), AllocError>
    ensures { OnOk result (out.new.items ≡ out.old.items ++ several_text times) }
{
    out.extend_from_slice(b", ")?;
    push_long(out, times as u64)?;
    out.extend_from_slice(b" times, first")
}

/// Appends how often something happened, if not once.
#[tactic(auto, unfolding(crate::specs::Endings::times_text))]
pub(crate) fn push_times(out: &mut Vec<u8>, times: usize) -> Result<(), AllocError>
    ensures { OnOk result (out.new.items ≡ out.old.items ++ times_text times) }
{
    if times <= 1 {
        out.extend_from_slice(b",")
    } else {
        push_several(out, times)
    }
}

/// Appends the line of deaths that are like the one of a note.
#[tactic(auto, unfolding(crate::specs::Endings::death_line))]
fn push_death_line(
    out: &mut Vec<u8>,
    end: &End,
    note: &Note,
    death: Death,
) -> Result<(), AllocError>
    ensures { OnOk result (out.new.items ≡ out.old.items ++ death_line end.now note.now death) }
{
    out.extend_from_slice(b"died: ")?;
    push_slot(out, end, note.slot)?;
    push_times(out, death.times)?;
    out.extend_from_slice(b" at record ")?;
    push_decimal(out, note.number)?;
    out.extend_from_slice(b", ")?;
    out.extend_from_slice(note.text.as_slice())?;
    push_then(out, end, note.slot, death)?;
    out.extend_from_slice(b"\n")
}

/// Appends the line of deaths.
#[tactic(auto, unfolding(crate::specs::Endings::death_text))]
pub(crate) fn push_death(
    out: &mut Vec<u8>,
    end: &End,
    notes: &[Note],
    death: Death,
) -> Result<(), AllocError>
    ensures { OnOk result (out.new.items ≡ out.old.items ++ death_text end.now notes.now death) }
{
    match notes.get(death.note) {
        Some(note) => push_death_line(out, end, note, death),
        None => Ok(()),
    }
}

/// Appends the lines of some deaths.
fn push_each(
    out: &mut Vec<u8>,
    end: &End,
    notes: &[Note],
    deaths: &[Death],
) -> Result<(), AllocError>
    ensures { OnOk result (out.new.items ≡ out.old.items
        ++ flat_map (death_text end.now notes.now) deaths.now) }
{
    for death in deaths {
        push_death(out, end, notes, *death)?;
    }
    Ok(())
}

/// Appends the lines of deaths, and how many are left out.
#[tactic(auto, unfolding(crate::specs::Endings::deaths_text))]
pub(crate) fn push_deaths(
    out: &mut Vec<u8>,
    end: &End,
    notes: &[Note],
    deaths: &[Death],
) -> Result<(), AllocError>
    ensures { OnOk result (out.new.items ≡ out.old.items
        ++ deaths_text end.now notes.now deaths.now) }
{
    let told = if deaths.len() < MOST_LINES {
        deaths.len()
    } else {
        MOST_LINES
    };
    push_each(out, end, notes, &deaths[..told])?;
    push_left_out(out, b"died: ", deaths.len())
}
