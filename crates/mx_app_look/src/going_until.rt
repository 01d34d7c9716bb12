//! On to a record in which something happens, and back to one.

ghost use Rattle.std.specs.Prelude.{◌≡◌, ◌++◌, IfErr, IfOk, List, OnOk, false, true, ℕ};
ghost use Rattle.mx_app_step.specs.Failure.{IsWanting};
ghost use Rattle.mx_walk.specs.declared.progress.Part.{Part as Parts};
ghost use Rattle.mx_walk.specs.Parts.{HasGrown, walk_shown};
ghost use Rattle.mx_walk.specs.Positions.{first};
ghost use Rattle.mx_walk.specs.Seeking.{IsLastMarked, IsPassed};
ghost use Rattle.mx_walk.specs.Walks.{shown_to, world_here};
ghost use Rattle.mx_app_look.specs.declared.request.Request.TheVariants as requests;
ghost use Rattle.mx_app_look.specs.Answers.{after, request_text, to_of};
ghost use Rattle.mx_app_look.specs.Happenings.{is_happening};
ghost use Rattle.mx_app_look.specs.Searches.{IsLastHappened, not_met};
ghost use Rattle.mx_app_look.specs.Seeking.{IsGoneUntilBack};
ghost use Rattle.mx_app_look.specs.Shows.{IsLastShown, IsShownIf};
ghost use Rattle.mx_app_look.specs.Until.{call_by_digits, has_service, has_slots, is_decimal, is_digits, type_line, type_note, until_halt};

use crate::asked_slot::slot_asked;
use crate::happening::{Happening, happens};
use crate::happening_mark::HappeningMark;
use crate::places::push_place;
use crate::sight::{Sight, say};
use crate::world_texts::{Placed, push_record_after, see_record};
use mx_app_failure::Failure;
use mx_app_step::resting_transition;
use mx_look::{push_record, request_name};
use mx_print_report::push_decimal;
use mx_proc::Rules;
use mx_walk::{Progress, Walker};
use mx_word::NoMemory;
use std::alloc::{AllocError, Global};

/// What a slot that isn't there is answered.
const NO_SERVICE: &str =
    "refused 42 NoService: until [back] death SLOT, message FROM TO, error [SLOT] or SLOT TYPE\n";

/// Whether a slot has a service.
fn has_service(walker: &Walker, slot: u32) -> bool
    ensures { result ≡ has_service walker.now slot }
{
    match slot_asked(walker, Some(slot)) {
        Ok(_) => true,
        Err(_) => false,
    }
}

/// Whether each slot has a service that it is about.
fn has_slots(walker: &Walker, happening: Happening) -> bool
    ensures { result ≡ has_slots walker.now happening }
{
    match happening {
        Happening::Call(slot, _) | Happening::Death(slot) => has_service(walker, slot),
        Happening::Delivery(from, to) => has_service(walker, from) && has_service(walker, to),
        Happening::Error(None) => true,
        Happening::Error(Some(slot)) => has_service(walker, slot),
    }
}

/// The type of the first kernel call, and the number that has its digits in decimal; and the last such number.
const FIRST_TYPE: u32 = 0x600;

const FIRST_DIGITS: u32 = 600;

const LAST_DIGITS: u32 = 609;

/// The rules of the machine.
fn rules_here(walker: &Walker) -> Rules
    ensures { result ≡ (world_here walker.now).table.rules }
{
    walker.machine().rules()
}

/// The name of the call whose type has these decimal digits, read in hexadecimal; empty if the rules have none.
fn call_by_digits(rules: Rules, kind: u32) -> &'static [u8]
    ensures { result.now ≡ call_by_digits rules kind }
{
    if kind < FIRST_DIGITS || kind > LAST_DIGITS {
        return b"";
    }
    request_name(rules, kind - FIRST_DIGITS + FIRST_TYPE)
}

/// Appends that a type is decimal.
fn push_is_decimal(out: &mut Vec<u8>, kind: u32) -> Result<(), AllocError>
    ensures { OnOk result (out.new.items ≡ out.old.items ++ is_decimal kind) }
{
    out.extend_from_slice(b"type ")?;
    push_decimal(out, kind)?;
    out.extend_from_slice(b" is decimal: ")
}

/// Appends whose these digits are in hexadecimal, and a line's end.
fn push_is_digits(out: &mut Vec<u8>, kind: u32, name: &[u8]) -> Result<(), AllocError>
    ensures { OnOk result (out.new.items ≡ out.old.items ++ is_digits kind name.now) }
{
    out.extend_from_slice(name)?;
    out.extend_from_slice(b" is 0x")?;
    push_decimal(out, kind)?;
    out.extend_from_slice(b"\n")
}

/// Appends both if there is a name.
fn push_type_line(out: &mut Vec<u8>, kind: u32, name: &[u8]) -> Result<(), AllocError>
    ensures { OnOk result (out.new.items ≡ out.old.items ++ type_line kind name.now) }
{
    if name.is_empty() {
        return Ok(());
    }
    push_is_decimal(out, kind)?;
    push_is_digits(out, kind, name)
}

/// Appends that the type which is looked for is decimal, if its digits are those of a call's in hexadecimal.
fn push_type_note(
    out: &mut Vec<u8>,
    walker: &Walker,
    happening: Happening,
) -> Result<(), AllocError>
    ensures { OnOk result (out.new.items ≡ out.old.items ++ type_note walker.now happening) }
{
    match happening {
        Happening::Call(_, kind) => {
            let name = call_by_digits(rules_here(walker), kind);
            push_type_line(out, kind, name)
        }
        _ => Ok(()),
    }
}

/// Appends that nothing was met, and goes on to the last position.
fn go_on_unmet<P: Progress>(
    alloc: Global,
    walker: Walker,
    out: &mut Vec<u8>,
    progress: &mut P,
) -> Result<Walker, NoMemory>
    ensures walker { IfOk result (λ w. w ≡ record walker { here = walker.last }) }
    ensures text { OnOk result (out.new.items ≡ out.old.items ++ not_met) }
    ensures shown { OnOk result (P.shown progress.new
        ≡ P.shown progress.old ++ shown_to walker walker.last) }
    ensures unshown { IfErr result (λ _. P.shown progress.new ≡ P.shown progress.old) }
{
    let last = walker.last();
    out.extend_from_slice(b"not met\n")?;
    walker.go_to(alloc, last, progress)
}

/// Goes on to right after the first record in which it happens, and appends what that record did; to the
/// last position if there is none. Takes no memory but for the text.
fn go_on_until<P: Progress>(
    alloc: Global,
    walker: Walker,
    happening: Happening,
    out: &mut Vec<u8>,
    progress: &mut P,
) -> Result<Walker, NoMemory>
    ensures walker { IfOk result (λ w. w
        ≡ record walker { here = (until_halt walker happening).0 }) }
    ensures text { OnOk result (out.new.items
        ≡ out.old.items ++ (until_halt walker happening).1) }
    ensures shown { OnOk result (P.shown progress.new
        ≡ P.shown progress.old ++ shown_to walker (until_halt walker happening).0) }
    ensures grown { IfErr result (λ _. HasGrown (P.shown progress.old) (P.shown progress.new)) }
{
    let last = walker.last();
    let from = walker.here().records;
    let mut transition = resting_transition(walker.machine());
    let mut walker = walker;
    for earlier in from..last.records {
        let entry = walker.records()[earlier];
        let placed = Placed { earlier, entry };
        walker = see_record(alloc, walker, placed, &mut transition, progress)?;
        if happens(happening, &transition) {
            push_record(out, &transition)?;
            return Ok(walker);
        }
    }
    go_on_unmet(alloc, walker, out, progress)
}

/// Goes on to right after the first record in which it happens, and answers what that record did, and the
/// place.
fn go_on_to<P: Progress>(
    alloc: Global,
    sight: Sight,
    happening: Happening,
    progress: &mut P,
) -> Result<(Sight, Vec<u8>), Failure>
    requires { has_slots sight.walker happening ≡ true }
    ensures err { IfErr result IsWanting }
    ensures sight { IfOk result (λ r. r.0
        ≡ record sight { walker = after sight.walker (requests.Until happening) }) }
    ensures text { IfOk result (λ r. r.1.items
        ≡ request_text sight.walker (requests.Until happening)) }
    ensures shown { OnOk result (P.shown progress.new ≡ P.shown progress.old
        ++ shown_to sight.walker (to_of sight.walker (requests.Until happening))) }
    ensures grown { IfErr result (λ _. HasGrown (P.shown progress.old) (P.shown progress.new)) }
{
    let mut text = Vec::new(alloc);
    push_type_note(&mut text, &sight.walker, happening)?;
    let mut walker = go_on_until(alloc, sight.walker, happening, &mut text, progress)?;
    push_place(alloc, &mut text, &mut walker)?;
    Ok((Sight { walker, ..sight }, text))
}

/// Goes on to right after the first record in which it happens, if each slot that it is about has a service.
pub(crate) fn go_until<P: Progress>(
    alloc: Global,
    sight: Sight,
    happening: Happening,
    progress: &mut P,
) -> Result<(Sight, Vec<u8>), Failure>
    ensures err { IfErr result IsWanting }
    ensures sight { IfOk result (λ r. r.0
        ≡ record sight { walker = after sight.walker (requests.Until happening) }) }
    ensures text { IfOk result (λ r. r.1.items
        ≡ request_text sight.walker (requests.Until happening)) }
    ensures shown { OnOk result (P.shown progress.new ≡ P.shown progress.old
        ++ shown_to sight.walker (to_of sight.walker (requests.Until happening))) }
    ensures grown { IfErr result (λ _. HasGrown (P.shown progress.old) (P.shown progress.new)) }
{
    if has_slots(&sight.walker, happening) {
        return go_on_to(alloc, sight, happening, progress);
    }
    say(alloc, sight, NO_SERVICE)
}

/// Goes back to right before the last event in which it happens; to the first position if there is none. Answers
/// whether there is one.
fn seek_back<P: Progress>(
    alloc: Global,
    walker: Walker,
    happening: Happening,
    progress: &mut P,
) -> Result<(Walker, bool), NoMemory>
    ensures same { IfOk result (λ back. back.0 ≡ record walker { here = back.0.here }) }
    ensures found { IfOk result (λ back. back.1 ≡ true → IsLastMarked (is_happening happening)
        walker.boot walker.records back.0.here walker.here) }
    ensures nowhere { IfOk result (λ back. back.1 ≡ false → (back.0.here ≡ first)
        × IsPassed (is_happening happening) walker.boot walker.records first walker.here) }
    ensures shown { IfOk result (λ back. P.shown progress.new ≡ P.shown progress.old
        ++ (walk_shown walker.records walker.here ++ shown_to walker back.0.here)) }
    ensures grown { IfErr result (λ _. HasGrown (P.shown progress.old) (P.shown progress.new)) }
{
    let mut mark = HappeningMark::new(walker.machine(), happening);
    walker.seek_back(alloc, &mut mark, progress)
}

/// Goes back to right before the last event in which it happens, and appends what its record does; to the first position
/// if there is none.
fn go_back_until<P: Progress>(
    alloc: Global,
    walker: Walker,
    happening: Happening,
    out: &mut Vec<u8>,
    progress: &mut P,
) -> Result<Walker, NoMemory>
    ensures walker { IfOk result (λ w. w ≡ record walker { here = w.here }) }
    ensures halt { IfOk result (λ w. (text : List ℕ) × (out.new.items ≡ out.old.items ++ text)
        × IsLastHappened walker happening (w.here, text)) }
    ensures shown { OnOk result ((ps : List Parts)
        × (P.shown progress.new ≡ P.shown progress.old ++ ps)
        × IsLastShown (is_happening happening) walker ps) }
    ensures grown { IfErr result (λ _. HasGrown (P.shown progress.old) (P.shown progress.new)) }
{
    // Where it is now is a position, and not past the last: so is right after an event that is found.
    let _ = walker.here();
    let (walker, found) = seek_back(alloc, walker, happening, progress)?;
    if !found {
        out.extend_from_slice(b"not met\n")?;
        return Ok(walker);
    }
    let earlier = walker.here().records;
    let entry = walker.records()[earlier];
    push_record_after(alloc, out, walker, Placed { earlier, entry }, progress)
}

/// Goes back to right before the last event in which it happens, if each slot that it is about has a service.
pub(crate) fn go_until_back<P: Progress>(
    alloc: Global,
    sight: Sight,
    happening: Happening,
    progress: &mut P,
) -> Result<(Sight, Vec<u8>), Failure>
    ensures err { IfErr result IsWanting }
    ensures gone { IfOk result (λ r. IsGoneUntilBack sight happening r.0 r.1.items) }
    ensures shown { OnOk result ((ps : List Parts)
        × (P.shown progress.new ≡ P.shown progress.old ++ ps)
        × IsShownIf (has_slots sight.walker happening)
        (IsLastShown (is_happening happening) sight.walker) ps) }
    ensures grown { IfErr result (λ _. HasGrown (P.shown progress.old) (P.shown progress.new)) }
{
    if !has_slots(&sight.walker, happening) {
        return say(alloc, sight, NO_SERVICE);
    }
    let mut text = Vec::new(alloc);
    push_type_note(&mut text, &sight.walker, happening)?;
    let mut walker = go_back_until(alloc, sight.walker, happening, &mut text, progress)?;
    push_place(alloc, &mut text, &mut walker)?;
    Ok((Sight { walker, ..sight }, text))
}
