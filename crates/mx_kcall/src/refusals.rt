//! Why kernel calls are refused: the reasons of each call, in order.

ghost use Rattle.std.specs.Prelude.{◌≡◌, ◌∷◌, [], ◌<◌, ◌+◌, ◌≤◌, ◌||◌, ◌&&◌, nat_lt, not, false, drop, length, Some, None, MatchResult, IfOk};
ghost use Rattle.std.specs.Option.{ForSome};
ghost use Rattle.mx_respawn.specs.Segment.{inside};
ghost use Rattle.mx_respawn.specs.Proc.EndpointNumbers.{slot_of};
ghost use Rattle.mx_respawn.specs.Proc.Endpoints.{names_slot, is_alive};
ghost use Rattle.mx_respawn.specs.Proc.Sound.{HasBuffer};
ghost use Rattle.mx_respawn.specs.Proc.States.{is_out};
ghost use Rattle.mx_respawn.specs.Proc.TableState.{process_at, memory_at};
ghost use Rattle.mx_respawn.specs.Proc.declared.errors.Errno.TheVariants.{BadEndpoint, Dead};
ghost use Rattle.mx_respawn.specs.Checks.{first_error};
ghost use Rattle.mx_kcall.specs.Known.{is_away, is_barred, known};
ghost use Rattle.mx_kcall.specs.Refusals.{kernel_call_reasons, refusal_of_kernel_call, kernel_call_refusal, IsPermitted};
ghost use Rattle.mx_kcall.specs.Requests.{kernel_call_under, message_words_at};
ghost use Rattle.mx_kcall.specs.Windows.{allows};
ghost use Rattle.mx_kcall.specs.declared.request.KernelCall.TheVariants as requests;

use crate::request::{CopyRange, KernelCall, VirtualAddress, WindowGrant, request_under, words_at};
use crate::rows::FIRST_CALL;
use crate::windows::{is_strict, window_allows};
use mx_proc::{Access, Endpoint, Errno, Slot, Stale, State, Table};
use mx_word::has_bit;

/// The most bytes that one VIRCOPY copies.
const LONGEST_COPY: u32 = 65_536;

/// The slot of an endpoint that is alive.
fn check_endpoint(table: &Table, endpoint: Endpoint) -> Result<Slot, Errno>
    ensures value { MatchResult result (λ _.
        first_error ((not (names_slot table.now endpoint), BadEndpoint)
        ∷ (not (is_alive table.now endpoint), Dead) ∷ []) ≡ None) (λ e.
        first_error ((not (names_slot table.now endpoint), BadEndpoint)
        ∷ (not (is_alive table.now endpoint), Dead) ∷ []) ≡ Some e) }
    ensures slot { IfOk result (λ s. (s ≡ slot_of endpoint) × (s < length table.now.slots)) }
{
    if !table.names_slot(endpoint) {
        return Err(Errno::BadEndpoint);
    }
    match table.look(endpoint) {
        Ok(slot) => Ok(slot),
        Err(Stale) => Err(Errno::Dead),
    }
}

/// Whether a slot's process is on a processor.
fn is_away(table: &Table, slot: Slot) -> bool
    requires { slot < length table.now.slots }
    ensures { result ≡ is_out (process_at table.now slot).state }
{
    match table.process(slot).state {
        State::Out | State::Doomed => true,
        _ => false,
    }
}

/// Whether bytes of a slot's process lie inside its memory.
fn holds(table: &Table, slot: Slot, at: u32, count: u32) -> bool
    requires { slot < length table.now.slots }
    ensures { result ≡ inside (memory_at table.now slot) at count }
{
    at as usize + count as usize <= table.process(slot).image.memory.limit()
}

/// Whether an endpoint's memory is barred to a slot for an access to `count` bytes from an address on.
fn is_barred(table: &Table, slot: Slot, access: Access, at: VirtualAddress, count: u32) -> bool
    requires slot { slot < length table.now.slots }
    requires endpoint { slot_of at.endpoint < length table.now.slots }
    ensures { result ≡ is_barred (known table.now slot) (allows access) slot at count }
{
    let owner = table.slot_of(at.endpoint);
    is_strict(table.rules())
        && owner != slot
        && !window_allows(table.window(owner, slot), access, at.offset, count)
}

/// IRQCTL's refusals.
fn check_irqctl(table: &Table, slot: Slot, action: u32, line: u32) -> Result<(), Errno>
    ensures value { MatchResult result (λ _.
        first_error (kernel_call_reasons table.now slot (requests.Irqctl action line)) ≡ None) (λ e.
        first_error (kernel_call_reasons table.now slot (requests.Irqctl action line)) ≡ Some e) }
    ensures permitted { IfOk result (λ _. line < 16) }
{
    if action > 1 || line > 15 {
        return Err(Errno::Invalid);
    }
    let refused = match table.devices().owners[line as usize] {
        Some(owner) => owner != slot,
        None => action == 0,
    };
    if refused {
        Err(Errno::NotPermitted)
    } else {
        Ok(())
    }
}

/// VIRCOPY's refusals that ask about what is copied, after all that ask about the endpoints.
fn check_copied_bytes(table: &Table, slot: Slot, copy: CopyRange) -> Result<(), Errno>
    requires slot { slot < length table.now.slots }
    requires source { slot_of copy.source.endpoint < length table.now.slots }
    requires target { slot_of copy.target.endpoint < length table.now.slots }
    ensures value { MatchResult result (λ _.
        first_error (drop 6 (kernel_call_reasons table.now slot (requests.Vircopy copy))) ≡ None) (λ e.
        first_error (drop 6 (kernel_call_reasons table.now slot (requests.Vircopy copy))) ≡ Some e) }
    ensures permitted { IfOk result (λ _. IsPermitted table.now (requests.Vircopy copy)) }
{
    // Windows are asked first: who has none learns nothing of how far another's memory goes.
    if is_barred(table, slot, Access::Read, copy.source, copy.count)
        || is_barred(table, slot, Access::Write, copy.target, copy.count)
    {
        return Err(Errno::NotPermitted);
    }
    let source = table.slot_of(copy.source.endpoint);
    let target = table.slot_of(copy.target.endpoint);
    if !holds(table, source, copy.source.offset, copy.count)
        || !holds(table, target, copy.target.offset, copy.count)
    {
        return Err(Errno::BadAddress);
    }
    Ok(())
}

/// VIRCOPY's refusals after those of its source's endpoint.
fn check_copy_target(table: &Table, slot: Slot, copy: CopyRange) -> Result<(), Errno>
    requires slot { slot < length table.now.slots }
    requires source { slot_of copy.source.endpoint < length table.now.slots }
    ensures value { MatchResult result (λ _.
        first_error (drop 3 (kernel_call_reasons table.now slot (requests.Vircopy copy))) ≡ None)
        (λ e. first_error (drop 3 (kernel_call_reasons table.now slot (requests.Vircopy copy)))
        ≡ Some e) }
    ensures permitted { IfOk result (λ _. IsPermitted table.now (requests.Vircopy copy)) }
{
    let target = check_endpoint(table, copy.target.endpoint)?;
    let source = table.slot_of(copy.source.endpoint);
    // On a processor an image isn't in the table. The caller may ask again.
    if is_away(table, source) || is_away(table, target) {
        return Err(Errno::NotReady);
    }
    check_copied_bytes(table, slot, copy)
}

/// VIRCOPY's refusals.
fn check_vircopy(table: &Table, slot: Slot, copy: CopyRange) -> Result<(), Errno>
    requires { slot < length table.now.slots }
    ensures value { MatchResult result (λ _.
        first_error (kernel_call_reasons table.now slot (requests.Vircopy copy)) ≡ None) (λ e.
        first_error (kernel_call_reasons table.now slot (requests.Vircopy copy)) ≡ Some e) }
    ensures permitted { IfOk result (λ _. IsPermitted table.now (requests.Vircopy copy)) }
{
    if copy.count > LONGEST_COPY {
        return Err(Errno::Invalid);
    }
    check_endpoint(table, copy.source.endpoint)?;
    check_copy_target(table, slot, copy)
}

/// KILL's refusals.
fn check_kill(table: &Table, slot: Slot, endpoint: Endpoint) -> Result<(), Errno>
    ensures value { MatchResult result (λ _.
        first_error (kernel_call_reasons table.now slot (requests.Kill endpoint)) ≡ None) (λ e.
        first_error (kernel_call_reasons table.now slot (requests.Kill endpoint)) ≡ Some e) }
    ensures permitted { IfOk result (λ _. IsPermitted table.now (requests.Kill endpoint)) }
{
    let victim = check_endpoint(table, endpoint)?;
    if is_away(table, victim) {
        return Err(Errno::NotReady);
    }
    Ok(())
}

/// WHOIS's refusals.
fn check_whois(table: &Table, slot: Slot, named: u32) -> Result<(), Errno>
    ensures value { MatchResult result (λ _.
        first_error (kernel_call_reasons table.now slot (requests.Whois named)) ≡ None) (λ e.
        first_error (kernel_call_reasons table.now slot (requests.Whois named)) ≡ Some e) }
    ensures permitted { IfOk result (λ _. named < length table.now.slots) }
{
    if named >= u32::from(table.slot_count()) {
        return Err(Errno::Invalid);
    }
    if table.process(named as u8).state.is_down() {
        return Err(Errno::Dead);
    }
    Ok(())
}

/// GRANT's refusals.
fn check_grant(table: &Table, slot: Slot, grant: WindowGrant) -> Result<(), Errno>
    requires { slot < length table.now.slots }
    ensures value { MatchResult result (λ _.
        first_error (kernel_call_reasons table.now slot (requests.Grant grant)) ≡ None) (λ e.
        first_error (kernel_call_reasons table.now slot (requests.Grant grant)) ≡ Some e) }
    ensures permitted { IfOk result (λ _. IsPermitted table.now (requests.Grant grant)) }
{
    if grant.access > 3 || grant.user == table.endpoint(slot) {
        return Err(Errno::Invalid);
    }
    check_endpoint(table, grant.user)?;
    if grant.access != 0 && !holds(table, slot, grant.place, grant.count) {
        return Err(Errno::BadAddress);
    }
    Ok(())
}

/// A request's own refusals: answers the first that holds.
#[tactic(auto, unfolding(crate::specs::Refusals::refusal_of_kernel_call))]
fn check_request(table: &Table, slot: Slot, request: KernelCall) -> Result<(), Errno>
    requires { slot < length table.now.slots }
    ensures value { MatchResult result (λ _. refusal_of_kernel_call table.now slot request
        ≡ None) (λ e. refusal_of_kernel_call table.now slot request ≡ Some e) }
    ensures permitted { IfOk result (λ _. IsPermitted table.now request) }
{
    match request {
        KernelCall::Irqctl { action, line } => check_irqctl(table, slot, action, line),
        KernelCall::Devio {
            action,
            register,
            ..
        } => {
            if action > 1 || register > 255 {
                return Err(Errno::Invalid);
            }
            Ok(())
        }
        KernelCall::Vircopy(copy) => check_vircopy(table, slot, copy),
        KernelCall::Kill(endpoint) => check_kill(table, slot, endpoint),
        KernelCall::Whois(named) => check_whois(table, slot, named),
        KernelCall::Grant(grant) => check_grant(table, slot, grant),
        _ => Ok(()),
    }
}

/// The request at a process's buffer, unless it is refused: by its type, by the mask of calls, by
/// its own reasons.
#[tactic(auto, unfolding(crate::specs::Refusals::refusal_of_kernel_call, crate::specs::Refusals::kernel_call_refusal))]
pub(crate) fn check(table: &Table, slot: Slot) -> Result<KernelCall, Errno>
    requires slot { slot < length table.now.slots }
    requires inside { HasBuffer (process_at table.now slot) }
    ensures value { MatchResult result (λ r.
        (kernel_call_under table.now.rules (message_words_at table.now slot) ≡ Some r)
        × (kernel_call_refusal table.now slot ≡ None)) (λ e. kernel_call_refusal table.now slot
        ≡ Some e) }
    ensures permitted { IfOk result (λ r. IsPermitted table.now r) }
{
    let words = words_at(table, slot);
    let request = match request_under(table.rules(), words) {
        Some(request) => request,
        None => return Err(Errno::BadRequest),
    };
    if !has_bit(
        table.process(slot).schedule.terms.masks.calls,
        words.kind - FIRST_CALL,
    ) {
        return Err(Errno::Denied);
    }
    check_request(table, slot, request)?;
    Ok(request)
}
