//! What a console has more than is on the screen.

ghost use Rattle.std.specs.Prelude.{◌≡◌, ◌⊎◌, ◌≤◌, ◌+◌, ◌-◌, ◌++◌, IfErr, IfOk, OnOk, drop, length};
ghost use Rattle.std.specs.Io.KnownBytes.{Appends};
ghost use Rattle.mx_app_failure.specs.Failure.{IsWanting, PrintsFront};
ghost use Rattle.mx_machine.specs.Machine.{world_of};
ghost use Rattle.mx_spool.specs.Written.{grown};

use mx_app_failure::{Failure, print_text};
use mx_machine::Machine;
use mx_proc::{Console, KEPT_BYTES};
use std::alloc::AllocError;
use std::io::Write;

/// An index from which on a console has so many bytes more, or 0: the index of the first of its last `more` bytes, as it
/// keeps the last 4,096 of those that were written.
fn first_of(console: &Console, more: usize) -> usize
    ensures there { (result ≡ 0) ⊎ (result + more ≤ length console.now.kept) }
    ensures small { result ≤ 4096 }
{
    let kept = (console.count() as usize).min(KEPT_BYTES);
    let first = kept.saturating_sub(more);
    if first == 0 {
        return 0;
    }
    match console.get(kept - 1) {
        Some(_) => first,
        None => 0,
    }
}

/// Appends the bytes of a console from an index on.
fn push_from(out: &mut Vec<u8>, console: &Console, first: usize) -> Result<(), AllocError>
    requires { first ≤ 4096 }
    ensures { OnOk result (out.new.items ≡ out.old.items ++ drop first console.now.kept) }
{
    let mut index = first;
    while let Some(byte) = console.get(index) {
        out.push(byte)?;
        index += 1;
    }
    Ok(())
}

/// The last `more` of some bytes.
fn last_of(bytes: &[u8], more: usize) -> &[u8]
    ensures { result.now ≡ drop (length bytes.now - more) bytes.now }
{
    &bytes[bytes.len().saturating_sub(more)..]
}

/// Prints the bytes of a machine's console after the first `shown`, and answers how many it has now. They stand in
/// `bytes` meanwhile, so that no memory is taken if that has enough.
#[tactic(auto, unfolding(mx_machine::specs::Machine::world_of))]
pub(crate) fn show<W: Write>(
    machine: &Machine,
    shown: u32,
    bytes: &mut Vec<u8>,
    screen: &mut W,
) -> Result<u32, Failure>
    ensures shown { IfOk result (λ count.
        count ≡ (world_of machine.now).table.devices.console.count) }
    ensures text { OnOk result (Appends (W.contents screen.old) (W.contents screen.new)
        (grown shown (world_of machine.now).table.devices.console)) }
    ensures failed { IfErr result IsWanting }
    ensures front { IfErr result (λ _. PrintsFront
        (λ front. Appends (W.contents screen.old) (W.contents screen.new) front)
        (grown shown (world_of machine.now).table.devices.console)) }
{
    let console = &machine.kernel().table().devices().console;
    let count = console.count();
    let more = count.saturating_sub(shown) as usize;
    let first = first_of(console, more);
    bytes.clear();
    push_from(bytes, console, first)?;
    let text = last_of(bytes.as_slice(), more);
    if text.is_empty() {
        return Ok(count);
    }
    print_text(text, screen)?;
    Ok(count)
}
