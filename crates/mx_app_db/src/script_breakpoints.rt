//! Breakpoints: the script names each by a slot, and an address or a symbol in the program of its service.

ghost use Rattle.std.specs.Prelude.{◌≡◌, Some, None, MatchResult};
ghost use Rattle.mx_machine.specs.History.{replay};
ghost use Rattle.mx_print_answers.specs.DebugError.TheVariants as errors;
ghost use Rattle.mx_app_db.specs.Places.{address_of_place, place_found, breakpoints_after_break, breakpoints_after_clear};

use mx_aout::Program;
use mx_boot::CodePlace;
use mx_machine::{Kernel, Refusal};
use mx_print_answers::{DebugError, Debugger, Refused};
use mx_proc::Slot;

/// The address that a place of a script names in a program: an address names itself, and a symbol its
/// value.
fn address_of(program: &Program, place: &CodePlace) -> Result<u32, DebugError>
    ensures { MatchResult result (λ at. address_of_place program.now place.now ≡ Some at) (λ e.
        (address_of_place program.now place.now ≡ None) × (e ≡ errors.NoSymbol)) }
{
    match place {
        CodePlace::Address(at) => Ok(*at),
        CodePlace::Symbol(name) => Debugger::address(program, name.as_slice()),
        CodePlace::NoName => Err(DebugError::NoSymbol),
    }
}

/// The slot and the address that a line of a script names, or why there is none.
fn find_place(kernel: &Kernel, slot: u32, place: &CodePlace) -> Result<(Slot, u32), Refused>
    ensures { result ≡ place_found (replay kernel.now).services slot place.now }
{
    kernel.facts();
    let Some(service) = kernel.services().get(slot as usize) else {
        return Err(Refused::ByMachine(Refusal::NoService));
    };
    let at = address_of(&service.program, place)?;
    Ok((slot as Slot, at))
}

/// Sets a breakpoint at a place in the program of a slot's service. Refuses if there is no such slot or
/// symbol, or if it would be the 65th breakpoint, and then changes nothing.
pub fn set_breakpoint(
    kernel: &Kernel,
    debugger: &mut Debugger,
    slot: u32,
    place: &CodePlace,
) -> Result<(), Refused>
    ensures { breakpoints_after_break debugger.old
        (place_found (replay kernel.now).services slot place.now) ≡ (result, debugger.new) }
{
    let (slot, at) = find_place(kernel, slot, place)?;
    debugger.add(slot, at)?;
    Ok(())
}

/// Removes the breakpoint at a place in the program of a slot's service, if there is one. Refuses if there
/// is no such slot or symbol.
pub fn clear_breakpoint(
    kernel: &Kernel,
    debugger: &mut Debugger,
    slot: u32,
    place: &CodePlace,
) -> Result<(), Refused>
    ensures { breakpoints_after_clear debugger.old
        (place_found (replay kernel.now).services slot place.now) ≡ (result, debugger.new) }
{
    let (slot, at) = find_place(kernel, slot, place)?;
    debugger.remove(slot, at);
    Ok(())
}
