//! `mx explain --check`: what can't work by a configuration and its programs alone.

ghost use Rattle.std.specs.Prelude.{◌≡◌, ◌++◌, IfOk, List, OnOk, length};
ghost use Rattle.std.specs.List.{flat_map, range_with_len};
ghost use Rattle.std.specs.Io.KnownBytes.{Appends};
ghost use Rattle.mx_app_start.specs.Asked.{Asked};
ghost use Rattle.mx_why.specs.Checking.{ChecksConfig, bare_service_at, bare_services, check_text, unfit_services};

use crate::unfit::{Lack, Unfit, push_if, push_unfit_masks};
use crate::unfit_lines::push_unfit_lines;
use mx_app_start::{Reader, setup_of};
use mx_app_step::{Failure, print_text};
use mx_machine::{Config, Service};
use std::alloc::{AllocError, Global};
use std::io::Write;

/// Appends that the program of a slot's service has no instruction, if it has none.
fn push_bare_service(
    found: &mut Vec<Unfit>,
    services: &[Service],
    slot: u32,
) -> Result<(), AllocError>
    ensures { OnOk result (found.new.items ≡ found.old.items
        ++ bare_service_at services.now slot) }
{
    match services.get(slot as usize) {
        Some(service) => {
            let is_bare = service.program.text.as_slice().is_empty();
            push_if(found, is_bare, slot, Lack::NoCode)
        }
        None => Ok(()),
    }
}

/// Appends the slots of the services whose programs have no instruction.
fn push_bare_services(found: &mut Vec<Unfit>, services: &[Service]) -> Result<(), AllocError>
    ensures { OnOk result (found.new.items ≡ found.old.items ++ bare_services services.now) }
{
    for slot in 0..32u32 {
        push_bare_service(found, services, slot)?;
    }
    Ok(())
}

/// What can't work by a configuration and its programs.
#[tactic(auto, unfolding(crate::specs::Checking::unfit_services))]
fn unfit_services(
    alloc: Global,
    config: &Config,
    services: &[Service],
) -> Result<Vec<Unfit>, AllocError>
    ensures { IfOk result (λ found. found.items ≡ unfit_services config.now services.now) }
{
    let mut found = Vec::new(alloc);
    push_unfit_masks(&mut found, config)?;
    push_bare_services(&mut found, services)?;
    Ok(found)
}

/// The lines of what can't work.
#[tactic(auto, unfolding(crate::specs::Checking::check_text))]
fn lines_of(alloc: Global, config: &Config, found: &[Unfit]) -> Result<Vec<u8>, AllocError>
    ensures { IfOk result (λ text. text.items ≡ check_text config.now found.now) }
{
    let mut text = Vec::new(alloc);
    push_unfit_lines(&mut text, config, found)?;
    Ok(text)
}

/// Reads a configuration and the programs of its services, and prints what can't work by them alone. Answers
/// whether there is any.
pub fn check<R: Reader, W: Write>(
    alloc: Global,
    reader: &mut R,
    config: &str,
    out: &mut W,
) -> Result<bool, Failure>
    ensures { (qs : List Asked) × (R.asked reader.new ≡ R.asked reader.old ++ qs)
        × ChecksConfig config.now qs
        (λ text. Appends (W.contents out.old) (W.contents out.new) text) result }
{
    let (config, services) = setup_of(alloc, reader, config)?;
    let found = unfit_services(alloc, &config, services.as_slice())?;
    let text = lines_of(alloc, &config, found.as_slice())?;
    print_text(text.as_slice(), out)?;
    Ok(found.len() != 0)
}
