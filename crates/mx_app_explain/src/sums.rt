//! The sums of a machine, and their text.

ghost use Rattle.std.specs.Prelude.{◌≡◌, ◌++◌, ◌∷◌, [], IfOk, OnOk};
ghost use Rattle.std.specs.List.{flat_map};
ghost use Rattle.mx_app_explain.specs.Sums.{configuration_sum, machine_sums, part_word, program_sum, sum_line, sums_text};

use crate::items::{items_text, name_word};
use mx_aout::write;
use mx_kcall::Service;
use mx_machine::Config;
use mx_text::Name;
use mx_word::NoMemory;
use sha2::{Digest, Sha256};
use std::alloc::{AllocError, Global};

/// A part of a machine that has a sum of its own.
#[derive(Clone, Copy)]
pub enum MachinePart {
    /// What the configuration says.
    Configuration,
    /// The program of the service with this name.
    Service(Name),
}

/// A part of a machine, and the SHA-256 of its bytes.
#[derive(Clone, Copy)]
pub struct PartSum {
    pub part: MachinePart,
    pub digest: [u8; 32],
}

/// The sum of a service's program: that of its file as `as` writes it.
fn program_sum(alloc: Global, service: &Service) -> Result<PartSum, NoMemory>
    ensures { IfOk result (λ sum. sum ≡ program_sum service.now) }
{
    let bytes = write(alloc, &service.program)?;
    Ok(PartSum {
        part: MachinePart::Service(service.name),
        digest: Sha256::digest(bytes.as_slice()),
    })
}

/// The sum of what a configuration says.
fn configuration_sum(alloc: Global, config: &Config) -> Result<PartSum, AllocError>
    ensures { IfOk result (λ sum. sum ≡ configuration_sum config.now) }
{
    let text = items_text(alloc, config)?;
    Ok(PartSum {
        part: MachinePart::Configuration,
        digest: Sha256::digest(text.as_slice()),
    })
}

/// Appends a sum.
fn push_sum(sums: &mut Vec<PartSum>, sum: PartSum) -> Result<(), AllocError>
    ensures { OnOk result (sums.new.items ≡ sums.old.items ++ sum ∷ []) }
{
    sums.push(sum)?;
    Ok(())
}

/// The sums of a machine that boots from this configuration and these services: that of the configuration,
/// then those of the programs, in slot order.
pub fn machine_sums(
    alloc: Global,
    config: &Config,
    services: &[Service],
) -> Result<Vec<PartSum>, NoMemory>
    ensures { IfOk result (λ sums. sums.items ≡ machine_sums config.now services.now) }
{
    let mut sums = Vec::new(alloc);
    push_sum(&mut sums, configuration_sum(alloc, config)?)?;
    for service in services {
        push_sum(&mut sums, program_sum(alloc, service)?)?;
    }
    Ok(sums)
}

/// The name of a part, as it is in its line.
pub(crate) fn part_word(part: &MachinePart) -> &[u8]
    ensures { result.now ≡ part_word part.now }
{
    match part {
        MachinePart::Configuration => b"configuration",
        MachinePart::Service(name) => name_word(name),
    }
}

/// Appends a part's line: its sum in hexadecimal, two spaces and its name.
#[tactic(auto, unfolding(crate::specs::Sums::sum_line))]
pub(crate) fn push_sum_line(
    alloc: Global,
    out: &mut Vec<u8>,
    sum: &PartSum,
) -> Result<(), AllocError>
    ensures { OnOk result (out.new.items ≡ out.old.items ++ sum_line sum.now) }
{
    let digits = hex::encode(alloc, &sum.digest)?;
    out.extend_from_slice(digits.as_bytes())?;
    out.extend_from_slice(b"  ")?;
    out.extend_from_slice(part_word(&sum.part))?;
    out.push(b'\n')?;
    Ok(())
}

/// The text of sums: a line for each.
pub fn sums_text(alloc: Global, sums: &[PartSum]) -> Result<Vec<u8>, AllocError>
    ensures { IfOk result (λ text. text.items ≡ sums_text sums.now) }
{
    let mut out = Vec::new(alloc);
    for sum in sums {
        push_sum_line(alloc, &mut out, sum)?;
    }
    Ok(out)
}
