//! The lines of services.

ghost use Rattle.std.specs.Prelude.{◌≡◌, ◌++◌, IfOk, OnOk};
ghost use Rattle.mx_app_explain.specs.ServiceWords.{head_words, mask_words, service_line, service_lines, services_text, term_words};

use crate::allowed::{push_allowed_calls, push_allowed_receivers, push_allowed_traps};
use mx_machine::{Config, ServiceLine};
use mx_print_report::{push_decimal, push_name};
use mx_proc::Terms;
use std::alloc::{AllocError, Global};

/// Appends a service's slot and name.
#[tactic(auto, unfolding(crate::specs::ServiceWords::head_words))]
fn push_head_words(out: &mut Vec<u8>, slot: u32, line: &ServiceLine) -> Result<(), AllocError>
    ensures { OnOk result (out.new.items ≡ out.old.items ++ head_words slot line.now) }
{
    push_decimal(out, slot)?;
    out.push(b' ')?;
    push_name(out, &line.name.bytes)
}

/// Appends what a service's masks allow.
#[tactic(auto, unfolding(crate::specs::ServiceWords::mask_words))]
fn push_mask_words(out: &mut Vec<u8>, config: &Config, line: &ServiceLine) -> Result<(), AllocError>
    ensures { OnOk result (out.new.items ≡ out.old.items ++ mask_words config.now line.now) }
{
    let masks = line.terms.masks;
    out.extend_from_slice(b": traps")?;
    push_allowed_traps(out, masks.traps)?;
    out.extend_from_slice(b"; sends to")?;
    push_allowed_receivers(out, masks.sends, config.lines.as_slice())?;
    out.extend_from_slice(b"; kernel calls")?;
    push_allowed_calls(out, masks.calls, config.rules)
}

/// Appends a service's levels, quantum and restarts.
#[tactic(auto, unfolding(crate::specs::ServiceWords::term_words))]
fn push_term_words(out: &mut Vec<u8>, terms: &Terms) -> Result<(), AllocError>
    ensures { OnOk result (out.new.items ≡ out.old.items ++ term_words terms.now) }
{
    out.extend_from_slice(b"; level ")?;
    push_decimal(out, u32::from(terms.level))?;
    out.extend_from_slice(b", best ")?;
    push_decimal(out, u32::from(terms.best))?;
    out.extend_from_slice(b"; quantum ")?;
    push_decimal(out, terms.quantum)?;
    out.extend_from_slice(b"; restarts ")?;
    push_decimal(out, terms.restarts)
}

/// Appends the line of a slot's service.
#[tactic(auto, unfolding(crate::specs::ServiceWords::service_line))]
fn push_service_line(
    out: &mut Vec<u8>,
    config: &Config,
    slot: u32,
    line: &ServiceLine,
) -> Result<(), AllocError>
    ensures { OnOk result (out.new.items ≡ out.old.items ++ service_line config.now slot line.now) }
{
    push_head_words(out, slot, line)?;
    push_mask_words(out, config, line)?;
    push_term_words(out, &line.terms)?;
    out.push(b'\n')?;
    Ok(())
}

/// Appends the lines of all services.
#[tactic(auto, using(crate::proofs::WordLemmas::service_lines_more))]
fn push_service_lines(out: &mut Vec<u8>, config: &Config) -> Result<(), AllocError>
    ensures { OnOk result (out.new.items
        ≡ out.old.items ++ service_lines config.now 0 config.now.lines) }
{
    for (slot, line) in config.lines.as_slice().iter().enumerate() {
        push_service_line(out, config, slot as u32, line)?;
    }
    Ok(())
}

/// What the services of a configuration may do: a line for each, in slot order, with its slot and name, the
/// traps that its masks allow, the services that it may send to, the kernel calls, its level and best
/// level, its quantum and its restarts. `none` is written for a mask that allows nothing.
pub fn services_text(alloc: Global, config: &Config) -> Result<Vec<u8>, AllocError>
    ensures { IfOk result (λ text. text.items ≡ services_text config.now) }
{
    let mut out = Vec::new(alloc);
    push_service_lines(&mut out, config)?;
    Ok(out)
}
