//! What a configuration says, as text.

ghost use Rattle.std.specs.Prelude.{◌≡◌, ◌++◌, IfOk, OnOk, codes};
ghost use Rattle.std.specs.Fmt.{decimal};
ghost use Rattle.std.specs.List.{flat_map};
ghost use Rattle.mx_app_explain.specs.Items.{items_text, machine_items, mask_items, name_word, rules_number, service_items, term_items};

use mx_boot::before_byte;
use mx_machine::{Config, ServiceLine};
use mx_print_report::push_decimal;
use mx_proc::{Rules, Terms};
use mx_text::Name;
use std::alloc::{AllocError, Global};

/// The bytes of a name without those that pad it.
pub(crate) fn name_word(name: &Name) -> &[u8]
    ensures { result.now ≡ name_word name.now }
{
    before_byte(&name.bytes, 0)
}

/// The number of rules, as a configuration has it.
fn rules_number(rules: Rules) -> u32
    ensures { result ≡ rules_number rules }
{
    match rules {
        Rules::Lenient => 1,
        Rules::Strict => 2,
    }
}

/// Appends a word and a number.
fn push_item(out: &mut Vec<u8>, word: &[u8], number: u32) -> Result<(), AllocError>
    ensures { OnOk result (out.new.items ≡ out.old.items ++ (word.now ++ decimal number)) }
{
    out.extend_from_slice(word)?;
    push_decimal(out, number)
}

/// Appends the items that are no service's.
#[tactic(auto, unfolding(crate::specs::Items::machine_items))]
fn push_machine_items(out: &mut Vec<u8>, config: &Config) -> Result<(), AllocError>
    ensures { OnOk result (out.new.items ≡ out.old.items ++ machine_items config.now) }
{
    push_item(out, b"cpus ", u32::from(config.cpus))?;
    push_item(out, b"\nothers ", u32::from(config.others))?;
    push_item(out, b"\nlog ", config.log)?;
    push_item(out, b"\nrules ", rules_number(config.rules))?;
    out.push(b'\n')?;
    Ok(())
}

/// Appends a service's masks.
#[tactic(auto, unfolding(crate::specs::Items::mask_items))]
fn push_mask_items(out: &mut Vec<u8>, terms: &Terms) -> Result<(), AllocError>
    ensures { OnOk result (out.new.items ≡ out.old.items ++ mask_items terms.now) }
{
    let masks = terms.masks;
    push_item(out, b" traps ", masks.traps)?;
    push_item(out, b" send ", masks.sends)?;
    push_item(out, b" calls ", masks.calls)
}

/// Appends what a service gives its processes.
#[tactic(auto, unfolding(crate::specs::Items::term_items))]
fn push_term_items(out: &mut Vec<u8>, terms: &Terms) -> Result<(), AllocError>
    ensures { OnOk result (out.new.items ≡ out.old.items ++ term_items terms.now) }
{
    push_mask_items(out, terms)?;
    push_item(out, b" level ", u32::from(terms.level))?;
    push_item(out, b" best ", u32::from(terms.best))?;
    push_item(out, b" quantum ", terms.quantum)?;
    push_item(out, b" restarts ", terms.restarts)
}

/// Appends the line of a service.
#[tactic(auto, unfolding(crate::specs::Items::service_items))]
fn push_service_items(out: &mut Vec<u8>, line: &ServiceLine) -> Result<(), AllocError>
    ensures { OnOk result (out.new.items ≡ out.old.items ++ service_items line.now) }
{
    out.extend_from_slice(b"service ")?;
    out.extend_from_slice(name_word(&line.name))?;
    push_term_items(out, &line.terms)?;
    out.push(b'\n')?;
    Ok(())
}

/// What a configuration says, but for the names of the programs' files: the machine's items, then a line for
/// each service. All numbers are decimal. Two texts with the same items, whatever their blanks, comments and
/// order of items, give the same bytes.
pub fn items_text(alloc: Global, config: &Config) -> Result<Vec<u8>, AllocError>
    ensures { IfOk result (λ text. text.items ≡ items_text config.now) }
{
    let mut out = Vec::new(alloc);
    push_machine_items(&mut out, config)?;
    for line in config.lines.as_slice() {
        push_service_items(&mut out, line)?;
    }
    Ok(out)
}
