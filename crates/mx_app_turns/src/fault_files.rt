//! Files of faults.

ghost use Rattle.std.specs.Prelude.{◌≡◌, IfErr, IfOk};
ghost use Rattle.mx_text.specs.Fields.{fields};
ghost use Rattle.mx_text.specs.Lines.{lines};
ghost use Rattle.mx_app_turns.specs.Commented.{AreSaid, TellsUnsaid};
ghost use Rattle.mx_app_turns.specs.FaultLines.{fault_line, fault_line_of, first_of, named_line, service_named, slot_named};

use crate::commented::read_commented;
use crate::named::slot_of_name;
use mx_boot::{EventKind, ReadsLine, ScriptLine, count, event_kind_named, script_line_of};
use mx_machine::Config;
use mx_text::{BootError, next_field, one_field, two_fields};
use mx_turns::FaultLine;
use std::alloc::Global;

/// The slot that `slot S` names.
fn slot_named(line: &[u8]) -> Option<u32>
    ensures { result ≡ slot_named (fields line.now) }
{
    let (word, slot) = two_fields(line)?;
    if word == b"slot".as_slice() {
        count(slot)
    } else {
        None
    }
}

/// The slot of the service that is a line's only field.
fn service_named(config: &Config, line: &[u8]) -> Option<u32>
    ensures { result ≡ service_named config.now.lines (fields line.now) }
{
    Some(u32::from(slot_of_name(config, one_field(line)?)?))
}

/// The slot that is killed: `slot S`, or the name of its service.
fn slot_killed(config: &Config, line: &[u8]) -> Option<u32>
    ensures { result
        ≡ first_of (slot_named (fields line.now)) (service_named config.now.lines (fields line.now)) }
{
    match slot_named(line) {
        Some(slot) => Some(slot),
        None => service_named(config, line),
    }
}

/// What a line says that begins with a kind and names a slot or a service.
fn named_line(config: &Config, kind: EventKind, rest: &[u8]) -> Option<FaultLine>
    ensures { result ≡ named_line config.now.lines kind (fields rest.now) }
{
    match kind {
        EventKind::Kill => Some(FaultLine::KillSlot(slot_killed(config, rest)?)),
        EventKind::Respawn => {
            let slot = service_named(config, rest)?;
            Some(FaultLine::Plain(ScriptLine::Respawn(slot)))
        }
        _ => None,
    }
}

/// What a line says that begins with a kind and goes on like this.
fn fault_line_of(config: &Config, kind: EventKind, rest: &[u8]) -> Option<FaultLine>
    ensures { result ≡ fault_line_of config.now.lines kind (fields rest.now) }
{
    match script_line_of(kind, rest) {
        Some(line) => Some(FaultLine::Plain(line)),
        None => named_line(config, kind, rest),
    }
}

/// Reads the lines of a fault, for the machine of a configuration.
#[derive(Clone, Copy)]
struct FaultReader<'a> {
    config: &'a Config,
}

impl<'a> ReadsLine for FaultReader<'a> {
    ghost use Rattle.mx_app_turns.specs.FaultLines.{fault_line};

    type Said = FaultLine;

    ghost says = { λ reader line. fault_line reader.config.now.lines line };

    fn read(&self, line: &[u8]) -> Option<FaultLine> {
        let (word, rest) = next_field(line)?;
        let kind = event_kind_named(word)?;
        fault_line_of(self.config, kind, rest)
    }
}

/// The lines of a fault: those of a script; `kill slot S` and `kill NAME`, which kill the process that the slot, or the
/// service of this name, has then; and `respawn NAME`. The numbers are decimal, C at most 255, the others at most
/// 2,147,483,647. A line may be empty, or end with a comment, which `#` begins.
pub fn fault_lines(alloc: Global, text: &str, config: &Config) -> Result<Vec<FaultLine>, BootError>
    ensures read { IfOk result (λ found.
        AreSaid (fault_line config.now.lines) (lines text.now) found.items) }
    ensures unread { IfErr result (λ e.
        TellsUnsaid (fault_line config.now.lines) (lines text.now) e) }
{
    read_commented(alloc, &FaultReader { config }, text.as_bytes())
}
