//! The lines of a script, as values.

ghost use Rattle.std.specs.Prelude.{◌≡◌, IfOk, IfErr};
ghost use Rattle.mx_text.specs.Lines.{lines};
ghost use Rattle.mx_text.specs.Fields.{fields};
ghost use Rattle.mx_boot.specs.Reading.{AreLinesRead, TellsUnread};
ghost use Rattle.mx_boot.specs.Script.{script_line_of, script_line};

use crate::event_kind::{EventKind, event_kind_named};
use crate::script_numbers::{actor_and_count, only_actor, only_count};
use crate::script_reading::{ReadsLine, read_lines};
use mx_text::{BootError, next_field};
use std::alloc::Global;

/// A line of a script. The last four are events of the first actor that is no processor.
#[derive(Clone, Copy, Debug, PartialEq, Eq)]
pub enum ScriptLine {
    /// On a processor at most a number of steps.
    Step(u8, u32),
    /// A processor takes a process.
    Take(u8),
    /// A processor's process comes back.
    Back(u8),
    /// An interrupt line is raised.
    Line(u32),
    Tick,
    /// The process of an endpoint is killed.
    Kill(u32),
    /// A slot gets a new process.
    Respawn(u32),
}

/// The line of a script that is a kind and these fields.
pub fn script_line_of(kind: EventKind, rest: &[u8]) -> Option<ScriptLine>
    ensures { result ≡ script_line_of kind (fields rest.now) }
{
    match kind {
        EventKind::Step => {
            let (cpu, steps) = actor_and_count(rest)?;
            Some(ScriptLine::Step(cpu, steps))
        }
        EventKind::Take => Some(ScriptLine::Take(only_actor(rest)?)),
        EventKind::Back => Some(ScriptLine::Back(only_actor(rest)?)),
        EventKind::Line => Some(ScriptLine::Line(only_count(rest)?)),
        EventKind::Tick => match next_field(rest) {
            None => Some(ScriptLine::Tick),
            Some(_) => None,
        },
        EventKind::Kill => Some(ScriptLine::Kill(only_count(rest)?)),
        EventKind::Respawn => Some(ScriptLine::Respawn(only_count(rest)?)),
    }
}

/// Reads the lines of a script.
struct ScriptReader;

impl ReadsLine for ScriptReader {
    ghost use Rattle.mx_boot.specs.Script.{script_line};

    type Said = ScriptLine;

    ghost says = { λ _ line. script_line line };

    fn read(&self, line: &[u8]) -> Option<ScriptLine> {
        let (word, rest) = next_field(line)?;
        let kind = event_kind_named(word)?;
        script_line_of(kind, rest)
    }
}

/// The lines of a script, one a line: `step C K`, `take C`, `back C`, `line L`, `tick`, `kill E`,
/// `respawn S`. The numbers are decimal, C at most 255, the others at most 2,147,483,647.
pub fn script(alloc: Global, text: &str) -> Result<Vec<ScriptLine>, BootError>
    ensures read { IfOk result (λ found. AreLinesRead script_line (lines text.now) found.items) }
    ensures unread { IfErr result (λ e. TellsUnread script_line (lines text.now) e) }
{
    read_lines(alloc, &ScriptReader, text.as_bytes())
}
