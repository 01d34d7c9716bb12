//! Files of outside events.

ghost use Rattle.std.specs.Prelude.{◌≡◌, IfErr, IfOk};
ghost use Rattle.mx_text.specs.Fields.{fields};
ghost use Rattle.mx_text.specs.Lines.{lines};
ghost use Rattle.mx_app_turns.specs.Commented.{AreSaid, TellsUnsaid};
ghost use Rattle.mx_app_turns.specs.Events.{outside_line, outside_line_of};

use crate::commented::read_commented;
use crate::named::{kill_of_fields, only_slot};
use mx_app_start::Course;
use mx_boot::{EventKind, ReadsLine, event_kind_named, only_count};
use mx_machine::{Config, Event};
use mx_text::{BootError, next_field};
use mx_turns::OutsideLine;
use std::alloc::Global;

/// The outside event that a line names, if it begins with a kind and goes on like this: `line L`, `tick`, `kill E` or
/// `respawn S`, where E and S may be the name of a service.
pub fn outside_line_of(config: &Config, kind: EventKind, rest: &[u8]) -> Option<OutsideLine>
    ensures { result ≡ outside_line_of config.now.lines kind (fields rest.now) }
{
    match kind {
        EventKind::Line => Some(OutsideLine::Plain(Event::Line(only_count(rest)?))),
        EventKind::Tick => match next_field(rest) {
            None => Some(OutsideLine::Plain(Event::Tick)),
            Some(_) => None,
        },
        EventKind::Kill => kill_of_fields(config, rest),
        EventKind::Respawn => Some(OutsideLine::Plain(Event::Respawn(only_slot(config, rest)?))),
        _ => None,
    }
}

/// Reads the lines of a file of outside events, for the machine of a configuration.
#[derive(Clone, Copy)]
struct EventReader<'a> {
    config: &'a Config,
}

impl<'a> ReadsLine for EventReader<'a> {
    ghost use Rattle.mx_app_turns.specs.Events.{outside_line};

    type Said = OutsideLine;

    ghost says = { λ reader line. outside_line reader.config.now.lines line };

    fn read(&self, line: &[u8]) -> Option<OutsideLine> {
        let (word, rest) = next_field(line)?;
        let kind = event_kind_named(word)?;
        outside_line_of(self.config, kind, rest)
    }
}

/// The lines of a file of outside events, one a line: `line L`, `tick`, `kill E` and `respawn S`, as in a script, where
/// E and S may be the name of a service. The numbers are decimal, at most 2,147,483,647. A line may be empty, or end
/// with a comment, which `#` begins.
pub fn outside_events(
    alloc: Global,
    text: &str,
    config: &Config,
) -> Result<Vec<OutsideLine>, BootError>
    ensures read { IfOk result (λ found.
        AreSaid (outside_line config.now.lines) (lines text.now) found.items) }
    ensures unread { IfErr result (λ e.
        TellsUnsaid (outside_line config.now.lines) (lines text.now) e) }
{
    read_commented(alloc, &EventReader { config }, text.as_bytes())
}

/// The lines of a file of outside events, as what drives a machine.
pub struct OutsideEvents;

impl Course for OutsideEvents {
    ghost use Rattle.mx_app_turns.specs.Events.{AreOutside, TellsOutside};

    type Line = OutsideLine;

    ghost IsSaid = { AreOutside };

    ghost Tells = { TellsOutside };

    fn read(alloc: Global, text: &str, config: &mut Config) -> Result<Vec<OutsideLine>, BootError> {
        outside_events(alloc, text, &*config)
    }
}
