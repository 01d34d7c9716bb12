//! The file of outside events with which a history was made.

ghost use Rattle.std.specs.Prelude.{◌≡◌, ◌++◌, ◌∷◌, [], IfErr, IfOk, List, option_map};
ghost use Rattle.mx_app_start.specs.Asked.{Asked};
ghost use Rattle.mx_text.specs.Fields.{fields};
ghost use Rattle.mx_why.specs.EventFiles.{AreEventsGiven, AreEventsRead, AreEventsUnread, AreNoEventsGiven, event_said, said_of_line, sought};

use mx_app_failure::{About, Failure};
use mx_app_start::{Reader, text_of};
use mx_app_turns::outside_line_of;
use mx_boot::{ReadsLine, before_comment, event_kind_named, only_count, read_lines};
use mx_machine::{Config, Event};
use mx_text::next_field;
use mx_turns::OutsideLine;
use std::alloc::Global;

/// The event whose record is sought: a machine makes respawns too, so those of the file can't be told from them.
fn sought(line: OutsideLine) -> Option<OutsideLine>
    ensures { result ≡ sought line }
{
    match line {
        OutsideLine::Plain(Event::Respawn(_)) => None,
        _ => Some(line),
    }
}

/// What the fields of a line say: nothing; `wait N`, which makes no record; or an outside event.
fn event_said(config: &Config, line: &[u8]) -> Option<Option<OutsideLine>>
    ensures { result ≡ event_said config.now.lines (fields line.now) }
{
    let Some((word, rest)) = next_field(line) else {
        return Some(None);
    };
    if word == b"wait".as_slice() {
        only_count(rest)?;
        return Some(None);
    }
    let kind = event_kind_named(word)?;
    Some(sought(outside_line_of(config, kind, rest)?))
}

/// Reads the lines of a file for the machine of a configuration.
#[derive(Clone, Copy)]
struct EventLines<'a> {
    config: &'a Config,
}

impl<'a> ReadsLine for EventLines<'a> {
    ghost use Rattle.mx_why.specs.EventFiles.{said_of_line};

    type Said = Option<OutsideLine>;

    ghost says = { λ reader line. said_of_line reader.config.now.lines line };

    fn read(&self, line: &[u8]) -> Option<Option<OutsideLine>> {
        event_said(self.config, before_comment(line))
    }
}

/// What each line of the file of this name says.
fn events_of<R: Reader>(
    alloc: Global,
    reader: &mut R,
    name: &str,
    config: &Config,
) -> Result<Vec<Option<OutsideLine>>, Failure>
    ensures read { IfOk result (λ said. (q : Asked)
        × (R.asked reader.new ≡ R.asked reader.old ++ q ∷ [])
        × AreEventsGiven name.now q config.now.lines said.items) }
    ensures fault { IfErr result (λ f. (q : Asked)
        × (R.asked reader.new ≡ R.asked reader.old ++ q ∷ [])
        × AreNoEventsGiven name.now q config.now.lines f) }
{
    let text = text_of(alloc, reader, name, About::Fault)?;
    match read_lines(alloc, &EventLines { config }, text.as_bytes()) {
        Ok(said) => Ok(said),
        Err(error) => Err(Failure::misstated(error, About::Fault, text)),
    }
}

/// What each line of the file says, if one is named.
pub(crate) fn events_if_named<R: Reader>(
    alloc: Global,
    reader: &mut R,
    name: Option<&str>,
    config: &Config,
) -> Result<Vec<Option<OutsideLine>>, Failure>
    ensures read { IfOk result (λ said. (qs : List Asked)
        × (R.asked reader.new ≡ R.asked reader.old ++ qs)
        × AreEventsRead (option_map (λ s. s.now) name.entry) qs config.now.lines said.items) }
    ensures fault { IfErr result (λ f. (qs : List Asked)
        × (R.asked reader.new ≡ R.asked reader.old ++ qs)
        × AreEventsUnread (option_map (λ s. s.now) name.entry) qs config.now.lines f) }
{
    match name {
        Some(name) => events_of(alloc, reader, name, config),
        None => Ok(Vec::new(alloc)),
    }
}
