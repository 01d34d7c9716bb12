//! The files that a request names: those that it reads, and the one that it writes.

ghost use Rattle.std.specs.Prelude.{◌≡◌, ◌&&◌, codes, option_map};
ghost use Rattle.std.specs.List.{list_all};
ghost use Rattle.mx_text.specs.Bytes.{is_digit};
ghost use Rattle.mx_text.specs.Fields.{has_bytes};
ghost use Rattle.mx_app_command.specs.Files.{file_word, file_written, files_in, files_read, has_name, has_numbered, is_numbered, is_written, names, names_file, names_numbered, one_file, with_course, with_events, with_fault, with_log, word_of, writes_over, writes_several, written_kind};

use crate::command_line::CommandRequest;
use mx_text::is_digit;

/// A word of the command line that names a file: the word as help has it, and the file's name.
#[derive(Clone, Copy)]
pub struct NamedWord<'a> {
    pub label: &'static str,
    pub name: &'a str,
}

/// The files that a request reads, in order.
#[derive(Clone, Copy)]
pub struct ReadWords<'a> {
    /// A program, a text for the assembler, or a configuration.
    pub first: NamedWord<'a>,
    /// What drives the machine.
    pub course: Option<NamedWord<'a>>,
    /// What it reads besides: the fault of a sweep, or the outside events with which a history was made.
    pub further: Option<NamedWord<'a>>,
}

/// What a file that is written holds.
#[derive(Clone, Copy, Debug, PartialEq, Eq)]
pub enum FileKind {
    /// A program, as an a.out file.
    Program,
    /// The history of a machine.
    History,
    /// The sums of a machine.
    Sums,
}

/// A word with this label.
fn word<'a>(label: &'static str, name: &'a str) -> NamedWord<'a>
    ensures { word_of result ≡ file_word label.entry.now name.entry.now }
{
    NamedWord { label, name }
}

/// One file alone.
fn one_file<'a>(label: &'static str, name: &'a str) -> ReadWords<'a>
    ensures { files_in result ≡ one_file label.entry.now name.entry.now }
{
    ReadWords {
        first: word(label, name),
        course: None,
        further: None,
    }
}

/// A configuration, and what drives its machine.
fn with_course<'a>(config: &'a str, label: &'static str, name: &'a str) -> ReadWords<'a>
    ensures { files_in result ≡ with_course config.entry.now label.entry.now name.entry.now }
{
    ReadWords {
        first: word("CONFIG", config),
        course: Some(word(label, name)),
        further: None,
    }
}

/// A configuration, and the file of outside events if one is named.
fn with_events<'a>(config: &'a str, events: Option<&'a str>) -> ReadWords<'a>
    ensures { files_in result ≡ with_events config.entry.now
        (option_map (λ s. s.now) events.entry) }
{
    match events {
        None => one_file("CONFIG", config),
        Some(events) => with_course(config, "EVENTS", events),
    }
}

/// A configuration, a history of its machine, and the fault of a sweep.
fn with_fault<'a>(config: &'a str, log: &'a str, fault: &'a str) -> ReadWords<'a>
    ensures { files_in result ≡ with_fault config.entry.now log.entry.now fault.entry.now }
{
    ReadWords {
        first: word("CONFIG", config),
        course: Some(word("LOG", log)),
        further: Some(word("FAULT", fault)),
    }
}

/// A configuration, a history of its machine, and the file of outside events with which it was made, if one is named.
fn with_log<'a>(config: &'a str, log: &'a str, events: Option<&'a str>) -> ReadWords<'a>
    ensures { files_in result ≡ with_log config.entry.now log.entry.now
        (option_map (λ s. s.now) events.entry) }
{
    ReadWords {
        first: word("CONFIG", config),
        course: Some(word("LOG", log)),
        further: match events {
            Some(events) => Some(word("EVENTS", events)),
            None => None,
        },
    }
}

/// Whether a word that may be there names this file.
fn names(word: Option<NamedWord<'_>>, name: &str) -> bool
    ensures { result ≡ names (option_map word_of word.entry) name.now }
{
    match word {
        None => false,
        Some(word) => word.name == name,
    }
}

/// Whether all of these bytes are decimal digits.
fn all_digits(text: &[u8]) -> bool
    ensures { result ≡ list_all is_digit text.now }
{
    text.iter().all(|byte| is_digit(*byte))
}

/// Whether bytes are one or more decimal digits.
fn are_digits(text: &[u8]) -> bool
    ensures { result ≡ (has_bytes text.now && list_all is_digit text.now) }
{
    !text.is_empty() && all_digits(text)
}

/// Whether a name is another one, and then decimal digits.
pub fn is_numbered(front: &str, name: &str) -> bool
    ensures { result ≡ is_numbered front.now name.now }
{
    let (front, name) = (front.as_bytes(), name.as_bytes());
    name.starts_with(front) && are_digits(&name[front.len()..])
}

/// Whether a word that may be there names a file by this front, and then digits.
fn names_numbered(word: Option<NamedWord<'_>>, front: &str) -> bool
    ensures { result ≡ names_numbered (option_map word_of word.entry) front.now }
{
    match word {
        None => false,
        Some(word) => is_numbered(front, word.name),
    }
}

impl ReadWords<'_> {
    /// Whether one of them is the file of this name, byte for byte.
    pub fn has(self, name: &str) -> bool
        ensures { result ≡ has_name (files_in self.entry) name.now }
    {
        self.first.name == name || names(self.course, name) || names(self.further, name)
    }

    /// Whether one of them has a name that begins so, and ends with digits.
    fn has_numbered(self, front: &str) -> bool
        ensures { result ≡ has_numbered (files_in self.entry) front.now }
    {
        is_numbered(front, self.first.name)
            || names_numbered(self.course, front)
            || names_numbered(self.further, front)
    }
}

impl<'a> CommandRequest<'a> {
    /// The files that it reads.
    pub fn reads(self) -> ReadWords<'a>
        ensures { files_in result ≡ files_read self.entry }
    {
        match self {
            CommandRequest::One { file, .. } => one_file("FILE", file),
            CommandRequest::As { text, .. } => one_file("TEXT", text),
            CommandRequest::Show { file, .. } => one_file("FILE", file),
            CommandRequest::Explain { config } => one_file("CONFIG", config),
            CommandRequest::Check { config } => one_file("CONFIG", config),
            CommandRequest::Step { config, script, .. } => with_course(config, "SCRIPT", script),
            CommandRequest::Db { config, script } => with_course(config, "SCRIPT", script),
            CommandRequest::Run { config, events, .. } => with_events(config, events),
            CommandRequest::Turns { config, events, .. } => with_events(config, events),
            CommandRequest::Live { config, .. } => one_file("CONFIG", config),
            CommandRequest::Sweep {
                config,
                log,
                fault,
                ..
            } => with_fault(config, log, fault),
            CommandRequest::SweptPage {
                config,
                log,
                fault,
                ..
            } => with_fault(config, log, fault),
            CommandRequest::Explore { config, events, .. } => with_events(config, events),
            CommandRequest::Replay { config, log } => with_course(config, "LOG", log),
            CommandRequest::Trace { config, log, .. } => with_course(config, "LOG", log),
            CommandRequest::Draw { config, log, .. } => with_course(config, "LOG", log),
            CommandRequest::Page { config, log, .. } => with_course(config, "LOG", log),
            CommandRequest::Look { config, log } => with_course(config, "LOG", log),
            CommandRequest::Gdb { config, log, .. } => with_course(config, "LOG", log),
            CommandRequest::Why {
                config,
                log,
                events,
                ..
            } => with_log(config, log, events),
        }
    }

    /// Whether it writes several files, whose names are a word of it and then a number.
    pub fn writes_several(self) -> bool
        ensures { result ≡ writes_several self.entry }
    {
        matches!(self, CommandRequest::Explore { .. })
    }

    /// The file that it writes, if it writes one; if it writes several, how their names begin.
    pub fn writes(self) -> Option<NamedWord<'a>>
        ensures { option_map word_of result ≡ file_written self.entry }
    {
        match self {
            CommandRequest::As { file, .. } => Some(word("FILE", file)),
            CommandRequest::Step {
                save: Some(log),
                ..
            } => Some(word("LOG", log)),
            CommandRequest::Run { log, .. } => Some(word("LOG", log)),
            CommandRequest::Turns { log, .. } => Some(word("LOG", log)),
            CommandRequest::Live { log, .. } => Some(word("LOG", log)),
            CommandRequest::Sweep {
                save: Some(file),
                ..
            } => Some(word("FILE", file)),
            CommandRequest::Explore {
                save: Some(name),
                ..
            } => Some(word("NAME", name)),
            _ => None,
        }
    }

    /// What the file holds that it writes, or each of several.
    pub fn written_kind(self) -> FileKind
        ensures { result ≡ written_kind self.entry }
    {
        match self {
            CommandRequest::As { .. } => FileKind::Program,
            _ => FileKind::History,
        }
    }

    /// Whether it writes a file of this name.
    fn is_written(self, name: &str) -> bool
        ensures { result ≡ is_written (writes_several self.entry) (file_written self.entry)
            name.now }
    {
        match self.writes() {
            None => false,
            Some(word) => {
                if self.writes_several() {
                    is_numbered(word.name, name)
                } else {
                    word.name == name
                }
            }
        }
    }

    /// Whether a word of it names this file.
    pub fn names_file(self, name: &str) -> bool
        ensures { result ≡ names_file self.entry name.now }
    {
        self.reads().has(name) || self.is_written(name)
    }

    /// Whether it would write over what it reads. Two names of one file aren't seen to be one.
    pub fn writes_over(self) -> bool
        ensures { result ≡ writes_over self.entry }
    {
        match self.writes() {
            None => false,
            Some(word) => {
                if self.writes_several() {
                    self.reads().has_numbered(word.name)
                } else {
                    self.reads().has(word.name)
                }
            }
        }
    }
}
