//! What a failure is about.

ghost use Rattle.std.specs.Prelude.{◌≡◌, Some, option_map};
ghost use Rattle.mx_app_command.specs.Files.{files_read, word_of};
ghost use Rattle.mx_app_explain.specs.Explaining.{file_subject, subject_told, word_subject};

use mx_app_command::{CommandRequest, NamedWord};
use mx_app_failure::About;
use std::fmt;

/// What a failure is about.
#[derive(Clone, Copy)]
pub enum Subject<'a> {
    /// The file that a word of the command line names: the word as help has it, and the file's name.
    Word(&'static str, &'a str),
    /// A service's program, by its file's name.
    Service(&'a str),
    /// A file whose name isn't known.
    Unknown,
    /// Standard input.
    Input,
    /// Standard output.
    Output,
    /// Memory.
    Memory,
}

/// As it is in a line.
impl fmt::Display for Subject<'_> {
    ghost use Rattle.std.specs.Prelude.{Some};
    ghost use Rattle.mx_app_explain.specs.Explaining.{subject_told};

    ghost output = { λ subject. Some (subject_told subject) };

    fn fmt<W: fmt::Write>(&self, f: &mut fmt::Formatter<W>) -> fmt::Result {
        match *self {
            Subject::Word(label, name) => write!(f, "{label} {name}"),
            Subject::Service(name) => write!(f, "a service's program {name}"),
            Subject::Unknown => write!(f, "a file"),
            Subject::Input => write!(f, "standard input"),
            Subject::Output => write!(f, "standard output"),
            Subject::Memory => write!(f, "memory"),
        }
    }
}

/// What a word names, if it is there.
fn word_subject(word: Option<NamedWord<'_>>) -> Subject<'_>
    ensures { subject_told result ≡ word_subject (option_map word_of word.entry) }
{
    match word {
        Some(word) => Subject::Word(word.label, word.name),
        None => Subject::Unknown,
    }
}

/// A file that fails, by what it is to the command.
pub(crate) fn file_subject<'a>(request: CommandRequest<'a>, about: &'a About) -> Subject<'a>
    ensures { subject_told result ≡ file_subject request.entry about.now }
{
    let reads = request.reads();
    match about {
        About::Program | About::Source | About::Config => word_subject(Some(reads.first)),
        About::Course => word_subject(reads.course),
        About::Fault => word_subject(reads.further),
        About::Written => word_subject(request.writes()),
        About::Service(name) => Subject::Service(name.as_str()),
    }
}

/// What a request is about whose words aren't text: its first file.
pub(crate) fn first_subject(request: CommandRequest<'_>) -> Subject<'_>
    ensures { subject_told result ≡ word_subject (Some (files_read request.entry).first) }
{
    word_subject(Some(request.reads().first))
}
