//! The second line of a failure.

ghost use Rattle.std.specs.Prelude.{◌≡◌, IfOk, option_map, string_bytes};
ghost use Rattle.mx_app_command.specs.Files.{word_of};
ghost use Rattle.mx_app_explain.specs.Details.{detail_told, label_told};
ghost use Rattle.mx_app_explain.specs.Explaining.{explained, faulty_words, file_label, file_said, file_subject, folder_of, folder_or_made, is_c, is_dash, line_detail, missing_hint, output_said, plain_detail, place_told, plain_hint, said_line, source_told, subject_told, text_of, word_read};
ghost use Rattle.mx_app_explain.specs.Hints.{hint_told};
ghost use Rattle.mx_text.specs.Fields.{fields};

use crate::detail::{Detail, Label, config_detail, line_below};
use crate::found_word::{FoundWord, byte_at};
use crate::hint::Hint;
use crate::record_line::record_detail;
use crate::subject::{Subject, file_subject, first_subject};
use crate::text_advice::advice_on;
use crate::text_words::with_spaces;
use crate::wanted::{file_wanted, other_said};
use mx_app_command::{CommandRequest, NamedWord};
use mx_app_failure::{About, Access, Failure, FileFailure, FileProblem, OutputProblem};
use mx_text::BootError;
use std::alloc::{AllocError, Global};
use std::fmt;

/// What is said of what a failure is about.
#[derive(Clone, Copy)]
enum Said<'a> {
    /// What was wanted of a file, and where.
    Detail(Detail<'a>),
    Words(&'static str),
}

/// As it is in a line.
impl fmt::Display for Said<'_> {
    ghost use Rattle.std.specs.Prelude.{Some};
    ghost use Rattle.mx_app_explain.specs.Explaining.{said_told};

    ghost output = { λ said. Some (said_told said) };

    fn fmt<W: fmt::Write>(&self, f: &mut fmt::Formatter<W>) -> fmt::Result {
        match *self {
            Said::Detail(detail) => write!(f, "{detail}"),
            Said::Words(words) => write!(f, "{words}"),
        }
    }
}

/// What explains a failure: what it is about, and what is said of that.
#[derive(Clone, Copy)]
struct Explanation<'a> {
    subject: Subject<'a>,
    said: Said<'a>,
}

/// The line without its end, as `mx: SCRIPT a.script: wanted an event: take C, ..`.
impl fmt::Display for Explanation<'_> {
    ghost use Rattle.std.specs.Prelude.{Some};
    ghost use Rattle.mx_app_explain.specs.Explaining.{explanation_told};

    ghost output = { λ explanation. Some (explanation_told explanation) };

    fn fmt<W: fmt::Write>(&self, f: &mut fmt::Formatter<W>) -> fmt::Result {
        let Explanation { subject, said } = *self;
        write!(f, "mx: {subject}: {said}")
    }
}

/// The line at fault of a text for the assembler, with its words between spaces; empty if the failure is no
/// such line's.
fn faulty_words(alloc: Global, failure: &FileFailure) -> Result<Vec<u8>, AllocError>
    ensures { IfOk result (λ line. fields line.items
        ≡ faulty_words failure.now.problem (text_of failure.now)) }
{
    match (failure.problem, &failure.text) {
        (FileProblem::Faulty(fault), Some(text)) => {
            match line_below(text.as_slice(), fault.line.saturating_sub(1)) {
                Some(line) => with_spaces(alloc, line),
                None => Ok(Vec::new(alloc)),
            }
        }
        _ => Ok(Vec::new(alloc)),
    }
}

/// Whether a file's name is that of a text in C.
fn is_c(name: &str) -> bool
    ensures { result ≡ is_c name.now }
{
    name.as_bytes().ends_with(b".c")
}

/// What was wanted of a text for the assembler, by its file's name: if it is C, what compiles that, else this.
fn source_detail<'a>(name: &str, advised: Detail<'a>) -> Detail<'a>
    ensures { detail_told result ≡ source_told name.now (detail_told advised.entry) }
{
    if !is_c(name) {
        return advised;
    }
    Detail {
        label: Label::Nowhere,
        wanted: "a text for the assembler; this is C: make compiles it, with the Makefile of \
                 examples/c or of mx new NAME --c",
        found: FoundWord::Unseen,
        hint: Hint::Nothing,
    }
}

/// What was wanted of the line of a text that is at fault: of a text for the assembler its words are given. None if
/// there is no such line.
fn line_detail<'a>(
    request: CommandRequest<'_>,
    failure: &'a FileFailure,
    words: &'a [u8],
) -> Option<Detail<'a>>
    requires { fields words.now ≡ faulty_words failure.now.problem (text_of failure.now) }
    ensures { option_map detail_told result
        ≡ line_detail request.entry failure.now.about failure.now.problem (text_of failure.now) }
{
    match (failure.problem, &failure.text) {
        (FileProblem::Misstated(BootError::BadLine(number)), Some(text)) => {
            config_detail(text.as_slice(), number)
        }
        (FileProblem::Misstated(BootError::BadRecord(number)), Some(text)) => {
            record_detail(request, &failure.about, text.as_slice(), number)
        }
        (FileProblem::Faulty(fault), Some(_)) => {
            let advised = advice_on(words, fault.problem).detail();
            Some(source_detail(request.reads().first.name, advised))
        }
        _ => None,
    }
}

/// What is said of a file before what was wanted: that it is there, if it would be written over.
fn file_label<'a>(request: CommandRequest<'_>, problem: FileProblem) -> Label<'a>
    ensures { label_told result ≡ file_label request.entry problem }
{
    match problem {
        FileProblem::OtherKind => Label::In(other_said(request)),
        _ => Label::Nowhere,
    }
}

/// The folder in a file's name: what is before its last stroke.
fn folder_of(name: &str) -> Option<&str>
    ensures { option_map (λ s. s.now) result ≡ folder_of name.now }
{
    match name.rsplit_once('/') {
        Some((folder, _)) => Some(folder),
        None => None,
    }
}

/// Whether a file's name is a dash, as that of standard input elsewhere.
fn is_dash(word: Option<NamedWord<'_>>) -> bool
    ensures { result ≡ is_dash (option_map word_of word.entry) }
{
    match word {
        Some(word) => word.name == "-",
        None => false,
    }
}

/// The word of the command line that names a file which is read.
fn word_read<'a>(request: CommandRequest<'a>, about: &About) -> Option<NamedWord<'a>>
    ensures { option_map word_of result ≡ word_read request.entry about.now }
{
    let reads = request.reads();
    match about {
        About::Program | About::Source | About::Config => Some(reads.first),
        About::Course => reads.course,
        About::Fault => reads.further,
        About::Written | About::Service(_) => None,
    }
}

/// What is added of a service's program that isn't there: that a tilde is no home, where its configuration is, or what
/// makes one.
fn place_hint<'a>(request: CommandRequest<'a>, name: &str) -> Hint<'a>
    ensures { hint_told result ≡ place_told name.now request.entry }
{
    if byte_at(name.as_bytes(), 0) == b'~' {
        return Hint::Words("~ is no home in CONFIG: write the whole name, from /");
    }
    match folder_of(request.reads().first.name) {
        Some(folder) => Hint::Folder(folder),
        None => Hint::Words(
            "mx as makes it of a text, and make of C if programs in the Makefile has its name",
        ),
    }
}

/// What is added of a file that isn't there.
fn missing_hint<'a>(request: CommandRequest<'a>, about: &About) -> Hint<'a>
    ensures { hint_told result ≡ missing_hint request.entry about.now }
{
    match about {
        About::Service(name) => place_hint(request, name.as_str()),
        _ => {
            if is_dash(word_read(request, about)) {
                Hint::Words("standard input has the name /dev/stdin")
            } else {
                Hint::Nothing
            }
        }
    }
}

/// What is added of a file of which no line is at fault, if it isn't there.
fn plain_hint<'a>(request: CommandRequest<'a>, about: &About, problem: FileProblem) -> Hint<'a>
    ensures { hint_told result ≡ plain_hint request.entry about.now problem }
{
    match problem {
        FileProblem::Unread(Access::Missing) => missing_hint(request, about),
        _ => Hint::Nothing,
    }
}

/// What was wanted of a file of which no line is at fault.
fn plain_detail<'a>(request: CommandRequest<'a>, about: &About, problem: FileProblem) -> Detail<'a>
    ensures { detail_told result ≡ plain_detail request.entry about.now problem }
{
    Detail {
        label: file_label(request, problem),
        wanted: file_wanted(request, about, problem),
        found: FoundWord::Unseen,
        hint: plain_hint(request, about, problem),
    }
}

/// What was wanted of a file, by its line at fault if there is one.
fn detail_of<'a>(
    request: CommandRequest<'a>,
    failure: &'a FileFailure,
    words: &'a [u8],
) -> Detail<'a>
    requires { fields words.now ≡ faulty_words failure.now.problem (text_of failure.now) }
    ensures { detail_told result ≡ file_said request.entry failure.now }
{
    match line_detail(request, failure, words) {
        Some(detail) => detail,
        None => plain_detail(request, &failure.about, failure.problem),
    }
}

/// The line of a file's failure.
fn explain_file(
    alloc: Global,
    request: CommandRequest<'_>,
    failure: &FileFailure,
) -> Result<String, AllocError>
    ensures { IfOk result (λ line. string_bytes line
        ≡ said_line (file_subject request.entry failure.now.about)
        (file_said request.entry failure.now)) }
{
    let words = faulty_words(alloc, failure)?;
    let explanation = Explanation {
        subject: file_subject(request, &failure.about),
        said: Said::Detail(detail_of(request, failure, words.as_slice())),
    };
    explanation.to_string(alloc)
}

/// Why standard output takes nothing more.
fn output_said(problem: OutputProblem) -> &'static str
    ensures { result.now ≡ output_said problem }
{
    match problem {
        OutputProblem::ReaderEnded => "its reader has ended",
        OutputProblem::NoRoom => "wanted room for what is printed",
        OutputProblem::Other => "wanted an output that can be written",
    }
}

/// A line of these words.
fn explain_plainly(
    alloc: Global,
    subject: Subject<'_>,
    words: &'static str,
) -> Result<String, AllocError>
    ensures { IfOk result (λ line. string_bytes line
        ≡ said_line (subject_told subject.entry) words.now) }
{
    let explanation = Explanation {
        subject,
        said: Said::Words(words),
    };
    explanation.to_string(alloc)
}

/// What explains the failure of a request: a line without its end.
pub fn explain_failure(
    alloc: Global,
    request: CommandRequest<'_>,
    failure: &Failure,
) -> Result<String, AllocError>
    ensures { IfOk result (λ line. string_bytes line ≡ explained request.entry failure.now) }
{
    match failure {
        Failure::Of(file) => explain_file(alloc, request, file),
        Failure::NotText => explain_plainly(alloc, first_subject(request), "wanted UTF-8"),
        Failure::Input => explain_plainly(
            alloc,
            Subject::Input,
            "wanted an input that can be read",
        ),
        Failure::Output(problem) => explain_plainly(alloc, Subject::Output, output_said(*problem)),
        Failure::NoMemory => explain_plainly(alloc, Subject::Memory, "wanted more of it"),
    }
}
