//! Why a command fails: its line on standard error, and its status.

ghost use Rattle.std.specs.Prelude.{◌≡◌, string_bytes, take};
ghost use Rattle.std.specs.IoError.{error_kind};
ghost use Rattle.std.specs.List.{list_all};
ghost use Rattle.mx_app_failure.specs.Failure.{IsFaulty, IsMisstated, IsUntyped, IsWanting, access_of, begins_text, failure_if, input_of, is_of_text, looks_of, output_of, output_problem, problem_name, problem_of_bytes, problem_of_reading, problem_of_refusal, status_of, unwritten_of};

use mx_aout::FileError;
use mx_asm::{AsmError, Fault, Problem};
use mx_text::BootError;
use mx_word::NoMemory;
use std::alloc::{AllocError, AllocFailed};
use std::{fmt, io};

/// How many bytes of a file are looked at, to see what it is.
const LOOKED_AT: usize = 64;

/// The bytes that a file in the format ELF begins with.
const ELF: &[u8] = b"\x7fELF";

/// What a failure is about: a file that the command line names, by what it is to the command; or a service's program,
/// by the name that its configuration gave it, which is moved here and not copied.
#[derive(Drop)]
pub enum About {
    /// The program's file of a command without a machine.
    Program,
    /// The text that is assembled.
    Source,
    Config,
    /// What drives the machine: a script, outside events or a saved history.
    Course,
    /// The fault of a sweep.
    Fault,
    /// The file that is written.
    Written,
    Service(String),
}

/// What a file that is no program looks like.
#[derive(Clone, Copy, Debug, PartialEq, Eq)]
pub enum Looks {
    Text,
    /// A program of the host, in its format ELF.
    Elf,
    Other,
}

/// Why a file can't be read or written.
#[derive(Clone, Copy, Debug, PartialEq, Eq)]
pub enum Access {
    /// It isn't there; or the folder that it would be written in isn't.
    Missing,
    /// There is no right to.
    Forbidden,
    /// It is a folder.
    Folder,
    /// There is no room for it.
    NoRoom,
    Other,
}

/// What is wrong with a file.
#[derive(Clone, Copy, Debug, PartialEq, Eq)]
pub enum FileProblem {
    /// It is no program, for this reason, which isn't memory; and this is what it looks like.
    Refused(FileError, Looks),
    /// A text for the assembler has this fault.
    Faulty(Fault),
    /// A configuration, a script or a saved history has a wrong line; memory isn't the reason.
    Misstated(BootError),
    /// It can't be read, for this reason.
    Unread(Access),
    /// It isn't UTF-8, so it is no text.
    NotUtf8,
    /// It isn't UTF-8, and begins as a program does.
    IsProgram,
    /// It can't be written, for this reason.
    Unwritten(Access),
    /// It is read, and would be written over.
    OverRead,
    /// It is a service's program, and would be written over.
    OverProgram,
    /// It holds something else than what would be written over it.
    OtherKind,
}

/// Which file fails, and why.
#[derive(Drop)]
pub struct FileFailure {
    pub problem: FileProblem,
    pub about: About,
    /// Its text, if a line of it is at fault: moved here, and not copied.
    pub text: Option<Vec<u8>>,
}

/// Why standard output takes nothing more.
#[derive(Clone, Copy, Debug, PartialEq, Eq)]
pub enum OutputProblem {
    /// Who reads it has ended.
    ReaderEnded,
    /// There is no room where it is kept.
    NoRoom,
    /// Anything else.
    Other,
}

/// Why a command fails.
#[derive(Drop)]
pub enum Failure {
    /// A file isn't right, or can't be read or written.
    Of(FileFailure),
    /// A word of the command line isn't text: its bytes aren't UTF-8.
    NotText,
    /// Standard input can't be read.
    Input,
    /// Standard output takes nothing more.
    Output(OutputProblem),
    /// There isn't enough memory.
    NoMemory,
}

impl Access {
    /// Why a file can't be read or written if that fails with an error of this kind.
    fn of_kind(kind: io::ErrorKind) -> Access
        ensures { result ≡ access_of kind }
    {
        match kind {
            io::ErrorKind::NotFound | io::ErrorKind::NotADirectory => Access::Missing,
            io::ErrorKind::PermissionDenied | io::ErrorKind::ReadOnlyFilesystem =>
                Access::Forbidden,
            io::ErrorKind::IsADirectory => Access::Folder,
            io::ErrorKind::StorageFull
            | io::ErrorKind::QuotaExceeded
            | io::ErrorKind::FileTooLarge
            | io::ErrorKind::WriteZero => Access::NoRoom,
            _ => Access::Other,
        }
    }
}

/// Whether a text may have a byte: a printable one, a tab or one that ends a line.
fn is_of_text(byte: u8) -> bool
    ensures { result ≡ is_of_text byte }
{
    byte >= 32 && byte < 127 || byte == b'\t' || byte == b'\n' || byte == b'\r'
}

/// Whether a text may have all of these bytes.
fn are_of_text(bytes: &[u8]) -> bool
    ensures { result ≡ list_all is_of_text bytes.now }
{
    bytes.iter().all(|byte| is_of_text(*byte))
}

/// The first bytes of a file, as many as are looked at.
fn looked_at(bytes: &[u8]) -> &[u8]
    ensures { result.now ≡ take 64 bytes.now }
{
    if bytes.len() > LOOKED_AT {
        &bytes[..LOOKED_AT]
    } else {
        bytes
    }
}

/// Whether the first bytes of a file are those of a text.
fn begins_text(bytes: &[u8]) -> bool
    ensures { result ≡ begins_text bytes.now }
{
    !bytes.is_empty() && are_of_text(looked_at(bytes))
}

impl Looks {
    /// What a file looks like.
    fn of_bytes(bytes: &[u8]) -> Looks
        ensures { result ≡ looks_of bytes.now }
    {
        if bytes.starts_with(ELF) {
            Looks::Elf
        } else if begins_text(bytes) {
            Looks::Text
        } else {
            Looks::Other
        }
    }
}

impl FileProblem {
    /// What is wrong with a program's file that can't be read; None for lack of memory.
    pub fn of_reading(error: &io::Error) -> Option<FileProblem>
        ensures { result ≡ problem_of_reading (error_kind error.now) }
    {
        match error.kind() {
            io::ErrorKind::OutOfMemory => None,
            kind => Some(FileProblem::Unread(Access::of_kind(kind))),
        }
    }

    /// What is wrong with a program's file of these bytes that is refused; None for lack of memory.
    pub fn of_refusal(error: FileError, bytes: &[u8]) -> Option<FileProblem>
        ensures { result ≡ problem_of_refusal bytes.now error }
    {
        match error {
            FileError::NoMemory => None,
            _ => Some(FileProblem::Refused(error, Looks::of_bytes(bytes))),
        }
    }

    /// What is wrong with a text of these bytes, which aren't UTF-8: a program begins with the bytes 01 03.
    pub fn of_bytes(bytes: &[u8]) -> FileProblem
        ensures { result ≡ problem_of_bytes bytes.now }
    {
        if bytes.len() >= 2 && bytes[0] == 1 && bytes[1] == 3 {
            FileProblem::IsProgram
        } else {
            FileProblem::NotUtf8
        }
    }
}

impl OutputProblem {
    /// Why standard output fails with an error of this kind, which isn't lack of memory.
    fn of_kind(kind: io::ErrorKind) -> OutputProblem
        ensures { result ≡ output_problem kind }
    {
        match kind {
            io::ErrorKind::BrokenPipe => OutputProblem::ReaderEnded,
            io::ErrorKind::StorageFull
            | io::ErrorKind::QuotaExceeded
            | io::ErrorKind::FileTooLarge
            | io::ErrorKind::WriteZero => OutputProblem::NoRoom,
            _ => OutputProblem::Other,
        }
    }
}

impl Failure {
    /// The failure of a file with this problem; of no problem it is lack of memory. Takes no memory.
    pub fn of(problem: Option<FileProblem>, about: About) -> Failure
        ensures { result ≡ failure_if problem about }
    {
        match problem {
            Some(problem) => Failure::Of(FileFailure {
                problem,
                about,
                text: None,
            }),
            None => Failure::NoMemory,
        }
    }

    /// The failure of a file that can't be read.
    pub fn unread(error: &io::Error, about: About) -> Failure
        ensures { result ≡ failure_if (problem_of_reading (error_kind error.now)) about }
    {
        Failure::of(FileProblem::of_reading(error), about)
    }

    /// The failure of a file of these bytes, which is no program.
    pub fn refused(error: FileError, bytes: &[u8], about: About) -> Failure
        ensures { result ≡ failure_if (problem_of_refusal bytes.now error) about }
    {
        Failure::of(FileProblem::of_refusal(error, bytes), about)
    }

    /// The failure of the file that can't be written.
    pub fn unwritten(error: &io::Error) -> Failure
        ensures { result ≡ unwritten_of (error_kind error.now) }
    {
        match error.kind() {
            io::ErrorKind::OutOfMemory => Failure::NoMemory,
            kind => {
                let problem = FileProblem::Unwritten(Access::of_kind(kind));
                Failure::of(Some(problem), About::Written)
            }
        }
    }

    /// The failure of a text with a wrong line, which is moved into it.
    pub fn misstated(error: BootError, about: About, text: String) -> Failure
        ensures { IsMisstated error about (string_bytes text) result }
    {
        match error {
            BootError::NoMemory => Failure::NoMemory,
            _ => Failure::Of(FileFailure {
                problem: FileProblem::Misstated(error),
                about,
                text: Some(text.into_bytes()),
            }),
        }
    }

    /// The failure of a text for the assembler, which is moved into it.
    pub fn faulty(error: AsmError, text: Vec<u8>) -> Failure
        ensures { IsFaulty error text.items result }
    {
        match error {
            AsmError::At(fault) => Failure::Of(FileFailure {
                problem: FileProblem::Faulty(fault),
                about: About::Source,
                text: Some(text),
            }),
            AsmError::NoMemory => Failure::NoMemory,
        }
    }

    /// The failure of standard output.
    pub fn output(error: &io::Error) -> Failure
        ensures kind { result ≡ output_of (error_kind error.now) }
        ensures wanting { IsWanting result }
    {
        match error.kind() {
            io::ErrorKind::OutOfMemory => Failure::NoMemory,
            kind => Failure::Output(OutputProblem::of_kind(kind)),
        }
    }

    /// The failure of standard input.
    pub fn input(error: &io::Error) -> Failure
        ensures kind { result ≡ input_of (error_kind error.now) }
        ensures untyped { IsUntyped result }
    {
        match error.kind() {
            io::ErrorKind::OutOfMemory => Failure::NoMemory,
            _ => Failure::Input,
        }
    }

    /// The program's exit status: 1 if a file or a text isn't right, 2 if a word isn't text, 3 if a file
    /// can't be read or written, 4 if there isn't enough memory.
    pub fn status(&self) -> u8
        ensures { result ≡ status_of self.now }
    {
        match self {
            Failure::Of(failure) => match failure.problem {
                FileProblem::Refused(_, _) | FileProblem::Faulty(_) | FileProblem::Misstated(_) =>
                    1,
                _ => 3,
            },
            Failure::NotText => 2,
            Failure::Input | Failure::Output(_) => 3,
            Failure::NoMemory => 4,
        }
    }
}

/// The name of a problem, as it is in the line of a failure: `BadByte`, for example.
fn problem_name(problem: Problem) -> &'static str
    ensures { result.now ≡ problem_name problem }
{
    match problem {
        Problem::BadByte => "BadByte",
        Problem::BadNumber => "BadNumber",
        Problem::OpenText => "OpenText",
        Problem::UnknownWord => "UnknownWord",
        Problem::BadOperands => "BadOperands",
        Problem::Twice => "Twice",
        Problem::Undefined => "Undefined",
        Problem::TooFar => "TooFar",
        Problem::WrongSection => "WrongSection",
        Problem::TooLarge => "TooLarge",
        Problem::LongName => "LongName",
    }
}

/// The line that `mx` prints, without its line feed. It has a code and a name, and the number of the wrong
/// line if a text has one: `mx: 20 Truncated`, `mx: 10 UnknownWord line 3`.
impl fmt::Display for Failure {
    ghost use Rattle.std.specs.Prelude.{Some};
    ghost use Rattle.mx_app_failure.specs.Failure.{failure_line};

    ghost output = { λ failure. Some (failure_line failure) };

    fn fmt<W: fmt::Write>(&self, f: &mut fmt::Formatter<W>) -> fmt::Result {
        match self {
            Failure::Of(failure) => match failure.problem {
                FileProblem::Refused(error, _) => {
                    let code = error.code();
                    let name = error.name();
                    write!(f, "mx: {code} {name}")
                }
                FileProblem::Faulty(fault) => {
                    let code = fault.problem.code();
                    let name = problem_name(fault.problem);
                    let line = fault.line;
                    write!(f, "mx: {code} {name} line {line}")
                }
                FileProblem::Misstated(error) => match error {
                    BootError::BadLine(line) => write!(f, "mx: 70 BadLine line {line}"),
                    BootError::TwiceNamed(line) => write!(f, "mx: 71 TwiceNamed line {line}"),
                    BootError::TooMany(line) => write!(f, "mx: 72 TooMany line {line}"),
                    BootError::BadRecord(line) => write!(f, "mx: 73 BadRecord line {line}"),
                    BootError::NoMemory => write!(f, "mx: 90 NoMemory"),
                },
                _ => write!(f, "mx: 80 File"),
            },
            Failure::NotText => write!(f, "mx: a word of the command line isn't text"),
            Failure::Input | Failure::Output(_) => write!(f, "mx: 80 File"),
            Failure::NoMemory => write!(f, "mx: 90 NoMemory"),
        }
    }
}

impl From<NoMemory> for Failure {
    ghost use Rattle.std.specs.Prelude.{◌≡◌};
    ghost use Rattle.mx_app_failure.specs.declared.failure.Failure.TheVariants as failures;

    ghost from_gives = { λ _ failure. failure ≡ failures.NoMemory };

    fn from(_: NoMemory) -> Failure {
        Failure::NoMemory
    }
}

impl From<AllocError> for Failure {
    ghost use Rattle.std.specs.Prelude.{◌≡◌};
    ghost use Rattle.mx_app_failure.specs.declared.failure.Failure.TheVariants as failures;

    ghost from_gives = { λ _ failure. failure ≡ failures.NoMemory };

    fn from(_: AllocError) -> Failure {
        Failure::NoMemory
    }
}

impl<T: Drop> From<AllocFailed<T>> for Failure {
    ghost use Rattle.std.specs.Prelude.{◌≡◌};
    ghost use Rattle.mx_app_failure.specs.declared.failure.Failure.TheVariants as failures;

    ghost from_gives = { λ _ failure. failure ≡ failures.NoMemory };

    fn from(_: AllocFailed<T>) -> Failure {
        Failure::NoMemory
    }
}
