//! What was wanted in place of what a command met.

ghost use Rattle.std.specs.Prelude.{◌≡◌};
ghost use Rattle.mx_app_explain.specs.Wanted.{kind_said, kind_wanted, problem_wanted, refusal_wanted};
ghost use Rattle.mx_app_explain.specs.Explaining.{file_wanted, lines_wanted, other_said, program_wanted, read_wanted, write_wanted};
ghost use Rattle.mx_app_explain.specs.RecordLines.{record_wanted};

use mx_aout::FileError;
use mx_app_command::{CommandRequest, FileKind};
use mx_app_db::script_lines;
use mx_app_failure::{About, Access, FileProblem, Looks};
use mx_asm::Problem;
use mx_text::BootError;

/// What is wanted of memory.
const MORE: &str = "more of it";

/// What is wanted of a program's file.
fn refusal_wanted(error: FileError) -> &'static str
    ensures { result.now ≡ refusal_wanted error }
{
    match error {
        FileError::Truncated => "a whole header, and a file as long as it says",
        FileError::BadMagic => "an a.out file, which begins with the bytes 01 03",
        FileError::BadCpu => "a program for the 80386, whose byte 3 is 10 hex",
        FileError::BadFlags => "no flag but A_NSYM, A_EXEC and A_SEP",
        FileError::BadHeader => "a header of 32 or 48 bytes",
        FileError::NoTotal => "a total above 0",
        FileError::TooLarge => "a total within the limits that holds all parts",
        FileError::BadSymbols => "symbols of 16 bytes each",
        FileError::NoMemory => MORE,
    }
}

/// What is wanted of a line of a text for the assembler.
pub(crate) fn problem_wanted(problem: Problem) -> &'static str
    ensures { result.now ≡ problem_wanted problem }
{
    match problem {
        Problem::BadByte => {
            "a token, or an escape that is known; a character is written as its number, and \
             there are no constants"
        }
        Problem::BadNumber => "a number of 32 bits, decimal or hexadecimal after 0x, as 33 or 0x21",
        Problem::OpenText => "the quote that ends a text",
        Problem::UnknownWord => "an instruction or a directive, in lower case",
        Problem::BadOperands => {
            "operands that the statement takes: registers, numbers that fit, and at most one \
             bracket, with byte, word or dword before it if no register has the size; a comment \
             begins with ;"
        }
        Problem::Twice => "each label, .sep, .entry and .stack once",
        Problem::Undefined => "a name that a line defines",
        Problem::TooFar => "a target at most 127 bytes ahead or 128 back",
        Problem::WrongSection => "a statement that may stand in this section",
        Problem::TooLarge => "at most 1048576 bytes of text and 4194304 in all",
        Problem::LongName => "a name of at most 8 bytes",
    }
}

/// What is wanted of a line of a script or of a history.
pub(crate) fn record_wanted(request: CommandRequest<'_>, about: &About) -> &'static str
    ensures { result.now ≡ record_wanted request.entry about.now }
{
    match (request, about) {
        (CommandRequest::Step { .. }, _) => {
            "an event: take C, step C K, back C, line L, tick, kill E or respawn S"
        }
        (CommandRequest::Db { .. }, _) => script_lines(),
        (CommandRequest::Run { .. }, _) => {
            "line L, tick, kill E, respawn S or wait N, where a service's name may stand for E \
             and S; --events wants others 2 or more in CONFIG"
        }
        (CommandRequest::Turns { .. } | CommandRequest::Explore { .. }, _) => {
            "an outside event: line L, tick, kill E or respawn S, where a service's name may \
             stand for E and S"
        }
        (CommandRequest::Sweep { .. } | CommandRequest::SweptPage { .. }, About::Fault) => {
            "an event of a script, kill slot S, kill NAME or respawn NAME"
        }
        (CommandRequest::Why { .. }, About::Fault) => {
            "an outside event, or wait N: line L, tick, kill E or respawn S, where a service's name may \
             stand for E and S"
        }
        _ => {
            "a record and its line feed: A take, A back N, A line L, A tick, A kill E or \
             A respawn S; or rules 2 on line 1"
        }
    }
}

/// What is wanted of the lines of a text that starts or drives a machine.
fn lines_wanted(request: CommandRequest<'_>, about: &About, error: BootError) -> &'static str
    ensures { result.now ≡ lines_wanted request.entry about.now error }
{
    match error {
        BootError::BadLine(_) => {
            "an item: cpus 1 to 8, others 1 to 4, log 1 to 1048576, rules 1 or 2, or service \
             NAME FILE traps T send S calls C level L best B quantum Q restarts R, with T, S, C \
             hexadecimal without 0x, L 0 to 14, B 0 to L, Q 1 to 65535, R 0 to 1048575, NAME at \
             most 8 bytes and no register; a line feed alone at the end, no byte order mark; \
             and at least one service"
        }
        BootError::TwiceNamed(_) => "each item once, and a name of its own for each service",
        BootError::TooMany(_) => "at most 32 services",
        BootError::BadRecord(_) => record_wanted(request, about),
        BootError::NoMemory => MORE,
    }
}

/// What is wrong with a file that is there, if what is to be written holds this.
pub(crate) fn kind_said(kind: FileKind) -> &'static str
    ensures { result.now ≡ kind_said kind }
{
    match kind {
        FileKind::Program => "is there and is no program",
        FileKind::History => "is there and is no history",
        FileKind::Sums => "is there and has no sums",
    }
}

/// What is wrong with the file that is there where a request would write, which may be one of several.
pub(crate) fn other_said(request: CommandRequest<'_>) -> &'static str
    ensures { result.now ≡ other_said request.entry }
{
    if request.writes_several() {
        "a file NAME1, NAME2 .. is there and is no history"
    } else {
        kind_said(request.written_kind())
    }
}

/// What was wanted in place of such a file.
pub(crate) fn kind_wanted(kind: FileKind) -> &'static str
    ensures { result.now ≡ kind_wanted kind }
{
    match kind {
        FileKind::Program => "a new name, an empty file or a program, or --force",
        FileKind::History => "a new name, an empty file or a history, or --force",
        FileKind::Sums => "a new name, an empty file or sums, or --force",
    }
}

/// What was wanted of a file that is read.
fn read_wanted(access: Access) -> &'static str
    ensures { result.now ≡ read_wanted access }
{
    match access {
        Access::Missing => "a file that can be read: it isn't there",
        Access::Forbidden => "a file that can be read: there is no right to",
        Access::Folder => "a file that can be read: it is a folder",
        Access::NoRoom | Access::Other => "a file that can be read",
    }
}

/// What was wanted of a file that is written.
fn write_wanted(access: Access) -> &'static str
    ensures { result.now ≡ write_wanted access }
{
    match access {
        Access::Missing => "a file that can be written: its folder isn't there",
        Access::Forbidden => "a file that can be written: there is no right to",
        Access::Folder => "a file that can be written: it is a folder",
        Access::NoRoom => "a file that can be written: there is no room",
        Access::Other => "a file that can be written",
    }
}

/// What is wanted of a program's file, by what it looks like.
fn program_wanted(error: FileError, looks: Looks) -> &'static str
    ensures { result.now ≡ program_wanted error looks }
{
    match looks {
        Looks::Text => "an a.out file; this is a text: mx as FILE OTHER.out",
        Looks::Elf => {
            "an a.out file; this is an ELF file: examples/c/Makefile makes a.out files of C"
        }
        Looks::Other => refusal_wanted(error),
    }
}

/// What was wanted of a file.
pub(crate) fn file_wanted(
    request: CommandRequest<'_>,
    about: &About,
    problem: FileProblem,
) -> &'static str
    ensures { result.now ≡ file_wanted request.entry about.now problem }
{
    match problem {
        FileProblem::Refused(error, looks) => program_wanted(error, looks),
        FileProblem::Faulty(fault) => problem_wanted(fault.problem),
        FileProblem::Misstated(error) => lines_wanted(request, about, error),
        FileProblem::Unread(access) => read_wanted(access),
        FileProblem::NotUtf8 => "a text in UTF-8, and not in UTF-16 or another encoding",
        FileProblem::IsProgram => "a text in UTF-8; it is a program",
        FileProblem::Unwritten(access) => write_wanted(access),
        FileProblem::OverRead => "another file than the one that is read",
        FileProblem::OverProgram => "another file than a service's program",
        FileProblem::OtherKind => kind_wanted(request.written_kind()),
    }
}
