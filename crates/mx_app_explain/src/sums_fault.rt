//! What is wrong with a file of sums, or with a machine by it.

ghost use Rattle.std.specs.Prelude.{◌≡◌, IfOk, string_bytes};
ghost use Rattle.std.specs.IoError.{error_kind};
ghost use Rattle.mx_app_explain.specs.Details.{label_told};
ghost use Rattle.mx_app_explain.specs.SumsFaults.{fault_explained, fault_label, fault_status, fault_wanted, part_told, unread_of, unwritten_of};

use crate::detail::Label;
use crate::sums::{MachinePart, part_word};
use crate::wanted::{kind_said, kind_wanted};
use mx_app_command::FileKind;
use std::alloc::{AllocError, Global};
use std::{fmt, io, str};

/// What is wrong with a file of sums, or with a machine by it.
#[derive(Clone, Copy)]
pub enum SumsFault {
    /// Another word of the command line names the file.
    NameTaken,
    /// It can't be read.
    Unread,
    /// It can't be written.
    Unwritten,
    /// It holds something else than sums, and would be written over.
    OtherKind,
    /// There isn't enough memory.
    NoMemory,
    /// This part of the machine has another sum.
    OtherMachine(MachinePart),
}

impl SumsFault {
    /// The program's exit status: 1 if the machine is another one, 3 if the file can't be read or written, 4 if
    /// there isn't enough memory.
    pub fn status(self) -> u8
        ensures { result ≡ fault_status self }
    {
        match self {
            SumsFault::NameTaken
            | SumsFault::Unread
            | SumsFault::Unwritten
            | SumsFault::OtherKind => 3,
            SumsFault::NoMemory => 4,
            SumsFault::OtherMachine(_) => 1,
        }
    }
}

/// What an error in reading the file is.
pub fn unread(error: &io::Error) -> SumsFault
    ensures { result ≡ unread_of (error_kind error.now) }
{
    match error.kind() {
        io::ErrorKind::OutOfMemory => SumsFault::NoMemory,
        _ => SumsFault::Unread,
    }
}

/// What an error in writing the file is.
pub fn unwritten(error: &io::Error) -> SumsFault
    ensures { result ≡ unwritten_of (error_kind error.now) }
{
    match error.kind() {
        io::ErrorKind::OutOfMemory => SumsFault::NoMemory,
        _ => SumsFault::Unwritten,
    }
}

/// The name of a part. `a service` if it isn't text, as no name of a configuration is.
#[tactic(auto, using(crate::proofs::Printed::printed, crate::proofs::Printed::unprinted))]
fn part_text(part: &MachinePart) -> &str
    ensures { result.now ≡ part_told part.now }
{
    match str::from_utf8(part_word(part)) {
        Ok(text) => text,
        Err(_) => "a service",
    }
}

/// The line that `mx` prints, without its line feed: `mx: 64 OtherMachine counter`.
impl fmt::Display for SumsFault {
    ghost use Rattle.std.specs.Prelude.{Some};
    ghost use Rattle.mx_app_explain.specs.SumsFaults.{fault_line};

    ghost output = { λ fault. Some (fault_line fault) };

    fn fmt<W: fmt::Write>(&self, f: &mut fmt::Formatter<W>) -> fmt::Result {
        match self {
            SumsFault::NameTaken
            | SumsFault::Unread
            | SumsFault::Unwritten
            | SumsFault::OtherKind => f.write_str("mx: 80 File"),
            SumsFault::NoMemory => f.write_str("mx: 90 NoMemory"),
            SumsFault::OtherMachine(part) => {
                let name = part_text(part);
                write!(f, "mx: 64 OtherMachine {name}")
            }
        }
    }
}

/// What was wanted of the file or of the machine.
fn fault_wanted(fault: SumsFault) -> &'static str
    ensures { result.now ≡ fault_wanted fault }
{
    match fault {
        SumsFault::NameTaken => "a file that no other word names",
        SumsFault::Unread => "a file that can be read",
        SumsFault::Unwritten => "a file that can be written",
        SumsFault::OtherKind => kind_wanted(FileKind::Sums),
        SumsFault::NoMemory => "more memory",
        SumsFault::OtherMachine(_) =>
            "the configuration and programs whose sums it has, or --no-sums",
    }
}

/// What is said of the file before what was wanted.
fn fault_label(fault: SumsFault) -> Label<'static>
    ensures { label_told result ≡ fault_label fault }
{
    match fault {
        SumsFault::OtherKind => Label::In(kind_said(FileKind::Sums)),
        _ => Label::Nowhere,
    }
}

/// What explains a fault with the file of sums of this name.
#[derive(Clone, Copy)]
struct SumsExplanation<'a> {
    name: &'a str,
    fault: SumsFault,
}

/// The line without its end: `mx: SUMS pair.sums: wanted a file that can be read`.
impl fmt::Display for SumsExplanation<'_> {
    ghost use Rattle.std.specs.Prelude.{Some};
    ghost use Rattle.mx_app_explain.specs.SumsFaults.{fault_explained};

    ghost output = { λ explanation. Some (fault_explained explanation.name.now explanation.fault) };

    fn fmt<W: fmt::Write>(&self, f: &mut fmt::Formatter<W>) -> fmt::Result {
        let name = self.name;
        let label = fault_label(self.fault);
        let wanted = fault_wanted(self.fault);
        write!(f, "mx: SUMS {name}: {label}wanted {wanted}")
    }
}

/// The line that explains a fault with the file of sums of this name, without its end.
pub fn explain_sums(alloc: Global, name: &str, fault: SumsFault) -> Result<String, AllocError>
    ensures { IfOk result (λ line. string_bytes line ≡ fault_explained name.now fault) }
{
    let explanation = SumsExplanation { name, fault };
    explanation.to_string(alloc)
}
