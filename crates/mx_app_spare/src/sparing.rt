//! What a file holds is seen by its first bytes.

ghost use Rattle.std.specs.Prelude.{◌≡◌, ◌++◌, ◌∷◌, [], IfErr, IfOk, List, ℕ};
ghost use Rattle.std.specs.Char.{is_ascii_hexdigit};
ghost use Rattle.std.specs.IoError.{error_kind};
ghost use Rattle.std.specs.List.{list_all};
ghost use Rattle.mx_app_start.specs.Asked.{Asked, file_given, file_missed};
ghost use Rattle.mx_app_spare.specs.Sparing.{SparesName, SparesNumbered, begins_as, begins_program, begins_sums, is_spared};

use mx_app_command::FileKind;
use mx_app_failure::{About, Failure, FileProblem};
use mx_app_start::Reader;
use mx_boot::begins_history;
use std::alloc::Global;
use std::io;

/// Whether bytes begin as a program for the 80386 does: with the magic number, the flags, and the processor.
fn begins_program(front: &[u8]) -> bool
    ensures { result ≡ begins_program front.now }
{
    front.len() > 3
        && front[0] == 0x01
        && front[1] == 0x03
        && (front[2] == 0x10 || front[2] == 0x20 || front[2] == 0x30)
        && front[3] == 0x10
}

/// How many digits a sum has.
const DIGITS: usize = 64;

/// Whether all of these bytes are hexadecimal digits.
fn are_digits(bytes: &[u8]) -> bool
    ensures { result ≡ list_all is_ascii_hexdigit bytes.now }
{
    bytes.iter().all(|byte| byte.is_ascii_hexdigit())
}

/// Whether bytes begin as sums do: with the line of the configuration's sum.
fn begins_sums(front: &[u8]) -> bool
    ensures { result ≡ begins_sums front.now }
{
    if front.len() < DIGITS {
        return false;
    }
    let (digits, rest) = front.split_at(DIGITS);
    are_digits(digits) && rest.starts_with(b"  configuration\n")
}

/// Whether bytes begin as what a file of this kind holds.
fn begins_as(kind: FileKind, front: &[u8]) -> bool
    ensures { result ≡ begins_as kind front.now }
{
    match kind {
        FileKind::Program => begins_program(front),
        FileKind::History => begins_history(front),
        FileKind::Sums => begins_sums(front),
    }
}

/// Whether a file that begins with these bytes is spared if a file of this kind is written.
fn is_spared(kind: FileKind, front: &[u8]) -> bool
    ensures { result ≡ is_spared kind front.now }
{
    !front.is_empty() && !begins_as(kind, front)
}

/// Whether the file of this name is spared if a file of this kind is written.
pub fn spares<R: Reader>(
    alloc: Global,
    reader: &mut R,
    kind: FileKind,
    name: &str,
) -> io::Result<bool>
    ensures given { IfOk result (λ spared. (front : List ℕ)
        × (R.asked reader.new ≡ R.asked reader.old ++ file_given name.now front ∷ [])
        × (spared ≡ is_spared kind front)) }
    ensures missed { IfErr result (λ e.
        R.asked reader.new ≡ R.asked reader.old ++ file_missed name.now (error_kind e) ∷ []) }
{
    let front = reader.read_front(alloc, name)?;
    Ok(is_spared(kind, front.as_slice()))
}

/// Refuses to write over the file of this name, if it is spared.
pub fn spare_name<R: Reader>(
    alloc: Global,
    reader: &mut R,
    kind: FileKind,
    name: &str,
) -> Result<(), Failure>
    ensures { (qs : List Asked) × (R.asked reader.new ≡ R.asked reader.old ++ qs)
        × SparesName kind name.now qs result }
{
    match spares(alloc, reader, kind, name) {
        Ok(false) => Ok(()),
        Ok(true) => Err(Failure::of(Some(FileProblem::OtherKind), About::Written)),
        Err(error) => Err(Failure::unread(&error, About::Written)),
    }
}

/// Refuses to write over the file of this name and number, if it is spared.
pub fn spare_numbered<R: Reader>(
    alloc: Global,
    reader: &mut R,
    kind: FileKind,
    name: &str,
    number: u64,
) -> Result<(), Failure>
    ensures { (qs : List Asked) × (R.asked reader.new ≡ R.asked reader.old ++ qs)
        × SparesNumbered kind name.now number qs result }
{
    let name = format!(in alloc; "{name}{number}")?;
    spare_name(alloc, reader, kind, name.as_str())
}
