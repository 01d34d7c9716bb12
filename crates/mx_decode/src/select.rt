//! Finds the row of the table to which the bytes belong.

ghost use Rattle.std.specs.Prelude.{◌≡◌, ℕ, List, [], ◌∷◌, find, option_copied};
ghost use Rattle.mx_insn.specs.Spelling.{allows_resized, allows_repeat, is_resized, is_escaped};
ghost use Rattle.mx_decode.specs.Reading.{is_absent, stands, rows_of, row_after};
ghost use Rattle.mx_decode.specs.Map.{may_follow, fits};
ghost use Rattle.mx_decode.specs.Given.{Gives, head_seen};

use crate::DecodeFault;
use crate::head::Head;
use crate::table::rows_with;
use mx_insn::{ModRm, OpcodeMap, OperandSize, Repeat, Repeats, Row, SizeMark};

/// The operand-size prefix comes only before a row that has a form for words.
fn allows_size(sizes: SizeMark, operand_size: OperandSize) -> bool
    ensures { result ≡ allows_resized sizes (is_resized operand_size) }
{
    match (sizes, operand_size) {
        (SizeMark::Variable, _) | (SizeMark::Byte | SizeMark::Dword, OperandSize::Dword) => true,
        (SizeMark::Byte | SizeMark::Dword, OperandSize::Word) => false,
    }
}

fn allows_repeat(repeats: Repeats, repeat: Option<Repeat>) -> bool
    ensures { result ≡ allows_repeat repeats repeat }
{
    match (repeats, repeat) {
        (_, None) | (Repeats::Both, Some(_)) | (Repeats::Rep, Some(Repeat::Repe)) => true,
        (Repeats::Neither, Some(_)) | (Repeats::Rep, Some(Repeat::Repne)) => false,
    }
}

fn is_absent(column: ModRm) -> bool
    ensures { result ≡ is_absent column }
{
    match column {
        ModRm::Absent => true,
        ModRm::Any | ModRm::AnyMemory | ModRm::AnyRegister | ModRm::Only(_) => false,
    }
}

/// The byte after the opcode fits the row: no byte yet, or this one, which is a ModRM byte if the row has
/// one.
fn may_follow(column: ModRm, next: Option<u8>) -> bool
    ensures { result ≡ may_follow column next }
{
    match (column, next) {
        (ModRm::Absent | ModRm::Any, _) | (_, None) => true,
        (ModRm::AnyMemory, Some(modrm)) => modrm / 64 != 3,
        (ModRm::AnyRegister, Some(modrm)) => modrm / 64 == 3,
        (ModRm::Only(field), Some(modrm)) => field == modrm / 8 % 8,
    }
}

/// The prefixes may come before the row.
fn stands(row: &Row, operand_size: OperandSize, repeat: Option<Repeat>) -> bool
    ensures { result ≡ stands (is_resized operand_size) repeat row.now }
{
    allows_size(row.sizes, operand_size) && allows_repeat(row.repeats, repeat)
}

/// The row may follow the prefixes, and fits the byte after the opcode.
fn fits(row: &Row, head: Head, next: Option<u8>) -> bool
    ensures { result ≡ fits (head_seen head) next row.now }
{
    stands(row, head.operand_size, head.repeat) && may_follow(row.modrm, next)
}

/// The first row of the opcode that fits.
#[inline(always)]
fn first(head: Head, next: Option<u8>) -> Option<&'static Row>
    ensures { option_copied result ≡ find (fits (head_seen head) next)
        (rows_of (is_escaped head.map) head.opcode) }
{
    rows_with(head.map, head.opcode)
        .iter()
        .find(|row| fits(row, head, next))
}

/// The row if nothing follows the opcode.
#[inline(always)]
fn bare(head: Head) -> Result<&'static Row, DecodeFault>
    ensures { Gives (λ x. x.now) result (row_after (head_seen head) []) }
{
    match first(head, None) {
        None => Err(DecodeFault::NotInTable),
        Some(row) => {
            if is_absent(row.modrm) {
                return Ok(row);
            }
            Err(DecodeFault::Short)
        }
    }
}

/// The row if this byte follows.
#[inline(always)]
fn row_with_byte(head: Head, modrm: u8) -> Result<&'static Row, DecodeFault>
    ensures { (rest : List ℕ)
        → Gives (λ x. x.now) result (row_after (head_seen head) (modrm ∷ rest)) }
{
    match first(head, Some(modrm)) {
        None => Err(DecodeFault::NotInTable),
        Some(row) => Ok(row),
    }
}

/// The row that the bytes after the opcode are of.
#[inline(always)]
pub fn row_of(head: Head, bytes: &[u8]) -> Result<&'static Row, DecodeFault>
    ensures { Gives (λ x. x.now) result (row_after (head_seen head) bytes.now) }
{
    match bytes {
        [] => bare(head),
        [modrm, ..] => row_with_byte(head, *modrm),
    }
}
