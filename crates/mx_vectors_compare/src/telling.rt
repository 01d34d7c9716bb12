//! Prints the fields of a step that aren't as a case has them.

use crate::{Case, compared_flags, number_of, wanted_flags};
use mx_exec::{Image, Outcome};
use mx_word::Register;
use std::io::{self, Write};

/// Prints a line for a field that isn't as wanted.
fn tell<W: Write>(
    case: &Case<'_>,
    field: &str,
    wanted: u32,
    found: u32,
    out: &mut W,
) -> io::Result<()> {
    if wanted != found {
        let row = case.row;
        let bytes = case.spelling;
        writeln!(
            out,
            "{row} {bytes} {field} wanted {wanted:x} found {found:x}"
        )?;
    }
    Ok(())
}

/// Prints a line if the instruction at the front has another length than the case's, and one if its
/// spellings don't decode as the instruction.
pub fn tell_decoding<W: Write>(
    case: &Case<'_>,
    length: u32,
    spelled: bool,
    out: &mut W,
) -> io::Result<()> {
    let wanted = u32::try_from(case.bytes.as_slice().len()).unwrap_or(u32::MAX);
    tell(case, "length", wanted, length, out)?;
    tell(case, "spelling", 1, u32::from(spelled), out)
}

/// The registers and their names.
const REGISTERS: [(Register, &str); 8] = [
    (Register::Eax, "EAX"),
    (Register::Ecx, "ECX"),
    (Register::Edx, "EDX"),
    (Register::Ebx, "EBX"),
    (Register::Esp, "ESP"),
    (Register::Ebp, "EBP"),
    (Register::Esi, "ESI"),
    (Register::Edi, "EDI"),
];

fn tell_registers<W: Write>(case: &Case<'_>, image: &Image, out: &mut W) -> io::Result<()> {
    for (register, name) in REGISTERS {
        let wanted = case.after.registers[register.number() as usize];
        tell(case, name, wanted, image.register(register), out)?;
    }
    Ok(())
}

fn tell_flags<W: Write>(case: &Case<'_>, image: &Image, out: &mut W) -> io::Result<()> {
    let compared = compared_flags(case.mask);
    let wanted = wanted_flags(case) & compared;
    tell(case, "flags", wanted, image.flags.to_bits() & compared, out)
}

fn tell_memory<W: Write>(case: &Case<'_>, image: &Image, out: &mut W) -> io::Result<()> {
    for (at, byte) in (0..u32::MAX).zip(case.memory_after.as_slice()) {
        let found = image.memory.get(at).unwrap_or(0);
        tell(case, "byte", u32::from(*byte), u32::from(found), out)?;
    }
    Ok(())
}

/// Prints a line for each field of an end that isn't as the case has it.
pub fn tell_end<W: Write>(
    case: &Case<'_>,
    outcome: Outcome,
    image: &Image,
    out: &mut W,
) -> io::Result<()> {
    let ended = number_of(case.outcome);
    tell(case, "outcome", ended, number_of(outcome), out)?;
    tell_registers(case, image, out)?;
    tell(case, "EIP", case.after.eip, image.eip, out)?;
    tell_flags(case, image, out)?;
    tell_memory(case, image, out)
}
