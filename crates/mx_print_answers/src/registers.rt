//! Prints registers and flags, as `mx one` and the debugger do.

ghost use Rattle.std.specs.Prelude.{◌≡◌, ◌++◌, OnOk, string_bytes};
ghost use Rattle.mx_print_answers.specs.Registers.{register_name, register_field, register_line, two_registers, flag_field, flag_fields, register_lines};

use mx_flags::FlagValues;
use mx_image::Runs;
use mx_insn_words::push_eight_digits;
use mx_word::Register;
use std::alloc::AllocError;
use std::fmt::Write;

fn register_name(register: Register) -> &'static str
    ensures { result.now ≡ register_name register }
{
    match register {
        Register::Eax => "EAX",
        Register::Ecx => "ECX",
        Register::Edx => "EDX",
        Register::Ebx => "EBX",
        Register::Esp => "ESP",
        Register::Ebp => "EBP",
        Register::Esi => "ESI",
        Register::Edi => "EDI",
    }
}

/// Appends a register's name and its 32 bits.
#[tactic(auto, unfolding(crate::specs::Registers::register_field))]
fn push_register<R: Runs>(
    out: &mut String,
    process: &R,
    register: Register,
) -> Result<(), AllocError>
    ensures { OnOk result (string_bytes out.new ≡ string_bytes out.old
        ++ register_field (R.image process.now).regs register) }
{
    out.push_str(register_name(register))?;
    out.push_str(" ")?;
    push_eight_digits(out, process.reg(register))
}

/// Appends two registers, with a space between them.
#[tactic(auto, unfolding(crate::specs::Registers::two_registers))]
fn push_two<R: Runs>(
    out: &mut String,
    process: &R,
    both: (Register, Register),
) -> Result<(), AllocError>
    ensures { OnOk result (string_bytes out.new ≡ string_bytes out.old
        ++ two_registers (R.image process.now).regs both.0 both.1) }
{
    push_register(out, process, both.0)?;
    out.push_str(" ")?;
    push_register(out, process, both.1)
}

/// Appends a line of four registers, two on its left and two on its right.
#[tactic(auto, unfolding(crate::specs::Registers::register_line))]
fn push_four<R: Runs>(
    out: &mut String,
    process: &R,
    left: (Register, Register),
    right: (Register, Register),
) -> Result<(), AllocError>
    ensures { OnOk result (string_bytes out.new ≡ string_bytes out.old
        ++ register_line (R.image process.now).regs left.0 left.1 right.0 right.1) }
{
    push_two(out, process, left)?;
    out.push_str(" ")?;
    push_two(out, process, right)?;
    out.push_str("\n")
}

/// Appends a flag's name and its value, after a space.
fn push_flag(out: &mut String, name: &str, value: u8) -> Result<(), AllocError>
    ensures { OnOk result (string_bytes out.new ≡ string_bytes out.old
        ++ flag_field name.now value) }
{
    write!(out, " {name} {value}")
}

#[tactic(auto, unfolding(crate::specs::Registers::flag_fields))]
fn push_flags(out: &mut String, flags: FlagValues) -> Result<(), AllocError>
    ensures { OnOk result (string_bytes out.new ≡ string_bytes out.old ++ flag_fields flags) }
{
    push_flag(out, "CF", flags.carry.into())?;
    push_flag(out, "PF", flags.parity.into())?;
    push_flag(out, "AF", flags.auxiliary.into())?;
    push_flag(out, "ZF", flags.zero.into())?;
    push_flag(out, "SF", flags.sign.into())?;
    push_flag(out, "DF", flags.direction.into())?;
    push_flag(out, "OF", flags.overflow.into())
}

/// Appends three lines: the eight registers, four a line, and EIP with the seven flags. Numbers are
/// eight digits of lower-case hexadecimal, and flags 0 or 1.
pub fn push_registers<R: Runs>(out: &mut String, process: &R) -> Result<(), AllocError>
    ensures { OnOk result (string_bytes out.new ≡ string_bytes out.old
        ++ register_lines (R.image process.now)) }
{
    use Register::{Eax, Ebp, Ebx, Ecx, Edi, Edx, Esi, Esp};
    push_four(out, process, (Eax, Ecx), (Edx, Ebx))?;
    push_four(out, process, (Esp, Ebp), (Esi, Edi))?;
    out.push_str("EIP ")?;
    push_eight_digits(out, process.eip())?;
    push_flags(out, process.flags())?;
    out.push_str("\n")
}
