//! What an instruction does with EAX: whether it may read it, or overwrites it.

ghost use Rattle.std.specs.Prelude.{◌≡◌};
ghost use Rattle.mx_look.specs.Operands.{one_operand};
ghost use Rattle.mx_why.specs.Uses.{addresses, clears, extends_over, has_eax, inner_names, is_base, is_dword, is_eax, is_high, is_index, is_itself, is_part, is_whole, is_wide, moves_over, names_by, operand_names, overwrites_eax, plain_has, plain_overwrites, register_names, use_of_eax};

use crate::operands::one_operand;
use mx_insn::{Comparison, Extension, Index, Insn, Memory, Operand, Operands, Plain, Transfer};
use mx_word::{Arithmetic, Register, Size};

/// What an instruction does with a result.
#[derive(Clone, Copy)]
pub enum Use {
    /// It may read it.
    Reads,
    /// It writes all of it, and doesn't read it.
    Overwrites,
    Neither,
}

/// Whether this is EAX.
fn is_eax(register: Register) -> bool
    ensures { result ≡ is_eax register }
{
    matches!(register, Register::Eax)
}

/// Whether a size is that of the whole register.
pub(crate) fn is_dword(size: Size) -> bool
    ensures { result ≡ is_dword size }
{
    matches!(size, Size::Dword)
}

/// Whether a register of this size is AH.
fn is_high(size: Size, register: Register) -> bool
    ensures { result ≡ is_high size register }
{
    matches!(size, Size::Byte) && matches!(register, Register::Esp)
}

/// Whether a register of this size is EAX or a part of it.
fn is_part(size: Size, register: Register) -> bool
    ensures { result ≡ is_part size register }
{
    is_eax(register) || is_high(size, register)
}

/// Whether the base of an address is EAX.
fn is_base(base: Option<Register>) -> bool
    ensures { result ≡ is_base base }
{
    match base {
        Some(register) => is_eax(register),
        None => false,
    }
}

/// Whether the index of an address is EAX.
fn is_index(index: Option<Index>) -> bool
    ensures { result ≡ is_index index }
{
    match index {
        Some(index) => is_eax(index.register),
        None => false,
    }
}

/// Whether an address is calculated with EAX.
fn addresses(memory: &Memory) -> bool
    ensures { result ≡ addresses memory.now }
{
    is_base(memory.base) || is_index(memory.index)
}

/// Whether an operand of this size names EAX or a part of it.
fn operand_names(size: Size, operand: &Operand) -> bool
    ensures { result ≡ operand_names size operand.now }
{
    match operand {
        Operand::Register(register) => is_part(size, *register),
        Operand::Memory(memory) => addresses(memory),
    }
}

/// Whether the operand of an instruction that can be in memory names EAX or a part of it.
fn names(insn: &Insn) -> bool
    ensures { result ≡ names_by (one_operand insn.now) }
{
    match one_operand(insn) {
        Some((operand, size)) => operand_names(size, &operand),
        None => false,
    }
}

/// Whether the one of two operands that can't be in memory is EAX or a part of it.
fn inner_names(operands: &Operands) -> bool
    ensures { result ≡ inner_names operands.now }
{
    match operands {
        Operands::ToRegister { size, to, .. } => is_part(*size, *to),
        Operands::ToMemory { size, from, .. } => is_part(*size, *from),
        Operands::Immediate { .. } => false,
    }
}

/// Whether an instruction names EAX or a part of it besides the operand that can be in memory.
#[tactic(auto, unfolding(crate::specs::Uses::register_names))]
fn register_names(insn: &Insn) -> bool
    ensures { result ≡ register_names insn.now }
{
    match insn {
        Insn::Arithmetic { operands, .. } | Insn::Move(operands) => inner_names(operands),
        Insn::Test { size, register, .. } | Insn::Exchange { size, register, .. } => {
            is_part(*size, *register)
        }
        Insn::LoadAddress { to, memory, .. } => is_eax(*to) || addresses(memory),
        Insn::Multiply { to, .. }
        | Insn::MultiplyImmediate { to, .. }
        | Insn::BitScan { to, .. }
        | Insn::ZeroExtend { to, .. }
        | Insn::SignExtend { to, .. }
        | Insn::Pop(to) => is_eax(*to),
        Insn::DoubleShift { register, .. } => is_eax(*register),
        Insn::BitTestRegister {
            register,
            number,
            ..
        } => { is_eax(*register) || is_eax(*number) }
        _ => false,
    }
}

/// Whether an instruction without operands has EAX or a part of it.
fn plain_has(operation: Plain) -> bool
    ensures { result ≡ plain_has operation }
{
    matches!(
        operation,
        Plain::Pushad | Plain::Popad | Plain::Sahf | Plain::Lahf
    )
}

/// Whether an instruction has EAX or a part of it without naming it.
#[tactic(auto, unfolding(crate::specs::Uses::has_eax))]
fn has_eax(insn: &Insn) -> bool
    ensures { result ≡ has_eax insn.now }
{
    match insn {
        Insn::Product { .. }
        | Insn::ExtendAccumulator(_)
        | Insn::SpreadSign(_)
        | Insn::Interrupt(_)
        | Insn::In { .. }
        | Insn::Out { .. }
        | Insn::Transfer {
            operation: Transfer::Stos | Transfer::Lods,
            ..
        }
        | Insn::Compare {
            operation: Comparison::Scas,
            ..
        } => true,
        Insn::Plain(operation) => plain_has(*operation),
        _ => false,
    }
}

/// Whether an operand is EAX, if it has its size.
fn is_whole(operand: &Operand) -> bool
    ensures { result ≡ is_whole operand.now }
{
    match operand {
        Operand::Register(register) => is_eax(*register),
        Operand::Memory(_) => false,
    }
}

/// Whether a MOV overwrites EAX.
fn moves_over(operands: &Operands) -> bool
    ensures { result ≡ moves_over operands.now }
{
    match operands {
        Operands::ToRegister { size, to, from } => {
            is_dword(*size) && is_eax(*to) && !operand_names(*size, from)
        }
        Operands::ToMemory { .. } => false,
        Operands::Immediate { to, value } => is_dword(value.size()) && is_whole(to),
    }
}

/// Whether an operation on a register and itself gives 0.
fn clears(operation: Arithmetic) -> bool
    ensures { result ≡ clears operation }
{
    matches!(operation, Arithmetic::Sub | Arithmetic::Xor)
}

/// Whether two operands are EAX and EAX.
fn is_itself(operands: &Operands) -> bool
    ensures { result ≡ is_itself operands.now }
{
    match operands {
        Operands::ToRegister { size, to, from } => {
            is_dword(*size) && is_eax(*to) && is_whole(from)
        }
        _ => false,
    }
}

/// Whether an extension is to the whole register.
fn is_wide(extension: Extension) -> bool
    ensures { result ≡ is_wide extension }
{
    !matches!(extension, Extension::ByteToWord)
}

/// Whether a MOVZX or a MOVSX overwrites EAX.
fn extends_over(extension: Extension, to: Register, from: &Operand) -> bool
    ensures { result ≡ extends_over extension to from.now }
{
    is_wide(extension) && is_eax(to) && !operand_names(Size::Byte, from)
}

/// Whether an instruction without operands overwrites EAX.
fn plain_overwrites(operation: Plain) -> bool
    ensures { result ≡ plain_overwrites operation }
{
    matches!(operation, Plain::Popad)
}

/// Whether an instruction writes all of EAX, and doesn't read it.
#[tactic(auto, unfolding(crate::specs::Uses::overwrites_eax))]
fn overwrites_eax(insn: &Insn) -> bool
    ensures { result ≡ overwrites_eax insn.now }
{
    match insn {
        Insn::Move(operands) => moves_over(operands),
        Insn::Arithmetic {
            operation,
            operands,
        } => clears(*operation) && is_itself(operands),
        Insn::LoadAddress { size, to, memory } => {
            is_dword(size.size()) && is_eax(*to) && !addresses(memory)
        }
        Insn::ZeroExtend {
            extension,
            to,
            from,
        }
        | Insn::SignExtend {
            extension,
            to,
            from,
        } => extends_over(*extension, *to, from),
        Insn::Pop(to) => is_eax(*to),
        Insn::Plain(operation) => plain_overwrites(*operation),
        _ => false,
    }
}

/// What an instruction does with EAX.
pub(crate) fn use_of_eax(insn: &Insn) -> Use
    ensures { result ≡ use_of_eax insn.now }
{
    if overwrites_eax(insn) {
        Use::Overwrites
    } else if names(insn) || register_names(insn) || has_eax(insn) {
        Use::Reads
    } else {
        Use::Neither
    }
}
