//! Encodings of instructions on registers that they don't name, and of those without operands.

ghost use Rattle.std.specs.Prelude.{◌≡◌, ◌<◌};
ghost use Rattle.mx_insn.specs.Table.{compare_opcode, plain_opcode, transfer_opcode};
ghost use Rattle.mx_encode.specs.Choice.{transfer_choice, compare_choice, extend_accumulator, spread_sign, in_choice, out_choice, plain_choice};
ghost use Rattle.mx_encode.specs.Given.{laid, PortFits};

use crate::fields::Number;
use crate::forms::{Encoding, operand_size, sized_opcode};
use mx_insn::{Comparison, OperandSize, Plain, Port, PortSize, Repeat, Transfer};
use mx_word::Size;

/// How CBW or CWDE is encoded.
#[tactic(auto, using(crate::proofs::Sizes::size_again))]
pub fn extend_accumulator(size: OperandSize) -> Encoding
    ensures { result ≡ laid (extend_accumulator size) }
{
    Encoding::bare(0x98).with_operand_size(size)
}

/// How CWD or CDQ is encoded.
#[tactic(auto, using(crate::proofs::Sizes::size_again))]
pub fn spread_sign(size: OperandSize) -> Encoding
    ensures { result ≡ laid (spread_sign size) }
{
    Encoding::bare(0x99).with_operand_size(size)
}

fn transfer_opcode(operation: Transfer) -> u8
    ensures value { result ≡ transfer_opcode operation }
    ensures below { result < 255 }
{
    match operation {
        Transfer::Movs => 0xa4,
        Transfer::Stos => 0xaa,
        Transfer::Lods => 0xac,
    }
}

/// How MOVS, STOS and LODS are encoded.
pub fn transfer(operation: Transfer, size: Size, repeat: Option<Repeat>) -> Encoding
    ensures { result ≡ laid (transfer_choice operation size repeat) }
{
    Encoding::bare(sized_opcode(size, transfer_opcode(operation)))
        .with_operand_size(operand_size(size))
        .with_repeat(repeat)
}

fn compare_opcode(operation: Comparison) -> u8
    ensures value { result ≡ compare_opcode operation }
    ensures below { result < 255 }
{
    match operation {
        Comparison::Cmps => 0xa6,
        Comparison::Scas => 0xae,
    }
}

/// How CMPS and SCAS are encoded.
pub fn compare(operation: Comparison, size: Size, repeat: Option<Repeat>) -> Encoding
    ensures { result ≡ laid (compare_choice operation size repeat) }
{
    Encoding::bare(sized_opcode(size, compare_opcode(operation)))
        .with_operand_size(operand_size(size))
        .with_repeat(repeat)
}

/// How an IN is encoded.
pub fn input(size: PortSize, port: Port) -> Encoding
    ensures form { result ≡ laid (in_choice size port) }
    ensures fits { PortFits port }
{
    match (port, size) {
        (Port::Immediate(n), PortSize::Byte) => Encoding::bare(0xe4).with_immediate(Number::Byte(
            n,
        )),
        (Port::Immediate(n), PortSize::Dword) => Encoding::bare(0xe5).with_immediate(Number::Byte(
            n,
        )),
        (Port::Dx, PortSize::Byte) => Encoding::bare(0xec),
        (Port::Dx, PortSize::Dword) => Encoding::bare(0xed),
    }
}

/// How an OUT is encoded.
pub fn output(size: PortSize, port: Port) -> Encoding
    ensures form { result ≡ laid (out_choice size port) }
    ensures fits { PortFits port }
{
    match (port, size) {
        (Port::Immediate(n), PortSize::Byte) => Encoding::bare(0xe6).with_immediate(Number::Byte(
            n,
        )),
        (Port::Immediate(n), PortSize::Dword) => Encoding::bare(0xe7).with_immediate(Number::Byte(
            n,
        )),
        (Port::Dx, PortSize::Byte) => Encoding::bare(0xee),
        (Port::Dx, PortSize::Dword) => Encoding::bare(0xef),
    }
}

fn plain_opcode(operation: Plain) -> u8
    ensures { result ≡ plain_opcode operation }
{
    match operation {
        Plain::Pushad => 0x60,
        Plain::Popad => 0x61,
        Plain::Nop => 0x90,
        Plain::Pushfd => 0x9c,
        Plain::Popfd => 0x9d,
        Plain::Sahf => 0x9e,
        Plain::Lahf => 0x9f,
        Plain::Leave => 0xc9,
        Plain::Int3 => 0xcc,
        Plain::Into => 0xce,
        Plain::Hlt => 0xf4,
        Plain::Cmc => 0xf5,
        Plain::Clc => 0xf8,
        Plain::Stc => 0xf9,
        Plain::Cli => 0xfa,
        Plain::Sti => 0xfb,
        Plain::Cld => 0xfc,
        Plain::Std => 0xfd,
    }
}

/// How an instruction without operands is encoded.
pub fn plain(operation: Plain) -> Encoding
    ensures { result ≡ laid (plain_choice operation) }
{
    Encoding::bare(plain_opcode(operation))
}
