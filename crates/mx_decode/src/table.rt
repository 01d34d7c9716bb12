//! The rows of the table, in the definition's order, and where each opcode's rows are in it. The rows are proved to be
//! the definition's, and those of an opcode to be the ones that have it. So a new row is one line here and one in the
//! definition, and the places of the rows after it are one more; the check says which are wrong.
//!
//! # How to read a row
//!
//! `opcode: 0x0F 0xA4, sizes: Dword, repeats: Neither, modrm: Any, immediate: Byte` is what the manual writes as
//! `0F A4 /r ib`, here with the operands of SHLD. Beside each column stand the manual's letters, which the
//! definition (`specs/Table` of `mx_insn`) has too.
//!
//! | column | values |
//! |---|---|
//! | `opcode` | The byte, after `0x0F` if it is of the second map. `opcodes: 8 from 0x40 by 1` are the eight from 40 to 47, and which of them it is says the register (`+r`), the operation or the condition (`cc`) |
//! | `sizes` | `Byte` (b): operands of a byte. `Variable` (v): a word after the prefix 66, else a dword. `Dword` (d): a dword, or no size; 66 isn't allowed |
//! | `repeats` | `Neither`: no prefix F2 or F3. `Rep`: F3. `Both`: F3 as REPE, F2 as REPNE |
//! | `modrm` | `Absent`. `Any` (`/r`): a register in its reg field, and a register or memory in rm. `AnyMemory`, `AnyRegister`: rm is only that. `Only(4)` (`/4`): this number in the reg field |
//! | `immediate` | `Nothing`. `Byte` (ib), `Word` (iw), `Dword` (id). `SignedByte` (is): a byte with its sign extended. `Variable` (iv): as wide as the operands |
//!
//! After `=>` comes the instruction, whose name has its operands in the manual's order: in `ArithmeticRmReg` a
//! register or memory, then a register. `Acc` is AL, AX or EAX, and `At` memory at an address alone.

ghost use Rattle.std.specs.Prelude.{◌≡◌, ◌≤◌, ◌+◌, true, false, take, drop};
ghost use Rattle.mx_insn.specs.Table.{rows};
ghost use Rattle.mx_insn.specs.Spelling.{is_escaped};
ghost use Rattle.mx_decode.specs.Reading.{rows_of};

use mx_insn::{
    Comparison, CountColumn, ImmediateColumn, Loop, ModRm, OpcodeMap, Pattern, Plain, Product,
    Repeats, Row, SizeMark, Transfer,
};
use mx_word::{BitScan, BitTest, DoubleShift, Shift, Unary};

macro_rules! row {
    (opcode: 0x0F $first:literal, $($columns:tt)*) => {
        row!(@ true $first + 1 * 1; $($columns)*)
    };
    (opcodes: $count:literal from 0x0F $first:literal by $step:literal, $($columns:tt)*) => {
        row!(@ true $first + $step * $count; $($columns)*)
    };
    (opcode: $first:literal, $($columns:tt)*) => {
        row!(@ false $first + 1 * 1; $($columns)*)
    };
    (opcodes: $count:literal from $first:literal by $step:literal, $($columns:tt)*) => {
        row!(@ false $first + $step * $count; $($columns)*)
    };
    (@ $escaped:literal $first:literal + $step:literal * $count:literal;
     sizes: $sizes:ident, repeats: $repeats:ident, modrm: $modrm:ident $(($digit:literal))?,
     immediate: $immediate:ident => $pattern:expr) => {
        Row {
            escaped: $escaped,
            first: $first,
            step: $step,
            count: $count,
            sizes: SizeMark::$sizes,
            repeats: Repeats::$repeats,
            modrm: ModRm::$modrm $(($digit))?,
            immediate: ImmediateColumn::$immediate,
            pattern: $pattern,
        }
    };
}

/// All rows.
static ROWS: [Row; 158] = [
    row!(opcodes: 8 from 0x00 by 8, sizes: Byte, repeats: Neither, modrm: Any, immediate: Nothing => Pattern::ArithmeticRmReg),
    row!(opcodes: 8 from 0x01 by 8, sizes: Variable, repeats: Neither, modrm: Any, immediate: Nothing => Pattern::ArithmeticRmReg),
    row!(opcodes: 8 from 0x02 by 8, sizes: Byte, repeats: Neither, modrm: Any, immediate: Nothing => Pattern::ArithmeticRegRm),
    row!(opcodes: 8 from 0x03 by 8, sizes: Variable, repeats: Neither, modrm: Any, immediate: Nothing => Pattern::ArithmeticRegRm),
    row!(opcodes: 8 from 0x04 by 8, sizes: Byte, repeats: Neither, modrm: Absent, immediate: Byte => Pattern::ArithmeticAccImmediate),
    row!(opcodes: 8 from 0x05 by 8, sizes: Variable, repeats: Neither, modrm: Absent, immediate: Variable => Pattern::ArithmeticAccImmediate),
    row!(opcode: 0x80, sizes: Byte, repeats: Neither, modrm: Any, immediate: Byte => Pattern::ArithmeticRmImmediate),
    row!(opcode: 0x81, sizes: Variable, repeats: Neither, modrm: Any, immediate: Variable => Pattern::ArithmeticRmImmediate),
    row!(opcode: 0x83, sizes: Variable, repeats: Neither, modrm: Any, immediate: SignedByte => Pattern::ArithmeticRmImmediate),
    row!(opcodes: 8 from 0x40 by 1, sizes: Variable, repeats: Neither, modrm: Absent, immediate: Nothing => Pattern::UnaryReg(Unary::Inc)),
    row!(opcodes: 8 from 0x48 by 1, sizes: Variable, repeats: Neither, modrm: Absent, immediate: Nothing => Pattern::UnaryReg(Unary::Dec)),
    row!(opcodes: 8 from 0x50 by 1, sizes: Dword, repeats: Neither, modrm: Absent, immediate: Nothing => Pattern::PushReg),
    row!(opcodes: 8 from 0x58 by 1, sizes: Dword, repeats: Neither, modrm: Absent, immediate: Nothing => Pattern::PopReg),
    row!(opcode: 0x60, sizes: Dword, repeats: Neither, modrm: Absent, immediate: Nothing => Pattern::Plain(Plain::Pushad)),
    row!(opcode: 0x61, sizes: Dword, repeats: Neither, modrm: Absent, immediate: Nothing => Pattern::Plain(Plain::Popad)),
    row!(opcode: 0x68, sizes: Dword, repeats: Neither, modrm: Absent, immediate: Dword => Pattern::PushImmediate),
    row!(opcode: 0x6A, sizes: Dword, repeats: Neither, modrm: Absent, immediate: SignedByte => Pattern::PushImmediate),
    row!(opcode: 0x69, sizes: Variable, repeats: Neither, modrm: Any, immediate: Variable => Pattern::MultiplyRegRmImmediate),
    row!(opcode: 0x6B, sizes: Variable, repeats: Neither, modrm: Any, immediate: SignedByte => Pattern::MultiplyRegRmImmediate),
    row!(opcodes: 16 from 0x70 by 1, sizes: Dword, repeats: Neither, modrm: Absent, immediate: SignedByte => Pattern::JumpIf),
    row!(opcodes: 16 from 0x0F 0x80 by 1, sizes: Dword, repeats: Neither, modrm: Absent, immediate: Dword => Pattern::JumpIf),
    row!(opcode: 0x84, sizes: Byte, repeats: Neither, modrm: Any, immediate: Nothing => Pattern::TestRmReg),
    row!(opcode: 0x85, sizes: Variable, repeats: Neither, modrm: Any, immediate: Nothing => Pattern::TestRmReg),
    row!(opcode: 0xA8, sizes: Byte, repeats: Neither, modrm: Absent, immediate: Byte => Pattern::TestAccImmediate),
    row!(opcode: 0xA9, sizes: Variable, repeats: Neither, modrm: Absent, immediate: Variable => Pattern::TestAccImmediate),
    row!(opcode: 0x86, sizes: Byte, repeats: Neither, modrm: Any, immediate: Nothing => Pattern::ExchangeRmReg),
    row!(opcode: 0x87, sizes: Variable, repeats: Neither, modrm: Any, immediate: Nothing => Pattern::ExchangeRmReg),
    row!(opcodes: 7 from 0x91 by 1, sizes: Variable, repeats: Neither, modrm: Absent, immediate: Nothing => Pattern::ExchangeRegAcc),
    row!(opcode: 0x88, sizes: Byte, repeats: Neither, modrm: Any, immediate: Nothing => Pattern::MoveRmReg),
    row!(opcode: 0x89, sizes: Variable, repeats: Neither, modrm: Any, immediate: Nothing => Pattern::MoveRmReg),
    row!(opcode: 0x8A, sizes: Byte, repeats: Neither, modrm: Any, immediate: Nothing => Pattern::MoveRegRm),
    row!(opcode: 0x8B, sizes: Variable, repeats: Neither, modrm: Any, immediate: Nothing => Pattern::MoveRegRm),
    row!(opcode: 0x8D, sizes: Variable, repeats: Neither, modrm: AnyMemory, immediate: Nothing => Pattern::LoadAddress),
    row!(opcode: 0x90, sizes: Variable, repeats: Neither, modrm: Absent, immediate: Nothing => Pattern::Plain(Plain::Nop)),
    row!(opcode: 0x98, sizes: Variable, repeats: Neither, modrm: Absent, immediate: Nothing => Pattern::ExtendAccumulator),
    row!(opcode: 0x99, sizes: Variable, repeats: Neither, modrm: Absent, immediate: Nothing => Pattern::SpreadSign),
    row!(opcode: 0x9C, sizes: Dword, repeats: Neither, modrm: Absent, immediate: Nothing => Pattern::Plain(Plain::Pushfd)),
    row!(opcode: 0x9D, sizes: Dword, repeats: Neither, modrm: Absent, immediate: Nothing => Pattern::Plain(Plain::Popfd)),
    row!(opcode: 0x9E, sizes: Dword, repeats: Neither, modrm: Absent, immediate: Nothing => Pattern::Plain(Plain::Sahf)),
    row!(opcode: 0x9F, sizes: Dword, repeats: Neither, modrm: Absent, immediate: Nothing => Pattern::Plain(Plain::Lahf)),
    row!(opcode: 0xA0, sizes: Byte, repeats: Neither, modrm: Absent, immediate: Dword => Pattern::MoveAccAt),
    row!(opcode: 0xA1, sizes: Variable, repeats: Neither, modrm: Absent, immediate: Dword => Pattern::MoveAccAt),
    row!(opcode: 0xA2, sizes: Byte, repeats: Neither, modrm: Absent, immediate: Dword => Pattern::MoveAtAcc),
    row!(opcode: 0xA3, sizes: Variable, repeats: Neither, modrm: Absent, immediate: Dword => Pattern::MoveAtAcc),
    row!(opcode: 0xA4, sizes: Byte, repeats: Rep, modrm: Absent, immediate: Nothing => Pattern::Transfer(Transfer::Movs)),
    row!(opcode: 0xA5, sizes: Variable, repeats: Rep, modrm: Absent, immediate: Nothing => Pattern::Transfer(Transfer::Movs)),
    row!(opcode: 0xA6, sizes: Byte, repeats: Both, modrm: Absent, immediate: Nothing => Pattern::Compare(Comparison::Cmps)),
    row!(opcode: 0xA7, sizes: Variable, repeats: Both, modrm: Absent, immediate: Nothing => Pattern::Compare(Comparison::Cmps)),
    row!(opcode: 0xAA, sizes: Byte, repeats: Rep, modrm: Absent, immediate: Nothing => Pattern::Transfer(Transfer::Stos)),
    row!(opcode: 0xAB, sizes: Variable, repeats: Rep, modrm: Absent, immediate: Nothing => Pattern::Transfer(Transfer::Stos)),
    row!(opcode: 0xAC, sizes: Byte, repeats: Rep, modrm: Absent, immediate: Nothing => Pattern::Transfer(Transfer::Lods)),
    row!(opcode: 0xAD, sizes: Variable, repeats: Rep, modrm: Absent, immediate: Nothing => Pattern::Transfer(Transfer::Lods)),
    row!(opcode: 0xAE, sizes: Byte, repeats: Both, modrm: Absent, immediate: Nothing => Pattern::Compare(Comparison::Scas)),
    row!(opcode: 0xAF, sizes: Variable, repeats: Both, modrm: Absent, immediate: Nothing => Pattern::Compare(Comparison::Scas)),
    row!(opcodes: 8 from 0xB0 by 1, sizes: Byte, repeats: Neither, modrm: Absent, immediate: Byte => Pattern::MoveRegImmediate),
    row!(opcodes: 8 from 0xB8 by 1, sizes: Variable, repeats: Neither, modrm: Absent, immediate: Variable => Pattern::MoveRegImmediate),
    row!(opcode: 0xC6, sizes: Byte, repeats: Neither, modrm: Only(0), immediate: Byte => Pattern::MoveRmImmediate),
    row!(opcode: 0xC7, sizes: Variable, repeats: Neither, modrm: Only(0), immediate: Variable => Pattern::MoveRmImmediate),
    row!(opcode: 0xC0, sizes: Byte, repeats: Neither, modrm: Only(0), immediate: Byte => Pattern::ShiftRm(Shift::Rol, CountColumn::Immediate)),
    row!(opcode: 0xC0, sizes: Byte, repeats: Neither, modrm: Only(1), immediate: Byte => Pattern::ShiftRm(Shift::Ror, CountColumn::Immediate)),
    row!(opcode: 0xC0, sizes: Byte, repeats: Neither, modrm: Only(4), immediate: Byte => Pattern::ShiftRm(Shift::Shl, CountColumn::Immediate)),
    row!(opcode: 0xC0, sizes: Byte, repeats: Neither, modrm: Only(5), immediate: Byte => Pattern::ShiftRm(Shift::Shr, CountColumn::Immediate)),
    row!(opcode: 0xC0, sizes: Byte, repeats: Neither, modrm: Only(7), immediate: Byte => Pattern::ShiftRm(Shift::Sar, CountColumn::Immediate)),
    row!(opcode: 0xC1, sizes: Variable, repeats: Neither, modrm: Only(0), immediate: Byte => Pattern::ShiftRm(Shift::Rol, CountColumn::Immediate)),
    row!(opcode: 0xC1, sizes: Variable, repeats: Neither, modrm: Only(1), immediate: Byte => Pattern::ShiftRm(Shift::Ror, CountColumn::Immediate)),
    row!(opcode: 0xC1, sizes: Variable, repeats: Neither, modrm: Only(4), immediate: Byte => Pattern::ShiftRm(Shift::Shl, CountColumn::Immediate)),
    row!(opcode: 0xC1, sizes: Variable, repeats: Neither, modrm: Only(5), immediate: Byte => Pattern::ShiftRm(Shift::Shr, CountColumn::Immediate)),
    row!(opcode: 0xC1, sizes: Variable, repeats: Neither, modrm: Only(7), immediate: Byte => Pattern::ShiftRm(Shift::Sar, CountColumn::Immediate)),
    row!(opcode: 0xD0, sizes: Byte, repeats: Neither, modrm: Only(0), immediate: Nothing => Pattern::ShiftRm(Shift::Rol, CountColumn::One)),
    row!(opcode: 0xD0, sizes: Byte, repeats: Neither, modrm: Only(1), immediate: Nothing => Pattern::ShiftRm(Shift::Ror, CountColumn::One)),
    row!(opcode: 0xD0, sizes: Byte, repeats: Neither, modrm: Only(4), immediate: Nothing => Pattern::ShiftRm(Shift::Shl, CountColumn::One)),
    row!(opcode: 0xD0, sizes: Byte, repeats: Neither, modrm: Only(5), immediate: Nothing => Pattern::ShiftRm(Shift::Shr, CountColumn::One)),
    row!(opcode: 0xD0, sizes: Byte, repeats: Neither, modrm: Only(7), immediate: Nothing => Pattern::ShiftRm(Shift::Sar, CountColumn::One)),
    row!(opcode: 0xD1, sizes: Variable, repeats: Neither, modrm: Only(0), immediate: Nothing => Pattern::ShiftRm(Shift::Rol, CountColumn::One)),
    row!(opcode: 0xD1, sizes: Variable, repeats: Neither, modrm: Only(1), immediate: Nothing => Pattern::ShiftRm(Shift::Ror, CountColumn::One)),
    row!(opcode: 0xD1, sizes: Variable, repeats: Neither, modrm: Only(4), immediate: Nothing => Pattern::ShiftRm(Shift::Shl, CountColumn::One)),
    row!(opcode: 0xD1, sizes: Variable, repeats: Neither, modrm: Only(5), immediate: Nothing => Pattern::ShiftRm(Shift::Shr, CountColumn::One)),
    row!(opcode: 0xD1, sizes: Variable, repeats: Neither, modrm: Only(7), immediate: Nothing => Pattern::ShiftRm(Shift::Sar, CountColumn::One)),
    row!(opcode: 0xD2, sizes: Byte, repeats: Neither, modrm: Only(0), immediate: Nothing => Pattern::ShiftRm(Shift::Rol, CountColumn::Cl)),
    row!(opcode: 0xD2, sizes: Byte, repeats: Neither, modrm: Only(1), immediate: Nothing => Pattern::ShiftRm(Shift::Ror, CountColumn::Cl)),
    row!(opcode: 0xD2, sizes: Byte, repeats: Neither, modrm: Only(4), immediate: Nothing => Pattern::ShiftRm(Shift::Shl, CountColumn::Cl)),
    row!(opcode: 0xD2, sizes: Byte, repeats: Neither, modrm: Only(5), immediate: Nothing => Pattern::ShiftRm(Shift::Shr, CountColumn::Cl)),
    row!(opcode: 0xD2, sizes: Byte, repeats: Neither, modrm: Only(7), immediate: Nothing => Pattern::ShiftRm(Shift::Sar, CountColumn::Cl)),
    row!(opcode: 0xD3, sizes: Variable, repeats: Neither, modrm: Only(0), immediate: Nothing => Pattern::ShiftRm(Shift::Rol, CountColumn::Cl)),
    row!(opcode: 0xD3, sizes: Variable, repeats: Neither, modrm: Only(1), immediate: Nothing => Pattern::ShiftRm(Shift::Ror, CountColumn::Cl)),
    row!(opcode: 0xD3, sizes: Variable, repeats: Neither, modrm: Only(4), immediate: Nothing => Pattern::ShiftRm(Shift::Shl, CountColumn::Cl)),
    row!(opcode: 0xD3, sizes: Variable, repeats: Neither, modrm: Only(5), immediate: Nothing => Pattern::ShiftRm(Shift::Shr, CountColumn::Cl)),
    row!(opcode: 0xD3, sizes: Variable, repeats: Neither, modrm: Only(7), immediate: Nothing => Pattern::ShiftRm(Shift::Sar, CountColumn::Cl)),
    row!(opcode: 0xC2, sizes: Dword, repeats: Neither, modrm: Absent, immediate: Word => Pattern::Return),
    row!(opcode: 0xC3, sizes: Dword, repeats: Neither, modrm: Absent, immediate: Nothing => Pattern::Return),
    row!(opcode: 0xC9, sizes: Dword, repeats: Neither, modrm: Absent, immediate: Nothing => Pattern::Plain(Plain::Leave)),
    row!(opcode: 0xCC, sizes: Dword, repeats: Neither, modrm: Absent, immediate: Nothing => Pattern::Plain(Plain::Int3)),
    row!(opcode: 0xCD, sizes: Dword, repeats: Neither, modrm: Absent, immediate: Byte => Pattern::Interrupt),
    row!(opcode: 0xCE, sizes: Dword, repeats: Neither, modrm: Absent, immediate: Nothing => Pattern::Plain(Plain::Into)),
    row!(opcode: 0xE0, sizes: Dword, repeats: Neither, modrm: Absent, immediate: SignedByte => Pattern::Loop(Loop::Loopne)),
    row!(opcode: 0xE1, sizes: Dword, repeats: Neither, modrm: Absent, immediate: SignedByte => Pattern::Loop(Loop::Loope)),
    row!(opcode: 0xE2, sizes: Dword, repeats: Neither, modrm: Absent, immediate: SignedByte => Pattern::Loop(Loop::Loop)),
    row!(opcode: 0xE3, sizes: Dword, repeats: Neither, modrm: Absent, immediate: SignedByte => Pattern::Loop(Loop::Jecxz)),
    row!(opcode: 0xE8, sizes: Dword, repeats: Neither, modrm: Absent, immediate: Dword => Pattern::Call),
    row!(opcode: 0xE9, sizes: Dword, repeats: Neither, modrm: Absent, immediate: Dword => Pattern::Jump),
    row!(opcode: 0xEB, sizes: Dword, repeats: Neither, modrm: Absent, immediate: SignedByte => Pattern::Jump),
    row!(opcode: 0xE4, sizes: Byte, repeats: Neither, modrm: Absent, immediate: Byte => Pattern::InImmediate),
    row!(opcode: 0xE5, sizes: Dword, repeats: Neither, modrm: Absent, immediate: Byte => Pattern::InImmediate),
    row!(opcode: 0xE6, sizes: Byte, repeats: Neither, modrm: Absent, immediate: Byte => Pattern::OutImmediate),
    row!(opcode: 0xE7, sizes: Dword, repeats: Neither, modrm: Absent, immediate: Byte => Pattern::OutImmediate),
    row!(opcode: 0xEC, sizes: Byte, repeats: Neither, modrm: Absent, immediate: Nothing => Pattern::InDx),
    row!(opcode: 0xED, sizes: Dword, repeats: Neither, modrm: Absent, immediate: Nothing => Pattern::InDx),
    row!(opcode: 0xEE, sizes: Byte, repeats: Neither, modrm: Absent, immediate: Nothing => Pattern::OutDx),
    row!(opcode: 0xEF, sizes: Dword, repeats: Neither, modrm: Absent, immediate: Nothing => Pattern::OutDx),
    row!(opcode: 0xF4, sizes: Dword, repeats: Neither, modrm: Absent, immediate: Nothing => Pattern::Plain(Plain::Hlt)),
    row!(opcode: 0xFA, sizes: Dword, repeats: Neither, modrm: Absent, immediate: Nothing => Pattern::Plain(Plain::Cli)),
    row!(opcode: 0xFB, sizes: Dword, repeats: Neither, modrm: Absent, immediate: Nothing => Pattern::Plain(Plain::Sti)),
    row!(opcode: 0xF5, sizes: Dword, repeats: Neither, modrm: Absent, immediate: Nothing => Pattern::Plain(Plain::Cmc)),
    row!(opcode: 0xF8, sizes: Dword, repeats: Neither, modrm: Absent, immediate: Nothing => Pattern::Plain(Plain::Clc)),
    row!(opcode: 0xF9, sizes: Dword, repeats: Neither, modrm: Absent, immediate: Nothing => Pattern::Plain(Plain::Stc)),
    row!(opcode: 0xFC, sizes: Dword, repeats: Neither, modrm: Absent, immediate: Nothing => Pattern::Plain(Plain::Cld)),
    row!(opcode: 0xFD, sizes: Dword, repeats: Neither, modrm: Absent, immediate: Nothing => Pattern::Plain(Plain::Std)),
    row!(opcode: 0xF6, sizes: Byte, repeats: Neither, modrm: Only(0), immediate: Byte => Pattern::TestRmImmediate),
    row!(opcode: 0xF6, sizes: Byte, repeats: Neither, modrm: Only(2), immediate: Nothing => Pattern::UnaryRm(Unary::Not)),
    row!(opcode: 0xF6, sizes: Byte, repeats: Neither, modrm: Only(3), immediate: Nothing => Pattern::UnaryRm(Unary::Neg)),
    row!(opcode: 0xF6, sizes: Byte, repeats: Neither, modrm: Only(4), immediate: Nothing => Pattern::ProductRm(Product::Mul)),
    row!(opcode: 0xF6, sizes: Byte, repeats: Neither, modrm: Only(5), immediate: Nothing => Pattern::ProductRm(Product::Imul)),
    row!(opcode: 0xF6, sizes: Byte, repeats: Neither, modrm: Only(6), immediate: Nothing => Pattern::ProductRm(Product::Div)),
    row!(opcode: 0xF6, sizes: Byte, repeats: Neither, modrm: Only(7), immediate: Nothing => Pattern::ProductRm(Product::Idiv)),
    row!(opcode: 0xF7, sizes: Variable, repeats: Neither, modrm: Only(0), immediate: Variable => Pattern::TestRmImmediate),
    row!(opcode: 0xF7, sizes: Variable, repeats: Neither, modrm: Only(2), immediate: Nothing => Pattern::UnaryRm(Unary::Not)),
    row!(opcode: 0xF7, sizes: Variable, repeats: Neither, modrm: Only(3), immediate: Nothing => Pattern::UnaryRm(Unary::Neg)),
    row!(opcode: 0xF7, sizes: Variable, repeats: Neither, modrm: Only(4), immediate: Nothing => Pattern::ProductRm(Product::Mul)),
    row!(opcode: 0xF7, sizes: Variable, repeats: Neither, modrm: Only(5), immediate: Nothing => Pattern::ProductRm(Product::Imul)),
    row!(opcode: 0xF7, sizes: Variable, repeats: Neither, modrm: Only(6), immediate: Nothing => Pattern::ProductRm(Product::Div)),
    row!(opcode: 0xF7, sizes: Variable, repeats: Neither, modrm: Only(7), immediate: Nothing => Pattern::ProductRm(Product::Idiv)),
    row!(opcode: 0xFE, sizes: Byte, repeats: Neither, modrm: Only(0), immediate: Nothing => Pattern::UnaryRm(Unary::Inc)),
    row!(opcode: 0xFE, sizes: Byte, repeats: Neither, modrm: Only(1), immediate: Nothing => Pattern::UnaryRm(Unary::Dec)),
    row!(opcode: 0xFF, sizes: Variable, repeats: Neither, modrm: Only(0), immediate: Nothing => Pattern::UnaryRm(Unary::Inc)),
    row!(opcode: 0xFF, sizes: Variable, repeats: Neither, modrm: Only(1), immediate: Nothing => Pattern::UnaryRm(Unary::Dec)),
    row!(opcode: 0xFF, sizes: Dword, repeats: Neither, modrm: Only(2), immediate: Nothing => Pattern::CallRm),
    row!(opcode: 0xFF, sizes: Dword, repeats: Neither, modrm: Only(4), immediate: Nothing => Pattern::JumpRm),
    row!(opcode: 0xFF, sizes: Dword, repeats: Neither, modrm: Only(6), immediate: Nothing => Pattern::PushRm),
    row!(opcodes: 16 from 0x0F 0x90 by 1, sizes: Byte, repeats: Neither, modrm: Any, immediate: Nothing => Pattern::SetCondition),
    row!(opcode: 0x0F 0xAF, sizes: Variable, repeats: Neither, modrm: Any, immediate: Nothing => Pattern::MultiplyRegRm),
    row!(opcode: 0x0F 0xB6, sizes: Variable, repeats: Neither, modrm: Any, immediate: Nothing => Pattern::ZeroExtendByte),
    row!(opcode: 0x0F 0xB7, sizes: Dword, repeats: Neither, modrm: Any, immediate: Nothing => Pattern::ZeroExtendWord),
    row!(opcode: 0x0F 0xBE, sizes: Variable, repeats: Neither, modrm: Any, immediate: Nothing => Pattern::SignExtendByte),
    row!(opcode: 0x0F 0xBF, sizes: Dword, repeats: Neither, modrm: Any, immediate: Nothing => Pattern::SignExtendWord),
    row!(opcode: 0x0F 0xBA, sizes: Dword, repeats: Neither, modrm: Only(4), immediate: Byte => Pattern::BitTestRmImmediate(BitTest::Bt)),
    row!(opcode: 0x0F 0xBA, sizes: Dword, repeats: Neither, modrm: Only(5), immediate: Byte => Pattern::BitTestRmImmediate(BitTest::Bts)),
    row!(opcode: 0x0F 0xBA, sizes: Dword, repeats: Neither, modrm: Only(6), immediate: Byte => Pattern::BitTestRmImmediate(BitTest::Btr)),
    row!(opcode: 0x0F 0xBA, sizes: Dword, repeats: Neither, modrm: Only(7), immediate: Byte => Pattern::BitTestRmImmediate(BitTest::Btc)),
    row!(opcode: 0x0F 0xA3, sizes: Dword, repeats: Neither, modrm: AnyRegister, immediate: Nothing => Pattern::BitTestRmReg(BitTest::Bt)),
    row!(opcode: 0x0F 0xAB, sizes: Dword, repeats: Neither, modrm: AnyRegister, immediate: Nothing => Pattern::BitTestRmReg(BitTest::Bts)),
    row!(opcode: 0x0F 0xB3, sizes: Dword, repeats: Neither, modrm: AnyRegister, immediate: Nothing => Pattern::BitTestRmReg(BitTest::Btr)),
    row!(opcode: 0x0F 0xBB, sizes: Dword, repeats: Neither, modrm: AnyRegister, immediate: Nothing => Pattern::BitTestRmReg(BitTest::Btc)),
    row!(opcode: 0x0F 0xBC, sizes: Dword, repeats: Neither, modrm: Any, immediate: Nothing => Pattern::BitScanRegRm(BitScan::Bsf)),
    row!(opcode: 0x0F 0xBD, sizes: Dword, repeats: Neither, modrm: Any, immediate: Nothing => Pattern::BitScanRegRm(BitScan::Bsr)),
    row!(opcode: 0x0F 0xA4, sizes: Dword, repeats: Neither, modrm: Any, immediate: Byte => Pattern::DoubleShiftRmReg(DoubleShift::Shld, CountColumn::Immediate)),
    row!(opcode: 0x0F 0xA5, sizes: Dword, repeats: Neither, modrm: Any, immediate: Nothing => Pattern::DoubleShiftRmReg(DoubleShift::Shld, CountColumn::Cl)),
    row!(opcode: 0x0F 0xAC, sizes: Dword, repeats: Neither, modrm: Any, immediate: Byte => Pattern::DoubleShiftRmReg(DoubleShift::Shrd, CountColumn::Immediate)),
    row!(opcode: 0x0F 0xAD, sizes: Dword, repeats: Neither, modrm: Any, immediate: Nothing => Pattern::DoubleShiftRmReg(DoubleShift::Shrd, CountColumn::Cl)),
];

/// The place of the first row of each opcode, sixteen in a line. Of an opcode without a row it says nothing.
static FIRSTS: [u8; 256] = [
    0x00, 0x01, 0x02, 0x03, 0x04, 0x05, 0x00, 0x00, 0x00, 0x01, 0x02, 0x03, 0x04, 0x05, 0x00, 0x00,
    0x00, 0x01, 0x02, 0x03, 0x04, 0x05, 0x00, 0x00, 0x00, 0x01, 0x02, 0x03, 0x04, 0x05, 0x00, 0x00,
    0x00, 0x01, 0x02, 0x03, 0x04, 0x05, 0x00, 0x00, 0x00, 0x01, 0x02, 0x03, 0x04, 0x05, 0x00, 0x00,
    0x00, 0x01, 0x02, 0x03, 0x04, 0x05, 0x00, 0x00, 0x00, 0x01, 0x02, 0x03, 0x04, 0x05, 0x00, 0x00,
    0x09, 0x09, 0x09, 0x09, 0x09, 0x09, 0x09, 0x09, 0x0A, 0x0A, 0x0A, 0x0A, 0x0A, 0x0A, 0x0A, 0x0A,
    0x0B, 0x0B, 0x0B, 0x0B, 0x0B, 0x0B, 0x0B, 0x0B, 0x0C, 0x0C, 0x0C, 0x0C, 0x0C, 0x0C, 0x0C, 0x0C,
    0x0D, 0x0E, 0x00, 0x00, 0x00, 0x00, 0x00, 0x00, 0x0F, 0x11, 0x10, 0x12, 0x00, 0x00, 0x00, 0x00,
    0x13, 0x13, 0x13, 0x13, 0x13, 0x13, 0x13, 0x13, 0x13, 0x13, 0x13, 0x13, 0x13, 0x13, 0x13, 0x13,
    0x06, 0x07, 0x00, 0x08, 0x15, 0x16, 0x19, 0x1A, 0x1C, 0x1D, 0x1E, 0x1F, 0x00, 0x20, 0x00, 0x00,
    0x21, 0x1B, 0x1B, 0x1B, 0x1B, 0x1B, 0x1B, 0x1B, 0x22, 0x23, 0x00, 0x00, 0x24, 0x25, 0x26, 0x27,
    0x28, 0x29, 0x2A, 0x2B, 0x2C, 0x2D, 0x2E, 0x2F, 0x17, 0x18, 0x30, 0x31, 0x32, 0x33, 0x34, 0x35,
    0x36, 0x36, 0x36, 0x36, 0x36, 0x36, 0x36, 0x36, 0x37, 0x37, 0x37, 0x37, 0x37, 0x37, 0x37, 0x37,
    0x3A, 0x3F, 0x58, 0x59, 0x00, 0x00, 0x38, 0x39, 0x00, 0x5A, 0x00, 0x00, 0x5B, 0x5C, 0x5D, 0x00,
    0x44, 0x49, 0x4E, 0x53, 0x00, 0x00, 0x00, 0x00, 0x00, 0x00, 0x00, 0x00, 0x00, 0x00, 0x00, 0x00,
    0x5E, 0x5F, 0x60, 0x61, 0x65, 0x66, 0x67, 0x68, 0x62, 0x63, 0x00, 0x64, 0x69, 0x6A, 0x6B, 0x6C,
    0x00, 0x00, 0x00, 0x00, 0x6D, 0x70, 0x75, 0x7C, 0x71, 0x72, 0x6E, 0x6F, 0x73, 0x74, 0x83, 0x85,
];

/// How many rows each opcode has.
static COUNTS: [u8; 256] = [
    1, 1, 1, 1, 1, 1, 0, 0, 1, 1, 1, 1, 1, 1, 0, 0, 1, 1, 1, 1, 1, 1, 0, 0, 1, 1, 1, 1, 1, 1, 0, 0,
    1, 1, 1, 1, 1, 1, 0, 0, 1, 1, 1, 1, 1, 1, 0, 0, 1, 1, 1, 1, 1, 1, 0, 0, 1, 1, 1, 1, 1, 1, 0, 0,
    1, 1, 1, 1, 1, 1, 1, 1, 1, 1, 1, 1, 1, 1, 1, 1, 1, 1, 1, 1, 1, 1, 1, 1, 1, 1, 1, 1, 1, 1, 1, 1,
    1, 1, 0, 0, 0, 0, 0, 0, 1, 1, 1, 1, 0, 0, 0, 0, 1, 1, 1, 1, 1, 1, 1, 1, 1, 1, 1, 1, 1, 1, 1, 1,
    1, 1, 0, 1, 1, 1, 1, 1, 1, 1, 1, 1, 0, 1, 0, 0, 1, 1, 1, 1, 1, 1, 1, 1, 1, 1, 0, 0, 1, 1, 1, 1,
    1, 1, 1, 1, 1, 1, 1, 1, 1, 1, 1, 1, 1, 1, 1, 1, 1, 1, 1, 1, 1, 1, 1, 1, 1, 1, 1, 1, 1, 1, 1, 1,
    5, 5, 1, 1, 0, 0, 1, 1, 0, 1, 0, 0, 1, 1, 1, 0, 5, 5, 5, 5, 0, 0, 0, 0, 0, 0, 0, 0, 0, 0, 0, 0,
    1, 1, 1, 1, 1, 1, 1, 1, 1, 1, 0, 1, 1, 1, 1, 1, 0, 0, 0, 0, 1, 1, 7, 7, 1, 1, 1, 1, 1, 1, 2, 5,
];

/// The place of the first row of each opcode after 0F, from 80 to BF. No other has one.
static ESCAPED_FIRSTS: [u8; 64] = [
    0x14, 0x14, 0x14, 0x14, 0x14, 0x14, 0x14, 0x14, 0x14, 0x14, 0x14, 0x14, 0x14, 0x14, 0x14, 0x14,
    0x8A, 0x8A, 0x8A, 0x8A, 0x8A, 0x8A, 0x8A, 0x8A, 0x8A, 0x8A, 0x8A, 0x8A, 0x8A, 0x8A, 0x8A, 0x8A,
    0x00, 0x00, 0x00, 0x94, 0x9A, 0x9B, 0x00, 0x00, 0x00, 0x00, 0x00, 0x95, 0x9C, 0x9D, 0x00, 0x8B,
    0x00, 0x00, 0x00, 0x96, 0x00, 0x00, 0x8C, 0x8D, 0x00, 0x00, 0x90, 0x97, 0x98, 0x99, 0x8E, 0x8F,
];

/// How many rows each of these has.
static ESCAPED_COUNTS: [u8; 64] = [
    1, 1, 1, 1, 1, 1, 1, 1, 1, 1, 1, 1, 1, 1, 1, 1, 1, 1, 1, 1, 1, 1, 1, 1, 1, 1, 1, 1, 1, 1, 1, 1,
    0, 0, 0, 1, 1, 1, 0, 0, 0, 0, 0, 1, 1, 1, 0, 1, 0, 0, 0, 1, 0, 0, 1, 1, 0, 0, 4, 1, 1, 1, 1, 1,
];

/// So many rows from a place on.
#[inline(always)]
fn rows_from(first: u8, count: u8) -> &'static [Row]
    requires { first + count ≤ 158 }
    ensures { result.now ≡ take count (drop first rows) }
{
    let first = first as usize;
    &ROWS[first..first + count as usize]
}

/// The rows that have an opcode which isn't after 0F.
#[inline(always)]
fn plain_rows(opcode: u8) -> &'static [Row]
    ensures { result.now ≡ rows_of false opcode }
{
    let place = opcode as usize;
    rows_from(FIRSTS[place], COUNTS[place])
}

/// The rows that have an opcode after 0F.
#[inline(always)]
fn escaped_rows(opcode: u8) -> &'static [Row]
    ensures { result.now ≡ rows_of true opcode }
{
    if opcode < 0x80 {
        return &[];
    }
    let place = opcode as usize - 0x80;
    if place >= ESCAPED_FIRSTS.len() {
        return &[];
    }
    rows_from(ESCAPED_FIRSTS[place], ESCAPED_COUNTS[place])
}

/// The rows that have an opcode.
#[inline(always)]
pub fn rows_with(map: OpcodeMap, opcode: u8) -> &'static [Row]
    ensures { result.now ≡ rows_of (is_escaped map) opcode }
{
    match map {
        OpcodeMap::OneByte => plain_rows(opcode),
        OpcodeMap::TwoByte => escaped_rows(opcode),
    }
}
