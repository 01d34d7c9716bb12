//! Mnemonics of instructions, as the assembler and the listing have them, and the words of those that hold neither a
//! condition nor a size. Their rows are read and printed by.

ghost use Rattle.std.specs.Prelude.{◌≡◌, false, MatchOption};
ghost use Rattle.mx_insn_words.specs.Words.{is_early, word_of};

use crate::sorted_words::Named;
use crate::start::{WordStart, other_word};
use mx_insn::{Comparison, Loop, Plain, Product, Transfer};
use mx_word::{Arithmetic, BitScan, BitTest, Condition, DoubleShift, Shift, Size, Unary};

/// Mnemonics that are the only ones of their kind.
#[derive(Clone, Copy, PartialEq, Eq)]
pub enum Single {
    Mov,
    Test,
    Xchg,
    Lea,
    Movzx,
    Movsx,
    Push,
    Pop,
    Jmp,
    Call,
    Ret,
    Int,
    Cbw,
    Cwde,
    Cwd,
    Cdq,
    In,
    Out,
}

/// What an instruction is called. Conditions and the sizes of strings are part of the word.
#[derive(Clone, Copy, PartialEq, Eq)]
pub enum Mnemonic {
    Arithmetic(Arithmetic),
    Unary(Unary),
    Product(Product),
    Shift(Shift),
    DoubleShift(DoubleShift),
    BitTest(BitTest),
    BitScan(BitScan),
    Loop(Loop),
    Plain(Plain),
    Single(Single),
    JumpIf(Condition),
    SetCondition(Condition),
    Transfer(Transfer, Size),
    Compare(Comparison, Size),
}

/// The operations whose words begin with a letter before l, byte for byte in order. Two matches of half the rows take
/// half the time to prove.
macro_rules! early_operations {
    ($then:ident $($more:tt)*) => {
        $then! {
            $($more)*
            "adc" => Arithmetic(Arithmetic::Adc),
            "add" => Arithmetic(Arithmetic::Add),
            "and" => Arithmetic(Arithmetic::And),
            "bsf" => BitScan(BitScan::Bsf),
            "bsr" => BitScan(BitScan::Bsr),
            "bt" => BitTest(BitTest::Bt),
            "btc" => BitTest(BitTest::Btc),
            "btr" => BitTest(BitTest::Btr),
            "bts" => BitTest(BitTest::Bts),
            "call" => Single(Single::Call),
            "cbw" => Single(Single::Cbw),
            "cdq" => Single(Single::Cdq),
            "clc" => Plain(Plain::Clc),
            "cld" => Plain(Plain::Cld),
            "cli" => Plain(Plain::Cli),
            "cmc" => Plain(Plain::Cmc),
            "cmp" => Arithmetic(Arithmetic::Cmp),
            "cwd" => Single(Single::Cwd),
            "cwde" => Single(Single::Cwde),
            "dec" => Unary(Unary::Dec),
            "div" => Product(Product::Div),
            "hlt" => Plain(Plain::Hlt),
            "idiv" => Product(Product::Idiv),
            "imul" => Product(Product::Imul),
            "in" => Single(Single::In),
            "inc" => Unary(Unary::Inc),
            "int" => Single(Single::Int),
            "int3" => Plain(Plain::Int3),
            "into" => Plain(Plain::Into),
            "jecxz" => Loop(Loop::Jecxz),
            "jmp" => Single(Single::Jmp),
        }
    };
}

/// The others.
macro_rules! late_operations {
    ($then:ident $($more:tt)*) => {
        $then! {
            $($more)*
            "lahf" => Plain(Plain::Lahf),
            "lea" => Single(Single::Lea),
            "leave" => Plain(Plain::Leave),
            "loop" => Loop(Loop::Loop),
            "loope" => Loop(Loop::Loope),
            "loopne" => Loop(Loop::Loopne),
            "mov" => Single(Single::Mov),
            "movsx" => Single(Single::Movsx),
            "movzx" => Single(Single::Movzx),
            "mul" => Product(Product::Mul),
            "neg" => Unary(Unary::Neg),
            "nop" => Plain(Plain::Nop),
            "not" => Unary(Unary::Not),
            "or" => Arithmetic(Arithmetic::Or),
            "out" => Single(Single::Out),
            "pop" => Single(Single::Pop),
            "popad" => Plain(Plain::Popad),
            "popfd" => Plain(Plain::Popfd),
            "push" => Single(Single::Push),
            "pushad" => Plain(Plain::Pushad),
            "pushfd" => Plain(Plain::Pushfd),
            "ret" => Single(Single::Ret),
            "rol" => Shift(Shift::Rol),
            "ror" => Shift(Shift::Ror),
            "sahf" => Plain(Plain::Sahf),
            "sar" => Shift(Shift::Sar),
            "sbb" => Arithmetic(Arithmetic::Sbb),
            "shl" => Shift(Shift::Shl),
            "shld" => DoubleShift(DoubleShift::Shld),
            "shr" => Shift(Shift::Shr),
            "shrd" => DoubleShift(DoubleShift::Shrd),
            "stc" => Plain(Plain::Stc),
            "std" => Plain(Plain::Std),
            "sti" => Plain(Plain::Sti),
            "sub" => Arithmetic(Arithmetic::Sub),
            "test" => Single(Single::Test),
            "xchg" => Single(Single::Xchg),
            "xor" => Arithmetic(Arithmetic::Xor),
        }
    };
}

macro_rules! starts {
    ($($word:literal => $kind:ident $operation:tt,)*) => {
        [$(WordStart::Mnemonic(Mnemonic::$kind $operation),)*]
    };
}

macro_rules! table {
    ($($word:literal => $kind:ident $operation:tt,)*) => {
        [$(Named {
            word: $word,
            value: WordStart::Mnemonic(Mnemonic::$kind $operation),
        },)*]
    };
}

macro_rules! early_word_in {
    ($mnemonic:ident $($word:literal => $kind:ident $operation:tt,)*) => {
        match $mnemonic {
            $(Mnemonic::$kind $operation => Some($word),)*
            _ => None,
        }
    };
}

macro_rules! late_word_in {
    ($mnemonic:ident $($word:literal => $kind:ident $operation:tt,)*) => {
        match $mnemonic {
            $(Mnemonic::$kind $operation => $word,)*
            Mnemonic::JumpIf(_)
            | Mnemonic::SetCondition(_)
            | Mnemonic::Transfer(_, _)
            | Mnemonic::Compare(_, _) => other_word(WordStart::Mnemonic($mnemonic)),
            _ => unreachable!(),
        }
    };
}

/// The operations: mnemonics whose words hold neither a condition nor a size.
const OPERATION_STARTS: &[WordStart] = &early_operations!(late_operations starts);

const OPERATION_COUNT: usize = OPERATION_STARTS.len();

/// The operations, each with its word.
pub static OPERATIONS: [Named<WordStart>; OPERATION_COUNT] =
    early_operations!(late_operations table);

/// The word of an early operation, if it is one.
fn early_word(mnemonic: Mnemonic) -> Option<&'static str>
    ensures { MatchOption result (is_early mnemonic ≡ false)
        (λ word. word.now ≡ word_of mnemonic) }
{
    early_operations!(early_word_in mnemonic)
}

/// The word of any other mnemonic.
fn late_word(mnemonic: Mnemonic) -> &'static str
    requires { is_early mnemonic ≡ false }
    ensures { result.now ≡ word_of mnemonic }
{
    late_operations!(late_word_in mnemonic)
}

/// The word of a mnemonic.
pub fn word(mnemonic: Mnemonic) -> &'static str
    ensures { result.now ≡ word_of mnemonic }
{
    match early_word(mnemonic) {
        Some(word) => word,
        None => late_word(mnemonic),
    }
}
