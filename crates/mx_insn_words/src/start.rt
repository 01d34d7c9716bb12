//! The words that begin a statement: mnemonics, prefixes and directives.

ghost use Rattle.std.specs.Prelude.{◌≡◌, ◌≢◌, true, false, MatchOption};
ghost use Rattle.mx_insn_words.specs.declared.mnemonic.Mnemonic.{Mnemonic};
ghost use Rattle.mx_insn_words.specs.declared.start.WordStart.{WordStart};
ghost use Rattle.mx_insn_words.specs.Words.{begins_early, is_operation, start_word, word_of};

use crate::mnemonic::{Mnemonic, OPERATIONS};
use crate::sorted_words::{Named, find_word};
use mx_insn::{Comparison, Transfer};
use mx_word::{Condition, Size};

/// What may come before a string instruction.
#[derive(Clone, Copy, PartialEq, Eq)]
pub enum Prefix {
    Rep,
    Repe,
    Repne,
}

/// What begins with a dot.
#[derive(Clone, Copy, PartialEq, Eq)]
pub enum Directive {
    Text,
    Data,
    Bss,
    Data1,
    Data2,
    Data4,
    Ascii,
    Space,
    Sep,
    Entry,
    Stack,
}

/// What a statement begins with.
#[derive(Clone, Copy, PartialEq, Eq)]
pub enum WordStart {
    Mnemonic(Mnemonic),
    Repeat(Prefix),
    Directive(Directive),
}

/// All else that begins a statement with a dot or a letter before l, byte for byte in order.
macro_rules! early_starts {
    ($then:ident $($more:tt)*) => {
        $then! {
            $($more)*
            ".ascii" => Directive(Directive::Ascii),
            ".bss" => Directive(Directive::Bss),
            ".data" => Directive(Directive::Data),
            ".data1" => Directive(Directive::Data1),
            ".data2" => Directive(Directive::Data2),
            ".data4" => Directive(Directive::Data4),
            ".entry" => Directive(Directive::Entry),
            ".sep" => Directive(Directive::Sep),
            ".space" => Directive(Directive::Space),
            ".stack" => Directive(Directive::Stack),
            ".text" => Directive(Directive::Text),
            "cmpsb" => Mnemonic(Mnemonic::Compare(Comparison::Cmps, Size::Byte)),
            "cmpsd" => Mnemonic(Mnemonic::Compare(Comparison::Cmps, Size::Dword)),
            "cmpsw" => Mnemonic(Mnemonic::Compare(Comparison::Cmps, Size::Word)),
            "jb" => Mnemonic(Mnemonic::JumpIf(Condition::Below)),
            "jbe" => Mnemonic(Mnemonic::JumpIf(Condition::BelowOrEqual)),
            "jl" => Mnemonic(Mnemonic::JumpIf(Condition::Less)),
            "jle" => Mnemonic(Mnemonic::JumpIf(Condition::LessOrEqual)),
            "jnb" => Mnemonic(Mnemonic::JumpIf(Condition::NotBelow)),
            "jnbe" => Mnemonic(Mnemonic::JumpIf(Condition::NotBelowOrEqual)),
            "jnl" => Mnemonic(Mnemonic::JumpIf(Condition::NotLess)),
            "jnle" => Mnemonic(Mnemonic::JumpIf(Condition::NotLessOrEqual)),
            "jno" => Mnemonic(Mnemonic::JumpIf(Condition::NotOverflow)),
            "jnp" => Mnemonic(Mnemonic::JumpIf(Condition::NotParity)),
            "jns" => Mnemonic(Mnemonic::JumpIf(Condition::NotSign)),
            "jnz" => Mnemonic(Mnemonic::JumpIf(Condition::NotZero)),
            "jo" => Mnemonic(Mnemonic::JumpIf(Condition::Overflow)),
            "jp" => Mnemonic(Mnemonic::JumpIf(Condition::Parity)),
            "js" => Mnemonic(Mnemonic::JumpIf(Condition::Sign)),
            "jz" => Mnemonic(Mnemonic::JumpIf(Condition::Zero)),
        }
    };
}

/// The others.
macro_rules! late_starts {
    ($then:ident $($more:tt)*) => {
        $then! {
            $($more)*
            "lodsb" => Mnemonic(Mnemonic::Transfer(Transfer::Lods, Size::Byte)),
            "lodsd" => Mnemonic(Mnemonic::Transfer(Transfer::Lods, Size::Dword)),
            "lodsw" => Mnemonic(Mnemonic::Transfer(Transfer::Lods, Size::Word)),
            "movsb" => Mnemonic(Mnemonic::Transfer(Transfer::Movs, Size::Byte)),
            "movsd" => Mnemonic(Mnemonic::Transfer(Transfer::Movs, Size::Dword)),
            "movsw" => Mnemonic(Mnemonic::Transfer(Transfer::Movs, Size::Word)),
            "rep" => Repeat(Prefix::Rep),
            "repe" => Repeat(Prefix::Repe),
            "repne" => Repeat(Prefix::Repne),
            "scasb" => Mnemonic(Mnemonic::Compare(Comparison::Scas, Size::Byte)),
            "scasd" => Mnemonic(Mnemonic::Compare(Comparison::Scas, Size::Dword)),
            "scasw" => Mnemonic(Mnemonic::Compare(Comparison::Scas, Size::Word)),
            "setb" => Mnemonic(Mnemonic::SetCondition(Condition::Below)),
            "setbe" => Mnemonic(Mnemonic::SetCondition(Condition::BelowOrEqual)),
            "setl" => Mnemonic(Mnemonic::SetCondition(Condition::Less)),
            "setle" => Mnemonic(Mnemonic::SetCondition(Condition::LessOrEqual)),
            "setnb" => Mnemonic(Mnemonic::SetCondition(Condition::NotBelow)),
            "setnbe" => Mnemonic(Mnemonic::SetCondition(Condition::NotBelowOrEqual)),
            "setnl" => Mnemonic(Mnemonic::SetCondition(Condition::NotLess)),
            "setnle" => Mnemonic(Mnemonic::SetCondition(Condition::NotLessOrEqual)),
            "setno" => Mnemonic(Mnemonic::SetCondition(Condition::NotOverflow)),
            "setnp" => Mnemonic(Mnemonic::SetCondition(Condition::NotParity)),
            "setns" => Mnemonic(Mnemonic::SetCondition(Condition::NotSign)),
            "setnz" => Mnemonic(Mnemonic::SetCondition(Condition::NotZero)),
            "seto" => Mnemonic(Mnemonic::SetCondition(Condition::Overflow)),
            "setp" => Mnemonic(Mnemonic::SetCondition(Condition::Parity)),
            "sets" => Mnemonic(Mnemonic::SetCondition(Condition::Sign)),
            "setz" => Mnemonic(Mnemonic::SetCondition(Condition::Zero)),
            "stosb" => Mnemonic(Mnemonic::Transfer(Transfer::Stos, Size::Byte)),
            "stosd" => Mnemonic(Mnemonic::Transfer(Transfer::Stos, Size::Dword)),
            "stosw" => Mnemonic(Mnemonic::Transfer(Transfer::Stos, Size::Word)),
        }
    };
}

macro_rules! starts {
    ($($word:literal => $kind:ident $value:tt,)*) => {
        [$(WordStart::$kind $value,)*]
    };
}

macro_rules! table {
    ($($word:literal => $kind:ident $value:tt,)*) => {
        [$(Named {
            word: $word,
            value: WordStart::$kind $value,
        },)*]
    };
}

macro_rules! early_word_in {
    ($start:ident $($word:literal => $kind:ident $value:tt,)*) => {
        match $start {
            $(WordStart::$kind $value => Some($word),)*
            _ => None,
        }
    };
}

macro_rules! late_word_in {
    ($start:ident $($word:literal => $kind:ident $value:tt,)*) => {
        match $start {
            $(WordStart::$kind $value => $word,)*
            _ => unreachable!(),
        }
    };
}

const OTHER_STARTS: &[WordStart] = &early_starts!(late_starts starts);

const OTHER_COUNT: usize = OTHER_STARTS.len();

/// What else begins a statement, each with its word.
static OTHERS: [Named<WordStart>; OTHER_COUNT] = early_starts!(late_starts table);

/// The word of what begins a statement and is no operation, if it begins with a dot or a letter before l.
fn early_other(start: WordStart) -> Option<&'static str>
    requires { is_operation start ≡ false }
    ensures { MatchOption result (begins_early (start_word start) ≡ false)
        (λ word. word.now ≡ start_word start) }
{
    early_starts!(early_word_in start)
}

/// The word of any other such start.
fn late_other(start: WordStart) -> &'static str
    requires other { is_operation start ≡ false }
    requires late { begins_early (start_word start) ≡ false }
    ensures { result.now ≡ start_word start }
{
    late_starts!(late_word_in start)
}

/// The word of what begins a statement and is no operation.
pub fn other_word(start: WordStart) -> &'static str
    requires { is_operation start ≡ false }
    ensures { result.now ≡ start_word start }
{
    match early_other(start) {
        Some(word) => word,
        None => late_other(start),
    }
}

/// The operation that a word is.
fn operation_named(word: &[u8]) -> Option<WordStart>
    ensures { MatchOption result ((x : WordStart) → is_operation x ≡ true
        → word.now ≢ start_word x) (λ x. word.now ≡ start_word x) }
{
    find_word(&OPERATIONS, word)
}

/// The prefix or directive of a word that begins a statement.
fn other_named(word: &[u8]) -> Option<WordStart>
    ensures { MatchOption result ((x : WordStart) → is_operation x ≡ false
        → word.now ≢ start_word x) (λ x. word.now ≡ start_word x) }
{
    find_word(&OTHERS, word)
}

/// The meaning of a word that begins a statement.
#[tactic(auto, using(crate::proofs::Inverse::neither))]
pub fn start_named(word: &[u8]) -> Option<WordStart>
    ensures { MatchOption result ((x : WordStart) → word.now ≢ start_word x) (λ x.
        word.now ≡ start_word x) }
{
    match operation_named(word) {
        Some(start) => Some(start),
        None => other_named(word),
    }
}

/// The mnemonic that a word is.
#[tactic(auto, using(crate::proofs::Inverse::no_start, crate::proofs::Inverse::no_repeat, crate::proofs::Inverse::no_directive))]
pub fn mnemonic_named(word: &[u8]) -> Option<Mnemonic>
    ensures { MatchOption result ((m : Mnemonic) → word.now ≢ word_of m) (λ m.
        word.now ≡ word_of m) }
{
    match start_named(word) {
        Some(WordStart::Mnemonic(mnemonic)) => Some(mnemonic),
        Some(WordStart::Repeat(_) | WordStart::Directive(_)) | None => None,
    }
}
