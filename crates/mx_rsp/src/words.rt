//! The words of requests: those that are a whole request, and those that arguments follow.

ghost use Rattle.std.specs.Prelude.{◌≡◌, find, option_copied};
ghost use Rattle.std.specs.Str.{bytes_eq};
ghost use Rattle.mx_rsp.specs.Words.{begins, verb_of, verb_text, word_of, word_text};

use crate::fields::after;

/// A request that is one word.
#[derive(Clone, Copy, Debug, PartialEq, Eq)]
pub enum Word {
    /// Why the last move halted.
    WhyHalted,
    /// All registers.
    Registers,
    /// That no packet is acknowledged from now on.
    NoAcks,
    /// The first part of the list of threads.
    Threads,
    /// The next part of it.
    MoreThreads,
    /// The thread that is read.
    Current,
    /// Whether the process was there before gdb.
    IsAttached,
    /// Which actions `vCont` has.
    Actions,
    /// One step back.
    StepBack,
    /// Back until something halts.
    ContinueBack,
    /// That gdb leaves.
    Detach,
    /// The end.
    End,
}

/// All of them.
const WORDS: [Word; 12] = [
    Word::WhyHalted,
    Word::Registers,
    Word::NoAcks,
    Word::Threads,
    Word::MoreThreads,
    Word::Current,
    Word::IsAttached,
    Word::Actions,
    Word::StepBack,
    Word::ContinueBack,
    Word::Detach,
    Word::End,
];

impl Word {
    /// Its text.
    pub fn text(self) -> &'static [u8]
        ensures { result.now ≡ word_text self }
    {
        match self {
            Word::WhyHalted => b"?",
            Word::Registers => b"g",
            Word::NoAcks => b"QStartNoAckMode",
            Word::Threads => b"qfThreadInfo",
            Word::MoreThreads => b"qsThreadInfo",
            Word::Current => b"qC",
            Word::IsAttached => b"qAttached",
            Word::Actions => b"vCont?",
            Word::StepBack => b"bs",
            Word::ContinueBack => b"bc",
            Word::Detach => b"D",
            Word::End => b"k",
        }
    }
}

/// The first of these words whose text this is.
fn first_word<'a>(words: &'a [Word], text: &[u8]) -> Option<&'a Word>
    ensures { option_copied result ≡ find (λ w. bytes_eq text.now (word_text w)) words.now }
{
    words.iter().find(|word| text == word.text())
}

/// The word that a text is.
pub(crate) fn word_of(text: &[u8]) -> Option<Word>
    ensures { result ≡ word_of text.now }
{
    first_word(&WORDS, text).copied()
}

/// What begins a request that has arguments.
#[derive(Clone, Copy)]
pub(crate) enum Verb {
    Supported,
    AttachedTo,
    ThreadText,
    Description,
    File,
    Resume,
    ForReading,
    ForGoing,
    IsAlive,
    Register,
    Memory,
    BreakSoft,
    BreakHard,
    Watch,
    UnbreakSoft,
    UnbreakHard,
    Unwatch,
    DetachFrom,
    WriteMemory,
    WriteBytes,
    WriteRegisters,
    WriteRegister,
}

/// All of them.
const VERBS: [Verb; 22] = [
    Verb::Supported,
    Verb::AttachedTo,
    Verb::ThreadText,
    Verb::Description,
    Verb::File,
    Verb::Resume,
    Verb::ForReading,
    Verb::ForGoing,
    Verb::IsAlive,
    Verb::Register,
    Verb::Memory,
    Verb::BreakSoft,
    Verb::BreakHard,
    Verb::Watch,
    Verb::UnbreakSoft,
    Verb::UnbreakHard,
    Verb::Unwatch,
    Verb::DetachFrom,
    Verb::WriteMemory,
    Verb::WriteBytes,
    Verb::WriteRegisters,
    Verb::WriteRegister,
];

impl Verb {
    /// Its text.
    pub(crate) fn text(self) -> &'static [u8]
        ensures { result.now ≡ verb_text self }
    {
        match self {
            Verb::Supported => b"qSupported",
            Verb::AttachedTo => b"qAttached:",
            Verb::ThreadText => b"qThreadExtraInfo,",
            Verb::Description => b"qXfer:features:read:target.xml:",
            Verb::File => b"qXfer:exec-file:read:",
            Verb::Resume => b"vCont;",
            Verb::ForReading => b"Hg",
            Verb::ForGoing => b"Hc",
            Verb::IsAlive => b"T",
            Verb::Register => b"p",
            Verb::Memory => b"m",
            Verb::BreakSoft => b"Z0,",
            Verb::BreakHard => b"Z1,",
            Verb::Watch => b"Z2,",
            Verb::UnbreakSoft => b"z0,",
            Verb::UnbreakHard => b"z1,",
            Verb::Unwatch => b"z2,",
            Verb::DetachFrom => b"D;",
            Verb::WriteMemory => b"M",
            Verb::WriteBytes => b"X",
            Verb::WriteRegisters => b"G",
            Verb::WriteRegister => b"P",
        }
    }

    /// Whether a text begins with it.
    fn begins(self, text: &[u8]) -> bool
        ensures { result ≡ begins text.now self }
    {
        after(self.text(), text).is_some()
    }
}

/// The first of these verbs that a text begins with.
fn first_verb<'a>(verbs: &'a [Verb], text: &[u8]) -> Option<&'a Verb>
    ensures { option_copied result ≡ find (begins text.now) verbs.now }
{
    verbs.iter().find(|verb| verb.begins(text))
}

/// The verb that a text begins with.
pub(crate) fn verb_of(text: &[u8]) -> Option<Verb>
    ensures { result ≡ verb_of text.now }
{
    first_verb(&VERBS, text).copied()
}
