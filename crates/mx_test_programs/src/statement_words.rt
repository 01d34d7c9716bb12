//! Words that may begin a statement of the assembler.

use mx_insn::{Loop, Transfer};
use mx_insn_words::{
    Directive, Mnemonic, Prefix, Single, WordStart, register_named, size_named, start_named,
};
use mx_word::{Condition, Register, Size};

/// A word, and what a statement begins with it, if anything.
struct Row {
    word: &'static str,
    start: Option<WordStart>,
}

static STARTS: &[Row] = &[
    Row {
        word: "mov",
        start: Some(WordStart::Mnemonic(Mnemonic::Single(Single::Mov))),
    },
    Row {
        word: "setbe",
        start: Some(WordStart::Mnemonic(Mnemonic::SetCondition(Condition::BelowOrEqual))),
    },
    Row {
        word: "loopne",
        start: Some(WordStart::Mnemonic(Mnemonic::Loop(Loop::Loopne))),
    },
    Row {
        word: "stosw",
        start: Some(WordStart::Mnemonic(Mnemonic::Transfer(Transfer::Stos, Size::Word))),
    },
    Row {
        word: "repne",
        start: Some(WordStart::Repeat(Prefix::Repne)),
    },
    Row {
        word: ".data4",
        start: Some(WordStart::Directive(Directive::Data4)),
    },
    Row {
        word: "jne",
        start: None,
    },
    Row {
        word: "movsx8",
        start: None,
    },
    Row {
        word: "MOV",
        start: None,
    },
    Row {
        word: "short",
        start: None,
    },
    Row {
        word: ".word",
        start: None,
    },
    Row {
        word: "",
        start: None,
    },
];

#[test]
fn words(rt: HostRuntime) {
    for row in STARTS {
        let word = row.word;
        assert!(rt; start_named(word.as_bytes()) == row.start, "word: {word}");
    }
    assert!(rt; register_named(b"bh") == Some((Size::Byte, Register::Edi)));
    assert!(rt; size_named(b"dword") == Some(Size::Dword));
}
