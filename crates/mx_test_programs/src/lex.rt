//! Tokens of a text, and the first offset at fault.

use mx_lex::{LexError, Punctuation, Token, TokenKind, tokens};
use std::test::Fail;

const TEXT: &str = "a: .ascii \"\\n;\" ; b\r\nmov\t[esi*4-0x10], 9";

/// A token of that text: what it is, and where it begins and ends.
struct Row {
    name: &'static str,
    kind: TokenKind,
    start: usize,
    end: usize,
}

static TOKENS: &[Row] = &[
    Row {
        name: "a",
        kind: TokenKind::Word,
        start: 0,
        end: 1,
    },
    Row {
        name: ":",
        kind: TokenKind::Punctuation(Punctuation::Colon),
        start: 1,
        end: 2,
    },
    Row {
        name: ".ascii",
        kind: TokenKind::Word,
        start: 3,
        end: 9,
    },
    Row {
        name: "\"\\n;\"",
        kind: TokenKind::Text,
        start: 10,
        end: 15,
    },
    Row {
        name: "the line feed",
        kind: TokenKind::LineFeed,
        start: 20,
        end: 21,
    },
    Row {
        name: "mov",
        kind: TokenKind::Word,
        start: 21,
        end: 24,
    },
    Row {
        name: "[",
        kind: TokenKind::Punctuation(Punctuation::Open),
        start: 25,
        end: 26,
    },
    Row {
        name: "esi",
        kind: TokenKind::Word,
        start: 26,
        end: 29,
    },
    Row {
        name: "*",
        kind: TokenKind::Punctuation(Punctuation::Star),
        start: 29,
        end: 30,
    },
    Row {
        name: "4",
        kind: TokenKind::Number(4),
        start: 30,
        end: 31,
    },
    Row {
        name: "-",
        kind: TokenKind::Punctuation(Punctuation::Minus),
        start: 31,
        end: 32,
    },
    Row {
        name: "0x10",
        kind: TokenKind::Number(16),
        start: 32,
        end: 36,
    },
    Row {
        name: "]",
        kind: TokenKind::Punctuation(Punctuation::Close),
        start: 36,
        end: 37,
    },
    Row {
        name: ",",
        kind: TokenKind::Punctuation(Punctuation::Comma),
        start: 37,
        end: 38,
    },
    Row {
        name: "9",
        kind: TokenKind::Number(9),
        start: 39,
        end: 40,
    },
];

/// A text that has a fault, and the fault.
struct Faulty {
    text: &'static str,
    error: LexError,
}

static FAULTS: &[Faulty] = &[
    Faulty {
        text: "nop $",
        error: LexError::BadByte(4),
    },
    Faulty {
        text: "a\rb",
        error: LexError::BadByte(1),
    },
    Faulty {
        text: ".ascii \"a\\t\"",
        error: LexError::BadByte(9),
    },
    Faulty {
        text: "nop\nadd eax, 4294967296",
        error: LexError::BadNumber(13),
    },
    Faulty {
        text: "0x",
        error: LexError::BadNumber(0),
    },
    Faulty {
        text: "9a",
        error: LexError::BadNumber(0),
    },
    Faulty {
        text: ".ascii \"ab\nc\"",
        error: LexError::OpenText(10),
    },
];

fn is_token(found: Option<&Token>, row: &Row) -> bool {
    match found {
        Some(token) => {
            token.kind == row.kind && (token.start, token.end) == (row.start, row.end)
        }
        None => false,
    }
}

#[test]
fn tokens_of_texts(rt: HostRuntime) -> Result<(), Fail> {
    let found = tokens(rt.alloc(), TEXT)?;
    for (index, row) in TOKENS.iter().enumerate() {
        let name = row.name;
        assert!(rt; is_token(found.get(index), row), "{name}");
    }
    assert!(rt; found.len() == TOKENS.len());
    Ok(())
}

#[test]
fn faults_of_texts(rt: HostRuntime) {
    for row in FAULTS {
        let text = row.text;
        assert!(rt; tokens(rt.alloc(), text).err() == Some(row.error), "{text}");
    }
}
