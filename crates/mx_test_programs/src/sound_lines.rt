//! Lines of an assembler's text that have no problem. `checks/model/rows` has those that have one.

use mx_asm_statement::{Saying, Section, Statement, read_line, refusal};
use std::alloc::Global;

fn is_taken(alloc: Global, text: &[u8]) -> bool {
    match read_line(alloc, text) {
        Ok(line) => refusal(&line, Section::Text, Saying::First).is_none(),
        Err(_) => false,
    }
}

static LINES: &[&str] = &[
    "",
    "start: mov eax, [ebx+esi*4-8] ; a comment",
    "mov eax, -0x80000000",
    "mov: rep movsd",
    "short: jnz short short",
    "lea ax, [esp+4]",
    ".data2 1, -0x8000, 0xffff",
    ".ascii \"a\\n\"",
    ".text",
];

fn is_ascii(alloc: Global) -> bool {
    match read_line(alloc, b"l: .ascii \"a\\\"b\\n\"") {
        Ok(line) => match &line.statement {
            Some(Statement::Ascii(bytes)) => bytes.as_slice() == b"a\"b\n".as_slice(),
            _ => false,
        },
        Err(_) => false,
    }
}

#[test]
fn lines(rt: HostRuntime) {
    for text in LINES {
        assert!(rt; is_taken(rt.alloc(), text.as_bytes()), "line: {text}");
    }
    assert!(rt; is_ascii(rt.alloc()));
}
