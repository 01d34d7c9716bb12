//! Texts with known bytes. `checks/model/rows` has those with a fault.

use mx_aout::Program;
use mx_asm::{AsmError, Fault, Problem, assemble};
use std::alloc::Global;
use std::test::Fail;

/// A text, and the bytes of its program's text.
struct Spelling {
    text: &'static str,
    bytes: &'static [u8],
}

static SPELLINGS: &[Spelling] = &[
    Spelling {
        text: "mov eax, [ebp]",
        bytes: b"\x8B\x45\x00",
    },
    Spelling {
        text: "mov eax, [esp]",
        bytes: b"\x8B\x04\x24",
    },
    Spelling {
        text: "mov eax, [esi*4+8]",
        bytes: b"\x8B\x04\xB5\x08\x00\x00\x00",
    },
    Spelling {
        text: "add eax, 128",
        bytes: b"\x81\xC0\x80\x00\x00\x00",
    },
    Spelling {
        text: "add eax, -128",
        bytes: b"\x83\xC0\x80",
    },
    Spelling {
        text: "add ax, 0xffff",
        bytes: b"\x66\x83\xC0\xFF",
    },
    Spelling {
        text: "xchg eax, ecx",
        bytes: b"\x87\xC8",
    },
    Spelling {
        text: "test al, 1",
        bytes: b"\xF6\xC0\x01",
    },
    Spelling {
        text: "l: jmp l",
        bytes: b"\xE9\xFB\xFF\xFF\xFF",
    },
    Spelling {
        text: "l: jmp short l",
        bytes: b"\xEB\xFE",
    },
    Spelling {
        text: "l: add eax, l",
        bytes: b"\x81\xC0\x00\x00\x00\x00",
    },
    Spelling {
        text: ".data2 0x102, -1\n.ascii \"a\\n\"",
        bytes: b"\x02\x01\xFF\xFFa\n",
    },
    Spelling {
        text: ".ascii \"\u{e9}\u{1F600}\"",
        bytes: b"\xC3\xA9\xF0\x9F\x98\x80",
    },
    Spelling {
        text: "nop ; \u{e9}\u{1F600}\0\x7F",
        bytes: b"\x90",
    },
    Spelling {
        text: ".sep\n.text\nstart: mov eax, 5\nadd eax, 0x7b\nloop start\nint 33\n",
        bytes: b"\xB8\x05\x00\x00\x00\x83\xC0\x7B\xE2\xF6\xCD\x21",
    },
];

fn is_spelled(alloc: Global, row: &Spelling) -> bool {
    match assemble(alloc, row.text) {
        Ok(program) => program.text.as_slice() == row.bytes,
        Err(_) => false,
    }
}

#[test]
fn spellings(rt: HostRuntime) {
    for row in SPELLINGS {
        let text = row.text;
        assert!(rt; is_spelled(rt.alloc(), row), "text: {text}");
    }
}

/// The error of a problem on a line.
fn at(problem: Problem, line: usize) -> Option<AsmError> {
    Some(AsmError::At(Fault { problem, line }))
}

fn is_whole(program: &Program) -> bool {
    let is_symbol = match program.symbols.as_slice() {
        [_, _, symbol] => symbol.class == 4 && symbol.value == 9,
        _ => false,
    };
    is_symbol
        && (program.entry, program.total, program.bss, program.sep) == (1, 4096, 9, false)
        && program.init.as_slice() == b"\x00\x00\x00\x00\x08\x00\x00\x00".as_slice()
}

fn is_assembled(alloc: Global) -> bool {
    let text = ".entry b\n.stack 0\na: nop\n.data\nb: .data4 a, c-1\n.bss\nc: .space 9\n";
    match assemble(alloc, text) {
        Ok(program) => is_whole(&program),
        Err(_) => false,
    }
}

/// A label, and 1,900 times these lines, whose jumps go back to it.
fn long_text(alloc: Global) -> Result<String, Fail> {
    let mut text = String::from_str(alloc, "l: \n")?;
    for _ in 0..1_900 {
        text.push_str("jmp short l ; 16\n.space 0   ;    32\n")?;
    }
    Ok(text)
}

/// LOOP over 127 bytes.
fn is_far_loop(alloc: Global) -> bool {
    match assemble(alloc, "loop l\n.space 127\nl:") {
        Ok(program) => program.text.as_slice().starts_with(b"\xE2\x7F"),
        Err(_) => false,
    }
}

#[test]
fn whole_texts(rt: HostRuntime) -> Result<(), Fail> {
    assert!(rt; is_assembled(rt.alloc()));
    assert!(rt; is_far_loop(rt.alloc()));
    let text = long_text(rt.alloc())?;
    let fault = assemble(rt.alloc(), text.as_str()).err();
    assert!(rt; text.len() > 65_535 && fault == at(Problem::TooFar, 130));
    Ok(())
}
