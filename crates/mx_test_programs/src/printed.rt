//! What is printed of an instruction is read again.

use mx_asm_statement::{Branch, Statement, Value, read_line};
use mx_decode::decode;
use mx_encode::{Wide, encode};
use mx_insn::Insn;
use mx_insn_words::push_statement;
use std::alloc::{AllocGlobal, Global};
use std::process::Abort;
use std::string::String;

/// The address of the instruction after the printed one.
const NEXT: u32 = 0x1000;

/// The shortest spelling is asked for.
const SHORTEST: Wide = Wide {
    immediate: false,
    displacement: false,
};

/// What comes before an opcode.
struct Front {
    name: &'static str,
    bytes: &'static [u8],
}

/// What follows an opcode and the byte after it: a SIB byte, if there is one, and numbers.
struct Tail {
    /// What the SIB byte means.
    name: &'static str,
    bytes: &'static [u8],
}

static FRONTS: &[Front] = &[
    Front {
        name: "no prefix",
        bytes: b"",
    },
    Front {
        name: "0F",
        bytes: b"\x0F",
    },
    Front {
        name: "F3 (rep)",
        bytes: b"\xF3",
    },
    Front {
        name: "F2 (repne)",
        bytes: b"\xF2",
    },
];

/// `FRONTS` after 66.
static MARKED_FRONTS: &[Front] = &[
    Front {
        name: "66",
        bytes: b"\x66",
    },
    Front {
        name: "66 0F",
        bytes: b"\x66\x0F",
    },
    Front {
        name: "66 F3 (rep)",
        bytes: b"\x66\xF3",
    },
    Front {
        name: "66 F2 (repne)",
        bytes: b"\x66\xF2",
    },
];

static TAILS: &[Tail] = &[
    Tail {
        name: "a base alone",
        bytes: b"\x24\x12\x34\x56\x78\x9A\xBC\xDE\xF0",
    },
    Tail {
        name: "a base and an index",
        bytes: b"\x8D\xFE\xFF\xFF\xFF\x80\xFF\xFF\xFF",
    },
    Tail {
        name: "an index without a base",
        bytes: b"\xBD\x00\x00\x00\x00\x00\x00\x00\x00",
    },
];

/// The byte after an opcode: each mode with each register, and as the other register EBX, ESP,
/// which means a SIB byte, and EBP.
const SHAPES: u16 = 4 * 8 * 3;

/// Whether two instructions are equal: bytes spell at most one.
fn is_spelled_alike(found: &Insn, wanted: &Insn) -> bool {
    match (encode(found, SHORTEST), encode(wanted, SHORTEST)) {
        (Ok(found), Ok(wanted)) => found.as_slice() == wanted.as_slice(),
        _ => false,
    }
}

/// Whether a branch to a number is this jump.
fn is_branch(branch: Branch, target: &Value, insn: Insn) -> bool {
    let distance = target.number.wrapping_sub(NEXT);
    let found = match branch {
        Branch::Jump { .. } => Insn::Jump(distance),
        Branch::JumpIf { condition, .. } => Insn::JumpIf {
            condition,
            displacement: distance,
        },
        Branch::Call => Insn::Call(distance),
        Branch::Loop(operation) => Insn::Loop {
            operation,
            displacement: distance,
        },
    };
    target.name.is_none() && !target.minus && is_spelled_alike(&found, &insn)
}

/// Whether a line of a text is this instruction, or a jump to its target.
fn says(alloc: Global, text: &str, insn: Insn) -> bool {
    match read_line(alloc, text.as_bytes()) {
        Ok(line) => match &line.statement {
            Some(Statement::Instruction(read)) => {
                is_spelled_alike(&read.insn, &insn)
                    && read.immediate.is_none()
                    && read.displacement.is_none()
            }
            Some(Statement::Branch(branch, target)) => is_branch(*branch, target, insn),
            _ => false,
        },
        Err(_) => false,
    }
}

/// Whether the instruction at the front of bytes, if there is one, is read again as it is printed.
fn is_read_again(alloc: Global, bytes: &[u8]) -> bool {
    match decode(bytes) {
        Ok((insn, _)) => {
            let mut text = String::new(alloc);
            push_statement(&mut text, &insn, NEXT).is_ok() && says(alloc, text.as_str(), insn)
        }
        Err(_) => true,
    }
}

/// The byte after an opcode, by its number.
fn shape(number: u16) -> u8 {
    (number / 24 % 4 * 64 + number / 3 % 8 * 8 + number % 3 + 3) as u8
}

/// The bytes of an instruction, from its parts.
fn bytes_of(alloc: Global, parts: &[&[u8]]) -> Option<Vec<u8>> {
    let mut bytes = Vec::new(alloc);
    for part in parts {
        if bytes.extend_from_slice(*part).is_err() {
            return None;
        }
    }
    Some(bytes)
}

/// The number of the first opcode and shape whose instruction isn't read again.
fn first_lost(alloc: Global, front: &[u8], tail: &[u8]) -> Option<u16> {
    for number in 0..256 * SHAPES {
        let opcode = [(number / SHAPES) as u8, shape(number % SHAPES)];
        let Some(bytes) = bytes_of(alloc, &[front, opcode.as_slice(), tail]) else {
            return Some(number);
        };
        if !is_read_again(alloc, bytes.as_slice()) {
            return Some(number);
        }
    }
    None
}

/// Sees that every instruction after this front is read again.
fn see_read_again(rt: &(impl Abort + AllocGlobal), front: &Front) {
    let name = front.name;
    for tail in TAILS {
        let tail_name = tail.name;
        let lost = first_lost(rt.alloc(), front.bytes, tail.bytes);
        assert!(rt; lost.is_none(), "{name}, {tail_name}");
    }
}

/// Sees that every instruction after these fronts is read again.
fn see_all_read_again(rt: &(impl Abort + AllocGlobal), fronts: &[Front]) {
    for front in fronts {
        see_read_again(rt, front);
    }
}

#[test]
fn instructions_are_read_again(rt: HostRuntime) {
    see_all_read_again(&rt, FRONTS);
}

#[test]
fn instructions_after_66_are_read_again(rt: HostRuntime) {
    see_all_read_again(&rt, MARKED_FRONTS);
}
