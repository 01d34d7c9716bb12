//! Spellings from the manual's tables.

use mx_encode::{Wide, encode};
use mx_insn::{Immediate, Index, Insn, Memory, Operand, Operands, Scale};
use mx_word::{Arithmetic, Register, Size};

/// A MOV from memory to EAX, an ADD to EAX, or a jump.
enum Case {
    Load(Memory),
    Add(Immediate),
    Jump(u32),
}

use Case::{Add, Jump, Load};

/// A place with no base and no index, at 0.
const PLACE: Memory = Memory {
    base: None,
    index: None,
    displacement: 0,
};

const BY_ESI: Option<Index> = Some(Index {
    register: Register::Esi,
    scale: Scale::Four,
});

const BY_ESP: Option<Index> = Some(Index {
    register: Register::Esp,
    scale: Scale::Four,
});

const SHORTEST: Wide = Wide {
    immediate: false,
    displacement: false,
};

const WIDE: Wide = Wide {
    immediate: true,
    displacement: true,
};

/// An instruction, how wide its numbers are, and its bytes, if it has a spelling.
struct Row {
    name: &'static str,
    case: Case,
    wide: Wide,
    bytes: Option<&'static [u8]>,
}

static ROWS: &[Row] = &[
    Row {
        name: "mov eax, dword [ebp]",
        case: Load(Memory {
            base: Some(Register::Ebp),
            ..PLACE
        }),
        wide: SHORTEST,
        bytes: Some(b"\x8B\x45\x00"),
    },
    Row {
        name: "mov eax, dword [esp]",
        case: Load(Memory {
            base: Some(Register::Esp),
            ..PLACE
        }),
        wide: SHORTEST,
        bytes: Some(b"\x8B\x04\x24"),
    },
    Row {
        name: "mov eax, dword [esi*4+0x8]",
        case: Load(Memory {
            index: BY_ESI,
            displacement: 8,
            ..PLACE
        }),
        wide: SHORTEST,
        bytes: Some(b"\x8B\x04\xB5\x08\x00\x00\x00"),
    },
    Row {
        name: "mov eax, dword [ecx], wide",
        case: Load(Memory {
            base: Some(Register::Ecx),
            ..PLACE
        }),
        wide: WIDE,
        bytes: Some(b"\x8B\x81\x00\x00\x00\x00"),
    },
    Row {
        name: "add eax, 0x80",
        case: Add(Immediate::Dword(128)),
        wide: SHORTEST,
        bytes: Some(b"\x81\xC0\x80\x00\x00\x00"),
    },
    Row {
        name: "add ax, 0xffff",
        case: Add(Immediate::Word(0xFFFF)),
        wide: SHORTEST,
        bytes: Some(b"\x66\x83\xC0\xFF"),
    },
    Row {
        name: "add eax, 0x0, wide",
        case: Add(Immediate::Dword(0)),
        wide: WIDE,
        bytes: Some(b"\x81\xC0\x00\x00\x00\x00"),
    },
    Row {
        name: "jmp 0x0, to itself",
        case: Jump(0xFFFF_FFFE),
        wide: SHORTEST,
        bytes: Some(b"\xEB\xFE"),
    },
    Row {
        name: "mov eax, dword [esp*4], which has no spelling",
        case: Load(Memory {
            index: BY_ESP,
            ..PLACE
        }),
        wide: SHORTEST,
        bytes: None,
    },
];

fn insn_of(case: &Case) -> Insn {
    match *case {
        Load(place) => {
            Insn::Move(Operands::ToRegister {
                size: Size::Dword,
                to: Register::Eax,
                from: Operand::Memory(place),
            })
        }
        Add(value) => {
            let to = Operand::Register(Register::Eax);
            Insn::Arithmetic {
                operation: Arithmetic::Add,
                operands: Operands::Immediate { to, value },
            }
        }
        Jump(target) => Insn::Jump(target),
    }
}

fn is_spelled(row: &Row) -> bool {
    match (encode(&insn_of(&row.case), row.wide), row.bytes) {
        (Ok(found), Some(bytes)) => found.as_slice() == bytes,
        (Err(_), None) => true,
        _ => false,
    }
}

#[test]
fn spellings(rt: HostRuntime) {
    for row in ROWS {
        let name = row.name;
        assert!(rt; is_spelled(row), "{name}");
    }
}
