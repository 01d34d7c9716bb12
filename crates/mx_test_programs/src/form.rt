//! Forms that a size decides.

use mx_asm_statement::{
    Address, Argument, JumpLength, Name, Value, statement_after_prefix, statement_for,
};
use mx_insn_words::{Mnemonic, Prefix, Single};
use mx_word::{BitScan, BitTest, DoubleShift, Register, Size};

const EAX: Argument = Argument::Register(Size::Dword, Register::Eax);

const BL: Argument = Argument::Register(Size::Byte, Register::Ebx);

const AT_EBX: Address = Address {
    base: Some(Register::Ebx),
    index: None,
    value: Value {
        name: None,
        minus: false,
        number: 0,
    },
};

const LABEL: Value = Value {
    name: Some(Name {
        bytes: *b"l\0\0\0\0\0\0\0",
    }),
    minus: false,
    number: 0,
};

const AT: Argument = Argument::Memory(None, AT_EBX);

const BYTE_AT: Argument = Argument::Memory(Some(Size::Byte), AT_EBX);

const NAMED: Argument = Argument::Value(LABEL);

const ZERO: Value = Value {
    name: None,
    minus: false,
    number: 0,
};

const ONE: Argument = Argument::Value(Value { number: 1, ..ZERO });

const LAST_BYTE: Argument = Argument::Value(Value {
    number: 255,
    ..ZERO
});

const PAST_BYTE: Argument = Argument::Value(Value {
    number: 256,
    ..ZERO
});

const LEAST_BYTE: Argument = Argument::Value(Value {
    minus: true,
    number: 128,
    ..ZERO
});

const BELOW_BYTE: Argument = Argument::Value(Value {
    minus: true,
    number: 129,
    ..ZERO
});

const LEAST_DWORD: Argument = Argument::Value(Value {
    minus: true,
    number: 0x8000_0000,
    ..ZERO
});

/// A mnemonic and its operands, and whether they have a form.
struct Row {
    name: &'static str,
    mnemonic: Mnemonic,
    arguments: &'static [Argument],
    is_taken: bool,
}

const MOV: Mnemonic = Mnemonic::Single(Single::Mov);

/// What MOV refuses, and what it takes.
static MOVED: &[Row] = &[
    Row {
        name: "mov eax, bl",
        mnemonic: MOV,
        arguments: &[EAX, BL],
        is_taken: false,
    },
    Row {
        name: "mov eax, byte [ebx]",
        mnemonic: MOV,
        arguments: &[EAX, BYTE_AT],
        is_taken: false,
    },
    Row {
        name: "mov [ebx], 1",
        mnemonic: MOV,
        arguments: &[AT, ONE],
        is_taken: false,
    },
    Row {
        name: "mov bl, 256",
        mnemonic: MOV,
        arguments: &[BL, PAST_BYTE],
        is_taken: false,
    },
    Row {
        name: "mov bl, -129",
        mnemonic: MOV,
        arguments: &[BL, BELOW_BYTE],
        is_taken: false,
    },
    Row {
        name: "mov bl, l",
        mnemonic: MOV,
        arguments: &[BL, NAMED],
        is_taken: false,
    },
    Row {
        name: "mov 1, eax",
        mnemonic: MOV,
        arguments: &[ONE, EAX],
        is_taken: false,
    },
    Row {
        name: "mov eax",
        mnemonic: MOV,
        arguments: &[EAX],
        is_taken: false,
    },
    Row {
        name: "mov eax, [ebx]",
        mnemonic: MOV,
        arguments: &[EAX, AT],
        is_taken: true,
    },
    Row {
        name: "mov byte [ebx], bl",
        mnemonic: MOV,
        arguments: &[BYTE_AT, BL],
        is_taken: true,
    },
    Row {
        name: "mov byte [ebx], 255",
        mnemonic: MOV,
        arguments: &[BYTE_AT, LAST_BYTE],
        is_taken: true,
    },
    Row {
        name: "mov eax, -0x80000000",
        mnemonic: MOV,
        arguments: &[EAX, LEAST_DWORD],
        is_taken: true,
    },
    Row {
        name: "mov bl, -128",
        mnemonic: MOV,
        arguments: &[BL, LEAST_BYTE],
        is_taken: true,
    },
    Row {
        name: "mov eax, l",
        mnemonic: MOV,
        arguments: &[EAX, NAMED],
        is_taken: true,
    },
];

const CX: Argument = Argument::Register(Size::Word, Register::Ecx);

const CL: Argument = Argument::Register(Size::Byte, Register::Ecx);

const ECX: Argument = Argument::Register(Size::Dword, Register::Ecx);

const DWORD_AT: Argument = Argument::Memory(Some(Size::Dword), AT_EBX);

const BTS: Mnemonic = Mnemonic::BitTest(BitTest::Bts);

const BSR: Mnemonic = Mnemonic::BitScan(BitScan::Bsr);

const SHRD: Mnemonic = Mnemonic::DoubleShift(DoubleShift::Shrd);

/// What bit tests, bit scans and double shifts refuse, and what they take.
static BITS: &[Row] = &[
    Row {
        name: "bts eax, ecx",
        mnemonic: BTS,
        arguments: &[EAX, ECX],
        is_taken: true,
    },
    Row {
        name: "bts eax, 255",
        mnemonic: BTS,
        arguments: &[EAX, LAST_BYTE],
        is_taken: true,
    },
    Row {
        name: "bts eax, 256",
        mnemonic: BTS,
        arguments: &[EAX, PAST_BYTE],
        is_taken: false,
    },
    Row {
        name: "bts eax, l",
        mnemonic: BTS,
        arguments: &[EAX, NAMED],
        is_taken: false,
    },
    Row {
        name: "bts eax, cx",
        mnemonic: BTS,
        arguments: &[EAX, CX],
        is_taken: false,
    },
    Row {
        name: "bts cx, 1",
        mnemonic: BTS,
        arguments: &[CX, ONE],
        is_taken: false,
    },
    Row {
        name: "bts dword [ebx], 1",
        mnemonic: BTS,
        arguments: &[DWORD_AT, ONE],
        is_taken: true,
    },
    Row {
        name: "bts [ebx], 1",
        mnemonic: BTS,
        arguments: &[AT, ONE],
        is_taken: false,
    },
    Row {
        name: "bts byte [ebx], 1",
        mnemonic: BTS,
        arguments: &[BYTE_AT, ONE],
        is_taken: false,
    },
    Row {
        name: "bts dword [ebx], ecx",
        mnemonic: BTS,
        arguments: &[DWORD_AT, ECX],
        is_taken: false,
    },
    Row {
        name: "bts 1, ecx",
        mnemonic: BTS,
        arguments: &[ONE, ECX],
        is_taken: false,
    },
    Row {
        name: "bsr eax, ecx",
        mnemonic: BSR,
        arguments: &[EAX, ECX],
        is_taken: true,
    },
    Row {
        name: "bsr eax, [ebx]",
        mnemonic: BSR,
        arguments: &[EAX, AT],
        is_taken: true,
    },
    Row {
        name: "bsr eax, byte [ebx]",
        mnemonic: BSR,
        arguments: &[EAX, BYTE_AT],
        is_taken: false,
    },
    Row {
        name: "bsr cx, [ebx]",
        mnemonic: BSR,
        arguments: &[CX, AT],
        is_taken: false,
    },
    Row {
        name: "bsr eax, 1",
        mnemonic: BSR,
        arguments: &[EAX, ONE],
        is_taken: false,
    },
    Row {
        name: "shrd eax, ecx, cl",
        mnemonic: SHRD,
        arguments: &[EAX, ECX, CL],
        is_taken: true,
    },
    Row {
        name: "shrd [ebx], ecx, -128",
        mnemonic: SHRD,
        arguments: &[AT, ECX, LEAST_BYTE],
        is_taken: true,
    },
    Row {
        name: "shrd dword [ebx], eax, cl",
        mnemonic: SHRD,
        arguments: &[DWORD_AT, EAX, CL],
        is_taken: true,
    },
    Row {
        name: "shrd eax, ecx, ecx",
        mnemonic: SHRD,
        arguments: &[EAX, ECX, ECX],
        is_taken: false,
    },
    Row {
        name: "shrd eax, cx, cl",
        mnemonic: SHRD,
        arguments: &[EAX, CX, CL],
        is_taken: false,
    },
    Row {
        name: "shrd eax, [ebx], cl",
        mnemonic: SHRD,
        arguments: &[EAX, AT, CL],
        is_taken: false,
    },
    Row {
        name: "shrd eax, ecx",
        mnemonic: SHRD,
        arguments: &[EAX, ECX],
        is_taken: false,
    },
];

fn is_right(row: &Row) -> bool {
    statement_for(JumpLength::Long, row.mnemonic, row.arguments).is_some() == row.is_taken
}

fn is_long_refused() -> bool {
    statement_for(JumpLength::Short, Mnemonic::Single(Single::Jmp), &[EAX]).is_none()
}

#[test]
fn sizes(rt: HostRuntime) {
    for row in MOVED {
        let name = row.name;
        assert!(rt; is_right(row), "{name}");
    }
    assert!(rt; is_long_refused() && statement_after_prefix(Prefix::Rep, MOV).is_none());
}

#[test]
fn bits(rt: HostRuntime) {
    for row in BITS {
        let name = row.name;
        assert!(rt; is_right(row), "{name}");
    }
}
