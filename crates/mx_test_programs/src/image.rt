//! Rows of the manual's pages, worked by hand, and of the machine's own choices.

use mx_exec::{Code, Image, TextSegment};
use mx_exec_cache::Cache;
use mx_flags::Flags;
use mx_image::{Runs, Stop, run_with};
use mx_mem::{DIVIDE_ERROR, GENERAL_PROTECTION, INVALID_OPCODE, STACK_FAULT, Segment};
use mx_regs::Regs;
use mx_word::{Register, Size};
use std::alloc::Global;
use std::process::Abort;
use std::test::Fail;

/// A run: what it begins with, how many steps it makes, and what it ends with.
#[derive(Drop)]
struct Row {
    /// The instructions, as a listing has them, and what is special about them here.
    name: &'static str,
    /// The code is the data segment itself.
    shared: bool,
    /// Where the run begins, and where its text begins, if that is a segment of its own.
    eip: u32,
    text: &'static [u8],
    /// The data segment's limit.
    limit: u32,
    /// Addresses in the data segment and their bytes. All other bytes are zeros.
    memory: &'static [(u32, u8)],
    /// EAX, ECX, EDX, EBX, ESP, EBP, ESI and EDI, in this order.
    words: [u32; 8],
    flags: u32,
    /// How many steps the run may make, and how many it makes.
    budget: u32,
    count: u32,
    stop: Stop,
    /// The registers at the end, in the order of `words`.
    words_after: [u32; 8],
    eip_after: u32,
    flags_after: u32,
    /// Addresses in the data segment and their bytes at the end. All other bytes are zeros.
    memory_after: &'static [(u32, u8)],
}

const CARRY: u32 = 0x001;

const PARITY: u32 = 0x004;

const AUXILIARY: u32 = 0x010;

const ZERO: u32 = 0x040;

const SIGN: u32 = 0x080;

const DOWN: u32 = 0x400;

const OVERFLOW: u32 = 0x800;
/// Bits 1 and 9, which always read one.
const ONES: u32 = 0x202;

const LIMIT: u32 = 0x1000;

/// The vectors of `int3` and `into`.
const BREAKPOINT: u8 = 3;

const OVERFLOW_VECTOR: u8 = 4;

/// A row that begins with zeros and makes one step without a fault.
const ROW: Row = Row {
    name: "",
    shared: false,
    eip: 0,
    text: b"",
    limit: LIMIT,
    memory: &[],
    words: [0; 8],
    flags: 0,
    budget: 1,
    count: 1,
    stop: Stop::Spent,
    words_after: [0; 8],
    eip_after: 0,
    flags_after: ONES,
    memory_after: &[],
};

static REGISTERS: &[Register] = &[
    Register::Eax,
    Register::Ecx,
    Register::Edx,
    Register::Ebx,
    Register::Esp,
    Register::Ebp,
    Register::Esi,
    Register::Edi,
];

/// Bit tests, bit scans and double shifts; the last ones are no instructions.
static BITS: &[Row] = &[
    Row {
        name: "bt eax, 0x5: the bit is set",
        text: b"\x0F\xBA\xE0\x05",
        words: [0x20, 0, 0, 0, 0, 0, 0, 0],
        words_after: [0x20, 0, 0, 0, 0, 0, 0, 0],
        eip_after: 4,
        flags_after: ONES + CARRY,
        ..ROW
    },
    Row {
        name: "btc eax, 0x21: this is bit 1",
        text: b"\x0F\xBA\xF8\x21",
        flags: CARRY,
        words_after: [2, 0, 0, 0, 0, 0, 0, 0],
        eip_after: 4,
        ..ROW
    },
    Row {
        name: "bts eax, ecx: 0x3f in ECX is bit 31",
        text: b"\x0F\xAB\xC8",
        words: [0, 0x3F, 0, 0, 0, 0, 0, 0],
        flags: CARRY,
        words_after: [0x80000000, 0x3F, 0, 0, 0, 0, 0, 0],
        eip_after: 3,
        ..ROW
    },
    Row {
        name: "bsf eax, ecx: bit 4 is the lowest",
        text: b"\x0F\xBC\xC1",
        words: [0, 0x50, 0, 0, 0, 0, 0, 0],
        flags: ZERO,
        words_after: [4, 0x50, 0, 0, 0, 0, 0, 0],
        eip_after: 3,
        ..ROW
    },
    Row {
        name: "bsr eax, ecx: bit 6 is the highest",
        text: b"\x0F\xBD\xC1",
        words: [0, 0x50, 0, 0, 0, 0, 0, 0],
        flags: ZERO,
        words_after: [6, 0x50, 0, 0, 0, 0, 0, 0],
        eip_after: 3,
        ..ROW
    },
    Row {
        name: "bsf eax, ecx: ECX has no bit, and EAX stays",
        text: b"\x0F\xBC\xC1",
        words: [9, 0, 0, 0, 0, 0, 0, 0],
        words_after: [9, 0, 0, 0, 0, 0, 0, 0],
        eip_after: 3,
        flags_after: ONES + ZERO,
        ..ROW
    },
    Row {
        name: "shld eax, ecx, 0x4: the bits that come in are the highest of ECX",
        text: b"\x0F\xA4\xC8\x04",
        words: [0x12345678, 0xABCDEF01, 0, 0, 0, 0, 0, 0],
        flags: PARITY + ZERO + SIGN,
        words_after: [0x2345678A, 0xABCDEF01, 0, 0, 0, 0, 0, 0],
        eip_after: 4,
        flags_after: ONES + CARRY,
        ..ROW
    },
    Row {
        name: "shrd eax, ecx, 0x4: the bits that come in are the lowest of ECX",
        text: b"\x0F\xAC\xC8\x04",
        words: [0x12345678, 0xABCDEF01, 0, 0, 0, 0, 0, 0],
        flags: PARITY + AUXILIARY + OVERFLOW,
        words_after: [0x11234567, 0xABCDEF01, 0, 0, 0, 0, 0, 0],
        eip_after: 4,
        flags_after: ONES + CARRY + AUXILIARY + OVERFLOW,
        ..ROW
    },
    Row {
        name: "shld eax, ecx, cl: 0x20 in CL is a count of 0",
        text: b"\x0F\xA5\xC8",
        words: [5, 0x20, 0, 0, 0, 0, 0, 0],
        flags: ZERO + SIGN + OVERFLOW,
        words_after: [5, 0x20, 0, 0, 0, 0, 0, 0],
        eip_after: 3,
        flags_after: ONES + ZERO + SIGN + OVERFLOW,
        ..ROW
    },
    Row {
        name: "bt dword [eax], ecx: no instruction, as the place is in memory",
        text: b"\x0F\xA3\x08",
        stop: Stop::Fault(INVALID_OPCODE),
        ..ROW
    },
    Row {
        name: ".data1 0xf, 0xba, 0xc0, 0x5: no instruction, as 0F BA is only /4 to /7",
        text: b"\x0F\xBA\xC0\x05",
        stop: Stop::Fault(INVALID_OPCODE),
        ..ROW
    },
    Row {
        name: "bsf ax, cx: no instruction, as the size is 16 bits",
        text: b"\x66\x0F\xBC\xC1",
        stop: Stop::Fault(INVALID_OPCODE),
        ..ROW
    },
    Row {
        name: "bt, bts, btr or btc: the text ends after the opcode",
        text: b"\x0F\xBA",
        stop: Stop::Fault(GENERAL_PROTECTION),
        ..ROW
    },
    // The place is tried also by a count of 0, which writes nothing new.
    Row {
        name: "shld dword [eax], ecx, 0x20: a count of 0, but the place passes the limit",
        text: b"\x0F\xA4\x08\x20",
        words: [LIMIT - 3, 1, 0, 0, 0, 0, 0, 0],
        stop: Stop::Fault(GENERAL_PROTECTION),
        words_after: [LIMIT - 3, 1, 0, 0, 0, 0, 0, 0],
        ..ROW
    },
];

/// Arithmetic, shifts, products and extensions.
static ARITHMETIC: &[Row] = &[
    Row {
        name: "add eax, 0x1: the sum is 0 with a carry",
        text: b"\x83\xC0\x01",
        words: [0xFFFFFFFF, 0, 0, 0, 0, 0, 0, 0],
        words_after: [0, 0, 0, 0, 0, 0, 0, 0],
        eip_after: 3,
        flags_after: ONES + CARRY + PARITY + AUXILIARY + ZERO,
        ..ROW
    },
    Row {
        name: "sub al, 0x80: the difference is out of the signed range",
        text: b"\x2C\x80",
        words: [0x7F, 0, 0, 0, 0, 0, 0, 0],
        words_after: [0xFF, 0, 0, 0, 0, 0, 0, 0],
        eip_after: 2,
        flags_after: ONES + CARRY + PARITY + SIGN + OVERFLOW,
        ..ROW
    },
    Row {
        name: "inc eax: the carry flag stays",
        text: b"\x40",
        words: [0x7FFFFFFF, 0, 0, 0, 0, 0, 0, 0],
        flags: CARRY,
        words_after: [0x80000000, 0, 0, 0, 0, 0, 0, 0],
        eip_after: 1,
        flags_after: ONES + CARRY + PARITY + AUXILIARY + SIGN + OVERFLOW,
        ..ROW
    },
    Row {
        name: "idiv ecx: the quotient is out of the signed range",
        text: b"\xF7\xF9",
        words: [0x80000000, 0xFFFFFFFF, 0xFFFFFFFF, 0, 0, 0, 0, 0],
        stop: Stop::Fault(DIVIDE_ERROR),
        words_after: [0x80000000, 0xFFFFFFFF, 0xFFFFFFFF, 0, 0, 0, 0, 0],
        ..ROW
    },
    Row {
        name: "shl eax, 0x20: a count of 0, and all flags stay",
        text: b"\xC1\xE0\x20",
        words: [5, 0, 0, 0, 0, 0, 0, 0],
        flags: CARRY + AUXILIARY + OVERFLOW,
        words_after: [5, 0, 0, 0, 0, 0, 0, 0],
        eip_after: 3,
        flags_after: ONES + CARRY + AUXILIARY + OVERFLOW,
        ..ROW
    },
    Row {
        name: "shr al, 0x9: the count is more than the size",
        text: b"\xC0\xE8\x09",
        words: [0xFF, 0, 0, 0, 0, 0, 0, 0],
        flags: CARRY + AUXILIARY + SIGN + OVERFLOW,
        words_after: [0, 0, 0, 0, 0, 0, 0, 0],
        eip_after: 3,
        flags_after: ONES + PARITY + AUXILIARY + ZERO + OVERFLOW,
        ..ROW
    },
    Row {
        name: "sar al, 0x9: the count is more than the size",
        text: b"\xC0\xF8\x09",
        words: [0x80, 0, 0, 0, 0, 0, 0, 0],
        flags: ZERO,
        words_after: [0xFF, 0, 0, 0, 0, 0, 0, 0],
        eip_after: 3,
        flags_after: ONES + CARRY + PARITY + SIGN,
        ..ROW
    },
    Row {
        name: "shl eax, 0x1: the sign changes",
        text: b"\xD1\xE0",
        words: [0x40000000, 0, 0, 0, 0, 0, 0, 0],
        flags: CARRY + ZERO,
        words_after: [0x80000000, 0, 0, 0, 0, 0, 0, 0],
        eip_after: 2,
        flags_after: ONES + PARITY + SIGN + OVERFLOW,
        ..ROW
    },
    Row {
        name: "div cl: a quotient and a remainder",
        text: b"\xF6\xF1",
        words: [0xFF, 2, 0, 0, 0, 0, 0, 0],
        words_after: [0x17F, 2, 0, 0, 0, 0, 0, 0],
        eip_after: 2,
        ..ROW
    },
    Row {
        name: "div cl: the quotient has nine bits",
        text: b"\xF6\xF1",
        words: [0x100, 1, 0, 0, 0, 0, 0, 0],
        stop: Stop::Fault(DIVIDE_ERROR),
        words_after: [0x100, 1, 0, 0, 0, 0, 0, 0],
        ..ROW
    },
    Row {
        name: "idiv cl: quotient and remainder are negative",
        text: b"\xF6\xF9",
        words: [0xFFF9, 2, 0, 0, 0, 0, 0, 0],
        words_after: [0xFFFD, 2, 0, 0, 0, 0, 0, 0],
        eip_after: 2,
        ..ROW
    },
    Row {
        name: "imul eax, eax, 0xfffffffe: the product just fits",
        text: b"\x6B\xC0\xFE",
        words: [0x40000000, 0, 0, 0, 0, 0, 0, 0],
        flags: CARRY + OVERFLOW,
        words_after: [0x80000000, 0, 0, 0, 0, 0, 0, 0],
        eip_after: 3,
        ..ROW
    },
    Row {
        name: "imul eax, eax, 0xfffffffe: the product doesn't fit",
        text: b"\x6B\xC0\xFE",
        words: [0x40000001, 0, 0, 0, 0, 0, 0, 0],
        words_after: [0x7FFFFFFE, 0, 0, 0, 0, 0, 0, 0],
        eip_after: 3,
        flags_after: ONES + CARRY + OVERFLOW,
        ..ROW
    },
    Row {
        name: "lahf: bit 1 of AH is one",
        text: b"\x9F",
        words_after: [0x200, 0, 0, 0, 0, 0, 0, 0],
        eip_after: 1,
        ..ROW
    },
    Row {
        name: "movsx eax, cl: a negative byte",
        text: b"\x0F\xBE\xC1",
        words: [0, 0x80, 0, 0, 0, 0, 0, 0],
        words_after: [0xFFFFFF80, 0x80, 0, 0, 0, 0, 0, 0],
        eip_after: 3,
        ..ROW
    },
];

/// Operands in memory, and the stack.
static PLACES: &[Row] = &[
    Row {
        name: "mov eax, dword [esp+0x4]: at the limit, a stack fault",
        text: b"\x8B\x44\x24\x04",
        words: [0, 0, 0, 0, 0xFFC, 0, 0, 0],
        stop: Stop::Fault(STACK_FAULT),
        words_after: [0, 0, 0, 0, 0xFFC, 0, 0, 0],
        ..ROW
    },
    Row {
        name: "mov eax, dword [0x10]: by a SIB byte with no base and no index",
        text: b"\x8B\x04\x25\x10\x00\x00\x00",
        memory: &[(0x10, 0x01), (0x11, 0x02), (0x12, 0x03), (0x13, 0x04)],
        words_after: [0x4030201, 0, 0, 0, 0, 0, 0, 0],
        eip_after: 7,
        memory_after: &[(0x10, 0x01), (0x11, 0x02), (0x12, 0x03), (0x13, 0x04)],
        ..ROW
    },
    Row {
        name: "mov eax, dword [ebp+0x4]: by a SIB byte with no index",
        text: b"\x8B\x44\x25\x04",
        memory: &[(0x14, 0x01), (0x15, 0x02), (0x16, 0x03), (0x17, 0x04)],
        words: [0, 0, 0, 0, 0, 0x10, 0, 0],
        words_after: [0x4030201, 0, 0, 0, 0, 0x10, 0, 0],
        eip_after: 4,
        memory_after: &[(0x14, 0x01), (0x15, 0x02), (0x16, 0x03), (0x17, 0x04)],
        ..ROW
    },
    Row {
        name: "pushad: half of it fits, and nothing is written",
        text: b"\x60",
        memory: &[
            (0x0, 0x09),
            (0x1, 0x09),
            (0x2, 0x09),
            (0x3, 0x09),
            (0x4, 0x09),
            (0x5, 0x09),
            (0x6, 0x09),
            (0x7, 0x09),
            (0x8, 0x09),
            (0x9, 0x09),
            (0xA, 0x09),
            (0xB, 0x09),
            (0xC, 0x09),
            (0xD, 0x09),
            (0xE, 0x09),
            (0xF, 0x09),
        ],
        words: [1, 0, 0, 0, 0x10, 0, 0, 8],
        stop: Stop::Fault(STACK_FAULT),
        words_after: [1, 0, 0, 0, 0x10, 0, 0, 8],
        memory_after: &[
            (0x0, 0x09),
            (0x1, 0x09),
            (0x2, 0x09),
            (0x3, 0x09),
            (0x4, 0x09),
            (0x5, 0x09),
            (0x6, 0x09),
            (0x7, 0x09),
            (0x8, 0x09),
            (0x9, 0x09),
            (0xA, 0x09),
            (0xB, 0x09),
            (0xC, 0x09),
            (0xD, 0x09),
            (0xE, 0x09),
            (0xF, 0x09),
        ],
        ..ROW
    },
    Row {
        name: "push esp: ESP as it was before",
        text: b"\x54",
        words: [0, 0, 0, 0, 0x100, 0, 0, 0],
        words_after: [0, 0, 0, 0, 0xFC, 0, 0, 0],
        eip_after: 1,
        memory_after: &[(0xFC, 0x00), (0xFD, 0x01), (0xFE, 0x00), (0xFF, 0x00)],
        ..ROW
    },
    Row {
        name: "call 0x5: the target is the text's end, and nothing is pushed",
        text: b"\xE8\x00\x00\x00\x00",
        words: [0, 0, 0, 0, 0x1000, 0, 0, 0],
        stop: Stop::Fault(GENERAL_PROTECTION),
        words_after: [0, 0, 0, 0, 0x1000, 0, 0, 0],
        ..ROW
    },
    Row {
        name: "mov dword [0xffc], eax: the last four bytes",
        text: b"\xA3\xFC\x0F\x00\x00",
        words: [0x4030201, 0, 0, 0, 0, 0, 0, 0],
        words_after: [0x4030201, 0, 0, 0, 0, 0, 0, 0],
        eip_after: 5,
        memory_after: &[(0xFFC, 0x01), (0xFFD, 0x02), (0xFFE, 0x03), (0xFFF, 0x04)],
        ..ROW
    },
    Row {
        name: "mov dword [0xffd], eax: one byte too far",
        text: b"\xA3\xFD\x0F\x00\x00",
        words: [0x4030201, 0, 0, 0, 0, 0, 0, 0],
        stop: Stop::Fault(GENERAL_PROTECTION),
        words_after: [0x4030201, 0, 0, 0, 0, 0, 0, 0],
        ..ROW
    },
    Row {
        name: "add eax, 0x1; inc eax; pushfd: the carry of the sum is pushed",
        text: b"\x83\xC0\x01\x40\x9C",
        words: [0xFFFFFFFF, 0, 0, 0, 0x1000, 0, 0, 0],
        budget: 3,
        count: 3,
        words_after: [1, 0, 0, 0, 0xFFC, 0, 0, 0],
        eip_after: 5,
        flags_after: ONES + CARRY,
        memory_after: &[(0xFFC, 0x03), (0xFFD, 0x02), (0xFFE, 0x00), (0xFFF, 0x00)],
        ..ROW
    },
];

/// String instructions, some of them after a repeat.
static STRINGS: &[Row] = &[
    Row {
        name: "rep movsb: ECX is 0",
        text: b"\xF3\xA4",
        memory: &[(0x5, 0x07)],
        words: [0, 0, 0, 0, 0, 0, 5, 9],
        words_after: [0, 0, 0, 0, 0, 0, 5, 9],
        eip_after: 2,
        memory_after: &[(0x5, 0x07)],
        ..ROW
    },
    Row {
        name: "rep movsb: one byte of two",
        text: b"\xF3\xA4",
        memory: &[(0x0, 0x2A)],
        words: [0, 2, 0, 0, 0, 0, 0, 0],
        words_after: [0, 1, 0, 0, 0, 0, 1, 1],
        memory_after: &[(0x0, 0x2A)],
        ..ROW
    },
    Row {
        name: "rep movsb: one byte of two, to another place",
        text: b"\xF3\xA4",
        memory: &[(0x0, 0x2A)],
        words: [0, 2, 0, 0, 0, 0, 0, 0x10],
        words_after: [0, 1, 0, 0, 0, 0, 1, 0x11],
        memory_after: &[(0x0, 0x2A), (0x10, 0x2A)],
        ..ROW
    },
    Row {
        name: "movsb: down",
        text: b"\xA4",
        memory: &[(0x5, 0x2A)],
        words: [0, 0, 0, 0, 0, 0, 5, 9],
        flags: DOWN,
        words_after: [0, 0, 0, 0, 0, 0, 4, 8],
        eip_after: 1,
        flags_after: ONES + DOWN,
        memory_after: &[(0x5, 0x2A), (0x9, 0x2A)],
        ..ROW
    },
    Row {
        name: "repe cmpsb: the second bytes differ",
        text: b"\xF3\xA6",
        memory: &[
            (0x10, 0x01),
            (0x11, 0x02),
            (0x12, 0x03),
            (0x20, 0x01),
            (0x21, 0x05),
            (0x22, 0x03),
        ],
        words: [0, 3, 0, 0, 0, 0, 0x10, 0x20],
        budget: 2,
        count: 2,
        words_after: [0, 1, 0, 0, 0, 0, 0x12, 0x22],
        eip_after: 2,
        flags_after: ONES + CARRY + AUXILIARY + SIGN,
        memory_after: &[
            (0x10, 0x01),
            (0x11, 0x02),
            (0x12, 0x03),
            (0x20, 0x01),
            (0x21, 0x05),
            (0x22, 0x03),
        ],
        ..ROW
    },
    Row {
        name: "rep stosb: two bytes up to the limit, and then a fault",
        text: b"\xF3\xAA",
        words: [0xAA, 5, 0, 0, 0, 0, 0, 0xFFE],
        budget: 99,
        count: 3,
        stop: Stop::Fault(GENERAL_PROTECTION),
        words_after: [0xAA, 3, 0, 0, 0, 0, 0, 0x1000],
        memory_after: &[(0xFFE, 0xAA), (0xFFF, 0xAA)],
        ..ROW
    },
];

/// What faults at once.
static FAULTS: &[Row] = &[
    Row {
        name: "hlt",
        text: b"\xF4",
        stop: Stop::Fault(GENERAL_PROTECTION),
        ..ROW
    },
    Row {
        name: ".data1 0xd6: no opcode",
        text: b"\xD6",
        stop: Stop::Fault(INVALID_OPCODE),
        ..ROW
    },
    Row {
        name: ".data1 0x66: the text ends after the prefix",
        text: b"\x66",
        stop: Stop::Fault(GENERAL_PROTECTION),
        ..ROW
    },
    Row {
        name: "inc ax after 66 twice: no instruction",
        text: b"\x66\x66\x40",
        stop: Stop::Fault(INVALID_OPCODE),
        ..ROW
    },
    Row {
        name: "rep inc eax: no instruction, as rep may not come before inc",
        text: b"\xF3\x40",
        stop: Stop::Fault(INVALID_OPCODE),
        ..ROW
    },
    Row {
        name: "lea eax, eax: no instruction, as EAX is not in memory",
        text: b"\x8D\xC0",
        stop: Stop::Fault(INVALID_OPCODE),
        ..ROW
    },
    Row {
        name: "push ax: no instruction, as the size is 16 bits",
        text: b"\x66\x50",
        stop: Stop::Fault(INVALID_OPCODE),
        ..ROW
    },
    Row {
        name: "movzx ax, cx: no instruction, as both have 16 bits",
        text: b"\x66\x0F\xB7\xC1",
        stop: Stop::Fault(INVALID_OPCODE),
        ..ROW
    },
    Row {
        name: "int3",
        text: b"\xCC",
        stop: Stop::Fault(BREAKPOINT),
        ..ROW
    },
    Row {
        name: "int 0x3",
        text: b"\xCD\x03",
        stop: Stop::Fault(BREAKPOINT),
        ..ROW
    },
    Row {
        name: "int 0x4",
        text: b"\xCD\x04",
        stop: Stop::Fault(OVERFLOW_VECTOR),
        ..ROW
    },
    Row {
        name: "int 0x5",
        text: b"\xCD\x05",
        stop: Stop::Fault(GENERAL_PROTECTION),
        ..ROW
    },
    Row {
        name: "in al, 0x0",
        text: b"\xE4\x00",
        stop: Stop::Fault(GENERAL_PROTECTION),
        ..ROW
    },
    Row {
        name: "jnz 0x81: the target is out of the text",
        text: b"\x75\x7F",
        stop: Stop::Fault(GENERAL_PROTECTION),
        ..ROW
    },
    Row {
        name: "into: the overflow flag is set",
        text: b"\xCE",
        flags: OVERFLOW,
        flags_after: ONES + OVERFLOW,
        stop: Stop::Fault(OVERFLOW_VECTOR),
        ..ROW
    },
    Row {
        name: ".data1 0xf3, 0xf: no instruction, as 0F may not follow rep",
        text: b"\xF3\x0F",
        stop: Stop::Fault(INVALID_OPCODE),
        ..ROW
    },
    Row {
        name: "repne movsb: no instruction, as only rep may come before movsb",
        text: b"\xF2\xA4",
        stop: Stop::Fault(INVALID_OPCODE),
        ..ROW
    },
    Row {
        name: "rcl al, ..: no instruction, and the text ends inside it",
        text: b"\xC0\xD0",
        stop: Stop::Fault(INVALID_OPCODE),
        ..ROW
    },
    Row {
        name: "call ax: no instruction, as the size is 16 bits",
        text: b"\x66\xFF\xD0",
        stop: Stop::Fault(INVALID_OPCODE),
        ..ROW
    },
    Row {
        name: "mov eax, dword [esp+..]: the text ends before the displacement",
        text: b"\x8B\x44\x24",
        stop: Stop::Fault(GENERAL_PROTECTION),
        ..ROW
    },
    Row {
        name: "mov ax, ..: the text ends inside the number",
        text: b"\x66\xB8\x01",
        stop: Stop::Fault(GENERAL_PROTECTION),
        ..ROW
    },
];

/// Code that is written over while it runs, and code at a limit.
static PATCHES: &[Row] = &[
    Row {
        name: "mov byte [0x7], 0x42; inc eax: the mov makes it inc edx",
        shared: true,
        memory: &[
            (0, 0xC6),
            (1, 0x05),
            (2, 0x07),
            (3, 0x00),
            (4, 0x00),
            (5, 0x00),
            (6, 0x42),
            (7, 0x40),
        ],
        budget: 2,
        count: 2,
        words_after: [0, 0, 1, 0, 0, 0, 0, 0],
        eip_after: 8,
        memory_after: &[
            (0, 0xC6),
            (1, 0x05),
            (2, 0x07),
            (3, 0x00),
            (4, 0x00),
            (5, 0x00),
            (6, 0x42),
            (7, 0x42),
        ],
        ..ROW
    },
    Row {
        name: "add eax, 0x1; inc byte [0x2]; jmp 0x0: the number of the add goes up",
        shared: true,
        memory: &[
            (0, 0x83),
            (1, 0xC0),
            (2, 0x01),
            (3, 0xFE),
            (4, 0x05),
            (5, 0x02),
            (9, 0xEB),
            (10, 0xF5),
        ],
        budget: 6,
        count: 6,
        words_after: [3, 0, 0, 0, 0, 0, 0, 0],
        flags_after: ONES + PARITY,
        memory_after: &[
            (0, 0x83),
            (1, 0xC0),
            (2, 0x03),
            (3, 0xFE),
            (4, 0x05),
            (5, 0x02),
            (9, 0xEB),
            (10, 0xF5),
        ],
        ..ROW
    },
    Row {
        name: "mov byte [0x5], al; jmp 0x0: the mov changes its own address and faults the second time",
        shared: true,
        memory: &[(0, 0x88), (1, 0x05), (2, 0x05), (6, 0xEB), (7, 0xF8)],
        words: [1, 0, 0, 0, 0, 0, 0, 0],
        budget: 9,
        count: 3,
        stop: Stop::Fault(GENERAL_PROTECTION),
        words_after: [1, 0, 0, 0, 0, 0, 0, 0],
        memory_after: &[
            (0, 0x88),
            (1, 0x05),
            (2, 0x05),
            (5, 0x01),
            (6, 0xEB),
            (7, 0xF8),
        ],
        ..ROW
    },
    Row {
        name: "rep movsb: it makes itself inc eax; movsb",
        shared: true,
        memory: &[(0, 0xF3), (1, 0xA4), (0x20, 0x40), (0x21, 0x40)],
        words: [0, 4, 0, 0, 0, 0, 0x20, 0],
        budget: 3,
        count: 3,
        words_after: [1, 3, 0, 0, 0, 0, 0x22, 2],
        eip_after: 2,
        memory_after: &[(0, 0x40), (1, 0x40), (0x20, 0x40), (0x21, 0x40)],
        ..ROW
    },
    Row {
        name: "inc eax; mov byte [0x0], 0x42; jmp 0x0: the mov makes the inc eax before it inc edx",
        shared: true,
        memory: &[
            (0, 0x40),
            (1, 0xC6),
            (2, 0x05),
            (7, 0x42),
            (8, 0xEB),
            (9, 0xF6),
        ],
        budget: 4,
        count: 4,
        words_after: [1, 0, 1, 0, 0, 0, 0, 0],
        eip_after: 1,
        memory_after: &[
            (0, 0x42),
            (1, 0xC6),
            (2, 0x05),
            (7, 0x42),
            (8, 0xEB),
            (9, 0xF6),
        ],
        ..ROW
    },
    Row {
        name: "inc eax; jmp 0x0: a loop in the last three bytes of a text",
        text: b"\x40\xEB\xFD",
        budget: 4,
        count: 4,
        words_after: [2, 0, 0, 0, 0, 0, 0, 0],
        ..ROW
    },
    Row {
        name: "jmp 0xffe; jmp 0xffe: the second is a loop in the last two bytes of the data segment",
        shared: true,
        memory: &[
            (0, 0xE9),
            (1, 0xF9),
            (2, 0x0F),
            (0xFFE, 0xEB),
            (0xFFF, 0xFE),
        ],
        budget: 4,
        count: 4,
        eip_after: 0xFFE,
        memory_after: &[
            (0, 0xE9),
            (1, 0xF9),
            (2, 0x0F),
            (0xFFE, 0xEB),
            (0xFFF, 0xFE),
        ],
        ..ROW
    },
    Row {
        name: "mov eax, 0x5: the whole of it",
        text: b"\xB8\x05\x00\x00\x00",
        words_after: [5, 0, 0, 0, 0, 0, 0, 0],
        eip_after: 5,
        ..ROW
    },
    Row {
        name: "mov eax, ..: the text ends inside the number that the row before had whole",
        text: b"\xB8\x05",
        stop: Stop::Fault(GENERAL_PROTECTION),
        ..ROW
    },
];

/// A row whose data has three pages.
const PAGES: Row = Row {
    limit: 0x3000,
    ..ROW
};

/// REP MOVSD of three dwords at FFA to 1FF9.
const DWORDS: Row = Row {
    text: b"\xF3\xA5",
    limit: 0x3000,
    memory: &[
        (0xFFA, 1),
        (0xFFB, 2),
        (0xFFC, 3),
        (0xFFD, 4),
        (0xFFE, 5),
        (0xFFF, 6),
        (0x1000, 7),
        (0x1001, 8),
        (0x1002, 9),
        (0x1003, 10),
        (0x1004, 11),
        (0x1005, 12),
    ],
    budget: 3,
    count: 3,
    eip_after: 2,
    memory_after: &[
        (0xFFA, 1),
        (0xFFB, 2),
        (0xFFC, 3),
        (0xFFD, 4),
        (0xFFE, 5),
        (0xFFF, 6),
        (0x1000, 7),
        (0x1001, 8),
        (0x1002, 9),
        (0x1003, 10),
        (0x1004, 11),
        (0x1005, 12),
        (0x1FF9, 1),
        (0x1FFA, 2),
        (0x1FFB, 3),
        (0x1FFC, 4),
        (0x1FFD, 5),
        (0x1FFE, 6),
        (0x1FFF, 7),
        (0x2000, 8),
        (0x2001, 9),
        (0x2002, 10),
        (0x2003, 11),
        (0x2004, 12),
    ],
    ..ROW
};

/// Data and code on both sides of a page's end.
static BOUNDARIES: &[Row] = &[
    Row {
        name: "mov dword [0xffe], eax: over a page's end",
        text: b"\xA3\xFE\x0F\x00\x00",
        limit: 0x2000,
        words: [0x4030201, 0, 0, 0, 0, 0, 0, 0],
        words_after: [0x4030201, 0, 0, 0, 0, 0, 0, 0],
        eip_after: 5,
        memory_after: &[(0xFFE, 1), (0xFFF, 2), (0x1000, 3), (0x1001, 4)],
        ..ROW
    },
    Row {
        name: "mov dword [0xffe], eax: the page's end is the limit",
        text: b"\xA3\xFE\x0F\x00\x00",
        words: [0x4030201, 0, 0, 0, 0, 0, 0, 0],
        stop: Stop::Fault(GENERAL_PROTECTION),
        words_after: [0x4030201, 0, 0, 0, 0, 0, 0, 0],
        ..ROW
    },
    Row {
        name: "push eax; pop ecx: the stack's dword lies over a page's end",
        text: b"\x50\x59",
        words: [0x4030201, 0, 0, 0, 0x1003, 0, 0, 0],
        budget: 2,
        count: 2,
        words_after: [0x4030201, 0x4030201, 0, 0, 0x1003, 0, 0, 0],
        eip_after: 2,
        memory_after: &[(0xFFF, 1), (0x1000, 2), (0x1001, 3), (0x1002, 4)],
        ..PAGES
    },
    Row {
        name: "rep movsd: three dwords, up",
        words: [0, 3, 0, 0, 0, 0, 0xFFA, 0x1FF9],
        words_after: [0, 0, 0, 0, 0, 0, 0x1006, 0x2005],
        ..DWORDS
    },
    Row {
        name: "rep movsd: three dwords, down",
        words: [0, 3, 0, 0, 0, 0, 0x1002, 0x2001],
        flags: DOWN,
        words_after: [0, 0, 0, 0, 0, 0, 0xFF6, 0x1FF5],
        flags_after: ONES + DOWN,
        ..DWORDS
    },
    Row {
        name: "mov eax, 0x5; inc eax; jmp 0xffe: the mov lies over a page's end, and all runs twice",
        eip: 0xFFE,
        text: b"\xB8\x05\x00\x00\x00\x40\xEB\xF8",
        budget: 6,
        count: 6,
        words_after: [6, 0, 0, 0, 0, 0, 0, 0],
        eip_after: 0xFFE,
        flags_after: ONES + PARITY,
        ..ROW
    },
    Row {
        name: "mov eax, 0x5; mov byte [0x1000], 0x7; jmp 0xffe: the first mov is mov eax, 0x705 after the jump",
        shared: true,
        eip: 0xFFE,
        memory: &[
            (0xFFE, 0xB8),
            (0xFFF, 0x05),
            (0x1003, 0xC6),
            (0x1004, 0x05),
            (0x1006, 0x10),
            (0x1009, 0x07),
            (0x100A, 0xEB),
            (0x100B, 0xF2),
        ],
        budget: 4,
        count: 4,
        words_after: [0x705, 0, 0, 0, 0, 0, 0, 0],
        eip_after: 0x1003,
        memory_after: &[
            (0xFFE, 0xB8),
            (0xFFF, 0x05),
            (0x1000, 0x07),
            (0x1003, 0xC6),
            (0x1004, 0x05),
            (0x1006, 0x10),
            (0x1009, 0x07),
            (0x100A, 0xEB),
            (0x100B, 0xF2),
        ],
        ..PAGES
    },
];

fn segment_of(alloc: Global, limit: u32, bytes: &[(u32, u8)]) -> Result<Segment, Fail> {
    let mut segment = Segment::new(alloc, limit)?;
    for (at, byte) in bytes {
        segment.write(*at, Size::Byte, u32::from(*byte))?;
    }
    Ok(segment)
}

/// A row's code: the data segment itself, or a text in a segment of its own.
fn code_of(alloc: Global, row: &Row) -> Result<Code, Fail> {
    if row.shared {
        return Ok(Code::Shared);
    }
    let limit = row.eip.saturating_add(u32::try_from(row.text.len())?);
    let mut text = Segment::new(alloc, limit)?;
    text.fill_from(row.eip, row.text)?;
    Ok(Code::Separate(TextSegment::new(text)))
}

fn regs_of(words: &[u32; 8]) -> Regs {
    let mut regs = Regs::new();
    for (register, word) in REGISTERS.iter().zip(words) {
        regs.set(Size::Dword, *register, *word);
    }
    regs
}

/// What a row begins with.
fn image_of(alloc: Global, row: &Row) -> Result<Image, Fail> {
    let memory = segment_of(alloc, row.limit, row.memory)?;
    Ok(Image {
        regs: regs_of(&row.words),
        eip: row.eip,
        flags: Flags::from_bits(row.flags),
        memory,
        code: code_of(alloc, row)?,
    })
}

/// A run by the trait's bound only.
fn run_by_bound<R: Runs>(machine: &mut R, budget: u32) -> (u32, Stop) {
    machine.run(budget)
}

/// Whether registers, EIP, flags and all of the memory are what a row ends with.
fn is_left<R: Runs>(machine: &R, memory: &Segment, row: &Row) -> bool {
    let flags = Flags::from_bits(row.flags_after).values();
    let mut is_same = machine.eip() == row.eip_after && machine.flags() == flags;
    for (register, word) in REGISTERS.iter().zip(&row.words_after) {
        is_same = is_same && machine.reg(*register) == *word;
    }
    for at in 0..=row.limit {
        is_same = is_same && machine.byte(at) == memory.get(at);
    }
    is_same
}

/// Whether a run takes as many steps and stops as a row wants, with or without what is cached of
/// earlier rows at its addresses.
fn is_run(image: &mut Image, cache: Option<&mut Cache>, row: &Row) -> bool {
    let made = match cache {
        Some(cache) => run_with(image, cache, row.budget),
        None => run_by_bound(image, row.budget),
    };
    made == (row.count, row.stop) && image.flags.to_bits() == row.flags_after
}

fn is_worked(alloc: Global, cache: Option<&mut Cache>, row: &Row) -> Result<bool, Fail> {
    let mut image = image_of(alloc, row)?;
    let memory = segment_of(alloc, row.limit, row.memory_after)?;
    Ok(is_run(&mut image, cache, row) && is_left(&image, &memory, row))
}

fn work_all(rt: &impl Abort, alloc: Global, cache: &mut Cache, rows: &[Row]) -> Result<(), Fail> {
    for row in rows {
        let name = row.name;
        assert!(rt; is_worked(alloc, None, row)?, "{name}");
        assert!(rt; is_worked(alloc, Some(&mut *cache), row)?, "{name} (kept)");
    }
    Ok(())
}

/// All rows with one cache, which is left with what earlier rows ran.
fn work_tables(rt: &impl Abort, alloc: Global, cache: &mut Cache) -> Result<(), Fail> {
    work_all(rt, alloc, cache, ARITHMETIC)?;
    work_all(rt, alloc, cache, BITS)?;
    work_all(rt, alloc, cache, PLACES)?;
    work_all(rt, alloc, cache, STRINGS)?;
    work_all(rt, alloc, cache, FAULTS)?;
    work_all(rt, alloc, cache, PATCHES)?;
    work_all(rt, alloc, cache, BOUNDARIES)
}

#[test]
fn worked_rows(rt: HostRuntime) -> Result<(), Fail> {
    let mut cache = Cache::new(rt.alloc(), 0)?;
    work_tables(&rt, rt.alloc(), &mut cache)
}

const LOOP: Row = Row {
    text: b"\x40\xEB\xFD",
    memory: &[(0, 0x40), (1, 0xEB), (2, 0xFD)],
    ..ROW
};

/// A run of four steps, a write of INC EDX to address 0 of the data segment from outside, and a step
/// more; and what EAX and EDX are then.
#[derive(Drop)]
struct WriteRow {
    name: &'static str,
    begin: Row,
    eax: u32,
    edx: u32,
}

/// A loop of INC EAX, which has the same bytes in its text and in its data segment.
static LOOPS: &[WriteRow] = &[
    WriteRow {
        name: "inc eax; jmp 0x0: in the data segment it is inc edx from the fifth step on",
        begin: Row {
            shared: true,
            ..LOOP
        },
        eax: 2,
        edx: 1,
    },
    WriteRow {
        name: "inc eax; jmp 0x0: in a text of its own it stays",
        begin: LOOP,
        eax: 3,
        edx: 0,
    },
];

fn words_around_a_write(image: &mut Image, cache: &mut Cache) -> (u32, u32) {
    run_with(image, cache, 4);
    let _ = image.memory.write(0, Size::Byte, 0x42);
    run_with(image, cache, 1);
    (image.reg(Register::Eax), image.reg(Register::Edx))
}

/// EAX and EDX after a write that the run of a row meets.
fn words_of(alloc: Global, row: &WriteRow) -> Result<(u32, u32), Fail> {
    let mut image = image_of(alloc, &row.begin)?;
    let mut cache = Cache::new(alloc, 0)?;
    Ok(words_around_a_write(&mut image, &mut cache))
}

#[test]
fn writes_from_outside(rt: HostRuntime) -> Result<(), Fail> {
    for row in LOOPS {
        let name = row.name;
        let words = words_of(rt.alloc(), row)?;
        assert!(rt; words == (row.eax, row.edx), "{name}");
    }
    Ok(())
}

/// A text of 1,500 INC EAX and a jump back to the first.
fn long_loop(alloc: Global) -> Result<Image, Fail> {
    let mut text = Segment::new(alloc, 1_505)?;
    for at in 0..1_500 {
        text.write(at, Size::Byte, 0x40)?;
    }
    text.fill_from(1_500, b"\xE9\x1F\xFA\xFF\xFF")?;
    Ok(Image {
        regs: Regs::new(),
        eip: 0,
        flags: Flags::from_bits(0),
        memory: Segment::new(alloc, LIMIT)?,
        code: Code::Separate(TextSegment::new(text)),
    })
}

/// What a run of the long loop makes, and EAX and EIP after it, with a cache for code of so many bytes.
fn run_long_loop(alloc: Global, code: usize) -> Result<((u32, Stop), u32, u32), Fail> {
    let mut image = long_loop(alloc)?;
    let mut cache = Cache::new(alloc, code)?;
    let made = run_with(&mut image, &mut cache, 3 * 1_501 + 7);
    Ok((made, image.reg(Register::Eax), image.eip()))
}

/// A cache has 128 entries at least, so the loop's instructions take each other's entries in one cache, and
/// not in the other.
#[test]
fn loops_longer_than_a_cache(rt: HostRuntime) -> Result<(), Fail> {
    for code in [0, 1_505] {
        let ran = run_long_loop(rt.alloc(), code)?;
        assert!(rt; ran == ((4_510, Stop::Spent), 4_507, 7), "{code}");
    }
    Ok(())
}
