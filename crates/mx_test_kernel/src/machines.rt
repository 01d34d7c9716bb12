//! Small machines in memory: their configurations and programs.

use mx_app_start::{NamedFile, NamedFiles};

/// Two instructions and a trap. ECX is 0 then, so the trap is no call; after it the text ends.
const SHORT: &[u8] = &[
    // The header: text 0xa, data 0x0, bss 0x80, entry 0x0, total 0x1000, symbols 0x0.
    1, 3, 0x30, 0x10, 0x20, 0, 0, 0, 0xa, 0, 0, 0, 0, 0, 0, 0, 0x80, 0, 0, 0, 0, 0, 0, 0, 0, 0x10,
    0, 0, 0, 0, 0, 0,
    // The text.
    0xB8, 5, 0, 0, 0, // mov eax, 0x5
    0x83, 0xC0, 0x7B, // add eax, 0x7b
    0xCD, 0x21, // int 0x21
];

/// RECEIVE from anybody, then SEND to who it was, in a loop. The buffer is at 0.
const ANSWERS: &[u8] = &[
    // The header: text 0x23, data 0x0, bss 0x80, entry 0x0, total 0x1000, symbols 0x0.
    1, 3, 0x30, 0x10, 0x20, 0, 0, 0, 0x23, 0, 0, 0, 0, 0, 0, 0, 0x80, 0, 0, 0, 0, 0, 0, 0, 0, 0x10,
    0, 0, 0, 0, 0, 0,
    // The text.
    0xB9, 2, 0, 0, 0, // mov ecx, 0x2
    0xB8, 0xCE, 0x7A, 0, 0, // mov eax, 0x7ace
    0xBB, 0, 0, 0, 0, // mov ebx, 0x0
    0xCD, 0x21, // int 0x21
    0x8B, 5, 0, 0, 0, 0, // mov eax, dword [0x0]
    0xB9, 1, 0, 0, 0, // mov ecx, 0x1
    0xCD, 0x21, // int 0x21
    0xE9, 0xDD, 0xFF, 0xFF, 0xFF, // jmp 0x0
];

/// SENDREC to 0, then EXIT.
const ASKS: &[u8] = &[
    // The header: text 0x27, data 0x0, bss 0x80, entry 0x0, total 0x1000, symbols 0x0.
    1, 3, 0x30, 0x10, 0x20, 0, 0, 0, 0x27, 0, 0, 0, 0, 0, 0, 0, 0x80, 0, 0, 0, 0, 0, 0, 0, 0, 0x10,
    0, 0, 0, 0, 0, 0,
    // The text.
    0xB9, 3, 0, 0, 0, // mov ecx, 0x3
    0xB8, 0, 0, 0, 0, // mov eax, 0x0
    0xBB, 0, 0, 0, 0, // mov ebx, 0x0
    0xCD, 0x21, // int 0x21
    0xC7, 5, 4, 0, 0, 0, 0, 6, 0, 0, // mov dword [0x4], 0x600
    0xB9, 3, 0, 0, 0, // mov ecx, 0x3
    0xB8, 0xFE, 0xFF, 0xFF, 0xFF, // mov eax, 0xfffffffe
    0xCD, 0x21, // int 0x21
];

/// Writes a byte of its data, then RECEIVE from anybody.
const WRITES: &[u8] = &[
    // The header: text 0x18, data 0x0, bss 0x80, entry 0x0, total 0x1000, symbols 0x0.
    1, 3, 0x30, 0x10, 0x20, 0, 0, 0, 0x18, 0, 0, 0, 0, 0, 0, 0, 0x80, 0, 0, 0, 0, 0, 0, 0, 0, 0x10,
    0, 0, 0, 0, 0, 0,
    // The text.
    0xC6, 5, 0, 0, 0, 0, 7, // mov byte [0x0], 0x7
    0xB9, 2, 0, 0, 0, // mov ecx, 0x2
    0xB8, 0xCE, 0x7A, 0, 0, // mov eax, 0x7ace
    0xBB, 0x40, 0, 0, 0, // mov ebx, 0x40
    0xCD, 0x21, // int 0x21
];

/// SENDREC to 3, SEND to 3, then WHOIS of slot 3.
const LOOKS: &[u8] = &[
    // The header: text 0x3d, data 0x0, bss 0x80, entry 0x0, total 0x1000, symbols 0x0.
    1, 3, 0x30, 0x10, 0x20, 0, 0, 0, 0x3d, 0, 0, 0, 0, 0, 0, 0, 0x80, 0, 0, 0, 0, 0, 0, 0, 0, 0x10,
    0, 0, 0, 0, 0, 0,
    // The text.
    0xB9, 3, 0, 0, 0, // mov ecx, 0x3
    0xB8, 3, 0, 0, 0, // mov eax, 0x3
    0xBB, 0, 0, 0, 0, // mov ebx, 0x0
    0xCD, 0x21, // int 0x21
    0xB9, 1, 0, 0, 0, // mov ecx, 0x1
    0xB8, 3, 0, 0, 0, // mov eax, 0x3
    0xCD, 0x21, // int 0x21
    0xC7, 5, 4, 0, 0, 0, 7, 6, 0, 0, // mov dword [0x4], 0x607
    0xC7, 5, 8, 0, 0, 0, 3, 0, 0, 0, // mov dword [0x8], 0x3
    0xB9, 3, 0, 0, 0, // mov ecx, 0x3
    0xB8, 0xFE, 0xFF, 0xFF, 0xFF, // mov eax, 0xfffffffe
    0xCD, 0x21, // int 0x21
];

/// Takes line 5 by IRQCTL; then RECEIVE from the hardware, and DEVIO, in a loop. The buffer is at 0.
const BUTTON: &[u8] = &[
    // The header: text 0x80, data 0x28, bss 0x0, entry 0x0, total 0x1000, symbols 0x30.
    1, 3, 0x30, 0x10, 0x20, 0, 0, 0, 0x80, 0, 0, 0, 0x28, 0, 0, 0, 0, 0, 0, 0, 0, 0, 0, 0, 0, 0x10,
    0, 0, 0x30, 0, 0, 0,
    // The text.
    0xc7, 5, 4, 0, 0, 0, 3, 6, 0, 0, // mov dword [0x4], 0x603
    0xc7, 5, 8, 0, 0, 0, 1, 0, 0, 0, // mov dword [0x8], 0x1
    0xc7, 5, 0xc, 0, 0, 0, 5, 0, 0, 0, // mov dword [0xc], 0x5
    0xb9, 3, 0, 0, 0, // mov ecx, 0x3
    0xb8, 0xfe, 0xff, 0xff, 0xff, // mov eax, 0xfffffffe
    0xbb, 0, 0, 0, 0, // mov ebx, 0x0
    0xcd, 0x21, // int 0x21
    0xb9, 2, 0, 0, 0, // mov ecx, 0x2
    0xb8, 0xff, 0xff, 0xff, 0xff, // mov eax, 0xffffffff
    0xcd, 0x21, // int 0x21
    0x83, 5, 0x24, 0, 0, 0, 1, // add dword [0x24], 0x1
    0x8b, 5, 0x24, 0, 0, 0, // mov eax, dword [0x24]
    0x83, 0xc0, 0x30, // add eax, 0x30
    0x89, 5, 0x10, 0, 0, 0, // mov dword [0x10], eax
    0xc7, 5, 4, 0, 0, 0, 4, 6, 0, 0, // mov dword [0x4], 0x604
    0xc7, 5, 8, 0, 0, 0, 1, 0, 0, 0, // mov dword [0x8], 0x1
    0xc7, 5, 0xc, 0, 0, 0, 0, 0, 0, 0, // mov dword [0xc], 0x0
    0xb9, 3, 0, 0, 0, // mov ecx, 0x3
    0xb8, 0xfe, 0xff, 0xff, 0xff, // mov eax, 0xfffffffe
    0xcd, 0x21, // int 0x21
    0xe9, 0xaf, 0xff, 0xff, 0xff, // jmp 0x2f
    // The data.
    0, 0, 0, 0, 0, 0, 0, 0, 0, 0, 0, 0, 0, 0, 0, 0, 0, 0, 0, 0, 0, 0, 0, 0, 0, 0, 0, 0, 0, 0, 0, 0,
    0, 0, 0, 0, 0, 0, 0, 0,
    // The symbols.
    0x62, 0x75, 0x66, 0, 0, 0, 0, 0, 0, 0, 0, 0, 3, 0, 0, 0, // buf: 0x0 of the data
    0x63, 0x6f, 0x75, 0x6e, 0x74, 0, 0, 0, 0x24, 0, 0, 0, 3, 0, 0, 0, // count: 0x24 of the data
    0x77, 0x61, 0x69, 0x74, 0, 0, 0, 0, 0x2f, 0, 0, 0, 2, 0, 0, 0, // wait: 0x2f of the text
];

/// Never runs.
const IDLE: &[u8] = &[
    // The header: text 0x1, data 0x0, bss 0x80, entry 0x0, total 0x1000, symbols 0x0.
    1, 3, 0x30, 0x10, 0x20, 0, 0, 0, 0x1, 0, 0, 0, 0, 0, 0, 0, 0x80, 0, 0, 0, 0, 0, 0, 0, 0, 0x10,
    0, 0, 0, 0, 0, 0,
    // The text.
    0x90, // nop
];

/// RECEIVE from anybody, then nineteen instructions and a trap.
const WORKS: &[u8] = &[
    // The header: text 0x26, data 0x0, bss 0x80, entry 0x0, total 0x1000, symbols 0x0.
    1, 3, 0x30, 0x10, 0x20, 0, 0, 0, 0x26, 0, 0, 0, 0, 0, 0, 0, 0x80, 0, 0, 0, 0, 0, 0, 0, 0, 0x10,
    0, 0, 0, 0, 0, 0,
    // The text.
    0xB9, 2, 0, 0, 0, // mov ecx, 0x2
    0xB8, 0xCE, 0x7A, 0, 0, // mov eax, 0x7ace
    0xBB, 0x40, 0, 0, 0, // mov ebx, 0x40
    0xCD, 0x21, // int 0x21
    0x40, 0x40, 0x40, 0x40, 0x40, 0x40, 0x40, 0x40, 0x40, 0x40, 0x40, 0x40, 0x40, 0x40, 0x40, 0x40,
    0x40, 0x40, 0x40, // inc eax, 19 times
    0xCD, 0x21, // int 0x21
];

/// TIMES: the uptime is at 8 and the steps at 12.
const COUNTS: &[u8] = &[
    // The header: text 0x1b, data 0x0, bss 0x80, entry 0x0, total 0x1000, symbols 0x0.
    1, 3, 0x30, 0x10, 0x20, 0, 0, 0, 0x1b, 0, 0, 0, 0, 0, 0, 0, 0x80, 0, 0, 0, 0, 0, 0, 0, 0, 0x10,
    0, 0, 0, 0, 0, 0,
    // The text.
    0xC7, 5, 4, 0, 0, 0, 1, 6, 0, 0, // mov dword [0x4], 0x601
    0xB9, 3, 0, 0, 0, // mov ecx, 0x3
    0xB8, 0xFE, 0xFF, 0xFF, 0xFF, // mov eax, 0xfffffffe
    0xBB, 0, 0, 0, 0, // mov ebx, 0x0
    0xCD, 0x21, // int 0x21
];

/// WHOIS of slot 0, then 16 bytes from 4 of its own memory are copied to 256 of process 1, then of 1025.
const COPIES: &[u8] = &[
    // The header: text 0xa3, data 0x0, bss 0x80, entry 0x0, total 0x1000, symbols 0x0.
    1, 3, 0x30, 0x10, 0x20, 0, 0, 0, 0xA3, 0, 0, 0, 0, 0, 0, 0, 0x80, 0, 0, 0, 0, 0, 0, 0, 0, 0x10,
    0, 0, 0, 0, 0, 0,
    // The text.
    0xBB, 0, 0, 0, 0, // mov ebx, 0x0
    0xC7, 5, 4, 0, 0, 0, 7, 6, 0, 0, // mov dword [0x4], 0x607
    0xC7, 5, 8, 0, 0, 0, 0, 0, 0, 0, // mov dword [0x8], 0x0
    0xB9, 3, 0, 0, 0, // mov ecx, 0x3
    0xB8, 0xFE, 0xFF, 0xFF, 0xFF, // mov eax, 0xfffffffe
    0xCD, 0x21, // int 0x21
    0x8B, 0x15, 8, 0, 0, 0, // mov edx, dword [0x8]
    0xC7, 5, 4, 0, 0, 0, 5, 6, 0, 0, // mov dword [0x4], 0x605
    0xC7, 5, 0xC, 0, 0, 0, 4, 0, 0, 0, // mov dword [0xc], 0x4
    0xC7, 5, 0x10, 0, 0, 0, 1, 0, 0, 0, // mov dword [0x10], 0x1
    0xC7, 5, 0x14, 0, 0, 0, 0, 1, 0, 0, // mov dword [0x14], 0x100
    0xC7, 5, 0x18, 0, 0, 0, 0x10, 0, 0, 0, // mov dword [0x18], 0x10
    0xB8, 0xFE, 0xFF, 0xFF, 0xFF, // mov eax, 0xfffffffe
    0xCD, 0x21, // int 0x21
    0xC7, 5, 4, 0, 0, 0, 5, 6, 0, 0, // mov dword [0x4], 0x605
    0x89, 0x15, 8, 0, 0, 0, // mov dword [0x8], edx
    0xC7, 5, 0xC, 0, 0, 0, 4, 0, 0, 0, // mov dword [0xc], 0x4
    0xC7, 5, 0x10, 0, 0, 0, 1, 4, 0, 0, // mov dword [0x10], 0x401
    0xC7, 5, 0x14, 0, 0, 0, 0, 1, 0, 0, // mov dword [0x14], 0x100
    0xC7, 5, 0x18, 0, 0, 0, 0x10, 0, 0, 0, // mov dword [0x18], 0x10
    0xB8, 0xFE, 0xFF, 0xFF, 0xFF, // mov eax, 0xfffffffe
    0xCD, 0x21, // int 0x21
];

/// GRANT to process 0 of 16 bytes at 256, for writing, then RECEIVE from anybody.
const GRANTS: &[u8] = &[
    // The header: text 0x45, data 0x0, bss 0x80, entry 0x0, total 0x1000, symbols 0x0.
    1, 3, 0x30, 0x10, 0x20, 0, 0, 0, 0x45, 0, 0, 0, 0, 0, 0, 0, 0x80, 0, 0, 0, 0, 0, 0, 0, 0, 0x10,
    0, 0, 0, 0, 0, 0,
    // The text.
    0xBB, 0, 0, 0, 0, // mov ebx, 0x0
    0xC7, 5, 4, 0, 0, 0, 8, 6, 0, 0, // mov dword [0x4], 0x608
    0xC7, 5, 0xC, 0, 0, 0, 0, 1, 0, 0, // mov dword [0xc], 0x100
    0xC7, 5, 0x10, 0, 0, 0, 0x10, 0, 0, 0, // mov dword [0x10], 0x10
    0xC7, 5, 0x14, 0, 0, 0, 2, 0, 0, 0, // mov dword [0x14], 0x2
    0xB9, 3, 0, 0, 0, // mov ecx, 0x3
    0xB8, 0xFE, 0xFF, 0xFF, 0xFF, // mov eax, 0xfffffffe
    0xCD, 0x21, // int 0x21
    0xB9, 2, 0, 0, 0, // mov ecx, 0x2
    0xB8, 0xCE, 0x7A, 0, 0, // mov eax, 0x7ace
    0xCD, 0x21, // int 0x21
];

static SMALL: &[NamedFile<'static>] = &[
    NamedFile {
        name: "empty",
        bytes: b"",
    },
    NamedFile {
        name: "asked",
        bytes: b"cpus 8\nlog 64\n\
            service a answers.out traps 1e send 2 calls 0 level 4 best 4 quantum 20 restarts 0\n\
            service b asks.out traps 1e send 1 calls 1 level 7 best 7 quantum 20 restarts 0\n",
    },
    NamedFile {
        name: "short",
        bytes: b"cpus 8\nlog 8\n\
            service a short.out traps 1e send 0 calls 0 level 7 best 7 quantum 5 restarts 0\n",
    },
    NamedFile {
        name: "log_of_two",
        bytes: b"cpus 8\nlog 2\n\
            service a short.out traps 1e send 0 calls 0 level 7 best 7 quantum 5 restarts 0\n",
    },
    NamedFile {
        name: "log_of_one",
        bytes: b"cpus 8\nlog 1\n\
            service a short.out traps 1e send 0 calls 0 level 7 best 7 quantum 5 restarts 0\n",
    },
    NamedFile {
        name: "looks",
        bytes: b"cpus 8\nlog 64\n\
            service a looks.out traps 1e send 8 calls 80 level 7 best 7 quantum 20 restarts 0\n\
            service b idle.out traps 1e send 0 calls 0 level 14 best 14 quantum 20 restarts 0\n\
            service c idle.out traps 1e send 0 calls 0 level 14 best 14 quantum 20 restarts 0\n\
            service d writes.out traps 1e send 0 calls 0 level 4 best 4 quantum 20 restarts 1\n",
    },
    NamedFile {
        name: "works",
        bytes: b"cpus 8\nlog 64\n\
            service a works.out traps 1e send 0 calls 0 level 4 best 4 quantum 24 restarts 1\n\
            service b asks.out traps 1e send 1 calls 1 level 7 best 7 quantum 20 restarts 0\n",
    },
    NamedFile {
        name: "eight",
        bytes: b"cpus 8\nlog 32\n\
            service a short.out traps 1e send 0 calls 0 level 7 best 7 quantum 5 restarts 0\n\
            service b short.out traps 1e send 0 calls 0 level 7 best 7 quantum 5 restarts 0\n\
            service c short.out traps 1e send 0 calls 0 level 7 best 7 quantum 5 restarts 0\n\
            service d short.out traps 1e send 0 calls 0 level 7 best 7 quantum 5 restarts 0\n\
            service e short.out traps 1e send 0 calls 0 level 7 best 7 quantum 5 restarts 0\n\
            service f short.out traps 1e send 0 calls 0 level 7 best 7 quantum 5 restarts 0\n\
            service g short.out traps 1e send 0 calls 0 level 7 best 7 quantum 5 restarts 0\n\
            service h short.out traps 1e send 0 calls 0 level 7 best 7 quantum 5 restarts 0\n",
    },
    NamedFile {
        name: "times",
        bytes: b"cpus 8\nlog 8\n\
            service a counts.out traps 1e send 0 calls 2 level 7 best 7 quantum 20 restarts 0\n",
    },
    NamedFile {
        name: "button",
        bytes: b"cpus 8\nlog 1100\n\
            service a button.out traps c send 0 calls 18 level 4 best 4 quantum 99 restarts 0\n",
    },
    NamedFile {
        name: "button.out",
        bytes: BUTTON,
    },
    NamedFile {
        name: "granted",
        bytes: b"cpus 8\nlog 64\n\
            service a copies.out traps 1e send 0 calls a0 level 4 best 4 quantum 40 restarts 1\n\
            service b grants.out traps 1e send 0 calls 100 level 7 best 7 quantum 40 restarts 1\n",
    },
    NamedFile {
        name: "lenient",
        bytes: b"cpus 8\nlog 64\nrules 1\n\
            service a copies.out traps 1e send 0 calls a0 level 4 best 4 quantum 40 restarts 1\n\
            service b grants.out traps 1e send 0 calls 100 level 7 best 7 quantum 40 restarts 1\n",
    },
    NamedFile {
        name: "copies.out",
        bytes: COPIES,
    },
    NamedFile {
        name: "grants.out",
        bytes: GRANTS,
    },
    NamedFile {
        name: "short.out",
        bytes: SHORT,
    },
    NamedFile {
        name: "answers.out",
        bytes: ANSWERS,
    },
    NamedFile {
        name: "asks.out",
        bytes: ASKS,
    },
    NamedFile {
        name: "writes.out",
        bytes: WRITES,
    },
    NamedFile {
        name: "looks.out",
        bytes: LOOKS,
    },
    NamedFile {
        name: "idle.out",
        bytes: IDLE,
    },
    NamedFile {
        name: "works.out",
        bytes: WORKS,
    },
    NamedFile {
        name: "counts.out",
        bytes: COUNTS,
    },
];

/// What reads the files of machines that are worked by hand; the text that drives them is "empty".
pub(crate) fn small_reader() -> NamedFiles<'static> {
    NamedFiles::new(SMALL)
}
