//! Files in memory: programs, configurations, and the texts that drive their machines.

use mx_app_db::{NamedFile, NamedFiles};

/// Waits at `top` for anybody, answers who it was, and jumps to `top`; its buffer is `buf`, at 0.
pub(crate) const DRIVER: &[u8] = &[
    // The header: text 0x23, data 0x24, bss 0x0, entry 0x0, total 0x1000, symbols 0x20.
    1, 3, 0x30, 0x10, 0x20, 0, 0, 0, 0x23, 0, 0, 0, 0x24, 0, 0, 0, 0, 0, 0, 0, 0, 0, 0, 0, 0, 0x10,
    0, 0, 0x20, 0, 0, 0,
    // The text.
    0xB9, 2, 0, 0, 0, // mov ecx, 0x2
    0xB8, 0xCE, 0x7A, 0, 0, // mov eax, 0x7ace
    0xBB, 0, 0, 0, 0, // mov ebx, 0x0
    0xCD, 0x21, // int 0x21
    0x8B, 5, 0, 0, 0, 0, // mov eax, dword [0x0]
    0xB9, 1, 0, 0, 0, // mov ecx, 0x1
    0xCD, 0x21, // int 0x21
    0xE9, 0xDD, 0xFF, 0xFF, 0xFF, // jmp 0x0
    // The data.
    0, 0, 0, 0, 0, 0, 0, 0, 0, 0, 0, 0, 0, 0, 0, 0, 0, 0, 0, 0, 0, 0, 0, 0, 0, 0, 0, 0, 0, 0, 0, 0,
    0, 0, 0, 0,
    // The symbols.
    0x62, 0x75, 0x66, 0, 0, 0, 0, 0, 0, 0, 0, 0, 3, 0, 0, 0, // buf: 0x0 of the data
    0x74, 0x6F, 0x70, 0, 0, 0, 0, 0, 0, 0, 0, 0, 2, 0, 0, 0, // top: 0x0 of the text
];

/// Calls the driver, then EXIT.
pub(crate) const CLIENT: &[u8] = &[
    // The header: text 0x27, data 0x24, bss 0x0, entry 0x0, total 0x1000, symbols 0x10.
    1, 3, 0x30, 0x10, 0x20, 0, 0, 0, 0x27, 0, 0, 0, 0x24, 0, 0, 0, 0, 0, 0, 0, 0, 0, 0, 0, 0, 0x10,
    0, 0, 0x10, 0, 0, 0,
    // The text.
    0xB9, 3, 0, 0, 0, // mov ecx, 0x3
    0xB8, 0, 0, 0, 0, // mov eax, 0x0
    0xBB, 0, 0, 0, 0, // mov ebx, 0x0
    0xCD, 0x21, // int 0x21
    0xC7, 5, 4, 0, 0, 0, 0, 6, 0, 0, // mov dword [0x4], 0x600
    0xB9, 3, 0, 0, 0, // mov ecx, 0x3
    0xB8, 0xFE, 0xFF, 0xFF, 0xFF, // mov eax, 0xfffffffe
    0xCD, 0x21, // int 0x21
    // The data.
    0, 0, 0, 0, 0, 0, 0, 0, 0, 0, 0, 0, 0, 0, 0, 0, 0, 0, 0, 0, 0, 0, 0, 0, 0, 0, 0, 0, 0, 0, 0, 0,
    0, 0, 0, 0,
    // The symbols.
    0x62, 0x75, 0x66, 0, 0, 0, 0, 0, 0, 0, 0, 0, 3, 0, 0, 0, // buf: 0x0 of the data
];

/// A driver, and who calls it.
pub(crate) const PAIR: &[u8] = b"cpus 1\nlog 64\n\
    service drv drv.out traps 1e send 2 calls 0 level 4 best 4 quantum 20 restarts 0\n\
    service cli cli.out traps 1e send 1 calls 1 level 7 best 7 quantum 20 restarts 0\n";

/// A sum, and a trap that fails.
pub(crate) const SUM: &[u8] = &[
    // The header: text 0xa, data 0x0, bss 0x0, entry 0x0, total 0x1000, symbols 0x0.
    1, 3, 0x30, 0x10, 0x20, 0, 0, 0, 0xA, 0, 0, 0, 0, 0, 0, 0, 0, 0, 0, 0, 0, 0, 0, 0, 0, 0x10, 0,
    0, 0, 0, 0, 0,
    // The text.
    0xB8, 5, 0, 0, 0, // mov eax, 0x5
    0x83, 0xC0, 0x7B, // add eax, 0x7b
    0xCD, 0x21, // int 0x21
];

/// RECEIVE from anybody, count, and SEND the count back, in a loop.
const COUNTER: &[u8] = &[
    // The header: text 0x36, data 0x28, bss 0x0, entry 0x0, total 0x1000, symbols 0x30.
    1, 3, 0x30, 0x10, 0x20, 0, 0, 0, 0x36, 0, 0, 0, 0x28, 0, 0, 0, 0, 0, 0, 0, 0, 0, 0, 0, 0, 0x10,
    0, 0, 0x30, 0, 0, 0,
    // The text.
    0xb9, 2, 0, 0, 0, // mov ecx, 0x2
    0xb8, 0xce, 0x7a, 0, 0, // mov eax, 0x7ace
    0xbb, 0, 0, 0, 0, // mov ebx, 0x0
    0xcd, 0x21, // int 0x21
    0x83, 5, 0x24, 0, 0, 0, 1, // add dword [0x24], 0x1
    0x8b, 5, 0x24, 0, 0, 0, // mov eax, dword [0x24]
    0x89, 5, 8, 0, 0, 0, // mov dword [0x8], eax
    0x8b, 5, 0, 0, 0, 0, // mov eax, dword [0x0]
    0xb9, 1, 0, 0, 0, // mov ecx, 0x1
    0xcd, 0x21, // int 0x21
    0xe9, 0xca, 0xff, 0xff, 0xff, // jmp 0x0
    // The data.
    0, 0, 0, 0, 0, 0, 0, 0, 0, 0, 0, 0, 0, 0, 0, 0, 0, 0, 0, 0, 0, 0, 0, 0, 0, 0, 0, 0, 0, 0, 0, 0,
    0, 0, 0, 0, 0, 0, 0, 0,
    // The symbols.
    0x62, 0x75, 0x66, 0, 0, 0, 0, 0, 0, 0, 0, 0, 3, 0, 0, 0, // buf: 0x0 of the data
    0x63, 0x6f, 0x75, 0x6e, 0x74, 0, 0, 0, 0x24, 0, 0, 0, 3, 0, 0, 0, // count: 0x24 of the data
    0x74, 0x6f, 0x70, 0, 0, 0, 0, 0, 0, 0, 0, 0, 2, 0, 0, 0, // top: 0x0 of the text
];

/// SENDREC to the counter, and DEVIO of the digit that it answers, in a loop; WHOIS of slot 0 where it is gone.
const ASKER: &[u8] = &[
    // The header: text 0x8a, data 0x28, bss 0x0, entry 0x0, total 0x1000, symbols 0x40.
    1, 3, 0x30, 0x10, 0x20, 0, 0, 0, 0x8a, 0, 0, 0, 0x28, 0, 0, 0, 0, 0, 0, 0, 0, 0, 0, 0, 0, 0x10,
    0, 0, 0x40, 0, 0, 0,
    // The text.
    0xb9, 3, 0, 0, 0, // mov ecx, 0x3
    0x8b, 5, 0x24, 0, 0, 0, // mov eax, dword [0x24]
    0xbb, 0, 0, 0, 0, // mov ebx, 0x0
    0xcd, 0x21, // int 0x21
    0x83, 0xf8, 0, // cmp eax, 0x0
    0x0f, 0x85, 0x3e, 0, 0, 0, // jnz 0x59
    0x8b, 5, 8, 0, 0, 0, // mov eax, dword [0x8]
    0x83, 0xc0, 0x30, // add eax, 0x30
    0x89, 5, 0x10, 0, 0, 0, // mov dword [0x10], eax
    0xc7, 5, 4, 0, 0, 0, 4, 6, 0, 0, // mov dword [0x4], 0x604
    0xc7, 5, 8, 0, 0, 0, 1, 0, 0, 0, // mov dword [0x8], 0x1
    0xc7, 5, 0x0c, 0, 0, 0, 0, 0, 0, 0, // mov dword [0xc], 0x0
    0xb9, 3, 0, 0, 0, // mov ecx, 0x3
    0xb8, 0xfe, 0xff, 0xff, 0xff, // mov eax, 0xfffffffe
    0xcd, 0x21, // int 0x21
    0xe9, 0xa7, 0xff, 0xff, 0xff, // jmp 0x0
    0xc7, 5, 4, 0, 0, 0, 7, 6, 0, 0, // mov dword [0x4], 0x607
    0xc7, 5, 8, 0, 0, 0, 0, 0, 0, 0, // mov dword [0x8], 0x0
    0xb9, 3, 0, 0, 0, // mov ecx, 0x3
    0xb8, 0xfe, 0xff, 0xff, 0xff, // mov eax, 0xfffffffe
    0xcd, 0x21, // int 0x21
    0x8b, 5, 8, 0, 0, 0, // mov eax, dword [0x8]
    0x89, 5, 0x24, 0, 0, 0, // mov dword [0x24], eax
    0xe9, 0x76, 0xff, 0xff, 0xff, // jmp 0x0
    // The data.
    0, 0, 0, 0, 0, 0, 0, 0, 0, 0, 0, 0, 0, 0, 0, 0, 0, 0, 0, 0, 0, 0, 0, 0, 0, 0, 0, 0, 0, 0, 0, 0,
    0, 0, 0, 0, 0, 0, 0, 0,
    // The symbols.
    0x62, 0x75, 0x66, 0, 0, 0, 0, 0, 0, 0, 0, 0, 3, 0, 0, 0, // buf: 0x0 of the data
    0x77, 0x68, 0x6f, 0x6d, 0, 0, 0, 0, 0x24, 0, 0, 0, 3, 0, 0, 0, // whom: 0x24 of the data
    0x61, 0x73, 0x6b, 0, 0, 0, 0, 0, 0, 0, 0, 0, 2, 0, 0, 0, // ask: 0x0 of the text
    0x67, 0x6f, 0x6e, 0x65, 0, 0, 0, 0, 0x59, 0, 0, 0, 2, 0, 0, 0, // gone: 0x59 of the text
];

/// The files of commands and of the machines that they drive.
static FILES: &[NamedFile<'static>] = &[
    NamedFile {
        name: "pair",
        bytes: PAIR,
    },
    NamedFile {
        name: "drv.out",
        bytes: DRIVER,
    },
    NamedFile {
        name: "cli.out",
        bytes: CLIENT,
    },
    NamedFile {
        name: "one",
        bytes: b"cpus 1\nlog 8\n\
            service a a.out traps 1e send 0 calls 0 level 7 best 5 quantum 5 restarts 0\n",
    },
    NamedFile {
        name: "a.out",
        bytes: SUM,
    },
    NamedFile {
        name: "sum.s",
        bytes: b".sep\nmov eax, 5\nadd eax, 0x7b\nint 33\n",
    },
    NamedFile {
        name: "full",
        bytes: b"cpus 1\nlog 3\n\
            service drv drv.out traps 1e send 2 calls 0 level 4 best 4 quantum 20 restarts 0\n\
            service cli cli.out traps 1e send 1 calls 1 level 7 best 7 quantum 20 restarts 0\n",
    },
    NamedFile {
        name: "two_full",
        bytes: b"cpus 2\nlog 3\n\
            service drv drv.out traps 1e send 2 calls 0 level 4 best 4 quantum 20 restarts 0\n\
            service cli cli.out traps 1e send 1 calls 1 level 7 best 7 quantum 20 restarts 0\n",
    },
    NamedFile {
        name: "restart",
        bytes: b"cpus 1\nlog 64\n\
            service counter counter.out traps 1e send 2 calls 0 level 4 best 4 quantum 99 restarts 1\n\
            service asker asker.out traps 1e send 1 calls 90 level 7 best 7 quantum 99 restarts 0\n",
    },
    NamedFile {
        name: "counter.out",
        bytes: COUNTER,
    },
    NamedFile {
        name: "asker.out",
        bytes: ASKER,
    },
    NamedFile {
        name: "kills",
        bytes: b"tick\nkill 0\nkill 0\nrespawn 0\nline 3\nrespawn 5",
    },
    NamedFile {
        name: "whole",
        bytes: b"0 take\n0 back 3\n0 take\n0 back 1\n",
    },
    NamedFile {
        name: "look",
        bytes: b"break 0 top\nmessages\n",
    },
    NamedFile {
        name: "empty",
        bytes: b"",
    },
];

/// What reads them.
pub(crate) fn reader() -> NamedFiles<'static> {
    NamedFiles::new(FILES)
}
