//! A machine at its limits: the longest history, the most services, and the largest memories.

use mx_app_start::{NamedFile, NamedFiles, Script, start};
use mx_machine::{Answer, Event, Machine};
use mx_word::Size;
use std::alloc::Global;
use std::fmt::Write;
use std::process::Abort;
use std::test::Fail;

/// The largest memory of a process.
const LARGEST: u32 = 4_194_304;

/// The longest history.
const LONGEST: u32 = 1_048_576;

/// Writes a byte at the end of its memory, and traps.
const LARGE: &[u8] = &[
    // The header: text 0x9, data 0x0, bss 0x0, entry 0x0, total 0x400000, symbols 0x0.
    1, 3, 0x30, 0x10, 0x20, 0, 0, 0, 9, 0, 0, 0, 0, 0, 0, 0, 0, 0, 0, 0, 0, 0, 0, 0, 0, 0, 0x40, 0,
    0, 0, 0, 0,
    // The text.
    0xC6, 5, 0xFF, 0xFF, 0x3F, 0, 7, // mov byte [0x3fffff], 0x7
    0xCD, 0x21, // int 0x21
];

/// A configuration with the longest history and 32 services.
fn largest_config(alloc: Global) -> Result<String, Fail> {
    let mut text = String::new(alloc);
    write!(text, "cpus 8\nothers 4\nlog {LONGEST}\n")?;
    for number in 0..32_u8 {
        write!(
            text,
            "service s{number} large traps 1e send 0 calls 0 level 7 best 7 quantum 5 restarts 1\n"
        )?;
    }
    Ok(text)
}

/// Whether a slot's memory has the largest limit, and nothing in its last bytes.
fn is_large(rt: &impl Abort, machine: &Machine, slot: u8) -> bool {
    let table = machine.kernel().table();
    assert!(rt; slot < table.slot_count());
    let memory = &table.process(slot).image.memory;
    memory.limit() == LARGEST as usize && memory.read(LARGEST - 4, Size::Dword) == Ok(0)
}

/// Whether the process in a slot is taken, writes the last byte of its memory, and comes back.
fn works(machine: &mut Machine, slot: u8) -> bool {
    let endpoint = u32::from(slot);
    machine.apply(0, Event::Take) == Ok(Answer::Taken(endpoint, 5))
        && machine.apply(0, Event::Step).is_ok()
        && machine.image(0).is_some_and(|image| {
            image.memory.read(LARGEST - 1, Size::Byte) == Ok(7)
        })
        && machine.apply(0, Event::Back) == Ok(Answer::Returned(1))
}

/// Each memory is as large, and the first process works.
fn see_largest(rt: &impl Abort, machine: &mut Machine) {
    assert!(rt; machine.kernel().table().slot_count() == 32);
    for slot in 0..32_u8 {
        assert!(rt; is_large(rt, machine, slot), "slot {slot}");
    }
    assert!(rt; works(machine, 0));
}

#[test]
fn largest_machine(rt: HostRuntime) -> Result<(), Fail> {
    let config = largest_config(rt.alloc())?;
    let files = [
        NamedFile {
            name: "largest",
            bytes: config.as_bytes(),
        },
        NamedFile {
            name: "large",
            bytes: LARGE,
        },
        NamedFile {
            name: "empty",
            bytes: b"",
        },
    ];
    let mut reader = NamedFiles::new(&files);
    let started = start::<Script, _>(rt.alloc(), &mut reader, "largest", "empty");
    let mut machine = started.map_err(|_| "no start")?.machine;
    see_largest(&rt, &mut machine);
    Ok(())
}
