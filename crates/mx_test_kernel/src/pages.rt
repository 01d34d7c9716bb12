//! A message, kernel calls and their copies over the ends of pages.

use crate::calls_by_hand::{Trap, make_call, make_trap};
use crate::kernel_numbers::{ALL_BUT_GRANT, ALL_TRAPS, OK, VIRCOPY, WHOIS};
use crate::tables::{add_image, word_at};
use mx_exec::Image;
use mx_kcall::After;
use mx_mem::Segment;
use mx_proc::{ANY, Masks, Rules, SYSTEM, Slot, Table, Terms};
use mx_word::{Register, Size};
use std::alloc::Global;
use std::process::Abort;
use std::test::Fail;

const LIMIT: u32 = 0x5000;

/// Where each process has its buffer: 16 bytes of it before a page's end, and 20 after.
const BUFFER: u32 = 0x3FF0;

/// Where the bytes end that copies read and write.
const END: u32 = 0x3000;

/// A copy out of slot 0, over three pages.
struct Copied {
    name: &'static str,
    /// The slot that it copies to.
    slot: Slot,
    from: u32,
    to: u32,
    count: u32,
}

static COPIES: &[Copied] = &[
    Copied {
        name: "up within the process",
        slot: 0,
        from: 5,
        to: 1_003,
        count: 9_216,
    },
    Copied {
        name: "down within the process",
        slot: 0,
        from: 1_003,
        to: 5,
        count: 9_216,
    },
    Copied {
        name: "to another process",
        slot: 1,
        from: 4_095,
        to: 90,
        count: 8_193,
    },
];

/// What is at a place before a copy.
fn byte_before(at: u32) -> u8 {
    (at % 251) as u8
}

fn write_bytes(memory: &mut Segment) -> Result<(), Fail> {
    for at in 0..END {
        memory.write(at, Size::Byte, u32::from(byte_before(at)))?;
    }
    Ok(())
}

/// Writes a buffer's words.
fn write_words(memory: &mut Segment, words: &[u32; 9]) -> Result<(), Fail> {
    for (place, word) in (BUFFER..BUFFER + 36).step_by(4).zip(words.iter()) {
        memory.write(place, Size::Dword, *word)?;
    }
    write_bytes(memory)
}

fn image_of(alloc: Global, words: &[u32; 9]) -> Result<Image, Fail> {
    let mut memory = Segment::new(alloc, LIMIT)?;
    write_words(&mut memory, words)?;
    let mut image = Image::blank(alloc);
    image.memory = memory;
    image.regs.set(Size::Dword, Register::Ebx, BUFFER);
    Ok(image)
}

/// Adds a process that has these words in its buffer.
fn add_with(
    rt: &impl Abort,
    alloc: Global,
    table: &mut Table,
    words: &[u32; 9],
) -> Result<(), Fail> {
    let mut image = image_of(alloc, words)?;
    let masks = Masks {
        traps: ALL_TRAPS,
        sends: 3,
        calls: ALL_BUT_GRANT,
    };
    let terms = Terms {
        masks,
        level: 7,
        best: 7,
        quantum: 5,
        restarts: 0,
    };
    add_image(rt, alloc, table, &mut image, terms)
}

/// Slot 0 has a message in its buffer.
fn add_both(rt: &impl Abort, alloc: Global, table: &mut Table) -> Result<(), Fail> {
    add_with(rt, alloc, table, &[0xEE, 1, 2, 3, 4, 5, 6, 7, 8])?;
    add_with(rt, alloc, table, &[0xEE; 9])
}

fn two_processes(rt: &impl Abort, alloc: Global) -> Result<Table, Fail> {
    let mut table = Table::new(alloc, Rules::Lenient)?;
    add_both(rt, alloc, &mut table)?;
    Ok(table)
}

/// Whether slot 1, which waits, has the message of slot 0: its source, and what followed it.
fn is_sent(rt: &impl Abort, table: &mut Table) -> bool {
    make_trap(rt, table, 1, Trap::Receive(ANY));
    make_trap(rt, table, 0, Trap::Send(1));
    for (place, word) in (BUFFER..BUFFER + 36).step_by(4).zip(0..9u32) {
        if word_at(rt, table, 1, place) != word {
            return false;
        }
    }
    true
}

/// Whether slot 0 gets slot 1's endpoint, in a reply over its request.
fn is_told(rt: &impl Abort, table: &mut Table) -> bool {
    make_call(rt, table, 0, &[WHOIS, 1, 0, 0, 0, 0]) == After::Reply(OK)
        && word_at(rt, table, 0, BUFFER) == SYSTEM
        && word_at(rt, table, 0, BUFFER + 4) == OK
        && word_at(rt, table, 0, BUFFER + 8) == 1
}

/// What is at a place after a copy, as if all bytes were read first.
fn byte_after(copy: &Copied, at: u32) -> u8 {
    if at >= copy.to && at - copy.to < copy.count {
        byte_before((at - copy.to).saturating_add(copy.from))
    } else {
        byte_before(at)
    }
}

fn is_copied(rt: &impl Abort, table: &mut Table, copy: &Copied) -> bool {
    let slot = u32::from(copy.slot);
    let words = [VIRCOPY, 0, copy.from, slot, copy.to, copy.count];
    assert!(rt; make_call(rt, table, 0, &words) == After::Reply(OK));
    assert!(rt; copy.slot < table.slot_count());
    let memory = &table.process(copy.slot).image.memory;
    for at in 0..END {
        if memory.get(at) != Some(byte_after(copy, at)) {
            return false;
        }
    }
    true
}

fn is_right(rt: &impl Abort, table: &mut Table, copy: &Copied) -> bool {
    is_sent(rt, table) && is_told(rt, table) && is_copied(rt, table, copy)
}

#[test]
fn pages(rt: HostRuntime) -> Result<(), Fail> {
    for copy in COPIES {
        let name = copy.name;
        let mut table = two_processes(&rt, rt.alloc())?;
        assert!(rt; is_right(&rt, &mut table, copy), "{name}");
    }
    Ok(())
}
