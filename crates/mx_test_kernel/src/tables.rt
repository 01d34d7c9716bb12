//! Tables of processes in memory, and what is seen of them.

use mx_exec::Image;
use mx_mem::Segment;
use mx_proc::{Masks, Rules, Slot, Table, Terms};
use mx_word::{Register, Size};
use std::alloc::Global;
use std::process::Abort;
use std::test::Fail;

/// The limit of every process.
pub(crate) const LIMIT: u32 = 0x1000;

/// An image whose EBX is 512, with five bytes at 100.
fn image_of(alloc: Global) -> Result<Image, Fail> {
    let mut image = Image::blank(alloc);
    image.memory = Segment::new(alloc, LIMIT)?;
    image.regs.set(Size::Dword, Register::Ebx, 512);
    let _ = image.memory.fill_from(100, &[1, 2, 3, 4, 5]);
    Ok(image)
}

/// Adds a process that has this image.
pub(crate) fn add_image(
    rt: &impl Abort,
    alloc: Global,
    table: &mut Table,
    image: &mut Image,
    terms: Terms,
) -> Result<(), Fail> {
    assert!(rt; table.slot_count() < 32);
    table.add(alloc, image, terms)?;
    Ok(())
}

/// Adds a process at level 7 with a quantum of 5: its EBX is 512, and five bytes are at 100.
pub(crate) fn add_process(
    rt: &impl Abort,
    alloc: Global,
    table: &mut Table,
    masks: Masks,
    best: u8,
) -> Result<(), Fail> {
    let mut image = image_of(alloc)?;
    assert!(rt; best <= 7);
    let terms = Terms {
        masks,
        level: 7,
        best,
        quantum: 5,
        restarts: 0,
    };
    add_image(rt, alloc, table, &mut image, terms)
}

/// The processes of a new table: its rules, how many they are, what they may do, and their best level.
#[derive(Clone, Copy)]
pub(crate) struct Processes {
    pub rules: Rules,
    pub used: u8,
    pub masks: Masks,
    pub best: u8,
}

/// A table of such processes.
pub(crate) fn table_of(rt: &impl Abort, alloc: Global, wanted: &Processes) -> Result<Table, Fail> {
    let mut table = Table::new(alloc, wanted.rules)?;
    for _ in 0..wanted.used {
        add_process(rt, alloc, &mut table, wanted.masks, wanted.best)?;
    }
    Ok(table)
}

/// The number at a place of a slot's memory.
pub(crate) fn word_at(rt: &impl Abort, table: &Table, slot: Slot, place: u32) -> u32 {
    assert!(rt; slot < table.slot_count());
    match table.process(slot).image.memory.read(place, Size::Dword) {
        Ok(word) => word,
        Err(_) => 0,
    }
}

/// Whether these words are at 512 and on in a slot's memory.
pub(crate) fn has_words(rt: &impl Abort, table: &Table, slot: Slot, words: &[u32]) -> bool {
    for (place, word) in (512..548).step_by(4).zip(words) {
        if word_at(rt, table, slot, place) != *word {
            return false;
        }
    }
    true
}
