//! Whether the result of a refused call is ever read: by the first instruction after the call that reads or overwrites it.

ghost use Rattle.std.specs.Prelude.{◌≡◌, ◌^◌, ◌<◌, ◌≤◌, OnOk, drop, map};
ghost use Rattle.std.specs.Option.{option_map};
ghost use Rattle.mx_decode.specs.Decode.{front};
ghost use Rattle.mx_exec.specs.Image.{code_bytes};
ghost use Rattle.mx_machine.specs.Machine.{world_of};
ghost use Rattle.mx_look.specs.Going.{acting};
ghost use Rattle.mx_machine.specs.World.{held_by};
ghost use Rattle.mx_why.specs.Readings.{cell_of, closed, followed, followed_by, followed_call, forgotten, is_absent, is_careless, is_excused, is_sending, is_unread, opened, read_on, reading_of, sends_by, unread_text, use_at, use_in, use_of, used, where_text};

use crate::cells::use_of_cell;
use crate::failed_calls::FailedCall;
use crate::uses::{Use, use_of_eax};
use crate::waiting::{NOTIFY, SEND};
use mx_exec::{CopyFor, Image, copy_image, step};
use mx_insn::{Insn, Plain};
use mx_look::{SlotGlance, Transition, acting, gone_on, kernel_call, slot_in};
use mx_machine::{Machine, Record, Recorded};
use mx_print_report::Doing;
use mx_proc::{Errno, Slot};
use mx_word::Register;
use std::alloc::{AllocError, Global};

/// Where a result is.
#[derive(Clone, Copy)]
pub enum Cell {
    /// Of a trap.
    Eax,
    /// Of a kernel call: the type of the reply, at an address.
    Word(u32),
}

/// What is known of the results of calls that are alike.
#[derive(Clone, Copy)]
pub struct Reading {
    /// Where the last one is.
    pub cell: Cell,
    /// Whether it is still there, neither read nor overwritten.
    pub is_open: bool,
    /// Whether one of them was read.
    pub is_read: bool,
    /// Whether one of them was overwritten, and hadn't been read.
    pub is_lost: bool,
    /// Whether its process needn't care for it.
    pub is_excused: bool,
}

/// What an instruction does with a result.
fn use_of(cell: Cell, insn: &Insn, image: &Image) -> Use
    ensures { result ≡ use_of cell insn.now image.now }
{
    match cell {
        Cell::Eax => use_of_eax(insn),
        Cell::Word(at) => use_of_cell(at, insn, image),
    }
}

/// What the instruction at EIP does with a result.
#[tactic(auto, unfolding(crate::specs::Readings::use_at))]
fn use_at(cell: Cell, image: &Image) -> Use
    ensures { result ≡ use_at cell image.now }
{
    let mut insn = Insn::Plain(Plain::Nop);
    match image.fetch(&mut insn) {
        Ok(_) => use_of(cell, &insn, image),
        Err(_) => Use::Neither,
    }
}

/// What the first of so many steps does with a result that does something with it. Makes these steps, up to that one.
fn use_in(cell: Cell, steps: u32, image: &mut Image) -> Use
    ensures { result ≡ use_in cell steps image.old }
{
    for _ in 0..steps {
        match use_at(cell, image) {
            Use::Reads => return Use::Reads,
            Use::Overwrites => return Use::Overwrites,
            Use::Neither => {
                step(image);
            }
        }
    }
    Use::Neither
}

impl Reading {
    /// There is a further result.
    pub(crate) fn open(&mut self, cell: Cell)
        ensures { self.new ≡ opened self.old cell }
    {
        self.cell = cell;
        self.is_open = true;
    }

    /// The process is there no more.
    fn close(&mut self)
        ensures { self.new ≡ closed self.old }
    {
        self.is_open = false;
    }

    /// An instruction does this with the last result.
    fn take(&mut self, found: Use)
        ensures { self.new ≡ used self.old found }
    {
        match found {
            Use::Neither => {}
            Use::Reads => {
                self.is_open = false;
                self.is_read = true;
            }
            Use::Overwrites => {
                self.is_open = false;
                self.is_lost = true;
            }
        }
    }

    /// Its process makes so many steps of an image.
    fn read_on(&mut self, alloc: Global, steps: u32, image: &Image) -> Result<(), AllocError>
        ensures { OnOk result (self.new ≡ read_on steps image.now self.old) }
    {
        if !self.is_open {
            return Ok(());
        }
        match copy_image(alloc, image, CopyFor::Storing) {
            Ok(mut copy) => {
                self.take(use_in(self.cell, steps, &mut copy));
                Ok(())
            }
            Err(_) => Err(AllocError),
        }
    }

    /// Whether one was overwritten, and none was read.
    fn is_unread(&self) -> bool
        ensures { result ≡ is_unread self.now }
    {
        self.is_lost && !self.is_read
    }

    /// What is said of it.
    pub(crate) fn text(&self) -> &'static [u8]
        ensures { result.now ≡ unread_text self.now }
    {
        if self.is_unread() {
            where_text(self.cell)
        } else {
            b""
        }
    }
}

/// Whether a call is one whose result its process had to read, and didn't.
pub(crate) fn is_careless(call: &FailedCall) -> bool
    ensures { result ≡ is_careless call.now }
{
    call.reading.is_unread() && !call.reading.is_excused
}

/// That a result is never read, and where it was.
fn where_text(cell: Cell) -> &'static [u8]
    ensures { result.now ≡ where_text cell }
{
    match cell {
        Cell::Eax => b"; the result in EAX is never read",
        Cell::Word(_) => b"; the result, the type of the reply, is never read",
    }
}

/// Looks on at a call while what a processor holds makes so many steps.
fn follow_steps(
    alloc: Global,
    call: &mut FailedCall,
    machine: &Machine,
    actor: u8,
    steps: u32,
) -> Result<(), AllocError>
    ensures { OnOk result (call.new
        ≡ followed_by steps (held_by (world_of machine.now) actor) call.old) }
{
    match (machine.slot_on(actor), machine.out(actor)) {
        (Some(slot), Some(out)) if call.slot == u32::from(slot) => {
            let made = if steps < out.budget {
                steps
            } else {
                out.budget
            };
            call.reading.read_on(alloc, made, &out.image)
        }
        _ => Ok(()),
    }
}

/// Looks on at a call while a record of an actor is made.
fn follow_call(
    alloc: Global,
    call: &mut FailedCall,
    machine: &Machine,
    actor: u8,
    event: Recorded,
) -> Result<(), AllocError>
    ensures { OnOk result (call.new
        ≡ followed_call (world_of machine.now) actor event call.old) }
{
    match event {
        Recorded::Back(steps) => follow_steps(alloc, call, machine, actor, steps),
        Recorded::Respawn(slot) if call.slot == slot => {
            call.reading.close();
            Ok(())
        }
        _ => Ok(()),
    }
}

/// Looks on at calls while a record of an actor is made.
fn follow_each(
    alloc: Global,
    calls: &mut [FailedCall],
    machine: &Machine,
    actor: u8,
    event: Recorded,
) -> Result<(), AllocError>
    ensures { OnOk result (calls.new
        ≡ map (followed_call (world_of machine.now) actor event) calls.old) }
{
    for index in 0..calls.len() {
        follow_call(alloc, &mut calls[index], machine, actor, event)?;
    }
    Ok(())
}

/// Looks on at the results of refused calls while a record is made, by the machine before it.
#[tactic(auto, unfolding(crate::specs::Readings::followed))]
pub(crate) fn follow(
    calls: &mut Vec<FailedCall>,
    machine: &Machine,
    entry: Record,
) -> Result<(), AllocError>
    ensures { OnOk result (calls.new.items
        ≡ followed (world_of machine.now) entry.actor entry.event calls.old.items) }
{
    let alloc = *calls.allocator();
    follow_each(
        alloc,
        calls.as_mut_slice(),
        machine,
        entry.actor,
        entry.event,
    )
}

/// Where the result is of a call of a slot that a record answers, by the machine after it.
#[tactic(auto, unfolding(crate::specs::Readings::cell_of, mx_machine::specs::Machine::world_of))]
pub(crate) fn cell_of(machine: &Machine, transition: &Transition, slot: Slot) -> Cell
    ensures { result ≡ cell_of (world_of machine.now) transition.now slot }
{
    let kernel = machine.kernel();
    kernel.facts();
    match (
        kernel_call(transition),
        kernel.services().get(slot as usize),
    ) {
        (Some(held), Some(_)) if held.slot == slot => {
            let image = &kernel.table().process(slot).image;
            Cell::Word(image.register(Register::Ebx).wrapping_add(4))
        }
        _ => Cell::Eax,
    }
}

/// Whether this is that the other one isn't there, or not ready.
fn is_absent(outcome: u32) -> bool
    ensures { result ≡ is_absent outcome }
{
    outcome == Errno::Dead.bits() || outcome == Errno::NotReady.bits()
}

/// Whether a process waits in a SEND.
fn is_sending(doing: Doing) -> bool
    ensures { result ≡ is_sending doing }
{
    matches!(doing, Doing::Sending(_))
}

/// Whether a slot's process, which has gone on, sent by SEND or NOTIFY.
fn sends(transition: &Transition, slot: u32, seen: &SlotGlance) -> bool
    ensures { result ≡ sends_by slot seen.now (acting transition.now) }
{
    match acting(transition) {
        Some(held) if u32::from(held.slot) == slot => {
            held.image.ecx == SEND || held.image.ecx == NOTIFY
        }
        _ => is_sending(seen.doing),
    }
}

/// Whether a slot's process, whose trap is refused, needn't care for it.
#[tactic(auto, unfolding(crate::specs::Readings::is_excused))]
fn is_excused(transition: &Transition, slot: u32) -> bool
    ensures { result ≡ is_excused transition.now slot }
{
    match (gone_on(transition, slot), slot_in(&transition.before, slot)) {
        (Some(outcome), Some(seen)) => is_absent(outcome) && sends(transition, slot, seen),
        _ => false,
    }
}

/// What is known of the first result of calls that are alike, by the machine after the record that answers it.
pub(crate) fn reading_of(machine: &Machine, transition: &Transition, slot: Slot) -> Reading
    ensures { result ≡ reading_of (world_of machine.now) transition.now slot }
{
    Reading {
        cell: cell_of(machine, transition, slot),
        is_open: true,
        is_read: false,
        is_lost: false,
        is_excused: is_excused(transition, u32::from(slot)),
    }
}
