//! Images that leave the table for a processor, and come home; and the steps that were made meanwhile.

ghost use Rattle.std.specs.Prelude.{◌≡◌, false, true, ◌+◌, ◌<◌, ◌≤◌, ◌^◌, length};
ghost use Rattle.mx_exec.specs.Image.{blank};
ghost use Rattle.mx_proc.specs.Frame.{frame, frame_with_process};
ghost use Rattle.mx_proc.specs.States.{IsAlone, is_out, is_down};
ghost use Rattle.mx_proc.specs.TableState.{process_at, with_state, table_after_move_out, table_after_move_home, table_after_steps, with_image, process_after, table_after_revival};
ghost use Rattle.mx_proc.specs.declared.process.State.TheVariants.{Home, Out, Doomed};

use super::Table;
use crate::process::{Process, Slot, State, Terms};
use mx_exec::{Code, Image};
use mx_flags::Flags;
use mx_mem::Segment;
use mx_regs::Regs;
use std::alloc::Global;
use std::mem;

/// Moves an image to another place, and leaves a blank one where it was. Part by part, since a whole image would be
/// copied twice, by calls.
fn move_image(alloc: Global, from: &mut Image, to: &mut Image)
    ensures from { from.new ≡ blank }
    ensures to { to.new ≡ from.old }
{
    to.regs = mem::replace(&mut from.regs, Regs::new());
    to.eip = mem::replace(&mut from.eip, 0);
    to.flags = mem::replace(&mut from.flags, Flags::from_bits(0));
    to.memory = mem::replace(&mut from.memory, Segment::empty(alloc));
    to.code = mem::replace(&mut from.code, Code::Shared);
}

/// Exchanges two images, part by part too. Nothing is dropped.
fn swap_images(one: &mut Image, other: &mut Image)
    ensures one { one.new ≡ other.old }
    ensures other { other.new ≡ one.old }
{
    mem::swap(&mut one.regs, &mut other.regs);
    mem::swap(&mut one.eip, &mut other.eip);
    mem::swap(&mut one.flags, &mut other.flags);
    mem::swap(&mut one.memory, &mut other.memory);
    mem::swap(&mut one.code, &mut other.code);
}

impl Table {
    /// Takes a process's image out of the table, for a processor. The process's state is `Out` after that.
    /// Takes no memory.
    pub fn lend(&mut self, slot: Slot) -> Image
        requires slot { slot < length self.old.slots }
        requires home { (process_at self.old slot).state ≡ Home }
        ensures value { self.new ≡ table_after_move_out self.old slot }
        ensures image { result ≡ (process_at self.old slot).image }
        ensures frame { frame self.new
            ≡ frame_with_process (frame self.old) slot (process_at self.new slot) }
    {
        let mut image = Image::blank(*self.slots.allocator());
        self.lend_into(slot, &mut image);
        image
    }

    /// Puts the image of a process that is out into the table again. The process's state is then `Home`.
    pub fn take_home(&mut self, slot: Slot, mut image: Image)
        requires slot { slot < length self.old.slots }
        requires out { is_out (process_at self.old slot).state ≡ true }
        ensures value { self.new ≡ table_after_move_home self.old slot image }
        ensures frame { frame self.new
            ≡ frame_with_process (frame self.old) slot (process_at self.new slot) }
    {
        self.take_home_from(slot, &mut image);
    }

    /// As `lend`, into a place whose old image is dropped.
    pub fn lend_into(&mut self, slot: Slot, place: &mut Image)
        requires slot { slot < length self.old.slots }
        requires home { (process_at self.old slot).state ≡ Home }
        ensures value { self.new ≡ table_after_move_out self.old slot }
        ensures image { place.new ≡ (process_at self.old slot).image }
        ensures frame { frame self.new
            ≡ frame_with_process (frame self.old) slot (process_at self.new slot) }
    {
        let alloc = *self.slots.allocator();
        let process = &mut self.slots[slot as usize];
        process.state = State::Out;
        move_image(alloc, &mut process.image, place);
    }

    /// As `take_home`, from a place in which the image is left that the process had in the table.
    pub fn take_home_from(&mut self, slot: Slot, place: &mut Image)
        requires slot { slot < length self.old.slots }
        requires out { is_out (process_at self.old slot).state ≡ true }
        ensures value { self.new ≡ table_after_move_home self.old slot place.old }
        ensures place { place.new ≡ (process_at self.old slot).image }
        ensures frame { frame self.new
            ≡ frame_with_process (frame self.old) slot (process_at self.new slot) }
    {
        let process = &mut self.slots[slot as usize];
        process.state = State::Home;
        swap_images(&mut process.image, place);
    }

    /// Counts steps of a process: takes them off its ticks, and adds them to its steps.
    pub fn spend(&mut self, slot: Slot, steps: u32)
        requires slot { slot < length self.old.slots }
        requires home { (process_at self.old slot).state ≡ Home }
        requires ticks { steps ≤ (process_at self.old slot).schedule.ticks }
        requires room { (process_at self.old slot).steps + steps < 2 ^ 64 }
        ensures value { self.new ≡ table_after_steps self.old slot steps }
        ensures frame { frame self.new
            ≡ frame_with_process (frame self.old) slot (process_at self.new slot) }
    {
        let process = &mut self.slots[slot as usize];
        process.schedule.spend(steps);
        process.steps += u64::from(steps);
    }

    /// Marks a process that is out as doomed: so it dies when it comes back.
    pub fn doom(&mut self, slot: Slot)
        requires slot { slot < length self.old.slots }
        requires out { is_out (process_at self.old slot).state ≡ true }
        ensures value { self.new ≡ with_state self.old slot Doomed }
        ensures frame { frame self.new ≡ frame self.old }
    {
        let process = &mut self.slots[slot as usize];
        process.state = State::Doomed;
    }
    /// Takes the image of a dead process out of the table, so that the caller can fill it again for `revive`.
    /// Takes no memory.
    pub fn take_image(&mut self, slot: Slot) -> Image
        requires slot { slot < length self.old.slots }
        requires down { is_down (process_at self.old slot).state ≡ true }
        ensures value { self.new ≡ with_image self.old slot blank }
        ensures image { result ≡ (process_at self.old slot).image }
        ensures frame { frame self.new
            ≡ frame_with_process (frame self.old) slot (process_at self.new slot) }
    {
        let blank = Image::blank(*self.slots.allocator());
        let process = &mut self.slots[slot as usize];
        mem::replace(&mut process.image, blank)
    }

    /// Puts a new process in the slot of a dead one, by these terms and with this image. The new process is
    /// ready, at the end of the ready list of its level.
    pub fn revive(&mut self, slot: Slot, terms: Terms, image: Image)
        requires slot { slot < length self.old.slots }
        requires down { is_down (process_at self.old slot).state ≡ true }
        requires generation { (process_at self.old slot).generation + 1 < 2 ^ 20 }
        requires restarts { (process_at self.old slot).restarts_used < terms.restarts }
        ensures value { self.new ≡ table_after_revival self.old slot
            (process_after (process_at self.old slot) image terms) }
        ensures frame { frame self.new ≡ frame_with_process (frame self.old) slot
            (process_after (process_at self.old slot) image terms) }
    {
        let dead = &self.slots[slot as usize];
        let process = Process::after(dead, terms, image);
        self.slots[slot as usize] = process;
        self.ready.push_back(terms.level, slot);
    }
}
