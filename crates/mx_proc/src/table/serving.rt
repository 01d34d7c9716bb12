//! The changes of the table that deaths, kernel calls, interrupt lines and the clock make.

ghost use Rattle.std.specs.Prelude.{◌≡◌, ◌≢◌, ℕ, false, ◌+◌, ◌<◌, ◌≤◌, ◌^◌, ◌==◌, Some, None, IfSome, length, map, slice_set, slice_index_or, bit_or};
ghost use Rattle.mx_mem.specs.Segment.{with_bytes_at, part};
ghost use Rattle.mx_proc.specs.Frame.{frame};
ghost use Rattle.mx_proc.specs.Serving.{without_bit_of, owner_but, table_after_forgetting, table_after_burial, with_alarm, with_line, with_owner, with_window, with_tick, with_device_register, with_console_byte, with_copy, process_after_copy};
ghost use Rattle.mx_proc.specs.States.{IsAlone, is_out};
ghost use Rattle.mx_proc.specs.TableState.{process_at, memory_at, window_of, nobody};

use super::Table;
use crate::devices::Devices;
use crate::process::{DeathCause, Process, ProcessAddress, Slot, State};
use crate::windows::Window;

impl Table {
    /// The devices: interrupt lines, registers and console.
    pub fn devices(&self) -> &Devices
        ensures { result.now ≡ self.now.devices }
    {
        &self.devices
    }

    /// Removes a slot from all processes and lines: no process has a pending bit of it or a window for it any
    /// more, and it owns no interrupt line.
    pub fn forget(&mut self, slot: Slot)
        requires { slot < length self.old.slots }
        ensures value { self.new ≡ table_after_forgetting self.old slot }
        ensures frame { frame self.new ≡ record (frame self.old) { devices = self.new.devices } }
    {
        clear_bits(self.slots.as_mut_slice(), slot);
        give_up(&mut self.devices.owners, slot);
    }

    /// Makes a process dead. It must be in no queue and not out. After that it has no pending bits, no
    /// raised lines, no alarm and no windows.
    pub fn bury(&mut self, slot: Slot, cause: DeathCause)
        requires slot { slot < length self.old.slots }
        requires alone { IsAlone (process_at self.old slot).state }
        requires home { is_out (process_at self.old slot).state ≡ false }
        ensures value { self.new ≡ table_after_burial self.old slot cause }
        ensures frame { frame self.new ≡ frame self.old }
    {
        let process = &mut self.slots[slot as usize];
        process.state = State::Down(cause);
        process.pending = [false; 34];
        process.lines = 0;
        process.alarm = None;
        process.windows = [None; 32];
    }

    /// Sets the uptime at which a process's alarm rings: fewer than 2^32 ticks from now. `None` clears the
    /// alarm.
    pub fn set_alarm(&mut self, slot: Slot, due: Option<u64>)
        requires slot { slot < length self.old.slots }
        requires due { IfSome due (λ d. d < self.old.uptime + 2 ^ 32) }
        ensures value { self.new ≡ with_alarm self.old slot due }
        ensures frame { frame self.new ≡ frame self.old }
    {
        let process = &mut self.slots[slot as usize];
        process.alarm = due;
    }

    /// The window of `owner`'s memory that `user` may use, if it has one.
    pub fn window(&self, owner: Slot, user: Slot) -> Option<Window>
        requires owner { owner < length self.now.slots }
        requires user { user < length self.now.slots }
        ensures { result ≡ window_of self.now owner user }
    {
        self.slots[owner as usize].windows[user as usize]
    }

    /// Opens a window of `owner`'s memory for `user`, in place of the one before. `None` closes the one
    /// before.
    pub fn set_window(&mut self, owner: Slot, user: Slot, window: Option<Window>)
        requires owner { owner < length self.old.slots }
        requires user { user < length self.old.slots }
        ensures value { self.new ≡ with_window self.old owner user window }
        ensures frame { frame self.new ≡ frame self.old }
    {
        let process = &mut self.slots[owner as usize];
        process.windows[user as usize] = window;
    }

    /// Notes at a process that this interrupt line was raised.
    pub fn set_line(&mut self, slot: Slot, line: u8)
        requires slot { slot < length self.old.slots }
        requires line { line < 16 }
        ensures value { self.new ≡ with_line self.old slot line }
        ensures frame { frame self.new ≡ frame self.old }
    {
        let process = &mut self.slots[slot as usize];
        process.lines |= 1 << line;
    }

    /// The clock ticks: the uptime is one more.
    pub fn advance(&mut self)
        requires { self.old.uptime + 1 < 2 ^ 32 }
        ensures value { self.new ≡ with_tick self.old }
        ensures frame { frame self.new ≡ record (frame self.old) { uptime = self.old.uptime + 1 } }
    {
        self.uptime += 1;
    }

    /// Sets the owner of an interrupt line. With `None` nobody owns it.
    pub fn set_owner(&mut self, line: u8, owner: Option<Slot>)
        requires line { line < 16 }
        requires used { IfSome owner (λ s. s < length self.old.slots) }
        ensures value { self.new ≡ with_owner self.old line owner }
        ensures frame { frame self.new ≡ record (frame self.old) { devices = self.new.devices } }
    {
        self.devices.owners[line as usize] = owner;
    }

    /// Sets a device register of the machine.
    pub fn set_register(&mut self, register: u8, value: u32)
        ensures value { self.new ≡ with_device_register self.old register value }
        ensures frame { frame self.new ≡ record (frame self.old) { devices = self.new.devices } }
    {
        self.devices.registers[register as usize] = value;
    }

    /// Writes a byte to the console. If it has 4,096 bytes already, the oldest of them goes.
    pub fn write_console(&mut self, byte: u8)
        requires { self.old.devices.console.count + 1 < 2 ^ 32 }
        ensures value { self.new ≡ with_console_byte self.old byte }
        ensures frame { frame self.new ≡ record (frame self.old) { devices = self.new.devices } }
    {
        self.devices.console.push(byte);
    }

    /// Copies `count` bytes from one address to another, of one process or of two. The ranges may overlap:
    /// what arrives is always the bytes as they were before the call.
    pub fn copy(&mut self, source: ProcessAddress, target: ProcessAddress, count: u32)
        requires from { source.slot < length self.old.slots }
        requires to { target.slot < length self.old.slots }
        requires source { source.offset + count ≤ length (memory_at self.old source.slot) }
        requires destination { target.offset + count ≤ length (memory_at self.old target.slot) }
        ensures value { self.new
            ≡ with_copy self.old source.slot source.offset target.slot target.offset count }
        ensures frame { frame self.new ≡ frame self.old }
    {
        copy_between(self.slots.as_mut_slice(), source, target, count);
    }
}

/// Clears each process's pending bit of a slot, and its window for it.
fn clear_bits(processes: &mut [Process], slot: Slot)
    requires { slot < 32 }
    ensures { processes.new ≡ map (without_bit_of slot) processes.old }
{
    for i in 0..processes.len() {
        let process = &mut processes[i];
        process.pending[2 + slot as usize] = false;
        process.windows[slot as usize] = None;
    }
}

/// This owner, or nobody if the owner is this slot.
fn owner_but(owner: Option<Slot>, slot: Slot) -> Option<Slot>
    ensures { result ≡ owner_but slot owner }
{
    match owner {
        Some(other) => { if other == slot { None } else { Some(other) } }
        None => None,
    }
}

/// Takes all its interrupt lines from a slot.
fn give_up(owners: &mut [Option<Slot>], slot: Slot)
    ensures { owners.new ≡ map (owner_but slot) owners.old }
{
    for i in 0..owners.len() {
        owners[i] = owner_but(owners[i], slot);
    }
}

/// Copies bytes of one process to another.
fn copy_across(source: &Process, at: u32, target: &mut Process, place: u32, count: u32)
    requires source { at + count ≤ length source.now.image.memory }
    requires destination { place + count ≤ length target.old.image.memory }
    ensures { target.new ≡ process_after_copy target.old place
        (part source.now.image.memory at count) }
{
    target
        .image
        .memory
        .copy_from(&source.image.memory, at, place, count);
}

/// Copies bytes of one process to another or to itself.
fn copy_between(
    processes: &mut [Process],
    source: ProcessAddress,
    target: ProcessAddress,
    count: u32,
)
    requires from { source.slot < length processes.old }
    requires to { target.slot < length processes.old }
    requires source { source.offset + count
        ≤ length (slice_index_or processes.old source.slot nobody).image.memory }
    requires destination { target.offset + count
        ≤ length (slice_index_or processes.old target.slot nobody).image.memory }
    ensures { processes.new
        ≡ slice_set processes.old target.slot
        (process_after_copy (slice_index_or processes.old target.slot nobody) target.offset
        (part (slice_index_or processes.old source.slot nobody).image.memory source.offset count)) }
{
    let from = source.slot as usize;
    let to = target.slot as usize;
    let (at, place) = (source.offset, target.offset);
    if from == to {
        processes[to].image.memory.copy_within(at, place, count);
    } else if from < to {
        let (low, high) = processes.split_at_mut(to);
        copy_across(&low[from], at, &mut high[0], place, count);
    } else {
        let (low, high) = processes.split_at_mut(from);
        copy_across(&high[0], at, &mut low[to], place, count);
    }
}
