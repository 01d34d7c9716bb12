//! Results, messages and notifications, as they get into the registers and memories of processes.

ghost use Rattle.std.specs.Prelude.{◌≡◌, ◌≢◌, ℕ, ◌+◌, ◌<◌, ◌≤◌, ◌^◌, true, length};
ghost use Rattle.std.specs.Option.{ForSome};
ghost use Rattle.mx_proc.specs.Frame.{frame};
ghost use Rattle.mx_proc.specs.Messages.{notification, type_of};
ghost use Rattle.mx_proc.specs.Partners.{order_of_source, lines_in_notification};
ghost use Rattle.mx_proc.specs.Sound.{HasBuffer};
ghost use Rattle.mx_proc.specs.TableState.{process_at, endpoint_of, buffer_at, memory_at, with_result, with_message, table_after_delivery, table_after_notice, with_pending, source_endpoint, with_delivery_kept, without_pending, message_of, with_process, IsUsedSource, pending_source};

use super::Table;
use crate::deliveries::{Delivery, DeliveryKind};
use crate::endpoints::{CLOCK, HARDWARE};
use crate::process::{Partner, Slot, Source};
use mx_mem::MESSAGE_SIZE;
use mx_word::{Register, Size, read_dword, write_dword};

/// The type of each notification.
const NOTIFICATION_TYPE: u32 = 4096;

impl Table {
    /// Sets the result of a process's trap, in EAX.
    pub fn set_result(&mut self, slot: Slot, value: u32)
        requires slot { slot < length self.old.slots }
        ensures value { self.new ≡ with_result self.old slot value }
        ensures frame { frame self.new ≡ frame self.old }
        ensures states { (s : ℕ) → (process_at self.new s).state ≡ (process_at self.old s).state }
        ensures used { length self.new.slots ≡ length self.old.slots }
    {
        let process = &mut self.slots[slot as usize];
        process.image.regs.set(Size::Dword, Register::Eax, value);
    }

    /// Writes a message into a process's buffer: the 36 bytes from the address in EBX on.
    pub fn receive(&mut self, slot: Slot, message: &[u8; MESSAGE_SIZE])
        requires slot { slot < length self.old.slots }
        requires inside { HasBuffer (process_at self.old slot) }
        ensures value { self.new ≡ with_message self.old slot message.now }
        ensures frame { frame self.new ≡ frame self.old }
    {
        let process = &mut self.slots[slot as usize];
        let at = process.image.register(Register::Ebx);
        process.image.memory.put(at, message);
    }

    /// Records a delivery. If there are 1,024 already, the oldest of them goes.
    fn log(&mut self, from: u32, to: u32, message_type: u32, kind: DeliveryKind)
        ensures value { self.new ≡ with_delivery_kept self.old from to message_type kind }
        ensures frame { frame self.new ≡ frame self.old }
    {
        self.deliveries.push(Delivery {
            from,
            to,
            message_type,
            kind,
        });
    }

    /// The message in a process's buffer, but with the process's endpoint as its source.
    fn message(&self, slot: Slot) -> [u8; MESSAGE_SIZE]
        requires slot { slot < length self.now.slots }
        requires inside { HasBuffer (process_at self.now slot) }
        ensures { result ≡ message_of self.now slot }
    {
        let source = self.endpoint(slot);
        let image = &self.slots[slot as usize].image;
        let mut sent = image.memory.message(image.register(Register::Ebx));
        write_dword(&mut sent, source);
        sent
    }

    /// Copies the message from the sender's buffer to the receiver's, with the sender's endpoint as its
    /// source, and records the delivery.
    #[tactic(auto, unfolding(crate::specs::TableState::table_after_delivery))]
    pub fn deliver(&mut self, from: Slot, to: Slot)
        requires from { from < length self.old.slots }
        requires to { to < length self.old.slots }
        requires readable { HasBuffer (process_at self.old from) }
        requires writable { HasBuffer (process_at self.old to) }
        ensures value { self.new ≡ table_after_delivery self.old from to }
        ensures frame { frame self.new ≡ frame self.old }
        ensures others { (s : ℕ) → s ≢ to → process_at self.new s ≡ process_at self.old s }
        ensures states { (s : ℕ) → (process_at self.new s).state ≡ (process_at self.old s).state }
        ensures used { length self.new.slots ≡ length self.old.slots }
        ensures waits { self.new.waits ≡ self.old.waits }
    {
        let message = self.message(from);
        let (source, destination) = (self.endpoint(from), self.endpoint(to));
        self.receive(to, &message);
        let message_type = read_dword(&message[4..]);
        self.log(source, destination, message_type, DeliveryKind::Message);
    }

    /// The endpoint that a notification by this source has as its source.
    fn source_endpoint(&self, source: Source) -> u32
        requires { IsUsedSource self.now source }
        ensures { result ≡ source_endpoint self.now source }
    {
        match source {
            Source::Hardware => HARDWARE,
            Source::Clock => CLOCK,
            Source::Slot(slot) => self.endpoint(slot),
        }
    }

    /// Clears a process's pending bit of this source, and those of its raised lines that the notification
    /// reports. Answers these lines.
    fn clear_pending(&mut self, slot: Slot, source: Source) -> u32
        requires slot { slot < length self.old.slots }
        requires source { IsUsedSource self.old source }
        ensures value { self.new
            ≡ with_process self.old slot (without_pending (process_at self.old slot) source) }
        ensures lines { result ≡ lines_in_notification source (process_at self.old slot).lines }
        ensures frame { frame self.new ≡ frame self.old }
    {
        let process = &mut self.slots[slot as usize];
        process.pending[source.place() as usize] = false;
        let told = source.lines_reported(process.lines);
        process.lines -= told;
        told
    }

    /// Writes a notification by this source into a process's buffer, clears the source's pending bit there,
    /// and records the delivery.
    #[tactic(auto, unfolding(crate::specs::TableState::table_after_notice))]
    pub fn notice(&mut self, slot: Slot, source: Source)
        requires slot { slot < length self.old.slots }
        requires source { IsUsedSource self.old source }
        requires inside { HasBuffer (process_at self.old slot) }
        ensures value { self.new ≡ table_after_notice self.old slot source }
        ensures frame { frame self.new ≡ frame self.old }
        ensures others { (s : ℕ) → s ≢ slot → process_at self.new s ≡ process_at self.old s }
        ensures states { (s : ℕ) → (process_at self.new s).state ≡ (process_at self.old s).state }
        ensures used { length self.new.slots ≡ length self.old.slots }
        ensures waits { self.new.waits ≡ self.old.waits }
    {
        let from = self.source_endpoint(source);
        let to = self.endpoint(slot);
        let uptime = self.uptime();
        let lines = self.clear_pending(slot, source);
        self.receive(slot, &notification(from, uptime, lines));
        self.log(from, to, NOTIFICATION_TYPE, DeliveryKind::Notification);
    }

    /// Sets a process's pending bit of this source: so a notification waits for the process.
    pub fn set_pending(&mut self, slot: Slot, source: Source)
        requires slot { slot < length self.old.slots }
        requires source { IsUsedSource self.old source }
        ensures value { self.new ≡ with_pending self.old slot (order_of_source source) true }
        ensures frame { frame self.new ≡ frame self.old }
        ensures states { (s : ℕ) → (process_at self.new s).state ≡ (process_at self.old s).state }
        ensures used { length self.new.slots ≡ length self.old.slots }
        ensures waits { self.new.waits ≡ self.old.waits }
    {
        let process = &mut self.slots[slot as usize];
        process.pending[source.place() as usize] = true;
    }

    /// The first source whose pending bit is set at this slot's process and that the partner allows.
    pub fn first_pending(&self, slot: Slot, partner: Partner) -> Option<Source>
        requires { slot < length self.now.slots }
        ensures value { result ≡ pending_source self.now slot partner }
        ensures used { ForSome result (λ source. IsUsedSource self.now source) }
    {
        let known = 2 + self.slots.len();
        let bits = &self.slots[slot as usize].pending[..known];
        Some(Source::of_place(partner.first_pending(bits)?))
    }
}

/// The bytes of a notification.
fn notification(source: u32, uptime: u32, lines: u32) -> [u8; MESSAGE_SIZE]
    ensures { result ≡ notification source uptime lines }
{
    let mut message = [0; MESSAGE_SIZE];
    write_dword(&mut message, source);
    write_dword(&mut message[4..], NOTIFICATION_TYPE);
    write_dword(&mut message[8..], uptime);
    write_dword(&mut message[12..], lines);
    message
}
