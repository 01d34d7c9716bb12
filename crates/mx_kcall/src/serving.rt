//! What kernel calls do once nothing refuses them.

ghost use Rattle.std.specs.Prelude.{◌≡◌, ◌≢◌, ℕ, ◌+◌, ◌<◌, ◌≤◌, ◌^◌, ◌==◌, true, false, Some, None, IfSome, length};
ghost use Rattle.mx_respawn.specs.Proc.EndpointNumbers.{slot_of};
ghost use Rattle.mx_respawn.specs.Proc.Frame.{frame};
ghost use Rattle.mx_respawn.specs.Proc.Sound.{HasBuffer, NoneComesHome};
ghost use Rattle.mx_respawn.specs.Proc.TableState.{process_at};
ghost use Rattle.mx_respawn.specs.Proc.declared.process.State.TheVariants.{Home};
ghost use Rattle.mx_kcall.specs.Effects.{table_after_effect};
ghost use Rattle.mx_kcall.specs.Refusals.{IsPermitted};
ghost use Rattle.mx_kcall.specs.Requests.{no_reply_words};
ghost use Rattle.mx_kcall.specs.Serving.{device_effect, reaches_others, due_after, ticks_left, table_after_change, words_of_reply, ends_caller, table_after_reply, table_after_serving, answer_of_serving, table_after_kernel_call, answer_of_kernel_call};

use crate::refusals::check;
use crate::request::{After, KernelCall, ReplyWords, VirtualAddress, reply_bytes};
use crate::windows::window_of;
use mx_proc::{DeathCause, ProcessAddress, Slot, Table, slot_of};
use mx_respawn::{die, go_on};

/// When an alarm rings that is set for a delay; never if that is 0.
fn due_after(uptime: u32, delay: u32) -> Option<u64>
    ensures value { result ≡ due_after uptime delay }
    ensures bound { IfSome result (λ due. due < uptime + 2 ^ 32) }
{
    if delay == 0 {
        None
    } else {
        Some(u64::from(uptime) + u64::from(delay))
    }
}

/// The ticks that an alarm has left, 0 if there is none.
fn ticks_left(uptime: u32, alarm: Option<u64>) -> u32
    requires { IfSome alarm (λ due. due < uptime + 2 ^ 32) }
    ensures { result ≡ ticks_left uptime alarm }
{
    match alarm {
        Some(due) => due.saturating_sub(u64::from(uptime)) as u32,
        None => 0,
    }
}

/// The words of a request's reply.
fn answer(table: &Table, slot: Slot, request: KernelCall) -> ReplyWords
    requires slot { slot < length table.now.slots }
    requires permitted { IsPermitted table.now request }
    ensures { result ≡ words_of_reply table.now slot request }
{
    let process = table.process(slot);
    let p0 = match request {
        KernelCall::Times => {
            let steps = process.steps;
            return ReplyWords {
                p0: table.uptime(),
                p1: (steps % 0x1_0000_0000) as u32,
                p2: (steps / 0x1_0000_0000) as u32,
            };
        }
        KernelCall::SetAlarm(_) => ticks_left(table.uptime(), process.alarm),
        KernelCall::Devio {
            action: 0,
            register,
            ..
        } if register != 0 => table.devices().registers[register as usize],
        KernelCall::Whois(named) => table.endpoint(named as u8),
        _ => 0,
    };
    ReplyWords { p0, p1: 0, p2: 0 }
}

/// The address in the process that a virtual address names.
fn process_address(table: &Table, address: VirtualAddress) -> ProcessAddress
    requires { slot_of address.endpoint < length table.now.slots }
    ensures slot { result.slot ≡ slot_of address.endpoint }
    ensures offset { result.offset ≡ address.offset }
{
    ProcessAddress {
        slot: table.slot_of(address.endpoint),
        offset: address.offset,
    }
}

/// Writes a byte to the console, which is register 0, or a value to another register; nothing if the action is 0.
fn use_device(table: &mut Table, action: u32, register: u32, value: u32)
    requires room { table.old.devices.console.count + 1 < 2 ^ 32 }
    requires register { register < 256 }
    ensures value { (caller : ℕ) → table.new
        ≡ table_after_effect table.old caller (device_effect action register value) }
    ensures devices { table.new ≡ record table.old { devices = table.new.devices } }
    ensures frame { frame table.new ≡ record (frame table.old) { devices = table.new.devices } }
    ensures console { table.new.devices.console.count ≤ table.old.devices.console.count + 1 }
{
    if action == 0 {} else if register == 0 {
        table.write_console((value % 256) as u8);
    } else {
        table.set_register(register as u8, value);
    }
}

/// Does what a request asks of a table, if it may reach another process.
fn change_others(table: &mut Table, slot: Slot, request: KernelCall)
    requires others { reaches_others request ≡ true }
    requires slot { slot < length table.old.slots }
    requires home { (process_at table.old slot).state ≡ Home }
    requires inside { HasBuffer (process_at table.old slot) }
    requires permitted { IsPermitted table.old request }
    requires stays { ends_caller slot request ≡ false }
    ensures value { table.new ≡ table_after_change table.old slot request }
    ensures frame { frame table.new ≡ record (frame table.old) { devices = table.new.devices } }
    ensures used { length table.new.slots ≡ length table.old.slots }
    ensures home { (process_at table.new slot).state ≡ Home }
    ensures inside { HasBuffer (process_at table.new slot) }
    ensures settled { NoneComesHome table.old table.new }
    ensures console { table.new.devices.console.count ≤ table.old.devices.console.count + 1 }
{
    match request {
        KernelCall::Vircopy(copied) => {
            let source = process_address(table, copied.source);
            let target = process_address(table, copied.target);
            table.copy(source, target, copied.count);
        }
        KernelCall::Kill(endpoint) => die(table, table.slot_of(endpoint), DeathCause::Kill),
        KernelCall::Grant(grant) => {
            table.set_window(slot, table.slot_of(grant.user), window_of(grant));
        }
        _ => unreachable!(),
    }
}

/// Does what a request asks of a table.
fn change(table: &mut Table, slot: Slot, request: KernelCall)
    requires slot { slot < length table.old.slots }
    requires home { (process_at table.old slot).state ≡ Home }
    requires inside { HasBuffer (process_at table.old slot) }
    requires room { table.old.devices.console.count + 1 < 2 ^ 32 }
    requires permitted { IsPermitted table.old request }
    requires stays { ends_caller slot request ≡ false }
    ensures value { table.new ≡ table_after_change table.old slot request }
    ensures frame { frame table.new ≡ record (frame table.old) { devices = table.new.devices } }
    ensures used { length table.new.slots ≡ length table.old.slots }
    ensures home { (process_at table.new slot).state ≡ Home }
    ensures inside { HasBuffer (process_at table.new slot) }
    ensures settled { NoneComesHome table.old table.new }
    ensures console { table.new.devices.console.count ≤ table.old.devices.console.count + 1 }
{
    match request {
        KernelCall::Exit | KernelCall::Times | KernelCall::Whois(_) => {}
        KernelCall::SetAlarm(delay) => table.set_alarm(slot, due_after(table.uptime(), delay)),
        KernelCall::Irqctl { action, line } => {
            table.set_owner(line as u8, if action == 1 { Some(slot) } else { None });
        }
        KernelCall::Devio {
            action,
            register,
            value,
        } => use_device(table, action, register, value),
        _ => change_others(table, slot, request),
    }
}

/// Writes the reply to the caller's buffer, and the caller goes on.
fn reply(table: &mut Table, slot: Slot, outcome: u32, answer: ReplyWords)
    requires slot { slot < length table.old.slots }
    requires home { (process_at table.old slot).state ≡ Home }
    requires inside { HasBuffer (process_at table.old slot) }
    ensures value { table.new ≡ table_after_reply table.old slot outcome answer }
    ensures frame { frame table.new ≡ frame table.old }
    ensures used { length table.new.slots ≡ length table.old.slots }
    ensures devices { table.new.devices ≡ table.old.devices }
    ensures settled { NoneComesHome table.old table.new }
    ensures own { (process_at table.new slot).state ≢ Home }
{
    table.receive(slot, &reply_bytes(outcome, answer));
    go_on(table, slot, 0);
}

/// Whether the caller of a request dies by it.
fn ends(slot: Slot, request: KernelCall) -> bool
    ensures { result ≡ ends_caller slot request }
{
    match request {
        KernelCall::Exit => true,
        KernelCall::Kill(endpoint) => slot_of(endpoint) == u32::from(slot),
        _ => false,
    }
}

/// A request that isn't refused.
#[tactic(auto, unfolding(crate::specs::Serving::table_after_serving))]
fn serve(table: &mut Table, slot: Slot, request: KernelCall) -> After
    requires slot { slot < length table.old.slots }
    requires home { (process_at table.old slot).state ≡ Home }
    requires inside { HasBuffer (process_at table.old slot) }
    requires room { table.old.devices.console.count + 1 < 2 ^ 32 }
    requires permitted { IsPermitted table.old request }
    ensures value { table.new ≡ table_after_serving table.old slot request }
    ensures after { result ≡ answer_of_serving slot request }
    ensures frame { frame table.new ≡ record (frame table.old) { devices = table.new.devices } }
    ensures used { length table.new.slots ≡ length table.old.slots }
    ensures settled { NoneComesHome table.old table.new }
    ensures own { (process_at table.new slot).state ≢ Home }
    ensures console { table.new.devices.console.count ≤ table.old.devices.console.count + 1 }
{
    if ends(slot, request) {
        // Who kills itself exits, and nobody is there for a reply.
        die(table, slot, DeathCause::Exit);
        return After::Died;
    }
    // The reply is of the table before the change: SETALARM answers what the old alarm had left.
    let words = answer(table, slot, request);
    change(table, slot, request);
    reply(table, slot, 0, words);
    After::Reply(0)
}

/// The kernel call that the message at a process's buffer asks for.
#[tactic(auto, unfolding(crate::specs::Serving::table_after_kernel_call, crate::specs::Serving::answer_of_kernel_call))]
pub fn call(table: &mut Table, slot: Slot) -> After
    requires slot { slot < length table.old.slots }
    requires home { (process_at table.old slot).state ≡ Home }
    requires inside { HasBuffer (process_at table.old slot) }
    requires room { table.old.devices.console.count + 1 < 2 ^ 32 }
    ensures value { table.new ≡ table_after_kernel_call table.old slot }
    ensures after { result ≡ answer_of_kernel_call table.old slot }
    ensures frame { frame table.new ≡ record (frame table.old) { devices = table.new.devices } }
    ensures used { length table.new.slots ≡ length table.old.slots }
    ensures settled { NoneComesHome table.old table.new }
    ensures own { (process_at table.new slot).state ≢ Home }
    ensures console { table.new.devices.console.count ≤ table.old.devices.console.count + 1 }
{
    match check(table, slot) {
        Ok(request) => serve(table, slot, request),
        Err(refusal) => {
            reply(table, slot, refusal.bits(), ReplyWords::none());
            After::Reply(refusal.bits())
        }
    }
}
