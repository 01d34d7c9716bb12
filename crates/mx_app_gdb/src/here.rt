//! Replies to what gdb asks of the position where the walker is.

ghost use Rattle.std.specs.Prelude.{◌≡◌, ◌++◌, IfOk, OnOk, Some, filter, map};
ghost use Rattle.std.specs.List.{range_with_len};
ghost use Rattle.mx_rsp.specs.Replies.{part_text};
ghost use Rattle.mx_app_gdb.specs.Replied.{files_of, image_read, target_text, world_of_stub};
ghost use Rattle.mx_app_gdb.specs.Replies.{current_text, done_text, file_text, memory_text, register_text, registers_text, slot_of_file, some_text, state_of, state_text, threads_text};
ghost use Rattle.mx_app_gdb.specs.Threads.{is_seen, thread_of};

use crate::addresses::{bytes_for, registers_of};
use crate::stub::Stub;
use crate::threads::Threads;
use mx_print_answers::image_in;
use mx_print_report::{Naming, push_process};
use mx_proc::Slot;
use mx_rsp::{
    DONE, FAULT, TARGET, ThreadName, Which, push_bytes, push_part, push_register, push_registers,
    push_thread, push_threads,
};
use std::alloc::{AllocError, Global};

/// The reply that something is done, or that it can't be.
pub(crate) fn push_done(out: &mut Vec<u8>, is_done: bool) -> Result<(), AllocError>
    ensures { OnOk result (out.new.items ≡ out.old.items ++ done_text is_done) }
{
    out.extend_from_slice(if is_done { DONE } else { FAULT })
}

/// The registers of the slot that is read.
pub(crate) fn push_all(alloc: Global, out: &mut Vec<u8>, stub: &Stub) -> Result<(), AllocError>
    ensures { OnOk result (out.new.items ≡ out.old.items
        ++ registers_text (image_read stub.now)) }
{
    match image_in(stub.sight.walker.machine(), stub.threads.reads) {
        Some(image) => push_registers(alloc, out, &registers_of(image)),
        None => push_done(out, false),
    }
}

/// One register of the slot that is read; x for each digit of one that isn't there.
pub(crate) fn push_one(
    alloc: Global,
    out: &mut Vec<u8>,
    stub: &Stub,
    number: u32,
) -> Result<(), AllocError>
    ensures { OnOk result (out.new.items ≡ out.old.items
        ++ register_text (image_read stub.now) number) }
{
    if number >= 10 {
        return out.extend_from_slice(b"xxxxxxxx");
    }
    match image_in(stub.sight.walker.machine(), stub.threads.reads) {
        Some(image) => push_register(alloc, out, registers_of(image)[number as usize]),
        None => push_done(out, false),
    }
}

/// Bytes, if there are any.
fn push_some(alloc: Global, out: &mut Vec<u8>, bytes: &[u8]) -> Result<(), AllocError>
    ensures { OnOk result (out.new.items ≡ out.old.items
        ++ some_text bytes.now) }
{
    if bytes.is_empty() {
        push_done(out, false)
    } else {
        push_bytes(alloc, out, bytes)
    }
}

/// Bytes of the slot that is read, from an address on, if there are any.
pub(crate) fn push_memory(
    alloc: Global,
    out: &mut Vec<u8>,
    stub: &Stub,
    address: u32,
    count: u32,
) -> Result<(), AllocError>
    ensures { OnOk result (out.new.items ≡ out.old.items
        ++ memory_text (image_read stub.now) address count) }
{
    match image_in(stub.sight.walker.machine(), stub.threads.reads) {
        Some(image) => {
            let bytes = bytes_for(alloc, image, address, count)?;
            push_some(alloc, out, bytes.as_slice())
        }
        None => push_done(out, false),
    }
}

/// The threads that gdb has.
fn threads_seen(alloc: Global, threads: Threads) -> Result<Vec<ThreadName>, AllocError>
    ensures { IfOk result (λ names. names.items
        ≡ map (thread_of threads) (filter (is_seen threads) (range_with_len 0 threads.count))) }
{
    let mut names = Vec::new(alloc);
    for slot in 0..threads.count {
        if threads.is_seen(slot) {
            names.push(threads.thread_of(slot))?;
        }
    }
    Ok(names)
}

/// The list of the threads that gdb has.
pub(crate) fn push_list(
    alloc: Global,
    out: &mut Vec<u8>,
    threads: Threads,
) -> Result<(), AllocError>
    ensures { OnOk result (out.new.items ≡ out.old.items
        ++ threads_text threads) }
{
    let names = threads_seen(alloc, threads)?;
    push_threads(alloc, out, names.as_slice())
}

/// The thread that is read.
pub(crate) fn push_current(
    alloc: Global,
    out: &mut Vec<u8>,
    threads: Threads,
) -> Result<(), AllocError>
    ensures { OnOk result (out.new.items ≡ out.old.items
        ++ current_text threads) }
{
    out.extend_from_slice(b"QC")?;
    push_thread(alloc, out, threads.thread_of(threads.reads))
}

/// The line of a slot in a report, from its name to its state.
#[tactic(auto, unfolding(mx_machine::specs::Machine::world_of))]
fn push_state(alloc: Global, out: &mut Vec<u8>, stub: &Stub, slot: Slot) -> Result<(), AllocError>
    ensures { OnOk result (out.new.items ≡ out.old.items
        ++ state_of (world_of_stub stub.now) (Some slot)) }
{
    let kernel = stub.sight.walker.machine().kernel();
    // Each slot has a service.
    kernel.facts();
    let mut line = Vec::new(alloc);
    match kernel.services().get(slot as usize) {
        Some(service) => {
            let name = &service.name.bytes;
            push_process(&mut line, Naming::Endpoints, kernel.table(), slot, name)?;
            push_bytes(alloc, out, line.as_slice())
        }
        None => push_done(out, false),
    }
}

/// What gdb prints of a thread.
pub(crate) fn push_thread_line(
    alloc: Global,
    out: &mut Vec<u8>,
    stub: &Stub,
    which: Which,
) -> Result<(), AllocError>
    ensures { OnOk result (out.new.items ≡ out.old.items
        ++ state_text (world_of_stub stub.now) stub.now.threads which) }
{
    match stub.threads.read_by(which) {
        Some(slot) => push_state(alloc, out, stub, slot),
        None => push_done(out, false),
    }
}

/// A part of the description of the target.
pub(crate) fn push_target(out: &mut Vec<u8>, offset: u32, length: u32) -> Result<(), AllocError>
    ensures { OnOk result (out.new.items ≡ out.old.items
        ++ part_text target_text offset length) }
{
    push_part(out, TARGET, offset, length)
}

/// The slot of the process whose file is asked for.
fn slot_of_file(threads: Threads, process: Option<u32>) -> Option<Slot>
    ensures { result ≡ slot_of_file threads process }
{
    match process {
        Some(number) => threads.named(number),
        None => Some(threads.reads),
    }
}

/// A part of the name of the file that gdb reads a process's symbols from.
pub(crate) fn push_file(
    out: &mut Vec<u8>,
    stub: &Stub,
    process: Option<u32>,
    offset: u32,
    length: u32,
) -> Result<(), AllocError>
    ensures { OnOk result (out.new.items ≡ out.old.items
        ++ file_text (files_of stub.now) stub.now.threads process offset length) }
{
    let Some(slot) = slot_of_file(stub.threads, process) else {
        return push_done(out, false);
    };
    match stub.files.get(slot as usize) {
        Some(file) => push_part(out, file.as_slice(), offset, length),
        None => push_done(out, false),
    }
}
