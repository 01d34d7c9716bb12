//! Breakpoints in a loop of three instructions that counts in EAX, and ends in a trap if EDX is 0.

use mx_debug::{DebugError, Debugger, Halt, HaltCause};
use mx_exec::{Code, Image, TextSegment};
use mx_flags::Flags;
use mx_image::Stop;
use mx_machine::{Decoded, Out};
use mx_mem::Segment;
use mx_proc::Slot;
use mx_regs::Regs;
use std::alloc::Global;
use std::process::Abort;
use std::test::Fail;

/// The loop, and the trap after it.
static LOOP: [u8; 6] = [
    0x40, // inc eax
    0x40, // inc eax
    0xEB, 0xFC, // jmp 0x0
    0xCD, 0x21, // int 0x21
];

/// What a processor holds of that loop, at its beginning.
fn out_of(alloc: Global) -> Result<Out, Fail> {
    let mut text = Segment::new(alloc, 6)?;
    text.fill_from(0, &LOOP)?;
    Ok(Out {
        image: Image {
            regs: Regs::new(),
            eip: 0,
            flags: Flags::from_bits(0),
            memory: Segment::new(alloc, 16)?,
            code: Code::Separate(TextSegment::new(text)),
        },
        budget: 20,
        count: 0,
        stop: Stop::Spent,
        decoded: Decoded::nothing(),
    })
}

/// 64 breakpoints fill the room for them: then only one that is set may be set again. One is taken
/// away for another.
fn is_marked(debugger: &mut Debugger) -> bool {
    for address in 1..65 {
        if debugger.add(3, address) != Ok(()) {
            return false;
        }
    }
    let is_full = debugger.add(2, 0) == Err(DebugError::TooMany) && debugger.add(3, 1) == Ok(());
    debugger.remove(3, 2);
    debugger.remove(3, 2);
    is_full && debugger.add(2, 0) == Ok(())
}

/// A slot's run of this many steps, which begins where the last one ended: how many are made and why they
/// end, and EIP after them. Slot 3 has a breakpoint at 1, slot 2 one at 0, and slot 7 none.
struct Row {
    name: &'static str,
    slot: Slot,
    steps: u32,
    count: u32,
    cause: HaltCause,
    eip: u32,
}

static ROWS: &[Row] = &[
    Row {
        name: "slot 3 comes to its breakpoint",
        slot: 3,
        steps: 9,
        count: 1,
        cause: HaltCause::Breakpoint,
        eip: 1,
    },
    Row {
        name: "slot 3 goes on from its breakpoint, once round",
        slot: 3,
        steps: 9,
        count: 3,
        cause: HaltCause::Breakpoint,
        eip: 1,
    },
    Row {
        name: "slot 3's steps end before its breakpoint",
        slot: 3,
        steps: 2,
        count: 2,
        cause: HaltCause::Spent,
        eip: 0,
    },
    Row {
        name: "slot 2 goes once round to its own breakpoint",
        slot: 2,
        steps: 9,
        count: 3,
        cause: HaltCause::Breakpoint,
        eip: 0,
    },
    Row {
        name: "slot 7 is not stopped by breakpoints of others",
        slot: 7,
        steps: 4,
        count: 4,
        cause: HaltCause::Spent,
        eip: 1,
    },
    Row {
        name: "slot 3 goes once round with many steps left",
        slot: 3,
        steps: 99,
        count: 3,
        cause: HaltCause::Breakpoint,
        eip: 1,
    },
];

/// Whether a row's run ends as the row wants.
fn is_halted(debugger: &Debugger, out: &mut Out, row: &Row) -> bool {
    let halt = debugger.resume(row.slot, out, row.steps);
    halt.count == row.count && halt.cause == row.cause && out.image.eip == row.eip
}

/// Makes the rows' runs in turn.
fn halt_in_turn(rt: &impl Abort, debugger: &Debugger, out: &mut Out) {
    for row in ROWS {
        let name = row.name;
        assert!(rt; is_halted(debugger, out, row), "{name}");
    }
}

/// The trap is reported before the breakpoint after it, and again for a run of no step.
fn is_trapped(debugger: &mut Debugger, out: &mut Out) -> bool {
    out.image.eip = 4;
    debugger.remove(3, 3);
    let added = debugger.add(7, 6);
    let first = debugger.resume(7, out, 99);
    let second = debugger.resume(7, out, 99);
    let cause = HaltCause::Trap;
    added == Ok(()) && first == Halt { count: 1, cause } && second == Halt { count: 0, cause }
}

/// Whether a byte inside the data is read, and none past them.
fn is_read(image: &Image) -> bool {
    Debugger::byte(image, 15) == Ok(0) && Debugger::byte(image, 16) == Err(DebugError::NotHere)
}

fn debug(rt: &impl Abort, out: &mut Out) {
    let mut debugger = Debugger::new();
    assert!(rt; is_marked(&mut debugger));
    halt_in_turn(rt, &debugger, out);
    assert!(rt; is_trapped(&mut debugger, out));
    assert!(rt; is_read(&out.image));
}

#[test]
fn breakpoints(rt: HostRuntime) -> Result<(), Fail> {
    let mut out = out_of(rt.alloc())?;
    debug(&rt, &mut out);
    assert!(rt; DebugError::NoSymbol.code() == 60 && DebugError::NoSymbol.name() == "NoSymbol");
    Ok(())
}
