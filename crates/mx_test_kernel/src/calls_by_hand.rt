//! Kernel calls worked by hand.

use crate::kernel_numbers::{
    ALL_BUT_GRANT, ALL_SENDS, ALL_TRAPS, DEVIO, EBADREQUEST, EBADSRCDST, ECALLDENIED, EDEADDST,
    EFAULT, EINVAL, ENOTREADY, EPERM, EXIT, GRANT, IRQCTL, KILL, NOTIFY_MESSAGE, OK, SETALARM,
    VIRCOPY, WHOIS,
};
use crate::tables::{Processes, has_words, table_of, word_at};
use mx_exec::Image;
use mx_ipc::{receive, send};
use mx_kcall::{After, call, raise, tick};
use mx_proc::{
    ANY, CLOCK, DeathCause, Endpoint, HARDWARE, Masks, Rules, SYSTEM, Slot, State, Table,
};
use mx_sched::{dequeue, pick};
use mx_word::{Register, Size};
use std::alloc::Global;
use std::process::Abort;
use std::test::Fail;

/// The mask of the kernel calls from TIMES to WHOIS.
const NO_EXIT: u32 = 0xFE;

/// The mask of the kernel calls from EXIT to WHOIS without VIRCOPY.
const NO_VIRCOPY: u32 = 0xDF;

/// An endpoint of no process, and the number that the specification gives it.
struct PseudoEndpoint {
    name: &'static str,
    endpoint: Endpoint,
    number: u32,
}

static PSEUDO_ENDPOINTS: &[PseudoEndpoint] = &[
    PseudoEndpoint {
        name: "ANY",
        endpoint: ANY,
        number: 0x7ACE,
    },
    PseudoEndpoint {
        name: "HARDWARE",
        endpoint: HARDWARE,
        number: 0xFFFF_FFFF,
    },
    PseudoEndpoint {
        name: "SYSTEM",
        endpoint: SYSTEM,
        number: 0xFFFF_FFFE,
    },
    PseudoEndpoint {
        name: "CLOCK",
        endpoint: CLOCK,
        number: 0xFFFF_FFFD,
    },
];

/// A kernel call of slot 0, and its reply. Slot 1 owns line 5 and has written a byte to the console,
/// slot 2 is on a processor, slot 3 is dead, and no slot 4 is used.
struct Request {
    name: &'static str,
    /// Which kernel calls slot 0 may make.
    mask: u32,
    /// The call's type, and then p0 to p4.
    words: [u32; 6],
    result: u32,
    /// p0 of the reply.
    answer: u32,
}

const REQUEST: Request = Request {
    name: "",
    mask: ALL_BUT_GRANT,
    words: [0; 6],
    result: OK,
    answer: 0,
};

/// A copy within one process. Its buffer is at 512, and the bytes 1 to 5 are at 100.
struct Copied {
    name: &'static str,
    from: u32,
    to: u32,
    count: u32,
    /// Where a number is read after the copy.
    place: u32,
    word: u32,
}

/// What waits for a process that a call of slot 0 kills, how it died, and who runs then in turn.
struct Death {
    name: &'static str,
    used: u8,
    /// Who sends to the process that dies, in order of blocking.
    senders: &'static [u8],
    /// Who receives from it.
    receivers: &'static [u8],
    /// The call's type, and then p0 to p4.
    words: [u32; 6],
    dead: u8,
    cause: DeathCause,
    order: &'static [u8],
}

static DEATHS: &[Death] = &[
    Death {
        name: "the last caller goes on last, after receivers in slot order",
        used: 6,
        senders: &[4, 2],
        receivers: &[5, 3],
        words: [KILL, 1, 0, 0, 0, 0],
        dead: 1,
        cause: DeathCause::Kill,
        order: &[0, 5, 3, 2, 4],
    },
    Death {
        name: "EXIT with 31 callers",
        used: 32,
        senders: &[
            1, 2, 3, 4, 5, 6, 7, 8, 9, 10, 11, 12, 13, 14, 15, 16, 17, 18, 19, 20, 21, 22, 23, 24,
            25, 26, 27, 28, 29, 30, 31,
        ],
        receivers: &[],
        words: [EXIT, 0, 0, 0, 0, 0],
        dead: 0,
        cause: DeathCause::Exit,
        order: &[
            31, 30, 29, 28, 27, 26, 25, 24, 23, 22, 21, 20, 19, 18, 17, 16, 15, 14, 13, 12, 11, 10,
            9, 8, 7, 6, 5, 4, 3, 2, 1,
        ],
    },
    Death {
        name: "a process that receives from itself is in no queue",
        used: 2,
        senders: &[],
        receivers: &[1],
        words: [KILL, 1, 0, 0, 0, 0],
        dead: 1,
        cause: DeathCause::Kill,
        order: &[0],
    },
    Death {
        name: "KILL of oneself",
        used: 2,
        senders: &[],
        receivers: &[],
        words: [KILL, 0, 0, 0, 0, 0],
        dead: 0,
        cause: DeathCause::Exit,
        order: &[1],
    },
];

/// Some processes that may make these kernel calls.
fn processes(rt: &impl Abort, alloc: Global, used: u8, calls: u32) -> Result<Table, Fail> {
    let masks = Masks {
        traps: ALL_TRAPS,
        sends: ALL_SENDS,
        calls,
    };
    let wanted = Processes {
        rules: Rules::Lenient,
        used,
        masks,
        best: 7,
    };
    table_of(rt, alloc, &wanted)
}

fn write_words(image: &mut Image, words: &[u32; 6]) {
    let buffer = image.register(Register::Ebx);
    let places = buffer.saturating_add(4)..buffer.saturating_add(28);
    for (place, word) in places.step_by(4).zip(words.iter()) {
        let _ = image.memory.write(place, Size::Dword, *word);
    }
}

/// A ready process makes a kernel call by the buffer that its EBX names. The words are the call's type,
/// and then p0 to p4.
pub(crate) fn make_call(rt: &impl Abort, table: &mut Table, slot: Slot, words: &[u32; 6]) -> After {
    assert!(rt; slot < table.slot_count());
    assert!(rt; table.process(slot).state.is_ready());
    dequeue(table, slot);
    let mut image = table.lend(slot);
    write_words(&mut image, words);
    table.take_home(slot, image);
    let image = &table.process(slot).image;
    assert!(rt; image.register(Register::Ebx) as usize + 36 <= image.memory.limit());
    assert!(rt; table.devices().console.count() < 10_000);
    call(table, slot)
}

/// One of two traps, and the endpoint that it names.
#[derive(Clone, Copy)]
pub(crate) enum Trap {
    Send(Endpoint),
    Receive(Endpoint),
}

/// A ready process sends to an endpoint, or receives from it.
pub(crate) fn make_trap(rt: &impl Abort, table: &mut Table, slot: Slot, trap: Trap) {
    assert!(rt; slot < table.slot_count());
    assert!(rt; table.process(slot).state.is_ready());
    dequeue(table, slot);
    match trap {
        Trap::Send(to) => send(table, slot, to),
        Trap::Receive(from) => receive(table, slot, from),
    }
}

/// A ready process goes to a processor.
pub(crate) fn send_away(rt: &impl Abort, table: &mut Table, slot: Slot) {
    assert!(rt; slot < table.slot_count());
    assert!(rt; table.process(slot).state.is_ready());
    dequeue(table, slot);
    let _image = table.lend(slot);
}

/// The calls before that of slot 0, by which the other slots are as they are.
fn prepare(rt: &impl Abort, table: &mut Table) {
    make_call(rt, table, 1, &[IRQCTL, 1, 5, 0, 0, 0]);
    make_call(rt, table, 1, &[DEVIO, 1, 0, 0x42, 0, 0]);
    make_call(rt, table, 3, &[EXIT, 0, 0, 0, 0, 0]);
    send_away(rt, table, 2);
}

/// Whether slot 0 goes on with OK in EAX, and a row's reply is at 512; only a write has put a second
/// byte on the console.
fn is_left(rt: &impl Abort, table: &Table, row: &Request) -> bool {
    assert!(rt; table.slot_count() > 0);
    let is_written = row.words[0] == DEVIO && row.words[1] == 1;
    table.process(0).image.register(Register::Eax) == OK
        && word_at(rt, table, 0, 512) == SYSTEM
        && word_at(rt, table, 0, 516) == row.result
        && word_at(rt, table, 0, 520) == row.answer
        && (table.devices().console.get(1) == Some(0x41)) == is_written
}

fn is_replied(rt: &impl Abort, table: &mut Table, row: &Request) -> bool {
    prepare(rt, table);
    make_call(rt, table, 0, &row.words) == After::Reply(row.result) && is_left(rt, table, row)
}

fn is_copied(rt: &impl Abort, table: &mut Table, copy: &Copied) -> bool {
    let words = [VIRCOPY, 0, copy.from, 0, copy.to, copy.count];
    make_call(rt, table, 0, &words) == After::Reply(OK)
        && word_at(rt, table, 0, copy.place) == copy.word
}

/// A number of ticks.
fn make_ticks(rt: &impl Abort, table: &mut Table, count: u8) {
    for _ in 0..count {
        assert!(rt; table.uptime() < 100);
        tick(table);
    }
}

/// A process asks for a line, which is raised.
fn raise_own(rt: &impl Abort, table: &mut Table, line: u8) {
    make_call(rt, table, 0, &[IRQCTL, 1, u32::from(line), 0, 0, 0]);
    assert!(rt; line < 16);
    assert!(rt; table.devices().owners[line as usize].is_some());
    raise(table, line);
}

/// What is in a buffer at 512 after a RECEIVE from HARDWARE.
static NOTIFIED: [u32; 9] = [HARDWARE, NOTIFY_MESSAGE, 9, 0x22, 0, 0, 0, 0, 0];

/// What an alarm's call of slot 0 replies.
fn alarm_left(rt: &impl Abort, table: &mut Table, delay: u32) -> u32 {
    make_call(rt, table, 0, &[SETALARM, delay, 0, 0, 0, 0]);
    word_at(rt, table, 0, 520)
}

/// Lines 5 and 1 for a ready owner at uptime 9, and a RECEIVE from HARDWARE; an alarm that is cancelled
/// two ticks after it was set for five.
fn is_timed(rt: &impl Abort, table: &mut Table) -> bool {
    make_ticks(rt, table, 9);
    raise_own(rt, table, 5);
    raise_own(rt, table, 1);
    make_trap(rt, table, 0, Trap::Receive(HARDWARE));
    let is_notified = has_words(rt, table, 0, &NOTIFIED) && alarm_left(rt, table, 5) == 0;
    make_ticks(rt, table, 2);
    let is_set = alarm_left(rt, table, 0) == 3;
    make_ticks(rt, table, 2);
    is_notified && is_set
}

/// What is in the buffer of who waits for anybody, after its alarm rang at uptime 14.
static RUNG: [u32; 9] = [CLOCK, NOTIFY_MESSAGE, 14, 0, 0, 0, 0, 0, 0];

/// An alarm that is set for five ticks at uptime 9, by a process that then waits: silent for four, it
/// rings at the fifth.
fn rings(rt: &impl Abort, table: &mut Table) -> bool {
    make_ticks(rt, table, 9);
    let had_none = alarm_left(rt, table, 5) == 0;
    make_trap(rt, table, 0, Trap::Receive(ANY));
    make_ticks(rt, table, 4);
    let is_silent = pick(table).is_none();
    make_ticks(rt, table, 1);
    had_none && is_silent && has_words(rt, table, 0, &RUNG) && next_one(rt, table) == Some((0, OK))
}

/// Takes line 5.
static TAKES: [u32; 6] = [IRQCTL, 1, 5, 0, 0, 0];

/// A line that is one's own already.
fn is_taken_again(rt: &impl Abort, table: &mut Table) -> bool {
    let first = make_call(rt, table, 0, &TAKES);
    let second = make_call(rt, table, 0, &TAKES);
    first == After::Reply(OK)
        && second == After::Reply(OK)
        && table.devices().owners[5] == Some(0)
        && table.devices().owners[4].is_none()
}

/// What is written into a register of the machine.
fn word_of(register: u32) -> u32 {
    register.wrapping_mul(0x0101_0101)
}

/// Whether each register but the console holds a word of its own.
fn keep_words(rt: &impl Abort, table: &mut Table) -> bool {
    for register in 1..256 {
        make_call(rt, table, 0, &[DEVIO, 1, register, word_of(register), 0, 0]);
    }
    for register in 1..256 {
        make_call(rt, table, 0, &[DEVIO, 0, register, 0, 0, 0]);
        if word_at(rt, table, 0, 520) != word_of(register) {
            return false;
        }
    }
    table.devices().console.count() == 0
}

/// Whether, after one byte more than the console holds, the first is gone, and all are counted.
fn keeps_last_bytes(rt: &impl Abort, table: &mut Table) -> bool {
    for number in 0..4097 {
        make_call(rt, table, 0, &[DEVIO, 1, 0, number, 0, 0]);
    }
    let console = &table.devices().console;
    console.count() == 4097
        && console.get(0) == Some(1)
        && console.get(4094) == Some(0xFF)
        && console.get(4095) == Some(0)
        && console.get(4096).is_none()
}

/// Slot 0's call, after those who wait for the process that dies of it: how that is down.
fn state_of_dead(rt: &impl Abort, table: &mut Table, death: &Death) -> State {
    for slot in death.senders {
        make_trap(rt, table, *slot, Trap::Send(u32::from(death.dead)));
    }
    for slot in death.receivers {
        make_trap(rt, table, *slot, Trap::Receive(u32::from(death.dead)));
    }
    make_call(rt, table, 0, &death.words);
    assert!(rt; death.dead < table.slot_count());
    table.process(death.dead).state
}

/// Who is picked next, and with what in EAX it goes on; it is then out of its list.
fn next_one(rt: &impl Abort, table: &mut Table) -> Option<(Slot, u32)> {
    let slot = pick(table)?;
    assert!(rt; slot < table.slot_count());
    let process = table.process(slot);
    let result = process.image.register(Register::Eax);
    assert!(rt; process.state.is_ready());
    dequeue(table, slot);
    Some((slot, result))
}

/// Whether those who waited go on with EDEADDST, each in its turn, and nobody after them.
fn go_on_in_order(rt: &impl Abort, table: &mut Table, death: &Death) -> bool {
    for slot in death.order {
        let waited = death.senders.contains(slot) || death.receivers.contains(slot);
        let wanted = if waited { EDEADDST } else { OK };
        if next_one(rt, table) != Some((*slot, wanted)) {
            return false;
        }
    }
    pick(table) == None
}

fn dies_so(rt: &impl Abort, table: &mut Table, death: &Death) -> bool {
    state_of_dead(rt, table, death) == State::Down(death.cause) && go_on_in_order(rt, table, death)
}

/// One process that may make all kernel calls but GRANT.
fn one_process(rt: &impl Abort, alloc: Global) -> Result<Table, Fail> {
    processes(rt, alloc, 1, ALL_BUT_GRANT)
}

#[test]
fn numbers_of_pseudo_endpoints(rt: HostRuntime) {
    for row in PSEUDO_ENDPOINTS {
        let name = row.name;
        assert!(rt; row.endpoint == row.number, "{name}");
    }
}

/// Each row on a new table.
fn all_replied(rt: &impl Abort, alloc: Global, rows: &[Request]) -> Result<(), Fail> {
    for row in rows {
        let name = row.name;
        let mut table = processes(rt, alloc, 4, row.mask)?;
        assert!(rt; is_replied(rt, &mut table, row), "{name}");
    }
    Ok(())
}

/// The type is tried before the mask, and the mask before the call's own reasons. A row that is wrong in
/// two ways shows which of them comes first.
static MASKED: &[Request] = &[
    Request {
        name: "GRANT is no call under these rules",
        words: [GRANT, 0, 0, 0, 0, 0],
        result: EBADREQUEST,
        ..REQUEST
    },
    Request {
        name: "GRANT is no call, and the mask is empty",
        mask: 0,
        words: [GRANT, 0, 0, 0, 0, 0],
        result: EBADREQUEST,
        ..REQUEST
    },
    Request {
        name: "EXIT is not in the mask",
        mask: NO_EXIT,
        words: [EXIT, 0, 0, 0, 0, 0],
        result: ECALLDENIED,
        ..REQUEST
    },
    Request {
        name: "VIRCOPY is not in the mask, and copies too many bytes",
        mask: NO_VIRCOPY,
        words: [VIRCOPY, 0, 0, 0, 0, 65_537],
        result: ECALLDENIED,
        ..REQUEST
    },
];

#[test]
fn masked_calls(rt: HostRuntime) -> Result<(), Fail> {
    all_replied(&rt, rt.alloc(), MASKED)
}

/// Lines that are taken and given up.
static LINES: &[Request] = &[
    Request {
        name: "IRQCTL: a wrong action on another's line",
        words: [IRQCTL, 2, 5, 0, 0, 0],
        result: EINVAL,
        ..REQUEST
    },
    Request {
        name: "IRQCTL gives up a line after the last one",
        words: [IRQCTL, 0, 16, 0, 0, 0],
        result: EINVAL,
        ..REQUEST
    },
    Request {
        name: "IRQCTL takes another's line",
        words: [IRQCTL, 1, 5, 0, 0, 0],
        result: EPERM,
        ..REQUEST
    },
    Request {
        name: "IRQCTL gives up another's line",
        words: [IRQCTL, 0, 5, 0, 0, 0],
        result: EPERM,
        ..REQUEST
    },
    Request {
        name: "IRQCTL gives up a free line",
        words: [IRQCTL, 0, 3, 0, 0, 0],
        result: EPERM,
        ..REQUEST
    },
    Request {
        name: "IRQCTL takes a free line",
        words: [IRQCTL, 1, 3, 0, 0, 0],
        ..REQUEST
    },
];

#[test]
fn calls_for_lines(rt: HostRuntime) -> Result<(), Fail> {
    all_replied(&rt, rt.alloc(), LINES)
}

/// The clock, the console and the registers.
static DEVICES: &[Request] = &[
    Request {
        name: "SETALARM: the first alarm",
        words: [SETALARM, 5, 0, 0, 0, 0],
        ..REQUEST
    },
    Request {
        name: "DEVIO writes a byte to the console",
        words: [DEVIO, 1, 0, 0x41, 0, 0],
        ..REQUEST
    },
    Request {
        name: "DEVIO reads the console",
        words: [DEVIO, 0, 0, 0, 0, 0],
        ..REQUEST
    },
    Request {
        name: "DEVIO reads a register after the last one",
        words: [DEVIO, 0, 256, 0, 0, 0],
        result: EINVAL,
        ..REQUEST
    },
    Request {
        name: "DEVIO: a wrong action",
        words: [DEVIO, 2, 0, 0, 0, 0],
        result: EINVAL,
        ..REQUEST
    },
];

#[test]
fn calls_for_devices(rt: HostRuntime) -> Result<(), Fail> {
    all_replied(&rt, rt.alloc(), DEVICES)
}

/// Copies of slots that have no process.
static NO_PARTIES: &[Request] = &[
    Request {
        name: "VIRCOPY of too many bytes, both slots unused",
        words: [VIRCOPY, 4, 0, 4, 0, 65_537],
        result: EINVAL,
        ..REQUEST
    },
    Request {
        name: "VIRCOPY from an unused slot to another generation",
        words: [VIRCOPY, 4, 0, 1024, 0, 0],
        result: EBADSRCDST,
        ..REQUEST
    },
    Request {
        name: "VIRCOPY from another generation to an unused slot",
        words: [VIRCOPY, 1024, 0, 4, 0, 0],
        result: EDEADDST,
        ..REQUEST
    },
    Request {
        name: "VIRCOPY to an unused slot",
        words: [VIRCOPY, 0, 0, 4, 0, 0],
        result: EBADSRCDST,
        ..REQUEST
    },
    Request {
        name: "VIRCOPY from a slot on a processor to an unused slot",
        words: [VIRCOPY, 2, 0, 4, 0, 0],
        result: EBADSRCDST,
        ..REQUEST
    },
    Request {
        name: "VIRCOPY from a slot on a processor to a dead one",
        words: [VIRCOPY, 2, 0, 3, 0, 0],
        result: EDEADDST,
        ..REQUEST
    },
];

#[test]
fn copies_of_no_process(rt: HostRuntime) -> Result<(), Fail> {
    all_replied(&rt, rt.alloc(), NO_PARTIES)
}

/// Copies of a process that is on a processor.
static AWAY: &[Request] = &[
    Request {
        name: "VIRCOPY from a slot on a processor, past its limit",
        words: [VIRCOPY, 2, 4097, 0, 0, 0],
        result: ENOTREADY,
        ..REQUEST
    },
    Request {
        name: "VIRCOPY from past the limit to a slot on a processor",
        words: [VIRCOPY, 0, 4097, 2, 0, 0],
        result: ENOTREADY,
        ..REQUEST
    },
    Request {
        name: "VIRCOPY to a slot on a processor, past its limit",
        words: [VIRCOPY, 0, 0, 2, 4097, 0],
        result: ENOTREADY,
        ..REQUEST
    },
];

#[test]
fn copies_of_processes_away(rt: HostRuntime) -> Result<(), Fail> {
    all_replied(&rt, rt.alloc(), AWAY)
}

/// Copies up to the limit and past it.
static AT_LIMITS: &[Request] = &[
    Request {
        name: "VIRCOPY of no bytes, from and to one past the limit",
        words: [VIRCOPY, 0, 4097, 1, 4097, 0],
        result: EFAULT,
        ..REQUEST
    },
    Request {
        name: "VIRCOPY of no bytes, from and to the limit",
        words: [VIRCOPY, 0, 4096, 1, 4096, 0],
        ..REQUEST
    },
    Request {
        name: "VIRCOPY of no bytes, from one past the limit",
        words: [VIRCOPY, 0, 4097, 1, 4096, 0],
        result: EFAULT,
        ..REQUEST
    },
    Request {
        name: "VIRCOPY of no bytes, to one past the limit",
        words: [VIRCOPY, 0, 4096, 1, 4097, 0],
        result: EFAULT,
        ..REQUEST
    },
    Request {
        name: "VIRCOPY of four bytes, the last of them past the limit",
        words: [VIRCOPY, 0, 4093, 1, 4092, 4],
        result: EFAULT,
        ..REQUEST
    },
];

#[test]
fn copies_at_limits(rt: HostRuntime) -> Result<(), Fail> {
    all_replied(&rt, rt.alloc(), AT_LIMITS)
}

/// Whom a process kills.
static KILLS: &[Request] = &[
    Request {
        name: "KILL of an unused slot",
        words: [KILL, 4, 0, 0, 0, 0],
        result: EBADSRCDST,
        ..REQUEST
    },
    Request {
        name: "KILL of the hardware",
        words: [KILL, HARDWARE, 0, 0, 0, 0],
        result: EBADSRCDST,
        ..REQUEST
    },
    Request {
        name: "KILL of another generation of a ready slot",
        words: [KILL, 1025, 0, 0, 0, 0],
        result: EDEADDST,
        ..REQUEST
    },
    Request {
        name: "KILL of another generation of a slot on a processor",
        words: [KILL, 1026, 0, 0, 0, 0],
        result: EDEADDST,
        ..REQUEST
    },
    Request {
        name: "KILL of a dead slot",
        words: [KILL, 3, 0, 0, 0, 0],
        result: EDEADDST,
        ..REQUEST
    },
    Request {
        name: "KILL of a slot on a processor",
        words: [KILL, 2, 0, 0, 0, 0],
        result: ENOTREADY,
        ..REQUEST
    },
    Request {
        name: "KILL of a ready slot",
        words: [KILL, 1, 0, 0, 0, 0],
        ..REQUEST
    },
];

#[test]
fn kills(rt: HostRuntime) -> Result<(), Fail> {
    all_replied(&rt, rt.alloc(), KILLS)
}

/// Whose endpoint a process asks for.
static QUESTIONS: &[Request] = &[
    Request {
        name: "WHOIS of a ready slot",
        words: [WHOIS, 1, 0, 0, 0, 0],
        answer: 1,
        ..REQUEST
    },
    Request {
        name: "WHOIS of a slot on a processor",
        words: [WHOIS, 2, 0, 0, 0, 0],
        answer: 2,
        ..REQUEST
    },
    Request {
        name: "WHOIS of an unused slot",
        words: [WHOIS, 4, 0, 0, 0, 0],
        result: EINVAL,
        ..REQUEST
    },
    Request {
        name: "WHOIS of a dead slot",
        words: [WHOIS, 3, 0, 0, 0, 0],
        result: EDEADDST,
        ..REQUEST
    },
];

#[test]
fn questions(rt: HostRuntime) -> Result<(), Fail> {
    all_replied(&rt, rt.alloc(), QUESTIONS)
}

/// Each copy on a new table.
fn all_copied(rt: &impl Abort, alloc: Global, copies: &[Copied]) -> Result<(), Fail> {
    for copy in copies {
        let name = copy.name;
        let mut table = one_process(rt, alloc)?;
        assert!(rt; is_copied(rt, &mut table, copy), "{name}");
    }
    Ok(())
}

/// Bytes that are copied by one place.
static OVERLAPS: &[Copied] = &[
    Copied {
        name: "up by one byte: the first byte stays",
        from: 100,
        to: 101,
        count: 4,
        place: 100,
        word: 0x0302_0101,
    },
    Copied {
        name: "up by one byte: the copied bytes",
        from: 100,
        to: 101,
        count: 4,
        place: 101,
        word: 0x0403_0201,
    },
    Copied {
        name: "down by one byte: the copied bytes",
        from: 101,
        to: 100,
        count: 4,
        place: 100,
        word: 0x0504_0302,
    },
    Copied {
        name: "down by one byte: the last byte stays",
        from: 101,
        to: 100,
        count: 4,
        place: 101,
        word: 0x0505_0403,
    },
];

#[test]
fn copies_that_overlap(rt: HostRuntime) -> Result<(), Fail> {
    all_copied(&rt, rt.alloc(), OVERLAPS)
}

/// Copies out of the caller's message, and onto it.
static MESSAGES: &[Copied] = &[
    Copied {
        name: "out of the caller's own message: its type",
        from: 516,
        to: 600,
        count: 4,
        place: 600,
        word: VIRCOPY,
    },
    Copied {
        name: "onto p0 of the message: the reply comes after",
        from: 100,
        to: 520,
        count: 4,
        place: 520,
        word: 0,
    },
    Copied {
        name: "onto the whole message: the reply's source comes after",
        from: 100,
        to: 512,
        count: 36,
        place: 512,
        word: SYSTEM,
    },
    Copied {
        name: "onto the message's end and past it: the end is the reply's",
        from: 97,
        to: 544,
        count: 8,
        place: 544,
        word: 0,
    },
    Copied {
        name: "onto the message's end and past it: the bytes past it",
        from: 97,
        to: 544,
        count: 8,
        place: 548,
        word: 0x0504_0302,
    },
];

#[test]
fn copies_of_the_message(rt: HostRuntime) -> Result<(), Fail> {
    all_copied(&rt, rt.alloc(), MESSAGES)
}

#[test]
fn calls_that_kill(rt: HostRuntime) -> Result<(), Fail> {
    for row in DEATHS {
        let name = row.name;
        let mut table = processes(&rt, rt.alloc(), row.used, ALL_BUT_GRANT)?;
        assert!(rt; dies_so(&rt, &mut table, row), "{name}");
    }
    Ok(())
}

/// What the only process of a table does.
#[derive(Clone, Copy)]
enum Work {
    TakesLines,
    SetsAlarm,
    TakesLineAgain,
    WritesRegisters,
    WritesConsole,
}

fn is_right(rt: &impl Abort, table: &mut Table, work: Work) -> bool {
    match work {
        Work::TakesLines => is_timed(rt, table),
        Work::SetsAlarm => rings(rt, table),
        Work::TakesLineAgain => is_taken_again(rt, table),
        Work::WritesRegisters => keep_words(rt, table),
        Work::WritesConsole => keeps_last_bytes(rt, table),
    }
}

fn one_works(rt: &impl Abort, alloc: Global, work: Work) -> Result<(), Fail> {
    let mut table = one_process(rt, alloc)?;
    assert!(rt; is_right(rt, &mut table, work));
    Ok(())
}

#[test]
fn lines_and_a_cancelled_alarm(rt: HostRuntime) -> Result<(), Fail> {
    one_works(&rt, rt.alloc(), Work::TakesLines)
}

#[test]
fn an_alarm_rings(rt: HostRuntime) -> Result<(), Fail> {
    one_works(&rt, rt.alloc(), Work::SetsAlarm)
}

#[test]
fn own_line(rt: HostRuntime) -> Result<(), Fail> {
    one_works(&rt, rt.alloc(), Work::TakesLineAgain)
}

#[test]
fn registers_of_the_machine(rt: HostRuntime) -> Result<(), Fail> {
    one_works(&rt, rt.alloc(), Work::WritesRegisters)
}

#[test]
fn bytes_of_the_console(rt: HostRuntime) -> Result<(), Fail> {
    one_works(&rt, rt.alloc(), Work::WritesConsole)
}
