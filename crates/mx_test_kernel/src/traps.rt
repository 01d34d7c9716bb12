//! Traps worked by hand after the book's rules and our own.

use crate::kernel_numbers::{
    ALL_TRAPS, EBADSRCDST, ECALLDENIED, EDEADDST, EFAULT, ELOCKED, NOTIFY, NOTIFY_MESSAGE, OK,
    RECEIVE, SEND, SENDREC,
};
use crate::tables::{LIMIT, add_process, has_words};
use mx_ipc::{TrapAnswer, trap};
use mx_proc::{
    ANY, Delivery, DeliveryKind, Endpoint, HARDWARE, Masks, Partner, Rules, SYSTEM, Slot, Source,
    Stale, State, Table,
};
use mx_sched::{dequeue, enqueue, pick};
use mx_word::{Register, Size, write_dword};
use std::alloc::Global;
use std::process::Abort;
use std::test::Fail;

/// What is seen of a process: it goes on with a result, or doesn't.
#[derive(Clone, Copy, PartialEq, Eq)]
enum Seen {
    Goes(u32),
    Stays(State),
}

use Seen::{Goes, Stays};

/// A trap, and what is then seen of its slot and of another one.
struct Trapped {
    name: &'static str,
    slot: Slot,
    call: u32,
    partner: Endpoint,
    buffer: u32,
    own: Seen,
    /// Another slot, and what is seen of it.
    other: Option<(Slot, Seen)>,
}

const TRAPPED: Trapped = Trapped {
    name: "",
    slot: 0,
    call: SEND,
    partner: 0,
    buffer: 0,
    own: Goes(OK),
    other: None,
};

/// Traps in turn, on a new table.
struct Run {
    name: &'static str,
    traps: &'static [Trapped],
}

const WAITS: Seen = Stays(State::Receiving(Partner::Any));

const SENDS: Seen = Stays(State::Sending);

/// A process that may make all four traps, and send to each of the five.
const FREE: Masks = Masks {
    traps: ALL_TRAPS,
    sends: 0x1F,
    calls: 0,
};

/// The masks of five processes: slot 3 may make no call, slot 4 may send to nobody.
static MASKS: &[Masks] = &[
    FREE,
    FREE,
    FREE,
    Masks { traps: 0, ..FREE },
    Masks { sends: 0, ..FREE },
];

fn five_processes(rt: &impl Abort, alloc: Global) -> Result<Table, Fail> {
    let mut table = Table::new(alloc, Rules::Lenient)?;
    for masks in MASKS {
        add_process(rt, alloc, &mut table, *masks, 5)?;
    }
    Ok(table)
}

/// A ready process makes a trap by its ECX, EAX and EBX, with a message in its buffer.
fn make_trap(
    rt: &impl Abort,
    table: &mut Table,
    slot: Slot,
    words: (u32, u32, u32),
    message: &[u8],
) -> TrapAnswer {
    assert!(rt; slot < table.slot_count());
    assert!(rt; table.process(slot).state.is_ready());
    dequeue(table, slot);
    let mut image = table.lend(slot);
    image.regs.set(Size::Dword, Register::Ecx, words.0);
    image.regs.set(Size::Dword, Register::Eax, words.1);
    image.regs.set(Size::Dword, Register::Ebx, words.2);
    let _ = image.memory.fill_from(words.2, message);
    table.take_home(slot, image);
    trap(table, slot)
}

fn look_at(rt: &impl Abort, table: &Table, slot: Slot) -> Seen {
    assert!(rt; slot < table.slot_count());
    let process = table.process(slot);
    match process.state {
        State::Ready => Goes(process.image.register(Register::Eax)),
        state => Stays(state),
    }
}

/// Whether the other slot that a trapped names, if it names one, is then as the trapped wants.
fn is_other_seen(rt: &impl Abort, table: &Table, trapped: &Trapped) -> bool {
    match trapped.other {
        Some((slot, seen)) => look_at(rt, table, slot) == seen,
        None => true,
    }
}

/// Whether a trapped's slot and the other are then as the trapped wants, and the answer shows whether a
/// call is left to the kernel.
fn is_seen(rt: &impl Abort, table: &mut Table, trapped: &Trapped) -> bool {
    let words = (trapped.call, trapped.partner, trapped.buffer);
    let after = make_trap(rt, table, trapped.slot, words, &[]);
    let is_left = trapped.own == Stays(State::Home);
    look_at(rt, table, trapped.slot) == trapped.own
        && is_other_seen(rt, table, trapped)
        && (after == TrapAnswer::Kernel) == is_left
}

fn make_all(rt: &impl Abort, table: &mut Table, run: &Run) {
    let run_name = run.name;
    for trapped in run.traps {
        let name = trapped.name;
        assert!(rt; is_seen(rt, table, trapped), "{run_name}: {name}");
    }
}

/// Each run on a new table.
fn all_made(rt: &impl Abort, alloc: Global, runs: &[Run]) -> Result<(), Fail> {
    for run in runs {
        let mut table = five_processes(rt, alloc)?;
        make_all(rt, &mut table, run);
    }
    Ok(())
}

/// Processes that would wait for themselves.
static LOCKS: &[Run] = &[
    Run {
        name: "two that send to each other, and one that sends to itself",
        traps: &[
            Trapped {
                name: "slot 0 waits for slot 1",
                slot: 0,
                call: SEND,
                partner: 1,
                own: SENDS,
                other: Some((1, Goes(OK))),
                ..TRAPPED
            },
            Trapped {
                name: "slot 1 would lock with slot 0",
                slot: 1,
                call: SEND,
                partner: 0,
                own: Goes(ELOCKED),
                other: Some((0, SENDS)),
                ..TRAPPED
            },
            Trapped {
                name: "slot 2 would lock with itself",
                slot: 2,
                call: SEND,
                partner: 2,
                own: Goes(ELOCKED),
                ..TRAPPED
            },
        ],
    },
    Run {
        name: "three that send in a ring",
        traps: &[
            Trapped {
                name: "slot 0 waits for slot 1",
                slot: 0,
                call: SEND,
                partner: 1,
                own: SENDS,
                ..TRAPPED
            },
            Trapped {
                name: "slot 1 waits for slot 2",
                slot: 1,
                call: SEND,
                partner: 2,
                own: SENDS,
                other: Some((0, SENDS)),
                ..TRAPPED
            },
            Trapped {
                name: "slot 2 would close the ring",
                slot: 2,
                call: SEND,
                partner: 0,
                own: Goes(ELOCKED),
                other: Some((1, SENDS)),
                ..TRAPPED
            },
        ],
    },
];

#[test]
fn locks(rt: HostRuntime) -> Result<(), Fail> {
    all_made(&rt, rt.alloc(), LOCKS)
}

/// Notifications that wait.
static NOTIFICATIONS: &[Run] = &[
    Run {
        name: "two notifications are one message",
        traps: &[
            Trapped {
                name: "the first notification",
                slot: 0,
                call: NOTIFY,
                partner: 1,
                own: Goes(OK),
                other: Some((1, Goes(OK))),
                ..TRAPPED
            },
            Trapped {
                name: "the second notification",
                slot: 0,
                call: NOTIFY,
                partner: 1,
                own: Goes(OK),
                other: Some((1, Goes(OK))),
                ..TRAPPED
            },
            Trapped {
                name: "slot 1 has one message",
                slot: 1,
                call: RECEIVE,
                partner: ANY,
                own: Goes(OK),
                other: Some((0, Goes(OK))),
                ..TRAPPED
            },
            Trapped {
                name: "slot 1 has no second message",
                slot: 1,
                call: RECEIVE,
                partner: ANY,
                own: WAITS,
                other: Some((0, Goes(OK))),
                ..TRAPPED
            },
        ],
    },
    Run {
        name: "a notification waits until a SENDREC has its reply",
        traps: &[
            Trapped {
                name: "slot 1 waits for anybody",
                slot: 1,
                call: RECEIVE,
                partner: ANY,
                own: WAITS,
                other: Some((0, Goes(OK))),
                ..TRAPPED
            },
            Trapped {
                name: "slot 0 calls slot 1",
                slot: 0,
                call: SENDREC,
                partner: 1,
                own: Stays(State::Awaiting(1)),
                other: Some((1, Goes(OK))),
                ..TRAPPED
            },
            Trapped {
                name: "slot 2 notifies slot 0, which awaits its reply",
                slot: 2,
                call: NOTIFY,
                partner: 0,
                own: Goes(OK),
                other: Some((0, Stays(State::Awaiting(1)))),
                ..TRAPPED
            },
            Trapped {
                name: "slot 1 replies",
                slot: 1,
                call: SEND,
                partner: 0,
                own: Goes(OK),
                other: Some((0, Goes(OK))),
                ..TRAPPED
            },
            Trapped {
                name: "slot 0 has the notification",
                slot: 0,
                call: RECEIVE,
                partner: 2,
                own: Goes(OK),
                ..TRAPPED
            },
        ],
    },
];

#[test]
fn notifications(rt: HostRuntime) -> Result<(), Fail> {
    all_made(&rt, rt.alloc(), NOTIFICATIONS)
}

/// Callers that wait, and whose message is taken.
static CALLERS: &[Run] = &[
    Run {
        name: "a SENDREC whose message is taken turns to receiving",
        traps: &[
            Trapped {
                name: "slot 0 calls slot 1, which does not receive",
                slot: 0,
                call: SENDREC,
                partner: 1,
                own: Stays(State::Calling),
                other: Some((1, Goes(OK))),
                ..TRAPPED
            },
            Trapped {
                name: "slot 1 takes the message",
                slot: 1,
                call: RECEIVE,
                partner: ANY,
                own: Goes(OK),
                other: Some((0, Stays(State::Awaiting(1)))),
                ..TRAPPED
            },
            Trapped {
                name: "slot 1 replies",
                slot: 1,
                call: SEND,
                partner: 0,
                own: Goes(OK),
                other: Some((0, Goes(OK))),
                ..TRAPPED
            },
        ],
    },
    Run {
        name: "the first caller comes first, and a partner that is named comes before it",
        traps: &[
            Trapped {
                name: "slot 1 is the first caller",
                slot: 1,
                call: SEND,
                partner: 0,
                own: SENDS,
                other: Some((0, Goes(OK))),
                ..TRAPPED
            },
            Trapped {
                name: "slot 2 is the second caller",
                slot: 2,
                call: SEND,
                partner: 0,
                own: SENDS,
                other: Some((0, Goes(OK))),
                ..TRAPPED
            },
            Trapped {
                name: "the first caller's message is taken",
                slot: 0,
                call: RECEIVE,
                partner: ANY,
                own: Goes(OK),
                other: Some((1, Goes(OK))),
                ..TRAPPED
            },
            Trapped {
                name: "slot 1 waits now after slot 2",
                slot: 1,
                call: SEND,
                partner: 0,
                own: SENDS,
                other: Some((2, SENDS)),
                ..TRAPPED
            },
            Trapped {
                name: "slot 1 is named, so its message is taken",
                slot: 0,
                call: RECEIVE,
                partner: 1,
                own: Goes(OK),
                other: Some((2, SENDS)),
                ..TRAPPED
            },
            Trapped {
                name: "slot 2's message is taken",
                slot: 0,
                call: RECEIVE,
                partner: ANY,
                own: Goes(OK),
                other: Some((2, Goes(OK))),
                ..TRAPPED
            },
        ],
    },
    Run {
        name: "a SENDREC to SYSTEM is left to the kernel",
        traps: &[Trapped {
            name: "the send mask is empty",
            slot: 4,
            call: SENDREC,
            partner: SYSTEM,
            own: Stays(State::Home),
            other: Some((0, Goes(OK))),
            ..TRAPPED
        }],
    },
];

#[test]
fn callers(rt: HostRuntime) -> Result<(), Fail> {
    all_made(&rt, rt.alloc(), CALLERS)
}

/// Partners that are no process.
static PARTNERS: &[Run] = &[Run {
    name: "pseudo-processes, ANY, an unused slot, other generations and an unknown call",
    traps: &[
        Trapped {
            name: "SEND to HARDWARE",
            slot: 0,
            call: SEND,
            partner: HARDWARE,
            own: Goes(ECALLDENIED),
            ..TRAPPED
        },
        Trapped {
            name: "SENDREC to HARDWARE",
            slot: 0,
            call: SENDREC,
            partner: HARDWARE,
            own: Goes(EBADSRCDST),
            ..TRAPPED
        },
        Trapped {
            name: "SEND to ANY",
            slot: 0,
            call: SEND,
            partner: ANY,
            own: Goes(EBADSRCDST),
            ..TRAPPED
        },
        Trapped {
            name: "SEND to an unused slot",
            slot: 0,
            call: SEND,
            partner: 5,
            own: Goes(EBADSRCDST),
            ..TRAPPED
        },
        Trapped {
            name: "SEND to another generation",
            slot: 1,
            call: SEND,
            partner: 1024,
            own: Goes(EDEADDST),
            ..TRAPPED
        },
        Trapped {
            name: "RECEIVE from another generation",
            slot: 1,
            call: RECEIVE,
            partner: 1024,
            own: Goes(EDEADDST),
            ..TRAPPED
        },
        Trapped {
            name: "call 5",
            slot: 0,
            call: 5,
            partner: 1,
            own: Goes(ECALLDENIED),
            ..TRAPPED
        },
    ],
}];

#[test]
fn partners(rt: HostRuntime) -> Result<(), Fail> {
    all_made(&rt, rt.alloc(), PARTNERS)
}

/// Buffers at the limit, and checks that a trap does not need.
static CHECKS: &[Run] = &[
    Run {
        name: "a buffer at the limit",
        traps: &[
            Trapped {
                name: "one byte past the limit",
                slot: 0,
                call: RECEIVE,
                partner: ANY,
                buffer: LIMIT - 35,
                own: Goes(EFAULT),
                ..TRAPPED
            },
            Trapped {
                name: "up to the limit",
                slot: 0,
                call: RECEIVE,
                partner: ANY,
                buffer: LIMIT - 36,
                own: WAITS,
                other: Some((1, Goes(OK))),
                ..TRAPPED
            },
        ],
    },
    Run {
        name: "checks that a trap does not need",
        traps: &[
            Trapped {
                name: "NOTIFY needs no buffer",
                slot: 0,
                call: NOTIFY,
                partner: 1,
                buffer: LIMIT,
                own: Goes(OK),
                ..TRAPPED
            },
            Trapped {
                name: "RECEIVE needs no bit of the send mask",
                slot: 4,
                call: RECEIVE,
                partner: 1,
                own: Stays(State::Receiving(Partner::Only(Source::Slot(1)))),
                other: Some((1, Goes(OK))),
                ..TRAPPED
            },
        ],
    },
];

#[test]
fn checks(rt: HostRuntime) -> Result<(), Fail> {
    all_made(&rt, rt.alloc(), CHECKS)
}

/// The first of two checks that fail is reported.
static FIRST_CHECKS: &[Run] = &[
    Run {
        name: "traps that fail in two ways, the first check is reported",
        traps: &[
            Trapped {
                name: "no trap allowed, and SEND to ANY",
                slot: 3,
                call: SEND,
                partner: ANY,
                own: Goes(ECALLDENIED),
                ..TRAPPED
            },
            Trapped {
                name: "SEND to SYSTEM, and a buffer at the limit",
                slot: 0,
                call: SEND,
                partner: SYSTEM,
                buffer: LIMIT,
                own: Goes(ECALLDENIED),
                ..TRAPPED
            },
            Trapped {
                name: "no trap allowed, and a buffer at the limit",
                slot: 3,
                call: SEND,
                partner: 0,
                buffer: LIMIT,
                own: Goes(ECALLDENIED),
                ..TRAPPED
            },
            Trapped {
                name: "no trap allowed, and another generation",
                slot: 3,
                call: SEND,
                partner: 1024,
                own: Goes(ECALLDENIED),
                ..TRAPPED
            },
            Trapped {
                name: "no trap allowed, and SEND to itself",
                slot: 3,
                call: SEND,
                partner: 3,
                own: Goes(ECALLDENIED),
                ..TRAPPED
            },
            Trapped {
                name: "SEND to ANY, and a buffer at the limit",
                slot: 0,
                call: SEND,
                partner: ANY,
                buffer: LIMIT,
                own: Goes(EBADSRCDST),
                ..TRAPPED
            },
            Trapped {
                name: "an unused slot, and another generation",
                slot: 0,
                call: SEND,
                partner: 1024 + 9,
                own: Goes(EBADSRCDST),
                ..TRAPPED
            },
            Trapped {
                name: "no send allowed, and a buffer at the limit",
                slot: 4,
                call: SEND,
                partner: 0,
                buffer: LIMIT,
                own: Goes(EFAULT),
                ..TRAPPED
            },
            Trapped {
                name: "another generation, and a buffer at the limit",
                slot: 0,
                call: SEND,
                partner: 1024 + 1,
                buffer: LIMIT,
                own: Goes(EFAULT),
                ..TRAPPED
            },
            Trapped {
                name: "SEND to itself, and a buffer at the limit",
                slot: 0,
                call: SEND,
                partner: 0,
                buffer: LIMIT,
                own: Goes(EFAULT),
                ..TRAPPED
            },
        ],
    },
    Run {
        name: "traps that fail in two ways, with a right buffer",
        traps: &[
            Trapped {
                name: "no send allowed, and another generation",
                slot: 4,
                call: SEND,
                partner: 1024,
                own: Goes(ECALLDENIED),
                ..TRAPPED
            },
            Trapped {
                name: "no send allowed, and SEND to itself",
                slot: 4,
                call: SEND,
                partner: 4,
                own: Goes(ECALLDENIED),
                ..TRAPPED
            },
            Trapped {
                name: "another generation of the sender itself",
                slot: 0,
                call: SEND,
                partner: 1024,
                own: Goes(EDEADDST),
                ..TRAPPED
            },
        ],
    },
];

#[test]
fn first_checks(rt: HostRuntime) -> Result<(), Fail> {
    all_made(&rt, rt.alloc(), FIRST_CHECKS)
}

/// What slot 2 sends; the kernel writes its source.
static MESSAGE: [u8; 36] = [
    0xAA, 0xBB, 0xCC, 0xDD, 7, 0, 0, 0, 9, 0, 0, 0, 0xFF, 0, 0, 0, 1, 0, 0, 0x80, 2, 0, 0, 0, 3, 0,
    0, 0, 4, 0, 0, 0, 5, 0, 0, 0x7F,
];

/// What is then in the buffer of slot 1.
static DELIVERED: [u32; 9] = [2, 7, 9, 0xFF, 0x8000_0001, 2, 3, 4, 0x7F00_0005];

/// What is in it after a notification by slot 0.
static NOTIFIED: [u32; 9] = [0, NOTIFY_MESSAGE, 0, 0, 0, 0, 0, 0, 0];

/// Whether a message or a notification to slot 1, which waits, is at 512, both go on with 0, and
/// the caller overtakes its partner.
fn is_delivered(
    rt: &impl Abort,
    table: &mut Table,
    sender: Slot,
    call: u32,
    words: &[u32; 9],
) -> bool {
    make_trap(rt, table, 1, (RECEIVE, ANY, 512), &[]);
    make_trap(rt, table, sender, (call, 1, 0), &MESSAGE);
    pick(table) == Some(sender)
        && has_words(rt, table, 1, words)
        && look_at(rt, table, sender) == Goes(OK)
        && look_at(rt, table, 1) == Goes(OK)
}

/// Whether both deliveries are recorded, and the receiver's endpoint is only that of its
/// generation.
fn are_kept(table: &Table) -> bool {
    let first = Delivery {
        from: 2,
        to: 1,
        message_type: 7,
        kind: DeliveryKind::Message,
    };
    let second = Delivery {
        from: 0,
        to: 1,
        message_type: NOTIFY_MESSAGE,
        kind: DeliveryKind::Notification,
    };
    table.delivery(0) == Some(first)
        && table.delivery(1) == Some(second)
        && table.look(1) == Ok(1)
        && table.look(1024 + 1) == Err(Stale)
}

fn are_delivered(rt: &impl Abort, table: &mut Table) -> bool {
    is_delivered(rt, table, 2, SEND, &DELIVERED)
        && is_delivered(rt, table, 0, NOTIFY, &NOTIFIED)
        && are_kept(table)
}

/// The delivery of a message from slot 2 to slot 1.
fn delivery_of(message_type: u32) -> Delivery {
    Delivery {
        from: 2,
        to: 1,
        message_type,
        kind: DeliveryKind::Message,
    }
}

/// Whether, after one message more than are recorded, each of the next type, the first is gone.
fn are_last_kept(rt: &impl Abort, table: &mut Table) -> bool {
    let mut message = [0; 8];
    for number in 0..1025 {
        write_dword(&mut message[4..], number);
        make_trap(rt, table, 1, (RECEIVE, ANY, 512), &[]);
        make_trap(rt, table, 2, (SEND, 1, 0), &message);
    }
    table.delivery(0) == Some(delivery_of(1))
        && table.delivery(1023) == Some(delivery_of(1024))
        && table.delivery(1024).is_none()
}

/// A slot that spends a quantum, and the level that it comes to.
struct Spent {
    name: &'static str,
    slot: Slot,
    level: u8,
}

/// Two slots that begin at level 7, one row after the other.
static LEVELS: &[Spent] = &[
    Spent {
        name: "slot 1 spends the first quantum",
        slot: 1,
        level: 6,
    },
    Spent {
        name: "slot 0 after slot 1",
        slot: 0,
        level: 6,
    },
    Spent {
        name: "slot 0 again",
        slot: 0,
        level: 7,
    },
    Spent {
        name: "slot 1 after slot 0",
        slot: 1,
        level: 5,
    },
    Spent {
        name: "slot 0 after slot 1, from level 7",
        slot: 0,
        level: 6,
    },
    Spent {
        name: "slot 1 after slot 0, from the best level",
        slot: 1,
        level: 5,
    },
];

/// The level of a ready process after a whole quantum.
fn level_after(rt: &impl Abort, table: &mut Table, slot: Slot) -> u8 {
    assert!(rt; slot < table.slot_count());
    let process = table.process(slot);
    assert!(rt; process.state.is_ready() && process.steps < 1000 && process.schedule.ticks == 5);
    dequeue(table, slot);
    table.spend(slot, 5);
    enqueue(table, slot);
    table.process(slot).schedule.level
}

/// Each slot comes to its level.
fn come_to_levels(rt: &impl Abort, table: &mut Table) {
    for row in LEVELS {
        let name = row.name;
        assert!(rt; level_after(rt, table, row.slot) == row.level, "{name}");
    }
}

/// Slot 1, which spent the last quantum at level 5, comes a level lower each time, down to the last.
fn come_down(rt: &impl Abort, table: &mut Table) {
    for level in 6..15_u8 {
        assert!(rt; level_after(rt, table, 1) == level, "to level {level}");
    }
    assert!(rt; level_after(rt, table, 1) == 14, "from the last level");
}

/// Slots 0 and 1 spend quanta by turns, slot 1 many after one another, and slot 0 one more: it is picked then.
fn are_spent(rt: &impl Abort, table: &mut Table) -> bool {
    come_to_levels(rt, table);
    come_down(rt, table);
    level_after(rt, table, 0) == 5 && pick(table) == Some(0)
}

/// What five processes do.
#[derive(Clone, Copy)]
enum Work {
    Deliver,
    DeliverMany,
    Spend,
}

fn is_right(rt: &impl Abort, table: &mut Table, work: Work) -> bool {
    match work {
        Work::Deliver => are_delivered(rt, table),
        Work::DeliverMany => are_last_kept(rt, table),
        Work::Spend => are_spent(rt, table),
    }
}

fn five_work(rt: &impl Abort, alloc: Global, work: Work) -> Result<(), Fail> {
    let mut table = five_processes(rt, alloc)?;
    assert!(rt; is_right(rt, &mut table, work));
    Ok(())
}

#[test]
fn deliveries(rt: HostRuntime) -> Result<(), Fail> {
    five_work(&rt, rt.alloc(), Work::Deliver)
}

#[test]
fn last_deliveries(rt: HostRuntime) -> Result<(), Fail> {
    five_work(&rt, rt.alloc(), Work::DeliverMany)
}

#[test]
fn levels(rt: HostRuntime) -> Result<(), Fail> {
    five_work(&rt, rt.alloc(), Work::Spend)
}
