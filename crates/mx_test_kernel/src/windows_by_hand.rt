//! Grants, and copies through windows, worked by hand.

use crate::calls_by_hand::{make_call, send_away};
use crate::kernel_numbers::{
    ALL_BUT_GRANT, ALL_CALLS, ALL_SENDS, ALL_TRAPS, EBADREQUEST, EBADSRCDST, ECALLDENIED, EDEADDST,
    EFAULT, EINVAL, ENOTREADY, EPERM, EXIT, GRANT, OK, VIRCOPY,
};
use crate::tables::{Processes, table_of};
use mx_kcall::{After, window_allows};
use mx_proc::{ANY, Access, Endpoint, Masks, Rules, SYSTEM, Slot, Table, Window};
use std::alloc::Global;
use std::process::Abort;
use std::test::Fail;

/// The access by which a grant closes the window.
const CLOSE: u32 = 0;

/// The access of a window from which another may copy.
const READ: u32 = 1;

/// The access of a window into which another may copy.
const WRITE: u32 = 2;

/// The access of a window for both.
const BOTH: u32 = 3;

/// A grant: the owner opens a window of its memory for a user.
#[derive(Clone, Copy)]
struct Opening {
    owner: Slot,
    user: Endpoint,
    place: u32,
    count: u32,
    access: u32,
}

/// What is copied from one endpoint's memory to another's.
#[derive(Clone, Copy)]
struct Copied {
    source: Endpoint,
    from: u32,
    target: Endpoint,
    to: u32,
    count: u32,
}

/// A call of a slot after grants, which are all accepted, and its result. The limits are 4096, and the
/// process of slot 3 is on a processor.
struct Row {
    name: &'static str,
    grants: &'static [Opening],
    caller: Slot,
    call: Call,
    result: u32,
}

enum Call {
    Copies(Copied),
    Grants(Opening),
}

use Call::{Copies, Grants};

/// Slot 1 lets slot 0 write 16 bytes at 256.
const WRITTEN: Opening = Opening {
    owner: 1,
    user: 0,
    place: 256,
    count: 16,
    access: WRITE,
};

/// Slot 1 closes what it opened for slot 0.
const CLOSED: Opening = Opening {
    place: 0,
    count: 0,
    access: CLOSE,
    ..WRITTEN
};

/// Slot 1 lets slot 2 read 16 bytes at 256.
const SOURCE: Opening = Opening {
    user: 2,
    access: READ,
    ..WRITTEN
};

/// Slot 0 lets slot 2 write 16 bytes at 600.
const TARGET: Opening = Opening {
    owner: 0,
    user: 2,
    place: 600,
    count: 16,
    access: WRITE,
};

/// From slot 0 to the first 16 bytes at 256 of slot 1.
const INTO: Copied = Copied {
    source: 0,
    from: 100,
    target: 1,
    to: 256,
    count: 16,
};

/// From the first 16 bytes at 256 of slot 1 to slot 0.
const OUT_OF: Copied = Copied {
    source: 1,
    from: 256,
    target: 0,
    to: 600,
    count: 16,
};

/// Four processes that may make these kernel calls.
fn processes(rt: &impl Abort, alloc: Global, rules: Rules, calls: u32) -> Result<Table, Fail> {
    let masks = Masks {
        traps: ALL_TRAPS,
        sends: ALL_SENDS,
        calls,
    };
    let wanted = Processes {
        rules,
        used: 4,
        masks,
        best: 7,
    };
    table_of(rt, alloc, &wanted)
}

/// A call's result.
fn result_of(rt: &impl Abort, table: &mut Table, slot: Slot, words: &[u32; 6]) -> Option<u32> {
    match make_call(rt, table, slot, words) {
        After::Reply(result) => Some(result),
        After::Died => None,
    }
}

fn make_grant(rt: &impl Abort, table: &mut Table, grant: &Opening) -> Option<u32> {
    let words = [GRANT, grant.user, grant.place, grant.count, grant.access, 0];
    result_of(rt, table, grant.owner, &words)
}

fn make_copy(rt: &impl Abort, table: &mut Table, caller: Slot, copy: &Copied) -> Option<u32> {
    let words = [
        VIRCOPY,
        copy.source,
        copy.from,
        copy.target,
        copy.to,
        copy.count,
    ];
    result_of(rt, table, caller, &words)
}

fn are_granted(rt: &impl Abort, table: &mut Table, grants: &[Opening]) -> bool {
    for one in grants {
        if make_grant(rt, table, one) != Some(OK) {
            return false;
        }
    }
    true
}

fn is_answered(rt: &impl Abort, table: &mut Table, row: &Row) -> bool {
    let result = match &row.call {
        Copies(copy) => make_copy(rt, table, row.caller, copy),
        Grants(one) => make_grant(rt, table, one),
    };
    result == Some(row.result)
}

fn is_right(rt: &impl Abort, table: &mut Table, row: &Row) -> bool {
    send_away(rt, table, 3);
    are_granted(rt, table, row.grants) && is_answered(rt, table, row)
}

/// Each row on a new table.
fn all_answered(rt: &impl Abort, alloc: Global, rows: &[Row]) -> Result<(), Fail> {
    for row in rows {
        let name = row.name;
        let mut table = processes(rt, alloc, Rules::Strict, ALL_CALLS)?;
        assert!(rt; is_right(rt, &mut table, row), "{name}");
    }
    Ok(())
}

/// Where a window begins and ends.
static EXTENTS: &[Row] = &[
    Row {
        name: "the whole window",
        grants: &[WRITTEN],
        caller: 0,
        call: Copies(INTO),
        result: OK,
    },
    Row {
        name: "a byte more than the window has",
        grants: &[WRITTEN],
        caller: 0,
        call: Copies(Copied { count: 17, ..INTO }),
        result: EPERM,
    },
    Row {
        name: "a byte before the window",
        grants: &[WRITTEN],
        caller: 0,
        call: Copies(Copied {
            to: 255,
            count: 1,
            ..INTO
        }),
        result: EPERM,
    },
    Row {
        name: "the last byte of the window and one more",
        grants: &[WRITTEN],
        caller: 0,
        call: Copies(Copied {
            to: 271,
            count: 2,
            ..INTO
        }),
        result: EPERM,
    },
    Row {
        name: "no bytes at the window's end",
        grants: &[WRITTEN],
        caller: 0,
        call: Copies(Copied {
            to: 272,
            count: 0,
            ..INTO
        }),
        result: OK,
    },
    Row {
        name: "no bytes past the window's end",
        grants: &[WRITTEN],
        caller: 0,
        call: Copies(Copied {
            to: 273,
            count: 0,
            ..INTO
        }),
        result: EPERM,
    },
];

#[test]
fn extents(rt: HostRuntime) -> Result<(), Fail> {
    all_answered(&rt, rt.alloc(), EXTENTS)
}

/// Windows for reading, for writing, and for both.
static ACCESSES: &[Row] = &[
    Row {
        name: "from a window for writing",
        grants: &[WRITTEN],
        caller: 0,
        call: Copies(OUT_OF),
        result: EPERM,
    },
    Row {
        name: "into a window for reading",
        grants: &[Opening {
            access: READ,
            ..WRITTEN
        }],
        caller: 0,
        call: Copies(INTO),
        result: EPERM,
    },
    Row {
        name: "from a window for reading",
        grants: &[Opening {
            access: READ,
            ..WRITTEN
        }],
        caller: 0,
        call: Copies(OUT_OF),
        result: OK,
    },
    Row {
        name: "into a window for both",
        grants: &[Opening {
            access: BOTH,
            ..WRITTEN
        }],
        caller: 0,
        call: Copies(INTO),
        result: OK,
    },
    Row {
        name: "from a window for both",
        grants: &[Opening {
            access: BOTH,
            ..WRITTEN
        }],
        caller: 0,
        call: Copies(OUT_OF),
        result: OK,
    },
    Row {
        name: "an access that a later grant took back",
        grants: &[
            WRITTEN,
            Opening {
                access: READ,
                ..WRITTEN
            },
        ],
        caller: 0,
        call: Copies(INTO),
        result: EPERM,
    },
];

#[test]
fn accesses(rt: HostRuntime) -> Result<(), Fail> {
    all_answered(&rt, rt.alloc(), ACCESSES)
}

/// Windows that are no more, or are another's.
static NO_WINDOWS: &[Row] = &[
    Row {
        name: "a window that was closed",
        grants: &[WRITTEN, CLOSED],
        caller: 0,
        call: Copies(INTO),
        result: EPERM,
    },
    Row {
        name: "a window that another one replaced",
        grants: &[
            WRITTEN,
            Opening {
                place: 1024,
                count: 8,
                ..WRITTEN
            },
        ],
        caller: 0,
        call: Copies(Copied { count: 8, ..INTO }),
        result: EPERM,
    },
    Row {
        name: "the window that replaced another one",
        grants: &[
            WRITTEN,
            Opening {
                place: 1024,
                count: 8,
                ..WRITTEN
            },
        ],
        caller: 0,
        call: Copies(Copied {
            to: 1024,
            count: 8,
            ..INTO
        }),
        result: OK,
    },
    Row {
        name: "another's window",
        grants: &[WRITTEN],
        caller: 2,
        call: Copies(Copied { source: 2, ..INTO }),
        result: EPERM,
    },
    Row {
        name: "no bytes without a window",
        grants: &[],
        caller: 0,
        call: Copies(Copied { count: 0, ..INTO }),
        result: EPERM,
    },
    Row {
        name: "who is on a processor, and has granted nothing",
        grants: &[],
        caller: 0,
        call: Copies(Copied {
            target: 3,
            count: 4,
            ..INTO
        }),
        result: ENOTREADY,
    },
];

#[test]
fn no_windows(rt: HostRuntime) -> Result<(), Fail> {
    all_answered(&rt, rt.alloc(), NO_WINDOWS)
}

/// Copies between two others.
static BETWEEN_OTHERS: &[Row] = &[
    Row {
        name: "from one to another, with both windows",
        grants: &[SOURCE, TARGET],
        caller: 2,
        call: Copies(OUT_OF),
        result: OK,
    },
    Row {
        name: "from one to another, with the source's window alone",
        grants: &[SOURCE],
        caller: 2,
        call: Copies(OUT_OF),
        result: EPERM,
    },
    Row {
        name: "from one to another, with the destination's window alone",
        grants: &[TARGET],
        caller: 2,
        call: Copies(OUT_OF),
        result: EPERM,
    },
    Row {
        name: "from one to another, with both windows the wrong way",
        grants: &[
            Opening {
                access: WRITE,
                ..SOURCE
            },
            Opening {
                access: READ,
                ..TARGET
            },
        ],
        caller: 2,
        call: Copies(OUT_OF),
        result: EPERM,
    },
];

#[test]
fn between_others(rt: HostRuntime) -> Result<(), Fail> {
    all_answered(&rt, rt.alloc(), BETWEEN_OTHERS)
}

/// Copies within one memory, and past limits.
static COPIES_AT_LIMITS: &[Row] = &[
    Row {
        name: "within one's own memory",
        grants: &[],
        caller: 0,
        call: Copies(Copied {
            target: 0,
            to: 200,
            count: 4,
            ..INTO
        }),
        result: OK,
    },
    Row {
        name: "past one's own limit, into a window",
        grants: &[WRITTEN],
        caller: 0,
        call: Copies(Copied {
            from: 4090,
            count: 7,
            ..INTO
        }),
        result: EFAULT,
    },
    Row {
        name: "past one's own limit, and without a window",
        grants: &[],
        caller: 0,
        call: Copies(Copied {
            from: 4090,
            count: 7,
            ..INTO
        }),
        result: EPERM,
    },
    Row {
        name: "past another's limit, and without a window",
        grants: &[],
        caller: 0,
        call: Copies(Copied {
            from: 4096,
            to: 256,
            count: 1,
            ..OUT_OF
        }),
        result: EPERM,
    },
];

#[test]
fn copies_at_limits(rt: HostRuntime) -> Result<(), Fail> {
    all_answered(&rt, rt.alloc(), COPIES_AT_LIMITS)
}

/// Grants up to the limit and past it.
static GRANTS_AT_LIMITS: &[Row] = &[
    Row {
        name: "a grant up to the limit",
        grants: &[],
        caller: 1,
        call: Grants(Opening {
            place: 4090,
            count: 6,
            ..WRITTEN
        }),
        result: OK,
    },
    Row {
        name: "a grant past the limit",
        grants: &[],
        caller: 1,
        call: Grants(Opening {
            place: 4090,
            count: 7,
            ..WRITTEN
        }),
        result: EFAULT,
    },
    Row {
        name: "a grant whose end wraps",
        grants: &[],
        caller: 1,
        call: Grants(Opening {
            place: 0xFFFF_FFFF,
            count: 2,
            ..WRITTEN
        }),
        result: EFAULT,
    },
    Row {
        name: "a close past the limit",
        grants: &[],
        caller: 1,
        call: Grants(Opening {
            place: 4090,
            count: 7,
            access: CLOSE,
            ..WRITTEN
        }),
        result: OK,
    },
];

#[test]
fn grants_at_limits(rt: HostRuntime) -> Result<(), Fail> {
    all_answered(&rt, rt.alloc(), GRANTS_AT_LIMITS)
}

/// Grants with a wrong access, and to oneself.
static WRONG_GRANTS: &[Row] = &[
    Row {
        name: "access 4",
        grants: &[],
        caller: 1,
        call: Grants(Opening {
            access: 4,
            ..WRITTEN
        }),
        result: EINVAL,
    },
    Row {
        name: "access 4 for nobody",
        grants: &[],
        caller: 1,
        call: Grants(Opening {
            user: 9,
            access: 4,
            ..WRITTEN
        }),
        result: EINVAL,
    },
    Row {
        name: "a grant to oneself",
        grants: &[],
        caller: 1,
        call: Grants(Opening { user: 1, ..WRITTEN }),
        result: EINVAL,
    },
    Row {
        name: "a close for oneself",
        grants: &[],
        caller: 1,
        call: Grants(Opening {
            user: 1,
            place: 0,
            count: 0,
            access: CLOSE,
            ..WRITTEN
        }),
        result: EINVAL,
    },
];

#[test]
fn wrong_grants(rt: HostRuntime) -> Result<(), Fail> {
    all_answered(&rt, rt.alloc(), WRONG_GRANTS)
}

/// For whom a window is opened.
static USERS: &[Row] = &[
    Row {
        name: "a grant for who is on a processor",
        grants: &[],
        caller: 1,
        call: Grants(Opening { user: 3, ..WRITTEN }),
        result: OK,
    },
    Row {
        name: "a grant to another generation of oneself",
        grants: &[],
        caller: 1,
        call: Grants(Opening {
            user: 1025,
            ..WRITTEN
        }),
        result: EDEADDST,
    },
    Row {
        name: "a grant to another generation",
        grants: &[],
        caller: 1,
        call: Grants(Opening {
            user: 1024,
            ..WRITTEN
        }),
        result: EDEADDST,
    },
    Row {
        name: "a grant to another generation, past the limit",
        grants: &[],
        caller: 1,
        call: Grants(Opening {
            user: 1024,
            place: 4090,
            count: 7,
            ..WRITTEN
        }),
        result: EDEADDST,
    },
    Row {
        name: "a grant to a slot without a service",
        grants: &[],
        caller: 1,
        call: Grants(Opening { user: 9, ..WRITTEN }),
        result: EBADSRCDST,
    },
    Row {
        name: "a grant to the kernel",
        grants: &[],
        caller: 1,
        call: Grants(Opening {
            user: SYSTEM,
            ..WRITTEN
        }),
        result: EBADSRCDST,
    },
    Row {
        name: "a grant to anybody",
        grants: &[],
        caller: 1,
        call: Grants(Opening {
            user: ANY,
            ..WRITTEN
        }),
        result: EBADSRCDST,
    },
];

#[test]
fn users(rt: HostRuntime) -> Result<(), Fail> {
    all_answered(&rt, rt.alloc(), USERS)
}

/// The results of slot 1's grant to slot 0, and of slot 0's copy into slot 1 without a window, under some
/// rules.
struct RulesRow {
    name: &'static str,
    rules: Rules,
    /// Which kernel calls each slot may make.
    mask: u32,
    granted: u32,
    copied: u32,
}

static BY_RULES: &[RulesRow] = &[
    RulesRow {
        name: "lenient rules, GRANT is in the mask",
        rules: Rules::Lenient,
        mask: ALL_CALLS,
        granted: EBADREQUEST,
        copied: OK,
    },
    RulesRow {
        name: "lenient rules, GRANT is not in the mask",
        rules: Rules::Lenient,
        mask: ALL_BUT_GRANT,
        granted: EBADREQUEST,
        copied: OK,
    },
    RulesRow {
        name: "strict rules, GRANT is not in the mask",
        rules: Rules::Strict,
        mask: ALL_BUT_GRANT,
        granted: ECALLDENIED,
        copied: EPERM,
    },
    RulesRow {
        name: "strict rules, GRANT is in the mask",
        rules: Rules::Strict,
        mask: ALL_CALLS,
        granted: OK,
        copied: EPERM,
    },
];

fn is_by_rules(rt: &impl Abort, table: &mut Table, row: &RulesRow) -> bool {
    let copy = Copied { count: 4, ..INTO };
    make_copy(rt, table, 0, &copy) == Some(row.copied)
        && make_grant(rt, table, &WRITTEN) == Some(row.granted)
}

#[test]
fn both_rules(rt: HostRuntime) -> Result<(), Fail> {
    for row in BY_RULES {
        let name = row.name;
        let mut table = processes(&rt, rt.alloc(), row.rules, row.mask)?;
        assert!(rt; is_by_rules(&rt, &mut table, row), "{name}");
    }
    Ok(())
}

/// Slots 1 and 0 open windows for each other, and so do slots 1 and 2.
static OPENED: &[Opening] = &[
    WRITTEN,
    Opening {
        owner: 0,
        user: 1,
        place: 0,
        count: 8,
        access: READ,
    },
    Opening {
        user: 2,
        place: 0,
        count: 8,
        access: READ,
        ..WRITTEN
    },
    Opening {
        owner: 2,
        user: 1,
        place: 0,
        count: 8,
        access: BOTH,
    },
];

/// Whether the death of slot 0 clears its windows and those that were opened for it, and no others.
fn are_cleared(rt: &impl Abort, table: &mut Table) -> bool {
    let are_opened = are_granted(rt, table, OPENED);
    make_call(rt, table, 0, &[EXIT, 0, 0, 0, 0, 0]);
    assert!(rt; table.slot_count() == 4);
    are_opened
        && table.window(1, 0).is_none()
        && table.window(0, 1).is_none()
        && table.window(1, 2).is_some()
        && table.window(2, 1).is_some()
}

#[test]
fn deaths_close_windows(rt: HostRuntime) -> Result<(), Fail> {
    let mut table = processes(&rt, rt.alloc(), Rules::Strict, ALL_CALLS)?;
    assert!(rt; are_cleared(&rt, &mut table));
    Ok(())
}

#[test]
fn windows_by_hand(rt: HostRuntime) {
    let window = Some(Window {
        place: 256,
        count: 16,
        access: Access::Write,
    });
    assert!(rt; window_allows(window, Access::Write, 256, 16));
    assert!(rt; !window_allows(window, Access::Read, 256, 16));
    assert!(rt; !window_allows(None, Access::Write, 256, 0));
}
