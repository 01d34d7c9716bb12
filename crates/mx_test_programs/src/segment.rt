//! Segments of more than one page, and of a part of a page.

use mx_mem::Segment;
use mx_word::Size;
use std::alloc::Global;
use std::process::Abort;
use std::test::Fail;

/// Three pages and a part of a fourth.
const LIMIT: u32 = 13_000;

/// A copy within a segment: from which address to which, and how many bytes.
struct Copied {
    name: &'static str,
    from: u32,
    to: u32,
    count: u32,
}

/// Most of them go over more than two pages.
static COPIES: &[Copied] = &[
    Copied {
        name: "apart",
        from: 100,
        to: 9_000,
        count: 4_000,
    },
    Copied {
        name: "up by one byte",
        from: 4_095,
        to: 4_096,
        count: 8_193,
    },
    Copied {
        name: "down by one byte",
        from: 4_096,
        to: 4_095,
        count: 8_193,
    },
    Copied {
        name: "up by a page",
        from: 10,
        to: 4_106,
        count: 8_500,
    },
    Copied {
        name: "down by a page",
        from: 4_106,
        to: 10,
        count: 8_500,
    },
    Copied {
        name: "all bytes but the last, up by one byte",
        from: 0,
        to: 1,
        count: 12_999,
    },
    Copied {
        name: "no byte, from the limit",
        from: 13_000,
        to: 0,
        count: 0,
    },
];

/// What is at a place before a copy. No two places a page or a few bytes apart are alike.
fn byte_before(at: u32) -> u8 {
    (at % 251) as u8
}

fn segment_before(alloc: Global) -> Result<Segment, Fail> {
    let mut segment = Segment::new(alloc, LIMIT)?;
    for at in 0..LIMIT {
        segment.write(at, Size::Byte, u32::from(byte_before(at)))?;
    }
    Ok(segment)
}

/// What is at a place after it, as if all bytes were read first.
fn byte_after(copy: &Copied, at: u32) -> u8 {
    if at >= copy.to && at - copy.to < copy.count {
        byte_before((at - copy.to).saturating_add(copy.from))
    } else {
        byte_before(at)
    }
}

fn is_copied(rt: &impl Abort, segment: &mut Segment, copy: &Copied) -> bool {
    let name = copy.name;
    assert!(rt;
        copy.from as usize + copy.count as usize <= segment.limit(),
        "{name}"
    );
    assert!(rt;
        copy.to as usize + copy.count as usize <= segment.limit(),
        "{name}"
    );
    segment.copy_within(copy.from, copy.to, copy.count);
    for at in 0..LIMIT {
        if segment.get(at) != Some(byte_after(copy, at)) {
            return false;
        }
    }
    true
}

#[test]
fn copies_within(rt: HostRuntime) -> Result<(), Fail> {
    for copy in COPIES {
        let name = copy.name;
        let mut segment = segment_before(rt.alloc())?;
        assert!(rt; is_copied(&rt, &mut segment, copy), "{name}");
    }
    Ok(())
}

/// Limits inside a page and at its ends.
static LIMITS: &[u32] = &[4, 4_095, 4_096, 4_097, 5_000, 8_192];

/// Whether the last four bytes before the limit are written and read, and nothing of what would pass it.
fn is_bounded(segment: &mut Segment, limit: u32) -> bool {
    let last = limit.saturating_sub(4);
    let is_refused = segment.write(last + 1, Size::Dword, 0xFFFF_FFFF).is_err();
    let is_written = segment.write(last, Size::Dword, 0x0403_0201).is_ok();
    is_refused
        && is_written
        && segment.read(last, Size::Dword).ok() == Some(0x0403_0201)
        && segment.get(limit) == None
        && segment.padded_qword(last + 1) == 0x04_0302
        && segment.padded_qword(limit) == 0
        && segment.copy_of_front(last + 1).as_slice() == [2, 3, 4].as_slice()
}

#[test]
fn limits(rt: HostRuntime) -> Result<(), Fail> {
    for limit in LIMITS {
        let mut segment = Segment::new(rt.alloc(), *limit)?;
        assert!(rt; is_bounded(&mut segment, *limit), "limit {limit}");
    }
    Ok(())
}
