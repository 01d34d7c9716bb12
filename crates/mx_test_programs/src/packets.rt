//! Packets that gdb 13.1 sent, and replies that it took.

use mx_rsp::{
    Action, Heard, Point, Reader, Request, Stop, StopReason, ThreadName, Which, Word, packet_of,
    push_part, push_registers, push_stop, push_threads, request_of,
};
use std::alloc::Global;
use std::test::Fail;

/// The last packet's payload, as a request.
fn asked(alloc: Global, bytes: &[u8]) -> Result<Request, Fail> {
    let mut reader = Reader::new(alloc);
    let mut request = Request::Unknown;
    for byte in bytes {
        if let Heard::Packet(payload) = reader.hear(alloc, *byte)? {
            request = request_of(alloc, payload.as_slice())?;
        }
    }
    Ok(request)
}

/// How many packets are heard, and how many are wrong.
fn counted(alloc: Global, bytes: &[u8]) -> Result<(u32, u32), Fail> {
    let mut reader = Reader::new(alloc);
    let mut right: u32 = 0;
    let mut wrong: u32 = 0;
    for byte in bytes {
        match reader.hear(alloc, *byte)? {
            Heard::Packet(_) => right = right.saturating_add(1),
            Heard::Wrong => wrong = wrong.saturating_add(1),
            _ => {}
        }
    }
    Ok((right, wrong))
}

const FEATURES: &[u8] = b"+$qSupported:multiprocess+;swbreak+;hwbreak+;qRelocInsn+;fork-events+;\
vfork-events+;exec-events+;vContSupported+;QThreadEvents+;no-resumed+;memory-tagging+;\
xmlRegisters=i386#77";

#[test]
fn words_and_threads(rt: HostRuntime) -> Result<(), Fail> {
    let alloc = rt.alloc();
    assert!(rt; matches!(asked(alloc, FEATURES)?, Request::Supported(true)));
    assert!(rt; matches!(asked(alloc, b"$?#3f")?, Request::Plain(Word::WhyHalted)));
    assert!(rt; matches!(asked(alloc, b"$bc#c5")?, Request::Plain(Word::ContinueBack)));
    assert!(rt;
        matches!(
            asked(alloc, b"$qAttached:3#fc")?,
            Request::Plain(Word::IsAttached)
        )
    );
    assert!(rt; matches!(asked(alloc, b"$Hc-1#09")?, Request::ForGoing(Which::All)));
    assert!(rt;
        matches!(
            asked(alloc, b"$Hcp3.0#ac")?,
            Request::ForGoing(Which::One(3))
        )
    );
    assert!(rt;
        matches!(
            asked(alloc, b"$Hgp0.0#ad")?,
            Request::ForReading(Which::Any)
        )
    );
    assert!(rt; matches!(asked(alloc, b"$D;3#b2")?, Request::DetachFrom(3)));
    assert!(rt; matches!(asked(alloc, b"$vMustReplyEmpty#3a")?, Request::Unknown));
    Ok(())
}

#[test]
fn places_and_moves(rt: HostRuntime) -> Result<(), Fail> {
    let alloc = rt.alloc();
    assert!(rt;
        matches!(
            asked(alloc, b"$m80000000,40#85")?,
            Request::Memory(0x8000_0000, 0x40)
        )
    );
    assert!(rt;
        matches!(
            asked(alloc, b"$Z1,80000010,1#9d")?,
            Request::Insert(Point::Break, 0x8000_0010, 1)
        )
    );
    assert!(rt;
        matches!(
            asked(alloc, b"$z2,20,4#9a")?,
            Request::Remove(Point::Watch, 0x20, 4)
        )
    );
    assert!(rt; matches!(asked(alloc, b"$X20,4:\x07\x00\x00\x00#5b")?, Request::Write));
    assert!(rt;
        matches!(
            asked(alloc, b"$qXfer:exec-file:read:3:0,1000#4c")?,
            Request::File(Some(3), 0, 0x1000)
        )
    );
    assert!(rt;
        matches!(
            asked(alloc, b"$qXfer:exec-file:read::0,1000#19")?,
            Request::File(None, 0, 0x1000)
        )
    );
    match asked(alloc, b"$vCont;s:p3.3#f6")? {
        Request::Go(resume) => {
            assert!(rt; resume.first.action == Action::Step && resume.first.who == Which::One(3));
            assert!(rt; !resume.others);
        }
        _ => assert!(rt; false),
    }
    match asked(alloc, b"$qRcmd,7768657265#3e")? {
        Request::Console(command) => assert!(rt; command.as_slice() == b"where".as_slice()),
        _ => assert!(rt; false),
    }
    Ok(())
}

#[test]
fn spoiled_bytes(rt: HostRuntime) -> Result<(), Fail> {
    let alloc = rt.alloc();
    assert_eq!(rt; counted(alloc, b"$qC#b4$?#3F")?, (2, 0));
    assert_eq!(rt; counted(alloc, b"$qC#00$qC#zz$qC#b4")?, (1, 2));
    assert_eq!(rt; counted(alloc, b"$qqq$qC#b4\x03+-")?, (1, 0));
    assert_eq!(rt; counted(alloc, b"$qC#b")?, (0, 0));
    Ok(())
}

#[test]
fn replies(rt: HostRuntime) -> Result<(), Fail> {
    let alloc = rt.alloc();
    assert!(rt; packet_of(alloc, b"}")?.as_slice() == b"$}]#da".as_slice());
    assert!(rt; packet_of(alloc, b"OK")?.as_slice() == b"$OK#9a".as_slice());
    let thread = ThreadName {
        number: 27,
        with_process: true,
    };
    let stop = Stop {
        signal: 5,
        reason: StopReason::Watched(0x5c),
        thread,
        esp: 0x5_c000,
        ebp: 0,
        eip: 0x8000_0000,
    };
    let mut out = Vec::new(alloc);
    push_stop(alloc, &mut out, &stop)?;
    assert!(rt;
        out.as_slice()
            == b"T05watch:5c;thread:p1b.1b;04:00c00500;05:00000000;08:00000080;".as_slice()
    );
    let mut list = Vec::new(alloc);
    push_threads(alloc, &mut list, &[thread, thread])?;
    assert!(rt; list.as_slice() == b"mp1b.1b,p1b.1b".as_slice());
    let mut all = Vec::new(alloc);
    push_registers(alloc, &mut all, &[1, 2, 3, 4, 5, 6, 7, 8, 9, 0x202])?;
    assert!(rt; all.len() == 128 && &all.as_slice()[..10] == b"0100000002".as_slice());
    let mut part = Vec::new(alloc);
    push_part(&mut part, b"<target/>", 1, 6)?;
    push_part(&mut part, b"<target/>", 7, 6)?;
    assert!(rt; part.as_slice() == b"mtargetl/>".as_slice());
    Ok(())
}
