//! A test of glances at a machine whose process writes to the console.

ghost use Rattle.std.specs.Prelude.{◌≡◌, All, IfOk};

use crate::exchanges::out_and_back;
use crate::machine::last_seat;
use mx_app_run::{NamedFile, NamedFiles, setup_of};
use mx_cpus::{ActorSeat, Blank, Naming, Shared, boot};
use std::alloc::Global;
use std::marker::Brand;
use std::process::Abort;
use std::sync::Wait;
use std::test::Fail;

/// A file of the writer: it writes `h` and then `i` to the console.
const WRITER: [u8; 182] = [
    1, 3, 0x30, 0x10, 0x20, 0, 0, 0, 0x72, 0, 0, 0, 0x24, 0, 0, 0, 0, 0, 0, 0, 0, 0, 0, 0, 0, 0x10,
    0, 0, 0, 0, 0, 0, 0xC7, 5, 4, 0, 0, 0, 4, 6, 0, 0, 0xC7, 5, 8, 0, 0, 0, 1, 0, 0, 0, 0xC7, 5,
    0x0C, 0, 0, 0, 0, 0, 0, 0, 0xC7, 5, 0x10, 0, 0, 0, 0x68, 0, 0, 0, 0xB9, 3, 0, 0, 0, 0xB8, 0xFE,
    0xFF, 0xFF, 0xFF, 0xBB, 0, 0, 0, 0, 0xCD, 0x21, 0xC7, 5, 4, 0, 0, 0, 4, 6, 0, 0, 0xC7, 5, 8, 0,
    0, 0, 1, 0, 0, 0, 0xC7, 5, 0x0C, 0, 0, 0, 0, 0, 0, 0, 0xC7, 5, 0x10, 0, 0, 0, 0x69, 0, 0, 0,
    0xB9, 3, 0, 0, 0, 0xB8, 0xFE, 0xFF, 0xFF, 0xFF, 0xBB, 0, 0, 0, 0, 0xCD, 0x21, 0, 0, 0, 0, 0, 0,
    0, 0, 0, 0, 0, 0, 0, 0, 0, 0, 0, 0, 0, 0, 0, 0, 0, 0, 0, 0, 0, 0, 0, 0, 0, 0, 0, 0, 0, 0,
];

/// The writer's machine.
const CONFIG: &str = "cpus 1
log 16
service writer writer.out traps 1e send 0 calls 10 level 7 best 7 quantum 20 restarts 0
";

/// The writer's machine at its boot, and the seats of its actors.
fn booted_writer(alloc: Global) -> Result<(Blank, Vec<ActorSeat>), Fail>
    ensures tables { IfOk result (λ r. All (λ s. s.table ≡ r.0.table) r.1.items) }
{
    let files = [
        NamedFile {
            name: "config",
            bytes: CONFIG.as_bytes(),
        },
        NamedFile {
            name: "writer.out",
            bytes: &WRITER,
        },
    ];
    let mut reader = NamedFiles::new(&files);
    let (config, mut services) = setup_of(alloc, &mut reader, "config").map_err(
        |_| "the configuration isn't read",
    )?;
    if services.is_empty() || services.len() > 32 {
        return Err(Fail::new("there is one service"));
    }
    match boot(alloc, &config, &mut services) {
        Ok(made) => Ok(made),
        Err(_) => Err(Fail::new("no memory")),
    }
}

/// Whether a glance gives these bytes of the console from one on, four records, and a keyboard without a driver.
fn gives<M: Naming>(
    rt: &impl Wait,
    shared: &Shared<M>,
    seat: ActorSeat,
    from: usize,
    bytes: &mut Vec<u8>,
    wanted: &[u8],
) -> (ActorSeat, bool)
    requires { seat.table ≡ M.table }
    ensures { result.0.table ≡ seat.table }
{
    let (seat, glance) = shared.glance(rt, seat, None, from, bytes);
    let seen = glance.seen;
    let is_undriven = seen.driver.is_none() && seen.counted == 0 && !seen.is_alive;
    let is_right = bytes.as_slice() == wanted && glance.far.records == 4;
    (seat, is_right && is_undriven)
}

/// Whether glances give what the writer wrote in two turns: from each byte on, and as many as there is room for.
fn are_right<M: Naming>(
    rt: &impl Wait,
    blank: Blank,
    mut seats: Vec<ActorSeat>,
    wide: &mut Vec<u8>,
    narrow: &mut Vec<u8>,
) -> bool
    requires table { blank.table ≡ M.table }
    requires boot { blank.boot ≡ M.boot }
    requires tables { All (λ s. s.table ≡ M.table) seats.items }
{
    let shared: Shared<M> = blank.open();
    let others = last_seat::<M>(&mut seats);
    let processors = last_seat::<M>(&mut seats);
    let (Some(other), Some(processor)) = (others, processors) else {
        let _kernel = shared.into_kernel(seats);
        return false;
    };
    let (processor, _first) = out_and_back(rt, &shared, processor, 20);
    let (_processor, _second) = out_and_back(rt, &shared, processor, 20);
    let (other, whole) = gives(rt, &shared, other, 0, wide, b"hi");
    let (other, rest) = gives(rt, &shared, other, 1, wide, b"i");
    let (other, none) = gives(rt, &shared, other, 3, wide, b"");
    let (_other, front) = gives(rt, &shared, other, 0, narrow, b"h");
    let _kernel = shared.into_kernel(seats);
    whole && rest && none && front
}

#[test]
fn glances(rt: HostRuntime) -> Result<(), Fail> {
    let mut wide = Vec::with_capacity(rt.alloc(), 8)?;
    let mut narrow = Vec::with_capacity(rt.alloc(), 1)?;
    let (blank, seats) = booted_writer(rt.alloc())?;
    let are_right = are_right::<Brand>(&rt, blank, seats, &mut wide, &mut narrow);
    assert!(rt; are_right);
    Ok(())
}
