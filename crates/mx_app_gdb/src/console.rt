//! Commands for the stub itself: what gdb's `monitor` sends.

ghost use Rattle.std.specs.Prelude.{◌≡◌, IfErr, IfOk};
ghost use Rattle.mx_app_step.specs.Failure.{IsWanting};
ghost use Rattle.mx_walk.specs.Parts.{HasGrown};
ghost use Rattle.mx_app_gdb.specs.Console.{is_for_gdb};
ghost use Rattle.mx_app_gdb.specs.Replied.{IsConsoled, IsToldBy};

use crate::stub::Stub;
use mx_app_failure::Failure;
use mx_app_look::{Request, Sight, answer_line, ends, request_of, services_here};
use mx_walk::Progress;
use std::alloc::Global;

/// What a command is answered for which gdb has its own.
const FOR_GDB: &str = "gdb's own commands do that; of those that move only goto is here\n";

/// Whether gdb has its own command for a request: it moves, but not to a position that is named; or it is about points.
fn is_for_gdb(request: &Option<Request>) -> bool
    ensures { result ≡ is_for_gdb request.now }
{
    match request {
        Some(request) => match request {
            Request::Forward(_)
            | Request::Back(_)
            | Request::Step(_)
            | Request::StepBack(_)
            | Request::Point(_)
            | Request::Continue
            | Request::Reverse
            | Request::Until(_)
            | Request::UntilBack(_) => true,
            _ => false,
        },
        None => false,
    }
}

/// The answer to a command: that of a session to the same line, or that gdb has its own.
fn answer<P: Progress>(
    alloc: Global,
    sight: Sight,
    line: &[u8],
    progress: &mut P,
) -> Result<(Sight, Vec<u8>), Failure>
    ensures err { IfErr result IsWanting }
    ensures told { IfOk result (λ r. IsToldBy sight line.now r.0 r.1.items) }
    ensures grown { HasGrown (P.shown progress.old) (P.shown progress.new) }
{
    if ends(line) || is_for_gdb(&request_of(services_here(&sight.walker), line)) {
        let mut text = Vec::new(alloc);
        text.extend_from_slice(FOR_GDB.as_bytes())?;
        return Ok((sight, text));
    }
    match answer_line(alloc, sight, line, false, progress)? {
        Some(answered) => Ok(answered),
        None => unreachable!(),
    }
}

/// Answers a command.
pub(crate) fn console<P: Progress>(
    alloc: Global,
    stub: Stub,
    line: &[u8],
    progress: &mut P,
) -> Result<(Stub, Vec<u8>), Failure>
    ensures err { IfErr result IsWanting }
    ensures told { IfOk result (λ r. IsConsoled stub line.now r.0 r.1.items) }
    ensures grown { HasGrown (P.shown progress.old) (P.shown progress.new) }
{
    let Stub {
        sight,
        files,
        threads,
    } = stub;
    let (sight, text) = answer(alloc, sight, line, progress)?;
    let stub = Stub {
        sight,
        files,
        threads,
    };
    Ok((stub, text))
}
