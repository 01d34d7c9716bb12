//! Kinds of what a process does, and when two of them are equal.

ghost use Rattle.std.specs.Prelude.{◌≡◌};
ghost use Rattle.mx_look.specs.Doings.{is_ready, is_waiting, is_listening, is_out, is_doomed, is_down, same_cause, same_awaited, same_doing};

use mx_print_report::{Awaited, Doing};
use mx_proc::DeathCause;

/// Whether a process is ready.
pub fn is_ready(doing: Doing) -> bool
    ensures { result ≡ is_ready doing }
{
    matches!(doing, Doing::Ready)
}

/// Whether a process waits for a partner.
pub(crate) fn is_waiting(doing: Doing) -> bool
    ensures { result ≡ is_waiting doing }
{
    matches!(
        doing,
        Doing::Sending(_) | Doing::Calling(_) | Doing::Receiving(_) | Doing::Awaiting(_)
    )
}

/// Whether a process waits for a message.
pub(crate) fn is_listening(doing: Doing) -> bool
    ensures { result ≡ is_listening doing }
{
    matches!(doing, Doing::Receiving(_) | Doing::Awaiting(_))
}

/// Whether a process is on a processor and lives.
pub(crate) fn is_out(doing: Doing) -> bool
    ensures { result ≡ is_out doing }
{
    matches!(doing, Doing::Out)
}

/// Whether a process is killed on a processor, and is to come back from it.
pub fn is_doomed(doing: Doing) -> bool
    ensures { result ≡ is_doomed doing }
{
    matches!(doing, Doing::Doomed)
}

/// Whether a process is dead.
pub fn is_down(doing: Doing) -> bool
    ensures { result ≡ is_down doing }
{
    matches!(doing, Doing::Down(_))
}

/// Whether two causes of death are equal.
fn same_cause(a: DeathCause, b: DeathCause) -> bool
    ensures { result ≡ same_cause a b }
{
    match (a, b) {
        (DeathCause::Exit, DeathCause::Exit) | (DeathCause::Kill, DeathCause::Kill) => true,
        (DeathCause::Fault(a), DeathCause::Fault(b)) => a == b,
        _ => false,
    }
}

/// Whether two processes receive from one sender, or both from any.
fn same_awaited(a: Awaited, b: Awaited) -> bool
    ensures { result ≡ same_awaited a b }
{
    match (a, b) {
        (Awaited::Any, Awaited::Any)
        | (Awaited::System, Awaited::System)
        | (Awaited::Hardware, Awaited::Hardware)
        | (Awaited::Clock, Awaited::Clock) => true,
        (Awaited::Process(a), Awaited::Process(b)) => a == b,
        _ => false,
    }
}

/// Whether two processes do equal things.
pub fn same_doing(a: Doing, b: Doing) -> bool
    ensures { result ≡ same_doing a b }
{
    match (a, b) {
        (Doing::Home, Doing::Home)
        | (Doing::Ready, Doing::Ready)
        | (Doing::Out, Doing::Out)
        | (Doing::Doomed, Doing::Doomed) => true,
        (Doing::Sending(a), Doing::Sending(b))
        | (Doing::Calling(a), Doing::Calling(b))
        | (Doing::Awaiting(a), Doing::Awaiting(b)) => a == b,
        (Doing::Receiving(a), Doing::Receiving(b)) => same_awaited(a, b),
        (Doing::Down(a), Doing::Down(b)) => same_cause(a, b),
        _ => false,
    }
}
