//! What steps under a debugger leave in the history.

use crate::files::reader;
use mx_app_db::{Script, go, make_steps, set_breakpoint, start};
use mx_boot::{CodePlace, SymbolName, saved_text};
use mx_debug::Debugger;
use mx_machine::{Event, Machine};
use std::alloc::Global;

/// What is recorded of the five turns of a call and its answer.
const TURNS: &str = "rules 2\n\
    0 take\n0 back 4\n0 take\n0 back 4\n0 take\n0 back 3\n0 take\n0 back 5\n0 take\n0 back 4\n";

/// How the steps of a turn are made.
#[derive(Clone, Copy)]
enum Stepping {
    /// Under a debugger, which stops them once.
    Debugged,
    /// By themselves.
    Alone,
}

/// A turn of who is picked.
fn is_turned(machine: &mut Machine, debugger: &Debugger, stepping: Stepping) -> bool {
    let is_taken = machine.apply(0, Event::Take).is_ok();
    match stepping {
        Stepping::Debugged => {
            let _first = go(machine, debugger, 0, 99);
            let _second = go(machine, debugger, 0, 99);
        }
        Stepping::Alone => {
            make_steps(machine, 0, 99);
        }
    }
    is_taken && machine.apply(0, Event::Back).is_ok()
}

/// Whether five turns are made, with a breakpoint at `top`, and leave their history.
fn is_saved(alloc: Global, machine: &mut Machine, stepping: Stepping) -> bool {
    let mut debugger = Debugger::new();
    let top = CodePlace::Symbol(SymbolName::new(b"top"));
    let mut is_made = set_breakpoint(machine.kernel(), &mut debugger, 0, &top).is_ok();
    for _ in 0..5 {
        is_made = is_turned(machine, &debugger, stepping) && is_made;
    }
    match saved_text(alloc, machine.kernel()) {
        Ok(text) => is_made && text.as_slice() == TURNS.as_bytes(),
        Err(_) => false,
    }
}

fn is_noted(alloc: Global, stepping: Stepping) -> bool {
    match start::<Script, _>(alloc, &mut reader(), "pair", "empty") {
        Ok(mut started) => is_saved(alloc, &mut started.machine, stepping),
        Err(_) => false,
    }
}

#[test]
fn leaves_the_history(rt: HostRuntime) {
    assert!(rt; is_noted(rt.alloc(), Stepping::Debugged));
    assert!(rt; is_noted(rt.alloc(), Stepping::Alone));
}
