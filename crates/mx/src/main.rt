//! The program `mx`: only `main`.
//!
//! # Why it is so small
//!
//! What `mx` does is in the library `mx_app`, so that a change of one function doesn't build and
//! link a program.
#![tactic(auto)]

use mx_app::{Terminals, run_program};
use std::io::IsTerminal;
use std::process::ExitCode;

fn main(rt: HostRuntime) -> ExitCode {
    let terminals = Terminals {
        input: rt.stdin().is_terminal(),
        out: rt.stdout().is_terminal(),
        err: rt.stderr().is_terminal(),
    };
    ExitCode::from(run_program(&rt, terminals))
}
