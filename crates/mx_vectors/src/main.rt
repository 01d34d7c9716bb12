//! The program that compares our steps with those of a real processor: only `main`.
#![tactic(auto)]

pub use mx_vectors_compare::{CompareFailure, Tally, check_all};
use std::io::{self, BufReader};
use std::process::ExitCode;

fn compare(rt: &(impl Input + Print + AllocGlobal)) -> Result<Tally, CompareFailure> {
    let lines = BufReader::new(rt.alloc(), rt.reader())?;
    let mut out = io::writer(rt);
    check_all(rt.alloc(), lines, &mut out)
}

fn main(rt: HostRuntime) -> ExitCode {
    match compare(&rt) {
        Ok(tally) => ExitCode::from(u8::from(tally.wrong != 0)),
        Err(failure) => {
            let _ = eprintln!(rt; "mx_vectors: {failure}");
            ExitCode::from(2)
        }
    }
}
