//! What stops a command that drives a machine: a file, once it is there.
//!
//! # Why a file
//!
//! The program sees no signals. The script that starts it catches those that end a command, and makes the file.

ghost use Rattle.std.specs.Prelude.{◌≡◌};

use std::fs;
use std::rt::Files;

/// What is asked now and then whether a command is to stop.
pub trait StopSign {
    ghost use Rattle.std.specs.Prelude.{Bool, true};

    /// Whether there is anything that may stop the command.
    ghost can_stop: { Self → Bool };

    /// Whether the command is to stop.
    fn is_up(&self) -> bool
        ensures { result ≡ true → can_stop self.now ≡ true };
}

/// A command is to stop once this file is there, if one is named.
#[derive(Drop)]
pub struct StopFile<'a, R> {
    rt: &'a R,
    name: Option<&'a str>,
}

impl<'a, R> StopFile<'a, R> {
    /// The file of this name, as the runtime sees it.
    pub fn new(rt: &'a R, name: Option<&'a str>) -> StopFile<'a, R>
        ensures { result.name ≡ name.entry }
    {
        StopFile { rt, name }
    }
}

impl<'a, R: Files> StopSign for StopFile<'a, R> {
    ghost use Rattle.std.specs.Prelude.{is_some};

    ghost can_stop = { λ sign. is_some sign.name };

    fn is_up(&self) -> bool {
        match self.name {
            Some(name) => fs::metadata(self.rt, name).is_ok(),
            None => false,
        }
    }
}
