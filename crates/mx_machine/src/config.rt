//! The configuration of a machine: the values that it is booted from.

ghost use Rattle.std.specs.Prelude.{◌≡◌, ◌<◌, ◌≤◌, length, string_bytes};

use mx_kcall::Name;
use mx_proc::{Rules, Terms};
use std::marker::Model;

/// The name of a file, exactly as a configuration has it.
#[derive(Drop)]
pub struct FileName {
    name: String,
}

impl Model for FileName {
    ghost use Rattle.std.specs.Prelude.{List, ℕ, string_bytes};

    ghost Value = { List ℕ };

    ghost view = { λ file. string_bytes file.name };
}

impl FileName {
    /// The file name with this text. Takes no memory.
    pub fn from_string(name: String) -> FileName
        ensures { result ≡ string_bytes name }
    {
        FileName { name }
    }

    /// The text of the file name.
    pub fn as_str(&self) -> &str
        ensures { result.now ≡ self.now }
    {
        self.name.as_str()
    }

    /// The text itself. Takes no memory.
    pub fn into_string(self) -> String
        ensures { string_bytes result ≡ self }
    {
        let FileName { name } = self;
        name
    }
}

/// The line of a service in a configuration: all that its slot is booted from, except the program. It
/// has the name of the program's file.
#[derive(Drop)]
pub struct ServiceLine {
    pub name: Name,
    /// The file that its program is in.
    pub file: FileName,
    /// What the service gives its processes.
    pub terms: Terms,
}

/// A configuration's lines of services, in slot order: the first line is that of slot 0.
#[derive(Drop)]
pub struct ServiceLines {
    lines: Vec<ServiceLine>,
}

impl Model for ServiceLines {
    ghost use Rattle.std.specs.Prelude.{List};
    ghost use Rattle.mx_machine.specs.declared.config.ServiceLine.{ServiceLine};

    ghost Value = { List ServiceLine };

    ghost view = { λ list. list.lines.items };
}

impl ServiceLines {
    /// The lines in this vector, in its order. Takes no memory.
    pub fn from_vec(lines: Vec<ServiceLine>) -> ServiceLines
        ensures { result ≡ lines.items }
    {
        ServiceLines { lines }
    }

    /// The lines, in slot order.
    pub fn as_slice(&self) -> &[ServiceLine]
        ensures { result.now ≡ self.now }
    {
        self.lines.as_slice()
    }

    /// The vector of the lines. Takes no memory.
    pub fn into_vec(self) -> Vec<ServiceLine>
        ensures { result.items ≡ self }
    {
        let ServiceLines { lines } = self;
        lines
    }
}

/// What a machine is booted from, except the programs of its services.
pub struct Config {
    /// How many processors there are, 1 to 8.
    pub cpus: u8,
    /// How many other actors there are, 1 to 4. They raise lines, tick, kill and respawn.
    pub others: u8,
    /// How many records the history has room for, 1 to 1,048,576.
    pub log: u32,
    /// The rules for copies from one process's memory to another's.
    pub rules: Rules,
    /// One line for each service, 1 to 32 of them.
    pub lines: ServiceLines,
    ghost some_cpus: { 0 < cpus },
    ghost cpus_fit: { cpus ≤ 8 },
    ghost some_others: { 0 < others },
    ghost others_fit: { others ≤ 4 },
    ghost some_records: { 0 < log },
    ghost log_fits: { log ≤ 1048576 },
    ghost some_lines: { 0 < length lines },
    ghost lines_fit: { length lines ≤ 32 },
}

impl Config {
    /// The lines of its services. Takes no memory.
    pub fn into_lines(self) -> ServiceLines
        ensures { result ≡ self.lines }
    {
        let Config {
            cpus: _,
            others: _,
            log: _,
            rules: _,
            lines,
        } = self;
        lines
    }
}

impl Drop for Config {
    fn drop(self) {
        let Config {
            cpus: _,
            others: _,
            log: _,
            rules: _,
            lines: _,
        } = self;
    }
}
