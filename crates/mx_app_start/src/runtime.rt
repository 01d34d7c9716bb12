//! The files of the runtime, read and written.

ghost use Rattle.std.specs.Prelude.{◌≡◌, []};

use crate::limits::{read_front, read_program, read_text};
use crate::noted::Noted;
use crate::noting::{Answers, Writes, with_answer, with_write};
use crate::reader::Reader;
use crate::replacing::replace_file;
use crate::writer::FileWriter;
use std::alloc::Global;
use std::io;
use std::rt::Files;

/// Reads the files of the runtime. A name is a path, relative to the directory that the program runs
/// in.
#[derive(Drop)]
pub struct RuntimeFiles<'a, R> {
    rt: &'a R,
    answers: Answers,
}

impl<'a, R> RuntimeFiles<'a, R> {
    /// What reads a runtime's files, and has been asked for none yet.
    pub fn new(rt: &'a R) -> RuntimeFiles<'a, R>
        ensures { result.answers.items ≡ [] }
    {
        RuntimeFiles {
            rt,
            answers: Noted::new(),
        }
    }
}

impl<'a, R: Files + AllocGlobal> Reader for RuntimeFiles<'a, R> {
    ghost use Rattle.mx_app_start.specs.Asked.{asked_in};

    ghost asked = { λ files. asked_in files.answers.items };

    fn read(&mut self, _alloc: Global, name: &str) -> io::Result<Vec<u8>> {
        let answer = read_text(self.rt, name);
        self.answers = with_answer(&self.answers, name, &answer);
        answer
    }

    fn read_program(&mut self, _alloc: Global, name: &str) -> io::Result<Vec<u8>> {
        let answer = read_program(self.rt, name);
        self.answers = with_answer(&self.answers, name, &answer);
        answer
    }

    fn read_front(&mut self, _alloc: Global, name: &str) -> io::Result<Vec<u8>> {
        let answer = read_front(self.rt, name);
        self.answers = with_answer(&self.answers, name, &answer);
        answer
    }
}

/// Writes files of the runtime. A name is a path, relative to the directory that the program runs in. A
/// regular file, and one that isn't there, gets its bytes whole or not at all if a file can be made
/// in the same folder; any other file is written in place.
#[derive(Drop)]
pub struct RuntimeWriter<'a, R> {
    rt: &'a R,
    writes: Writes,
}

impl<'a, R> RuntimeWriter<'a, R> {
    /// What writes a runtime's files, and has been given none yet.
    pub fn new(rt: &'a R) -> RuntimeWriter<'a, R>
        ensures { result.writes.items ≡ [] }
    {
        RuntimeWriter {
            rt,
            writes: Noted::new(),
        }
    }
}

impl<'a, R: Files> FileWriter for RuntimeWriter<'a, R> {
    ghost use Rattle.mx_app_start.specs.Written.{written_in};

    ghost written = { λ writer. written_in writer.writes.items };

    fn write(&mut self, alloc: Global, name: &str, bytes: &[u8]) -> io::Result<()> {
        let answer = replace_file(self.rt, alloc, name, bytes);
        self.writes = with_write(&self.writes, name, bytes, &answer);
        answer
    }
}
