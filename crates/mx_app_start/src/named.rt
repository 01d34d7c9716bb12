//! Files in memory.

ghost use Rattle.std.specs.Prelude.{◌≡◌, ◌++◌, ◌∷◌, [], Err, IfErr, IfOk, MatchOption, None, Ok, Some};
ghost use Rattle.std.specs.IoError.{error_kind};
ghost use Rattle.mx_app_start.specs.Asked.{asked_in};
ghost use Rattle.mx_app_start.specs.Named.{IsAbsent, bytes_named};

use crate::noted::Noted;
use crate::noting::{Answers, with_answer};
use crate::reader::Reader;
use std::alloc::Global;
use std::io;

/// A file in memory, with its name.
#[derive(Clone, Copy)]
pub struct NamedFile<'a> {
    pub name: &'a str,
    pub bytes: &'a [u8],
}

/// Reads the files of a list. A name that isn't in the list is `NotFound`.
#[derive(Drop)]
pub struct NamedFiles<'a> {
    files: &'a [NamedFile<'a>],
    answers: Answers,
}

impl<'a> NamedFiles<'a> {
    /// What reads the files of a list, and has been asked for none yet. Of two files with one name it
    /// reads the first.
    pub fn new(files: &'a [NamedFile<'a>]) -> NamedFiles<'a>
        ensures files { result.files.now ≡ files.entry.now }
        ensures answers { result.answers.items ≡ [] }
    {
        NamedFiles {
            files,
            answers: Noted::new(),
        }
    }

    /// The bytes of the first file that has a name.
    fn find(&self, name: &str) -> Option<&[u8]>
        ensures { MatchOption result (bytes_named self.now.files.now name.now ≡ None) (λ bytes.
            bytes_named self.now.files.now name.now ≡ Some bytes.now) }
    {
        for file in self.files {
            if file.name == name {
                return Some(file.bytes);
            }
        }
        None
    }
}

impl<'a> Reader for NamedFiles<'a> {
    ghost asked = { λ files. asked_in files.answers.items };

    /// Answers the bytes that the list has; it is refused if the list has none of this name, or for
    /// lack of memory.
    fn read(&mut self, alloc: Global, name: &str) -> io::Result<Vec<u8>>
        ensures given { IfOk result (λ bytes. asked_in self.new.answers.items
            ≡ asked_in self.old.answers.items ++ record { name = name.now; answer = Ok bytes.items }
            ∷ []) }
        ensures missed { IfErr result (λ e. asked_in self.new.answers.items
            ≡ asked_in self.old.answers.items
            ++ record { name = name.now; answer = Err (error_kind e) } ∷ []) }
        ensures found { IfOk result (λ bytes. bytes_named self.old.files.now name.now
            ≡ Some bytes.items) }
        ensures absent { IfErr result (λ e.
            IsAbsent (bytes_named self.old.files.now name.now) (error_kind e)) }
        ensures files { self.new.files ≡ self.old.files }
    {
        let answer = match self.find(name) {
            Some(bytes) => match bytes.to_vec(alloc) {
                Ok(bytes) => Ok(bytes),
                Err(_) => Err(io::Error::from(io::ErrorKind::OutOfMemory)),
            },
            None => Err(io::Error::from(io::ErrorKind::NotFound)),
        };
        self.answers = with_answer(&self.answers, name, &answer);
        answer
    }

    /// Answers as `read` does.
    fn read_program(&mut self, alloc: Global, name: &str) -> io::Result<Vec<u8>> {
        self.read(alloc, name)
    }

    /// Answers all bytes that the list has, and none for a name that isn't in it.
    fn read_front(&mut self, alloc: Global, name: &str) -> io::Result<Vec<u8>> {
        if self.find(name).is_some() {
            return self.read(alloc, name);
        }
        let answer = Ok(Vec::new(alloc));
        self.answers = with_answer(&self.answers, name, &answer);
        answer
    }
}
