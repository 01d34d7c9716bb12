//! What a reader at a terminal gets in addition to a command's text.

ghost use Rattle.std.specs.Prelude.{◌≡◌, IfErr, IfOk, None};
ghost use Rattle.std.specs.Io.{WritesAtMost};
ghost use Rattle.std.specs.Io.KnownBytes.{WriteAppends};
ghost use Rattle.mx_app.specs.Ending.{driven_word, is_cut_short, last_taken, note, text_end};

use mx_app_run::RunEnding;
use mx_turns::Ending;
use std::io::Write;
use std::{fmt, io};

/// How turns or a run ended.
#[derive(Clone, Copy, Debug, PartialEq, Eq)]
pub enum DrivenEnding {
    Turns(Ending),
    Run(RunEnding),
    /// A file stopped them.
    Interrupted,
}

impl DrivenEnding {
    /// The word that says it. A run's is that of turns that end so.
    pub(crate) fn word(self) -> &'static str
        ensures { result.now ≡ driven_word self }
    {
        match self {
            DrivenEnding::Turns(ending) => ending.word(),
            DrivenEnding::Run(RunEnding::Rest) => Ending::Rest.word(),
            DrivenEnding::Run(RunEnding::Full) => Ending::Full.word(),
            DrivenEnding::Run(RunEnding::Stopped) => "stopped",
            DrivenEnding::Interrupted => "interrupted: LOG has what was done until then",
        }
    }
}

/// What a command that is done has printed.
#[derive(Clone, Copy)]
pub enum PrintedText {
    /// A program's symbols, one a line, or nothing if it has none.
    Symbols,
    /// The report on a machine whose turns, or whose run, ended so.
    Report(DrivenEnding),
    /// Any other text.
    Other,
}

impl PrintedText {
    /// Whether it is the report of a run that was stopped, or had no room in its history.
    fn is_cut_short(self) -> bool
        ensures { result ≡ is_cut_short self }
    {
        match self {
            PrintedText::Report(
                DrivenEnding::Run(RunEnding::Stopped | RunEnding::Full)
                | DrivenEnding::Turns(Ending::Full)
                | DrivenEnding::Interrupted,
            ) => true,
            _ => false,
        }
    }
}

/// What standard error gets after a command that is done.
#[derive(Clone, Copy)]
pub enum Note {
    Nothing,
    /// That a program has no symbols.
    NoSymbols,
    /// How turns or a run ended.
    Ended(DrivenEnding),
}

/// The line, with its end.
impl fmt::Display for Note {
    ghost use Rattle.std.specs.Prelude.{Some};
    ghost use Rattle.mx_app.specs.Ending.{note_text};

    ghost output = { λ note. Some (note_text note) };

    fn fmt<W: fmt::Write>(&self, f: &mut fmt::Formatter<W>) -> fmt::Result {
        match *self {
            Note::Nothing => Ok(()),
            Note::NoSymbols => write!(f, "mx: no symbols\n"),
            Note::Ended(ending) => {
                let word = ending.word();
                write!(f, "mx: {word}\n")
            }
        }
    }
}

/// Which of the streams are terminals.
#[derive(Clone, Copy)]
pub struct Terminals {
    pub input: bool,
    pub out: bool,
    pub err: bool,
}

impl Terminals {
    /// What standard output gets after a text of which this is the last byte: the end of a line, if the
    /// text ends within one, as a console's may.
    pub fn text_end(self, last: Option<u8>) -> &'static str
        ensures { result.now ≡ text_end self last }
    {
        match last {
            Some(byte) => if self.out && byte != b'\n' { "\n" } else { "" },
            None => "",
        }
    }

    /// What standard error gets after a command that is done: that a program has no symbols, if they
    /// were asked for and nothing was printed; how turns or a run ended, if there were any. Only that a run was
    /// stopped, or that its history is full, is said where standard error is no terminal too.
    pub fn note(self, printed: PrintedText, last: Option<u8>) -> Note
        ensures { result ≡ note self printed last }
    {
        if !self.err && !printed.is_cut_short() {
            return Note::Nothing;
        }
        match printed {
            PrintedText::Symbols => if last.is_none() {
                Note::NoSymbols
            } else {
                Note::Nothing
            },
            PrintedText::Report(ending) => Note::Ended(ending),
            PrintedText::Other => Note::Nothing,
        }
    }
}

/// Writes by another writer, and notes the last byte that it took.
#[derive(Drop)]
pub struct NotingOutput<W: Drop> {
    out: W,
    last: Option<u8>,
}

impl<W: Drop> NotingOutput<W> {
    /// What writes by this writer, and has taken nothing yet.
    pub fn new(out: W) -> NotingOutput<W>
        ensures out { result.out ≡ out }
        ensures nothing { result.last ≡ None }
    {
        NotingOutput { out, last: None }
    }

    /// The last byte that was taken.
    pub fn last(&self) -> Option<u8>
        ensures { result ≡ self.now.last }
    {
        self.last
    }
}

impl<W: Write + Drop> Write for NotingOutput<W> {
    ghost contents = { λ noting. W.contents noting.out };

    fn write(&mut self, buf: &[u8]) -> io::Result<usize>
        ensures bound { WritesAtMost result buf.now }
        ensures bytes { WriteAppends (W.contents self.old.out)
            (W.contents self.new.out) result buf.now }
        ensures noted { IfOk result (λ count. self.new.last
            ≡ last_taken self.old.last buf.now count) }
        ensures kept { IfErr result (λ _. self.new.last ≡ self.old.last) }
    {
        let count = self.out.write(buf)?;
        if count > 0 {
            self.last = Some(buf[count - 1]);
        }
        Ok(count)
    }

    fn flush(&mut self) -> io::Result<()> {
        self.out.flush()
    }
}
