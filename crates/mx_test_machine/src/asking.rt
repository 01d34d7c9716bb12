//! Help that is asked for by its own word, and what a reader at a terminal gets.

use mx_app::{
    DrivenEnding, Ending, Note, NotingOutput, PrintedText, RunEnding, Terminals, texts_asked,
};
use std::alloc::{AllocError, Global};
use std::io;
use std::io::Write;
use std::test::Fail;

/// Words, and the names of the texts that they ask for.
struct Asked {
    name: &'static str,
    words: &'static [&'static str],
    texts: &'static [&'static str],
}

static ASKED: &[Asked] = &[
    Asked {
        name: "help alone",
        words: &["mx", "help"],
        texts: &["mx", "--help"],
    },
    Asked {
        name: "help of a subcommand",
        words: &["mx", "help", "one"],
        texts: &["mx", "one", "--help"],
    },
    Asked {
        name: "help of a subcommand and help",
        words: &["mx", "help", "one", "help"],
        texts: &["mx", "one", "help", "--help"],
    },
    Asked {
        name: "help of the version",
        words: &["mx", "help", "--version"],
        texts: &["mx", "--version", "--help"],
    },
    Asked {
        name: "the word is no help after a subcommand",
        words: &["mx", "nm", "help"],
        texts: &["mx", "nm", "help"],
    },
    Asked {
        name: "the word is no help as the program's own name",
        words: &["help", "nm"],
        texts: &["help", "nm"],
    },
    Asked {
        name: "no words",
        words: &[],
        texts: &[],
    },
];

/// The words of a command line as the system gives them.
fn words_of(alloc: Global, texts: &[&str]) -> Result<Vec<String>, Fail> {
    let mut words = Vec::new(alloc);
    for text in texts {
        words.push(String::from_str(alloc, text)?)?;
    }
    Ok(words)
}

#[test]
fn help_asked(rt: HostRuntime) -> Result<(), Fail> {
    for row in ASKED {
        let name = row.name;
        let words = words_of(rt.alloc(), row.words)?;
        let asked = texts_asked(rt.alloc(), words.as_slice()).map_err(|_| "no memory")?;
        assert!(rt; asked.as_slice() == row.texts, "{name}");
    }
    Ok(())
}

/// A text that ends within a line gets its end at a terminal, and no other text.
#[test]
fn ends_of_texts(rt: HostRuntime) {
    for err in [false, true] {
        let shown = Terminals {
            input: false,
            out: true,
            err,
        };
        let hidden = Terminals {
            input: false,
            out: false,
            err,
        };
        assert!(rt; shown.text_end(Some(b'1')) == "\n");
        assert!(rt; shown.text_end(Some(b'\n')).is_empty());
        assert!(rt; shown.text_end(None).is_empty());
        assert!(rt; hidden.text_end(Some(b'1')).is_empty());
    }
}

/// What was printed, up to which byte, and the line that a reader at a terminal also gets.
const NOTES: &[(PrintedText, Option<u8>, &str)] = &[
    (PrintedText::Symbols, None, "mx: no symbols\n"),
    (PrintedText::Symbols, Some(b'\n'), ""),
    (
        PrintedText::Report(DrivenEnding::Turns(Ending::Rest)),
        Some(b'\n'),
        "mx: rest\n",
    ),
    (
        PrintedText::Report(DrivenEnding::Turns(Ending::Turns)),
        Some(b'4'),
        "mx: turns\n",
    ),
    (
        PrintedText::Report(DrivenEnding::Run(RunEnding::Rest)),
        Some(b'\n'),
        "mx: rest\n",
    ),
    (PrintedText::Other, None, ""),
];

/// How turns or a run ended before their time, and the line that each reader gets.
const CUT_SHORT: &[(DrivenEnding, &str)] = &[
    (DrivenEnding::Turns(Ending::Full), "mx: full\n"),
    (DrivenEnding::Run(RunEnding::Full), "mx: full\n"),
    (DrivenEnding::Run(RunEnding::Stopped), "mx: stopped\n"),
    (
        DrivenEnding::Interrupted,
        "mx: interrupted: LOG has what was done until then\n",
    ),
];

/// What standard error gets of a note.
fn text_of(alloc: Global, note: Note) -> Result<String, AllocError> {
    format!(in alloc; "{note}")
}

/// A reader at a terminal is helped on standard error, and nobody else is; but each is told of a run or of turns that
/// were stopped or have filled their history.
#[test]
fn notes(rt: HostRuntime) -> Result<(), Fail> {
    for out in [false, true] {
        let shown = Terminals {
            input: false,
            out,
            err: true,
        };
        let hidden = Terminals {
            input: false,
            out,
            err: false,
        };
        for (printed, last, note) in NOTES {
            let said = text_of(rt.alloc(), shown.note(*printed, *last))?;
            assert!(rt; said.as_str() == *note);
            let said = text_of(rt.alloc(), hidden.note(*printed, *last))?;
            assert!(rt; said.is_empty());
        }
        for (ending, note) in CUT_SHORT {
            for terminals in [shown, hidden] {
                let note_of = terminals.note(PrintedText::Report(*ending), Some(b'\n'));
                let said = text_of(rt.alloc(), note_of)?;
                assert!(rt; said.as_str() == *note);
            }
        }
    }
    Ok(())
}

/// The last byte of what was written is noted, also after a text of no bytes.
#[test]
fn last_bytes(rt: HostRuntime) -> Result<(), Fail> {
    let mut out = NotingOutput::new(Vec::new(rt.alloc()));
    assert!(rt; out.last().is_none());
    out.write_all(b"console 3\n121")?;
    assert!(rt; out.last() == Some(b'1'));
    out.write_all(b"")?;
    out.flush()?;
    assert!(rt; out.last() == Some(b'1'));
    out.write_all(b"\n")?;
    assert!(rt; out.last() == Some(b'\n'));
    Ok(())
}

/// Takes all bytes, and can't be flushed.
#[derive(Drop)]
struct Unflushed {}

impl Write for Unflushed {
    fn write(&mut self, buf: &[u8]) -> io::Result<usize> {
        Ok(buf.len())
    }

    fn flush(&mut self) -> io::Result<()> {
        Err(io::Error::from(io::ErrorKind::Other))
    }
}

/// A flush is handed on to the writer that takes the bytes.
#[test]
fn flushes(rt: HostRuntime) -> Result<(), Fail> {
    let mut out = NotingOutput::new(Unflushed {});
    out.write_all(b"console 3\n")?;
    assert!(rt; out.flush().is_err());
    Ok(())
}
