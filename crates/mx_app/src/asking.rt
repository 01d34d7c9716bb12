//! The program's words, with which help is asked for in two ways.

ghost use Rattle.std.specs.Prelude.{◌≡◌, IfErr, IfOk, map, string_bytes};
ghost use Rattle.mx_app.specs.Asking.{begin_with, help_last};

use mx_app_failure::Failure;
use std::alloc::Global;

/// Whether words begin with this one, after the program's own name.
pub(crate) fn begin_with(words: &[&str], word: &str) -> bool
    ensures { result ≡ begin_with word.now (map (λ s. s.now) words.now) }
{
    match words.get(1) {
        Some(first) => *first == word,
        None => false,
    }
}

/// The texts of the program's words, its own name first.
fn texts(alloc: Global, words: &[String]) -> Result<Vec<&str>, Failure>
    ensures texts { IfOk result (λ texts. map (λ s. s.now) texts.items
        ≡ map string_bytes words.now) }
    ensures memory { IfErr result (λ failure. failure ≡ Failure.NoMemory) }
{
    let mut texts = Vec::new(alloc);
    for word in words {
        texts.push(word.as_str())?;
    }
    Ok(texts)
}

/// The texts of the program's words, its own name first. `help` before words is `--help` after them.
pub fn texts_asked(alloc: Global, words: &[String]) -> Result<Vec<&str>, Failure>
    ensures texts { IfOk result (λ texts. map (λ s. s.now) texts.items
        ≡ help_last (map string_bytes words.now)) }
    ensures memory { IfErr result (λ failure. failure ≡ Failure.NoMemory) }
{
    let mut texts = texts(alloc, words)?;
    if begin_with(texts.as_slice(), "help") {
        texts.remove(1);
        texts.push("--help")?;
    }
    Ok(texts)
}
