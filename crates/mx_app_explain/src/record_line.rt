//! What was wanted of a line of a script, of outside events, of a fault or of a history.

ghost use Rattle.std.specs.Prelude.{◌≡◌, ◌&&◌, option_map};
ghost use Rattle.mx_app_explain.specs.Details.{detail_told};
ghost use Rattle.mx_app_explain.specs.FoundWords.{found_told};
ghost use Rattle.mx_app_explain.specs.Hints.{hint_told};
ghost use Rattle.mx_boot.specs.Items.{said_in};
ghost use Rattle.mx_text.specs.Fields.{fields};
ghost use Rattle.mx_app_explain.specs.LineLooks.{is_debug_line, is_debugger};
ghost use Rattle.mx_app_explain.specs.RecordLines.{begins_call, ends_in_return, found_in, is_call, names_process, own_looks, record_detail, record_hint, said_of_line, shown_part, takes_numbers, wants_end, wants_others};

use crate::detail::{Detail, Label, line_below};
use crate::found_word::{FoundWord, byte_at, found_at};
use crate::hint::Hint;
use crate::line_looks::{LineLooks, hint_at, is_debug_line};
use crate::wanted::record_wanted;
use mx_app_command::CommandRequest;
use mx_app_failure::About;
use mx_boot::before_comment;
use mx_text::{begins_name, next_field, number_up_to};

/// How long a line may be that is shown whole.
const SHOWN: usize = 60;

/// What the lines of a file look like, by what it is to a command.
fn own_looks(request: CommandRequest<'_>, about: &About) -> LineLooks
    ensures { result ≡ own_looks request.entry about.now }
{
    match (request, about) {
        (
            CommandRequest::Sweep { .. }
            | CommandRequest::SweptPage { .. }
            | CommandRequest::Why { .. },
            About::Fault,
        ) => LineLooks::Script,
        (CommandRequest::Db { .. }, _) => LineLooks::Debugger,
        (
            CommandRequest::Step { .. }
            | CommandRequest::Run { .. }
            | CommandRequest::Turns { .. }
            | CommandRequest::Explore { .. },
            _,
        ) => LineLooks::Script,
        _ => LineLooks::History,
    }
}

/// Whether a line ends in a carriage return.
fn ends_in_return(line: &[u8]) -> bool
    ensures { result ≡ ends_in_return line.now }
{
    line.ends_with(b"\r")
}

/// What is shown of a line: all of it, or its first word if it is long.
fn shown_part(line: &[u8]) -> &[u8]
    ensures { result.now ≡ shown_part line.now }
{
    if line.len() <= SHOWN {
        return line;
    }
    match next_field(line) {
        Some((word, _)) => word,
        None => b"",
    }
}

/// What stands in a line.
fn found_in(line: &[u8]) -> FoundWord<'_>
    ensures { found_told result ≡ found_in line.now }
{
    match next_field(line) {
        Some(_) => found_at(Some(shown_part(line))),
        None => FoundWord::Nothing,
    }
}

/// Whether a line is the last of a history's text, and its line feed is missing.
fn wants_end(text: &[u8], number: usize, own: LineLooks) -> bool
    ensures { result ≡ wants_end text.now number own }
{
    own == LineLooks::History && !text.ends_with(b"\n") && line_below(text, number).is_none()
}

/// Whether a command takes no names in events.
fn takes_numbers(request: CommandRequest<'_>) -> bool
    ensures { result ≡ takes_numbers request.entry }
{
    matches!(
        request,
        CommandRequest::Step { .. } | CommandRequest::Db { .. }
    )
}

/// Whether a line kills or respawns what it names by a word.
fn names_process(line: &[u8]) -> bool
    ensures { result ≡ names_process (fields line.now) }
{
    let Some((event, rest)) = next_field(line) else {
        return false;
    };
    match next_field(rest) {
        Some((name, _)) => {
            (event == b"kill".as_slice() || event == b"respawn".as_slice())
                && begins_name(byte_at(name, 0))
        }
        None => false,
    }
}

/// Whether a line of a debugger's script is one of the debugger.
fn stays_debugger(line: &[u8], own: LineLooks) -> bool
    ensures { result ≡ (is_debugger own && is_debug_line line.now) }
{
    own == LineLooks::Debugger && is_debug_line(line)
}

/// What is added of a line: that its line feed is missing, that it wants numbers, or what takes such a line.
fn record_hint<'a>(
    request: CommandRequest<'_>,
    text: &[u8],
    number: usize,
    line: &'a [u8],
    own: LineLooks,
) -> Hint<'a>
    ensures { hint_told result ≡ record_hint request.entry text.now number line.now own }
{
    if wants_end(text, number, own) {
        Hint::Words("the line feed at its end is missing")
    } else if takes_numbers(request) && names_process(line) {
        Hint::Words("E is an endpoint and S a slot, both numbers: EVENTS and FAULT take names")
    } else if stays_debugger(line, own) {
        Hint::Words("S is a slot, and PLACE a symbol or an address: all numbers are decimal")
    } else {
        hint_at(line, own)
    }
}

/// Whether a word begins an event with a number, or a wait.
fn begins_call(word: &[u8]) -> bool
    ensures { result ≡ begins_call word.now }
{
    word == b"line".as_slice()
        || word == b"kill".as_slice()
        || word == b"respawn".as_slice()
        || word == b"wait".as_slice()
}

/// Whether a line is an event or a wait with its number.
fn is_call(line: &[u8]) -> bool
    ensures { result ≡ is_call (said_in line.now) }
{
    let Some((word, rest)) = next_field(before_comment(line)) else {
        return false;
    };
    let Some((number, rest)) = next_field(rest) else {
        return word == b"tick".as_slice();
    };
    begins_call(word)
        && (number_up_to(number, 10, 2_147_483_647).is_some() && next_field(rest).is_none())
}

/// Whether a line is right but for the machine, which has one outside actor.
fn wants_others(request: CommandRequest<'_>, line: &[u8]) -> bool
    ensures { result ≡ wants_others request.entry line.now }
{
    match request {
        CommandRequest::Run { .. } => is_call(line),
        _ => false,
    }
}

/// What was wanted of a line.
fn said_of_line<'a>(
    request: CommandRequest<'_>,
    about: &About,
    text: &[u8],
    number: usize,
    line: &'a [u8],
) -> Detail<'a>
    ensures { detail_told result
        ≡ said_of_line request.entry about.now text.now number line.now }
{
    let own = own_looks(request, about);
    if ends_in_return(line) {
        return Detail {
            label: Label::Nowhere,
            wanted: "no carriage return at the line's end",
            found: FoundWord::Unseen,
            hint: Hint::Nothing,
        };
    }
    if wants_others(request, line) {
        return Detail {
            label: Label::Nowhere,
            wanted: "others 2 or more in CONFIG, which --events needs",
            found: FoundWord::Unseen,
            hint: Hint::Nothing,
        };
    }
    Detail {
        label: Label::Nowhere,
        wanted: record_wanted(request, about),
        found: found_in(line),
        hint: record_hint(request, text, number, line, own),
    }
}

/// What was wanted of the line of a text that has this number, counted from 1.
pub(crate) fn record_detail<'a>(
    request: CommandRequest<'_>,
    about: &About,
    text: &'a [u8],
    number: usize,
) -> Option<Detail<'a>>
    ensures { option_map detail_told result
        ≡ record_detail request.entry about.now text.now number }
{
    let line = line_below(text, number.saturating_sub(1))?;
    Some(said_of_line(request, about, text, number, line))
}
