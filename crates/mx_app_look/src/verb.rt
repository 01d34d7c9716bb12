//! The words that say what a typed line asks for, and their abbreviations.

ghost use Rattle.std.specs.Prelude.{◌≡◌, ◌++◌, OnOk, codes, count_by, find, option_copied, filter};
ghost use Rattle.std.specs.List.{flat_map, list_any};
ghost use Rattle.std.specs.Str.{bytes_eq, is_utf8};
ghost use Rattle.mx_app_look.specs.Verbs.{begins_verb, form, form_text, gap_after, help_line, help_text, is_text, meaning, names_after, unknown_text, unnamed_text, verb_of, verb_word, verbs, wanted_text};

use mx_text::next_field;
use std::alloc::AllocError;

/// What a typed line asks for.
#[derive(Clone, Copy)]
pub enum Verb {
    Forward,
    Back,
    Step,
    StepBack,
    GoTo,
    Break,
    Watch,
    Points,
    Clear,
    Continue,
    Reverse,
    Until,
    Where,
    Why,
    Processes,
    Messages,
    Registers,
    Memory,
    Listing,
    Stack,
    Print,
    Help,
    Quit,
    Exit,
}

/// All verbs, in the order in which help has them.
const VERBS: [Verb; 24] = [
    Verb::Forward,
    Verb::Back,
    Verb::Step,
    Verb::StepBack,
    Verb::GoTo,
    Verb::Break,
    Verb::Watch,
    Verb::Points,
    Verb::Clear,
    Verb::Continue,
    Verb::Reverse,
    Verb::Until,
    Verb::Where,
    Verb::Why,
    Verb::Processes,
    Verb::Messages,
    Verb::Registers,
    Verb::Memory,
    Verb::Listing,
    Verb::Stack,
    Verb::Print,
    Verb::Help,
    Verb::Quit,
    Verb::Exit,
];

/// How many bytes a line has at most.
const LONGEST: usize = 4096;

/// Spaces up to the column of help where meanings are.
const COLUMN: &[u8] = b"                            ";

/// What help has after its lines of verbs.
const NOTES: &[u8] =
    b"A record is one event; back N is N steps of a process, and then its return.\n\
    A command may be shortened, as f or stepb. SLOT is a number, or the name of its\n\
    service; without it, it is the process on the processor whose record is next.\n\
    ADDRESS is a number, decimal or 0x.., or a symbol of the slot's program, as count\n\
    or top+4.\n";

impl Verb {
    /// The word that begins a line about it.
    fn word(self) -> &'static [u8]
        ensures { result.now ≡ verb_word self }
    {
        match self {
            Verb::Forward => b"forward",
            Verb::Back => b"back",
            Verb::Step => b"step",
            Verb::StepBack => b"stepback",
            Verb::GoTo => b"goto",
            Verb::Break => b"break",
            Verb::Watch => b"watch",
            Verb::Points => b"points",
            Verb::Clear => b"clear",
            Verb::Continue => b"continue",
            Verb::Reverse => b"reverse",
            Verb::Until => b"until",
            Verb::Where => b"where",
            Verb::Why => b"why",
            Verb::Processes => b"ps",
            Verb::Messages => b"messages",
            Verb::Registers => b"regs",
            Verb::Memory => b"mem",
            Verb::Listing => b"list",
            Verb::Stack => b"stack",
            Verb::Print => b"print",
            Verb::Help => b"help",
            Verb::Quit => b"quit",
            Verb::Exit => b"exit",
        }
    }

    /// How a line about it is written.
    fn form(self) -> &'static [u8]
        ensures { result.now ≡ form self }
    {
        match self {
            Verb::Forward => b"forward [N]",
            Verb::Back => b"back [N]",
            Verb::Step => b"step [N]",
            Verb::StepBack => b"stepback [N]",
            Verb::GoTo => b"goto K, goto K.J, goto end",
            Verb::Break => b"break SLOT ADDRESS",
            Verb::Watch => b"watch SLOT ADDRESS N",
            Verb::Points => b"points",
            Verb::Clear => b"clear",
            Verb::Continue => b"continue",
            Verb::Reverse => b"reverse",
            Verb::Until => b"until [back] death SLOT, message FROM TO, error [SLOT] or SLOT TYPE",
            Verb::Where => b"where",
            Verb::Why => b"why",
            Verb::Processes => b"ps",
            Verb::Messages => b"messages",
            Verb::Registers => b"regs [SLOT]",
            Verb::Memory => b"mem SLOT ADDRESS N",
            Verb::Listing => b"list [SLOT [ADDRESS]]",
            Verb::Stack => b"stack [SLOT [N]]",
            Verb::Print => b"print SLOT NAME",
            Verb::Help => b"help",
            Verb::Quit => b"quit",
            Verb::Exit => b"exit",
        }
    }

    /// What it does.
    fn meaning(self) -> &'static [u8]
        ensures { result.now ≡ meaning self }
    {
        match self {
            Verb::Forward => b"on by N records, or one",
            Verb::Back => b"back by N records, or one",
            Verb::Step => b"on by N events, or one: a step, or what a record does besides",
            Verb::StepBack => b"back by N events, or one",
            Verb::GoTo => b"after K records; and J steps of the next; the last position",
            Verb::Break => b"a breakpoint of the slot's process",
            Verb::Watch => b"watches N bytes of its memory, 1 to 16",
            Verb::Points => b"what is set",
            Verb::Clear => b"takes all breakpoints and watches away",
            Verb::Continue => b"on to the next breakpoint or change of watched bytes",
            Verb::Reverse => b"back to the last breakpoint or change of watched bytes",
            Verb::Until => {
                b"on, or back, to a death, a message, a trap or a call that ends with an\n                            error, or a kernel call of this type, as TIMES or 0x601"
            }
            Verb::Where => b"the position again",
            Verb::Why => b"what the record before did; the command mx why says who waits for ever",
            Verb::Processes => b"the report",
            Verb::Messages => b"what was delivered",
            Verb::Registers => b"registers of the slot's process",
            Verb::Memory => b"N bytes of its memory",
            Verb::Listing => b"its code, from the address or from EIP on",
            Verb::Stack => b"N dwords of its stack, or eight",
            Verb::Print => b"its variable of that name",
            Verb::Help => b"this",
            Verb::Quit => b"the end",
            Verb::Exit => b"the end",
        }
    }

    /// Whether its word begins with these bytes.
    fn begins_with(self, front: &[u8]) -> bool
        ensures { result ≡ begins_verb front.now self }
    {
        self.word().starts_with(front)
    }
}

/// The first of these verbs whose word this is.
fn first_named<'a>(verbs: &'a [Verb], word: &[u8]) -> Option<&'a Verb>
    ensures { option_copied result ≡ find (λ v. bytes_eq word.now (verb_word v)) verbs.now }
{
    verbs.iter().find(|verb| word == verb.word())
}

/// The first of these verbs whose word begins so.
fn first_begun<'a>(verbs: &'a [Verb], front: &[u8]) -> Option<&'a Verb>
    ensures { option_copied result ≡ find (begins_verb front.now) verbs.now }
{
    verbs.iter().find(|verb| verb.begins_with(front))
}

/// How many of these verbs have a word that begins so.
fn count_begun(verbs: &[Verb], front: &[u8]) -> usize
    ensures { result ≡ count_by (begins_verb front.now) verbs.now }
{
    verbs.iter().filter(|verb| verb.begins_with(front)).count()
}

/// The verb that a word is; else the only verb whose word begins so.
#[tactic(auto, unfolding(crate::specs::Verbs::verb_of))]
pub(crate) fn verb_named(word: &[u8]) -> Option<Verb>
    ensures { result ≡ verb_of word.now }
{
    if let Some(verb) = first_named(&VERBS, word) {
        return Some(*verb);
    }
    if count_begun(&VERBS, word) == 1 {
        first_begun(&VERBS, word).copied()
    } else {
        None
    }
}

/// Appends the words of these verbs that begin so: the first after a colon, the others after commas.
fn push_begun(out: &mut Vec<u8>, verbs: &[Verb], front: &[u8]) -> Result<(), AllocError>
    ensures { OnOk result (out.new.items ≡ out.old.items
        ++ names_after (codes ": ") (filter (begins_verb front.now) verbs.now)) }
{
    let mut between: &[u8] = b": ";
    for verb in verbs {
        if verb.begins_with(front) {
            out.extend_from_slice(between)?;
            out.extend_from_slice(verb.word())?;
            between = b", ";
        }
    }
    Ok(())
}

/// Whether any of these verbs has a word that begins so.
fn has_begun(verbs: &[Verb], front: &[u8]) -> bool
    ensures { result ≡ list_any (begins_verb front.now) verbs.now }
{
    verbs.iter().any(|verb| verb.begins_with(front))
}

/// Appends that no verb's word begins so; or else which do.
fn push_unnamed(out: &mut Vec<u8>, word: &[u8]) -> Result<(), AllocError>
    ensures { OnOk result (out.new.items ≡ out.old.items ++ unnamed_text word.now) }
{
    if has_begun(&VERBS, word) {
        return push_begun(out, &VERBS, word);
    }
    out.extend_from_slice(b": no command ")?;
    out.extend_from_slice(word)?;
    out.extend_from_slice(b"; help")
}

/// Appends how a line with this first word is written; if it is no verb's, which verbs' words begin so.
fn push_form(out: &mut Vec<u8>, word: &[u8]) -> Result<(), AllocError>
    ensures { OnOk result (out.new.items ≡ out.old.items ++ form_text word.now) }
{
    match verb_named(word) {
        Some(verb) => {
            out.extend_from_slice(b": ")?;
            out.extend_from_slice(verb.form())
        }
        None => push_unnamed(out, word),
    }
}

/// Whether these bytes are text.
#[tactic(auto, using(crate::proofs::Texts::text_is, crate::proofs::Texts::text_isnt))]
fn is_utf8(line: &[u8]) -> bool
    ensures { result ≡ is_utf8 line.now }
{
    match str::from_utf8(line) {
        Ok(_) => true,
        Err(_) => false,
    }
}

/// Whether a line is text of at most 4,096 bytes.
pub(crate) fn is_text(line: &[u8]) -> bool
    ensures { result ≡ is_text line.now }
{
    line.len() <= LONGEST && is_utf8(line)
}

/// Appends what a line that asks for nothing known should be.
fn push_wanted(out: &mut Vec<u8>, line: &[u8]) -> Result<(), AllocError>
    ensures { OnOk result (out.new.items ≡ out.old.items ++ wanted_text line.now) }
{
    if !is_text(line) {
        return out.extend_from_slice(b": a line is text of at most 4096 bytes");
    }
    match next_field(line) {
        Some((word, _)) => push_form(out, word),
        None => Ok(()),
    }
}

/// Appends the answer to a line that asks for nothing known: how it is written, if its first word is a verb's.
#[tactic(auto, unfolding(crate::specs::Verbs::unknown_text))]
pub fn push_unknown(out: &mut Vec<u8>, line: &[u8]) -> Result<(), AllocError>
    ensures { OnOk result (out.new.items ≡ out.old.items ++ unknown_text line.now) }
{
    out.extend_from_slice(b"refused 73 BadRecord")?;
    push_wanted(out, line)?;
    out.extend_from_slice(b"\n")?;
    Ok(())
}

/// Appends what parts a form from its meaning: spaces up to the column where meanings are, or a new line.
fn push_gap(out: &mut Vec<u8>, form: &[u8]) -> Result<(), AllocError>
    ensures { OnOk result (out.new.items ≡ out.old.items ++ gap_after form.now) }
{
    if form.len() < COLUMN.len() {
        return out.extend_from_slice(&COLUMN[form.len()..]);
    }
    out.extend_from_slice(b"\n")?;
    out.extend_from_slice(COLUMN)
}

/// Appends a line for each of these verbs: how it is written, and what it does.
fn push_meanings(out: &mut Vec<u8>, verbs: &[Verb]) -> Result<(), AllocError>
    ensures { OnOk result (out.new.items ≡ out.old.items ++ flat_map help_line verbs.now) }
{
    for verb in verbs {
        out.extend_from_slice(verb.form())?;
        push_gap(out, verb.form())?;
        out.extend_from_slice(verb.meaning())?;
        out.extend_from_slice(b"\n")?;
    }
    Ok(())
}

/// Appends what `help` prints.
#[tactic(auto, unfolding(crate::specs::Verbs::help_text))]
pub(crate) fn push_help(out: &mut Vec<u8>) -> Result<(), AllocError>
    ensures { OnOk result (out.new.items ≡ out.old.items ++ help_text) }
{
    push_meanings(out, &VERBS)?;
    out.extend_from_slice(NOTES)
}
