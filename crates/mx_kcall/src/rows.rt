//! The table of kernel calls. A further kernel call has its row here; its number, its type and its bit in the
//! mask of calls are the row's place.

ghost use Rattle.std.specs.Prelude.{◌≡◌, ◌<◌, ◌≤◌, ◌+◌, ◌==◌, IfSome, length, option_copied, position};
ghost use Rattle.mx_kcall.specs.Requests.{AreOfTable};
ghost use Rattle.mx_kcall.specs.Rows.{is_space, is_there, name_of, reply_count, row_of, row_under};

use crate::windows::is_strict;
use mx_proc::Rules;

/// What a kernel call is about.
#[derive(Clone, Copy)]
pub enum CallName {
    Exit,
    Times,
    SetAlarm,
    Irqctl,
    Devio,
    Vircopy,
    Kill,
    Whois,
    Grant,
}

/// How many words a reply has whose result is 0.
#[derive(Clone, Copy)]
pub enum ReplyCount {
    /// This many, whatever was asked.
    Always(usize),
    /// This many after a request to read, whose first word is 0, and none after others.
    AfterRead(usize),
}

/// A kernel call, as a row of the table.
#[derive(Clone, Copy)]
pub struct CallRow {
    pub call: CallName,
    /// Its name in texts, with spaces up to eight bytes.
    pub text: [u8; 8],
    /// How many words a request has, 0 to 5.
    pub words: usize,
    pub reply: ReplyCount,
    /// The rules that brought it: those before them don't have it.
    pub rules: Rules,
}

/// The type of a request for the call of row 0. The call of row n has this type plus n.
pub const FIRST_CALL: u32 = 0x600;

/// All kernel calls. The place of a row is its call's bit in the mask of calls.
pub static CALLS: [CallRow; 9] = [
    CallRow {
        call: CallName::Exit,
        text: *b"EXIT    ",
        words: 0,
        reply: ReplyCount::Always(0),
        rules: Rules::Lenient,
    },
    CallRow {
        call: CallName::Times,
        text: *b"TIMES   ",
        words: 0,
        reply: ReplyCount::Always(3),
        rules: Rules::Lenient,
    },
    CallRow {
        call: CallName::SetAlarm,
        text: *b"SETALARM",
        words: 1,
        reply: ReplyCount::Always(1),
        rules: Rules::Lenient,
    },
    CallRow {
        call: CallName::Irqctl,
        text: *b"IRQCTL  ",
        words: 2,
        reply: ReplyCount::Always(0),
        rules: Rules::Lenient,
    },
    CallRow {
        call: CallName::Devio,
        text: *b"DEVIO   ",
        words: 3,
        reply: ReplyCount::AfterRead(1),
        rules: Rules::Lenient,
    },
    CallRow {
        call: CallName::Vircopy,
        text: *b"VIRCOPY ",
        words: 5,
        reply: ReplyCount::Always(0),
        rules: Rules::Lenient,
    },
    CallRow {
        call: CallName::Kill,
        text: *b"KILL    ",
        words: 1,
        reply: ReplyCount::Always(0),
        rules: Rules::Lenient,
    },
    CallRow {
        call: CallName::Whois,
        text: *b"WHOIS   ",
        words: 1,
        reply: ReplyCount::Always(1),
        rules: Rules::Lenient,
    },
    CallRow {
        call: CallName::Grant,
        text: *b"GRANT   ",
        words: 4,
        reply: ReplyCount::Always(0),
        rules: Rules::Strict,
    },
];

/// The row of a request's type, or nothing if no call has this type. The rows are those of the definition's table.
#[tactic(auto, unfolding(crate::specs::Requests::AreOfTable, crate::specs::Requests::typed_from, crate::specs::Requests::call_table))]
pub fn call_row(kind: u32) -> Option<&'static CallRow>
    ensures table { AreOfTable CALLS }
    ensures value { option_copied result ≡ row_of kind }
    ensures place { IfSome result (λ _. (FIRST_CALL ≤ kind) × (kind < FIRST_CALL + 32)) }
{
    CALLS.get(kind.checked_sub(FIRST_CALL)? as usize)
}

/// Whether these rules have a call.
pub fn is_there(rules: Rules, row: &CallRow) -> bool
    ensures { result ≡ is_there rules row.now }
{
    is_strict(rules) || !is_strict(row.rules)
}

/// The row of a request's type, if these rules have its call.
pub fn row_under(rules: Rules, kind: u32) -> Option<&'static CallRow>
    ensures value { option_copied result ≡ row_under rules kind }
    ensures place { IfSome result (λ _. (FIRST_CALL ≤ kind) × (kind < FIRST_CALL + 32)) }
{
    let row = call_row(kind)?;
    if is_there(rules, row) {
        Some(row)
    } else {
        None
    }
}

/// Where the spaces after a name begin, if there are any.
fn name_end(text: &[u8]) -> Option<usize>
    ensures { result ≡ position is_space text.now }
{
    text.iter().position(|byte| *byte == b' ')
}

impl CallRow {
    /// The call's name.
    pub fn name(&self) -> &[u8]
        ensures { result.now ≡ name_of self.now }
    {
        match name_end(&self.text) {
            Some(end) => &self.text[..end],
            None => &self.text,
        }
    }

    /// How many words the reply has to a request with this first word, if its result is 0.
    pub fn reply_words(&self, first: u32) -> usize
        ensures { result ≡ reply_count self.now.reply first }
    {
        match self.reply {
            ReplyCount::Always(count) => count,
            ReplyCount::AfterRead(count) if first == 0 => count,
            ReplyCount::AfterRead(_) => 0,
        }
    }
}
