//! What goes on, forward: the actions of `vCont`.

ghost use Rattle.std.specs.Prelude.{◌≡◌};
ghost use Rattle.mx_rsp.specs.Moves.{action_of, alone, continues, move_of, resume_of, with_signal, within};

use crate::fields::{Which, cut, number, two_numbers, who};

/// How far a process goes.
#[derive(Clone, Copy, Debug, PartialEq, Eq)]
pub enum Action {
    /// Until something halts it.
    Continue,
    /// One instruction.
    Step,
    /// On while its next instruction is from the first address on and below the second.
    StepWithin(u32, u32),
}

/// How far whose process goes.
#[derive(Clone, Copy, Debug, PartialEq, Eq)]
pub struct Move {
    pub action: Action,
    pub who: Which,
}

/// A move, and whether the others go on meanwhile.
#[derive(Clone, Copy, Debug, PartialEq, Eq)]
pub struct Resume {
    pub first: Move,
    pub others: bool,
}

/// An action after which nothing may stand.
fn alone(rest: &[u8], action: Action) -> Option<Action>
    ensures { result ≡ alone rest.now action }
{
    if rest.is_empty() { Some(action) } else { None }
}

/// An action with a signal.
fn with_signal(rest: &[u8], action: Action) -> Option<Action>
    ensures { result ≡ with_signal rest.now action }
{
    number(rest)?;
    Some(action)
}

/// Steps within a range.
fn within(rest: &[u8]) -> Option<Action>
    ensures { result ≡ within rest.now }
{
    let (start, end) = two_numbers(rest)?;
    Some(Action::StepWithin(start, end))
}

/// An action.
fn one_action(text: &[u8]) -> Option<Action>
    ensures { result ≡ action_of text.now }
{
    let (letter, rest) = text.split_first()?;
    match *letter {
        b'c' => alone(rest, Action::Continue),
        b's' => alone(rest, Action::Step),
        b'C' => with_signal(rest, Action::Continue),
        b'S' => with_signal(rest, Action::Step),
        b'r' => within(rest),
        _ => None,
    }
}

/// An action, and whose it is.
fn one_move(text: &[u8]) -> Option<Move>
    ensures { result ≡ move_of text.now }
{
    match cut(text, b':') {
        None => Some(Move {
            action: one_action(text)?,
            who: Which::All,
        }),
        Some((first, thread)) => {
            let action = one_action(first)?;
            let who = who(thread)?;
            Some(Move { action, who })
        }
    }
}

fn continues(action: Action) -> bool
    ensures { result ≡ continues action }
{
    match action {
        Action::Continue => true,
        _ => false,
    }
}

/// Who goes on, and how.
pub(crate) fn resume_asked(text: &[u8]) -> Option<Resume>
    ensures { result ≡ resume_of text.now }
{
    match cut(text, b';') {
        None => Some(Resume {
            first: one_move(text)?,
            others: false,
        }),
        Some((first, rest)) => {
            let first = one_move(first)?;
            let other = one_move(rest)?;
            Some(Resume {
                first,
                others: continues(other.action),
            })
        }
    }
}
