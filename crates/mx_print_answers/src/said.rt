//! What the answer to a line of a script is.

ghost use Rattle.std.specs.Prelude.{◌≡◌};
ghost use Rattle.mx_print_answers.specs.Said.{said_of_answer};

use crate::refused::Refused;
use mx_exec::Outcome;
use mx_image::Stop;
use mx_machine::{Answer, Refusal};
use std::fmt;

/// The answer to a line of a script, as a printer needs it.
#[derive(Clone, Copy)]
pub enum Said {
    /// How many steps were made, and how they ended.
    Stepped(u32, Stop),
    /// How an event was answered.
    Answered(Answer),
    /// Why it was refused.
    Refused(Refusal),
}

/// What is printed of the answer to an event.
pub fn said_of(answer: Result<Answer, Refusal>) -> Said
    ensures { result ≡ said_of_answer answer }
{
    match answer {
        Ok(answer) => Said::Answered(answer),
        Err(refusal) => Said::Refused(refusal),
    }
}

/// How an event was answered, as a line prints it.
#[derive(Clone, Copy)]
struct AnswerLine(Answer);

/// The line without its end, as `taken 5 budget 8`.
impl fmt::Display for AnswerLine {
    ghost use Rattle.std.specs.Prelude.{Some};
    ghost use Rattle.mx_print_answers.specs.Said.{answer_line};

    ghost output = { λ line. Some (answer_line line.0) };

    fn fmt<W: fmt::Write>(&self, f: &mut fmt::Formatter<W>) -> fmt::Result {
        let AnswerLine(answer) = *self;
        match answer {
            Answer::Went(Outcome::Go) => write!(f, "stepped 1 go"),
            Answer::Went(Outcome::Trap) => write!(f, "stepped 1 trap"),
            Answer::Went(Outcome::Fault(vector)) => write!(f, "stepped 1 fault {vector}"),
            Answer::Taken(endpoint, budget) => write!(f, "taken {endpoint} budget {budget}"),
            Answer::Returned(count) => write!(f, "returned {count}"),
            Answer::Done => write!(f, "done"),
            Answer::Respawned(endpoint) => write!(f, "respawned {endpoint}"),
        }
    }
}

/// The line that is printed, without its end.
impl fmt::Display for Said {
    ghost use Rattle.std.specs.Prelude.{Some};
    ghost use Rattle.mx_print_answers.specs.Said.{said_line};

    ghost output = { λ said. Some (said_line said) };

    fn fmt<W: fmt::Write>(&self, f: &mut fmt::Formatter<W>) -> fmt::Result {
        match *self {
            Said::Stepped(count, Stop::Spent) => write!(f, "stepped {count} go"),
            Said::Stepped(count, Stop::Trap) => write!(f, "stepped {count} trap"),
            Said::Stepped(count, Stop::Fault(vector)) => write!(
                f,
                "stepped {count} fault {vector}"
            ),
            Said::Answered(answer) => {
                let line = AnswerLine(answer);
                write!(f, "{line}")
            }
            Said::Refused(refusal) => {
                let refused = Refused::ByMachine(refusal);
                write!(f, "{refused}")
            }
        }
    }
}
