//! Prints why a debugger's line is refused.

ghost use Rattle.std.specs.Prelude.{◌≡◌, ◌++◌, OnOk, string_bytes};
ghost use Rattle.mx_print_answers.specs.Answers.{done_line};

use mx_debug::DebugError;
use mx_machine::Refusal;
use std::alloc::AllocError;
use std::fmt;
use std::fmt::Write;

/// Why a line is refused that only a debugger's script has.
#[derive(Clone, Copy)]
pub enum Refused {
    /// There is no such service or no such process, or it is at a stop.
    ByMachine(Refusal),
    /// There is no such symbol or place, or no room for a breakpoint.
    ByDebugger(DebugError),
}

/// The line without its end, as `refused 60 NoSymbol`.
impl fmt::Display for Refused {
    ghost use Rattle.std.specs.Prelude.{Some};
    ghost use Rattle.mx_print_answers.specs.Answers.{refused_line};

    ghost output = { λ refused. Some (refused_line refused) };

    fn fmt<W: fmt::Write>(&self, f: &mut fmt::Formatter<W>) -> fmt::Result {
        let (code, name) = match *self {
            Refused::ByMachine(refusal) => (refusal.code(), refusal.name()),
            Refused::ByDebugger(error) => (error.code(), error.name()),
        };
        write!(f, "refused {code} {name}")
    }
}

impl From<Refusal> for Refused {
    ghost use Rattle.std.specs.Prelude.{◌≡◌};
    ghost use Rattle.mx_print_answers.specs.declared.refused.Refused.TheVariants.{ByMachine};

    ghost from_gives = { λ refusal refused. refused ≡ ByMachine refusal };

    fn from(refusal: Refusal) -> Refused {
        Refused::ByMachine(refusal)
    }
}

impl From<DebugError> for Refused {
    ghost use Rattle.std.specs.Prelude.{◌≡◌};
    ghost use Rattle.mx_print_answers.specs.declared.refused.Refused.TheVariants.{ByDebugger};

    ghost from_gives = { λ error refused. refused ≡ ByDebugger error };

    fn from(error: DebugError) -> Refused {
        Refused::ByDebugger(error)
    }
}

/// Appends the answer to a line that sets or removes a breakpoint: `done`, or why it is refused.
pub fn push_done(text: &mut String, done: Result<(), Refused>) -> Result<(), AllocError>
    ensures { OnOk result (string_bytes text.new ≡ string_bytes text.old ++ done_line done) }
{
    match done {
        Ok(()) => text.push_str("done\n"),
        Err(refused) => writeln!(text, "{refused}"),
    }
}
