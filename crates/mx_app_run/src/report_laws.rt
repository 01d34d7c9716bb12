//! The law of `mx run`: what a replay of a run's history prints.

ghost use Rattle.mx_app_run.specs.Run.{RunsAreHistories, RunsReplay};

use mx_boot::{history_again, one_history};

/// Law: the text of a run's history is read as that history, by the run's configuration; and what a replay of
/// that text prints is the report that the run printed.
pub fn replay_again()
    ensures history { RunsAreHistories }
    ensures report { RunsReplay }
{
    history_again();
    one_history();
}
