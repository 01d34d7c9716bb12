//! Laws of machines that make turns.

ghost use Rattle.std.specs.Prelude.{◌≢◌, ◌<◌, ◌+◌, ◌^◌, ℕ, List, length};
ghost use Rattle.mx_machine.specs.declared.config.Config.{Config};
ghost use Rattle.mx_machine.specs.History.{BootAndHistory};
ghost use Rattle.mx_machine.specs.Service.{Service};
ghost use Rattle.mx_turns.specs.declared.outside.OutsideLine.{OutsideLine};
ghost use Rattle.mx_turns.specs.declared.turns.Ending.{Ending};
ghost use Rattle.mx_turns.specs.declared.turns.Ending.TheVariants as endings;
ghost use Rattle.mx_app_turns.specs.Turned.{IsTurned, TurnsReplay, coming};

use mx_boot::{history_again, one_history};

/// Law: what a replay prints of the text of a history of turns is the report that the turns ended with.
pub fn turns_again()
    ensures { TurnsReplay }
{
    history_again();
    one_history();
}

/// Law: turns end at rest or at a full history, and not since all are made, if more are wanted than 1,048,576
/// and the lines of the file of outside events together. So the bound without `--turns`, 4,294,967,295, is
/// never met with a file of fewer than 4,293,918,719 lines: only the history's length bounds these turns.
pub fn bound_is_not_met()
    ensures { (c : Config) (vs : List Service) (bound : ℕ) (events : List OutsideLine) (ticks : ℕ)
        (k : BootAndHistory) (ending : Ending) → IsTurned c vs bound (coming events ticks) k ending
        → 2 ^ 20 + length events < bound → ending ≢ endings.Turns }
{}
