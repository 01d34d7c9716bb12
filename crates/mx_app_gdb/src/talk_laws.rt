//! A law of talks.

ghost use Rattle.std.specs.Prelude.{◌≡◌, List, Option, ℕ};
ghost use Rattle.mx_machine.specs.World.{World};
ghost use Rattle.mx_machine.specs.declared.history.Record.{Record};
ghost use Rattle.mx_walk.specs.Walks.{Walk};
ghost use Rattle.mx_app_look.specs.Sessions.{IsBegun};
ghost use Rattle.mx_app_step.specs.Config.{Config};
ghost use Rattle.mx_app_gdb.specs.declared.talking.Talk.{Talk};
ghost use Rattle.mx_app_gdb.specs.Talks.{IsTalk, IsTalkBegun};

/// Law: what a talk writes is determined by the world of the boot, the records of the history, the configuration's
/// files, the slot that gdb wants alone, and the bytes that come.
pub fn one_talk()
    ensures { (boot : World) (records : List Record) (c : Config) (only : Option ℕ) (j k : Walk)
        (t u : Talk) (typed : List (Option (List ℕ))) (a b : List ℕ)
        → IsBegun boot records j → IsBegun boot records k
        → IsTalkBegun c j only t → IsTalkBegun c k only u
        → IsTalk t typed a → IsTalk u typed b → a ≡ b }
{}
