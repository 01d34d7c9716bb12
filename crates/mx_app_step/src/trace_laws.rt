//! A law of traces.

ghost use Rattle.std.specs.Prelude.{◌≤◌, ◌+◌, ℕ, List};
ghost use Rattle.mx_machine.specs.declared.history.Record.{Record};
ghost use Rattle.mx_machine.specs.World.{World};
ghost use Rattle.mx_app_step.specs.Traces.{PartsJoin};

/// Law: two parts of a trace join. What is printed of the records from `a` to `b`, and then of those from the
/// record after `b` to `c`, is what is printed from `a` to `c`.
pub fn parts_of_a_trace_join()
    ensures { (w : World) (records : List Record) (a b c : ℕ) → a ≤ b + 1 → b ≤ c
        → PartsJoin w records a b c }
{}
