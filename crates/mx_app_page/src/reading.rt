//! The law of who reads a page. It has no code.

ghost use Rattle.std.specs.Prelude.{ℕ, List};
ghost use Rattle.mx_machine.specs.declared.history.Record.{Record};
ghost use Rattle.mx_machine.specs.World.{World};
ghost use Rattle.mx_app_page.specs.Reading.{RowsTellEnough};

/// Law: whoever knows what a page shows of a world, and reads the rows of records from there on, knows what it shows
/// after them: each slot's state, who is ready, and who waits to send. What a row doesn't tell is as it was.
pub fn rows_tell_enough()
    ensures { (w : World) (n : ℕ) (xs : List Record) → RowsTellEnough w n xs }
{}
