//! A law of steps.
//!
//! A law is a function without arguments that does nothing. Its contract is a statement about the definitions alone,
//! and is proved as any contract is. Who calls it knows the statement from there on; the call costs nothing when it
//! runs.

ghost use Rattle.std.specs.Prelude.{◌≡◌};
ghost use Rattle.mx_exec.specs.declared.image.Image.{Image};
ghost use Rattle.mx_exec.specs.Lasting.{lasting};
ghost use Rattle.mx_exec.specs.Step.{one_step};

/// Law: no step changes the kind of code, a text of its own or the data segment's limit.
pub fn step_lasts()
    ensures { (m : Image) → lasting (one_step m).1 ≡ lasting m }
{}
