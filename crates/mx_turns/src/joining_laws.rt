//! Laws of turns.

ghost use Rattle.std.specs.Prelude.{◌≡◌, ◌≤◌, ℕ, ◌+◌, List, None, Some, [], drop, false, length, true};
ghost use Rattle.mx_machine.specs.History.{world_after_events};
ghost use Rattle.mx_machine.specs.Proc.Queues.{first_ready};
ghost use Rattle.mx_machine.specs.Rest.{at_rest};
ghost use Rattle.mx_machine.specs.World.{World, free_records, held_by};
ghost use Rattle.mx_turns.specs.Turns.{NoneToRespawn, joined, round, turn, turns};
ghost use Rattle.mx_turns.specs.declared.outside.OutsideLine.{OutsideLine};
ghost use Rattle.mx_turns.specs.declared.turns.Ending.TheVariants as endings;

/// Law: if `a` turns are made and end for no other reason, then those and `b` more, with the outside events
/// that are left, are `a + b` turns.
pub fn turns_join()
    ensures { (a b : ℕ) (w : World) (coming : List OutsideLine)
        → (turns a w coming).ending ≡ endings.Turns
        → turns (a + b) w coming ≡ joined (turns a w coming).made
        (turns b (world_after_events w (turns a w coming).made) (drop a coming)) }
{}

/// Law: if a machine is at rest and no outside event is to come, nothing happens.
pub fn rest_is_still()
    ensures { (n : ℕ) (w : World) → at_rest w ≡ true → turns n w []
        ≡ record { made = []; ending = endings.Rest } }
{}

/// Law: on a machine of one processor, which holds nothing, let the process of slot `s` be the next that is
/// ready, with room for two records and no outside event to come. If no slot gets a new process after its
/// return, the turn is the take, the process's steps up to its stop, and its return.
pub fn turn_of_one()
    ensures { (w : World) (s : ℕ) → length w.cpus ≡ 1 → held_by w 0 ≡ None
        → first_ready w.table.ready ≡ Some s → 2 ≤ free_records w
        → NoneToRespawn (world_after_events w (round w s))
        → turn w None ≡ record { made = round w s; full = false } }
{}
