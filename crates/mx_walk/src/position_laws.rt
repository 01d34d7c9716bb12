//! Laws of positions.

ghost use Rattle.std.specs.Prelude.{◌≡◌, ◌<◌, ℕ, List, length, take, Some, slice_get};
ghost use Rattle.mx_machine.specs.declared.events.Event.{Event};
ghost use Rattle.mx_machine.specs.declared.history.Record.{Record};
ghost use Rattle.mx_machine.specs.History.{events_of_history, world_after_events};
ghost use Rattle.mx_machine.specs.Move.{world_after_event};
ghost use Rattle.mx_machine.specs.World.{World};
ghost use Rattle.mx_walk.specs.declared.positions.Position.{Position};
ghost use Rattle.mx_walk.specs.Positions.{IsBefore, IsPosition, next_event, next_position, position_before, steps_of, world_at};

/// Law: forward and then back is where one was, and so is back and then forward.
pub fn positions_alternate()
    ensures back { (records : List Record) (p : Position) → IsPosition records p
        → p.records < length records → position_before records (next_position records p) ≡ p }
    ensures forward { (records : List Record) (p q : Position) → IsPosition records p → IsBefore q p
        → next_position records (position_before records p) ≡ p }
{}

/// Law: from one position to the next the event between them is made, and nothing else.
pub fn events_are_made()
    ensures { (w : World) (records : List Record) (p : Position) (x : ℕ × Event)
        → IsPosition records p → next_event records p ≡ Some x
        → world_at w records (next_position records p)
        ≡ world_after_event (world_at w records p) x.0 x.1 }
{}

/// Law: between two records the world is that of a replay of the records before; within a record, that of
/// the replay after so many steps of the record's actor.
pub fn positions_replay()
    ensures between { (w : World) (records : List Record) (k : ℕ)
        → world_at w records (record { records = k; steps = 0 })
        ≡ world_after_events w (events_of_history (take k records)) }
    ensures within { (w : World) (records : List Record) (p : Position) (x : Record)
        → slice_get records p.records ≡ Some x
        → world_at w records p
        ≡ world_after_events (world_after_events w (events_of_history (take p.records records)))
        (steps_of x.actor p.steps) }
{}
