//! Laws of replies.

ghost use Rattle.std.specs.Prelude.{◌≡◌, ◌⊎◌, List, Option, Some, true, ℕ};
ghost use Rattle.mx_machine.specs.declared.events.Event.{Event};
ghost use Rattle.mx_walk.specs.Positions.{IsPosition, position_before};
ghost use Rattle.mx_walk.specs.Seeking.{is_marked};
ghost use Rattle.mx_app_look.specs.Marks.{is_looked_for};
ghost use Rattle.mx_app_look.specs.Searches.{next_made};
ghost use Rattle.mx_rsp.specs.declared.request.Request.{Request};
ghost use Rattle.mx_app_gdb.specs.declared.replying.After.{After};
ghost use Rattle.mx_app_gdb.specs.declared.stub.Stub.{Stub};
ghost use Rattle.mx_app_gdb.specs.declared.replying.Way.TheVariants.{Back, On};
ghost use Rattle.mx_app_gdb.specs.Laws.{IsSameHistory, points_of};
ghost use Rattle.mx_app_gdb.specs.Replied.{IsMoved, IsReplied, world_of_stub};

/// Law: no request changes the history: after each one the walker is as it was, but for the position.
pub fn history_stays()
    ensures { (s u : Stub) (r : Request) (reply : Option (List ℕ)) (next : After)
        → IsReplied s r u reply next → IsSameHistory s u }
{}

/// Law: where a move on began right before an event that is at a point, the move back after it comes to where that
/// began, or to right before the event after which that halted. It passes neither.
pub fn back_returns()
    ensures { (s u v : Stub) (a b : ℕ) (x : ℕ × Event) (told said : List ℕ)
        → IsPosition s.sight.walker.records s.sight.walker.here
        → next_made s.sight.walker ≡ Some x
        → is_marked (is_looked_for (points_of s)) (world_of_stub s) x ≡ true
        → IsMoved On s a true u told → IsMoved Back u b true v said
        → (v.sight.walker.here ≡ s.sight.walker.here)
        ⊎ (v.sight.walker.here ≡ position_before s.sight.walker.records u.sight.walker.here) }
{}
