//! Laws of searches.

ghost use Rattle.std.specs.Prelude.{◌≡◌, ℕ, List, Some, true};
ghost use Rattle.mx_machine.specs.declared.events.Event.{Event};
ghost use Rattle.mx_walk.specs.declared.positions.Position.{Position};
ghost use Rattle.mx_walk.specs.Positions.{IsPosition, next_event, next_position, position_before};
ghost use Rattle.mx_walk.specs.Seeking.{IsFirstMarked, is_marked};
ghost use Rattle.mx_walk.specs.Walks.{Walk, world_here};
ghost use Rattle.mx_app_look.specs.declared.points.Points.{Points};
ghost use Rattle.mx_app_look.specs.Marks.{changes_watched, is_looked_for};
ghost use Rattle.mx_app_look.specs.Searches.{IsLastHalt, IsNextHalt, changes_from};

/// Law: from right after an event that changes watched bytes, the search back comes to right before it, and
/// prints the same change. So `continue` and then `reverse` comes to the position before.
pub fn searches_return()
    ensures first { (k : Walk) (s : Points) (x : ℕ × Event) → IsPosition k.records k.here
        → next_event k.records k.here ≡ Some x
        → is_marked (changes_watched s) (world_here k) x ≡ true
        → IsLastHalt (record k { here = next_position k.records k.here }) s
        (k.here, changes_from k s k.here (next_position k.records k.here)) }
    ensures later { (k : Walk) (s : Points) (from q : Position) → IsPosition k.records q
        → IsFirstMarked (is_looked_for s) k.boot k.records from q
        → IsLastHalt (record k { here = q }) s
        (position_before k.records q, changes_from k s (position_before k.records q) q) }
{}

/// Law: each of the two searches halts at one position and no other, and prints one text.
pub fn one_halt()
    ensures next { (k : Walk) (s : Points) (g h : Position × List ℕ) → IsPosition k.records k.last
        → IsNextHalt k s g → IsNextHalt k s h → g ≡ h }
    ensures last { (k : Walk) (s : Points) (g h : Position × List ℕ) → IsLastHalt k s g
        → IsLastHalt k s h → g ≡ h }
{}
