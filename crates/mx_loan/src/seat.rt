//! An actor's seat at the lending desk: what the actor knows of the history.

ghost use Rattle.std.specs.Prelude.{◌≡◌, ◌<◌};
ghost use Rattle.mx_machine.specs.History.{part_of};

use crate::steps::TableSeat;
use std::marker::Model;

/// What one actor, a processor or another, knows of the history. There is one seat for each actor.
/// Contracts see it as its actor's own records, the history as it has seen it, and what it holds.
#[derive(Drop)]
pub struct ActorSeat {
    pub(crate) seat: TableSeat,
    pub(crate) actor: u8,
    /// Whether it holds something, by which its word is 2 and not 0.
    pub(crate) holds: bool,
}

impl Model for ActorSeat {
    ghost use Rattle.mx_loan.specs.Seats.{SeatView, IsActorSeat, seat_of};

    ghost Value = { SeatView };

    ghost view = { λ s. seat_of s.seat.table_id s.actor s.seat.me.0 };

    ghost invariant = { λ s. IsActorSeat s.seat.table_id s.actor s.holds s.seat.me };
}

impl ActorSeat {
    /// The actor whose seat it is.
    pub fn actor(&self) -> u8
        ensures { result ≡ self.now.actor }
    {
        self.actor
    }

    /// Law: a seat's own records are all of its actor's that it has seen, and its actor is one of the
    /// table's.
    pub fn facts(&self)
        ensures mine { self.now.mine ≡ part_of self.now.seen self.now.actor }
        ensures actor { self.now.actor < self.now.table.words }
    {
        let _actor = self.actor;
    }
}
