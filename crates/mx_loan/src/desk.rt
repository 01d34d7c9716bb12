//! The kernel's desk, which lends processes to actors and takes them back.
//!
//! # How a call goes
//!
//! Each call joins the kernel's seat with the actor's, makes its steps on the actor's word, and
//! splits the seats again. So between two calls a word is 0, at home, or 2, lent out.

ghost use Rattle.std.specs.Prelude.{◌≡◌, ◌<◌, None, Some, IfOk, length};
ghost use Rattle.mx_machine.specs.Held.{IsRunOf};
ghost use Rattle.mx_loan.specs.Rule.{lent_to};
ghost use Rattle.mx_loan.specs.Seats.{HasMadeNoStep, IsSeatOf, empty_desk, new_seats, new_loan};
ghost use Rattle.mx_loan.specs.Seats.{desk_after_take, desk_after_back, desk_after_event};
ghost use Rattle.mx_loan.specs.Seats.{seat_after_take, seat_after_back, seat_after_event, seat_seeing};

use crate::ghost_value::Ghost;
use crate::knowledge::Announcement;
use crate::loan::Loan;
use crate::seat::ActorSeat;
use crate::steps::{self, ActorTable, TableSeat};
use mx_machine::{Out, Record, Recorded};
use std::alloc::{AllocError, Global};
use std::marker::Model;

/// The kernel's end of the table, with the table itself. It is next to the kernel, under the lock.
/// Contracts see it as the history, and what each processor is lent, as it was lent.
#[derive(Drop)]
pub struct Desk {
    table: ActorTable,
    seat: TableSeat,
}

impl Model for Desk {
    ghost use Rattle.std.specs.Prelude.{◌≡◌};
    ghost use Rattle.mx_loan.specs.Seats.{DeskView, IsKernelSeat, desk_of};

    ghost Value = { DeskView };

    ghost view = { λ d. desk_of d.table.shared.table_id d.seat.me.0 };

    ghost invariant = { λ d. (d.seat.table_id ≡ d.table.shared.table_id) × IsKernelSeat d.seat.me };
}

impl Desk {
    /// A desk for some number of actors, with an empty history, and their seats in order. The first
    /// `cpus` of them are processors, which may be lent something.
    pub fn open(alloc: Global, actors: u8, cpus: u8) -> Result<(Desk, Vec<ActorSeat>), AllocError>
        requires { 0 < actors }
        ensures desk { IfOk result (λ r. r.0 ≡ empty_desk r.0.table cpus) }
        ensures words { IfOk result (λ r. r.0.table.words ≡ actors) }
        ensures seats { IfOk result (λ r. r.1.items ≡ new_seats r.0.table actors) }
    {
        let mut seats = Vec::with_capacity(alloc, actors as usize)?;
        let (table, mut seat) = steps::open_table(alloc, actors as usize, cpus as usize)?;
        for actor in 0..actors {
            let place = steps::make_seat(&table, &mut seat);
            let newcomer = ActorSeat {
                seat: place,
                actor,
                holds: false,
            };
            seats.push(newcomer)?;
        }
        steps::end_founding(&table, &mut seat);
        Ok((Desk { table, seat }, seats))
    }

    /// Records that an actor takes a process, and lends it.
    #[tactic(auto, using(crate::proofs::RunLemmas::run_of_nothing))]
    pub fn lend(&mut self, seat: ActorSeat, out: Out) -> (ActorSeat, Loan)
        requires table { seat.table ≡ self.old.table }
        requires empty { seat.held ≡ None }
        requires place { seat.actor < length self.old.lent }
        requires fresh { HasMadeNoStep out }
        ensures known { IsSeatOf seat self.old }
        ensures desk { self.new ≡ desk_after_take self.old seat.actor out }
        ensures seat { result.0 ≡ seat_after_take seat self.new out }
        ensures loan { result.1 ≡ new_loan seat.actor out }
    {
        let ActorSeat {
            seat,
            actor,
            holds: _,
        } = seat;
        let take = Announcement {
            record: Record {
                actor,
                event: Recorded::Take,
            },
            lent: Some(Ghost::of(&out)),
        };
        let lent = Ghost::of(&out);
        let table = &self.table;
        let both = &mut self.seat;
        steps::join_seats(table, both, seat);
        // The word goes from 0 to 1 and 2.
        steps::offer(table, both, &take);
        steps::take(table, both, &take);
        let seat = steps::split_seats(table, both);
        let seat = ActorSeat {
            seat,
            actor,
            holds: true,
        };
        (seat, Loan { out, actor, lent })
    }

    /// Records that an actor brings back what it was lent, and gives out what has become of it: what
    /// was lent, advanced by exactly the steps counted.
    pub fn redeem(&mut self, seat: ActorSeat, loan: Loan) -> (ActorSeat, Out)
        requires table { seat.table ≡ self.old.table }
        requires actor { loan.actor ≡ seat.actor }
        requires lent { seat.held ≡ Some loan.lent }
        ensures known { IsSeatOf seat self.old }
        ensures start { lent_to self.old.lent seat.actor ≡ Some loan.lent }
        ensures run { IsRunOf loan.lent result.1 }
        ensures fresh { HasMadeNoStep loan.lent }
        ensures out { result.1 ≡ loan.out }
        ensures desk { self.new ≡ desk_after_back self.old seat.actor loan.out.count }
        ensures seat { result.0 ≡ seat_after_back seat self.new loan.out.count }
    {
        let ActorSeat {
            seat,
            actor,
            holds: _,
        } = seat;
        let Loan {
            out,
            actor: _,
            lent: _,
        } = loan;
        let back = Announcement {
            record: Record {
                actor,
                event: Recorded::Back(out.count),
            },
            lent: None,
        };
        let table = &self.table;
        let both = &mut self.seat;
        steps::join_seats(table, both, seat);
        // The word goes from 2 to 3 and 0. Then the seat sees all of the history.
        steps::bring_back(table, both, &back);
        steps::close(table, both, &back);
        steps::note(table, both, &back, 0, 0);
        let seat = steps::split_seats(table, both);
        let seat = ActorSeat {
            seat,
            actor,
            holds: false,
        };
        (seat, out)
    }

    /// Records another event of an actor, which changes no loan.
    pub fn record(&mut self, seat: ActorSeat, event: Recorded) -> ActorSeat
        requires table { seat.table ≡ self.old.table }
        ensures known { IsSeatOf seat self.old }
        ensures desk { self.new ≡ desk_after_event self.old seat.actor event }
        ensures seat { result ≡ seat_after_event seat self.new event }
    {
        let ActorSeat { seat, actor, holds } = seat;
        let said = Announcement {
            record: Record { actor, event },
            lent: None,
        };
        let table = &self.table;
        let both = &mut self.seat;
        // The word between two calls: 4 more means that the record awaits the actor's note.
        let at = if holds { 2 } else { 0 };
        steps::join_seats(table, both, seat);
        steps::record_event(table, both, &said, at);
        steps::note(table, both, &said, at + 4, at);
        let seat = steps::split_seats(table, both);
        ActorSeat { seat, actor, holds }
    }

    /// The actor sees the history as the desk has it. A note announces a record that nothing reads.
    pub fn note(&mut self, seat: ActorSeat) -> ActorSeat
        requires table { seat.table ≡ self.old.table }
        ensures known { IsSeatOf seat self.old }
        ensures desk { self.new ≡ self.old }
        ensures seat { result ≡ seat_seeing seat self.old.history }
    {
        let ActorSeat { seat, actor, holds } = seat;
        let said = Announcement {
            record: Record {
                actor,
                event: Recorded::Tick,
            },
            lent: None,
        };
        let table = &self.table;
        let both = &mut self.seat;
        let at = if holds { 2 } else { 0 };
        steps::join_seats(table, both, seat);
        steps::note(table, both, &said, at, at);
        let seat = steps::split_seats(table, both);
        ActorSeat { seat, actor, holds }
    }
}
