//! The steps on the loans' table, each with its contract on the view that has both halves: the
//! kernel's and an actor's.

ghost use Rattle.std.specs.Prelude.{◌≡◌, ℕ, ◌<◌, ◌+◌, ◌++◌, ◌∷◌, ◌⊎◌, List, [], length, true, Some, IfOk, replicate};
ghost use Rattle.mx_machine.specs.declared.history.Record.{Record};
ghost use Rattle.mx_machine.specs.declared.history.Recorded.TheVariants as recorded;
ghost use Rattle.mx_machine.specs.declared.holding.Out.{Out};
ghost use Rattle.mx_loan.specs.Rule.{at_home, offered, lent_out, brought_back};
ghost use Rattle.mx_loan.specs.Rule.{lent_to, joined_view, kernel_half, actor_half, word_at_rest, founder_view, sizes_of};
ghost use Rattle.mx_loan.specs.Rule.{founder_after_birth, newborn_view, value_of_ghost, IsJoined, JoinedFacts};
ghost use Rattle.mx_loan.specs.Rule.{view_after_offer, view_after_take, view_after_return};
ghost use Rattle.mx_loan.specs.Rule.{view_after_close, view_after_record, view_after_note};

use crate::Ghost;
use crate::kinds::{
    CloseStep, FoundingEnd, Halves, LoanRule, NoteStep, OfferStep, RecordStep, ReturnStep,
    SeatBirth, TakeStep,
};
use crate::knowledge::{Announcement, Knowledge, TableSizes};
use atomic_table::{Seat, Table};
use std::alloc::{AllocError, Global};

/// One word for each actor. It has no other content when the program runs.
pub type ActorTable = Table<Ghost<Announcement>, Knowledge, TableSizes, LoanRule, Global>;

/// A seat at it. It has no bytes.
pub type TableSeat = Seat<Ghost<Announcement>, Knowledge>;

/// The kernel's seat takes in an actor's, for a call.
pub(crate) fn join_seats(board: &ActorTable, both: &mut TableSeat, actor: TableSeat)
    requires table { both.old.table_id ≡ board.now.shared.table_id }
    requires actor_table { actor.table_id ≡ board.now.shared.table_id }
    requires word { actor.me.0.actor < board.now.shared.table_id.words }
    requires kernel { both.old.me ≡ (kernel_half both.old.me.0, []) }
    requires actor { actor.me ≡ (actor_half actor.me.0, []) }
    ensures table { both.new.table_id ≡ both.old.table_id }
    ensures me { both.new.me ≡ (joined_view both.old.me.0 actor.me.0, []) }
{
    board.shared.join_seat::<Halves>(both, actor);
}

/// Parts two joined seats: the actor's half gets its own seat again.
pub(crate) fn split_seats(board: &ActorTable, both: &mut TableSeat) -> TableSeat
    requires table { both.old.table_id ≡ board.now.shared.table_id }
    requires word { both.old.me.0.actor < board.now.shared.table_id.words }
    requires joined { IsJoined both.old.me.0 × (both.old.me.1 ≡ []) }
    requires rest { both.old.me.0.phase ≡ word_at_rest both.old.me.0.held }
    ensures table { both.new.table_id ≡ both.old.table_id }
    ensures actor_table { result.table_id ≡ both.old.table_id }
    ensures kernel { both.new.me ≡ (kernel_half both.old.me.0, []) }
    ensures actor { result.me ≡ (actor_half both.old.me.0, []) }
{
    board.shared.split_seat::<Halves>(both)
}

/// Word 0 to 1: the kernel records that the actor takes a process, which it lends from then on.
pub(crate) fn offer(board: &ActorTable, both: &mut TableSeat, said: &Announcement)
    requires table { both.old.table_id ≡ board.now.shared.table_id }
    requires word { both.old.me.0.actor < board.now.shared.table_id.words }
    requires joined { IsJoined both.old.me.0 }
    requires own_record { said.now.record.actor ≡ both.old.me.0.actor }
    requires own_take { said.now.record.event ≡ recorded.Take }
    requires lends { (y : Out) × (value_of_ghost said.now.lent ≡ Some y) }
    requires room { both.old.me.0.actor < length both.old.me.0.lent }
    requires home { both.old.me.0.phase ≡ at_home }
    ensures table { both.new.table_id ≡ both.old.table_id }
    ensures me { both.new.me ≡ (view_after_offer both.old.me.0 said.now, both.old.me.1) }
    ensures own { JoinedFacts both.old.me.0 × JoinedFacts both.new.me.0 }
{
    let word = said.record.actor as usize;
    let told = Ghost::of(said);
    board
        .shared
        .compare_exchange_with::<OfferStep>(both, word, 0, 1, &told);
}

/// Word 1 to 2: the actor notes the record that the history ends with, and holds what is lent.
pub(crate) fn take(board: &ActorTable, both: &mut TableSeat, said: &Announcement)
    requires table { both.old.table_id ≡ board.now.shared.table_id }
    requires word { both.old.me.0.actor < board.now.shared.table_id.words }
    requires joined { IsJoined both.old.me.0 }
    requires own_record { said.now.record.actor ≡ both.old.me.0.actor }
    requires last { (h : List Record) × (both.old.me.0.history ≡ h ++ said.now.record ∷ []) }
    requires lent { value_of_ghost said.now.lent ≡ lent_to both.old.me.0.lent both.old.me.0.actor }
    requires offered { both.old.me.0.phase ≡ offered }
    ensures table { both.new.table_id ≡ both.old.table_id }
    ensures me { both.new.me ≡ (view_after_take both.old.me.0 said.now, both.old.me.1) }
    ensures own { JoinedFacts both.old.me.0 × JoinedFacts both.new.me.0 }
{
    let word = said.record.actor as usize;
    let told = Ghost::of(said);
    board
        .shared
        .compare_exchange_with::<TakeStep>(both, word, 1, 2, &told);
}

/// Word 2 to 3: the actor notes that it brings its process back, and holds nothing.
pub(crate) fn bring_back(board: &ActorTable, both: &mut TableSeat, said: &Announcement)
    requires table { both.old.table_id ≡ board.now.shared.table_id }
    requires word { both.old.me.0.actor < board.now.shared.table_id.words }
    requires joined { IsJoined both.old.me.0 }
    requires own_record { said.now.record.actor ≡ both.old.me.0.actor }
    requires own_back { (steps : ℕ) × (said.now.record.event ≡ recorded.Back steps) }
    requires out { both.old.me.0.phase ≡ lent_out }
    ensures table { both.new.table_id ≡ both.old.table_id }
    ensures me { both.new.me ≡ (view_after_return both.old.me.0 said.now, both.old.me.1) }
    ensures own { JoinedFacts both.old.me.0 × JoinedFacts both.new.me.0 }
{
    let word = said.record.actor as usize;
    let told = Ghost::of(said);
    board
        .shared
        .compare_exchange_with::<ReturnStep>(both, word, 2, 3, &told);
}

/// Word 3 to 0: the kernel records what the actor noted last, and lends it nothing.
pub(crate) fn close(board: &ActorTable, both: &mut TableSeat, said: &Announcement)
    requires table { both.old.table_id ≡ board.now.shared.table_id }
    requires word { both.old.me.0.actor < board.now.shared.table_id.words }
    requires joined { IsJoined both.old.me.0 }
    requires own_record { said.now.record.actor ≡ both.old.me.0.actor }
    requires last { (m : List Record) × (both.old.me.0.mine ≡ m ++ said.now.record ∷ []) }
    requires returned { both.old.me.0.phase ≡ brought_back }
    ensures table { both.new.table_id ≡ both.old.table_id }
    ensures me { both.new.me ≡ (view_after_close both.old.me.0 said.now, both.old.me.1) }
    ensures own { JoinedFacts both.old.me.0 × JoinedFacts both.new.me.0 }
{
    let word = said.record.actor as usize;
    let told = Ghost::of(said);
    board
        .shared
        .compare_exchange_with::<CloseStep>(both, word, 3, 0, &told);
}

/// Word 0 to 4 or 2 to 6: the kernel records another event of the actor.
pub(crate) fn record_event(board: &ActorTable, both: &mut TableSeat, said: &Announcement, at: u64)
    requires table { both.old.table_id ≡ board.now.shared.table_id }
    requires word { both.old.me.0.actor < board.now.shared.table_id.words }
    requires joined { IsJoined both.old.me.0 }
    requires own_record { said.now.record.actor ≡ both.old.me.0.actor }
    requires at { (both.old.me.0.phase ≡ at) × (at < 3) }
    requires rest { both.old.me.0.phase ≡ word_at_rest both.old.me.0.held }
    ensures table { both.new.table_id ≡ both.old.table_id }
    ensures me { both.new.me ≡ (view_after_record both.old.me.0 said.now, both.old.me.1) }
    ensures own { JoinedFacts both.old.me.0 × JoinedFacts both.new.me.0 }
{
    let word = said.record.actor as usize;
    let told = Ghost::of(said);
    board
        .shared
        .compare_exchange_with::<RecordStep>(both, word, at, at + 4, &told);
}

/// To word 0 or 2: the actor sees all of the history.
pub(crate) fn note(
    board: &ActorTable,
    both: &mut TableSeat,
    said: &Announcement,
    at: u64,
    rest: u64,
)
    requires table { both.old.table_id ≡ board.now.shared.table_id }
    requires word { both.old.me.0.actor < board.now.shared.table_id.words }
    requires joined { IsJoined both.old.me.0 }
    requires own_record { said.now.record.actor ≡ both.old.me.0.actor }
    requires at { both.old.me.0.phase ≡ at }
    requires rest { rest ≡ word_at_rest both.old.me.0.held }
    requires noted { (at ≡ rest) ⊎ (at ≡ rest + 4) }
    ensures table { both.new.table_id ≡ both.old.table_id }
    ensures me { both.new.me ≡ (view_after_note both.old.me.0 said.now, both.old.me.1) }
    ensures own { JoinedFacts both.old.me.0 × JoinedFacts both.new.me.0 }
{
    let word = said.record.actor as usize;
    let told = Ghost::of(said);
    board
        .shared
        .compare_exchange_with::<NoteStep>(both, word, at, rest, &told);
}

/// Makes the seat of the next actor, while the table is made.
pub(crate) fn make_seat(board: &ActorTable, founder: &mut TableSeat) -> TableSeat
    requires table { founder.old.table_id ≡ board.now.shared.table_id }
    requires founding { (founder.old.me.0.founding ≡ true) × (founder.old.me.1 ≡ []) }
    requires room { founder.old.me.0.made < founder.old.me.0.actors }
    requires word { 0 < board.now.shared.table_id.words }
    ensures table { founder.new.table_id ≡ founder.old.table_id }
    ensures actor_table { result.table_id ≡ founder.old.table_id }
    ensures founder { founder.new.me ≡ (founder_after_birth founder.old.me.0, []) }
    ensures actor { result.me ≡ (newborn_view founder.old.me.0, []) }
{
    board.shared.split_seat::<SeatBirth>(founder)
}

/// All seats are made: the first is the kernel's from then on.
pub(crate) fn end_founding(board: &ActorTable, founder: &mut TableSeat)
    requires table { founder.old.table_id ≡ board.now.shared.table_id }
    requires founding { (founder.old.me.0.founding ≡ true) × (founder.old.me.1 ≡ []) }
    requires word { 0 < board.now.shared.table_id.words }
    ensures table { founder.new.table_id ≡ founder.old.table_id }
    ensures kernel { founder.new.me ≡ (kernel_half founder.old.me.0, []) }
{
    let _spent = board.shared.split_seat::<FoundingEnd>(founder);
}

/// Opens a table for some number of actors, the first `cpus` of whom may be lent something, and gives
/// its first seat.
pub(crate) fn open_table(
    alloc: Global,
    actors: usize,
    cpus: usize,
) -> Result<(ActorTable, TableSeat), AllocError>
    ensures words { IfOk result (λ r. r.0.shared.table_id.words ≡ actors) }
    ensures table { IfOk result (λ r. r.1.table_id ≡ r.0.shared.table_id) }
    ensures seat { IfOk result (λ r. r.1.me ≡ (founder_view (sizes_of actors cpus), [])) }
{
    let words: Vec<u64> = vec![in alloc; 0; actors]?;
    let sizes = TableSizes {
        actors: actors as u64,
        cpus: cpus as u64,
    };
    ActorTable::of_words(alloc, words.as_slice(), &sizes)
}
