//! The rule of the loans' table, and the kinds of step that preserve it.

use crate::Ghost;
use crate::knowledge::{Announcement, Knowledge, TableSizes};
use atomic_table::{Join, Play, Split, TableRule};

/// What each word means for its actor, and that all seats agree on one history.
pub struct LoanRule;

impl TableRule<Ghost<Announcement>, Knowledge, TableSizes> for LoanRule {
    ghost use Rattle.mx_loan.specs.Rule.{RuleHolds, founder_view};

    ghost holds = { λ _ s. RuleHolds s.words s.views };

    ghost first = { λ n. founder_view n };
}

/// The first seat makes the seat of the next actor.
pub struct SeatBirth;

impl Split<Knowledge> for SeatBirth {
    ghost use Rattle.mx_loan.specs.Rule.{founder_after_birth, newborn_view};

    ghost left = { founder_after_birth };

    ghost right = { newborn_view };
}

/// The first seat makes no more, and is the kernel's from then on.
pub struct FoundingEnd;

impl Split<Knowledge> for FoundingEnd {
    ghost use Rattle.mx_loan.specs.Rule.{kernel_half, spent_view};

    ghost left = { kernel_half };

    ghost right = { λ _. spent_view };
}

/// A call puts the two halves together first, and takes them apart last.
pub struct Halves;

impl Join<Knowledge> for Halves {
    ghost use Rattle.mx_loan.specs.Rule.{joined_view, spent_view};

    ghost both = { joined_view };

    ghost spent = { spent_view };
}

impl Split<Knowledge> for Halves {
    ghost use Rattle.mx_loan.specs.Rule.{kernel_half, actor_half};

    ghost left = { kernel_half };

    ghost right = { actor_half };
}

/// Offer, word 0 to 1: the kernel records that an actor takes a process.
pub struct OfferStep;

impl Play<Ghost<Announcement>, Knowledge> for OfferStep {
    ghost use Rattle.mx_loan.specs.Rule.{StepMakes, view_after_offer};

    ghost then = { StepMakes view_after_offer };
}

/// Take, word 1 to 2: the actor notes it, and holds what is lent.
pub struct TakeStep;

impl Play<Ghost<Announcement>, Knowledge> for TakeStep {
    ghost use Rattle.mx_loan.specs.Rule.{StepMakes, view_after_take};

    ghost then = { StepMakes view_after_take };
}

/// Return, word 2 to 3: the actor notes that it brings its process back.
pub struct ReturnStep;

impl Play<Ghost<Announcement>, Knowledge> for ReturnStep {
    ghost use Rattle.mx_loan.specs.Rule.{StepMakes, view_after_return};

    ghost then = { StepMakes view_after_return };
}

/// Close, word 3 to 0: the kernel records it.
pub struct CloseStep;

impl Play<Ghost<Announcement>, Knowledge> for CloseStep {
    ghost use Rattle.mx_loan.specs.Rule.{StepMakes, view_after_close};

    ghost then = { StepMakes view_after_close };
}

/// Record, word 0 to 4 or 2 to 6: the kernel records another event of an actor.
pub struct RecordStep;

impl Play<Ghost<Announcement>, Knowledge> for RecordStep {
    ghost use Rattle.mx_loan.specs.Rule.{StepMakes, view_after_record};

    ghost then = { StepMakes view_after_record };
}

/// Note, to word 0 or 2: the actor sees all of the history.
pub struct NoteStep;

impl Play<Ghost<Announcement>, Knowledge> for NoteStep {
    ghost use Rattle.mx_loan.specs.Rule.{StepMakes, view_after_note};

    ghost then = { StepMakes view_after_note };
}
