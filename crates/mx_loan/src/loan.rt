//! A loan: a process that is lent to an actor, who may only run it and bring it back.

ghost use Rattle.std.specs.Prelude.{◌≡◌};
ghost use Rattle.mx_machine.specs.Held.{IsRunOf};
ghost use Rattle.mx_loan.specs.Seats.{HasMadeNoStep, IsAdvanced};

use crate::ghost_value::Ghost;
use mx_exec::Image;
use mx_image::Stop;
use mx_machine::{Held, Out};
use std::marker::Model;

/// A process that is lent to an actor. It can't be dropped or copied: only `Desk::redeem` ends it.
/// Contracts see whose it is, what was lent (only for clauses; no call changes it), and what has
/// become of it: the image, the budget, the count of steps, and how the last of them ended.
pub struct Loan {
    pub(crate) out: Out,
    pub(crate) actor: u8,
    pub(crate) lent: Ghost<Out>,
}

impl Model for Loan {
    ghost use Rattle.mx_loan.specs.Seats.{LoanView, IsLoan};

    ghost Value = { LoanView };

    ghost view = { λ l. record { actor = l.actor; lent = l.lent.value; out = l.out } };

    ghost invariant = { λ l. IsLoan l.lent.value l.out };
}

#[tactic(auto)]
impl Held for Loan {
    ghost use Rattle.std.specs.Prelude.{Some};

    ghost out = { λ l. l.out };

    ghost loan = { λ l. Some (l.actor, l.lent) };

    /// Takes no memory, and never waits.
    fn run(&mut self, k: u32) -> (u32, Stop) {
        self.out.run(k)
    }

    fn image(&self) -> &Image {
        &self.out.image
    }
}

impl Loan {
    /// How many steps the loan may make.
    pub fn budget(&self) -> u32
        ensures { result ≡ self.now.out.budget }
    {
        self.out.budget
    }

    /// How many steps the loan has made.
    pub fn count(&self) -> u32
        ensures { result ≡ self.now.out.count }
    {
        self.out.count
    }

    /// The processor that has the loan.
    pub fn actor(&self) -> u8
        ensures { result ≡ self.now.actor }
    {
        self.actor
    }

    /// Law: a loan is what was lent, which had made no step, after a run of the steps that it counts.
    #[tactic(auto, using(crate::proofs::RunLemmas::advanced))]
    pub fn facts(&self)
        ensures run { IsRunOf self.now.lent self.now.out }
        ensures fresh { HasMadeNoStep self.now.lent }
        ensures steps { IsAdvanced self.now.lent self.now.out }
    {
        let _out = &self.out;
    }
}
