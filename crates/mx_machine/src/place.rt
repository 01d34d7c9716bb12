//! The places of a machine for what its processors hold.

ghost use Rattle.std.specs.Prelude.{◌≡◌, Some, None, IfOk, IfErr, OnOk, OnErr, IfSome, IfNone, MatchOption, replicate};
ghost use Rattle.mx_machine.specs.declared.events.Event.TheVariants as events;
ghost use Rattle.mx_machine.specs.declared.history.Recorded.TheVariants as recorded;
ghost use Rattle.mx_machine.specs.declared.holding.Out.{Out};
ghost use Rattle.mx_machine.specs.Agrees.{IsEventAccepted, IsEventRefused};
ghost use Rattle.mx_machine.specs.Held.{IsBack};
ghost use Rattle.mx_machine.specs.History.{replay, with_record};
ghost use Rattle.mx_machine.specs.Move.{world_after_event, with_held};
ghost use Rattle.mx_machine.specs.World.{HeldProcess, held_by};

use crate::{Kernel, Out, Refusal};
use std::alloc::Global;
use std::marker::Model;

/// A place for what a processor holds. Its `Out` is there for good, with a blank image while nothing is held: so an
/// image goes from the table to the place and back, and nowhere else.
#[derive(Drop)]
pub(crate) struct Place {
    pub(crate) is_held: bool,
    pub(crate) out: Out,
}

impl Model for Place {
    ghost use Rattle.std.specs.Prelude.{Option, Some, None, if◌then◌else◌};
    ghost use Rattle.mx_machine.specs.declared.holding.Out.{Out};

    ghost Value = { Option Out };

    ghost view = { λ p. if p.is_held then Some p.out else None };
}

/// The places of a machine whose processors hold nothing. Takes no memory.
pub(crate) fn no_outs(alloc: Global) -> [Place; 8]
    ensures { result ≡ replicate 8 None }
{
    [
        Place::new(alloc),
        Place::new(alloc),
        Place::new(alloc),
        Place::new(alloc),
        Place::new(alloc),
        Place::new(alloc),
        Place::new(alloc),
        Place::new(alloc),
    ]
}

impl Place {
    /// A place in which nothing is. Takes no memory.
    pub(crate) fn new(alloc: Global) -> Place
        ensures { result ≡ None }
    {
        Place {
            is_held: false,
            out: Out::idle(alloc),
        }
    }

    /// What is in it.
    pub(crate) fn held(&self) -> Option<&Out>
        ensures { MatchOption result (self.now ≡ None) (λ out. self.now ≡ Some out.now) }
    {
        if self.is_held { Some(&self.out) } else { None }
    }

    /// What a processor takes goes into its place. Answers its budget.
    pub(crate) fn take(&mut self, kernel: &mut Kernel, cpu: u8) -> Result<u32, Refusal>
        ensures ok { OnOk result
            (IsEventAccepted kernel.old kernel.new cpu events.Take recorded.Take) }
        ensures lent { IfOk result (λ budget. (l : HeldProcess)
            × (held_by (replay kernel.new) cpu ≡ Some l) × (self.new ≡ Some l.out)
            × (budget ≡ l.out.budget)) }
        ensures err { IfErr result (λ refusal.
            IsEventRefused kernel.old kernel.new cpu events.Take refusal) }
        ensures same { OnErr result (self.new ≡ self.old) }
    {
        kernel.take_into(cpu, &mut self.out)?;
        self.is_held = true;
        Ok(self.out.budget)
    }

    /// What a processor brings back leaves its place, if anything is there. Answers the steps of the run.
    pub(crate) fn back(&mut self, kernel: &mut Kernel, cpu: u8) -> Option<u32>
        requires { IfSome self.old (λ out. (l : HeldProcess)
            × (held_by (replay kernel.old) cpu ≡ Some l) × IsBack l.out out) }
        ensures empty { self.new ≡ None }
        ensures none { IfNone result ((self.old ≡ None) × (kernel.new ≡ kernel.old)) }
        ensures some { IfSome result (λ count. (out : Out) × (self.old ≡ Some out)
            × (count ≡ out.count)
            × (kernel.new ≡ with_record kernel.old cpu (recorded.Back out.count))
            × ((l : HeldProcess) → held_by (replay kernel.old) cpu ≡ Some l
            → replay kernel.new ≡ world_after_event
            (with_held (replay kernel.old) cpu (Some (record l { out = out }))) cpu events.Back)) }
    {
        if !self.is_held {
            return None;
        }
        let count = kernel.back_from(cpu, &mut self.out);
        self.is_held = false;
        Some(count)
    }
}
