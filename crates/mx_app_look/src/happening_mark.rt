//! What a search back looks for: the events in which something happens.

ghost use Rattle.std.specs.Prelude.{◌≡◌};
ghost use Rattle.mx_look.specs.Glances.{glance_of};
ghost use Rattle.mx_machine.specs.Machine.{world_of};
ghost use Rattle.mx_app_look.specs.Happenings.{own_record};

use crate::happening::{Happening, happens};
use mx_look::{Glance, Transition};
use mx_machine::{Event, Machine, Out, Recorded, recorded_as};
use mx_walk::Mark;

/// An event as a record has it. A step is no record's own.
fn own_record(event: Event) -> Option<Recorded>
    ensures { result ≡ own_record event }
{
    match event {
        Event::Step => None,
        _ => Some(recorded_as(event)),
    }
}

/// Marks each event in which something happens.
#[derive(Drop)]
pub(crate) struct HappeningMark {
    pub happening: Happening,
    /// The machine, the actor and the event, as they were seen last.
    before: Glance,
    actor: u8,
    event: Option<Recorded>,
}

impl HappeningMark {
    /// What marks each event in which it happens.
    pub fn new(machine: &Machine, happening: Happening) -> HappeningMark
        ensures { result.happening ≡ happening }
    {
        HappeningMark {
            happening,
            before: Glance::of(machine),
            actor: 0,
            event: None,
        }
    }
}

impl Mark for HappeningMark {
    ghost use Rattle.std.specs.Prelude.{◌≡◌, false};
    ghost use Rattle.mx_app_look.specs.Happenings.{is_happening, own_record};
    ghost use Rattle.mx_app_look.specs.Seen.{HasSeenBefore};

    ghost marks = { λ mark w x u. is_happening mark.happening w x u };

    ghost marks_step = { λ mark l o. false };

    ghost HasSeen = { λ mark w x. (mark.event ≡ own_record x.1)
        × HasSeenBefore w x.0 (own_record x.1) mark.before mark.actor };

    ghost HasSeenHeld = { λ mark l. Unit {0} };

    fn steps_are_marked() {}

    fn look(&mut self, machine: &Machine, actor: u8, event: Event) {
        self.event = own_record(event);
        self.actor = actor;
        if self.event.is_some() {
            self.before.look(machine);
        }
    }

    fn is_met(&self, machine: &Machine) -> bool {
        let Some(event) = self.event else {
            return false;
        };
        let transition = Transition {
            number: 0,
            before: self.before,
            actor: self.actor,
            event,
            after: Glance::of(machine),
        };
        happens(self.happening, &transition)
    }

    fn watches(&self, _slot: u8) -> bool {
        false
    }

    fn is_of_memory(&self, _slot: u8) -> bool {
        false
    }

    fn look_at(&mut self, _slot: u8, _out: &Out) {}

    fn look_again(&mut self, _slot: u8, _out: &Out) -> bool {
        false
    }
}
