//! The blocked sends: who sends to whom, in order of blocking, with a caller queue for each slot.

ghost use Rattle.std.specs.Prelude.{ℕ, ◌≡◌, ◌<◌, ◌≤◌, [], ◌∷◌, ◌++◌, length, map, slice_get, IfSome};
ghost use Rattle.mx_proc.specs.declared.process.Partner.TheVariants.{Any, Only};
ghost use Rattle.mx_proc.specs.Waits.{sends_of, without_from, next_of, caller_of, walk};

use crate::links::Links;
use crate::process::{Partner, Source};
use std::marker::Model;

/// The entry in `to` of a slot that sends to nobody.
const NOBODY: u8 = 255;

/// The blocked sends: who sends, in order of blocking, and to whom. Each slot has a caller queue: the slots
/// that send to it. The time of a call doesn't depend on how many sends there are, except that of
/// `reaches`.
#[derive(Drop)]
pub struct Waits {
    /// One list: all that send.
    order: Links<1>,
    callers: Links<32>,
    to: [u8; 32],
    count: u8,
}

impl Model for Waits {
    ghost use Rattle.std.specs.Prelude.{List, ℕ};
    ghost use Rattle.mx_proc.specs.Queues.{list_at};
    ghost use Rattle.mx_proc.specs.Callers.{pairs_of, AreCallers};

    ghost Value = { List (ℕ × ℕ) };

    ghost view = { λ q. pairs_of q.to (list_at q.order 0) };

    ghost invariant = { λ q. AreCallers q.to q.order q.callers q.count };
}

impl Waits {
    /// No blocked sends: nobody waits.
    pub fn new() -> Waits
        ensures { result ≡ [] }
    {
        Waits {
            order: Links::new(),
            callers: Links::new(),
            to: [NOBODY; 32],
            count: 0,
        }
    }

    /// The same blocked sends.
    pub fn copied(&self) -> Waits
        ensures { result ≡ self.now }
    {
        Waits {
            order: self.order.copied(),
            callers: self.callers.copied(),
            to: self.to,
            count: self.count,
        }
    }

    /// Blocks the send of `from` to `to`, after all others. `from` must have no blocked send before.
    pub fn push(&mut self, from: u8, to: u8)
        requires from { from < 32 }
        requires to { to < 32 }
        requires absent { sends_of from self.old ≡ 0 }
        ensures { self.new ≡ self.old ++ (from, to) ∷ [] }
    {
        self.order.push_back(0, from);
        self.callers.push_back(to as usize, from);
        self.to[from as usize] = to;
        self.count += 1;
    }

    /// Takes away the blocked send of a slot. The others stay in their order.
    pub fn remove(&mut self, from: u8)
        requires { 1 ≤ sends_of from self.old }
        ensures { self.new ≡ without_from from self.old }
    {
        let to = self.to[from as usize];
        self.order.remove(0, from);
        self.callers.remove(to as usize, from);
        self.to[from as usize] = NOBODY;
        self.count -= 1;
    }

    /// The slot that sends at a place of the order of blocking: at place 0 the one that waits longest. `None` if
    /// fewer wait.
    pub fn get(&self, place: u8) -> Option<u8>
        ensures value { result ≡ slice_get (map (λ (p : ℕ × ℕ). p.0) self.now) place }
        ensures few { IfSome result (λ s. place < 32) }
    {
        self.order.get(0, place)
    }

    /// The slot that `from` sends to, or `None` if it has no blocked send.
    pub fn next(&self, from: u8) -> Option<u8>
        ensures { result ≡ next_of from self.now }
    {
        let receivers = &self.to;
        if from >= 32 {
            return None;
        }
        let to = receivers[from as usize];
        if to == NOBODY { None } else { Some(to) }
    }

    /// The first slot in the caller queue of `to`, if there is one.
    fn first_caller(&self, to: u8) -> Option<u8>
        ensures { result ≡ caller_of to Any self.now }
    {
        if to < 32 {
            self.callers.first(to as usize)
        } else {
            None
        }
    }

    /// The slot that is this source, if it has a blocked send to `to`.
    fn caller_from(&self, to: u8, source: Source) -> Option<u8>
        ensures { result ≡ caller_of to (Only source) self.now }
    {
        // Here no slot waits twice.
        let _order = &self.order;
        match source {
            Source::Hardware => None,
            Source::Clock => None,
            Source::Slot(from) => match self.next(from) {
                Some(other) => { if other == to { Some(from) } else { None } }
                None => None,
            },
        }
    }

    /// The first slot with a blocked send to `to` that the partner allows, or `None`.
    pub fn caller(&self, to: u8, partner: Partner) -> Option<u8>
        ensures { result ≡ caller_of to partner self.now }
    {
        match partner {
            Partner::Any => self.first_caller(to),
            Partner::System => None,
            Partner::Only(source) => self.caller_from(to, source),
        }
    }

    /// Whether blocked sends lead from one slot to another. For example, slot 1 sends to 2, and 2 sends to
    /// 3: then 1 reaches 3. The time grows with the number of blocked sends.
    pub fn reaches(&self, from: u8, to: u8) -> bool
        ensures { result ≡ walk (length self.now) self.now from to }
    {
        let mut at = from;
        for _step in 0..self.count {
            match self.next(at) {
                Some(next) => {
                    if next == to {
                        return true;
                    }
                    at = next;
                }
                None => return false,
            }
        }
        false
    }
}
