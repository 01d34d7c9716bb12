//! Moves between states and queues. Each leaves a sound table.

ghost use Rattle.std.specs.Prelude.{◌≡◌, ◌≢◌, ℕ, false, true, ◌<◌, ◌≤◌, ◌↔◌, IsTrue, IfSome, length, map, slice_get};
ghost use Rattle.mx_proc.specs.Queues.{first_ready, list_at};
ghost use Rattle.mx_proc.specs.Frame.{frame};
ghost use Rattle.mx_proc.specs.Sound.{HasBuffer};
ghost use Rattle.mx_proc.specs.States.{IsAlone, is_ready, is_sending, is_blocked, is_out};
ghost use Rattle.mx_proc.specs.Waits.{caller_of, next_of, leads, Reaches};
ghost use Rattle.mx_proc.specs.TableState.{process_at, with_state, table_with_first as front_of, table_with_last as end_of, table_after_dequeue, table_after_unblock, table_after_block};

use super::Table;
use crate::process::{Partner, Slot, State};

impl Table {
    /// Sets the state of a process that is in no queue to another state without a queue: to one that waits
    /// for a message, for example.
    pub fn set_state(&mut self, slot: Slot, state: State)
        requires slot { slot < length self.old.slots }
        requires alone { IsAlone (process_at self.old slot).state }
        requires still { IsAlone state }
        requires home { is_out (process_at self.old slot).state ≡ false }
        requires stays { is_out state ≡ false }
        requires inside { is_blocked state ≡ true → HasBuffer (process_at self.old slot) }
        ensures value { self.new ≡ with_state self.old slot state }
        ensures frame { frame self.new ≡ frame self.old }
    {
        let process = &mut self.slots[slot as usize];
        process.state = state;
    }

    /// Makes a process ready, at the front of the list of its level.
    pub fn to_front(&mut self, slot: Slot)
        requires slot { slot < length self.old.slots }
        requires alone { IsAlone (process_at self.old slot).state }
        requires home { is_out (process_at self.old slot).state ≡ false }
        ensures value { self.new ≡ front_of self.old slot }
        ensures frame { frame self.new ≡ frame self.old }
    {
        let process = &mut self.slots[slot as usize];
        process.state = State::Ready;
        let level = process.schedule.level;
        self.ready.push_front(level, slot);
    }

    /// Makes a process ready with a new quantum, at the end of the list nearest to this one of those that its
    /// terms allow.
    pub fn to_end(&mut self, slot: Slot, level: u8)
        requires slot { slot < length self.old.slots }
        requires alone { IsAlone (process_at self.old slot).state }
        requires home { is_out (process_at self.old slot).state ≡ false }
        ensures value { self.new ≡ end_of self.old slot level }
        ensures frame { frame self.new ≡ frame self.old }
    {
        let process = &mut self.slots[slot as usize];
        process.state = State::Ready;
        process.schedule.renew(level);
        let nearest = process.schedule.level;
        self.ready.push_back(nearest, slot);
        self.renewed = Some(slot);
    }

    /// Takes a ready process out of the list of its level. Its state is `Home` after that.
    pub fn unqueue(&mut self, slot: Slot)
        requires slot { slot < length self.old.slots }
        requires ready { is_ready (process_at self.old slot).state ≡ true }
        ensures value { self.new ≡ table_after_dequeue self.old slot }
        ensures frame { frame self.new ≡ frame self.old }
    {
        let process = &mut self.slots[slot as usize];
        process.state = State::Home;
        let level = process.schedule.level;
        self.ready.remove(level, slot);
    }

    /// The slot at the front of the first ready list that isn't empty: of list 0, else of list 1, and so
    /// on.
    pub fn pick(&self) -> Option<Slot>
        ensures value { result ≡ first_ready self.now.ready }
        ensures used { IfSome result (λ s. s < length self.now.slots) }
        ensures ready { IfSome result (λ s. is_ready (process_at self.now s).state ≡ true) }
    {
        self.ready.pick()
    }

    /// The slot at a place of the ready list of a level: at place 0 the one that is picked first of it. `None` if the
    /// list is not so long.
    pub fn ready_at(&self, level: u8, place: u8) -> Option<Slot>
        requires level { level < 16 }
        ensures value { result ≡ slice_get (list_at self.now.ready level) place }
        ensures few { IfSome result (λ s. place < 32) }
    {
        self.ready.get(level, place)
    }

    /// The slot with a blocked send at a place of the order of blocking: at place 0 the one that waits longest. `None`
    /// if fewer wait.
    pub fn waiting_at(&self, place: u8) -> Option<Slot>
        ensures value { result ≡ slice_get (map (λ (p : ℕ × ℕ). p.0) self.now.waits) place }
        ensures few { IfSome result (λ s. place < 32) }
    {
        self.waits.get(place)
    }

    /// Blocks a send of `from` to `to`, after all that are blocked already. Blocked sends must not lead
    /// from `to` back to `from`.
    pub fn block(&mut self, from: Slot, to: Slot, state: State)
        requires slot { from < length self.old.slots }
        requires to { to < length self.old.slots }
        requires apart { from ≢ to }
        requires free { Reaches self.old.waits to from → ⊥ }
        requires alone { IsAlone (process_at self.old from).state }
        requires home { is_out (process_at self.old from).state ≡ false }
        requires still { is_ready state ≡ false }
        requires sends { is_sending state ≡ true }
        requires inside { HasBuffer (process_at self.old from) }
        ensures value { self.new ≡ table_after_block self.old from to state }
        ensures frame { frame self.new ≡ frame self.old }
    {
        let process = &mut self.slots[from as usize];
        process.state = state;
        self.waits.push(from, to);
    }

    /// Takes a blocked send away. The sender's state is `Home` after that.
    pub fn unblock(&mut self, from: Slot)
        requires slot { from < length self.old.slots }
        requires sends { is_sending (process_at self.old from).state ≡ true }
        ensures value { self.new ≡ table_after_unblock self.old from }
        ensures frame { frame self.new ≡ frame self.old }
    {
        let process = &mut self.slots[from as usize];
        process.state = State::Home;
        self.waits.remove(from);
    }

    /// The first slot with a blocked send to `to` that the partner allows, or `None`.
    pub fn caller(&self, to: Slot, partner: Partner) -> Option<Slot>
        ensures value { result ≡ caller_of to partner self.now.waits }
        ensures used { IfSome result (λ p. p < length self.now.slots) }
        ensures sending { IfSome result (λ p. is_sending (process_at self.now p).state ≡ true) }
        ensures buffer { IfSome result (λ p. HasBuffer (process_at self.now p)) }
    {
        self.waits.caller(to, partner)
    }

    /// The slot that `from` sends to, or `None` if it has no blocked send.
    pub fn next(&self, from: Slot) -> Option<Slot>
        ensures { result ≡ next_of from self.now.waits }
    {
        self.waits.next(from)
    }

    /// Whether blocked sends lead from one slot to another. For example, slot 1 sends to 2, and 2 sends to 3:
    /// then 1 reaches 3.
    pub fn reaches(&self, from: Slot, to: Slot) -> bool
        ensures value { result ≡ leads self.now.waits from to }
        ensures law { IsTrue result ↔ Reaches self.now.waits from to }
    {
        self.waits.reaches(from, to)
    }
}
