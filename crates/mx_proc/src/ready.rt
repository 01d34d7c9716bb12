//! The sixteen ready lists of the table, and which of them have a slot.

ghost use Rattle.std.specs.Prelude.{◌≡◌, ◌<◌, ◌≤◌, [], ◌∷◌, ◌++◌, slice_get, slice_set, replicate, IfSome};
ghost use Rattle.mx_proc.specs.Queues.{InNoList, without, list_at, first_ready, times};

use crate::links::Links;
use std::marker::Model;

/// The ready lists of slots, list 0 first, which is the highest; and a word whose bit l is set if list l
/// isn't empty. The time of a call doesn't depend on how many slots there are.
#[derive(Drop)]
pub struct Ready {
    lists: Links<16>,
    filled: u16,
}

impl Model for Ready {
    ghost use Rattle.std.specs.Prelude.{List, ℕ};
    ghost use Rattle.mx_proc.specs.Queues.{AreFilled};

    ghost Value = { List (List ℕ) };

    ghost view = { λ r. r.lists };

    ghost invariant = { λ r. AreFilled r.filled r.lists };
}

impl Ready {
    /// Sixteen ready lists, all empty.
    pub fn new() -> Ready
        ensures { result ≡ replicate 16 [] }
    {
        Ready {
            lists: Links::new(),
            filled: 0,
        }
    }

    /// The same ready lists.
    pub fn copied(&self) -> Ready
        ensures { result ≡ self.now }
    {
        Ready {
            lists: self.lists.copied(),
            filled: self.filled,
        }
    }

    /// Puts a slot at the front of a list. It must be in no list before.
    pub fn push_front(&mut self, level: u8, slot: u8)
        requires level { level < 16 }
        requires slot { slot < 32 }
        requires absent { InNoList self.old slot }
        ensures { self.new ≡ slice_set self.old level (slot ∷ list_at self.old level) }
    {
        self.lists.push_front(level as usize, slot);
        self.filled |= 1 << level;
    }

    /// Puts a slot at the end of a list. It must be in no list before.
    pub fn push_back(&mut self, level: u8, slot: u8)
        requires level { level < 16 }
        requires slot { slot < 32 }
        requires absent { InNoList self.old slot }
        ensures { self.new ≡ slice_set self.old level (list_at self.old level ++ slot ∷ []) }
    {
        self.lists.push_back(level as usize, slot);
        self.filled |= 1 << level;
    }

    /// Takes a slot out of its ready list.
    pub fn remove(&mut self, level: u8, slot: u8)
        requires level { level < 16 }
        requires there { 1 ≤ times slot (list_at self.old level) }
        ensures { self.new ≡ slice_set self.old level (without slot (list_at self.old level)) }
    {
        self.lists.remove(level as usize, slot);
        if self.lists.first(level as usize).is_none() {
            self.filled &= !(1 << level);
        }
    }

    /// The slot at the front of the first ready list that isn't empty: of list 0, else of list 1, and so
    /// on.
    pub fn pick(&self) -> Option<u8>
        ensures { result ≡ first_ready self.now }
    {
        let filled = self.filled;
        if filled == 0 {
            return None;
        }
        self.lists.first(filled.trailing_zeros() as usize)
    }

    /// The slot at a place of a list: at place 0 the one at the front. `None` if the list is not so long.
    pub fn get(&self, level: u8, place: u8) -> Option<u8>
        requires { level < 16 }
        ensures value { result ≡ slice_get (list_at self.now level) place }
        ensures few { IfSome result (λ s. place < 32) }
    {
        self.lists.get(level as usize, place)
    }
}
