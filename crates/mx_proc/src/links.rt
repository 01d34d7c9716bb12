//! Lists of slots, doubly linked by index: the ready lists and the caller queues are such lists.
//!
//! A slot is in at most one list, and there are 32 slots. So a link is a byte in an array, at the slot's index, and the
//! lists take no memory after boot. To put a slot at an end or to take it out of the middle is some writes, however
//! many are in the list; MINIX's own queues, linked in one direction, are searched for that.
//!
//! A `Way` is one direction, and `Links` has two. The invariant: from each end the links lead through the same slots,
//! in one order and in the other. A contract sees `Links` as a list of lists of slots. The two directions are alike, so
//! `push` and its like are written once, for both ends.

ghost use Rattle.std.specs.Prelude.{◌≡◌, ◌≢◌, ◌<◌, ◌≤◌, [], ◌∷◌, ◌++◌, replicate, slice_get, slice_index, slice_set, IfSome};
ghost use Rattle.mx_proc.specs.Chains.{firsts_with, nexts_with};
ghost use Rattle.mx_proc.specs.Queues.{without, list_at, times, InNoList};

use std::marker::Model;

/// The link that leads to no slot.
const NONE: u8 = 255;

/// The index of the first slot's cell.
const SLOTS: usize = 32;

/// One direction through the lists. Cell l has the slot that list l begins with, and cell `SLOTS` + s has
/// the slot after slot s. Both are cells of one array, so that `lead` sets either of them by one write.
#[derive(Drop)]
struct Way<const LISTS: usize> {
    cells: [u8; 64],
}

impl<const LISTS: usize> Model for Way<LISTS> {
    ghost use Rattle.std.specs.Prelude.{◌≤◌};
    ghost use Rattle.mx_proc.specs.Chains.{WayState, way_of};

    ghost Value = { WayState };

    ghost view = { λ w. way_of LISTS w.cells };

    ghost invariant = { λ w. LISTS ≤ 32 };
}

impl<const LISTS: usize> Way<LISTS> {
    /// Empty lists.
    fn new() -> Way<LISTS>
        requires lists { LISTS ≤ 32 }
        ensures firsts { result.firsts ≡ replicate LISTS 255 }
        ensures nexts { result.nexts ≡ replicate 32 255 }
    {
        Way { cells: [NONE; 64] }
    }

    /// The same lists.
    fn copied(&self) -> Way<LISTS>
        ensures { result ≡ self.now }
    {
        Way { cells: self.cells }
    }

    /// The slot that a list begins with, or `NONE`.
    fn first(&self, list: usize) -> u8
        requires list { list < LISTS }
        ensures { result ≡ slice_index self.now.firsts list }
    {
        self.cells[list]
    }

    /// The slot after this one, or `NONE`.
    fn next(&self, slot: u8) -> u8
        requires slot { slot < 32 }
        ensures { result ≡ slice_index self.now.nexts slot }
    {
        self.cells[SLOTS + slot as usize]
    }

    /// Sets the slot that a list begins with.
    fn set_first(&mut self, list: usize, first: u8)
        requires list { list < LISTS }
        ensures firsts { self.new.firsts ≡ slice_set self.old.firsts list first }
        ensures nexts { self.new.nexts ≡ self.old.nexts }
    {
        self.cells[list] = first;
    }

    /// Sets the next of a slot.
    fn set_next(&mut self, slot: u8, next: u8)
        requires slot { slot < 32 }
        ensures firsts { self.new.firsts ≡ self.old.firsts }
        ensures nexts { self.new.nexts ≡ slice_set self.old.nexts slot next }
    {
        self.cells[SLOTS + slot as usize] = next;
    }

    /// Makes `after` come after `before`. If `before` is `NONE`, makes the list begin with `after`.
    fn lead(&mut self, list: usize, before: u8, after: u8)
        requires list { list < LISTS }
        requires before { before ≢ 255 → before < 32 }
        ensures firsts { self.new.firsts ≡ firsts_with self.old.firsts list before after }
        ensures nexts { self.new.nexts ≡ nexts_with self.old.nexts before after }
    {
        let at = if before == NONE {
            list
        } else {
            SLOTS + before as usize
        };
        self.cells[at] = after;
    }
}

/// Puts a slot at one end of a list: at the end at which the direction `near` begins. So both ends share this
/// function: the back is the front with the two directions exchanged.
fn push<const LISTS: usize>(near: &mut Way<LISTS>, far: &mut Way<LISTS>, list: usize, slot: u8)
    requires list { list < LISTS }
    requires slot { slot < 32 }
    requires first { slice_index near.old.firsts list ≢ 255 → slice_index near.old.firsts list
        < 32 }
    ensures firsts { near.new.firsts ≡ slice_set near.old.firsts list slot }
    ensures nexts { near.new.nexts
        ≡ slice_set near.old.nexts slot (slice_index near.old.firsts list) }
    ensures lasts { far.new.firsts
        ≡ firsts_with far.old.firsts list (slice_index near.old.firsts list) slot }
    ensures prevs { far.new.nexts
        ≡ nexts_with (slice_set far.old.nexts slot 255) (slice_index near.old.firsts list) slot }
{
    let first = near.first(list);
    near.set_next(slot, first);
    near.set_first(list, slot);
    far.set_next(slot, NONE);
    far.lead(list, first, slot);
}

/// Lists of slots. A slot is in one of them, or in none. The time of a change doesn't depend on how long
/// the lists are.
#[derive(Drop)]
pub struct Links<const LISTS: usize> {
    forward: Way<LISTS>,
    backward: Way<LISTS>,
}

impl<const LISTS: usize> Model for Links<LISTS> {
    ghost use Rattle.std.specs.Prelude.{List, ℕ};
    ghost use Rattle.mx_proc.specs.Chains.{chains, Linked};

    ghost Value = { List (List ℕ) };

    ghost view = { λ l. chains l.forward.nexts l.forward.firsts };

    ghost invariant = { λ l.
        Linked LISTS l.forward.nexts l.backward.nexts l.forward.firsts l.backward.firsts
        (chains l.forward.nexts l.forward.firsts) };
}

impl<const LISTS: usize> Links<LISTS> {
    /// Linked lists of slots, all empty.
    pub fn new() -> Links<LISTS>
        requires { LISTS ≤ 32 }
        ensures { result ≡ replicate LISTS [] }
    {
        Links {
            forward: Way::new(),
            backward: Way::new(),
        }
    }

    /// The same lists.
    pub fn copied(&self) -> Links<LISTS>
        ensures { result ≡ self.now }
    {
        Links {
            forward: self.forward.copied(),
            backward: self.backward.copied(),
        }
    }

    /// The slot at the front of a linked list.
    pub fn first(&self, list: usize) -> Option<u8>
        requires { list < LISTS }
        ensures { result ≡ slice_get (list_at self.now list) 0 }
    {
        let first = self.forward.first(list);
        if first == NONE { None } else { Some(first) }
    }

    /// The slot at a place of a linked list: at place 0 the one at the front. `None` if the list is not so long.
    /// The time grows with the place.
    pub fn get(&self, list: usize, place: u8) -> Option<u8>
        requires { list < LISTS }
        ensures value { result ≡ slice_get (list_at self.now list) place }
        ensures few { IfSome result (λ s. place < 32) }
    {
        let mut at = self.forward.first(list);
        for _step in 0..place {
            if at == NONE {
                return None;
            }
            at = self.forward.next(at);
        }
        if at == NONE { None } else { Some(at) }
    }

    /// Puts a slot at the front of a list. It must be in no list before.
    pub fn push_front(&mut self, list: usize, slot: u8)
        requires list { list < LISTS }
        requires slot { slot < 32 }
        requires absent { InNoList self.old slot }
        ensures { self.new ≡ slice_set self.old list (slot ∷ list_at self.old list) }
    {
        push(&mut self.forward, &mut self.backward, list, slot);
    }

    /// Puts a slot at the end of a list. It must be in no list before.
    pub fn push_back(&mut self, list: usize, slot: u8)
        requires list { list < LISTS }
        requires slot { slot < 32 }
        requires absent { InNoList self.old slot }
        ensures { self.new ≡ slice_set self.old list (list_at self.old list ++ slot ∷ []) }
    {
        push(&mut self.backward, &mut self.forward, list, slot);
    }

    /// Takes a slot out of its linked list.
    pub fn remove(&mut self, list: usize, slot: u8)
        requires list { list < LISTS }
        requires there { 1 ≤ times slot (list_at self.old list) }
        ensures { self.new ≡ slice_set self.old list (without slot (list_at self.old list)) }
    {
        // Both directions skip the slot. Its own links stay: nobody follows them until it is in a list again.
        let before = self.backward.next(slot);
        let after = self.forward.next(slot);
        self.forward.lead(list, before, after);
        self.backward.lead(list, after, before);
    }
}
