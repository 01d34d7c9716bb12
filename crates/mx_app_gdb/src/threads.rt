//! Which processes gdb has, and which of them it asks about.

ghost use Rattle.std.specs.Prelude.{◌≡◌, Some};
ghost use Rattle.mx_app_gdb.specs.Threads.{counts, goes_by, is_only, is_seen, named_slot, read_by, thread_of, threads_at};
ghost use Rattle.mx_app_gdb.specs.Replied.{has_any, left_by};

use mx_proc::Slot;
use mx_rsp::{ThreadName, Which};

/// Which processes gdb has: that of a slot has the slot's number and one. And which of them it asks about.
#[derive(Clone, Copy)]
pub struct Threads {
    /// How many slots there are.
    pub count: Slot,
    /// The slot that is read.
    pub reads: Slot,
    /// The slot that goes, if it is another one than is read.
    pub goes: Option<Slot>,
    /// Whether gdb names processes.
    pub names: bool,
    /// The slot that it has, if it has only one.
    pub only: Option<Slot>,
    /// The slots that it has left.
    pub gone: [bool; 32],
}

/// Whether a slot may be seen, where only one may, or each.
fn is_only(only: Option<Slot>, slot: Slot) -> bool
    ensures { result ≡ is_only only slot }
{
    match only {
        Some(one) => one == slot,
        None => true,
    }
}

impl Threads {
    /// Those of a machine of so many slots, or only one of them.
    pub fn new(count: Slot, only: Option<Slot>) -> Threads
        ensures { result ≡ threads_at count only }
    {
        Threads {
            count,
            reads: only.unwrap_or(0),
            goes: None,
            names: false,
            only,
            gone: [false; 32],
        }
    }

    /// Whether gdb has a slot's process.
    pub fn is_seen(self, slot: Slot) -> bool
        ensures { result ≡ is_seen self slot }
    {
        slot < self.count && is_only(self.only, slot) && slot < 32 && !self.gone[slot as usize]
    }

    /// The slot of a process's number, if gdb has it.
    pub fn named(self, number: u32) -> Option<Slot>
        ensures { result ≡ named_slot self number }
    {
        let slot = u8::try_from(number.checked_sub(1)?).ok()?;
        if self.is_seen(slot) { Some(slot) } else { None }
    }

    /// The slot that a request is about which names so: of any one, and of all, the one that is read.
    pub fn read_by(self, which: Which) -> Option<Slot>
        ensures { result ≡ read_by self which }
    {
        match which {
            Which::One(number) => self.named(number),
            Which::Any | Which::All => Some(self.reads),
        }
    }

    /// The slot that goes.
    pub fn goer(self) -> Slot
        ensures { result ≡ goes_by self }
    {
        self.goes.unwrap_or(self.reads)
    }

    /// The name of a slot's thread.
    pub fn thread_of(self, slot: Slot) -> ThreadName
        ensures { result ≡ thread_of self slot }
    {
        ThreadName {
            number: u32::from(slot) + 1,
            with_process: self.names,
        }
    }

    /// With a slot that gdb has left.
    pub fn without(self, slot: Slot) -> Threads
        ensures { result ≡ left_by self (Some slot) }
    {
        let mut gone = self.gone;
        if slot < 32 {
            gone[slot as usize] = true;
        }
        Threads { gone, ..self }
    }

    /// Whether gdb has any process.
    pub fn has_any(self) -> bool
        ensures { result ≡ has_any self }
    {
        for slot in 0..32u8 {
            if self.is_seen(slot) {
                return true;
            }
        }
        false
    }
}

/// Whose points and faults a move halts at.
#[derive(Clone, Copy)]
pub struct Counted {
    pub threads: Threads,
    /// Only this slot's, or else those of all that gdb has.
    pub only: Option<Slot>,
}

impl Counted {
    /// Whether those of a slot's process count.
    pub fn counts(self, slot: Slot) -> bool
        ensures { result ≡ counts self slot }
    {
        self.threads.is_seen(slot) && is_only(self.only, slot)
    }
}
