//! Bytes that are watched.

ghost use Rattle.std.specs.Prelude.{◌≡◌, ◌+◌, ◌++◌, Some, None, IfErr, IfOk, OnErr, OnOk};
ghost use Rattle.std.specs.List.{list_any};
ghost use Rattle.mx_app_look.specs.Watches.{is_watch, place_at, places_of, watch_set, with_watch, without_watch};
ghost use Rattle.mx_debug.specs.declared.error.DebugError.TheVariants as errors;

use arrayvec::ArrayVec;
use mx_debug::DebugError;
use mx_proc::Slot;
use mx_walk::BytePlace;
use std::alloc::{AllocError, Global};
use std::marker::Model;

/// How many bytes a watch has at most.
const MOST_BYTES: u32 = 16;

/// Bytes of the memory of a slot's process, whoever that is, from an address on.
#[derive(Clone, Copy, Default)]
pub struct Watch {
    pub slot: Slot,
    pub address: u32,
    pub count: u32,
}

/// Watches, eight at most over all slots. Takes no memory.
#[derive(Drop)]
pub struct Watches {
    watches: ArrayVec<Watch, 8>,
}

impl Model for Watches {
    ghost use Rattle.std.specs.Prelude.{List};
    ghost use Rattle.mx_app_look.specs.declared.watches.Watch.{Watch};

    ghost Value = { List Watch };

    ghost view = { λ w. w.watches.items };
}

impl Watches {
    ghost use Rattle.std.specs.Prelude.{[]};

    /// No watch.
    pub fn new() -> Watches
        ensures { result ≡ [] }
    {
        Watches {
            watches: ArrayVec::new(),
        }
    }

    /// The watches that are set, in the order in which they were.
    pub fn as_slice(&self) -> &[Watch]
        ensures { result.now ≡ self.now }
    {
        self.watches.as_slice()
    }

    /// Whether the same bytes are watched.
    fn has(&self, watch: Watch) -> bool
        ensures { result ≡ list_any (is_watch watch) self.now }
    {
        self.watches
            .as_slice()
            .iter()
            .any(|other| is_watch(watch, other))
    }

    /// Adds a watch; one that is there already isn't added again. Refuses a ninth, and then changes nothing.
    pub fn add(&mut self, watch: Watch) -> Result<(), DebugError>
        ensures added { OnOk result (with_watch self.old watch ≡ Some self.new) }
        ensures full { OnErr result (with_watch self.old watch ≡ None) }
        ensures unchanged { OnErr result (self.new ≡ self.old) }
        ensures error { IfErr result (λ e. e ≡ errors.TooMany) }
    {
        if self.has(watch) {
            return Ok(());
        }
        if self.watches.is_full() {
            return Err(DebugError::TooMany);
        }
        self.watches.push(watch);
        Ok(())
    }

    /// Watches bytes of a slot's process, whose memory has `limit` bytes. Refuses if they are none or more than
    /// 16, if the first of them is past the memory, or if it would be the ninth watch, and then changes
    /// nothing.
    pub fn set(&mut self, watch: Watch, limit: usize) -> Result<(), DebugError>
        ensures { watch_set self.old limit watch ≡ (result, self.new) }
    {
        if watch.count == 0 || watch.count > MOST_BYTES || watch.address as usize >= limit {
            return Err(DebugError::NotHere);
        }
        self.add(watch)
    }

    /// Watches these bytes no more, if they are watched.
    pub fn remove(&mut self, watch: Watch)
        ensures { self.new ≡ without_watch self.old watch }
    {
        self.watches.retain(|other| !is_watch(watch, other));
    }
}

/// Whether two watches are of the same bytes.
fn is_watch(watch: Watch, other: &Watch) -> bool
    ensures { result ≡ is_watch watch other.now }
{
    other.slot == watch.slot && other.address == watch.address && other.count == watch.count
}

/// Appends the place of a watch's byte, that many bytes after the first; there is none after the last address.
fn push_place(places: &mut Vec<BytePlace>, watch: Watch, offset: u32) -> Result<(), AllocError>
    ensures { OnOk result (places.new.items ≡ places.old.items
        ++ place_at watch.slot (watch.address + offset)) }
{
    if let Some(address) = watch.address.checked_add(offset) {
        places.push(BytePlace {
            slot: watch.slot,
            address,
        })?;
    }
    Ok(())
}

/// The places of a watch's bytes.
pub(crate) fn places_of(alloc: Global, watch: Watch) -> Result<Vec<BytePlace>, AllocError>
    ensures { IfOk result (λ places. places.items ≡ places_of watch) }
{
    let mut places = Vec::new(alloc);
    for offset in 0..watch.count {
        push_place(&mut places, watch, offset)?;
    }
    Ok(places)
}
