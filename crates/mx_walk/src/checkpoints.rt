//! Checkpoints along a history: where they are taken, what they take, and how a machine is made from one.
//!
//! # Where they are
//!
//! A checkpoint saves the steps before it, and costs two copies of the machine: one when it is taken, one each time that
//! a machine is made from it. So along a history they are at equal distances that are worth a copy: a copy of as many
//! bytes takes a tenth of the time of as many steps. There are at most `MOST_CHECKPOINTS`, and they take at most
//! `MOST_BYTES`, so a step back takes a sixtieth of the whole walk at most, if that is long. One more is near where a
//! session last went back: it makes a second step back at one place quick, however long the history is.

ghost use Rattle.std.specs.Prelude.{◌≡◌, ◌+◌, ◌-◌, ◌^◌, ◌<◌, ◌≤◌, [], IfOk, IfSome, MatchOption, None, length, slice_index_or};
ghost use Rattle.mx_machine.specs.Machine.{world_of};
ghost use Rattle.mx_machine.specs.World.{actors};
ghost use Rattle.mx_walk.specs.Checkpoints.{AreStored, IsStored, positions_of};
ghost use Rattle.mx_walk.specs.Sizes.{checkpoint_bytes, image_bytes, most_checkpoints, most_of, segment_bytes, text_bytes};
ghost use Rattle.mx_walk.specs.declared.checkpoints.Stored.{Stored};
ghost use Rattle.mx_walk.specs.Positions.{IsAt, IsPosition, IsUpTo, first};
ghost use Rattle.mx_walk.specs.Walks.{checkpoint_before};

use crate::{FIRST, Position, is_up_to, steps_in};
use mx_exec::{Code, Image};
use mx_machine::{Checkpoint, Machine, Record};
use mx_word::NoMemory;
use std::alloc::Global;

/// The most checkpoints of a walker.
pub const MOST_CHECKPOINTS: u128 = 63;
/// The most bytes that they take in all: 256 MiB.
pub const MOST_BYTES: u128 = 0x1000_0000;
/// How long a record takes in addition to its steps, in steps: 0.25 microseconds, where a step takes 3.3 nanoseconds.
const RECORD_COST: u32 = 76;
/// How far from each other the checkpoints along a history are at least, in steps: some 3 milliseconds.
const LEAST_DISTANCE: u64 = 1_000_000;
/// How far the near checkpoint is from where a session went back to, in steps.
const NEAR_DISTANCE: u32 = 100_000;
/// What a page of a segment takes: its bytes, its place in the list of pages, and what an allocation adds.
const PAGE_BYTES: u128 = 4_096 + 32;
/// What a slot takes in addition to its pages, whether its process is on a processor or not.
const SLOT_BYTES: u128 = 4_096;
/// What the table takes in addition to its slots: the console, the last deliveries and the devices.
const TABLE_BYTES: u128 = 65_536;
/// What a record takes in a machine that is made from a checkpoint.
const RECORD_BYTES: u64 = 8;

/// A checkpoint, and the position at which it was taken.
#[derive(Drop)]
pub(crate) struct Stored {
    pub position: Position,
    pub checkpoint: Checkpoint,
}

/// The checkpoints of a walker.
#[derive(Drop)]
pub(crate) struct Stock {
    /// Those along the history, in the order of their positions.
    pub along: Vec<Stored>,
    /// The one near the position that the walker last went back to.
    pub near: Option<Stored>,
    /// How many there may be.
    pub most: usize,
}

/// What a segment of this many bytes takes.
fn segment_bytes(limit: usize) -> u128
    ensures value { result ≡ segment_bytes limit }
    ensures few { result ≤ 2 ^ 65 }
{
    (limit as u128 / 4_096 + 1) * PAGE_BYTES
}

/// What a text of its own takes.
fn text_bytes(code: &Code) -> u128
    ensures value { result ≡ text_bytes code.now }
    ensures few { result ≤ 2 ^ 65 }
{
    match code {
        Code::Separate(text) => segment_bytes(text.limit()),
        Code::Shared => 0,
    }
}

/// What a copy of an image takes.
fn image_bytes(image: &Image) -> u128
    ensures value { result ≡ image_bytes image.now }
    ensures few { result ≤ 2 ^ 66 }
{
    segment_bytes(image.memory.limit()) + text_bytes(&image.code)
}

/// What a checkpoint of a machine takes, whether its processes are on processors or not, if each is as long as now.
fn checkpoint_bytes(machine: &Machine) -> u128
    ensures value { result ≡ checkpoint_bytes (world_of machine.now) }
    ensures some { 65536 ≤ result }
{
    let table = machine.kernel().table();
    let mut bytes = TABLE_BYTES;
    for slot in 0..table.slot_count() {
        bytes += SLOT_BYTES + image_bytes(&table.process(slot).image);
    }
    bytes
}

/// How many checkpoints a walker has, if one takes this many bytes.
fn most_of(bytes: u128) -> usize
    requires { 0 < bytes }
    ensures { result ≡ most_of bytes }
{
    MOST_CHECKPOINTS.min(MOST_BYTES / bytes) as usize
}

/// How far from each other checkpoints along these records are at least, in steps, if one takes this many bytes: a step
/// for each byte of a machine that is made from one.
fn least_distance(bytes: u128, records: &[Record]) -> u64 {
    let bytes = u64::try_from(bytes).unwrap_or(u64::MAX);
    let records = RECORD_BYTES.saturating_mul(records.len() as u64);
    bytes.saturating_add(records).max(LEAST_DISTANCE)
}

/// How long a record takes, in steps.
fn cost(entry: Record) -> u64 {
    u64::from(RECORD_COST) + u64::from(steps_in(entry.event))
}

/// How long these records take, in steps.
fn cost_of_all(records: &[Record]) -> u64 {
    let mut total: u64 = 0;
    for entry in records {
        total = total.saturating_add(cost(*entry));
    }
    total
}

/// A checkpoint of a machine at a position. None if there is no memory for it.
pub(crate) fn store(
    alloc: Global,
    machine: &Machine,
    records: &[Record],
    at: Position,
) -> Option<Stored>
    requires there { IsAt machine.now.kernel.boot records.now at machine.now }
    requires actors { actors (world_of machine.now) ≡ actors machine.now.kernel.boot }
    ensures { IfSome result (λ stored. IsStored machine.now.kernel.boot records.now stored) }
{
    // The machine is made again with these records, so they have to be its own.
    if machine.kernel().history() != &records[..at.records] {
        return None;
    }
    match Checkpoint::new(alloc, machine) {
        Ok(checkpoint) => Some(Stored {
            position: at,
            checkpoint,
        }),
        Err(_) => None,
    }
}

/// Adds a checkpoint of a machine at a position, if there is memory for it.
fn add(
    alloc: Global,
    machine: &Machine,
    records: &[Record],
    at: Position,
    checkpoints: &mut Vec<Stored>,
)
    requires there { IsAt machine.now.kernel.boot records.now at machine.now }
    requires actors { actors (world_of machine.now) ≡ actors machine.now.kernel.boot }
    requires stored { AreStored machine.now.kernel.boot records.now checkpoints.old.items }
    ensures stored { AreStored machine.now.kernel.boot records.now checkpoints.new.items }
    ensures one { length checkpoints.new.items ≤ length checkpoints.old.items + 1 }
{
    if let Some(stored) = store(alloc, machine, records, at) {
        // Without it a walk back is longer, and nothing else.
        let _added = checkpoints.push(stored);
    }
}

/// The checkpoints that a walk takes.
#[derive(Drop)]
pub(crate) struct Checkpoints {
    /// How many there may be, with the near one, for which one is left.
    pub most: usize,
    /// How far they are from each other, in steps.
    pub distance: u64,
    /// How far the walk is from the last one, or from the first position.
    pub passed: u64,
    pub alloc: Global,
    pub taken: Vec<Stored>,
}

impl Checkpoints {
    /// None yet. They will be taken at equal distances along these records, if the walk is a long one.
    pub(crate) fn plan(alloc: Global, machine: &Machine, records: &[Record]) -> Checkpoints
        ensures none { result.taken.items ≡ [] }
        ensures most { result.most ≡ most_checkpoints (world_of machine.now) }
    {
        let bytes = checkpoint_bytes(machine);
        let most = most_of(bytes);
        let equal = cost_of_all(records) / (most as u64).max(1);
        Checkpoints {
            most,
            distance: equal.saturating_add(1).max(least_distance(bytes, records)),
            passed: 0,
            alloc,
            taken: Vec::new(alloc),
        }
    }

    /// The walk has passed a record: takes a checkpoint, if it is far enough from the last one.
    pub(crate) fn pass(
        &mut self,
        machine: &Machine,
        records: &[Record],
        at: Position,
        entry: Record,
    )
        requires there { IsAt machine.now.kernel.boot records.now at machine.now }
        requires actors { actors (world_of machine.now) ≡ actors machine.now.kernel.boot }
        requires stored { AreStored machine.now.kernel.boot records.now self.old.taken.items }
        requires few { length self.old.taken.items ≤ self.old.most - 1 }
        ensures stored { AreStored machine.now.kernel.boot records.now self.new.taken.items }
        ensures few { length self.new.taken.items ≤ self.new.most - 1 }
        ensures most { self.new.most ≡ self.old.most }
    {
        self.passed = self.passed.saturating_add(cost(entry));
        if self.passed >= self.distance && self.taken.len() + 1 < self.most {
            add(self.alloc, machine, records, at, &mut self.taken);
            self.passed = 0;
        }
    }

    /// The checkpoints that were taken, and no near one.
    pub(crate) fn into_stock(self) -> Stock
        ensures along { result.along.items ≡ self.taken.items }
        ensures near { result.near ≡ None }
        ensures most { result.most ≡ self.most }
    {
        Stock {
            along: self.taken,
            near: None,
            most: self.most,
        }
    }
}

/// The last checkpoint that isn't after a position.
pub(crate) fn last_before(checkpoints: &[Stored], to: Position) -> Option<usize>
    ensures { MatchOption result (checkpoint_before (positions_of checkpoints.now) to ≡ first)
        (λ index. (index < length checkpoints.now)
        × ((d : Stored) → IsUpTo (slice_index_or checkpoints.now index d).position to)
        × ((d : Stored) → (slice_index_or checkpoints.now index d).position
        ≡ checkpoint_before (positions_of checkpoints.now) to)) }
{
    let mut last = None;
    for index in 0..checkpoints.len() {
        if is_up_to(checkpoints[index].position, to) {
            last = Some(index);
        }
    }
    last
}

/// Where a checkpoint near a position is taken: so many steps before it, or at the first position.
pub(crate) fn near_before(records: &[Record], to: Position) -> Position
    requires { IsPosition records.now to }
    ensures position { IsPosition records.now result }
    ensures early { IsUpTo result to }
{
    let mut left = NEAR_DISTANCE;
    let mut at = to;
    while at.steps < left {
        if at.records == 0 {
            return FIRST;
        }
        let before = at.records - 1;
        left = (left - at.steps).saturating_sub(RECORD_COST);
        at = Position {
            records: before,
            steps: steps_in(records[before].event),
        };
    }
    Position {
        records: at.records,
        steps: at.steps - left,
    }
}

/// The machine of a checkpoint. The services are taken from another machine of the same boot, which is let go, and so is
/// the room for records. Takes memory for the images and the table.
pub(crate) fn machine_of(
    alloc: Global,
    machine: Machine,
    records: &[Record],
    stored: &Stored,
) -> Result<Machine, NoMemory>
    requires { IsStored machine.kernel.boot records.now stored.now }
    ensures there { IfOk result (λ again.
        IsAt machine.kernel.boot records.now stored.now.position again) }
    ensures actors { IfOk result (λ again.
        actors (world_of again) ≡ actors machine.kernel.boot) }
{
    let (services, mut earlier) = machine.into_kernel().into_parts();
    earlier.clear();
    earlier.extend_from_slice(&records[..stored.position.records])?;
    stored.checkpoint.machine(alloc, services, earlier)
}
