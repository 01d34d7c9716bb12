//! The trials of a sweep, made ahead of what is asked for by threads.
//!
//! # Pieces
//!
//! Each thread has a pair of its own, which goes along the whole history: that costs little beside the trials. The next
//! positions are parted into as many pieces as there are pairs, and each piece is tried by a thread. Who asks is told of
//! the positions in their order, so what he does is the same for each number of threads.

ghost use Rattle.std.specs.Prelude.{◌≡◌, ◌<◌, ◌≤◌, ◌+◌, ◌-◌, ◌++◌, All, IfOk, OnOk, length};
ghost use Rattle.std.specs.Thread.{IsSync};
ghost use Rattle.mx_turns.specs.Ahead.{AreTold, AreTried, IsAfter, IsAhead, IsBefore, IsPiece, IsTold, boot_of, sweep_of};
ghost use Rattle.mx_turns.specs.declared.faulted_run.Sweep.{Sweep as Swept};
ghost use Rattle.mx_turns.specs.Swept.{IsSwept, run_in};

use crate::faulted_run::{Range, Sweep};
use crate::pairs::Pair;
use crate::trials::{Findings, trial_at};
use mx_machine::{Machine, Service};
use mx_word::NoMemory;
use std::alloc::Global;
use std::collections::VecDeque;
use std::mem;
use std::snapshot::Snapshot;
use std::thread::{Threads, join};

/// About how many turns a thread makes before the others are waited for, if no run ends early: a tenth of a second. In
/// much less a new thread doesn't pay, since another processor takes some milliseconds to find it.
const TURNS_OF_PIECE: u32 = 100_000;

/// How many positions a thread tries at most before the others are waited for: what they tell is kept until then.
const MOST_OF_PIECE: usize = 1_024;

/// How many positions a thread tries at most before the others are waited for, if each has so many turns.
fn most_of_piece(bound: u32) -> usize
    ensures some { 0 < result }
    ensures few { result ≤ 1024 }
{
    let turns = bound.max(1);
    let positions = (TURNS_OF_PIECE / turns) as usize;
    positions.max(1).min(MOST_OF_PIECE)
}

/// What a position tells: the lines of its trial, and what it tells of the fault.
#[derive(Drop)]
pub struct Told {
    pub text: Vec<u8>,
    pub findings: Findings,
}

/// What positions in a row tell, in order, and the pairs that tried them.
#[derive(Drop)]
struct Tried {
    pairs: Vec<Pair>,
    told: VecDeque<Told>,
}

impl Tried {
    /// With what later positions tell.
    fn and(self, later: Tried) -> Result<Tried, NoMemory>
        ensures pairs { IfOk result (λ all. all.pairs.items ≡ self.pairs.items ++ later.pairs.items) }
        ensures told { IfOk result (λ all. all.told.items ≡ self.told.items ++ later.told.items) }
    {
        let Tried {
            mut pairs,
            mut told,
        } = self;
        let mut later = later;
        pairs.append(&mut later.pairs)?;
        told.append(&mut later.told)?;
        Ok(Tried { pairs, told })
    }
}

/// Tries positions in their order. Answers the pair that went there, and what they tell.
fn try_in_turn(
    alloc: Global,
    pair: Pair,
    boot: &Snapshot<Machine>,
    sweep: Sweep<'_>,
    range: Range,
) -> Result<(Pair, VecDeque<Told>), NoMemory>
    requires swept { IsSwept sweep boot.now.value.kernel.boot }
    requires pair { IsBefore sweep boot.now.value.kernel.boot range.from pair }
    requires order { range.from ≤ range.end }
    requires within { range.end ≤ length sweep.records.now + 1 }
    ensures pair { IfOk result (λ r.
        IsBefore sweep.entry boot.now.value.kernel.boot range.end r.0) }
    ensures told { IfOk result (λ r.
        AreTold sweep.entry boot.now.value.kernel.boot range.from r.1.items) }
    ensures all { IfOk result (λ r. range.from + length r.1.items ≡ range.end) }
    ensures last { IfOk result (λ r. range.from < range.end
        → IsAfter sweep.entry boot.now.value.kernel.boot range.end r.0) }
{
    let mut pair = pair;
    let mut told = VecDeque::new(alloc);
    for position in range.from..range.end {
        let trial = trial_at(alloc, pair, sweep, position)?;
        pair = trial.pair;
        let next = Told {
            text: trial.text,
            findings: trial.findings,
        };
        let Ok(()) = told.push_back(next) else {
            return Err(NoMemory);
        };
    }
    Ok((pair, told))
}

/// Tries positions by the last one of some pairs.
fn try_by_last(
    alloc: Global,
    pairs: Vec<Pair>,
    boot: &Snapshot<Machine>,
    sweep: Sweep<'_>,
    range: Range,
) -> Result<Tried, NoMemory>
    requires swept { IsSwept sweep boot.now.value.kernel.boot }
    requires some { 0 < length pairs.items }
    requires pairs { All (IsBefore sweep boot.now.value.kernel.boot range.from) pairs.items }
    requires order { range.from ≤ range.end }
    requires within { range.end ≤ length sweep.records.now + 1 }
    ensures { IfOk result (AreTried sweep.entry boot.now.value.kernel.boot range.from range.end) }
{
    let mut pairs = pairs;
    let Some(last) = pairs.pop() else {
        unreachable!();
    };
    let (last, told) = try_in_turn(alloc, last, boot, sweep, range)?;
    let Ok(()) = pairs.push(last) else {
        return Err(NoMemory);
    };
    Ok(Tried { pairs, told })
}

/// Where the first of two pieces ends, if it is for so many of all pairs.
fn middle_of(range: Range, first: usize, all: usize) -> usize
    requires some { first < all }
    requires order { range.from ≤ range.end }
    ensures above { range.from ≤ result }
    ensures below { result ≤ range.end }
    ensures left { range.from < range.end → result < range.end }
{
    range.from + (range.end - range.from) / all * first
}

/// Tries positions, a piece by each pair, in a thread of its own where one can be made.
#[cycle(try_all)]
fn try_all<R: Threads + Sync>(
    rt: &R,
    alloc: Global,
    pairs: Vec<Pair>,
    boot: &Snapshot<Machine>,
    sweep: Sweep<'_>,
    range: Range,
) -> Result<Tried, NoMemory>
    requires swept { IsSwept sweep boot.now.value.kernel.boot }
    requires some { 0 < length pairs.items }
    requires pairs { All (IsBefore sweep boot.now.value.kernel.boot range.from) pairs.items }
    requires order { range.from ≤ range.end }
    requires within { range.end ≤ length sweep.records.now + 1 }
    ensures { IfOk result (AreTried sweep.entry boot.now.value.kernel.boot range.from range.end) }
{
    if pairs.len() < 2 {
        return try_by_last(alloc, pairs, boot, sweep, range);
    }
    let all = pairs.len();
    let mut lower = pairs;
    let upper = lower.split_off(all / 2)?;
    let middle = middle_of(range, lower.len(), all);
    let below = Range {
        from: range.from,
        end: middle,
    };
    let above = Range {
        from: middle,
        end: range.end,
    };
    // A closure that owns something and takes a struct with a lifetime tells nothing, so the sweep goes in parts.
    let Sweep {
        config,
        other,
        records,
        fault,
        range: whole,
        bound,
    } = sweep;
    let front = move || -> Result<Tried, NoMemory>
        requires { IsSync R.row
            × IsPiece (sweep_of config other records fault whole bound)
            boot.now.value.kernel.boot below lower.items }
        ensures { IfOk result
            (AreTried (sweep_of config.entry other records.entry fault.entry whole bound)
            boot.entry.now.value.kernel.boot below.from below.end) }
    {
        let sweep = Sweep {
            config,
            other,
            records,
            fault,
            range: whole,
            bound,
        };
        try_all(rt, alloc, lower, boot, sweep, below)
    };
    let back = move || -> Result<Tried, NoMemory>
        requires { IsSync R.row
            × IsPiece (sweep_of config other records fault whole bound)
            boot.now.value.kernel.boot above upper.items }
        ensures { IfOk result
            (AreTried (sweep_of config.entry other records.entry fault.entry whole bound)
            boot.entry.now.value.kernel.boot above.from above.end) }
    {
        let sweep = Sweep {
            config,
            other,
            records,
            fault,
            range: whole,
            bound,
        };
        try_all(rt, alloc, upper, boot, sweep, above)
    };
    let (first, second) = join(rt, front, back);
    first?.and(second?)
}

/// A pair at the boot of these services.
fn pair_at_boot(
    alloc: Global,
    boot: &Snapshot<Machine>,
    services: &[Service],
    sweep: Sweep<'_>,
) -> Result<Pair, NoMemory>
    requires swept { IsSwept sweep boot.now.value.kernel.boot }
    requires services { services.now ≡ boot.now.value.kernel.boot.services }
    ensures { IfOk result
        (IsBefore sweep.entry boot.now.value.kernel.boot sweep.entry.range.from) }
{
    Pair::new(alloc, sweep.config, services, sweep.records)
}

/// So many pairs at the boot of these services.
fn pairs_at_boot(
    alloc: Global,
    boot: &Snapshot<Machine>,
    services: &[Service],
    sweep: Sweep<'_>,
    count: usize,
) -> Result<Vec<Pair>, NoMemory>
    requires swept { IsSwept sweep boot.now.value.kernel.boot }
    requires services { services.now ≡ boot.now.value.kernel.boot.services }
    ensures all { IfOk result (λ pairs.
        All (IsBefore sweep.entry boot.now.value.kernel.boot sweep.entry.range.from) pairs.items) }
    ensures count { IfOk result (λ pairs. length pairs.items ≡ count) }
{
    let mut pairs = Vec::new(alloc);
    for _ in 0..count {
        let pair = pair_at_boot(alloc, boot, services, sweep)?;
        let Ok(()) = pairs.push(pair) else {
            return Err(NoMemory);
        };
    }
    Ok(pairs)
}

/// A sweep's trials from a position on. Some are made already.
#[derive(Drop)]
pub struct Ahead {
    /// For clauses alone: a machine that boots as all of the sweep do.
    pub boot: Snapshot<Machine>,
    /// A pair for each thread.
    pub pairs: Vec<Pair>,
    /// The position that is asked for next.
    pub position: usize,
    /// What is told of it and of those after it, as far as they are tried.
    pub told: VecDeque<Told>,
    /// How many positions are tried next, at once, and how many are at most.
    pub round: usize,
    pub most: usize,
}

impl Ahead {
    /// A sweep's trials from its first position on, by so many threads, each with machines of the boot of this one.
    pub fn new(
        alloc: Global,
        machine: Machine,
        sweep: Sweep<'_>,
        jobs: usize,
    ) -> Result<Ahead, NoMemory>
        requires swept { IsSwept sweep machine.kernel.boot }
        requires some { 0 < jobs }
        requires few { jobs ≤ 64 }
        requires order { sweep.range.from ≤ sweep.range.end }
        requires within { sweep.range.end ≤ length sweep.records.now + 1 }
        ensures ahead { IfOk result (IsAhead sweep.entry) }
        ensures first { IfOk result (λ ahead. ahead.position ≡ sweep.entry.range.from) }
        ensures boot { IfOk result (λ ahead. boot_of ahead ≡ machine.kernel.boot) }
    {
        let boot = Snapshot::of(&machine);
        let services = machine.into_kernel().into_services();
        let pairs = pairs_at_boot(alloc, &boot, services.as_slice(), sweep, jobs)?;
        Ok(Ahead {
            boot,
            pairs,
            position: sweep.range.from,
            told: VecDeque::new(alloc),
            round: jobs,
            most: if jobs == 1 {
                1
            } else {
                most_of_piece(sweep.bound) * jobs
            },
        })
    }

    /// Tries the next positions. The first rounds are short, so that something is told soon.
    fn try_more<R: Threads + Sync>(
        &mut self,
        rt: &R,
        alloc: Global,
        sweep: Sweep<'_>,
    ) -> Result<(), NoMemory>
        requires ahead { IsAhead sweep self.old }
        requires none { length self.old.told.items ≡ 0 }
        requires left { self.old.position < sweep.range.end }
        ensures ahead { OnOk result (IsAhead sweep.entry self.new) }
        ensures some { OnOk result (0 < length self.new.told.items) }
        ensures position { self.new.position ≡ self.old.position }
        ensures boot { self.new.boot ≡ self.old.boot }
    {
        let pairs = mem::replace(&mut self.pairs, Vec::new(alloc));
        let from = self.position;
        let range = Range {
            from,
            end: from + self.round.min(sweep.range.end - from),
        };
        let tried = try_all(rt, alloc, pairs, &self.boot, sweep, range)?;
        self.pairs = tried.pairs;
        self.told = tried.told;
        self.round = self.round.saturating_mul(2).min(self.most);
        Ok(())
    }

    /// What the next position tells. If it isn't tried yet, some are tried, by threads. Takes memory for copies of the
    /// machine at the positions.
    pub fn ask<R: Threads + Sync>(
        &mut self,
        rt: &R,
        alloc: Global,
        sweep: Sweep<'_>,
    ) -> Result<Told, NoMemory>
        requires ahead { IsAhead sweep self.old }
        requires left { self.old.position < sweep.range.end }
        ensures told { IfOk result (IsTold sweep.entry (boot_of self.old) self.old.position) }
        ensures ahead { OnOk result (IsAhead sweep.entry self.new) }
        ensures next { OnOk result (self.new.position ≡ self.old.position + 1) }
        ensures boot { OnOk result (boot_of self.new ≡ boot_of self.old) }
    {
        if self.told.is_empty() {
            self.try_more(rt, alloc, sweep)?;
        }
        let Some(told) = self.told.pop_front() else {
            unreachable!();
        };
        self.position += 1;
        Ok(told)
    }

    /// The machine after the run with the fault at the last position.
    pub fn into_machine(self) -> Machine
        requires { 0 < length self.pairs.items }
        ensures { (s : Swept) → IsAhead s self → self.position ≡ s.range.end
            → s.range.from < s.range.end
            → result.kernel ≡ (run_in s (boot_of self) s.fault.now (s.range.end - 1)).kernel }
    {
        let mut pairs = self.pairs;
        let Some(last) = pairs.pop() else {
            unreachable!();
        };
        last.copy
    }
}
