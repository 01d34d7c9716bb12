//! The queues: who is killed among callers, and a long list of events against plain lists.

ghost use Rattle.std.specs.Prelude.{◌≡◌};
ghost use Rattle.mx_proc.specs.States.{is_out};

use crate::kernel_numbers::{ALL_SENDS, ALL_TRAPS};
use crate::tables::{Processes, table_of, word_at};
use mx_ipc::{receive, send, sendrec};
use mx_proc::{ANY, DeathCause, Masks, Partner, Rules, SYSTEM, Slot, Source, State, Table, Terms};
use mx_respawn::die;
use mx_sched::{dequeue, enqueue, pick};
use std::alloc::Global;
use std::process::Abort;
use std::test::Fail;

const MASKS: Masks = Masks {
    traps: ALL_TRAPS,
    sends: ALL_SENDS,
    calls: 0,
};

/// The last generation, and the most restarts that terms have.
const LAST: u32 = 0xF_FFFF;

/// 32 services at level 7, whose best is 5 and whose quantum is 5.
fn services(rt: &impl Abort, alloc: Global) -> Result<Table, Fail> {
    let wanted = Processes {
        rules: Rules::Lenient,
        used: 32,
        masks: MASKS,
        best: 5,
    };
    table_of(rt, alloc, &wanted)
}

/// What a process does, or what is done to it.
#[derive(Clone, Copy)]
enum Deed {
    /// SEND to a slot.
    Send(Slot),
    /// SENDREC to a slot.
    Ask(Slot),
    /// RECEIVE from anybody, or from a slot.
    Receive(Option<Slot>),
    /// Its quantum ends.
    Spend,
    Die,
    /// A new process takes its place.
    Revive,
}

/// Whether the image of a process in a state is out.
fn is_out(state: State) -> bool
    ensures { result ≡ is_out state }
{
    matches!(state, State::Out | State::Doomed)
}

fn endpoint(rt: &impl Abort, table: &Table, slot: Slot) -> u32 {
    assert!(rt; slot < table.slot_count());
    table.endpoint(slot)
}

/// A ready process makes one of the three calls.
fn make_trap(rt: &impl Abort, table: &mut Table, slot: Slot, deed: Deed) {
    let named = match deed {
        Deed::Send(to) | Deed::Ask(to) | Deed::Receive(Some(to)) => endpoint(rt, table, to),
        _ => ANY,
    };
    assert!(rt; slot < table.slot_count());
    assert!(rt; named != SYSTEM && table.process(slot).state.is_ready());
    dequeue(table, slot);
    match deed {
        Deed::Send(_) => send(table, slot, named),
        Deed::Ask(_) => sendrec(table, slot, named),
        _ => receive(table, slot, named),
    }
}

/// The quantum of a ready process ends.
fn spend(rt: &impl Abort, table: &mut Table, slot: Slot) {
    assert!(rt; slot < table.slot_count());
    assert!(rt; table.process(slot).state.is_ready());
    dequeue(table, slot);
    let ticks = table.process(slot).schedule.ticks;
    assert!(rt; table.process(slot).steps < 1_000_000_000);
    table.spend(slot, ticks);
    assert!(rt; table.process(slot).state == State::Home);
    enqueue(table, slot);
}

fn kill(rt: &impl Abort, table: &mut Table, slot: Slot) {
    assert!(rt; slot < table.slot_count());
    assert!(rt; !is_out(table.process(slot).state));
    die(table, slot, DeathCause::Kill);
}

/// A new process at level 7 in the place of a dead one.
fn revive(rt: &impl Abort, table: &mut Table, slot: Slot) {
    assert!(rt; slot < table.slot_count());
    assert!(rt; table.process(slot).state.is_down());
    let image = table.take_image(slot);
    let dead = table.process(slot);
    assert!(rt; dead.state.is_down());
    assert!(rt; dead.generation < LAST && dead.restarts_used < LAST);
    let terms = Terms {
        masks: MASKS,
        level: 7,
        best: 5,
        quantum: 5,
        restarts: LAST,
    };
    table.revive(slot, terms, image);
}

fn perform(rt: &impl Abort, table: &mut Table, slot: Slot, deed: Deed) {
    match deed {
        Deed::Spend => spend(rt, table, slot),
        Deed::Die => kill(rt, table, slot),
        Deed::Revive => revive(rt, table, slot),
        _ => make_trap(rt, table, slot, deed),
    }
}

/// Senders to slot 0 in their order, which of them is killed, and from whom slot 0 then receives.
struct Killed {
    name: &'static str,
    senders: &'static [Slot],
    killed: Slot,
    sources: &'static [u32],
}

static KILLED: &[Killed] = &[
    Killed {
        name: "one in the middle of 31",
        senders: &[
            1, 2, 3, 4, 5, 6, 7, 8, 9, 10, 11, 12, 13, 14, 15, 16, 17, 18, 19, 20, 21, 22, 23, 24,
            25, 26, 27, 28, 29, 30, 31,
        ],
        killed: 16,
        sources: &[
            1, 2, 3, 4, 5, 6, 7, 8, 9, 10, 11, 12, 13, 14, 15, 17, 18, 19, 20, 21, 22, 23, 24, 25,
            26, 27, 28, 29, 30, 31,
        ],
    },
    Killed {
        name: "the first of three",
        senders: &[5, 3, 9],
        killed: 5,
        sources: &[3, 9],
    },
    Killed {
        name: "the last of three",
        senders: &[5, 3, 9],
        killed: 9,
        sources: &[5, 3],
    },
    Killed {
        name: "the only one",
        senders: &[4],
        killed: 4,
        sources: &[],
    },
];

/// These slots send to slot 0, one after the other.
fn send_in_turn(rt: &impl Abort, table: &mut Table, senders: &[Slot]) {
    for slot in senders {
        make_trap(rt, table, *slot, Deed::Send(0));
    }
}

/// Whether slot 0 receives from these in turn, and then waits.
fn receives(rt: &impl Abort, table: &mut Table, sources: &[u32]) -> bool {
    for source in sources {
        make_trap(rt, table, 0, Deed::Receive(None));
        if word_at(rt, table, 0, 512) != *source {
            return false;
        }
    }
    make_trap(rt, table, 0, Deed::Receive(None));
    assert!(rt; table.slot_count() > 0);
    table.process(0).state == State::Receiving(Partner::Any)
}

fn are_left(rt: &impl Abort, table: &mut Table, row: &Killed) -> bool {
    send_in_turn(rt, table, row.senders);
    kill(rt, table, row.killed);
    receives(rt, table, row.sources)
}

#[test]
fn killed_callers(rt: HostRuntime) -> Result<(), Fail> {
    for row in KILLED {
        let name = row.name;
        let mut table = services(&rt, rt.alloc())?;
        assert!(rt; are_left(&rt, &mut table, row), "{name}");
    }
    Ok(())
}

/// The queues as plain lists, and what each process does.
#[derive(Drop)]
struct Plain {
    /// The ready ones with their levels; those of one level are in their order.
    ready: Vec<(u8, Slot)>,
    /// Who sends, and to whom, in order of blocking.
    waits: Vec<(Slot, Slot)>,
    states: [State; 32],
    levels: [u8; 32],
    renewed: Option<Slot>,
}

impl Plain {
    /// 32 processes at level 7.
    fn new(alloc: Global) -> Result<Plain, Fail> {
        let mut ready = Vec::new(alloc);
        for slot in 0..32u8 {
            ready.push((7, slot))?;
        }
        Ok(Plain {
            ready,
            waits: Vec::new(alloc),
            states: [State::Ready; 32],
            levels: [7; 32],
            renewed: None,
        })
    }

    fn state(&self, slot: Slot) -> State {
        match self.states.get(slot as usize) {
            Some(state) => *state,
            None => State::Home,
        }
    }

    fn set_state(&mut self, slot: Slot, state: State) {
        if let Some(place) = self.states.get_mut(slot as usize) {
            *place = state;
        }
    }

    fn level(&self, slot: Slot) -> u8 {
        match self.levels.get(slot as usize) {
            Some(level) => *level,
            None => 0,
        }
    }

    /// The first of those at the highest level.
    fn pick(&self) -> Option<Slot> {
        let mut found: Option<(u8, Slot)> = None;
        for entry in &self.ready {
            let is_higher = match found {
                Some((level, _)) => entry.0 < level,
                None => true,
            };
            if is_higher {
                found = Some(*entry);
            }
        }
        Some(found?.1)
    }

    /// The slot at a place among the ready ones of a level.
    fn ready_at(&self, level: u8, place: u8) -> Option<Slot> {
        let mut left = place;
        for entry in &self.ready {
            if entry.0 == level {
                if left == 0 {
                    return Some(entry.1);
                }
                left -= 1;
            }
        }
        None
    }

    fn waiting_at(&self, place: u8) -> Option<Slot> {
        match self.waits.get(place as usize) {
            Some(pair) => Some(pair.0),
            None => None,
        }
    }

    fn next(&self, from: Slot) -> Option<Slot> {
        for pair in &self.waits {
            if pair.0 == from {
                return Some(pair.1);
            }
        }
        None
    }

    fn caller(&self, to: Slot, only: Option<Slot>) -> Option<Slot> {
        for pair in &self.waits {
            if pair.1 == to && (only == None || only == Some(pair.0)) {
                return Some(pair.0);
            }
        }
        None
    }

    fn leads(&self, from: Slot, to: Slot) -> bool {
        let mut at = from;
        for _ in 0..32u8 {
            match self.next(at) {
                Some(next) => at = next,
                None => return false,
            }
            if at == to {
                return true;
            }
        }
        false
    }

    fn unqueue(&mut self, slot: Slot) {
        self.ready.retain(|entry| entry.1 != slot);
    }

    fn unblock(&mut self, slot: Slot) {
        self.waits.retain(|pair| pair.0 != slot);
    }

    /// A process that has ticks left goes on, in front of its level.
    fn go_on(&mut self, slot: Slot) -> Result<(), Fail> {
        self.set_state(slot, State::Ready);
        let level = self.level(slot);
        self.ready.insert(0, (level, slot))?;
        Ok(())
    }

    /// A process goes to the end of a level.
    fn to_end(&mut self, slot: Slot, level: u8) -> Result<(), Fail> {
        self.set_state(slot, State::Ready);
        if let Some(place) = self.levels.get_mut(slot as usize) {
            *place = level;
        }
        self.ready.push((level, slot))?;
        Ok(())
    }

    /// A quantum is spent: a level lower if this slot spent the one before too, else one higher.
    fn spend(&mut self, slot: Slot) -> Result<(), Fail> {
        let level = self.level(slot);
        let next = if self.renewed == Some(slot) {
            if level < 14 { level + 1 } else { 14 }
        } else if level > 5 {
            level - 1
        } else {
            5
        };
        self.renewed = Some(slot);
        self.unqueue(slot);
        self.to_end(slot, next)
    }

    fn accepts(&self, to: Slot, from: Slot) -> bool {
        match self.state(to) {
            State::Receiving(Partner::Any) => true,
            State::Receiving(Partner::Only(source)) => source == Source::Slot(from),
            State::Awaiting(slot) => slot == from,
            _ => false,
        }
    }

    /// Takes the first caller's message, or waits in a state.
    fn take_or_wait(&mut self, slot: Slot, only: Option<Slot>, state: State) -> Result<(), Fail> {
        match self.caller(slot, only) {
            None => self.set_state(slot, state),
            Some(from) => {
                let is_call = self.state(from) == State::Calling;
                self.unblock(from);
                if is_call {
                    self.set_state(from, State::Awaiting(slot));
                } else {
                    self.go_on(from)?;
                }
                self.go_on(slot)?;
            }
        }
        Ok(())
    }

    /// SEND or SENDREC: refused to a dead process and if it would lock, else it delivers or waits.
    /// The state in which it waits, Sending or Calling, shows which of the two it is.
    fn send(&mut self, slot: Slot, to: Slot, waiting: State) -> Result<(), Fail> {
        self.unqueue(slot);
        if self.state(to).is_down() || to == slot || self.leads(to, slot) {
            return self.go_on(slot);
        }
        if !self.accepts(to, slot) {
            self.set_state(slot, waiting);
            self.waits.push((slot, to))?;
            return Ok(());
        }
        self.go_on(to)?;
        if waiting == State::Calling {
            return self.take_or_wait(slot, Some(to), State::Awaiting(to));
        }
        self.go_on(slot)
    }

    fn receive(&mut self, slot: Slot, from: Option<Slot>) -> Result<(), Fail> {
        self.unqueue(slot);
        match from {
            None => self.take_or_wait(slot, None, State::Receiving(Partner::Any)),
            Some(from) => {
                if self.state(from).is_down() {
                    return self.go_on(slot);
                }
                let partner = Partner::Only(Source::Slot(from));
                self.take_or_wait(slot, Some(from), State::Receiving(partner))
            }
        }
    }

    /// Its callers go on, then those that receive only from it, in slot order.
    fn die(&mut self, slot: Slot) -> Result<(), Fail> {
        self.unqueue(slot);
        self.unblock(slot);
        self.set_state(slot, State::Down(DeathCause::Kill));
        for _ in 0..32u8 {
            if let Some(from) = self.caller(slot, None) {
                self.unblock(from);
                self.go_on(from)?;
            }
        }
        for other in 0..32u8 {
            let state = self.state(other);
            if state == State::Awaiting(slot)
                || state == State::Receiving(Partner::Only(Source::Slot(slot)))
            {
                self.go_on(other)?;
            }
        }
        Ok(())
    }

    fn perform(&mut self, slot: Slot, deed: Deed) -> Result<(), Fail> {
        match deed {
            Deed::Send(to) => self.send(slot, to, State::Sending),
            Deed::Ask(to) => self.send(slot, to, State::Calling),
            Deed::Receive(from) => self.receive(slot, from),
            Deed::Spend => self.spend(slot),
            Deed::Die => self.die(slot),
            Deed::Revive => self.to_end(slot, 7),
        }
    }
}

/// The numbers that the events are made from, one after the other.
#[derive(Drop)]
struct Numbers {
    last: u32,
}

impl Numbers {
    /// The next number, of 24 bits.
    fn next(&mut self) -> u32 {
        self.last = self
            .last
            .wrapping_mul(1_664_525)
            .wrapping_add(1_013_904_223);
        self.last >> 8
    }

    /// The next number below a bound.
    fn below(&mut self, bound: u32) -> u32 {
        let number = self.next();
        if bound == 0 { 0 } else { number % bound }
    }

    /// The next of 32 slots.
    fn slot(&mut self) -> Slot {
        let number = self.next();
        (number % 32) as u8
    }
}

/// What a ready process does.
fn deed_of_ready(numbers: &mut Numbers) -> Deed {
    let other = numbers.slot();
    match numbers.below(16) {
        0..=4 => Deed::Send(other),
        5..=8 => Deed::Ask(other),
        9..=12 => Deed::Receive(None),
        13 => Deed::Receive(Some(other)),
        14 => Deed::Spend,
        _ => Deed::Die,
    }
}

/// The next event: of a slot that a number picks, or of who is picked if that one waits; now and
/// then, and if nobody is ready, who waits is killed.
fn next_event(plain: &Plain, numbers: &mut Numbers) -> (Slot, Deed) {
    let slot = numbers.slot();
    let is_killed = numbers.below(24) == 0;
    match plain.state(slot) {
        State::Down(_) => (slot, Deed::Revive),
        State::Ready => (slot, deed_of_ready(numbers)),
        _ => match plain.pick() {
            Some(picked) if !is_killed => (picked, deed_of_ready(numbers)),
            _ => (slot, Deed::Die),
        },
    }
}

/// Whether both have a slot alike: its state and level, as the report prints them, whom it sends
/// to, its first caller, and the one that another slot is. And whether the same slots stand at the
/// place of its number, among the ready ones of a level and among those that send.
fn is_alike(rt: &impl Abort, table: &Table, plain: &Plain, slot: Slot, other: Slot) -> bool {
    assert!(rt; slot < table.slot_count());
    let process = table.process(slot);
    let only = Partner::Only(Source::Slot(other));
    let level = other % 16;
    process.state == plain.state(slot)
        && process.schedule.level == plain.level(slot)
        && table.next(slot) == plain.next(slot)
        && table.caller(slot, Partner::Any) == plain.caller(slot, None)
        && table.caller(slot, only) == plain.caller(slot, Some(other))
        && table.reaches(slot, other) == plain.leads(slot, other)
        && table.ready_at(level, slot) == plain.ready_at(level, slot)
        && table.waiting_at(slot) == plain.waiting_at(slot)
}

fn are_alike(rt: &impl Abort, table: &Table, plain: &Plain, other: Slot) -> bool {
    for slot in 0..32u8 {
        if !is_alike(rt, table, plain, slot, other) {
            return false;
        }
    }
    pick(table) == plain.pick()
}

/// Makes the next event on both, and sees that they are alike.
fn follow(
    rt: &impl Abort,
    table: &mut Table,
    plain: &mut Plain,
    numbers: &mut Numbers,
) -> Result<bool, Fail> {
    let (slot, deed) = next_event(plain, numbers);
    perform(rt, table, slot, deed);
    plain.perform(slot, deed)?;
    let other = numbers.slot();
    Ok(are_alike(rt, table, plain, other))
}

fn follow_all(rt: &impl Abort, table: &mut Table, plain: &mut Plain) -> Result<(), Fail> {
    let mut numbers = Numbers { last: 1987 };
    for number in 0..100_000u32 {
        assert!(rt; follow(rt, table, plain, &mut numbers)?, "event {number}");
    }
    Ok(())
}

#[test]
fn against_plain_lists(rt: HostRuntime) -> Result<(), Fail> {
    let mut plain = Plain::new(rt.alloc())?;
    let mut table = services(&rt, rt.alloc())?;
    follow_all(&rt, &mut table, &mut plain)
}
