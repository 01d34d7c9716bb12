//! Processes, one in each slot of the table; and the numbers that name slots, sources and partners.

ghost use Rattle.std.specs.Prelude.{◌≡◌, ◌+◌, ◌<◌, ◌≤◌, ◌^◌, length, IfSome};
ghost use Rattle.mx_proc.specs.Partners.{order_of_source, source_in_order, lines_in_notification, may_be, first_pending};
ghost use Rattle.mx_proc.specs.States.{is_ready, is_down};

use crate::windows::Window;
use mx_exec::Image;

/// The lowest level of a process. The list below it, 15, is the idle list, and stays empty.
const LOWEST: u8 = 14;

/// The number of a slot of the table, 0 to 31.
pub type Slot = u8;

/// An address in the memory of a slot's process.
#[derive(Clone, Copy)]
pub struct ProcessAddress {
    pub slot: Slot,
    pub offset: u32,
}

/// Who can notify a process.
#[derive(Clone, Copy, PartialEq, Eq)]
pub enum Source {
    /// The interrupt lines.
    Hardware,
    /// The clock, whose ticks ring alarms.
    Clock,
    /// The process of a slot.
    Slot(u8),
}

impl Source {
    /// The place of its pending bit: 0 for HARDWARE, 1 for CLOCK, 2 + s for slot s.
    pub fn place(self) -> u32
        ensures { result ≡ order_of_source self }
    {
        match self {
            Source::Hardware => 0,
            Source::Clock => 1,
            Source::Slot(slot) => 2 + u32::from(slot),
        }
    }

    /// Which of these raised lines a notification by it reports: all of them if it is HARDWARE, else none.
    pub fn lines_reported(self, lines: u32) -> u32
        ensures value { result ≡ lines_in_notification self lines }
        ensures below { result ≤ lines }
    {
        match self {
            Source::Hardware => lines,
            _ => 0,
        }
    }

    /// The source whose pending bit has this place. The reverse of `place`.
    pub fn of_place(place: u32) -> Source
        requires { place < 258 }
        ensures { result ≡ source_in_order place }
    {
        match place {
            0 => Source::Hardware,
            1 => Source::Clock,
            _ => Source::Slot((place - 2) as u8),
        }
    }
}

/// From whom a process is willing to receive.
#[derive(Clone, Copy, PartialEq, Eq)]
pub enum Partner {
    /// Anybody.
    Any,
    /// SYSTEM, which never sends.
    System,
    /// Only this source.
    Only(Source),
}

impl Partner {
    /// Whether this partner allows the source whose pending bit has this place.
    pub fn may_be(self, place: u32) -> bool
        ensures { result ≡ may_be self place }
    {
        match self {
            Partner::Any => true,
            Partner::System => false,
            Partner::Only(source) => source.place() == place,
        }
    }

    /// The first place whose pending bit is set and whose source this partner allows.
    pub fn first_pending(self, pending: &[bool]) -> Option<u32>
        requires { length pending.now ≤ 34 }
        ensures value { result ≡ first_pending self 0 pending.now }
        ensures below { IfSome result (λ place. place < length pending.now) }
    {
        for (index, bit) in pending.iter().enumerate() {
            let place = index as u32;
            if *bit && self.may_be(place) {
                return Some(place);
            }
        }
        None
    }
}

/// Why a process died.
#[derive(Clone, Copy, PartialEq, Eq)]
pub enum DeathCause {
    /// It called EXIT.
    Exit,
    /// Somebody killed it.
    Kill,
    /// It faulted, with this vector.
    Fault(u8),
}

/// What a process does at present.
#[derive(Clone, Copy, PartialEq, Eq)]
pub enum State {
    /// The kernel serves it, and it is in no queue. No process has this state between two events.
    Home,
    /// In the ready list of its level.
    Ready,
    /// On a processor. The processor has its image.
    Out,
    /// On a processor, and already killed: it dies when it comes back.
    Doomed,
    /// Its SEND waits until the receiver takes the message.
    Sending,
    /// Its SENDREC waits until the receiver takes the message.
    Calling,
    /// Its RECEIVE waits for a message from this partner.
    Receiving(Partner),
    /// Its SENDREC has sent, and waits for the reply of this slot's process.
    Awaiting(u8),
    /// Dead.
    Down(DeathCause),
}

/// What a process may do. Bit n of `traps` allows call n, bit s of `sends` allows to send to slot s, and
/// bit i of `calls` allows kernel call i.
#[derive(Clone, Copy, PartialEq, Eq)]
pub struct Masks {
    pub traps: u32,
    pub sends: u32,
    pub calls: u32,
}

/// What a service gives each of its processes. Levels are numbers of ready lists; list 0 is the
/// highest.
#[derive(Clone, Copy)]
pub struct Terms {
    pub masks: Masks,
    /// The ready list that a process begins in, 0 to 14.
    pub level: u8,
    /// The highest list that it may rise to, 0 to `level`.
    pub best: u8,
    /// How many steps it gets at a time, 1 to 65,535.
    pub quantum: u32,
    /// How often its slot may get a new process, 0 to 1,048,575.
    pub restarts: u32,
    ghost lowest: { level ≤ 14 },
    ghost best_above: { best ≤ level },
    ghost some_ticks: { 0 < quantum },
    ghost quantum_fits: { quantum ≤ 65535 },
    ghost restarts_fit: { restarts ≤ 1048575 },
}

/// By which terms a process runs, in which list, and how much of its quantum is left.
#[derive(Clone, Copy)]
pub struct Schedule {
    /// What its service gave it.
    pub terms: Terms,
    /// The ready list that it is in when it is ready, `terms.best` to 14.
    pub level: u8,
    /// How many ticks of its quantum are left. Each step takes one tick.
    pub ticks: u32,
    ghost lowest: { level ≤ 14 },
    ghost best_above: { terms.best ≤ level },
    ghost ticks_fit: { ticks ≤ terms.quantum },
}

impl Schedule {
    ghost use Rattle.mx_proc.specs.Schedules.{first_schedule, renewed_schedule, spent_schedule};

    /// The schedule of a process that begins: a full quantum, in the list of the terms.
    pub fn new(terms: Terms) -> Schedule
        ensures { result ≡ first_schedule terms }
    {
        Schedule {
            terms,
            level: terms.level,
            ticks: terms.quantum,
        }
    }

    /// A new quantum, in the list nearest to this one of those that the terms allow.
    pub fn renew(&mut self, level: u8)
        ensures { self.new ≡ renewed_schedule level self.old }
    {
        self.level = level.min(LOWEST).max(self.terms.best);
        self.ticks = self.terms.quantum;
    }

    /// Takes these ticks off the quantum.
    pub fn spend(&mut self, ticks: u32)
        requires { ticks ≤ self.old.ticks }
        ensures { self.new ≡ spent_schedule ticks self.old }
    {
        self.ticks -= ticks;
    }
}

/// A process. While it is on a processor, `image` is blank: the processor has the real one.
#[derive(Drop)]
pub struct Process {
    pub state: State,
    /// How often the slot's process was replaced.
    pub generation: u32,
    /// How many of the service's restarts are used up.
    pub restarts_used: u32,
    pub schedule: Schedule,
    /// How many steps this process has made. (The one before it in the slot doesn't count.)
    pub steps: u64,
    /// Whose notifications are pending for this process. `Source::place` is the index of a source's bit.
    pub pending: [bool; 34],
    /// Which interrupt lines were raised for it and not yet reported: bit l is for line l.
    pub lines: u32,
    /// The uptime, in ticks of the clock, at which its alarm rings; `None` if it has no alarm.
    pub alarm: Option<u64>,
    /// For the process of each slot: the window of this process's memory that it may use, if any.
    pub windows: [Option<Window>; 32],
    pub image: Image,
}

impl Process {
    ghost use Rattle.mx_proc.specs.TableState.{new_process, process_after};

    /// The first process of a slot, by these terms: ready, with a full quantum.
    pub fn new(terms: Terms, image: Image) -> Process
        ensures { result ≡ new_process image terms }
    {
        Process {
            state: State::Ready,
            generation: 0,
            restarts_used: 0,
            schedule: Schedule::new(terms),
            steps: 0,
            pending: [false; 34],
            lines: 0,
            alarm: None,
            windows: [None; 32],
            image,
        }
    }

    /// The process after a dead one in its slot: a new one, of the next generation, with one restart more
    /// used up.
    pub fn after(dead: &Process, terms: Terms, image: Image) -> Process
        requires generation { dead.now.generation + 1 < 2 ^ 32 }
        requires restarts { dead.now.restarts_used + 1 < 2 ^ 32 }
        ensures { result ≡ process_after dead.now image terms }
    {
        Process {
            generation: dead.generation + 1,
            restarts_used: dead.restarts_used + 1,
            ..Process::new(terms, image)
        }
    }
}

impl State {
    /// Whether the process is in the ready list of its level.
    pub fn is_ready(self) -> bool
        ensures { result ≡ is_ready self }
    {
        matches!(self, State::Ready)
    }

    /// Whether the process is dead.
    pub fn is_down(self) -> bool
        ensures { result ≡ is_down self }
    {
        matches!(self, State::Down(_))
    }
}
