//! Who sits at a machine of the runtime: keys come from standard input, and standard error is told what is to be told.

ghost use Rattle.std.specs.Prelude.{◌≡◌, ◌++◌, ◌∷◌, [], Some, None, IfOk, OnErr, true, false};

use crate::noted::Noted;
use crate::outside::{Asking, Heard, Note, Outside};
use crate::session::SessionEnding;
use std::io::{IsTerminal, Read};
use std::rt::Files;
use std::time::{Clock, Duration, Instant};
use std::{fs, io, thread};

/// How many keys are read at once: what a terminal keeps at most.
const KEYS: usize = 4096;

/// After how many milliseconds the next keys are read while the machine works.
const PAUSE: u64 = 2;

/// After how many milliseconds it is asked again whether the session was stopped.
const STOP_PAUSE: u64 = 20;

/// After how many milliseconds without room keys are read on, for the sake of commands.
const PATIENCE: u64 = 2000;

/// What is heard of a runtime: its keys, its clock, and the file that ends a session.
#[derive(Drop)]
struct Ear<'a, R> {
    rt: &'a R,
    keys: [u8; KEYS],
    first: usize,
    count: usize,
    began: Option<Instant>,
    /// How many ticks were made.
    ticks: u64,
    /// When keys were read last, when the stop was looked for, and when there was room for a key, in milliseconds.
    read_at: u64,
    looked_at: u64,
    room_at: u64,
    is_over: bool,
}

impl<'a, R: Clock> Ear<'a, R> {
    /// Nothing is heard yet.
    fn new(rt: &'a R) -> Ear<'a, R> {
        Ear {
            rt,
            keys: [0; KEYS],
            first: 0,
            count: 0,
            began: Instant::now(rt).ok(),
            ticks: 0,
            read_at: 0,
            looked_at: 0,
            room_at: 0,
            is_over: false,
        }
    }

    /// How many milliseconds it is there.
    fn now(&self) -> u64 {
        let Some(began) = self.began else {
            return 0;
        };
        match began.elapsed(self.rt) {
            Ok(passed) => u64::try_from(passed.as_millis()).unwrap_or(u64::MAX),
            Err(_) => 0,
        }
    }

    /// Whether the clock's next tick is due. Then it counts as made.
    fn ticks_at(&mut self, now: u64, hertz: u32) -> bool {
        let due = now.saturating_mul(u64::from(hertz)) / 1000;
        if self.ticks < due {
            self.ticks += 1;
            return true;
        }
        false
    }

    /// The next key of those that were read.
    fn next_key(&mut self) -> Option<u8> {
        if self.first >= self.count || self.first >= KEYS {
            return None;
        }
        let key = self.keys[self.first];
        self.first += 1;
        Some(key)
    }

    /// Whether a key is wanted: there is room for it, or there was none for long.
    fn wants_key(&mut self, now: u64, has_room: bool) -> bool {
        if has_room {
            self.room_at = now;
        }
        has_room || now.saturating_sub(self.room_at) > PATIENCE
    }
}

impl<'a, R: Clock + Files> Ear<'a, R> {
    /// Whether the file that ends the session is there.
    fn has_stop(&self, stop: Option<&str>) -> bool {
        match stop {
            Some(name) => fs::metadata(self.rt, name).is_ok(),
            None => false,
        }
    }

    /// Whether it is there, if it is time to look.
    fn is_stopped(&mut self, now: u64, stop: Option<&str>) -> bool {
        if now.saturating_sub(self.looked_at) < STOP_PAUSE {
            return false;
        }
        self.looked_at = now;
        self.has_stop(stop)
    }
}

impl<'a, R: Clock + Files + Input + Eprint> Ear<'a, R>
where
    R::Reader: IsTerminal,
{
    /// No more keys will come.
    fn end_keys(&mut self) -> Heard {
        self.is_over = true;
        Heard::NoMoreKeys
    }

    /// Reads keys. A terminal that gives each key at once may have none; else a read that gives none is their end, and so
    /// is one that fails. A terminal that was closed is none any more.
    fn read_keys(&mut self, is_raw: bool) -> Heard {
        let mut reader = self.rt.reader();
        let read = reader.read(&mut self.keys);
        self.first = 0;
        self.count = 0;
        match read {
            Ok(0) if is_raw && reader.is_terminal() => Heard::Nothing,
            Ok(0) => self.end_keys(),
            Err(_) => {
                let _ = eprint!(self.rt; "mx: no more keys: standard input can't be read\n");
                self.end_keys()
            }
            Ok(count) => {
                self.count = count;
                match self.next_key() {
                    Some(key) => Heard::Key(key),
                    None => Heard::Nothing,
                }
            }
        }
    }

    /// Reads keys, if it is time to: a read that may wait is only made if there is nothing else to do.
    fn read_in_time(&mut self, now: u64, asking: Asking<'_>) -> Heard {
        let may_read = !self.is_over
            && if asking.sitting.is_raw {
                asking.is_idle || now.saturating_sub(self.read_at) >= PAUSE
            } else {
                asking.is_idle
            };
        if !may_read {
            return Heard::Nothing;
        }
        self.read_at = now;
        self.read_keys(asking.sitting.is_raw)
    }

    /// What comes from outside now.
    fn next_heard(&mut self, asking: Asking<'_>) -> Heard {
        let now = self.now();
        if self.is_stopped(now, asking.sitting.stop) {
            return Heard::Stop;
        }
        if self.ticks_at(now, asking.sitting.hertz) {
            return Heard::Tick;
        }
        if !self.wants_key(now, asking.has_room) {
            return Heard::Nothing;
        }
        if let Some(key) = self.next_key() {
            return Heard::Key(key);
        }
        match self.read_in_time(now, asking) {
            // Who stops a session ends its input too.
            Heard::NoMoreKeys if self.has_stop(asking.sitting.stop) => Heard::Stop,
            heard => heard,
        }
    }
}

/// Somebody at the runtime's standard streams.
#[derive(Drop)]
pub struct Seat<'a, R> {
    ear: Ear<'a, R>,
    heard: Noted<Heard>,
    told: Noted<Note>,
}

impl<'a, R: Clock> Seat<'a, R> {
    /// Somebody at a runtime's streams, who has typed nothing yet.
    pub fn new(rt: &'a R) -> Seat<'a, R>
        ensures heard { result.heard.items ≡ [] }
        ensures told { result.told.items ≡ [] }
    {
        Seat {
            ear: Ear::new(rt),
            heard: Noted::new(),
            told: Noted::new(),
        }
    }
}

/// How a session's end is said.
fn word_of(ending: SessionEnding) -> &'static str {
    match ending {
        SessionEnding::Rest => "rest",
        SessionEnding::Full => "full",
        SessionEnding::Left => "left",
        SessionEnding::Stopped => "stopped",
    }
}

/// Prints a note.
fn print_note(rt: &impl Eprint, note: Note) {
    let _ = match note {
        Note::Refused => eprint!(rt; "\x07"),
        Note::Help(records) => {
            eprint!(rt;
                "\nmx: Ctrl-A and then x leaves, k and a slot (0-9, a-v) kills, t ticks, a is Ctrl-A; {records} records\n"
            )
        }
        Note::Killed(record) => eprint!(rt; "\nmx: killed at record {record}\n"),
        Note::NobodyKilled(slot) => eprint!(rt; "\nmx: nobody to kill in slot {slot}\n"),
        Note::Ended(ending, records, untaken) => {
            let word = word_of(ending);
            if untaken > 0 {
                eprint!(rt;
                    "mx: {word} after {records} records; {untaken} typed bytes weren't taken\n"
                )
            } else {
                eprint!(rt; "mx: {word} after {records} records\n")
            }
        }
    };
}

impl<'a, R: Clock + Files + Input + Eprint> Outside for Seat<'a, R>
where
    R::Reader: IsTerminal,
{
    ghost heard = { λ seat. seat.heard.items };

    ghost told = { λ seat. seat.told.items };

    fn hear(&mut self, asking: Asking<'_>) -> Heard {
        let heard = self.ear.next_heard(asking);
        if let Heard::Nothing = heard {
            if asking.at_rest {
                thread::sleep(self.ear.rt, Duration::from_millis(1));
            }
        }
        self.heard = self.heard.and(&heard);
        heard
    }

    fn tell(&mut self, note: Note) {
        print_note(self.ear.rt, note);
        self.told = self.told.and(&note);
    }
}

/// Nobody: no key ever comes.
#[derive(Drop)]
pub struct Nobody {
    heard: Noted<Heard>,
    told: Noted<Note>,
}

impl Nobody {
    /// Nobody, who was asked and told nothing yet.
    pub fn new() -> Nobody
        ensures heard { result.heard.items ≡ [] }
        ensures told { result.told.items ≡ [] }
    {
        Nobody {
            heard: Noted::new(),
            told: Noted::new(),
        }
    }
}

impl Outside for Nobody {
    ghost heard = { λ nobody. nobody.heard.items };

    ghost told = { λ nobody. nobody.told.items };

    fn hear(&mut self, _asking: Asking<'_>) -> Heard {
        let heard = Heard::NoMoreKeys;
        self.heard = self.heard.and(&heard);
        heard
    }

    fn tell(&mut self, note: Note) {
        self.told = self.told.and(&note);
    }
}
