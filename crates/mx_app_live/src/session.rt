//! A session: somebody sits at a machine.

ghost use Rattle.std.specs.Prelude.{◌≡◌, ◌<◌, ◌++◌, ◌∷◌, [], List, IfErr, IfOk, OnOk, MatchResult, length, not, true};
ghost use Rattle.std.specs.Io.KnownBytes.{Appends};
ghost use Rattle.mx_app_failure.specs.Failure.{IsWanting, PrintsFront};
ghost use Rattle.mx_machine.specs.Machine.{world_of};
ghost use Rattle.mx_machine.specs.Rest.{at_rest};
ghost use Rattle.mx_machine.specs.World.{actors};
ghost use Rattle.mx_turns.specs.Made.{HasMade, HasOffered};
ghost use Rattle.mx_turns.specs.Turns.{offered, world_after};
ghost use Rattle.mx_typist.specs.Typing.{has_room, raise_of, typing_after_key, typing_after_look};
ghost use Rattle.mx_app_live.specs.declared.outside.Heard.{Heard as Heards};
ghost use Rattle.mx_keyboard.specs.Keyboard.{raise_events, seen_of};
ghost use Rattle.mx_spool.specs.Written.{console_of};
ghost use Rattle.mx_app_live.specs.Session.{IsSession, IsUnshown, Part, doing, ending_if, going_on, hearing, is_full, is_over, kill_note, kill_offered, kill_told, refused_if, round_length, round_turns, seat_of, turns_at};

use crate::keyboard::{endpoint_at, is_driven, look_at, offer, raise};
use crate::outside::{Asking, Heard, Note, Outside, Sitting};
use crate::screen::show;
use mx_app_failure::Failure;
use mx_app_start::NoProgress;
use mx_machine::{Event, Machine};
use mx_turns::{Ending, Outside as Coming, make_turns};
use mx_typist::{Pending, Typist, Wanted};
use std::io::Write;

/// How many turns are made in a round in which nothing typed waits. So a round is short, and the bytes that it writes
/// are far fewer than a console keeps.
const TURNS: u64 = 16;

/// How a session ends.
#[derive(Clone, Copy, Debug, PartialEq, Eq)]
pub enum SessionEnding {
    /// The machine is at rest, and nothing more can come to it.
    Rest,
    /// The history is full.
    Full,
    /// Who sits there has left.
    Left,
    /// It was stopped.
    Stopped,
}

/// What a session knows besides its machine.
#[derive(Drop)]
pub(crate) struct Session {
    pub typist: Typist,
    /// What was typed of a command.
    pub pending: Pending,
    /// How many bytes of the console are on the screen.
    pub shown: u32,
    /// Whether no more keys will come.
    pub is_deaf: bool,
    /// Room for the bytes that are shown at once.
    pub bytes: Vec<u8>,
}

/// Whether a machine is at rest.
fn is_at_rest(machine: &Machine) -> bool
    ensures { result ≡ at_rest (world_of machine.now) }
{
    machine.kernel().at_rest()
}

/// How many records a machine's history has.
pub(crate) fn records_of(machine: &Machine) -> usize
    ensures { result ≡ (world_of machine.now).records }
{
    let kernel = machine.kernel();
    kernel.facts();
    kernel.history().len()
}

/// How many turns a round has: one if a typed byte waits, so that the next is raised soon.
fn round_length(waiting: usize) -> u64
    ensures { result ≡ round_length waiting }
{
    if waiting > 0 { 1 } else { TURNS }
}

/// Whether turns ended since the history is full.
fn has_filled(ending: Ending) -> bool
    ensures { result ≡ is_full ending }
{
    match ending {
        Ending::Full => true,
        _ => false,
    }
}

/// The turns of a round. Answers whether the history is full.
fn make_round(machine: &mut Machine, waiting: usize) -> bool
    requires other { length (world_of machine.old).cpus < actors (world_of machine.old) }
    ensures made { HasMade machine.old (round_turns waiting (world_of machine.old)).made
        machine.new }
    ensures full { result ≡ is_full (round_turns waiting (world_of machine.old)).ending }
    ensures other { length (world_of machine.new).cpus < actors (world_of machine.new) }
{
    let coming = Coming {
        events: &[],
        ticks: 0,
    };
    let mut progress = NoProgress::new();
    let ending = make_turns(machine, coming, round_length(waiting), 0, &mut progress);
    has_filled(ending)
}

/// Whether nothing more can come to a machine at rest: all that was typed is taken or nobody can take it, and no more
/// keys and no ticks will come.
fn is_over(machine: &Machine, session: &Session, has_clock: bool) -> bool
    ensures { result ≡ is_over has_clock (seat_of (world_of machine.now) session.now) }
{
    if !is_at_rest(machine) {
        return false;
    }
    let is_driven = is_driven(machine);
    if session.is_deaf {
        return session.typist.waiting() == 0 || session.typist.flight().is_some() || !is_driven;
    }
    !is_driven && !has_clock
}

/// Looks at the machine, and raises the next typed byte if it is time to. Answers whether the history is too full.
fn raise_next(machine: &mut Machine, typist: &mut Typist) -> bool
    requires other { length (world_of machine.old).cpus < actors (world_of machine.old) }
    ensures offered { HasOffered machine.old (offered (world_of machine.old)
        (raise_events (length (world_of machine.old).cpus)
        (raise_of (seen_of (world_of machine.old).table typist.old.flight) typist.old)))
        result machine.new }
    ensures typing { typist.new ≡ typing_after_look
        (seen_of (world_of machine.old).table typist.old.flight) typist.old }
    ensures other { length (world_of machine.new).cpus < actors (world_of machine.new) }
{
    let seen = look_at(machine, typist.flight());
    match typist.look(seen) {
        Some(byte) => raise(machine, byte),
        None => false,
    }
}

/// Turns, what they wrote, and the next byte. Answers how the session ends, if it does.
fn go_on<W: Write>(
    machine: &mut Machine,
    session: &mut Session,
    has_clock: bool,
    screen: &mut W,
) -> Result<Option<SessionEnding>, Failure>
    requires other { length (world_of machine.old).cpus < actors (world_of machine.old) }
    requires shown { session.old.shown ≡ (world_of machine.old).table.devices.console.count }
    ensures going { IfOk result (λ e. HasMade machine.old
        (going_on has_clock (seat_of (world_of machine.old) session.old)).made machine.new
        × (seat_of (world_of machine.new) session.new
        ≡ (going_on has_clock (seat_of (world_of machine.old) session.old)).after)
        × (e ≡ (going_on has_clock (seat_of (world_of machine.old) session.old)).ending)) }
    ensures text { OnOk result (Appends (W.contents screen.old) (W.contents screen.new)
        (console_of (world_of machine.old)
        (going_on has_clock (seat_of (world_of machine.old) session.old)).made)) }
    ensures failed { IfErr result (λ f. IsWanting f × HasMade machine.old
        (turns_at (seat_of (world_of machine.old) session.old)).made machine.new
        × PrintsFront (λ front. Appends (W.contents screen.old) (W.contents screen.new) front)
        (console_of (world_of machine.old)
        (turns_at (seat_of (world_of machine.old) session.old)).made)) }
    ensures shown { OnOk result (session.new.shown
        ≡ (world_of machine.new).table.devices.console.count) }
    ensures other { length (world_of machine.new).cpus < actors (world_of machine.new) }
{
    machine.facts();
    let has_filled = make_round(machine, session.typist.waiting());
    session.shown = show(machine, session.shown, &mut session.bytes, screen)?;
    if has_filled {
        return Ok(Some(SessionEnding::Full));
    }
    if raise_next(machine, &mut session.typist) {
        return Ok(Some(SessionEnding::Full));
    }
    if is_over(machine, session, has_clock) {
        return Ok(Some(SessionEnding::Rest));
    }
    Ok(None)
}

/// How a session ends by an event, if the history is too full for it.
fn full_if(is_full: bool) -> Option<SessionEnding>
    ensures { result ≡ ending_if is_full SessionEnding.Full }
{
    if is_full {
        Some(SessionEnding::Full)
    } else {
        None
    }
}

/// Kills the process of a slot, if there is the slot. Answers whether the history is too full for it.
fn kill(machine: &mut Machine, slot: u8) -> bool
    requires other { length (world_of machine.old).cpus < actors (world_of machine.old) }
    ensures offered { HasOffered machine.old (kill_offered (world_of machine.old) slot)
        result machine.new }
    ensures other { length (world_of machine.new).cpus < actors (world_of machine.new) }
{
    match endpoint_at(machine, slot) {
        Some(endpoint) => offer(machine, Event::Kill(endpoint)),
        None => false,
    }
}

/// What is told of a kill in a slot, by how many records there were before it and are after it.
fn kill_note(slot: u8, before: usize, records: usize) -> Note
    ensures { result ≡ kill_note slot before records }
{
    if before < records {
        Note::Killed(records)
    } else {
        Note::NobodyKilled(slot)
    }
}

/// Kills the process of a slot, and tells what became of it. Answers whether the history is too full for it.
fn kill_and_tell<O: Outside>(machine: &mut Machine, slot: u8, outside: &mut O) -> bool
    requires other { length (world_of machine.old).cpus < actors (world_of machine.old) }
    ensures offered { HasOffered machine.old (kill_offered (world_of machine.old) slot)
        result machine.new }
    ensures told { O.told outside.new ≡ O.told outside.old ++ kill_told slot (world_of machine.old)
        (world_after (world_of machine.old) (kill_offered (world_of machine.old) slot)) ∷ [] }
    ensures heard { O.heard outside.new ≡ O.heard outside.old }
    ensures other { length (world_of machine.new).cpus < actors (world_of machine.new) }
{
    let before = records_of(machine);
    let is_full = kill(machine, slot);
    let records = records_of(machine);
    outside.tell(kill_note(slot, before, records));
    is_full
}

/// A byte is typed, if there is room for it; else it is told that there is none.
fn type_byte<O: Outside>(typist: &mut Typist, byte: u8, outside: &mut O)
    ensures typed { typist.new ≡ typing_after_key byte typist.old }
    ensures told { O.told outside.new ≡ O.told outside.old
        ++ refused_if (not (has_room typist.old)) }
    ensures heard { O.heard outside.new ≡ O.heard outside.old }
{
    if !typist.push(byte) {
        outside.tell(Note::Refused);
    }
}

/// Does what a key asks for. Answers how the session ends, if it does.
fn do_wanted<O: Outside>(
    machine: &mut Machine,
    session: &mut Session,
    wanted: Wanted,
    outside: &mut O,
) -> Option<SessionEnding>
    requires other { length (world_of machine.old).cpus < actors (world_of machine.old) }
    ensures done { HasMade machine.old
        (doing (seat_of (world_of machine.old) session.old) wanted).made machine.new
        × (seat_of (world_of machine.new) session.new
        ≡ (doing (seat_of (world_of machine.old) session.old) wanted).after)
        × (result ≡ (doing (seat_of (world_of machine.old) session.old) wanted).ending)
        × (O.told outside.new ≡ O.told outside.old
        ++ (doing (seat_of (world_of machine.old) session.old) wanted).told) }
    ensures heard { O.heard outside.new ≡ O.heard outside.old }
    ensures other { length (world_of machine.new).cpus < actors (world_of machine.new) }
    ensures shown { session.new.shown ≡ session.old.shown }
{
    match wanted {
        Wanted::More => None,
        Wanted::Key(byte) => {
            type_byte(&mut session.typist, byte, outside);
            None
        }
        Wanted::Kill(slot) => full_if(kill_and_tell(machine, slot, outside)),
        Wanted::Tick => full_if(offer(machine, Event::Tick)),
        Wanted::Help => {
            outside.tell(Note::Help(records_of(machine)));
            None
        }
        Wanted::End => Some(SessionEnding::Left),
        Wanted::Unknown => {
            outside.tell(Note::Refused);
            None
        }
    }
}

/// Does what was heard. Answers how the session ends, if it does.
fn do_heard<O: Outside>(
    machine: &mut Machine,
    session: &mut Session,
    heard: Heard,
    outside: &mut O,
) -> Option<SessionEnding>
    requires other { length (world_of machine.old).cpus < actors (world_of machine.old) }
    ensures done { HasMade machine.old
        (hearing (seat_of (world_of machine.old) session.old) heard).made machine.new
        × (seat_of (world_of machine.new) session.new
        ≡ (hearing (seat_of (world_of machine.old) session.old) heard).after)
        × (result ≡ (hearing (seat_of (world_of machine.old) session.old) heard).ending)
        × (O.told outside.new ≡ O.told outside.old
        ++ (hearing (seat_of (world_of machine.old) session.old) heard).told) }
    ensures heard { O.heard outside.new ≡ O.heard outside.old }
    ensures other { length (world_of machine.new).cpus < actors (world_of machine.new) }
    ensures shown { session.new.shown ≡ session.old.shown }
{
    match heard {
        Heard::Nothing => None,
        Heard::Key(key) => {
            let wanted = session.pending.wanted(key);
            session.pending = session.pending.after(key);
            do_wanted(machine, session, wanted, outside)
        }
        Heard::Tick => full_if(offer(machine, Event::Tick)),
        Heard::NoMoreKeys => {
            session.is_deaf = true;
            None
        }
        Heard::Stop => Some(SessionEnding::Stopped),
    }
}

/// Asks what comes from outside.
fn listen<O: Outside>(
    machine: &Machine,
    typist: &Typist,
    sitting: Sitting<'_>,
    outside: &mut O,
) -> Heard
    ensures heard { O.heard outside.new ≡ O.heard outside.old ++ result ∷ [] }
    ensures told { O.told outside.new ≡ O.told outside.old }
{
    let at_rest = is_at_rest(machine);
    outside.hear(Asking {
        sitting,
        is_idle: at_rest && typist.waiting() == 0,
        at_rest,
        has_room: typist.has_room(),
    })
}

/// Lets a machine go on, round by round: turns; the bytes that they wrote to the console go to the screen; the next
/// typed byte is raised, if the driver of the keyboard has taken those before it; and what comes from outside is done.
pub(crate) fn hold_session<O: Outside, W: Write>(
    machine: &mut Machine,
    session: &mut Session,
    has_clock: bool,
    sitting: Sitting<'_>,
    outside: &mut O,
    screen: &mut W,
) -> Result<SessionEnding, Failure>
    requires other { length (world_of machine.old).cpus < actors (world_of machine.old) }
    requires shown { session.old.shown ≡ (world_of machine.old).table.devices.console.count }
    ensures held { (hs : List Heards) × (p : Part)
        × (O.heard outside.new ≡ O.heard outside.old ++ hs)
        × (O.told outside.new ≡ O.told outside.old ++ p.told)
        × HasMade machine.old p.made machine.new
        × MatchResult result
        (λ e. IsSession has_clock (seat_of (world_of machine.old) session.old) hs p e
        × (seat_of (world_of machine.new) session.new ≡ p.after)
        × Appends (W.contents screen.old) (W.contents screen.new)
        (console_of (world_of machine.old) p.made))
        (λ f. IsWanting f
        × IsUnshown has_clock (seat_of (world_of machine.old) session.old) hs p
        × PrintsFront (λ front. Appends (W.contents screen.old) (W.contents screen.new) front)
        (console_of (world_of machine.old) p.made)) }
    ensures other { length (world_of machine.new).cpus < actors (world_of machine.new) }
{
    for _ in 0..u64::MAX {
        let gone = go_on(machine, session, has_clock, screen)?;
        if let Some(ending) = gone {
            return Ok(ending);
        }
        let heard = listen(machine, &session.typist, sitting, outside);
        let done = do_heard(machine, session, heard, outside);
        if let Some(ending) = done {
            return Ok(ending);
        }
    }
    Ok(SessionEnding::Stopped)
}
