//! Machines that are worked by hand, event by event.

ghost use Rattle.std.specs.Prelude.{◌≡◌};

use crate::kernel_numbers::{EBADREQUEST, ECALLDENIED, EDEADDST, EPERM, EXIT, OK, VIRCOPY};
use crate::machines::small_reader;
use mx_app_start::{Script, start};
use mx_exec::{Image, Outcome};
use mx_machine::{Answer, Event, Held, Machine, Out, Refusal, Tool};
use mx_proc::{ANY, DeathCause, Partner, Process, SYSTEM, State, Table, Terms};
use mx_respawn::{Service, is_worn};
use mx_word::{Register, Size};
use std::alloc::Global;
use std::process::Abort;

/// Work with a machine that has just started from a configuration.
struct Row {
    name: &'static str,
    config: &'static str,
    task: Task,
}

/// The work of a row.
enum Task {
    /// Events in a row, and what is seen after the last of them.
    Events {
        events: &'static [EventRow],
        ends: &'static [End],
    },
    /// Rounds, each by the list `ROUND`.
    Rounds(&'static [Round]),
    /// Runs of a tool.
    Runs,
    /// A question about a process of the last service.
    Worn(Worn),
}

/// An event that an actor makes a number of times, and the answer to the last of them. Before that one,
/// each step goes on, and each other event is done.
struct EventRow {
    actor: u8,
    event: Event,
    times: u32,
    answer: Result<Answer, Refusal>,
}

/// The row from which another gives only what differs.
const EVENT_ROW: EventRow = EventRow {
    actor: 0,
    event: Event::Step,
    times: 1,
    answer: GO,
};

/// A row on one line, with the fields that differ from those of `EVENT_ROW`.
macro_rules! event_row {
    ($($field:ident: $value:expr),+) => { EventRow { $($field: $value,)+ ..EVENT_ROW } };
}

const GO: Result<Answer, Refusal> = Ok(Answer::Went(Outcome::Go));

const TRAP: Result<Answer, Refusal> = Ok(Answer::Went(Outcome::Trap));

const FAULT: Result<Answer, Refusal> = Ok(Answer::Went(Outcome::Fault(13)));

const DONE: Result<Answer, Refusal> = Ok(Answer::Done);

/// The actor that is none of the eight processors.
const OTHER: u8 = 8;

/// A slot after the last row, with the number at a place of its memory.
struct End {
    slot: u8,
    state: State,
    level: u8,
    ticks: u32,
    steps: u64,
    eax: u32,
    place: u32,
    word: u32,
}

/// An end on two lines.
macro_rules! end {
    ($($field:ident: $value:expr),+) => { End { $($field: $value),+ } };
}

const READY: State = State::Ready;

const RECEIVING: State = State::Receiving(Partner::Any);

const EXITED: State = State::Down(DeathCause::Exit);

const KILLED: State = State::Down(DeathCause::Kill);

const FAULTED: State = State::Down(DeathCause::Fault(13));

/// A round: the endpoint of the process that is taken, its budget, and its steps, the last of them a trap.
struct Round {
    process: u32,
    budget: u32,
    steps: u32,
}

/// A process that is down, and whether it is worn: no respawn is left to it.
struct Worn {
    generation: u32,
    restarts_used: u32,
    is_worn: bool,
}

fn sends<T: Send>(_: &T) {}

/// One run of this many steps.
#[derive(Drop)]
struct Steps(u32);

impl Tool for Steps {
    ghost steps = { λ tool out. tool.0 };

    ghost Becomes = { λ tool out after. after ≡ tool };

    fn work(&mut self, out: &mut Out) {
        out.run(self.0);
    }
}

fn work<T: Tool>(machine: &mut Machine, cpu: u8, tool: &mut T) -> Result<(), Refusal> {
    machine.work(cpu, tool)
}

/// How the last of a row's events is answered. Those before it are steps that go on, or are done.
fn last_answer(rt: &impl Abort, machine: &mut Machine, row: &EventRow) -> Result<Answer, Refusal> {
    let EventRow {
        actor,
        event,
        times,
        ..
    } = *row;
    for _ in 1..times {
        assert!(rt; (actor as usize) < machine.actors());
        let answer = machine.apply(actor, event);
        assert!(rt; answer == GO || answer == DONE);
    }
    assert!(rt; (actor as usize) < machine.actors());
    machine.apply(actor, event)
}

fn are_answered(rt: &impl Abort, machine: &mut Machine, events: &[EventRow]) -> bool {
    for row in events {
        if last_answer(rt, machine, row) != row.answer {
            return false;
        }
    }
    true
}

fn has_end(rt: &impl Abort, table: &Table, end: &End) -> bool {
    assert!(rt; end.slot < table.slot_count());
    let process = table.process(end.slot);
    process.state == end.state
        && process.schedule.level == end.level
        && process.schedule.ticks == end.ticks
        && process.steps == end.steps
        && process.image.register(Register::Eax) == end.eax
        && process.image.memory.read(end.place, Size::Dword) == Ok(end.word)
}

fn has_ends(rt: &impl Abort, table: &Table, ends: &[End]) -> bool {
    for end in ends {
        if !has_end(rt, table, end) {
            return false;
        }
    }
    true
}

/// A round by the list, as a machine takes it: actors and their events. A process is taken, steps until it
/// is refused a step, and comes back.
static ROUND: &[(u8, Event)] = &[
    (0, Event::Take),
    (0, Event::Step),
    (0, Event::Step),
    (0, Event::Step),
    (0, Event::Step),
    (0, Event::Step),
    (0, Event::Step),
    (0, Event::Back),
];

fn is_round(answers: &[Result<Answer, Refusal>], round: &Round) -> bool {
    answers.len() == 8
        && answers[0] == Ok(Answer::Taken(round.process, round.budget))
        && answers.get(round.steps as usize) == Some(&TRAP)
        && answers[6] == Err(Refusal::AtStop)
        && answers[7] == Ok(Answer::Returned(round.steps))
}

fn are_rounds(alloc: Global, machine: &mut Machine, rounds: &[Round]) -> bool {
    let mut answers = Vec::new(alloc);
    for round in rounds {
        answers.clear();
        if machine.run(ROUND, &mut answers).is_err() || !is_round(answers.as_slice(), round) {
            return false;
        }
    }
    true
}

/// Whether a tool's run by its trait's bound is as wanted, and is refused if a processor is empty.
fn is_lent(machine: &mut Machine) -> bool {
    work(machine, 0, &mut Steps(9)) == Err(Refusal::CpuEmpty)
        && work(machine, 8, &mut Steps(1)) == Err(Refusal::CpuEmpty)
        && machine.apply(0, Event::Take) == Ok(Answer::Taken(0, 5))
        && work(machine, 0, &mut Steps(2)) == Ok(())
        && work(machine, 0, &mut Steps(9)) == Ok(())
        && machine.image(0).is_some()
        && machine.image(1).is_none()
        && machine.apply(0, Event::Back) == Ok(Answer::Returned(3))
}

/// A process that is down.
fn down(alloc: Global, terms: Terms, generation: u32, restarts_used: u32) -> Process {
    let mut process = Process::new(terms, Image::blank(alloc));
    process.state = State::Down(DeathCause::Exit);
    process.generation = generation;
    process.restarts_used = restarts_used;
    process
}

/// Whether a process of the last service is worn, or isn't, as the row wants. It is made by hand,
/// since no history is long enough for the last generation.
fn has_worn(alloc: Global, services: &[Service], worn: &Worn) -> bool {
    match services {
        [.., service] => {
            let process = down(alloc, service.terms, worn.generation, worn.restarts_used);
            is_worn(&process, service) == worn.is_worn
        }
        _ => false,
    }
}

fn is_done(rt: &impl Abort, alloc: Global, machine: &mut Machine, task: &Task) -> bool {
    sends(machine.kernel());
    match task {
        Task::Events { events, ends } => {
            are_answered(rt, machine, *events) && has_ends(rt, machine.kernel().table(), *ends)
        }
        Task::Rounds(rounds) => are_rounds(alloc, machine, *rounds),
        Task::Runs => is_lent(machine),
        Task::Worn(worn) => has_worn(alloc, machine.kernel().services(), worn),
    }
}

fn is_worked(rt: &impl Abort, alloc: Global, row: &Row) -> bool {
    match start::<Script, _>(alloc, &mut small_reader(), row.config, "empty") {
        Ok(mut started) => is_done(rt, alloc, &mut started.machine, &row.task),
        Err(_) => false,
    }
}

fn all_worked(rt: &impl Abort, alloc: Global, rows: &[Row]) {
    for row in rows {
        let name = row.name;
        assert!(rt; is_worked(rt, alloc, row), "{name}");
    }
}

/// Calls, their answers, and a trap that is none.
static CALLS: &[Row] = &[
    Row {
        name: "a call and its answer",
        config: "asked",
        task: Task::Events {
            events: &[
                event_row! { actor: 0, event: Event::Take, answer: Ok(Answer::Taken(0, 20)) },
                event_row! { actor: 0, event: Event::Step, times: 4, answer: TRAP },
                event_row! { actor: 0, event: Event::Back, answer: Ok(Answer::Returned(4)) },
                event_row! { actor: 0, event: Event::Take, answer: Ok(Answer::Taken(1, 20)) },
                event_row! { actor: 0, event: Event::Step, times: 4, answer: TRAP },
                event_row! { actor: 0, event: Event::Back, answer: Ok(Answer::Returned(4)) },
                event_row! { actor: 0, event: Event::Take, answer: Ok(Answer::Taken(0, 16)) },
                event_row! { actor: 0, event: Event::Step, times: 3, answer: TRAP },
                event_row! { actor: 0, event: Event::Back, answer: Ok(Answer::Returned(3)) },
                event_row! { actor: 0, event: Event::Take, answer: Ok(Answer::Taken(0, 13)) },
                event_row! { actor: 0, event: Event::Step, times: 5, answer: TRAP },
                event_row! { actor: 0, event: Event::Back, answer: Ok(Answer::Returned(5)) },
                event_row! { actor: 0, event: Event::Take, answer: Ok(Answer::Taken(1, 16)) },
                event_row! { actor: 0, event: Event::Step, times: 4, answer: TRAP },
                event_row! { actor: 0, event: Event::Back, answer: Ok(Answer::Returned(4)) },
                event_row! { actor: 0, event: Event::Take, answer: Err(Refusal::NoProcess) },
            ],
            ends: &[
                end! { slot: 0, state: RECEIVING, level: 4, ticks: 8, steps: 12,
                    eax: ANY, place: 0, word: 1 },
                end! { slot: 1, state: EXITED, level: 7, ticks: 12, steps: 8,
                    eax: SYSTEM, place: 4, word: EXIT },
            ],
        },
    },
    Row {
        name: "a trap that is no call, and then the end of the text",
        config: "short",
        task: Task::Events {
            events: &[
                event_row! { actor: 0, event: Event::Take, answer: Ok(Answer::Taken(0, 5)) },
                event_row! { actor: 0, event: Event::Step, times: 3, answer: TRAP },
                event_row! { actor: 0, event: Event::Step, answer: Err(Refusal::AtStop) },
                event_row! { actor: 0, event: Event::Back, answer: Ok(Answer::Returned(3)) },
                event_row! { actor: 0, event: Event::Take, answer: Ok(Answer::Taken(0, 2)) },
                event_row! { actor: 0, event: Event::Step, answer: FAULT },
                event_row! { actor: 0, event: Event::Back, answer: Ok(Answer::Returned(1)) },
                event_row! { actor: 0, event: Event::Take, answer: Err(Refusal::NoProcess) },
            ],
            ends: &[
                end! { slot: 0, state: FAULTED, level: 7, ticks: 1, steps: 4,
                    eax: ECALLDENIED, place: 0, word: 0 },
            ],
        },
    },
    Row {
        name: "TIMES counts the steps up to its own trap",
        config: "times",
        task: Task::Events {
            events: &[
                event_row! { actor: OTHER, event: Event::Tick, answer: DONE },
                event_row! { actor: 0, event: Event::Take, answer: Ok(Answer::Taken(0, 20)) },
                event_row! { actor: 0, event: Event::Step, times: 2, answer: GO },
                event_row! { actor: 0, event: Event::Back, answer: Ok(Answer::Returned(2)) },
                event_row! { actor: 0, event: Event::Take, answer: Ok(Answer::Taken(0, 18)) },
                event_row! { actor: 0, event: Event::Step, times: 3, answer: TRAP },
                event_row! { actor: 0, event: Event::Back, answer: Ok(Answer::Returned(3)) },
            ],
            ends: &[
                end! { slot: 0, state: READY, level: 7, ticks: 15, steps: 5,
                    eax: OK, place: 8, word: 1 },
                end! { slot: 0, state: READY, level: 7, ticks: 15, steps: 5,
                    eax: OK, place: 12, word: 5 },
            ],
        },
    },
];

#[test]
fn calls(rt: HostRuntime) {
    all_worked(&rt, rt.alloc(), CALLS);
}

/// Events that are refused.
static REFUSALS: &[Row] = &[
    Row {
        name: "what is refused if a process is dead and has no restart",
        config: "short",
        task: Task::Events {
            events: &[
                event_row! { actor: OTHER, event: Event::Tick, answer: DONE },
                event_row! { actor: OTHER, event: Event::Kill(0), answer: DONE },
                event_row! { actor: OTHER, event: Event::Kill(0), answer: Err(Refusal::NoProcess) },
                event_row! { actor: OTHER, event: Event::Respawn(0), answer: Err(Refusal::Worn) },
                event_row! { actor: OTHER, event: Event::Line(3), answer: Err(Refusal::NoLine) },
                event_row! { actor: OTHER, event: Event::Respawn(5), answer: Err(Refusal::NoService) },
                event_row! { actor: 0, event: Event::Back, answer: Err(Refusal::CpuEmpty) },
            ],
            ends: &[end! { slot: 0, state: KILLED, level: 7, ticks: 5, steps: 0,
                    eax: 0, place: 0, word: 0 }],
        },
    },
    Row {
        name: "a history with room for two records",
        config: "log_of_two",
        task: Task::Events {
            events: &[
                event_row! { actor: 0, event: Event::Take, answer: Ok(Answer::Taken(0, 5)) },
                event_row! { actor: 0, event: Event::Back, answer: Ok(Answer::Returned(0)) },
                event_row! { actor: 1, event: Event::Tick, answer: Err(Refusal::LogFull) },
            ],
            ends: &[],
        },
    },
    Row {
        name: "a history with room for one record",
        config: "log_of_one",
        task: Task::Events {
            events: &[
                event_row! { actor: 0, event: Event::Take, answer: Err(Refusal::LogFull) },
                event_row! { actor: 0, event: Event::Tick, answer: DONE },
            ],
            ends: &[],
        },
    },
    Row {
        name: "eight processors take eight processes in slot order",
        config: "eight",
        task: Task::Events {
            events: &[
                event_row! { actor: 0, event: Event::Take, answer: Ok(Answer::Taken(0, 5)) },
                event_row! { actor: 1, event: Event::Take, answer: Ok(Answer::Taken(1, 5)) },
                event_row! { actor: 2, event: Event::Take, answer: Ok(Answer::Taken(2, 5)) },
                event_row! { actor: 3, event: Event::Take, answer: Ok(Answer::Taken(3, 5)) },
                event_row! { actor: 4, event: Event::Take, answer: Ok(Answer::Taken(4, 5)) },
                event_row! { actor: 5, event: Event::Take, answer: Ok(Answer::Taken(5, 5)) },
                event_row! { actor: 6, event: Event::Take, answer: Ok(Answer::Taken(6, 5)) },
                event_row! { actor: 7, event: Event::Take, answer: Ok(Answer::Taken(7, 5)) },
                event_row! { actor: 7, event: Event::Take, answer: Err(Refusal::CpuBusy) },
                event_row! { actor: 7, event: Event::Step, times: 3, answer: TRAP },
                event_row! { actor: 7, event: Event::Back, answer: Ok(Answer::Returned(3)) },
                event_row! { actor: 6, event: Event::Back, answer: Ok(Answer::Returned(0)) },
                event_row! { actor: 7, event: Event::Take, answer: Ok(Answer::Taken(6, 5)) },
                event_row! { actor: 6, event: Event::Take, answer: Ok(Answer::Taken(7, 2)) },
                event_row! { actor: 6, event: Event::Back, answer: Ok(Answer::Returned(0)) },
            ],
            ends: &[end! { slot: 7, state: READY, level: 7, ticks: 2, steps: 3,
                    eax: ECALLDENIED, place: 0, word: 0 }],
        },
    },
];

#[test]
fn refusals(rt: HostRuntime) {
    all_worked(&rt, rt.alloc(), REFUSALS);
}

/// Processes that are killed while another awaits them.
static DEATHS: &[Row] = &[
    Row {
        name: "who awaits a process that is killed goes on with EDEADDST",
        config: "looks",
        task: Task::Events {
            events: &[
                event_row! { actor: 0, event: Event::Take, answer: Ok(Answer::Taken(3, 20)) },
                event_row! { actor: 0, event: Event::Step, times: 5, answer: TRAP },
                event_row! { actor: 0, event: Event::Back, answer: Ok(Answer::Returned(5)) },
                event_row! { actor: 0, event: Event::Take, answer: Ok(Answer::Taken(0, 20)) },
                event_row! { actor: 0, event: Event::Step, times: 4, answer: TRAP },
                event_row! { actor: 0, event: Event::Back, answer: Ok(Answer::Returned(4)) },
                event_row! { actor: OTHER, event: Event::Kill(3), answer: DONE },
            ],
            ends: &[
                end! { slot: 0, state: READY, level: 7, ticks: 16, steps: 4,
                    eax: EDEADDST, place: 0, word: 0 },
                end! { slot: 3, state: KILLED, level: 4, ticks: 15, steps: 5,
                    eax: OK, place: 0, word: 7 },
            ],
        },
    },
    Row {
        name: "a process is killed on a processor: it dies as it comes back, and its call isn't made",
        config: "works",
        task: Task::Events {
            events: &[
                event_row! { actor: 0, event: Event::Take, answer: Ok(Answer::Taken(0, 24)) },
                event_row! { actor: 0, event: Event::Step, times: 4, answer: TRAP },
                event_row! { actor: 0, event: Event::Back, answer: Ok(Answer::Returned(4)) },
                event_row! { actor: 0, event: Event::Take, answer: Ok(Answer::Taken(1, 20)) },
                event_row! { actor: 0, event: Event::Step, times: 4, answer: TRAP },
                event_row! { actor: 0, event: Event::Back, answer: Ok(Answer::Returned(4)) },
                event_row! { actor: 0, event: Event::Take, answer: Ok(Answer::Taken(0, 20)) },
                event_row! { actor: 0, event: Event::Step, times: 10, answer: GO },
                event_row! { actor: OTHER, event: Event::Kill(0), answer: DONE },
                event_row! { actor: OTHER, event: Event::Respawn(0), answer: Err(Refusal::NotDown) },
                event_row! { actor: 1, event: Event::Take, answer: Err(Refusal::NoProcess) },
                event_row! { actor: 0, event: Event::Tick, answer: DONE },
                event_row! { actor: 0, event: Event::Step, times: 10, answer: TRAP },
                event_row! { actor: 0, event: Event::Back, answer: Ok(Answer::Returned(20)) },
            ],
            ends: &[
                end! { slot: 0, state: KILLED, level: 4, ticks: 0, steps: 24,
                    eax: 19, place: 0x40, word: 1 },
                end! { slot: 1, state: READY, level: 7, ticks: 16, steps: 4,
                    eax: EDEADDST, place: 0, word: 0 },
            ],
        },
    },
];

#[test]
fn deaths(rt: HostRuntime) {
    all_worked(&rt, rt.alloc(), DEATHS);
}

/// A driver that is killed and respawned.
static RESPAWNS: &[Row] = &[
    Row {
        name: "the driver is respawned: SEND to its old endpoint gives EDEADDST",
        config: "looks",
        task: Task::Events {
            events: &[
                event_row! { actor: 0, event: Event::Take, answer: Ok(Answer::Taken(3, 20)) },
                event_row! { actor: 0, event: Event::Step, times: 5, answer: TRAP },
                event_row! { actor: 0, event: Event::Back, answer: Ok(Answer::Returned(5)) },
                event_row! { actor: 0, event: Event::Take, answer: Ok(Answer::Taken(0, 20)) },
                event_row! { actor: 0, event: Event::Step, times: 4, answer: TRAP },
                event_row! { actor: 0, event: Event::Back, answer: Ok(Answer::Returned(4)) },
                event_row! { actor: OTHER, event: Event::Kill(3), answer: DONE },
                event_row! { actor: OTHER, event: Event::Respawn(3), answer: Ok(Answer::Respawned(1027)) },
                event_row! { actor: 0, event: Event::Take, answer: Ok(Answer::Taken(1027, 20)) },
                event_row! { actor: 1, event: Event::Take, answer: Ok(Answer::Taken(0, 16)) },
                event_row! { actor: 1, event: Event::Step, times: 3, answer: TRAP },
                event_row! { actor: 1, event: Event::Back, answer: Ok(Answer::Returned(3)) },
            ],
            ends: &[end! { slot: 0, state: READY, level: 7, ticks: 13, steps: 7,
                    eax: EDEADDST, place: 8, word: 0 }],
        },
    },
    Row {
        name: "the driver is respawned: its data are the file's, and WHOIS answers its new endpoint",
        config: "looks",
        task: Task::Events {
            events: &[
                event_row! { actor: 0, event: Event::Take, answer: Ok(Answer::Taken(3, 20)) },
                event_row! { actor: 0, event: Event::Step, times: 5, answer: TRAP },
                event_row! { actor: 0, event: Event::Back, answer: Ok(Answer::Returned(5)) },
                event_row! { actor: 0, event: Event::Take, answer: Ok(Answer::Taken(0, 20)) },
                event_row! { actor: 0, event: Event::Step, times: 4, answer: TRAP },
                event_row! { actor: 0, event: Event::Back, answer: Ok(Answer::Returned(4)) },
                event_row! { actor: OTHER, event: Event::Kill(3), answer: DONE },
                event_row! { actor: OTHER, event: Event::Respawn(3), answer: Ok(Answer::Respawned(1027)) },
                event_row! { actor: OTHER, event: Event::Respawn(3), answer: Err(Refusal::NotDown) },
                event_row! { actor: 0, event: Event::Take, answer: Ok(Answer::Taken(1027, 20)) },
                event_row! { actor: 1, event: Event::Take, answer: Ok(Answer::Taken(0, 16)) },
                event_row! { actor: 1, event: Event::Step, times: 3, answer: TRAP },
                event_row! { actor: 1, event: Event::Back, answer: Ok(Answer::Returned(3)) },
                event_row! { actor: 1, event: Event::Take, answer: Ok(Answer::Taken(0, 13)) },
                event_row! { actor: 1, event: Event::Step, times: 5, answer: TRAP },
                event_row! { actor: 1, event: Event::Back, answer: Ok(Answer::Returned(5)) },
                event_row! { actor: 0, event: Event::Back, answer: Ok(Answer::Returned(0)) },
            ],
            ends: &[
                end! { slot: 0, state: READY, level: 7, ticks: 8, steps: 12,
                    eax: OK, place: 8, word: 1027 },
                end! { slot: 3, state: READY, level: 4, ticks: 20, steps: 0,
                    eax: 0, place: 0, word: 0 },
            ],
        },
    },
];

#[test]
fn respawns(rt: HostRuntime) {
    all_worked(&rt, rt.alloc(), RESPAWNS);
}

/// Copies with a window, and by the rules that have none.
static WINDOWS: &[Row] = &[
    Row {
        name: "a copy into a window that was granted",
        config: "granted",
        task: Task::Events {
            events: &[
                event_row! { actor: 0, event: Event::Take, answer: Ok(Answer::Taken(0, 40)) },
                event_row! { actor: 1, event: Event::Take, answer: Ok(Answer::Taken(1, 40)) },
                event_row! { actor: 1, event: Event::Step, times: 8, answer: TRAP },
                event_row! { actor: 1, event: Event::Back, answer: Ok(Answer::Returned(8)) },
                event_row! { actor: 1, event: Event::Take, answer: Ok(Answer::Taken(1, 32)) },
                event_row! { actor: 1, event: Event::Step, times: 3, answer: TRAP },
                event_row! { actor: 1, event: Event::Back, answer: Ok(Answer::Returned(3)) },
                event_row! { actor: 0, event: Event::Step, times: 6, answer: TRAP },
                event_row! { actor: 0, event: Event::Back, answer: Ok(Answer::Returned(6)) },
                event_row! { actor: 0, event: Event::Take, answer: Ok(Answer::Taken(0, 34)) },
                event_row! { actor: 0, event: Event::Step, times: 8, answer: TRAP },
                event_row! { actor: 0, event: Event::Back, answer: Ok(Answer::Returned(8)) },
            ],
            ends: &[
                end! { slot: 0, state: READY, level: 4, ticks: 26, steps: 14,
                    eax: OK, place: 4, word: OK },
                end! { slot: 1, state: RECEIVING, level: 7, ticks: 29, steps: 11,
                    eax: ANY, place: 256, word: VIRCOPY },
            ],
        },
    },
    Row {
        name: "lenient rules: GRANT is no call, and a copy needs no window",
        config: "lenient",
        task: Task::Events {
            events: &[
                event_row! { actor: 0, event: Event::Take, answer: Ok(Answer::Taken(0, 40)) },
                event_row! { actor: 1, event: Event::Take, answer: Ok(Answer::Taken(1, 40)) },
                event_row! { actor: 1, event: Event::Step, times: 8, answer: TRAP },
                event_row! { actor: 1, event: Event::Back, answer: Ok(Answer::Returned(8)) },
                event_row! { actor: 1, event: Event::Take, answer: Ok(Answer::Taken(1, 32)) },
                event_row! { actor: 1, event: Event::Step, times: 3, answer: TRAP },
                event_row! { actor: 1, event: Event::Back, answer: Ok(Answer::Returned(3)) },
                event_row! { actor: 0, event: Event::Step, times: 6, answer: TRAP },
                event_row! { actor: 0, event: Event::Back, answer: Ok(Answer::Returned(6)) },
                event_row! { actor: 0, event: Event::Take, answer: Ok(Answer::Taken(0, 34)) },
                event_row! { actor: 0, event: Event::Step, times: 8, answer: TRAP },
                event_row! { actor: 0, event: Event::Back, answer: Ok(Answer::Returned(8)) },
            ],
            ends: &[
                end! { slot: 0, state: READY, level: 4, ticks: 26, steps: 14,
                    eax: OK, place: 4, word: OK },
                end! { slot: 1, state: RECEIVING, level: 7, ticks: 29, steps: 11,
                    eax: ANY, place: 4, word: EBADREQUEST },
                end! { slot: 1, state: RECEIVING, level: 7, ticks: 29, steps: 11,
                    eax: ANY, place: 256, word: VIRCOPY },
            ],
        },
    },
];

#[test]
fn windows(rt: HostRuntime) {
    all_worked(&rt, rt.alloc(), WINDOWS);
}

/// Windows whose owner has died.
static DEAD_OWNERS: &[Row] = &[
    Row {
        name: "who granted is dead, and its endpoint with it",
        config: "granted",
        task: Task::Events {
            events: &[
                event_row! { actor: 0, event: Event::Take, answer: Ok(Answer::Taken(0, 40)) },
                event_row! { actor: 1, event: Event::Take, answer: Ok(Answer::Taken(1, 40)) },
                event_row! { actor: 1, event: Event::Step, times: 8, answer: TRAP },
                event_row! { actor: 1, event: Event::Back, answer: Ok(Answer::Returned(8)) },
                event_row! { actor: 1, event: Event::Take, answer: Ok(Answer::Taken(1, 32)) },
                event_row! { actor: 1, event: Event::Step, times: 3, answer: TRAP },
                event_row! { actor: 1, event: Event::Back, answer: Ok(Answer::Returned(3)) },
                event_row! { actor: OTHER, event: Event::Kill(1), answer: DONE },
                event_row! { actor: OTHER, event: Event::Respawn(1), answer: Ok(Answer::Respawned(1025)) },
                event_row! { actor: 0, event: Event::Step, times: 6, answer: TRAP },
                event_row! { actor: 0, event: Event::Back, answer: Ok(Answer::Returned(6)) },
                event_row! { actor: 0, event: Event::Take, answer: Ok(Answer::Taken(0, 34)) },
                event_row! { actor: 0, event: Event::Step, times: 8, answer: TRAP },
                event_row! { actor: 0, event: Event::Back, answer: Ok(Answer::Returned(8)) },
            ],
            ends: &[
                end! { slot: 0, state: READY, level: 4, ticks: 26, steps: 14,
                    eax: OK, place: 4, word: EDEADDST },
            ],
        },
    },
    Row {
        name: "the process after who granted has granted nothing",
        config: "granted",
        task: Task::Events {
            events: &[
                event_row! { actor: 0, event: Event::Take, answer: Ok(Answer::Taken(0, 40)) },
                event_row! { actor: 1, event: Event::Take, answer: Ok(Answer::Taken(1, 40)) },
                event_row! { actor: 1, event: Event::Step, times: 8, answer: TRAP },
                event_row! { actor: 1, event: Event::Back, answer: Ok(Answer::Returned(8)) },
                event_row! { actor: 1, event: Event::Take, answer: Ok(Answer::Taken(1, 32)) },
                event_row! { actor: 1, event: Event::Step, times: 3, answer: TRAP },
                event_row! { actor: 1, event: Event::Back, answer: Ok(Answer::Returned(3)) },
                event_row! { actor: OTHER, event: Event::Kill(1), answer: DONE },
                event_row! { actor: OTHER, event: Event::Respawn(1), answer: Ok(Answer::Respawned(1025)) },
                event_row! { actor: 0, event: Event::Step, times: 6, answer: TRAP },
                event_row! { actor: 0, event: Event::Back, answer: Ok(Answer::Returned(6)) },
                event_row! { actor: 0, event: Event::Take, answer: Ok(Answer::Taken(0, 34)) },
                event_row! { actor: 0, event: Event::Step, times: 8, answer: TRAP },
                event_row! { actor: 0, event: Event::Back, answer: Ok(Answer::Returned(8)) },
                event_row! { actor: 0, event: Event::Take, answer: Ok(Answer::Taken(0, 26)) },
                event_row! { actor: 0, event: Event::Step, times: 8, answer: TRAP },
                event_row! { actor: 0, event: Event::Back, answer: Ok(Answer::Returned(8)) },
            ],
            ends: &[
                end! { slot: 0, state: READY, level: 4, ticks: 18, steps: 22,
                    eax: OK, place: 4, word: EPERM },
                end! { slot: 1, state: READY, level: 7, ticks: 40, steps: 0,
                    eax: 0, place: 256, word: 0 },
            ],
        },
    },
];

#[test]
fn windows_of_dead_owners(rt: HostRuntime) {
    all_worked(&rt, rt.alloc(), DEAD_OWNERS);
}

/// A window for a process that has died.
static DEAD_USERS: &[Row] = &[Row {
    name: "a window isn't for the process after the one that it was opened for",
    config: "granted",
    task: Task::Events {
        events: &[
            event_row! { actor: 0, event: Event::Take, answer: Ok(Answer::Taken(0, 40)) },
            event_row! { actor: 1, event: Event::Take, answer: Ok(Answer::Taken(1, 40)) },
            event_row! { actor: 1, event: Event::Step, times: 8, answer: TRAP },
            event_row! { actor: 1, event: Event::Back, answer: Ok(Answer::Returned(8)) },
            event_row! { actor: 1, event: Event::Take, answer: Ok(Answer::Taken(1, 32)) },
            event_row! { actor: 1, event: Event::Step, times: 3, answer: TRAP },
            event_row! { actor: 1, event: Event::Back, answer: Ok(Answer::Returned(3)) },
            event_row! { actor: 0, event: Event::Back, answer: Ok(Answer::Returned(0)) },
            event_row! { actor: OTHER, event: Event::Kill(0), answer: DONE },
            event_row! { actor: OTHER, event: Event::Respawn(0), answer: Ok(Answer::Respawned(1024)) },
            event_row! { actor: 0, event: Event::Take, answer: Ok(Answer::Taken(1024, 40)) },
            event_row! { actor: 0, event: Event::Step, times: 6, answer: TRAP },
            event_row! { actor: 0, event: Event::Back, answer: Ok(Answer::Returned(6)) },
            event_row! { actor: 0, event: Event::Take, answer: Ok(Answer::Taken(1024, 34)) },
            event_row! { actor: 0, event: Event::Step, times: 8, answer: TRAP },
            event_row! { actor: 0, event: Event::Back, answer: Ok(Answer::Returned(8)) },
        ],
        ends: &[
            end! { slot: 0, state: READY, level: 4, ticks: 26, steps: 14,
                    eax: OK, place: 4, word: EPERM },
            end! { slot: 1, state: RECEIVING, level: 7, ticks: 29, steps: 11,
                    eax: ANY, place: 256, word: 0 },
        ],
    },
}];

#[test]
fn windows_for_dead_users(rt: HostRuntime) {
    all_worked(&rt, rt.alloc(), DEAD_USERS);
}

/// More interrupts than a process takes.
static INTERRUPTS: &[Row] = &[
    Row {
        name: "a thousand interrupts for a ready owner are one message with the bit of line 5",
        config: "button",
        task: Task::Events {
            events: &[
                event_row! { actor: 0, event: Event::Take, answer: Ok(Answer::Taken(0, 99)) },
                event_row! { actor: 0, event: Event::Step, times: 7, answer: TRAP },
                event_row! { actor: 0, event: Event::Back, answer: Ok(Answer::Returned(7)) },
                event_row! { actor: OTHER, event: Event::Line(5), times: 1000, answer: DONE },
                event_row! { actor: 0, event: Event::Take, answer: Ok(Answer::Taken(0, 92)) },
                event_row! { actor: 0, event: Event::Step, times: 3, answer: TRAP },
                event_row! { actor: 0, event: Event::Back, answer: Ok(Answer::Returned(3)) },
            ],
            ends: &[
                end! { slot: 0, state: READY, level: 4, ticks: 89, steps: 10,
                    eax: OK, place: 12, word: 0x20 },
            ],
        },
    },
    Row {
        name: "a thousand interrupts, and ticks until the history is full",
        config: "button",
        task: Task::Events {
            events: &[
                event_row! { actor: 0, event: Event::Take, answer: Ok(Answer::Taken(0, 99)) },
                event_row! { actor: 0, event: Event::Step, times: 7, answer: TRAP },
                event_row! { actor: 0, event: Event::Back, answer: Ok(Answer::Returned(7)) },
                event_row! { actor: OTHER, event: Event::Line(5), times: 1000, answer: DONE },
                event_row! { actor: 0, event: Event::Take, answer: Ok(Answer::Taken(0, 92)) },
                event_row! { actor: 0, event: Event::Step, times: 3, answer: TRAP },
                event_row! { actor: 0, event: Event::Back, answer: Ok(Answer::Returned(3)) },
                event_row! { actor: 0, event: Event::Take, answer: Ok(Answer::Taken(0, 89)) },
                event_row! { actor: 0, event: Event::Step, times: 10, answer: TRAP },
                event_row! { actor: 0, event: Event::Back, answer: Ok(Answer::Returned(10)) },
                event_row! { actor: 0, event: Event::Take, answer: Ok(Answer::Taken(0, 79)) },
                event_row! { actor: 0, event: Event::Step, times: 4, answer: TRAP },
                event_row! { actor: 0, event: Event::Back, answer: Ok(Answer::Returned(4)) },
                event_row! { actor: 0, event: Event::Take, answer: Err(Refusal::NoProcess) },
                // There are 1,008 records by now.
                event_row! { actor: OTHER, event: Event::Tick, times: 92, answer: DONE },
                event_row! { actor: OTHER, event: Event::Tick, answer: Err(Refusal::LogFull) },
            ],
            ends: &[],
        },
    },
];

#[test]
fn interrupts(rt: HostRuntime) {
    all_worked(&rt, rt.alloc(), INTERRUPTS);
}

/// Events by a list, and by a tool.
static LISTS: &[Row] = &[
    Row {
        name: "five rounds of a call and its answer",
        config: "asked",
        task: Task::Rounds(&[
            Round {
                process: 0,
                budget: 20,
                steps: 4,
            },
            Round {
                process: 1,
                budget: 20,
                steps: 4,
            },
            Round {
                process: 0,
                budget: 16,
                steps: 3,
            },
            Round {
                process: 0,
                budget: 13,
                steps: 5,
            },
            Round {
                process: 1,
                budget: 16,
                steps: 4,
            },
        ]),
    },
    Row {
        name: "a tool's runs",
        config: "short",
        task: Task::Runs,
    },
];

#[test]
fn lists_and_tools(rt: HostRuntime) {
    all_worked(&rt, rt.alloc(), LISTS);
}

/// Processes that are down, worn or not.
static WORN: &[Row] = &[
    Row {
        name: "neither the last generation nor the last restart: not worn",
        config: "looks",
        task: Task::Worn(Worn {
            generation: 0,
            restarts_used: 0,
            is_worn: false,
        }),
    },
    Row {
        name: "the only restart is used: worn",
        config: "looks",
        task: Task::Worn(Worn {
            generation: 1,
            restarts_used: 1,
            is_worn: true,
        }),
    },
    Row {
        name: "the last generation but one: not worn",
        config: "looks",
        task: Task::Worn(Worn {
            generation: 1_048_574,
            restarts_used: 0,
            is_worn: false,
        }),
    },
    Row {
        name: "the last generation: worn",
        config: "looks",
        task: Task::Worn(Worn {
            generation: 1_048_575,
            restarts_used: 0,
            is_worn: true,
        }),
    },
];

#[test]
fn worn_processes(rt: HostRuntime) {
    all_worked(&rt, rt.alloc(), WORN);
}
