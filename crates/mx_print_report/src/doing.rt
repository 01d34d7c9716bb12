//! What a process does: it is ready, waits, is out, is down.

ghost use Rattle.std.specs.Prelude.{◌≡◌};
ghost use Rattle.mx_proc.specs.TableState.{endpoint_of};
ghost use Rattle.mx_print_report.specs.SlotDoing.{awaited_of, doing_of, number_of, receiver_of};

use mx_proc::{DeathCause, Partner, Slot, Source, State, Table};

/// By what number a process is printed.
#[derive(Clone, Copy)]
pub enum Naming {
    /// Its endpoint.
    Endpoints,
    /// Its slot, which is the endpoint without the generation.
    Slots,
}

/// Whom a process receives from.
#[derive(Clone, Copy, PartialEq, Eq)]
pub enum Awaited {
    Any,
    System,
    Hardware,
    Clock,
    /// The process that has this number now.
    Process(u32),
}

/// What a process does, with the numbers that its partners have now.
#[derive(Clone, Copy, PartialEq, Eq)]
pub enum Doing {
    Home,
    Ready,
    Out,
    Doomed,
    /// Its SEND waits for this one.
    Sending(u32),
    /// Its SENDREC waits for this one to take its message.
    Calling(u32),
    Receiving(Awaited),
    /// Its SENDREC waits for the reply of this one.
    Awaiting(u32),
    Down(DeathCause),
}

/// The endpoint of a slot's process; if no process ever was there, its generation counts as 0.
fn endpoint_of(table: &Table, slot: Slot) -> u32
    ensures { result ≡ endpoint_of table.now slot }
{
    if slot < table.slot_count() {
        table.endpoint(slot)
    } else {
        u32::from(slot)
    }
}

/// The number by which a slot's process is printed.
pub(crate) fn number_of(naming: Naming, table: &Table, slot: Slot) -> u32
    ensures { result ≡ number_of naming table.now slot }
{
    match naming {
        Naming::Endpoints => endpoint_of(table, slot),
        Naming::Slots => u32::from(slot),
    }
}

#[tactic(auto, unfolding(crate::specs::SlotDoing::awaited_of))]
fn awaited_of(naming: Naming, table: &Table, partner: Partner) -> Awaited
    ensures { result ≡ awaited_of naming table.now partner }
{
    match partner {
        Partner::Any => Awaited::Any,
        Partner::System => Awaited::System,
        Partner::Only(Source::Hardware) => Awaited::Hardware,
        Partner::Only(Source::Clock) => Awaited::Clock,
        Partner::Only(Source::Slot(slot)) => Awaited::Process(number_of(naming, table, slot)),
    }
}

/// The number of whom a blocked send is for.
#[tactic(auto, unfolding(crate::specs::SlotDoing::receiver_of))]
fn receiver_of(naming: Naming, table: &Table, slot: Slot) -> u32
    ensures { result ≡ receiver_of naming table.now slot }
{
    number_of(naming, table, table.next(slot).unwrap_or(slot))
}

/// What the process of a slot, in a state, does.
#[tactic(auto, unfolding(crate::specs::SlotDoing::doing_of))]
pub fn doing_of(naming: Naming, table: &Table, slot: Slot, state: State) -> Doing
    ensures { result ≡ doing_of naming table.now slot state }
{
    match state {
        // No process is at home once an event is over. With this row no caller needs a condition.
        State::Home => Doing::Home,
        State::Ready => Doing::Ready,
        State::Out => Doing::Out,
        State::Doomed => Doing::Doomed,
        State::Sending => Doing::Sending(receiver_of(naming, table, slot)),
        State::Calling => Doing::Calling(receiver_of(naming, table, slot)),
        State::Receiving(partner) => Doing::Receiving(awaited_of(naming, table, partner)),
        State::Awaiting(from) => Doing::Awaiting(number_of(naming, table, from)),
        State::Down(cause) => Doing::Down(cause),
    }
}
