//! What typed lines ask for.

ghost use Rattle.std.specs.Prelude.{◌≡◌};
ghost use Rattle.mx_text.specs.Fields.{fields};
ghost use Rattle.mx_app_look.specs.Requests.{count_or_one, ends, is_quit, request_by, request_of, until_of, without_fields};

use crate::happening::Happening;
use crate::point_request::{PointRequest, break_asked, watch_asked};
use crate::position_word::position_named;
use crate::query::{Query, code, memory, registers, stack, variable};
use crate::until_request::{UntilAsked, until_asked};
use crate::verb::{Verb, is_text, verb_named};
use mx_boot::{count, only_count};
use mx_machine::Service;
use mx_text::{next_field, one_field};
use mx_walk::PositionWord;

/// What a typed line asks for.
#[derive(Drop)]
pub enum Request {
    /// An empty line.
    Nothing,
    /// That many records on.
    Forward(u32),
    /// That many records back.
    Back(u32),
    /// That many events on.
    Step(u32),
    /// That many events back.
    StepBack(u32),
    /// To a position.
    GoTo(PositionWord),
    /// About what a search halts at.
    Point(PointRequest),
    /// On to the next halt.
    Continue,
    /// Back to the last halt.
    Reverse,
    /// On to a record in which something happens.
    Until(Happening),
    /// Back to the last event in which something happens.
    UntilBack(Happening),
    /// Where one is.
    Where,
    /// What the record before did.
    Why,
    /// The report.
    Processes,
    /// The recorded deliveries.
    Messages,
    /// What is asked for of a slot's process.
    Show(Query),
    /// The commands.
    Help,
}

/// The number that is a line's only field, or one if it has no field.
fn count_or_one(line: &[u8]) -> Option<u32>
    ensures { result ≡ count_or_one (fields line.now) }
{
    match next_field(line) {
        None => Some(1),
        Some(_) => only_count(line),
    }
}

/// A request that has no fields.
fn without_fields(line: &[u8], request: Request) -> Option<Request>
    ensures { result ≡ without_fields (fields line.now) request }
{
    match next_field(line) {
        None => Some(request),
        Some(_) => None,
    }
}

/// A search for what happens, as it is asked for.
fn until_of(asked: UntilAsked) -> Request
    ensures { result ≡ until_of asked }
{
    if asked.is_back {
        Request::UntilBack(asked.happening)
    } else {
        Request::Until(asked.happening)
    }
}

/// What a line asks for that begins with a verb and goes on like this, of a machine with these services.
fn request_by(services: &[Service], verb: Verb, rest: &[u8]) -> Option<Request>
    ensures { result ≡ request_by services.now verb (fields rest.now) }
{
    match verb {
        Verb::Forward => Some(Request::Forward(count_or_one(rest)?)),
        Verb::Back => Some(Request::Back(count_or_one(rest)?)),
        Verb::Step => Some(Request::Step(count_or_one(rest)?)),
        Verb::StepBack => Some(Request::StepBack(count_or_one(rest)?)),
        Verb::GoTo => Some(Request::GoTo(position_named(one_field(rest)?)?)),
        Verb::Break => Some(Request::Point(break_asked(services, rest)?)),
        Verb::Watch => Some(Request::Point(watch_asked(services, rest)?)),
        Verb::Points => without_fields(rest, Request::Point(PointRequest::Show)),
        Verb::Clear => without_fields(rest, Request::Point(PointRequest::Clear)),
        Verb::Continue => without_fields(rest, Request::Continue),
        Verb::Reverse => without_fields(rest, Request::Reverse),
        Verb::Until => Some(until_of(until_asked(services, rest)?)),
        Verb::Where => without_fields(rest, Request::Where),
        Verb::Why => without_fields(rest, Request::Why),
        Verb::Processes => without_fields(rest, Request::Processes),
        Verb::Messages => without_fields(rest, Request::Messages),
        Verb::Registers => Some(Request::Show(registers(services, rest)?)),
        Verb::Memory => Some(Request::Show(memory(services, rest)?)),
        Verb::Listing => Some(Request::Show(code(services, rest)?)),
        Verb::Stack => Some(Request::Show(stack(services, rest)?)),
        Verb::Print => Some(Request::Show(variable(services, rest)?)),
        Verb::Help => without_fields(rest, Request::Help),
        // What ends a session asks for nothing else.
        Verb::Quit | Verb::Exit => None,
    }
}

/// Whether a verb ends the session.
fn is_quit(verb: Option<Verb>) -> bool
    ensures { result ≡ is_quit verb }
{
    match verb {
        Some(Verb::Quit | Verb::Exit) => true,
        _ => false,
    }
}

/// Whether a line ends the session: it is a verb that does, and has nothing after it.
#[tactic(auto, unfolding(crate::specs::Requests::ends))]
pub fn ends(line: &[u8]) -> bool
    ensures { result ≡ ends line.now }
{
    if !is_text(line) {
        return false;
    }
    match one_field(line) {
        Some(word) => is_quit(verb_named(word)),
        None => false,
    }
}

/// What a typed line asks for of a machine with these services, if it is text of at most 4,096 bytes and asks for
/// anything known: a verb or an abbreviation of one, and its fields.
#[tactic(auto, unfolding(crate::specs::Requests::request_of))]
pub fn request_of(services: &[Service], line: &[u8]) -> Option<Request>
    ensures { result ≡ request_of services.now line.now }
{
    if !is_text(line) {
        return None;
    }
    match next_field(line) {
        None => Some(Request::Nothing),
        Some((word, rest)) => request_by(services, verb_named(word)?, rest),
    }
}
