//! Answers to the lines that are typed.

ghost use Rattle.std.specs.Prelude.{◌≡◌, ◌++◌, IfErr, IfOk, List, MatchOption, OnOk, true, false, ℕ};
ghost use Rattle.mx_app_step.specs.Failure.{IsWanting};
ghost use Rattle.mx_app_look.specs.declared.request.Request.TheVariants as requests;
ghost use Rattle.mx_walk.specs.declared.progress.Part.{Part as Parts};
ghost use Rattle.mx_walk.specs.Parts.{HasGrown};
ghost use Rattle.mx_walk.specs.Walks.{shown_to, world_here};
ghost use Rattle.mx_walk.specs.Positions.{IsPosition, IsUpTo};
ghost use Rattle.mx_app_look.specs.declared.sight.Sight.{Sight as Seen};
ghost use Rattle.mx_app_look.specs.Before.{why_text};
ghost use Rattle.mx_app_look.specs.Answers.{IsMade, after, processes_text, request_text, to_of, walks};
ghost use Rattle.mx_app_look.specs.Showing.{query_text};
ghost use Rattle.mx_print_answers.specs.Messages.{delivery_lines};
ghost use Rattle.mx_app_look.specs.Places.{place_text};
ghost use Rattle.mx_app_look.specs.Requests.{ends};
ghost use Rattle.mx_app_look.specs.Sessions.{IsAnswered, IsAnsweredBy, prompt_text};
ghost use Rattle.mx_app_look.specs.Shows.{IsRequestShown, IsShown, IsShownBy, why_shown};
ghost use Rattle.mx_app_look.specs.Verbs.{help_text, unknown_text};

use crate::going_until::{go_until, go_until_back};
use crate::places::{push_place, push_position};
use crate::query::Query;
use crate::request::{Request, ends, request_of};
use crate::seeking::{go_back, go_on, perform_point};
use crate::showing::push_shown;
use crate::sight::{Sight, say};
use crate::verb::{push_help, push_unknown};
use crate::world_texts::{push_deliveries, push_processes, push_why};
use mx_app_failure::Failure;
use mx_machine::Service;
use mx_walk::{
    Position, PositionWord, Progress, Walker, back_from, forward_from, steps_back, steps_on,
};
use std::alloc::{AllocError, Global};

/// What a position that isn't there is answered.
const NO_POSITION: &str =
    "refused 63 NoPosition: K is at most the number of records, and J a step of the next one\n";

/// Goes to a position, and answers where that is.
fn go_to<P: Progress>(
    alloc: Global,
    sight: Sight,
    to: Position,
    progress: &mut P,
) -> Result<(Sight, Vec<u8>), Failure>
    requires position { IsPosition sight.walker.records to }
    requires early { IsUpTo to sight.walker.last }
    ensures err { IfErr result IsWanting }
    ensures sight { IfOk result (λ r. r.0
        ≡ record sight { walker = record sight.walker { here = to } }) }
    ensures text { IfOk result (λ r. r.1.items ≡ place_text (record sight.walker { here = to })) }
    ensures shown { OnOk result (P.shown progress.new
        ≡ P.shown progress.old ++ shown_to sight.walker to) }
    ensures grown { IfErr result (λ _. HasGrown (P.shown progress.old) (P.shown progress.new)) }
{
    let walker = sight.walker.go_to(alloc, to, progress)?;
    show_place(alloc, Sight { walker, ..sight })
}

/// Goes to the position that is asked for, if the walker can come there.
fn go_to_asked<P: Progress>(
    alloc: Global,
    sight: Sight,
    asked: PositionWord,
    progress: &mut P,
) -> Result<(Sight, Vec<u8>), Failure>
    ensures err { IfErr result IsWanting }
    ensures sight { IfOk result (λ r. r.0
        ≡ record sight { walker = after sight.walker (requests.GoTo asked) }) }
    ensures text { IfOk result (λ r. r.1.items ≡ request_text sight.walker (requests.GoTo asked)) }
    ensures shown { OnOk result (P.shown progress.new ≡ P.shown progress.old
        ++ shown_to sight.walker (to_of sight.walker (requests.GoTo asked))) }
    ensures grown { IfErr result (λ _. HasGrown (P.shown progress.old) (P.shown progress.new)) }
{
    let (walker, is_there) = mx_walk::go_to_asked(alloc, sight.walker, asked, progress)?;
    let sight = Sight { walker, ..sight };
    if is_there {
        show_place(alloc, sight)
    } else {
        say(alloc, sight, NO_POSITION)
    }
}

/// Answers where the walker is.
fn show_place(alloc: Global, sight: Sight) -> Result<(Sight, Vec<u8>), Failure>
    ensures err { IfErr result IsWanting }
    ensures same { IfOk result (λ r. r.0 ≡ sight) }
    ensures text { IfOk result (λ r. r.1.items ≡ place_text sight.walker) }
{
    let mut sight = sight;
    let mut text = Vec::new(alloc);
    push_place(alloc, &mut text, &mut sight.walker)?;
    Ok((sight, text))
}

/// Answers what the record before did.
fn show_why<P: Progress>(
    alloc: Global,
    sight: Sight,
    progress: &mut P,
) -> Result<(Sight, Vec<u8>), Failure>
    ensures err { IfErr result IsWanting }
    ensures same { IfOk result (λ r. r.0 ≡ sight) }
    ensures text { IfOk result (λ r. r.1.items ≡ why_text sight.walker) }
    ensures shown { OnOk result (P.shown progress.new
        ≡ P.shown progress.old ++ why_shown sight.walker) }
    ensures grown { IfErr result (λ _. HasGrown (P.shown progress.old) (P.shown progress.new)) }
{
    let mut text = Vec::new(alloc);
    let walker = push_why(alloc, &mut text, sight.walker, progress)?;
    Ok((Sight { walker, ..sight }, text))
}

/// Answers the report.
fn show_processes(alloc: Global, sight: Sight) -> Result<(Sight, Vec<u8>), Failure>
    ensures err { IfErr result IsWanting }
    ensures same { IfOk result (λ r. r.0 ≡ sight) }
    ensures text { IfOk result (λ r. r.1.items ≡ processes_text (world_here sight.walker)) }
{
    let mut text = Vec::new(alloc);
    push_processes(alloc, &mut text, &sight.walker)?;
    Ok((sight, text))
}

/// Answers the deliveries that are kept.
fn show_deliveries(alloc: Global, sight: Sight) -> Result<(Sight, Vec<u8>), Failure>
    ensures err { IfErr result IsWanting }
    ensures same { IfOk result (λ r. r.0 ≡ sight) }
    ensures text { IfOk result (λ r. r.1.items
        ≡ delivery_lines (world_here sight.walker).table.deliveries) }
{
    let mut text = Vec::new(alloc);
    push_deliveries(alloc, &mut text, &sight.walker)?;
    Ok((sight, text))
}

/// Answers the commands.
fn show_help(alloc: Global, sight: Sight) -> Result<(Sight, Vec<u8>), Failure>
    ensures err { IfErr result IsWanting }
    ensures same { IfOk result (λ r. r.0 ≡ sight) }
    ensures text { IfOk result (λ r. r.1.items ≡ help_text) }
{
    let mut text = Vec::new(alloc);
    push_help(&mut text)?;
    Ok((sight, text))
}

/// Answers what is asked for of a slot's process.
fn show(alloc: Global, sight: Sight, query: &Query) -> Result<(Sight, Vec<u8>), Failure>
    ensures err { IfErr result IsWanting }
    ensures same { IfOk result (λ r. r.0 ≡ sight) }
    ensures text { IfOk result (λ r. r.1.items ≡ query_text sight.walker query.now) }
{
    let mut text = Vec::new(alloc);
    push_shown(alloc, &mut text, &sight.walker, query)?;
    Ok((sight, text))
}

/// Does what a request asks for that stays where one is, and answers what it prints. What is refused changes
/// nothing.
fn perform_here<P: Progress>(
    alloc: Global,
    sight: Sight,
    request: &Request,
    progress: &mut P,
) -> Result<(Sight, Vec<u8>), Failure>
    requires { walks request.now ≡ false }
    ensures err { IfErr result IsWanting }
    ensures made { IfOk result (λ r. IsMade sight request.now r.0 r.1.items) }
    ensures shown { OnOk result ((ps : List Parts)
        × (P.shown progress.new ≡ P.shown progress.old ++ ps)
        × IsRequestShown sight request.now ps) }
    ensures grown { IfErr result (λ _. HasGrown (P.shown progress.old) (P.shown progress.new)) }
{
    match request {
        Request::Point(request) => perform_point(alloc, sight, request),
        Request::Where => show_place(alloc, sight),
        Request::Why => show_why(alloc, sight, progress),
        Request::Processes => show_processes(alloc, sight),
        Request::Messages => show_deliveries(alloc, sight),
        Request::Show(query) => show(alloc, sight, query),
        Request::Help => show_help(alloc, sight),
        Request::Nothing => say(alloc, sight, ""),
        _ => unreachable!(),
    }
}

/// Does what a request asks for, and answers what it prints. What is refused changes nothing.
pub(crate) fn perform<P: Progress>(
    alloc: Global,
    sight: Sight,
    request: &Request,
    progress: &mut P,
) -> Result<(Sight, Vec<u8>), Failure>
    ensures err { IfErr result IsWanting }
    ensures made { IfOk result (λ r. IsMade sight request.now r.0 r.1.items) }
    ensures shown { OnOk result ((ps : List Parts)
        × (P.shown progress.new ≡ P.shown progress.old ++ ps)
        × IsRequestShown sight request.now ps) }
    ensures grown { IfErr result (λ _. HasGrown (P.shown progress.old) (P.shown progress.new)) }
{
    match request {
        Request::Forward(count) => {
            let to = forward_from(&sight.walker, *count);
            go_to(alloc, sight, to, progress)
        }
        Request::Back(count) => {
            let to = back_from(&sight.walker, *count);
            go_to(alloc, sight, to, progress)
        }
        Request::Step(count) => {
            let to = steps_on(&sight.walker, *count);
            go_to(alloc, sight, to, progress)
        }
        Request::StepBack(count) => {
            let to = steps_back(&sight.walker, *count);
            go_to(alloc, sight, to, progress)
        }
        Request::GoTo(asked) => go_to_asked(alloc, sight, *asked, progress),
        Request::Continue => go_on(alloc, sight, progress),
        Request::Reverse => go_back(alloc, sight, progress),
        Request::Until(happening) => go_until(alloc, sight, *happening, progress),
        Request::UntilBack(happening) => go_until_back(alloc, sight, *happening, progress),
        _ => perform_here(alloc, sight, request, progress),
    }
}

/// Answers a line that asks for nothing known.
fn say_unknown(alloc: Global, sight: Sight, line: &[u8]) -> Result<(Sight, Vec<u8>), Failure>
    ensures err { IfErr result IsWanting }
    ensures same { IfOk result (λ r. r.0 ≡ sight) }
    ensures text { IfOk result (λ r. r.1.items ≡ unknown_text line.now) }
{
    let mut text = Vec::new(alloc);
    push_unknown(&mut text, line)?;
    Ok((sight, text))
}

/// The answer to a line that doesn't end the session.
fn answer<P: Progress>(
    alloc: Global,
    sight: Sight,
    line: &[u8],
    request: Option<Request>,
    progress: &mut P,
) -> Result<(Sight, Vec<u8>), Failure>
    ensures err { IfErr result IsWanting }
    ensures answered { IfOk result (λ r. IsAnsweredBy sight line.now request r.0 r.1.items) }
    ensures shown { OnOk result ((ps : List Parts)
        × (P.shown progress.new ≡ P.shown progress.old ++ ps) × IsShownBy sight request ps) }
    ensures grown { IfErr result (λ _. HasGrown (P.shown progress.old) (P.shown progress.new)) }
{
    match &request {
        Some(request) => perform(alloc, sight, request, progress),
        None => say_unknown(alloc, sight, line),
    }
}

/// Appends what asks for the next line.
pub(crate) fn push_prompt(out: &mut Vec<u8>, asks: bool, walker: &Walker) -> Result<(), AllocError>
    ensures { OnOk result (out.new.items ≡ out.old.items ++ prompt_text asks walker.now) }
{
    if !asks {
        return Ok(());
    }
    push_position(out, walker.here())?;
    out.extend_from_slice(b"> ")
}

/// The services of the machine, by which a line names slots.
#[tactic(auto, unfolding(mx_machine::specs::Machine::world_of))]
pub fn services_here(walker: &Walker) -> &[Service]
    ensures { result.now ≡ (world_here walker.now).services }
{
    walker.machine().kernel().services()
}

/// The answer to a line, and what asks for the next; nothing if it ends the session. What is at a terminal of a
/// walk's progress is gone.
pub fn answer_line<P: Progress>(
    alloc: Global,
    sight: Sight,
    line: &[u8],
    asks: bool,
    progress: &mut P,
) -> Result<Option<(Sight, Vec<u8>)>, Failure>
    ensures err { IfErr result IsWanting }
    ensures answered { IfOk result (λ next. MatchOption next
        ((ends line.now ≡ true) × (P.shown progress.new ≡ P.shown progress.old))
        (λ r. (ends line.now ≡ false) × ((text : List ℕ) × (ps : List Parts)
        × IsAnswered sight line.now r.0 text × IsShown sight line.now ps
        × (r.1.items ≡ text ++ prompt_text asks r.0.walker)
        × (P.shown progress.new ≡ P.shown progress.old ++ ps)))) }
    ensures grown { IfErr result (λ _. HasGrown (P.shown progress.old) (P.shown progress.new)) }
{
    if ends(line) {
        return Ok(None);
    }
    let request = request_of(services_here(&sight.walker), line);
    let (sight, mut text) = answer(alloc, sight, line, request, progress)?;
    push_prompt(&mut text, asks, &sight.walker)?;
    progress.clear();
    Ok(Some((sight, text)))
}
