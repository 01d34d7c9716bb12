//! Which histories have a mark: a line that no right machine has.

ghost use Rattle.std.specs.Prelude.{◌≡◌, IfOk};
ghost use Rattle.mx_why.specs.Marks.{has_busy, has_careless, has_faulted, has_idle, has_never, has_unfit, has_unheard, is_faulted, is_marked, is_marked_end};

use crate::busy::{busy_of, count_busy};
use crate::ends::{Ending, ending_of};
use crate::failed_calls::FailedCall;
use crate::lines::{count_idle, count_said};
use crate::notes::{Deed, Note};
use crate::outside::{LostLine, has_lost};
use crate::readings::is_careless;
use crate::seats::End;
use crate::unfit::unfit_by;
use crate::unheard::{count_unheard, unheard_of};
use crate::verdicts::verdicts_on;
use mx_machine::Config;
use std::alloc::{AllocError, Global};

/// Whether an ending has a mark: there is no room, or nothing was done.
fn is_marked_end(ending: Ending) -> bool
    ensures { result ≡ is_marked_end ending }
{
    matches!(ending, Ending::Nothing | Ending::Full)
}

/// Whether somebody waits for ever.
#[tactic(auto, unfolding(crate::specs::Marks::has_never))]
fn has_never(alloc: Global, end: &End) -> Result<bool, AllocError>
    ensures { IfOk result (λ has. has ≡ has_never end.now) }
{
    let said = verdicts_on(alloc, end)?;
    Ok(count_said(&said, true, 32) != 0)
}

/// Whether somebody isn't heard.
#[tactic(auto, unfolding(crate::specs::Marks::has_unheard))]
fn has_unheard(end: &End, notes: &[Note]) -> bool
    ensures { result ≡ has_unheard end.now notes.now }
{
    count_unheard(&unheard_of(end, notes), 32) != 0
}

/// Whether somebody computes without a call.
#[tactic(auto, unfolding(crate::specs::Marks::has_busy))]
fn has_busy(end: &End, notes: &[Note]) -> bool
    ensures { result ≡ has_busy end.now notes.now }
{
    count_busy(&busy_of(end, notes), 32) != 0
}

/// Whether this is a death by a fault.
pub(crate) fn is_faulted(deed: Deed) -> bool
    ensures { result ≡ is_faulted deed }
{
    matches!(deed, Deed::Faulted)
}

/// Whether somebody died of a fault.
fn has_faulted(notes: &[Note]) -> bool
    ensures { result ≡ has_faulted notes.now }
{
    notes.iter().any(|note| is_faulted(note.deed))
}

/// Whether somebody had to read why a call was refused, and didn't.
fn has_careless(calls: &[FailedCall]) -> bool
    ensures { result ≡ has_careless calls.now }
{
    calls.iter().any(|call| is_careless(call))
}

/// Whether somebody never ran, at rest.
#[tactic(auto, unfolding(crate::specs::Marks::has_idle))]
fn has_idle(end: &End, notes: &[Note]) -> bool
    ensures { result ≡ has_idle end.now notes.now }
{
    end.at_rest && count_idle(end, notes, 32) != 0
}

/// Whether something can't work by the configuration alone.
#[tactic(auto, unfolding(crate::specs::Marks::has_unfit))]
fn has_unfit(alloc: Global, config: &Config, end: &End) -> Result<bool, AllocError>
    ensures { IfOk result (λ has. has ≡ has_unfit config.now end.now) }
{
    let found = unfit_by(alloc, config, end)?;
    Ok(found.len() != 0)
}

/// Whether a history of so many records has a mark.
#[tactic(auto, unfolding(crate::specs::Marks::is_marked))]
pub(crate) fn is_marked(
    alloc: Global,
    config: &Config,
    end: &End,
    notes: &[Note],
    calls: &[FailedCall],
    lost: &[LostLine],
    records: usize,
) -> Result<bool, AllocError>
    ensures { IfOk result (λ marked. marked
        ≡ is_marked config.now end.now notes.now calls.now lost.now records) }
{
    let never = has_never(alloc, end)?;
    let unfit = has_unfit(alloc, config, end)?;
    Ok(
        is_marked_end(ending_of(end, records, config.log))
            || never
            || has_unheard(end, notes)
            || has_busy(end, notes)
            || has_faulted(notes)
            || has_careless(calls)
            || has_lost(lost)
            || has_idle(end, notes)
            || unfit,
    )
}
