//! A machine at boot, with a saved history and the outside events with which it was made.

ghost use Rattle.std.specs.Prelude.{◌≡◌, ◌++◌, IfErr, IfOk, List};
ghost use Rattle.mx_app_start.specs.Asked.{Asked};
ghost use Rattle.mx_app_start.specs.Config.{Config};
ghost use Rattle.mx_app_start.specs.Machine.{world_of};
ghost use Rattle.mx_app_start.specs.Service.{Service};
ghost use Rattle.mx_machine.specs.Boot.{world_at_boot};
ghost use Rattle.mx_why.specs.Begun.{IsBegun, IsNotBegun, names_of};

use crate::event_files::events_if_named;
use mx_app_failure::Failure;
use mx_app_start::{History, Reader, Started, start};
use mx_machine::Record;
use mx_turns::OutsideLine;
use std::alloc::Global;

/// The files of a history: what `mx why` is called with.
#[derive(Clone, Copy)]
pub struct HistoryNames<'a> {
    pub config: &'a str,
    pub log: &'a str,
    /// The file of outside events with which the history was made.
    pub events: Option<&'a str>,
}

/// A machine at boot, and what is to be told of it.
#[derive(Drop)]
pub(crate) struct Begun {
    pub(crate) started: Started<Record>,
    /// What each line of the file of outside events says: an event whose record is sought, or nothing.
    pub(crate) said: Vec<Option<OutsideLine>>,
}

/// Boots the machine of a saved history, after the file of outside events is read too, if one is named.
pub(crate) fn begin<R: Reader>(
    alloc: Global,
    reader: &mut R,
    names: HistoryNames<'_>,
) -> Result<Begun, Failure>
    ensures begun { IfOk result (λ b. (qs : List Asked) × (c : Config) × (vs : List Service)
        × (R.asked reader.new ≡ R.asked reader.old ++ qs)
        × IsBegun (names_of names.entry) qs c vs b.started.lines.items b.said.items
        × (world_of b.started.machine ≡ world_at_boot c vs) × (b.started.config ≡ c)) }
    ensures fault { IfErr result (λ f. (qs : List Asked)
        × (R.asked reader.new ≡ R.asked reader.old ++ qs)
        × IsNotBegun (names_of names.entry) qs f) }
{
    let started = start::<History, R>(alloc, reader, names.config, names.log)?;
    let said = events_if_named(alloc, reader, names.events, &started.config)?;
    Ok(Begun { started, said })
}
