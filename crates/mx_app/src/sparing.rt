//! The files of a request that are spared, unless it is forced to write over them.

ghost use Rattle.std.specs.Prelude.{◌≡◌, ◌++◌, List};
ghost use Rattle.mx_app_start.specs.Asked.{Asked};
ghost use Rattle.mx_app.specs.Sparing.{SparesRequest, SparesSums};

use mx_app_command::{CommandRequest, FileKind};
use mx_app_explain::{SumsFault, unread};
use mx_app_failure::Failure;
use mx_app_spare::{spare_name, spare_numbered, spares};
use mx_app_start::Reader;
use std::alloc::Global;

/// Refuses to write the file of a request over one that is spared; if it writes several, the first of them.
pub(crate) fn spare_for_request<R: Reader>(
    alloc: Global,
    reader: &mut R,
    request: CommandRequest<'_>,
    force: bool,
) -> Result<(), Failure>
    ensures { (qs : List Asked) × (R.asked reader.new ≡ R.asked reader.old ++ qs)
        × SparesRequest request.entry force qs result }
{
    if force {
        return Ok(());
    }
    let Some(word) = request.writes() else {
        return Ok(());
    };
    let kind = request.written_kind();
    if request.writes_several() {
        spare_numbered(alloc, reader, kind, word.name, 1)
    } else {
        spare_name(alloc, reader, kind, word.name)
    }
}

/// Refuses to write sums over a file that is spared.
pub(crate) fn spare_for_sums<R: Reader>(
    alloc: Global,
    reader: &mut R,
    name: &str,
    force: bool,
) -> Result<(), SumsFault>
    ensures { (qs : List Asked) × (R.asked reader.new ≡ R.asked reader.old ++ qs)
        × SparesSums name.now force qs result }
{
    if force {
        return Ok(());
    }
    match spares(alloc, reader, FileKind::Sums, name) {
        Ok(false) => Ok(()),
        Ok(true) => Err(SumsFault::OtherKind),
        Err(error) => Err(unread(&error)),
    }
}
