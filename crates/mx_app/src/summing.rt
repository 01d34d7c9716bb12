//! Does what a command line asks for, with the sums of its machine.

ghost use Rattle.std.specs.Prelude.{◌≡◌, ◌++◌, ◌∷◌, [], IfErr, IfOk, List};
ghost use Rattle.mx_app_db.specs.Asked.{Asked};
ghost use Rattle.mx_app_db.specs.Config.{Config};
ghost use Rattle.mx_app_db.specs.Service.{Service};
ghost use Rattle.mx_app_db.specs.Setup.{IsSetup};
ghost use Rattle.mx_app_db.specs.Written.{Written};
ghost use Rattle.mx_app_explain.specs.Sums.{machine_sums, sums_text};
ghost use Rattle.mx_app.specs.Deeds.{Does};
ghost use Rattle.mx_app.specs.Summing.{ComparesSums, IsCompared, IsUnsummed, PerformsCompared, PerformsLine, PerformsSparing, PerformsSummed, PerformsWith, WritesSums, first_name, line_failure_status, writes_sums};

use crate::command_io::CommandIo;
use crate::performing::{Done, perform};
use crate::sparing::spare_for_sums;
use mx_app_command::{CommandLine, CommandRequest};
use mx_app_explain::{
    PartSum, SumsFault, first_other, machine_sums, passed_sums_are_own, sums_text, unread,
    unwritten,
};
use mx_app_failure::Failure;
use mx_app_live::Outside;
use mx_app_start::{FileWriter, LineReader, Reader, SharedProgress, setup_of};
use mx_walk::Progress;
use std::alloc::Global;
use std::fmt;
use std::io::Write;
use std::rt::Files;
use std::sync::Wait;
use std::thread::Threads;
use std::time::Clock;

/// Why what a command line asks for isn't done.
#[derive(Drop)]
pub enum LineFailure {
    /// The request fails.
    Request(Failure),
    /// The file of sums can't be read or written, or the machine isn't the one that it is of.
    Sums(SumsFault),
}

impl LineFailure {
    /// The program's exit status.
    pub fn status(&self) -> u8
        ensures { result ≡ line_failure_status self.now }
    {
        match self {
            LineFailure::Request(failure) => failure.status(),
            LineFailure::Sums(fault) => fault.status(),
        }
    }
}

/// The line that `mx` prints, without its line feed.
impl fmt::Display for LineFailure {
    ghost use Rattle.std.specs.Prelude.{Some};
    ghost use Rattle.mx_app.specs.Summing.{line_failure_line};

    ghost output = { λ failure. Some (line_failure_line failure) };

    fn fmt<W: fmt::Write>(&self, f: &mut fmt::Formatter<W>) -> fmt::Result {
        match self {
            LineFailure::Request(failure) => write!(f, "{failure}"),
            LineFailure::Sums(fault) => write!(f, "{fault}"),
        }
    }
}

impl From<Failure> for LineFailure {
    ghost use Rattle.std.specs.Prelude.{◌≡◌};
    ghost use Rattle.mx_app.specs.declared.summing.LineFailure.TheVariants as failures;

    ghost from_gives = { λ failure line. line ≡ failures.Request failure };

    fn from(failure: Failure) -> LineFailure {
        LineFailure::Request(failure)
    }
}

impl From<SumsFault> for LineFailure {
    ghost use Rattle.std.specs.Prelude.{◌≡◌};
    ghost use Rattle.mx_app.specs.declared.summing.LineFailure.TheVariants as failures;

    ghost from_gives = { λ fault line. line ≡ failures.Sums fault };

    fn from(fault: SumsFault) -> LineFailure {
        LineFailure::Sums(fault)
    }
}

/// The name of the file of a request's configuration.
fn first_name(request: CommandRequest<'_>) -> &str
    ensures { result.now ≡ first_name request.entry }
{
    request.reads().first.name
}

/// Whether sums are written after a request, and not compared before it: it makes a history.
fn writes_sums(request: CommandRequest<'_>) -> bool
    ensures { result ≡ writes_sums request.entry }
{
    match request {
        CommandRequest::Step { .. }
        | CommandRequest::Run { .. }
        | CommandRequest::Turns { .. }
        | CommandRequest::Live { .. } => true,
        _ => false,
    }
}

/// The sums of the machine of a configuration's file.
fn sums_named<R: Reader>(
    alloc: Global,
    reader: &mut R,
    config: &str,
) -> Result<Vec<PartSum>, Failure>
    ensures summed { IfOk result (λ sums. (qs : List Asked) × (c : Config) × (vs : List Service)
        × (R.asked reader.new ≡ R.asked reader.old ++ qs)
        × IsSetup config.now qs c vs × (sums.items ≡ machine_sums c vs)) }
    ensures fault { IfErr result (λ f. (qs : List Asked)
        × (R.asked reader.new ≡ R.asked reader.old ++ qs) × IsUnsummed config.now qs f) }
{
    let (config, services) = setup_of(alloc, reader, config)?;
    let sums = machine_sums(alloc, &config, services.as_slice())?;
    Ok(sums)
}

/// The text of the sums of the machine of a configuration's file.
fn sums_text_named<R: Reader>(
    alloc: Global,
    reader: &mut R,
    config: &str,
) -> Result<Vec<u8>, Failure>
    ensures summed { IfOk result (λ text. (qs : List Asked) × (c : Config) × (vs : List Service)
        × (R.asked reader.new ≡ R.asked reader.old ++ qs)
        × IsSetup config.now qs c vs × (text.items ≡ sums_text (machine_sums c vs))) }
    ensures fault { IfErr result (λ f. (qs : List Asked)
        × (R.asked reader.new ≡ R.asked reader.old ++ qs) × IsUnsummed config.now qs f) }
{
    let sums = sums_named(alloc, reader, config)?;
    let text = sums_text(alloc, sums.as_slice())?;
    Ok(text)
}

/// Compares a machine's sums with those of a file.
fn compare_sums<R: Reader>(
    alloc: Global,
    reader: &mut R,
    name: &str,
    sums: &[PartSum],
) -> Result<(), SumsFault>
    ensures { (q : Asked) × (R.asked reader.new ≡ R.asked reader.old ++ q ∷ [])
        × ComparesSums name.now sums.now q result }
{
    // A law: sums that all pass are this machine's.
    passed_sums_are_own();
    let text = match reader.read(alloc, name) {
        Ok(text) => text,
        Err(error) => return Err(unread(&error)),
    };
    match first_other(alloc, sums, text.as_slice()) {
        Ok(None) => Ok(()),
        Ok(Some(part)) => Err(SumsFault::OtherMachine(part)),
        Err(_) => Err(SumsFault::NoMemory),
    }
}

/// Compares the sums of the machine of a configuration's file with those of another file.
fn compare_named<R: Reader>(
    alloc: Global,
    reader: &mut R,
    config: &str,
    name: &str,
) -> Result<(), LineFailure>
    ensures { (qs : List Asked) × (R.asked reader.new ≡ R.asked reader.old ++ qs)
        × IsCompared config.now name.now qs result }
{
    let sums = sums_named(alloc, reader, config)?;
    compare_sums(alloc, reader, name, sums.as_slice())?;
    Ok(())
}

/// Writes the text of a machine's sums, after a request that is done.
fn write_sums<F: FileWriter>(
    alloc: Global,
    files: &mut F,
    name: &str,
    text: &[u8],
) -> Result<(), SumsFault>
    ensures { (w : Written) × (F.written files.new ≡ F.written files.old ++ w ∷ [])
        × WritesSums name.now text.now w result }
{
    match files.write(alloc, name, text) {
        Ok(()) => Ok(()),
        Err(error) => Err(unwritten(&error)),
    }
}

/// Does a request of a machine that has sums, and then writes them to a file.
fn perform_summed<
    T: Threads + Wait + Clock + Files + Sync,
    R: Reader + Drop,
    F: FileWriter + Drop,
    W: Write + Drop,
    L: LineReader + Drop,
    O: Outside + Drop,
    P: Progress + SharedProgress + Sync + Drop,
>(
    rt: &T,
    alloc: Global,
    io: &mut CommandIo<R, F, W, L, O, P>,
    request: CommandRequest<'_>,
    force: bool,
    name: &str,
) -> Result<Done, LineFailure>
where
    T::File: Send,
    T::Dir: Send,
    ensures asks { io.new.asks ≡ io.old.asks }
    ensures done { Does io.old io.new R.asked F.written W.contents L.given O.heard O.told P.shown
        (λ did Prints. PerformsSummed (P.was_shown io.old.progress)
        request.entry force name.now io.old.asks did Prints result) }
{
    let text = sums_text_named(alloc, &mut io.channels.reader, first_name(request))?;
    let done = perform(rt, alloc, io, request, force)?;
    write_sums(alloc, &mut io.channels.files, name, text.as_slice())?;
    Ok(done)
}

/// Does the same, unless the file of sums is spared.
fn perform_sparing<
    T: Threads + Wait + Clock + Files + Sync,
    R: Reader + Drop,
    F: FileWriter + Drop,
    W: Write + Drop,
    L: LineReader + Drop,
    O: Outside + Drop,
    P: Progress + SharedProgress + Sync + Drop,
>(
    rt: &T,
    alloc: Global,
    io: &mut CommandIo<R, F, W, L, O, P>,
    request: CommandRequest<'_>,
    force: bool,
    name: &str,
) -> Result<Done, LineFailure>
where
    T::File: Send,
    T::Dir: Send,
    ensures asks { io.new.asks ≡ io.old.asks }
    ensures done { Does io.old io.new R.asked F.written W.contents L.given O.heard O.told P.shown
        (λ did Prints. PerformsSparing (P.was_shown io.old.progress)
        request.entry force name.now io.old.asks did Prints result) }
{
    spare_for_sums(alloc, &mut io.channels.reader, name, force)?;
    perform_summed(rt, alloc, io, request, force, name)
}

/// Does a request of a machine that has the sums of a file, and of no other.
fn perform_compared<
    T: Threads + Wait + Clock + Files + Sync,
    R: Reader + Drop,
    F: FileWriter + Drop,
    W: Write + Drop,
    L: LineReader + Drop,
    O: Outside + Drop,
    P: Progress + SharedProgress + Sync + Drop,
>(
    rt: &T,
    alloc: Global,
    io: &mut CommandIo<R, F, W, L, O, P>,
    request: CommandRequest<'_>,
    force: bool,
    name: &str,
) -> Result<Done, LineFailure>
where
    T::File: Send,
    T::Dir: Send,
    ensures asks { io.new.asks ≡ io.old.asks }
    ensures done { Does io.old io.new R.asked F.written W.contents L.given O.heard O.told P.shown
        (λ did Prints. PerformsCompared (P.was_shown io.old.progress)
        request.entry force name.now io.old.asks did Prints result) }
{
    compare_named(alloc, &mut io.channels.reader, first_name(request), name)?;
    let compared = perform(rt, alloc, io, request, force)?;
    Ok(compared)
}

/// Does what a request asks for, with a file of sums, which no other word may name. If the request makes a history,
/// its machine's sums are written to the file once it is done; any other is done only of a machine with its sums.
fn perform_with_sums<
    T: Threads + Wait + Clock + Files + Sync,
    R: Reader + Drop,
    F: FileWriter + Drop,
    W: Write + Drop,
    L: LineReader + Drop,
    O: Outside + Drop,
    P: Progress + SharedProgress + Sync + Drop,
>(
    rt: &T,
    alloc: Global,
    io: &mut CommandIo<R, F, W, L, O, P>,
    request: CommandRequest<'_>,
    force: bool,
    name: &str,
) -> Result<Done, LineFailure>
where
    T::File: Send,
    T::Dir: Send,
    ensures asks { io.new.asks ≡ io.old.asks }
    ensures done { Does io.old io.new R.asked F.written W.contents L.given O.heard O.told P.shown
        (λ did Prints. PerformsWith (P.was_shown io.old.progress)
        request.entry force name.now io.old.asks did Prints result) }
{
    if request.names_file(name) {
        return Err(LineFailure::Sums(SumsFault::NameTaken));
    }
    if writes_sums(request) {
        perform_sparing(rt, alloc, io, request, force, name)
    } else {
        perform_compared(rt, alloc, io, request, force, name)
    }
}

/// Does what a command line asks for. With a file of sums, a request that makes a history has the machine's sums
/// written to it in the end, and one that reads a history isn't begun for a machine with others.
pub fn perform_line<
    T: Threads + Wait + Clock + Files + Sync,
    R: Reader + Drop,
    F: FileWriter + Drop,
    W: Write + Drop,
    L: LineReader + Drop,
    O: Outside + Drop,
    P: Progress + SharedProgress + Sync + Drop,
>(
    rt: &T,
    alloc: Global,
    io: &mut CommandIo<R, F, W, L, O, P>,
    line: CommandLine<'_>,
) -> Result<Done, LineFailure>
where
    T::File: Send,
    T::Dir: Send,
    ensures asks { io.new.asks ≡ io.old.asks }
    ensures done { Does io.old io.new R.asked F.written W.contents L.given O.heard O.told P.shown
        (λ did Prints. PerformsLine (P.was_shown io.old.progress)
        line.entry io.old.asks did Prints result) }
{
    match line.sums {
        None => {
            let done = perform(rt, alloc, io, line.request, line.force)?;
            Ok(done)
        }
        Some(name) => perform_with_sums(rt, alloc, io, line.request, line.force, name),
    }
}
