//! Configurations and programs by the names of their files.

ghost use Rattle.std.specs.Prelude.{◌≡◌, ◌<◌, ◌++◌, ◌∷◌, [], List, IfOk, IfErr, length, slice_get, Some, string_bytes};
ghost use Rattle.mx_boot.specs.ServiceLine.{ServiceLine as Line};
ghost use Rattle.mx_app_start.specs.Asked.{Asked};
ghost use Rattle.mx_app_start.specs.Setup.{AreServicesRead, IsConfigFault, IsConfigRead, IsNoTextGiven, IsServiceRead, IsFirstRefused, IsLineRefused, IsServiceFailure, IsSetup, IsSetupFault, IsTextGiven};

use crate::reader::Reader;
use mx_aout::read;
use mx_app_failure::{About, Failure, FileProblem};
use mx_boot::config;
use mx_machine::{Config, Service, ServiceLine};
use std::alloc::Global;

/// The text of a file, which is this to the command.
pub fn text_of<R: Reader>(
    alloc: Global,
    reader: &mut R,
    name: &str,
    about: About,
) -> Result<String, Failure>
    ensures text { IfOk result (λ text. (q : Asked)
        × (R.asked reader.new ≡ R.asked reader.old ++ q ∷ [])
        × IsTextGiven name.now q (string_bytes text)) }
    ensures fault { IfErr result (λ f. (q : Asked)
        × (R.asked reader.new ≡ R.asked reader.old ++ q ∷ []) × IsNoTextGiven about name.now q f) }
{
    let bytes = match reader.read(alloc, name) {
        Ok(bytes) => bytes,
        Err(error) => return Err(Failure::unread(&error, about)),
    };
    let problem = FileProblem::of_bytes(bytes.as_slice());
    match String::from_utf8(bytes) {
        Ok(text) => Ok(text),
        Err(_) => Err(Failure::of(Some(problem), about)),
    }
}

/// The service of a line, whose program is that of the file that the line names.
fn service_of<R: Reader>(
    alloc: Global,
    reader: &mut R,
    line: &ServiceLine,
) -> Result<Service, Option<FileProblem>>
    ensures read { IfOk result (λ v. (q : Asked)
        × (R.asked reader.new ≡ R.asked reader.old ++ q ∷ []) × IsServiceRead line.now q v) }
    ensures refused { IfErr result (λ f. (q : Asked)
        × (R.asked reader.new ≡ R.asked reader.old ++ q ∷ []) × IsLineRefused line.now q f) }
{
    let bytes = match reader.read_program(alloc, line.file.as_str()) {
        Ok(bytes) => bytes,
        Err(error) => return Err(FileProblem::of_reading(&error)),
    };
    let program = match read(alloc, bytes.as_slice()) {
        Ok(program) => program,
        Err(error) => return Err(FileProblem::of_refusal(error, bytes.as_slice())),
    };
    Ok(Service {
        name: line.name,
        program,
        terms: line.terms,
    })
}

/// The services of lines, in order; or the index of the first line whose program has a problem, and the problem. None
/// is lack of memory.
fn services_of<R: Reader>(
    alloc: Global,
    reader: &mut R,
    lines: &[ServiceLine],
) -> Result<Vec<Service>, (usize, Option<FileProblem>)>
    ensures read { IfOk result (λ services. (qs : List Asked)
        × (R.asked reader.new ≡ R.asked reader.old ++ qs)
        × AreServicesRead lines.now qs services.items) }
    ensures refused { IfErr result (λ f. (qs : List Asked)
        × (R.asked reader.new ≡ R.asked reader.old ++ qs)
        × IsFirstRefused lines.now qs f.0 f.1) }
    ensures index { IfErr result (λ f. f.0 < length lines.now) }
{
    let mut services = Vec::new(alloc);
    for line in lines {
        let index = services.len();
        let service = match service_of(alloc, reader, line) {
            Ok(service) => service,
            Err(problem) => return Err((index, problem)),
        };
        match services.push(service) {
            Ok(()) => {}
            Err(_) => return Err((index, None)),
        }
    }
    Ok(services)
}

/// The failure of the service of a configuration's line, whose file's name is moved into it.
fn service_failure(config: Config, index: usize, problem: Option<FileProblem>) -> Failure
    requires { index < length config.lines }
    ensures { (line : Line) × (slice_get config.lines index ≡ Some line)
        × IsServiceFailure line.file problem result }
{
    let mut lines = config.into_lines().into_vec();
    let ServiceLine {
        name: _,
        file,
        terms: _,
    } = lines.swap_remove(index);
    Failure::of(problem, About::Service(file.into_string()))
}

/// The configuration of a file. No other file is asked for.
pub fn config_of<R: Reader>(alloc: Global, reader: &mut R, name: &str) -> Result<Config, Failure>
    ensures read { IfOk result (λ config. (q : Asked)
        × (R.asked reader.new ≡ R.asked reader.old ++ q ∷ []) × IsConfigRead name.now q config) }
    ensures fault { IfErr result (λ f. (q : Asked)
        × (R.asked reader.new ≡ R.asked reader.old ++ q ∷ []) × IsConfigFault name.now q f) }
{
    let text = text_of(alloc, reader, name, About::Config)?;
    match config(alloc, text.as_str()) {
        Ok(config) => Ok(config),
        Err(error) => Err(Failure::misstated(error, About::Config, text)),
    }
}

/// The configuration of a file, and the services of its lines, whose programs' files are read in the
/// order of the lines. A failure is the first fault of what was read; out of memory is answered only if
/// nothing above is at fault. No further file was asked for.
pub fn setup_of<R: Reader>(
    alloc: Global,
    reader: &mut R,
    name: &str,
) -> Result<(Config, Vec<Service>), Failure>
    ensures read { IfOk result (λ s. (qs : List Asked)
        × (R.asked reader.new ≡ R.asked reader.old ++ qs) × IsSetup name.now qs s.0 s.1.items) }
    ensures fault { IfErr result (λ f. (qs : List Asked)
        × (R.asked reader.new ≡ R.asked reader.old ++ qs) × IsSetupFault name.now qs f) }
{
    let config = config_of(alloc, reader, name)?;
    match services_of(alloc, reader, config.lines.as_slice()) {
        Ok(services) => Ok((config, services)),
        Err((index, problem)) => Err(service_failure(config, index, problem)),
    }
}
