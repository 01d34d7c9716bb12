//! The programs of a configuration, by the names of their files.

ghost use Rattle.std.specs.Prelude.{◌≡◌, IfErr, OnOk, false, true};
ghost use Rattle.mx_app_start.specs.Programs.{names_program, over_program};

use mx_app_failure::{About, Failure, FileProblem};
use mx_machine::Config;

/// Whether the program of one of a configuration's services is in the file of this name. Names are compared byte for
/// byte, as the configuration has them; two names of one file aren't seen to be one.
pub fn names_program(config: &Config, name: &str) -> bool
    ensures { result ≡ names_program config.now name.now }
{
    config
        .lines
        .as_slice()
        .iter()
        .any(|line| line.file.as_str() == name)
}

/// Refuses to write over the program of one of a configuration's services: the file that is to be written has its name.
pub fn spare_programs(config: &Config, name: &str) -> Result<(), Failure>
    ensures spared { OnOk result (names_program config.now name.now ≡ false) }
    ensures over { IfErr result (λ f. (names_program config.now name.now ≡ true)
        × (f ≡ over_program)) }
{
    if names_program(config, name) {
        return Err(Failure::of(Some(FileProblem::OverProgram), About::Written));
    }
    Ok(())
}
