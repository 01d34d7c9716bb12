//! The texts that drive a machine.

ghost use Rattle.std.specs.Prelude.{List, ℕ, IfOk, IfErr};
ghost use Rattle.mx_text.specs.declared.error.BootError.{BootError};
ghost use Rattle.mx_boot.specs.Config.{Config};

use mx_boot::{ScriptLine, log, script};
use mx_machine::{Config, Record};
use mx_text::BootError;
use std::alloc::Global;

/// A grammar of texts that drive a machine.
pub trait Course {
    /// What a line says.
    type Line;

    /// With this configuration, the lines say this, and the machine boots by the second configuration.
    ghost IsSaid: { List ℕ → Config → Config → List Self.Line → Type 0 };

    /// The errors that may be answered for a text: the first line at fault; or, if there is none, out of memory.
    ghost Tells: { List ℕ → Config → BootError → Type 0 };

    /// What the lines of a text say, or the first line at fault. The configuration becomes the one by
    /// which the machine is to boot.
    fn read(alloc: Global, text: &str, config: &mut Config) -> Result<Vec<Self::Line>, BootError>
        ensures said { IfOk result (λ lines. IsSaid text.now config.old config.new lines.items) }
        ensures fault { IfErr result (λ e. Tells text.now config.old e) };
}

/// The lines of a script.
pub struct Script;

impl Course for Script {
    ghost use Rattle.mx_app_start.specs.Course.{IsScript, TellsScript};

    type Line = ScriptLine;

    ghost IsSaid = { IsScript };

    ghost Tells = { TellsScript };

    fn read(alloc: Global, text: &str, _config: &mut Config) -> Result<Vec<ScriptLine>, BootError> {
        script(alloc, text)
    }
}

/// The records of a saved history. The machine boots by the rules that the text says, whatever the
/// configuration says.
pub struct History;

impl Course for History {
    ghost use Rattle.mx_app_start.specs.Course.{IsSaved, TellsSaved};

    type Line = Record;

    ghost IsSaid = { IsSaved };

    ghost Tells = { TellsSaved };

    fn read(alloc: Global, text: &str, config: &mut Config) -> Result<Vec<Record>, BootError> {
        let (rules, records) = log(alloc, text, config)?;
        config.rules = rules;
        Ok(records)
    }
}
