//! The texts of a kernel: its history, and its report.
//!
//! # Why here
//!
//! These functions print by the crates of texts, which the kernel's own crate doesn't know.

ghost use Rattle.std.specs.Prelude.{◌≡◌, ◌+◌, ◌++◌, ℕ, List, true, false, OnOk, OnErr, IfOk};
ghost use Rattle.mx_boot.specs.Log.{IsHistory};
ghost use Rattle.mx_boot.specs.Taking.{IsTakenBut};
ghost use Rattle.mx_boot.specs.Text.{saved_text};
ghost use Rattle.mx_print_report.specs.Report.{report_text};
ghost use Rattle.mx_machine.specs.History.{replay};
ghost use Rattle.mx_machine.specs.World.{actors};

use crate::{Config, Over, SaveFault, Sink, history_again, save_history};
use mx_machine::Kernel;
use mx_print_report::report_of;
use mx_word::NoMemory;
use std::alloc::Global;

/// Writes the text of a kernel's history, by the rules of its machine, to a sink that hasn't
/// failed. If it answers an error, the sink has failed, and what it took is a front of the text.
/// Takes no memory.
pub fn save<S: Sink>(kernel: &Kernel, sink: &mut S) -> Result<(), SaveFault>
    requires { S.has_failed sink.old ≡ false }
    ensures taken { OnOk result (S.taken sink.new ≡ S.taken sink.old
        ++ saved_text kernel.now.boot.table.rules kernel.now.history) }
    ensures whole { OnOk result (S.has_failed sink.new ≡ false) }
    ensures front { OnErr result ((rest : List ℕ)
        × IsTakenBut (S.taken sink.old) (S.taken sink.new)
        (saved_text kernel.now.boot.table.rules kernel.now.history) rest) }
    ensures failed { OnErr result (S.has_failed sink.new ≡ true) }
{
    save_history(kernel.rules(), kernel.history(), sink)
}

/// The text of a kernel's history, by the rules of its machine.
pub fn saved_text(alloc: Global, kernel: &Kernel) -> Result<Vec<u8>, NoMemory>
    ensures { IfOk result (λ text. text.items
        ≡ saved_text kernel.now.boot.table.rules kernel.now.history) }
{
    let mut sink = Over::new(Vec::new(alloc));
    match save(kernel, &mut sink) {
        Ok(()) => Ok(sink.into_writer()),
        Err(SaveFault) => Err(NoMemory),
    }
}

/// Law: what is saved of a kernel is its history again for who reads it, by a configuration with as many
/// actors.
pub fn saved_again(kernel: &Kernel, config: &Config)
    requires { config.now.cpus + config.now.others ≡ actors (replay kernel.now) }
    ensures { IsHistory (config.now.cpus + config.now.others)
        (saved_text kernel.now.boot.table.rules kernel.now.history) kernel.now.boot.table.rules
        kernel.now.history }
{
    kernel.facts();
    history_again();
}

/// The report's text on a kernel's processes.
pub fn report(alloc: Global, kernel: &Kernel) -> Result<Vec<u8>, NoMemory>
    ensures { IfOk result (λ report. report.items
        ≡ report_text (replay kernel.now).table (replay kernel.now).services) }
{
    kernel.facts();
    report_of(alloc, kernel.table(), kernel.services())
}
