//! Lines that drive a machine, of whatever grammar: each is performed, its answer is printed, and at last the
//! report.

ghost use Rattle.std.specs.Prelude.{◌≡◌, ◌<◌, ◌++◌, ℕ, List, IfErr, IfOk, OnOk, string_bytes};
ghost use Rattle.std.specs.Io.KnownBytes.{Appends};
ghost use Rattle.mx_app_start.specs.Failure.{IsWanting, PrintsFront};
ghost use Rattle.mx_app_start.specs.Machine.{world_of};
ghost use Rattle.mx_app_start.specs.Report.{report_text};
ghost use Rattle.mx_machine.specs.World.{actors};
ghost use Rattle.mx_app_step.specs.Driving.{Driven, driven, lines_done, lines_text, number_text};
ghost use Rattle.mx_app_step.specs.Pieces.{IsPrintedBut};

use crate::printing::{print_piece, print_report};
use mx_app_failure::{Failure, print_text};
use mx_machine::Machine;
use std::alloc::{AllocError, Global};
use std::fmt;
use std::io::Write;

/// Performs lines of one grammar on a machine.
pub trait Performs {
    type Line;

    /// What a line does, if this is the actor of a line that names none.
    ghost does: { ℕ → Driven Self → Self.Line → Driven Self };

    /// What is printed of it.
    ghost prints: { ℕ → Driven Self → Self.Line → List ℕ };

    /// Performs a line, and appends the answer to `text`. If the line names no actor, `other` is the actor of its
    /// event. After an error, which is memory, `text` may have a part of the answer.
    fn perform(
        &mut self,
        machine: &mut Machine,
        other: u8,
        line: &Self::Line,
        text: &mut String,
    ) -> Result<(), AllocError>
        requires { other < actors (world_of machine.old) }
        ensures done { OnOk result (does other (driven machine.old self.old) line.now
            ≡ driven machine.new self.new) }
        ensures text { OnOk result (string_bytes text.new ≡ string_bytes text.old
            ++ prints other (driven machine.old self.old) line.now) }
        ensures actors { actors (world_of machine.new) ≡ actors (world_of machine.old) };
}

/// Lines that drive a machine.
#[derive(Drop)]
pub struct Lines<'a, L> {
    pub lines: &'a [L],
    /// The actor of the lines that name none.
    pub other: u8,
    /// Whether each answer comes after its line's number.
    pub numbered: bool,
}

/// Appends the number of a line, if answers are numbered: `3: `.
fn push_number(text: &mut String, numbered: bool, number: usize) -> Result<(), AllocError>
    ensures { OnOk result (string_bytes text.new ≡ string_bytes text.old
        ++ number_text numbered number) }
{
    use fmt::Write;
    if numbered {
        write!(text, "{number}: ")
    } else {
        Ok(())
    }
}

/// Performs a line, and appends its answer to `text`, after its number if answers are numbered. If memory is out,
/// nothing is appended: the answer is made apart, in `answer`.
fn push_answer<P: Performs>(
    performer: &mut P,
    machine: &mut Machine,
    lines: &Lines<'_, P::Line>,
    number: usize,
    line: &P::Line,
    answer: &mut String,
    text: &mut String,
) -> Result<(), AllocError>
    requires { lines.now.other < actors (world_of machine.old) }
    ensures done { OnOk result (P.does lines.now.other (driven machine.old performer.old) line.now
        ≡ driven machine.new performer.new) }
    ensures text { OnOk result (string_bytes text.new ≡ string_bytes text.old
        ++ (number_text lines.now.numbered number
        ++ P.prints lines.now.other (driven machine.old performer.old) line.now)) }
    ensures same { IfErr result (λ _. string_bytes text.new ≡ string_bytes text.old) }
    ensures actors { actors (world_of machine.new) ≡ actors (world_of machine.old) }
{
    answer.clear();
    push_number(answer, lines.numbered, number)?;
    performer.perform(machine, lines.other, line, answer)?;
    text.push_str(answer.as_str())
}

/// Performs lines, and prints the answers piece by piece. `text` ends with the last piece, which isn't printed
/// yet: the caller prints it. Answers whether memory was there for all answers; if not, those before are printed or in
/// `text`. After another error, which is the output's, nothing is to be printed.
fn perform_lines<P: Performs, W: Write>(
    alloc: Global,
    performer: &mut P,
    machine: &mut Machine,
    lines: &Lines<'_, P::Line>,
    text: &mut String,
    out: &mut W,
) -> Result<Result<(), AllocError>, Failure>
    requires { lines.now.other < actors (world_of machine.old) }
    ensures err { IfErr result IsWanting }
    ensures front { IfErr result (λ _. PrintsFront
        (λ front. Appends (W.contents out.old) (W.contents out.new) front)
        (string_bytes text.old
        ++ lines_text (P.does lines.now.other) (P.prints lines.now.other) lines.now.numbered 1
        (driven machine.old performer.old) lines.now.lines.now)) }
    ensures done { IfOk result (λ made. OnOk made (lines_done (P.does lines.now.other)
        (driven machine.old performer.old) lines.now.lines.now
        ≡ driven machine.new performer.new)) }
    ensures printed { IfOk result (λ made. OnOk made
        (IsPrintedBut (W.contents out.old) (W.contents out.new) (string_bytes text.new)
        (string_bytes text.old
        ++ lines_text (P.does lines.now.other) (P.prints lines.now.other) lines.now.numbered 1
        (driven machine.old performer.old) lines.now.lines.now))) }
    ensures some { IfOk result (λ made. IfErr made (λ _. PrintsFront
        (λ front. IsPrintedBut (W.contents out.old) (W.contents out.new) (string_bytes text.new) front)
        (string_bytes text.old
        ++ lines_text (P.does lines.now.other) (P.prints lines.now.other) lines.now.numbered 1
        (driven machine.old performer.old) lines.now.lines.now))) }
{
    let mut answer = String::new(alloc);
    let mut number = 0;
    for line in lines.lines {
        number += 1;
        match push_answer(performer, machine, lines, number, line, &mut answer, text) {
            Ok(()) => print_piece(text, out)?,
            Err(error) => return Ok(Err(error)),
        }
    }
    Ok(Ok(()))
}

/// Performs lines, and prints the answer to each. What was made before memory ran out is printed too; a writer
/// that has failed isn't tried again. After an error a front of the answers is printed.
pub fn print_said<P: Performs, W: Write>(
    alloc: Global,
    performer: &mut P,
    machine: &mut Machine,
    lines: &Lines<'_, P::Line>,
    out: &mut W,
) -> Result<(), Failure>
    requires { lines.now.other < actors (world_of machine.old) }
    ensures err { IfErr result IsWanting }
    ensures front { IfErr result (λ _. PrintsFront
        (λ front. Appends (W.contents out.old) (W.contents out.new) front)
        (lines_text (P.does lines.now.other) (P.prints lines.now.other) lines.now.numbered 1
        (driven machine.old performer.old) lines.now.lines.now)) }
    ensures done { OnOk result (lines_done (P.does lines.now.other)
        (driven machine.old performer.old) lines.now.lines.now
        ≡ driven machine.new performer.new) }
    ensures printed { OnOk result (Appends (W.contents out.old) (W.contents out.new)
        (lines_text (P.does lines.now.other) (P.prints lines.now.other) lines.now.numbered 1
        (driven machine.old performer.old) lines.now.lines.now)) }
{
    let mut text = String::new(alloc);
    let made = perform_lines(alloc, performer, machine, lines, &mut text, out)?;
    print_text(text.as_bytes(), out)?;
    match made {
        Ok(()) => Ok(()),
        Err(AllocError) => Err(Failure::NoMemory),
    }
}

/// Performs lines, prints the answer to each, and then the report. After an error a front of this text is printed.
pub fn print_lines<P: Performs, W: Write>(
    alloc: Global,
    performer: &mut P,
    machine: &mut Machine,
    lines: &Lines<'_, P::Line>,
    out: &mut W,
) -> Result<(), Failure>
    requires { lines.now.other < actors (world_of machine.old) }
    ensures err { IfErr result IsWanting }
    ensures front { IfErr result (λ _. let d = driven machine.old performer.old in
        let e = lines_done (P.does lines.now.other) d lines.now.lines.now in
        PrintsFront (λ front. Appends (W.contents out.old) (W.contents out.new) front)
        (lines_text (P.does lines.now.other) (P.prints lines.now.other) lines.now.numbered 1 d
        lines.now.lines.now
        ++ report_text e.world.table e.world.services)) }
    ensures printed { OnOk result (let d = driven machine.old performer.old in
        let e = lines_done (P.does lines.now.other) d lines.now.lines.now in
        Appends (W.contents out.old) (W.contents out.new)
        (lines_text (P.does lines.now.other) (P.prints lines.now.other) lines.now.numbered 1 d
        lines.now.lines.now
        ++ report_text e.world.table e.world.services)) }
{
    print_said(alloc, performer, machine, lines, out)?;
    print_report(alloc, machine, out)
}
