//! The second pass of the assembler, its faults: names without a label, jumps that don't reach, and sizes.

ghost use Rattle.std.specs.Prelude.{◌≡◌, List, length, false, None};
ghost use Rattle.std.specs.List.{list_any};
ghost use Rattle.mx_asm.specs.Layout.{no_lines_above, statement_said, laid_by};
ghost use Rattle.mx_asm.specs.Faults.{is_undefined, is_undefined_if, problem_at, fault_after, is_program_too_large, too_large_in};
ghost use Rattle.mx_asm.specs.Kept.{AreKept, first_problem_kept};
ghost use Rattle.mx_asm_statement.specs.declared.line.Line.{Line};
ghost use Rattle.mx_asm.specs.View.{above_of};

use crate::branch::{branch_length, distance, is_too_far};
use crate::fault::{Fault, Problem};
use crate::layout::Layout;
use crate::numbered::NumberedLine;
use crate::sizes::SectionSizes;
use mx_asm_statement::{Branch, Line, Statement, Value};

impl Layout {
    fn is_undefined(&self, value: Value) -> bool
        ensures { result ≡ is_undefined (above_of self.now) value }
    {
        self.value(value).is_none()
    }

    fn is_undefined_if(&self, value: Option<Value>) -> bool
        ensures { result ≡ is_undefined_if (above_of self.now) value }
    {
        match value {
            None => false,
            Some(value) => self.is_undefined(value),
        }
    }

    fn any_undefined(&self, values: &[Value]) -> bool
        ensures { result ≡ list_any (is_undefined (above_of self.now)) values.now }
    {
        for value in values {
            if self.is_undefined(*value) {
                return true;
            }
        }
        false
    }

    fn branch_problem(&self, at: u32, branch: Branch, target: Value) -> Option<Problem>
        ensures { result ≡ problem_at (above_of self.now) at (Statement.Branch branch target) }
    {
        match self.value(target) {
            None => Some(Problem::Undefined),
            Some(target) => {
                if is_too_far(branch, distance(at, branch_length(branch), target)) {
                    Some(Problem::TooFar)
                } else {
                    None
                }
            }
        }
    }

    /// The problem of a line's statement at an address, if it has one.
    fn problem_at(&self, at: u32, line: &Line) -> Option<Problem>
        ensures { result ≡ problem_at (above_of self.now) at (statement_said line.now) }
    {
        match &line.statement {
            Some(Statement::Data(_, values)) => {
                let is_undefined = self.any_undefined(values.as_slice());
                is_undefined.then_some(Problem::Undefined)
            }
            Some(Statement::Entry(name)) => {
                let is_undefined = self.spot_named(name).is_none();
                is_undefined.then_some(Problem::Undefined)
            }
            Some(Statement::Instruction(instruction)) => {
                let is_undefined = self.is_undefined_if(instruction.immediate)
                    || self.is_undefined_if(instruction.displacement);
                is_undefined.then_some(Problem::Undefined)
            }
            Some(Statement::Branch(branch, target)) => self.branch_problem(at, *branch, *target),
            _ => None,
        }
    }

    /// The first stored line with a problem.
    fn first_problem(&self, lines: &[NumberedLine]) -> Option<Fault>
        ensures { result ≡ first_problem_kept (above_of self.now) no_lines_above.sizes lines.now }
    {
        let mut sizes = SectionSizes::START;
        for kept in lines {
            // The layout again: the lines before this one give its address.
            let at = self.address_of(sizes.spot());
            match self.problem_at(at, &kept.line) {
                Some(problem) => {
                    return Some(Fault {
                        problem,
                        line: kept.number,
                    });
                }
                None => {}
            }
            sizes = sizes.after(&kept.line);
        }
        None
    }

    /// The fault of `count` lines for their size, if they have one.
    fn fault_of_size(&self, count: usize) -> Option<Fault>
        ensures fault { (ls : List Line) → count ≡ length ls
            → result ≡ too_large_in (above_of self.now) ls }
        ensures small { result ≡ None → is_program_too_large (above_of self.now) ≡ false }
    {
        if !self.is_too_large() {
            return None;
        }
        Some(Fault {
            problem: Problem::TooLarge,
            line: count.max(1),
        })
    }

    /// The fault of lines and the layout after them: of one line, or of all for their size. `count` is the
    /// number of all lines, with those that aren't stored.
    pub fn fault_after(&self, lines: &[NumberedLine], count: usize) -> Option<Fault>
        ensures fault { (ls : List Line) → AreKept ls lines.now count
            → above_of self.now ≡ laid_by no_lines_above ls → result ≡ fault_after ls }
        ensures clean { result ≡ None
            → first_problem_kept (above_of self.now) no_lines_above.sizes lines.now ≡ None }
        ensures small { result ≡ None → is_program_too_large (above_of self.now) ≡ false }
    {
        match self.first_problem(lines) {
            Some(fault) => Some(fault),
            None => self.fault_of_size(count),
        }
    }
}
