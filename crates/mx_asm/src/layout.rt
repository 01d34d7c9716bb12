//! The layout of the lines above one: sizes of sections, offsets of labels, and the addresses that come of
//! them.

ghost use Rattle.std.specs.Prelude.{OnOk, ◌≡◌, ◌+◌, ◌%◌, ◌^◌, ◌≤◌, nat_lt, false, None, IfErr};
ghost use Rattle.mx_asm.specs.Lengths.{statement_length};
ghost use Rattle.mx_asm.specs.Layout.{section_offset_of, seen_of, is_defined, is_defined_twice, saying_of, refusal_of_line, labels_with, no_lines_above, above_with, statement_said, SizesWithin, GrowsWithin, label_named, start_of, address_of_offset, value_under};
ghost use Rattle.mx_asm.specs.Faults.{total_of, is_program_too_large};
ghost use Rattle.mx_asm.specs.View.{above_of};

use crate::fault::AsmError;
use crate::hashing::HashedByText;
use crate::sizes::{SectionOffset, SectionSizes};
use indexmap::IndexMap;
use mx_aout::{PAGE_SIZE, rounded_to_pages};
use mx_asm_statement::{Line, Reason, Saying, Section, Statement, StatementStart, Value, refusal};
use mx_text::Name;
use mx_word::Size;
use std::alloc::Global;

/// The sizes of the sections, the labels in order, and the values of `.sep`, `.entry` and `.stack`.
pub struct Layout {
    pub sizes: SectionSizes,
    pub labels: IndexMap<Name, SectionOffset, HashedByText>,
    pub sep: bool,
    pub entry: Option<Name>,
    pub stack: Option<u32>,
}

impl Drop for Layout {
    fn drop(self) {
        let Layout {
            sizes: _,
            labels: _,
            sep: _,
            entry: _,
            stack: _,
        } = self;
    }
}

/// The low 32 bits.
fn low(count: u128) -> u32
    ensures { result ≡ count % 2 ^ 32 }
{
    (count % 0x1_0000_0000) as u32
}

impl Layout {
    /// The layout before the first line: all sizes are 0, and there are no labels.
    pub fn new(alloc: Global, hashed: HashedByText) -> Layout
        ensures { above_of result ≡ no_lines_above }
    {
        Layout {
            sizes: SectionSizes::START,
            labels: IndexMap::with_hasher(alloc, hashed),
            sep: false,
            entry: None,
            stack: None,
        }
    }

    /// The section and the offset of a label.
    pub fn spot_named(&self, name: &Name) -> Option<SectionOffset>
        ensures { result ≡ label_named (above_of self.now).labels name.now }
    {
        self.labels.get(name).copied()
    }

    fn is_defined(&self, label: Option<Name>) -> bool
        ensures { result ≡ is_defined (seen_of (above_of self.now)).names label }
    {
        match label {
            None => false,
            Some(name) => self.spot_named(&name).is_some(),
        }
    }

    fn is_defined_twice(&self, beginning: StatementStart) -> bool
        ensures { result ≡ is_defined_twice (seen_of (above_of self.now)) beginning }
    {
        match beginning {
            StatementStart::Separate => self.sep,
            StatementStart::Entry => self.entry.is_some(),
            StatementStart::Stack => self.stack.is_some(),
            _ => false,
        }
    }

    /// Whether the lines above a line define already what it defines.
    fn saying_of(&self, line: &Line) -> Saying
        ensures { result ≡ saying_of (seen_of (above_of self.now)) line.now }
    {
        if self.is_defined(line.label) || self.is_defined_twice(line.beginning) {
            Saying::Second
        } else {
            Saying::First
        }
    }

    /// Why a line is refused after those above it, if it is.
    pub fn reason_of(&self, line: &Line) -> Option<Reason>
        ensures { result ≡ refusal_of_line (seen_of (above_of self.now)) line.now }
    {
        refusal(line, self.sizes.section, self.saying_of(line))
    }

    /// Adds a label, with the offset of the next byte.
    fn place_label(&mut self, label: Option<Name>) -> Result<(), AsmError>
        requires { is_defined (seen_of (above_of self.old)).names label ≡ false }
        ensures ok { OnOk result (above_of self.new
            ≡ record (above_of self.old) {
              labels = labels_with (above_of self.old).labels label
                  (section_offset_of self.old.sizes);
            }) }
        ensures err { IfErr result (λ e. e ≡ AsmError.NoMemory) }
    {
        if let Some(name) = label {
            let spot = self.sizes.spot();
            self.labels.insert(name, spot)?;
        }
        Ok(())
    }

    /// Lays out one line more, one that is not refused.
    pub fn go_after(&mut self, line: &Line) -> Result<(), AsmError>
        requires room { SizesWithin self.old.sizes (2 ^ 126) }
        requires new { is_defined (seen_of (above_of self.old)).names line.now.label ≡ false }
        ensures ok { OnOk result (above_of self.new
            ≡ above_with (above_of self.old) line.now
            (statement_length (statement_said line.now))) }
        ensures small { OnOk result (GrowsWithin self.old.sizes self.new.sizes (2 ^ 64)) }
        ensures err { IfErr result (λ e. e ≡ AsmError.NoMemory) }
    {
        self.place_label(line.label)?;
        self.sizes = self.sizes.after(line);
        match &line.statement {
            Some(Statement::Separate) => self.sep = true,
            Some(Statement::Entry(name)) => self.entry = Some(*name),
            Some(Statement::Stack(size)) => self.stack = Some(*size),
            _ => {}
        }
        Ok(())
    }

    /// The address at which a section begins, modulo 2^32.
    fn start_of(&self, section: Section) -> u32
        ensures { result ≡ start_of (above_of self.now) section % 2 ^ 32 }
    {
        let before = if self.sep { 0 } else { low(self.sizes.text) };
        match section {
            Section::Text => 0,
            Section::Data => before,
            Section::Bss => before.wrapping_add(low(self.sizes.init)),
        }
    }

    /// The address of a section and an offset, modulo 2^32.
    pub fn address_of(&self, spot: SectionOffset) -> u32
        ensures { result ≡ address_of_offset (above_of self.now) spot }
    {
        self.start_of(spot.section).wrapping_add(low(spot.offset))
    }

    /// The size of the data segment, with the stack, in whole pages.
    fn pages(&self) -> u128
        requires { SizesWithin self.now.sizes (2 ^ 126) }
        ensures { result ≡ total_of (above_of self.now) }
    {
        let text = if self.sep { 0 } else { self.sizes.text };
        let stack = u128::from(self.stack.unwrap_or(2048));
        let used = text + self.sizes.init + self.sizes.bss;
        rounded_to_pages(used + stack).max(PAGE_SIZE)
    }

    /// Whether the data segment is too large, if the text by itself isn't.
    fn is_total_too_large(&self) -> bool
        requires { self.now.sizes.text ≤ 1048576 }
        ensures { result ≡ nat_lt 4194304 (total_of (above_of self.now)) }
    {
        if self.sizes.init > 4_194_304 || self.sizes.bss > 4_194_304 {
            return true;
        }
        self.pages() > 4_194_304
    }

    /// Whether no a.out file can hold what the lines make.
    pub fn is_too_large(&self) -> bool
        ensures { result ≡ is_program_too_large (above_of self.now) }
    {
        self.sizes.text > 1_048_576 || self.labels.len() > 16_384 || self.is_total_too_large()
    }

    /// The size of the data segment, with the stack, in whole pages.
    pub fn total(&self) -> u32
        requires { is_program_too_large (above_of self.now) ≡ false }
        ensures { result ≡ total_of (above_of self.now) }
    {
        self.pages() as u32
    }

    /// The number of a value: of a name, the address of its label.
    pub fn value(&self, value: Value) -> Option<u32>
        ensures { result ≡ value_under (above_of self.now) value }
    {
        let base = match value.name {
            None => 0,
            Some(name) => {
                let spot = self.spot_named(&name)?;
                self.address_of(spot)
            }
        };
        Some(Size::Dword.modulo(i64::from(base) + value.whole()))
    }
}
