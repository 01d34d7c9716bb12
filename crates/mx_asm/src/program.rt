//! The program of a text's lines: entry, symbols and sizes, if no line has a problem.

ghost use Rattle.std.specs.Prelude.{◌≡◌, List, false, length, map, IfOk, IfErr, IsSome};
ghost use Rattle.mx_asm_statement.specs.declared.line.Line.{Line};
ghost use Rattle.mx_asm.specs.Kept.{AreKept};
ghost use Rattle.mx_asm.specs.Layout.{no_lines_above, laid_by};
ghost use Rattle.mx_asm.specs.Faults.{IsFaultOr, fault_after, total_of, is_program_too_large};
ghost use Rattle.mx_asm.specs.View.{above_of};
ghost use Rattle.mx_asm.specs.Assembled.{class_of, symbol_under, entry_under, AreAssembled};

use crate::emit::{Parts, parts_of};
use crate::numbered::NumberedLine;
use crate::{AsmError, Layout};
use mx_aout::{Program, Symbol, Symbols};
use mx_asm_statement::Section;
use mx_text::Name;
use mx_word::Bytes;
use std::alloc::{AllocError, Global};

fn class_of(section: Section) -> u8
    ensures { result ≡ class_of section }
{
    match section {
        Section::Text => 2,
        Section::Data => 3,
        Section::Bss => 4,
    }
}

/// The address at which the program begins: of the label that `.entry` names, or 0.
fn entry_address(layout: &Layout) -> u32
    requires { IsSome (entry_under (above_of layout.now) layout.now.entry) }
    ensures { entry_under (above_of layout.now) layout.now.entry ≡ Some result }
{
    let Some(name) = layout.entry else {
        return 0;
    };
    match layout.spot_named(&name) {
        Some(spot) => layout.address_of(spot),
        None => unreachable!(),
    }
}

/// The labels as symbols.
fn symbols_of(alloc: Global, layout: &Layout) -> Result<Vec<Symbol>, AllocError>
    ensures { IfOk result (λ symbols. symbols.items
        ≡ map (symbol_under (above_of layout.now)) (above_of layout.now).labels) }
{
    let mut symbols = Vec::new(alloc);
    for (name, spot) in layout.labels.iter() {
        symbols.push(Symbol {
            name: name.bytes,
            value: layout.address_of(*spot),
            class: class_of(spot.section),
            auxiliary: 0,
            kind: 0,
        })?;
    }
    Ok(symbols)
}

/// The program of a layout, and of its bytes and symbols.
fn program_with(layout: &Layout, parts: Parts, symbols: Vec<Symbol>) -> Program
    requires fits { is_program_too_large (above_of layout.now) ≡ false }
    requires begins { IsSome (entry_under (above_of layout.now) layout.now.entry) }
    requires text { length parts.text.items ≡ layout.now.sizes.text }
    requires init { length parts.init.items ≡ layout.now.sizes.init }
    requires symbols { symbols.items
        ≡ map (symbol_under (above_of layout.now)) (above_of layout.now).labels }
    ensures sep { result.sep ≡ layout.now.sep }
    ensures entry { entry_under (above_of layout.now) layout.now.entry ≡ Some result.entry }
    ensures total { result.total ≡ total_of (above_of layout.now) }
    ensures text { result.text ≡ parts.text.items }
    ensures init { result.init ≡ parts.init.items }
    ensures bss { result.bss ≡ layout.now.sizes.bss }
    ensures symbols { result.symbols
        ≡ map (symbol_under (above_of layout.now)) (above_of layout.now).labels }
{
    Program {
        sep: layout.sep,
        entry: entry_address(layout),
        total: layout.total(),
        text: Bytes::from_vec(parts.text),
        init: Bytes::from_vec(parts.init),
        bss: layout.sizes.bss as u32,
        symbols: Symbols::from_vec(symbols),
    }
}

/// The program of lines and the layout after them, or the first fault. `count` is the number of all lines of
/// the text, with those that aren't stored.
pub fn program_of(
    alloc: Global,
    layout: &Layout,
    lines: &[NumberedLine],
    count: usize,
) -> Result<Program, AsmError>
    requires { (ls : List Line) × AreKept ls lines.now count
        × (above_of layout.now ≡ laid_by no_lines_above ls) }
    ensures program { (ls : List Line) → AreKept ls lines.now count
        → above_of layout.now ≡ laid_by no_lines_above ls → IfOk result (λ p. AreAssembled ls p) }
    ensures fault { (ls : List Line) → AreKept ls lines.now count
        → above_of layout.now ≡ laid_by no_lines_above ls
        → IfErr result (λ e. IsFaultOr (fault_after ls) e) }
{
    // Faults first: no bytes are made of a text that has one.
    match layout.fault_after(lines, count) {
        Some(fault) => return Err(AsmError::At(fault)),
        None => {}
    }
    let symbols = symbols_of(alloc, layout)?;
    let parts = parts_of(alloc, layout, lines)?;
    Ok(program_with(layout, parts, symbols))
}
