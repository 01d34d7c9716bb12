//! A program's variables.

ghost use Rattle.std.specs.Prelude.{◌≡◌, ◌++◌, OnOk, find, option_copied, string_bytes};
ghost use Rattle.mx_look.specs.Variables.{is_variable, is_variable_named, variable_line, variable_named, variable_value};

use mx_aout::Symbol;
use mx_dis::{before_zero, push_symbol_name};
use mx_exec::Image;
use mx_insn_words::push_eight_digits;
use mx_word::Size;
use std::alloc::AllocError;
use std::fmt::Write;

/// The classes of symbols in the data and the bss, in their low three bits.
const DATA: u8 = 3;

const BSS: u8 = 4;

/// Whether a symbol is in the data or the bss.
fn is_variable(symbol: &Symbol) -> bool
    ensures { result ≡ is_variable symbol.now }
{
    let class = symbol.class % 8;
    class == DATA || class == BSS
}

fn is_variable_named(symbol: &Symbol, name: &[u8]) -> bool
    ensures { result ≡ is_variable_named name.now symbol.now }
{
    is_variable(symbol) && before_zero(symbol.name.as_slice()) == name
}

/// The first symbol of the data or bss of this name.
pub fn variable_named<'a>(symbols: &'a [Symbol], name: &[u8]) -> Option<&'a Symbol>
    ensures { option_copied result ≡ variable_named name.now symbols.now }
{
    symbols
        .iter()
        .find(|symbol| is_variable_named(symbol, name))
}

/// The dword of a variable in a process's memory, if it is inside.
pub fn variable_value(image: &Image, symbol: &Symbol) -> Option<u32>
    ensures { result ≡ variable_value image.now symbol.now }
{
    image.memory.read(symbol.value, Size::Dword).ok()
}

/// Appends the line of a variable that holds a dword: `00000024 count fffffffe -2`.
#[tactic(auto, unfolding(crate::specs::Variables::variable_line))]
pub fn push_variable(out: &mut String, symbol: &Symbol, value: u32) -> Result<(), AllocError>
    ensures { OnOk result (string_bytes out.new ≡ string_bytes out.old
        ++ variable_line symbol.now value) }
{
    push_eight_digits(out, symbol.value)?;
    out.push_str(" ")?;
    push_symbol_name(out, &symbol.name)?;
    out.push_str(" ")?;
    push_eight_digits(out, value)?;
    let signed = value.cast_signed();
    writeln!(out, " {signed}")
}
