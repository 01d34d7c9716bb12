//! Lists the symbols of a program: address, class and name.

ghost use Rattle.std.specs.Prelude.{◌≡◌, ◌++◌, OnOk, IfOk, string_bytes};
ghost use Rattle.mx_dis.specs.Names.{letter_of, visible_byte, name_text, name_line, name_lines};

use mx_aout::{Program, Symbol};
use mx_insn_words::push_eight_digits;
use mx_word::NoMemory;
use std::alloc::{AllocError, Global};

/// The letter of a symbol's class.
fn letter(class: u8) -> &'static str
    ensures { result.now ≡ letter_of class }
{
    match class % 8 {
        0 => "U",
        1 => "A",
        2 => "T",
        3 => "D",
        4 => "B",
        _ => "?",
    }
}

/// A byte of a name, or a dot if it is no visible character of ASCII.
fn visible(byte: u8) -> u8
    ensures { result ≡ visible_byte byte }
{
    if byte.is_ascii_graphic() { byte } else { b'.' }
}

/// Appends a symbol's name up to its first zero byte, with a dot for each byte that is no visible character.
pub fn push_symbol_name(out: &mut String, name: &[u8]) -> Result<(), AllocError>
    ensures { OnOk result (string_bytes out.new ≡ string_bytes out.old ++ name_text name.now) }
{
    for byte in name {
        if *byte == 0 {
            return Ok(());
        }
        out.push(char::from(visible(*byte)))?;
    }
    Ok(())
}

fn push_symbol(out: &mut String, symbol: &Symbol) -> Result<(), AllocError>
    ensures { OnOk result (string_bytes out.new ≡ string_bytes out.old ++ name_line symbol.now) }
{
    push_eight_digits(out, symbol.value)?;
    out.push_str(" ")?;
    out.push_str(letter(symbol.class))?;
    out.push_str(" ")?;
    push_symbol_name(out, &symbol.name)?;
    out.push_str("\n")
}

/// The symbols of a program, one a line: the value in eight digits, the letter of the class, and
/// the name up to its first zero byte, with a dot for each byte that is no visible character.
pub fn names(alloc: Global, program: &Program) -> Result<String, NoMemory>
    ensures { IfOk result (λ text. string_bytes text ≡ name_lines program.now.symbols) }
{
    let mut out = String::new(alloc);
    for symbol in program.symbols.as_slice() {
        push_symbol(&mut out, symbol)?;
    }
    Ok(out)
}
