//! The symbol of the text that an address lies at or after.

ghost use Rattle.std.specs.Prelude.{◌≡◌, find, option_copied};
ghost use Rattle.mx_look.specs.Nearest.{greater_value, greatest_value, is_at_or_above, nearest_symbol};

use mx_aout::Symbol;

/// The class of a symbol in the text, in its low three bits.
const TEXT: u8 = 2;

/// Whether a symbol is in the text, at an address or above it.
fn is_at_or_above(symbol: &Symbol, at: u32) -> bool
    ensures { result ≡ is_at_or_above at symbol.now }
{
    symbol.class % 8 == TEXT && symbol.value <= at
}

/// A value, or that of a symbol of the text at an address or above it, whichever is greater.
fn greater_value(value: u32, symbol: &Symbol, at: u32) -> u32
    ensures { result ≡ greater_value value at symbol.now }
{
    if is_at_or_above(symbol, at) && symbol.value > value {
        symbol.value
    } else {
        value
    }
}

/// The greatest value of the symbols of the text at an address or above it; 0 if there are none.
fn greatest_value(symbols: &[Symbol], at: u32) -> u32
    ensures { result ≡ greatest_value at symbols.now }
{
    let mut greatest = 0;
    for symbol in symbols {
        greatest = greater_value(greatest, symbol, at);
    }
    greatest
}

/// The nearest symbol of the text at an address or above it; of those with one value, the first.
#[tactic(auto, unfolding(crate::specs::Nearest::nearest_symbol))]
pub fn nearest_symbol(symbols: &[Symbol], at: u32) -> Option<&Symbol>
    ensures { option_copied result ≡ nearest_symbol at symbols.now }
{
    let greatest = greatest_value(symbols, at);
    symbols.iter().find(|symbol| is_at_or_above(symbol, at) && symbol.value == greatest)
}
