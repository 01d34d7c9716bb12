//! The lines of the code from an address of a process on.

ghost use Rattle.std.specs.Prelude.{◌≡◌, ◌++◌, OnOk, string_bytes};
ghost use Rattle.mx_look.specs.Lines.{code_lines};

use crate::code::{code_part, push_code_line};
use mx_aout::Symbol;
use mx_exec::Image;
use std::alloc::AllocError;

/// Appends the lines of at most `count` instructions from an address on, up to the end of the code.
pub fn push_code_lines(
    out: &mut String,
    symbols: &[Symbol],
    image: &Image,
    from: u32,
    count: u32,
) -> Result<(), AllocError>
    ensures { OnOk result (string_bytes out.new ≡ string_bytes out.old
        ++ code_lines count symbols.now image.now from) }
{
    let mut at = from;
    for _ in 0..count {
        let Some(part) = code_part(image, at) else {
            return Ok(());
        };
        push_code_line(out, symbols, image, at)?;
        at = at.wrapping_add(u32::from(part.size()));
    }
    Ok(())
}
