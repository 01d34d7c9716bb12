//! What a debugger finds: names of a program, bytes of a process, and messages that were delivered.

ghost use Rattle.std.specs.Prelude.{◌≡◌, ℕ, ◌≤◌, Some, None, IfOk, IfErr, OnErr, length, take, slice_get};
ghost use Rattle.mx_debug.specs.Finding.{has_name, first_named};
ghost use Rattle.mx_machine.specs.History.{replay};
ghost use Rattle.mx_debug.specs.declared.error.DebugError.TheVariants as errors;

use crate::error::DebugError;
use crate::points::Debugger;
use mx_aout::{Program, Symbol};
use mx_dis::before_zero;
use mx_exec::Image;
use mx_image::Runs;
use mx_machine::Kernel;
use mx_proc::Delivery;

fn is_named(symbol: &Symbol, name: &[u8]) -> bool
    ensures { result ≡ has_name name.now symbol.now }
{
    before_zero(symbol.name.as_slice()) == name
}

impl Debugger {
    /// The value of a program's first symbol of a name, at which a breakpoint may be set; `NoSymbol` if
    /// the program has none of that name.
    pub fn address(program: &Program, name: &[u8]) -> Result<u32, DebugError>
        ensures found { IfOk result (λ value.
            first_named program.now.symbols name.now ≡ Some value) }
        ensures none { OnErr result (first_named program.now.symbols name.now ≡ None) }
        ensures error { IfErr result (λ e. e ≡ errors.NoSymbol) }
    {
        for symbol in program.symbols.as_slice() {
            if is_named(symbol, name) {
                return Ok(symbol.value);
            }
        }
        Err(DebugError::NoSymbol)
    }

    /// The byte of a process's data segment at an address; `NotHere` past its limit.
    pub fn byte(image: &Image, at: u32) -> Result<u8, DebugError>
        ensures found { IfOk result (λ byte. slice_get image.now.memory at ≡ Some byte) }
        ensures none { OnErr result (slice_get image.now.memory at ≡ None) }
        ensures error { IfErr result (λ e. e ≡ errors.NotHere) }
    {
        image.byte(at).ok_or(DebugError::NotHere)
    }

    /// A delivery that the kernel has recorded, counted from the oldest, which is 0.
    pub fn message(kernel: &Kernel, index: usize) -> Option<Delivery>
        ensures { result ≡ slice_get (replay kernel.now).table.deliveries index }
    {
        kernel.delivery(index)
    }
}
