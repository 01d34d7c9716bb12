//! Copies of services, for a machine more.

ghost use Rattle.std.specs.Prelude.{◌≡◌, IfOk};

use mx_aout::{Program, Symbols};
use mx_machine::Service;
use mx_word::{Bytes, NoMemory};
use std::alloc::Global;

/// A copy of bytes.
fn copy_bytes(alloc: Global, bytes: &Bytes) -> Result<Bytes, NoMemory>
    ensures { IfOk result (λ copy. copy ≡ bytes.now) }
{
    let copy = Vec::from_slice(alloc, bytes.as_slice())?;
    Ok(Bytes::from_vec(copy))
}

/// A copy of symbols.
fn copy_symbols(alloc: Global, symbols: &Symbols) -> Result<Symbols, NoMemory>
    ensures { IfOk result (λ copy. copy ≡ symbols.now) }
{
    let copy = Vec::from_slice(alloc, symbols.as_slice())?;
    Ok(Symbols::from_vec(copy))
}

/// A copy of a program.
fn copy_program(alloc: Global, program: &Program) -> Result<Program, NoMemory>
    ensures { IfOk result (λ copy. copy ≡ program.now) }
{
    let text = copy_bytes(alloc, &program.text)?;
    let init = copy_bytes(alloc, &program.init)?;
    let symbols = copy_symbols(alloc, &program.symbols)?;
    Ok(Program {
        sep: program.sep,
        entry: program.entry,
        total: program.total,
        text,
        init,
        bss: program.bss,
        symbols,
    })
}

/// A copy of a service.
fn copy_service(alloc: Global, service: &Service) -> Result<Service, NoMemory>
    ensures { IfOk result (λ copy. copy ≡ service.now) }
{
    let program = copy_program(alloc, &service.program)?;
    Ok(Service {
        name: service.name,
        program,
        terms: service.terms,
    })
}

/// Copies of services, in order.
pub fn copy_services(alloc: Global, services: &[Service]) -> Result<Vec<Service>, NoMemory>
    ensures { IfOk result (λ copies. copies.items ≡ services.now) }
{
    let mut copies = Vec::with_capacity(alloc, services.len())?;
    for service in services {
        let Ok(()) = copies.push(copy_service(alloc, service)?) else {
            return Err(NoMemory);
        };
    }
    Ok(copies)
}
