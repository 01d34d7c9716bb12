//! The kernel at boot: its table, its processors without a process, and its services.

ghost use Rattle.std.specs.Prelude.{◌≡◌, ◌≤◌, [], IfOk, OnOk, OnErr, None, length, replicate};
ghost use Rattle.mx_ipc.specs.Proc.TableState.{empty_table};
ghost use Rattle.mx_machine.specs.Boot.{first_table};
ghost use Rattle.mx_machine.specs.KernelState.{kernel_state_at_boot};

use crate::current::CurrentState;
use crate::{Config, Lease, Service, load};
use mx_proc::{Rules, Table};
use mx_word::NoMemory;
use std::alloc::Global;
use std::mem;

/// Gives each service its slot, with its program loaded.
fn enter(alloc: Global, table: &mut Table, services: &[Service]) -> Result<(), NoMemory>
    requires empty { table.old ≡ empty_table table.old.rules }
    requires few { length services.now ≤ 32 }
    ensures { OnOk result (table.new ≡ first_table table.old.rules services.now) }
{
    for service in services {
        let mut image = load(alloc, &service.program)?;
        table.add(alloc, &mut image, service.terms)?;
    }
    Ok(())
}

/// The table of services.
fn first_table(alloc: Global, rules: Rules, services: &[Service]) -> Result<Table, NoMemory>
    requires { length services.now ≤ 32 }
    ensures { IfOk result (λ table. table ≡ first_table rules services.now) }
{
    let mut table = Table::new(alloc, rules)?;
    enter(alloc, &mut table, services)?;
    Ok(table)
}

/// `cpus` processors, each without a process.
fn no_leases(alloc: Global, cpus: u8) -> Result<Vec<Option<Lease>>, NoMemory>
    ensures { IfOk result (λ leases. leases.items ≡ replicate cpus None) }
{
    Ok(vec![in alloc; None; cpus as usize]?)
}

/// The kernel's state at boot. The services are moved out of the list, which is left empty; if memory runs
/// out, they stay.
pub(crate) fn first_present(
    alloc: Global,
    config: &Config,
    services: &mut Vec<Service>,
) -> Result<CurrentState, NoMemory>
    requires { length services.old.items ≤ 32 }
    ensures booted { IfOk result (λ present.
        present ≡ kernel_state_at_boot config.now.rules services.old.items config.now.cpus
        config.now.others config.now.log) }
    ensures emptied { OnOk result (services.new.items ≡ []) }
    ensures same { OnErr result (services.new.items ≡ services.old.items) }
{
    let table = first_table(alloc, config.rules, services.as_slice())?;
    let leases = no_leases(alloc, config.cpus)?;
    // Nothing after this can fail: so if memory runs out, the services are where they were.
    let entered = mem::replace(services, Vec::new(alloc));
    let present = CurrentState::new(table, leases, config.others, entered, config.log);
    Ok(present)
}
